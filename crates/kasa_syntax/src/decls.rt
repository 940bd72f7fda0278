// Declarations.
ghost use Rattle.std.specs.Prelude.{◌≡◌};

use crate::{AgentText, AgentTexts, Span};
use std::marker::Model;

/// Words of a text.
#[derive(Debug, Drop)]
pub struct Spans {
    items: Vec<Span>,
}

impl Model for Spans {
    ghost use Rattle.std.specs.Prelude.{List};
    ghost use Rattle.kasa_syntax.specs.declared.tokens.Span.{Span};

    ghost Value = { List Span };

    ghost view = { λ list. list.items.items };
}

impl Spans {
    /// The list of these words. It takes no memory.
    pub fn new(items: Vec<Span>) -> Spans
        ensures { result ≡ items.items }
    {
        Spans { items }
    }

    /// The words, in text order. It takes no memory.
    pub fn as_slice(&self) -> &[Span]
        ensures { result.now ≡ self.now }
    {
        self.items.as_slice()
    }
}

/// A site of an agent declaration, with its states.
#[derive(Debug, Drop)]
pub struct SiteDecl {
    pub name: Span,
    pub states: Spans,
}

/// The sites of an agent declaration.
#[derive(Debug, Drop)]
pub struct SiteDecls {
    items: Vec<SiteDecl>,
}

impl Model for SiteDecls {
    ghost use Rattle.std.specs.Prelude.{List};
    ghost use Rattle.kasa_syntax.specs.declared.decls.SiteDecl.{SiteDecl};

    ghost Value = { List SiteDecl };

    ghost view = { λ list. list.items.items };
}

impl SiteDecls {
    /// The list of these sites. It takes no memory.
    pub fn new(items: Vec<SiteDecl>) -> SiteDecls
        ensures { result ≡ items.items }
    {
        SiteDecls { items }
    }

    /// The sites, in text order. It takes no memory.
    pub fn as_slice(&self) -> &[SiteDecl]
        ensures { result.now ≡ self.now }
    {
        self.items.as_slice()
    }
}

/// The declaration of an agent type.
#[derive(Debug, Drop)]
pub struct AgentDecl {
    pub name: Span,
    pub sites: SiteDecls,
}

/// A declared complex: one that may be there at first, or one that may be added at any moment.
/// `start` runs from the first byte of an init's declaration, or of an addition's `$ADD`, to the
/// last byte of the complex.
#[derive(Debug, Drop)]
pub struct InitDecl {
    pub start: Span,
    pub agents: AgentTexts,
}

/// One of the agents of a rule's side, or `.`, where there is none.
#[derive(Debug, Drop)]
pub enum Item {
    Absent,
    Agent(AgentText),
}

/// A side of a rule, or a rule's body without an arrow.
#[derive(Debug, Drop)]
pub struct Items {
    items: Vec<Item>,
}

impl Model for Items {
    ghost use Rattle.std.specs.Prelude.{List};
    ghost use Rattle.kasa_syntax.specs.declared.decls.Item.{Item};

    ghost Value = { List Item };

    ghost view = { λ list. list.items.items };
}

impl Items {
    /// The list of these items. It takes no memory.
    pub fn new(items: Vec<Item>) -> Items
        ensures { result ≡ items.items }
    {
        Items { items }
    }

    /// The items, in text order. It takes no memory.
    pub fn as_slice(&self) -> &[Item]
        ensures { result.now ≡ self.now }
    {
        self.items.as_slice()
    }
}

/// The body of a rule: without an arrow, or with one. `both` says that the arrow is `<->`.
#[derive(Debug, Drop)]
pub enum Form {
    Edit(Items),
    Arrow {
        left: Items,
        right: Items,
        both: bool,
    },
}

/// A rule. The span of a name has its quotes in it.
#[derive(Debug, Drop)]
pub struct RuleText {
    pub start: Span,
    pub name: Option<Span>,
    pub form: Form,
}

/// A declaration that says something of the model.
#[derive(Debug, Drop)]
pub enum Decl {
    Agent(AgentDecl),
    Init(InitDecl),
    /// An addition of a `%mod` declaration, which may have several.
    Add(InitDecl),
    Rule(RuleText),
}
