// Agents as inits and rules write them.
ghost use Rattle.std.specs.Prelude.{◌≡◌};

use crate::Span;
use std::marker::Model;

/// A state as it is written: `#` for any, or a name.
#[derive(Clone, Copy, Debug, PartialEq, Eq)]
pub enum StateWord {
    Hash,
    Named(Span),
}

/// What stands in the braces of a site. The right word stands behind a `/`.
#[derive(Clone, Copy, Debug, PartialEq, Eq)]
pub struct StateText {
    pub left: StateWord,
    pub right: Option<StateWord>,
}

/// A link as it is written.
#[derive(Clone, Copy, Debug, PartialEq, Eq)]
pub enum LinkWord {
    /// `.`.
    Free,
    /// `#`.
    Hash,
    /// `_`.
    Bound,
    /// A site's name, `.` and a type's name.
    Partner { site: Span, agent: Span },
    /// The label of a bond.
    Label { number: u16, span: Span },
}

/// What stands in the brackets of a site. The right word stands behind a `/`.
#[derive(Clone, Copy, Debug, PartialEq, Eq)]
pub struct LinkText {
    pub left: LinkWord,
    pub right: Option<LinkWord>,
}

/// A site of an agent.
#[derive(Clone, Copy, Debug, PartialEq, Eq)]
pub struct SiteText {
    pub name: Span,
    pub state: Option<StateText>,
    pub link: Option<LinkText>,
}

/// The sites of an agent.
#[derive(Debug, Drop)]
pub struct SiteTexts {
    items: Vec<SiteText>,
}

impl Model for SiteTexts {
    ghost use Rattle.std.specs.Prelude.{List};
    ghost use Rattle.kasa_syntax.specs.declared.agents.SiteText.{SiteText};

    ghost Value = { List SiteText };

    ghost view = { λ list. list.items.items };
}

impl SiteTexts {
    /// The list of these sites. It takes no memory.
    pub fn new(items: Vec<SiteText>) -> SiteTexts
        ensures { result ≡ items.items }
    {
        SiteTexts { items }
    }

    /// The sites, in text order. It takes no memory.
    pub fn as_slice(&self) -> &[SiteText]
        ensures { result.now ≡ self.now }
    {
        self.items.as_slice()
    }
}

/// What stands behind an agent: nothing, `+` for one that is created, or `-` for one that is deleted.
#[derive(Clone, Copy, Debug, PartialEq, Eq)]
pub enum Mark {
    Plain,
    Plus,
    Minus,
}

/// An agent of an init or a rule.
#[derive(Debug, Drop)]
pub struct AgentText {
    pub name: Span,
    pub sites: SiteTexts,
    pub mark: Mark,
}

/// The agents of an init.
#[derive(Debug, Drop)]
pub struct AgentTexts {
    items: Vec<AgentText>,
}

impl Model for AgentTexts {
    ghost use Rattle.std.specs.Prelude.{List};
    ghost use Rattle.kasa_syntax.specs.declared.agents.AgentText.{AgentText};

    ghost Value = { List AgentText };

    ghost view = { λ list. list.items.items };
}

impl AgentTexts {
    /// The list of these agents. It takes no memory.
    pub fn new(items: Vec<AgentText>) -> AgentTexts
        ensures { result ≡ items.items }
    {
        AgentTexts { items }
    }

    /// The agents, in text order. It takes no memory.
    pub fn as_slice(&self) -> &[AgentText]
        ensures { result.now ≡ self.now }
    {
        self.items.as_slice()
    }
}
