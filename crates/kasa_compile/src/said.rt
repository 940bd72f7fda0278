// What agents of a text say on one side, in the numbers of a signature.
use kasa_graph::StateTest;
use kasa_num::{AgentType, SiteNo};
use std::marker::Model;

/// A link as it is written.
#[derive(Clone, Copy, PartialEq, Eq, Debug)]
pub enum LinkSaid {
    /// `#`.
    Any,
    /// `.`.
    Free,
    /// `_`.
    Bound,
    /// `s.B`.
    Partner(AgentType, SiteNo),
    /// A label.
    Label(u16),
}

/// A site as it is written on one side: its name's offset and number, its state (`#` is `Any`) and its link, where they
/// are given, and whether a `/` stands in its braces or brackets.
#[derive(Clone, Copy, PartialEq, Eq, Debug)]
pub struct SiteSaid {
    pub at: u32,
    pub site: SiteNo,
    pub state: Option<StateTest>,
    pub link: Option<LinkSaid>,
    pub slash: bool,
}

/// Sites as they are written.
#[derive(Debug, Drop)]
pub struct SitesSaid {
    pub items: Vec<SiteSaid>,
}

impl Model for SitesSaid {
    ghost use Rattle.std.specs.Prelude.{List};
    ghost use Rattle.kasa_compile.specs.declared.said.SiteSaid.{SiteSaid};

    ghost Value = { List SiteSaid };

    ghost view = { λ list. list.items.items };
}

/// An agent as it is written on one side: its name's offset, its type and its sites in text order.
#[derive(Debug, Drop)]
pub struct AgentSaid {
    pub at: u32,
    pub agent: AgentType,
    pub sites: SitesSaid,
}

/// What stands at one place of a rule: an agent on the left, on the right, on both or on neither.
#[derive(Debug, Drop)]
pub struct Pair {
    pub left: Option<AgentSaid>,
    pub right: Option<AgentSaid>,
}
