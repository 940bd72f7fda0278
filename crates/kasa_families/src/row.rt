// Rows: what they say of the sites of their family's root.
ghost use Rattle.std.specs.Prelude.{◌≡◌, ◌≤◌, length};

use kasa_num::{AgentType, SiteNo, StateNo};
use smallvec::SmallVec;
use std::alloc::Global;
use std::marker::Model;

/// The link of a site, seen from its own agent.
#[derive(Clone, Copy, Debug, Default, PartialEq, Eq, PartialOrd, Ord, Hash)]
pub enum LocalLink {
    #[default]
    Free,
    Partner(AgentType, SiteNo),
}

/// The local state of a site: its state, where it has states, and its link.
#[derive(Clone, Copy, Debug, Default, PartialEq, Eq, PartialOrd, Ord, Hash)]
pub struct Local {
    pub state: Option<StateNo>,
    pub link: LocalLink,
}

/// The local states of a row, at most 16, which are kept in the value.
#[derive(Debug, Drop, PartialEq, Eq, PartialOrd, Ord, Hash)]
pub struct Locals {
    items: SmallVec<Local, 16>,
}

impl Model for Locals {
    ghost use Rattle.std.specs.Prelude.{List, ◌≡◌, ◌≤◌, length};
    ghost use Rattle.kasa_families.specs.declared.row.Local.{Local};

    ghost Value = { List Local };

    ghost view = { λ a. a.items.items };

    ghost invariant = { λ a. (a.items.capacity ≡ 16) × (length a.items.items ≤ 16) };

    ghost inverse = { λ list. record { items = record { items = list; capacity = 16 } } };

    ghost use Rattle.kasa_families.specs.Inline.{capacity_is};

    ghost inverse_ok = { λ a h. capacity_is a h.0 };
}

impl Locals {
    /// The row of these local states. It takes no memory.
    pub fn new(alloc: Global, locals: &[Local]) -> Locals
        requires { length locals.now ≤ 16 }
        ensures { result ≡ locals.now }
    {
        Locals {
            items: SmallVec::from_slice(alloc, locals).unwrap(),
        }
    }

    /// The local states. It takes no memory.
    pub fn as_slice(&self) -> &[Local]
        ensures value { result.now ≡ self.now }
        ensures few { length self.now ≤ 16 }
    {
        self.items.as_slice()
    }

    /// An equal row. It takes no memory.
    pub fn copy(&self) -> Locals
        ensures { result ≡ self.now }
    {
        let alloc = *self.items.allocator();
        Locals::new(alloc, self.as_slice())
    }
}

/// What a row says of the agents of its family's root.
#[derive(Debug, Drop, PartialEq, Eq, PartialOrd, Ord, Hash)]
pub enum Row {
    Locals(Locals),
    Same,
    Different,
}

impl Row {
    /// An equal row. It takes no memory.
    pub fn copy(&self) -> Row
        ensures { result ≡ self.now }
    {
        match self {
            Row::Locals(locals) => Row::Locals(locals.copy()),
            Row::Same => Row::Same,
            Row::Different => Row::Different,
        }
    }
}
