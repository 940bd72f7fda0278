// What is answered: bonds and states, lists of them, and the verdict on polymers.
ghost use Rattle.std.specs.Prelude.{◌≡◌};

use kasa_num::{AgentType, SiteNo, StateNo};
use std::marker::Model;

/// A bond between two sites, read from the first.
#[derive(Clone, Copy, PartialEq, Eq, PartialOrd, Ord, Debug)]
pub struct Bond {
    pub a: AgentType,
    pub x: SiteNo,
    pub b: AgentType,
    pub y: SiteNo,
}

/// A state that a site can have.
#[derive(Clone, Copy, PartialEq, Eq, PartialOrd, Ord, Debug)]
pub struct StateSeen {
    pub a: AgentType,
    pub x: SiteNo,
    pub u: StateNo,
}

/// Bonds, one after another.
#[derive(Drop)]
pub struct Bonds {
    items: Vec<Bond>,
}

impl Model for Bonds {
    ghost use Rattle.std.specs.Prelude.{List};
    ghost use Rattle.kasa_polymers.specs.declared.map.Bond.{Bond};

    ghost Value = { List Bond };

    ghost view = { λ a. a.items.items };
}

impl Bonds {
    /// The list of these bonds. It takes no memory.
    pub fn new(items: Vec<Bond>) -> Bonds
        ensures { result ≡ items.items }
    {
        Bonds { items }
    }

    /// The bonds, in order. It takes no memory.
    pub fn as_slice(&self) -> &[Bond]
        ensures { result.now ≡ self.now }
    {
        self.items.as_slice()
    }
}

/// States, one after another.
#[derive(Drop)]
pub struct StatesSeen {
    items: Vec<StateSeen>,
}

impl Model for StatesSeen {
    ghost use Rattle.std.specs.Prelude.{List};
    ghost use Rattle.kasa_polymers.specs.declared.map.StateSeen.{StateSeen};

    ghost Value = { List StateSeen };

    ghost view = { λ a. a.items.items };
}

impl StatesSeen {
    /// The list of these states. It takes no memory.
    pub fn new(items: Vec<StateSeen>) -> StatesSeen
        ensures { result ≡ items.items }
    {
        StatesSeen { items }
    }

    /// The states, in order. It takes no memory.
    pub fn as_slice(&self) -> &[StateSeen]
        ensures { result.now ≡ self.now }
    {
        self.items.as_slice()
    }
}

/// The bonds, each in both directions, and the states that can be there.
#[derive(Drop)]
pub struct ContactMap {
    pub bonds: Bonds,
    pub states: StatesSeen,
}

/// How large species can become: the most cells of one, that this passes 64 bits, or a cycle of the step graph, where
/// nothing bounds them.
#[derive(Drop)]
pub enum Polymers {
    AtMost(u64),
    Beyond,
    Cycle(Bonds),
}
