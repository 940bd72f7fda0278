// What is answered: arrows between rules, and lists of them.
ghost use Rattle.std.specs.Prelude.{◌≡◌};

use kasa_num::RuleNo;
use std::marker::Model;

/// From one rule to another, by their places among the model's rules.
#[derive(Clone, Copy, PartialEq, Eq, PartialOrd, Ord, Debug)]
pub struct Arrow {
    pub from: RuleNo,
    pub to: RuleNo,
}

/// Arrows, one after another.
#[derive(Drop)]
pub struct ArrowList {
    items: Vec<Arrow>,
}

impl Model for ArrowList {
    ghost use Rattle.std.specs.Prelude.{List};
    ghost use Rattle.kasa_influence.specs.declared.map.Arrow.{Arrow};

    ghost Value = { List Arrow };

    ghost view = { λ a. a.items.items };
}

impl ArrowList {
    /// The list of these arrows. It takes no memory.
    pub fn new(items: Vec<Arrow>) -> ArrowList
        ensures { result ≡ items.items }
    {
        ArrowList { items }
    }

    /// The arrows, in order. It takes no memory.
    pub fn as_slice(&self) -> &[Arrow]
        ensures { result.now ≡ self.now }
    {
        self.items.as_slice()
    }
}

/// The rules that may make embeddings of others' left patterns, and those that may stop some.
#[derive(Drop)]
pub struct Arrows {
    pub positive: ArrowList,
    pub negative: ArrowList,
}
