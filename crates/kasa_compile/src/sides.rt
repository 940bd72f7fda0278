// The two sides of a rule.
ghost use Rattle.std.specs.Prelude.{◌≡◌, ◌<◌, length, Some, None, IfOk, OnOk};
ghost use Rattle.kasa_compile.specs.Rule.{end_at};
ghost use Rattle.kasa_compile.specs.Sides.{with_pair, sides_of};
ghost use Rattle.kasa_compile.specs.SidesView.{end_of};

use crate::said::{AgentSaid, Pair};
use kasa_num::NoMemory;
use std::alloc::Global;
use std::marker::Model;

/// What an agent on the right of a rule is: the one at this place on the left, or the one that is created at this place
/// among those created.
#[derive(Clone, Copy, PartialEq, Eq, Debug)]
pub enum Origin {
    Left(usize),
    Made(usize),
}

/// The agents on the left and on the right of a rule in order; for each on the left its number on the right, none where
/// it is deleted; for each on the right what it is in the rule; and the numbers on the right of those that are created.
#[derive(Drop)]
pub struct Sides {
    pub left: Vec<AgentSaid>,
    pub right: Vec<AgentSaid>,
    pub after: Vec<Option<usize>>,
    pub ends: Vec<Origin>,
    pub made: Vec<usize>,
}

impl Model for Sides {
    ghost use Rattle.std.specs.Prelude.{map};
    ghost use Rattle.kasa_compile.specs.Sides.{SidesParts};
    ghost use Rattle.kasa_compile.specs.SidesView.{end_of};

    ghost Value = { SidesParts };

    ghost view = { λ x. record { left = x.left.items; right = x.right.items; after = x.after.items; ends = map end_of x.ends.items; made = x.made.items } };
}

impl Sides {
    /// The sides of a rule whose agents stand in these pairs.
    pub fn of(alloc: Global, pairs: Vec<Pair>) -> Result<Sides, NoMemory>
        ensures { IfOk result (λ sides. sides ≡ sides_of pairs.items) }
    {
        let mut sides = Sides {
            left: Vec::new(alloc),
            right: Vec::new(alloc),
            after: Vec::new(alloc),
            ends: Vec::new(alloc),
            made: Vec::new(alloc),
        };
        for pair in pairs {
            sides.add(pair.left, pair.right)?;
        }
        Ok(sides)
    }

    /// What the k-th agent on the right is.
    pub fn origin(&self, k: usize) -> Origin
        requires { k < length self.now.ends }
        ensures { end_of result ≡ end_at self.now.ends k }
    {
        let ends = &self.ends;
        ends[k]
    }

    // Adds what stands at one more place.
    fn add(&mut self, left: Option<AgentSaid>, right: Option<AgentSaid>) -> Result<(), NoMemory>
        ensures { OnOk result (self.new ≡ with_pair self.old left right) }
    {
        match (left, right) {
            (Some(left), Some(right)) => self.keep(left, right),
            (Some(left), None) => self.delete(left),
            (None, Some(right)) => self.create(right),
            (None, None) => Ok(()),
        }
    }

    // Adds an agent that stays.
    fn keep(&mut self, left: AgentSaid, right: AgentSaid) -> Result<(), NoMemory>
        ensures { OnOk result (self.new ≡ with_pair self.old (Some left) (Some right)) }
    {
        self.after.push(Some(self.right.len()))?;
        self.ends.push(Origin::Left(self.left.len()))?;
        self.left.push(left)?;
        self.right.push(right)?;
        Ok(())
    }

    // Adds an agent that is deleted.
    fn delete(&mut self, left: AgentSaid) -> Result<(), NoMemory>
        ensures { OnOk result (self.new ≡ with_pair self.old (Some left) None) }
    {
        self.after.push(None)?;
        self.left.push(left)?;
        Ok(())
    }

    // Adds an agent that is created.
    fn create(&mut self, right: AgentSaid) -> Result<(), NoMemory>
        ensures { OnOk result (self.new ≡ with_pair self.old None (Some right)) }
    {
        self.ends.push(Origin::Made(self.made.len()))?;
        self.made.push(self.right.len())?;
        self.right.push(right)?;
        Ok(())
    }
}
