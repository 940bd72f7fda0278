// The chooser of chains.
use crate::chains::all_chains;
use crate::rest::Rest;
use crate::{Chooser, Kind};
use kasa_families::Family;
use kasa_num::NoMemory;
use kasa_rules::Model;
use std::alloc::Global;

/// Plans chains: for each two bonds of a left node of a rule to two other left nodes, the pairs of a site that the one outer
/// node mentions and a site that the other does, apart from the bonds' own sites.
#[derive(Drop)]
pub struct ChainChooser {
    alloc: Global,
    rest: Rest,
}

impl ChainChooser {
    /// A chooser that has nothing planned yet.
    pub fn new(alloc: Global) -> ChainChooser {
        ChainChooser {
            alloc,
            rest: Rest::empty(alloc),
        }
    }
}

impl Chooser for ChainChooser {
    ghost use Rattle.kasa_choose.specs.declared.kind.Kind.TheVariants.{Chains};
    ghost use Rattle.kasa_choose.specs.Chains.{chain_plan};

    ghost kind = { λ _. Chains };

    ghost plan = { λ _ model. chain_plan model };

    ghost left = { λ c. c.rest };

    fn kind(&self) -> Kind {
        Kind::Chains
    }

    fn begin(&mut self, model: &Model) -> Result<(), NoMemory> {
        self.rest = Rest::all(all_chains(self.alloc, model)?);
        Ok(())
    }

    fn next(&mut self) -> Option<Family> {
        self.rest.next()
    }
}
