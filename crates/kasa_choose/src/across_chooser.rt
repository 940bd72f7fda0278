// The chooser of families across a bond.
use crate::across::all_across;
use crate::rest::Rest;
use crate::{Chooser, Kind};
use kasa_families::Family;
use kasa_num::NoMemory;
use kasa_rules::Model;
use std::alloc::Global;

/// Plans families across a bond: for each bond between two left nodes of a rule, the pairs of a site that the one mentions
/// and a site that the other does, apart from the bond's own sites.
#[derive(Drop)]
pub struct AcrossChooser {
    alloc: Global,
    rest: Rest,
}

impl AcrossChooser {
    /// A chooser that has nothing planned yet.
    pub fn new(alloc: Global) -> AcrossChooser {
        AcrossChooser {
            alloc,
            rest: Rest::empty(alloc),
        }
    }
}

impl Chooser for AcrossChooser {
    ghost use Rattle.kasa_choose.specs.declared.kind.Kind.TheVariants.{Across};
    ghost use Rattle.kasa_choose.specs.Across.{across_plan};

    ghost kind = { λ _. Across };

    ghost plan = { λ _ model. across_plan model };

    ghost left = { λ c. c.rest };

    fn kind(&self) -> Kind {
        Kind::Across
    }

    fn begin(&mut self, model: &Model) -> Result<(), NoMemory> {
        self.rest = Rest::all(all_across(self.alloc, model)?);
        Ok(())
    }

    fn next(&mut self) -> Option<Family> {
        self.rest.next()
    }
}
