// The chooser of parallel families.
use crate::parallel::all_parallel;
use crate::rest::Rest;
use crate::{Chooser, Kind};
use kasa_families::Family;
use kasa_num::NoMemory;
use kasa_rules::Model;
use std::alloc::Global;

/// Plans parallel families: for each two bonds that are possible between two sites of a type and two sites of another one. A
/// bond is possible that a declared complex has, or that a rule writes or creates.
#[derive(Drop)]
pub struct ParallelChooser {
    alloc: Global,
    rest: Rest,
}

impl ParallelChooser {
    /// A chooser that has nothing planned yet.
    pub fn new(alloc: Global) -> ParallelChooser {
        ParallelChooser {
            alloc,
            rest: Rest::empty(alloc),
        }
    }
}

impl Chooser for ParallelChooser {
    ghost use Rattle.kasa_choose.specs.declared.kind.Kind.TheVariants.{Parallel};
    ghost use Rattle.kasa_choose.specs.Parallel.{parallel_plan};

    ghost kind = { λ _. Parallel };

    ghost plan = { λ _ model. parallel_plan model };

    ghost left = { λ c. c.rest };

    fn kind(&self) -> Kind {
        Kind::Parallel
    }

    fn begin(&mut self, model: &Model) -> Result<(), NoMemory> {
        self.rest = Rest::all(all_parallel(self.alloc, model)?);
        Ok(())
    }

    fn next(&mut self) -> Option<Family> {
        self.rest.next()
    }
}
