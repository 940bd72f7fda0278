// The chooser of views.
use crate::planned::MOST;
use crate::rest::Rest;
use crate::views::all_views;
use crate::{Chooser, Kind};
use kasa_families::Family;
use kasa_num::NoMemory;
use kasa_rules::Model;
use std::alloc::Global;

/// Plans views: for each type the largest of the sets of sites that the left nodes of rules mention, and of those that
/// none does. They are the covering classes of KaSa.
#[derive(Drop)]
pub struct ViewChooser {
    alloc: Global,
    rest: Rest,
}

impl ViewChooser {
    /// A chooser that has nothing planned yet.
    pub fn new(alloc: Global) -> ViewChooser {
        ViewChooser {
            alloc,
            rest: Rest::empty(alloc),
        }
    }
}

impl Chooser for ViewChooser {
    ghost use Rattle.kasa_choose.specs.declared.kind.Kind.TheVariants.{Views};
    ghost use Rattle.kasa_choose.specs.Views.{view_plan};

    ghost kind = { λ _. Views };

    ghost plan = { λ _ model. view_plan model };

    ghost left = { λ c. c.rest };

    fn kind(&self) -> Kind {
        Kind::Views
    }

    fn begin(&mut self, model: &Model) -> Result<(), NoMemory> {
        let mut families = all_views(self.alloc, model)?;
        families.truncate(MOST + 1);
        self.rest = Rest::all(families);
        Ok(())
    }

    fn next(&mut self) -> Option<Family> {
        self.rest.next()
    }
}
