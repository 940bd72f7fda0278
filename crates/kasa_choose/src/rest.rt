// Families that are given one by one.
ghost use Rattle.std.specs.Prelude.{◌≡◌, ◌∷◌, [], IfSome, IfNone};

use kasa_families::Family;
use std::alloc::Global;
use std::marker::Model;

// The families that are left of a plan. They stand in reverse order, so that the next one can be taken from the end.
#[derive(Drop)]
pub(crate) struct Rest {
    reversed: Vec<Family>,
}

impl Model for Rest {
    ghost use Rattle.std.specs.Prelude.{List, reverse};
    ghost use Rattle.kasa_families.specs.declared.family.Family.{Family as Declared};

    ghost Value = { List Declared };

    ghost view = { λ r. reverse r.reversed.items };
}

impl Rest {
    pub(crate) fn empty(alloc: Global) -> Rest
        ensures { result ≡ [] }
    {
        Rest {
            reversed: Vec::new(alloc),
        }
    }

    // All of these families.
    pub(crate) fn all(mut families: Vec<Family>) -> Rest
        ensures { result ≡ families.items }
    {
        families.reverse();
        Rest { reversed: families }
    }

    pub(crate) fn next(&mut self) -> Option<Family>
        ensures some { IfSome result (λ f. self.old ≡ f ∷ self.new) }
        ensures none { IfNone result (self.old ≡ []) }
    {
        self.reversed.pop()
    }
}
