// Sources of families.
ghost use Rattle.std.specs.Prelude.{◌≡◌, ◌∷◌, [], List, OnOk, IfSome, IfNone};
ghost use Rattle.kasa_choose.specs.declared.kind.Kind.{Kind};
ghost use Rattle.kasa_families.specs.declared.family.Family.{Family};
ghost use Rattle.kasa_rules.specs.declared.model.Model.{Model as Declared};

use crate::Kind;
use kasa_families::Family;
use kasa_num::NoMemory;
use kasa_rules::Model;

/// A source of families of one kind. It is used boxed, so that a caller may hand in its own.
pub trait Chooser: Drop {
    ghost kind: { Self → Kind };

    ghost plan: { Self → Declared → List Family };

    ghost left: { Self → List Family };

    /// The kind of the families that it plans. It takes no memory.
    fn kind(&self) -> Kind
        ensures { result ≡ kind self.now };

    /// Plans the families of a model. From then on they are given one by one.
    fn begin(&mut self, model: &Model) -> Result<(), NoMemory>
        ensures { OnOk result (left self.new ≡ plan self.old model.now) };

    /// The next of the planned families; None exactly where none is left. It takes no memory.
    fn next(&mut self) -> Option<Family>
        ensures some { IfSome result (λ f. left self.old ≡ f ∷ left self.new) }
        ensures none { IfNone result (left self.old ≡ []) };
}
