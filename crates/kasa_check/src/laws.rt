//! Laws of the verdict on tables.

ghost use Rattle.std.specs.Prelude.{◌≡◌, List};
ghost use Rattle.kasa_lists.specs.Lists.{Has};
ghost use Rattle.kasa_families.specs.declared.family.Family.{Family};
ghost use Rattle.kasa_families.specs.declared.row.Row.{Row};
ghost use Rattle.kasa_families.specs.declared.rows.Origin.{Origin};
ghost use Rattle.kasa_families.specs.declared.rows.Verdict.{Verdict};
ghost use Rattle.kasa_families.specs.Table.{Table, AreTables, families_of};
ghost use Rattle.kasa_rules.specs.declared.model.Model.{Model};
ghost use Rattle.kasa_check.specs.Lacked.{AreGiven};
ghost use Rattle.kasa_check.specs.Verdict.{IsVerdict};

/// There is one verdict on tables at most, and there is one, if the rows are listed that each declared complex and each rule
/// gives of each family.
pub fn there_is_one_verdict()
    ensures one { (model : Model) (tables : List Table) (v w : Verdict) → IsVerdict model tables v →
        IsVerdict model tables w → v ≡ w }
    ensures some { (model : Model) (tables : List Table) → AreTables model.sig tables →
        ((origin : Origin) (family : Family) → Has (families_of tables) family →
        (rows : List Row) × AreGiven model tables origin family rows) →
        (v : Verdict) × IsVerdict model tables v }
{}
