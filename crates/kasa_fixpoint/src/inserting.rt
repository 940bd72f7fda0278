// Rows put into tables, as long as there is room.
ghost use Rattle.std.specs.Prelude.{◌≡◌, [], ◌∷◌, Some, Err, slice_get, IfOk};
ghost use Rattle.kasa_lists.specs.Lists.{Has};
ghost use Rattle.kasa_families.specs.declared.family.Family.{Family};
ghost use Rattle.kasa_families.specs.declared.row.Row.{Row};
ghost use Rattle.kasa_families.specs.Table.{families_of, HasShape};
ghost use Rattle.kasa_worklist.specs.declared.fault.SolveFault.TheVariants.{TooManyRows as too_many_rows};
ghost use Rattle.kasa_fixpoint.specs.Growing.{HasRoomForRows, HaveMoreRows, TakesIn, LacksRoom};

use kasa_families::Row;
use kasa_num::FamilyNo;
use kasa_tables::{InsertFault, Tables};
use kasa_worklist::SolveFault;

// Puts a row to a family's rows where it isn't there yet. Whether it is new.
fn insert(tables: &mut Tables, f: FamilyNo, row: Row) -> Result<bool, SolveFault>
    requires room { HasRoomForRows tables.old }
    requires shape { (family : Family) × (slice_get (families_of tables.old) f ≡ Some family) × HasShape family row }
    ensures takes { IfOk result (λ _. TakesIn f (row ∷ []) tables.old tables.new) }
    ensures grown { IfOk result (λ grew. HaveMoreRows f tables.old tables.new grew) }
    ensures too_many { result ≡ Err too_many_rows → LacksRoom f (row ∷ []) tables.old }
{
    match tables.insert(f, row) {
        Ok(is_new) => Ok(is_new),
        Err(InsertFault::Full) => Err(SolveFault::TooManyRows),
        Err(InsertFault::NoMemory) => Err(SolveFault::NoMemory),
    }
}

// The same with some rows. Whether one is new.
pub(crate) fn insert_all(
    tables: &mut Tables,
    f: FamilyNo,
    rows: Vec<Row>,
) -> Result<bool, SolveFault>
    requires room { HasRoomForRows tables.old }
    requires shape { (family : Family) × (slice_get (families_of tables.old) f ≡ Some family)
        × ((row : Row) → Has rows.items row → HasShape family row) }
    ensures takes { IfOk result (λ _. TakesIn f rows.items tables.old tables.new) }
    ensures grown { IfOk result (λ grew. HaveMoreRows f tables.old tables.new grew) }
    ensures too_many { result ≡ Err too_many_rows → LacksRoom f rows.items tables.old }
{
    let mut grew = false;
    for row in rows {
        grew |= insert(tables, f, row)?;
    }
    Ok(grew)
}
