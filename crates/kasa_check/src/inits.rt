// The first row that a declared complex has and that tables lack.
ghost use Rattle.std.specs.Prelude.{◌≡◌, Some, IfOk};
ghost use Rattle.kasa_families.specs.declared.rows.Origin.TheVariants.{Init};
ghost use Rattle.kasa_families.specs.Row.{AreAscending};
ghost use Rattle.kasa_families.specs.Table.{AreTables, rows_of};
ghost use Rattle.kasa_rules.specs.Reached.{declared_complex};
ghost use Rattle.kasa_check.specs.Search.{IsFirstOf, IsFromInit, IsFrom, IsOf, IsLeastNew};

use crate::kinds::initial;
use kasa_families::{Missing, Origin, Row, Rows};
use kasa_graph::Mixture;
use kasa_num::{FamilyNo, InitNo, NoMemory};
use kasa_rules::Model;
use std::alloc::Global;

// The first such row of the declared complexes, those of inits and of additions alike.
pub(crate) fn first_of_inits<R: Rows>(
    alloc: Global,
    model: &Model,
    rows: &R,
) -> Result<Option<Missing>, NoMemory>
    requires tables { AreTables model.now.sig (R.tables rows.now) }
    ensures first { IfOk result (IsFirstOf model.now (R.tables rows.now) IsFromInit) }
{
    let inits = model.inits.as_slice();
    for k in 0..inits.len() {
        let found = first_of_init(alloc, model, rows, InitNo(k as u16 + 1), &inits[k])?;
        if found.is_some() {
            return Ok(found);
        }
    }
    Ok(None)
}

// The first one of a declared complex.
fn first_of_init<R: Rows>(
    alloc: Global,
    model: &Model,
    rows: &R,
    number: InitNo,
    init: &Mixture,
) -> Result<Option<Missing>, NoMemory>
    requires tables { AreTables model.now.sig (R.tables rows.now) }
    requires declared { declared_complex model.now number ≡ Some init.now }
    ensures { IfOk result (IsFirstOf model.now (R.tables rows.now) (IsFrom (Init number))) }
{
    for f in 0..rows.families() {
        let found = first_initial(alloc, model, rows, number, init, FamilyNo(f as u16))?;
        if found.is_some() {
            return Ok(found);
        }
    }
    Ok(None)
}

// The first one of a family.
fn first_initial<R: Rows>(
    alloc: Global,
    model: &Model,
    rows: &R,
    number: InitNo,
    init: &Mixture,
    f: FamilyNo,
) -> Result<Option<Missing>, NoMemory>
    requires tables { AreTables model.now.sig (R.tables rows.now) }
    requires declared { declared_complex model.now number ≡ Some init.now }
    ensures { IfOk result (IsFirstOf model.now (R.tables rows.now) (IsOf (Init number) f)) }
{
    let Some(family) = rows.family(f) else {
        return Ok(None);
    };
    let given = initial(alloc, &model.sig, init, family)?;
    match first_lacked(rows, f, given.as_slice()) {
        None => Ok(None),
        Some(row) => Ok(Some(Missing {
            origin: Origin::Init(number),
            family: f,
            row,
        })),
    }
}

// The first of ascending rows that tables don't have.
fn first_lacked<R: Rows>(rows: &R, f: FamilyNo, given: &[Row]) -> Option<Row>
    requires ascend { AreAscending given.now }
    ensures { IsLeastNew (rows_of (R.tables rows.now) f) given.now result }
{
    for row in given {
        if !rows.has(f, row) {
            return Some(row.copy());
        }
    }
    None
}
