// The report: four sections, one behind the other.
ghost use Rattle.std.specs.Prelude.{IfOk};
ghost use Rattle.kasa_families.specs.Table.{AreTables};
ghost use Rattle.kasa_report.specs.Report.{IsReport};

use crate::dead::write_dead;
use crate::lemmas::write_lemmas;
use crate::map::write_map;
use crate::polymers::write_polymers;
use kasa_families::Rows;
use kasa_num::NoMemory;
use kasa_polymers::{contact, polymers};
use kasa_rules::Model;
use std::alloc::Global;

/// The report of a model over tables: the contact map, the tables that say more of a family's sites than of each alone, the
/// rules that can never fire, and how large species can become.
pub fn report<R: Rows>(alloc: Global, model: &Model, rows: &R) -> Result<Vec<u8>, NoMemory>
    requires { AreTables model.now.sig (R.tables rows.now) }
    ensures { IfOk result (λ text. IsReport model.now (R.tables rows.now) text.items) }
{
    let map = contact(alloc, model, rows)?;
    let verdict = polymers(alloc, model, rows)?;
    let mut out = Vec::new(alloc);
    write_map(&model.sig, &map, &mut out)?;
    write_lemmas(alloc, &model.sig, rows, &mut out)?;
    write_dead(&model.sig, rows, model.rules.as_slice(), &mut out)?;
    write_polymers(&model.sig, &verdict, &mut out)?;
    Ok(out)
}
