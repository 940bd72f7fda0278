// What is printed of tables that were tried for closure.
ghost use Rattle.std.specs.Prelude.{◌≡◌, ◌++◌, IfOk, OnOk};
ghost use Rattle.kasa_families.specs.Family.{IsFamily};
ghost use Rattle.kasa_families.specs.Row.{IsRow};
ghost use Rattle.kasa_families.specs.Table.{AreTables};
ghost use Rattle.kasa_report.specs.CheckText.{IsCheckReport, missing_text as text_of, origin_text};

use crate::dead::write_dead;
use crate::lemmas::{write_lemmas, write_pattern_line};
use crate::write::{write_line, write_number};
use kasa_families::{Family, Missing, Origin, Rows, pattern};
use kasa_graph::Signature;
use kasa_num::NoMemory;
use kasa_rules::Model;
use std::alloc::Global;

/// The report on closed tables: the line `closed`, the tables that say more of a family's sites than of each alone, and the
/// rules that can never fire.
pub fn check_report<R: Rows>(alloc: Global, model: &Model, rows: &R) -> Result<Vec<u8>, NoMemory>
    requires { AreTables model.now.sig (R.tables rows.now) }
    ensures { IfOk result (λ text. IsCheckReport model.now (R.tables rows.now) text.items) }
{
    let mut out = Vec::new(alloc);
    write_line(b"closed", &mut out)?;
    write_lemmas(alloc, &model.sig, rows, &mut out)?;
    write_dead(&model.sig, rows, model.rules.as_slice(), &mut out)?;
    Ok(out)
}

/// The line of a row that tables lack, `not closed: init NUMBER: ROW` or `not closed: rule NUMBER: ROW`, with the numbers of
/// declared complexes and of rules from 1.
pub fn missing_text(
    alloc: Global,
    sig: &Signature,
    family: &Family,
    missing: &Missing,
) -> Result<Vec<u8>, NoMemory>
    requires family { IsFamily sig.now family.now }
    requires row { IsRow sig.now family.now missing.now.row }
    ensures { IfOk result (λ text. text.items ≡ text_of sig.now family.now missing.now.origin missing.now.row) }
{
    let pattern = pattern(alloc, sig, family, &missing.row)?;
    let mut text = Vec::from_slice(alloc, b"not closed: ")?;
    write_origin(missing.origin, &mut text)?;
    write_pattern_line(sig, b": ", &pattern, &mut text)?;
    Ok(text)
}

// Where a row comes from.
fn write_origin(origin: Origin, out: &mut Vec<u8>) -> Result<(), NoMemory>
    ensures { OnOk result (out.new.items ≡ out.old.items ++ origin_text origin) }
{
    match origin {
        Origin::Init(init) => {
            out.extend_from_slice(b"init ")?;
            write_number(init.0 as u64, out)
        }
        Origin::Rule(rule) => {
            out.extend_from_slice(b"rule ")?;
            write_number(rule.0 as u64, out)
        }
    }
}
