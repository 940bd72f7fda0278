// The report on the sample model.
ghost use Rattle.std.specs.Prelude.{◌≡◌, ◌++◌, ◌≤◌, ℕ, List, IfOk, OnOk, length};
ghost use Rattle.std.specs.List.{sum_by};
ghost use Rattle.kasa_graph.specs.Lists.{Has};
ghost use Rattle.kasa_rules.specs.Rule.{RuleParts, IsRuleOver};
ghost use Rattle.kasa_families.specs.Table.{AreTables};
ghost use Rattle.kasa_report.specs.DeadText.{AreDeadLines};
ghost use Rattle.kasa_report.specs.SampleReport.{count_line, IsSampleReport};

use crate::polymers::write_verdict;
use crate::write::write_number;
use kasa_families::Rows;
use kasa_graph::Signature;
use kasa_num::{FamilyNo, NoMemory};
use kasa_polymers::{Polymers, polymers};
use kasa_pre::is_dead;
use kasa_rules::{Model, Rule};
use std::alloc::Global;

/// The report on the sample model of a size over tables: the numbers of its types, rules, families, rows and dead rules, and
/// how large species can become.
pub fn sample_report<R: Rows>(
    alloc: Global,
    size: u16,
    model: &Model,
    rows: &R,
) -> Result<Vec<u8>, NoMemory>
    requires { AreTables model.now.sig (R.tables rows.now) }
    ensures { IfOk result (λ text. IsSampleReport size model.now (R.tables rows.now) text.items) }
{
    let verdict = polymers(alloc, model, rows)?;
    let mut out = Vec::new(alloc);
    write_count(b"sample ", size as usize, &mut out)?;
    write_count(b"types ", model.sig.types(), &mut out)?;
    write_count(b"rules ", model.rules.as_slice().len(), &mut out)?;
    write_count(b"families ", rows.families(), &mut out)?;
    write_count(b"rows ", count_rows(rows), &mut out)?;
    let dead = count_dead(&model.sig, rows, model.rules.as_slice());
    write_count(b"dead rules ", dead, &mut out)?;
    out.extend_from_slice(b"polymers")?;
    write_verdict(&model.sig, &verdict, &mut out)?;
    out.push(b'\n')?;
    Ok(out)
}

// A line with a number.
fn write_count(what: &[u8], number: usize, out: &mut Vec<u8>) -> Result<(), NoMemory>
    ensures { OnOk result (out.new.items ≡ out.old.items ++ count_line what.now number) }
{
    out.extend_from_slice(what)?;
    write_number(number as u64, out)?;
    out.push(b'\n')?;
    Ok(())
}

// How many rows there are, of all families together.
fn count_rows<R: Rows>(rows: &R) -> usize
    ensures { result ≡ sum_by (λ t. length t.rows) (R.tables rows.now) }
{
    let mut count = 0;
    for f in 0..rows.families() {
        count += rows.rows(FamilyNo(f as u16));
    }
    count
}

// How many rules tables show dead.
fn count_dead<R: Rows>(sig: &Signature, rows: &R, rules: &[Rule]) -> usize
    requires tables { AreTables sig.now (R.tables rows.now) }
    requires over { (r : RuleParts) → Has rules.now r → IsRuleOver sig.now r }
    ensures { (lines : List (List ℕ)) × AreDeadLines sig.now (R.tables rows.now) 1 rules.now lines × (result ≡ length lines) }
{
    let mut count = 0;
    for k in 0..rules.len() {
        if is_dead(sig, rows, &rules[k]) {
            count += 1;
        }
    }
    count
}
