// What a line adds to the tables, or what is wrong with it.
ghost use Rattle.std.specs.Prelude.{◌≡◌, ◌↔◌, IsTrue, IfOk, Some, slice_get};
ghost use Rattle.kasa_lists.specs.Lists.{Has};
ghost use Rattle.kasa_families.specs.Row.{IsRow};
ghost use Rattle.kasa_families.specs.Table.{Table, families_of};
ghost use Rattle.kasa_tabfile.specs.Outcome.{stage_after};
ghost use Rattle.kasa_tabfile.specs.inner.Taking.{AddsFamily, AddsRow, AddsChain, AddsLine, first_stage, outer_stage, IsTaken};

use crate::TabFault;
use crate::line::{Line, Version};
use crate::stage::Stage;
use kasa_families::{Family, Row, Rows, is_family, is_row};
use kasa_graph::Signature;
use kasa_num::limits::MAX_FAMILIES;
use kasa_num::{FamilyNo, NoMemory};
use kasa_tables::{InsertFault, Tables};

fn has_family(tables: &Tables, family: &Family) -> bool
    ensures { IsTrue result ↔ Has (families_of tables.now) family.now }
{
    for f in 0..tables.families() {
        if is_at(tables, FamilyNo(f as u16), family) {
            return true;
        }
    }
    false
}

// The family has this number.
fn is_at(tables: &Tables, f: FamilyNo, family: &Family) -> bool
    ensures { IsTrue result ↔ (slice_get (families_of tables.now) f ≡ Some family.now) }
{
    match tables.family(f) {
        Some(other) => other == family,
        None => false,
    }
}

fn take_family(
    sig: &Signature,
    n: u32,
    tables: &mut Tables,
    family: Option<Family>,
) -> Result<Option<TabFault>, NoMemory>
    ensures { IfOk result (AddsFamily sig.now n tables.old family tables.new) }
{
    let Some(family) = family else {
        return Ok(Some(TabFault::BadFamily(n)));
    };
    if !is_family(sig, &family) {
        return Ok(Some(TabFault::BadFamily(n)));
    }
    if has_family(tables, &family) {
        return Ok(Some(TabFault::FamilyTwice(n)));
    }
    if tables.families() >= MAX_FAMILIES {
        return Ok(Some(TabFault::TooManyFamilies(n)));
    }
    tables.add_family(sig, family)?;
    Ok(None)
}

// The family of this number is there, and has the row.
fn is_row_at(sig: &Signature, tables: &Tables, f: FamilyNo, row: &Row) -> bool
    ensures { IsTrue result ↔ ((t : Table) × (slice_get tables.now f ≡ Some t) ×
        IsRow sig.now t.family row.now) }
{
    match tables.family(f) {
        Some(family) => is_row(sig, family, row),
        None => false,
    }
}

fn take_row(
    sig: &Signature,
    n: u32,
    tables: &mut Tables,
    row: Option<Row>,
) -> Result<Option<TabFault>, NoMemory>
    ensures { IfOk result (AddsRow sig.now n tables.old row tables.new) }
{
    let Some(row) = row else {
        return Ok(Some(TabFault::BadRow(n)));
    };
    let last = FamilyNo(tables.families().saturating_sub(1) as u16);
    if !is_row_at(sig, tables, last, &row) {
        return Ok(Some(TabFault::BadRow(n)));
    }
    match tables.insert(last, row) {
        Ok(true) => Ok(None),
        Ok(false) => Ok(Some(TabFault::RowTwice(n))),
        Err(InsertFault::Full) => Ok(Some(TabFault::TooManyRows(n))),
        Err(InsertFault::NoMemory) => Err(NoMemory),
    }
}

fn take_chain(
    sig: &Signature,
    n: u32,
    version: Version,
    tables: &mut Tables,
    family: Option<Family>,
) -> Result<Option<TabFault>, NoMemory>
    ensures { IfOk result (AddsChain sig.now n version tables.old family tables.new) }
{
    match version {
        Version::One => Ok(Some(TabFault::BadLine(n))),
        Version::Two => take_family(sig, n, tables, family),
    }
}

fn take_body(
    sig: &Signature,
    n: u32,
    version: Version,
    tables: &mut Tables,
    line: Line,
) -> Result<Option<TabFault>, NoMemory>
    ensures { IfOk result (AddsLine sig.now n version tables.old line tables.new) }
{
    match line {
        Line::Header(_) => Ok(Some(TabFault::BadLine(n))),
        Line::Family(family) => take_family(sig, n, tables, family),
        Line::Chain(family) => take_chain(sig, n, version, tables, family),
        Line::Row(row) => take_row(sig, n, tables, row),
        Line::End => Ok(None),
    }
}

// Where a reader stands after a line without fault.
fn body_after(version: Version, line: &Line) -> Stage
    ensures { result ≡ stage_after (Stage.Body version) (Some line.now) }
{
    match line {
        Line::Header(version) => Stage::Body(*version),
        Line::End => Stage::Ended,
        _ => Stage::Body(version),
    }
}

fn take_body_line(
    sig: &Signature,
    n: u32,
    version: Version,
    tables: &mut Tables,
    line: Line,
) -> Result<Stage, NoMemory>
    ensures { IfOk result (IsTaken sig.now n (Stage.Body version) tables.old (Some line) tables.new) }
{
    let after = body_after(version, &line);
    match take_body(sig, n, version, tables, line)? {
        Some(fault) => Ok(Stage::Failed(fault)),
        None => Ok(after),
    }
}

// Where a reader stands after the first line.
fn take_first(n: u32, line: &Option<Line>) -> Stage
    ensures { result ≡ first_stage n line.now }
{
    match line {
        Some(Line::Header(version)) => Stage::Body(*version),
        Some(Line::Family(_) | Line::Chain(_) | Line::Row(_) | Line::End) | None => {
            Stage::Failed(TabFault::BadLine(n))
        }
    }
}

// Where a reader stands after a line that isn't among those between the header and the end.
fn take_outside(n: u32, stage: Stage, line: &Option<Line>) -> Stage
    ensures { result ≡ outer_stage n stage line.now }
{
    match stage {
        Stage::Start => take_first(n, line),
        Stage::Body(_) => Stage::Failed(TabFault::BadLine(n)),
        Stage::Ended => Stage::Failed(TabFault::BadLine(n)),
        Stage::Failed(fault) => Stage::Failed(fault),
    }
}

/// Takes the n-th line, `None` where it has no form.
pub(crate) fn take_line(
    sig: &Signature,
    n: u32,
    stage: Stage,
    tables: &mut Tables,
    line: Option<Line>,
) -> Result<Stage, NoMemory>
    ensures { IfOk result (IsTaken sig.now n stage tables.old line tables.new) }
{
    let Stage::Body(version) = stage else {
        return Ok(take_outside(n, stage, &line));
    };
    let Some(line) = line else {
        return Ok(Stage::Failed(TabFault::BadLine(n)));
    };
    take_body_line(sig, n, version, tables, line)
}
