// The section `lemmas`: what tables hold of each family, where it says more than of each site alone.
ghost use Rattle.std.specs.Prelude.{◌≡◌, ◌++◌, ◌∷◌, [], ◌<◌, ℕ, List, Some, IfOk, OnOk, length, slice_get, codes};
ghost use Rattle.kasa_graph.specs.Lists.{Has, AllDifferent};
ghost use Rattle.kasa_graph.specs.Pattern.{IsPatternOver};
ghost use Rattle.kasa_graph.specs.PatternText.{pattern_text};
ghost use Rattle.kasa_families.specs.declared.row.Row.{Row};
ghost use Rattle.kasa_families.specs.Family.{IsFamily};
ghost use Rattle.kasa_families.specs.Row.{IsRow};
ghost use Rattle.kasa_families.specs.Table.{Table, AreTables, AreShapedTables, rows_of};
ghost use Rattle.kasa_report.specs.Section.{line, all_lines, section};
ghost use Rattle.kasa_report.specs.LemmasText.{table_lines, row_lines, row_text};
ghost use Rattle.kasa_report.specs.inner.Shown.{with_rows, AreInRowOrder, AddsLemmas, IsShown};

use crate::product::is_product;
use crate::write::{write_line, write_none};
use kasa_families::{Family, Row, Rows, pattern, root};
use kasa_graph::{Pattern, Signature, write_pattern};
use kasa_num::{FamilyNo, NoMemory};
use std::alloc::Global;

/// Appends the section: each family whose table isn't a product, with its rows in row order.
pub(crate) fn write_lemmas<R: Rows>(
    alloc: Global,
    sig: &Signature,
    rows: &R,
    out: &mut Vec<u8>,
) -> Result<(), NoMemory>
    requires { AreTables sig.now (R.tables rows.now) }
    ensures { OnOk result (AddsLemmas sig.now (R.tables rows.now) (section (codes "lemmas")) out.old.items out.new.items) }
{
    write_line(b"lemmas", out)?;
    let before = out.len();
    write_tables(alloc, sig, rows, out)?;
    write_none(before, out)
}

fn write_tables<R: Rows>(
    alloc: Global,
    sig: &Signature,
    rows: &R,
    out: &mut Vec<u8>,
) -> Result<(), NoMemory>
    requires { AreTables sig.now (R.tables rows.now) }
    ensures { OnOk result (AddsLemmas sig.now (R.tables rows.now) all_lines out.old.items out.new.items) }
{
    for f in 0..rows.families() {
        write_family(alloc, sig, rows, FamilyNo(f as u16), out)?;
    }
    Ok(())
}

// The family of a number, nothing where its table is a product.
fn write_family<R: Rows>(
    alloc: Global,
    sig: &Signature,
    rows: &R,
    f: FamilyNo,
    out: &mut Vec<u8>,
) -> Result<(), NoMemory>
    requires tables { AreTables sig.now (R.tables rows.now) }
    requires shaped { AreShapedTables (R.tables rows.now) }
    requires exists { f < length (R.tables rows.now) }
    ensures { OnOk result ((t : Table) × (slice_get (R.tables rows.now) f ≡ Some t) × IsShown sig.now t out.old.items out.new.items) }
{
    let Some(family) = rows.family(f) else {
        return Ok(());
    };
    let copied = copied_rows(alloc, rows, f)?;
    if is_product(alloc, family, copied.as_slice())? {
        return Ok(());
    }
    let ordered = in_row_order(copied);
    write_table(alloc, sig, family, ordered.as_slice(), out)
}

// The rows in row order.
fn in_row_order(mut rows: Vec<Row>) -> Vec<Row>
    requires { AllDifferent rows.items }
    ensures { AreInRowOrder rows.items result.items }
{
    rows.sort_unstable();
    rows
}

// The rows of a family as they stand.
fn copied_rows<R: Rows>(alloc: Global, rows: &R, f: FamilyNo) -> Result<Vec<Row>, NoMemory>
    ensures { IfOk result (λ copied. copied.items ≡ rows_of (R.tables rows.now) f) }
{
    let mut copied = Vec::new(alloc);
    for k in 0..rows.rows(f) {
        if let Some(row) = rows.row(f, k) {
            copied.push(row.copy())?;
        }
    }
    Ok(copied)
}

// The pattern of a family's root, and below it its rows.
fn write_table(
    alloc: Global,
    sig: &Signature,
    family: &Family,
    rows: &[Row],
    out: &mut Vec<u8>,
) -> Result<(), NoMemory>
    requires family { IsFamily sig.now family.now }
    requires rows { (row : Row) → Has rows.now row → IsRow sig.now family.now row }
    ensures { OnOk result (out.new.items ≡ out.old.items ++ all_lines (table_lines sig.now (with_rows family.now rows.now))) }
{
    let root = root(alloc, sig, family)?;
    write_pattern_line(sig, b" ", &root, out)?;
    write_rows(alloc, sig, family, rows, out)
}

fn write_rows(
    alloc: Global,
    sig: &Signature,
    family: &Family,
    rows: &[Row],
    out: &mut Vec<u8>,
) -> Result<(), NoMemory>
    requires family { IsFamily sig.now family.now }
    requires rows { (row : Row) → Has rows.now row → IsRow sig.now family.now row }
    ensures { OnOk result (out.new.items ≡ out.old.items ++ all_lines (row_lines sig.now family.now rows.now)) }
{
    if rows.is_empty() {
        return write_line(b"  never", out);
    }
    for row in rows {
        write_row(alloc, sig, family, row, out)?;
    }
    Ok(())
}

fn write_row(
    alloc: Global,
    sig: &Signature,
    family: &Family,
    row: &Row,
    out: &mut Vec<u8>,
) -> Result<(), NoMemory>
    requires family { IsFamily sig.now family.now }
    requires row { IsRow sig.now family.now row.now }
    ensures { OnOk result (out.new.items ≡ out.old.items ++ line (row_text sig.now family.now row.now)) }
{
    let pattern = pattern(alloc, sig, family, row)?;
    write_pattern_line(sig, b"  ", &pattern, out)
}

// A line with a pattern's text, further in.
pub(crate) fn write_pattern_line(
    sig: &Signature,
    indent: &[u8],
    pattern: &Pattern,
    out: &mut Vec<u8>,
) -> Result<(), NoMemory>
    requires { IsPatternOver sig.now pattern.now }
    ensures { OnOk result (out.new.items ≡ out.old.items ++ line (indent.now ++ pattern_text sig.now pattern.now)) }
{
    out.extend_from_slice(indent)?;
    write_pattern(sig, pattern, out)?;
    out.push(b'\n')?;
    Ok(())
}
