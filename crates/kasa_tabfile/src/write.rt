// Tables to text.
ghost use Rattle.std.specs.Prelude.{◌≡◌, ◌++◌, ◌∷◌, [], ◌<◌, OnOk, IfOk, length, codes, decimal};
ghost use Rattle.std.specs.List.{flat_map};
ghost use Rattle.kasa_lists.specs.Lists.{AllDifferent};
ghost use Rattle.kasa_families.specs.Table.{AreShapedTables, rows_of};
ghost use Rattle.kasa_tabfile.specs.TablesText.{state_text, link_text, local_text, spaced, family_line, row_line, row_text, IsTextOf};
ghost use Rattle.kasa_tabfile.specs.inner.Written.{AreInRowOrder, AddsTable, AddsTables};

use itoa::Buffer;
use kasa_families::{Family, Local, LocalLink, Row, Rows};
use kasa_num::{AgentType, FamilyNo, NoMemory, SiteNo, StateNo};
use std::alloc::Global;

fn write_bytes(bytes: &[u8], out: &mut Vec<u8>) -> Result<(), NoMemory>
    ensures { OnOk result (out.new.items ≡ out.old.items ++ bytes.now) }
{
    out.extend_from_slice(bytes)?;
    Ok(())
}

fn write_number(number: u16, out: &mut Vec<u8>) -> Result<(), NoMemory>
    ensures { OnOk result (out.new.items ≡ out.old.items ++ decimal number) }
{
    let mut buffer = Buffer::new();
    out.extend_from_slice(buffer.format(number).as_bytes())?;
    Ok(())
}

fn write_state(state: Option<StateNo>, out: &mut Vec<u8>) -> Result<(), NoMemory>
    ensures { OnOk result (out.new.items ≡ out.old.items ++ state_text state) }
{
    match state {
        None => write_bytes(b"-", out),
        Some(state) => write_number(u16::from(state.0), out),
    }
}

fn write_link(link: LocalLink, out: &mut Vec<u8>) -> Result<(), NoMemory>
    ensures { OnOk result (out.new.items ≡ out.old.items ++ link_text link) }
{
    match link {
        LocalLink::Free => write_bytes(b".", out),
        LocalLink::Partner(agent, site) => {
            write_number(agent.0, out)?;
            out.push(b'.')?;
            write_number(u16::from(site.0), out)
        }
    }
}

// A local state, behind a space.
fn write_local(local: Local, out: &mut Vec<u8>) -> Result<(), NoMemory>
    ensures { OnOk result (out.new.items ≡ out.old.items ++ (codes " " ++ local_text local)) }
{
    out.push(b' ')?;
    write_state(local.state, out)?;
    out.push(b',')?;
    write_link(local.link, out)
}

fn write_locals(locals: &[Local], out: &mut Vec<u8>) -> Result<(), NoMemory>
    ensures { OnOk result (out.new.items ≡ out.old.items ++ spaced local_text locals.now) }
{
    for local in locals {
        write_local(*local, out)?;
    }
    Ok(())
}

// The words of a row.
fn write_row_line(row: &Row, out: &mut Vec<u8>) -> Result<(), NoMemory>
    ensures { OnOk result (out.new.items ≡ out.old.items ++ row_line row.now) }
{
    match row {
        Row::Locals(locals) => {
            out.push(b'r')?;
            write_locals(locals.as_slice(), out)
        }
        Row::Same => write_bytes(b"r same", out),
        Row::Different => write_bytes(b"r different", out),
    }
}

// A number, behind a space.
fn write_word(number: u16, out: &mut Vec<u8>) -> Result<(), NoMemory>
    ensures { OnOk result (out.new.items ≡ out.old.items ++ (codes " " ++ decimal number)) }
{
    out.push(b' ')?;
    write_number(number, out)
}

fn write_words(numbers: &[u16], out: &mut Vec<u8>) -> Result<(), NoMemory>
    ensures { OnOk result (out.new.items ≡ out.old.items ++ spaced decimal numbers.now) }
{
    for number in numbers {
        write_word(*number, out)?;
    }
    Ok(())
}

fn write_sites(sites: &[SiteNo], out: &mut Vec<u8>) -> Result<(), NoMemory>
    ensures { OnOk result (out.new.items ≡ out.old.items ++ spaced decimal sites.now) }
{
    for site in sites {
        write_word(u16::from(site.0), out)?;
    }
    Ok(())
}

// A type and two of its sites.
fn write_pair(
    agent: AgentType,
    site: SiteNo,
    other: SiteNo,
    out: &mut Vec<u8>,
) -> Result<(), NoMemory>
    ensures { OnOk result (out.new.items ≡ out.old.items ++ spaced decimal (agent ∷ site ∷ other ∷ [])) }
{
    write_word(agent.0, out)?;
    write_word(u16::from(site.0), out)?;
    write_word(u16::from(other.0), out)
}

// The words of a family.
fn write_family_line(family: &Family, out: &mut Vec<u8>) -> Result<(), NoMemory>
    ensures { OnOk result (out.new.items ≡ out.old.items ++ family_line family.now) }
{
    match family {
        Family::View { agent, sites } => {
            out.extend_from_slice(b"view")?;
            write_word(agent.0, out)?;
            write_sites(sites.as_slice(), out)
        }
        Family::Across { a, x, p, b, y, q } => {
            out.extend_from_slice(b"across")?;
            write_pair(*a, *x, *p, out)?;
            write_pair(*b, *y, *q, out)
        }
        Family::Parallel { a, x, u, b, y, w } => {
            out.extend_from_slice(b"parallel")?;
            write_pair(*a, *x, *u, out)?;
            write_pair(*b, *y, *w, out)
        }
        Family::Chain {
            a,
            x,
            p,
            b,
            y,
            z,
            c,
            w,
            q,
        } => {
            out.extend_from_slice(b"chain")?;
            write_pair(*a, *x, *p, out)?;
            write_pair(*b, *y, *z, out)?;
            write_pair(*c, *w, *q, out)
        }
    }
}

fn write_rows(rows: &[Row], out: &mut Vec<u8>) -> Result<(), NoMemory>
    ensures { OnOk result (out.new.items ≡ out.old.items ++ flat_map row_text rows.now) }
{
    for row in rows {
        write_row_line(row, out)?;
        out.push(b'\n')?;
    }
    Ok(())
}

// The rows of a family as they stand.
fn copied_rows<R: Rows>(alloc: Global, rows: &R, f: FamilyNo) -> Result<Vec<Row>, NoMemory>
    ensures { IfOk result (λ copied. copied.items ≡ rows_of (R.tables rows.now) f) }
{
    let mut copied = Vec::new(alloc);
    for k in 0..rows.rows(f) {
        if let Some(row) = rows.row(f, k) {
            copied.push(row.copy())?;
        }
    }
    Ok(copied)
}

// The rows in row order.
fn in_row_order(mut rows: Vec<Row>) -> Vec<Row>
    requires { AllDifferent rows.items }
    ensures { AreInRowOrder rows.items result.items }
{
    rows.sort_unstable();
    rows
}

// The family of a number, with its rows in row order.
fn write_table<R: Rows>(
    alloc: Global,
    rows: &R,
    f: FamilyNo,
    out: &mut Vec<u8>,
) -> Result<(), NoMemory>
    requires shaped { AreShapedTables (R.tables rows.now) }
    requires exists { f < length (R.tables rows.now) }
    ensures { OnOk result (AddsTable (R.tables rows.now) f out.old.items out.new.items) }
{
    let Some(family) = rows.family(f) else {
        return Ok(());
    };
    let ordered = in_row_order(copied_rows(alloc, rows, f)?);
    write_family_line(family, out)?;
    out.push(b'\n')?;
    write_rows(ordered.as_slice(), out)
}

// The families in table order.
fn write_each<R: Rows>(alloc: Global, rows: &R, out: &mut Vec<u8>) -> Result<(), NoMemory>
    ensures { OnOk result (AddsTables (R.tables rows.now) out.old.items out.new.items) }
{
    for f in 0..rows.families() {
        write_table(alloc, rows, FamilyNo(f as u16), out)?;
    }
    Ok(())
}

/// The text of tables: families in table order, and the rows of each in row order.
pub fn write_tables<R: Rows>(alloc: Global, rows: &R) -> Result<Vec<u8>, NoMemory>
    ensures { IfOk result (λ text. IsTextOf (R.tables rows.now) text.items) }
{
    let mut text = Vec::from_slice(alloc, b"kasa tables 2\n")?;
    write_each(alloc, rows, &mut text)?;
    text.extend_from_slice(b"end\n")?;
    Ok(text)
}
