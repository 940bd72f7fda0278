// Whether a table is a product: counted, not made.
ghost use Rattle.std.specs.Prelude.{◌≡◌, ◌<◌, ◌≤◌, ◌↔◌, ℕ, List, IsTrue, IfOk, length};
ghost use Rattle.kasa_num.specs.declared.limits.TheConstants.{MAX_ROWS};
ghost use Rattle.kasa_graph.specs.Lists.{Has, AllDifferent};
ghost use Rattle.kasa_families.specs.declared.row.Row.{Row};
ghost use Rattle.kasa_families.specs.Table.{HasShape};
ghost use Rattle.kasa_report.specs.Product.{IsProductRows, IsProductOf};
ghost use Rattle.kasa_report.specs.inner.Mixed.{AreWide, AreStatesAt, AreLinksAt, local_of};

use indexmap::IndexSet;
use kasa_families::{Family, Local, Row};
use kasa_num::NoMemory;
use std::alloc::Global;

/// Whether the rows of a family are a product.
pub(crate) fn is_product(alloc: Global, family: &Family, rows: &[Row]) -> Result<bool, NoMemory>
    requires shape { (row : Row) → Has rows.now row → HasShape family.now row }
    requires different { AllDifferent rows.now }
    requires few { length rows.now ≤ MAX_ROWS }
    ensures { IfOk result (λ yes. IsTrue yes ↔ IsProductRows family.now rows.now) }
{
    match family {
        Family::Parallel { .. } => Ok(rows.len() == 2),
        _ => is_full(alloc, rows, family.columns()),
    }
}

// Whether there are rows, as many as can be mixed of their states and links.
fn is_full(alloc: Global, rows: &[Row], columns: usize) -> Result<bool, NoMemory>
    requires wide { AreWide rows.now columns }
    requires different { AllDifferent rows.now }
    requires few { length rows.now ≤ MAX_ROWS }
    ensures { IfOk result (λ yes. IsTrue yes ↔ IsProductOf columns rows.now) }
{
    if rows.is_empty() {
        return Ok(false);
    }
    let mut mixed = 1;
    for k in 0..columns {
        mixed *= count_states(alloc, rows, k)? * count_links(alloc, rows, k)?;
        if mixed > rows.len() {
            return Ok(false);
        }
    }
    Ok(mixed == rows.len())
}

// How many different states the rows have at a position.
fn count_states(alloc: Global, rows: &[Row], k: usize) -> Result<usize, NoMemory>
    ensures counted { IfOk result (λ n. (states : List _) × AreStatesAt rows.now k states × (n ≡ length states)) }
    ensures few { IfOk result (λ n. n ≤ length rows.now) }
{
    let mut states = IndexSet::new(alloc);
    for row in rows {
        if let Some(local) = local_at(row, k) {
            states.insert(local.state)?;
        }
    }
    Ok(states.len())
}

// How many different links.
fn count_links(alloc: Global, rows: &[Row], k: usize) -> Result<usize, NoMemory>
    ensures counted { IfOk result (λ n. (links : List _) × AreLinksAt rows.now k links × (n ≡ length links)) }
    ensures few { IfOk result (λ n. n ≤ length rows.now) }
{
    let mut links = IndexSet::new(alloc);
    for row in rows {
        if let Some(local) = local_at(row, k) {
            links.insert(local.link)?;
        }
    }
    Ok(links.len())
}

// The local state of a row at a position.
fn local_at(row: &Row, k: usize) -> Option<Local>
    ensures { result ≡ local_of row.now k }
{
    match row {
        Row::Locals(locals) => locals.as_slice().get(k).copied(),
        _ => None,
    }
}
