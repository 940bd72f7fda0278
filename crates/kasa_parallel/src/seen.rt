// The rows of a parallel family that occur in an init.
ghost use Rattle.std.specs.Prelude.{◌≡◌, ◌↔◌, ℕ, ◌<◌, true, false, List, length, Some, slice_get, IsTrue, IfOk};
ghost use Rattle.kasa_graph.specs.Lists.{Has};
ghost use Rattle.kasa_graph.specs.Mixture.{IsMixtureOver};
ghost use Rattle.kasa_families.specs.declared.row.Local.{Local};
ghost use Rattle.kasa_families.specs.declared.row.Row.{Row};
ghost use Rattle.kasa_families.specs.declared.row.Row.TheVariants.{Locals, Same, Different};
ghost use Rattle.kasa_families.specs.Family.{IsFamily};
ghost use Rattle.kasa_families.specs.Row.{IsRow, AreAscending};
ghost use Rattle.kasa_families.specs.Pattern.{Occurs};
ghost use Rattle.kasa_parallel.specs.Parallel.{IsParallel, HasOnePartner, HasOneOrNot, SomeHasOneOrNot, AreRowsShown};

use kasa_embed::{Cells, embeddings};
use kasa_families::{Family, Row, root};
use kasa_graph::{Mixture, Signature};
use kasa_num::{NoMemory, SiteNo};
use std::alloc::Global;

/// The rows of a parallel family that occur in an init, each once, in row order. The embeddings of the root give them: both
/// partners are one agent, or two.
pub fn initial(
    alloc: Global,
    sig: &Signature,
    init: &Mixture,
    family: &Family,
) -> Result<Vec<Row>, NoMemory>
    requires parallel { IsParallel family.now }
    requires valid { IsFamily sig.now family.now }
    requires over { IsMixtureOver sig.now init.now }
    ensures rows { IfOk result (λ rows. (row : Row) → Has rows.items row ↔
        (IsRow sig.now family.now row × Occurs sig.now family.now row init.now)) }
    ensures ascend { IfOk result (λ rows. AreAscending rows.items) }
{
    match family {
        Family::Parallel { x, u, .. } => {
            let root = root(alloc, sig, family)?;
            let found = embeddings(alloc, &root, init)?;
            seen_rows(alloc, init, *x, *u, found.as_slice())
        }
        _ => unreachable!(),
    }
}

// The rows that the partners of the agents on the cells show, in row order.
fn seen_rows(
    alloc: Global,
    init: &Mixture,
    x: SiteNo,
    u: SiteNo,
    found: &[Cells],
) -> Result<Vec<Row>, NoMemory>
    requires some { (cells : List ℕ) → Has found.now cells → 0 < length cells }
    ensures shown { IfOk result (λ rows. AreRowsShown init.now x u found.now rows.items) }
    ensures ascend { IfOk result (λ rows. AreAscending rows.items) }
{
    let mut rows = Vec::with_capacity(alloc, 2)?;
    if some_has(init, x, u, true, found) {
        rows.push(Row::Same)?;
    }
    if some_has(init, x, u, false, found) {
        rows.push(Row::Different)?;
    }
    Ok(rows)
}

// The partners of the agent on some of the cells are one agent, or aren't.
fn some_has(init: &Mixture, x: SiteNo, u: SiteNo, one: bool, found: &[Cells]) -> bool
    requires some { (cells : List ℕ) → Has found.now cells → 0 < length cells }
    ensures { IsTrue result ↔ SomeHasOneOrNot init.now x u one found.now }
{
    for cells in found {
        if has_one_or_not(init, x, u, one, first_cell(cells)) {
            return true;
        }
    }
    false
}

fn first_cell(cells: &Cells) -> u32
    requires { 0 < length cells.now }
    ensures { slice_get cells.now 0 ≡ Some result }
{
    cells.as_slice()[0]
}

// The partners of the agent on the cell are one agent, or aren't.
fn has_one_or_not(init: &Mixture, x: SiteNo, u: SiteNo, one: bool, cell: u32) -> bool
    ensures { IsTrue result ↔ HasOneOrNot init.now x u one cell }
{
    if one {
        return has_one_partner(init, x, u, cell);
    }
    !has_one_partner(init, x, u, cell)
}

// The partners of the agent on the cell are one agent.
fn has_one_partner(init: &Mixture, x: SiteNo, u: SiteNo, cell: u32) -> bool
    ensures { IsTrue result ↔ HasOnePartner init.now x u cell }
{
    match (init.partner(cell, x), init.partner(cell, u)) {
        (Some((first, _)), Some((second, _))) => first == second,
        _ => false,
    }
}
