// The rows of a family with columns that occur in an init.
ghost use Rattle.std.specs.Prelude.{◌≡◌, ◌↔◌, ℕ, ◌<◌, ◌≤◌, List, length, map, slice_get, Some, IfOk};
ghost use Rattle.kasa_graph.specs.Lists.{Has};
ghost use Rattle.kasa_graph.specs.Mixture.{IsMixtureOver};
ghost use Rattle.kasa_families.specs.declared.row.Row.{Row};
ghost use Rattle.kasa_families.specs.declared.shape.NodeSite.{NodeSite};
ghost use Rattle.kasa_families.specs.Family.{IsFamily};
ghost use Rattle.kasa_families.specs.Row.{IsRow, AreAscending};
ghost use Rattle.kasa_families.specs.Pattern.{Occurs};
ghost use Rattle.kasa_families.specs.Seen.{local_in};
ghost use Rattle.kasa_columns.specs.Forward.{HasColumns};
ghost use Rattle.kasa_columns.specs.Seen.{row_in};

use crate::yielded::columns_of;
use kasa_embed::{Cells, embeddings};
use kasa_families::{Family, Local, LocalLink, Locals, NodeSite, Row, root};
use kasa_graph::{Mixture, Signature};
use kasa_num::{NoMemory, SiteNo};
use std::alloc::Global;

/// The rows of a family with columns that occur in an init, each once, in row order. The embeddings of the root give them.
pub fn initial(
    alloc: Global,
    sig: &Signature,
    init: &Mixture,
    family: &Family,
) -> Result<Vec<Row>, NoMemory>
    requires columns { HasColumns family.now }
    requires valid { IsFamily sig.now family.now }
    requires over { IsMixtureOver sig.now init.now }
    ensures rows { IfOk result (λ rows. (row : Row) → Has rows.items row ↔ (IsRow sig.now family.now row × Occurs sig.now family.now row init.now)) }
    ensures ascend { IfOk result (λ rows. AreAscending rows.items) }
{
    let root = root(alloc, sig, family)?;
    let found = embeddings(alloc, &root, init)?;
    let columns = columns_of(alloc, family)?;
    let mut rows = Vec::with_capacity(alloc, found.len())?;
    for cells in &found {
        rows.push(seen_row(alloc, init, columns.as_slice(), cells)?)?;
    }
    rows.sort_unstable();
    rows.dedup();
    Ok(rows)
}

// What the root's nodes on these cells show at the columns.
fn seen_row(
    alloc: Global,
    init: &Mixture,
    columns: &[NodeSite],
    cells: &Cells,
) -> Result<Row, NoMemory>
    requires few { length columns.now ≤ 16 }
    requires nodes { (k : ℕ) (c : NodeSite) → slice_get columns.now k ≡ Some c → c.node < length cells.now }
    ensures { IfOk result (λ row. row ≡ row_in init.now columns.now cells.now) }
{
    let mut locals = Vec::with_capacity(alloc, columns.len())?;
    for column in columns {
        let cell = cells.as_slice()[column.node.0 as usize];
        locals.push(seen_local(init, cell, column.site))?;
    }
    Ok(Row::Locals(Locals::new(alloc, locals.as_slice())))
}

fn seen_local(init: &Mixture, cell: u32, site: SiteNo) -> Local
    ensures { result ≡ local_in init.now cell site }
{
    let state = init.state(cell, site);
    let link = seen_link(init, cell, site);
    Local { state, link }
}

fn seen_link(init: &Mixture, cell: u32, site: SiteNo) -> LocalLink
    ensures { result ≡ (local_in init.now cell site).link }
{
    match init.partner(cell, site) {
        None => LocalLink::Free,
        Some((partner, at)) => match init.agent(partner) {
            None => LocalLink::Free,
            Some(agent) => LocalLink::Partner(agent, at),
        },
    }
}
