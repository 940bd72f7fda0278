// Which families and rows are valid over a signature.
ghost use Rattle.std.specs.Prelude.{◌≡◌, ℕ, ◌<◌, ◌≤◌, Some, length, slice_get, IsTrue, ◌↔◌};
ghost use Rattle.kasa_graph.specs.Signature.{state_counts, HasSite};
ghost use Rattle.kasa_families.specs.declared.row.Local.{Local};
ghost use Rattle.kasa_families.specs.Local.{IsLocalState, IsLocalLink, IsLocal};
ghost use Rattle.kasa_families.specs.Shape.{Nth, AreColumns};
ghost use Rattle.kasa_families.specs.Family.{Ascends, IsFamily, shape_of};
ghost use Rattle.kasa_families.specs.Row.{IsRow};
ghost use Rattle.kasa_families.specs.Table.{HasShape};

use crate::{Family, Local, LocalLink, NodeSite, Row};
use kasa_graph::Signature;
use kasa_num::{AgentType, SiteNo, StateNo};

/// Whether a family is valid over a signature: its types and sites exist, the sites of a view ascend and are at most 16,
/// and the sites and types of a bond are different where they have to be. It takes no memory.
pub fn is_family(sig: &Signature, family: &Family) -> bool
    ensures { IsTrue result ↔ IsFamily sig.now family.now }
{
    match family {
        Family::View { agent, sites } => is_view(sig, *agent, sites.as_slice()),
        Family::Across { a, x, p, b, y, q } => {
            has_site(sig, *a, *x)
                && has_site(sig, *a, *p)
                && has_site(sig, *b, *y)
                && has_site(sig, *b, *q)
                && p != x
                && q != y
        }
        Family::Parallel { a, x, u, b, y, w } => {
            has_site(sig, *a, *x)
                && has_site(sig, *a, *u)
                && has_site(sig, *b, *y)
                && has_site(sig, *b, *w)
                && a != b
                && x != u
                && y != w
        }
        Family::Chain {
            a,
            x,
            p,
            b,
            y,
            z,
            c,
            w,
            q,
        } => {
            has_site(sig, *a, *x)
                && has_site(sig, *a, *p)
                && has_site(sig, *b, *y)
                && has_site(sig, *b, *z)
                && has_site(sig, *c, *w)
                && has_site(sig, *c, *q)
                && p != x
                && y != z
                && q != w
        }
    }
}

/// Whether a row has the shape of a family and is valid over a signature: a state stands exactly where the site has
/// states and is one of them, and partners exist. It takes no memory.
pub fn is_row(sig: &Signature, family: &Family, row: &Row) -> bool
    ensures { IsTrue result ↔ IsRow sig.now family.now row.now }
{
    match family {
        Family::Parallel { .. } => match row {
            Row::Locals(_) => false,
            _ => true,
        },
        _ => match row {
            Row::Locals(locals) => are_columns(sig, family, locals.as_slice()),
            _ => false,
        },
    }
}

/// Whether a row has the shape of a family's rows: one local state for each site of a view, two for an across family, and
/// `Same` or `Different` for a parallel family. It takes no memory.
pub fn has_shape(family: &Family, row: &Row) -> bool
    ensures { IsTrue result ↔ HasShape family.now row.now }
{
    match family {
        Family::Parallel { .. } => match row {
            Row::Locals(_) => false,
            _ => true,
        },
        _ => match row {
            Row::Locals(locals) => locals.as_slice().len() == family.columns(),
            _ => false,
        },
    }
}

fn is_view(sig: &Signature, agent: AgentType, sites: &[SiteNo]) -> bool
    ensures { IsTrue result ↔ ((agent < length sig.now) × ((k s : ℕ) → slice_get sites.now k ≡ Some s → HasSite sig.now agent s) × Ascends sites.now × (length sites.now ≤ 16)) }
{
    (agent.0 as usize) < sig.types()
        && sites.iter().all(|site| has_site(sig, agent, *site))
        && ascends(sites)
        && sites.len() <= 16
}

fn ascends(sites: &[SiteNo]) -> bool
    ensures { IsTrue result ↔ Ascends sites.now }
{
    sites.is_sorted_by(|site, next| site < next)
}

fn has_site(sig: &Signature, agent: AgentType, site: SiteNo) -> bool
    ensures { IsTrue result ↔ HasSite sig.now agent site }
{
    (site.0 as usize) < sig.sites(agent)
}

// There is a local state for each column, and each is valid.
fn are_columns(sig: &Signature, family: &Family, locals: &[Local]) -> bool
    requires { length locals.now ≤ 16 }
    ensures { IsTrue result ↔ AreColumns sig.now (shape_of family.now).types (shape_of family.now).columns locals.now }
{
    if locals.len() != family.columns() {
        return false;
    }
    let columns = family.read_columns();
    let columns = columns.as_slice();
    for k in 0..locals.len() {
        if !is_local_of(sig, family, columns[k], locals[k]) {
            return false;
        }
    }
    true
}

// The local state is valid at the column.
fn is_local_of(sig: &Signature, family: &Family, at: NodeSite, local: Local) -> bool
    ensures { IsTrue result ↔ Nth (shape_of family.now).types at.node (λ a. IsLocal sig.now a at.site local) }
{
    match family.node_type(at.node.0 as usize) {
        None => false,
        Some(agent) => is_local(sig, agent, at.site, local),
    }
}

// A site of a type has the local state.
fn is_local(sig: &Signature, agent: AgentType, site: SiteNo, local: Local) -> bool
    ensures { IsTrue result ↔ IsLocal sig.now agent site local }
{
    is_local_state(sig, agent, site, local.state) && is_local_link(sig, local.link)
}

fn is_local_state(sig: &Signature, agent: AgentType, site: SiteNo, state: Option<StateNo>) -> bool
    ensures { IsTrue result ↔ IsLocalState (slice_get (state_counts sig.now agent) site) state }
{
    if !has_site(sig, agent, site) {
        return false;
    }
    match state {
        None => sig.states(agent, site) == 0,
        Some(state) => (state.0 as usize) < sig.states(agent, site),
    }
}

fn is_local_link(sig: &Signature, link: LocalLink) -> bool
    ensures { IsTrue result ↔ IsLocalLink sig.now link }
{
    match link {
        LocalLink::Free => true,
        LocalLink::Partner(agent, site) => has_site(sig, agent, site),
    }
}
