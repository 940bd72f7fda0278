// Embeddings of patterns in mixtures.
ghost use Rattle.std.specs.Prelude.{◌≡◌, ℕ, ◌<◌, ◌↔◌, IsTrue, length, Some, slice_get};
ghost use Rattle.kasa_lists.specs.Lists.{AllDifferent, Has};
ghost use Rattle.kasa_graph.specs.Mixture.{state_in, partner_in};
ghost use Rattle.kasa_graph.specs.Embedding.{MeetsState, MeetsLink, FitsCell, IsEmbedding};

use crate::{LinkTest, Mixture, Pattern, SiteTests, StateTest};
use kasa_num::{NodeNo, SiteNo, StateNo};

// The state at a site meets a test.
fn meets_state(at: Option<StateNo>, test: StateTest) -> bool
    ensures { IsTrue result ↔ MeetsState at test }
{
    match test {
        StateTest::Any => true,
        StateTest::Is(state) => at == Some(state),
    }
}

// A node lies on a cell.
fn lies_on(ids: &[u32], node: NodeNo, cell: u32) -> bool
    ensures { IsTrue result ↔ (slice_get ids.now node ≡ Some cell) }
{
    ids.get(node.0 as usize).copied() == Some(cell)
}

// The partner at a site meets a test.
fn meets_link(m: &Mixture, ids: &[u32], at: Option<(u32, SiteNo)>, test: LinkTest) -> bool
    ensures { IsTrue result ↔ MeetsLink m.now ids.now at test }
{
    match test {
        LinkTest::Any => true,
        LinkTest::Free => at.is_none(),
        LinkTest::Bound => at.is_some(),
        LinkTest::Partner(agent, site) => match at {
            Some((d, t)) => t == site && m.agent(d) == Some(agent),
            None => false,
        },
        LinkTest::To(node, site) => match at {
            Some((d, t)) => t == site && lies_on(ids, node, d),
            None => false,
        },
    }
}

// A site of a cell meets the tests at a site of a node.
fn meets_tests(m: &Mixture, ids: &[u32], cell: usize, site: usize, tests: SiteTests) -> bool
    ensures { IsTrue result ↔ (MeetsState (state_in m.now cell site) tests.state × MeetsLink m.now ids.now (partner_in m.now cell site) tests.link) }
{
    meets_state(m.state_at(cell, site), tests.state)
        && meets_link(m, ids, m.partner_at(cell, site), tests.link)
}

// A cell has the type of a node and meets its tests.
fn fits_cell(g: &Pattern, m: &Mixture, ids: &[u32], node: usize, cell: u32) -> bool
    requires { node < length g.now }
    ensures { IsTrue result ↔ FitsCell g.now m.now ids.now node cell }
{
    if m.agent(cell) != Some(g.agent_of(node)) {
        return false;
    }
    for (site, tests) in g.tests(node).iter().enumerate() {
        if !meets_tests(m, ids, cell as usize, site, *tests) {
            return false;
        }
    }
    true
}

// A cell is among the cells.
fn stands_in(ids: &[u32], cell: u32) -> bool
    ensures { IsTrue result ↔ Has ids.now cell }
{
    ids.contains(&cell)
}

// No cell stands twice.
fn are_different(ids: &[u32]) -> bool
    ensures { IsTrue result ↔ AllDifferent ids.now }
{
    for k in 0..ids.len() {
        if stands_in(&ids[..k], ids[k]) {
            return false;
        }
    }
    true
}

/// Whether the cells, one per node, are an embedding of the pattern: different and living, of the nodes' types, and
/// such that they meet every test. It takes no memory. Embeddings are those of the Kappa manual.
pub fn is_embedding(pattern: &Pattern, mixture: &Mixture, ids: &[u32]) -> bool
    ensures { IsTrue result ↔ IsEmbedding pattern.now mixture.now ids.now }
{
    if ids.len() != pattern.nodes() || !are_different(ids) {
        return false;
    }
    for (node, cell) in ids.iter().enumerate() {
        if !fits_cell(pattern, mixture, ids, node, *cell) {
            return false;
        }
    }
    true
}
