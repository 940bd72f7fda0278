// The search for embeddings, from each cell over the bonds.
ghost use Rattle.std.specs.Prelude.{◌≡◌, ℕ, ◌<◌, ◌≤◌, List, length, IfOk, option_map};
ghost use Rattle.std.specs.Ordering.{nat_cmp};
ghost use Rattle.std.specs.Cmp.Lexicographic.{slice_cmp};
ghost use Rattle.std.specs.List.Sorted.{IsStrictlySortedBy};
ghost use Rattle.kasa_lists.specs.Lists.{Has};
ghost use Rattle.kasa_graph.specs.Embedding.{IsEmbedding};
ghost use Rattle.kasa_embed.specs.Connected.{IsConnected};
ghost use Rattle.kasa_embed.specs.Route.{AreRoutes, ends_of, IsEmbeddingFrom};

use crate::Cells;
use crate::route::{MOST_NODES, Route, routes_of};
use arrayvec::ArrayVec;
use kasa_graph::{Mixture, Pattern, is_embedding};
use kasa_num::NoMemory;
use std::alloc::Global;

// The cells that the routes lead to from a first cell.
fn ends(mixture: &Mixture, routes: &[Route], first: u32) -> Option<ArrayVec<u32, MOST_NODES>>
    requires { length routes.now ≤ 3 }
    ensures { option_map (λ cells. cells.items) result ≡ ends_of mixture.now first routes.now }
{
    let mut cells = ArrayVec::new();
    for route in routes {
        cells.push(route.end(mixture, first)?);
    }
    Some(cells)
}

// The embedding that begins with a cell. There is one at most, since the bonds lead to all other cells.
fn embedding_from(
    pattern: &Pattern,
    mixture: &Mixture,
    routes: &[Route],
    first: u32,
) -> Option<ArrayVec<u32, MOST_NODES>>
    requires few { length routes.now ≤ 3 }
    requires routes { AreRoutes pattern.now routes.now }
    ensures { IsEmbeddingFrom pattern.now mixture.now first (option_map (λ cells. cells.items) result) }
{
    let cells = ends(mixture, routes, first)?;
    if is_embedding(pattern, mixture, cells.as_slice()) {
        Some(cells)
    } else {
        None
    }
}

/// All embeddings of a connected pattern of 1 to 3 nodes, each once, in lexicographic order. The first node goes over
/// the cells, and the bonds name the cells of the others, so the work is a few steps for each cell. Memory is taken for
/// the answer alone.
pub fn embeddings(
    alloc: Global,
    pattern: &Pattern,
    mixture: &Mixture,
) -> Result<Vec<Cells>, NoMemory>
    requires some { 0 < length pattern.now }
    requires few { length pattern.now ≤ 3 }
    requires connected { IsConnected pattern.now }
    ensures embedded { IfOk result (λ found. (cells : List ℕ) → Has found.items cells → IsEmbedding pattern.now mixture.now cells) }
    ensures all { IfOk result (λ found. (cells : List ℕ) → IsEmbedding pattern.now mixture.now cells → Has found.items cells) }
    ensures ascending { IfOk result (λ found. IsStrictlySortedBy (slice_cmp nat_cmp) found.items) }
{
    let routes = routes_of(pattern);
    let mut found = Vec::new(alloc);
    for first in 0..mixture.cells() as u32 {
        if let Some(cells) = embedding_from(pattern, mixture, routes.as_slice(), first) {
            found.push(Cells::new(Vec::from_slice(alloc, cells.as_slice())?))?;
        }
    }
    Ok(found)
}
