//! The first cycle.

ghost use Rattle.std.specs.Prelude.{◌≡◌, ◌<◌, ◌≤◌, ◌⊎◌, ◌≢◌, ◌+◌, ℕ, length, true, false, slice_index, IfOk, OnOk, IfSome, IfNone};
ghost use Rattle.kasa_digraph.specs.Graph.{has, successors, IsEdge, IsGraph, IsCyclic, Leads};
ghost use Rattle.kasa_digraph.specs.inner.Search.{IsFinishOrder};
ghost use Rattle.kasa_digraph.specs.FirstCycle.{IsFirstCycle};
ghost use Rattle.kasa_digraph.specs.inner.Cycle.{IsFirstFrom, IsReverse, AreDistances, IsBefore, IsClosest, AreAssigned, AreComponents};

use crate::flood::{FAR, next_layer, reversed};
use crate::search::finish_order;
use std::alloc::{AllocError, Global};

// How many edges lead from each point to s, at the least; `FAR` where none do.
fn distances_to(
    alloc: Global,
    graph: &[Vec<u32>],
    back: &[Vec<u32>],
    s: u32,
) -> Result<Vec<u32>, AllocError>
    requires few { length graph.now < 4294967295 }
    requires size { length back.now ≡ length graph.now }
    requires graph { IsGraph (successors back.now) (length graph.now) }
    requires reverse { IsReverse (successors graph.now) (successors back.now) }
    requires start { s < length graph.now }
    ensures size { IfOk result (λ distances. length distances.items ≡ length graph.now) }
    ensures distances { IfOk result (λ distances. AreDistances (successors graph.now) s distances.items) }
{
    let mut distances = vec![in alloc; FAR; graph.len()]?;
    distances[s as usize] = 0;
    let mut layer = Vec::new(alloc);
    layer.push(s)?;
    let mut d = 0u32;
    'layers: while !layer.is_empty() {
        let label = d + 1;
        layer = next_layer(
            alloc,
            back,
            layer.as_slice(),
            label,
            distances.as_mut_slice(),
        )?;
        d = label;
    }
    Ok(distances)
}

// The closer of two points; of two as close the lesser.
fn closer(q: u32, r: u32, distances: &[u32]) -> u32
    requires q { q < length distances.now }
    requires r { r < length distances.now }
    ensures either { (result ≡ q) ⊎ (result ≡ r) }
    ensures first { IsBefore distances.now result q }
    ensures second { IsBefore distances.now result r }
{
    let a = distances[q as usize];
    let b = distances[r as usize];
    if b < a || (a == b && r < q) { r } else { q }
}

// The closest of the points; of those as close the least.
fn closest(points: &[u32], distances: &[u32]) -> u32
    requires some { 0 < length points.now }
    requires within { (q : ℕ) → has points.now q ≡ true → q < length distances.now }
    ensures { IsClosest distances.now points.now result }
{
    let mut best = points[0];
    for r in points {
        best = closer(best, *r, distances);
    }
    best
}

// The shortest closed walk from s, the first of them.
fn walk(
    alloc: Global,
    graph: &[Vec<u32>],
    distances: &[u32],
    s: u32,
) -> Result<Vec<u32>, AllocError>
    requires graph { IsGraph (successors graph.now) (length graph.now) }
    requires size { length distances.now ≡ length graph.now }
    requires distances { AreDistances (successors graph.now) s distances.now }
    requires start { Leads (successors graph.now) s s }
    ensures { IfOk result (λ cycle. IsFirstFrom (successors graph.now) s cycle.items) }
{
    let mut walk = Vec::new(alloc);
    walk.push(s)?;
    let mut at = closest(graph[s as usize].as_slice(), distances);
    'steps: while at != s {
        walk.push(at)?;
        at = closest(graph[at as usize].as_slice(), distances);
    }
    Ok(walk)
}

// Assigns the component of the point at place k, where it isn't yet.
fn assign(
    alloc: Global,
    graph: &[Vec<u32>],
    back: &[Vec<u32>],
    order: &[u32],
    k: u32,
    components: &mut [u32],
) -> Result<(), AllocError>
    requires few { length graph.now < 4294967295 }
    requires size { length back.now ≡ length graph.now }
    requires graph { IsGraph (successors back.now) (length graph.now) }
    requires reverse { IsReverse (successors graph.now) (successors back.now) }
    requires order { IsFinishOrder (successors graph.now) (length graph.now) order.now }
    requires place { k < length order.now }
    requires label { k < 4294967295 }
    requires above { AreAssigned (successors graph.now) (length graph.now) order.now (k + 1) components.old }
    ensures { OnOk result (AreAssigned (successors graph.now) (length graph.now) order.now k components.new) }
{
    let root = order[k as usize];
    let at = root as usize;
    if components[at] != FAR {
        return Ok(());
    }
    components[at] = k;
    let mut layer = Vec::new(alloc);
    layer.push(root)?;
    'layers: while !layer.is_empty() {
        layer = next_layer(alloc, back, layer.as_slice(), k, components)?;
    }
    Ok(())
}

// The component of each point.
fn components_of(
    alloc: Global,
    graph: &[Vec<u32>],
    back: &[Vec<u32>],
    order: &[u32],
) -> Result<Vec<u32>, AllocError>
    requires few { length graph.now < 4294967295 }
    requires size { length back.now ≡ length graph.now }
    requires graph { IsGraph (successors back.now) (length graph.now) }
    requires reverse { IsReverse (successors graph.now) (successors back.now) }
    requires order { IsFinishOrder (successors graph.now) (length graph.now) order.now }
    ensures size { IfOk result (λ components. length components.items ≡ length graph.now) }
    ensures components { IfOk result (λ components. AreComponents (successors graph.now) (length graph.now) components.items) }
{
    let mut components = vec![in alloc; FAR; graph.len()]?;
    let mut k = order.len();
    'places: while k > 0 {
        k -= 1;
        assign(
            alloc,
            graph,
            back,
            order,
            k as u32,
            components.as_mut_slice(),
        )?;
    }
    Ok(components)
}

fn has_component(points: &[u32], component: u32, components: &[u32]) -> bool
    requires { (q : ℕ) → has points.now q ≡ true → q < length components.now }
    ensures yes { result ≡ true → (q : ℕ) × (has points.now q ≡ true) × (slice_index components.now q ≡ component) }
    ensures no { result ≡ false → ((q : ℕ) → has points.now q ≡ true → slice_index components.now q ≢ component) }
{
    for q in points {
        if components[*q as usize] == component {
            return true;
        }
    }
    false
}

// The least point on a cycle.
fn least_on_cycle(graph: &[Vec<u32>], components: &[u32]) -> Option<u32>
    requires few { length graph.now < 4294967295 }
    requires graph { IsGraph (successors graph.now) (length graph.now) }
    requires size { length components.now ≡ length graph.now }
    requires components { AreComponents (successors graph.now) (length graph.now) components.now }
    ensures some { IfSome result (λ s. Leads (successors graph.now) s s) }
    ensures least { IfSome result (λ s. (p : ℕ) → p < s → ¬ (Leads (successors graph.now) p p)) }
    ensures none { IfNone result ((p : ℕ) → ¬ (Leads (successors graph.now) p p)) }
{
    for p in 0..graph.len() {
        if has_component(graph[p].as_slice(), components[p], components) {
            return Some(p as u32);
        }
    }
    None
}

/// The first cycle: it starts at the least point on any, and of the shortest from there it is the first in
/// lexicographic order. `None` where there is no cycle.
pub fn first_cycle(alloc: Global, graph: &[Vec<u32>]) -> Result<Option<Vec<u32>>, AllocError>
    requires few { length graph.now < 4294967295 }
    requires graph { IsGraph (successors graph.now) (length graph.now) }
    ensures some { IfOk result (λ found. IfSome found (λ cycle. IsFirstCycle (successors graph.now) cycle.items)) }
    ensures none { IfOk result (λ found. IfNone found (¬ (IsCyclic (successors graph.now)))) }
{
    let order = finish_order(alloc, graph)?;
    let back = reversed(alloc, graph)?;
    let components = components_of(alloc, graph, back.as_slice(), order.as_slice())?;
    match least_on_cycle(graph, components.as_slice()) {
        None => Ok(None),
        Some(s) => {
            let distances = distances_to(alloc, graph, back.as_slice(), s)?;
            let cycle = walk(alloc, graph, distances.as_slice(), s)?;
            Ok(Some(cycle))
        }
    }
}
