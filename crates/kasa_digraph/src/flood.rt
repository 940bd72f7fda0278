//! The reversed graph, and labels that spread over it a layer at a time.

ghost use Rattle.std.specs.Prelude.{◌≡◌, ◌<◌, ◌≤◌, ◌^◌, ◌⊎◌, [], ℕ, length, true, OnOk, IfOk};
ghost use Rattle.kasa_digraph.specs.Graph.{has, successors, IsEdge, IsGraph};
ghost use Rattle.kasa_digraph.specs.inner.Flood.{IsSpread};

use std::alloc::{AllocError, Global};

/// The label of a point that has none.
pub const FAR: u32 = 4294967295;

// Gives the label to the point where it has none, and lists it.
fn mark(y: u32, label: u32, labels: &mut [u32], found: &mut Vec<u32>) -> Result<(), AllocError>
    requires within { y < length labels.old }
    requires label { label < 4294967295 }
    ensures { OnOk result (IsSpread (λ z. z ≡ y) label labels.old labels.new found.old.items found.new.items) }
{
    let at = y as usize;
    if labels[at] == FAR {
        labels[at] = label;
        found.push(y)?;
    }
    Ok(())
}

// Gives the label to those of the points that have none, and lists them.
fn spread(
    points: &[u32],
    label: u32,
    labels: &mut [u32],
    found: &mut Vec<u32>,
) -> Result<(), AllocError>
    requires within { (y : ℕ) → has points.now y ≡ true → y < length labels.old }
    requires label { label < 4294967295 }
    ensures { OnOk result (IsSpread (λ y. has points.now y ≡ true) label labels.old labels.new found.old.items found.new.items) }
{
    for y in points {
        mark(*y, label, labels, found)?;
    }
    Ok(())
}

/// Gives the label to the successors of the points of the layer, where they have none: they are the next layer.
pub fn next_layer(
    alloc: Global,
    graph: &[Vec<u32>],
    layer: &[u32],
    label: u32,
    labels: &mut [u32],
) -> Result<Vec<u32>, AllocError>
    requires graph { IsGraph (successors graph.now) (length labels.old) }
    requires within { (x : ℕ) → has layer.now x ≡ true → x < length graph.now }
    requires label { label < 4294967295 }
    ensures { IfOk result (λ found. IsSpread (λ y. (x : ℕ) × (has layer.now x ≡ true) × IsEdge (successors graph.now) x y) label labels.old labels.new [] found.items) }
{
    let mut found = Vec::new(alloc);
    for x in layer {
        spread(graph[*x as usize].as_slice(), label, labels, &mut found)?;
    }
    Ok(found)
}

// Adds an edge back to p from each of the points.
fn add_back(p: u32, points: &[u32], back: &mut Vec<Vec<u32>>) -> Result<(), AllocError>
    requires { (q : ℕ) → has points.now q ≡ true → q < length back.old.items }
    ensures size { OnOk result (length back.new.items ≡ length back.old.items) }
    ensures from { OnOk result ((q x : ℕ) → IsEdge (successors back.new.items) q x → (IsEdge (successors back.old.items) q x) ⊎ ((x ≡ p) × (has points.now q ≡ true))) }
    ensures kept { OnOk result ((q x : ℕ) → IsEdge (successors back.old.items) q x → IsEdge (successors back.new.items) q x) }
    ensures added { OnOk result ((q : ℕ) → has points.now q ≡ true → IsEdge (successors back.new.items) q p) }
{
    for q in points {
        back[*q as usize].push(p)?;
    }
    Ok(())
}

/// The graph with each edge turned round.
pub fn reversed(alloc: Global, graph: &[Vec<u32>]) -> Result<Vec<Vec<u32>>, AllocError>
    requires few { length graph.now < 2 ^ 32 }
    requires graph { IsGraph (successors graph.now) (length graph.now) }
    ensures size { IfOk result (λ back. length back.items ≡ length graph.now) }
    ensures back { IfOk result (λ back. (p q : ℕ) → IsEdge (successors graph.now) p q → IsEdge (successors back.items) q p) }
    ensures only { IfOk result (λ back. (p q : ℕ) → IsEdge (successors back.items) q p → IsEdge (successors graph.now) p q) }
{
    let mut back = Vec::new(alloc);
    for _ in graph {
        back.push(Vec::new(alloc))?;
    }
    for p in 0..graph.len() {
        add_back(p as u32, graph[p].as_slice(), &mut back)?;
    }
    Ok(back)
}
