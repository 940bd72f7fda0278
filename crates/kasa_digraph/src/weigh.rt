//! The weights of the points, in an order in which each stands after its successors.

ghost use Rattle.std.specs.Prelude.{◌≡◌, ◌<◌, ◌≤◌, ◌+◌, ◌^◌, ℕ, length, true, IfOk, min, sum, slice_index};
ghost use Rattle.kasa_digraph.specs.Graph.{has, successors, IsEdge, IsOrder};
ghost use Rattle.kasa_digraph.specs.Weight.{AreWeights, AreCapped, IsCappedWeight};
ghost use Rattle.kasa_digraph.specs.inner.Weigh.{shares_of};

use std::alloc::{AllocError, Global};

/// A weight of that many says: at least as many.
pub const MOST: u128 = 18446744073709551616;

// The share of each group: its largest value.
fn shares(
    alloc: Global,
    next: &[u32],
    group: &[u32],
    count: u32,
    values: &[u128],
) -> Result<Vec<u128>, AllocError>
    requires grouped { (q : ℕ) → has next.now q ≡ true → q < length group.now }
    requires valued { (q : ℕ) → has next.now q ≡ true → q < length values.now }
    requires counted { (q : ℕ) → has next.now q ≡ true → slice_index group.now q < count }
    requires few { (q : ℕ) → slice_index values.now q ≤ 2 ^ 64 }
    ensures shares { IfOk result (λ best. best.items ≡ shares_of (slice_index group.now) (slice_index values.now) count next.now) }
    ensures few { IfOk result (λ best. (z : ℕ) → slice_index best.items z ≤ 2 ^ 64) }
{
    let mut best = vec![in alloc; 0u128; count as usize]?;
    for q in next {
        let at = group[*q as usize] as usize;
        best[at] = best[at].max(values[*q as usize]);
    }
    Ok(best)
}

// 1 and the values, as far as that is below 2 ^ 64.
fn total(values: &[u128]) -> u128
    requires { (z : ℕ) → slice_index values.now z ≤ 2 ^ 64 }
    ensures { result ≡ min (1 + sum values.now) (2 ^ 64) }
{
    let mut total = 1u128;
    for value in values {
        total = (total + *value).min(MOST);
    }
    total
}

// The weight of a point with these successors, cut off, from theirs.
fn weight_from(
    alloc: Global,
    points: &[u32],
    group: &[u32],
    count: u32,
    values: &[u128],
) -> Result<u128, AllocError>
    requires grouped { (q : ℕ) → has points.now q ≡ true → q < length group.now }
    requires valued { (q : ℕ) → has points.now q ≡ true → q < length values.now }
    requires counted { (q : ℕ) → has points.now q ≡ true → slice_index group.now q < count }
    requires few { (q : ℕ) → slice_index values.now q ≤ 2 ^ 64 }
    ensures { IfOk result (λ n. n ≡ min (1 + sum (shares_of (slice_index group.now) (slice_index values.now) count points.now)) (2 ^ 64)) }
{
    let best = shares(alloc, points, group, count, values)?;
    Ok(total(best.as_slice()))
}

/// The weight of a point with these successors, from theirs. The groups of the points are numbered from 0, and `count` says
/// how many there are. Weights of 2^64 and more are given as 2^64, and so is the answer.
pub fn weight(
    alloc: Global,
    points: &[u32],
    group: &[u32],
    count: u32,
    values: &[u128],
) -> Result<u128, AllocError>
    requires grouped { (q : ℕ) → has points.now q ≡ true → q < length group.now }
    requires valued { (q : ℕ) → has points.now q ≡ true → q < length values.now }
    requires counted { (q : ℕ) → has points.now q ≡ true → slice_index group.now q < count }
    requires few { (q : ℕ) → slice_index values.now q ≤ 2 ^ 64 }
    ensures { IfOk result (λ n. (weight : ℕ → ℕ) → AreCapped weight points.now (slice_index values.now) → IsCappedWeight (slice_index group.now) weight points.now count n) }
{
    weight_from(alloc, points, group, count, values)
}

/// The weight of each point. The groups of a point's successors are numbered from 0, and `counts` says how many there
/// are. Weights of 2^64 and more are given as 2^64.
pub fn weights(
    alloc: Global,
    graph: &[Vec<u32>],
    group: &[u32],
    counts: &[u32],
    order: &[u32],
) -> Result<Vec<u128>, AllocError>
    requires order { IsOrder (successors graph.now) (length graph.now) order.now }
    requires grouped { length group.now ≡ length graph.now }
    requires counted { length counts.now ≡ length graph.now }
    requires within { (p q : ℕ) → IsEdge (successors graph.now) p q → slice_index group.now q < slice_index counts.now p }
    ensures weights { IfOk result (λ values. AreWeights (successors graph.now) (length graph.now) (slice_index group.now) (slice_index counts.now) values.items) }
    ensures each { IfOk result (λ values. length values.items ≡ length graph.now) }
    ensures few { IfOk result (λ values. (q : ℕ) → slice_index values.items q ≤ 2 ^ 64) }
{
    let mut values = vec![in alloc; 0u128; graph.len()]?;
    for p in order {
        let at = *p as usize;
        let value = weight_from(
            alloc,
            graph[at].as_slice(),
            group,
            counts[at],
            values.as_slice(),
        )?;
        values[at] = value;
    }
    Ok(values)
}
