// What the lists of a column tell of the rows that don't contradict a pattern there.
ghost use Rattle.std.specs.Prelude.{ℕ, IfSome, IsTrue, ◌↔◌, ◌<◌, ◌+◌, ◌^◌};
ghost use Rattle.kasa_families.specs.declared.row.Local.{Local};
ghost use Rattle.kasa_families.specs.Spot.{place_of, StandsAt, HasNamedSites};
ghost use Rattle.kasa_families.specs.First.{IsLeastFrom};
ghost use Rattle.kasa_tables.specs.Post.{post};
ghost use Rattle.kasa_tables.specs.Index.{IsRising, AgreesHere, IsHere, ListedHere, Listed, IsOnlyLocal};

use crate::column::Column;
use crate::rising::{first_from, lesser};
use kasa_families::{Family, Local, Spot, agrees_at};
use kasa_graph::Pattern;

// Whether the local state of a number that has a list doesn't contradict g at the column.
fn agrees_here(
    column: &Column,
    i: usize,
    g: &Pattern,
    family: &Family,
    spot: &Spot,
    c: usize,
) -> bool
    requires stands { StandsAt g.now family.now (place_of g.now family.now spot.now) }
    requires named { HasNamedSites g.now family.now }
    ensures { IsTrue result ↔ ((l : Local) × AgreesHere column.now i g.now family.now (place_of g.now family.now spot.now) c l) }
{
    match column.local(i) {
        None => false,
        Some(local) => agrees_at(g, family, spot, c, local),
    }
}

// The local state of a number that has a list, where it doesn't contradict g at the column.
fn agreeing(
    column: &Column,
    i: usize,
    g: &Pattern,
    family: &Family,
    spot: &Spot,
    c: usize,
) -> Option<Local>
    requires stands { StandsAt g.now family.now (place_of g.now family.now spot.now) }
    requires named { HasNamedSites g.now family.now }
    ensures { IsHere column.now g.now family.now (place_of g.now family.now spot.now) c i result }
{
    if agrees_here(column, i, g, family, spot, c) {
        column.local(i)
    } else {
        None
    }
}

// How many rows there are whose local state doesn't contradict g at the column.
pub(crate) fn count_listed(
    column: &Column,
    g: &Pattern,
    family: &Family,
    spot: &Spot,
    c: usize,
) -> usize
    requires stands { StandsAt g.now family.now (place_of g.now family.now spot.now) }
    requires named { HasNamedSites g.now family.now }
{
    let mut count = 0usize;
    for i in 0..column.len() {
        if let Some(local) = agreeing(column, i, g, family, spot, c) {
            count = count.saturating_add(column.list(local).len());
        }
    }
    count
}

// The first number of a local state with a list, at or after `from`, that doesn't contradict g at the column.
fn next_agreeing(
    column: &Column,
    g: &Pattern,
    family: &Family,
    spot: &Spot,
    c: usize,
    from: usize,
) -> Option<usize>
    requires stands { StandsAt g.now family.now (place_of g.now family.now spot.now) }
    requires named { HasNamedSites g.now family.now }
    ensures least { IsLeastFrom (λ i. (l : Local) × AgreesHere column.now i g.now family.now (place_of g.now family.now spot.now) c l) from result }
    ensures small { IfSome result (λ i. i + 1 < 2 ^ 64) }
{
    for i in from..column.len() {
        if agrees_here(column, i, g, family, spot, c) {
            return Some(i);
        }
    }
    None
}

// The only local state of a row that doesn't contradict g at the column. None says nothing.
pub(crate) fn only_local(
    column: &Column,
    g: &Pattern,
    family: &Family,
    spot: &Spot,
    c: usize,
) -> Option<Local>
    requires stands { StandsAt g.now family.now (place_of g.now family.now spot.now) }
    requires named { HasNamedSites g.now family.now }
    ensures { IfSome result (λ l. IsOnlyLocal column.now g.now family.now (place_of g.now family.now spot.now) c l) }
{
    let i = next_agreeing(column, g, family, spot, c, 0)?;
    match next_agreeing(column, g, family, spot, c, i + 1) {
        Some(_) => None,
        None => column.local(i),
    }
}

// The least number at or after `from` of a row whose local state doesn't contradict g at the column.
pub(crate) fn next_listed(
    column: &Column,
    g: &Pattern,
    family: &Family,
    spot: &Spot,
    c: usize,
    from: usize,
) -> Option<usize>
    requires stands { StandsAt g.now family.now (place_of g.now family.now spot.now) }
    requires named { HasNamedSites g.now family.now }
    requires rising { (l : Local) → IsRising (post column.now l) }
    ensures { IsLeastFrom (Listed column.now g.now family.now (place_of g.now family.now spot.now) c) from result }
{
    let mut next = None;
    for i in 0..column.len() {
        next = lesser(next, next_here(column, i, g, family, spot, c, from));
    }
    next
}

// The same where the local state is the one of a number.
fn next_here(
    column: &Column,
    i: usize,
    g: &Pattern,
    family: &Family,
    spot: &Spot,
    c: usize,
    from: usize,
) -> Option<usize>
    requires stands { StandsAt g.now family.now (place_of g.now family.now spot.now) }
    requires named { HasNamedSites g.now family.now }
    requires rising { (l : Local) → IsRising (post column.now l) }
    ensures { IsLeastFrom (ListedHere column.now i g.now family.now (place_of g.now family.now spot.now) c) from result }
{
    match agreeing(column, i, g, family, spot, c) {
        None => None,
        Some(local) => first_from(column.list(local), from),
    }
}
