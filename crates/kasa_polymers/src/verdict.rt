// The verdict on polymers: the bound on species, or a cycle of the step graph.
ghost use Rattle.std.specs.Prelude.{◌≡◌, ◌↔◌, ◌<◌, ◌≤◌, ◌^◌, [], ◌∷◌, ℕ, true, List, Option, IsTrue, IfOk, length, map, slice_index};
ghost use Rattle.kasa_digraph.specs.Graph.{has, successors, IsGraph, IsCyclic, IsOrder};
ghost use Rattle.kasa_graph.specs.Pattern.{blank_node};
ghost use Rattle.kasa_graph.specs.Signature.{state_counts};
ghost use Rattle.kasa_families.specs.Table.{AreTables};
ghost use Rattle.kasa_pre.specs.Allowed.{IsAllowed};
ghost use Rattle.kasa_pre.specs.Closed.{IsClosed};
ghost use Rattle.kasa_polymers.specs.declared.map.Bond.{Bond};
ghost use Rattle.kasa_polymers.specs.Verdict.{IsVerdict, BoundsReached};
ghost use Rattle.kasa_polymers.specs.inner.Steps.{AreListedByType, AreAt};
ghost use Rattle.kasa_polymers.specs.inner.Bound.{IsGraphOf, IsCycleOf, AllOfTypes, IsSiteOf, IsSumFrom, IsLargestFrom};

use crate::steps::{points_by_type, points_of, steps_of};
use crate::{Bond, Bonds, Polymers, contact};
use kasa_digraph::{MOST, first_cycle, order, weight, weights};
use kasa_families::Rows;
use kasa_graph::{Pattern, Signature};
use kasa_num::{AgentType, NoMemory};
use kasa_pre::allowed;
use kasa_rules::Model;
use std::alloc::Global;

/// The verdict on a model's polymers. Where the step graph of the tables' contact map has a cycle, the answer is the first
/// of the shortest from the least bond on one. Else it is the bound, or `Beyond` where that is 2^64 or more; and where the
/// tables are closed, no species of a mixture that the model reaches has more cells than the bound.
pub fn polymers<R: Rows>(alloc: Global, model: &Model, rows: &R) -> Result<Polymers, NoMemory>
    requires tables { AreTables model.now.sig (R.tables rows.now) }
    ensures verdict { IfOk result (λ verdict. IsVerdict model.now (R.tables rows.now) verdict) }
    ensures sound { IfOk result (λ verdict. IsClosed model.now (R.tables rows.now) → BoundsReached model.now verdict) }
{
    let map = contact(alloc, model, rows)?;
    let points = points_of(alloc, &model.sig, rows, map.bonds.as_slice())?;
    let by_type = points_by_type(alloc, model.sig.types(), points.as_slice())?;
    let steps = steps_of(
        alloc,
        &model.sig,
        rows,
        points.as_slice(),
        by_type.as_slice(),
    )?;
    verdict_of(
        alloc,
        model,
        rows,
        points.as_slice(),
        by_type.as_slice(),
        steps.as_slice(),
    )
}

// The verdict, from the step graph.
fn verdict_of<R: Rows>(
    alloc: Global,
    model: &Model,
    rows: &R,
    points: &[Bond],
    by_type: &[Vec<u32>],
    steps: &[Vec<u32>],
) -> Result<Polymers, NoMemory>
    requires tables { AreTables model.now.sig (R.tables rows.now) }
    requires few { length points.now < 4294967295 }
    requires graph { IsGraphOf model.now (R.tables rows.now) points.now (length steps.now) (successors steps.now) }
    requires types { length by_type.now ≡ length model.now.sig }
    requires numbers { AreListedByType points.now (length model.now.sig) (successors by_type.now) }
    ensures { IfOk result (λ verdict. IsVerdict model.now (R.tables rows.now) verdict) }
{
    match order(alloc, steps)? {
        None => cycle_of(alloc, points, steps),
        Some(order) => bound_of(alloc, model, rows, points, by_type, steps, order.as_slice()),
    }
}

// ---- a cycle

// The first cycle.
fn cycle_of(alloc: Global, points: &[Bond], steps: &[Vec<u32>]) -> Result<Polymers, NoMemory>
    requires few { length steps.now < 4294967295 }
    requires size { length steps.now ≡ length points.now }
    requires graph { IsGraph (successors steps.now) (length steps.now) }
    requires cyclic { IsCyclic (successors steps.now) }
    ensures { IfOk result (IsCycleOf points.now (successors steps.now)) }
{
    match first_cycle(alloc, steps)? {
        None => unreachable!(),
        Some(cycle) => Ok(Polymers::Cycle(bonds_at(alloc, points, cycle.as_slice())?)),
    }
}

// The points of these numbers.
fn bonds_at(alloc: Global, points: &[Bond], numbers: &[u32]) -> Result<Bonds, NoMemory>
    requires { (j : ℕ) → has numbers.now j ≡ true → j < length points.now }
    ensures { IfOk result (λ bonds. AreAt points.now numbers.now bonds) }
{
    let mut bonds = Vec::new(alloc);
    for number in numbers {
        bonds.push(points[*number as usize])?;
    }
    Ok(Bonds::new(bonds))
}

// ---- the bound

fn bound_of<R: Rows>(
    alloc: Global,
    model: &Model,
    rows: &R,
    points: &[Bond],
    by_type: &[Vec<u32>],
    steps: &[Vec<u32>],
    order: &[u32],
) -> Result<Polymers, NoMemory>
    requires tables { AreTables model.now.sig (R.tables rows.now) }
    requires few { length points.now < 4294967295 }
    requires graph { IsGraphOf model.now (R.tables rows.now) points.now (length steps.now) (successors steps.now) }
    requires types { length by_type.now ≡ length model.now.sig }
    requires numbers { AreListedByType points.now (length model.now.sig) (successors by_type.now) }
    requires order { IsOrder (successors steps.now) (length steps.now) order.now }
    ensures { IfOk result (λ verdict. IsVerdict model.now (R.tables rows.now) verdict) }
{
    let sites = sites_of_points(alloc, points)?;
    let counts = site_counts(alloc, &model.sig, points)?;
    let values = weights(alloc, steps, sites.as_slice(), counts.as_slice(), order)?;
    let most = largest_sum(
        alloc,
        model,
        rows,
        by_type,
        sites.as_slice(),
        values.as_slice(),
    )?;
    if most < MOST {
        Ok(Polymers::AtMost(most as u64))
    } else {
        Ok(Polymers::Beyond)
    }
}

// The site by which each point goes on.
fn sites_of_points(alloc: Global, points: &[Bond]) -> Result<Vec<u32>, NoMemory>
    ensures { IfOk result (λ sites. sites.items ≡ map (λ p. p.x) points.now) }
{
    let mut sites = Vec::new(alloc);
    for bond in points {
        sites.push(bond.x.0 as u32)?;
    }
    Ok(sites)
}

// How many sites the type has to which each point leads.
fn site_counts(alloc: Global, sig: &Signature, points: &[Bond]) -> Result<Vec<u32>, NoMemory>
    ensures { IfOk result (λ counts. counts.items ≡ map (λ p. length (state_counts sig.now p.b)) points.now) }
{
    let mut counts = Vec::new(alloc);
    for bond in points {
        counts.push(sig.sites(bond.b) as u32)?;
    }
    Ok(counts)
}

// The largest sum of a type that is allowed.
fn largest_sum<R: Rows>(
    alloc: Global,
    model: &Model,
    rows: &R,
    by_type: &[Vec<u32>],
    sites: &[u32],
    values: &[u128],
) -> Result<u128, NoMemory>
    requires tables { AreTables model.now.sig (R.tables rows.now) }
    requires types { length by_type.now ≡ length model.now.sig }
    requires sized { length sites.now ≡ length values.now }
    requires within { AllOfTypes (length model.now.sig) (successors by_type.now) (λ a q. q < length values.now) }
    requires sites { AllOfTypes (length model.now.sig) (successors by_type.now) (IsSiteOf model.now sites.now) }
    requires few { (q : ℕ) → slice_index values.now q ≤ 2 ^ 64 }
    ensures { IfOk result (IsLargestFrom model.now (R.tables rows.now) sites.now values.now (successors by_type.now)) }
{
    let mut most = 0u128;
    for a in 0..model.sig.types() {
        let sum = type_sum(
            alloc,
            model,
            rows,
            AgentType(a as u16),
            by_type,
            sites,
            values,
        )?;
        most = most.max(sum);
    }
    Ok(most)
}

// The sum of a type, 0 where it isn't allowed.
fn type_sum<R: Rows>(
    alloc: Global,
    model: &Model,
    rows: &R,
    a: AgentType,
    by_type: &[Vec<u32>],
    sites: &[u32],
    values: &[u128],
) -> Result<u128, NoMemory>
    requires tables { AreTables model.now.sig (R.tables rows.now) }
    requires known { a < length model.now.sig }
    requires types { length by_type.now ≡ length model.now.sig }
    requires sized { length sites.now ≡ length values.now }
    requires within { (q : ℕ) → has (successors by_type.now a) q ≡ true → q < length values.now }
    requires sites { (q : ℕ) → has (successors by_type.now a) q ≡ true → IsSiteOf model.now sites.now a q }
    requires few { (q : ℕ) → slice_index values.now q ≤ 2 ^ 64 }
    ensures { IfOk result (IsSumFrom model.now (R.tables rows.now) sites.now values.now (successors by_type.now) a) }
{
    let is_allowed = is_allowed_type(alloc, &model.sig, rows, a)?;
    if !is_allowed {
        return Ok(0);
    }
    let leaving = points_from(by_type, a);
    let count = model.sig.sites(a) as u32;
    let sum = weight(alloc, leaving, sites, count, values)?;
    Ok(sum)
}

// The numbers of the points that lead from a type.
fn points_from(by_type: &[Vec<u32>], a: AgentType) -> &[u32]
    requires { a < length by_type.now }
    ensures { result.now ≡ successors by_type.now a }
{
    by_type[a.0 as usize].as_slice()
}

fn is_allowed_type<R: Rows>(
    alloc: Global,
    sig: &Signature,
    rows: &R,
    a: AgentType,
) -> Result<bool, NoMemory>
    requires tables { AreTables sig.now (R.tables rows.now) }
    requires known { a < length sig.now }
    ensures { IfOk result (λ yes. IsTrue yes ↔ IsAllowed sig.now (R.tables rows.now) (blank_node sig.now a ∷ [])) }
{
    let mut g = Pattern::new(alloc);
    g.add_node(sig, a)?;
    Ok(allowed(sig, rows, &g))
}
