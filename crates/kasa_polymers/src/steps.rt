// The step graph: the bonds that can be there, in order, and how a walk can go on from each.
ghost use Rattle.std.specs.Prelude.{◌≡◌, ◌≢◌, ◌↔◌, ◌<◌, ◌^◌, ℕ, true, IsTrue, IfOk, AllPairs, length};
ghost use Rattle.kasa_digraph.specs.Graph.{has, successors};
ghost use Rattle.kasa_graph.specs.Lists.{Has};
ghost use Rattle.kasa_graph.specs.Pattern.{IsPatternOver};
ghost use Rattle.kasa_families.specs.Table.{AreTables};
ghost use Rattle.kasa_pre.specs.Allowed.{IsAllowed};
ghost use Rattle.kasa_polymers.specs.declared.map.Bond.{Bond};
ghost use Rattle.kasa_polymers.specs.Order.{IsBondBelow};
ghost use Rattle.kasa_polymers.specs.StepGraph.{bond_pattern, step_pattern};
ghost use Rattle.kasa_polymers.specs.inner.Steps.{IsBondOver, AreBondsOver, AreAllowed, AreNumbers, AreListedByType, IsStepAllowed, AreSteps};

use crate::Bond;
use kasa_families::Rows;
use kasa_graph::{Pattern, Signature};
use kasa_num::{NoMemory, NodeNo};
use kasa_pre::allowed;
use std::alloc::Global;

// The bonds whose pattern of two nodes is allowed.
pub(crate) fn points_of<R: Rows>(
    alloc: Global,
    sig: &Signature,
    rows: &R,
    bonds: &[Bond],
) -> Result<Vec<Bond>, NoMemory>
    requires tables { AreTables sig.now (R.tables rows.now) }
    requires over { AreBondsOver sig.now bonds.now }
    requires ascend { AllPairs IsBondBelow bonds.now }
    ensures listed { IfOk result (λ points. AreAllowed sig.now (R.tables rows.now) bonds.now points.items) }
    ensures ascend { IfOk result (λ points. AllPairs IsBondBelow points.items) }
{
    let mut points = Vec::new(alloc);
    for bond in bonds {
        if is_point(alloc, sig, rows, bond)? {
            points.push(*bond)?;
        }
    }
    Ok(points)
}

fn is_point<R: Rows>(
    alloc: Global,
    sig: &Signature,
    rows: &R,
    bond: &Bond,
) -> Result<bool, NoMemory>
    requires tables { AreTables sig.now (R.tables rows.now) }
    requires over { IsBondOver sig.now bond.now }
    ensures { IfOk result (λ yes. IsTrue yes ↔ IsAllowed sig.now (R.tables rows.now) (bond_pattern sig.now bond.now)) }
{
    let pattern = pattern_of_bond(alloc, sig, bond)?;
    Ok(allowed(sig, rows, &pattern))
}

// Two agents with a bond.
fn pattern_of_bond(alloc: Global, sig: &Signature, bond: &Bond) -> Result<Pattern, NoMemory>
    requires over { IsBondOver sig.now bond.now }
    ensures pattern { IfOk result (λ g. g ≡ bond_pattern sig.now bond.now) }
    ensures over { IfOk result (λ g. IsPatternOver sig.now g) }
{
    let mut g = Pattern::new(alloc);
    let first = g.add_node(sig, bond.a)?;
    let second = g.add_node(sig, bond.b)?;
    g.join(first, bond.x, second, bond.y);
    Ok(g)
}

// Three agents with two bonds.
fn pattern_of_step(
    alloc: Global,
    sig: &Signature,
    bond: &Bond,
    next: &Bond,
) -> Result<Pattern, NoMemory>
    requires over { IsBondOver sig.now bond.now }
    requires next_over { IsBondOver sig.now next.now }
    requires goes_on { bond.now.b ≡ next.now.a }
    requires other_site { next.now.x ≢ bond.now.y }
    ensures pattern { IfOk result (λ g. g ≡ step_pattern sig.now bond.now next.now) }
    ensures over { IfOk result (λ g. IsPatternOver sig.now g) }
{
    let mut g = pattern_of_bond(alloc, sig, bond)?;
    let third = g.add_node(sig, next.b)?;
    g.join(NodeNo(1), next.x, third, next.y);
    Ok(g)
}

fn is_step<R: Rows>(
    alloc: Global,
    sig: &Signature,
    rows: &R,
    bond: &Bond,
    next: &Bond,
) -> Result<bool, NoMemory>
    requires tables { AreTables sig.now (R.tables rows.now) }
    requires over { IsBondOver sig.now bond.now }
    requires next_over { IsBondOver sig.now next.now }
    requires goes_on { bond.now.b ≡ next.now.a }
    ensures { IfOk result (λ yes. IsTrue yes ↔ IsStepAllowed sig.now (R.tables rows.now) bond.now next.now) }
{
    if next.x == bond.y {
        return Ok(false);
    }
    let pattern = pattern_of_step(alloc, sig, bond, next)?;
    Ok(allowed(sig, rows, &pattern))
}

// So many empty lists.
fn empty_lists(alloc: Global, count: usize) -> Result<Vec<Vec<u32>>, NoMemory>
    ensures size { IfOk result (λ lists. length lists.items ≡ count) }
    ensures empty { IfOk result (λ lists. (a j : ℕ) → ¬ (has (successors lists.items a) j ≡ true)) }
{
    let mut lists = Vec::new(alloc);
    for _list in 0..count {
        lists.push(Vec::new(alloc))?;
    }
    Ok(lists)
}

// The type that a bond leads from.
fn type_from(bond: &Bond) -> usize
    ensures is { result ≡ bond.now.a }
    ensures few { result < 2 ^ 16 }
{
    bond.a.0 as usize
}

// The type that a bond leads to.
fn type_to(bond: &Bond) -> usize
    ensures is { result ≡ bond.now.b }
    ensures few { result < 2 ^ 16 }
{
    bond.b.0 as usize
}

// The numbers of the points that lead from each type.
pub(crate) fn points_by_type(
    alloc: Global,
    types: usize,
    points: &[Bond],
) -> Result<Vec<Vec<u32>>, NoMemory>
    requires few { length points.now < 2 ^ 32 }
    requires known { (p : Bond) → Has points.now p → p.a < types }
    ensures size { IfOk result (λ lists. length lists.items ≡ types) }
    ensures numbers { IfOk result (λ lists. AreListedByType points.now types (successors lists.items)) }
{
    let mut lists = empty_lists(alloc, types)?;
    for number in 0..points.len() {
        let at = type_from(&points[number]);
        lists[at].push(number as u32)?;
    }
    Ok(lists)
}

// The numbers of the points to which a step leads from each point.
pub(crate) fn steps_of<R: Rows>(
    alloc: Global,
    sig: &Signature,
    rows: &R,
    points: &[Bond],
    by_type: &[Vec<u32>],
) -> Result<Vec<Vec<u32>>, NoMemory>
    requires tables { AreTables sig.now (R.tables rows.now) }
    requires over { AreBondsOver sig.now points.now }
    requires size { length by_type.now ≡ length sig.now }
    requires numbers { AreListedByType points.now (length sig.now) (successors by_type.now) }
    ensures size { IfOk result (λ steps. length steps.items ≡ length points.now) }
    ensures steps { IfOk result (λ steps. AreSteps sig.now (R.tables rows.now) points.now (successors steps.items)) }
{
    let mut steps = Vec::new(alloc);
    for bond in points {
        let at = type_to(bond);
        let next = by_type[at].as_slice();
        steps.push(steps_from(alloc, sig, rows, points, next, bond)?)?;
    }
    Ok(steps)
}

// Those of one point, among the points that lead from the type to which it leads.
fn steps_from<R: Rows>(
    alloc: Global,
    sig: &Signature,
    rows: &R,
    points: &[Bond],
    next: &[u32],
    bond: &Bond,
) -> Result<Vec<u32>, NoMemory>
    requires tables { AreTables sig.now (R.tables rows.now) }
    requires over { AreBondsOver sig.now points.now }
    requires bond { IsBondOver sig.now bond.now }
    requires numbers { AreNumbers points.now (λ q. q.a ≡ bond.now.b) next.now }
    ensures { IfOk result (λ steps. AreNumbers points.now (IsStepAllowed sig.now (R.tables rows.now) bond.now) steps.items) }
{
    let mut steps = Vec::new(alloc);
    for number in next {
        if is_step(alloc, sig, rows, bond, &points[*number as usize])? {
            steps.push(*number)?;
        }
    }
    Ok(steps)
}
