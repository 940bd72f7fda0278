// Which stands the nodes of a pattern may have, and where these lie in a pattern before.
ghost use Rattle.std.specs.Prelude.{◌≡◌, ◌≢◌, ℕ, ◌+◌, ◌<◌, ◌≤◌, ◌++◌, Some, length, slice_get, IsTrue, IfOk, ◌↔◌};
ghost use Rattle.kasa_graph.specs.Lists.{Has};
ghost use Rattle.kasa_graph.specs.Pattern.{agent_at, types_of, IsPatternOver};
ghost use Rattle.kasa_pre.specs.declared.Stand.TheVariants.{Outside};
ghost use Rattle.kasa_pre.specs.Before.{FitsStand, AreStands, place_from, outside_types};
ghost use Rattle.kasa_pre.specs.Asked.{StandExists, StandsExist, IsPlaced, SameTests};

use crate::Stand;
use kasa_graph::{Pattern, Signature};
use kasa_num::{AgentType, NoMemory, NodeNo};
use kasa_rules::{Fate, Rule};
use std::alloc::Global;

// A node of a type may have the stand.
fn fits_stand(rule: &Rule, stand: &Stand, agent: AgentType) -> bool
    requires { StandExists rule.now stand.now }
    ensures { IsTrue result ↔ FitsStand rule.now stand.now agent }
{
    match stand {
        Stand::Left(n) => rule.fate(*n) == Fate::Kept && rule.left().agent(*n) == agent,
        Stand::Made(k) => rule.made_type(*k) == agent,
        Stand::Outside => true,
    }
}

// The left node or the created agent stands among others.
fn is_taken(stands: &[Stand], stand: &Stand) -> bool
    ensures { IsTrue result ↔ ((stand.now ≢ Outside) × Has stands.now stand.now) }
{
    *stand != Stand::Outside && stands.contains(stand)
}

// The stands fit the nodes, and no left node and no created agent stands twice.
pub(crate) fn are_stands(rule: &Rule, v: &Pattern, stands: &[Stand]) -> bool
    requires count { length stands.now ≡ length v.now }
    requires exist { StandsExist rule.now stands.now }
    ensures { IsTrue result ↔ AreStands rule.now v.now stands.now }
{
    for i in 0..v.nodes() {
        if is_taken(&stands[..i], &stands[i])
            || !fits_stand(rule, &stands[i], v.agent(NodeNo(i as u16)))
        {
            return false;
        }
    }
    true
}

// Appends a node for each stand outside, and gives the places of all nodes.
pub(crate) fn add_outside(
    alloc: Global,
    sig: &Signature,
    v: &Pattern,
    stands: &[Stand],
    g: &mut Pattern,
) -> Result<Vec<Option<NodeNo>>, NoMemory>
    requires known { IsPatternOver sig.now v.now }
    requires over { IsPatternOver sig.now g.old }
    requires count { length stands.now ≡ length v.now }
    requires few { length g.old + length (outside_types v.now stands.now) ≤ 1000 }
    ensures count { IfOk result (λ places. length places.items ≡ length stands.now) }
    ensures places { IfOk result (λ places. (i : ℕ) → i < length stands.now → slice_get places.items i ≡ Some (place_from (length g.old) stands.now i)) }
    ensures over { IfOk result (λ _. IsPatternOver sig.now g.new) }
    ensures types { IfOk result (λ _. types_of g.new ≡ types_of g.old ++ outside_types v.now stands.now) }
    ensures tests { IfOk result (λ _. SameTests g.new g.old) }
{
    let mut places = Vec::with_capacity(alloc, stands.len())?;
    for i in 0..v.nodes() {
        let place = add_place(sig, v, NodeNo(i as u16), stands[i], g)?;
        places.push(place)?;
    }
    Ok(places)
}

// The place of a node, for which a stand outside appends a node.
fn add_place(
    sig: &Signature,
    v: &Pattern,
    node: NodeNo,
    stand: Stand,
    g: &mut Pattern,
) -> Result<Option<NodeNo>, NoMemory>
    requires known { IsPatternOver sig.now v.now }
    requires exists { node < length v.now }
    requires room { stand ≡ Outside → length g.old < 1000 }
    ensures { IfOk result (λ place. (a : ℕ) → agent_at v.now node ≡ Some a → IsPlaced sig.now stand a g.old g.new place) }
{
    match stand {
        Stand::Left(n) => Ok(Some(n)),
        Stand::Made(_) => Ok(None),
        Stand::Outside => Ok(Some(g.add_node(sig, v.agent(node))?)),
    }
}
