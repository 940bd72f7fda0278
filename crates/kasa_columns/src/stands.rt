// Where the nodes of a root can stand: along the bonds, each stand tells that of the other end.
ghost use Rattle.std.specs.Prelude.{◌≡◌, ◌↔◌, ℕ, ◌<◌, ◌⊎◌, [], ◌∷◌, ◌++◌, List, length, Some, None, IsTrue, IfOk, slice_get, MatchOption};
ghost use Rattle.std.specs.List.{AllZip};
ghost use Rattle.kasa_graph.specs.Lists.{Has};
ghost use Rattle.kasa_graph.specs.Pattern.{link_test};
ghost use Rattle.kasa_families.specs.Family.{shape_of};
ghost use Rattle.kasa_rules.specs.Rule.{IsRuleOver};
ghost use Rattle.kasa_pre.specs.declared.Stand.{Stand};
ghost use Rattle.kasa_pre.specs.declared.Stand.TheVariants.{Left, Made, Outside};
ghost use Rattle.kasa_pre.specs.Before.{FitsStand, stand_of, link_written};
ghost use Rattle.kasa_pre.specs.Asked.{StandExists, StandsExist};
ghost use Rattle.kasa_columns.specs.Along.{WrittenLeads, TestLeads, StandLeads, LeadsAlong};
ghost use Rattle.kasa_columns.specs.Forward.{LeavesBonds};
ghost use Rattle.kasa_columns.specs.Settled.{FollowsBond, FollowsBonds};
ghost use Rattle.kasa_columns.specs.Stands.{AreFrom, IsLeftOf, IsMadeOf, IsLonger, LeavesEnd, LeavesBond};

use crate::written::{has_node_site, link_written};
use kasa_families::{Bond, Family, NodeSite};
use kasa_graph::{LinkTest, Signature};
use kasa_num::{AgentType, NoMemory, NodeNo};
use kasa_pre::Stand;
use kasa_rules::{End, Fate, Rule, Written};
use std::alloc::Global;
use std::marker::Model;

/// A stand for each node.
#[derive(Drop)]
pub(crate) struct Stands {
    items: Vec<Stand>,
}

impl Model for Stands {
    ghost use Rattle.std.specs.Prelude.{List};
    ghost use Rattle.kasa_pre.specs.declared.Stand.{Stand};

    ghost Value = { List Stand };

    ghost view = { λ s. s.items.items };
}

impl Stands {
    pub(crate) fn as_slice(&self) -> &[Stand]
        ensures { result.now ≡ self.now }
    {
        self.items.as_slice()
    }

    // With one stand more.
    fn with(&self, alloc: Global, stand: &Stand) -> Result<Stands, NoMemory>
        ensures { IfOk result (λ more. more ≡ self.now ++ stand.now ∷ []) }
    {
        let mut items = Vec::with_capacity(alloc, self.items.len() + 1)?;
        items.extend_from_slice(self.items.as_slice())?;
        items.push(*stand)?;
        Ok(Stands { items })
    }
}

/// All stands of the root's nodes that their types can have and that the bonds tell.
pub(crate) fn all_stands(
    alloc: Global,
    sig: &Signature,
    rule: &Rule,
    family: &Family,
) -> Result<Vec<Stands>, NoMemory>
    requires over { IsRuleOver sig.now rule.now }
    ensures fit { IfOk result (λ all. (stands : List Stand) → Has all.items stands → AllZip (FitsStand rule.now) stands (shape_of family.now).types) }
    ensures complete { IfOk result (λ all. (stands : List Stand) → AllZip (FitsStand rule.now) stands (shape_of family.now).types → FollowsBonds rule.now (shape_of family.now).bonds stands → Has all.items stands) }
{
    let mut all = Vec::new(alloc);
    all.push(Stands {
        items: Vec::new(alloc),
    })?;
    for n in 0..family.nodes() {
        match family.node_type(n) {
            Some(agent) => {
                let next = stands_of_type(alloc, rule, agent)?;
                all = with_node(alloc, sig, rule, family, next.as_slice(), all.as_slice())?;
            }
            None => unreachable!(),
        }
    }
    Ok(all)
}

/// The stands that a node of a type can have: outside, at a kept left node of the type, or as a created agent of it.
pub fn stands_of_type(alloc: Global, rule: &Rule, agent: AgentType) -> Result<Vec<Stand>, NoMemory>
    ensures { IfOk result (λ found. (stand : Stand) → Has found.items stand ↔ FitsStand rule.now stand agent) }
{
    let mut found = Vec::new(alloc);
    found.push(Stand::Outside)?;
    push_left(rule, agent, &mut found)?;
    push_made(rule, agent, &mut found)?;
    Ok(found)
}

// Appends the kept left nodes of the type.
fn push_left(rule: &Rule, agent: AgentType, found: &mut Vec<Stand>) -> Result<(), NoMemory>
    ensures { IfOk result (λ _. (stand : Stand) → Has found.new.items stand ↔ (Has found.old.items stand ⊎ ((n : ℕ) × IsLeftOf rule.now agent n stand))) }
{
    for n in 0..rule.left().nodes() {
        let node = NodeNo(n as u16);
        if is_kept(rule, node, agent) {
            found.push(Stand::Left(node))?;
        }
    }
    Ok(())
}

// Appends the created agents of the type.
fn push_made(rule: &Rule, agent: AgentType, found: &mut Vec<Stand>) -> Result<(), NoMemory>
    ensures { IfOk result (λ _. (stand : Stand) → Has found.new.items stand ↔ (Has found.old.items stand ⊎ ((k : ℕ) × IsMadeOf rule.now agent k stand))) }
{
    for k in 0..rule.made() {
        if is_of(rule, k as u16, agent) {
            found.push(Stand::Made(k as u16))?;
        }
    }
    Ok(())
}

// The created agent is of the type.
fn is_of(rule: &Rule, k: u16, agent: AgentType) -> bool
    requires { k < length rule.now.made }
    ensures { IsTrue result ↔ FitsStand rule.now (Made k) agent }
{
    rule.made_type(k) == agent
}

// The left node is kept, and of the type.
fn is_kept(rule: &Rule, node: NodeNo, agent: AgentType) -> bool
    requires { node < length rule.now.left }
    ensures { IsTrue result ↔ FitsStand rule.now (Left node) agent }
{
    rule.fate(node) == Fate::Kept && rule.left().agent(node) == agent
}

// Each of the first stands with each of the next node's, where the bonds tell so.
fn with_node(
    alloc: Global,
    sig: &Signature,
    rule: &Rule,
    family: &Family,
    next: &[Stand],
    firsts: &[Stands],
) -> Result<Vec<Stands>, NoMemory>
    requires over { IsRuleOver sig.now rule.now }
    requires next { (stand : Stand) → Has next.now stand → StandExists rule.now stand }
    requires firsts { (first : List Stand) → Has firsts.now first → StandsExist rule.now first }
    ensures { IfOk result (λ all. (more : List Stand) → Has all.items more ↔ AreFrom (IsLonger rule.now (shape_of family.now).bonds next.now) firsts.now more) }
{
    let mut all = Vec::new(alloc);
    for first in firsts {
        push_longer(alloc, sig, rule, family, next, first, &mut all)?;
    }
    Ok(all)
}

fn push_longer(
    alloc: Global,
    sig: &Signature,
    rule: &Rule,
    family: &Family,
    next: &[Stand],
    first: &Stands,
    all: &mut Vec<Stands>,
) -> Result<(), NoMemory>
    requires over { IsRuleOver sig.now rule.now }
    requires next { (stand : Stand) → Has next.now stand → StandExists rule.now stand }
    requires first { StandsExist rule.now first.now }
    ensures { IfOk result (λ _. (more : List Stand) → Has all.new.items more ↔ (Has all.old.items more ⊎ IsLonger rule.now (shape_of family.now).bonds next.now first.now more)) }
{
    for stand in next {
        let more = first.with(alloc, stand)?;
        if follow_bonds(sig, rule, family, more.as_slice()) {
            all.push(more)?;
        }
    }
    Ok(())
}

// As far as the nodes have stands, each tells those at the other ends of its bonds.
fn follow_bonds(sig: &Signature, rule: &Rule, family: &Family, stands: &[Stand]) -> bool
    requires over { IsRuleOver sig.now rule.now }
    requires exist { StandsExist rule.now stands.now }
    ensures { IsTrue result ↔ FollowsBonds rule.now (shape_of family.now).bonds stands.now }
{
    for k in 0..family.bonds() {
        if let Some(bond) = family.bond(k)
            && !follow_bond(sig, rule, stands, &bond)
        {
            return false;
        }
    }
    true
}

/// As far as the nodes of a bond have stands, each tells the other's.
pub fn follow_bond(sig: &Signature, rule: &Rule, stands: &[Stand], bond: &Bond) -> bool
    requires over { IsRuleOver sig.now rule.now }
    requires exist { StandsExist rule.now stands.now }
    ensures { IsTrue result ↔ FollowsBond rule.now stands.now bond.now }
{
    let (first, second) = (bond.first.node.0 as usize, bond.second.node.0 as usize);
    first >= stands.len() || second >= stands.len() || leads_both_ways(sig, rule, stands, bond)
}

fn leads_both_ways(sig: &Signature, rule: &Rule, stands: &[Stand], bond: &Bond) -> bool
    requires over { IsRuleOver sig.now rule.now }
    requires exist { StandsExist rule.now stands.now }
    requires first { bond.now.first.node < length stands.now }
    requires second { bond.now.second.node < length stands.now }
    ensures { IsTrue result ↔ LeadsAlong rule.now stands.now bond.now.first bond.now.second × LeadsAlong rule.now stands.now bond.now.second bond.now.first }
{
    leads_along(sig, rule, stands, bond.first, bond.second)
        && leads_along(sig, rule, stands, bond.second, bond.first)
}

// The stand of a node tells where the other node of its bond stands.
fn leads_along(
    sig: &Signature,
    rule: &Rule,
    stands: &[Stand],
    here: NodeSite,
    there: NodeSite,
) -> bool
    requires over { IsRuleOver sig.now rule.now }
    requires exist { StandsExist rule.now stands.now }
    requires within { here.node < length stands.now }
    ensures { IsTrue result ↔ LeadsAlong rule.now stands.now here there }
{
    let stand = stands[here.node.0 as usize];
    match link_written(sig, rule, &stand, here.site) {
        Some(written) => written_leads(stands, there, written),
        None => stand_leads(rule, stands, here, there, &stand),
    }
}

// A written bond leads to the node.
fn written_leads(stands: &[Stand], there: NodeSite, written: Written) -> bool
    ensures { IsTrue result ↔ WrittenLeads stands.now there written }
{
    match written {
        Written::Free => false,
        Written::To(e, site) => site == there.site && stands_at(stands, there.node, stand_of(e)),
    }
}

/// The stand of a node at the end of a written bond.
pub fn stand_of(e: End) -> Stand
    ensures { result ≡ stand_of e }
{
    match e {
        End::Left(n) => Stand::Left(n),
        End::Made(k) => Stand::Made(k),
    }
}

// The node has the stand.
fn stands_at(stands: &[Stand], node: NodeNo, stand: Stand) -> bool
    ensures { IsTrue result ↔ (slice_get stands.now node ≡ Some stand) }
{
    stands.get(node.0 as usize).copied() == Some(stand)
}

// The bond of a node, which the rule doesn't write, leads to the other one as far as a left node's test tells.
fn stand_leads(
    rule: &Rule,
    stands: &[Stand],
    here: NodeSite,
    there: NodeSite,
    stand: &Stand,
) -> bool
    requires { StandExists rule.now stand.now }
    ensures { IsTrue result ↔ StandLeads rule.now stands.now here there stand.now }
{
    match *stand {
        Stand::Left(n) => test_leads(stands, there, link_asked(rule, n, here)),
        _ => true,
    }
}

/// The link test of a left node at a site, Any where the site doesn't exist.
pub fn link_asked(rule: &Rule, node: NodeNo, here: NodeSite) -> LinkTest
    requires { node < length rule.now.left }
    ensures { result ≡ link_test rule.now.left node here.site }
{
    if has_node_site(rule.left(), node, here.site) {
        rule.left().link(node, here.site)
    } else {
        LinkTest::Any
    }
}

fn test_leads(stands: &[Stand], there: NodeSite, test: LinkTest) -> bool
    ensures { IsTrue result ↔ TestLeads stands.now there test }
{
    match test {
        LinkTest::To(m, site) => site == there.site
            && stands_at(stands, there.node, Stand::Left(m)),
        LinkTest::Free => false,
        LinkTest::Partner(_, site) => site == there.site,
        _ => true,
    }
}

/// The rule writes neither end of any bond of the root.
pub(crate) fn leaves_bonds(sig: &Signature, rule: &Rule, family: &Family, stands: &[Stand]) -> bool
    requires over { IsRuleOver sig.now rule.now }
    requires exist { StandsExist rule.now stands.now }
    ensures { IsTrue result ↔ LeavesBonds rule.now (shape_of family.now).bonds stands.now }
{
    for k in 0..family.bonds() {
        if let Some(bond) = family.bond(k)
            && !leaves_bond(sig, rule, stands, &bond)
        {
            return false;
        }
    }
    true
}

fn leaves_bond(sig: &Signature, rule: &Rule, stands: &[Stand], bond: &Bond) -> bool
    requires over { IsRuleOver sig.now rule.now }
    requires exist { StandsExist rule.now stands.now }
    ensures { IsTrue result ↔ LeavesBond rule.now stands.now bond.now }
{
    leaves_end(sig, rule, stands, bond.first) && leaves_end(sig, rule, stands, bond.second)
}

fn leaves_end(sig: &Signature, rule: &Rule, stands: &[Stand], e: NodeSite) -> bool
    requires over { IsRuleOver sig.now rule.now }
    requires exist { StandsExist rule.now stands.now }
    ensures { IsTrue result ↔ LeavesEnd rule.now stands.now e }
{
    let n = e.node.0 as usize;
    if n >= stands.len() {
        return false;
    }
    leaves_site(sig, rule, &stands[n], e)
}

fn leaves_site(sig: &Signature, rule: &Rule, stand: &Stand, e: NodeSite) -> bool
    requires over { IsRuleOver sig.now rule.now }
    requires exists { StandExists rule.now stand.now }
    ensures { IsTrue result ↔ (link_written rule.now stand.now e.site ≡ None) }
{
    link_written(sig, rule, stand, e.site).is_none()
}
