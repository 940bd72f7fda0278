// Where the partner of an agent can stand: the bond tells, and where it doesn't, at a left node that tells so, or outside.
ghost use Rattle.std.specs.Prelude.{◌≡◌, ◌↔◌, ℕ, ◌<◌, [], ◌∷◌, length, IsTrue, IfOk};
ghost use Rattle.kasa_graph.specs.Lists.{Has};
ghost use Rattle.kasa_families.specs.Shape.{at};
ghost use Rattle.kasa_rules.specs.Rule.{IsRuleOver};
ghost use Rattle.kasa_pre.specs.declared.Stand.{Stand};
ghost use Rattle.kasa_pre.specs.declared.Stand.TheVariants.{Left, Made};
ghost use Rattle.kasa_pre.specs.Asked.{StandExists};
ghost use Rattle.kasa_pre.specs.Before.{FitsStand, link_written};
ghost use Rattle.kasa_columns.specs.Along.{LeadsAlong};
ghost use Rattle.kasa_parallel.specs.Partners.{IsPartner, WritesPartner, test_of};

use kasa_columns::{follow_bond, link_asked, link_written, stand_of, stands_of_type};
use kasa_families::{Bond, NodeSite};
use kasa_graph::{LinkTest, Signature};
use kasa_num::{AgentType, NoMemory, NodeNo, SiteNo};
use kasa_pre::Stand;
use kasa_rules::{Fate, Rule, Written};
use std::alloc::Global;

/// The stands of the partner of a type, at the other end of a bond from a site of a node with a stand: one at most where the
/// rule writes the bond, or where the left node's test names the partner.
pub(crate) fn partners(
    alloc: Global,
    sig: &Signature,
    rule: &Rule,
    one: &Stand,
    site: SiteNo,
    agent: AgentType,
    at: SiteNo,
) -> Result<Vec<Stand>, NoMemory>
    requires over { IsRuleOver sig.now rule.now }
    requires exists { StandExists rule.now one.now }
    ensures { IfOk result (λ found. (other : Stand) → Has found.items other ↔
        IsPartner rule.now one.now site agent at other) }
{
    let told = told(alloc, sig, rule, one, site, agent)?;
    let mut found = Vec::with_capacity(alloc, told.len())?;
    for other in &told {
        if is_partner(sig, rule, one, site, agent, at, other) {
            found.push(*other)?;
        }
    }
    Ok(found)
}

// The stands to which the site of a node with a stand can lead, where a node of the type has them: that which the rule writes
// or the left node's test names, and else all.
fn told(
    alloc: Global,
    sig: &Signature,
    rule: &Rule,
    one: &Stand,
    site: SiteNo,
    agent: AgentType,
) -> Result<Vec<Stand>, NoMemory>
    requires over { IsRuleOver sig.now rule.now }
    requires exists { StandExists rule.now one.now }
    ensures { IfOk result (λ told. (other : Stand) (y : ℕ) → FitsStand rule.now other agent →
        LeadsAlong rule.now (one.now ∷ other ∷ []) (at 0 site) (at 1 y) → Has told.items other) }
{
    match link_written(sig, rule, one, site) {
        Some(Written::To(e, _)) => just(alloc, stand_of(e)),
        Some(Written::Free) => Ok(Vec::new(alloc)),
        None => match named(rule, one, site) {
            LinkTest::To(m, _) => just(alloc, Stand::Left(m)),
            LinkTest::Free => Ok(Vec::new(alloc)),
            _ => stands_of_type(alloc, rule, agent),
        },
    }
}

// The link test of a left node, Any where the stand is none.
fn named(rule: &Rule, one: &Stand, site: SiteNo) -> LinkTest
    requires { StandExists rule.now one.now }
    ensures { result ≡ test_of rule.now one.now site }
{
    match *one {
        Stand::Left(n) => link_asked(
            rule,
            n,
            NodeSite {
                node: NodeNo(0),
                site,
            },
        ),
        _ => LinkTest::Any,
    }
}

fn just(alloc: Global, stand: Stand) -> Result<Vec<Stand>, NoMemory>
    ensures { IfOk result (λ one. one.items ≡ stand ∷ []) }
{
    let mut one = Vec::with_capacity(alloc, 1)?;
    one.push(stand)?;
    Ok(one)
}

/// A node of the type with the other stand can be the partner, and the bond tells so at both ends.
pub(crate) fn is_partner(
    sig: &Signature,
    rule: &Rule,
    one: &Stand,
    site: SiteNo,
    agent: AgentType,
    at: SiteNo,
    other: &Stand,
) -> bool
    requires over { IsRuleOver sig.now rule.now }
    requires exists { StandExists rule.now one.now }
    ensures { IsTrue result ↔ IsPartner rule.now one.now site agent at other.now }
{
    let bond = Bond {
        first: NodeSite {
            node: NodeNo(0),
            site,
        },
        second: NodeSite {
            node: NodeNo(1),
            site: at,
        },
    };
    fits(rule, other, agent) && follow_bond(sig, rule, &[*one, *other], &bond)
}

// A node of the type may have the stand.
fn fits(rule: &Rule, stand: &Stand, agent: AgentType) -> bool
    ensures { IsTrue result ↔ FitsStand rule.now stand.now agent }
{
    match *stand {
        Stand::Left(n) => fits_left(rule, n, agent),
        Stand::Made(k) => fits_made(rule, k, agent),
        Stand::Outside => true,
    }
}

fn fits_left(rule: &Rule, node: NodeNo, agent: AgentType) -> bool
    ensures { IsTrue result ↔ FitsStand rule.now (Left node) agent }
{
    if node.0 as usize >= rule.left().nodes() {
        return false;
    }
    is_kept(rule, node, agent)
}

fn is_kept(rule: &Rule, node: NodeNo, agent: AgentType) -> bool
    requires { node < length rule.now.left }
    ensures { IsTrue result ↔ FitsStand rule.now (Left node) agent }
{
    rule.fate(node) == Fate::Kept && rule.left().agent(node) == agent
}

fn fits_made(rule: &Rule, k: u16, agent: AgentType) -> bool
    ensures { IsTrue result ↔ FitsStand rule.now (Made k) agent }
{
    if k as usize >= rule.made() {
        return false;
    }
    rule.made_type(k) == agent
}

/// The rule writes one of two bonds of a node with the stand.
pub(crate) fn writes_partner(
    sig: &Signature,
    rule: &Rule,
    stand: &Stand,
    first: SiteNo,
    second: SiteNo,
) -> bool
    requires over { IsRuleOver sig.now rule.now }
    requires exists { StandExists rule.now stand.now }
    ensures { IsTrue result ↔ WritesPartner rule.now first second stand.now }
{
    link_written(sig, rule, stand, first).is_some()
        || link_written(sig, rule, stand, second).is_some()
}
