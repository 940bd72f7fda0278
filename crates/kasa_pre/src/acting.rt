// Families on which a rule acts: those of a type that it names, and all where it may touch the partner of any agent.
ghost use Rattle.std.specs.Prelude.{◌≡◌, ◌↔◌, ℕ, ◌<◌, true, Some, length, slice_get, IsTrue};
ghost use Rattle.std.specs.Bool.{OnFalse};
ghost use Rattle.kasa_graph.specs.Pattern.{agent_at};
ghost use Rattle.kasa_rules.specs.Rule.{made_type, touched};
ghost use Rattle.kasa_families.specs.Family.{family_types};
ghost use Rattle.kasa_pre.specs.Acts.{LeavesOpen, Names, NamesTypeOf, TouchesOpenAt, TouchesOpen, ActsOn, YieldsNothingNew};

use kasa_families::Family;
use kasa_graph::LinkTest;
use kasa_num::{AgentType, NodeNo};
use kasa_rules::{Rule, touched_at};

/// Whether a rule acts on a family: a left or created node has a type of the family's patterns, or a site is touched
/// whose left test leaves open which partner it has. Where the rule doesn't, whatever it yields of the family stands in
/// the tables already. It takes no memory.
pub fn acts(rule: &Rule, family: &Family) -> bool
    ensures acts { IsTrue result ↔ ActsOn rule.now family.now }
    ensures nothing_new { OnFalse result (YieldsNothingNew rule.now family.now) }
{
    names_type_of(rule, family) || acts_on_all(rule)
}

/// Whether a rule acts on all families: it touches a site whose left test leaves open which partner it has. It takes no
/// memory.
pub fn acts_on_all(rule: &Rule) -> bool
    ensures { IsTrue result ↔ TouchesOpen rule.now }
{
    for n in 0..rule.left().nodes() {
        if touches_open_at(rule, NodeNo(n as u16)) {
            return true;
        }
    }
    false
}

// The same at one left node.
fn touches_open_at(rule: &Rule, node: NodeNo) -> bool
    requires { node < length rule.now.left }
    ensures { IsTrue result ↔ TouchesOpenAt rule.now node }
{
    let sites = rule.left().site_tests(node);
    for s in 0..sites.len() {
        if is_touched_open(rule, node, s, sites[s].link) {
            return true;
        }
    }
    false
}

// A site with this left test is touched, and the test leaves open which partner it has.
fn is_touched_open(rule: &Rule, node: NodeNo, site: usize, link: LinkTest) -> bool
    ensures { IsTrue result ↔ ((touched rule.now node site ≡ true) × LeavesOpen link) }
{
    touched_at(rule, node, site) && leaves_open(link)
}

// The test doesn't rule out a partner that the pattern doesn't name.
fn leaves_open(link: LinkTest) -> bool
    ensures { IsTrue result ↔ LeavesOpen link }
{
    matches!(
        link,
        LinkTest::Any | LinkTest::Bound | LinkTest::Partner(_, _)
    )
}

/// Whether a left or created node of a rule has a type of the family's patterns. It takes no memory.
pub fn names_type_of(rule: &Rule, family: &Family) -> bool
    ensures { IsTrue result ↔ NamesTypeOf rule.now family.now }
{
    for n in 0..family.nodes() {
        if names_node(rule, family, n) {
            return true;
        }
    }
    false
}

fn names_node(rule: &Rule, family: &Family, n: usize) -> bool
    ensures { IsTrue result ↔ ((a : ℕ) × (slice_get (family_types family.now) n ≡ Some a) × Names rule.now a) }
{
    match family.node_type(n) {
        None => false,
        Some(agent) => names(rule, agent),
    }
}

// A left or created node of the rule has the type.
fn names(rule: &Rule, agent: AgentType) -> bool
    ensures { IsTrue result ↔ Names rule.now agent }
{
    is_left_type(rule, agent) || is_made_type(rule, agent)
}

fn is_left_type(rule: &Rule, agent: AgentType) -> bool
    ensures { IsTrue result ↔ ((n : ℕ) × (agent_at rule.now.left n ≡ Some agent)) }
{
    for n in 0..rule.left().nodes() {
        if rule.left().agent(NodeNo(n as u16)) == agent {
            return true;
        }
    }
    false
}

fn is_made_type(rule: &Rule, agent: AgentType) -> bool
    ensures { IsTrue result ↔ ((k : ℕ) × (made_type rule.now k ≡ Some agent)) }
{
    for k in 0..rule.made() {
        if rule.made_type(k as u16) == agent {
            return true;
        }
    }
    false
}
