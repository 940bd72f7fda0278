// Implied tests, and the most general pattern that has a further test.
ghost use Rattle.std.specs.Prelude.{◌≡◌, ℕ, ◌<◌, ◌↔◌, ◌⊎◌, IsTrue, IfOk, MatchOption, length, Some};
ghost use Rattle.std.specs.Bool.{OnTrue, OnFalse};
ghost use Rattle.kasa_graph.specs.declared.refine.Test.TheVariants.{State, Link};
ghost use Rattle.kasa_graph.specs.declared.pattern.LinkTest.TheVariants.{To};
ghost use Rattle.kasa_graph.specs.Pattern.{agent_at, link_test, state_test, with_state, with_link, with_bond, HasNodeSite, IsNoBond, StateImplies, LinkImplies};
ghost use Rattle.kasa_graph.specs.Meet.{TestExists, IsMeet, HasNoMeet, with_test};

use crate::pattern::tests_at;
use crate::{LinkTest, Pattern, StateTest};
use kasa_num::{AgentType, NoMemory, NodeNo, SiteNo};
use std::alloc::Global;

/// A test at one site: of its state, or of its link.
#[derive(Clone, Copy, PartialEq, Eq, Debug)]
pub enum Test {
    State(StateTest),
    Link(LinkTest),
}

// A node exists and has a type.
fn has_type(g: &Pattern, node: NodeNo, agent: AgentType) -> bool
    ensures { IsTrue result ↔ (agent_at g.now node ≡ Some agent) }
{
    (node.0 as usize) < g.nodes() && g.agent(node) == agent
}

// One link test implies another, where the nodes of `To` are g's.
fn link_implies(g: &Pattern, a: &LinkTest, b: &LinkTest) -> bool
    ensures { IsTrue result ↔ LinkImplies g.now a.now b.now }
{
    match *b {
        LinkTest::Any => true,
        LinkTest::Free => *a == LinkTest::Free,
        LinkTest::Bound => match *a {
            LinkTest::Bound | LinkTest::Partner(_, _) | LinkTest::To(_, _) => true,
            LinkTest::Any | LinkTest::Free => false,
        },
        LinkTest::Partner(agent, site) => match *a {
            LinkTest::To(m, t) => has_type(g, m, agent) && t == site,
            _ => a == b,
        },
        LinkTest::To(_, _) => a == b,
    }
}

/// Whether one link test implies another, where the nodes of `To` are g's: equal tests imply each other, `To(m, t)`
/// implies `Partner(type of m, t)`, both imply `Bound`, and every test implies `Any`. It takes no memory.
pub fn implies(g: &Pattern, a: LinkTest, b: LinkTest) -> bool
    ensures { IsTrue result ↔ LinkImplies g.now a b }
{
    link_implies(g, &a, &b)
}

// One state test implies another.
fn state_implies(a: &StateTest, b: &StateTest) -> bool
    ensures { IsTrue result ↔ StateImplies a.now b.now }
{
    match b {
        StateTest::Any => true,
        StateTest::Is(_) => a == b,
    }
}

impl Pattern {
    // A further state test.
    fn refine_state(&mut self, node: NodeNo, site: SiteNo, test: StateTest) -> bool
        requires { HasNodeSite self.old node site }
        ensures found { OnTrue result (IsMeet self.old node site (State test) self.new) }
        ensures written { OnTrue result ((self.new ≡ self.old) ⊎ (self.new ≡ with_state self.old node site test)) }
        ensures unchanged { OnFalse result (self.new ≡ self.old) }
        ensures none { OnFalse result (HasNoMeet self.old node site (State test)) }
    {
        let old = tests_at(&self.nodes, node.0 as usize, site.0 as usize).state;
        if state_implies(&old, &test) {
            return true;
        }
        if !state_implies(&test, &old) {
            return false;
        }
        self.set_state(node, site, test);
        true
    }

    // A further bond, which agrees with the first site's test and is not there yet.
    fn refine_bond(&mut self, n: NodeNo, s: SiteNo, m: NodeNo, t: SiteNo) -> bool
        requires first { HasNodeSite self.old n s }
        requires second { HasNodeSite self.old m t }
        requires open { IsNoBond (link_test self.old n s) }
        requires stronger { LinkImplies self.old (To m t) (link_test self.old n s) }
        ensures found { OnTrue result (IsMeet self.old n s (Link (To m t)) self.new) }
        ensures written { OnTrue result (self.new ≡ with_bond self.old n s m t) }
        ensures unchanged { OnFalse result (self.new ≡ self.old) }
        ensures none { OnFalse result (HasNoMeet self.old n s (Link (To m t))) }
    {
        if n == m && s == t {
            return false;
        }
        let far = tests_at(&self.nodes, m.0 as usize, t.0 as usize).link;
        let back = LinkTest::To(n, s);
        if !link_implies(self, &back, &far) {
            return false;
        }
        self.join(n, s, m, t);
        true
    }

    // A further link test.
    fn refine_link(&mut self, node: NodeNo, site: SiteNo, test: LinkTest) -> bool
        requires site_exists { HasNodeSite self.old node site }
        requires test_exists { TestExists self.old (Link test) }
        ensures found { OnTrue result (IsMeet self.old node site (Link test) self.new) }
        ensures written { OnTrue result ((self.new ≡ self.old) ⊎ (self.new ≡ with_test self.old node site (Link test))) }
        ensures unchanged { OnFalse result (self.new ≡ self.old) }
        ensures none { OnFalse result (HasNoMeet self.old node site (Link test)) }
    {
        let old = tests_at(&self.nodes, node.0 as usize, site.0 as usize).link;
        if link_implies(self, &old, &test) {
            return true;
        }
        if !link_implies(self, &test, &old) {
            return false;
        }
        match test {
            LinkTest::To(m, t) => self.refine_bond(node, site, m, t),
            _ => {
                self.set_link(node, site, test);
                true
            }
        }
    }

    /// Gives the pattern a further test, where some pattern implies both: it becomes the most general one, and the
    /// answer is true. Otherwise it stays as it is, and the answer is false. It takes no memory.
    pub fn refine(&mut self, node: NodeNo, site: SiteNo, test: Test) -> bool
        requires site_exists { HasNodeSite self.old node site }
        requires test_exists { TestExists self.old test }
        ensures found { OnTrue result (IsMeet self.old node site test self.new) }
        ensures written { OnTrue result ((self.new ≡ self.old) ⊎ (self.new ≡ with_test self.old node site test)) }
        ensures unchanged { OnFalse result (self.new ≡ self.old) }
        ensures none { OnFalse result (HasNoMeet self.old node site test) }
    {
        match test {
            Test::State(test) => self.refine_state(node, site, test),
            Test::Link(test) => self.refine_link(node, site, test),
        }
    }
}

/// The most general pattern with g's nodes that implies g and a further test at a site, none where no pattern implies
/// both.
pub fn meet(
    alloc: Global,
    g: &Pattern,
    node: NodeNo,
    site: SiteNo,
    test: Test,
) -> Result<Option<Pattern>, NoMemory>
    requires site_exists { HasNodeSite g.now node site }
    requires test_exists { TestExists g.now test }
    ensures { IfOk result (λ found. MatchOption found (HasNoMeet g.now node site test) (IsMeet g.now node site test)) }
{
    let mut pattern = g.copy_in(alloc)?;
    if pattern.refine(node, site, test) {
        Ok(Some(pattern))
    } else {
        Ok(None)
    }
}
