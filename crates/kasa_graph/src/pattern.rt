// Patterns: nodes with tests at their sites.
ghost use Rattle.std.specs.Prelude.{◌≡◌, ◌≢◌, ℕ, ◌+◌, ◌<◌, ◌≤◌, [], ◌∷◌, ◌++◌, length, map, Some, IfOk, OnErr, slice_get, slice_set};
ghost use Rattle.kasa_graph.specs.Pattern.{agent_at, site_at, with_site, state_test, link_test, blank_site, blank_node, with_state, with_link, with_bond, HasNodeSite, IsNoBond, IsPattern};
ghost use Rattle.kasa_graph.specs.Signature.{state_counts};

use crate::Signature;
use kasa_num::limits::MAX_NODES;
use kasa_num::{AgentType, NoMemory, NodeNo, SiteNo, StateNo};
use smallvec::SmallVec;
use std::alloc::Global;
use std::marker::Model;

/// What a pattern asks of the state of a site.
#[derive(Clone, Copy, Default, PartialEq, Eq, Debug)]
pub enum StateTest {
    #[default]
    Any,
    Is(StateNo),
}

/// What a pattern asks of the link of a site.
#[derive(Clone, Copy, Default, PartialEq, Eq, Debug)]
pub enum LinkTest {
    #[default]
    Any,
    Free,
    Bound,
    Partner(AgentType, SiteNo),
    To(NodeNo, SiteNo),
}

/// The tests at one site, and how many states the site has.
#[derive(Clone, Copy, Default, PartialEq, Eq, Debug)]
pub struct SiteTests {
    pub states: u8,
    pub state: StateTest,
    pub link: LinkTest,
}

/// A list of sites with their tests. Up to eight stand in the value itself, so that copies of most nodes take no memory.
#[derive(Drop)]
pub struct NodeSites {
    items: SmallVec<SiteTests, 8>,
}

impl Model for NodeSites {
    ghost use Rattle.std.specs.Prelude.{List};
    ghost use Rattle.kasa_graph.specs.declared.pattern.SiteTests.{SiteTests};

    ghost Value = { List SiteTests };

    ghost view = { λ a. a.items.items };
}

impl PartialEq for NodeSites {
    ghost use Rattle.std.specs.Cmp.Lexicographic.{pointwise, lists_per};
    ghost use Rattle.kasa_graph.specs.contracts.pattern.SiteTestsPartialEq.TheImpl.Laws.{laws-law as tests};

    ghost eq = { pointwise ⟦<SiteTests as PartialEq>⟧.eq };

    ghost laws = { lists_per tests };

    fn eq(&self, other: &NodeSites) -> bool {
        self.items == other.items
    }
}

impl Eq for NodeSites {
    ghost use Rattle.std.specs.Cmp.Lexicographic.{lists_equiv};
    ghost use Rattle.kasa_graph.specs.contracts.pattern.SiteTestsEq.TheImpl.Laws.{laws-law as tests};

    ghost laws = { lists_equiv tests };
}

/// A node of a pattern.
#[derive(Drop, PartialEq, Eq)]
pub struct Node {
    pub agent: AgentType,
    pub sites: NodeSites,
}

/// A pattern of at most 1,000 nodes, whose links are mutual and never lead from a site to itself.
#[derive(Drop)]
pub struct Pattern {
    alloc: Global,
    pub(crate) nodes: Vec<Node>,
}

impl Model for Pattern {
    ghost use Rattle.std.specs.Prelude.{List, ◌≤◌, length};
    ghost use Rattle.kasa_graph.specs.declared.pattern.Node.{Node};

    ghost Value = { List Node };

    ghost use Rattle.kasa_num.specs.declared.limits.TheConstants.{MAX_NODES};
    ghost use Rattle.kasa_graph.specs.Pattern.{IsPattern};

    ghost view = { λ p. p.nodes.items };

    ghost invariant = { λ p. IsPattern p.nodes.items × (length p.nodes.items ≤ MAX_NODES) };
}

impl PartialEq for Pattern {
    ghost use Rattle.std.specs.Cmp.Lexicographic.{pointwise, lists_per};
    ghost use Rattle.kasa_graph.specs.contracts.pattern.NodePartialEq.TheImpl.Laws.{laws-law as nodes};

    ghost eq = { pointwise ⟦<Node as PartialEq>⟧.eq };

    ghost laws = { lists_per nodes };

    fn eq(&self, other: &Pattern) -> bool {
        self.nodes == other.nodes
    }
}

impl Eq for Pattern {
    ghost use Rattle.std.specs.Cmp.Lexicographic.{lists_equiv};
    ghost use Rattle.kasa_graph.specs.contracts.pattern.NodeEq.TheImpl.Laws.{laws-law as nodes};

    ghost laws = { lists_equiv nodes };
}

impl NodeSites {
    // The sites of a type, without tests.
    fn blank(alloc: Global, sig: &Signature, agent: AgentType) -> Result<NodeSites, NoMemory>
        ensures { IfOk result (λ sites. sites ≡ map blank_site (state_counts sig.now agent)) }
    {
        let mut items = SmallVec::new(alloc);
        for site in 0..sig.sites(agent) {
            items.push(SiteTests {
                states: sig.states(agent, SiteNo(site as u8)) as u8,
                state: StateTest::Any,
                link: LinkTest::Any,
            })?;
        }
        Ok(NodeSites { items })
    }

    fn get(&self, site: usize) -> SiteTests
        requires { site < length self.now }
        ensures { slice_get self.now site ≡ Some result }
    {
        self.items[site]
    }

    // The same sites with the same tests.
    fn copy(&self, alloc: Global) -> Result<NodeSites, NoMemory>
        ensures { IfOk result (λ sites. sites ≡ self.now) }
    {
        Ok(NodeSites {
            items: SmallVec::from_slice(alloc, self.items.as_slice())?,
        })
    }

    fn as_slice(&self) -> &[SiteTests]
        ensures { result.now ≡ self.now }
    {
        self.items.as_slice()
    }

    fn set(&mut self, site: usize, tests: SiteTests)
        requires { site < length self.old }
        ensures { self.new ≡ slice_set self.old site tests }
    {
        self.items[site] = tests;
    }
}

impl Node {
    // An equal node.
    fn copy(&self, alloc: Global) -> Result<Node, NoMemory>
        ensures { IfOk result (λ node. node ≡ self.now) }
    {
        Ok(Node {
            agent: self.agent,
            sites: self.sites.copy(alloc)?,
        })
    }
}

// Equal nodes.
fn copy_nodes(alloc: Global, nodes: &[Node]) -> Result<Vec<Node>, NoMemory>
    ensures { IfOk result (λ copies. copies.items ≡ nodes.now) }
{
    let mut copies = Vec::with_capacity(alloc, nodes.len())?;
    for node in nodes {
        copies.push(node.copy(alloc)?)?;
    }
    Ok(copies)
}

// The tests at a site.
pub(crate) fn tests_at(nodes: &[Node], n: usize, s: usize) -> SiteTests
    requires { HasNodeSite nodes.now n s }
    ensures { site_at nodes.now n s ≡ Some result }
{
    nodes[n].sites.get(s)
}

// Other tests at a site.
fn put_tests(nodes: &mut [Node], n: usize, s: usize, tests: SiteTests)
    requires { HasNodeSite nodes.old n s }
    ensures { nodes.new ≡ with_site nodes.old n s (λ _. tests) }
{
    let node = &mut nodes[n];
    node.sites.set(s, tests);
}

// Another link test at a site.
fn put_link(nodes: &mut [Node], n: usize, s: usize, link: LinkTest)
    requires { HasNodeSite nodes.old n s }
    ensures { nodes.new ≡ with_link nodes.old n s link }
{
    let tests = tests_at(nodes, n, s);
    put_tests(nodes, n, s, SiteTests { link, ..tests });
}

// Another state test at a site.
fn put_state(nodes: &mut [Node], n: usize, s: usize, state: StateTest)
    requires { HasNodeSite nodes.old n s }
    ensures { nodes.new ≡ with_state nodes.old n s state }
{
    let tests = tests_at(nodes, n, s);
    put_tests(nodes, n, s, SiteTests { state, ..tests });
}

// A bond between two sites.
fn put_bond(nodes: &mut [Node], n: NodeNo, s: SiteNo, m: NodeNo, t: SiteNo)
    requires first { HasNodeSite nodes.old n s }
    requires second { HasNodeSite nodes.old m t }
    ensures { nodes.new ≡ with_bond nodes.old n s m t }
{
    put_link(nodes, n.0 as usize, s.0 as usize, LinkTest::To(m, t));
    put_link(nodes, m.0 as usize, t.0 as usize, LinkTest::To(n, s));
}

impl Pattern {
    /// The pattern without nodes.
    pub fn new(alloc: Global) -> Pattern
        ensures { result ≡ [] }
    {
        Pattern {
            alloc,
            nodes: Vec::new(alloc),
        }
    }

    /// An equal pattern that keeps another allocator.
    pub fn copy_in(&self, alloc: Global) -> Result<Pattern, NoMemory>
        ensures { IfOk result (λ pattern. pattern ≡ self.now) }
    {
        Ok(Pattern {
            alloc,
            nodes: copy_nodes(alloc, &self.nodes)?,
        })
    }

    /// An equal pattern.
    pub fn copy(&self) -> Result<Pattern, NoMemory>
        ensures { IfOk result (λ pattern. pattern ≡ self.now) }
    {
        self.copy_in(self.alloc)
    }

    /// How many nodes there are, at most 1,000.
    pub fn nodes(&self) -> usize
        ensures count { result ≡ length self.now }
        ensures few { result ≤ MAX_NODES }
    {
        self.nodes.len()
    }

    /// The type of a node.
    pub fn agent(&self, node: NodeNo) -> AgentType
        requires { node < length self.now }
        ensures { agent_at self.now node ≡ Some result }
    {
        self.agent_of(node.0 as usize)
    }

    // The type of a node.
    pub(crate) fn agent_of(&self, node: usize) -> AgentType
        requires { node < length self.now }
        ensures { agent_at self.now node ≡ Some result }
    {
        self.nodes[node].agent
    }

    // The tests at the sites of a node.
    pub(crate) fn tests(&self, node: usize) -> &[SiteTests]
        requires { node < length self.now }
        ensures { (s : ℕ) → site_at self.now node s ≡ slice_get result.now s }
    {
        self.nodes[node].sites.as_slice()
    }

    /// The tests at the sites of a node, in the order of the sites. It takes no memory.
    pub fn site_tests(&self, node: NodeNo) -> &[SiteTests]
        requires { node < length self.now }
        ensures tests { (s : ℕ) → site_at self.now node s ≡ slice_get result.now s }
        ensures linked { IsPattern self.now }
    {
        let _ = &self.nodes;
        self.tests(node.0 as usize)
    }

    /// The state test at a site.
    pub fn state(&self, node: NodeNo, site: SiteNo) -> StateTest
        requires { HasNodeSite self.now node site }
        ensures { result ≡ state_test self.now node site }
    {
        tests_at(&self.nodes, node.0 as usize, site.0 as usize).state
    }

    /// The link test at a site.
    pub fn link(&self, node: NodeNo, site: SiteNo) -> LinkTest
        requires { HasNodeSite self.now node site }
        ensures { result ≡ link_test self.now node site }
    {
        tests_at(&self.nodes, node.0 as usize, site.0 as usize).link
    }

    /// Appends a node of a type, without tests.
    pub fn add_node(&mut self, sig: &Signature, agent: AgentType) -> Result<NodeNo, NoMemory>
        requires known { agent < length sig.now }
        requires room { length self.old < MAX_NODES }
        ensures ok { IfOk result (λ n. (n ≡ length self.old) × (self.new ≡ self.old ++ blank_node sig.now agent ∷ [])) }
        ensures err { OnErr result (self.new ≡ self.old) }
    {
        let n = self.nodes.len() as u16;
        let sites = NodeSites::blank(self.alloc, sig, agent)?;
        self.nodes.push(Node { agent, sites })?;
        Ok(NodeNo(n))
    }

    /// Another state test at a site.
    pub fn set_state(&mut self, node: NodeNo, site: SiteNo, test: StateTest)
        requires { HasNodeSite self.old node site }
        ensures { self.new ≡ with_state self.old node site test }
    {
        put_state(&mut self.nodes, node.0 as usize, site.0 as usize, test);
    }

    /// Another link test at a site, where neither is a bond to a node.
    pub fn set_link(&mut self, node: NodeNo, site: SiteNo, test: LinkTest)
        requires exists { HasNodeSite self.old node site }
        requires old { IsNoBond (link_test self.old node site) }
        requires new { IsNoBond test }
        ensures { self.new ≡ with_link self.old node site test }
    {
        put_link(&mut self.nodes, node.0 as usize, site.0 as usize, test);
    }

    /// A bond between two different sites that have none to a node.
    pub fn join(&mut self, n: NodeNo, s: SiteNo, m: NodeNo, t: SiteNo)
        requires first { HasNodeSite self.old n s }
        requires second { HasNodeSite self.old m t }
        requires differ { n ≡ m → s ≢ t }
        requires first_open { IsNoBond (link_test self.old n s) }
        requires second_open { IsNoBond (link_test self.old m t) }
        ensures { self.new ≡ with_bond self.old n s m t }
    {
        put_bond(&mut self.nodes, n, s, m, t);
    }
}
