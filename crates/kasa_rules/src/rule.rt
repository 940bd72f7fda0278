// Rules: what they test, delete, write and create.
ghost use Rattle.std.specs.Prelude.{◌≡◌, ◌<◌, ◌≤◌, length, Some, IsSome, IfOk, is_some, map, replicate, slice_get, option_map, option_and_then};
ghost use Rattle.kasa_lists.specs.Lists.{update};
ghost use Rattle.kasa_graph.specs.Signature.{state_counts};
ghost use Rattle.kasa_graph.specs.Pattern.{HasNodeSite};
ghost use Rattle.kasa_graph.specs.Mixture.{first_state};
ghost use Rattle.kasa_rules.specs.Draft.{no_action, new_site};
ghost use Rattle.kasa_rules.specs.Rule.{fate_at, written_state, written_link, made_type, made_site, made_state, made_link, touches, touched};

use kasa_graph::{Pattern, Signature};
use kasa_num::limits::MAX_SIDE_AGENTS;
use kasa_num::{AgentType, Name, NoMemory, NodeNo, SiteNo, StateNo};
use std::alloc::Global;
use std::marker;

/// What becomes of a left node.
#[derive(Clone, Copy, PartialEq, Eq, Debug)]
pub enum Fate {
    Deleted,
    Kept,
}

/// One end of a written bond: a left node, or a created one.
#[derive(Clone, Copy, PartialEq, Eq, Debug)]
pub enum End {
    Left(NodeNo),
    Made(u16),
}

/// A link that a rule writes.
#[derive(Clone, Copy, PartialEq, Eq, Debug)]
pub enum Written {
    Free,
    To(End, SiteNo),
}

/// What is written at a site of a left node.
#[derive(Clone, Copy, PartialEq, Eq, Debug)]
pub struct SiteAction {
    pub state: Option<StateNo>,
    pub link: Option<Written>,
}

/// What is written at the sites of a left node.
#[derive(Drop)]
pub struct SiteActions {
    items: Vec<SiteAction>,
}

impl marker::Model for SiteActions {
    ghost use Rattle.std.specs.Prelude.{List};
    ghost use Rattle.kasa_rules.specs.declared.rule.SiteAction.{SiteAction};

    ghost Value = { List SiteAction };

    ghost view = { λ a. a.items.items };
}

impl PartialEq for SiteActions {
    ghost use Rattle.std.specs.Cmp.Lexicographic.{pointwise, lists_per};
    ghost use Rattle.kasa_rules.specs.contracts.rule.SiteActionPartialEq.TheImpl.Laws.{laws-law as actions};

    ghost eq = { pointwise ⟦<SiteAction as PartialEq>⟧.eq };

    ghost laws = { lists_per actions };

    fn eq(&self, other: &SiteActions) -> bool {
        self.items == other.items
    }
}

impl Eq for SiteActions {
    ghost use Rattle.std.specs.Cmp.Lexicographic.{lists_equiv};
    ghost use Rattle.kasa_rules.specs.contracts.rule.SiteActionEq.TheImpl.Laws.{laws-law as actions};

    ghost laws = { lists_equiv actions };
}

impl SiteActions {
    // Nothing is written at so many sites.
    pub(crate) fn none(alloc: Global, count: usize) -> Result<SiteActions, NoMemory>
        ensures { IfOk result (λ sites. sites ≡ replicate count no_action) }
    {
        let mut items = Vec::new(alloc);
        for _ in 0..count {
            items.push(SiteAction {
                state: None,
                link: None,
            })?;
        }
        Ok(SiteActions { items })
    }

    pub(crate) fn len(&self) -> usize
        ensures { result ≡ length self.now }
    {
        self.items.len()
    }

    // Whether a link is written at a site.
    pub(crate) fn has_link(&self, site: usize) -> bool
        ensures { result ≡ is_some (option_and_then (λ x. x.link) (slice_get self.now site)) }
    {
        match self.items.get(site) {
            None => false,
            Some(action) => action.link.is_some(),
        }
    }

    pub(crate) fn set_state(&mut self, site: usize, state: StateNo)
        requires { site < length self.old }
        ensures { self.new ≡ update self.old site (λ x. record x { state = Some state }) }
    {
        self.items[site].state = Some(state);
    }

    pub(crate) fn set_link(&mut self, site: usize, link: Written)
        requires { site < length self.old }
        ensures { self.new ≡ update self.old site (λ x. record x { link = Some link }) }
    {
        self.items[site].link = Some(link);
    }

    fn get(&self, site: usize) -> Option<SiteAction>
        ensures { result ≡ slice_get self.now site }
    {
        self.items.get(site).copied()
    }
}

/// What a rule does to a left node.
#[derive(Drop, PartialEq, Eq)]
pub struct NodeAction {
    pub fate: Fate,
    pub sites: SiteActions,
}

/// A site of a created agent.
#[derive(Clone, Copy, PartialEq, Eq, Debug)]
pub struct MadeSite {
    pub states: u8,
    pub state: Option<StateNo>,
    pub link: Written,
}

/// The sites of a created agent.
#[derive(Drop)]
pub struct MadeSites {
    items: Vec<MadeSite>,
}

impl marker::Model for MadeSites {
    ghost use Rattle.std.specs.Prelude.{List};
    ghost use Rattle.kasa_rules.specs.declared.rule.MadeSite.{MadeSite};

    ghost Value = { List MadeSite };

    ghost view = { λ a. a.items.items };
}

impl PartialEq for MadeSites {
    ghost use Rattle.std.specs.Cmp.Lexicographic.{pointwise, lists_per};
    ghost use Rattle.kasa_rules.specs.contracts.rule.MadeSitePartialEq.TheImpl.Laws.{laws-law as sites};

    ghost eq = { pointwise ⟦<MadeSite as PartialEq>⟧.eq };

    ghost laws = { lists_per sites };

    fn eq(&self, other: &MadeSites) -> bool {
        self.items == other.items
    }
}

impl Eq for MadeSites {
    ghost use Rattle.std.specs.Cmp.Lexicographic.{lists_equiv};
    ghost use Rattle.kasa_rules.specs.contracts.rule.MadeSiteEq.TheImpl.Laws.{laws-law as sites};

    ghost laws = { lists_equiv sites };
}

// The first of so many states.
fn first_of(states: u8) -> Option<StateNo>
    ensures { result ≡ first_state states }
{
    if states == 0 { None } else { Some(StateNo(0)) }
}

impl MadeSites {
    // The sites of a type, free, each in the first of its states.
    pub(crate) fn first(
        alloc: Global,
        sig: &Signature,
        agent: AgentType,
    ) -> Result<MadeSites, NoMemory>
        ensures { IfOk result (λ sites. sites ≡ map new_site (state_counts sig.now agent)) }
    {
        let mut items = Vec::new(alloc);
        for site in 0..sig.sites(agent) {
            let states = sig.states(agent, SiteNo(site as u8)) as u8;
            items.push(MadeSite {
                states,
                state: first_of(states),
                link: Written::Free,
            })?;
        }
        Ok(MadeSites { items })
    }

    pub(crate) fn set_state(&mut self, site: usize, state: StateNo)
        requires { site < length self.old }
        ensures { self.new ≡ update self.old site (λ x. record x { state = Some state }) }
    {
        self.items[site].state = Some(state);
    }

    pub(crate) fn set_link(&mut self, site: usize, link: Written)
        requires { site < length self.old }
        ensures { self.new ≡ update self.old site (λ x. record x { link = link }) }
    {
        self.items[site].link = link;
    }

    fn get(&self, site: usize) -> MadeSite
        requires { site < length self.now }
        ensures { slice_get self.now site ≡ Some result }
    {
        self.items[site]
    }
}

/// A created agent.
#[derive(Drop, PartialEq, Eq)]
pub struct MadeAgent {
    pub agent: AgentType,
    pub sites: MadeSites,
}

/// A rule: a left pattern, what becomes of its nodes, and the agents that it creates.
#[derive(Drop)]
pub struct Rule {
    pub(crate) name: Name,
    pub(crate) left: Pattern,
    pub(crate) actions: Vec<NodeAction>,
    pub(crate) made: Vec<MadeAgent>,
}

impl marker::Model for Rule {
    ghost use Rattle.kasa_rules.specs.Rule.{RuleParts, IsRule, HasFewAgents};

    ghost Value = { RuleParts };

    ghost view = { λ r. record { name = r.name; left = r.left; actions = r.actions.items; made = r.made.items } };

    ghost invariant = { λ r. let rule : RuleParts = record { name = r.name; left = r.left; actions = r.actions.items; made = r.made.items } in IsRule rule × HasFewAgents rule };
}

impl PartialEq for Rule {
    ghost use Rattle.std.specs.Prelude.{nat_eq, ◌&&◌};
    ghost use Rattle.std.specs.Cmp.{and_per, on_per, partial_equiv_from_equiv, nat_eq_equiv};
    ghost use Rattle.std.specs.Cmp.Lexicographic.{pointwise, lists_per, lists_equiv};
    ghost use Rattle.kasa_graph.specs.contracts.pattern.PatternPartialEq.TheImpl.Laws.{laws-law as patterns};
    ghost use Rattle.kasa_rules.specs.contracts.rule.NodeActionPartialEq.TheImpl.Laws.{laws-law as actions};
    ghost use Rattle.kasa_rules.specs.contracts.rule.MadeAgentPartialEq.TheImpl.Laws.{laws-law as agents};

    ghost eq = { λ r q. pointwise nat_eq r.name q.name && (⟦<Pattern as PartialEq>⟧.eq r.left q.left && (pointwise ⟦<NodeAction as PartialEq>⟧.eq r.actions q.actions && pointwise ⟦<MadeAgent as PartialEq>⟧.eq r.made q.made)) };

    ghost laws = { and_per (on_per (λ r. r.name) (partial_equiv_from_equiv (lists_equiv nat_eq_equiv))) (and_per (on_per (λ r. r.left) patterns) (and_per (on_per (λ r. r.actions) (lists_per actions)) (on_per (λ r. r.made) (lists_per agents)))) };

    fn eq(&self, other: &Rule) -> bool {
        self.name == other.name
            && self.left == other.left
            && self.actions == other.actions
            && self.made == other.made
    }
}

impl Eq for Rule {
    ghost use Rattle.std.specs.Cmp.{and_equiv, on_equiv, nat_eq_equiv};
    ghost use Rattle.std.specs.Cmp.Lexicographic.{lists_equiv};
    ghost use Rattle.kasa_graph.specs.contracts.pattern.PatternEq.TheImpl.Laws.{laws-law as patterns};
    ghost use Rattle.kasa_rules.specs.contracts.rule.NodeActionEq.TheImpl.Laws.{laws-law as actions};
    ghost use Rattle.kasa_rules.specs.contracts.rule.MadeAgentEq.TheImpl.Laws.{laws-law as agents};

    ghost laws = { and_equiv (on_equiv (λ r. r.name) (lists_equiv nat_eq_equiv)) (and_equiv (on_equiv (λ r. r.left) patterns) (and_equiv (on_equiv (λ r. r.actions) (lists_equiv actions)) (on_equiv (λ r. r.made) (lists_equiv agents)))) };
}

// What is written at a site of a left node.
fn find_action(actions: &[NodeAction], node: NodeNo, site: SiteNo) -> Option<SiteAction>
    ensures { result ≡ option_and_then (λ a. slice_get a.sites site) (slice_get actions.now node) }
{
    match actions.get(node.0 as usize) {
        None => None,
        Some(action) => action.sites.get(site.0 as usize),
    }
}

// Whether a site of a left node is touched.
pub(crate) fn is_touched(actions: &[NodeAction], node: NodeNo, site: usize) -> bool
    ensures { result ≡ touches (option_map (λ a. a.fate) (slice_get actions.now node)) (option_and_then (λ x. x.link) (option_and_then (λ a. slice_get a.sites site) (slice_get actions.now node))) }
{
    match actions.get(node.0 as usize) {
        None => false,
        Some(action) => match action.fate {
            Fate::Deleted => true,
            Fate::Kept => action.sites.has_link(site),
        },
    }
}

impl Rule {
    /// The bytes of the rule's name, none where it has no name. It takes no memory.
    pub fn name(&self) -> &[u8]
        ensures { result.now ≡ self.now.name }
    {
        self.name.as_bytes()
    }

    /// The left pattern, of at most 12 nodes: where it is embedded, the rule fires. It takes no memory.
    pub fn left(&self) -> &Pattern
        ensures pattern { result.now ≡ self.now.left }
        ensures few { length self.now.left ≤ MAX_SIDE_AGENTS }
    {
        &self.left
    }

    /// Whether a left node is deleted or kept. It takes no memory.
    pub fn fate(&self, node: NodeNo) -> Fate
        requires { node < length self.now.left }
        ensures { fate_at self.now node ≡ Some result }
    {
        self.actions[node.0 as usize].fate
    }

    /// The state that is written at a site of a left node. It takes no memory.
    pub fn written_state(&self, node: NodeNo, site: SiteNo) -> Option<StateNo>
        requires { HasNodeSite self.now.left node site }
        ensures { result ≡ written_state self.now node site }
    {
        match find_action(&self.actions, node, site) {
            None => None,
            Some(action) => action.state,
        }
    }

    /// The link that is written at a site of a left node. It takes no memory.
    pub fn written_link(&self, node: NodeNo, site: SiteNo) -> Option<Written>
        requires { HasNodeSite self.now.left node site }
        ensures { result ≡ written_link self.now node site }
    {
        match find_action(&self.actions, node, site) {
            None => None,
            Some(action) => action.link,
        }
    }

    /// How many agents are created, at most 12. It takes no memory.
    pub fn made(&self) -> usize
        ensures count { result ≡ length self.now.made }
        ensures few { result ≤ MAX_SIDE_AGENTS }
    {
        self.made.len()
    }

    /// The type of a created agent. It takes no memory.
    pub fn made_type(&self, k: u16) -> AgentType
        requires { k < length self.now.made }
        ensures { made_type self.now k ≡ Some result }
    {
        self.made[k as usize].agent
    }

    /// The state of a site of a created agent, none where the site has no states. It takes no memory.
    pub fn made_state(&self, k: u16, site: SiteNo) -> Option<StateNo>
        requires { IsSome (made_site self.now k site) }
        ensures { result ≡ made_state self.now k site }
    {
        self.made[k as usize].sites.get(site.0 as usize).state
    }

    /// The link of a site of a created agent. It takes no memory.
    pub fn made_link(&self, k: u16, site: SiteNo) -> Written
        requires { IsSome (made_site self.now k site) }
        ensures { result ≡ made_link self.now k site }
    {
        self.made[k as usize].sites.get(site.0 as usize).link
    }
}

/// Whether a site of the left pattern is touched: its node is deleted, or its link is written. It takes no memory.
pub fn touched(rule: &Rule, node: NodeNo, site: SiteNo) -> bool
    requires { HasNodeSite rule.now.left node site }
    ensures { result ≡ touched rule.now node site }
{
    touched_at(rule, node, site.0 as usize)
}

/// The same at the site of a number, however many sites the node has. It takes no memory.
pub fn touched_at(rule: &Rule, node: NodeNo, site: usize) -> bool
    ensures { result ≡ touched rule.now node site }
{
    is_touched(&rule.actions, node, site)
}
