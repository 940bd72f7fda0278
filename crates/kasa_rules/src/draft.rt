// Drafts of rules: a rule is made of its left pattern by one change after another.
ghost use Rattle.std.specs.Prelude.{◌≡◌, ◌≢◌, ◌↔◌, ℕ, ◌<◌, ◌≤◌, List, length, map, replicate, Some, None, IsTrue, IsSome, IfOk, IfSome, IfNone, OnErr, [], ◌∷◌, slice_get};
ghost use Rattle.kasa_graph.specs.declared.pattern.Node.{Node};
ghost use Rattle.kasa_lists.specs.Lists.{update};
ghost use Rattle.kasa_graph.specs.Signature.{TypeEntry, state_counts};
ghost use Rattle.kasa_graph.specs.Pattern.{blank_node, HasNodeSite, IsPatternOver};
ghost use Rattle.kasa_rules.specs.Rule.{fate_at, touched, HasWholeBonds, IsDraftOver, IsRuleOver};
ghost use Rattle.kasa_rules.specs.Draft.{new_draft, keep_node, no_action, new_site, new_agent, with_made, with_deleted, with_written_state, with_written_link, with_written_bond, actions_with_state, actions_with_link, made_with_state, made_with_link, change_action, change_made, delete_node, HasEndSite, HasEndState, IsOpen, IsUnwritten, IsHalfBond, ComesBefore, HasListed};

use crate::rule::{
    End, Fate, MadeAgent, MadeSites, NodeAction, Rule, SiteActions, Written, is_touched,
};
use kasa_graph::{LinkTest, Pattern, Signature};
use kasa_num::limits::{MAX_SIDE_AGENTS, MAX_SITES};
use kasa_num::{AgentType, Name, NoMemory, NodeNo, SiteNo, StateNo};
use std::alloc::Global;
use std::marker::Model;

/// A rule that is being made: all that a rule has, where a bond of the left pattern may still be touched at one end
/// alone.
#[derive(Drop)]
pub struct RuleDraft {
    alloc: Global,
    name: Name,
    left: Pattern,
    actions: Vec<NodeAction>,
    made: Vec<MadeAgent>,
}

impl Model for RuleDraft {
    ghost use Rattle.kasa_rules.specs.Rule.{RuleParts, IsDraft, HasFewAgents};
    ghost use Rattle.kasa_rules.specs.Draft.{HasActions};

    ghost Value = { RuleParts };

    ghost view = { λ r. record { name = r.name; left = r.left; actions = r.actions.items; made = r.made.items } };

    ghost invariant = { λ r. let draft : RuleParts = record { name = r.name; left = r.left; actions = r.actions.items; made = r.made.items } in IsDraft draft × HasFewAgents draft × HasActions draft };
}

// Every left node is kept, and nothing is written on it.
fn kept_nodes(alloc: Global, sig: &Signature, left: &Pattern) -> Result<Vec<NodeAction>, NoMemory>
    requires over { IsPatternOver sig.now left.now }
    requires few { length left.now ≤ MAX_SIDE_AGENTS }
    ensures all { IfOk result (λ actions. actions.items ≡ map keep_node left.now) }
    ensures few_sites { IfOk result (λ _. (n : ℕ) (x : Node) → slice_get left.now n ≡ Some x → length x.sites ≤ MAX_SITES) }
{
    let mut actions = Vec::new(alloc);
    for n in 0..left.nodes() {
        let agent = left.agent(NodeNo(n as u16));
        let sites = SiteActions::none(alloc, sig.sites(agent))?;
        actions.push(NodeAction {
            fate: Fate::Kept,
            sites,
        })?;
    }
    Ok(actions)
}

// A node is deleted.
fn put_deleted(actions: &mut [NodeAction], n: usize)
    requires { n < length actions.old }
    ensures { actions.new ≡ update actions.old n delete_node }
{
    let node = &mut actions[n];
    node.fate = Fate::Deleted;
}

// A state at a site of a left node.
fn put_action_state(actions: &mut [NodeAction], n: NodeNo, s: SiteNo, state: StateNo)
    requires { HasListed actions.old [] (End.Left n) s }
    ensures { actions.new ≡ change_action actions.old n s (λ x. record x { state = Some state }) }
{
    let node = &mut actions[n.0 as usize];
    node.sites.set_state(s.0 as usize, state);
}

// A link at a site of a left node.
fn put_action_link(actions: &mut [NodeAction], n: NodeNo, s: SiteNo, link: Written)
    requires { HasListed actions.old [] (End.Left n) s }
    ensures { actions.new ≡ change_action actions.old n s (λ x. record x { link = Some link }) }
{
    let node = &mut actions[n.0 as usize];
    node.sites.set_link(s.0 as usize, link);
}

// A state at a site of a created agent.
fn put_made_state(made: &mut [MadeAgent], k: u16, s: SiteNo, state: StateNo)
    requires { HasListed [] made.old (End.Made k) s }
    ensures { made.new ≡ change_made made.old k s (λ x. record x { state = Some state }) }
{
    let agent = &mut made[k as usize];
    agent.sites.set_state(s.0 as usize, state);
}

// A link at a site of a created agent.
fn put_made_link(made: &mut [MadeAgent], k: u16, s: SiteNo, link: Written)
    requires { HasListed [] made.old (End.Made k) s }
    ensures { made.new ≡ change_made made.old k s (λ x. record x { link = link }) }
{
    let agent = &mut made[k as usize];
    agent.sites.set_link(s.0 as usize, link);
}

// A state at an end.
fn put_state(actions: &mut [NodeAction], made: &mut [MadeAgent], e: End, s: SiteNo, state: StateNo)
    requires { HasListed actions.old made.old e s }
    ensures actions { actions.new ≡ actions_with_state actions.old e s state }
    ensures made { made.new ≡ made_with_state made.old e s state }
{
    match e {
        End::Left(n) => put_action_state(actions, n, s, state),
        End::Made(k) => put_made_state(made, k, s, state),
    }
}

// A link at an end.
fn put_link(actions: &mut [NodeAction], made: &mut [MadeAgent], e: End, s: SiteNo, link: Written)
    requires { HasListed actions.old made.old e s }
    ensures actions { actions.new ≡ actions_with_link actions.old e s link }
    ensures made { made.new ≡ made_with_link made.old e s link }
{
    match e {
        End::Left(n) => put_action_link(actions, n, s, link),
        End::Made(k) => put_made_link(made, k, s, link),
    }
}

// A bond to an end.
fn bond_to(e: &End, s: SiteNo) -> Written
    ensures { result ≡ Written.To e.now s }
{
    match e {
        End::Left(n) => Written::To(End::Left(*n), s),
        End::Made(k) => Written::To(End::Made(*k), s),
    }
}

impl RuleDraft {
    /// The draft that keeps all nodes of the left pattern, and writes and creates nothing. The name is empty where there
    /// is none.
    pub fn new(
        alloc: Global,
        sig: &Signature,
        name: &[u8],
        left: Pattern,
    ) -> Result<RuleDraft, NoMemory>
        requires valid { IsPatternOver sig.now left }
        requires few { length left ≤ MAX_SIDE_AGENTS }
        ensures draft { IfOk result (λ draft. draft ≡ new_draft name.now left) }
        ensures over { IfOk result (λ draft. IsDraftOver sig.now draft) }
    {
        let name = Name::new(alloc, name)?;
        let actions = kept_nodes(alloc, sig, &left)?;
        Ok(RuleDraft {
            alloc,
            name,
            left,
            actions,
            made: Vec::new(alloc),
        })
    }

    /// Appends a created agent with free sites, each in the first of its states, and gives its number among the created
    /// ones, from 0.
    pub fn make(&mut self, sig: &Signature, agent: AgentType) -> Result<u16, NoMemory>
        requires known { agent < length sig.now }
        requires room { length self.old.made < MAX_SIDE_AGENTS }
        ensures ok { IfOk result (λ k. (k ≡ length self.old.made) × (self.new ≡ with_made self.old (new_agent sig.now agent))) }
        ensures err { OnErr result (self.new ≡ self.old) }
        ensures over { IsDraftOver sig.now self.old → IsDraftOver sig.now self.new }
    {
        let k = self.made.len() as u16;
        let sites = MadeSites::first(self.alloc, sig, agent)?;
        self.made.push(MadeAgent { agent, sites })?;
        Ok(k)
    }

    /// Deletes a left node on which nothing is written. It takes no memory.
    pub fn delete(&mut self, node: NodeNo)
        requires kept { fate_at self.old node ≡ Some Fate.Kept }
        requires unwritten { IsUnwritten self.old node }
        ensures draft { self.new ≡ with_deleted self.old node }
        ensures over { (sig : List TypeEntry) → IsDraftOver sig self.old → IsDraftOver sig self.new }
    {
        put_deleted(&mut self.actions, node.0 as usize);
    }

    /// Writes a state at a site of a kept or of a created node. It takes no memory.
    pub fn write_state(&mut self, end: End, site: SiteNo, state: StateNo)
        requires exists { HasEndSite self.old «end» site }
        requires known { HasEndState self.old «end» site state }
        ensures draft { self.new ≡ with_written_state self.old «end» site state }
        ensures over { (sig : List TypeEntry) → IsDraftOver sig self.old → IsDraftOver sig self.new }
    {
        put_state(&mut self.actions, &mut self.made, end, site, state);
    }

    /// Makes a site of a kept node free, where no link is written yet. It takes no memory.
    pub fn write_free(&mut self, node: NodeNo, site: SiteNo)
        requires exists { HasEndSite self.old (End.Left node) site }
        requires unwritten { IsOpen self.old (End.Left node) site }
        ensures draft { self.new ≡ with_written_link self.old (End.Left node) site Written.Free }
        ensures over { (sig : List TypeEntry) → IsDraftOver sig self.old → IsDraftOver sig self.new }
    {
        put_link(
            &mut self.actions,
            &mut self.made,
            End::Left(node),
            site,
            Written::Free,
        );
    }

    /// Binds two different sites of kept or created nodes, where no link is written yet or the created site is free. It
    /// takes no memory.
    pub fn write_bond(&mut self, e: End, s: SiteNo, f: End, t: SiteNo)
        requires first { HasEndSite self.old e s }
        requires second { HasEndSite self.old f t }
        requires differ { e ≡ f → s ≢ t }
        requires first_open { IsOpen self.old e s }
        requires second_open { IsOpen self.old f t }
        ensures draft { self.new ≡ with_written_bond self.old e s f t }
        ensures over { (sig : List TypeEntry) → IsDraftOver sig self.old → IsDraftOver sig self.new }
    {
        let (there, back) = (bond_to(&f, t), bond_to(&e, s));
        put_link(&mut self.actions, &mut self.made, e, s, there);
        put_link(&mut self.actions, &mut self.made, f, t, back);
    }

    // Whether a site of the left pattern is touched.
    fn touches(&self, node: NodeNo, site: SiteNo) -> bool
        ensures { result ≡ touched self.now node site }
    {
        is_touched(&self.actions, node, site.0 as usize)
    }

    fn is_half(&self, node: NodeNo, site: SiteNo) -> bool
        requires { HasNodeSite self.now.left node site }
        ensures { IsTrue result ↔ IsHalfBond self.now node site }
    {
        match self.left.link(node, site) {
            LinkTest::To(other, at) => !self.touches(node, site) && self.touches(other, at),
            _ => false,
        }
    }

    // How many sites a left node has.
    fn sites(&self, node: NodeNo) -> usize
        requires { node < length self.now.left }
        ensures count { (s : ℕ) → ((s < result) ↔ HasNodeSite self.now.left node s) }
        ensures few { result ≤ MAX_SITES }
    {
        self.actions[node.0 as usize].sites.len()
    }

    // The first half bond of a node.
    fn half_bond_of(&self, node: NodeNo) -> Option<SiteNo>
        requires { node < length self.now.left }
        ensures some { IfSome result (λ s. IsHalfBond self.now node s) }
        ensures first { IfSome result (λ s. (t : ℕ) → t < s → ¬ IsHalfBond self.now node t) }
        ensures none { IfNone result ((t : ℕ) → ¬ IsHalfBond self.now node t) }
    {
        for s in 0..self.sites(node) {
            let site = SiteNo(s as u8);
            if self.is_half(node, site) {
                return Some(site);
            }
        }
        None
    }

    /// The first site of the left pattern, by node and then by site, that isn't touched although it has a bond whose other
    /// end is. There is none exactly where the rule may be finished. It takes no memory.
    pub fn half_bond(&self) -> Option<(NodeNo, SiteNo)>
        ensures some { IfSome result (λ b. IsHalfBond self.now b.0 b.1) }
        ensures first { IfSome result (λ b. (n s : ℕ) → ComesBefore n s b.0 b.1 → ¬ IsHalfBond self.now n s) }
        ensures none { IfNone result (HasWholeBonds self.now) }
    {
        for n in 0..self.left.nodes() {
            let node = NodeNo(n as u16);
            if let Some(site) = self.half_bond_of(node) {
                return Some((node, site));
            }
        }
        None
    }

    /// The rule of these parts, where each bond of the left pattern is touched at both ends or at neither. It takes no
    /// memory.
    pub fn finish(self) -> Rule
        requires { HasWholeBonds self }
        ensures rule { result ≡ self }
        ensures over { (sig : List TypeEntry) → IsDraftOver sig self → IsRuleOver sig result }
    {
        Rule {
            name: self.name,
            left: self.left,
            actions: self.actions,
            made: self.made,
        }
    }
}
