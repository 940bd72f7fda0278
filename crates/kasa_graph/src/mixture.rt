// Mixtures: cells with agents whose sites have states and partners.
ghost use Rattle.std.specs.Prelude.{◌≡◌, ◌≢◌, ℕ, ◌+◌, ◌<◌, ◌≤◌, ◌^◌, [], ◌∷◌, ◌++◌, length, map, Option, Some, None, IsSome, IsTrue, IfOk, OnErr, slice_get, slice_set};
ghost use Rattle.std.specs.Option.{option_copied};
ghost use Rattle.kasa_lists.specs.Lists.{update};
ghost use Rattle.kasa_graph.specs.Signature.{state_counts};
ghost use Rattle.kasa_graph.specs.Mixture.{agent_in, type_in, site_in, state_in, partner_in, HasAgentSite, IsMixture, first_state, first_site, first_agent, with_agent_site, with_agent_state, with_partner, with_joined, removed};

use crate::Signature;
use kasa_num::{AgentType, NoMemory, SiteNo, StateNo};
use std::alloc::Global;
use std::marker::Model;

/// A site of an agent: its state, where it has states, and its partner.
#[derive(Clone, Copy, PartialEq, Eq, Debug)]
pub struct AgentSite {
    pub states: u8,
    pub state: Option<StateNo>,
    pub partner: Option<(u32, SiteNo)>,
}

/// The sites of an agent.
#[derive(Drop)]
pub struct AgentSites {
    items: Vec<AgentSite>,
}

impl Model for AgentSites {
    ghost use Rattle.std.specs.Prelude.{List};
    ghost use Rattle.kasa_graph.specs.declared.mixture.AgentSite.{AgentSite};

    ghost Value = { List AgentSite };

    ghost view = { λ a. a.items.items };
}

impl PartialEq for AgentSites {
    ghost use Rattle.std.specs.Cmp.Lexicographic.{pointwise, lists_per};
    ghost use Rattle.kasa_graph.specs.contracts.mixture.AgentSitePartialEq.TheImpl.Laws.{laws-law as sites};

    ghost eq = { pointwise ⟦<AgentSite as PartialEq>⟧.eq };

    ghost laws = { lists_per sites };

    fn eq(&self, other: &AgentSites) -> bool {
        self.items == other.items
    }
}

impl Eq for AgentSites {
    ghost use Rattle.std.specs.Cmp.Lexicographic.{lists_equiv};
    ghost use Rattle.kasa_graph.specs.contracts.mixture.AgentSiteEq.TheImpl.Laws.{laws-law as sites};

    ghost laws = { lists_equiv sites };
}

/// An agent of a mixture.
#[derive(Drop, PartialEq, Eq)]
pub struct Agent {
    pub agent: AgentType,
    pub sites: AgentSites,
}

/// A mixture of at most 2^31 cells, whose partners are mutual and never a site itself.
#[derive(Drop)]
pub struct Mixture {
    alloc: Global,
    cells: Vec<Option<Agent>>,
}

impl Model for Mixture {
    ghost use Rattle.std.specs.Prelude.{List, Option};
    ghost use Rattle.kasa_graph.specs.declared.mixture.Agent.{Agent};

    ghost Value = { List (Option Agent) };

    ghost use Rattle.kasa_graph.specs.Mixture.{IsSmallMixture};

    ghost view = { λ m. m.cells.items };

    ghost invariant = { λ m. IsSmallMixture m.cells.items };
}

impl PartialEq for Mixture {
    ghost use Rattle.std.specs.Cmp.{partial_equiv_from_equiv};
    ghost use Rattle.std.specs.Cmp.Lexicographic.{pointwise, lists_equiv, options_equiv};
    ghost use Rattle.kasa_graph.specs.contracts.mixture.AgentEq.TheImpl.Laws.{laws-law as agents};

    ghost eq = { pointwise ⟦<Option<Agent> as PartialEq>⟧.eq };

    ghost laws = { partial_equiv_from_equiv (lists_equiv (options_equiv agents)) };

    fn eq(&self, other: &Mixture) -> bool {
        self.cells == other.cells
    }
}

impl Eq for Mixture {
    ghost use Rattle.std.specs.Cmp.Lexicographic.{lists_equiv, options_equiv};
    ghost use Rattle.kasa_graph.specs.contracts.mixture.AgentEq.TheImpl.Laws.{laws-law as agents};

    ghost laws = { lists_equiv (options_equiv agents) };
}

// The first of so many states.
fn first_state(states: u8) -> Option<StateNo>
    ensures { result ≡ first_state states }
{
    if states == 0 { None } else { Some(StateNo(0)) }
}

impl AgentSites {
    // The sites of a type, in first states and free.
    fn first(alloc: Global, sig: &Signature, agent: AgentType) -> Result<AgentSites, NoMemory>
        ensures { IfOk result (λ sites. sites ≡ map first_site (state_counts sig.now agent)) }
    {
        let mut items = Vec::new(alloc);
        for site in 0..sig.sites(agent) {
            let states = sig.states(agent, SiteNo(site as u8)) as u8;
            let state: Option<StateNo> = first_state(states);
            let partner: Option<(u32, SiteNo)> = None;
            items.push(AgentSite {
                states,
                state,
                partner,
            })?;
        }
        Ok(AgentSites { items })
    }

    fn get(&self, site: usize) -> Option<AgentSite>
        ensures { result ≡ slice_get self.now site }
    {
        self.items.get(site).copied()
    }

    fn as_slice(&self) -> &[AgentSite]
        ensures { result.now ≡ self.now }
    {
        self.items.as_slice()
    }

    fn set(&mut self, site: usize, with: AgentSite)
        requires { site < length self.old }
        ensures { self.new ≡ slice_set self.old site with }
    {
        self.items[site] = with;
    }
}

// The agent of a living cell.
fn agent_at(cells: &[Option<Agent>], c: usize) -> Option<&Agent>
    ensures { option_copied result ≡ agent_in cells.now c }
{
    match cells.get(c) {
        Some(Some(agent)) => Some(agent),
        Some(None) => None,
        None => None,
    }
}

// A site of a living cell, none where there is no such site.
fn site_at(cells: &[Option<Agent>], c: usize, s: usize) -> Option<AgentSite>
    ensures { result ≡ site_in cells.now c s }
{
    match agent_at(cells, c) {
        Some(agent) => agent.sites.get(s),
        None => None,
    }
}

// Another site of a living cell.
fn put_site(cells: &mut [Option<Agent>], c: usize, s: usize, with: AgentSite)
    requires { HasAgentSite cells.old c s }
    ensures { cells.new ≡ with_agent_site cells.old c s (λ _. with) }
{
    if let Some(agent) = &mut cells[c] {
        agent.sites.set(s, with);
    }
}

// Another state of a site.
fn put_state(cells: &mut [Option<Agent>], c: usize, s: usize, state: StateNo)
    requires { HasAgentSite cells.old c s }
    ensures { cells.new ≡ with_agent_state cells.old c s state }
{
    if let Some(site) = site_at(cells, c, s) {
        let state = Some(state);
        put_site(cells, c, s, AgentSite { state, ..site });
    }
}

// Another partner of a site, or none.
fn put_partner(cells: &mut [Option<Agent>], c: usize, s: usize, partner: Option<(u32, SiteNo)>)
    requires { HasAgentSite cells.old c s }
    ensures { cells.new ≡ with_partner cells.old c s partner }
{
    if let Some(site) = site_at(cells, c, s) {
        put_site(cells, c, s, AgentSite { partner, ..site });
    }
}

// A bond between two sites.
fn put_bond(cells: &mut [Option<Agent>], c: u32, s: SiteNo, d: u32, t: SiteNo)
    requires first { HasAgentSite cells.old c s }
    requires second { HasAgentSite cells.old d t }
    ensures { cells.new ≡ with_joined cells.old c s d t }
{
    put_partner(cells, c as usize, s.0 as usize, Some((d, t)));
    put_partner(cells, d as usize, t.0 as usize, Some((c, s)));
}

// Empties a living cell.
fn take_agent(cells: &mut [Option<Agent>], c: usize) -> Option<Agent>
    requires { c < length cells.old }
    ensures taken { result ≡ agent_in cells.old c }
    ensures emptied { cells.new ≡ update cells.old c (λ _. None) }
{
    cells[c].take()
}

// Empties a living cell and frees its partners.
fn remove_agent(cells: &mut [Option<Agent>], c: usize)
    requires linked { IsMixture cells.old }
    requires alive { IsSome (agent_in cells.old c) }
    ensures { cells.new ≡ removed cells.old c }
{
    let Some(agent) = take_agent(cells, c) else {
        return;
    };
    for site in agent.sites.as_slice() {
        if let Some((d, t)) = site.partner {
            if d as usize != c {
                put_partner(cells, d as usize, t.0 as usize, None);
            }
        }
    }
}

impl Mixture {
    /// The mixture without cells.
    pub fn new(alloc: Global) -> Mixture
        ensures { result ≡ [] }
    {
        Mixture {
            alloc,
            cells: Vec::new(alloc),
        }
    }

    /// How many cells there are, empty ones too, at most 2^31.
    pub fn cells(&self) -> usize
        ensures count { result ≡ length self.now }
        ensures few { result ≤ 2 ^ 31 }
    {
        self.cells.len()
    }

    /// The type of a cell's agent, none in an empty cell.
    pub fn agent(&self, cell: u32) -> Option<AgentType>
        ensures { result ≡ type_in self.now cell }
    {
        match agent_at(&self.cells, cell as usize) {
            Some(agent) => Some(agent.agent),
            None => None,
        }
    }

    // The state of a site, none where the site has no states.
    pub(crate) fn state_at(&self, cell: usize, site: usize) -> Option<StateNo>
        ensures { result ≡ state_in self.now cell site }
    {
        match site_at(&self.cells, cell, site) {
            Some(site) => site.state,
            None => None,
        }
    }

    // The cell and the site that a site is bound to, none where it is free.
    pub(crate) fn partner_at(&self, cell: usize, site: usize) -> Option<(u32, SiteNo)>
        ensures { result ≡ partner_in self.now cell site }
    {
        match site_at(&self.cells, cell, site) {
            Some(site) => site.partner,
            None => None,
        }
    }

    /// The state of a site, none where the site has no states.
    pub fn state(&self, cell: u32, site: SiteNo) -> Option<StateNo>
        ensures { result ≡ state_in self.now cell site }
    {
        self.state_at(cell as usize, site.0 as usize)
    }

    /// The cell and the site that a site is bound to, none where it is free.
    pub fn partner(&self, cell: u32, site: SiteNo) -> Option<(u32, SiteNo)>
        ensures { result ≡ partner_in self.now cell site }
    {
        self.partner_at(cell as usize, site.0 as usize)
    }

    /// Appends an agent of a type, in first states and free, and gives its cell.
    pub fn add(&mut self, sig: &Signature, agent: AgentType) -> Result<u32, NoMemory>
        requires known { agent < length sig.now }
        requires room { length self.old < 2 ^ 31 }
        ensures ok { IfOk result (λ c. (c ≡ length self.old) × (self.new ≡ self.old ++ Some (first_agent sig.now agent) ∷ [])) }
        ensures err { OnErr result (self.new ≡ self.old) }
    {
        let cell = self.cells.len() as u32;
        let sites = AgentSites::first(self.alloc, sig, agent)?;
        self.cells.push(Some(Agent { agent, sites }))?;
        Ok(cell)
    }

    /// Another state of a site.
    pub fn set_state(&mut self, cell: u32, site: SiteNo, state: StateNo)
        requires { HasAgentSite self.old cell site }
        ensures { self.new ≡ with_agent_state self.old cell site state }
    {
        put_state(&mut self.cells, cell as usize, site.0 as usize, state);
    }

    /// A bond between two different sites that are free.
    pub fn join(&mut self, c: u32, s: SiteNo, d: u32, t: SiteNo)
        requires first { HasAgentSite self.old c s }
        requires second { HasAgentSite self.old d t }
        requires differ { c ≡ d → s ≢ t }
        requires first_free { partner_in self.old c s ≡ None }
        requires second_free { partner_in self.old d t ≡ None }
        ensures { self.new ≡ with_joined self.old c s d t }
    {
        put_bond(&mut self.cells, c, s, d, t);
    }

    /// Empties a living cell; the partners of its sites become free.
    pub fn remove(&mut self, cell: u32)
        requires { IsSome (type_in self.old cell) }
        ensures { self.new ≡ removed self.old cell }
    {
        remove_agent(&mut self.cells, cell as usize);
    }
}
