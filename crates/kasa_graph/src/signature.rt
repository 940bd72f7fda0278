// Signatures: types of agents, their sites and the states of these, by their names.
ghost use Rattle.std.specs.Prelude.{◌≡◌, ℕ, ◌+◌, ◌<◌, ◌≤◌, ◌↔◌, [], length, Some, slice_get, map, option_map, IsTrue, MatchOption, IfSome, IfOk, OnOk, OnErr};
ghost use Rattle.std.specs.Option.{option_map_or};
ghost use Rattle.std.specs.Cmp.Lexicographic.{pointwise};
ghost use Rattle.kasa_lists.specs.Lists.{Has};
ghost use Rattle.kasa_graph.specs.SignatureView.{name_bytes, site_entry, type_entry};
ghost use Rattle.kasa_graph.specs.SameNames.{same_name, same_site, same_type};
ghost use Rattle.kasa_graph.specs.Signature.{SiteEntry, TypeEntry, sites_of, state_counts, state_names, type_names, site_names, HasSite, with_new_type, with_new_site, with_state_name, with_new_state, IsName, IsNameByte, IsSignature};

use indexmap::{IndexMap, IndexSet};
use kasa_num::limits::{MAX_NAME_BYTES, MAX_SITES, MAX_STATES, MAX_TYPES};
use kasa_num::{AgentType, NoMemory, SiteNo, StateNo};
use std::alloc::Global;
use std::marker::Model;

type StateNames = IndexSet<Vec<u8>>;

type SiteNames = IndexMap<Vec<u8>, StateNames>;

/// The types of agents with their sites and the states of these, in order and by their names, as in the agent
/// declarations of the Kappa manual: at most 500 types, 32 sites of a type and 32 states of a site.
#[derive(Drop)]
pub struct Signature {
    types: IndexMap<Vec<u8>, SiteNames>,
}

impl Model for Signature {
    ghost use Rattle.std.specs.Prelude.{List, length};
    ghost use Rattle.kasa_graph.specs.Signature.{TypeEntry, IsSignature};

    ghost Value = { List TypeEntry };

    ghost use Rattle.kasa_graph.specs.SignatureView.{type_entries};

    ghost view = { type_entries };

    ghost invariant = { λ s. IsSignature (type_entries s) };
}

// Whether two sites of one number have one name and the same states, in order.
fn same_site_at(sites: &SiteNames, others: &SiteNames, site: usize) -> bool
    ensures { (x y : SiteEntry) → slice_get (map site_entry sites.now.entries) site ≡ Some x → slice_get (map site_entry others.now.entries) site ≡ Some y → result ≡ same_site x y }
{
    let Some((name, states)) = sites.get_index(site) else {
        return false;
    };
    let Some((other, others)) = others.get_index(site) else {
        return false;
    };
    name == other && states.as_slice() == others.as_slice()
}

// Whether two types have the same sites, in order.
fn same_sites(sites: &SiteNames, others: &SiteNames) -> bool
    ensures { result ≡ pointwise same_site (map site_entry sites.now.entries) (map site_entry others.now.entries) }
{
    if sites.len() != others.len() {
        return false;
    }
    for site in 0..sites.len() {
        if !same_site_at(sites, others, site) {
            return false;
        }
    }
    true
}

impl PartialEq for Signature {
    ghost use Rattle.std.specs.Cmp.{partial_equiv_from_equiv};
    ghost use Rattle.std.specs.Cmp.Lexicographic.{pointwise};
    ghost use Rattle.kasa_graph.specs.SameNames.{same_type, same_types_equiv};

    ghost eq = { pointwise same_type };

    ghost laws = { partial_equiv_from_equiv same_types_equiv };

    fn eq(&self, other: &Signature) -> bool {
        if self.types() != other.types() {
            return false;
        }
        for agent in 0..self.types() {
            if !self.same_type_at(other, agent) {
                return false;
            }
        }
        true
    }
}

impl Eq for Signature {
    ghost use Rattle.kasa_graph.specs.SameNames.{same_types_equiv};

    ghost laws = { same_types_equiv };
}

impl Signature {
    // Whether two types of one number have one name and the same sites, in order.
    fn same_type_at(&self, other: &Signature, agent: usize) -> bool
        ensures { (x y : TypeEntry) → slice_get self.now agent ≡ Some x → slice_get other.now agent ≡ Some y → result ≡ same_type x y }
    {
        let Some((name, sites)) = self.types.get_index(agent) else {
            return false;
        };
        let Some((other, others)) = other.types.get_index(agent) else {
            return false;
        };
        name == other && same_sites(sites, others)
    }

    /// The signature without types.
    pub fn new(alloc: Global) -> Signature
        ensures { result ≡ [] }
    {
        Signature {
            types: IndexMap::new(alloc),
        }
    }

    /// How many types there are, at most 500.
    pub fn types(&self) -> usize
        ensures count { result ≡ length self.now }
        ensures few { result ≤ MAX_TYPES }
        ensures valid { IsSignature self.now }
    {
        self.types.len()
    }

    /// How many sites a type has, 0 for an unknown type.
    pub fn sites(&self, agent: AgentType) -> usize
        ensures count { result ≡ length (sites_of self.now agent) }
        ensures counts { result ≡ length (state_counts self.now agent) }
        ensures few { result ≤ MAX_SITES }
    {
        match self.sites_by_name(agent) {
            None => 0,
            Some(sites) => sites.len(),
        }
    }

    /// How many states a site has, 0 for an unknown site.
    pub fn states(&self, agent: AgentType, site: SiteNo) -> usize
        ensures count { result ≡ length (state_names self.now agent site) }
        ensures few { result ≤ MAX_STATES }
    {
        match self.states_by_name(agent, site) {
            None => 0,
            Some(states) => states.len(),
        }
    }

    // The sites of a type, None for an unknown type.
    fn sites_by_name(&self, agent: AgentType) -> Option<&SiteNames>
        ensures sites { sites_of self.now agent ≡ option_map_or (λ sites. map site_entry sites.now.entries) result [] }
        ensures few { IfSome result (λ sites. length sites.now.entries ≤ MAX_SITES) }
    {
        let (_, sites) = self.types.get_index(agent.0 as usize)?;
        Some(sites)
    }

    // The states of a site, None for an unknown site.
    fn states_by_name(&self, agent: AgentType, site: SiteNo) -> Option<&StateNames>
        ensures states { state_names self.now agent site ≡ option_map_or (λ states. map name_bytes states.now.keys) result [] }
        ensures few { IfSome result (λ states. length states.now.keys ≤ MAX_STATES) }
    {
        let (_, sites) = self.types.get_index(agent.0 as usize)?;
        let (_, states) = sites.get_index(site.0 as usize)?;
        Some(states)
    }

    /// Adds a type without sites, as the last one, and gives its number. Without memory the signature stays as it was.
    pub fn add_type(&mut self, name: &[u8]) -> Result<AgentType, NoMemory>
        requires is_new { ¬ Has (type_names self.old) name.now }
        requires is_name { IsName name.now }
        requires room { length self.old < MAX_TYPES }
        ensures number { IfOk result (λ a. a ≡ length self.old) }
        ensures added { OnOk result (self.new ≡ with_new_type self.old name.now) }
        ensures unchanged { OnErr result (self.new ≡ self.old) }
    {
        let alloc = *self.types.allocator();
        let key = Vec::from_slice(alloc, name)?;
        let number = self.types.len();
        self.types.insert(key, IndexMap::new(alloc))?;
        Ok(AgentType(number as u16))
    }

    /// Adds a site without states to a type, as the last one, and gives its number. Without memory the signature stays
    /// as it was.
    pub fn add_site(&mut self, agent: AgentType, name: &[u8]) -> Result<SiteNo, NoMemory>
        requires owner { agent < length self.old }
        requires is_new { ¬ Has (site_names self.old agent) name.now }
        requires is_name { IsName name.now }
        requires room { length (sites_of self.old agent) < MAX_SITES }
        ensures number { IfOk result (λ x. x ≡ length (sites_of self.old agent)) }
        ensures added { OnOk result (self.new ≡ with_new_site self.old agent name.now) }
        ensures unchanged { OnErr result (self.new ≡ self.old) }
    {
        let alloc = *self.types.allocator();
        let key = Vec::from_slice(alloc, name)?;
        let (_, sites) = self.types.pair_mut(agent.0 as usize);
        let number = sites.len();
        sites.insert(key, IndexSet::new(alloc))?;
        Ok(SiteNo(number as u8))
    }

    /// Adds a state to a site, as the last one, and gives its number. Without memory the signature stays as it was.
    pub fn add_state(
        &mut self,
        agent: AgentType,
        site: SiteNo,
        name: &[u8],
    ) -> Result<StateNo, NoMemory>
        requires owner { HasSite self.old agent site }
        requires is_new { ¬ Has (state_names self.old agent site) name.now }
        requires is_name { IsName name.now }
        requires room { length (state_names self.old agent site) < MAX_STATES }
        ensures number { IfOk result (λ u. u ≡ length (state_names self.old agent site)) }
        ensures added { OnOk result (self.new ≡ with_new_state self.old agent site name.now) }
        ensures unchanged { OnErr result (self.new ≡ self.old) }
    {
        let alloc = *self.types.allocator();
        let key = Vec::from_slice(alloc, name)?;
        let (_, sites) = self.types.pair_mut(agent.0 as usize);
        let number = insert_state(sites, site.0 as usize, key)?;
        Ok(StateNo(number as u8))
    }

    /// The number of the type with this name, None where no type has it.
    pub fn find_type(&self, name: &[u8]) -> Option<AgentType>
        ensures { MatchOption result (¬ Has (type_names self.now) name.now) (λ a. slice_get (type_names self.now) a ≡ Some name.now) }
    {
        let number = self.types.get_index_of(name)?;
        Some(AgentType(number as u16))
    }

    /// The number of the site of a type with this name, None where the type has no such site.
    pub fn find_site(&self, agent: AgentType, name: &[u8]) -> Option<SiteNo>
        ensures { MatchOption result (¬ Has (site_names self.now agent) name.now) (λ x. slice_get (site_names self.now agent) x ≡ Some name.now) }
    {
        let number = self.sites_by_name(agent)?.get_index_of(name)?;
        Some(SiteNo(number as u8))
    }

    /// The number of the state of a site with this name, None where the site has no such state.
    pub fn find_state(&self, agent: AgentType, site: SiteNo, name: &[u8]) -> Option<StateNo>
        ensures { MatchOption result (¬ Has (state_names self.now agent site) name.now) (λ u. slice_get (state_names self.now agent site) u ≡ Some name.now) }
    {
        let number = self.states_by_name(agent, site)?.get_index_of(name)?;
        Some(StateNo(number as u8))
    }

    /// The name of a type, None for an unknown type.
    pub fn type_name(&self, agent: AgentType) -> Option<&[u8]>
        ensures { option_map (λ n. n.now) result ≡ slice_get (type_names self.now) agent }
    {
        let (name, _) = self.types.get_index(agent.0 as usize)?;
        Some(name.as_slice())
    }

    /// The name of a site, None for an unknown site.
    pub fn site_name(&self, agent: AgentType, site: SiteNo) -> Option<&[u8]>
        ensures { option_map (λ n. n.now) result ≡ slice_get (site_names self.now agent) site }
    {
        let (name, _) = self.sites_by_name(agent)?.get_index(site.0 as usize)?;
        Some(name.as_slice())
    }

    /// The name of a state of a site, None for an unknown state.
    pub fn state_name(&self, agent: AgentType, site: SiteNo, state: StateNo) -> Option<&[u8]>
        ensures { option_map (λ n. n.now) result ≡ slice_get (state_names self.now agent site) state }
    {
        let name = self
            .states_by_name(agent, site)?
            .get_index(state.0 as usize)?;
        Some(name.as_slice())
    }
}

/// Whether the bytes are a name: 1 to 63 ASCII letters, digits and `_`.
pub fn is_name(bytes: &[u8]) -> bool
    ensures { IsTrue result ↔ IsName bytes.now }
{
    !bytes.is_empty() && bytes.len() <= MAX_NAME_BYTES && bytes.iter().all(|b| is_name_byte(*b))
}

// An ASCII letter, a digit or `_`.
fn is_name_byte(b: u8) -> bool
    ensures { IsTrue result ↔ IsNameByte b }
{
    matches!(b, b'A'..=b'Z' | b'a'..=b'z' | b'0'..=b'9' | b'_')
}

// Puts a name last among the states of a site, and gives its number.
fn insert_state(sites: &mut SiteNames, site: usize, name: Vec<u8>) -> Result<usize, NoMemory>
    requires owner { site < length sites.old.entries }
    requires is_new { ¬ Has (option_map_or (λ s. s.states) (slice_get (map site_entry sites.old.entries) site) []) name.items }
    ensures number { IfOk result (λ u. u ≡ length (option_map_or (λ s. s.states) (slice_get (map site_entry sites.old.entries) site) [])) }
    ensures added { OnOk result (map site_entry sites.new.entries ≡ with_state_name (map site_entry sites.old.entries) site name.items) }
    ensures unchanged { OnErr result (map site_entry sites.new.entries ≡ map site_entry sites.old.entries) }
{
    let (_, states) = sites.pair_mut(site);
    let number = states.len();
    states.insert(name)?;
    Ok(number)
}
