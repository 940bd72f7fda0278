// The sites that labels join.
ghost use Rattle.std.specs.Prelude.{◌≡◌, ℕ, List, length, IfOk, OnOk};
ghost use Rattle.std.specs.Option.{option_map_or};
ghost use Rattle.kasa_compile.specs.declared.said.AgentSaid.{AgentSaid as Said};
ghost use Rattle.kasa_compile.specs.Bonds.{labelled, places_of, is_same, joined_to};
ghost use Rattle.kasa_compile.specs.BondIndex.{AreBondsOf, IsContinued, ends_at, label_of, one_place};

use crate::said::{AgentSaid, LinkSaid, SiteSaid};
use indexmap::IndexMap;
use kasa_num::{NoMemory, SiteNo};
use std::alloc::Global;
use std::marker::Model;

// The first and the last place where a label stands: the number of an agent on its side, and a site of it.
#[derive(Clone, Copy)]
struct Ends {
    first: (usize, SiteNo),
    last: (usize, SiteNo),
}

/// The labels of one side of a rule, or of a complex, each with the two places where it stands.
#[derive(Drop)]
pub struct Bonds {
    items: IndexMap<u16, Ends>,
}

impl Model for Bonds {
    ghost use Rattle.std.specs.Prelude.{ℕ, List};
    ghost use Rattle.kasa_compile.specs.declared.bonds.Ends.{Ends};

    ghost Value = { List (ℕ × Ends) };

    ghost view = { λ j. j.items.entries };
}

/// The sites of an agent.
pub fn sites_of(agent: &AgentSaid) -> &[SiteSaid]
    ensures { result.now ≡ agent.now.sites }
{
    agent.sites.items.as_slice()
}

/// The label of a link, none where it is no label.
pub fn label_of(link: Option<LinkSaid>) -> Option<u16>
    ensures { result ≡ label_of link }
{
    match link {
        Some(LinkSaid::Label(number)) => Some(number),
        _ => None,
    }
}

// Two places are the same.
fn is_same(p: (usize, SiteNo), q: (usize, SiteNo)) -> bool
    ensures { result ≡ is_same p q }
{
    p.0 == q.0 && p.1.0 == q.1.0
}

impl Bonds {
    /// The labels of these agents.
    pub fn of(alloc: Global, agents: &[AgentSaid]) -> Result<Bonds, NoMemory>
        ensures { IfOk result (λ bonds. AreBondsOf agents.now bonds) }
    {
        let mut bonds = Bonds {
            items: IndexMap::new(alloc),
        };
        for (number, agent) in agents.iter().enumerate() {
            bonds.note_agent(number, sites_of(agent))?;
        }
        Ok(bonds)
    }

    // The labels of one more agent.
    fn note_agent(&mut self, agent: usize, sites: &[SiteSaid]) -> Result<(), NoMemory>
        ensures { OnOk result (IsContinued self.old self.new (λ number. labelled agent number sites.now)) }
    {
        for site in sites {
            if let Some(number) = label_of(site.link) {
                self.note(number, (agent, site.site))?;
            }
        }
        Ok(())
    }

    // One more place of a label.
    fn note(&mut self, number: u16, place: (usize, SiteNo)) -> Result<(), NoMemory>
        ensures { OnOk result (IsContinued self.old self.new (one_place number place)) }
    {
        let first = self.first_place(number, &place);
        self.items.insert(number, Ends { first, last: place })?;
        Ok(())
    }

    // The first place of a label, which is this one where none stands yet.
    fn first_place(&self, number: u16, place: &(usize, SiteNo)) -> (usize, SiteNo)
        ensures { result ≡ option_map_or (λ e. e.first) (ends_at self.now number) place.now }
    {
        match self.items.get(&number) {
            Some(ends) => ends.first,
            None => *place,
        }
    }

    /// The site that a label joins to the one at which it stands. It takes no memory.
    pub fn joined_to(&self, number: u16, place: (usize, SiteNo)) -> (usize, SiteNo)
        ensures { (agents : List Said) → AreBondsOf agents self.now → length (places_of number agents) ≡ 2 → result ≡ joined_to agents number place }
    {
        match self.items.get(&number) {
            Some(ends) if is_same(place, ends.first) => ends.last,
            Some(ends) => ends.first,
            None => place,
        }
    }
}
