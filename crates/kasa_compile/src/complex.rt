// A declared complex.
ghost use Rattle.std.specs.Prelude.{◌≡◌, ◌≢◌, ◌≤◌, ◌<◌, ◌+◌, length, take, None, Some, IfOk, OnOk, slice_get};
ghost use Rattle.kasa_graph.specs.Mixture.{partner_in, HasAgentSite, IsMixtureOver};
ghost use Rattle.kasa_compile.specs.declared.said.AgentSaid.{AgentSaid as Said};
ghost use Rattle.kasa_compile.specs.Cells.{number_of, with_given, AreUnjoined, bonded, HasMoreBonds, IsJoining, AreNamedOnce, AreSitesJoined, AreAgentsJoined};
ghost use Rattle.kasa_compile.specs.Complex.{complex_of};
ghost use Rattle.kasa_compile.specs.BondIndex.{AreBondsOf};
ghost use Rattle.kasa_compile.specs.Valid.{AreSaid, AreJoined};

use crate::bonds::{Bonds, label_of, sites_of};
use crate::said::AgentSaid;
use kasa_graph::{Mixture, Signature, StateTest};
use kasa_num::{NoMemory, SiteNo, StateNo};
use std::alloc::Global;

// The number of a state that is given, none for `#`.
fn number_of(state: Option<StateTest>) -> Option<StateNo>
    ensures { result ≡ number_of state }
{
    match state? {
        StateTest::Is(number) => Some(number),
        StateTest::Any => None,
    }
}

// Sets a state that is given.
fn set_given(mixture: &mut Mixture, cell: u32, site: SiteNo, state: Option<StateTest>)
    requires { HasAgentSite mixture.old cell site }
    ensures { mixture.new ≡ with_given mixture.old cell site state }
{
    if let Some(number) = number_of(state) {
        mixture.set_state(cell, site, number);
    }
}

// A bond between two sites, unless the first one has one.
fn join_if_free(mixture: &mut Mixture, p: (u32, SiteNo), q: (u32, SiteNo))
    requires first { HasAgentSite mixture.old p.0 p.1 }
    requires second { HasAgentSite mixture.old q.0 q.1 }
    requires differ { p.0 ≡ q.0 → p.1 ≢ q.1 }
    requires free { partner_in mixture.old p.0 p.1 ≡ None → partner_in mixture.old q.0 q.1 ≡ None }
    ensures { mixture.new ≡ bonded mixture.old p q }
{
    let (cell, site) = p;
    let (other, there) = q;
    if mixture.partner(cell, site).is_none() {
        mixture.join(cell, site, other, there);
    }
}

// Appends the next agent with its states.
fn add_agent(
    mixture: &mut Mixture,
    sig: &Signature,
    agents: &[AgentSaid],
    number: usize,
) -> Result<(), NoMemory>
    requires said { AreSaid sig.now agents.now }
    requires few { length agents.now ≤ 200 }
    requires within { number < length agents.now }
    requires before { AreUnjoined sig.now (take number agents.now) mixture.old }
    ensures { OnOk result (AreUnjoined sig.now (take (number + 1) agents.now) mixture.new) }
{
    let agent = &agents[number];
    let cell = mixture.add(sig, agent.agent)?;
    for site in sites_of(agent) {
        set_given(mixture, cell, site.site, site.state);
    }
    Ok(())
}

// The agents with their states.
fn add_agents(alloc: Global, sig: &Signature, agents: &[AgentSaid]) -> Result<Mixture, NoMemory>
    requires said { AreSaid sig.now agents.now }
    requires few { length agents.now ≤ 200 }
    ensures { IfOk result (λ mixture. AreUnjoined sig.now agents.now mixture) }
{
    let mut mixture = Mixture::new(alloc);
    for number in 0..agents.len() {
        add_agent(&mut mixture, sig, agents, number)?;
    }
    Ok(mixture)
}

// Joins the labels of an agent.
fn join_agent(mixture: &mut Mixture, bonds: &Bonds, agents: &[AgentSaid], cell: usize)
    requires joined { AreJoined agents.now }
    requires once { AreNamedOnce agents.now }
    requires few { length agents.now ≤ 200 }
    requires index { AreBondsOf agents.now bonds.now }
    requires within { cell < length agents.now }
    requires before { IsJoining agents.now mixture.old }
    ensures more { HasMoreBonds mixture.old mixture.new }
    ensures joining { IsJoining agents.now mixture.new }
    ensures labels { (a : Said) → slice_get agents.now cell ≡ Some a → AreSitesJoined agents.now mixture.new cell a.sites (length a.sites) }
{
    for site in sites_of(&agents[cell]) {
        if let Some(number) = label_of(site.link) {
            let (other, there) = bonds.joined_to(number, (cell, site.site));
            join_if_free(mixture, (cell as u32, site.site), (other as u32, there));
        }
    }
}

// Joins all labels.
fn join_agents(mixture: &mut Mixture, bonds: &Bonds, agents: &[AgentSaid])
    requires joined { AreJoined agents.now }
    requires once { AreNamedOnce agents.now }
    requires few { length agents.now ≤ 200 }
    requires index { AreBondsOf agents.now bonds.now }
    requires before { IsJoining agents.now mixture.old }
    ensures more { HasMoreBonds mixture.old mixture.new }
    ensures joining { IsJoining agents.now mixture.new }
    ensures labels { AreAgentsJoined agents.now mixture.new (length agents.now) }
{
    for cell in 0..agents.len() {
        join_agent(mixture, bonds, agents, cell);
    }
}

/// The complex of these agents.
pub fn complex(alloc: Global, sig: &Signature, agents: &[AgentSaid]) -> Result<Mixture, NoMemory>
    requires said { AreSaid sig.now agents.now }
    requires joined { AreJoined agents.now }
    requires few { length agents.now ≤ 200 }
    ensures is { IfOk result (λ complex. complex ≡ complex_of sig.now agents.now) }
    ensures over { IfOk result (λ complex. IsMixtureOver sig.now complex) }
{
    let bonds = Bonds::of(alloc, agents)?;
    let mut mixture = add_agents(alloc, sig, agents)?;
    join_agents(&mut mixture, &bonds, agents);
    Ok(mixture)
}
