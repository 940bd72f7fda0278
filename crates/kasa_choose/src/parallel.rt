// The plan of parallel families: two possible bonds of one type to another type.
ghost use Rattle.std.specs.Prelude.{◌≡◌, ◌<◌, List, length, map, nat_eq, IfOk};
ghost use Rattle.std.specs.List.{filter, flat_map};
ghost use Rattle.kasa_graph.specs.Signature.{state_counts};
ghost use Rattle.kasa_choose.specs.Kept.{keep_all};
ghost use Rattle.kasa_choose.specs.Parallel.{two_bonds, over_sites, over_site, over_type, parallel_plan};
ghost use Rattle.kasa_choose.specs.Own.{far_end, partners_among};

use crate::planned::Planned;
use kasa_families::Family;
use kasa_graph::Signature;
use kasa_num::{AgentType, NoMemory, SiteNo};
use kasa_polymers::{Bond, contact};
use kasa_rules::Model;
use kasa_tables::Tables;
use std::alloc::Global;

// A type and a site of it.
type Port = (AgentType, SiteNo);

// The parallel families of a model, cut after one more than there may be. The contact map over tables of no families has
// just the possible bonds, since no rule is dead there.
pub(crate) fn all_parallel(alloc: Global, model: &Model) -> Result<Vec<Family>, NoMemory>
    ensures { IfOk result (λ families. families.items ≡ parallel_plan model.now) }
{
    let none = Tables::new(alloc, &model.sig, Vec::new(alloc))?;
    let map = contact(alloc, model, &none)?;
    let mut planned = Planned::new(alloc);
    for number in 0..model.sig.types() {
        let agent = AgentType(number as u16);
        let own = own_bonds(alloc, map.bonds.as_slice(), agent)?;
        planned = add_type(alloc, &model.sig, own.as_slice(), agent, planned)?;
    }
    Ok(planned.families())
}

// The bonds of one type.
fn own_bonds(alloc: Global, bonds: &[Bond], agent: AgentType) -> Result<Vec<Bond>, NoMemory>
    ensures { IfOk result (λ own. own.items ≡ filter (λ bond. nat_eq bond.a agent) bonds.now) }
{
    let mut own = Vec::new(alloc);
    for bond in bonds {
        if bond.a == agent {
            own.push(*bond)?;
        }
    }
    Ok(own)
}

// The far ends of the bonds at one site.
fn partners_of(alloc: Global, own: &[Bond], site: SiteNo) -> Result<Vec<Port>, NoMemory>
    ensures { IfOk result (λ ports. ports.items ≡ partners_among own.now site) }
{
    let mut ports = Vec::new(alloc);
    for bond in own {
        if bond.x == site {
            ports.push((bond.b, bond.y))?;
        }
    }
    Ok(ports)
}

// Adds the families of one type.
fn add_type(
    alloc: Global,
    sig: &Signature,
    own: &[Bond],
    agent: AgentType,
    mut planned: Planned,
) -> Result<Planned, NoMemory>
    requires { agent < length sig.now }
    ensures { IfOk result (λ new. new ≡ keep_all planned (over_type (partners_among own.now) agent (length (state_counts sig.now agent)))) }
{
    for number in 0..sig.sites(agent) {
        planned = add_site(alloc, sig, own, agent, SiteNo(number as u8), planned)?;
    }
    Ok(planned)
}

// Adds those whose first bond is at one site.
fn add_site(
    alloc: Global,
    sig: &Signature,
    own: &[Bond],
    agent: AgentType,
    site: SiteNo,
    mut planned: Planned,
) -> Result<Planned, NoMemory>
    requires { agent < length sig.now }
    ensures { IfOk result (λ new. new ≡ keep_all planned (over_site (partners_among own.now) agent (length (state_counts sig.now agent)) site)) }
{
    let firsts = partners_of(alloc, own, site)?;
    for number in 0..sig.sites(agent) {
        planned = add_second_site(
            alloc,
            own,
            agent,
            site,
            SiteNo(number as u8),
            &firsts,
            planned,
        )?;
    }
    Ok(planned)
}

// Adds those whose second bond is at one site, where it is the greater one.
fn add_second_site(
    alloc: Global,
    own: &[Bond],
    agent: AgentType,
    site: SiteNo,
    second: SiteNo,
    firsts: &[Port],
    planned: Planned,
) -> Result<Planned, NoMemory>
    requires { firsts.now ≡ partners_among own.now site }
    ensures { IfOk result (λ new. new ≡ keep_all planned (over_sites (partners_among own.now) agent site second)) }
{
    if site.0 >= second.0 {
        return Ok(planned);
    }
    let seconds = partners_of(alloc, own, second)?;
    add_bonds(agent, site, second, firsts, seconds.as_slice(), planned)
}

// Adds those over two sites with these partners.
fn add_bonds(
    agent: AgentType,
    x: SiteNo,
    u: SiteNo,
    firsts: &[Port],
    seconds: &[Port],
    mut planned: Planned,
) -> Result<Planned, NoMemory>
    ensures { IfOk result (λ new. new ≡ keep_all planned (flat_map (λ first. flat_map (two_bonds agent x u first) seconds.now) firsts.now)) }
{
    for first in firsts {
        planned = add_seconds(agent, x, u, first, seconds, planned)?;
    }
    Ok(planned)
}

// Adds those with one first partner.
fn add_seconds(
    agent: AgentType,
    x: SiteNo,
    u: SiteNo,
    first: &Port,
    seconds: &[Port],
    mut planned: Planned,
) -> Result<Planned, NoMemory>
    ensures { IfOk result (λ new. new ≡ keep_all planned (flat_map (two_bonds agent x u first.now) seconds.now)) }
{
    for second in seconds {
        planned = add_two(agent, x, u, first, second, planned)?;
    }
    Ok(planned)
}

// Adds the family over two bonds, where they lead to two sites of one other type.
fn add_two(
    agent: AgentType,
    x: SiteNo,
    u: SiteNo,
    first: &Port,
    second: &Port,
    planned: Planned,
) -> Result<Planned, NoMemory>
    ensures { IfOk result (λ new. new ≡ keep_all planned (two_bonds agent x u first.now second.now)) }
{
    let (b, y) = *first;
    let (c, w) = *second;
    if b == c && y != w && agent != b {
        return planned.keep(Family::Parallel {
            a: agent,
            x,
            u,
            b,
            y,
            w,
        });
    }
    Ok(planned)
}
