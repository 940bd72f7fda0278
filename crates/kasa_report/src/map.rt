// The section `contact map`.
ghost use Rattle.std.specs.Prelude.{◌≡◌, ◌++◌, ◌∷◌, [], ◌<◌, ◌≤◌, OnOk, AllPairs, codes, filter, length, map, slice_range};
ghost use Rattle.kasa_polymers.specs.Order.{IsBondBelow, IsStateBelow};
ghost use Rattle.kasa_report.specs.Section.{all_lines, section, joined};
ghost use Rattle.kasa_report.specs.ContactText.{contact_lines, type_lines, lines_at, site_lines, is_state_at, is_bond_at, states_text, partners_text, state_text, partner_text};
ghost use Rattle.kasa_report.specs.inner.Runs.{comes_before};

use crate::write::{write_between, write_line, write_none, write_site, write_state, write_type};
use kasa_graph::Signature;
use kasa_num::{AgentType, NoMemory, SiteNo};
use kasa_polymers::{Bond, ContactMap, StateSeen};

/// Appends the section: for each type and each of its sites in order the states and the partners that the map has there.
pub(crate) fn write_map(
    sig: &Signature,
    map: &ContactMap,
    out: &mut Vec<u8>,
) -> Result<(), NoMemory>
    requires bonds { AllPairs IsBondBelow map.now.bonds }
    requires states { AllPairs IsStateBelow map.now.states }
    ensures { OnOk result (out.new.items ≡ out.old.items ++ section (codes "contact map") (contact_lines sig.now map.now)) }
{
    write_line(b"contact map", out)?;
    let before = out.len();
    write_types(sig, map, out)?;
    write_none(before, out)
}

fn write_types(sig: &Signature, map: &ContactMap, out: &mut Vec<u8>) -> Result<(), NoMemory>
    requires bonds { AllPairs IsBondBelow map.now.bonds }
    requires states { AllPairs IsStateBelow map.now.states }
    ensures { OnOk result (out.new.items ≡ out.old.items ++ all_lines (contact_lines sig.now map.now)) }
{
    for agent in 0..sig.types() {
        write_sites(sig, map, AgentType(agent as u16), out)?;
    }
    Ok(())
}

fn write_sites(
    sig: &Signature,
    map: &ContactMap,
    agent: AgentType,
    out: &mut Vec<u8>,
) -> Result<(), NoMemory>
    requires bonds { AllPairs IsBondBelow map.now.bonds }
    requires states { AllPairs IsStateBelow map.now.states }
    ensures { OnOk result (out.new.items ≡ out.old.items ++ all_lines (type_lines sig.now map.now agent)) }
{
    for site in 0..sig.sites(agent) {
        write_at(sig, map, agent, SiteNo(site as u8), out)?;
    }
    Ok(())
}

fn write_at(
    sig: &Signature,
    map: &ContactMap,
    agent: AgentType,
    site: SiteNo,
    out: &mut Vec<u8>,
) -> Result<(), NoMemory>
    requires bonds { AllPairs IsBondBelow map.now.bonds }
    requires states { AllPairs IsStateBelow map.now.states }
    ensures { OnOk result (out.new.items ≡ out.old.items ++ all_lines (lines_at sig.now map.now agent site)) }
{
    let states = states_at(map.states.as_slice(), agent, site);
    let bonds = bonds_at(map.bonds.as_slice(), agent, site);
    write_found(sig, agent, site, states, bonds, out)
}

// The line of a site, where something was found there.
fn write_found(
    sig: &Signature,
    agent: AgentType,
    site: SiteNo,
    states: &[StateSeen],
    bonds: &[Bond],
    out: &mut Vec<u8>,
) -> Result<(), NoMemory>
    ensures { OnOk result (out.new.items ≡ out.old.items ++ all_lines (site_lines sig.now agent site states.now bonds.now)) }
{
    if states.is_empty() && bonds.is_empty() {
        return Ok(());
    }
    out.push(b' ')?;
    write_type(sig, agent, out)?;
    out.push(b'.')?;
    write_site(sig, agent, site, out)?;
    write_states(sig, states, out)?;
    write_partners(sig, bonds, out)?;
    out.push(b'\n')?;
    Ok(())
}

// The states in braces.
fn write_states(sig: &Signature, states: &[StateSeen], out: &mut Vec<u8>) -> Result<(), NoMemory>
    ensures { OnOk result (out.new.items ≡ out.old.items ++ states_text sig.now states.now) }
{
    if states.is_empty() {
        return Ok(());
    }
    out.push(b'{')?;
    write_spaced_states(sig, states, out)?;
    out.push(b'}')?;
    Ok(())
}

fn write_spaced_states(
    sig: &Signature,
    states: &[StateSeen],
    out: &mut Vec<u8>,
) -> Result<(), NoMemory>
    ensures { OnOk result (out.new.items ≡ out.old.items ++ joined (codes " ") (map (state_text sig.now) states.now)) }
{
    for k in 0..states.len() {
        write_between(k > 0, b" ", out)?;
        let seen = &states[k];
        write_state(sig, seen.a, seen.x, seen.u, out)?;
    }
    Ok(())
}

// The partners in brackets.
fn write_partners(sig: &Signature, bonds: &[Bond], out: &mut Vec<u8>) -> Result<(), NoMemory>
    ensures { OnOk result (out.new.items ≡ out.old.items ++ partners_text sig.now bonds.now) }
{
    if bonds.is_empty() {
        return Ok(());
    }
    out.push(b'[')?;
    write_spaced_partners(sig, bonds, out)?;
    out.push(b']')?;
    Ok(())
}

fn write_spaced_partners(sig: &Signature, bonds: &[Bond], out: &mut Vec<u8>) -> Result<(), NoMemory>
    ensures { OnOk result (out.new.items ≡ out.old.items ++ joined (codes " ") (map (partner_text sig.now) bonds.now)) }
{
    for k in 0..bonds.len() {
        write_between(k > 0, b" ", out)?;
        write_partner(sig, &bonds[k], out)?;
    }
    Ok(())
}

// `site.Type`
fn write_partner(sig: &Signature, bond: &Bond, out: &mut Vec<u8>) -> Result<(), NoMemory>
    ensures { OnOk result (out.new.items ≡ out.old.items ++ partner_text sig.now bond.now) }
{
    write_site(sig, bond.b, bond.y, out)?;
    out.push(b'.')?;
    write_type(sig, bond.b, out)
}

// ---- what a map has at one site

// The states at a site: those behind all that come before it, up to the first that comes behind it.
fn states_at(states: &[StateSeen], agent: AgentType, site: SiteNo) -> &[StateSeen]
    requires { AllPairs IsStateBelow states.now }
    ensures { result.now ≡ filter (is_state_at agent site) states.now }
{
    let from = states.partition_point(|q| comes_before(q.a, q.x, agent, site));
    let to = states.partition_point(|q| !comes_before(agent, site, q.a, q.x));
    part(states, from, to)
}

// So the bonds.
fn bonds_at(bonds: &[Bond], agent: AgentType, site: SiteNo) -> &[Bond]
    requires { AllPairs IsBondBelow bonds.now }
    ensures { result.now ≡ filter (is_bond_at agent site) bonds.now }
{
    let from = bonds.partition_point(|p| comes_before(p.a, p.x, agent, site));
    let to = bonds.partition_point(|p| !comes_before(agent, site, p.a, p.x));
    part(bonds, from, to)
}

// The elements from one place up to another.
fn part<T>(list: &[T], from: usize, to: usize) -> &[T]
    requires ordered { from ≤ to }
    requires within { to ≤ length list.now }
    ensures { result.now ≡ slice_range list.now from to }
{
    &list[from..to]
}

// Whether a site comes before another.
fn comes_before(a: AgentType, x: SiteNo, b: AgentType, y: SiteNo) -> bool
    ensures { result ≡ comes_before a x b y }
{
    a < b || (a == b && x < y)
}
