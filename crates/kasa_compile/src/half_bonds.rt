// Bonds on the left of a rule of which one end is touched and the other isn't.
ghost use Rattle.std.specs.Prelude.{◌≡◌, List, Some, slice_get};
ghost use Rattle.kasa_graph.specs.Signature.{TypeEntry};
ghost use Rattle.kasa_compile.specs.declared.said.AgentSaid.{AgentSaid as Said};
ghost use Rattle.kasa_compile.specs.Causes.{is_touched, half_bonds_of, half_bonds};
ghost use Rattle.kasa_compile.specs.Rule.{link_asked, leads_to};
ghost use Rattle.kasa_compile.specs.BondIndex.{AreBondsOf};
ghost use Rattle.kasa_compile.specs.SidesView.{end_of};
ghost use Rattle.kasa_compile.specs.Touched.{IsPaired, LeadsToEnd, is_link_new, is_half_bond};
ghost use Rattle.kasa_compile.specs.Valid.{AreSides};

use crate::bonds::{Bonds, label_of, sites_of};
use crate::rights::link_at;
use crate::said::{AgentSaid, LinkSaid, SiteSaid};
use crate::sides::{Origin, Sides};
use kasa_num::SiteNo;

// The left link of a site leads to this agent's site.
fn leads_to(
    bonds: &Bonds,
    place: (usize, SiteNo),
    link: Option<LinkSaid>,
    origin: Origin,
    site: SiteNo,
) -> bool
    ensures { (agents : List Said) → AreBondsOf agents bonds.now → IsPaired agents link → result ≡ leads_to (link_asked agents place link) (end_of origin) site }
{
    let Some(number) = label_of(link) else {
        return false;
    };
    let (other, there) = bonds.joined_to(number, place);
    match origin {
        Origin::Left(n) => n == other && there == site,
        Origin::Made(_) => false,
    }
}

// The link on the right of a kept site differs from the one on the left.
fn is_link_new(
    sides: &Sides,
    left: &Bonds,
    right: &Bonds,
    place: (usize, SiteNo),
    from: Option<LinkSaid>,
    after: (usize, SiteNo),
    to: Option<LinkSaid>,
) -> bool
    requires left_bonds { AreBondsOf sides.now.left left.now }
    requires right_bonds { AreBondsOf sides.now.right right.now }
    requires from { IsPaired sides.now.left from }
    requires to { IsPaired sides.now.right to }
    requires other { LeadsToEnd sides.now after to }
    ensures { result ≡ is_link_new sides.now place from after to }
{
    match to {
        Some(LinkSaid::Free) => !matches!(from, Some(LinkSaid::Free)),
        Some(LinkSaid::Label(number)) => {
            let (other, there) = right.joined_to(number, after);
            !leads_to(left, place, from, sides.origin(other), there)
        }
        _ => false,
    }
}

// A site of an agent on the left is deleted with its agent, or its link is written.
fn is_touched(sides: &Sides, left: &Bonds, right: &Bonds, n: usize, site: SiteNo) -> bool
    requires known { (sig : List TypeEntry) × AreSides sig sides.now }
    requires left_bonds { AreBondsOf sides.now.left left.now }
    requires right_bonds { AreBondsOf sides.now.right right.now }
    ensures { result ≡ is_touched sides.now n site }
{
    let Some(agent) = sides.left.get(n) else {
        return false;
    };
    let Some(after) = sides.after.get(n) else {
        return false;
    };
    let Some(k) = *after else {
        return true;
    };
    let Some(other) = sides.right.get(k) else {
        return false;
    };
    let from = link_at(sites_of(agent), site);
    let to = link_at(sites_of(other), site);
    is_link_new(sides, left, right, (n, site), from, (k, site), to)
}

// A site of the n-th agent isn't touched, although its bond's other end is.
fn is_half_bond(sides: &Sides, left: &Bonds, right: &Bonds, n: usize, said: &SiteSaid) -> bool
    requires known { (sig : List TypeEntry) × AreSides sig sides.now }
    requires left_bonds { AreBondsOf sides.now.left left.now }
    requires right_bonds { AreBondsOf sides.now.right right.now }
    requires paired { IsPaired sides.now.left said.now.link }
    ensures { result ≡ is_half_bond sides.now (n, said.now.site) said.now.link }
{
    let Some(number) = label_of(said.link) else {
        return false;
    };
    let (other, there) = left.joined_to(number, (n, said.site));
    !is_touched(sides, left, right, n, said.site) && is_touched(sides, left, right, other, there)
}

// The offset of the first such site of the n-th agent.
fn half_bond_of(
    sides: &Sides,
    left: &Bonds,
    right: &Bonds,
    n: usize,
    agent: &AgentSaid,
) -> Option<u32>
    requires known { (sig : List TypeEntry) × AreSides sig sides.now }
    requires left_bonds { AreBondsOf sides.now.left left.now }
    requires right_bonds { AreBondsOf sides.now.right right.now }
    requires stands { slice_get sides.now.left n ≡ Some agent.now }
    ensures { result ≡ slice_get (half_bonds_of sides.now n agent.now) 0 }
{
    for said in sites_of(agent) {
        if is_half_bond(sides, left, right, n, said) {
            return Some(said.at);
        }
    }
    None
}

/// The offset of the first site that isn't touched, although its bond's other end is.
pub fn half_bond(sides: &Sides, left: &Bonds, right: &Bonds) -> Option<u32>
    requires known { (sig : List TypeEntry) × AreSides sig sides.now }
    requires left_bonds { AreBondsOf sides.now.left left.now }
    requires right_bonds { AreBondsOf sides.now.right right.now }
    ensures { result ≡ slice_get (half_bonds sides.now) 0 }
{
    for (n, agent) in sides.left.iter().enumerate() {
        let at = half_bond_of(sides, left, right, n, agent);
        if at.is_some() {
            return at;
        }
    }
    None
}
