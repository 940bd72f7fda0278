// Where the root of a family stands in a pattern.
ghost use Rattle.std.specs.Prelude.{◌≡◌, ℕ, ◌<◌, length, IsTrue, ◌↔◌, Some, slice_get};
ghost use Rattle.kasa_graph.specs.Lists.{Has};
ghost use Rattle.kasa_graph.specs.Pattern.{agent_at, HasNodeSite, IsPatternOver};
ghost use Rattle.kasa_families.specs.declared.shape.Bond.{Bond};
ghost use Rattle.kasa_families.specs.Family.{IsFamily, family_types, shape_of};
ghost use Rattle.kasa_families.specs.Spot.{nodes_of, root_bonds};
ghost use Rattle.kasa_pre.specs.Spots.{IsOnlySpot, IsNext, IsFollowed, AreTyped};

use kasa_families::{Bond, Family, Place, Spot, asks_are_met};
use kasa_graph::{LinkTest, Pattern, Signature, implies};
use kasa_num::{NodeNo, SiteNo};

/// The nodes of g where the root of a family stands with a given first node of its type, None where it doesn't. Bonds
/// lead from each node to the next one.
pub fn spot_from(sig: &Signature, g: &Pattern, family: &Family, node: NodeNo) -> Option<Spot>
    requires family { IsFamily sig.now family.now }
    requires over { IsPatternOver sig.now g.now }
    requires rooted { (a : ℕ) × (agent_at g.now node ≡ Some a) × (slice_get (family_types family.now) 0 ≡ Some a) }
    ensures { IsOnlySpot sig.now family.now g.now node result }
{
    let _valid_over = sig;
    if !asks_are_met(g, family, node) {
        return None;
    }
    let mut place = Place::One(node);
    for k in 0..family.root_bonds() {
        match follow(sig, g, family, k, &place) {
            None => return None,
            Some(longer) => place = longer,
        }
    }
    Some(place.spot())
}

// The place with the node to which the bond of a number leads from it, None where it leads to none.
fn follow(sig: &Signature, g: &Pattern, family: &Family, k: usize, place: &Place) -> Option<Place>
    requires family { IsFamily sig.now family.now }
    requires over { IsPatternOver sig.now g.now }
    requires typed { AreTyped g.now (shape_of family.now).types (nodes_of place.now) }
    requires few { length (nodes_of place.now) < 3 }
    requires within { k < length (root_bonds family.now) }
    ensures { (b : Bond) × (slice_get (root_bonds family.now) k ≡ Some b)
        × IsFollowed g.now (shape_of family.now).types (nodes_of place.now) b result }
{
    match family.root_bond(k) {
        None => None,
        Some(bond) => match next_node(g, family, &bond, place) {
            None => None,
            Some(m) => Some(place.with(m)),
        },
    }
}

// The node to which the bond leads.
fn next_node(g: &Pattern, family: &Family, bond: &Bond, place: &Place) -> Option<NodeNo>
    requires { (p : ℕ) → slice_get (nodes_of place.now) bond.now.first.node ≡ Some p → HasNodeSite g.now p bond.now.first.site }
    ensures { IsNext g.now (shape_of family.now).types (nodes_of place.now) bond.now result }
{
    let Some(from) = place.node(bond.first.node.0 as usize) else {
        return None;
    };
    let link = g.link(from, bond.first.site);
    match link {
        LinkTest::To(m, t) => {
            if is_next(g, family, bond, place, m, t) {
                Some(m)
            } else {
                None
            }
        }
        _ => None,
    }
}

// A node of the type at the bond's far end, bound at its site, that isn't in the place yet.
fn is_next(g: &Pattern, family: &Family, bond: &Bond, place: &Place, m: NodeNo, t: SiteNo) -> bool
    ensures { IsTrue result ↔ ((¬ Has (nodes_of place.now) m) × (t ≡ bond.now.second.site)
        × ((a : ℕ) × (slice_get (shape_of family.now).types bond.now.second.node ≡ Some a) × (agent_at g.now m ≡ Some a))) }
{
    match family.node_type(bond.second.node.0 as usize) {
        None => false,
        Some(agent) => {
            let wanted = LinkTest::Partner(agent, bond.second.site);
            !place.has(m) && implies(g, LinkTest::To(m, t), wanted)
        }
    }
}
