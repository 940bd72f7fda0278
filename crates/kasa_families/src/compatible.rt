// Whether a row can stand where its family's root stands.
ghost use Rattle.std.specs.Prelude.{◌≡◌, ◌≢◌, ℕ, [], ◌∷◌, Some, slice_get, IsTrue, ◌↔◌};
ghost use Rattle.std.specs.Option.{option_map_or, option_to_list};
ghost use Rattle.kasa_graph.specs.declared.pattern.LinkTest.TheVariants.{To};
ghost use Rattle.kasa_graph.specs.Pattern.{agent_at, link_test, HasNodeSite, StatesAgree, LinksAgree};
ghost use Rattle.kasa_families.specs.Local.{LocalAgrees};
ghost use Rattle.kasa_families.specs.Shape.{Nth, ColumnsAgree};
ghost use Rattle.kasa_families.specs.Family.{shape_of, family_types};
ghost use Rattle.kasa_families.specs.Compatible.{CanBeSame, CanBeDifferent, IsCompatible};
ghost use Rattle.kasa_families.specs.declared.shape.Bond.{Bond};
ghost use Rattle.kasa_families.specs.Spot.{nodes_of, led_to, led_along, root_bonds, place_of, StandsAt, HasNamedSites, AsksMet};

use crate::patterns::{link_test_of, state_test_of};
use crate::{Family, Local, NodeSite, Place, Row, Spot};
use kasa_graph::{LinkTest, Pattern, StateTest, implies};
use kasa_num::{NodeNo, SiteNo};

/// Whether a row of a family can stand in g where the family's root stands: no test of the row contradicts g's test at
/// the same site, and for a parallel family the partners that g names can be the same node, or different ones. It takes
/// no memory.
pub fn is_compatible(g: &Pattern, family: &Family, spot: &Spot, row: &Row) -> bool
    requires stands { StandsAt g.now family.now (place_of g.now family.now spot.now) }
    requires named { HasNamedSites g.now family.now }
    ensures { IsTrue result ↔ IsCompatible g.now family.now (place_of g.now family.now spot.now) row.now }
{
    let place = place_at(g, family, spot);
    let columns = family.read_columns();
    fits(g, family, &place, columns.as_slice(), row)
}

// The same at the place of the root's nodes, over the columns of the family.
pub(crate) fn fits(
    g: &Pattern,
    family: &Family,
    place: &Place,
    columns: &[NodeSite],
    row: &Row,
) -> bool
    requires stands { StandsAt g.now family.now (nodes_of place.now) }
    requires named { HasNamedSites g.now family.now }
    requires columns { columns.now ≡ (shape_of family.now).columns }
    ensures { IsTrue result ↔ IsCompatible g.now family.now (nodes_of place.now) row.now }
{
    match family {
        Family::Parallel { x, u, y, w, .. } => match *place {
            Place::One(n) => match row {
                Row::Locals(_) => false,
                Row::Same => can_be_same(g, n, *x, *u, *y, *w),
                Row::Different => can_be_different(g, n, *x, *u),
            },
            _ => false,
        },
        _ => match row {
            Row::Locals(locals) => columns_agree(g, family, place, columns, locals.as_slice()),
            _ => false,
        },
    }
}

// The nodes of g where the root stands.
pub(crate) fn place_at(g: &Pattern, family: &Family, spot: &Spot) -> Place
    requires stands { StandsAt g.now family.now (place_of g.now family.now spot.now) }
    requires named { HasNamedSites g.now family.now }
    ensures { nodes_of result ≡ place_of g.now family.now spot.now }
{
    match spot.second {
        None => Place::One(spot.first),
        Some(second) => match third(g, family, spot.first, second) {
            None => Place::Two(spot.first, second),
            Some(last) => Place::Three(spot.first, second, last),
        },
    }
}

// The node to which the second bond of the root leads, where the first two nodes are known.
fn third(g: &Pattern, family: &Family, first: NodeNo, second: NodeNo) -> Option<NodeNo>
    requires { (b : Bond) (p : ℕ) → slice_get (root_bonds family.now) 1 ≡ Some b → slice_get (first ∷ second ∷ []) b.first.node ≡ Some p → HasNodeSite g.now p b.first.site }
    ensures { option_to_list result ≡ option_map_or (λ b. led_along g.now (first ∷ second ∷ []) b) (slice_get (root_bonds family.now) 1) [] }
{
    match family.root_bond(1) {
        None => None,
        Some(bond) => match Place::Two(first, second).node(bond.first.node.0 as usize) {
            None => None,
            Some(from) => led_to(&g.link(from, bond.first.site)),
        },
    }
}

// There is a local state for each column, and none contradicts g there.
fn columns_agree(
    g: &Pattern,
    family: &Family,
    place: &Place,
    columns: &[NodeSite],
    locals: &[Local],
) -> bool
    requires stands { StandsAt g.now family.now (nodes_of place.now) }
    requires named { HasNamedSites g.now family.now }
    requires columns { columns.now ≡ (shape_of family.now).columns }
    ensures { IsTrue result ↔ ColumnsAgree g.now (nodes_of place.now) columns.now locals.now }
{
    if locals.len() != columns.len() {
        return false;
    }
    for k in 0..locals.len() {
        if !column_agrees(g, place, columns[k], locals[k]) {
            return false;
        }
    }
    true
}

/// Whether there is such a column, and the local state doesn't contradict g there. It takes no memory.
pub fn agrees_at(g: &Pattern, family: &Family, spot: &Spot, k: usize, local: Local) -> bool
    requires stands { StandsAt g.now family.now (place_of g.now family.now spot.now) }
    requires named { HasNamedSites g.now family.now }
    ensures { IsTrue result ↔ Nth (shape_of family.now).columns k (λ s. Nth (place_of g.now family.now spot.now) s.node (λ n. LocalAgrees g.now n s.site local)) }
{
    match family.column(k) {
        None => false,
        Some(at) => column_agrees(g, &place_at(g, family, spot), at, local),
    }
}

// The local state doesn't contradict g at the column.
fn column_agrees(g: &Pattern, place: &Place, at: NodeSite, local: Local) -> bool
    requires { (n : ℕ) → slice_get (nodes_of place.now) at.node ≡ Some n → HasNodeSite g.now n at.site }
    ensures { IsTrue result ↔ Nth (nodes_of place.now) at.node (λ n. LocalAgrees g.now n at.site local) }
{
    match place.node(at.node.0 as usize) {
        None => false,
        Some(node) => local_agrees(g, node, at.site, local),
    }
}

/// Whether g's tests at a node imply what the root of a family asks there of partners that aren't nodes of it: of both
/// partners for a parallel family, of none for the others. It takes no memory.
pub fn asks_are_met(g: &Pattern, family: &Family, node: NodeNo) -> bool
    requires rooted { (a : ℕ) × (agent_at g.now node ≡ Some a) × (slice_get (family_types family.now) 0 ≡ Some a) }
    requires named { HasNamedSites g.now family.now }
    ensures { IsTrue result ↔ AsksMet g.now family.now node }
{
    match family {
        Family::Parallel { x, u, b, y, w, .. } => {
            implies(g, g.link(node, *x), LinkTest::Partner(*b, *y))
                && implies(g, g.link(node, *u), LinkTest::Partner(*b, *w))
        }
        _ => true,
    }
}

// The node to which a test leads, if it leads to one.
fn led_to(link: &LinkTest) -> Option<NodeNo>
    ensures { option_to_list result ≡ led_to link.now }
{
    match *link {
        LinkTest::To(m, _) => Some(m),
        _ => None,
    }
}

fn local_agrees(g: &Pattern, node: NodeNo, site: SiteNo, local: Local) -> bool
    requires { HasNodeSite g.now node site }
    ensures { IsTrue result ↔ LocalAgrees g.now node site local }
{
    let state = state_test_of(local.state);
    let link = link_test_of(local.link);
    states_agree(&g.state(node, site), &state) && links_agree(g, &g.link(node, site), &link)
}

fn states_agree(a: &StateTest, b: &StateTest) -> bool
    ensures { IsTrue result ↔ StatesAgree a.now b.now }
{
    *a == StateTest::Any || *b == StateTest::Any || a == b
}

// Two link tests agree just where one implies the other.
fn links_agree(g: &Pattern, a: &LinkTest, b: &LinkTest) -> bool
    ensures { IsTrue result ↔ LinksAgree g.now a.now b.now }
{
    implies(g, *a, *b) || implies(g, *b, *a)
}

fn can_be_same(g: &Pattern, n: NodeNo, x: SiteNo, u: SiteNo, y: SiteNo, w: SiteNo) -> bool
    requires first { HasNodeSite g.now n x }
    requires second { HasNodeSite g.now n u }
    requires first_far { (m t : ℕ) → link_test g.now n x ≡ To m t → HasNodeSite g.now m w }
    requires second_far { (m t : ℕ) → link_test g.now n u ≡ To m t → HasNodeSite g.now m y }
    ensures { IsTrue result ↔ CanBeSame g.now n x u y w }
{
    let first = g.link(n, x);
    let second = g.link(n, u);
    is_one_node(&first, &second)
        && leads_back(g, &first, w, n, u)
        && leads_back(g, &second, y, n, x)
}

fn can_be_different(g: &Pattern, n: NodeNo, x: SiteNo, u: SiteNo) -> bool
    requires first { HasNodeSite g.now n x }
    requires second { HasNodeSite g.now n u }
    ensures { IsTrue result ↔ CanBeDifferent g.now n x u }
{
    is_two_nodes(&g.link(n, x), &g.link(n, u))
}

// Where both tests lead to nodes, they lead to one.
fn is_one_node(first: &LinkTest, second: &LinkTest) -> bool
    ensures { IsTrue result ↔ ((m k t v : ℕ) → first.now ≡ To m t → second.now ≡ To k v → m ≡ k) }
{
    match *first {
        LinkTest::To(m, _) => match *second {
            LinkTest::To(k, _) => m == k,
            _ => true,
        },
        _ => true,
    }
}

// Where both tests lead to nodes, they lead to different ones.
fn is_two_nodes(first: &LinkTest, second: &LinkTest) -> bool
    ensures { IsTrue result ↔ ((m k t v : ℕ) → first.now ≡ To m t → second.now ≡ To k v → m ≢ k) }
{
    match *first {
        LinkTest::To(m, _) => match *second {
            LinkTest::To(k, _) => m != k,
            _ => true,
        },
        _ => true,
    }
}

// Where the test leads to a node, a site of that node can have a bond to a site.
fn leads_back(g: &Pattern, link: &LinkTest, far: SiteNo, n: NodeNo, s: SiteNo) -> bool
    requires { (m t : ℕ) → link.now ≡ To m t → HasNodeSite g.now m far }
    ensures { IsTrue result ↔ ((m t : ℕ) → link.now ≡ To m t → LinksAgree g.now (link_test g.now m far) (To n s)) }
{
    match *link {
        LinkTest::To(m, _) => links_agree(g, &g.link(m, far), &LinkTest::To(n, s)),
        _ => true,
    }
}
