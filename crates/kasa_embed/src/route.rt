// Routes over the bonds of a pattern: how the cell of a node is found from the cell of the first one.
ghost use Rattle.std.specs.Prelude.{◌≡◌, ℕ, ◌<◌, ◌≤◌, length, IfSome, IfNone};
ghost use Rattle.kasa_graph.specs.declared.pattern.LinkTest.TheVariants.{To};
ghost use Rattle.kasa_graph.specs.Pattern.{link_test};
ghost use Rattle.kasa_embed.specs.Connected.{AreBound, IsConnected};
ghost use Rattle.kasa_embed.specs.Route.{IsRoute, IsNear, AreRoutes, end_of, neighbour_of};

use arrayvec::ArrayVec;
use kasa_graph::{LinkTest, Mixture, Pattern};
use kasa_num::{NodeNo, SiteNo};

/// The most nodes of a pattern whose embeddings are searched.
pub const MOST_NODES: usize = 3;

/// The bonds from the first node of a pattern to another node, by the sites that they leave from.
#[derive(Clone, Copy, Debug, Default)]
pub enum Route {
    /// The first node itself.
    #[default]
    Here,
    /// One bond, from a site of the first node.
    Over(SiteNo),
    /// A bond from a site of the first node, and then one from a site of the node that it leads to.
    OverTwo(SiteNo, SiteNo),
}

/// The routes to the nodes, in order. They take no memory.
pub type Routes = ArrayVec<Route, MOST_NODES>;

// The cell that a site is bound to.
fn neighbour(mixture: &Mixture, cell: u32, site: SiteNo) -> Option<u32>
    ensures { result ≡ neighbour_of mixture.now cell site }
{
    match mixture.partner(cell, site) {
        Some((neighbour, _)) => Some(neighbour),
        None => None,
    }
}

impl Route {
    /// The cell that the route leads to where the first node lies on a cell; none where it comes to a free site.
    pub fn end(self, mixture: &Mixture, first: u32) -> Option<u32>
        ensures { result ≡ end_of mixture.now first self }
    {
        match self {
            Route::Here => Some(first),
            Route::Over(site) => neighbour(mixture, first, site),
            Route::OverTwo(site, next) => {
                let middle = neighbour(mixture, first, site)?;
                neighbour(mixture, middle, next)
            }
        }
    }
}

// A site of one node that has a bond to another node.
fn bond(pattern: &Pattern, from: NodeNo, to: NodeNo) -> Option<SiteNo>
    requires { to < length pattern.now }
    ensures found { IfSome result (λ s. (t : ℕ) × (link_test pattern.now from s ≡ To to t)) }
    ensures none { IfNone result (¬ AreBound pattern.now from to) }
{
    for tests in pattern.site_tests(to) {
        if let LinkTest::To(node, site) = tests.link {
            if node == from {
                return Some(site);
            }
        }
    }
    None
}

// The route to a node over a further node.
fn route_over(pattern: &Pattern, middle: NodeNo, node: NodeNo) -> Option<Route>
    requires middle { middle < length pattern.now }
    requires node { node < length pattern.now }
    ensures found { IfSome result (λ route. IsRoute pattern.now node route) }
    ensures none { IfNone result (AreBound pattern.now 0 middle → ¬ AreBound pattern.now middle node) }
{
    let site = bond(pattern, NodeNo(0), middle)?;
    let next = bond(pattern, middle, node)?;
    Some(Route::OverTwo(site, next))
}

/// The route to a node over one bond or two, none where there is no such route.
pub fn route_to(pattern: &Pattern, node: NodeNo) -> Option<Route>
    requires node { node < length pattern.now }
    requires few { length pattern.now ≤ 3 }
    ensures found { IfSome result (λ route. IsRoute pattern.now node route) }
    ensures none { IfNone result (¬ IsNear pattern.now node) }
{
    if let Some(site) = bond(pattern, NodeNo(0), node) {
        return Some(Route::Over(site));
    }
    for middle in 1..pattern.nodes() {
        if let Some(route) = route_over(pattern, NodeNo(middle as u16), node) {
            return Some(route);
        }
    }
    None
}

/// The routes to all nodes of a connected pattern of 1 to 3 nodes.
pub fn routes_of(pattern: &Pattern) -> Routes
    requires some { 0 < length pattern.now }
    requires few { length pattern.now ≤ 3 }
    requires connected { IsConnected pattern.now }
    ensures { AreRoutes pattern.now result.items }
{
    let mut routes = ArrayVec::new();
    routes.push(Route::Here);
    for node in 1..pattern.nodes() {
        let Some(route) = route_to(pattern, NodeNo(node as u16)) else {
            unreachable!();
        };
        routes.push(route);
    }
    routes
}
