// Narrowing a pattern to what a firing asks of a pattern before it, in place.
ghost use Rattle.std.specs.Prelude.{◌≡◌, ℕ, ◌<◌, Some, length, slice_get, IsTrue, ◌↔◌};
ghost use Rattle.kasa_graph.specs.Signature.{HasSite};
ghost use Rattle.kasa_graph.specs.Meet.{HasTest};
ghost use Rattle.kasa_graph.specs.Pattern.{state_test, link_test, HasNodeSite, IsPatternOver};
ghost use Rattle.kasa_pre.specs.Before.{place_of, IsFreed, StateBefore, LinkBefore};
ghost use Rattle.kasa_pre.specs.Narrow.{IsKnownTest, Narrows};
ghost use Rattle.kasa_pre.specs.Asked.{ArePlaces, IsAsked, HasNodes, SiteBefore, NodeBefore, NodesBefore, SourceBefore, SourcesBefore, link_at, LinkAt};

use crate::written::{link_written, meets_state, written_meets};
use crate::{FreedBy, Stand};
use kasa_graph::{LinkTest, Pattern, Signature, Test};
use kasa_num::{AgentType, NodeNo, SiteNo};
use kasa_rules::Rule;

// A rule, a pattern v whose nodes have stands and places, and the tests of v that the side effect made true.
#[derive(Clone, Copy)]
pub(crate) struct Asked<'a> {
    pub sig: &'a Signature,
    pub rule: &'a Rule,
    pub v: &'a Pattern,
    pub stands: &'a [Stand],
    pub freed: &'a [FreedBy],
    pub places: &'a [Option<NodeNo>],
}

// All that is asked of g, where it is met with one most general pattern.
pub(crate) fn narrow_all(asked: &Asked, g: &mut Pattern) -> bool
    requires asked { IsAsked asked.now.sig.now asked.now.rule.now asked.now.v.now asked.now.stands.now asked.now.places.now }
    requires nodes { HasNodes asked.now.sig.now asked.now.rule.now asked.now.v.now asked.now.stands.now g.old }
    ensures { Narrows asked.now.sig.now g.old (λ h. SourcesBefore asked.now.rule.now asked.now.stands.now asked.now.freed.now h × NodesBefore asked.now.rule.now asked.now.v.now asked.now.stands.now asked.now.freed.now h) result g.new }
{
    if !narrow_sources(asked, g) {
        return false;
    }
    narrow_nodes(asked, g)
}

// The sources of the freed tests.
fn narrow_sources(asked: &Asked, g: &mut Pattern) -> bool
    requires asked { IsAsked asked.now.sig.now asked.now.rule.now asked.now.v.now asked.now.stands.now asked.now.places.now }
    requires nodes { HasNodes asked.now.sig.now asked.now.rule.now asked.now.v.now asked.now.stands.now g.old }
    ensures { Narrows asked.now.sig.now g.old (λ h. SourcesBefore asked.now.rule.now asked.now.stands.now asked.now.freed.now h) result g.new }
{
    for f in asked.freed {
        if !narrow_source(asked, f, g) {
            return false;
        }
    }
    true
}

// The source of a freed test.
fn narrow_source(asked: &Asked, f: &FreedBy, g: &mut Pattern) -> bool
    requires asked { IsAsked asked.now.sig.now asked.now.rule.now asked.now.v.now asked.now.stands.now asked.now.places.now }
    requires nodes { HasNodes asked.now.sig.now asked.now.rule.now asked.now.v.now asked.now.stands.now g.old }
    ensures { Narrows asked.now.sig.now g.old (λ h. SourceBefore asked.now.rule.now asked.now.stands.now f.now h) result g.new }
{
    match place(asked, f.node) {
        None => true,
        Some(p) => {
            if !has_site(asked.sig, g, p, f.site) {
                return false;
            }
            if !has_site(asked.sig, g, f.from, f.at) {
                return false;
            }
            let source = LinkTest::To(f.from, f.at);
            narrow(asked.sig, g, p, f.site, Test::Link(source))
        }
    }
}

// What all nodes of v ask.
fn narrow_nodes(asked: &Asked, g: &mut Pattern) -> bool
    requires asked { IsAsked asked.now.sig.now asked.now.rule.now asked.now.v.now asked.now.stands.now asked.now.places.now }
    requires nodes { HasNodes asked.now.sig.now asked.now.rule.now asked.now.v.now asked.now.stands.now g.old }
    ensures { Narrows asked.now.sig.now g.old (λ h. NodesBefore asked.now.rule.now asked.now.v.now asked.now.stands.now asked.now.freed.now h) result g.new }
{
    for node in 0..asked.v.nodes() {
        if !narrow_node(asked, NodeNo(node as u16), g) {
            return false;
        }
    }
    true
}

// What all sites of a node of v ask.
fn narrow_node(asked: &Asked, node: NodeNo, g: &mut Pattern) -> bool
    requires asked { IsAsked asked.now.sig.now asked.now.rule.now asked.now.v.now asked.now.stands.now asked.now.places.now }
    requires nodes { HasNodes asked.now.sig.now asked.now.rule.now asked.now.v.now asked.now.stands.now g.old }
    requires exists { node < length asked.now.v.now }
    ensures { Narrows asked.now.sig.now g.old (λ h. NodeBefore asked.now.rule.now asked.now.v.now asked.now.stands.now asked.now.freed.now node h) result g.new }
{
    let stand = &asked.stands[node.0 as usize];
    for site in 0..asked.sig.sites(asked.v.agent(node)) {
        if !narrow_site(asked, node, stand, SiteNo(site as u8), g) {
            return false;
        }
    }
    true
}

// What a site of a node of v asks.
fn narrow_site(asked: &Asked, node: NodeNo, stand: &Stand, site: SiteNo, g: &mut Pattern) -> bool
    requires asked { IsAsked asked.now.sig.now asked.now.rule.now asked.now.v.now asked.now.stands.now asked.now.places.now }
    requires nodes { HasNodes asked.now.sig.now asked.now.rule.now asked.now.v.now asked.now.stands.now g.old }
    requires stand { slice_get asked.now.stands.now node ≡ Some stand.now }
    requires exists { HasNodeSite asked.now.v.now node site }
    ensures { Narrows asked.now.sig.now g.old (λ h. SiteBefore asked.now.rule.now asked.now.v.now asked.now.stands.now asked.now.freed.now node stand.now site h) result g.new }
{
    if !narrow_state(asked, node, stand, site, g) {
        return false;
    }
    narrow_unfreed(asked, node, stand, site, g)
}

// The state test of v at a site.
fn narrow_state(asked: &Asked, node: NodeNo, stand: &Stand, site: SiteNo, g: &mut Pattern) -> bool
    requires asked { IsAsked asked.now.sig.now asked.now.rule.now asked.now.v.now asked.now.stands.now asked.now.places.now }
    requires nodes { HasNodes asked.now.sig.now asked.now.rule.now asked.now.v.now asked.now.stands.now g.old }
    requires stand { slice_get asked.now.stands.now node ≡ Some stand.now }
    requires exists { HasNodeSite asked.now.v.now node site }
    ensures { Narrows asked.now.sig.now g.old (λ h. StateBefore asked.now.rule.now h (place_of asked.now.rule.now asked.now.stands.now node) stand.now site (state_test asked.now.v.now node site)) result g.new }
{
    let test = asked.v.state(node, site);
    match *stand {
        Stand::Made(k) => meets_state(asked.rule.made_state(k, site), test),
        Stand::Left(n) => match asked.rule.written_state(n, site) {
            Some(state) => meets_state(Some(state), test),
            None => narrow(asked.sig, g, n, site, Test::State(test)),
        },
        Stand::Outside => match place(asked, node) {
            Some(p) => narrow(asked.sig, g, p, site, Test::State(test)),
            None => false,
        },
    }
}

// The link test of v at a site, unless the side effect made it true.
fn narrow_unfreed(asked: &Asked, node: NodeNo, stand: &Stand, site: SiteNo, g: &mut Pattern) -> bool
    requires asked { IsAsked asked.now.sig.now asked.now.rule.now asked.now.v.now asked.now.stands.now asked.now.places.now }
    requires nodes { HasNodes asked.now.sig.now asked.now.rule.now asked.now.v.now asked.now.stands.now g.old }
    requires stand { slice_get asked.now.stands.now node ≡ Some stand.now }
    requires exists { HasNodeSite asked.now.v.now node site }
    ensures { Narrows asked.now.sig.now g.old (λ h. ¬ IsFreed asked.now.freed.now node site → LinkBefore asked.now.rule.now h asked.now.stands.now (place_of asked.now.rule.now asked.now.stands.now node) stand.now site (link_test asked.now.v.now node site)) result g.new }
{
    if is_freed(asked.freed, node, site) {
        return true;
    }
    narrow_link(asked, node, stand, site, g)
}

// The link test of v at a site: what is written there meets it, or else it is asked of g.
fn narrow_link(asked: &Asked, node: NodeNo, stand: &Stand, site: SiteNo, g: &mut Pattern) -> bool
    requires asked { IsAsked asked.now.sig.now asked.now.rule.now asked.now.v.now asked.now.stands.now asked.now.places.now }
    requires nodes { HasNodes asked.now.sig.now asked.now.rule.now asked.now.v.now asked.now.stands.now g.old }
    requires stand { slice_get asked.now.stands.now node ≡ Some stand.now }
    requires exists { HasNodeSite asked.now.v.now node site }
    ensures { Narrows asked.now.sig.now g.old (λ h. LinkBefore asked.now.rule.now h asked.now.stands.now (place_of asked.now.rule.now asked.now.stands.now node) stand.now site (link_test asked.now.v.now node site)) result g.new }
{
    match link_written(asked.rule, stand, site) {
        Some(written) => {
            written_meets(asked.rule, asked.stands, written, asked.v.link(node, site))
        }
        None => narrow_link_at(asked, node, site, g),
    }
}

// A link test of v, asked of g at the place of its node.
fn narrow_link_at(asked: &Asked, node: NodeNo, site: SiteNo, g: &mut Pattern) -> bool
    requires asked { IsAsked asked.now.sig.now asked.now.rule.now asked.now.v.now asked.now.stands.now asked.now.places.now }
    requires nodes { HasNodes asked.now.sig.now asked.now.rule.now asked.now.v.now asked.now.stands.now g.old }
    requires exists { HasNodeSite asked.now.v.now node site }
    ensures { Narrows asked.now.sig.now g.old (λ h. LinkAt h (place_of asked.now.rule.now asked.now.stands.now) node site (link_test asked.now.v.now node site)) result g.new }
{
    match place(asked, node) {
        None => false,
        Some(p) => match test_at_places(asked, asked.v.link(node, site)) {
            None => false,
            Some(test) => narrow(asked.sig, g, p, site, Test::Link(test)),
        },
    }
}

// The place of a node of v, none where it has none.
fn place(asked: &Asked, node: NodeNo) -> Option<NodeNo>
    requires { ArePlaces asked.now.rule.now asked.now.stands.now asked.now.places.now }
    ensures { result ≡ place_of asked.now.rule.now asked.now.stands.now node }
{
    match asked.places.get(node.0 as usize) {
        Some(p) => *p,
        None => None,
    }
}

// A link test of v, read at the places of its nodes, none where its node has none.
fn test_at_places(asked: &Asked, test: LinkTest) -> Option<LinkTest>
    requires { ArePlaces asked.now.rule.now asked.now.stands.now asked.now.places.now }
    ensures { result ≡ link_at (place_of asked.now.rule.now asked.now.stands.now) test }
{
    match test {
        LinkTest::To(node, site) => match place(asked, node) {
            Some(p) => Some(LinkTest::To(p, site)),
            None => None,
        },
        _ => Some(test),
    }
}

// A test is listed as freed.
fn is_freed(freed: &[FreedBy], node: NodeNo, site: SiteNo) -> bool
    ensures { IsTrue result ↔ IsFreed freed.now node site }
{
    for f in freed {
        if f.node == node && f.site == site {
            return true;
        }
    }
    false
}

// A node of a pattern over the signature has the site.
fn has_site(sig: &Signature, g: &Pattern, node: NodeNo, site: SiteNo) -> bool
    requires { IsPatternOver sig.now g.now }
    ensures { IsTrue result ↔ HasNodeSite g.now node site }
{
    if node.0 as usize >= g.nodes() {
        return false;
    }
    type_has_site(sig, g.agent(node), site)
}

// A type has the site.
fn type_has_site(sig: &Signature, agent: AgentType, site: SiteNo) -> bool
    ensures { IsTrue result ↔ HasSite sig.now agent site }
{
    (site.0 as usize) < sig.sites(agent)
}

// A further test of g.
fn narrow(sig: &Signature, g: &mut Pattern, node: NodeNo, site: SiteNo, test: Test) -> bool
    requires over { IsPatternOver sig.now g.old }
    requires exists { HasNodeSite g.old node site }
    requires known { IsKnownTest sig.now g.old node site test }
    ensures { Narrows sig.now g.old (λ h. HasTest h node site test) result g.new }
{
    g.refine(node, site, test)
}
