// Patterns that are narrowed to where a node can stand.
ghost use Rattle.std.specs.Prelude.{◌≡◌, ℕ, Some};
ghost use Rattle.kasa_graph.specs.Meet.{HasTest};
ghost use Rattle.kasa_graph.specs.Pattern.{agent_at, HasNodeSite, IsPatternOver};
ghost use Rattle.kasa_pre.specs.Narrow.{IsKnownTest, Narrows};
ghost use Rattle.kasa_influence.specs.inner.Ask.{IsOne};
ghost use Rattle.kasa_influence.specs.inner.Stops.{SiteStands, StandsAt};

use kasa_graph::{Pattern, Signature, Test};
use kasa_num::{NodeNo, SiteNo};

/// Narrows a pattern to where v, one node, can stand at one of its nodes.
pub(crate) fn narrow_to(sig: &Signature, g: &mut Pattern, place: NodeNo, v: &Pattern) -> bool
    requires over { IsPatternOver sig.now g.old }
    requires one { IsOne sig.now v.now }
    requires typed { agent_at g.old place ≡ agent_at v.now 0 }
    ensures { Narrows sig.now g.old (StandsAt v.now place) result g.new }
{
    for site in 0..sig.sites(v.agent(NodeNo(0))) {
        if !narrow_site(sig, g, place, v, SiteNo(site as u8)) {
            return false;
        }
    }
    true
}

// Narrows it to what v asks at a site.
fn narrow_site(sig: &Signature, g: &mut Pattern, place: NodeNo, v: &Pattern, site: SiteNo) -> bool
    requires over { IsPatternOver sig.now g.old }
    requires one { IsOne sig.now v.now }
    requires typed { agent_at g.old place ≡ agent_at v.now 0 }
    requires exists { HasNodeSite v.now 0 site }
    ensures { Narrows sig.now g.old (SiteStands v.now place site) result g.new }
{
    if !narrow(sig, g, place, site, Test::State(v.state(NodeNo(0), site))) {
        return false;
    }
    narrow(sig, g, place, site, Test::Link(v.link(NodeNo(0), site)))
}

/// Narrows it by a further test.
pub(crate) fn narrow(
    sig: &Signature,
    g: &mut Pattern,
    node: NodeNo,
    site: SiteNo,
    test: Test,
) -> bool
    requires over { IsPatternOver sig.now g.old }
    requires exists { HasNodeSite g.old node site }
    requires known { IsKnownTest sig.now g.old node site test }
    ensures { Narrows sig.now g.old (λ h. HasTest h node site test) result g.new }
{
    g.refine(node, site, test)
}
