// What is asked of a rule, and the sites by which its side effect frees partners that it doesn't name.
ghost use Rattle.std.specs.Prelude.{◌≡◌, ◌↔◌, ◌⊎◌, ℕ, ◌<◌, IsTrue, IfOk, length};
ghost use Rattle.kasa_graph.specs.Pattern.{HasNodeSite};
ghost use Rattle.kasa_families.specs.declared.shape.NodeSite.{NodeSite};
ghost use Rattle.kasa_rules.specs.Rule.{IsRuleOver};
ghost use Rattle.kasa_pre.specs.Acts.{LeavesOpen};
ghost use Rattle.kasa_graph.specs.Lists.{Has};
ghost use Rattle.kasa_influence.specs.inner.Ask.{IsOpen};
ghost use Rattle.kasa_influence.specs.inner.Search.{Adds};

use kasa_families::{NodeSite, Rows};
use kasa_graph::{LinkTest, Signature};
use kasa_num::{NoMemory, NodeNo, SiteNo};
use kasa_rules::{Rule, touched};
use std::alloc::Global;
use std::marker::Model;

/// A rule that may make or stop something, its touched sites that may have any partner, and the tables that tell which
/// patterns can be there.
#[derive(Drop)]
pub(crate) struct Ask<'a, R: Rows> {
    pub alloc: Global,
    pub sig: &'a Signature,
    pub rows: &'a R,
    pub rule: &'a Rule,
    pub open_sites: &'a [NodeSite],
}

impl<'a, R: Rows> Model for Ask<'a, R> {
    ghost use Rattle.kasa_influence.specs.inner.Ask.{Asked, IsAsked};

    ghost Value = { Asked };

    ghost view = { λ s. record { sig = s.sig.now; tables = R.tables s.rows.now; rule = s.rule.now; open_sites = s.open_sites.now } };

    ghost invariant = { λ s. let a : Asked = record { sig = s.sig.now; tables = R.tables s.rows.now; rule = s.rule.now; open_sites = s.open_sites.now } in IsAsked a };
}

/// The touched sites of a rule that may have any partner.
pub(crate) fn open_sites(
    alloc: Global,
    sig: &Signature,
    rule: &Rule,
) -> Result<Vec<NodeSite>, NoMemory>
    requires { IsRuleOver sig.now rule.now }
    ensures { IfOk result (λ found. (x : NodeSite) → Has found.items x ↔ IsOpen rule.now x) }
{
    let mut found = Vec::new(alloc);
    for node in 0..rule.left().nodes() {
        push_open(sig, rule, NodeNo(node as u16), &mut found)?;
    }
    Ok(found)
}

// Those of a left node.
fn push_open(
    sig: &Signature,
    rule: &Rule,
    node: NodeNo,
    found: &mut Vec<NodeSite>,
) -> Result<(), NoMemory>
    requires over { IsRuleOver sig.now rule.now }
    requires exists { node < length rule.now.left }
    ensures { IfOk result (λ _. Adds (λ x. (x.node ≡ node) × IsOpen rule.now x) found.old.items
        found.new.items) }
{
    for site in 0..sig.sites(rule.left().agent(node)) {
        let site = SiteNo(site as u8);
        if is_open(rule, node, site) {
            found.push(NodeSite { node, site })?;
        }
    }
    Ok(())
}

// The rule touches the site, which may have any partner.
fn is_open(rule: &Rule, node: NodeNo, site: SiteNo) -> bool
    requires { HasNodeSite rule.now.left node site }
    ensures { IsTrue result ↔ IsOpen rule.now (record { node = node; site = site }) }
{
    touched(rule, node, site) && leaves_open(rule.left().link(node, site))
}

// The test doesn't rule out a partner that the pattern doesn't name.
fn leaves_open(link: LinkTest) -> bool
    ensures { IsTrue result ↔ LeavesOpen link }
{
    match link {
        LinkTest::Any | LinkTest::Bound | LinkTest::Partner(_, _) => true,
        LinkTest::Free | LinkTest::To(_, _) => false,
    }
}
