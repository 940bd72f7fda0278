// The sites of left nodes that a rule mentions.
ghost use Rattle.std.specs.Prelude.{◌≡◌, ◌<◌, length, IfOk};
ghost use Rattle.kasa_graph.specs.Pattern.{HasNodeSite};
ghost use Rattle.kasa_rules.specs.Rule.{IsRuleOver};
ghost use Rattle.kasa_choose.specs.Across.{is_further as is_another, further_sites as sites_but};

use crate::views::mentions;
use kasa_graph::Signature;
use kasa_num::{NoMemory, NodeNo, SiteNo};
use kasa_rules::Rule;
use std::alloc::Global;

// The site is another than this one, and the left node mentions it.
fn is_further(rule: &Rule, node: NodeNo, but: SiteNo, site: SiteNo) -> bool
    requires { HasNodeSite rule.now.left node site }
    ensures { result ≡ is_another rule.now node but site }
{
    site != but && mentions(rule, node, site)
}

// The sites that a left node mentions, in order, but for one.
pub(crate) fn further_sites(
    alloc: Global,
    sig: &Signature,
    rule: &Rule,
    node: NodeNo,
    but: SiteNo,
) -> Result<Vec<SiteNo>, NoMemory>
    requires node { node < length rule.now.left }
    requires over { IsRuleOver sig.now rule.now }
    ensures { IfOk result (λ sites. sites.items ≡ sites_but sig.now rule.now node but) }
{
    let mut sites = Vec::new(alloc);
    for number in 0..sig.sites(rule.left().agent(node)) {
        let site = SiteNo(number as u8);
        if is_further(rule, node, but, site) {
            sites.push(site)?;
        }
    }
    Ok(sites)
}
