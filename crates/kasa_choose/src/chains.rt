// The plan of chains: the sites that a rule mentions at the outer nodes of two bonds of one node on its left.
ghost use Rattle.std.specs.Prelude.{◌≡◌, ◌<◌, length, map, IfOk};
ghost use Rattle.kasa_graph.specs.declared.pattern.LinkTest.TheVariants.{To};
ghost use Rattle.kasa_graph.specs.Pattern.{HasNodeSite, link_test};
ghost use Rattle.kasa_rules.specs.Rule.{IsRuleOver};
ghost use Rattle.kasa_families.specs.declared.family.Family.TheVariants.{Chain};
ghost use Rattle.kasa_choose.specs.Kept.{keep_all};
ghost use Rattle.kasa_choose.specs.Across.{type_of};
ghost use Rattle.kasa_choose.specs.Chains.{is_chain as are_in_chain, over_bonds, over_second, over_first, chains_of_node, chains_of_rule, chain_plan};

use crate::bond::Bond;
use crate::planned::Planned;
use crate::sites::further_sites;
use kasa_families::Family;
use kasa_graph::{LinkTest, Signature};
use kasa_num::{NoMemory, NodeNo, SiteNo};
use kasa_rules::{Model, Rule};
use std::alloc::Global;

// The chains of a model, cut after one more than there may be.
pub(crate) fn all_chains(alloc: Global, model: &Model) -> Result<Vec<Family>, NoMemory>
    ensures { IfOk result (λ families. families.items ≡ chain_plan model.now) }
{
    let mut planned = Planned::new(alloc);
    for rule in model.rules.as_slice() {
        planned = add_rule(alloc, &model.sig, rule, planned)?;
    }
    Ok(planned.families())
}

// Adds those of one rule.
fn add_rule(
    alloc: Global,
    sig: &Signature,
    rule: &Rule,
    mut planned: Planned,
) -> Result<Planned, NoMemory>
    requires { IsRuleOver sig.now rule.now }
    ensures { IfOk result (λ new. new ≡ keep_all planned (chains_of_rule sig.now rule.now)) }
{
    for number in 0..rule.left().nodes() {
        planned = add_node(alloc, sig, rule, NodeNo(number as u16), planned)?;
    }
    Ok(planned)
}

// Adds those whose middle node is one left node.
fn add_node(
    alloc: Global,
    sig: &Signature,
    rule: &Rule,
    node: NodeNo,
    mut planned: Planned,
) -> Result<Planned, NoMemory>
    requires node { node < length rule.now.left }
    requires over { IsRuleOver sig.now rule.now }
    ensures { IfOk result (λ new. new ≡ keep_all planned (chains_of_node sig.now rule.now node)) }
{
    for number in 0..sig.sites(rule.left().agent(node)) {
        planned = add_first(alloc, sig, rule, node, SiteNo(number as u8), planned)?;
    }
    Ok(planned)
}

// Adds those whose first bond is at one site of the middle node.
fn add_first(
    alloc: Global,
    sig: &Signature,
    rule: &Rule,
    node: NodeNo,
    site: SiteNo,
    planned: Planned,
) -> Result<Planned, NoMemory>
    requires site { HasNodeSite rule.now.left node site }
    requires over { IsRuleOver sig.now rule.now }
    ensures { IfOk result (λ new. new ≡ keep_all planned (over_first sig.now rule.now node site (link_test rule.now.left node site))) }
{
    match rule.left().link(node, site) {
        LinkTest::To(partner, partner_site) => {
            let first = Bond {
                node,
                site,
                partner,
                partner_site,
            };
            add_seconds(alloc, sig, rule, &first, planned)
        }
        _ => Ok(planned),
    }
}

// Adds those with one first bond.
fn add_seconds(
    alloc: Global,
    sig: &Signature,
    rule: &Rule,
    first: &Bond,
    mut planned: Planned,
) -> Result<Planned, NoMemory>
    requires node { first.now.node < length rule.now.left }
    requires partner { first.now.partner < length rule.now.left }
    requires over { IsRuleOver sig.now rule.now }
    ensures { IfOk result (λ new. new ≡ keep_all planned (over_first sig.now rule.now first.now.node first.now.site (To first.now.partner first.now.partner_site))) }
{
    for number in 0..sig.sites(rule.left().agent(first.node)) {
        planned = add_second(alloc, sig, rule, first, SiteNo(number as u8), planned)?;
    }
    Ok(planned)
}

// Adds those whose second bond is at one site.
fn add_second(
    alloc: Global,
    sig: &Signature,
    rule: &Rule,
    first: &Bond,
    site: SiteNo,
    planned: Planned,
) -> Result<Planned, NoMemory>
    requires site { HasNodeSite rule.now.left first.now.node site }
    requires partner { first.now.partner < length rule.now.left }
    requires over { IsRuleOver sig.now rule.now }
    ensures { IfOk result (λ new. new ≡ keep_all planned (over_second sig.now rule.now first.now.partner first.now.partner_site first.now.node first.now.site site (link_test rule.now.left first.now.node site))) }
{
    match rule.left().link(first.node, site) {
        LinkTest::To(partner, partner_site) => {
            let second = Bond {
                node: first.node,
                site,
                partner,
                partner_site,
            };
            add_two(alloc, sig, rule, first, &second, planned)
        }
        _ => Ok(planned),
    }
}

// Adds those over two bonds of one node, where they are in order and lead to two other nodes.
fn add_two(
    alloc: Global,
    sig: &Signature,
    rule: &Rule,
    first: &Bond,
    second: &Bond,
    planned: Planned,
) -> Result<Planned, NoMemory>
    requires node { first.now.node < length rule.now.left }
    requires near { first.now.partner < length rule.now.left }
    requires far { second.now.partner < length rule.now.left }
    requires over { IsRuleOver sig.now rule.now }
    ensures { IfOk result (λ new. new ≡ keep_all planned (over_second sig.now rule.now first.now.partner first.now.partner_site first.now.node first.now.site second.now.site (To second.now.partner second.now.partner_site))) }
{
    if !is_chain(first, second) {
        return Ok(planned);
    }
    add_chains(alloc, sig, rule, first, second, planned)
}

// The first site is less than the second, and the three nodes are different.
fn is_chain(first: &Bond, second: &Bond) -> bool
    ensures { result ≡ are_in_chain first.now.partner first.now.node first.now.site second.now.site second.now.partner }
{
    first.site.0 < second.site.0
        && first.partner != first.node
        && second.partner != first.node
        && first.partner != second.partner
}

// Adds those over two bonds of one node.
fn add_chains(
    alloc: Global,
    sig: &Signature,
    rule: &Rule,
    first: &Bond,
    second: &Bond,
    mut planned: Planned,
) -> Result<Planned, NoMemory>
    requires node { first.now.node < length rule.now.left }
    requires near { first.now.partner < length rule.now.left }
    requires far { second.now.partner < length rule.now.left }
    requires over { IsRuleOver sig.now rule.now }
    ensures { IfOk result (λ new. new ≡ keep_all planned (over_bonds sig.now rule.now first.now.partner first.now.partner_site first.now.node first.now.site second.now.site second.now.partner second.now.partner_site)) }
{
    let near = further_sites(alloc, sig, rule, first.partner, first.partner_site)?;
    let far = further_sites(alloc, sig, rule, second.partner, second.partner_site)?;
    for site in near.as_slice() {
        planned = add_ends(rule, first, second, *site, far.as_slice(), planned)?;
    }
    Ok(planned)
}

// Adds those with one further site at the first outer node.
fn add_ends(
    rule: &Rule,
    first: &Bond,
    second: &Bond,
    near: SiteNo,
    far: &[SiteNo],
    mut planned: Planned,
) -> Result<Planned, NoMemory>
    requires node { first.now.node < length rule.now.left }
    requires near { first.now.partner < length rule.now.left }
    requires far { second.now.partner < length rule.now.left }
    ensures { IfOk result (λ new. new ≡ keep_all planned (map (Chain (type_of rule.now first.now.partner) first.now.partner_site near (type_of rule.now first.now.node) first.now.site second.now.site (type_of rule.now second.now.partner) second.now.partner_site) far.now)) }
{
    let outer = rule.left().agent(first.partner);
    let middle = rule.left().agent(first.node);
    let other = rule.left().agent(second.partner);
    for site in far {
        let chain = Family::Chain {
            a: outer,
            x: first.partner_site,
            p: near,
            b: middle,
            y: first.site,
            z: second.site,
            c: other,
            w: second.partner_site,
            q: *site,
        };
        planned = planned.keep(chain)?;
    }
    Ok(planned)
}
