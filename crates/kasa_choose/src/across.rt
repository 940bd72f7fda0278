// The plan of families across a bond: the sites that a rule mentions at both ends of a bond on its left.
ghost use Rattle.std.specs.Prelude.{◌≡◌, ◌<◌, length, map, IfOk};
ghost use Rattle.kasa_graph.specs.declared.pattern.LinkTest.TheVariants.{To};
ghost use Rattle.kasa_graph.specs.Pattern.{HasNodeSite, link_test};
ghost use Rattle.kasa_rules.specs.Rule.{IsRuleOver};
ghost use Rattle.kasa_choose.specs.Kept.{keep_all};
ghost use Rattle.kasa_choose.specs.Across.{across as family_of, over_bond, over_test, over_node, over_rule, across_plan, type_of};

use crate::bond::Bond;
use crate::planned::Planned;
use crate::sites::further_sites;
use kasa_families::Family;
use kasa_graph::{LinkTest, Signature};
use kasa_num::{AgentType, NoMemory, NodeNo, SiteNo};
use kasa_rules::{Model, Rule};
use std::alloc::Global;

// The families across a bond of a model, cut after one more than there may be.
pub(crate) fn all_across(alloc: Global, model: &Model) -> Result<Vec<Family>, NoMemory>
    ensures { IfOk result (λ families. families.items ≡ across_plan model.now) }
{
    let mut planned = Planned::new(alloc);
    for rule in model.rules.as_slice() {
        planned = add_rule(alloc, &model.sig, rule, planned)?;
    }
    Ok(planned.families())
}

// Adds those of one rule.
fn add_rule(
    alloc: Global,
    sig: &Signature,
    rule: &Rule,
    mut planned: Planned,
) -> Result<Planned, NoMemory>
    requires { IsRuleOver sig.now rule.now }
    ensures { IfOk result (λ new. new ≡ keep_all planned (over_rule sig.now rule.now)) }
{
    for number in 0..rule.left().nodes() {
        planned = add_node(alloc, sig, rule, NodeNo(number as u16), planned)?;
    }
    Ok(planned)
}

// Adds those over the bonds of one left node.
fn add_node(
    alloc: Global,
    sig: &Signature,
    rule: &Rule,
    node: NodeNo,
    mut planned: Planned,
) -> Result<Planned, NoMemory>
    requires node { node < length rule.now.left }
    requires over { IsRuleOver sig.now rule.now }
    ensures { IfOk result (λ new. new ≡ keep_all planned (over_node sig.now rule.now node)) }
{
    for number in 0..sig.sites(rule.left().agent(node)) {
        planned = add_site(alloc, sig, rule, node, SiteNo(number as u8), planned)?;
    }
    Ok(planned)
}

// Adds those over the bond at one site, where there is one to a left node.
fn add_site(
    alloc: Global,
    sig: &Signature,
    rule: &Rule,
    node: NodeNo,
    site: SiteNo,
    planned: Planned,
) -> Result<Planned, NoMemory>
    requires site { HasNodeSite rule.now.left node site }
    requires over { IsRuleOver sig.now rule.now }
    ensures { IfOk result (λ new. new ≡ keep_all planned (over_test sig.now rule.now node site (link_test rule.now.left node site))) }
{
    match rule.left().link(node, site) {
        LinkTest::To(partner, partner_site) => {
            let bond = Bond {
                node,
                site,
                partner,
                partner_site,
            };
            add_other(alloc, sig, rule, &bond, planned)
        }
        _ => Ok(planned),
    }
}

// Adds those over a bond, where it doesn't lead back to its own node.
fn add_other(
    alloc: Global,
    sig: &Signature,
    rule: &Rule,
    bond: &Bond,
    planned: Planned,
) -> Result<Planned, NoMemory>
    requires node { bond.now.node < length rule.now.left }
    requires partner { bond.now.partner < length rule.now.left }
    requires over { IsRuleOver sig.now rule.now }
    ensures { IfOk result (λ new. new ≡ keep_all planned (over_test sig.now rule.now bond.now.node bond.now.site (To bond.now.partner bond.now.partner_site))) }
{
    if bond.partner == bond.node {
        return Ok(planned);
    }
    add_bond(alloc, sig, rule, bond, planned)
}

// Adds those over a bond.
fn add_bond(
    alloc: Global,
    sig: &Signature,
    rule: &Rule,
    bond: &Bond,
    mut planned: Planned,
) -> Result<Planned, NoMemory>
    requires node { bond.now.node < length rule.now.left }
    requires partner { bond.now.partner < length rule.now.left }
    requires over { IsRuleOver sig.now rule.now }
    ensures { IfOk result (λ new. new ≡ keep_all planned (over_bond sig.now rule.now bond.now.node bond.now.site bond.now.partner bond.now.partner_site)) }
{
    let near = further_sites(alloc, sig, rule, bond.node, bond.site)?;
    let far = further_sites(alloc, sig, rule, bond.partner, bond.partner_site)?;
    for site in near.as_slice() {
        planned = add_ends(rule, bond, *site, far.as_slice(), planned)?;
    }
    Ok(planned)
}

// Adds those with one further site at the near end.
fn add_ends(
    rule: &Rule,
    bond: &Bond,
    near: SiteNo,
    far: &[SiteNo],
    mut planned: Planned,
) -> Result<Planned, NoMemory>
    requires node { bond.now.node < length rule.now.left }
    requires partner { bond.now.partner < length rule.now.left }
    ensures { IfOk result (λ new. new ≡ keep_all planned (map (family_of (type_of rule.now bond.now.node) bond.now.site near (type_of rule.now bond.now.partner) bond.now.partner_site) far.now)) }
{
    let agent = rule.left().agent(bond.node);
    let partner = rule.left().agent(bond.partner);
    for site in far {
        planned = planned.keep(across(agent, bond.site, near, partner, bond.partner_site, *site))?;
    }
    Ok(planned)
}

// The family over a bond of which each end is a type, the bond's site and a further site.
fn across(a: AgentType, x: SiteNo, p: SiteNo, b: AgentType, y: SiteNo, q: SiteNo) -> Family
    ensures { result ≡ family_of a x p b y q }
{
    let is_less = b.0 < a.0 || (b == a && (y.0 < x.0 || (y == x && q.0 < p.0)));
    if is_less {
        Family::Across {
            a: b,
            x: y,
            p: q,
            b: a,
            y: x,
            q: p,
        }
    } else {
        Family::Across { a, x, p, b, y, q }
    }
}
