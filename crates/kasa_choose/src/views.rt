// The plan of views: which sites of a type are looked at together.
ghost use Rattle.std.specs.Prelude.{◌≡◌, ◌≢◌, ℕ, ◌≤◌, ◌<◌, ◌⊎◌, ◌↔◌, List, [], length, Err, IsTrue, IfOk, OnOk};
ghost use Rattle.kasa_graph.specs.Lists.{Has, AllDifferent};
ghost use Rattle.kasa_graph.specs.Pattern.{HasNodeSite};
ghost use Rattle.kasa_rules.specs.Rule.{IsRuleOver};
ghost use Rattle.kasa_families.specs.declared.family.Family.{Family};
ghost use Rattle.kasa_families.specs.declared.family.Family.TheVariants.{View};
ghost use Rattle.kasa_choose.specs.Views.{all_views as views_of};
ghost use Rattle.kasa_choose.specs.ViewPlan.{AsksState, AsksLink, Mentions, IsListOf, IsSiteSet, IsWithin, AreInOrder};
ghost use Rattle.kasa_choose.specs.ViewSets.{IsSomePart, IsPartOfRule, IsMentionedPart, IsInSome, IsInNoLarger, IsViewFamily, site_lists, view_families};

use kasa_families::{Family, Sites};
use kasa_graph::{LinkTest, Signature, StateTest};
use kasa_num::{AgentType, NoMemory, NodeNo, SiteNo};
use kasa_rules::{Model, Rule};
use std::alloc::Global;
use std::collections::BTreeSet;

// Views, each a type and an ascending list of its sites, in their order.
type Views = BTreeSet<(AgentType, Vec<SiteNo>)>;

// Different sets of sites, each an ascending list.
type SiteSets = BTreeSet<Vec<SiteNo>>;

// The views of a model, ascending by type and then by sites: for each type the largest of the sets of sites that some
// left node of a rule mentions, and of those that none does; a set of more than 16 sites is cut into its 16 least and
// the rest. They are the covering classes of KaSa.
pub(crate) fn all_views(alloc: Global, model: &Model) -> Result<Vec<Family>, NoMemory>
    ensures { IfOk result (λ families. families.items ≡ views_of model.now) }
{
    let mut views = BTreeSet::new(alloc);
    for agent in 0..model.sig.types() {
        add_views(alloc, model, AgentType(agent as u16), &mut views)?;
    }
    families_of(alloc, views)
}

// The views as families, in their order.
fn families_of(alloc: Global, views: Views) -> Result<Vec<Family>, NoMemory>
    ensures same { IfOk result (λ families. families.items ≡ view_families views.keys) }
    ensures ordered { IfOk result (λ families. AreInOrder families.items) }
{
    let mut families = Vec::new(alloc);
    for (agent, sites) in views {
        families.push(Family::View {
            agent,
            sites: Sites::new(sites),
        })?;
    }
    Ok(families)
}

// Adds the views of a type.
fn add_views(
    alloc: Global,
    model: &Model,
    agent: AgentType,
    views: &mut Views,
) -> Result<(), NoMemory>
    ensures { OnOk result ((f : Family) → Has (view_families views.new.keys) f ↔ (Has (view_families views.old.keys) f ⊎ IsViewFamily model.now agent f)) }
{
    if model.sig.sites(agent) == 0 {
        views.insert((agent, Vec::new(alloc)))?;
        return Ok(());
    }
    let sets = site_sets(alloc, model, agent)?;
    add_largest(alloc, agent, &sets, views)
}

// Adds those of the sets that are not a part of another.
fn add_largest(
    alloc: Global,
    agent: AgentType,
    sets: &[Sites],
    views: &mut Views,
) -> Result<(), NoMemory>
    ensures { OnOk result ((f : Family) → Has (view_families views.new.keys) f ↔ (Has (view_families views.old.keys) f ⊎ ((sites : List ℕ) × (f ≡ View agent sites) × Has sets.now sites × IsInNoLarger sets.now sites))) }
{
    for set in sets {
        let sites = set.as_slice();
        if is_in_no_larger(sites, sets) {
            views.insert((agent, Vec::from_slice(alloc, sites)?))?;
        }
    }
    Ok(())
}

// The different sets of sites of the type: those that the left nodes mention, and the sites that none does, cut where
// they are large.
fn site_sets(alloc: Global, model: &Model, agent: AgentType) -> Result<Vec<Sites>, NoMemory>
    ensures { IfOk result (λ sets. (sites : List ℕ) → Has sets.items sites ↔ IsSiteSet model.now agent sites) }
{
    let mut sets = mentioned_sets(alloc, model, agent)?;
    let others = unmentioned_sites(alloc, model.sig.sites(agent), &sets)?;
    add_parts(alloc, &others, &mut sets)?;
    list_of(alloc, sets)
}

// The sets as lists of sites, in their order.
fn list_of(alloc: Global, sets: SiteSets) -> Result<Vec<Sites>, NoMemory>
    ensures { IfOk result (λ lists. lists.items ≡ site_lists sets.keys) }
{
    let mut lists = Vec::new(alloc);
    for sites in sets {
        lists.push(Sites::new(sites))?;
    }
    Ok(lists)
}

// The sets of sites that the left nodes of this type mention, cut where they are large.
fn mentioned_sets(alloc: Global, model: &Model, agent: AgentType) -> Result<SiteSets, NoMemory>
    ensures { IfOk result (λ sets. (sites : List ℕ) → Has (site_lists sets.keys) sites ↔ IsMentionedPart model.now agent sites) }
{
    let mut sets = BTreeSet::new(alloc);
    for rule in model.rules.as_slice() {
        add_mentioned(alloc, &model.sig, rule, agent, &mut sets)?;
    }
    Ok(sets)
}

// Adds those of one rule.
fn add_mentioned(
    alloc: Global,
    sig: &Signature,
    rule: &Rule,
    agent: AgentType,
    sets: &mut SiteSets,
) -> Result<(), NoMemory>
    requires { IsRuleOver sig.now rule.now }
    ensures { OnOk result ((sites : List ℕ) → Has (site_lists sets.new.keys) sites ↔ (Has (site_lists sets.old.keys) sites ⊎ IsPartOfRule rule.now agent sites)) }
{
    for number in 0..rule.left().nodes() {
        let node = NodeNo(number as u16);
        if rule.left().agent(node) == agent {
            let sites = mentioned_sites(alloc, sig, rule, node)?;
            add_parts(alloc, &sites, sets)?;
        }
    }
    Ok(())
}

// Adds the 16 least of the sites, and the rest of them, where there are some.
fn add_parts(alloc: Global, sites: &[SiteNo], sets: &mut SiteSets) -> Result<(), NoMemory>
    ensures { OnOk result ((part : List ℕ) → Has (site_lists sets.new.keys) part ↔ (Has (site_lists sets.old.keys) part ⊎ IsSomePart sites.now part)) }
{
    let (first, rest) = sites.split_at(sites.len().min(16));
    add_set(alloc, first, sets)?;
    add_set(alloc, rest, sets)
}

// Adds a set of sites that isn't empty.
fn add_set(alloc: Global, sites: &[SiteNo], sets: &mut SiteSets) -> Result<(), NoMemory>
    ensures { OnOk result ((set : List ℕ) → Has (site_lists sets.new.keys) set ↔ (Has (site_lists sets.old.keys) set ⊎ ((set ≡ sites.now) × (set ≢ [])))) }
{
    if !sites.is_empty() {
        sets.insert(Vec::from_slice(alloc, sites)?)?;
    }
    Ok(())
}

// The sites that a left node of the rule mentions.
fn mentioned_sites(
    alloc: Global,
    sig: &Signature,
    rule: &Rule,
    node: NodeNo,
) -> Result<Vec<SiteNo>, NoMemory>
    requires node { node < length rule.now.left }
    requires over { IsRuleOver sig.now rule.now }
    ensures { IfOk result (λ sites. IsListOf (Mentions rule.now node) sites.items) }
{
    let mut sites = Vec::new(alloc);
    for number in 0..sig.sites(rule.left().agent(node)) {
        let site = SiteNo(number as u8);
        if mentions(rule, node, site) {
            sites.push(site)?;
        }
    }
    Ok(sites)
}

// The rule tests or writes the state or the link at this site.
pub(crate) fn mentions(rule: &Rule, node: NodeNo, site: SiteNo) -> bool
    requires { HasNodeSite rule.now.left node site }
    ensures { IsTrue result ↔ Mentions rule.now node site }
{
    tests_state(rule.left().state(node, site))
        || tests_link(rule.left().link(node, site))
        || rule.written_state(node, site).is_some()
        || rule.written_link(node, site).is_some()
}

fn tests_state(test: StateTest) -> bool
    ensures { IsTrue result ↔ AsksState test }
{
    !matches!(test, StateTest::Any)
}

fn tests_link(test: LinkTest) -> bool
    ensures { IsTrue result ↔ AsksLink test }
{
    !matches!(test, LinkTest::Any)
}

// Those of the first so many sites that stand in none of the sets.
fn unmentioned_sites(alloc: Global, count: usize, sets: &SiteSets) -> Result<Vec<SiteNo>, NoMemory>
    requires { count ≤ 32 }
    ensures { IfOk result (λ sites. IsListOf (λ s. (s < count) × (¬ IsInSome (site_lists sets.now.keys) s)) sites.items) }
{
    let mut sites = Vec::new(alloc);
    for number in 0..count {
        let site = SiteNo(number as u8);
        if !is_in_some(site, sets) {
            sites.push(site)?;
        }
    }
    Ok(sites)
}

// Some set has the site.
fn is_in_some(site: SiteNo, sets: &SiteSets) -> bool
    ensures { IsTrue result ↔ IsInSome (site_lists sets.now.keys) site }
{
    for set in sets {
        if set.contains(&site) {
            return true;
        }
    }
    false
}

// Each set that has all these sites has no others.
fn is_in_no_larger(sites: &[SiteNo], sets: &[Sites]) -> bool
    ensures { IsTrue result ↔ IsInNoLarger sets.now sites.now }
{
    for set in sets {
        let others = set.as_slice();
        if is_within(sites, others) && !is_within(others, sites) {
            return false;
        }
    }
    true
}

// Each of the sites is one of the others.
fn is_within(sites: &[SiteNo], others: &[SiteNo]) -> bool
    ensures { IsTrue result ↔ IsWithin sites.now others.now }
{
    for site in sites {
        if !others.contains(site) {
            return false;
        }
    }
    true
}
