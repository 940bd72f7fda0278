// What a rule may make.
ghost use Rattle.std.specs.Prelude.{◌≡◌, ◌↔◌, ◌⊎◌, ℕ, ◌<◌, [], ◌∷◌, ◌++◌, List, Some, IsTrue, IfOk, is_some, length};
ghost use Rattle.kasa_graph.specs.Lists.{Has};
ghost use Rattle.kasa_graph.specs.Pattern.{HasNodeSite};
ghost use Rattle.kasa_graph.specs.declared.pattern.LinkTest.TheVariants.{Free};
ghost use Rattle.kasa_pre.specs.declared.Stand.TheVariants.{Left, Made};
ghost use Rattle.kasa_pre.specs.declared.FreedBy.{FreedBy};
ghost use Rattle.kasa_pre.specs.Before.{FitsStand, link_written, state_written, AreFreed};
ghost use Rattle.kasa_pre.specs.Asked.{StandExists, HasStandSite};
ghost use Rattle.kasa_influence.specs.Gain.{IsCreated, MeetsWritten, Makes};
ghost use Rattle.kasa_influence.specs.inner.Ask.{IsOne};
ghost use Rattle.kasa_influence.specs.inner.Makes.{MakesAt, MakesLeft, MakesCreated, MayMake, MakesFrom, CanFollow, Fits, AreFrom, source_of, IsSource, TestsWrittenAt};

use crate::ask::Ask;
use kasa_families::{NodeSite, Rows};
use kasa_graph::{LinkTest, Pattern, StateTest};
use kasa_num::{AgentType, NoMemory, NodeNo, SiteNo};
use kasa_pre::{FreedBy, Stand, allowed, pre};
use kasa_rules::{Fate, Rule};
use std::alloc::Global;

/// Whether the rule may make a node, with some stand.
pub(crate) fn may_make<R: Rows>(ask: &Ask<R>, v: &Pattern) -> Result<bool, NoMemory>
    requires { IsOne ask.now.sig v.now }
    ensures { IfOk result (λ yes. IsTrue yes ↔ MayMake ask.now v.now) }
{
    if makes_left(ask, v)? {
        return Ok(true);
    }
    if makes_created(ask, v)? {
        return Ok(true);
    }
    makes_at(ask, v, &Stand::Outside)
}

// At some left node.
fn makes_left<R: Rows>(ask: &Ask<R>, v: &Pattern) -> Result<bool, NoMemory>
    requires { IsOne ask.now.sig v.now }
    ensures { IfOk result (λ yes. IsTrue yes ↔ ((n : ℕ) × MakesLeft ask.now v.now n)) }
{
    for n in 0..ask.rule.left().nodes() {
        if makes_at(ask, v, &Stand::Left(NodeNo(n as u16)))? {
            return Ok(true);
        }
    }
    Ok(false)
}

// As some created agent.
fn makes_created<R: Rows>(ask: &Ask<R>, v: &Pattern) -> Result<bool, NoMemory>
    requires { IsOne ask.now.sig v.now }
    ensures { IfOk result (λ yes. IsTrue yes ↔ ((k : ℕ) × MakesCreated ask.now v.now k)) }
{
    for k in 0..ask.rule.made() {
        if makes_at(ask, v, &Stand::Made(k as u16))? {
            return Ok(true);
        }
    }
    Ok(false)
}

// With the stand.
fn makes_at<R: Rows>(ask: &Ask<R>, v: &Pattern, stand: &Stand) -> Result<bool, NoMemory>
    requires one { IsOne ask.now.sig v.now }
    requires exists { StandExists ask.now.rule stand.now }
    ensures { IfOk result (λ yes. IsTrue yes ↔ MakesAt ask.now v.now stand.now) }
{
    if !fits(ask.rule, stand, v.agent(NodeNo(0))) {
        return Ok(false);
    }
    makes_from(ask, v, stand, 0, &[])
}

// A node of a type may have the stand.
fn fits(rule: &Rule, stand: &Stand, agent: AgentType) -> bool
    requires { StandExists rule.now stand.now }
    ensures { IsTrue result ↔ FitsStand rule.now stand.now agent }
{
    match *stand {
        Stand::Left(n) => rule.fate(n) == Fate::Kept && rule.left().agent(n) == agent,
        Stand::Made(k) => rule.made_type(k) == agent,
        Stand::Outside => true,
    }
}

// With the listed freed tests, and any of sites from this one on.
fn makes_from<R: Rows>(
    ask: &Ask<R>,
    v: &Pattern,
    stand: &Stand,
    site: usize,
    freed: &[FreedBy],
) -> Result<bool, NoMemory>
    requires one { IsOne ask.now.sig v.now }
    requires fits { Fits ask.now.rule v.now stand.now }
    requires free { AreFreed ask.now.rule v.now (stand.now ∷ []) freed.now }
    requires below { (f : FreedBy) → Has freed.now f → f.site < site }
    ensures { IfOk result (λ yes. IsTrue yes ↔ MakesFrom ask.now v.now stand.now site freed.now) }
{
    if site >= ask.sig.sites(v.agent(NodeNo(0))) {
        return makes_with(ask, v, stand, freed);
    }
    if makes_from(ask, v, stand, site + 1, freed)? {
        return Ok(true);
    }
    let sources = sources(ask, v, stand, SiteNo(site as u8))?;
    for source in &sources {
        let longer = with_one(ask.alloc, freed, source)?;
        if makes_from(ask, v, stand, site + 1, longer.as_slice())? {
            return Ok(true);
        }
    }
    Ok(false)
}

// One freed test more.
fn with_one(alloc: Global, freed: &[FreedBy], source: &FreedBy) -> Result<Vec<FreedBy>, NoMemory>
    ensures { IfOk result (λ longer. longer.items ≡ freed.now ++ source.now ∷ []) }
{
    let mut longer = Vec::with_capacity(alloc, freed.len() + 1)?;
    longer.extend_from_slice(freed)?;
    longer.push(*source)?;
    Ok(longer)
}

// By which sites the side effect can free a site of the node.
fn sources<R: Rows>(
    ask: &Ask<R>,
    v: &Pattern,
    stand: &Stand,
    site: SiteNo,
) -> Result<Vec<FreedBy>, NoMemory>
    requires one { IsOne ask.now.sig v.now }
    requires fits { Fits ask.now.rule v.now stand.now }
    requires site { HasNodeSite v.now 0 site }
    ensures { IfOk result (λ found. (f : FreedBy) → Has found.items f ↔ IsSource ask.now.rule v.now
        stand.now site f) }
{
    if !is_free(v.link(NodeNo(0), site)) {
        return Ok(Vec::new(ask.alloc));
    }
    if writes_link(ask.rule, stand, site) {
        return Ok(Vec::new(ask.alloc));
    }
    all_sources(ask.alloc, ask.open_sites, site)
}

// The test asks for a free site.
fn is_free(test: LinkTest) -> bool
    ensures { IsTrue result ↔ (test ≡ Free) }
{
    matches!(test, LinkTest::Free)
}

// A source for each open site.
fn all_sources(
    alloc: Global,
    open_sites: &[NodeSite],
    site: SiteNo,
) -> Result<Vec<FreedBy>, NoMemory>
    ensures { IfOk result (λ found. (f : FreedBy) → Has found.items f ↔ AreFrom (λ x f. f ≡
        source_of site x) open_sites.now f) }
{
    let mut found = Vec::new(alloc);
    for x in open_sites {
        found.push(FreedBy {
            node: NodeNo(0),
            site,
            from: x.node,
            at: x.site,
        })?;
    }
    Ok(found)
}

// With just these freed tests.
fn makes_with<R: Rows>(
    ask: &Ask<R>,
    v: &Pattern,
    stand: &Stand,
    freed: &[FreedBy],
) -> Result<bool, NoMemory>
    requires one { IsOne ask.now.sig v.now }
    requires fits { Fits ask.now.rule v.now stand.now }
    requires free { AreFreed ask.now.rule v.now (stand.now ∷ []) freed.now }
    ensures { IfOk result (λ yes. IsTrue yes ↔ Makes ask.now.sig ask.now.tables ask.now.rule v.now
        stand.now freed.now) }
{
    if !is_gained(ask, v, stand, freed) {
        return Ok(false);
    }
    can_follow(ask, v, stand, freed)
}

// The node meets what the rule does there, or a test of it is freed.
fn is_gained<R: Rows>(ask: &Ask<R>, v: &Pattern, stand: &Stand, freed: &[FreedBy]) -> bool
    requires one { IsOne ask.now.sig v.now }
    requires fits { Fits ask.now.rule v.now stand.now }
    ensures { IsTrue result ↔ (MeetsWritten ask.now.rule v.now stand.now ⊎ ((f : FreedBy) × Has
        freed.now f)) }
{
    frees(freed) || meets_written(ask, v, stand)
}

// Some test is freed.
fn frees(freed: &[FreedBy]) -> bool
    ensures { IsTrue result ↔ ((f : FreedBy) × Has freed.now f) }
{
    !freed.is_empty()
}

// The tables allow a pattern that can have stood before.
fn can_follow<R: Rows>(
    ask: &Ask<R>,
    v: &Pattern,
    stand: &Stand,
    freed: &[FreedBy],
) -> Result<bool, NoMemory>
    requires one { IsOne ask.now.sig v.now }
    requires fits { Fits ask.now.rule v.now stand.now }
    requires free { AreFreed ask.now.rule v.now (stand.now ∷ []) freed.now }
    ensures { IfOk result (λ yes. IsTrue yes ↔ CanFollow ask.now v.now stand.now freed.now) }
{
    match pre(ask.alloc, ask.sig, ask.rule, v, &[*stand], freed)? {
        None => Ok(false),
        Some(g) => Ok(allowed(ask.sig, ask.rows, &g)),
    }
}

// The rule does something there that the node asks about.
fn meets_written<R: Rows>(ask: &Ask<R>, v: &Pattern, stand: &Stand) -> bool
    requires one { IsOne ask.now.sig v.now }
    requires fits { Fits ask.now.rule v.now stand.now }
    ensures { IsTrue result ↔ MeetsWritten ask.now.rule v.now stand.now }
{
    if is_created(stand) {
        return true;
    }
    for site in 0..ask.sig.sites(v.agent(NodeNo(0))) {
        if tests_written(ask.rule, v, stand, SiteNo(site as u8)) {
            return true;
        }
    }
    false
}

fn is_created(stand: &Stand) -> bool
    ensures { IsTrue result ↔ IsCreated stand.now }
{
    matches!(*stand, Stand::Made(_))
}

// The node tests a state or a link at the site, where the rule writes one.
fn tests_written(rule: &Rule, v: &Pattern, stand: &Stand, site: SiteNo) -> bool
    requires site { HasNodeSite v.now 0 site }
    requires there { HasStandSite rule.now stand.now site }
    ensures { IsTrue result ↔ TestsWrittenAt rule.now v.now stand.now site }
{
    if v.state(NodeNo(0), site) != StateTest::Any && writes_state(rule, stand, site) {
        return true;
    }
    v.link(NodeNo(0), site) != LinkTest::Any && writes_link(rule, stand, site)
}

// The rule writes a state at a site of a node with the stand.
fn writes_state(rule: &Rule, stand: &Stand, site: SiteNo) -> bool
    requires { HasStandSite rule.now stand.now site }
    ensures { result ≡ is_some (state_written rule.now stand.now site) }
{
    match *stand {
        Stand::Left(n) => rule.written_state(n, site).is_some(),
        Stand::Made(k) => rule.made_state(k, site).is_some(),
        Stand::Outside => false,
    }
}

// It writes a link there.
fn writes_link(rule: &Rule, stand: &Stand, site: SiteNo) -> bool
    requires { HasStandSite rule.now stand.now site }
    ensures { result ≡ is_some (link_written rule.now stand.now site) }
{
    match *stand {
        Stand::Left(n) => rule.written_link(n, site).is_some(),
        Stand::Made(_) => true,
        Stand::Outside => false,
    }
}
