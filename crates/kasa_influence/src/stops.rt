// What a rule may stop.
ghost use Rattle.std.specs.Prelude.{◌≡◌, ◌↔◌, ℕ, ◌<◌, [], ◌∷◌, Some, IsTrue, IfOk, length};
ghost use Rattle.kasa_graph.specs.Pattern.{agent_at, link_test, HasNodeSite, IsPatternOver, IsNoBond};
ghost use Rattle.kasa_graph.specs.declared.pattern.LinkTest.TheVariants.{Any, To};
ghost use Rattle.kasa_pre.specs.declared.Stand.TheVariants.{Left};
ghost use Rattle.kasa_pre.specs.Before.{WrittenMeets};
ghost use Rattle.kasa_rules.specs.declared.rule.Fate.TheVariants.{Deleted};
ghost use Rattle.kasa_rules.specs.Rule.{end_type, fate_at};
ghost use Rattle.kasa_influence.specs.Loss.{AsksPartner, MayMiss, IsBroken};
ghost use Rattle.kasa_influence.specs.inner.Ask.{IsOne};
ghost use Rattle.kasa_influence.specs.inner.Stops.{IsTarget, BreaksAt, BreaksStateAt, BreaksLinkAt, AllowsSome, StandsAt, HasPartner, TakesAt, Takes, BreaksLeft, StopsLeft, StopsOutside, MayStop, and_one};

use crate::ask::Ask;
use crate::narrow::{narrow, narrow_to};
use kasa_families::{NodeSite, Rows};
use kasa_graph::{LinkTest, Pattern, StateTest, Test};
use kasa_num::{AgentType, NoMemory, NodeNo, SiteNo};
use kasa_pre::allowed;
use kasa_rules::{End, Fate, Rule, Written, touched_at};
use std::marker::Model;

/// A node of a left pattern, and the same node by itself.
#[derive(Drop)]
pub(crate) struct Target<'a, 'b> {
    pub left: &'a Pattern,
    pub node: NodeNo,
    pub alone: &'b Pattern,
}

impl<'a, 'b> Model for Target<'a, 'b> {
    ghost use Rattle.kasa_influence.specs.inner.Stops.{Aimed};

    ghost Value = { Aimed };

    ghost view = { λ t. record { left = t.left.now; node = t.node; alone = t.alone.now } };
}

/// Whether the rule may stop a node, at some place.
pub(crate) fn may_stop<R: Rows>(ask: &Ask<R>, target: &Target) -> Result<bool, NoMemory>
    requires { IsTarget ask.now.sig target.now }
    ensures { IfOk result (λ yes. IsTrue yes ↔ MayStop ask.now target.now) }
{
    let names_all = ask.open_sites.is_empty();
    if stops_left(ask, target)? {
        return Ok(true);
    }
    if names_all {
        return Ok(false);
    }
    stops_outside(ask, target.alone)
}

// At some left node.
fn stops_left<R: Rows>(ask: &Ask<R>, target: &Target) -> Result<bool, NoMemory>
    requires { IsTarget ask.now.sig target.now }
    ensures { IfOk result (λ yes. IsTrue yes ↔ ((n : ℕ) × StopsLeft ask.now target.now n)) }
{
    for n in 0..ask.rule.left().nodes() {
        if stops_at(ask, target, NodeNo(n as u16))? {
            return Ok(true);
        }
    }
    Ok(false)
}

// At this left node.
fn stops_at<R: Rows>(ask: &Ask<R>, target: &Target, n: NodeNo) -> Result<bool, NoMemory>
    requires target { IsTarget ask.now.sig target.now }
    requires exists { n < length ask.now.rule.left }
    ensures { IfOk result (λ yes. IsTrue yes ↔ StopsLeft ask.now target.now n) }
{
    if !has_type_of(ask.rule, n, target.alone) {
        return Ok(false);
    }
    if breaks_at(ask, target, n)? {
        return Ok(true);
    }
    takes(ask, ask.rule.left(), n, target.alone)
}

// The left node has the type of the node.
fn has_type_of(rule: &Rule, n: NodeNo, v: &Pattern) -> bool
    requires left { n < length rule.now.left }
    requires one { length v.now ≡ 1 }
    ensures { IsTrue result ↔ (agent_at rule.now.left n ≡ agent_at v.now 0) }
{
    rule.left().agent(n) == v.agent(NodeNo(0))
}

// What the rule does at this left node, on which the node can lie, breaks it.
fn breaks_at<R: Rows>(ask: &Ask<R>, target: &Target, n: NodeNo) -> Result<bool, NoMemory>
    requires target { IsTarget ask.now.sig target.now }
    requires typed { agent_at ask.now.rule.left n ≡ agent_at target.now.alone 0 }
    ensures { IfOk result (λ yes. IsTrue yes ↔ BreaksLeft ask.now target.now n) }
{
    if !is_broken(ask, target, n) {
        return Ok(false);
    }
    can_stand(ask, n, target.alone)
}

// At a node that is no left node.
fn stops_outside<R: Rows>(ask: &Ask<R>, v: &Pattern) -> Result<bool, NoMemory>
    requires { IsOne ask.now.sig v.now }
    ensures { IfOk result (λ yes. IsTrue yes ↔ StopsOutside ask.now v.now) }
{
    let g = with_node(ask, v)?;
    takes(ask, &g, NodeNo(ask.rule.left().nodes() as u16), v)
}

// The left nodes, and one of the type of the node.
fn with_node<R: Rows>(ask: &Ask<R>, v: &Pattern) -> Result<Pattern, NoMemory>
    requires { IsOne ask.now.sig v.now }
    ensures { IfOk result (λ g. g ≡ and_one ask.now.sig ask.now.rule.left v.now) }
{
    let mut g = ask.rule.left().copy_in(ask.alloc)?;
    g.add_node(ask.sig, v.agent(NodeNo(0)))?;
    Ok(g)
}

// ---- what the rule writes

// What the rule does at a left node breaks the node or a test of it.
fn is_broken<R: Rows>(ask: &Ask<R>, target: &Target, n: NodeNo) -> bool
    requires target { IsTarget ask.now.sig target.now }
    requires typed { agent_at ask.now.rule.left n ≡ agent_at target.now.alone 0 }
    ensures { IsTrue result ↔ IsBroken ask.now.rule target.now.left target.now.node
        target.now.alone n }
{
    if is_deleted(ask.rule, n) {
        return true;
    }
    for site in 0..ask.sig.sites(target.alone.agent(NodeNo(0))) {
        if breaks(ask.rule, target, n, SiteNo(site as u8)) {
            return true;
        }
    }
    false
}

fn is_deleted(rule: &Rule, n: NodeNo) -> bool
    requires { n < length rule.now.left }
    ensures { IsTrue result ↔ (fate_at rule.now n ≡ Some Deleted) }
{
    match rule.fate(n) {
        Fate::Deleted => true,
        Fate::Kept => false,
    }
}

// What it writes at a site breaks a test of the node.
fn breaks(rule: &Rule, target: &Target, n: NodeNo, site: SiteNo) -> bool
    requires here { HasNodeSite rule.now.left n site }
    requires there { HasNodeSite target.now.left target.now.node site }
    requires alone { HasNodeSite target.now.alone 0 site }
    requires unnamed { IsNoBond (link_test target.now.alone 0 site) }
    ensures { IsTrue result ↔ BreaksAt rule.now target.now n site }
{
    breaks_state(rule, target.alone, n, site) || breaks_link(rule, target, n, site)
}

// The state that it writes is another than the node's.
fn breaks_state(rule: &Rule, v: &Pattern, n: NodeNo, site: SiteNo) -> bool
    requires here { HasNodeSite rule.now.left n site }
    requires alone { HasNodeSite v.now 0 site }
    ensures { IsTrue result ↔ BreaksStateAt rule.now v.now n site }
{
    match v.state(NodeNo(0), site) {
        StateTest::Any => false,
        StateTest::Is(state) => match rule.written_state(n, site) {
            None => false,
            Some(written) => written != state,
        },
    }
}

// The link that it writes may miss the node's test.
fn breaks_link(rule: &Rule, target: &Target, n: NodeNo, site: SiteNo) -> bool
    requires here { HasNodeSite rule.now.left n site }
    requires there { HasNodeSite target.now.left target.now.node site }
    requires alone { HasNodeSite target.now.alone 0 site }
    requires unnamed { IsNoBond (link_test target.now.alone 0 site) }
    ensures { IsTrue result ↔ BreaksLinkAt rule.now target.now n site }
{
    if is_any(target.alone.link(NodeNo(0), site)) {
        return false;
    }
    match rule.written_link(n, site) {
        None => false,
        Some(written) => may_miss(rule, target, n, site, written),
    }
}

// The test asks for nothing.
fn is_any(test: LinkTest) -> bool
    ensures { IsTrue result ↔ (test ≡ Any) }
{
    matches!(test, LinkTest::Any)
}

// The written link may miss the node's test, which it does where that is a bond to a node.
fn may_miss(rule: &Rule, target: &Target, n: NodeNo, site: SiteNo, written: Written) -> bool
    requires there { HasNodeSite target.now.left target.now.node site }
    requires alone { HasNodeSite target.now.alone 0 site }
    requires unnamed { IsNoBond (link_test target.now.alone 0 site) }
    ensures { IsTrue result ↔ MayMiss rule.now target.now.left target.now.node target.now.alone n
        site written }
{
    is_bond(target.left.link(target.node, site))
        || !meets(rule, written, target.alone.link(NodeNo(0), site))
}

// The test is a bond to a node.
fn is_bond(test: LinkTest) -> bool
    ensures { IsTrue result ↔ ((m t : ℕ) × (test ≡ To m t)) }
{
    matches!(test, LinkTest::To(_, _))
}

// A written link meets a test that names no node.
fn meets(rule: &Rule, written: Written, test: LinkTest) -> bool
    requires { IsNoBond test }
    ensures { (n : ℕ) → IsTrue result ↔ WrittenMeets rule.now (Left n ∷ []) written test }
{
    match test {
        LinkTest::Any => true,
        LinkTest::Free => written == Written::Free,
        LinkTest::Bound => written != Written::Free,
        LinkTest::Partner(agent, site) => match written {
            Written::Free => false,
            Written::To(e, far) => far == site && end_has_type(rule, e, agent),
        },
        LinkTest::To(_, _) => false,
    }
}

// An end of a written bond has a type.
fn end_has_type(rule: &Rule, e: End, agent: AgentType) -> bool
    ensures { IsTrue result ↔ (end_type rule.now e ≡ Some agent) }
{
    match e {
        End::Left(n) => {
            if n.0 as usize >= rule.left().nodes() {
                return false;
            }
            rule.left().agent(n) == agent
        }
        End::Made(k) => {
            if k as usize >= rule.made() {
                return false;
            }
            rule.made_type(k) == agent
        }
    }
}

// ---- what can stand before

// The node can stand at a left node.
fn can_stand<R: Rows>(ask: &Ask<R>, n: NodeNo, v: &Pattern) -> Result<bool, NoMemory>
    requires one { IsOne ask.now.sig v.now }
    requires typed { agent_at ask.now.rule.left n ≡ agent_at v.now 0 }
    ensures { IfOk result (λ yes. IsTrue yes ↔ AllowsSome ask.now.sig ask.now.tables
        ask.now.rule.left (StandsAt v.now n)) }
{
    let mut g = ask.rule.left().copy_in(ask.alloc)?;
    if !narrow_to(ask.sig, &mut g, n, v) {
        return Ok(false);
    }
    Ok(allowed(ask.sig, ask.rows, &g))
}

// The node can stand at a node of g and have a partner that the rule takes.
fn takes<R: Rows>(ask: &Ask<R>, g: &Pattern, place: NodeNo, v: &Pattern) -> Result<bool, NoMemory>
    requires one { IsOne ask.now.sig v.now }
    requires over { IsPatternOver ask.now.sig g.now }
    requires longer { (n : ℕ) (s : ℕ) → HasNodeSite ask.now.rule.left n s → HasNodeSite g.now n s }
    requires typed { agent_at g.now place ≡ agent_at v.now 0 }
    ensures { IfOk result (λ yes. IsTrue yes ↔ Takes ask.now v.now g.now place) }
{
    for site in 0..ask.sig.sites(v.agent(NodeNo(0))) {
        if takes_at(ask, g, place, v, SiteNo(site as u8))? {
            return Ok(true);
        }
    }
    Ok(false)
}

// At a site where the node asks for a partner and the rule does nothing.
fn takes_at<R: Rows>(
    ask: &Ask<R>,
    g: &Pattern,
    place: NodeNo,
    v: &Pattern,
    site: SiteNo,
) -> Result<bool, NoMemory>
    requires one { IsOne ask.now.sig v.now }
    requires over { IsPatternOver ask.now.sig g.now }
    requires longer { (n : ℕ) (s : ℕ) → HasNodeSite ask.now.rule.left n s → HasNodeSite g.now n s }
    requires typed { agent_at g.now place ≡ agent_at v.now 0 }
    requires exists { HasNodeSite v.now 0 site }
    ensures { IfOk result (λ yes. IsTrue yes ↔ TakesAt ask.now v.now g.now place site) }
{
    if !asks_partner(v.link(NodeNo(0), site)) || touched_at(ask.rule, place, site.0 as usize) {
        return Ok(false);
    }
    for x in ask.open_sites {
        if takes_from(ask, g, place, v, site, x)? {
            return Ok(true);
        }
    }
    Ok(false)
}

// The test asks for a partner.
fn asks_partner(test: LinkTest) -> bool
    ensures { IsTrue result ↔ AsksPartner test }
{
    match test {
        LinkTest::Any | LinkTest::Free => false,
        LinkTest::Bound | LinkTest::Partner(_, _) | LinkTest::To(_, _) => true,
    }
}

// The partner is at this site.
fn takes_from<R: Rows>(
    ask: &Ask<R>,
    g: &Pattern,
    place: NodeNo,
    v: &Pattern,
    site: SiteNo,
    x: &NodeSite,
) -> Result<bool, NoMemory>
    requires one { IsOne ask.now.sig v.now }
    requires over { IsPatternOver ask.now.sig g.now }
    requires far { HasNodeSite g.now x.now.node x.now.site }
    requires typed { agent_at g.now place ≡ agent_at v.now 0 }
    requires exists { HasNodeSite v.now 0 site }
    ensures { IfOk result (λ yes. IsTrue yes ↔ AllowsSome ask.now.sig ask.now.tables g.now
        (HasPartner v.now place site x.now)) }
{
    let mut g = g.copy_in(ask.alloc)?;
    if !narrow_to(ask.sig, &mut g, place, v) {
        return Ok(false);
    }
    let bond = Test::Link(LinkTest::To(x.node, x.site));
    if !narrow(ask.sig, &mut g, place, site, bond) {
        return Ok(false);
    }
    Ok(allowed(ask.sig, ask.rows, &g))
}
