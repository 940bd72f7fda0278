// What depends on a rule, the columns of a family and stands alone: worked out once before a walk over stored rows.
ghost use Rattle.std.specs.Prelude.{◌≡◌, ◌<◌, ◌≤◌, ℕ, true, [], Some, None, length, slice_get, option_map, IfOk, IfSome};
ghost use Rattle.std.specs.Bool.{OnTrue, OnFalse};
ghost use Rattle.kasa_graph.specs.Lists.{Has};
ghost use Rattle.kasa_graph.specs.Pattern.{link_test, HasNodeSite, StatesAgree, LinksAgree};
ghost use Rattle.kasa_families.specs.declared.row.LocalLink.{LocalLink};
ghost use Rattle.kasa_families.specs.declared.row.LocalLink.TheVariants.{Partner};
ghost use Rattle.kasa_families.specs.declared.row.Local.{Local};
ghost use Rattle.kasa_families.specs.declared.shape.NodeSite.{NodeSite};
ghost use Rattle.kasa_families.specs.Local.{local_state_test, local_link_test};
ghost use Rattle.kasa_rules.specs.Rule.{IsRuleOver, touched};
ghost use Rattle.kasa_pre.specs.Acts.{LeavesOpen};
ghost use Rattle.kasa_pre.specs.Asked.{StandExists, StandsExist};
ghost use Rattle.kasa_columns.specs.declared.plan.Effect.{Effect};
ghost use Rattle.kasa_columns.specs.declared.plan.Asked.{Asked};
ghost use Rattle.kasa_pre.specs.Before.{link_written};
ghost use Rattle.kasa_columns.specs.Comes.{link_shown};
ghost use Rattle.kasa_columns.specs.Forward.{StandAgrees};
ghost use Rattle.kasa_columns.specs.Outcomes.{IsTouchedPartner};
ghost use Rattle.kasa_columns.specs.Plan.{IsEffect, AreEffects, after, AreAfter, IsNoEffect, MeetsAsked, IsAskedAt, IsUnmet, AreFreeing, HasNoFreeing, IsPlan};

use crate::written::{has_node_site, link_shown, link_written, state_written};
use kasa_families::{Local, LocalLink, Locals, NodeSite};
use kasa_graph::{LinkTest, Pattern, Signature, StateTest};
use kasa_num::{NoMemory, NodeNo, SiteNo, StateNo};
use kasa_pre::Stand;
use kasa_rules::{Rule, touched};
use std::alloc::Global;

/// What a firing leaves at a column that nothing frees: the written state and the written link, where there are.
#[derive(Clone, Copy)]
pub(crate) struct Effect {
    pub(crate) state: Option<StateNo>,
    pub(crate) link: Option<LocalLink>,
}

/// What the left pattern asks at the column of a number. Its link test names no node.
#[derive(Clone, Copy)]
pub(crate) struct Asked {
    pub(crate) column: usize,
    pub(crate) state: StateTest,
    pub(crate) link: LinkTest,
}

/// How rows come out where the nodes have some stands.
#[derive(Drop)]
pub(crate) struct Plan {
    pub(crate) asked: Vec<Asked>,
    pub(crate) effects: Vec<Effect>,
    // Nothing is written at any column.
    pub(crate) is_idle: bool,
}

pub(crate) fn plan_for(
    alloc: Global,
    sig: &Signature,
    rule: &Rule,
    stands: &[Stand],
    columns: &[NodeSite],
) -> Result<Plan, NoMemory>
    requires over { IsRuleOver sig.now rule.now }
    requires exist { StandsExist rule.now stands.now }
    requires nodes { (k : ℕ) (c : NodeSite) → slice_get columns.now k ≡ Some c → c.node < length stands.now }
    ensures { IfOk result (λ plan. IsPlan rule.now stands.now columns.now plan) }
{
    let asked = all_asked(alloc, rule, stands, columns)?;
    let effects = all_effects(alloc, sig, rule, stands, columns)?;
    let is_idle = are_none(effects.as_slice());
    Ok(Plan {
        asked,
        effects,
        is_idle,
    })
}

// ---- what is written

fn all_effects(
    alloc: Global,
    sig: &Signature,
    rule: &Rule,
    stands: &[Stand],
    columns: &[NodeSite],
) -> Result<Vec<Effect>, NoMemory>
    requires over { IsRuleOver sig.now rule.now }
    requires exist { StandsExist rule.now stands.now }
    requires nodes { (k : ℕ) (c : NodeSite) → slice_get columns.now k ≡ Some c → c.node < length stands.now }
    ensures { IfOk result (λ effects. AreEffects rule.now stands.now columns.now effects.items) }
{
    let mut effects = Vec::with_capacity(alloc, columns.len())?;
    for k in 0..columns.len() {
        let column = columns[k];
        let stand = stands[column.node.0 as usize];
        let state: Option<StateNo> = state_written(sig, rule, &stand, column.site);
        let link: Option<LocalLink> = link_left(sig, rule, &stand, column.site);
        effects.push(Effect { state, link })?;
    }
    Ok(effects)
}

// A written link, as it is shown.
fn link_left(sig: &Signature, rule: &Rule, stand: &Stand, site: SiteNo) -> Option<LocalLink>
    requires over { IsRuleOver sig.now rule.now }
    requires exists { StandExists rule.now stand.now }
    ensures { result ≡ option_map (link_shown rule.now) (link_written rule.now stand.now site) }
{
    match link_written(sig, rule, stand, site) {
        Some(written) => Some(link_shown(rule, written)),
        None => None,
    }
}

fn are_none(effects: &[Effect]) -> bool
    ensures { OnTrue result ((k : ℕ) (e : Effect) → slice_get effects.now k ≡ Some e → IsNoEffect e) }
{
    for effect in effects {
        if effect.state.is_some() || effect.link.is_some() {
            return false;
        }
    }
    true
}

/// The local states of a row that comes out where nothing is freed. It takes no memory.
pub(crate) fn kept(alloc: Global, effects: &[Effect], shown: &[Local]) -> Locals
    requires few { length shown.now ≤ 16 }
    requires count { length effects.now ≡ length shown.now }
    ensures count { length result ≡ length shown.now }
    ensures after { AreAfter effects.now shown.now result }
{
    let mut locals = [Local::default(); 16];
    for k in 0..shown.len() {
        locals[k] = after(&effects[k], &shown[k]);
    }
    Locals::new(alloc, &locals[..shown.len()])
}

fn after(effect: &Effect, local: &Local) -> Local
    ensures { result ≡ after effect.now local.now }
{
    let state = match effect.state {
        Some(state) => Some(state),
        None => local.state,
    };
    let link = match effect.link {
        Some(link) => link,
        None => local.link,
    };
    Local { state, link }
}

// ---- what is asked

/// What the left pattern asks at the columns, where it asks something.
pub(crate) fn all_asked(
    alloc: Global,
    rule: &Rule,
    stands: &[Stand],
    columns: &[NodeSite],
) -> Result<Vec<Asked>, NoMemory>
    requires exist { StandsExist rule.now stands.now }
    requires nodes { (k : ℕ) (c : NodeSite) → slice_get columns.now k ≡ Some c → c.node < length stands.now }
    ensures { IfOk result (λ asked. (q : Asked) → Has asked.items q → IsAskedAt rule.now stands.now columns.now q) }
{
    let mut asked = Vec::new(alloc);
    for k in 0..columns.len() {
        let column = columns[k];
        let stand = stands[column.node.0 as usize];
        if let Some(ask) = asked_at(rule, &stand, k, column.site) {
            let state: StateTest = ask.state;
            let link: LinkTest = ask.link;
            asked.push(Asked {
                column: k,
                state,
                link,
            })?;
        }
    }
    Ok(asked)
}

fn asked_at(rule: &Rule, stand: &Stand, column: usize, site: SiteNo) -> Option<Asked>
    requires exists { StandExists rule.now stand.now }
    ensures column { IfSome result (λ q. q.column ≡ column) }
    ensures asked { IfSome result (λ q. (l : Local) → StandAgrees rule.now site l stand.now → MeetsAsked q l) }
{
    match *stand {
        Stand::Left(n) => {
            if !has_node_site(rule.left(), n, site) {
                return None;
            }
            let state = rule.left().state(n, site);
            let link = link_asked(rule.left(), rule.left().link(n, site));
            if state == StateTest::Any && link == LinkTest::Any {
                return None;
            }
            Some(Asked {
                column,
                state,
                link,
            })
        }
        _ => None,
    }
}

// A link test in which the type stands for a node.
fn link_asked(left: &Pattern, link: LinkTest) -> LinkTest
    ensures { (l : LocalLink) → LinksAgree left.now link (local_link_test l) → LinksAgree [] result (local_link_test l) }
{
    match link {
        LinkTest::To(m, site) => {
            if (m.0 as usize) < left.nodes() {
                LinkTest::Partner(left.agent(m), site)
            } else {
                LinkTest::Any
            }
        }
        other => other,
    }
}

/// Whether no local state contradicts what is asked. It takes no memory.
pub(crate) fn meets_all(asked: &[Asked], shown: &[Local]) -> bool
    ensures { OnFalse result (IsUnmet asked.now shown.now) }
{
    for ask in asked {
        if let Some(local) = shown.get(ask.column)
            && !meets(ask, local)
        {
            return false;
        }
    }
    true
}

fn meets(asked: &Asked, local: &Local) -> bool
    ensures { OnFalse result (¬ MeetsAsked asked.now local.now) }
{
    meets_state(asked.state, local.state) && meets_link(asked.link, local.link)
}

fn meets_state(test: StateTest, state: Option<StateNo>) -> bool
    ensures { OnFalse result (¬ StatesAgree test (local_state_test state)) }
{
    match test {
        StateTest::Any => true,
        StateTest::Is(u) => match state {
            None => true,
            Some(w) => u == w,
        },
    }
}

fn meets_link(test: LinkTest, link: LocalLink) -> bool
    ensures { OnFalse result (¬ LinksAgree [] test (local_link_test link)) }
{
    match link {
        LocalLink::Free => match test {
            LinkTest::Any | LinkTest::Free => true,
            _ => false,
        },
        LocalLink::Partner(b, y) => match test {
            LinkTest::Free => false,
            LinkTest::Partner(a, x) => a == b && x == y,
            _ => true,
        },
    }
}

// ---- what side effects free

/// The links of all partners that a side effect of the rule can take away, as other agents show them.
pub(crate) fn freeing_links(
    alloc: Global,
    sig: &Signature,
    rule: &Rule,
) -> Result<Vec<LocalLink>, NoMemory>
    requires { IsRuleOver sig.now rule.now }
    ensures { IfOk result (λ links. AreFreeing rule.now links.items) }
{
    let mut links = Vec::new(alloc);
    for n in 0..rule.left().nodes() {
        push_freeing(sig, rule, NodeNo(n as u16), &mut links)?;
    }
    Ok(links)
}

// Those at the sites of one left node.
fn push_freeing(
    sig: &Signature,
    rule: &Rule,
    node: NodeNo,
    links: &mut Vec<LocalLink>,
) -> Result<(), NoMemory>
    requires over { IsRuleOver sig.now rule.now }
    requires node { node < length rule.now.left }
    ensures keeps { IfOk result (λ _. (link : LocalLink) → Has links.old.items link → Has links.new.items link) }
    ensures frees { IfOk result (λ _. (a y : ℕ) → IsTouchedPartner rule.now a y node → LeavesOpen (link_test rule.now.left node y) → Has links.new.items (Partner a y)) }
{
    let agent = rule.left().agent(node);
    for y in 0..sig.sites(agent) {
        let site = SiteNo(y as u8);
        if frees(rule, node, site) {
            links.push(LocalLink::Partner(agent, site))?;
        }
    }
    Ok(())
}

// The site of the left node is touched, and its test leaves the partner open.
fn frees(rule: &Rule, node: NodeNo, site: SiteNo) -> bool
    requires { node < length rule.now.left }
    ensures { OnFalse result (HasNodeSite rule.now.left node site → touched rule.now node site ≡ true → ¬ LeavesOpen (link_test rule.now.left node site)) }
{
    has_node_site(rule.left(), node, site)
        && touched(rule, node, site)
        && leaves_open(rule.left().link(node, site))
}

fn leaves_open(link: LinkTest) -> bool
    ensures { OnFalse result (¬ LeavesOpen link) }
{
    match link {
        LinkTest::Any | LinkTest::Bound | LinkTest::Partner(_, _) => true,
        _ => false,
    }
}

/// Whether a column where no link is written has one of the links. It takes no memory.
pub(crate) fn may_be_freed(links: &[LocalLink], effects: &[Effect], shown: &[Local]) -> bool
    requires count { length effects.now ≡ length shown.now }
    ensures { OnFalse result (HasNoFreeing links.now effects.now shown.now) }
{
    if links.is_empty() {
        return false;
    }
    for k in 0..shown.len() {
        if effects[k].link.is_none() && has_link(links, &shown[k].link) {
            return true;
        }
    }
    false
}

fn has_link(links: &[LocalLink], link: &LocalLink) -> bool
    ensures { OnFalse result (¬ Has links.now link.now) }
{
    for other in links {
        if other == link {
            return true;
        }
    }
    false
}
