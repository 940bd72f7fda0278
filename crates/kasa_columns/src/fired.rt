// How the columns of a root that show some local states can come out of a firing.
ghost use Rattle.std.specs.Prelude.{◌≡◌, ◌↔◌, ◌⊎◌, ℕ, ◌<◌, ◌≤◌, ◌∷◌, length, Some, slice_get, IsTrue, IfOk};
ghost use Rattle.kasa_graph.specs.Lists.{Has};
ghost use Rattle.kasa_graph.specs.Pattern.{HasNodeSite};
ghost use Rattle.kasa_rules.specs.Rule.{IsRuleOver};
ghost use Rattle.kasa_pre.specs.declared.FreedBy.{FreedBy};
ghost use Rattle.kasa_pre.specs.Asked.{StandExists, StandsExist};
ghost use Rattle.kasa_families.specs.declared.shape.NodeSite.{NodeSite};
ghost use Rattle.kasa_columns.specs.Comes.{Outcome as OutcomeParts, ComesOut, IsSource, FreesToo, kept_before, freed_before};
ghost use Rattle.kasa_columns.specs.Outcomes.{IsTouchedPartner, IsTouchedFor, FreesBefore, ComesBefore};

use crate::written::{has_node_site, link_written, local_after};
use kasa_families::{Local, LocalLink, NodeSite};
use kasa_graph::Signature;
use kasa_num::{AgentType, NoMemory, NodeNo, SiteNo};
use kasa_pre::{FreedBy, Stand};
use kasa_rules::{Rule, touched};
use std::alloc::Global;
use std::marker::Model;

/// What the columns of a root show after a firing, and the free tests among these that its side effect made true.
#[derive(Drop)]
pub struct Outcome {
    pub locals: Vec<Local>,
    pub freed: Vec<FreedBy>,
}

impl Model for Outcome {
    ghost use Rattle.kasa_columns.specs.Comes.{Outcome as OutcomeParts};

    ghost Value = { OutcomeParts };

    ghost view = { λ o. record { locals = o.locals.items; freed = o.freed.items } };
}

/// How columns whose nodes have these stands, and which showed these local states, can come out of a firing: each shows
/// what the rule writes there, or what it showed, or is free where the rule touches a left site that its partner may be.
/// No touched site frees two.
pub fn outcomes(
    alloc: Global,
    sig: &Signature,
    rule: &Rule,
    stands: &[Stand],
    columns: &[NodeSite],
    shown: &[Local],
) -> Result<Vec<Outcome>, NoMemory>
    requires over { IsRuleOver sig.now rule.now }
    requires exist { StandsExist rule.now stands.now }
    requires nodes { (k : ℕ) (c : NodeSite) → slice_get columns.now k ≡ Some c → c.node < length stands.now }
    requires count { length shown.now ≡ length columns.now }
    requires few { length columns.now ≤ 16 }
    ensures sound { IfOk result (λ outs. (out : OutcomeParts) → Has outs.items out → ComesOut rule.now stands.now columns.now shown.now out) }
    ensures complete { IfOk result (λ outs. (out : OutcomeParts) → ComesOut rule.now stands.now columns.now shown.now out → Has outs.items out) }
{
    let mut outs = Vec::new(alloc);
    outs.push(Outcome {
        locals: Vec::new(alloc),
        freed: Vec::new(alloc),
    })?;
    for k in (0..columns.len()).rev() {
        let column = columns[k];
        let stand = stands[column.node.0 as usize];
        outs = with_column(alloc, sig, rule, &stand, column, &shown[k], outs.as_slice())?;
    }
    Ok(outs)
}

// The outcomes with one column more, in front of those of the rest.
fn with_column(
    alloc: Global,
    sig: &Signature,
    rule: &Rule,
    stand: &Stand,
    column: NodeSite,
    shown: &Local,
    rest: &[Outcome],
) -> Result<Vec<Outcome>, NoMemory>
    requires over { IsRuleOver sig.now rule.now }
    requires exists { StandExists rule.now stand.now }
    ensures { IfOk result (λ outs. (out : OutcomeParts) → Has outs.items out ↔ ComesBefore rule.now stand.now column shown.now rest.now out) }
{
    let kept = local_after(sig, rule, stand, column.site, shown);
    let freed = Local {
        state: kept.state,
        link: LocalLink::Free,
    };
    let sources = sources(alloc, sig, rule, stand, column, shown)?;
    let mut outs = Vec::with_capacity(alloc, rest.len())?;
    for out in rest {
        outs.push(kept_before(alloc, &kept, out)?)?;
        push_freed(alloc, &freed, sources.as_slice(), out, &mut outs)?;
    }
    Ok(outs)
}

// Appends an outcome for each source that frees one column more, and none of those that the outcome has.
fn push_freed(
    alloc: Global,
    freed: &Local,
    sources: &[FreedBy],
    out: &Outcome,
    outs: &mut Vec<Outcome>,
) -> Result<(), NoMemory>
    ensures { IfOk result (λ _. (more : OutcomeParts) → Has outs.new.items more ↔ (Has outs.old.items more ⊎ FreesBefore freed.now sources.now out.now more)) }
{
    for source in sources {
        if !frees_too(out.freed.as_slice(), source) {
            outs.push(freed_before(alloc, freed, source, out)?)?;
        }
    }
    Ok(())
}

// The touched site of a freed test frees one of the others.
fn frees_too(freed: &[FreedBy], source: &FreedBy) -> bool
    ensures { IsTrue result ↔ FreesToo freed.now source.now }
{
    for f in freed {
        if f.from == source.from && f.at == source.at {
            return true;
        }
    }
    false
}

// The outcome with one column more that isn't freed.
fn kept_before(alloc: Global, local: &Local, out: &Outcome) -> Result<Outcome, NoMemory>
    ensures { IfOk result (λ more. more ≡ kept_before local.now out.now) }
{
    Ok(Outcome {
        locals: before_locals(alloc, local, out.locals.as_slice())?,
        freed: Vec::from_slice(alloc, out.freed.as_slice())?,
    })
}

// The outcome with one column more, which is freed.
fn freed_before(
    alloc: Global,
    local: &Local,
    source: &FreedBy,
    out: &Outcome,
) -> Result<Outcome, NoMemory>
    ensures { IfOk result (λ more. more ≡ freed_before local.now source.now out.now) }
{
    let mut freed = Vec::with_capacity(alloc, out.freed.len() + 1)?;
    freed.push(*source)?;
    freed.extend_from_slice(out.freed.as_slice())?;
    Ok(Outcome {
        locals: before_locals(alloc, local, out.locals.as_slice())?,
        freed,
    })
}

fn before_locals(alloc: Global, first: &Local, locals: &[Local]) -> Result<Vec<Local>, NoMemory>
    ensures { IfOk result (λ all. all.items ≡ first.now ∷ locals.now) }
{
    let mut all = Vec::with_capacity(alloc, locals.len() + 1)?;
    all.push(*first)?;
    all.extend_from_slice(locals)?;
    Ok(all)
}

// The freed tests that the column can add: none where its link is written, and else one for each touched site that its
// partner may be.
fn sources(
    alloc: Global,
    sig: &Signature,
    rule: &Rule,
    stand: &Stand,
    column: NodeSite,
    shown: &Local,
) -> Result<Vec<FreedBy>, NoMemory>
    requires over { IsRuleOver sig.now rule.now }
    requires exists { StandExists rule.now stand.now }
    ensures { IfOk result (λ found. (f : FreedBy) → Has found.items f ↔ IsSource rule.now stand.now column shown.now f) }
{
    if link_written(sig, rule, stand, column.site).is_some() {
        return Ok(Vec::new(alloc));
    }
    match shown.link {
        LocalLink::Free => Ok(Vec::new(alloc)),
        LocalLink::Partner(agent, at) => touched_partners(alloc, rule, column, agent, at),
    }
}

// Each touched left site that a partner may be.
fn touched_partners(
    alloc: Global,
    rule: &Rule,
    column: NodeSite,
    agent: AgentType,
    at: SiteNo,
) -> Result<Vec<FreedBy>, NoMemory>
    ensures { IfOk result (λ found. (f : FreedBy) → Has found.items f ↔ IsTouchedFor rule.now column agent at f) }
{
    let NodeSite { node, site } = column;
    let mut found = Vec::new(alloc);
    for n in 0..rule.left().nodes() {
        let from = NodeNo(n as u16);
        if is_touched_partner(rule, agent, at, from) {
            found.push(FreedBy {
                node,
                site,
                from,
                at,
            })?;
        }
    }
    Ok(found)
}

// The site of a left node is touched, and the node has the type.
fn is_touched_partner(rule: &Rule, agent: AgentType, at: SiteNo, from: NodeNo) -> bool
    requires { from < length rule.now.left }
    ensures { IsTrue result ↔ IsTouchedPartner rule.now agent at from }
{
    rule.left().agent(from) == agent
        && has_node_site(rule.left(), from, at)
        && touched(rule, from, at)
}
