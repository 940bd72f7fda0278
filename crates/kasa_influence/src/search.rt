// The search for arrows.
ghost use Rattle.std.specs.Prelude.{◌≡◌, ◌↔◌, ◌<◌, Some, IsTrue, IfOk, AllPairs, length, slice_get};
ghost use Rattle.std.specs.Bool.{OnTrue, OnFalse};
ghost use Rattle.kasa_graph.specs.Lists.{Has};
ghost use Rattle.kasa_rules.specs.Rule.{RuleParts, IsRuleOver};
ghost use Rattle.kasa_rules.specs.Reached.{IsModel};
ghost use Rattle.kasa_families.specs.Table.{AreTables};
ghost use Rattle.kasa_influence.specs.declared.map.Arrow.{Arrow};
ghost use Rattle.kasa_influence.specs.declared.lone.Lone.{Lone};
ghost use Rattle.kasa_influence.specs.Arrows.{IsGain, IsLoss, IsArrowBelow, OthersMakeNone, OthersStopNone};
ghost use Rattle.kasa_pre.specs.Allowed.{IsAllowed, IsDead};
ghost use Rattle.kasa_pre.specs.Closed.{IsClosed};
ghost use Rattle.kasa_influence.specs.inner.Ask.{IsOne};
ghost use Rattle.kasa_influence.specs.inner.Search.{IsLone, Adds, IsGainFrom, IsLossFrom, IsGainOf, IsLossOf, IsGainAmong, IsLossAmong, target_of};
ghost use Rattle.kasa_influence.specs.inner.Stops.{IsTarget, MayStop};

use crate::ask::{Ask, open_sites};
use crate::lone::{Lone, lones};
use crate::makes::may_make;
use crate::stops::{Target, may_stop};
use crate::{Arrow, ArrowList, Arrows};
use kasa_families::Rows;
use kasa_graph::{Pattern, Signature};
use kasa_num::{NoMemory, RuleNo};
use kasa_pre::is_dead;
use kasa_rules::{Model, Rule};
use std::alloc::Global;

// The arrows that were found so far, in any order, maybe more than once.
#[derive(Drop)]
pub(crate) struct Found {
    positive: Vec<Arrow>,
    negative: Vec<Arrow>,
}

/// The arrows between the rules of a model, where tables tell which patterns can be there: a positive one for each gain,
/// a negative one for each loss. Both lists ascend. Where the tables are closed, no firing in a mixture that the model
/// reaches makes an embedding of another rule's left pattern where the positive arrow to it is left out, and none stops
/// one where the negative arrow is.
pub fn arrows<R: Rows>(alloc: Global, model: &Model, rows: &R) -> Result<Arrows, NoMemory>
    requires tables { AreTables model.now.sig (R.tables rows.now) }
    ensures positive { IfOk result (λ found. (arrow : Arrow) →
        Has found.positive arrow ↔ IsGain model.now (R.tables rows.now) arrow) }
    ensures negative { IfOk result (λ found. (arrow : Arrow) →
        Has found.negative arrow ↔ IsLoss model.now (R.tables rows.now) arrow) }
    ensures positive_ascend { IfOk result (λ found. AllPairs IsArrowBelow found.positive) }
    ensures negative_ascend { IfOk result (λ found. AllPairs IsArrowBelow found.negative) }
    ensures makes_none { IfOk result (λ found.
        IsClosed model.now (R.tables rows.now) → OthersMakeNone model.now found.positive) }
    ensures stops_none { IfOk result (λ found.
        IsClosed model.now (R.tables rows.now) → OthersStopNone model.now found.negative) }
{
    let lones = lones(alloc, model)?;
    let mut found = Found {
        positive: Vec::new(alloc),
        negative: Vec::new(alloc),
    };
    for from in 0..model.rules.as_slice().len() {
        arrows_from(
            alloc,
            model,
            rows,
            lones.as_slice(),
            RuleNo(from as u16),
            &mut found,
        )?;
    }
    Ok(Arrows {
        positive: in_order(found.positive),
        negative: in_order(found.negative),
    })
}

// The arrows in order, each once.
fn in_order(mut arrows: Vec<Arrow>) -> ArrowList
    ensures same { (arrow : Arrow) → Has result arrow ↔ Has arrows.items arrow }
    ensures ascend { AllPairs IsArrowBelow result }
{
    arrows.sort_unstable();
    arrows.dedup();
    ArrowList::new(arrows)
}

// Those of a rule.
fn arrows_from<R: Rows>(
    alloc: Global,
    model: &Model,
    rows: &R,
    lones: &[Lone],
    from: RuleNo,
    found: &mut Found,
) -> Result<(), NoMemory>
    requires tables { AreTables model.now.sig (R.tables rows.now) }
    requires exists { from < length model.now.rules }
    requires lones { (l : Lone) → Has lones.now l ↔ IsLone model.now l }
    ensures positive { IfOk result (λ _. Adds (IsGainFrom model.now (R.tables rows.now) from)
        found.old.positive.items found.new.positive.items) }
    ensures negative { IfOk result (λ _. Adds (IsLossFrom model.now (R.tables rows.now) from)
        found.old.negative.items found.new.negative.items) }
{
    let rule = &model.rules.as_slice()[from.0 as usize];
    if !is_live(&model.sig, rows, rule) {
        return Ok(());
    }
    let open_sites = open_sites(alloc, &model.sig, rule)?;
    let ask = Ask {
        alloc,
        sig: &model.sig,
        rows,
        rule,
        open_sites: open_sites.as_slice(),
    };
    try_lones(&ask, model, from, lones, found)
}

// The rule isn't dead.
fn is_live<R: Rows>(sig: &Signature, rows: &R, rule: &Rule) -> bool
    requires tables { AreTables sig.now (R.tables rows.now) }
    requires over { IsRuleOver sig.now rule.now }
    ensures alive { OnTrue result (IsAllowed sig.now (R.tables rows.now) rule.now.left) }
    ensures dead { OnFalse result (IsDead sig.now (R.tables rows.now) rule.now) }
{
    !is_dead(sig, rows, rule)
}

// Those of a rule that isn't dead, to the rules of the nodes.
fn try_lones<R: Rows>(
    ask: &Ask<R>,
    model: &Model,
    from: RuleNo,
    lones: &[Lone],
    found: &mut Found,
) -> Result<(), NoMemory>
    requires sig { ask.now.sig ≡ model.now.sig }
    requires valid { IsModel model.now }
    requires lones { (l : Lone) → Has lones.now l → IsLone model.now l }
    ensures positive { IfOk result (λ _. Adds (IsGainAmong ask.now from lones.now)
        found.old.positive.items found.new.positive.items) }
    ensures negative { IfOk result (λ _. Adds (IsLossAmong ask.now model.now from lones.now)
        found.old.negative.items found.new.negative.items) }
{
    for lone in lones {
        let left = left_of(model, lone.rule);
        try_gain(ask, from, lone, &mut found.positive)?;
        try_loss(ask, left, from, lone, &mut found.negative)?;
    }
    Ok(())
}

// The left pattern of a rule.
fn left_of(model: &Model, rule: RuleNo) -> &Pattern
    requires { rule < length model.now.rules }
    ensures { (r : RuleParts) → slice_get model.now.rules rule ≡ Some r → result.now ≡ r.left }
{
    model.rules.as_slice()[rule.0 as usize].left()
}

// The positive arrow to the rule of a node.
fn try_gain<R: Rows>(
    ask: &Ask<R>,
    from: RuleNo,
    lone: &Lone,
    found: &mut Vec<Arrow>,
) -> Result<(), NoMemory>
    requires { IsOne ask.now.sig lone.now.pattern }
    ensures { IfOk result (λ _. Adds (IsGainOf ask.now from lone.now) found.old.items
        found.new.items) }
{
    let to = lone.rule;
    if ends_with(found, from, to) {
        return Ok(());
    }
    if !may_make(ask, &lone.pattern)? {
        return Ok(());
    }
    found.push(Arrow { from, to })?;
    Ok(())
}

// The negative arrow to the rule of a node of this left pattern.
fn try_loss<R: Rows>(
    ask: &Ask<R>,
    left: &Pattern,
    from: RuleNo,
    lone: &Lone,
    found: &mut Vec<Arrow>,
) -> Result<(), NoMemory>
    requires { IsTarget ask.now.sig (target_of left.now lone.now) }
    ensures { IfOk result (λ _. Adds (IsLossOf ask.now left.now from lone.now) found.old.items
        found.new.items) }
{
    let to = lone.rule;
    if ends_with(found, from, to) {
        return Ok(());
    }
    if !stops_lone(ask, left, lone)? {
        return Ok(());
    }
    found.push(Arrow { from, to })?;
    Ok(())
}

// The rule may stop the node of the left pattern.
fn stops_lone<R: Rows>(ask: &Ask<R>, left: &Pattern, lone: &Lone) -> Result<bool, NoMemory>
    requires { IsTarget ask.now.sig (target_of left.now lone.now) }
    ensures { IfOk result (λ yes. IsTrue yes ↔ MayStop ask.now (target_of left.now lone.now)) }
{
    let target = Target {
        left,
        node: lone.node,
        alone: &lone.pattern,
    };
    may_stop(ask, &target)
}

// The arrow is the last one.
fn ends_with(found: &[Arrow], from: RuleNo, to: RuleNo) -> bool
    ensures { OnTrue result (Has found.now (record { from = from; to = to })) }
{
    match found.last() {
        None => false,
        Some(arrow) => arrow.from == from && arrow.to == to,
    }
}
