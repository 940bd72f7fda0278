// The search for the rows of a parallel family that a rule yields: from each stand of the root's agent along its bonds.
ghost use Rattle.std.specs.Prelude.{◌≡◌, ◌↔◌, ℕ, ◌≤◌, ◌⊎◌, [], ◌∷◌, length, IsTrue, IfOk};
ghost use Rattle.std.specs.Bool.{OnTrue, OnFalse};
ghost use Rattle.kasa_graph.specs.Lists.{Has};
ghost use Rattle.kasa_graph.specs.Pattern.{IsPatternOver};
ghost use Rattle.kasa_families.specs.declared.row.Row.{Row};
ghost use Rattle.kasa_families.specs.declared.row.Row.TheVariants.{Same, Different};
ghost use Rattle.kasa_families.specs.Row.{IsRow};
ghost use Rattle.kasa_families.specs.Pattern.{row_pattern};
ghost use Rattle.kasa_pre.specs.declared.Stand.{Stand};
ghost use Rattle.kasa_pre.specs.Asked.{StandExists, StandsExist};
ghost use Rattle.kasa_pre.specs.Before.{FitsStand};
ghost use Rattle.kasa_columns.specs.Forward.{YieldsAt};
ghost use Rattle.kasa_columns.specs.Results.{IsResult};
ghost use Rattle.kasa_parallel.specs.Partners.{WritesPartner, YieldsWith};
ghost use Rattle.kasa_parallel.specs.Sought.{IsSought, IsKnownRow, IsRootStand, AreSought};

use crate::partner::{is_partner, partners, writes_partner};
use kasa_columns::stands_of_type;
use kasa_families::{Family, Row, Rows, pattern};
use kasa_graph::{Pattern, Signature};
use kasa_num::{AgentType, FamilyNo, NoMemory, SiteNo};
use kasa_pre::{Stand, allowed, pre};
use kasa_rules::Rule;
use std::alloc::Global;
use std::marker::Model;

/// Which rows are asked for: those of a parallel family that a rule yields from tables, or of these the new ones alone.
#[derive(Drop)]
pub(crate) struct Search<'a, R: Rows> {
    pub alloc: Global,
    pub sig: &'a Signature,
    pub rows: &'a R,
    pub rule: &'a Rule,
    pub number: FamilyNo,
    pub family: &'a Family,
    pub a: AgentType,
    pub x: SiteNo,
    pub u: SiteNo,
    pub b: AgentType,
    pub y: SiteNo,
    pub w: SiteNo,
    pub only_new: bool,
}

impl<'a, R: Rows> Model for Search<'a, R> {
    ghost use Rattle.kasa_parallel.specs.Sought.{ParallelAsk, IsParallelAsk};

    ghost Value = { ParallelAsk };

    ghost view = { λ s. record {
      sig = s.sig.now;
      tables = R.tables s.rows.now;
      rule = s.rule.now;
      number = s.number;
      family = s.family.now;
      a = s.a;
      x = s.x;
      u = s.u;
      b = s.b;
      y = s.y;
      w = s.w;
      only_new = s.only_new;
    } };

    ghost invariant = { λ s. let k : ParallelAsk = record {
      sig = s.sig.now;
      tables = R.tables s.rows.now;
      rule = s.rule.now;
      number = s.number;
      family = s.family.now;
      a = s.a;
      x = s.x;
      u = s.u;
      b = s.b;
      y = s.y;
      w = s.w;
      only_new = s.only_new;
    } in IsParallelAsk k };
}

/// The rows that are asked for, in row order: so many and one more at most.
pub(crate) fn find<R: Rows>(search: &Search<R>, most: usize) -> Result<Vec<Row>, NoMemory>
    ensures { IfOk result (λ found. AreSought search.now most found.items) }
{
    let mut found = Vec::with_capacity(search.alloc, 2)?;
    if is_sought(search, &Row::Same)? {
        found.push(Row::Same)?;
    }
    if found.len() <= most && is_sought(search, &Row::Different)? {
        found.push(Row::Different)?;
    }
    Ok(found)
}

/// The row is one that is asked for. Where only new ones are, one that the tables have costs a look-up.
pub(crate) fn is_sought<R: Rows>(search: &Search<R>, row: &Row) -> Result<bool, NoMemory>
    requires { IsRow search.now.sig search.now.family row.now }
    ensures yes { IfOk result (λ yes. OnTrue yes (IsSought search.now row.now)) }
    ensures no { IfOk result (λ yes.
        OnFalse yes (IsResult search.now.sig search.now.tables search.now.rule search.now.number row.now →
        IsKnownRow search.now row.now)) }
{
    if search.only_new && search.rows.has(search.number, row) {
        return Ok(false);
    }
    let v = pattern(search.alloc, search.sig, search.family, row)?;
    let firsts = firsts(search)?;
    from_any(search, row, &v, firsts.as_slice())
}

// The stands of the root's agent. Where the rule writes neither bond, nothing new is yielded.
fn firsts<R: Rows>(search: &Search<R>) -> Result<Vec<Stand>, NoMemory>
    ensures { IfOk result (λ firsts. (stand : Stand) → Has firsts.items stand ↔
        IsRootStand search.now stand) }
{
    let all = stands_of_type(search.alloc, search.rule, search.a)?;
    if !search.only_new {
        return Ok(all);
    }
    writing(search, all.as_slice())
}

// Those of the stands where the rule writes a bond.
fn writing<R: Rows>(search: &Search<R>, all: &[Stand]) -> Result<Vec<Stand>, NoMemory>
    requires { (stand : Stand) → Has all.now stand → FitsStand search.now.rule stand search.now.a }
    ensures { IfOk result (λ firsts. (stand : Stand) → Has firsts.items stand ↔ (Has all.now stand ×
        WritesPartner search.now.rule search.now.x search.now.u stand)) }
{
    let mut firsts = Vec::with_capacity(search.alloc, all.len())?;
    for stand in all {
        if writes_partner(search.sig, search.rule, stand, search.x, search.u) {
            firsts.push(*stand)?;
        }
    }
    Ok(firsts)
}

// The rule yields the row with one of the stands of the root's agent.
fn from_any<R: Rows>(
    search: &Search<R>,
    row: &Row,
    v: &Pattern,
    firsts: &[Stand],
) -> Result<bool, NoMemory>
    requires row { (row.now ≡ Same) ⊎ (row.now ≡ Different) }
    requires pattern { v.now ≡ row_pattern search.now.sig search.now.family row.now }
    requires over { IsPatternOver search.now.sig v.now }
    requires fit { (first : Stand) → Has firsts.now first →
        FitsStand search.now.rule first search.now.a }
    ensures { IfOk result (λ yes. IsTrue yes ↔ ((first : Stand) × Has firsts.now first ×
        YieldsWith search.now.sig search.now.tables search.now.rule v.now first)) }
{
    for first in firsts {
        if from_first(search, row, v, first)? {
            return Ok(true);
        }
    }
    Ok(false)
}

fn from_first<R: Rows>(
    search: &Search<R>,
    row: &Row,
    v: &Pattern,
    first: &Stand,
) -> Result<bool, NoMemory>
    requires row { (row.now ≡ Same) ⊎ (row.now ≡ Different) }
    requires pattern { v.now ≡ row_pattern search.now.sig search.now.family row.now }
    requires over { IsPatternOver search.now.sig v.now }
    requires fits { FitsStand search.now.rule first.now search.now.a }
    ensures { IfOk result (λ yes. IsTrue yes ↔
        YieldsWith search.now.sig search.now.tables search.now.rule v.now first.now) }
{
    match row {
        Row::Same => same_from(search, v, first),
        Row::Different => different_from(search, v, first),
        Row::Locals(_) => unreachable!(),
    }
}

// Both bonds of an agent with the stand lead to one agent.
fn same_from<R: Rows>(search: &Search<R>, v: &Pattern, first: &Stand) -> Result<bool, NoMemory>
    requires pattern { v.now ≡ row_pattern search.now.sig search.now.family Same }
    requires over { IsPatternOver search.now.sig v.now }
    requires fits { FitsStand search.now.rule first.now search.now.a }
    ensures { IfOk result (λ yes. IsTrue yes ↔
        YieldsWith search.now.sig search.now.tables search.now.rule v.now first.now) }
{
    let Search {
        alloc,
        sig,
        rule,
        x,
        u,
        b,
        y,
        w,
        ..
    } = *search;
    for second in &partners(alloc, sig, rule, first, x, b, y)? {
        if is_partner(sig, rule, first, u, b, w, second) && stood(search, v, &[*first, *second])? {
            return Ok(true);
        }
    }
    Ok(false)
}

// They lead to two agents.
fn different_from<R: Rows>(search: &Search<R>, v: &Pattern, first: &Stand) -> Result<bool, NoMemory>
    requires pattern { v.now ≡ row_pattern search.now.sig search.now.family Different }
    requires over { IsPatternOver search.now.sig v.now }
    requires fits { FitsStand search.now.rule first.now search.now.a }
    ensures { IfOk result (λ yes. IsTrue yes ↔
        YieldsWith search.now.sig search.now.tables search.now.rule v.now first.now) }
{
    let Search {
        alloc,
        sig,
        rule,
        x,
        u,
        b,
        y,
        w,
        ..
    } = *search;
    let thirds = partners(alloc, sig, rule, first, u, b, w)?;
    for second in &partners(alloc, sig, rule, first, x, b, y)? {
        if different_with(search, v, first, second, thirds.as_slice())? {
            return Ok(true);
        }
    }
    Ok(false)
}

// The first bond leads to an agent with the second stand, and the other one to an agent with one of the thirds.
fn different_with<R: Rows>(
    search: &Search<R>,
    v: &Pattern,
    first: &Stand,
    second: &Stand,
    thirds: &[Stand],
) -> Result<bool, NoMemory>
    requires over { IsPatternOver search.now.sig v.now }
    requires count { length v.now ≡ 3 }
    requires first { StandExists search.now.rule first.now }
    requires second { StandExists search.now.rule second.now }
    requires thirds { (third : Stand) → Has thirds.now third → StandExists search.now.rule third }
    ensures { IfOk result (λ yes. IsTrue yes ↔ ((third : Stand) × Has thirds.now third ×
        YieldsAt search.now.sig search.now.tables search.now.rule v.now
        (first.now ∷ second.now ∷ third ∷ []) [])) }
{
    for third in thirds {
        if stood(search, v, &[*first, *second, *third])? {
            return Ok(true);
        }
    }
    Ok(false)
}

// The pattern v stands after the rule fired on a pattern that the tables allow, with the stands.
fn stood<R: Rows>(search: &Search<R>, v: &Pattern, stands: &[Stand]) -> Result<bool, NoMemory>
    requires over { IsPatternOver search.now.sig v.now }
    requires count { length stands.now ≡ length v.now }
    requires few { length v.now ≤ 3 }
    requires exist { StandsExist search.now.rule stands.now }
    ensures { IfOk result (λ yes. IsTrue yes ↔
        YieldsAt search.now.sig search.now.tables search.now.rule v.now stands.now []) }
{
    match pre(search.alloc, search.sig, search.rule, v, stands, &[])? {
        None => Ok(false),
        Some(g) => Ok(allowed(search.sig, search.rows, &g)),
    }
}
