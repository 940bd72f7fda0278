// The walk through all ways in which a rule can yield a row: forward from each stored row, and where the rule writes a bond of
// the root, from each choice of local states.
ghost use Rattle.std.specs.Prelude.{◌≡◌, ◌↔◌, ◌⊎◌, ℕ, ◌<◌, List, [], ◌∷◌, None, map, length, IsTrue, IfOk, OnOk};
ghost use Rattle.std.specs.Bool.{OnTrue, OnFalse};
ghost use Rattle.std.specs.List.{AllZip};
ghost use Rattle.kasa_graph.specs.Lists.{Has};
ghost use Rattle.kasa_families.specs.declared.row.Local.{Local};
ghost use Rattle.kasa_families.specs.declared.row.LocalLink.TheVariants.{Free};
ghost use Rattle.kasa_families.specs.declared.row.Row.{Row};
ghost use Rattle.kasa_families.specs.declared.row.Row.TheVariants.{Locals as row_of};
ghost use Rattle.kasa_families.specs.Family.{shape_of};
ghost use Rattle.kasa_families.specs.Row.{IsRow};
ghost use Rattle.kasa_families.specs.Pattern.{row_pattern};
ghost use Rattle.kasa_pre.specs.declared.Stand.{Stand};
ghost use Rattle.kasa_pre.specs.declared.Stand.TheVariants.{Made};
ghost use Rattle.kasa_pre.specs.Before.{FitsStand, AreFreed};
ghost use Rattle.kasa_columns.specs.declared.plan.Asked.{Asked as AskedParts};
ghost use Rattle.kasa_columns.specs.Comes.{ComesOut};
ghost use Rattle.kasa_columns.specs.Forward.{LeavesBonds};
ghost use Rattle.kasa_columns.specs.Ask.{IsResultOf, IsSettled, IsSettledFor, stored, IsStoredRow, AreFound, GoesOn};
ghost use Rattle.kasa_columns.specs.Chosen.{AreColumnChoices, AreAmong, MayBe};
ghost use Rattle.kasa_columns.specs.Plan.{AreFreeing, IsAskedAt, IsPlan};
ghost use Rattle.kasa_columns.specs.Settled.{StandsAfter, IsOutcomeSettled, IsShownSettled, IsAgreeingSettled, IsRowSettled, AreStandsSettled};

use crate::chosen::{States, choices, chosen};
use crate::collect::{Aim, Found, Search, is_full, is_wanted, keep};
use crate::fired::{Outcome, outcomes};
use crate::plan::{Asked, Plan, all_asked, freeing_links, kept, may_be_freed, meets_all, plan_for};
use crate::stands::{Stands, all_stands, leaves_bonds};
use indexmap::IndexSet;
use kasa_families::{Local, LocalLink, Locals, NodeSite, Row, Rows, is_row, pattern};
use kasa_num::NoMemory;
use kasa_pre::{FreedBy, Stand, allowed, pre};
use std::alloc::Global;

/// The rows that are asked for: all where the aim is not met before, and none that the rule doesn't yield.
pub(crate) fn find<R: Rows>(search: &Search<R>) -> Result<Found, NoMemory>
    ensures found { IfOk result (λ found. AreFound search.now found.keys) }
    ensures settled { IfOk result (λ found. (row : Row) → IsResultOf search.now row → IsSettled search.now found.keys row) }
{
    let all = all_stands(search.alloc, search.sig, search.rule, search.family)?;
    let choices = choices_for(search, all.as_slice())?;
    let links = freeing_links(search.alloc, search.sig, search.rule)?;
    let mut found = IndexSet::new(search.alloc);
    for stands in &all {
        try_stands(
            search,
            stands.as_slice(),
            choices.as_slice(),
            links.as_slice(),
            &mut found,
        )?;
    }
    Ok(found)
}

// The choices of the columns, where some stands need them.
fn choices_for<R: Rows>(search: &Search<R>, all: &[Stands]) -> Result<Vec<States>, NoMemory>
    requires fit { (stands : List Stand) → Has all.now stands → AllZip (FitsStand search.now.rule) stands (shape_of search.now.family).types }
    ensures { IfOk result (λ choices. AreColumnChoices search.now choices.items ⊎ ((stands : List Stand) → Has all.now stands → LeavesBonds search.now.rule (shape_of search.now.family).bonds stands)) }
{
    for stands in all {
        if !leaves_bonds(search.sig, search.rule, search.family, stands.as_slice()) {
            return choices(search);
        }
    }
    Ok(Vec::new(search.alloc))
}

// All outcomes of nodes with the stands.
fn try_stands<R: Rows>(
    search: &Search<R>,
    stands: &[Stand],
    choices: &[States],
    links: &[LocalLink],
    found: &mut Found,
) -> Result<(), NoMemory>
    requires fit { AllZip (FitsStand search.now.rule) stands.now (shape_of search.now.family).types }
    requires links { AreFreeing search.now.rule links.now }
    requires choices { AreColumnChoices search.now choices.now ⊎ LeavesBonds search.now.rule (shape_of search.now.family).bonds stands.now }
    ensures on { OnOk result (GoesOn search.now found.old.keys found.new.keys) }
    ensures settled { OnOk result (AreStandsSettled search.now (MayBe search.now choices.now stands.now) found.new.keys stands.now) }
{
    if !leaves_bonds(search.sig, search.rule, search.family, stands) {
        return try_chosen(search, stands, choices, found);
    }
    if is_created(stands) {
        return try_created(search, stands, found);
    }
    try_stored(search, stands, links, found)
}

// There is one node, which the rule creates.
fn is_created(stands: &[Stand]) -> bool
    ensures created { OnTrue result ((k : ℕ) × (stands.now ≡ Made k ∷ [])) }
    ensures other { OnFalse result ((k : ℕ) → stands.now ≡ Made k ∷ [] → ⊥) }
{
    match stands {
        [Stand::Made(_)] => true,
        _ => false,
    }
}

// All outcomes of nodes with the stands that showed rows of the tables. Where nothing is written and nothing can be freed,
// they are rows that the tables have.
fn try_stored<R: Rows>(
    search: &Search<R>,
    stands: &[Stand],
    links: &[LocalLink],
    found: &mut Found,
) -> Result<(), NoMemory>
    requires fit { AllZip (FitsStand search.now.rule) stands.now (shape_of search.now.family).types }
    requires links { AreFreeing search.now.rule links.now }
    ensures on { OnOk result (GoesOn search.now found.old.keys found.new.keys) }
    ensures settled { OnOk result (AreStandsSettled search.now (IsStoredRow search.now) found.new.keys stands.now) }
{
    let plan = plan_for(
        search.alloc,
        search.sig,
        search.rule,
        stands,
        search.columns,
    )?;
    if plan.is_idle && links.is_empty() && wants_new(search.aim) {
        return Ok(());
    }
    for k in 0..search.rows.rows(search.number) {
        match search.rows.row(search.number, k) {
            Some(row) => try_stored_row(search, stands, links, &plan, row, found)?,
            None => unreachable!(),
        }
    }
    Ok(())
}

// The same of one row.
fn try_stored_row<R: Rows>(
    search: &Search<R>,
    stands: &[Stand],
    links: &[LocalLink],
    plan: &Plan,
    row: &Row,
    found: &mut Found,
) -> Result<(), NoMemory>
    requires fit { AllZip (FitsStand search.now.rule) stands.now (shape_of search.now.family).types }
    requires links { AreFreeing search.now.rule links.now }
    requires plan { IsPlan search.now.rule stands.now search.now.columns plan.now }
    requires stored { Has (stored search.now) row.now }
    requires count { (shown : List Local) → row.now ≡ row_of shown → length shown ≡ length search.now.columns }
    ensures on { OnOk result (GoesOn search.now found.old.keys found.new.keys) }
    ensures settled { OnOk result (IsRowSettled search.now stands.now found.new.keys row.now) }
{
    match row {
        Row::Locals(shown) => try_row(search, stands, links, plan, shown.as_slice(), found),
        _ => Ok(()),
    }
}

// Rows that the tables have aren't looked for.
fn wants_new(aim: Aim) -> bool
    ensures { OnTrue result ((stored found : List Row) (row : Row) → Has stored row → IsSettledFor stored aim found row) }
{
    match aim {
        Aim::UpTo(_) => false,
        Aim::NewUpTo(_) | Aim::FirstMissing => true,
    }
}

// All outcomes of nodes with the stands that showed a row of the tables. It takes no memory for one that comes out as such a
// row.
fn try_row<R: Rows>(
    search: &Search<R>,
    stands: &[Stand],
    links: &[LocalLink],
    plan: &Plan,
    shown: &[Local],
    found: &mut Found,
) -> Result<(), NoMemory>
    requires fit { AllZip (FitsStand search.now.rule) stands.now (shape_of search.now.family).types }
    requires links { AreFreeing search.now.rule links.now }
    requires plan { IsPlan search.now.rule stands.now search.now.columns plan.now }
    requires stored { IsStoredRow search.now shown.now }
    requires count { length shown.now ≡ length search.now.columns }
    ensures on { OnOk result (GoesOn search.now found.old.keys found.new.keys) }
    ensures settled { OnOk result (IsAgreeingSettled search.now stands.now found.new.keys shown.now) }
{
    if is_full(search, found) || !meets_all(plan.asked.as_slice(), shown) {
        return Ok(());
    }
    if may_be_freed(links, plan.effects.as_slice(), shown) {
        return try_shown(search, stands, shown, found);
    }
    if plan.is_idle && wants_new(search.aim) {
        return Ok(());
    }
    let locals = kept(search.alloc, plan.effects.as_slice(), shown);
    try_locals(search, stands, locals, &[], found)
}

// All outcomes of a created agent, of which nothing that it showed matters.
fn try_created<R: Rows>(
    search: &Search<R>,
    stands: &[Stand],
    found: &mut Found,
) -> Result<(), NoMemory>
    requires fit { AllZip (FitsStand search.now.rule) stands.now (shape_of search.now.family).types }
    ensures on { OnOk result (GoesOn search.now found.old.keys found.new.keys) }
    ensures settled { OnOk result (AreStandsSettled search.now (λ shown. shown ≡ map (λ _. record { state = None; link = Free }) search.now.columns) found.new.keys stands.now) }
{
    let blank = blank_locals(search.alloc, search.columns)?;
    try_shown(search, stands, blank.as_slice(), found)
}

// Columns that show nothing, as those of an agent that isn't there yet.
fn blank_locals(alloc: Global, columns: &[NodeSite]) -> Result<Vec<Local>, NoMemory>
    ensures { IfOk result (λ locals. locals.items ≡ map (λ _. record { state = None; link = Free }) columns.now) }
{
    let mut locals = Vec::with_capacity(alloc, columns.len())?;
    for _ in columns {
        locals.push(Local {
            state: None,
            link: LocalLink::Free,
        })?;
    }
    Ok(locals)
}

// All outcomes of nodes with the stands that showed choices.
fn try_chosen<R: Rows>(
    search: &Search<R>,
    stands: &[Stand],
    choices: &[States],
    found: &mut Found,
) -> Result<(), NoMemory>
    requires fit { AllZip (FitsStand search.now.rule) stands.now (shape_of search.now.family).types }
    requires choices { AreColumnChoices search.now choices.now }
    ensures on { OnOk result (GoesOn search.now found.old.keys found.new.keys) }
    ensures settled { OnOk result (AreStandsSettled search.now (AreAmong stands.now search.now.columns choices.now) found.new.keys stands.now) }
{
    let asked = all_asked(search.alloc, search.rule, stands, search.columns)?;
    let all = chosen(search.alloc, stands, search.columns, choices)?;
    let asks = asked.as_slice();
    for shown in &all {
        try_choice(search, stands, asks, shown.as_slice(), found)?;
    }
    Ok(())
}

// The same of one choice, where the left pattern doesn't contradict it.
fn try_choice<R: Rows>(
    search: &Search<R>,
    stands: &[Stand],
    asked: &[Asked],
    shown: &[Local],
    found: &mut Found,
) -> Result<(), NoMemory>
    requires fit { AllZip (FitsStand search.now.rule) stands.now (shape_of search.now.family).types }
    requires asked { (q : AskedParts) → Has asked.now q → IsAskedAt search.now.rule stands.now search.now.columns q }
    requires count { length shown.now ≡ length search.now.columns }
    ensures on { OnOk result (GoesOn search.now found.old.keys found.new.keys) }
    ensures settled { OnOk result (IsAgreeingSettled search.now stands.now found.new.keys shown.now) }
{
    if !meets_all(asked, shown) {
        return Ok(());
    }
    try_shown(search, stands, shown, found)
}

// All outcomes of nodes with the stands that showed these local states.
fn try_shown<R: Rows>(
    search: &Search<R>,
    stands: &[Stand],
    shown: &[Local],
    found: &mut Found,
) -> Result<(), NoMemory>
    requires fit { AllZip (FitsStand search.now.rule) stands.now (shape_of search.now.family).types }
    requires count { length shown.now ≡ length search.now.columns }
    ensures on { OnOk result (GoesOn search.now found.old.keys found.new.keys) }
    ensures settled { OnOk result (IsShownSettled search.now stands.now found.new.keys shown.now) }
{
    if is_full(search, found) {
        return Ok(());
    }
    let outs = outcomes(
        search.alloc,
        search.sig,
        search.rule,
        stands,
        search.columns,
        shown,
    )?;
    for out in &outs {
        try_outcome(search, stands, out, found)?;
    }
    Ok(())
}

// The row of the outcome, where it is wanted, valid and yielded.
fn try_outcome<R: Rows>(
    search: &Search<R>,
    stands: &[Stand],
    out: &Outcome,
    found: &mut Found,
) -> Result<(), NoMemory>
    requires fit { AllZip (FitsStand search.now.rule) stands.now (shape_of search.now.family).types }
    requires comes { (shown : List Local) × ComesOut search.now.rule stands.now search.now.columns shown out.now }
    ensures on { OnOk result (GoesOn search.now found.old.keys found.new.keys) }
    ensures settled { OnOk result (IsOutcomeSettled search.now stands.now found.new.keys out.now) }
{
    let locals = Locals::new(search.alloc, out.locals.as_slice());
    try_locals(search, stands, locals, out.freed.as_slice(), found)
}

// The same, where the outcome is in two parts.
fn try_locals<R: Rows>(
    search: &Search<R>,
    stands: &[Stand],
    locals: Locals,
    freed: &[FreedBy],
    found: &mut Found,
) -> Result<(), NoMemory>
    requires fit { AllZip (FitsStand search.now.rule) stands.now (shape_of search.now.family).types }
    requires comes { (shown : List Local) × ComesOut search.now.rule stands.now search.now.columns shown (record { locals = locals; freed = freed.now }) }
    ensures on { OnOk result (GoesOn search.now found.old.keys found.new.keys) }
    ensures settled { OnOk result (IsOutcomeSettled search.now stands.now found.new.keys (record { locals = locals; freed = freed.now })) }
{
    let row = Row::Locals(locals);
    if is_wanted(search, found, &row)
        && is_row(search.sig, search.family, &row)
        && stands_after(search, &row, stands, freed)?
    {
        keep(search, found, row)?;
    }
    Ok(())
}

// Whether the row stands after the rule fired on a pattern that the tables allow, with the stands and the freed tests.
fn stands_after<R: Rows>(
    search: &Search<R>,
    row: &Row,
    stands: &[Stand],
    freed: &[FreedBy],
) -> Result<bool, NoMemory>
    requires fit { AllZip (FitsStand search.now.rule) stands.now (shape_of search.now.family).types }
    requires valid { IsRow search.now.sig search.now.family row.now }
    requires free { AreFreed search.now.rule (row_pattern search.now.sig search.now.family row.now) stands.now freed.now }
    ensures { IfOk result (λ yes. IsTrue yes ↔ StandsAfter search.now (row_pattern search.now.sig search.now.family row.now) stands.now freed.now) }
{
    let v = pattern(search.alloc, search.sig, search.family, row)?;
    match pre(search.alloc, search.sig, search.rule, &v, stands, freed)? {
        None => Ok(false),
        Some(g) => Ok(allowed(search.sig, search.rows, &g)),
    }
}
