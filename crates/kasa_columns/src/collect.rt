// What a search for rows asks, and the rows that it keeps.
ghost use Rattle.std.specs.Prelude.{◌≡◌, ◌<◌, ◌≤◌, ◌⊎◌, length, IsTrue, MatchOption, OnOk, slice_get};
ghost use Rattle.std.specs.Bool.{MatchBool, OnTrue, OnFalse};
ghost use Rattle.kasa_graph.specs.Lists.{Has};
ghost use Rattle.kasa_families.specs.declared.row.Row.{Row};
ghost use Rattle.kasa_families.specs.Row.{IsRowBelow};
ghost use Rattle.kasa_columns.specs.Ask.{kept_by, IsResultOf, IsSettled, IsWanted, GoesOn};

use indexmap::IndexSet;
use kasa_families::{Family, NodeSite, Row, Rows};
use kasa_graph::Signature;
use kasa_num::{FamilyNo, NoMemory};
use kasa_rules::Rule;
use std::alloc::Global;
use std::marker::Model;

/// What is looked for.
#[derive(Clone, Copy)]
pub(crate) enum Aim {
    /// The rows that the rule yields, so many and one more at most.
    UpTo(usize),
    /// Of the rows that the rule yields and that the tables don't have, so many and one more at most.
    NewUpTo(usize),
    /// The least row that the rule yields and that the tables don't have.
    FirstMissing,
}

/// Which rows are asked for: those that a rule yields from tables, of one of their families with columns.
#[derive(Drop)]
pub(crate) struct Search<'a, R: Rows> {
    pub alloc: Global,
    pub sig: &'a Signature,
    pub rows: &'a R,
    pub rule: &'a Rule,
    pub number: FamilyNo,
    pub family: &'a Family,
    pub columns: &'a [NodeSite],
    pub aim: Aim,
}

impl<'a, R: Rows> Model for Search<'a, R> {
    ghost use Rattle.kasa_columns.specs.Ask.{Ask, IsAsk};

    ghost Value = { Ask };

    ghost view = { λ s. record { sig = s.sig.now; tables = R.tables s.rows.now; rule = s.rule.now; number = s.number; family = s.family.now; columns = s.columns.now; aim = s.aim } };

    ghost invariant = { λ s. let a : Ask = record { sig = s.sig.now; tables = R.tables s.rows.now; rule = s.rule.now; number = s.number; family = s.family.now; columns = s.columns.now; aim = s.aim } in IsAsk a };
}

/// Rows, each once.
pub(crate) type Found = IndexSet<Row>;

// No more rows are looked for.
pub(crate) fn is_full<R: Rows>(search: &Search<R>, found: &Found) -> bool
    ensures { OnTrue result ((row : Row) → IsSettled search.now found.now.keys row) }
{
    match search.aim {
        Aim::UpTo(most) | Aim::NewUpTo(most) => found.len() > most,
        Aim::FirstMissing => false,
    }
}

// The row is to be kept if the rule yields it.
pub(crate) fn is_wanted<R: Rows>(search: &Search<R>, found: &Found, row: &Row) -> bool
    ensures wanted { OnTrue result (IsWanted search.now found.now.keys row.now) }
    ensures settled { OnFalse result (IsSettled search.now found.now.keys row.now) }
{
    match search.aim {
        Aim::UpTo(most) => is_open(found, most, row),
        Aim::NewUpTo(most) => !search.rows.has(search.number, row) && is_open(found, most, row),
        Aim::FirstMissing => !search.rows.has(search.number, row) && is_below_first(found, row),
    }
}

// There may be more rows, and the row isn't one of those that are there.
fn is_open(found: &Found, most: usize, row: &Row) -> bool
    ensures open { OnTrue result ((length found.now.keys ≤ most) × ¬ Has found.now.keys row.now) }
    ensures closed { OnFalse result ((most < length found.now.keys) ⊎ Has found.now.keys row.now) }
{
    found.len() <= most && !found.contains(row)
}

// The row comes before the first of the found ones, if there is one.
fn is_below_first(found: &Found, row: &Row) -> bool
    ensures { MatchOption (slice_get found.now.keys 0) (IsTrue result) (λ least. MatchBool result (IsRowBelow row.now least) ((least ≡ row.now) ⊎ IsRowBelow least row.now)) }
{
    match found.first() {
        None => true,
        Some(least) => row.cmp(least).is_lt(),
    }
}

// Keeps a row that the rule yields.
pub(crate) fn keep<R: Rows>(search: &Search<R>, found: &mut Found, row: Row) -> Result<(), NoMemory>
    requires wanted { IsWanted search.now found.old.keys row }
    requires result { IsResultOf search.now row }
    ensures on { OnOk result (GoesOn search.now found.old.keys found.new.keys) }
    ensures settled { OnOk result (IsSettled search.now found.new.keys row) }
{
    make_room(search.aim, found);
    found.insert(row)?;
    Ok(())
}

// Where the least row is looked for, none is kept beside it.
fn make_room(aim: Aim, found: &mut Found)
    ensures { found.new.keys ≡ kept_by aim found.old.keys }
{
    match aim {
        Aim::UpTo(_) | Aim::NewUpTo(_) => {}
        Aim::FirstMissing => found.clear(),
    }
}
