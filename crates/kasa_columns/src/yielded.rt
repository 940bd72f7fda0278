// The rows of a family with columns that a rule yields from tables.
ghost use Rattle.std.specs.Prelude.{◌≡◌, ◌≤◌, ◌+◌, ℕ, length, List, Option, Some, slice_get, IfOk, MatchOption};
ghost use Rattle.kasa_graph.specs.declared.mixture.Agent.{Agent};
ghost use Rattle.kasa_graph.specs.Lists.{Has};
ghost use Rattle.kasa_graph.specs.Mixture.{IsMixtureOver};
ghost use Rattle.kasa_graph.specs.Embedding.{IsEmbedding};
ghost use Rattle.kasa_families.specs.declared.family.Family.{Family};
ghost use Rattle.kasa_families.specs.declared.row.Row.{Row};
ghost use Rattle.kasa_families.specs.declared.shape.NodeSite.{NodeSite};
ghost use Rattle.kasa_families.specs.Family.{shape_of};
ghost use Rattle.kasa_families.specs.Pattern.{Occurs};
ghost use Rattle.kasa_families.specs.Row.{IsRow};
ghost use Rattle.kasa_families.specs.Table.{AreTables, families_of, rows_of};
ghost use Rattle.kasa_rules.specs.Rule.{IsRuleOver};
ghost use Rattle.kasa_rules.specs.Firing.{fire};
ghost use Rattle.kasa_pre.specs.Closed.{Cover};
ghost use Rattle.kasa_columns.specs.Forward.{HasColumns};
ghost use Rattle.kasa_columns.specs.Results.{IsResult, AreResults, IsMissing, AreNewResults, IsFirstMissing};
ghost use Rattle.kasa_columns.specs.Ask.{IsSettledFor, AreFoundFor};

use crate::collect::{Aim, Found, Search};
use crate::walk::find;
use kasa_families::{Family, NodeSite, Row, Rows};
use kasa_graph::Signature;
use kasa_num::{FamilyNo, NoMemory, Steps};
use kasa_rules::Rule;
use std::alloc::Global;
use std::sync::ledger::Ledger;

/// The rows of a family with columns that a rule yields from tables, each once, where they are at most `most`, and else
/// `most + 1` of them. Where the tables hold all rows that occur in a mixture and the rule fires there, each row that occurs
/// afterwards is one of them. It adds one step, whatever it answers.
pub fn results<R: Rows, L: Ledger>(
    alloc: Global,
    sig: &Signature,
    rows: &R,
    rule: &Rule,
    f: FamilyNo,
    most: usize,
    steps: &mut Steps<L>,
) -> Result<Vec<Row>, NoMemory>
    requires tables { AreTables sig.now (R.tables rows.now) }
    requires over { IsRuleOver sig.now rule.now }
    requires columns { (family : Family) × (slice_get (families_of (R.tables rows.now)) f ≡ Some family) × HasColumns family }
    requires most { most ≤ 200000 }
    ensures steps { steps.new ≡ steps.old + 1 }
    ensures results { IfOk result (λ found. AreResults sig.now (R.tables rows.now) rule.now f most found.items) }
    ensures follows { IfOk result (λ found. length found.items ≤ most → (m : List (Option Agent)) (cells : List ℕ) (family : Family) (row : Row) → IsMixtureOver sig.now m → Cover sig.now (R.tables rows.now) m → IsEmbedding rule.now.left m cells → slice_get (families_of (R.tables rows.now)) f ≡ Some family → IsRow sig.now family row → Occurs sig.now family row (fire rule.now cells m) → Has found.items row) }
{
    steps.tick();
    let found = find_in(alloc, sig, rows, rule, f, Aim::UpTo(most))?;
    listed(alloc, found)
}

/// The rows of a family with columns that a rule yields from tables and that they don't have, each once, where they are at
/// most `most`, and else `most + 1` of them. Rows that the tables have cost a look-up each. It adds one
/// step, whatever it answers.
pub fn new_results<R: Rows, L: Ledger>(
    alloc: Global,
    sig: &Signature,
    rows: &R,
    rule: &Rule,
    f: FamilyNo,
    most: usize,
    steps: &mut Steps<L>,
) -> Result<Vec<Row>, NoMemory>
    requires tables { AreTables sig.now (R.tables rows.now) }
    requires over { IsRuleOver sig.now rule.now }
    requires columns { (family : Family) × (slice_get (families_of (R.tables rows.now)) f ≡ Some family) × HasColumns family }
    requires most { most ≤ 200000 }
    ensures steps { steps.new ≡ steps.old + 1 }
    ensures results { IfOk result (λ found. AreNewResults sig.now (R.tables rows.now) rule.now f most found.items) }
{
    steps.tick();
    let found = find_in(alloc, sig, rows, rule, f, Aim::NewUpTo(most))?;
    listed(alloc, found)
}

// The found rows as a list.
fn listed(alloc: Global, found: Found) -> Result<Vec<Row>, NoMemory>
    ensures { IfOk result (λ rows. rows.items ≡ found.keys) }
{
    let mut rows = Vec::with_capacity(alloc, found.len())?;
    for row in found {
        rows.push(row)?;
    }
    Ok(rows)
}

/// The least row in row order that a rule yields from tables and that they don't have, None exactly where they have each
/// row that it yields.
pub fn missing<R: Rows>(
    alloc: Global,
    sig: &Signature,
    rows: &R,
    rule: &Rule,
    f: FamilyNo,
) -> Result<Option<Row>, NoMemory>
    requires tables { AreTables sig.now (R.tables rows.now) }
    requires over { IsRuleOver sig.now rule.now }
    requires columns { (family : Family) × (slice_get (families_of (R.tables rows.now)) f ≡ Some family) × HasColumns family }
    ensures { IfOk result (λ answer. MatchOption answer ((row : Row) → ¬ IsMissing sig.now (R.tables rows.now) rule.now f row) (λ row. IsFirstMissing sig.now (R.tables rows.now) rule.now f row)) }
{
    let found = find_in(alloc, sig, rows, rule, f, Aim::FirstMissing)?;
    match found.first() {
        None => Ok(None),
        Some(row) => Ok(Some(row.copy())),
    }
}

// The rows that a rule yields from tables, as many as the aim wants.
fn find_in<R: Rows>(
    alloc: Global,
    sig: &Signature,
    rows: &R,
    rule: &Rule,
    number: FamilyNo,
    aim: Aim,
) -> Result<Found, NoMemory>
    requires tables { AreTables sig.now (R.tables rows.now) }
    requires over { IsRuleOver sig.now rule.now }
    requires columns { (family : Family) × (slice_get (families_of (R.tables rows.now)) number ≡ Some family) × HasColumns family }
    ensures found { IfOk result (λ found. AreFoundFor sig.now (R.tables rows.now) rule.now number aim found.keys) }
    ensures settled { IfOk result (λ found. (row : Row) → IsResult sig.now (R.tables rows.now) rule.now number row → IsSettledFor (rows_of (R.tables rows.now) number) aim found.keys row) }
{
    // Its contract says that there are at most 12 left nodes, which keeps the patterns before small enough for `pre`.
    let _left = rule.left();
    match rows.family(number) {
        Some(family) => {
            let columns = columns_of(alloc, family)?;
            find(&Search {
                alloc,
                sig,
                rows,
                rule,
                number,
                family,
                columns: columns.as_slice(),
                aim,
            })
        }
        None => unreachable!(),
    }
}

/// The columns of a family, in order.
pub(crate) fn columns_of(alloc: Global, family: &Family) -> Result<Vec<NodeSite>, NoMemory>
    ensures { IfOk result (λ columns. columns.items ≡ (shape_of family.now).columns) }
{
    let mut columns = Vec::with_capacity(alloc, family.columns())?;
    for k in 0..family.columns() {
        match family.column(k) {
            Some(column) => columns.push(column)?,
            None => unreachable!(),
        }
    }
    Ok(columns)
}
