// The rows of a parallel family that a rule yields from tables.
ghost use Rattle.std.specs.Prelude.{◌≡◌, ◌≤◌, ◌+◌, ℕ, length, List, Option, Some, slice_get, IfOk, MatchOption};
ghost use Rattle.kasa_graph.specs.declared.mixture.Agent.{Agent};
ghost use Rattle.kasa_graph.specs.Lists.{Has};
ghost use Rattle.kasa_graph.specs.Mixture.{IsMixtureOver};
ghost use Rattle.kasa_graph.specs.Embedding.{IsEmbedding};
ghost use Rattle.kasa_families.specs.declared.family.Family.{Family};
ghost use Rattle.kasa_families.specs.declared.row.Row.{Row};
ghost use Rattle.kasa_families.specs.Pattern.{Occurs};
ghost use Rattle.kasa_families.specs.Row.{IsRow};
ghost use Rattle.kasa_families.specs.Table.{AreTables, families_of};
ghost use Rattle.kasa_rules.specs.Rule.{IsRuleOver};
ghost use Rattle.kasa_rules.specs.Firing.{fire};
ghost use Rattle.kasa_pre.specs.Closed.{Cover};
ghost use Rattle.kasa_columns.specs.Results.{AreResults, IsMissing, AreNewResults, IsFirstMissing};
ghost use Rattle.kasa_parallel.specs.Parallel.{IsParallel};
ghost use Rattle.kasa_parallel.specs.Sought.{AsksFor};

use crate::search::{Search, find, is_sought};
use kasa_families::{Family, Row, Rows};
use kasa_graph::Signature;
use kasa_num::{FamilyNo, NoMemory, Steps};
use kasa_rules::Rule;
use std::alloc::Global;
use std::sync::ledger::Ledger;

/// The rows of a parallel family that a rule yields from tables, each once, where they are at most `most`, and
/// else `most + 1` of them. Where the tables hold all rows that occur in a mixture and the rule fires there,
/// each row that occurs afterwards is one of them. It adds one step, whatever it answers.
pub fn results<R: Rows, L: Ledger>(
    alloc: Global,
    sig: &Signature,
    rows: &R,
    rule: &Rule,
    f: FamilyNo,
    most: usize,
    steps: &mut Steps<L>,
) -> Result<Vec<Row>, NoMemory>
    requires tables { AreTables sig.now (R.tables rows.now) }
    requires over { IsRuleOver sig.now rule.now }
    requires parallel { (family : Family) ×
        (slice_get (families_of (R.tables rows.now)) f ≡ Some family) × IsParallel family }
    requires most { most ≤ 200000 }
    ensures steps { steps.new ≡ steps.old + 1 }
    ensures results { IfOk result (λ found.
        AreResults sig.now (R.tables rows.now) rule.now f most found.items) }
    ensures follows { IfOk result (λ found. length found.items ≤ most →
        (m : List (Option Agent)) (cells : List ℕ) (family : Family) (row : Row) →
        IsMixtureOver sig.now m → Cover sig.now (R.tables rows.now) m →
        IsEmbedding rule.now.left m cells →
        slice_get (families_of (R.tables rows.now)) f ≡ Some family → IsRow sig.now family row →
        Occurs sig.now family row (fire rule.now cells m) → Has found.items row) }
{
    steps.tick();
    find(&search_for(alloc, sig, rows, rule, f, false), most)
}

/// The rows of a parallel family that a rule yields from tables and that they don't have, each once, where they
/// are at most `most`, and else `most + 1` of them. A row that the tables have costs a look-up, and stands of the
/// agent whose bonds the rule doesn't write are left out. It adds one step, whatever it answers.
pub fn new_results<R: Rows, L: Ledger>(
    alloc: Global,
    sig: &Signature,
    rows: &R,
    rule: &Rule,
    f: FamilyNo,
    most: usize,
    steps: &mut Steps<L>,
) -> Result<Vec<Row>, NoMemory>
    requires tables { AreTables sig.now (R.tables rows.now) }
    requires over { IsRuleOver sig.now rule.now }
    requires parallel { (family : Family) ×
        (slice_get (families_of (R.tables rows.now)) f ≡ Some family) × IsParallel family }
    requires most { most ≤ 200000 }
    ensures steps { steps.new ≡ steps.old + 1 }
    ensures results { IfOk result (λ found.
        AreNewResults sig.now (R.tables rows.now) rule.now f most found.items) }
{
    steps.tick();
    find(&search_for(alloc, sig, rows, rule, f, true), most)
}

/// The least row in row order that a rule yields from tables and that they don't have, None exactly where
/// they have each row that it yields.
pub fn missing<R: Rows>(
    alloc: Global,
    sig: &Signature,
    rows: &R,
    rule: &Rule,
    f: FamilyNo,
) -> Result<Option<Row>, NoMemory>
    requires tables { AreTables sig.now (R.tables rows.now) }
    requires over { IsRuleOver sig.now rule.now }
    requires parallel { (family : Family) ×
        (slice_get (families_of (R.tables rows.now)) f ≡ Some family) × IsParallel family }
    ensures { IfOk result (λ answer. MatchOption answer
        ((row : Row) → ¬ IsMissing sig.now (R.tables rows.now) rule.now f row)
        (λ row. IsFirstMissing sig.now (R.tables rows.now) rule.now f row)) }
{
    let search = search_for(alloc, sig, rows, rule, f, true);
    if is_sought(&search, &Row::Same)? {
        return Ok(Some(Row::Same));
    }
    if is_sought(&search, &Row::Different)? {
        return Ok(Some(Row::Different));
    }
    Ok(None)
}

// The search for the rows of the family, or for the new ones alone.
fn search_for<'a, R: Rows>(
    alloc: Global,
    sig: &'a Signature,
    rows: &'a R,
    rule: &'a Rule,
    number: FamilyNo,
    only_new: bool,
) -> Search<'a, R>
    requires tables { AreTables sig.now (R.tables rows.now) }
    requires over { IsRuleOver sig.now rule.now }
    requires parallel { (family : Family) ×
        (slice_get (families_of (R.tables rows.now)) number ≡ Some family) × IsParallel family }
    ensures { AsksFor sig.now (R.tables rows.now) rule.now number only_new result }
{
    // Its contract says that there are at most 12 left nodes, which keeps the patterns before small enough for `pre`.
    let _left = rule.left();
    match rows.family(number) {
        Some(family) => match family {
            Family::Parallel { a, x, u, b, y, w } => Search {
                alloc,
                sig,
                rows,
                rule,
                number,
                family,
                a: *a,
                x: *x,
                u: *u,
                b: *b,
                y: *y,
                w: *w,
                only_new,
            },
            _ => unreachable!(),
        },
        None => unreachable!(),
    }
}
