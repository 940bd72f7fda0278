// The rows of a chain: those that occur in an init, and those that a rule yields from tables.
ghost use Rattle.std.specs.Prelude.{◌≡◌, ◌≤◌, ◌+◌, ◌↔◌, ℕ, length, List, Option, Some, slice_get, IfOk, MatchOption};
ghost use Rattle.kasa_graph.specs.declared.mixture.Agent.{Agent};
ghost use Rattle.kasa_graph.specs.Lists.{Has};
ghost use Rattle.kasa_graph.specs.Mixture.{IsMixtureOver};
ghost use Rattle.kasa_graph.specs.Embedding.{IsEmbedding};
ghost use Rattle.kasa_families.specs.declared.family.Family.{Family};
ghost use Rattle.kasa_families.specs.declared.row.Row.{Row};
ghost use Rattle.kasa_families.specs.Family.{IsFamily};
ghost use Rattle.kasa_families.specs.Pattern.{Occurs};
ghost use Rattle.kasa_families.specs.Row.{IsRow, AreAscending};
ghost use Rattle.kasa_families.specs.Table.{AreTables, families_of};
ghost use Rattle.kasa_rules.specs.Rule.{IsRuleOver};
ghost use Rattle.kasa_rules.specs.Firing.{fire};
ghost use Rattle.kasa_pre.specs.Closed.{Cover};
ghost use Rattle.kasa_columns.specs.Results.{AreResults, IsMissing, AreNewResults, IsFirstMissing};
ghost use Rattle.kasa_chains.specs.Chain.{IsChain};

use kasa_columns as columns;
use kasa_families::{Family, Row, Rows};
use kasa_graph::{Mixture, Signature};
use kasa_num::{FamilyNo, NoMemory, Steps};
use kasa_rules::Rule;
use std::alloc::Global;
use std::sync::ledger::Ledger;

/// The rows of a chain that occur in an init, each once, in row order.
pub fn initial(
    alloc: Global,
    sig: &Signature,
    init: &Mixture,
    family: &Family,
) -> Result<Vec<Row>, NoMemory>
    requires chain { IsChain family.now }
    requires valid { IsFamily sig.now family.now }
    requires over { IsMixtureOver sig.now init.now }
    ensures rows { IfOk result (λ rows. (row : Row) → Has rows.items row ↔
        (IsRow sig.now family.now row × Occurs sig.now family.now row init.now)) }
    ensures ascend { IfOk result (λ rows. AreAscending rows.items) }
{
    columns::initial(alloc, sig, init, family)
}

/// The rows of a chain that a rule yields from tables, each once, where they are at most `most`, and
/// else `most + 1` of them. Where the tables hold all rows that occur in a mixture and the rule fires there,
/// each row that occurs afterwards is one of them. It adds one step, whatever it answers.
pub fn results<R: Rows, L: Ledger>(
    alloc: Global,
    sig: &Signature,
    rows: &R,
    rule: &Rule,
    f: FamilyNo,
    most: usize,
    steps: &mut Steps<L>,
) -> Result<Vec<Row>, NoMemory>
    requires tables { AreTables sig.now (R.tables rows.now) }
    requires over { IsRuleOver sig.now rule.now }
    requires chain { (family : Family) ×
        (slice_get (families_of (R.tables rows.now)) f ≡ Some family) × IsChain family }
    requires most { most ≤ 200000 }
    ensures steps { steps.new ≡ steps.old + 1 }
    ensures results { IfOk result (λ found.
        AreResults sig.now (R.tables rows.now) rule.now f most found.items) }
    ensures follows { IfOk result (λ found. length found.items ≤ most →
        (m : List (Option Agent)) (cells : List ℕ) (family : Family) (row : Row) →
        IsMixtureOver sig.now m → Cover sig.now (R.tables rows.now) m →
        IsEmbedding rule.now.left m cells →
        slice_get (families_of (R.tables rows.now)) f ≡ Some family → IsRow sig.now family row →
        Occurs sig.now family row (fire rule.now cells m) → Has found.items row) }
{
    columns::results(alloc, sig, rows, rule, f, most, steps)
}

/// The rows of a chain that a rule yields from tables and that they don't have, each once, where they
/// are at most `most`, and else `most + 1` of them. Rows that the tables have cost a look-up each. It adds
/// one step, whatever it answers.
pub fn new_results<R: Rows, L: Ledger>(
    alloc: Global,
    sig: &Signature,
    rows: &R,
    rule: &Rule,
    f: FamilyNo,
    most: usize,
    steps: &mut Steps<L>,
) -> Result<Vec<Row>, NoMemory>
    requires tables { AreTables sig.now (R.tables rows.now) }
    requires over { IsRuleOver sig.now rule.now }
    requires chain { (family : Family) ×
        (slice_get (families_of (R.tables rows.now)) f ≡ Some family) × IsChain family }
    requires most { most ≤ 200000 }
    ensures steps { steps.new ≡ steps.old + 1 }
    ensures results { IfOk result (λ found.
        AreNewResults sig.now (R.tables rows.now) rule.now f most found.items) }
{
    columns::new_results(alloc, sig, rows, rule, f, most, steps)
}

/// The least row in row order that a rule yields from tables and that they don't have, None exactly where
/// they have each row that it yields.
pub fn missing<R: Rows>(
    alloc: Global,
    sig: &Signature,
    rows: &R,
    rule: &Rule,
    f: FamilyNo,
) -> Result<Option<Row>, NoMemory>
    requires tables { AreTables sig.now (R.tables rows.now) }
    requires over { IsRuleOver sig.now rule.now }
    requires chain { (family : Family) ×
        (slice_get (families_of (R.tables rows.now)) f ≡ Some family) × IsChain family }
    ensures { IfOk result (λ answer. MatchOption answer
        ((row : Row) → ¬ IsMissing sig.now (R.tables rows.now) rule.now f row)
        (λ row. IsFirstMissing sig.now (R.tables rows.now) rule.now f row)) }
{
    columns::missing(alloc, sig, rows, rule, f)
}
