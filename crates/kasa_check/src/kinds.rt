// The rows of one family, whatever its kind, as the crate of its kind finds them.
ghost use Rattle.std.specs.Prelude.{◌≡◌, ◌↔◌, Some, slice_get, IfOk, MatchOption};
ghost use Rattle.kasa_lists.specs.Lists.{Has};
ghost use Rattle.kasa_graph.specs.Mixture.{IsMixtureOver};
ghost use Rattle.kasa_families.specs.declared.family.Family.{Family};
ghost use Rattle.kasa_families.specs.declared.row.Row.{Row};
ghost use Rattle.kasa_families.specs.Family.{IsFamily};
ghost use Rattle.kasa_families.specs.Pattern.{Occurs};
ghost use Rattle.kasa_families.specs.Row.{IsRow, AreAscending};
ghost use Rattle.kasa_families.specs.Table.{AreTables, families_of};
ghost use Rattle.kasa_rules.specs.Rule.{IsRuleOver};
ghost use Rattle.kasa_columns.specs.Results.{IsMissing, IsFirstMissing};

use kasa_columns as columns;
use kasa_families::{Family, Row, Rows};
use kasa_graph::{Mixture, Signature};
use kasa_num::{FamilyNo, NoMemory};
use kasa_parallel as parallel;
use kasa_rules::Rule;
use std::alloc::Global;

// The rows of a family that occur in a declared complex, in row order.
pub(crate) fn initial(
    alloc: Global,
    sig: &Signature,
    init: &Mixture,
    family: &Family,
) -> Result<Vec<Row>, NoMemory>
    requires valid { IsFamily sig.now family.now }
    requires over { IsMixtureOver sig.now init.now }
    ensures rows { IfOk result (λ rows. (row : Row) → Has rows.items row ↔
        (IsRow sig.now family.now row × Occurs sig.now family.now row init.now)) }
    ensures ascend { IfOk result (λ rows. AreAscending rows.items) }
{
    match family {
        Family::Parallel { .. } => parallel::initial(alloc, sig, init, family),
        _ => columns::initial(alloc, sig, init, family),
    }
}

// The least row of a family that a rule yields from tables and that they don't have.
pub(crate) fn missing<R: Rows>(
    alloc: Global,
    sig: &Signature,
    rows: &R,
    rule: &Rule,
    f: FamilyNo,
) -> Result<Option<Row>, NoMemory>
    requires tables { AreTables sig.now (R.tables rows.now) }
    requires over { IsRuleOver sig.now rule.now }
    requires there { (family : Family) ×
        (slice_get (families_of (R.tables rows.now)) f ≡ Some family) }
    ensures { IfOk result (λ answer. MatchOption answer
        ((row : Row) → ¬ IsMissing sig.now (R.tables rows.now) rule.now f row)
        (λ row. IsFirstMissing sig.now (R.tables rows.now) rule.now f row)) }
{
    match rows.family(f) {
        Some(Family::Parallel { .. }) => parallel::missing(alloc, sig, rows, rule, f),
        _ => columns::missing(alloc, sig, rows, rule, f),
    }
}
