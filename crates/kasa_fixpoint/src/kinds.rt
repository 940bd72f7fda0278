// The rows of one family, whatever its kind, as the crate of its kind finds them.
ghost use Rattle.std.specs.Prelude.{◌≡◌, ◌↔◌, ◌+◌, Some, slice_get, IfOk};
ghost use Rattle.kasa_lists.specs.Lists.{Has};
ghost use Rattle.kasa_graph.specs.Mixture.{IsMixtureOver};
ghost use Rattle.kasa_families.specs.declared.family.Family.{Family};
ghost use Rattle.kasa_families.specs.declared.row.Row.{Row};
ghost use Rattle.kasa_families.specs.Family.{IsFamily};
ghost use Rattle.kasa_families.specs.Pattern.{Occurs};
ghost use Rattle.kasa_families.specs.Row.{IsRow};
ghost use Rattle.kasa_families.specs.Table.{AreTables, families_of};
ghost use Rattle.kasa_rules.specs.Rule.{IsRuleOver};
ghost use Rattle.kasa_columns.specs.Results.{AreNewResults};

use kasa_columns as columns;
use kasa_families::{Family, Row, Rows};
use kasa_graph::{Mixture, Signature};
use kasa_num::{FamilyNo, NoMemory, Steps};
use kasa_parallel as parallel;
use kasa_rules::Rule;
use kasa_tables::Tables;
use std::alloc::Global;
use std::sync::ledger::Ledger;

/// The most rows that are asked for.
pub(crate) const MOST_ROWS: usize = 200_000;

// The rows of a family that occur in a declared complex.
pub(crate) fn initial(
    alloc: Global,
    sig: &Signature,
    init: &Mixture,
    family: &Family,
) -> Result<Vec<Row>, NoMemory>
    requires valid { IsFamily sig.now family.now }
    requires over { IsMixtureOver sig.now init.now }
    ensures rows { IfOk result (λ rows. (row : Row) → Has rows.items row ↔
        (IsRow sig.now family.now row × Occurs sig.now family.now row init.now)) }
{
    match family {
        Family::Parallel { .. } => parallel::initial(alloc, sig, init, family),
        _ => columns::initial(alloc, sig, init, family),
    }
}

// The rows that a rule yields of a family and that tables don't have. It adds one step, whatever it answers.
pub(crate) fn new_rows<L: Ledger>(
    alloc: Global,
    sig: &Signature,
    tables: &Tables,
    rule: &Rule,
    f: FamilyNo,
    steps: &mut Steps<L>,
) -> Result<Vec<Row>, NoMemory>
    requires tables { AreTables sig.now tables.now }
    requires over { IsRuleOver sig.now rule.now }
    requires there { (family : Family) × (slice_get (families_of tables.now) f ≡ Some family) }
    ensures step { steps.new ≡ steps.old + 1 }
    ensures results { IfOk result (λ found. AreNewResults sig.now tables.now rule.now f 200000 found.items) }
{
    match tables.family(f) {
        Some(Family::Parallel { .. }) => {
            parallel::new_results(alloc, sig, tables, rule, f, MOST_ROWS, steps)
        }
        _ => columns::new_results(alloc, sig, tables, rule, f, MOST_ROWS, steps),
    }
}
