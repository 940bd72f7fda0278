//! Laws of what a rule yields from tables that grow.

ghost use Rattle.std.specs.Prelude.{◌≡◌, List};
ghost use Rattle.kasa_graph.specs.Signature.{TypeEntry};
ghost use Rattle.kasa_rules.specs.Rule.{RuleParts};
ghost use Rattle.kasa_families.specs.declared.family.Family.{Family};
ghost use Rattle.kasa_families.specs.declared.row.Row.{Row};
ghost use Rattle.kasa_families.specs.Row.{IsRow};
ghost use Rattle.kasa_families.specs.Table.{Table, families_of, IsWithin};
ghost use Rattle.kasa_pre.specs.Yields.{Yields};
ghost use Rattle.kasa_fixpoint.specs.Reads.{IsReadWithin};

/// What a rule yields from tables, it yields from larger ones.
pub fn larger_tables_yield_more()
    ensures { (sig : List TypeEntry) (first second : List Table) (r : RuleParts) (family : Family)
        (row : Row) → families_of second ≡ families_of first → IsWithin first second →
        Yields sig first r family row → Yields sig second r family row }
{}

/// Rows of families that a rule doesn't read are of no account: what it yields, it yields without those that are new of
/// such families.
pub fn only_read_families_matter()
    ensures { (sig : List TypeEntry) (first second : List Table) (r : RuleParts) (family : Family)
        (row : Row) → families_of second ≡ families_of first → IsRow sig family row →
        IsReadWithin first second r family →
        Yields sig second r family row → Yields sig first r family row }
{}
