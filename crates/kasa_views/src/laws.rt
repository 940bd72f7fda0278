//! Laws of the rows of views.

ghost use Rattle.std.specs.Prelude.{◌↔◌, ℕ, List};
ghost use Rattle.kasa_graph.specs.Signature.{TypeEntry};
ghost use Rattle.kasa_graph.specs.Lists.{Has};
ghost use Rattle.kasa_families.specs.declared.family.Family.TheVariants.{View};
ghost use Rattle.kasa_families.specs.declared.row.Local.{Local};
ghost use Rattle.kasa_families.specs.declared.row.Row.TheVariants.{Locals};
ghost use Rattle.kasa_families.specs.Row.{IsRow};
ghost use Rattle.kasa_families.specs.Table.{Table, AreTables, families_of};
ghost use Rattle.kasa_rules.specs.Rule.{RuleParts, IsRuleOver};
ghost use Rattle.kasa_pre.specs.Yields.{Yields};
ghost use Rattle.kasa_views.specs.Comes.{ComesForward};

/// A rule yields a row of a view exactly where the row comes forward from a row that the tables hold, or from a created
/// agent: at each site the stored row's local state, or what the rule writes, or free where the rule touches a left site
/// that the stored partner may be.
pub fn yielded_rows_come_forward()
    ensures { (sig : List TypeEntry) (tables : List Table) (r : RuleParts) (a : ℕ)
        (sites : List ℕ) (locals : List Local) → AreTables sig tables → IsRuleOver sig r →
        Has (families_of tables) (View a sites) → IsRow sig (View a sites) (Locals locals) →
        Yields sig tables r (View a sites) (Locals locals) ↔
        ComesForward sig tables r a sites locals }
{}
