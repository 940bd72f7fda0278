//! Laws of the rows of families with columns.

ghost use Rattle.std.specs.Prelude.{◌≡◌, ◌↔◌, ℕ, List, [], Option, Some, slice_get};
ghost use Rattle.kasa_graph.specs.Signature.{TypeEntry};
ghost use Rattle.kasa_graph.specs.Lists.{Has};
ghost use Rattle.kasa_families.specs.declared.family.Family.{Family};
ghost use Rattle.kasa_families.specs.declared.row.Local.{Local};
ghost use Rattle.kasa_families.specs.declared.row.Row.TheVariants.{Locals};
ghost use Rattle.kasa_families.specs.Row.{IsRow};
ghost use Rattle.kasa_families.specs.Table.{Table, AreTables, families_of};
ghost use Rattle.kasa_rules.specs.Rule.{RuleParts, IsRuleOver};
ghost use Rattle.kasa_families.specs.declared.shape.NodeSite.{NodeSite};
ghost use Rattle.kasa_families.specs.Family.{shape_of};
ghost use Rattle.kasa_pre.specs.Before.{AreFreed};
ghost use Rattle.kasa_pre.specs.Yields.{Yields};
ghost use Rattle.kasa_columns.specs.Forward.{HasColumns, YieldsAt, YieldsLeaving, ComesForward, WasStored};
ghost use Rattle.kasa_columns.specs.Choices.{AreViews, MayHaveShown};
ghost use Rattle.kasa_columns.specs.Comes.{Outcome, ComesOut};
ghost use Rattle.kasa_columns.specs.Along.{AreJoined, LeadsAlong, LeavesColumns};
ghost use Rattle.kasa_families.specs.Shape.{Shape, IsShape, pattern_of};
ghost use Rattle.kasa_pre.specs.declared.Stand.{Stand};
ghost use Rattle.kasa_pre.specs.declared.FreedBy.{FreedBy};

/// A rule that leaves the bonds of a root yields a row exactly where the row comes forward from a row of the same family that
/// the tables hold, or from a single created agent.
pub fn rows_come_forward()
    ensures { (sig : List TypeEntry) (tables : List Table) (r : RuleParts) (family : Family) (locals : List Local) → HasColumns family → AreTables sig tables → IsRuleOver sig r → Has (families_of tables) family → IsRow sig family (Locals locals) → YieldsLeaving sig tables r family locals ↔ ComesForward sig tables r family (WasStored tables r family) locals }
{}

/// A rule yields a row exactly where the row comes forward from such a row, or, where the rule writes a bond of the root, from a
/// choice for each column: a local state that a row of a view lists, whatever view of the tables is taken for the column, and
/// any local state where none is taken.
pub fn rows_come_from_choices()
    ensures { (sig : List TypeEntry) (tables : List Table) (r : RuleParts) (family : Family) (view : NodeSite → Option (List ℕ)) (locals : List Local) → HasColumns family → AreTables sig tables → IsRuleOver sig r → Has (families_of tables) family → AreViews tables (shape_of family) view → IsRow sig family (Locals locals) → Yields sig tables r family (Locals locals) ↔ ComesForward sig tables r family (MayHaveShown sig tables r family view) locals }
{}

/// Where a rule yields a row, the stand of a node tells where the other node of a bond stands: at the end of a bond that the
/// rule writes there, and where the node is a left one whose test leads to a node, at that node.
pub fn stands_follow_bonds()
    ensures { (sig : List TypeEntry) (tables : List Table) (r : RuleParts) (shape : Shape) (locals : List Local) (stands : List Stand) (freed : List FreedBy) → IsRuleOver sig r → IsShape sig shape → YieldsAt sig tables r (pattern_of sig shape locals) stands freed → (s t : NodeSite) → AreJoined shape.bonds s t → (stand : Stand) → slice_get stands s.node ≡ Some stand → LeadsAlong r stands s t }
{}

/// Columns where the rule writes nothing and nothing is freed show what they showed, so such a row is one that was there.
pub fn what_stays_was_there()
    ensures { (r : RuleParts) (stands : List Stand) (columns : List NodeSite) (shown : List Local) (out : Outcome) → LeavesColumns r columns stands → ComesOut r stands columns shown out → out.freed ≡ [] → out.locals ≡ shown }
{}

/// The freed tests of an outcome are free tests of the row that comes out, which the rule doesn't write.
pub fn freed_tests_are_free()
    ensures { (sig : List TypeEntry) (r : RuleParts) (shape : Shape) (stands : List Stand) (shown : List Local) (out : Outcome) → IsShape sig shape → ComesOut r stands shape.columns shown out → AreFreed r (pattern_of sig shape out.locals) stands out.freed }
{}
