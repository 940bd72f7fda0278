//! Laws of what stood before, of what tables allow and of closed tables.

ghost use Rattle.std.specs.Prelude.{◌↔◌, ℕ, List, Option, length};
ghost use Rattle.kasa_graph.specs.declared.mixture.Agent.{Agent};
ghost use Rattle.kasa_graph.specs.declared.pattern.Node.{Node};
ghost use Rattle.kasa_graph.specs.Signature.{TypeEntry};
ghost use Rattle.kasa_graph.specs.Pattern.{Implies, IsPatternOver};
ghost use Rattle.kasa_graph.specs.Mixture.{IsMixtureOver};
ghost use Rattle.kasa_graph.specs.Embedding.{IsEmbedding};
ghost use Rattle.kasa_rules.specs.Rule.{RuleParts, IsRuleOver};
ghost use Rattle.kasa_rules.specs.Firing.{fire};
ghost use Rattle.kasa_rules.specs.declared.model.Model.{Model};
ghost use Rattle.kasa_rules.specs.Reached.{IsModel};
ghost use Rattle.kasa_families.specs.declared.family.Family.{Family};
ghost use Rattle.kasa_families.specs.declared.row.Row.{Row};
ghost use Rattle.kasa_families.specs.Family.{IsFamily};
ghost use Rattle.kasa_families.specs.Row.{IsRow};
ghost use Rattle.kasa_families.specs.Pattern.{Occurs, row_pattern};
ghost use Rattle.kasa_families.specs.Table.{Table, AreTables};
ghost use Rattle.kasa_pre.specs.declared.Stand.{Stand};
ghost use Rattle.kasa_pre.specs.declared.FreedBy.{FreedBy};
ghost use Rattle.kasa_pre.specs.Allowed.{IsAllowed};
ghost use Rattle.kasa_pre.specs.Yields.{Yields, YieldsMostGeneral};
ghost use Rattle.kasa_pre.specs.Acts.{ActsOn, YieldsNothingNew};
ghost use Rattle.kasa_pre.specs.Closed.{Cover, IsClosed};
ghost use Rattle.kasa_pre.specs.Sound.{IsSoundFor};
ghost use Rattle.kasa_pre.specs.LiesOn.{AllLieOn, AreJustFreed, StoodBefore};

/// What is more general than an allowed pattern on the same nodes is allowed.
pub fn more_general_is_allowed()
    ensures { (sig : List TypeEntry) (tables : List Table) (g h : List Node) → Implies h g →
        IsAllowed sig tables h → IsAllowed sig tables g }
{}

/// A rule yields a row from tables exactly where, for some stands and some list of freed tests, a most general pattern
/// can have stood before, and the tables allow it.
pub fn most_general_patterns_decide()
    ensures { (sig : List TypeEntry) (tables : List Table) (r : RuleParts) (family : Family)
        (row : Row) → IsRuleOver sig r → IsFamily sig family → IsRow sig family row →
        Yields sig tables r family row ↔ YieldsMostGeneral sig tables r (row_pattern sig family row) }
{}

/// What stands after a firing had a pattern before it, for the stands on which it lies and the tests that the side effect freed.
pub fn a_pattern_stood_before()
    ensures { (sig : List TypeEntry) (r : RuleParts) (cells : List ℕ) (m : List (Option Agent))
        (v : List Node) (after : List ℕ) (stands : List Stand) (freed : List FreedBy) →
        IsMixtureOver sig m → IsRuleOver sig r → IsEmbedding r.left m cells → IsPatternOver sig v →
        IsEmbedding v (fire r cells m) after → AllLieOn cells (length m) stands after →
        AreJustFreed r cells m v after freed → StoodBefore sig r cells m v after stands freed }
{}

/// There are such stands and such a list.
pub fn some_pattern_stood_before()
    ensures { (sig : List TypeEntry) (r : RuleParts) (cells : List ℕ) (m : List (Option Agent))
        (v : List Node) (after : List ℕ) → IsMixtureOver sig m → IsRuleOver sig r →
        IsEmbedding r.left m cells → IsPatternOver sig v → IsEmbedding v (fire r cells m) after →
        (stands : List Stand) ×
        (freed : List FreedBy) × StoodBefore sig r cells m v after stands freed }
{}

/// Tables that hold all rows that occur in a mixture allow each pattern that stands there.
pub fn what_stands_is_allowed()
    ensures { (sig : List TypeEntry) (tables : List Table) (m : List (Option Agent)) (g : List Node)
        (cells : List ℕ) → AreTables sig tables → IsMixtureOver sig m → Cover sig tables m →
        IsEmbedding g m cells → IsAllowed sig tables g }
{}

/// Where tables hold all rows that occur in a mixture, each row that occurs after a firing is yielded.
pub fn what_follows_is_yielded()
    ensures { (sig : List TypeEntry) (tables : List Table) (m : List (Option Agent)) (r : RuleParts)
        (cells : List ℕ) (family : Family) (row : Row) → AreTables sig tables →
        IsMixtureOver sig m → Cover sig tables m → IsRuleOver sig r → IsEmbedding r.left m cells →
        IsRow sig family row → Occurs sig family row (fire r cells m) →
        Yields sig tables r family row }
{}

/// Closed tables are sound: in each mixture that the model reaches, by any firings and additions, they hold all rows that
/// occur, their lemmas hold, and no dead rule can fire. Closed speaks of the rows of all declared complexes, those of inits
/// and of additions alike.
pub fn closed_tables_are_sound()
    ensures { (model : Model) (tables : List Table) → AreTables model.sig tables → IsModel model →
        IsClosed model tables → IsSoundFor model tables }
{}

/// What a rule that doesn't act on a family yields of it stands in the tables.
pub fn other_rules_yield_nothing_new()
    ensures { (r : RuleParts) (family : Family) → ¬ ActsOn r family → YieldsNothingNew r family }
{}
