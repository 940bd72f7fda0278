//! Laws of the rows of parallel families.

ghost use Rattle.std.specs.Prelude.{◌≡◌, ℕ, List, Option, None, Some, slice_get};
ghost use Rattle.kasa_graph.specs.declared.mixture.Agent.{Agent};
ghost use Rattle.kasa_graph.specs.Lists.{Has};
ghost use Rattle.kasa_graph.specs.Signature.{TypeEntry};
ghost use Rattle.kasa_graph.specs.Mixture.{IsMixtureOver};
ghost use Rattle.kasa_graph.specs.Embedding.{IsEmbedding};
ghost use Rattle.kasa_families.specs.declared.family.Family.{Family};
ghost use Rattle.kasa_families.specs.declared.family.Family.TheVariants.{Parallel};
ghost use Rattle.kasa_families.specs.declared.row.Row.{Row};
ghost use Rattle.kasa_families.specs.Row.{IsRow};
ghost use Rattle.kasa_families.specs.Pattern.{Occurs, row_pattern};
ghost use Rattle.kasa_families.specs.Table.{Table, AreTables, Holds, families_of};
ghost use Rattle.kasa_rules.specs.Rule.{RuleParts, IsRuleOver};
ghost use Rattle.kasa_rules.specs.Firing.{fire};
ghost use Rattle.kasa_pre.specs.declared.Stand.{Stand};
ghost use Rattle.kasa_pre.specs.Before.{link_written};
ghost use Rattle.kasa_pre.specs.Closed.{Cover};
ghost use Rattle.kasa_pre.specs.Yields.{Yields};
ghost use Rattle.kasa_parallel.specs.Parallel.{IsParallel};
ghost use Rattle.kasa_parallel.specs.Partners.{YieldsWith};

/// Where tables hold all rows that occur in a mixture, each row of a parallel family that occurs after a firing is yielded.
pub fn what_follows_is_yielded()
    ensures { (sig : List TypeEntry) (tables : List Table) (m : List (Option Agent)) (r : RuleParts)
        (cells : List ℕ) (family : Family) (row : Row) → IsParallel family → AreTables sig tables →
        IsMixtureOver sig m → Cover sig tables m → IsRuleOver sig r → IsEmbedding r.left m cells →
        IsRow sig family row → Occurs sig family row (fire r cells m) →
        Yields sig tables r family row }
{}

/// Where a rule writes neither bond of an agent, a row that it yields with this agent is one that the tables hold: both
/// bonds were there before, so the row stood there, and no other row can stand at the same agent.
pub fn unwritten_bonds_give_nothing_new()
    ensures { (sig : List TypeEntry) (tables : List Table) (r : RuleParts) (a x u b y w : ℕ)
        (row : Row) (first : Stand) → AreTables sig tables → IsRuleOver sig r →
        Has (families_of tables) (Parallel a x u b y w) → IsRow sig (Parallel a x u b y w) row →
        link_written r first x ≡ None → link_written r first u ≡ None →
        YieldsWith sig tables r (row_pattern sig (Parallel a x u b y w) row) first →
        Holds tables (Parallel a x u b y w) row }
{}
