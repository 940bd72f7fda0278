// The verdict on tables.
ghost use Rattle.std.specs.Prelude.{◌≡◌, ◌↔◌, ℕ, List, Option, IfOk};
ghost use Rattle.kasa_graph.specs.declared.mixture.Agent.{Agent};
ghost use Rattle.kasa_graph.specs.Lists.{Has};
ghost use Rattle.kasa_families.specs.declared.family.Family.{Family};
ghost use Rattle.kasa_families.specs.declared.rows.Verdict.TheVariants.{Closed};
ghost use Rattle.kasa_families.specs.Table.{AreTables, families_of};
ghost use Rattle.kasa_rules.specs.Rule.{RuleParts};
ghost use Rattle.kasa_pre.specs.Allowed.{IsDead};
ghost use Rattle.kasa_pre.specs.Closed.{IsClosed};
ghost use Rattle.kasa_pre.specs.Sound.{AlwaysHolds, NeverFires};
ghost use Rattle.kasa_check.specs.Verdict.{IsVerdict};

use crate::inits::first_of_inits;
use crate::rules::first_of_rules;
use kasa_families::{Rows, Verdict};
use kasa_num::NoMemory;
use kasa_rules::Model;
use std::alloc::Global;

/// Whether tables are closed: `Closed` exactly where they are, and else the first row that they lack. Declared complexes
/// come first, those of inits and of additions alike, and then rules, each in order; within one of these families in order,
/// and within a family row order. Where the tables are closed, the lemma of each of their families holds in every mixture
/// that the model reaches, and no rule that is dead in them ever fires there.
pub fn check<R: Rows>(alloc: Global, model: &Model, rows: &R) -> Result<Verdict, NoMemory>
    requires tables { AreTables model.now.sig (R.tables rows.now) }
    ensures verdict { IfOk result (IsVerdict model.now (R.tables rows.now)) }
    ensures closed { IfOk result (λ verdict.
        (verdict ≡ Closed) ↔ IsClosed model.now (R.tables rows.now)) }
    ensures lemmas { IfOk result (λ verdict. verdict ≡ Closed → (family : Family) →
        Has (families_of (R.tables rows.now)) family →
        AlwaysHolds model.now (R.tables rows.now) family) }
    ensures dead { IfOk result (λ verdict. verdict ≡ Closed → (r : RuleParts) →
        IsDead model.now.sig (R.tables rows.now) r → NeverFires model.now r) }
{
    if let Some(missing) = first_of_inits(alloc, model, rows)? {
        return Ok(Verdict::Missing(missing));
    }
    match first_of_rules(alloc, model, rows)? {
        Some(missing) => Ok(Verdict::Missing(missing)),
        None => Ok(Verdict::Closed),
    }
}
