// The least closed tables of a model over families, by a worklist.
ghost use Rattle.std.specs.Prelude.{◌≡◌, ◌≤◌, ℕ, List, Option, length, Err, IfOk};
ghost use Rattle.kasa_graph.specs.declared.mixture.Agent.{Agent};
ghost use Rattle.kasa_lists.specs.Lists.{Has, AllDifferent};
ghost use Rattle.kasa_families.specs.declared.family.Family.{Family};
ghost use Rattle.kasa_families.specs.Family.{IsFamily};
ghost use Rattle.kasa_families.specs.Table.{AreTables, families_of};
ghost use Rattle.kasa_rules.specs.Rule.{RuleParts};
ghost use Rattle.kasa_rules.specs.Reached.{Reached};
ghost use Rattle.kasa_graph.specs.Embedding.{IsEmbedding};
ghost use Rattle.kasa_pre.specs.Allowed.{IsDead};
ghost use Rattle.kasa_pre.specs.Closed.{IsLeast, LemmaHolds};
ghost use Rattle.kasa_worklist.specs.declared.fault.SolveFault.TheVariants.{TooManyRows as too_many_rows};
ghost use Rattle.kasa_fixpoint.specs.Limit.{PassesLimit};
ghost use Rattle.kasa_fixpoint.specs.Bounds.{AreBoundedSteps};

use crate::inits::insert_inits;
use crate::system::PairSystem;
use kasa_families::Family;
use kasa_num::{NoMemory, Steps};
use kasa_rules::Model;
use kasa_tables::Tables;
use kasa_worklist::{SolveFault, close};
use std::alloc::Global;
use std::sync::ledger::Ledger;

/// The least closed tables of a model over some families: each row that occurs in an init or that a rule
/// yields from the tables is there, and no other one. `TooManyRows` comes exactly where no closed tables over the
/// families have at most 200,000 rows. What the lemmas of the tables say holds in every mixture that the model reaches,
/// and no rule that is dead in them ever fires there. Its steps are at least as many as there are pairs of a rule and a
/// family on which it acts, and at most that number and, for each row of the tables, the number of such pairs that read
/// the row's family.
pub fn solve<L: Ledger>(
    alloc: Global,
    model: &Model,
    families: Vec<Family>,
    steps: &mut Steps<L>,
) -> Result<Tables, SolveFault>
    requires valid { (family : Family) → Has families.items family → IsFamily model.now.sig family }
    requires different { AllDifferent families.items }
    requires few { length families.items ≤ 8000 }
    ensures families { IfOk result (λ tables. families_of tables ≡ families.items) }
    ensures tables { IfOk result (λ tables. AreTables model.now.sig tables) }
    ensures least { IfOk result (λ tables. IsLeast model.now tables) }
    ensures too_many { result ≡ Err too_many_rows → PassesLimit 200000 model.now families.items }
    ensures few_rows { IfOk result (λ tables. ¬ PassesLimit 200000 model.now families.items) }
    ensures lemmas { IfOk result (λ tables. (m : List (Option Agent)) → Reached model.now m → (family : Family) → Has families.items family → LemmaHolds model.now.sig tables family m) }
    ensures dead { IfOk result (λ tables. (m : List (Option Agent)) → Reached model.now m → (r : RuleParts) → IsDead model.now.sig tables r → (cells : List ℕ) → ¬ IsEmbedding r.left m cells) }
    ensures steps { IfOk result (λ tables. AreBoundedSteps model.now families.items tables steps.old steps.new) }
{
    let copies = copy_all(alloc, families.as_slice())?;
    let mut tables = Tables::new(alloc, &model.sig, families)?;
    let system = PairSystem::new(alloc, model, copies)?;
    insert_inits(alloc, model, &mut tables)?;
    close(alloc, &system, &mut tables, steps)?;
    Ok(tables)
}

// Equal families.
fn copy_all(alloc: Global, families: &[Family]) -> Result<Vec<Family>, NoMemory>
    ensures { IfOk result (λ copies. copies.items ≡ families.now) }
{
    let mut copies = Vec::with_capacity(alloc, families.len())?;
    for family in families {
        copies.push(family.copy()?)?;
    }
    Ok(copies)
}
