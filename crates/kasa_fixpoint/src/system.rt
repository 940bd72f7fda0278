// The pairs that act, as a system for the worklist.
ghost use Rattle.std.specs.Prelude.{◌≡◌, ◌≤◌, ◌+◌, ℕ, List, length, Some, slice_get, IfOk};
ghost use Rattle.kasa_lists.specs.Lists.{Has};
ghost use Rattle.kasa_families.specs.declared.family.Family.{Family};
ghost use Rattle.kasa_families.specs.Family.{IsFamily};
ghost use Rattle.kasa_families.specs.Table.{AreTables, families_of};
ghost use Rattle.kasa_rules.specs.Rule.{IsRuleOver};
ghost use Rattle.kasa_rules.specs.Reached.{IsModel};

use crate::inserting::insert_all;
use crate::kinds::{MOST_ROWS, new_rows};
use crate::pairs::{Pair, acting_pairs};
use crate::readers::{Numbers, readers};
use kasa_families::{Family, Row, first_type};
use kasa_num::{FamilyNo, NoMemory, Steps};
use kasa_rules::Model;
use kasa_tables::Tables;
use kasa_worklist::{SolveFault, System};
use std::alloc::Global;
use std::marker;
use std::sync::ledger::Ledger;

// A model and families, the pairs that act, and of each type those that read families whose root begins with it.
#[derive(Drop)]
pub(crate) struct PairSystem<'a> {
    model: &'a Model,
    families: Vec<Family>,
    pairs: Vec<Pair>,
    readers: Vec<Numbers>,
}

impl<'a> marker::Model for PairSystem<'a> {
    ghost use Rattle.kasa_fixpoint.specs.System.{SystemParts, IsPlanned};

    ghost Value = { SystemParts };

    ghost view = { λ s. record { model = s.model.now; families = s.families.items; pairs = s.pairs.items } };

    ghost invariant = { λ s. let parts : SystemParts = record { model = s.model.now; families = s.families.items; pairs = s.pairs.items } in IsPlanned parts s.readers.items };
}

impl<'a> PairSystem<'a> {
    ghost use Rattle.kasa_fixpoint.specs.System.{IsPlanned};

    pub(crate) fn new(
        alloc: Global,
        model: &'a Model,
        families: Vec<Family>,
    ) -> Result<PairSystem<'a>, NoMemory>
        requires model { IsModel model.now }
        requires valid { (family : Family) → Has families.items family → IsFamily model.now.sig family }
        requires few { length families.items ≤ 8000 }
        ensures model { IfOk result (λ system. system.model ≡ model.now) }
        ensures families { IfOk result (λ system. system.families ≡ families.items) }
        ensures planned { IfOk result (λ system. (lists : List (List ℕ)) × IsPlanned system lists) }
    {
        let pairs = acting_pairs(alloc, model, families.as_slice())?;
        let readers = readers(alloc, model, families.as_slice(), pairs.as_slice())?;
        Ok(PairSystem {
            model,
            families,
            pairs,
            readers,
        })
    }
}

impl<'a> System for PairSystem<'a> {
    type Tables = Tables;

    type Row = Row;

    ghost use Rattle.kasa_fixpoint.specs.System.{system_of};

    ghost relations = { system_of };

    fn pairs(&self) -> u32 {
        self.pairs.len() as u32
    }

    fn readers(&self, pair: u32) -> &[u32] {
        let pair = self.pairs[pair as usize];
        let agent = first_type(&self.families[pair.family as usize]);
        self.readers[agent.0 as usize].as_slice()
    }

    fn apply<L: Ledger>(
        &self,
        alloc: Global,
        tables: &mut Tables,
        pair: u32,
        steps: &mut Steps<L>,
    ) -> Result<bool, SolveFault> {
        let pair = self.pairs[pair as usize];
        let model = self.model;
        let rule = &model.rules.as_slice()[pair.rule as usize];
        let f = FamilyNo(pair.family);
        let rows = new_rows(alloc, &model.sig, tables, rule, f, steps)?;
        if rows.len() > MOST_ROWS {
            return Err(SolveFault::TooManyRows);
        }
        insert_all(tables, f, rows)
    }
}
