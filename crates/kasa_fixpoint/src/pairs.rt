// The pairs of a rule and a family on which it acts.
ghost use Rattle.std.specs.Prelude.{◌≡◌, ◌↔◌, ◌<◌, ◌≤◌, ◌+◌, ◌*◌, length, IsTrue, IfOk};
ghost use Rattle.kasa_pre.specs.Acts.{TouchesOpen, ActsOn};
ghost use Rattle.kasa_fixpoint.specs.Pairs.{AreActingPairs, AreActingBefore};

use kasa_families::Family;
use kasa_num::NoMemory;
use kasa_pre::{acts_on_all, names_type_of};
use kasa_rules::{Model, Rule};
use std::alloc::Global;

/// A rule and a family, by their places in the lists of the model's rules and of the families, from 0.
#[derive(Clone, Copy, Debug)]
pub struct Pair {
    pub rule: u16,
    pub family: u16,
}

// The pairs that act, rules first and then families.
pub(crate) fn acting_pairs(
    alloc: Global,
    model: &Model,
    families: &[Family],
) -> Result<Vec<Pair>, NoMemory>
    requires few { length families.now ≤ 8000 }
    ensures acting { IfOk result (λ pairs. AreActingPairs model.now families.now pairs.items) }
    ensures few { IfOk result (λ pairs. length pairs.items ≤ 2000 * length families.now) }
{
    let mut pairs = Vec::new(alloc);
    for k in 0..model.rules.as_slice().len() {
        add_acting(model, k, families, &mut pairs)?;
    }
    Ok(pairs)
}

// Puts those of a rule behind those of the rules before it.
fn add_acting(
    model: &Model,
    k: usize,
    families: &[Family],
    pairs: &mut Vec<Pair>,
) -> Result<(), NoMemory>
    requires rule { k < length model.now.rules }
    requires few { length families.now ≤ 8000 }
    requires before { AreActingBefore model.now families.now k 0 pairs.old.items }
    ensures { IfOk result (λ _. AreActingBefore model.now families.now (k + 1) 0 pairs.new.items) }
{
    let rule = &model.rules.as_slice()[k];
    let on_all = acts_on_all(rule);
    for f in 0..families.len() {
        if acts_on(rule, on_all, &families[f]) {
            pairs.push(Pair {
                rule: k as u16,
                family: f as u16,
            })?;
        }
    }
    Ok(())
}

// Whether a rule acts on a family, where it is known whether it acts on all.
fn acts_on(rule: &Rule, on_all: bool, family: &Family) -> bool
    requires { IsTrue on_all ↔ TouchesOpen rule.now }
    ensures { IsTrue result ↔ ActsOn rule.now family.now }
{
    on_all || names_type_of(rule, family)
}
