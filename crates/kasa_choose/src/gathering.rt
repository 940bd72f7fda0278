// The families that boxed choosers plan for a model.
ghost use Rattle.std.specs.Prelude.{◌≡◌, ◌≤◌, ◌<◌, ◌∷◌, [], List, length, OnOk, IfOk, IfSome, IfNone, IsErrOf};
ghost use Rattle.kasa_graph.specs.Lists.{Has, AllDifferent};
ghost use Rattle.kasa_families.specs.declared.family.Family.{Family};
ghost use Rattle.kasa_families.specs.Family.{IsFamily};
ghost use Rattle.kasa_choose.specs.declared.gathering.GatherFault.TheVariants.{TooMany as too_many, NoMemory as no_memory};
ghost use Rattle.kasa_choose.specs.Gathered.{AreFirst, IsNewFamily, IsTakenOn, IsGathered};

use crate::kind::is_left_out;
use crate::planned::{MOST, Planned};
use crate::{Chooser, Kind};
use kasa_families::{Family, is_family};
use kasa_num::NoMemory;
use kasa_rules::Model;
use std::alloc::Global;
use thiserror::Error;

/// Why no families were gathered.
#[derive(Debug, Drop, PartialEq, Eq, Error)]
pub enum GatherFault {
    /// There are more than 8,000 families.
    #[error("too many families")]
    TooMany,
    /// There is no memory for the families.
    #[error("no memory")]
    NoMemory,
}

impl From<NoMemory> for GatherFault {
    ghost from_gives = { λ _ fault. fault ≡ no_memory };

    fn from(_: NoMemory) -> GatherFault {
        GatherFault::NoMemory
    }
}

// The calls through a box stand in functions of their own, so that a proof can cite their clauses.
fn kind_of(chooser: &Box<dyn Chooser>) -> Kind
    ensures { result ≡ kind chooser.now }
{
    chooser.kind()
}

fn begin_of(chooser: &mut Box<dyn Chooser>, model: &Model) -> Result<(), NoMemory>
    ensures { OnOk result (left chooser.new ≡ plan chooser.old model.now) }
{
    chooser.begin(model)
}

fn next_of(chooser: &mut Box<dyn Chooser>) -> Option<Family>
    ensures some { IfSome result (λ f. left chooser.old ≡ f ∷ left chooser.new) }
    ensures none { IfNone result (left chooser.old ≡ []) }
{
    chooser.next()
}

// The families, and behind them this one, where it is valid and new.
fn take_on(model: &Model, family: Family, before: Planned) -> Result<Planned, GatherFault>
    requires { length before ≤ 8000 }
    ensures taken { IfOk result (λ after. IsTakenOn model.now before family after) }
    ensures few { IfOk result (λ after. length after ≤ 8000) }
    ensures many { IsErrOf result too_many → IsNewFamily model.now before family × (length before ≡ 8000) }
{
    if !is_family(&model.sig, &family) {
        return Ok(before);
    }
    let after = before.keep(family)?;
    if after.len() > MOST {
        return Err(GatherFault::TooMany);
    }
    Ok(after)
}

// The families, and behind them those that one chooser plans and that are valid and new.
fn take_plan(
    mut chooser: Box<dyn Chooser>,
    model: &Model,
    before: Planned,
) -> Result<Planned, GatherFault>
    requires { length before ≤ 8000 }
    ensures first { IfOk result (λ after. AreFirst model.now before (plan chooser model.now) after) }
    ensures few { IfOk result (λ after. length after ≤ 8000) }
    ensures many { IsErrOf result too_many → (families : List _) → AreFirst model.now before (plan chooser model.now) families → 8000 < length families }
{
    begin_of(&mut chooser, model)?;
    let mut after = before;
    while let Some(family) = next_of(&mut chooser) {
        after = take_on(model, family, after)?;
    }
    Ok(after)
}

// All families of the boxes whose kind isn't left out.
fn take_plans(
    alloc: Global,
    model: &Model,
    mut choosers: Vec<Box<dyn Chooser>>,
    without: &[Kind],
) -> Result<Planned, GatherFault>
    ensures gathered { IfOk result (λ families. IsGathered (λ b. kind b) (λ b. plan b) choosers.items without.now model.now families) }
    ensures few { IfOk result (λ families. length families ≤ 8000) }
    ensures many { IsErrOf result too_many → (families : List _) → IsGathered (λ b. kind b) (λ b. plan b) choosers.items without.now model.now families → 8000 < length families }
{
    let mut families = Planned::new(alloc);
    while !choosers.is_empty() {
        let chooser = choosers.remove(0);
        if !is_left_out(kind_of(&chooser), without) {
            families = take_plan(chooser, model, families)?;
        }
    }
    Ok(families)
}

/// The families that the choosers plan, in order, but for those whose kind is left out, which aren't begun: valid
/// families, and of equal ones the first. `TooMany` exactly where there are more than 8,000.
pub fn gather(
    alloc: Global,
    model: &Model,
    choosers: Vec<Box<dyn Chooser>>,
    without: &[Kind],
) -> Result<Vec<Family>, GatherFault>
    ensures gathered { IfOk result (λ families. IsGathered (λ b. kind b) (λ b. plan b) choosers.items without.now model.now families.items) }
    ensures valid { IfOk result (λ families. (f : Family) → Has families.items f → IsFamily model.now.sig f) }
    ensures different { IfOk result (λ families. AllDifferent families.items) }
    ensures few { IfOk result (λ families. length families.items ≤ 8000) }
    ensures many { IsErrOf result too_many → (families : List Family) → IsGathered (λ b. kind b) (λ b. plan b) choosers.items without.now model.now families → 8000 < length families }
{
    let families = take_plans(alloc, model, choosers, without)?;
    Ok(families.families())
}
