// Declared complexes and rules, tried for each cause in order.
ghost use Rattle.std.specs.Prelude.{◌≡◌, ◌≢◌, ◌≤◌, ◌++◌, List, Some, length, IfOk, IfErr};
ghost use Rattle.kasa_graph.specs.Signature.{TypeEntry};
ghost use Rattle.kasa_syntax.specs.Place.{place_at};
ghost use Rattle.kasa_compile.specs.declared.fault.CompileFault.TheVariants.{NoMemory as no_memory};
ghost use Rattle.kasa_compile.specs.Sides.{sides_of};
ghost use Rattle.kasa_compile.specs.Valid.{AreSides};
ghost use Rattle.kasa_compile.specs.Causes.{first_of, agents_of_form, name_causes, complex_causes, init_causes, form_causes, sides_causes, limit_causes};
ghost use Rattle.kasa_compile.specs.Compiling.{AreTried};

use crate::CompileFault;
use crate::bonds::Bonds;
use crate::half_bonds::half_bond;
use crate::label_counts::{first_odd_of_agents, odd_label_in_rule};
use crate::limits::{past_limit_of_init, past_limit_of_rule};
use crate::names::{NamePass, first_in_agents, first_in_form};
use crate::partial::partial_site;
use crate::resolved::Side;
use crate::rights::{bad_right, mismatch};
use crate::said::Pair;
use crate::sides::Sides;
use kasa_graph::Signature;
use kasa_num::{NoMemory, Place};
use kasa_syntax::{AgentText, Form, InitDecl, place_of};
use std::alloc::Global;

/// The two sides of a rule, with indices of their labels.
#[derive(Drop)]
pub struct Tried {
    pub sides: Sides,
    pub left: Bonds,
    pub right: Bonds,
}

/// The place of an offset. Behind the text it is that of the end.
pub fn place(text: &[u8], at: u32) -> Place
    requires few { length text.now ≤ 4194304 }
    ensures { result ≡ place_at text.now at }
{
    place_of(text, at.min(text.len() as u32))
}

// The first fault at the names of a declared complex.
#[tactic(auto, unfolding(crate::specs::Causes::first_of))]
fn name_fault_of_init(text: &[u8], sig: &Signature, agents: &[AgentText]) -> Option<CompileFault>
    requires few { length text.now ≤ 4194304 }
    ensures { result ≡ first_of text.now (name_causes text.now sig.now agents.now) }
{
    if let Some(at) = first_in_agents(NamePass::Types, text, sig, agents) {
        return Some(CompileFault::UnknownType(place(text, at)));
    }
    if let Some(at) = first_in_agents(NamePass::Sites, text, sig, agents) {
        return Some(CompileFault::UnknownSite(place(text, at)));
    }
    if let Some(at) = first_in_agents(NamePass::States, text, sig, agents) {
        return Some(CompileFault::UnknownState(place(text, at)));
    }
    if let Some(at) = first_in_agents(NamePass::Twice, text, sig, agents) {
        return Some(CompileFault::SiteTwice(place(text, at)));
    }
    None
}

// The first fault at the names of a rule.
#[tactic(auto, unfolding(crate::specs::Causes::first_of))]
fn name_fault_of_rule(text: &[u8], sig: &Signature, form: &Form) -> Option<CompileFault>
    requires few { length text.now ≤ 4194304 }
    ensures { result ≡ first_of text.now (name_causes text.now sig.now (agents_of_form form.now)) }
{
    if let Some(at) = first_in_form(NamePass::Types, text, sig, form) {
        return Some(CompileFault::UnknownType(place(text, at)));
    }
    if let Some(at) = first_in_form(NamePass::Sites, text, sig, form) {
        return Some(CompileFault::UnknownSite(place(text, at)));
    }
    if let Some(at) = first_in_form(NamePass::States, text, sig, form) {
        return Some(CompileFault::UnknownState(place(text, at)));
    }
    if let Some(at) = first_in_form(NamePass::Twice, text, sig, form) {
        return Some(CompileFault::SiteTwice(place(text, at)));
    }
    None
}

// The first other fault of a declared complex, but that there are too many.
fn complex_fault(
    alloc: Global,
    text: &[u8],
    agents: &[AgentText],
) -> Result<Option<CompileFault>, NoMemory>
    requires few { length text.now ≤ 4194304 }
    ensures { IfOk result (λ fault. fault ≡ first_of text.now (complex_causes agents.now)) }
{
    if let Some(at) = first_odd_of_agents(alloc, Side::Left, agents)? {
        return Ok(Some(CompileFault::LabelNotTwice(place(text, at))));
    }
    if let Some(at) = partial_site(agents) {
        return Ok(Some(CompileFault::PartialInit(place(text, at))));
    }
    if let Some(at) = past_limit_of_init(agents) {
        return Ok(Some(CompileFault::TooManyNodes(place(text, at))));
    }
    Ok(None)
}

/// The first fault of an init or addition before which so many of both stand.
pub fn init_fault(
    alloc: Global,
    text: &[u8],
    sig: &Signature,
    count: usize,
    init: &InitDecl,
) -> Result<Option<CompileFault>, NoMemory>
    requires few { length text.now ≤ 4194304 }
    ensures { IfOk result (λ fault. fault ≡ first_of text.now (init_causes text.now sig.now count init.now)) }
{
    let names = name_fault_of_init(text, sig, init.agents.as_slice());
    if names.is_some() {
        return Ok(names);
    }
    let others = complex_fault(alloc, text, init.agents.as_slice())?;
    if others.is_some() {
        return Ok(others);
    }
    if count >= 1000 {
        return Ok(Some(CompileFault::TooManyInits(place(text, init.start.start))));
    }
    Ok(None)
}

// The first other fault of a rule that shows before its sides are taken apart.
fn other_form_fault(
    alloc: Global,
    text: &[u8],
    form: &Form,
    pairs: &[Pair],
) -> Result<Option<CompileFault>, NoMemory>
    requires few { length text.now ≤ 4194304 }
    ensures { IfOk result (λ fault. fault ≡ first_of text.now (form_causes form.now pairs.now)) }
{
    if let Some(at) = odd_label_in_rule(alloc, form)? {
        return Ok(Some(CompileFault::LabelNotTwice(place(text, at))));
    }
    if let Some(at) = mismatch(pairs) {
        return Ok(Some(CompileFault::TypeMismatch(place(text, at))));
    }
    Ok(None)
}

/// The first fault of a rule that shows before its sides are taken apart.
pub fn form_fault(
    alloc: Global,
    text: &[u8],
    sig: &Signature,
    form: &Form,
    pairs: &[Pair],
) -> Result<Option<CompileFault>, NoMemory>
    requires few { length text.now ≤ 4194304 }
    ensures { IfOk result (λ fault. fault ≡ first_of text.now (name_causes text.now sig.now (agents_of_form form.now) ++ form_causes form.now pairs.now)) }
{
    let names = name_fault_of_rule(text, sig, form);
    if names.is_some() {
        return Ok(names);
    }
    other_form_fault(alloc, text, form, pairs)
}

/// The sides of a rule, or the first fault that they show.
pub fn try_sides(alloc: Global, text: &[u8], pairs: Vec<Pair>) -> Result<Tried, CompileFault>
    requires few { length text.now ≤ 4194304 }
    requires known { (sig : List TypeEntry) × AreSides sig (sides_of pairs.items) }
    ensures tried { IfOk result (λ tried. AreTried pairs.items tried) }
    ensures sides { (sig : List TypeEntry) → AreSides sig (sides_of pairs.items) → IfOk result (λ tried. AreSides sig tried.sides) }
    ensures fault { IfErr result (λ fault. fault ≢ no_memory → first_of text.now (sides_causes pairs.items) ≡ Some fault) }
{
    let bad = bad_right(pairs.as_slice());
    let sides = Sides::of(alloc, pairs)?;
    let left = Bonds::of(alloc, sides.left.as_slice())?;
    let right = Bonds::of(alloc, sides.right.as_slice())?;
    if let Some(at) = half_bond(&sides, &left, &right) {
        return Err(CompileFault::HalfBond(place(text, at)));
    }
    if let Some(at) = bad {
        return Err(CompileFault::BadRight(place(text, at)));
    }
    Ok(Tried { sides, left, right })
}

/// The first limit that a rule is past, before which so many rules stand.
pub fn limit_fault(text: &[u8], form: &Form, count: usize, start: u32) -> Option<CompileFault>
    requires few { length text.now ≤ 4194304 }
    ensures { result ≡ first_of text.now (limit_causes form.now count start) }
{
    if let Some(at) = past_limit_of_rule(form) {
        return Some(CompileFault::TooManyNodes(place(text, at)));
    }
    if count >= 2000 {
        return Some(CompileFault::TooManyRules(place(text, start)));
    }
    None
}
