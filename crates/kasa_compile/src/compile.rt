// The inits, additions and rules of a text, in text order.
ghost use Rattle.std.specs.Prelude.{List, ℕ, ◌≡◌, ◌≢◌, ◌<◌, ◌≤◌, None, Some, Ok, Err, length, ◌+◌, IfOk, IfErr};
ghost use Rattle.kasa_compile.specs.declared.fault.CompileFault.TheVariants.{NoMemory as no_memory};
ghost use Rattle.kasa_compile.specs.Causes.{first_of, init_causes, forward_causes, rule_causes, reverse_causes};
ghost use Rattle.kasa_compile.specs.Model.{complex_said, name_of, reverse_name, is_both, forward_rule, reverse_rule, with_complex, with_rule, try_complex, try_rules, try_decl, try_decls, only_signature, model_of};
ghost use Rattle.kasa_compile.specs.Complex.{complex_of};
ghost use Rattle.kasa_compile.specs.Said.{pairs_of, turned};
ghost use Rattle.kasa_compile.specs.Sides.{sides_of};
ghost use Rattle.kasa_compile.specs.Valid.{AreSides};
ghost use Rattle.kasa_compile.specs.Compiling.{AreTried, IsSmallComplex, IsSmallRule, IsWhole, model_in};

use crate::CompileFault;
use crate::causes::{Tried, form_fault, init_fault, limit_fault, place, try_sides};
use crate::complex::complex;
use crate::pairs::{pairs, turn};
use crate::resolved::complex_agents;
use crate::rule::rule;
use crate::words::between;
use kasa_graph::{Mixture, Signature};
use kasa_num::{InitNo, NoMemory};
use kasa_rules::{Added, Inits, Model, Rule, Rules};
use kasa_syntax::{Decl, Form, InitDecl, RuleText, Span};
use std::alloc::Global;

// A declared complex before which so many stand, or its first fault.
fn compile_init(
    alloc: Global,
    text: &[u8],
    sig: &Signature,
    count: usize,
    init: &InitDecl,
) -> Result<Mixture, CompileFault>
    requires few { length text.now ≤ 4194304 }
    ensures complex { IfOk result (λ complex. complex ≡ complex_of sig.now (complex_said text.now sig.now init.now)) }
    ensures small { IfOk result (λ complex. IsSmallComplex sig.now complex) }
    ensures faultless { IfOk result (λ complex. first_of text.now (init_causes text.now sig.now count init.now) ≡ None) }
    ensures fault { IfErr result (λ fault. fault ≢ no_memory → first_of text.now (init_causes text.now sig.now count init.now) ≡ Some fault) }
{
    if let Some(fault) = init_fault(alloc, text, sig, count, init)? {
        return Err(fault);
    }
    let agents = complex_agents(alloc, text, sig, init.agents.as_slice())?;
    let complex = complex(alloc, sig, agents.as_slice())?;
    Ok(complex)
}

// A rule's name without its quotes.
fn rule_name(text: &[u8], name: Option<Span>) -> &[u8]
    ensures { result.now ≡ name_of text.now name }
{
    match name {
        None => &text[..0],
        Some(name) => between(
            text,
            name.start as usize + 1,
            (name.end as usize).saturating_sub(1),
        ),
    }
}

// The name of a rule from right to left.
fn reverse_name(alloc: Global, name: &[u8]) -> Result<Vec<u8>, NoMemory>
    ensures { IfOk result (λ reverse. reverse.items ≡ reverse_name name.now) }
{
    let mut reverse = Vec::new(alloc);
    if !name.is_empty() {
        reverse.extend_from_slice(name)?;
        reverse.extend_from_slice(b"_op")?;
    }
    Ok(reverse)
}

// Whether the arrow is `<->`.
fn is_both(form: &Form) -> bool
    ensures { result ≡ is_both form.now }
{
    match form {
        Form::Edit(_) => false,
        Form::Arrow { both, .. } => *both,
    }
}

// The sides of a rule from left to right, or the first fault that shows before its limits are tried, wherever it stands.
fn forward_sides(
    alloc: Global,
    text: &[u8],
    sig: &Signature,
    decl: &RuleText,
) -> Result<Tried, CompileFault>
    requires few { length text.now ≤ 4194304 }
    ensures tried { IfOk result (λ tried. AreTried (pairs_of text.now sig.now decl.now.form) tried) }
    ensures sides { IfOk result (λ tried. AreSides sig.now tried.sides) }
    ensures faultless { IfOk result (λ tried. None ≡ first_of text.now (forward_causes text.now sig.now decl.now.form)) }
    ensures fault { IfErr result (λ fault. fault ≢ no_memory → (count : ℕ) → first_of text.now (rule_causes text.now sig.now count decl.now) ≡ Some fault) }
{
    let pairs = pairs(alloc, text, sig, &decl.form)?;
    if let Some(fault) = form_fault(alloc, text, sig, &decl.form, pairs.as_slice())? {
        return Err(fault);
    }
    try_sides(alloc, text, pairs)
}

// The rule from left to right, before which so many stand, or the first fault.
fn forward_rule(
    alloc: Global,
    text: &[u8],
    sig: &Signature,
    count: usize,
    decl: &RuleText,
) -> Result<Rule, CompileFault>
    requires few { length text.now ≤ 4194304 }
    ensures rule { IfOk result (λ rule. rule ≡ forward_rule text.now sig.now decl.now) }
    ensures small { IfOk result (λ rule. IsSmallRule sig.now rule) }
    ensures faultless { IfOk result (λ rule. first_of text.now (rule_causes text.now sig.now count decl.now) ≡ None) }
    ensures fault { IfErr result (λ fault. fault ≢ no_memory → first_of text.now (rule_causes text.now sig.now count decl.now) ≡ Some fault) }
{
    let tried = forward_sides(alloc, text, sig, decl)?;
    if let Some(fault) = limit_fault(text, &decl.form, count, decl.start.start) {
        return Err(fault);
    }
    let name = rule_name(text, decl.name);
    let rule = rule(alloc, sig, name, &tried.sides, &tried.left, &tried.right)?;
    Ok(rule)
}

// The sides of a rule from right to left, or the first fault that they show.
fn reverse_sides(
    alloc: Global,
    text: &[u8],
    sig: &Signature,
    decl: &RuleText,
) -> Result<Tried, CompileFault>
    requires few { length text.now ≤ 4194304 }
    requires sides { AreSides sig.now (sides_of (turned (pairs_of text.now sig.now decl.now.form))) }
    ensures tried { IfOk result (λ tried. AreTried (turned (pairs_of text.now sig.now decl.now.form)) tried) }
    ensures sides { IfOk result (λ tried. AreSides sig.now tried.sides) }
    ensures fault { IfErr result (λ fault. fault ≢ no_memory → (count : ℕ) → first_of text.now (reverse_causes text.now sig.now count decl.now) ≡ Some fault) }
{
    let pairs = pairs(alloc, text, sig, &decl.form)?;
    let others = turn(alloc, pairs)?;
    try_sides(alloc, text, others)
}

// The rule from right to left behind the rule from left to right, before which so many stand, or the first fault.
fn reverse_rule(
    alloc: Global,
    text: &[u8],
    sig: &Signature,
    count: usize,
    decl: &RuleText,
) -> Result<Rule, CompileFault>
    requires few { length text.now ≤ 4194304 }
    requires forward { first_of text.now (rule_causes text.now sig.now count decl.now) ≡ None }
    ensures rule { IfOk result (λ rule. rule ≡ reverse_rule text.now sig.now decl.now) }
    ensures small { IfOk result (λ rule. IsSmallRule sig.now rule) }
    ensures faultless { IfOk result (λ rule. first_of text.now (reverse_causes text.now sig.now (count + 1) decl.now) ≡ None) }
    ensures fault { IfErr result (λ fault. fault ≢ no_memory → first_of text.now (reverse_causes text.now sig.now (count + 1) decl.now) ≡ Some fault) }
{
    let tried = reverse_sides(alloc, text, sig, decl)?;
    if count >= 1999 {
        return Err(CompileFault::TooManyRules(place(text, decl.start.start)));
    }
    let name = reverse_name(alloc, rule_name(text, decl.name))?;
    let rule = rule(
        alloc,
        sig,
        name.as_slice(),
        &tried.sides,
        &tried.left,
        &tried.right,
    )?;
    Ok(rule)
}

// What has been compiled: the parts of a model.
#[derive(Drop)]
struct Compiled {
    sig: Signature,
    inits: Vec<Mixture>,
    added: Vec<InitNo>,
    rules: Vec<Rule>,
}

fn nothing_yet(alloc: Global, sig: Signature) -> Compiled
    ensures { model_in result ≡ only_signature sig }
{
    Compiled {
        sig,
        inits: Vec::new(alloc),
        added: Vec::new(alloc),
        rules: Vec::new(alloc),
    }
}

// Puts a declared complex behind the others, and its number behind those of the additions if it is one.
fn push_complex(
    compiled: Compiled,
    is_addition: bool,
    complex: Mixture,
) -> Result<Compiled, NoMemory>
    requires few { length compiled.inits.items < 1000 }
    ensures { IfOk result (λ next. model_in next ≡ with_complex (model_in compiled) is_addition complex) }
{
    let mut next = compiled;
    next.inits.push(complex)?;
    if is_addition {
        next.added.push(InitNo(next.inits.len() as u16))?;
    }
    Ok(next)
}

// Puts a rule behind the others.
fn push_rule(compiled: Compiled, rule: Rule) -> Result<Compiled, NoMemory>
    ensures { IfOk result (λ next. model_in next ≡ with_rule (model_in compiled) rule) }
{
    let mut next = compiled;
    next.rules.push(rule)?;
    Ok(next)
}

// With a declared complex more.
fn add_complex(
    alloc: Global,
    text: &[u8],
    is_addition: bool,
    init: &InitDecl,
    compiled: Compiled,
) -> Result<Compiled, CompileFault>
    requires few { length text.now ≤ 4194304 }
    requires before { IsWhole (model_in compiled) }
    ensures added { IfOk result (λ next. try_complex text.now is_addition init.now (model_in compiled) ≡ Ok (model_in next)) }
    ensures after { IfOk result (λ next. IsWhole (model_in next)) }
    ensures fault { IfErr result (λ fault. fault ≢ no_memory → try_complex text.now is_addition init.now (model_in compiled) ≡ Err fault) }
{
    let complex = compile_init(alloc, text, &compiled.sig, compiled.inits.len(), init)?;
    let next = push_complex(compiled, is_addition, complex)?;
    Ok(next)
}

// With the rules of a declaration.
fn add_rules(
    alloc: Global,
    text: &[u8],
    decl: &RuleText,
    compiled: Compiled,
) -> Result<Compiled, CompileFault>
    requires few { length text.now ≤ 4194304 }
    requires before { IsWhole (model_in compiled) }
    ensures added { IfOk result (λ next. try_rules text.now decl.now (model_in compiled) ≡ Ok (model_in next)) }
    ensures after { IfOk result (λ next. IsWhole (model_in next)) }
    ensures fault { IfErr result (λ fault. fault ≢ no_memory → try_rules text.now decl.now (model_in compiled) ≡ Err fault) }
{
    let count = compiled.rules.len();
    let forward = forward_rule(alloc, text, &compiled.sig, count, decl)?;
    let next = push_rule(compiled, forward)?;
    if !is_both(&decl.form) {
        return Ok(next);
    }
    let reverse = reverse_rule(alloc, text, &next.sig, count, decl)?;
    let last = push_rule(next, reverse)?;
    Ok(last)
}

// With what a declaration says.
fn add(
    alloc: Global,
    text: &[u8],
    decl: &Decl,
    compiled: Compiled,
) -> Result<Compiled, CompileFault>
    requires few { length text.now ≤ 4194304 }
    requires before { IsWhole (model_in compiled) }
    ensures added { IfOk result (λ next. try_decl text.now decl.now (model_in compiled) ≡ Ok (model_in next)) }
    ensures after { IfOk result (λ next. IsWhole (model_in next)) }
    ensures fault { IfErr result (λ fault. fault ≢ no_memory → try_decl text.now decl.now (model_in compiled) ≡ Err fault) }
{
    match decl {
        Decl::Agent(_) => Ok(compiled),
        Decl::Init(init) => add_complex(alloc, text, false, init, compiled),
        Decl::Add(init) => add_complex(alloc, text, true, init, compiled),
        Decl::Rule(rule) => add_rules(alloc, text, rule, compiled),
    }
}

// With what declarations say, in text order.
fn add_all(
    alloc: Global,
    text: &[u8],
    decls: &[Decl],
    compiled: Compiled,
) -> Result<Compiled, CompileFault>
    requires few { length text.now ≤ 4194304 }
    requires before { IsWhole (model_in compiled) }
    ensures added { IfOk result (λ next. try_decls text.now decls.now (model_in compiled) ≡ Ok (model_in next)) }
    ensures after { IfOk result (λ next. IsWhole (model_in next)) }
    ensures fault { IfErr result (λ fault. fault ≢ no_memory → try_decls text.now decls.now (model_in compiled) ≡ Err fault) }
{
    let mut next = compiled;
    for decl in decls {
        next = add(alloc, text, decl, next)?;
    }
    Ok(next)
}

/// The model that declarations say over a signature, or the first fault of its inits, additions and rules
/// in text order.
pub fn compile(
    alloc: Global,
    text: &[u8],
    sig: Signature,
    decls: &[Decl],
) -> Result<Model, CompileFault>
    requires few { length text.now ≤ 4194304 }
    ensures model { IfOk result (λ model. model_of text.now sig decls.now ≡ Ok model) }
    ensures fault { IfErr result (λ fault. fault ≢ no_memory → model_of text.now sig decls.now ≡ Err fault) }
{
    let none = nothing_yet(alloc, sig);
    let done = add_all(alloc, text, decls, none)?;
    let inits = Inits::new(done.inits);
    let added = Added::new(done.added);
    let rules = Rules::new(done.rules);
    Ok(Model {
        sig: done.sig,
        inits,
        added,
        rules,
    })
}
