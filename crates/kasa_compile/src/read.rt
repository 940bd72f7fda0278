// The model of a text.
ghost use Rattle.std.specs.Prelude.{◌≡◌, ◌≢◌, ◌≤◌, length, Ok, IfOk, IfErr};
ghost use Rattle.kasa_lexer.specs.Tokens.{IsOutcome as IsLexed};
ghost use Rattle.kasa_sig.specs.Outcome.{signature_of};
ghost use Rattle.kasa_compile.specs.declared.fault.ModelFault.TheVariants.{NoMemory as no_memory};
ghost use Rattle.kasa_compile.specs.Model.{IsTree, IsModelOf, IsFaultOf};

use crate::compile::compile;
use crate::{CompileFault, ModelFault};
use kasa_graph::Signature;
use kasa_lexer::{LexFault, lex};
use kasa_parser::{ParseFault, parse};
use kasa_rules::Model;
use kasa_sig::{SigFault, build};
use kasa_syntax::{Decl, Token};
use std::alloc::Global;

fn tokens_of(alloc: Global, text: &[u8]) -> Result<Vec<Token>, ModelFault>
    requires few { length text.now ≤ 4194304 }
    ensures lexed { IfOk result (λ tokens. IsLexed text.now (Ok tokens.items)) }
    ensures fault { IfErr result (λ fault. fault ≢ no_memory → IsFaultOf text.now fault) }
{
    match lex(alloc, text) {
        Ok(tokens) => Ok(tokens),
        Err(LexFault::NoMemory) => Err(ModelFault::NoMemory),
        Err(fault) => Err(ModelFault::Lex(fault)),
    }
}

// The tokens are given up before the tree is compiled.
fn tree_of(alloc: Global, text: &[u8]) -> Result<Vec<Decl>, ModelFault>
    requires few { length text.now ≤ 4194304 }
    ensures tree { IfOk result (λ decls. IsTree text.now decls.items) }
    ensures fault { IfErr result (λ fault. fault ≢ no_memory → IsFaultOf text.now fault) }
{
    let tokens = tokens_of(alloc, text)?;
    match parse(alloc, text, tokens.as_slice()) {
        Ok(decls) => Ok(decls),
        Err(ParseFault::NoMemory) => Err(ModelFault::NoMemory),
        Err(fault) => Err(ModelFault::Parse(fault)),
    }
}

fn signature_of_tree(alloc: Global, text: &[u8], decls: &[Decl]) -> Result<Signature, ModelFault>
    requires few { length text.now ≤ 4194304 }
    requires tree { IsTree text.now decls.now }
    ensures signed { IfOk result (λ sig. signature_of text.now decls.now ≡ Ok sig) }
    ensures fault { IfErr result (λ fault. fault ≢ no_memory → IsFaultOf text.now fault) }
{
    match build(alloc, text, decls) {
        Ok(sig) => Ok(sig),
        Err(SigFault::NoMemory) => Err(ModelFault::NoMemory),
        Err(fault) => Err(ModelFault::Sig(fault)),
    }
}

fn model_of_tree(alloc: Global, text: &[u8], decls: &[Decl]) -> Result<Model, ModelFault>
    requires few { length text.now ≤ 4194304 }
    requires tree { IsTree text.now decls.now }
    ensures model { IfOk result (λ model. IsModelOf text.now model) }
    ensures fault { IfErr result (λ fault. fault ≢ no_memory → IsFaultOf text.now fault) }
{
    let sig = signature_of_tree(alloc, text, decls)?;
    match compile(alloc, text, sig, decls) {
        Ok(model) => Ok(model),
        Err(CompileFault::NoMemory) => Err(ModelFault::NoMemory),
        Err(fault) => Err(ModelFault::Compile(fault)),
    }
}

/// The model of a text of the core of Kappa 4, with at most 4 MiB, or its first fault: the text is lexed, then parsed,
/// then its signature is built, and then its inits, additions and rules are compiled in text order.
pub fn read_model(alloc: Global, text: &[u8]) -> Result<Model, ModelFault>
    requires few { length text.now ≤ 4194304 }
    ensures model { IfOk result (λ model. IsModelOf text.now model) }
    ensures fault { IfErr result (λ fault. fault ≢ no_memory → IsFaultOf text.now fault) }
{
    let decls = tree_of(alloc, text)?;
    model_of_tree(alloc, text, decls.as_slice())
}
