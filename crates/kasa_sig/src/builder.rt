// The signature of a text.
ghost use Rattle.std.specs.Prelude.{◌≡◌, ◌≢◌, ◌≤◌, length, Ok, Err, IfOk, IfErr};
ghost use Rattle.std.specs.List.{AllByRecursion, list_any};
ghost use Rattle.kasa_sig.specs.declared.fault.SigFault.TheVariants.{NoMemory as no_memory};
ghost use Rattle.kasa_sig.specs.Mentions.{is_agent};
ghost use Rattle.kasa_sig.specs.Outcome.{signature_of};
ghost use Rattle.kasa_sig.specs.Words.{DeclHasNames};

use crate::SigFault;
use crate::declared::add_declared;
use crate::used::add_used;
use kasa_graph::Signature;
use kasa_syntax::Decl;
use std::alloc::Global;

/// The signature of a text of at most 4,194,304 bytes with these declarations, or the first name
/// that is refused. Where an agent declaration stands, the signature is what they declare, and a
/// name may not stand twice; where none does, types, sites and states are numbered in the order in
/// which inits, additions and rules name them first. `NoMemory` comes only where there is no memory
/// for the signature. Names are found by their hashes, so the work grows with the length of the
/// text.
pub fn build(alloc: Global, text: &[u8], decls: &[Decl]) -> Result<Signature, SigFault>
    requires few { length text.now ≤ 4194304 }
    requires names { AllByRecursion (DeclHasNames text.now) decls.now }
    ensures built { IfOk result (λ sig. signature_of text.now decls.now ≡ Ok sig) }
    ensures refused { IfErr result (λ fault. fault ≢ no_memory → signature_of text.now decls.now ≡ Err fault) }
{
    let mut sig = Signature::new(alloc);
    if declares(decls) {
        add_declared(&mut sig, text, decls)?;
    } else {
        add_used(&mut sig, text, decls)?;
    }
    Ok(sig)
}

// Whether an agent declaration stands.
fn declares(decls: &[Decl]) -> bool
    ensures { result ≡ list_any is_agent decls.now }
{
    decls.iter().any(|decl| matches!(decl, Decl::Agent(_)))
}
