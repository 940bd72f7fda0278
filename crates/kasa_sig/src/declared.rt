// The names of agent declarations.
ghost use Rattle.std.specs.Prelude.{◌≡◌, ◌≢◌, ◌≤◌, length, Ok, Err, OnOk, IfErr};
ghost use Rattle.std.specs.List.{AllByRecursion};
ghost use Rattle.kasa_sig.specs.declared.fault.SigFault.TheVariants.{NoMemory as no_memory};
ghost use Rattle.kasa_sig.specs.declared.names.Source.TheVariants.{Declarations as declarations};
ghost use Rattle.kasa_sig.specs.Mentions.{declared_site, declared_type, declared_by, declared_names};
ghost use Rattle.kasa_sig.specs.Outcome.{after, type_at};
ghost use Rattle.kasa_sig.specs.Owners.{IsTypeNamed};
ghost use Rattle.kasa_sig.specs.Words.{SiteDeclHasNames, AgentDeclHasNames, DeclHasNames};

use crate::SigFault;
use crate::names::{Source, name_site, name_state, name_type};
use kasa_graph::Signature;
use kasa_num::AgentType;
use kasa_syntax::{AgentDecl, Decl, SiteDecl};

// Adds what agent declarations name.
pub fn add_declared(sig: &mut Signature, text: &[u8], decls: &[Decl]) -> Result<(), SigFault>
    requires few { length text.now ≤ 4194304 }
    requires names { AllByRecursion (DeclHasNames text.now) decls.now }
    ensures ok { OnOk result (after declarations sig.old (declared_names text.now decls.now) ≡ Ok sig.new) }
    ensures err { IfErr result (λ fault. fault ≢ no_memory → after declarations sig.old (declared_names text.now decls.now) ≡ Err fault) }
{
    for decl in decls {
        declare(sig, text, decl)?;
    }
    Ok(())
}

fn declare(sig: &mut Signature, text: &[u8], decl: &Decl) -> Result<(), SigFault>
    requires few { length text.now ≤ 4194304 }
    requires names { DeclHasNames text.now decl.now }
    ensures ok { OnOk result (after declarations sig.old (declared_by text.now decl.now) ≡ Ok sig.new) }
    ensures err { IfErr result (λ fault. fault ≢ no_memory → after declarations sig.old (declared_by text.now decl.now) ≡ Err fault) }
{
    match decl {
        Decl::Agent(agent) => declare_type(sig, text, agent),
        Decl::Init(_) | Decl::Add(_) | Decl::Rule(_) => Ok(()),
    }
}

fn declare_type(sig: &mut Signature, text: &[u8], agent: &AgentDecl) -> Result<(), SigFault>
    requires few { length text.now ≤ 4194304 }
    requires names { AgentDeclHasNames text.now agent.now }
    ensures ok { OnOk result (after declarations sig.old (declared_type text.now agent.now) ≡ Ok sig.new) }
    ensures err { IfErr result (λ fault. fault ≢ no_memory → after declarations sig.old (declared_type text.now agent.now) ≡ Err fault) }
{
    let number = name_type(sig, text, Source::Declarations, agent.name)?;
    for site in agent.sites.as_slice() {
        declare_site(sig, text, number, site)?;
    }
    Ok(())
}

fn declare_site(
    sig: &mut Signature,
    text: &[u8],
    agent: AgentType,
    site: &SiteDecl,
) -> Result<(), SigFault>
    requires few { length text.now ≤ 4194304 }
    requires names { SiteDeclHasNames text.now site.now }
    requires owner { IsTypeNamed sig.old agent (type_at sig.old agent) }
    ensures ok { OnOk result (after declarations sig.old (declared_site text.now (type_at sig.old agent) site.now) ≡ Ok sig.new) }
    ensures err { IfErr result (λ fault. fault ≢ no_memory → after declarations sig.old (declared_site text.now (type_at sig.old agent) site.now) ≡ Err fault) }
{
    let number = name_site(sig, text, Source::Declarations, agent, site.name)?;
    for state in site.states.as_slice() {
        name_state(sig, text, Source::Declarations, agent, number, *state)?;
    }
    Ok(())
}
