// One more name of a signature, as it stands in a text.
ghost use Rattle.std.specs.Prelude.{◌≡◌, ◌≢◌, ◌≤◌, length, Ok, Err, OnOk, IfOk, IfErr};
ghost use Rattle.kasa_sig.specs.declared.fault.SigFault.TheVariants.{NoMemory as no_memory};
ghost use Rattle.kasa_sig.specs.Mentions.{word, type_mention, site_mention, state_mention};
ghost use Rattle.kasa_sig.specs.Outcome.{step, type_at, site_at};
ghost use Rattle.kasa_sig.specs.Owners.{IsTypeNamed, IsSiteNamed};
ghost use Rattle.kasa_sig.specs.Words.{IsNameSpan};

use crate::SigFault;
use kasa_graph::Signature;
use kasa_num::{AgentType, SiteNo};
use kasa_syntax::{Span, place_of};

// Where names come from: agent declarations, where none may stand twice, or inits, additions and
// rules.
#[derive(Clone, Copy)]
pub enum Source {
    Declarations,
    Uses,
}

// The word of the text at a span.
fn word(text: &[u8], span: Span) -> &[u8]
    requires { IsNameSpan text.now span }
    ensures { result.now ≡ word text.now span }
{
    &text[span.start as usize..span.end as usize]
}

// The number of a type that the text names, which is a new one where no type has its name.
pub fn name_type(
    sig: &mut Signature,
    text: &[u8],
    source: Source,
    name: Span,
) -> Result<AgentType, SigFault>
    requires few { length text.now ≤ 4194304 }
    requires name { IsNameSpan text.now name }
    ensures ok { OnOk result (step source sig.old (type_mention text.now name) ≡ Ok sig.new) }
    ensures number { IfOk result (λ a. IsTypeNamed sig.new a (word text.now name)) }
    ensures err { IfErr result (λ fault. fault ≢ no_memory → step source sig.old (type_mention text.now name) ≡ Err fault) }
{
    let word = word(text, name);
    let types = sig.types();
    let Some(agent) = sig.find_type(word) else {
        if types >= 500 {
            return Err(SigFault::TooManyTypes(place_of(text, name.start)));
        }
        return Ok(sig.add_type(word)?);
    };
    match source {
        Source::Declarations => Err(SigFault::Twice(place_of(text, name.start))),
        Source::Uses => Ok(agent),
    }
}

// The number of a site that the text names, which is a new one where no site of the type has its
// name.
pub fn name_site(
    sig: &mut Signature,
    text: &[u8],
    source: Source,
    agent: AgentType,
    name: Span,
) -> Result<SiteNo, SigFault>
    requires few { length text.now ≤ 4194304 }
    requires name { IsNameSpan text.now name }
    requires owner { IsTypeNamed sig.old agent (type_at sig.old agent) }
    ensures ok { OnOk result (step source sig.old (site_mention text.now (type_at sig.old agent) name) ≡ Ok sig.new) }
    ensures number { IfOk result (λ x. IsSiteNamed sig.new agent x (type_at sig.old agent) (word text.now name)) }
    ensures err { IfErr result (λ fault. fault ≢ no_memory → step source sig.old (site_mention text.now (type_at sig.old agent) name) ≡ Err fault) }
{
    let word = word(text, name);
    let Some(site) = sig.find_site(agent, word) else {
        if sig.sites(agent) >= 32 {
            return Err(SigFault::TooManySites(place_of(text, name.start)));
        }
        return Ok(sig.add_site(agent, word)?);
    };
    match source {
        Source::Declarations => Err(SigFault::Twice(place_of(text, name.start))),
        Source::Uses => Ok(site),
    }
}

// Adds a state that the text names, where no state of the site has its name.
pub fn name_state(
    sig: &mut Signature,
    text: &[u8],
    source: Source,
    agent: AgentType,
    site: SiteNo,
    state: Span,
) -> Result<(), SigFault>
    requires few { length text.now ≤ 4194304 }
    requires name { IsNameSpan text.now state }
    requires owner { IsSiteNamed sig.old agent site (type_at sig.old agent) (site_at sig.old agent site) }
    ensures ok { OnOk result (step source sig.old (state_mention text.now (type_at sig.old agent) (site_at sig.old agent site) state) ≡ Ok sig.new) }
    ensures err { IfErr result (λ fault. fault ≢ no_memory → step source sig.old (state_mention text.now (type_at sig.old agent) (site_at sig.old agent site) state) ≡ Err fault) }
{
    let word = word(text, state);
    if sig.find_state(agent, site, word).is_none() {
        if sig.states(agent, site) >= 32 {
            return Err(SigFault::TooManyStates(place_of(text, state.start)));
        }
        let _ = sig.add_state(agent, site, word)?;
        return Ok(());
    }
    match source {
        Source::Declarations => Err(SigFault::Twice(place_of(text, state.start))),
        Source::Uses => Ok(()),
    }
}
