// The names of inits, additions and rules.
ghost use Rattle.std.specs.Prelude.{◌≡◌, ◌≢◌, ◌≤◌, length, Ok, Err, OnOk, IfErr};
ghost use Rattle.std.specs.List.{AllByRecursion, flat_map};
ghost use Rattle.kasa_sig.specs.declared.fault.SigFault.TheVariants.{NoMemory as no_memory};
ghost use Rattle.kasa_sig.specs.declared.names.Source.TheVariants.{Uses as uses};
ghost use Rattle.kasa_sig.specs.Mentions.{state_start, partner_start, word_start, word_partner_start, brackets_stand_first, used_state, used_states, used_partner, used_partners, used_site, used_agent, used_item, used_body, used_decl, used_names};
ghost use Rattle.kasa_sig.specs.Outcome.{after, type_at, site_at};
ghost use Rattle.kasa_sig.specs.Owners.{IsTypeNamed, IsSiteNamed};
ghost use Rattle.kasa_sig.specs.Words.{StateWordHasNames, StatesHaveNames, LinkWordHasNames, LinksHaveNames, SiteHasNames, AgentHasNames, ItemHasNames, FormHasNames, DeclHasNames};

use crate::SigFault;
use crate::names::{Source, name_site, name_state, name_type};
use kasa_graph::Signature;
use kasa_num::{AgentType, SiteNo};
use kasa_syntax::{
    AgentText, Decl, Form, Item, LinkText, LinkWord, SiteText, StateText, StateWord,
};

// Adds what inits, additions and rules name.
pub fn add_used(sig: &mut Signature, text: &[u8], decls: &[Decl]) -> Result<(), SigFault>
    requires few { length text.now ≤ 4194304 }
    requires names { AllByRecursion (DeclHasNames text.now) decls.now }
    ensures ok { OnOk result (after uses sig.old (used_names text.now decls.now) ≡ Ok sig.new) }
    ensures err { IfErr result (λ fault. fault ≢ no_memory → after uses sig.old (used_names text.now decls.now) ≡ Err fault) }
{
    for decl in decls {
        use_decl(sig, text, decl)?;
    }
    Ok(())
}

fn use_decl(sig: &mut Signature, text: &[u8], decl: &Decl) -> Result<(), SigFault>
    requires few { length text.now ≤ 4194304 }
    requires names { DeclHasNames text.now decl.now }
    ensures ok { OnOk result (after uses sig.old (used_decl text.now decl.now) ≡ Ok sig.new) }
    ensures err { IfErr result (λ fault. fault ≢ no_memory → after uses sig.old (used_decl text.now decl.now) ≡ Err fault) }
{
    match decl {
        Decl::Agent(_) => Ok(()),
        Decl::Init(init) => use_agents(sig, text, init.agents.as_slice()),
        Decl::Add(addition) => use_agents(sig, text, addition.agents.as_slice()),
        Decl::Rule(rule) => use_body(sig, text, &rule.form),
    }
}

fn use_body(sig: &mut Signature, text: &[u8], form: &Form) -> Result<(), SigFault>
    requires few { length text.now ≤ 4194304 }
    requires names { FormHasNames text.now form.now }
    ensures ok { OnOk result (after uses sig.old (used_body text.now form.now) ≡ Ok sig.new) }
    ensures err { IfErr result (λ fault. fault ≢ no_memory → after uses sig.old (used_body text.now form.now) ≡ Err fault) }
{
    match form {
        Form::Edit(items) => use_items(sig, text, items.as_slice()),
        Form::Arrow { left, right, .. } => {
            use_items(sig, text, left.as_slice())?;
            use_items(sig, text, right.as_slice())
        }
    }
}

fn use_items(sig: &mut Signature, text: &[u8], items: &[Item]) -> Result<(), SigFault>
    requires few { length text.now ≤ 4194304 }
    requires names { AllByRecursion (ItemHasNames text.now) items.now }
    ensures ok { OnOk result (after uses sig.old (flat_map (used_item text.now) items.now) ≡ Ok sig.new) }
    ensures err { IfErr result (λ fault. fault ≢ no_memory → after uses sig.old (flat_map (used_item text.now) items.now) ≡ Err fault) }
{
    for item in items {
        use_item(sig, text, item)?;
    }
    Ok(())
}

fn use_item(sig: &mut Signature, text: &[u8], item: &Item) -> Result<(), SigFault>
    requires few { length text.now ≤ 4194304 }
    requires names { ItemHasNames text.now item.now }
    ensures ok { OnOk result (after uses sig.old (used_item text.now item.now) ≡ Ok sig.new) }
    ensures err { IfErr result (λ fault. fault ≢ no_memory → after uses sig.old (used_item text.now item.now) ≡ Err fault) }
{
    match item {
        Item::Absent => Ok(()),
        Item::Agent(agent) => use_agent(sig, text, agent),
    }
}

fn use_agents(sig: &mut Signature, text: &[u8], agents: &[AgentText]) -> Result<(), SigFault>
    requires few { length text.now ≤ 4194304 }
    requires names { AllByRecursion (AgentHasNames text.now) agents.now }
    ensures ok { OnOk result (after uses sig.old (flat_map (used_agent text.now) agents.now) ≡ Ok sig.new) }
    ensures err { IfErr result (λ fault. fault ≢ no_memory → after uses sig.old (flat_map (used_agent text.now) agents.now) ≡ Err fault) }
{
    for agent in agents {
        use_agent(sig, text, agent)?;
    }
    Ok(())
}

fn use_agent(sig: &mut Signature, text: &[u8], agent: &AgentText) -> Result<(), SigFault>
    requires few { length text.now ≤ 4194304 }
    requires names { AgentHasNames text.now agent.now }
    ensures ok { OnOk result (after uses sig.old (used_agent text.now agent.now) ≡ Ok sig.new) }
    ensures err { IfErr result (λ fault. fault ≢ no_memory → after uses sig.old (used_agent text.now agent.now) ≡ Err fault) }
{
    let number = name_type(sig, text, Source::Uses, agent.name)?;
    for site in agent.sites.as_slice() {
        use_site(sig, text, number, site)?;
    }
    Ok(())
}

fn use_site(
    sig: &mut Signature,
    text: &[u8],
    agent: AgentType,
    site: &SiteText,
) -> Result<(), SigFault>
    requires few { length text.now ≤ 4194304 }
    requires names { SiteHasNames text.now site.now }
    requires owner { IsTypeNamed sig.old agent (type_at sig.old agent) }
    ensures ok { OnOk result (after uses sig.old (used_site text.now (type_at sig.old agent) site.now) ≡ Ok sig.new) }
    ensures err { IfErr result (λ fault. fault ≢ no_memory → after uses sig.old (used_site text.now (type_at sig.old agent) site.now) ≡ Err fault) }
{
    let number = name_site(sig, text, Source::Uses, agent, site.name)?;
    if brackets_stand_first(site) {
        use_partners(sig, text, site.link)?;
        use_states(sig, text, agent, number, site.state)
    } else {
        use_states(sig, text, agent, number, site.state)?;
        use_partners(sig, text, site.link)
    }
}

// ---- states

fn use_states(
    sig: &mut Signature,
    text: &[u8],
    agent: AgentType,
    site: SiteNo,
    states: Option<StateText>,
) -> Result<(), SigFault>
    requires few { length text.now ≤ 4194304 }
    requires names { StatesHaveNames text.now states }
    requires owner { IsSiteNamed sig.old agent site (type_at sig.old agent) (site_at sig.old agent site) }
    ensures ok { OnOk result (after uses sig.old (used_states text.now (type_at sig.old agent) (site_at sig.old agent site) states) ≡ Ok sig.new) }
    ensures err { IfErr result (λ fault. fault ≢ no_memory → after uses sig.old (used_states text.now (type_at sig.old agent) (site_at sig.old agent site) states) ≡ Err fault) }
{
    let Some(StateText { left, right }) = states else {
        return Ok(());
    };
    use_state(sig, text, agent, site, left)?;
    match right {
        None => Ok(()),
        Some(right) => use_state(sig, text, agent, site, right),
    }
}

fn use_state(
    sig: &mut Signature,
    text: &[u8],
    agent: AgentType,
    site: SiteNo,
    state: StateWord,
) -> Result<(), SigFault>
    requires few { length text.now ≤ 4194304 }
    requires names { StateWordHasNames text.now state }
    requires owner { IsSiteNamed sig.old agent site (type_at sig.old agent) (site_at sig.old agent site) }
    ensures ok { OnOk result (after uses sig.old (used_state text.now (type_at sig.old agent) (site_at sig.old agent site) state) ≡ Ok sig.new) }
    ensures err { IfErr result (λ fault. fault ≢ no_memory → after uses sig.old (used_state text.now (type_at sig.old agent) (site_at sig.old agent site) state) ≡ Err fault) }
{
    match state {
        StateWord::Hash => Ok(()),
        StateWord::Named(name) => name_state(sig, text, Source::Uses, agent, site, name),
    }
}

// ---- partners

fn use_partners(sig: &mut Signature, text: &[u8], link: Option<LinkText>) -> Result<(), SigFault>
    requires few { length text.now ≤ 4194304 }
    requires names { LinksHaveNames text.now link }
    ensures ok { OnOk result (after uses sig.old (used_partners text.now link) ≡ Ok sig.new) }
    ensures err { IfErr result (λ fault. fault ≢ no_memory → after uses sig.old (used_partners text.now link) ≡ Err fault) }
{
    let Some(LinkText { left, right }) = link else {
        return Ok(());
    };
    use_partner(sig, text, left)?;
    match right {
        None => Ok(()),
        Some(right) => use_partner(sig, text, right),
    }
}

// The type of a partner is named before its site.
fn use_partner(sig: &mut Signature, text: &[u8], link: LinkWord) -> Result<(), SigFault>
    requires few { length text.now ≤ 4194304 }
    requires names { LinkWordHasNames text.now link }
    ensures ok { OnOk result (after uses sig.old (used_partner text.now link) ≡ Ok sig.new) }
    ensures err { IfErr result (λ fault. fault ≢ no_memory → after uses sig.old (used_partner text.now link) ≡ Err fault) }
{
    let LinkWord::Partner { site, agent } = link else {
        return Ok(());
    };
    let number = name_type(sig, text, Source::Uses, agent)?;
    let _ = name_site(sig, text, Source::Uses, number, site)?;
    Ok(())
}

// ---- what stands first

// Whether the names in the brackets of a site stand before those in its braces.
fn brackets_stand_first(site: &SiteText) -> bool
    ensures { result ≡ brackets_stand_first site.now }
{
    match (partner_start(site.link), state_start(site.state)) {
        (Some(partner), Some(state)) => partner < state,
        _ => false,
    }
}

// Where the first name in the braces stands.
fn state_start(states: Option<StateText>) -> Option<u32>
    ensures { result ≡ state_start states }
{
    let StateText { left, right } = states?;
    match left {
        StateWord::Named(name) => Some(name.start),
        StateWord::Hash => word_start(right?),
    }
}

fn word_start(state: StateWord) -> Option<u32>
    ensures { result ≡ word_start state }
{
    match state {
        StateWord::Hash => None,
        StateWord::Named(name) => Some(name.start),
    }
}

// Where the first name in the brackets stands.
fn partner_start(link: Option<LinkText>) -> Option<u32>
    ensures { result ≡ partner_start link }
{
    let LinkText { left, right } = link?;
    match left {
        LinkWord::Partner { site, .. } => Some(site.start),
        _ => word_partner_start(right?),
    }
}

fn word_partner_start(link: LinkWord) -> Option<u32>
    ensures { result ≡ word_partner_start link }
{
    match link {
        LinkWord::Partner { site, .. } => Some(site.start),
        _ => None,
    }
}
