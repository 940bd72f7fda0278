// Names of agents that name nothing, and sites that stand twice.
ghost use Rattle.std.specs.Prelude.{◌≡◌, [], slice_get};
ghost use Rattle.std.specs.List.{flat_map, list_any};
ghost use Rattle.std.specs.Str.{bytes_eq};
ghost use Rattle.kasa_graph.specs.Signature.{IsSignature, type_names, site_names, state_names};
ghost use Rattle.kasa_sig.specs.Mentions.{word};
ghost use Rattle.kasa_compile.specs.Names.{if_unknown, in_braces, in_brackets, unknown_partner_type, unknown_state, unknown_types, unknown_sites, unknown_sites_at, unknown_states, unknown_states_at, twice_behind};
ghost use Rattle.kasa_compile.specs.Labels.{agents_in, agents_of};
ghost use Rattle.kasa_compile.specs.Causes.{agents_of_form};
ghost use Rattle.kasa_compile.specs.Passes.{name_faults};
ghost use Rattle.kasa_compile.specs.Parts.{unknown_part};

use crate::resolved::{site_number, type_number};
use crate::words::word_at;
use kasa_graph::Signature;
use kasa_num::{AgentType, SiteNo};
use kasa_syntax::{
    AgentText, Form, Item, LinkText, LinkWord, SiteText, Span, StateText, StateWord,
};

/// A pass over the names of agents: for types, sites or states that the signature doesn't have, or for sites that stand
/// a second time in their agent.
#[derive(Clone, Copy, PartialEq, Eq, Debug)]
pub enum NamePass {
    Types,
    Sites,
    States,
    Twice,
}

// What is looked for in `s.B`: the type, or its site.
#[derive(Clone, Copy, PartialEq, Eq, Debug)]
pub enum PartnerPart {
    Agent,
    Site,
}

// The offset of a name that no type has.
fn unknown_type(text: &[u8], sig: &Signature, name: Span) -> Option<u32>
    ensures { result ≡ slice_get (if_unknown text.now (type_names sig.now) name) 0 }
{
    match sig.find_type(word_at(text, name)) {
        Some(_) => None,
        None => Some(name.start),
    }
}

// The offset of a name that no site of a type has.
fn unknown_site(text: &[u8], sig: &Signature, agent: AgentType, name: Span) -> Option<u32>
    ensures { result ≡ slice_get (if_unknown text.now (site_names sig.now agent) name) 0 }
{
    match sig.find_site(agent, word_at(text, name)) {
        Some(_) => None,
        None => Some(name.start),
    }
}

// The offset of a name that no state of a site has.
fn unknown_state(
    text: &[u8],
    sig: &Signature,
    agent: AgentType,
    site: SiteNo,
    word: StateWord,
) -> Option<u32>
    ensures { result ≡ slice_get (unknown_state text.now (state_names sig.now agent site) word) 0 }
{
    let StateWord::Named(name) = word else {
        return None;
    };
    match sig.find_state(agent, site, word_at(text, name)) {
        Some(_) => None,
        None => Some(name.start),
    }
}

// The offset of a type in `s.B`, or of its site, that the signature doesn't have.
fn unknown_part(part: PartnerPart, text: &[u8], sig: &Signature, word: LinkWord) -> Option<u32>
    requires valid { IsSignature sig.now }
    ensures { result ≡ slice_get (unknown_part part text.now sig.now word) 0 }
{
    let LinkWord::Partner { site, agent } = word else {
        return None;
    };
    match part {
        PartnerPart::Agent => unknown_type(text, sig, agent),
        PartnerPart::Site => unknown_site(text, sig, type_number(text, sig, agent), site),
    }
}

// The offset of the first state in the braces of a site that the site doesn't have.
fn first_in_braces(
    text: &[u8],
    sig: &Signature,
    agent: AgentType,
    site: SiteNo,
    state: Option<StateText>,
) -> Option<u32>
    ensures { result ≡ slice_get (in_braces (unknown_state text.now (state_names sig.now agent site)) state) 0 }
{
    let state = state?;
    if let Some(at) = unknown_state(text, sig, agent, site, state.left) {
        return Some(at);
    }
    unknown_state(text, sig, agent, site, state.right?)
}

// The offset of the first part in the brackets of a site that the signature doesn't have.
fn first_in_brackets(
    part: PartnerPart,
    text: &[u8],
    sig: &Signature,
    link: Option<LinkText>,
) -> Option<u32>
    requires valid { IsSignature sig.now }
    ensures { result ≡ slice_get (in_brackets (unknown_part part text.now sig.now) link) 0 }
{
    let link = link?;
    if let Some(at) = unknown_part(part, text, sig, link.left) {
        return Some(at);
    }
    unknown_part(part, text, sig, link.right?)
}

// The offset of the first type that an agent names and the signature doesn't have.
fn unknown_type_of(text: &[u8], sig: &Signature, agent: &AgentText) -> Option<u32>
    requires valid { IsSignature sig.now }
    ensures { result ≡ slice_get (unknown_types text.now sig.now agent.now) 0 }
{
    if let Some(at) = unknown_type(text, sig, agent.name) {
        return Some(at);
    }
    unknown_partner_type(text, sig, agent.sites.as_slice())
}

// The same of the `s.B` of its sites.
fn unknown_partner_type(text: &[u8], sig: &Signature, sites: &[SiteText]) -> Option<u32>
    requires valid { IsSignature sig.now }
    ensures { result ≡ slice_get (flat_map (λ s. in_brackets (unknown_partner_type text.now sig.now) s.link) sites.now) 0 }
{
    for site in sites {
        if let Some(at) = first_in_brackets(PartnerPart::Agent, text, sig, site.link) {
            return Some(at);
        }
    }
    None
}

// The offset of the first site that an agent names and its type doesn't have.
fn unknown_site_of(text: &[u8], sig: &Signature, agent: &AgentText) -> Option<u32>
    requires valid { IsSignature sig.now }
    ensures { result ≡ slice_get (unknown_sites text.now sig.now agent.now) 0 }
{
    let number = type_number(text, sig, agent.name);
    unknown_site_among(text, sig, number, agent.sites.as_slice())
}

// The same of some sites of a type.
fn unknown_site_among(
    text: &[u8],
    sig: &Signature,
    agent: AgentType,
    sites: &[SiteText],
) -> Option<u32>
    requires valid { IsSignature sig.now }
    ensures { result ≡ slice_get (flat_map (unknown_sites_at text.now sig.now agent) sites.now) 0 }
{
    for site in sites {
        if let Some(at) = unknown_site_at(text, sig, agent, site) {
            return Some(at);
        }
    }
    None
}

// The same of one of its sites.
fn unknown_site_at(text: &[u8], sig: &Signature, agent: AgentType, site: &SiteText) -> Option<u32>
    requires valid { IsSignature sig.now }
    ensures { result ≡ slice_get (unknown_sites_at text.now sig.now agent site.now) 0 }
{
    if let Some(at) = unknown_site(text, sig, agent, site.name) {
        return Some(at);
    }
    first_in_brackets(PartnerPart::Site, text, sig, site.link)
}

// The offset of the first state that an agent names and its site doesn't have.
fn unknown_state_of(text: &[u8], sig: &Signature, agent: &AgentText) -> Option<u32>
    requires valid { IsSignature sig.now }
    ensures { result ≡ slice_get (unknown_states text.now sig.now agent.now) 0 }
{
    let number = type_number(text, sig, agent.name);
    unknown_state_among(text, sig, number, agent.sites.as_slice())
}

// The same of some sites of a type.
fn unknown_state_among(
    text: &[u8],
    sig: &Signature,
    agent: AgentType,
    sites: &[SiteText],
) -> Option<u32>
    requires valid { IsSignature sig.now }
    ensures { result ≡ slice_get (flat_map (unknown_states_at text.now sig.now agent) sites.now) 0 }
{
    for site in sites {
        if let Some(at) = unknown_state_at(text, sig, agent, site) {
            return Some(at);
        }
    }
    None
}

// The same of one of its sites.
fn unknown_state_at(text: &[u8], sig: &Signature, agent: AgentType, site: &SiteText) -> Option<u32>
    requires valid { IsSignature sig.now }
    ensures { result ≡ slice_get (unknown_states_at text.now sig.now agent site.now) 0 }
{
    let number = site_number(text, sig, agent, site.name);
    first_in_braces(text, sig, agent, number, site.state)
}

// Whether one of these sites has a name.
fn has_name(text: &[u8], sites: &[SiteText], name: Span) -> bool
    ensures { result ≡ list_any (λ s. bytes_eq (word text.now s.name) (word text.now name)) sites.now }
{
    let wanted = word_at(text, name);
    for site in sites {
        if word_at(text, site.name) == wanted {
            return true;
        }
    }
    false
}

// The offset of the first site of an agent that stands behind another of its name. It takes no index: that the type has
// each of these sites is asked before, and it has 32 at most, so that a second one comes soon.
fn site_twice(text: &[u8], sites: &[SiteText]) -> Option<u32>
    ensures { result ≡ slice_get (twice_behind text.now [] sites.now) 0 }
{
    for (number, site) in sites.iter().enumerate() {
        if has_name(text, &sites[..number], site.name) {
            return Some(site.name.start);
        }
    }
    None
}

// The offset of the first name of an agent for which the pass is made.
fn first_in_agent(pass: NamePass, text: &[u8], sig: &Signature, agent: &AgentText) -> Option<u32>
    requires valid { IsSignature sig.now }
    ensures { result ≡ slice_get (name_faults pass text.now sig.now agent.now) 0 }
{
    match pass {
        NamePass::Types => unknown_type_of(text, sig, agent),
        NamePass::Sites => unknown_site_of(text, sig, agent),
        NamePass::States => unknown_state_of(text, sig, agent),
        NamePass::Twice => site_twice(text, agent.sites.as_slice()),
    }
}

/// The offset of the first name among the agents of a declared complex for which the pass is made.
pub fn first_in_agents(
    pass: NamePass,
    text: &[u8],
    sig: &Signature,
    agents: &[AgentText],
) -> Option<u32>
    ensures { result ≡ slice_get (flat_map (name_faults pass text.now sig.now) agents.now) 0 }
{
    // what is known of each signature, that its names differ
    let _types = sig.types();
    for agent in agents {
        if let Some(at) = first_in_agent(pass, text, sig, agent) {
            return Some(at);
        }
    }
    None
}

/// The same for the agents of a rule, in text order.
pub fn first_in_form(pass: NamePass, text: &[u8], sig: &Signature, form: &Form) -> Option<u32>
    ensures { result ≡ slice_get (flat_map (name_faults pass text.now sig.now) (agents_of_form form.now)) 0 }
{
    // what is known of each signature, that its names differ
    let _types = sig.types();
    match form {
        Form::Edit(items) => first_in_items(pass, text, sig, items.as_slice()),
        Form::Arrow { left, right, .. } => {
            if let Some(at) = first_in_items(pass, text, sig, left.as_slice()) {
                return Some(at);
            }
            first_in_items(pass, text, sig, right.as_slice())
        }
    }
}

fn first_in_items(pass: NamePass, text: &[u8], sig: &Signature, items: &[Item]) -> Option<u32>
    requires valid { IsSignature sig.now }
    ensures { result ≡ slice_get (flat_map (name_faults pass text.now sig.now) (agents_of items.now)) 0 }
{
    for item in items {
        if let Some(at) = first_in_item(pass, text, sig, item) {
            return Some(at);
        }
    }
    None
}

fn first_in_item(pass: NamePass, text: &[u8], sig: &Signature, item: &Item) -> Option<u32>
    requires valid { IsSignature sig.now }
    ensures { result ≡ slice_get (flat_map (name_faults pass text.now sig.now) (agents_in item.now)) 0 }
{
    match item {
        Item::Absent => None,
        Item::Agent(agent) => first_in_agent(pass, text, sig, agent),
    }
}
