// Agents of a text as they are read on a side, in the numbers of a signature.
ghost use Rattle.std.specs.Prelude.{◌≡◌, map, IfOk, option_map};
ghost use Rattle.kasa_graph.specs.Signature.{IsSignature};
ghost use Rattle.kasa_compile.specs.Names.{type_number, site_number, state_number};
ghost use Rattle.kasa_compile.specs.Said.{state_said, link_said, state_word, link_word, has_slash, site_on, agent_on};

use crate::said::{AgentSaid, LinkSaid, SiteSaid, SitesSaid};
use crate::words::word_at;
use kasa_graph::{Signature, StateTest};
use kasa_num::{AgentType, NoMemory, SiteNo, StateNo};
use kasa_syntax::{AgentText, LinkWord, SiteText, Span, StateWord};
use std::alloc::Global;

// The side of a rule on which an agent is read: the left one has the words before a `/`, the right one those behind it.
#[derive(Clone, Copy, PartialEq, Eq, Debug)]
pub enum Side {
    Left,
    Right,
}

// The number of the type that the text names, 0 where no type has its name.
pub fn type_number(text: &[u8], sig: &Signature, name: Span) -> AgentType
    requires valid { IsSignature sig.now }
    ensures { result ≡ type_number text.now sig.now name }
{
    sig.find_type(word_at(text, name)).unwrap_or(AgentType(0))
}

// The number of the site of a type that the text names, 0 where the type has no such site.
pub fn site_number(text: &[u8], sig: &Signature, agent: AgentType, name: Span) -> SiteNo
    requires valid { IsSignature sig.now }
    ensures { result ≡ site_number text.now sig.now agent name }
{
    sig.find_site(agent, word_at(text, name))
        .unwrap_or(SiteNo(0))
}

// The number of the state of a site that the text names, 0 where the site has no such state.
fn state_number(text: &[u8], sig: &Signature, agent: AgentType, site: SiteNo, name: Span) -> StateNo
    requires valid { IsSignature sig.now }
    ensures { result ≡ state_number text.now sig.now agent site name }
{
    sig.find_state(agent, site, word_at(text, name))
        .unwrap_or(StateNo(0))
}

fn state_said(
    text: &[u8],
    sig: &Signature,
    agent: AgentType,
    site: SiteNo,
    word: StateWord,
) -> StateTest
    requires valid { IsSignature sig.now }
    ensures { result ≡ state_said text.now sig.now agent site word }
{
    match word {
        StateWord::Hash => StateTest::Any,
        StateWord::Named(name) => StateTest::Is(state_number(text, sig, agent, site, name)),
    }
}

fn link_said(text: &[u8], sig: &Signature, word: LinkWord) -> LinkSaid
    requires valid { IsSignature sig.now }
    ensures { result ≡ link_said text.now sig.now word }
{
    match word {
        LinkWord::Free => LinkSaid::Free,
        LinkWord::Hash => LinkSaid::Any,
        LinkWord::Bound => LinkSaid::Bound,
        LinkWord::Partner { site, agent } => {
            let agent = type_number(text, sig, agent);
            LinkSaid::Partner(agent, site_number(text, sig, agent, site))
        }
        LinkWord::Label { number, .. } => LinkSaid::Label(number),
    }
}

// The word in the braces of a site that a side has.
fn state_word(side: Side, site: &SiteText) -> Option<StateWord>
    ensures { result ≡ state_word side site.now }
{
    let state = site.state?;
    match side {
        Side::Left => Some(state.left),
        Side::Right => Some(state.right.unwrap_or(state.left)),
    }
}

// The word in the brackets of a site that a side has.
pub fn link_word(side: Side, site: &SiteText) -> Option<LinkWord>
    ensures { result ≡ link_word side site.now }
{
    let link = site.link?;
    match side {
        Side::Left => Some(link.left),
        Side::Right => Some(link.right.unwrap_or(link.left)),
    }
}

fn has_slash(site: &SiteText) -> bool
    ensures { result ≡ has_slash site.now }
{
    let in_braces = match site.state {
        None => false,
        Some(state) => state.right.is_some(),
    };
    let in_brackets = match site.link {
        None => false,
        Some(link) => link.right.is_some(),
    };
    in_braces || in_brackets
}

// The state that a site of a type has on a side.
fn state_on(
    side: Side,
    text: &[u8],
    sig: &Signature,
    agent: AgentType,
    number: SiteNo,
    site: &SiteText,
) -> Option<StateTest>
    requires valid { IsSignature sig.now }
    ensures { result ≡ option_map (state_said text.now sig.now agent number) (state_word side site.now) }
{
    let word = state_word(side, site)?;
    Some(state_said(text, sig, agent, number, word))
}

// The link that a site has on a side.
fn link_on(side: Side, text: &[u8], sig: &Signature, site: &SiteText) -> Option<LinkSaid>
    requires valid { IsSignature sig.now }
    ensures { result ≡ option_map (link_said text.now sig.now) (link_word side site.now) }
{
    let word = link_word(side, site)?;
    Some(link_said(text, sig, word))
}

// What sites of a type say on a side.
fn sites_on(
    alloc: Global,
    side: Side,
    text: &[u8],
    sig: &Signature,
    agent: AgentType,
    sites: &[SiteText],
) -> Result<SitesSaid, NoMemory>
    requires valid { IsSignature sig.now }
    ensures { IfOk result (λ said. said ≡ map (site_on side text.now sig.now agent) sites.now) }
{
    let mut items = Vec::with_capacity(alloc, sites.len())?;
    for site in sites {
        let number = site_number(text, sig, agent, site.name);
        let state = state_on(side, text, sig, agent, number, site);
        let link = link_on(side, text, sig, site);
        let slash = has_slash(site);
        items.push(SiteSaid {
            at: site.name.start,
            site: number,
            state,
            link,
            slash,
        })?;
    }
    Ok(SitesSaid { items })
}

/// What an agent says on a side.
pub fn agent_on(
    alloc: Global,
    side: Side,
    text: &[u8],
    sig: &Signature,
    agent: &AgentText,
) -> Result<AgentSaid, NoMemory>
    requires valid { IsSignature sig.now }
    ensures { IfOk result (λ said. said ≡ agent_on side text.now sig.now agent.now) }
{
    let number = type_number(text, sig, agent.name);
    let sites = sites_on(alloc, side, text, sig, number, agent.sites.as_slice())?;
    Ok(AgentSaid {
        at: agent.name.start,
        agent: number,
        sites,
    })
}

/// The agents of a declared complex.
pub fn complex_agents(
    alloc: Global,
    text: &[u8],
    sig: &Signature,
    agents: &[AgentText],
) -> Result<Vec<AgentSaid>, NoMemory>
    ensures { IfOk result (λ said. said.items ≡ map (agent_on Side.Left text.now sig.now) agents.now) }
{
    // a call that shows that the names of a signature differ
    let _types = sig.types();
    let mut said = Vec::with_capacity(alloc, agents.len())?;
    for agent in agents {
        said.push(agent_on(alloc, Side::Left, text, sig, agent)?)?;
    }
    Ok(said)
}
