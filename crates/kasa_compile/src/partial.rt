// Sites of declared complexes that say too little.
ghost use Rattle.std.specs.Prelude.{◌≡◌, ◌||◌, slice_get};
ghost use Rattle.std.specs.List.{flat_map};
ghost use Rattle.kasa_compile.specs.Partial.{partial_site, partial_sites, leaves_state, leaves_link};

use kasa_syntax::{AgentText, LinkText, LinkWord, SiteText, StateText, StateWord};

/// The offset of the first site of a declared complex whose state or link is left open.
pub fn partial_site(agents: &[AgentText]) -> Option<u32>
    ensures { result ≡ slice_get (flat_map partial_sites agents.now) 0 }
{
    for agent in agents {
        if let Some(at) = partial_site_of(agent) {
            return Some(at);
        }
    }
    None
}

// The same of one agent.
fn partial_site_of(agent: &AgentText) -> Option<u32>
    ensures { result ≡ slice_get (partial_sites agent.now) 0 }
{
    partial_site_among(agent.sites.as_slice())
}

fn partial_site_among(sites: &[SiteText]) -> Option<u32>
    ensures { result ≡ slice_get (flat_map partial_site sites.now) 0 }
{
    for site in sites {
        if is_partial(site) {
            return Some(site.name.start);
        }
    }
    None
}

// Whether the state or the link of a site is left open.
fn is_partial(site: &SiteText) -> bool
    ensures { result ≡ (leaves_state site.now.state || leaves_link site.now.link) }
{
    leaves_state(site.state) || leaves_link(site.link)
}

// Whether `{#}` stands in the braces of a site.
fn leaves_state(state: Option<StateText>) -> bool
    ensures { result ≡ leaves_state state }
{
    match state {
        None => false,
        Some(state) => matches!(state.left, StateWord::Hash),
    }
}

// Whether `[#]`, `[_]` or `[s.B]` stands in the brackets of a site.
fn leaves_link(link: Option<LinkText>) -> bool
    ensures { result ≡ leaves_link link }
{
    match link {
        None => false,
        Some(link) => !matches!(link.left, LinkWord::Free | LinkWord::Label { .. }),
    }
}
