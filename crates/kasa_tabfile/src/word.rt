// What a word of a line says.
ghost use Rattle.std.specs.Prelude.{◌≡◌, ◌<◌, ◌≤◌, ℕ, length, option_map, Some, None, if◌then◌else◌};
ghost use Rattle.kasa_tabfile.specs.Word.{value, number, cut, state, link, group};
ghost use Rattle.kasa_tabfile.specs.Line.{is_small_state, is_small_link, is_small_local};
ghost use Rattle.kasa_tabfile.specs.inner.Head.{passing, both};

use kasa_families::{Local, LocalLink};
use kasa_num::{AgentType, SiteNo, StateNo};

// The value of decimal digits.
fn value_of(digits: &[u8]) -> Option<u32>
    requires { length digits.now ≤ 5 }
    ensures { result ≡ value digits.now }
{
    let mut value = 0;
    for b in digits {
        if !b.is_ascii_digit() {
            return None;
        }
        value = 10 * value + u32::from(*b - b'0');
    }
    Some(value)
}

/// A number: decimal, without leading zeros, at most 65,535.
pub(crate) fn number_of(word: &[u8]) -> Option<u16>
    ensures { result ≡ number word.now }
{
    if word.is_empty() || word.len() > 5 || (word[0] == b'0' && word.len() > 1) {
        return None;
    }
    let value = value_of(word)?;
    if value > 65535 {
        return None;
    }
    Some(value as u16)
}

// The parts before and after the first byte `at`.
fn cut_at(at: u8, word: &[u8]) -> Option<(&[u8], &[u8])>
    ensures { option_map (λ p. (p.0.now, p.1.now)) result ≡ cut at word.now }
{
    for k in 0..word.len() {
        if word[k] == at {
            return Some((&word[..k], &word[k + 1..]));
        }
    }
    None
}

fn state_of(word: &[u8]) -> Option<Option<u16>>
    ensures { result ≡ state word.now }
{
    if word == b"-".as_slice() {
        return Some(None);
    }
    Some(Some(number_of(word)?))
}

// The state, if it has a number that a state may have.
fn small_state(state: Option<u16>) -> Option<Option<StateNo>>
    ensures { result ≡ passing is_small_state state }
{
    match state {
        None => Some(None),
        Some(state) if state <= 255 => Some(Some(StateNo(state as u8))),
        Some(_) => None,
    }
}

// The link to a site, if it has a number that a site may have.
fn small_link(agent: u16, site: u16) -> Option<LocalLink>
    ensures { result ≡ passing is_small_link (LocalLink.Partner agent site) }
{
    if site <= 255 {
        Some(LocalLink::Partner(AgentType(agent), SiteNo(site as u8)))
    } else {
        None
    }
}

// A link. `None` inside stands for one whose site has a number that no site has.
fn link_of(word: &[u8]) -> Option<Option<LocalLink>>
    ensures { result ≡ option_map (passing is_small_link) (link word.now) }
{
    if word == b".".as_slice() {
        return Some(Some(LocalLink::Free));
    }
    let (agent, site) = cut_at(b'.', word)?;
    Some(small_link(number_of(agent)?, number_of(site)?))
}

// The local state of these, if both are there.
fn local_of(state: Option<Option<StateNo>>, link: Option<LocalLink>) -> Option<Local>
    ensures { result ≡ both state link }
{
    Some(Local {
        state: state?,
        link: link?,
    })
}

/// The local state of a site, as `S,L`. `None` inside stands for one with a number that no state or site has.
pub(crate) fn group_of(word: &[u8]) -> Option<Option<Local>>
    ensures { result ≡ option_map (passing is_small_local) (group word.now) }
{
    let (state, link) = cut_at(b',', word)?;
    let state = state_of(state)?;
    let link = link_of(link)?;
    Some(local_of(small_state(state), link))
}
