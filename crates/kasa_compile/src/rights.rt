// What can't stand on the right of a rule.
ghost use Rattle.std.specs.Prelude.{◌≡◌, ◌||◌, Some, slice_get};
ghost use Rattle.kasa_compile.specs.Causes.{mismatch, mismatches, is_same_link, is_bad_link, link_at, leaves_state_open, leaves_link_open, bad_if, bad_right, bad_rights};

use crate::said::{LinkSaid, Pair, SiteSaid};
use kasa_graph::StateTest;
use kasa_num::SiteNo;

/// The offset of the first agent on the right of another type than the one that belongs to it.
pub fn mismatch(pairs: &[Pair]) -> Option<u32>
    ensures { result ≡ slice_get (mismatches pairs.now) 0 }
{
    for pair in pairs {
        if let Some(at) = mismatch_of(pair) {
            return Some(at);
        }
    }
    None
}

// The offset of the agent on the right, where it has another type than the one on the left.
fn mismatch_of(pair: &Pair) -> Option<u32>
    ensures { result ≡ slice_get (mismatch pair.now.left pair.now.right) 0 }
{
    match (&pair.left, &pair.right) {
        (Some(left), Some(right)) if left.agent != right.agent => Some(right.at),
        _ => None,
    }
}

/// The offset of the first site of which something can't stand on the right.
pub fn bad_right(pairs: &[Pair]) -> Option<u32>
    ensures { result ≡ slice_get (bad_rights pairs.now) 0 }
{
    for pair in pairs {
        if let Some(at) = bad_right_of(pair) {
            return Some(at);
        }
    }
    None
}

// The same of one pair.
fn bad_right_of(pair: &Pair) -> Option<u32>
    ensures { result ≡ slice_get (bad_right pair.now.left pair.now.right) 0 }
{
    match (&pair.left, &pair.right) {
        (Some(left), Some(right)) => {
            bad_on_kept(left.sites.items.as_slice(), right.sites.items.as_slice())
        }
        (Some(left), None) => bad_on_deleted(left.sites.items.as_slice()),
        (None, Some(right)) => bad_on_created(right.sites.items.as_slice()),
        (None, None) => None,
    }
}

// The first site of a kept agent with `_` or `s.B`, unless its left side has the same.
fn bad_on_kept(left: &[SiteSaid], right: &[SiteSaid]) -> Option<u32>
    ensures { result ≡ slice_get (bad_if (λ s. is_bad_link left.now s.site s.link) right.now) 0 }
{
    for site in right {
        if is_bad_link(left, site) {
            return Some(site.at);
        }
    }
    None
}

fn is_bad_link(left: &[SiteSaid], site: &SiteSaid) -> bool
    ensures { result ≡ is_bad_link left.now site.now.site site.now.link }
{
    let Some(link) = site.link else {
        return false;
    };
    match link {
        LinkSaid::Bound | LinkSaid::Partner(_, _) => {
            !is_same_link(link_at(left, site.site), link)
        }
        LinkSaid::Any | LinkSaid::Free | LinkSaid::Label(_) => false,
    }
}

// Whether both links are `_`, or `s.B` of the same site.
fn is_same_link(left: Option<LinkSaid>, right: LinkSaid) -> bool
    ensures { result ≡ is_same_link left (Some right) }
{
    let Some(left) = left else {
        return false;
    };
    match left {
        LinkSaid::Bound => matches!(right, LinkSaid::Bound),
        LinkSaid::Partner(agent, site) => match right {
            LinkSaid::Partner(other, at) => agent == other && site == at,
            _ => false,
        },
        _ => false,
    }
}

/// The link that a site of a number has among some sites.
pub fn link_at(sites: &[SiteSaid], number: SiteNo) -> Option<LinkSaid>
    ensures { result ≡ link_at sites.now number }
{
    for site in sites {
        if site.site == number {
            return site.link;
        }
    }
    None
}

// The first site of a deleted agent with a `/`.
fn bad_on_deleted(sites: &[SiteSaid]) -> Option<u32>
    ensures { result ≡ slice_get (bad_if (λ s. s.slash) sites.now) 0 }
{
    for site in sites {
        if site.slash {
            return Some(site.at);
        }
    }
    None
}

// The first site of a created agent with a `/`, or whose state or link is left open.
fn bad_on_created(sites: &[SiteSaid]) -> Option<u32>
    ensures { result ≡ slice_get (bad_if (λ s. s.slash || (leaves_state_open s.state || leaves_link_open s.link)) sites.now) 0 }
{
    for site in sites {
        if is_bad_created(site) {
            return Some(site.at);
        }
    }
    None
}

fn is_bad_created(site: &SiteSaid) -> bool
    ensures { result ≡ (site.now.slash || (leaves_state_open site.now.state || leaves_link_open site.now.link)) }
{
    let open_state = matches!(site.state, Some(StateTest::Any));
    let open_link = matches!(
        site.link,
        Some(LinkSaid::Any | LinkSaid::Bound | LinkSaid::Partner(..))
    );
    site.slash || open_state || open_link
}
