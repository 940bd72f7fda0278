// What the words of a line say, one word at a time.
ghost use Rattle.std.specs.Prelude.{◌≡◌, ◌∷◌, [], ℕ, List, IsTrue, IfOk, None};
ghost use Rattle.kasa_families.specs.declared.row.Local.{Local};
ghost use Rattle.kasa_tabfile.specs.Line.{is_small, is_small_local, line_of, across_of, parallel_of, chain_of, over_sites};
ghost use Rattle.kasa_tabfile.specs.inner.Head.{passing, one_more, with_more, bonds_of, complete, view_with, locals_with};

use crate::line::{Line, Version};
use crate::lists::{LocalList, SiteList};
use crate::word::{group_of, number_of};
use arrayvec::ArrayVec;
use kasa_families::{Family, Local, Locals, Row, Sites};
use kasa_num::{AgentType, NoMemory, SiteNo};
use std::alloc::Global;

/// The families over bonds.
#[derive(Clone, Copy, Debug, PartialEq, Eq)]
pub(crate) enum Bonds {
    Across,
    Parallel,
    Chain,
}

/// What the words of a line so far say.
#[derive(Drop)]
pub(crate) enum Head {
    /// There is no word yet.
    Nothing,
    Kasa,
    Tables,
    Header(Version),
    ViewWord,
    /// A type, and its sites unless no family has so many, or no site has such a number.
    View(AgentType, Option<SiteList>),
    Bonds(Bonds, ArrayVec<u16, 9>),
    RowWord,
    /// The local states, unless no row has so many, or no site has such a one.
    Locals(Option<LocalList>),
    Same,
    Different,
    End,
    /// No line begins so.
    Bad,
}

fn first_word(word: &[u8]) -> Head
    ensures { (ws : List (List ℕ)) → complete result ws ≡ line_of (word.now ∷ ws) }
{
    if word == b"view".as_slice() {
        Head::ViewWord
    } else if word == b"across".as_slice() {
        Head::Bonds(Bonds::Across, ArrayVec::new())
    } else if word == b"parallel".as_slice() {
        Head::Bonds(Bonds::Parallel, ArrayVec::new())
    } else if word == b"chain".as_slice() {
        Head::Bonds(Bonds::Chain, ArrayVec::new())
    } else if word == b"r".as_slice() {
        Head::RowWord
    } else if word == b"kasa".as_slice() {
        Head::Kasa
    } else if word == b"end".as_slice() {
        Head::End
    } else {
        Head::Bad
    }
}

fn after_kasa(word: &[u8]) -> Head
    ensures { (ws : List (List ℕ)) → complete result ws ≡ complete Head.Kasa (word.now ∷ ws) }
{
    if word == b"tables".as_slice() {
        Head::Tables
    } else {
        Head::Bad
    }
}

fn after_tables(word: &[u8]) -> Head
    ensures { (ws : List (List ℕ)) → complete result ws ≡ complete Head.Tables (word.now ∷ ws) }
{
    if word == b"1".as_slice() {
        Head::Header(Version::One)
    } else if word == b"2".as_slice() {
        Head::Header(Version::Two)
    } else {
        Head::Bad
    }
}

fn after_view(word: &[u8]) -> Head
    ensures { (ws : List (List ℕ)) → complete result ws ≡ complete Head.ViewWord (word.now ∷ ws) }
{
    match number_of(word) {
        Some(agent) => Head::View(AgentType(agent), Some(SiteList::new())),
        None => Head::Bad,
    }
}

fn push_site(sites: Option<SiteList>, site: u16) -> Option<SiteList>
    ensures { result ≡ one_more is_small sites site }
{
    match sites {
        Some(mut sites) if sites.as_slice().len() < 16 && site <= 255 => {
            sites.push(SiteNo(site as u8));
            Some(sites)
        }
        _ => None,
    }
}

fn after_site(agent: AgentType, sites: Option<SiteList>, word: &[u8]) -> Head
    ensures { (ws : List (List ℕ)) → complete result ws ≡ complete (Head.View agent sites) (word.now ∷ ws) }
{
    match number_of(word) {
        Some(site) => Head::View(agent, push_site(sites, site)),
        None => Head::Bad,
    }
}

fn after_number(bonds: Bonds, before: ArrayVec<u16, 9>, word: &[u8]) -> Head
    ensures { (ws : List (List ℕ)) → complete result ws ≡ complete (Head.Bonds bonds before) (word.now ∷ ws) }
{
    let mut before = before;
    let Some(number) = number_of(word) else {
        return Head::Bad;
    };
    if before.len() >= 9 {
        return Head::Bad;
    }
    before.push(number);
    Head::Bonds(bonds, before)
}

fn push_local(locals: Option<LocalList>, local: Option<Local>) -> Option<LocalList>
    requires { (g : Local) × (local ≡ passing is_small_local g) }
    ensures { (g : Local) → local ≡ passing is_small_local g → result ≡ one_more is_small_local locals g }
{
    let mut locals = locals?;
    let local = local?;
    if locals.as_slice().len() >= 16 {
        return None;
    }
    locals.push(local);
    Some(locals)
}

fn after_local(locals: Option<LocalList>, word: &[u8]) -> Head
    ensures { (ws : List (List ℕ)) → complete result ws ≡ complete (Head.Locals locals) (word.now ∷ ws) }
{
    match group_of(word) {
        Some(local) => Head::Locals(push_local(locals, local)),
        None => Head::Bad,
    }
}

fn after_row(word: &[u8]) -> Head
    ensures { (ws : List (List ℕ)) → complete result ws ≡ complete Head.RowWord (word.now ∷ ws) }
{
    if word == b"same".as_slice() {
        Head::Same
    } else if word == b"different".as_slice() {
        Head::Different
    } else {
        after_local(Some(LocalList::new()), word)
    }
}

impl Head {
    /// Takes the next word.
    pub(crate) fn after(self, word: &[u8]) -> Head
        ensures { (ws : List (List ℕ)) → complete result ws ≡ complete self (word.now ∷ ws) }
    {
        match self {
            Head::Nothing => first_word(word),
            Head::Kasa => after_kasa(word),
            Head::Tables => after_tables(word),
            Head::ViewWord => after_view(word),
            Head::View(agent, sites) => after_site(agent, sites, word),
            Head::Bonds(bonds, before) => after_number(bonds, before, word),
            Head::RowWord => after_row(word),
            Head::Locals(locals) => after_local(locals, word),
            Head::Header(_) | Head::Same | Head::Different | Head::End | Head::Bad => Head::Bad,
        }
    }

    /// The line whose words these are.
    pub(crate) fn line(self, alloc: Global) -> Result<Option<Line>, NoMemory>
        ensures { IfOk result (λ line. line ≡ complete self []) }
    {
        match self {
            Head::Header(version) => Ok(Some(Line::Header(version))),
            Head::View(agent, sites) => Ok(Some(view_line(alloc, agent, sites)?)),
            Head::Bonds(bonds, numbers) => Ok(bonds_line(bonds, numbers.as_slice())),
            Head::RowWord => Ok(Some(Line::Row(Some(Row::Locals(Locals::new(alloc, &[])))))),
            Head::Locals(locals) => Ok(Some(locals_line(alloc, locals))),
            Head::Same => Ok(Some(Line::Row(Some(Row::Same)))),
            Head::Different => Ok(Some(Line::Row(Some(Row::Different)))),
            Head::End => Ok(Some(Line::End)),
            Head::Nothing | Head::Kasa | Head::Tables | Head::ViewWord | Head::Bad => Ok(None),
        }
    }

    /// No line begins so.
    pub(crate) fn is_bad(&self) -> bool
        ensures { IsTrue result → (ws : List (List ℕ)) → complete self.now ws ≡ None }
    {
        matches!(self, Head::Bad)
    }
}

// The line of a view with these sites.
fn view_line(alloc: Global, agent: AgentType, sites: Option<SiteList>) -> Result<Line, NoMemory>
    ensures { IfOk result (λ line. line ≡ view_with agent (with_more is_small sites [])) }
{
    match sites {
        None => Ok(Line::Family(None)),
        Some(sites) => {
            let sites = Sites::new(Vec::from_slice(alloc, sites.as_slice())?);
            Ok(Line::Family(Some(Family::View { agent, sites })))
        }
    }
}

// The line of a row with these local states.
fn locals_line(alloc: Global, locals: Option<LocalList>) -> Line
    ensures { result ≡ locals_with (with_more is_small_local locals []) }
{
    match locals {
        None => Line::Row(None),
        Some(locals) => Line::Row(Some(Row::Locals(Locals::new(alloc, locals.as_slice())))),
    }
}

// The line of a family over bonds with these numbers.
fn bonds_line(bonds: Bonds, numbers: &[u16]) -> Option<Line>
    ensures { result ≡ bonds_of bonds numbers.now }
{
    match bonds {
        Bonds::Across => across_line(numbers),
        Bonds::Parallel => parallel_line(numbers),
        Bonds::Chain => chain_line(numbers),
    }
}

fn across_line(numbers: &[u16]) -> Option<Line>
    ensures { result ≡ across_of numbers.now }
{
    match numbers {
        [a, x, p, b, y, q] => Some(Line::Family(across(*a, *x, *p, *b, *y, *q))),
        _ => None,
    }
}

fn parallel_line(numbers: &[u16]) -> Option<Line>
    ensures { result ≡ parallel_of numbers.now }
{
    match numbers {
        [a, x, u, b, y, w] => Some(Line::Family(parallel(*a, *x, *u, *b, *y, *w))),
        _ => None,
    }
}

fn chain_line(numbers: &[u16]) -> Option<Line>
    ensures { result ≡ chain_of numbers.now }
{
    match numbers {
        [a, x, p, b, y, z, c, w, q] => {
            Some(Line::Chain(chain(*a, *x, *p, *b, *y, *z, *c, *w, *q)))
        }
        _ => None,
    }
}

// The number, if a site may have it.
fn site_of(number: u16) -> Option<SiteNo>
    ensures { result ≡ passing is_small number }
{
    if number <= 255 {
        Some(SiteNo(number as u8))
    } else {
        None
    }
}

fn across(a: u16, x: u16, p: u16, b: u16, y: u16, q: u16) -> Option<Family>
    ensures { result ≡ over_sites (x ∷ p ∷ y ∷ q ∷ []) (Family.Across a x p b y q) }
{
    Some(Family::Across {
        a: AgentType(a),
        x: site_of(x)?,
        p: site_of(p)?,
        b: AgentType(b),
        y: site_of(y)?,
        q: site_of(q)?,
    })
}

fn parallel(a: u16, x: u16, u: u16, b: u16, y: u16, w: u16) -> Option<Family>
    ensures { result ≡ over_sites (x ∷ u ∷ y ∷ w ∷ []) (Family.Parallel a x u b y w) }
{
    Some(Family::Parallel {
        a: AgentType(a),
        x: site_of(x)?,
        u: site_of(u)?,
        b: AgentType(b),
        y: site_of(y)?,
        w: site_of(w)?,
    })
}

fn chain(a: u16, x: u16, p: u16, b: u16, y: u16, z: u16, c: u16, w: u16, q: u16) -> Option<Family>
    ensures { result ≡ over_sites (x ∷ p ∷ y ∷ z ∷ w ∷ q ∷ []) (Family.Chain a x p b y z c w q) }
{
    Some(Family::Chain {
        a: AgentType(a),
        x: site_of(x)?,
        p: site_of(p)?,
        b: AgentType(b),
        y: site_of(y)?,
        z: site_of(z)?,
        c: AgentType(c),
        w: site_of(w)?,
        q: site_of(q)?,
    })
}
