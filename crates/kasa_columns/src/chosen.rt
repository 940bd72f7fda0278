// What columns may have shown where the rule writes a bond of the root: local states of a view's rows, or all valid ones.
ghost use Rattle.std.specs.Prelude.{◌≡◌, ◌↔◌, ◌⊎◌, ℕ, ◌<◌, List, [], ◌∷◌, None, Some, length, slice_get, IfOk, IfSome, Option};
ghost use Rattle.kasa_graph.specs.Lists.{Has};
ghost use Rattle.kasa_graph.specs.Signature.{HasSite, state_counts};
ghost use Rattle.kasa_families.specs.declared.row.Local.{Local};
ghost use Rattle.kasa_families.specs.declared.row.LocalLink.{LocalLink};
ghost use Rattle.kasa_families.specs.declared.row.LocalLink.TheVariants.{Free};
ghost use Rattle.kasa_families.specs.Local.{IsLocal, IsLocalState, IsLocalLink};
ghost use Rattle.kasa_families.specs.Table.{rows_of};
ghost use Rattle.kasa_columns.specs.Stands.{AreFrom};
ghost use Rattle.kasa_columns.specs.Chosen.{ListsAt, IsViewChoice, IsChoiceOf, IsColumnChoice, AreColumnChoices, IsPartnerOf, IsInFront, IsAmong, AreAmong};

use crate::collect::Search;
use kasa_families::{Family, Local, LocalLink, NodeSite, Row, Rows};
use kasa_graph::Signature;
use kasa_num::{AgentType, FamilyNo, NoMemory, SiteNo, StateNo};
use kasa_pre::Stand;
use std::alloc::Global;
use std::marker::Model;

/// Local states: those of one column, or one for each column.
#[derive(Drop)]
pub(crate) struct States {
    items: Vec<Local>,
}

impl Model for States {
    ghost use Rattle.std.specs.Prelude.{List};
    ghost use Rattle.kasa_families.specs.declared.row.Local.{Local};

    ghost Value = { List Local };

    ghost view = { λ s. s.items.items };
}

impl States {
    pub(crate) fn as_slice(&self) -> &[Local]
        ensures { result.now ≡ self.now }
    {
        self.items.as_slice()
    }

    fn copy(&self, alloc: Global) -> Result<States, NoMemory>
        ensures { IfOk result (λ states. states ≡ self.now) }
    {
        Ok(States {
            items: Vec::from_slice(alloc, self.items.as_slice())?,
        })
    }
}

// ---- one column

/// For each column the local states that it may have shown.
pub(crate) fn choices<R: Rows>(search: &Search<R>) -> Result<Vec<States>, NoMemory>
    ensures { IfOk result (λ found. AreColumnChoices search.now found.items) }
{
    let mut found = Vec::with_capacity(search.alloc, search.columns.len())?;
    for column in search.columns {
        found.push(choice_of(search, column)?)?;
    }
    Ok(found)
}

fn choice_of<R: Rows>(search: &Search<R>, column: &NodeSite) -> Result<States, NoMemory>
    requires { Has search.now.columns column.now }
    ensures { IfOk result (λ states. IsColumnChoice search.now column.now states) }
{
    match search.family.node_type(column.node.0 as usize) {
        Some(agent) => choice(search, agent, column.site),
        None => unreachable!(),
    }
}

// The local states of a view that has the site, of several those that are fewest, and else all valid ones.
fn choice<R: Rows>(search: &Search<R>, agent: AgentType, site: SiteNo) -> Result<States, NoMemory>
    requires { HasSite search.now.sig agent site }
    ensures { IfOk result (λ states. IsChoiceOf search.now agent site states) }
{
    let mut best = None;
    for f in 0..search.rows.families() {
        if let Some(states) = states_in(search, FamilyNo(f as u16), agent, site)? {
            best = Some(fewer(best, states));
        }
    }
    match best {
        Some(states) => Ok(states),
        None => all_states(search.alloc, search.sig, agent, site),
    }
}

// The shorter one of two lists, or the only one.
fn fewer(best: Option<States>, other: States) -> States
    ensures { (result ≡ other) ⊎ (best ≡ Some result) }
{
    match best {
        Some(states) if states.as_slice().len() <= other.as_slice().len() => states,
        _ => other,
    }
}

// The local states at the site in the rows of the family of a number, where that is a view of the type with the site.
fn states_in<R: Rows>(
    search: &Search<R>,
    f: FamilyNo,
    agent: AgentType,
    site: SiteNo,
) -> Result<Option<States>, NoMemory>
    ensures { IfOk result (λ found. IfSome found (λ states. IsViewChoice search.now agent site states)) }
{
    match search.rows.family(f) {
        Some(Family::View { agent: of, sites }) if *of == agent => {
            match place_in(sites.as_slice(), site) {
                None => Ok(None),
                Some(place) => Ok(Some(states_at(search, f, place)?)),
            }
        }
        _ => Ok(None),
    }
}

// Where the site stands in a list.
fn place_in(sites: &[SiteNo], site: SiteNo) -> Option<usize>
    ensures { IfSome result (λ place. slice_get sites.now place ≡ Some site) }
{
    for (k, other) in sites.iter().enumerate() {
        if *other == site {
            return Some(k);
        }
    }
    None
}

// The different local states that rows of a family list at a place.
fn states_at<R: Rows>(search: &Search<R>, f: FamilyNo, place: usize) -> Result<States, NoMemory>
    ensures { IfOk result (λ states. (l : Local) → Has states l ↔ AreFrom (ListsAt place) (rows_of search.now.tables f) l) }
{
    let mut items = Vec::new(search.alloc);
    for k in 0..search.rows.rows(f) {
        match search.rows.row(f, k) {
            Some(row) => push_listed(row, place, &mut items)?,
            None => unreachable!(),
        }
    }
    items.sort_unstable();
    items.dedup();
    Ok(States { items })
}

// Appends the local state that a row lists at a place.
fn push_listed(row: &Row, place: usize, items: &mut Vec<Local>) -> Result<(), NoMemory>
    ensures { IfOk result (λ _. (l : Local) → Has items.new.items l ↔ (Has items.old.items l ⊎ ListsAt place row.now l)) }
{
    match row {
        Row::Locals(locals) => push_at(locals.as_slice(), place, items),
        _ => Ok(()),
    }
}

fn push_at(locals: &[Local], place: usize, items: &mut Vec<Local>) -> Result<(), NoMemory>
    ensures { IfOk result (λ _. (l : Local) → Has items.new.items l ↔ (Has items.old.items l ⊎ (slice_get locals.now place ≡ Some l))) }
{
    if place < locals.len() {
        items.push(locals[place])?;
    }
    Ok(())
}

// ---- all valid local states of a site

fn all_states(
    alloc: Global,
    sig: &Signature,
    agent: AgentType,
    site: SiteNo,
) -> Result<States, NoMemory>
    requires { HasSite sig.now agent site }
    ensures { IfOk result (λ states. (l : Local) → Has states l ↔ IsLocal sig.now agent site l) }
{
    let states = possible_states(alloc, sig, agent, site)?;
    let links = all_links(alloc, sig)?;
    let mut items = Vec::new(alloc);
    for state in &states {
        push_linked(state, links.as_slice(), &mut items)?;
    }
    Ok(States { items })
}

// No state, or each of the site's.
fn possible_states(
    alloc: Global,
    sig: &Signature,
    agent: AgentType,
    site: SiteNo,
) -> Result<Vec<Option<StateNo>>, NoMemory>
    requires { HasSite sig.now agent site }
    ensures { IfOk result (λ states. (state : Option ℕ) → Has states.items state ↔ IsLocalState (slice_get (state_counts sig.now agent) site) state) }
{
    let count = sig.states(agent, site);
    let mut states = Vec::new(alloc);
    if count == 0 {
        states.push(None)?;
        return Ok(states);
    }
    for u in 0..count {
        states.push(Some(StateNo(u as u8)))?;
    }
    Ok(states)
}

fn push_linked(
    state: &Option<StateNo>,
    links: &[LocalLink],
    items: &mut Vec<Local>,
) -> Result<(), NoMemory>
    ensures { IfOk result (λ _. (l : Local) → Has items.new.items l ↔ (Has items.old.items l ⊎ ((l.state ≡ state.now) × Has links.now l.link))) }
{
    for link in links {
        items.push(Local {
            state: *state,
            link: *link,
        })?;
    }
    Ok(())
}

fn all_links(alloc: Global, sig: &Signature) -> Result<Vec<LocalLink>, NoMemory>
    ensures { IfOk result (λ links. (link : LocalLink) → Has links.items link ↔ IsLocalLink sig.now link) }
{
    let mut links = Vec::new(alloc);
    links.push(LocalLink::Free)?;
    for b in 0..sig.types() {
        push_partners(sig, AgentType(b as u16), &mut links)?;
    }
    Ok(links)
}

fn push_partners(
    sig: &Signature,
    agent: AgentType,
    links: &mut Vec<LocalLink>,
) -> Result<(), NoMemory>
    ensures { IfOk result (λ _. (link : LocalLink) → Has links.new.items link ↔ (Has links.old.items link ⊎ ((y : ℕ) × IsPartnerOf sig.now agent y link))) }
{
    for y in 0..sig.sites(agent) {
        links.push(LocalLink::Partner(agent, SiteNo(y as u8)))?;
    }
    Ok(())
}

// ---- all columns

/// All choices of one local state for each column; a created node showed nothing that matters.
pub(crate) fn chosen(
    alloc: Global,
    stands: &[Stand],
    columns: &[NodeSite],
    choices: &[States],
) -> Result<Vec<States>, NoMemory>
    requires count { length columns.now ≡ length choices.now }
    requires nodes { (k : ℕ) (c : NodeSite) → slice_get columns.now k ≡ Some c → c.node < length stands.now }
    ensures { IfOk result (λ all. (shown : List Local) → Has all.items shown ↔ AreAmong stands.now columns.now choices.now shown) }
{
    let mut all = Vec::new(alloc);
    all.push(States {
        items: Vec::new(alloc),
    })?;
    for k in (0..columns.len()).rev() {
        let column = columns[k];
        let choice = &choices[k];
        let states = states_for(alloc, &stands[column.node.0 as usize], choice)?;
        all = with_column(alloc, states.as_slice(), all.as_slice())?;
    }
    Ok(all)
}

fn states_for(alloc: Global, stand: &Stand, choice: &States) -> Result<States, NoMemory>
    ensures { IfOk result (λ states. (l : Local) → Has states l ↔ IsAmong choice.now l stand.now) }
{
    match *stand {
        Stand::Made(_) => nothing(alloc),
        _ => choice.copy(alloc),
    }
}

// Of a created node.
fn nothing(alloc: Global) -> Result<States, NoMemory>
    ensures { IfOk result (λ states. states ≡ record { state = None; link = Free } ∷ []) }
{
    let mut items = Vec::new(alloc);
    items.push(Local {
        state: None,
        link: LocalLink::Free,
    })?;
    Ok(States { items })
}

// Each of a column's local states in front of each of the rest.
fn with_column(alloc: Global, states: &[Local], rest: &[States]) -> Result<Vec<States>, NoMemory>
    ensures { IfOk result (λ all. (shown : List Local) → Has all.items shown ↔ AreFrom (IsInFront rest.now) states.now shown) }
{
    let mut all = Vec::new(alloc);
    for local in states {
        push_in_front(alloc, local, rest, &mut all)?;
    }
    Ok(all)
}

fn push_in_front(
    alloc: Global,
    local: &Local,
    rest: &[States],
    all: &mut Vec<States>,
) -> Result<(), NoMemory>
    ensures { IfOk result (λ _. (shown : List Local) → Has all.new.items shown ↔ (Has all.old.items shown ⊎ IsInFront rest.now local.now shown)) }
{
    for shown in rest {
        let mut items = Vec::with_capacity(alloc, shown.items.len() + 1)?;
        items.push(*local)?;
        items.extend_from_slice(shown.as_slice())?;
        all.push(States { items })?;
    }
    Ok(())
}
