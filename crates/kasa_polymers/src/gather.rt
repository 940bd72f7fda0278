// The contact map: what the declared complexes hold, and what rules that aren't dead write and create.
ghost use Rattle.std.specs.Prelude.{◌≡◌, ◌↔◌, ◌<◌, ℕ, List, Option, Some, IsSome, IfOk, OnOk, AllPairs, length};
ghost use Rattle.kasa_graph.specs.declared.mixture.Agent.{Agent};
ghost use Rattle.kasa_graph.specs.Lists.{Has};
ghost use Rattle.kasa_graph.specs.Mixture.{type_in, IsMixtureOver};
ghost use Rattle.kasa_rules.specs.Rule.{RuleParts, IsRule, IsRuleOver, end_type, end_link};
ghost use Rattle.kasa_rules.specs.Reached.{Reached};
ghost use Rattle.kasa_families.specs.Table.{AreTables};
ghost use Rattle.kasa_pre.specs.Allowed.{IsAllowed};
ghost use Rattle.kasa_pre.specs.Closed.{IsClosed};
ghost use Rattle.kasa_polymers.specs.declared.map.Bond.{Bond};
ghost use Rattle.kasa_polymers.specs.declared.map.StateSeen.{StateSeen};
ghost use Rattle.kasa_polymers.specs.Contact.{HasBond, HasStateSeen, WritesBond, WritesState, end_state, IsContactBond, IsContactState, IsMapped};
ghost use Rattle.kasa_polymers.specs.Order.{IsBondBelow, IsStateBelow};
ghost use Rattle.kasa_polymers.specs.inner.Gather.{Adds, AddsSeen, IsBondOf, IsStateOf, IsBondAt, IsStateAt, IsBondOfEnd, IsStateOfEnd, IsBondAtEnd, IsStateAtEnd, HasEndSite};

use crate::{Bond, Bonds, ContactMap, StateSeen, StatesSeen};
use kasa_families::Rows;
use kasa_graph::{Mixture, Signature};
use kasa_num::{AgentType, NoMemory, NodeNo, SiteNo, StateNo};
use kasa_pre::is_dead;
use kasa_rules::{End, Model, Rule, Written};
use std::alloc::Global;

// What was seen so far, in any order, maybe more than once.
#[derive(Drop)]
pub(crate) struct Seen {
    bonds: Vec<Bond>,
    states: Vec<StateSeen>,
}

/// The contact map of a model: the bonds and the states that stand in declared complexes, and those that a rule which
/// tables don't show dead writes or creates. Bonds stand in both directions, both lists ascend. Where the tables are
/// closed, no mixture that the model reaches has another bond or state.
pub fn contact<R: Rows>(alloc: Global, model: &Model, rows: &R) -> Result<ContactMap, NoMemory>
    requires tables { AreTables model.now.sig (R.tables rows.now) }
    ensures bonds { IfOk result (λ map. (bond : Bond) → Has map.bonds bond ↔ IsContactBond model.now (R.tables rows.now) bond) }
    ensures states { IfOk result (λ map. (seen : StateSeen) → Has map.states seen ↔ IsContactState model.now (R.tables rows.now) seen) }
    ensures bonds_ascend { IfOk result (λ map. AllPairs IsBondBelow map.bonds) }
    ensures states_ascend { IfOk result (λ map. AllPairs IsStateBelow map.states) }
    ensures sound { IfOk result (λ map. IsClosed model.now (R.tables rows.now) → (m : List (Option Agent)) → Reached model.now m → IsMapped map m) }
{
    let mut seen = Seen {
        bonds: Vec::new(alloc),
        states: Vec::new(alloc),
    };
    see_complexes(&model.sig, model.inits.as_slice(), &mut seen)?;
    see_rules(&model.sig, rows, model.rules.as_slice(), &mut seen)?;
    Ok(ContactMap {
        bonds: in_order(seen.bonds),
        states: states_in_order(seen.states),
    })
}

// The bonds in order, each once.
fn in_order(mut bonds: Vec<Bond>) -> Bonds
    ensures same { (bond : Bond) → Has result bond ↔ Has bonds.items bond }
    ensures ascend { AllPairs IsBondBelow result }
{
    bonds.sort_unstable();
    bonds.dedup();
    Bonds::new(bonds)
}

// The states in order, each once.
fn states_in_order(mut states: Vec<StateSeen>) -> StatesSeen
    ensures same { (seen : StateSeen) → Has result seen ↔ Has states.items seen }
    ensures ascend { AllPairs IsStateBelow result }
{
    states.sort_unstable();
    states.dedup();
    StatesSeen::new(states)
}

impl Seen {
    ghost use Rattle.std.specs.Prelude.{◌≡◌, Some, OnOk};
    ghost use Rattle.kasa_polymers.specs.inner.Gather.{AddsSeen};

    // Adds what there is.
    fn add(&mut self, bond: Option<Bond>, state: Option<StateSeen>) -> Result<(), NoMemory>
        ensures { OnOk result (AddsSeen (λ p. bond ≡ Some p) (λ q. state ≡ Some q) self.old self.new) }
    {
        add_bond(&mut self.bonds, bond)?;
        add_state(&mut self.states, state)
    }
}

fn add_bond(bonds: &mut Vec<Bond>, bond: Option<Bond>) -> Result<(), NoMemory>
    ensures { OnOk result (Adds (λ p. bond ≡ Some p) bonds.old.items bonds.new.items) }
{
    if let Some(bond) = bond {
        bonds.push(bond)?;
    }
    Ok(())
}

fn add_state(states: &mut Vec<StateSeen>, state: Option<StateSeen>) -> Result<(), NoMemory>
    ensures { OnOk result (Adds (λ q. state ≡ Some q) states.old.items states.new.items) }
{
    if let Some(state) = state {
        states.push(state)?;
    }
    Ok(())
}

// ---- complexes

fn see_complexes(sig: &Signature, complexes: &[Mixture], seen: &mut Seen) -> Result<(), NoMemory>
    requires over { (m : List (Option Agent)) → Has complexes.now m → IsMixtureOver sig.now m }
    ensures { OnOk result (AddsSeen (λ p. (m : List (Option Agent)) × Has complexes.now m × HasBond m p) (λ q. (m : List (Option Agent)) × Has complexes.now m × HasStateSeen m q) seen.old seen.new) }
{
    for complex in complexes {
        see_complex(sig, complex, seen)?;
    }
    Ok(())
}

fn see_complex(sig: &Signature, complex: &Mixture, seen: &mut Seen) -> Result<(), NoMemory>
    requires over { IsMixtureOver sig.now complex.now }
    ensures { OnOk result (AddsSeen (HasBond complex.now) (HasStateSeen complex.now) seen.old seen.new) }
{
    for cell in 0..complex.cells() {
        see_cell(sig, complex, cell as u32, seen)?;
    }
    Ok(())
}

fn see_cell(sig: &Signature, complex: &Mixture, cell: u32, seen: &mut Seen) -> Result<(), NoMemory>
    requires over { IsMixtureOver sig.now complex.now }
    ensures { OnOk result (AddsSeen (IsBondOf complex.now cell) (IsStateOf complex.now cell) seen.old seen.new) }
{
    match complex.agent(cell) {
        None => Ok(()),
        Some(agent) => see_agent(sig, complex, cell, agent, seen),
    }
}

fn see_agent(
    sig: &Signature,
    complex: &Mixture,
    cell: u32,
    agent: AgentType,
    seen: &mut Seen,
) -> Result<(), NoMemory>
    requires over { IsMixtureOver sig.now complex.now }
    requires typed { type_in complex.now cell ≡ Some agent }
    ensures { OnOk result (AddsSeen (IsBondOf complex.now cell) (IsStateOf complex.now cell) seen.old seen.new) }
{
    for number in 0..sig.sites(agent) {
        let site = SiteNo(number as u8);
        let bond = bond_at(complex, cell, agent, site);
        let state = state_at(complex, cell, agent, site);
        seen.add(bond, state)?;
    }
    Ok(())
}

fn bond_at(complex: &Mixture, cell: u32, agent: AgentType, site: SiteNo) -> Option<Bond>
    requires typed { type_in complex.now cell ≡ Some agent }
    ensures { (p : Bond) → (result ≡ Some p) ↔ IsBondAt complex.now cell site p }
{
    let (other, far) = complex.partner(cell, site)?;
    let second = complex.agent(other)?;
    Some(Bond {
        a: agent,
        x: site,
        b: second,
        y: far,
    })
}

fn state_at(complex: &Mixture, cell: u32, agent: AgentType, site: SiteNo) -> Option<StateSeen>
    requires typed { type_in complex.now cell ≡ Some agent }
    ensures { (q : StateSeen) → (result ≡ Some q) ↔ IsStateAt complex.now cell site q }
{
    let state = complex.state(cell, site)?;
    Some(StateSeen {
        a: agent,
        x: site,
        u: state,
    })
}

// ---- rules

fn see_rules<R: Rows>(
    sig: &Signature,
    rows: &R,
    rules: &[Rule],
    seen: &mut Seen,
) -> Result<(), NoMemory>
    requires tables { AreTables sig.now (R.tables rows.now) }
    requires over { (r : RuleParts) → Has rules.now r → IsRuleOver sig.now r }
    ensures { OnOk result (AddsSeen (λ p. (r : RuleParts) × Has rules.now r × IsAllowed sig.now (R.tables rows.now) r.left × WritesBond r p) (λ q. (r : RuleParts) × Has rules.now r × IsAllowed sig.now (R.tables rows.now) r.left × WritesState r q) seen.old seen.new) }
{
    for rule in rules {
        see_rule(sig, rows, rule, seen)?;
    }
    Ok(())
}

fn see_rule<R: Rows>(
    sig: &Signature,
    rows: &R,
    rule: &Rule,
    seen: &mut Seen,
) -> Result<(), NoMemory>
    requires tables { AreTables sig.now (R.tables rows.now) }
    requires over { IsRuleOver sig.now rule.now }
    ensures { OnOk result (AddsSeen (λ p. IsAllowed sig.now (R.tables rows.now) rule.now.left × WritesBond rule.now p) (λ q. IsAllowed sig.now (R.tables rows.now) rule.now.left × WritesState rule.now q) seen.old seen.new) }
{
    if is_dead(sig, rows, rule) {
        return Ok(());
    }
    see_left(sig, rule, seen)?;
    see_made(sig, rule, seen)
}

// What is written at left nodes.
fn see_left(sig: &Signature, rule: &Rule, seen: &mut Seen) -> Result<(), NoMemory>
    requires over { IsRuleOver sig.now rule.now }
    ensures { OnOk result (AddsSeen (λ p. (n : ℕ) × IsBondOfEnd rule.now (End.Left n) p) (λ q. (n : ℕ) × IsStateOfEnd rule.now (End.Left n) q) seen.old seen.new) }
{
    for node in 0..rule.left().nodes() {
        see_end(sig, rule, &End::Left(NodeNo(node as u16)), seen)?;
    }
    Ok(())
}

// What is created.
fn see_made(sig: &Signature, rule: &Rule, seen: &mut Seen) -> Result<(), NoMemory>
    requires over { IsRuleOver sig.now rule.now }
    ensures { OnOk result (AddsSeen (λ p. (k : ℕ) × IsBondOfEnd rule.now (End.Made k) p) (λ q. (k : ℕ) × IsStateOfEnd rule.now (End.Made k) q) seen.old seen.new) }
{
    for k in 0..rule.made() {
        see_end(sig, rule, &End::Made(k as u16), seen)?;
    }
    Ok(())
}

fn see_end(sig: &Signature, rule: &Rule, end: &End, seen: &mut Seen) -> Result<(), NoMemory>
    requires over { IsRuleOver sig.now rule.now }
    requires exists { IsSome (end_type rule.now end.now) }
    ensures { OnOk result (AddsSeen (IsBondOfEnd rule.now end.now) (IsStateOfEnd rule.now end.now) seen.old seen.new) }
{
    for number in 0..sig.sites(type_of(rule, end)) {
        let site = SiteNo(number as u8);
        let bond = bond_at_end(rule, end, site);
        let state = state_at_end(rule, end, site);
        seen.add(bond, state)?;
    }
    Ok(())
}

fn type_of(rule: &Rule, end: &End) -> AgentType
    requires { IsSome (end_type rule.now end.now) }
    ensures { end_type rule.now end.now ≡ Some result }
{
    match end {
        End::Left(node) => rule.left().agent(*node),
        End::Made(k) => rule.made_type(*k),
    }
}

fn bond_at_end(rule: &Rule, end: &End, site: SiteNo) -> Option<Bond>
    requires valid { IsRule rule.now }
    requires exists { IsSome (end_type rule.now end.now) }
    requires site { HasEndSite rule.now end.now site }
    ensures { (p : Bond) → (result ≡ Some p) ↔ IsBondAtEnd rule.now end.now site p }
{
    match link_at_end(rule, end, site) {
        Some(Written::To(other, far)) => Some(Bond {
            a: type_of(rule, end),
            x: site,
            b: type_of(rule, &other),
            y: far,
        }),
        _ => None,
    }
}

fn link_at_end(rule: &Rule, end: &End, site: SiteNo) -> Option<Written>
    requires site { HasEndSite rule.now end.now site }
    ensures { result ≡ end_link rule.now end.now site }
{
    match end {
        End::Left(node) => rule.written_link(*node, site),
        End::Made(k) => Some(rule.made_link(*k, site)),
    }
}

fn state_at_end(rule: &Rule, end: &End, site: SiteNo) -> Option<StateSeen>
    requires exists { IsSome (end_type rule.now end.now) }
    requires site { HasEndSite rule.now end.now site }
    ensures { (q : StateSeen) → (result ≡ Some q) ↔ IsStateAtEnd rule.now end.now site q }
{
    let state = written_at_end(rule, end, site)?;
    Some(StateSeen {
        a: type_of(rule, end),
        x: site,
        u: state,
    })
}

fn written_at_end(rule: &Rule, end: &End, site: SiteNo) -> Option<StateNo>
    requires site { HasEndSite rule.now end.now site }
    ensures { result ≡ end_state rule.now end.now site }
{
    match end {
        End::Left(node) => rule.written_state(*node, site),
        End::Made(k) => rule.made_state(*k, site),
    }
}
