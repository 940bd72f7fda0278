// Labels that don't stand exactly twice on a side.
ghost use Rattle.std.specs.Prelude.{◌≡◌, ◌++◌, slice_get, IfOk, OnOk};
ghost use Rattle.std.specs.List.{flat_map};
ghost use Rattle.kasa_compile.specs.Labels.{standing_in, standing, label_in, labels_in, labels_on, odd_labels};
ghost use Rattle.kasa_compile.specs.Said.{link_word};
ghost use Rattle.kasa_compile.specs.Causes.{odd_in};
ghost use Rattle.kasa_compile.specs.Counts.{once_more, AreCountsOf, is_twice, odd_by};

use crate::limits::lesser;
use crate::pairs::{items_on, stands_on};
use crate::resolved::{Side, link_word};
use indexmap::IndexMap;
use kasa_num::NoMemory;
use kasa_syntax::{AgentText, Form, Item, LinkWord, SiteText};
use std::alloc::Global;
use std::marker::Model;

/// A label that stands on a side, with its offset.
#[derive(Clone, Copy, PartialEq, Eq, Debug)]
pub struct Label {
    pub number: u16,
    pub at: u32,
}

// How often a label stands on a side: whether it is twice is all that is asked.
#[derive(Clone, Copy, PartialEq, Eq, Debug)]
pub enum Times {
    Once,
    Twice,
    More,
}

// The labels of a side, each with how often it stands there.
#[derive(Drop)]
struct Counts {
    items: IndexMap<u16, Times>,
}

impl Model for Counts {
    ghost use Rattle.std.specs.Prelude.{ℕ, List};
    ghost use Rattle.kasa_compile.specs.declared.label_counts.Times.{Times};

    ghost Value = { List (ℕ × Times) };

    ghost view = { λ t. t.items.entries };
}

impl Counts {
    // The counts of some labels.
    fn of(alloc: Global, labels: &[Label]) -> Result<Counts, NoMemory>
        ensures { IfOk result (λ counts. AreCountsOf labels.now counts) }
    {
        let mut items = IndexMap::new(alloc);
        for label in labels {
            let times = once_more(items.get(&label.number).copied());
            items.insert(label.number, times)?;
        }
        Ok(Counts { items })
    }

    // Whether a label stands twice. It takes no memory.
    fn is_twice(&self, number: u16) -> bool
        ensures { result ≡ is_twice self.now number }
    {
        matches!(self.items.get(&number), Some(Times::Twice))
    }
}

// Once more than so often.
fn once_more(times: Option<Times>) -> Times
    ensures { result ≡ once_more times }
{
    match times {
        None => Times::Once,
        Some(Times::Once) => Times::Twice,
        Some(Times::Twice | Times::More) => Times::More,
    }
}

// The offset of the first label that doesn't stand twice by the counts.
fn first_odd_by(counts: &Counts, labels: &[Label]) -> Option<u32>
    ensures { result ≡ slice_get (flat_map (odd_by counts.now) labels.now) 0 }
{
    for label in labels {
        if !counts.is_twice(label.number) {
            return Some(label.at);
        }
    }
    None
}

// The offset of the first label that doesn't stand exactly twice among these.
fn first_odd(alloc: Global, labels: &[Label]) -> Result<Option<u32>, NoMemory>
    ensures { IfOk result (λ first. first ≡ slice_get (odd_labels labels.now) 0) }
{
    let counts = Counts::of(alloc, labels)?;
    Ok(first_odd_by(&counts, labels))
}

// The labels that an agent has on a side, behind those that were noted before.
fn note_sites(labels: &mut Vec<Label>, side: Side, sites: &[SiteText]) -> Result<(), NoMemory>
    ensures { OnOk result (labels.new.items ≡ labels.old.items ++ flat_map (λ s. label_in (link_word side s)) sites.now) }
{
    for site in sites {
        if let Some(LinkWord::Label { number, span }) = link_word(side, site) {
            labels.push(Label {
                number,
                at: span.start,
            })?;
        }
    }
    Ok(())
}

// The same of an item's agent, if it stands on the side.
fn note_item(labels: &mut Vec<Label>, side: Side, item: &Item) -> Result<(), NoMemory>
    ensures { OnOk result (labels.new.items ≡ labels.old.items ++ flat_map (labels_in side) (standing_in side item.now)) }
{
    match item {
        Item::Agent(agent) if stands_on(side, agent.mark) => {
            note_sites(labels, side, agent.sites.as_slice())
        }
        _ => Ok(()),
    }
}

/// The offset of the first label of some agents that doesn't stand exactly twice among them on a side.
pub fn first_odd_of_agents(
    alloc: Global,
    side: Side,
    agents: &[AgentText],
) -> Result<Option<u32>, NoMemory>
    ensures { IfOk result (λ first. first ≡ slice_get (odd_labels (labels_on side agents.now)) 0) }
{
    let mut labels = Vec::new(alloc);
    for agent in agents {
        note_sites(&mut labels, side, agent.sites.as_slice())?;
    }
    first_odd(alloc, labels.as_slice())
}

// The same of the agents among some items that stand on the side.
fn first_odd_of_items(alloc: Global, side: Side, items: &[Item]) -> Result<Option<u32>, NoMemory>
    ensures { IfOk result (λ first. first ≡ slice_get (odd_labels (labels_on side (standing side items.now))) 0) }
{
    let mut labels = Vec::new(alloc);
    for item in items {
        note_item(&mut labels, side, item)?;
    }
    first_odd(alloc, labels.as_slice())
}

/// The offset of the first label of a rule that doesn't stand exactly twice on its side.
pub fn odd_label_in_rule(alloc: Global, form: &Form) -> Result<Option<u32>, NoMemory>
    ensures { IfOk result (λ first. first ≡ odd_in form.now) }
{
    let left = first_odd_of_items(alloc, Side::Left, items_on(Side::Left, form))?;
    let right = first_odd_of_items(alloc, Side::Right, items_on(Side::Right, form))?;
    Ok(lesser(left, right))
}
