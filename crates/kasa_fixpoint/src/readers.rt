// Of each type the pairs that read families whose root begins with it.
ghost use Rattle.std.specs.Prelude.{◌≡◌, ◌↔◌, ◌<◌, ◌≤◌, ◌+◌, ℕ, [], ◌∷◌, length, Some, slice_get, IsTrue, IfOk};
ghost use Rattle.kasa_lists.specs.Lists.{Has};
ghost use Rattle.kasa_graph.specs.Pattern.{types_of};
ghost use Rattle.kasa_families.specs.declared.family.Family.{Family};
ghost use Rattle.kasa_families.specs.Family.{IsFamily, family_types};
ghost use Rattle.kasa_fixpoint.specs.Pairs.{IsActing};
ghost use Rattle.kasa_fixpoint.specs.declared.pairs.Pair.{Pair};
ghost use Rattle.kasa_fixpoint.specs.Readers.{AreUpTo, PutsNumber, PutsOfTypes, AreReadersBelow, of_type};

use crate::pairs::Pair;
use kasa_families::Family;
use kasa_num::{AgentType, NoMemory, NodeNo};
use kasa_rules::{Model, Rule};
use std::alloc::Global;
use std::marker;

// Numbers of pairs, in order.
#[derive(Drop)]
pub(crate) struct Numbers {
    numbers: Vec<u32>,
}

impl marker::Model for Numbers {
    ghost use Rattle.std.specs.Prelude.{ℕ, List};

    ghost Value = { List ℕ };

    ghost view = { λ n. n.numbers.items };
}

impl Numbers {
    fn none(alloc: Global) -> Numbers
        ensures { result ≡ [] }
    {
        Numbers {
            numbers: Vec::new(alloc),
        }
    }

    // Puts a number behind the others, where it isn't the last one already.
    fn put(&mut self, p: u32) -> Result<(), NoMemory>
        requires { AreUpTo p self.old }
        ensures { IfOk result (λ _. PutsNumber p self.old self.new) }
    {
        if !self.has(p) {
            self.numbers.push(p)?;
        }
        Ok(())
    }

    // Whether a number is there, which is the last one then.
    fn has(&self, p: u32) -> bool
        requires { AreUpTo p self.now }
        ensures { IsTrue result ↔ Has self.now p }
    {
        match self.numbers.last() {
            Some(last) => *last == p,
            None => false,
        }
    }

    pub(crate) fn as_slice(&self) -> &[u32]
        ensures { result.now ≡ self.now }
    {
        self.numbers.as_slice()
    }
}

// Puts a number into the list of a type.
fn put_at(lists: &mut Vec<Numbers>, agent: AgentType, p: u32) -> Result<(), NoMemory>
    requires within { agent < length lists.old.items }
    requires up_to { (a : ℕ) → AreUpTo p (of_type lists.old.items a) }
    ensures { IfOk result (λ _. PutsOfTypes p (agent ∷ []) lists.old.items lists.new.items) }
{
    lists[agent.0 as usize].put(p)
}

// The same of the types of a rule's left nodes.
fn put_left(lists: &mut Vec<Numbers>, rule: &Rule, p: u32) -> Result<(), NoMemory>
    requires within { (a : ℕ) → Has (types_of rule.now.left) a → a < length lists.old.items }
    requires up_to { (a : ℕ) → AreUpTo p (of_type lists.old.items a) }
    ensures { IfOk result (λ _. PutsOfTypes p (types_of rule.now.left) lists.old.items lists.new.items) }
{
    for n in 0..rule.left().nodes() {
        put_at(lists, rule.left().agent(NodeNo(n as u16)), p)?;
    }
    Ok(())
}

// The same of the types of the nodes of a family's patterns.
fn put_family(lists: &mut Vec<Numbers>, family: &Family, p: u32) -> Result<(), NoMemory>
    requires within { (a : ℕ) → Has (family_types family.now) a → a < length lists.old.items }
    requires up_to { (a : ℕ) → AreUpTo p (of_type lists.old.items a) }
    ensures { IfOk result (λ _. PutsOfTypes p (family_types family.now) lists.old.items lists.new.items) }
{
    for n in 0..family.nodes() {
        if let Some(agent) = family.node_type(n) {
            put_at(lists, agent, p)?;
        }
    }
    Ok(())
}

// Puts a pair into the lists of the types that it reads.
fn put_pair(
    model: &Model,
    families: &[Family],
    pairs: &[Pair],
    p: usize,
    lists: &mut Vec<Numbers>,
) -> Result<(), NoMemory>
    requires pair { p < length pairs.now }
    requires few { length pairs.now < 4294967296 }
    requires pairs { (pair : Pair) → Has pairs.now pair → IsActing model.now families.now pair }
    requires valid { (family : Family) → Has families.now family → IsFamily model.now.sig family }
    requires below { AreReadersBelow model.now families.now pairs.now p lists.old.items }
    ensures { IfOk result (λ _. AreReadersBelow model.now families.now pairs.now (p + 1) lists.new.items) }
{
    let pair = pairs[p];
    put_left(lists, &model.rules.as_slice()[pair.rule as usize], p as u32)?;
    put_family(lists, &families[pair.family as usize], p as u32)
}

// A list without numbers for each type.
fn empty_lists(alloc: Global, types: usize) -> Result<Vec<Numbers>, NoMemory>
    ensures size { IfOk result (λ lists. length lists.items ≡ types) }
    ensures empty { IfOk result (λ lists. (a : ℕ) → of_type lists.items a ≡ []) }
{
    let mut lists = Vec::new(alloc);
    for _ in 0..types {
        lists.push(Numbers::none(alloc))?;
    }
    Ok(lists)
}

// The lists of all pairs, in time linear in them.
pub(crate) fn readers(
    alloc: Global,
    model: &Model,
    families: &[Family],
    pairs: &[Pair],
) -> Result<Vec<Numbers>, NoMemory>
    requires few { length pairs.now < 4294967296 }
    requires pairs { (pair : Pair) → Has pairs.now pair → IsActing model.now families.now pair }
    requires valid { (family : Family) → Has families.now family → IsFamily model.now.sig family }
    ensures { IfOk result (λ lists. AreReadersBelow model.now families.now pairs.now (length pairs.now) lists.items) }
{
    let mut lists = empty_lists(alloc, model.sig.types())?;
    for p in 0..pairs.len() {
        put_pair(model, families, pairs, p, &mut lists)?;
    }
    Ok(lists)
}
