// Families by the type of their root's first node.
ghost use Rattle.std.specs.Prelude.{◌≡◌, ◌++◌, ◌<◌, ℕ, [], length, nat_eq, OnOk, OnErr};
ghost use Rattle.kasa_graph.specs.Lists.{Has};
ghost use Rattle.kasa_families.specs.First.{IsLeastFrom};
ghost use Rattle.kasa_tables.specs.Post.{number_if};
ghost use Rattle.kasa_tables.specs.Index.{IsRising, listed_at, listed_in};

use crate::rising::first_from;
use kasa_num::{AgentType, NoMemory};
use std::alloc::Global;
use std::marker::Model;

// For each type a list of numbers of families.
#[derive(Drop)]
pub(crate) struct Roots {
    lists: Vec<Vec<u32>>,
}

impl Model for Roots {
    ghost use Rattle.std.specs.Prelude.{ℕ, List, map};

    ghost Value = { List (List ℕ) };

    ghost view = { λ r. map (λ list. list.items) r.lists.items };
}

// Makes lists without numbers for the types up to one.
fn reach(lists: &mut Vec<Vec<u32>>, agent: AgentType) -> Result<(), NoMemory>
    ensures reached { OnOk result (agent < length lists.new.items) }
    ensures same { (a : ℕ) → listed_in lists.new.items a ≡ listed_in lists.old.items a }
{
    let alloc = *lists.allocator();
    for _ in lists.len()..agent.0 as usize + 1 {
        lists.push(Vec::new(alloc))?;
    }
    Ok(())
}

// Puts a number behind the list of a number.
fn push_at(lists: &mut Vec<Vec<u32>>, i: usize, number: u32) -> Result<(), NoMemory>
    requires { i < length lists.old.items }
    ensures ok { OnOk result ((a : ℕ) → listed_in lists.new.items a ≡ listed_in lists.old.items a ++ number_if (nat_eq i a) number) }
    ensures err { OnErr result ((a : ℕ) → listed_in lists.new.items a ≡ listed_in lists.old.items a) }
{
    let list = &mut lists[i];
    list.push(number)?;
    Ok(())
}

// The list of a number, without numbers where there is none.
fn list_in(lists: &[Vec<u32>], i: usize) -> &[u32]
    ensures { result.now ≡ listed_in lists.now i }
{
    match lists.get(i) {
        Some(list) => list.as_slice(),
        None => &[],
    }
}

impl Roots {
    // No family.
    pub(crate) fn new(alloc: Global) -> Roots
        ensures { (a : ℕ) → listed_at result a ≡ [] }
    {
        Roots {
            lists: Vec::new(alloc),
        }
    }

    // Puts a number behind the list of a type.
    pub(crate) fn push(&mut self, agent: AgentType, number: u32) -> Result<(), NoMemory>
        ensures ok { OnOk result ((a : ℕ) → listed_at self.new a ≡ listed_at self.old a ++ number_if (nat_eq agent a) number) }
        ensures err { OnErr result ((a : ℕ) → listed_at self.new a ≡ listed_at self.old a) }
    {
        reach(&mut self.lists, agent)?;
        push_at(&mut self.lists, agent.0 as usize, number)
    }

    // The least number at or after `from` in the list of a type.
    pub(crate) fn first_from(&self, agent: AgentType, from: usize) -> Option<usize>
        requires { IsRising (listed_at self.now agent) }
        ensures { IsLeastFrom (Has (listed_at self.now agent)) from result }
    {
        first_from(list_in(&self.lists, agent.0 as usize), from)
    }
}
