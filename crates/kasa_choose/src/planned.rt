// Families, each once, which are found by their hashes.
ghost use Rattle.std.specs.Prelude.{◌≡◌, ◌++◌, [], length, IfOk, OnOk};
ghost use Rattle.kasa_choose.specs.Kept.{key, keep};

use indexmap::IndexSet;
use kasa_families::Family;
use kasa_num::{NoMemory, SiteNo};
use std::alloc::Global;
use std::marker::Model;

/// The most families.
pub(crate) const MOST: usize = 8000;

#[derive(Drop)]
pub(crate) struct Planned {
    families: Vec<Family>,
    keys: IndexSet<Vec<u16>>,
}

impl Model for Planned {
    ghost use Rattle.std.specs.Prelude.{◌≡◌, List, map};
    ghost use Rattle.kasa_families.specs.declared.family.Family.{Family as Declared};
    ghost use Rattle.kasa_choose.specs.Kept.{key};

    ghost Value = { List Declared };

    ghost view = { λ p. p.families.items };

    ghost invariant = { λ p. map (λ k. k.items) p.keys.keys ≡ map key p.families.items };
}

// A family as a list of numbers that no other family has.
fn key_of(alloc: Global, family: &Family) -> Result<Vec<u16>, NoMemory>
    ensures { IfOk result (λ numbers. numbers.items ≡ key family.now) }
{
    let mut numbers = Vec::new(alloc);
    match family {
        Family::View { agent, sites } => {
            numbers.push(0)?;
            numbers.push(agent.0)?;
            add_sites(sites.as_slice(), &mut numbers)?;
        }
        Family::Across { a, x, p, b, y, q } => {
            let own = [1, a.0, x.0 as u16, p.0 as u16, b.0, y.0 as u16, q.0 as u16];
            numbers.extend_from_slice(&own)?;
        }
        Family::Parallel { a, x, u, b, y, w } => {
            let own = [2, a.0, x.0 as u16, u.0 as u16, b.0, y.0 as u16, w.0 as u16];
            numbers.extend_from_slice(&own)?;
        }
        Family::Chain {
            a,
            x,
            p,
            b,
            y,
            z,
            c,
            w,
            q,
        } => {
            let first = [3, a.0, x.0 as u16, p.0 as u16, b.0, y.0 as u16, z.0 as u16];
            let last = [c.0, w.0 as u16, q.0 as u16];
            numbers.extend_from_slice(&first)?;
            numbers.extend_from_slice(&last)?;
        }
    }
    Ok(numbers)
}

// Puts sites behind the other numbers.
fn add_sites(sites: &[SiteNo], numbers: &mut Vec<u16>) -> Result<(), NoMemory>
    ensures { OnOk result (numbers.new.items ≡ numbers.old.items ++ sites.now) }
{
    for site in sites {
        numbers.push(site.0 as u16)?;
    }
    Ok(())
}

impl Planned {
    pub(crate) fn new(alloc: Global) -> Planned
        ensures { result ≡ [] }
    {
        Planned {
            families: Vec::new(alloc),
            keys: IndexSet::new(alloc),
        }
    }

    // With the family at the end, where it isn't there yet; but no more than one family more than there may be.
    pub(crate) fn keep(mut self, family: Family) -> Result<Planned, NoMemory>
        ensures { IfOk result (λ planned. planned ≡ keep self family) }
    {
        if self.families.len() > MOST {
            return Ok(self);
        }
        let alloc = *self.families.allocator();
        let numbers = key_of(alloc, &family)?;
        if self.keys.insert(numbers)? {
            self.families.push(family)?;
        }
        Ok(self)
    }

    pub(crate) fn len(&self) -> usize
        ensures { result ≡ length self.now }
    {
        self.families.len()
    }

    pub(crate) fn families(self) -> Vec<Family>
        ensures { result.items ≡ self }
    {
        self.families
    }
}
