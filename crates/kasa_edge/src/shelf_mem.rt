// A shelf in memory, whose reads fail where they are told to.
ghost use Rattle.std.specs.Prelude.{◌≡◌, ◌≢◌, ◌⊎◌, ◌≤◌, ◌+◌, ◌<◌, ◌^◌, ℕ, List, Some, None, OnOk, OnErr, IfOk, IfSome, IsErrOf, IsTrue, ◌↔◌, length, take, option_map};
ghost use Rattle.kasa_edge.specs.Causes.{raised};
ghost use Rattle.kasa_edge.specs.declared.shelf.FetchFault.TheVariants.{Failed as failed};

use crate::calls::is_listed;
use crate::{FetchFault, Shelf};
use indexmap::IndexMap;
use kasa_num::NoMemory;
use std::alloc::Global;

/// Texts by their names. Its calls of `fetch` are numbered from 1, and those listed fail. The
/// number stays at 2^64 - 1 once it is there, which no list holds.
#[derive(Drop)]
pub struct ShelfMem {
    alloc: Global,
    texts: IndexMap<Vec<u8>, Vec<u8>>,
    fails: Vec<u32>,
    calls: u64,
    read_faults: u64,
    ghost reads_fit: { read_faults < 2 ^ 64 },
}

impl ShelfMem {
    ghost use Rattle.kasa_edge.specs.ShelfMem.{text_of, read_faults_of, calls_of, fails_of, IsFailing};

    /// A shelf that holds nothing. The calls of `fetch` whose numbers stand in `fails` fail.
    pub fn new(alloc: Global, fails: Vec<u32>) -> ShelfMem
        ensures texts { (name : List ℕ) → text_of result name ≡ None }
        ensures reads { read_faults_of result ≡ 0 }
        ensures calls { calls_of result ≡ 0 }
        ensures fails { fails_of result ≡ fails.items }
    {
        ShelfMem {
            alloc,
            texts: IndexMap::new(alloc),
            fails,
            calls: 0,
            read_faults: 0,
        }
    }

    /// Holds the bytes under a name from now on, in place of what was there. It is none of the
    /// numbered calls. On an error nothing has changed.
    pub fn put(&mut self, name: &str, bytes: &[u8]) -> Result<(), NoMemory>
        ensures ok { OnOk result (text_of self.new name.now ≡ Some bytes.now) }
        ensures elsewhere { (n : List ℕ) → n ≢ name.now → text_of self.new n ≡ text_of self.old n }
        ensures err { OnErr result ((n : List ℕ) → text_of self.new n ≡ text_of self.old n) }
        ensures reads { read_faults_of self.new ≡ read_faults_of self.old }
        ensures calls { calls_of self.new ≡ calls_of self.old }
        ensures fails { fails_of self.new ≡ fails_of self.old }
    {
        let key = Vec::from_slice(self.alloc, name.as_bytes())?;
        let value = Vec::from_slice(self.alloc, bytes)?;
        self.texts.insert(key, value)?;
        Ok(())
    }

    /// What is held under a name, `None` where nothing is. It takes no memory and is none of the
    /// numbered calls.
    pub fn held(&self, name: &str) -> Option<&[u8]>
        ensures { option_map (λ text. text.now) result ≡ text_of self.now name.now }
    {
        let text = self.texts.get(name.as_bytes())?;
        Some(text.as_slice())
    }

    // Counts a call, and says whether it is to fail.
    fn is_next_failing(&mut self) -> bool
        ensures listed { IsTrue result ↔ IsFailing self.old }
        ensures calls { calls_of self.new ≡ raised (calls_of self.old) }
        ensures texts { self.new.texts ≡ self.old.texts }
        ensures reads { read_faults_of self.new ≡ read_faults_of self.old }
        ensures fails { fails_of self.new ≡ fails_of self.old }
    {
        self.calls = self.calls.saturating_add(1);
        is_listed(&self.fails, self.calls)
    }
}

impl Shelf for ShelfMem {
    ghost use Rattle.kasa_edge.specs.ShelfMem.{text_of, read_faults_of, calls_of, fails_of, IsFailing};

    ghost held = { λ shelf. Some (text_of shelf) };

    ghost read_faults = { λ shelf. read_faults_of shelf };

    /// `Failed` comes exactly where the call is listed or nothing is held under the name, and the
    /// count of read faults rises exactly where the call is listed.
    fn fetch(&mut self, name: &str, most: usize) -> Result<Vec<u8>, FetchFault>
        requires { most < 2 ^ 31 }
        ensures bytes { IfOk result (λ bytes.
            option_map (take (most + 1)) (text_of self.old name.now) ≡ Some bytes.items) }
        ensures few { IfOk result (λ bytes. length bytes.items ≤ most + 1) }
        ensures failed { IsErrOf result failed ↔ (IsFailing self.old ⊎ (text_of self.old name.now ≡ None)) }
        ensures listed { IsFailing self.old → read_faults_of self.new ≡ raised (read_faults_of self.old) }
        ensures unlisted { ¬ IsFailing self.old → read_faults_of self.new ≡ read_faults_of self.old }
        ensures same { (n : List ℕ) → text_of self.new n ≡ text_of self.old n }
        ensures calls { calls_of self.new ≡ raised (calls_of self.old) }
        ensures fails { fails_of self.new ≡ fails_of self.old }
    {
        if self.is_next_failing() {
            self.read_faults = self.read_faults.saturating_add(1);
            return Err(FetchFault::Failed);
        }
        match self.held(name) {
            None => Err(FetchFault::Failed),
            Some(text) => {
                let end = text.len().min(most + 1);
                Vec::from_slice(self.alloc, &text[..end]).map_err(|_| FetchFault::NoMemory)
            }
        }
    }

    ghost read_faults_fit = { λ shelf. shelf.reads_fit };
}
