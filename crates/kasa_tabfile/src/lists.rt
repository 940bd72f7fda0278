// What a line has given so far, kept in the value.
ghost use Rattle.std.specs.Prelude.{◌≡◌, ◌≤◌, ◌<◌, ◌++◌, ◌∷◌, [], true, length};
ghost use Rattle.std.specs.List.{list_all};
ghost use Rattle.kasa_tabfile.specs.Line.{is_small, is_small_local};

use arrayvec::ArrayVec;
use kasa_families::Local;
use kasa_num::SiteNo;
use std::marker::Model;

/// At most sixteen sites.
#[derive(Drop)]
pub(crate) struct SiteList {
    items: ArrayVec<SiteNo, 16>,
}

impl Model for SiteList {
    ghost use Rattle.std.specs.Prelude.{ℕ, List, ◌≡◌, true};
    ghost use Rattle.std.specs.List.{list_all};
    ghost use Rattle.kasa_tabfile.specs.Line.{is_small};

    ghost Value = { List ℕ };

    ghost view = { λ s. s.items.items };

    ghost invariant = { λ s. list_all is_small s.items.items ≡ true };
}

impl SiteList {
    pub(crate) fn new() -> SiteList
        ensures { result ≡ [] }
    {
        SiteList {
            items: ArrayVec::new(),
        }
    }

    pub(crate) fn as_slice(&self) -> &[SiteNo]
        ensures value { result.now ≡ self.now }
        ensures few { length self.now ≤ 16 }
        ensures small { list_all is_small self.now ≡ true }
    {
        self.items.as_slice()
    }

    pub(crate) fn push(&mut self, site: SiteNo)
        requires { length self.old < 16 }
        ensures { self.new ≡ self.old ++ site ∷ [] }
    {
        self.items.push(site);
    }
}

/// At most sixteen local states.
#[derive(Drop)]
pub(crate) struct LocalList {
    locals: [Local; 16],
    count: usize,
}

impl Model for LocalList {
    ghost use Rattle.std.specs.Prelude.{List, ◌≡◌, ◌≤◌, true, take};
    ghost use Rattle.std.specs.List.{list_all};
    ghost use Rattle.kasa_families.specs.declared.row.Local.{Local};
    ghost use Rattle.kasa_tabfile.specs.Line.{is_small_local};

    ghost Value = { List Local };

    ghost view = { λ s. take s.count s.locals };

    ghost invariant = { λ s. (s.count ≤ 16) × (list_all is_small_local (take s.count s.locals) ≡ true) };
}

impl LocalList {
    pub(crate) fn new() -> LocalList
        ensures { result ≡ [] }
    {
        LocalList {
            locals: [Local::default(); 16],
            count: 0,
        }
    }

    pub(crate) fn as_slice(&self) -> &[Local]
        ensures value { result.now ≡ self.now }
        ensures few { length self.now ≤ 16 }
        ensures small { list_all is_small_local self.now ≡ true }
    {
        &self.locals[..self.count]
    }

    pub(crate) fn push(&mut self, local: Local)
        requires room { length self.old < 16 }
        requires small { is_small_local local ≡ true }
        ensures { self.new ≡ self.old ++ local ∷ [] }
    {
        self.locals[self.count] = local;
        self.count += 1;
    }
}
