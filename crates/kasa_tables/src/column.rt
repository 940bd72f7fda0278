// One column: for each local state the numbers of the rows that have it there.
ghost use Rattle.std.specs.Prelude.{◌≡◌, ◌++◌, ◌∷◌, [], Some, OnOk, OnErr, IfSome, length, slice_get, option_map};
ghost use Rattle.kasa_families.specs.declared.row.Local.{Local};
ghost use Rattle.kasa_tables.specs.Post.{ColumnView, post, post_of, number_if, HasRoom, local_eq};

use indexmap::IndexMap;
use kasa_families::Local;
use kasa_num::NoMemory;
use std::alloc::Global;
use std::marker::Model;

type Lists = IndexMap<Local, Vec<u32>>;

// Makes a list for the local state, where there is none, and makes room in it for one number.
fn reserve_one(lists: &mut Lists, local: &Local) -> Result<(), NoMemory>
    ensures ok { OnOk result (HasRoom lists.new (Some local.now)) }
    ensures same { (q : Local) → post_of lists.new q ≡ post_of lists.old q }
{
    if let Some(list) = lists.get_mut(local) {
        list.reserve(1)?;
        return Ok(());
    }
    let alloc = *lists.allocator();
    let list = Vec::with_capacity(alloc, 1)?;
    lists.insert(*local, list)?;
    Ok(())
}

// Puts a number behind a list that has room for it. It takes no memory.
fn push_one(lists: &mut Lists, local: Local, number: u32)
    requires { HasRoom lists.old (Some local) }
    ensures { (q : Local) → post_of lists.new q ≡ post_of lists.old q ++ number_if (local_eq local q) number }
{
    if let Some(list) = lists.get_mut(&local) {
        let _ = list.push(number);
    }
}

/// The lists of one column. `ready` names a local state whose list has room for one more number.
#[derive(Drop)]
pub(crate) struct Column {
    lists: Lists,
    ready: Option<Local>,
}

impl Model for Column {
    ghost use Rattle.std.specs.Prelude.{map};
    ghost use Rattle.kasa_tables.specs.Post.{ColumnView, entry_of, HasRoom};

    ghost Value = { ColumnView };

    ghost view = { λ c. record { lists = map entry_of c.lists.entries; ready = c.ready } };

    ghost invariant = { λ c. HasRoom c.lists c.ready };
}

impl Column {
    // A column without rows.
    pub(crate) fn new(alloc: Global) -> Column
        ensures { (q : Local) → post result q ≡ [] }
    {
        Column {
            lists: IndexMap::new(alloc),
            ready: None,
        }
    }

    // How many local states have a list.
    pub(crate) fn len(&self) -> usize
        ensures { result ≡ length self.now.lists }
    {
        self.lists.len()
    }

    // The local state of a number that has a list.
    pub(crate) fn local(&self, i: usize) -> Option<Local>
        ensures { result ≡ option_map (λ e. e.0) (slice_get self.now.lists i) }
    {
        let (local, _) = self.lists.get_index(i)?;
        Some(*local)
    }

    // The numbers of the rows that have the local state. It takes no memory.
    pub(crate) fn list(&self, local: Local) -> &[u32]
        ensures { result.now ≡ post self.now local }
    {
        match self.lists.get(&local) {
            Some(list) => list.as_slice(),
            None => &[],
        }
    }

    // Makes room for one number behind the list of the local state.
    pub(crate) fn reserve(&mut self, local: &Local) -> Result<(), NoMemory>
        ensures ready { OnOk result (self.new.ready ≡ Some local.now) }
        ensures same { (q : Local) → post self.new q ≡ post self.old q }
    {
        self.ready = None;
        reserve_one(&mut self.lists, local)?;
        self.ready = Some(*local);
        Ok(())
    }

    // Puts a number behind the list that `reserve` made ready. It takes no memory.
    pub(crate) fn push(&mut self, local: Local, number: u32)
        requires { self.old.ready ≡ Some local }
        ensures { (q : Local) → post self.new q ≡ post self.old q ++ number_if (local_eq local q) number }
    {
        self.ready = None;
        push_one(&mut self.lists, local, number);
    }
}
