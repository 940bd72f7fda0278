// A family with its rows, and an index by columns.
ghost use Rattle.std.specs.Prelude.{◌≡◌, ◌<◌, ◌≤◌, ◌^◌, ◌↔◌, ℕ, [], length, slice_get, Some, IsTrue, IfOk, IfSome, OnOk, OnErr};
ghost use Rattle.std.specs.Option.{option_copied};
ghost use Rattle.kasa_graph.specs.Lists.{Has};
ghost use Rattle.kasa_families.specs.declared.row.Local.{Local};
ghost use Rattle.kasa_families.specs.Family.{shape_of};
ghost use Rattle.kasa_families.specs.Spot.{place_of, StandsAt, HasNamedSites};
ghost use Rattle.kasa_families.specs.Table.{HasShape};
ghost use Rattle.kasa_families.specs.First.{IsLeastFrom};
ghost use Rattle.kasa_tables.specs.Insert.{empty_table, with_last};
ghost use Rattle.kasa_tables.specs.Post.{post_at};
ghost use Rattle.kasa_tables.specs.Index.{IsMatch, IsOnlyMatch, AgreesThere, locals_of};

use crate::column::Column;
use crate::columns::{push_all, reserve_all};
use crate::search::{count_listed, next_listed, only_local};
use indexmap::IndexSet;
use kasa_families::{Family, Local, Locals, Row, Spot, first_among, is_compatible};
use kasa_graph::Pattern;
use kasa_num::NoMemory;
use std::alloc::Global;
use std::marker::Model;

// So many rows are gone through sooner than looked up.
const FEW_ROWS: usize = 12;

// A family with different rows of its shape in the order in which they came, and with an index: for each column and each
// local state there the numbers of the rows that have it.
#[derive(Drop)]
pub(crate) struct IndexedTable {
    pub(crate) family: Family,
    rows: IndexSet<Row>,
    columns: Vec<Column>,
}

impl Model for IndexedTable {
    ghost use Rattle.kasa_families.specs.Table.{Table};
    ghost use Rattle.kasa_tables.specs.Post.{post_at};
    ghost use Rattle.kasa_tables.specs.Index.{IsIndexed};

    ghost Value = { Table };

    ghost view = { λ t. record { family = t.family; rows = t.rows.keys } };

    ghost invariant = { λ t. IsIndexed t.family t.rows.keys t.columns.items };
}

// The local states of a row, none where it has no columns.
fn locals_of(row: &Row) -> &[Local]
    ensures { result.now ≡ locals_of row.now }
{
    match row {
        Row::Locals(locals) => locals.as_slice(),
        _ => &[],
    }
}

// Columns without rows.
fn empty_columns(alloc: Global, count: usize) -> Result<Vec<Column>, NoMemory>
    ensures width { IfOk result (λ columns. length columns.items ≡ count) }
    ensures empty { IfOk result (λ columns. (c : ℕ) (q : Local) → post_at columns.items c q ≡ []) }
{
    let mut columns = Vec::new(alloc);
    for _ in 0..count {
        columns.push(Column::new(alloc))?;
    }
    Ok(columns)
}

impl IndexedTable {
    // The family without rows.
    pub(crate) fn new(alloc: Global, family: Family) -> Result<IndexedTable, NoMemory>
        requires { length (shape_of family).columns ≤ 16 }
        ensures { IfOk result (λ t. t ≡ empty_table family) }
    {
        let columns = empty_columns(alloc, family.columns())?;
        Ok(IndexedTable {
            family,
            rows: IndexSet::new(alloc),
            columns,
        })
    }

    // How many rows there are.
    pub(crate) fn len(&self) -> usize
        ensures len { result ≡ length self.now.rows }
        ensures small { result < 2 ^ 63 }
    {
        self.rows.len()
    }

    // The row of a number.
    pub(crate) fn row(&self, k: usize) -> Option<&Row>
        ensures { option_copied result ≡ slice_get self.now.rows k }
    {
        self.rows.get_index(k)
    }

    // Whether the row is there. It takes no memory.
    pub(crate) fn has(&self, row: &Row) -> bool
        ensures { IsTrue result ↔ Has self.now.rows row.now }
    {
        self.rows.contains(row)
    }

    // Puts a new row behind the others: each column first makes room for its number, so that nothing has to be undone where
    // there is no memory.
    pub(crate) fn push(&mut self, row: Row) -> Result<(), NoMemory>
        requires shape { HasShape self.old.family row }
        requires new { ¬ Has self.old.rows row }
        requires few { length self.old.rows < 2 ^ 32 }
        ensures ok { OnOk result (self.new ≡ with_last row self.old) }
        ensures err { OnErr result (self.new ≡ self.old) }
    {
        reserve_all(&mut self.columns, locals_of(&row))?;
        let number = self.rows.len() as u32;
        let copy = row.copy();
        self.rows.insert(row)?;
        push_all(&mut self.columns, locals_of(&copy), number);
        Ok(())
    }

    // The least number at or after `from` of a row that is compatible with g where the family's root stands, None exactly
    // where there is none. It takes no memory.
    pub(crate) fn first_compatible(&self, g: &Pattern, spot: &Spot, from: usize) -> Option<usize>
        requires stands { StandsAt g.now self.now.family (place_of g.now self.now.family spot.now) }
        requires named { HasNamedSites g.now self.now.family }
        ensures { IsLeastFrom (IsMatch self.now.rows g.now self.now.family (place_of g.now self.now.family spot.now)) from result }
    {
        if self.rows.len() > FEW_ROWS && self.family.columns() > 0 {
            if let Some(row) = self.only_row(g, spot) {
                return self.number_from(&row, from);
            }
            if let Some(c) = self.best_column(g, spot) {
                return self.first_listed(c, g, spot, from);
            }
        }
        first_among(&self.family, self.rows.as_slice(), g, spot, from)
    }

    // The only row that can be compatible, where the rows there leave no choice at any column.
    fn only_row(&self, g: &Pattern, spot: &Spot) -> Option<Row>
        requires stands { StandsAt g.now self.now.family (place_of g.now self.now.family spot.now) }
        requires named { HasNamedSites g.now self.now.family }
        requires columns { 0 < length (shape_of self.now.family).columns }
        ensures { IfSome result (λ row. IsOnlyMatch self.now.rows g.now self.now.family (place_of g.now self.now.family spot.now) row) }
    {
        let columns = self.columns.as_slice();
        let mut locals = [Local::default(); 16];
        for c in 0..columns.len() {
            locals[c] = only_local(&columns[c], g, &self.family, spot, c)?;
        }
        let alloc = *self.columns.allocator();
        Some(Row::Locals(Locals::new(alloc, &locals[..columns.len()])))
    }

    // The number of the row, if it is there and not before `from`.
    fn number_from(&self, row: &Row, from: usize) -> Option<usize>
        ensures { IsLeastFrom (λ k. slice_get self.now.rows k ≡ Some row.now) from result }
    {
        let k = self.rows.get_index_of(row)?;
        if from <= k { Some(k) } else { None }
    }

    // The column whose lists leave out most rows, if one does.
    fn best_column(&self, g: &Pattern, spot: &Spot) -> Option<usize>
        requires stands { StandsAt g.now self.now.family (place_of g.now self.now.family spot.now) }
        requires named { HasNamedSites g.now self.now.family }
        ensures { IfSome result (λ c. c < length (shape_of self.now.family).columns) }
    {
        let mut best = self.columns.len();
        let mut least = self.rows.len();
        for c in 0..self.columns.len() {
            let count = count_listed(&self.columns[c], g, &self.family, spot, c);
            if count < least {
                best = c;
                least = count;
            }
        }
        if best < self.columns.len() {
            Some(best)
        } else {
            None
        }
    }

    // The same as `first_compatible`, found among the rows that don't contradict g at a column.
    fn first_listed(&self, c: usize, g: &Pattern, spot: &Spot, from: usize) -> Option<usize>
        requires stands { StandsAt g.now self.now.family (place_of g.now self.now.family spot.now) }
        requires named { HasNamedSites g.now self.now.family }
        requires column { c < length (shape_of self.now.family).columns }
        ensures { IsLeastFrom (IsMatch self.now.rows g.now self.now.family (place_of g.now self.now.family spot.now)) from result }
    {
        let mut next = from;
        while next < self.len() {
            let k = self.next_there(c, g, spot, next)?;
            if self.is_match(k, g, spot) {
                return Some(k);
            }
            next = k + 1;
        }
        None
    }

    // The least number at or after `from` of a row that doesn't contradict g at the column.
    fn next_there(&self, c: usize, g: &Pattern, spot: &Spot, from: usize) -> Option<usize>
        requires stands { StandsAt g.now self.now.family (place_of g.now self.now.family spot.now) }
        requires named { HasNamedSites g.now self.now.family }
        requires column { c < length (shape_of self.now.family).columns }
        ensures { IsLeastFrom (AgreesThere self.now.rows g.now self.now.family (place_of g.now self.now.family spot.now) c) from result }
    {
        next_listed(&self.columns[c], g, &self.family, spot, c, from)
    }

    // Whether the row of the number is there and compatible with g.
    fn is_match(&self, k: usize, g: &Pattern, spot: &Spot) -> bool
        requires stands { StandsAt g.now self.now.family (place_of g.now self.now.family spot.now) }
        requires named { HasNamedSites g.now self.now.family }
        ensures { IsTrue result ↔ IsMatch self.now.rows g.now self.now.family (place_of g.now self.now.family spot.now) k }
    {
        match self.rows.get_index(k) {
            Some(row) => is_compatible(g, &self.family, spot, row),
            None => false,
        }
    }
}
