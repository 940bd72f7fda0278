// Tables with indexes.
ghost use Rattle.std.specs.Prelude.{◌≡◌, ◌≢◌, ◌≤◌, ◌<◌, ◌+◌, ◌++◌, ◌∷◌, [], ◌↔◌, List, length, Some, Ok, Err, true, false, slice_get, IfOk, OnOk, OnErr};
ghost use Rattle.std.specs.Option.{option_copied};
ghost use Rattle.kasa_graph.specs.Lists.{Has, AllDifferent};
ghost use Rattle.kasa_families.specs.declared.family.Family.{Family};
ghost use Rattle.kasa_families.specs.Family.{IsFamily, shape_of};
ghost use Rattle.kasa_families.specs.Table.{families_of, rows_of, HasShape};
ghost use Rattle.kasa_tables.specs.declared.plain.InsertFault.TheVariants.{Full as full};
ghost use Rattle.kasa_tables.specs.Insert.{empty_table, empty_tables, with_row, row_count};
ghost use Rattle.kasa_tables.specs.Index.{AreRoots};

use crate::indexed_table::IndexedTable;
use crate::plain::{InsertFault, MOST_ROWS};
use crate::roots::Roots;
use kasa_families::{Family, Row, Rows, Spot, first_type};
use kasa_graph::{Pattern, Signature};
use kasa_num::{AgentType, FamilyNo, NoMemory};
use std::alloc::Global;
use std::marker::Model;

/// Tables whose rows stand in the order in which they were inserted. Whether a row is there is seen by its hash; a row
/// that is compatible with a pattern is found by the local states that the pattern leaves at each column, and a family by
/// the type of its root's first node.
#[derive(Drop)]
pub struct IndexedTables {
    tables: Vec<IndexedTable>,
    roots: Roots,
    count: usize,
}

impl Model for IndexedTables {
    ghost use Rattle.std.specs.Prelude.{◌≡◌, List};
    ghost use Rattle.kasa_families.specs.Table.{Table, AreShapedTables};
    ghost use Rattle.kasa_tables.specs.Insert.{row_count};
    ghost use Rattle.kasa_tables.specs.Index.{AreRoots};

    ghost Value = { List Table };

    ghost view = { λ t. t.tables.items };

    ghost invariant = { λ t. AreShapedTables t.tables.items × (t.count ≡ row_count t.tables.items) × AreRoots t.tables.items t.roots };
}

// Puts a family without rows behind the others: first all that can fail, so that nothing has to be undone.
fn add_table(
    alloc: Global,
    tables: &mut Vec<IndexedTable>,
    roots: &mut Roots,
    family: Family,
) -> Result<(), NoMemory>
    requires columns { length (shape_of family).columns ≤ 16 }
    requires few { length tables.old.items < 8000 }
    requires roots { AreRoots tables.old.items roots.old }
    ensures ok { OnOk result (tables.new.items ≡ tables.old.items ++ empty_table family ∷ []) }
    ensures err { OnErr result (tables.new.items ≡ tables.old.items) }
    ensures roots { AreRoots tables.new.items roots.new }
{
    let agent = first_type(&family);
    let number = tables.len() as u32;
    let table = IndexedTable::new(alloc, family)?;
    tables.reserve(1)?;
    roots.push(agent, number)?;
    tables.push_reserved(table);
    Ok(())
}

impl IndexedTables {
    /// The tables of these families, without rows.
    pub fn new(
        alloc: Global,
        sig: &Signature,
        families: Vec<Family>,
    ) -> Result<IndexedTables, NoMemory>
        requires valid { (family : Family) → Has families.items family → IsFamily sig.now family }
        requires different { AllDifferent families.items }
        requires few { length families.items ≤ 8000 }
        ensures { IfOk result (λ tables. tables ≡ empty_tables families.items) }
    {
        let _valid_over = sig;
        let mut tables = Vec::new(alloc);
        let mut roots = Roots::new(alloc);
        for family in families {
            add_table(alloc, &mut tables, &mut roots, family)?;
        }
        Ok(IndexedTables {
            tables,
            roots,
            count: 0,
        })
    }

    /// Appends a family without rows, and gives its number. The other families and their rows stay.
    pub fn add_family(&mut self, sig: &Signature, family: Family) -> Result<FamilyNo, NoMemory>
        requires valid { IsFamily sig.now family }
        requires new { ¬ Has (families_of self.old) family }
        requires few { length self.old < 8000 }
        ensures number { IfOk result (λ f. f ≡ length self.old) }
        ensures added { OnOk result (self.new ≡ self.old ++ empty_table family ∷ []) }
        ensures err { OnErr result (self.new ≡ self.old) }
    {
        let _valid_over = sig;
        let alloc = *self.tables.allocator();
        let f = FamilyNo(self.tables.len() as u16);
        add_table(alloc, &mut self.tables, &mut self.roots, family)?;
        Ok(f)
    }

    /// Puts a row behind the rows of a family, and says whether it is new: a row that is there already isn't put again.
    /// `Full` comes exactly where it is new and 200,000 rows are there, of all families together. After a refusal the
    /// tables are as before.
    pub fn insert(&mut self, f: FamilyNo, row: Row) -> Result<bool, InsertFault>
        requires { (family : Family) × (slice_get (families_of self.old) f ≡ Some family) × HasShape family row }
        ensures added { result ≡ Ok true → self.new ≡ with_row self.old f row }
        ensures there { result ≡ Ok false ↔ Has (rows_of self.old f) row }
        ensures same { result ≢ Ok true → self.new ≡ self.old }
        ensures full { result ≡ Err full ↔ ((¬ Has (rows_of self.old f) row) × (row_count self.old ≡ 200000)) }
    {
        let table = &mut self.tables[f.0 as usize];
        if table.has(&row) {
            return Ok(false);
        }
        if self.count == MOST_ROWS {
            return Err(InsertFault::Full);
        }
        table.push(row)?;
        self.count += 1;
        Ok(true)
    }

    // The family of a number with its rows.
    fn table(&self, f: FamilyNo) -> Option<&IndexedTable>
        ensures { option_copied result ≡ slice_get self.now f }
    {
        self.tables.get(f.0 as usize)
    }
}

impl Rows for IndexedTables {
    ghost tables = { λ t. t };

    fn families(&self) -> usize {
        self.tables.len()
    }

    fn family(&self, f: FamilyNo) -> Option<&Family> {
        let table = self.table(f)?;
        Some(&table.family)
    }

    fn rows(&self, f: FamilyNo) -> usize {
        match self.table(f) {
            Some(table) => table.len(),
            None => 0,
        }
    }

    fn row(&self, f: FamilyNo, k: usize) -> Option<&Row> {
        self.table(f)?.row(k)
    }

    fn has(&self, f: FamilyNo, row: &Row) -> bool {
        match self.table(f) {
            Some(table) => table.has(row),
            None => false,
        }
    }

    fn first_compatible(&self, f: FamilyNo, g: &Pattern, spot: Spot, from: usize) -> Option<usize> {
        self.table(f)?.first_compatible(g, &spot, from)
    }

    fn next_rooted(&self, agent: AgentType, from: usize) -> Option<FamilyNo> {
        let k = self.roots.first_from(agent, from)?;
        Some(FamilyNo(k as u16))
    }
}
