// Tables over sets of rows that keep their order.
ghost use Rattle.std.specs.Prelude.{◌≡◌, ◌≢◌, ◌≤◌, ◌<◌, ◌+◌, ◌↔◌, List, length, Some, Ok, Err, true, false, slice_get, IsTrue, IfOk, OnOk, OnErr};
ghost use Rattle.std.specs.Option.{option_copied};
ghost use Rattle.kasa_graph.specs.Lists.{Has, AllDifferent};
ghost use Rattle.kasa_families.specs.declared.family.Family.{Family};
ghost use Rattle.kasa_families.specs.Family.{IsFamily};
ghost use Rattle.kasa_families.specs.Table.{families_of, rows_of, HasShape};
ghost use Rattle.kasa_tables.specs.declared.plain.InsertFault.TheVariants.{Full as full, NoMemory as no_memory};
ghost use Rattle.kasa_tables.specs.Insert.{empty_tables, with_last, with_row, row_count};

use indexmap::IndexSet;
use kasa_families::{Family, Row, Rows, Spot, first_among, first_type};
use kasa_graph::{Pattern, Signature};
use kasa_num::{AgentType, FamilyNo, NoMemory};
use std::alloc::Global;
use std::marker::Model;
use thiserror::Error;

pub(crate) const MOST_ROWS: usize = 200_000;

/// Why a row wasn't inserted.
#[derive(Debug, Drop, PartialEq, Eq, Error)]
pub enum InsertFault {
    /// The row isn't there, and 200,000 rows are, which is the most.
    #[error("too many rows")]
    Full,
    /// There is no memory for the row.
    #[error("no memory")]
    NoMemory,
}

impl From<NoMemory> for InsertFault {
    ghost from_gives = { λ _ fault. fault ≡ no_memory };

    fn from(_: NoMemory) -> InsertFault {
        InsertFault::NoMemory
    }
}

// A family with the rows that are held of it.
#[derive(Drop)]
struct FamilyRows {
    family: Family,
    rows: IndexSet<Row>,
}

impl Model for FamilyRows {
    ghost use Rattle.kasa_families.specs.Table.{Table};

    ghost Value = { Table };

    ghost view = { λ t. record { family = t.family; rows = t.rows.keys } };
}

impl FamilyRows {
    fn has(&self, row: &Row) -> bool
        ensures { IsTrue result ↔ Has self.now.rows row.now }
    {
        self.rows.contains(row)
    }

    fn row(&self, k: usize) -> Option<&Row>
        ensures { option_copied result ≡ slice_get self.now.rows k }
    {
        self.rows.get_index(k)
    }

    // Puts a new row behind the others.
    fn push(&mut self, row: Row) -> Result<(), NoMemory>
        requires new { ¬ Has self.old.rows row }
        ensures ok { OnOk result (self.new ≡ with_last row self.old) }
        ensures err { OnErr result (self.new ≡ self.old) }
    {
        self.rows.insert(row)?;
        Ok(())
    }
}

/// Tables whose rows stand in the order in which they were inserted. Whether a row is there is seen by its hash; a look-up
/// of a compatible row goes through the rows of one family.
#[derive(Drop)]
pub struct PlainTables {
    tables: Vec<FamilyRows>,
    count: usize,
}

impl Model for PlainTables {
    ghost use Rattle.std.specs.Prelude.{◌≡◌, List};
    ghost use Rattle.kasa_families.specs.Table.{Table, AreShapedTables};
    ghost use Rattle.kasa_tables.specs.Insert.{row_count};

    ghost Value = { List Table };

    ghost view = { λ t. t.tables.items };

    ghost invariant = { λ t. AreShapedTables t.tables.items × (t.count ≡ row_count t.tables.items) };
}

impl PlainTables {
    /// The tables of these families, without rows.
    pub fn new(
        alloc: Global,
        sig: &Signature,
        families: Vec<Family>,
    ) -> Result<PlainTables, NoMemory>
        requires valid { (family : Family) → Has families.items family → IsFamily sig.now family }
        requires different { AllDifferent families.items }
        requires few { length families.items ≤ 8000 }
        ensures { IfOk result (λ tables. tables ≡ empty_tables families.items) }
    {
        let _valid_over = sig;
        let mut tables = Vec::new(alloc);
        for family in families {
            let rows = IndexSet::new(alloc);
            tables.push(FamilyRows { family, rows })?;
        }
        Ok(PlainTables { tables, count: 0 })
    }

    /// Puts a row behind the rows of a family, and says whether it is new: a row that is there already isn't put again.
    /// `Full` comes exactly where it is new and 200,000 rows are there, of all families together. After a refusal the
    /// tables are as before.
    pub fn insert(&mut self, f: FamilyNo, row: Row) -> Result<bool, InsertFault>
        requires { (family : Family) × (slice_get (families_of self.old) f ≡ Some family) × HasShape family row }
        ensures added { result ≡ Ok true → self.new ≡ with_row self.old f row }
        ensures there { result ≡ Ok false ↔ Has (rows_of self.old f) row }
        ensures same { result ≢ Ok true → self.new ≡ self.old }
        ensures full { result ≡ Err full ↔ ((¬ Has (rows_of self.old f) row) × (row_count self.old ≡ 200000)) }
    {
        let table = &mut self.tables[f.0 as usize];
        if table.has(&row) {
            return Ok(false);
        }
        if self.count == MOST_ROWS {
            return Err(InsertFault::Full);
        }
        table.push(row)?;
        self.count += 1;
        Ok(true)
    }

    // The family of a number with its rows.
    fn table(&self, f: FamilyNo) -> Option<&FamilyRows>
        ensures { option_copied result ≡ slice_get self.now f }
    {
        self.tables.get(f.0 as usize)
    }
}

impl Rows for PlainTables {
    ghost tables = { λ t. t };

    fn families(&self) -> usize {
        self.tables.len()
    }

    fn family(&self, f: FamilyNo) -> Option<&Family> {
        let table = self.table(f)?;
        Some(&table.family)
    }

    fn rows(&self, f: FamilyNo) -> usize {
        match self.table(f) {
            Some(table) => table.rows.len(),
            None => 0,
        }
    }

    fn row(&self, f: FamilyNo, k: usize) -> Option<&Row> {
        self.table(f)?.row(k)
    }

    fn has(&self, f: FamilyNo, row: &Row) -> bool {
        match self.table(f) {
            Some(table) => table.has(row),
            None => false,
        }
    }

    fn first_compatible(&self, f: FamilyNo, g: &Pattern, spot: Spot, from: usize) -> Option<usize> {
        let table = self.table(f)?;
        first_among(&table.family, table.rows.as_slice(), g, &spot, from)
    }

    fn next_rooted(&self, agent: AgentType, from: usize) -> Option<FamilyNo> {
        for k in from..self.tables.len() {
            if first_type(&self.tables[k].family) == agent {
                return Some(FamilyNo(k as u16));
            }
        }
        None
    }
}
