//! Laws of the file of tables.

ghost use Rattle.std.specs.Prelude.{◌≡◌, ℕ, List, Result, Ok, Err};
ghost use Rattle.kasa_graph.specs.Signature.{TypeEntry, IsSignature};
ghost use Rattle.kasa_families.specs.Table.{Table, AreTables, AreShapedTables};
ghost use Rattle.kasa_tabfile.specs.declared.fault.TabFault.{TabFault};
ghost use Rattle.kasa_tabfile.specs.declared.fault.TabFault.TheVariants.{NoMemory as no_memory};
ghost use Rattle.kasa_tabfile.specs.Outcome.{TablesOf};
ghost use Rattle.kasa_tabfile.specs.TablesText.{AreOrdered, IsTextOf};

/// A text has one outcome at most.
pub fn a_text_has_one_outcome_at_most()
    ensures { (sig : List TypeEntry) (text : List ℕ) (o p : Result (List Table) TabFault) →
        TablesOf sig text o → TablesOf sig text p → o ≡ p }
{}

/// A text has an outcome: tables, or a first fault.
pub fn a_text_has_an_outcome()
    ensures { (sig : List TypeEntry) (text : List ℕ) →
        (o : Result (List Table) TabFault) × TablesOf sig text o }
{}

/// Want of memory is no outcome.
pub fn want_of_memory_is_no_outcome()
    ensures { (sig : List TypeEntry) (text : List ℕ) → ¬ TablesOf sig text (Err no_memory) }
{}

/// What is read are tables over the signature, within the limits.
pub fn what_is_read_are_tables()
    ensures valid { (sig : List TypeEntry) (text : List ℕ) (tables : List Table) →
        TablesOf sig text (Ok tables) → AreTables sig tables }
    ensures shaped { (sig : List TypeEntry) (text : List ℕ) (tables : List Table) →
        TablesOf sig text (Ok tables) → AreShapedTables tables }
{}

/// Tables have one text at most, in whatever order their rows stand.
pub fn tables_have_one_text_at_most()
    ensures { (tables : List Table) (text other : List ℕ) →
        IsTextOf tables text → IsTextOf tables other → text ≡ other }
{}

/// The text of tables within the limits stands for tables of the same families in order, each with the same rows.
pub fn a_text_of_tables_reads_back()
    ensures { (sig : List TypeEntry) (tables : List Table) (text : List ℕ) →
        IsSignature sig → AreTables sig tables → AreShapedTables tables → IsTextOf tables text →
        (read : List Table) × TablesOf sig text (Ok read) × AreOrdered tables read }
{}
