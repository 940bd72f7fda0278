//! Tables: families of patterns, each with the rows that are held of it.
#![tactic(auto)]

mod column;
mod columns;
mod indexed;
mod indexed_table;
mod plain;
mod rising;
mod roots;
mod search;

pub use indexed::IndexedTables;
pub use plain::{InsertFault, PlainTables};

/// The tables that the program keeps.
pub type Tables = IndexedTables;
