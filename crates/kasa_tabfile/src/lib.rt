//! The file of tables: families and their rows, a line each, written, and read in parts.
#![tactic(auto)]

mod fault;
mod head;
pub mod laws;
mod line;
mod lists;
mod open_line;
mod reader;
mod reading;
mod stage;
mod taking;
mod word;
mod write;

pub use fault::TabFault;
pub use reader::{TableReader, read_tables};
pub use write::write_tables;
