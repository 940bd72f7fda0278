//! The printed report of a model over tables: contact map, lemmas, dead rules and the verdict on polymers.
#![tactic(auto)]

mod check;
mod dead;
mod faults;
pub mod laws;
mod lemmas;
mod map;
mod polymers;
mod product;
mod sample;
mod sections;
mod write;

pub use check::{check_report, missing_text};
pub use faults::{model_fault_text, tables_fault_text};
pub use sample::sample_report;
pub use sections::report;
