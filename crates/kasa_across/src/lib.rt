//! The rows of across families: those that occur in an init, and those that a rule yields.
#![tactic(auto)]

mod rows;

pub use rows::{initial, missing, new_results, results};
