//! The rows of chains: those that occur in an init, and those that a rule yields.
#![tactic(auto)]

mod rows;

pub use rows::{initial, missing, new_results, results};
