//! The rows of views: those that occur in an init, and those that a rule yields.
#![tactic(auto)]

pub mod laws;
mod rows;

pub use rows::{initial, missing, new_results, results};
