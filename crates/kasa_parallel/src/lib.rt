//! The rows of parallel families: those that stand in an init, and those that a rule yields.
#![tactic(auto)]

pub mod laws;
mod partner;
mod search;
mod seen;
mod yielded;

pub use seen::initial;
pub use yielded::{missing, new_results, results};
