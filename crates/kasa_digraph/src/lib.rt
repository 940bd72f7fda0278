//! Finite graphs: an order, weights, and the first cycle.
#![tactic(auto)]

mod cycle;
mod flood;
mod search;
mod weigh;

pub use cycle::first_cycle;
pub use search::order;
pub use weigh::{MOST, weight, weights};
