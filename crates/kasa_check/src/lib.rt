//! Whether tables are closed, and else the first row that they lack.
#![tactic(auto)]

mod checking;
mod inits;
mod kinds;
pub mod laws;
mod rules;

pub use checking::check;
