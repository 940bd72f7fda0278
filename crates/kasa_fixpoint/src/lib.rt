//! The least closed tables of a model over families of patterns.
#![tactic(auto)]

mod inits;
mod inserting;
mod kinds;
pub mod laws;
mod pairs;
mod readers;
mod solving;
mod system;

pub use kasa_worklist::SolveFault;
pub use pairs::Pair;
pub use solving::solve;
