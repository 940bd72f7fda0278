//! Which rules may make, or stop, embeddings of other rules' left patterns.
#![tactic(auto)]

mod ask;
pub mod laws;
mod lone;
mod makes;
mod map;
mod narrow;
mod search;
mod stops;

pub use map::{Arrow, ArrowList, Arrows};
pub use search::arrows;
