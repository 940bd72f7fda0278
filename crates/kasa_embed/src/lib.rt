//! All embeddings of a small pattern in a mixture.
#![tactic(auto)]

mod cells;
mod route;
mod search;

pub use cells::Cells;
pub use search::embeddings;
