//! From a text to its model.
#![tactic(auto)]

mod bonds;
mod causes;
mod compile;
mod complex;
mod fault;
mod half_bonds;
mod label_counts;
mod laws;
mod limits;
mod names;
mod pairs;
mod partial;
mod read;
mod resolved;
mod rights;
mod rule;
mod said;
mod sides;
mod words;

pub use fault::{CompileFault, ModelFault};
pub use laws::a_text_has_one_outcome_at_most;
pub use read::read_model;
