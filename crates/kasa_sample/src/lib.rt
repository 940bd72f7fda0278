//! The text of the sample model, which is made and not read.
#![tactic(auto)]

mod sample;

pub use sample::{MOST_TYPES, sample_text};
