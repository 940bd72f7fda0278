//! What the program does: from the words and the texts that it is given to the text that it prints.
#![tactic(auto)]

pub mod laws;
mod program;
mod status;
mod words;

pub use program::run;
pub use status::Status;
