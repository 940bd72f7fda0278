//! The least closed tables of a system of pairs that yield rows, by a worklist.
#![tactic(auto)]

mod agenda;
mod closing;
mod fault;
mod system;

pub use closing::close;
pub use fault::SolveFault;
pub use system::System;
