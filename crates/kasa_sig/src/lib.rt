//! The signature of a text: the types of agents, their sites and the states of these, as agent
//! declarations give them, or else as inits, additions and rules name them.
#![tactic(auto)]

mod builder;
mod declared;
mod fault;
mod names;
mod used;

pub use builder::build;
pub use fault::SigFault;
