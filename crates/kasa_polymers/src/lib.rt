//! What tables say of a model's bonds: the contact map, and how large species can become.
#![tactic(auto)]

mod gather;
pub mod laws;
mod map;
mod steps;
mod verdict;

pub use gather::contact;
pub use map::{Bond, Bonds, ContactMap, Polymers, StateSeen, StatesSeen};
pub use verdict::polymers;
