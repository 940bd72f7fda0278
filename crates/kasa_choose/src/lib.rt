//! Which families a model's tables are over: boxed choosers, and what is gathered of their plans.
#![tactic(auto)]

mod across;
mod across_chooser;
mod bond;
mod chain_chooser;
mod chains;
mod chooser;
mod gathering;
mod kind;
mod parallel;
mod parallel_chooser;
mod planned;
mod rest;
mod sites;
mod view_chooser;
mod views;

pub use across_chooser::AcrossChooser;
pub use chain_chooser::ChainChooser;
pub use chooser::Chooser;
pub use gathering::{GatherFault, gather};
pub use kind::Kind;
pub use parallel_chooser::ParallelChooser;
pub use view_chooser::ViewChooser;
