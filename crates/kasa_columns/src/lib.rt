//! Rows of families with columns: those that stand in an init, and those that a rule yields, forward through a firing.
#![tactic(auto)]

mod chosen;
mod collect;
mod fired;
pub mod laws;
mod plan;
mod seen;
mod stands;
mod walk;
mod written;
mod yielded;

pub use fired::{Outcome, outcomes};
pub use seen::initial;
pub use stands::{follow_bond, link_asked, stand_of, stands_of_type};
pub use written::link_written;
pub use yielded::{missing, new_results, results};
