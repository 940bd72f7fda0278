//! Families of patterns: a root, and the rows that refine it.
#![tactic(auto)]

mod compatible;
mod family;
mod first;
pub mod laws;
mod patterns;
mod place;
mod row;
mod rows;
mod shape;
mod valid;

pub use compatible::{agrees_at, asks_are_met, is_compatible};
pub use family::{Family, Sites};
pub use first::{first_among, first_type};
pub use patterns::{pattern, root};
pub use place::{Place, Spot};
pub use row::{Local, LocalLink, Locals, Row};
pub use rows::{Missing, Origin, Rows, Verdict};
pub use shape::{Bond, NodeSite};
pub use valid::{has_shape, is_family, is_row};
