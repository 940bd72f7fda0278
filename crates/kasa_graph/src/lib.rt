//! Site graphs: signatures, patterns, mixtures and embeddings.
#![tactic(auto)]

mod embedding;
pub mod laws;
mod mixture;
mod pattern;
mod refine;
mod signature;
mod text;

pub use embedding::is_embedding;
pub use mixture::{Agent, AgentSite, AgentSites, Mixture};
pub use pattern::{LinkTest, Node, NodeSites, Pattern, SiteTests, StateTest};
pub use refine::{Test, implies, meet};
pub use signature::{Signature, is_name};
pub use text::write_pattern;
