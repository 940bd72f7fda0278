//! Rules, models, and what a model reaches.
#![tactic(auto)]

mod draft;
pub mod laws;
mod model;
mod rule;

pub use draft::RuleDraft;
pub use model::{Added, Inits, Model, Rules};
pub use rule::{
    End, Fate, MadeAgent, MadeSite, MadeSites, NodeAction, Rule, SiteAction, SiteActions, Written,
    touched, touched_at,
};
