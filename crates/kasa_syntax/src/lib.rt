//! The tokens of a model's text, the tree of its declarations, and places in it. The tree has spans
//! in place of words: each says where in the text its word stands.
#![tactic(auto)]

mod agents;
mod decls;
mod place;
mod tokens;

pub use agents::{
    AgentText, AgentTexts, LinkText, LinkWord, Mark, SiteText, SiteTexts, StateText, StateWord,
};
pub use decls::{
    AgentDecl, Decl, Form, InitDecl, Item, Items, RuleText, SiteDecl, SiteDecls, Spans,
};
pub use place::place_of;
pub use tokens::{Span, Token, TokenKind};
