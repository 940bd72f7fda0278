//! From the tokens of a text to its declarations, or the first fault.
#![tactic(auto)]

mod additions;
mod agents;
mod decls;
mod laws;
mod parser;
mod reader;
mod run;
mod split;
mod word;

use kasa_num::Place;
pub use laws::{
    a_declaration_has_one_fault_at_most, a_text_has_a_tree_or_a_fault, a_text_has_one_tree_at_most,
    declarations_are_parts_of_their_text, words_are_one_declaration_at_most,
};
pub use parser::parse;
use thiserror::Error;

/// Why the tokens of a text give no declarations.
#[derive(Debug, Drop, PartialEq, Eq, Error)]
pub enum ParseFault {
    /// There is no memory for the tree.
    #[error("no memory")]
    NoMemory,
    /// A token that the grammar doesn't have there, or a declaration that ends too early.
    #[error("this is not expected here")]
    Unexpected(Place),
    /// `%token`, or `|` where an item may stand: tokens aren't part of the language that is read.
    #[error("tokens are not read")]
    Tokens(Place),
    /// `$DEL` or `$APPLY`: of the interventions only `$ADD` is part of the language that is read.
    #[error("interventions are not read")]
    Intervention(Place),
    /// The label of a bond above 65,535.
    #[error("the label is too long")]
    LongLabel(Place),
}
