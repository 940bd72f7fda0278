//! From the bytes of a model's text to its tokens: the longest token at each place, or the first
//! fault.
#![tactic(auto)]

mod blank;
mod bytes;
mod front;
mod laws;
mod lexer;
mod number;
mod token;

use kasa_num::Place;
pub use laws::{a_text_has_an_outcome, a_text_has_one_outcome_at_most, tokens_cover_their_text};
pub use lexer::lex;
use thiserror::Error;

/// Why a text has no tokens.
#[derive(Debug, Drop, PartialEq, Eq, Error)]
pub enum LexFault {
    /// There is no memory for the tokens.
    #[error("no memory")]
    NoMemory,
    /// A byte that begins no token, and is not blank.
    #[error("no token begins here")]
    BadByte(Place),
    /// `/*` without `*/` behind it.
    #[error("the comment is not closed")]
    UnclosedComment(Place),
    /// A quote that is not closed before the end of its line or of the text.
    #[error("the quote is not closed")]
    UnclosedQuote(Place),
    /// A name or a number of more than 63 bytes, or more than 255 bytes between `'`.
    #[error("the name is too long")]
    LongName(Place),
}
