// Tokens, and where they stand.

/// The bytes of a text from the offset `start` on and before the offset `end`, both from 0.
#[derive(Clone, Copy, Debug, PartialEq, Eq)]
pub struct Span {
    pub start: u32,
    pub end: u32,
}

/// What a token is.
#[derive(Clone, Copy, Debug, PartialEq, Eq)]
pub enum TokenKind {
    /// Letters, digits and `_`, with a letter or a digit among them and no digit first.
    Name,
    /// Digits, and maybe a fraction and an exponent.
    Number,
    /// A text between `'`.
    Quoted,
    /// A text between `"`.
    Text,
    /// `%` and letters.
    Percent,
    /// `$` and letters.
    Dollar,
    /// A lone `_`.
    Underscore,
    /// The end of a line.
    Break,
    /// `->`.
    Arrow,
    /// `<->`.
    BothArrow,
    /// One byte of punctuation.
    Symbol(u8),
}

/// A token: the bytes of a text from the offset `start` on and before the offset `end`, from 0.
#[derive(Clone, Copy, Debug, PartialEq, Eq)]
pub struct Token {
    pub kind: TokenKind,
    pub start: u32,
    pub end: u32,
}
