// The longest token.
ghost use Rattle.std.specs.Prelude.{◌≡◌, ◌≤◌, ◌<◌, ◌+◌, ◌^◌, ◌∷◌, Some, length};
ghost use Rattle.std.specs.List.{list_any};
ghost use Rattle.kasa_lexer.specs.Bytes.{is_letter_or_digit};
ghost use Rattle.kasa_lexer.specs.Front.{inner_len, is_too_long, less_token, letters_len, low_token, minus_token, quoted_len, sized, token_at, token_of, word_len};

use crate::blank::begins;
use crate::bytes::{Class, bytes_from, is_letter, is_letter_or_digit, is_word_byte};
use crate::number::{behind, number_len};
use kasa_syntax::TokenKind;

fn word_len(text: &[u8]) -> usize
    ensures value { result ≡ word_len text.now }
    ensures within { result ≤ length text.now }
{
    text.iter().take_while(|b| is_word_byte(**b)).count()
}

fn letters_len(text: &[u8]) -> usize
    ensures value { result ≡ letters_len text.now }
    ensures within { result ≤ length text.now }
{
    text.iter().take_while(|b| is_letter(**b)).count()
}

fn inner_len(text: &[u8], quote: u8) -> usize
    ensures value { result ≡ inner_len quote text.now }
    ensures within { result ≤ length text.now }
{
    text.iter()
        .take_while(|b| **b != quote && **b != b'\n')
        .count()
}

// How many bytes a quoted text has whose first quote stands before the text, or 0 where it isn't
// closed.
fn quoted_len(text: &[u8], quote: u8) -> usize
    requires { length text.now < 2 ^ 32 }
    ensures value { result ≡ quoted_len quote text.now }
    ensures within { result ≤ 1 + length text.now }
{
    let inner = inner_len(text, quote);
    if begins(bytes_from(text, inner), quote) {
        2 + inner
    } else {
        0
    }
}

fn sized(kind: TokenKind, n: usize) -> Option<(TokenKind, usize)>
    ensures { result ≡ sized kind n }
{
    if n == 0 { None } else { Some((kind, n)) }
}

fn has_letter_or_digit(text: &[u8]) -> bool
    ensures { result ≡ list_any is_letter_or_digit text.now }
{
    text.iter().any(|b| is_letter_or_digit(*b))
}

// A name, or a lone `_`.
fn low_token(text: &[u8]) -> (TokenKind, usize)
    ensures { Some result ≡ low_token text.now }
{
    let n = word_len(text);
    if has_letter_or_digit(&text[..n]) {
        (TokenKind::Name, n)
    } else {
        (TokenKind::Underscore, 1)
    }
}

fn minus_token(text: &[u8]) -> (TokenKind, usize)
    ensures { Some result ≡ minus_token text.now }
{
    if begins(text, b'>') {
        (TokenKind::Arrow, 2)
    } else {
        (TokenKind::Symbol(b'-'), 1)
    }
}

fn less_token(text: &[u8]) -> (TokenKind, usize)
    ensures { Some result ≡ less_token text.now }
{
    match text {
        [b'-', b'>', ..] => (TokenKind::BothArrow, 3),
        _ => (TokenKind::Symbol(b'<'), 1),
    }
}

// The longest token at the front of a text, and how many bytes it has.
pub fn token_of(text: &[u8]) -> Option<(TokenKind, usize)>
    requires { length text.now < 2 ^ 32 }
    ensures { result ≡ token_of text.now }
{
    match text {
        [] => None,
        [b, rest @ ..] => token_at(Class::of(*b), *b, rest, text),
    }
}

fn token_at(class: Class, b: u8, rest: &[u8], text: &[u8]) -> Option<(TokenKind, usize)>
    requires text { text.now ≡ b ∷ rest.now }
    requires few { length text.now < 2 ^ 32 }
    ensures { result ≡ token_at class b rest.now }
{
    match class {
        Class::Letter => Some((TokenKind::Name, word_len(text))),
        Class::Digit => Some((TokenKind::Number, number_len(text))),
        Class::Low => Some(low_token(text)),
        Class::Single => sized(TokenKind::Quoted, quoted_len(rest, b'\'')),
        Class::Double => sized(TokenKind::Text, quoted_len(rest, b'"')),
        Class::PerCent => sized(TokenKind::Percent, behind(1, letters_len(rest))),
        Class::Cash => sized(TokenKind::Dollar, behind(1, letters_len(rest))),
        Class::LineEnd => Some((TokenKind::Break, 1)),
        Class::Minus => Some(minus_token(rest)),
        Class::Less => Some(less_token(rest)),
        Class::Punctuation => Some((TokenKind::Symbol(b), 1)),
        Class::Other => None,
    }
}

// Whether a token of so many bytes is longer than its kind may be.
pub fn is_too_long(kind: TokenKind, n: usize) -> bool
    ensures { result ≡ is_too_long kind n }
{
    match kind {
        TokenKind::Name | TokenKind::Number => n > 63,
        TokenKind::Quoted => n > 257,
        _ => false,
    }
}
