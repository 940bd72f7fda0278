// What stands at the front of what is left of a text.
ghost use Rattle.std.specs.Prelude.{◌≡◌, ◌≤◌, ◌<◌, None, length, drop};
ghost use Rattle.kasa_syntax.specs.Place.{place_at};

use crate::LexFault;
use crate::blank::{begins, blank_len, opens_comment};
use crate::bytes::bytes_from;
use crate::token::{is_too_long, token_of};
use kasa_syntax::{TokenKind, place_of};

// So many blank bytes, a token of so many bytes, or a fault.
#[derive(Drop)]
pub enum Front {
    Blank(usize),
    Token(TokenKind, usize),
    Fault(LexFault),
}

impl Front {
    ghost use Rattle.kasa_lexer.specs.Front.{front_of, other_front, token_or_fault};

    // What stands at an offset of a text.
    pub fn of(text: &[u8], at: usize) -> Front
        requires few { length text.now ≤ 4194304 }
        requires within { at < length text.now }
        ensures { result ≡ front_of (place_at text.now at) at (drop at text.now) }
    {
        let rest = bytes_from(text, at);
        let blank = blank_len(rest, at);
        if blank > 0 {
            return Front::Blank(blank);
        }
        if opens_comment(rest) {
            return Front::Fault(LexFault::UnclosedComment(place_of(text, at as u32)));
        }
        match token_of(rest) {
            None => Front::no_token(text, at, rest),
            Some((kind, n)) => {
                if is_too_long(kind, n) {
                    Front::Fault(LexFault::LongName(place_of(text, at as u32)))
                } else {
                    Front::Token(kind, n)
                }
            }
        }
    }

    // The fault where no token stands.
    fn no_token(text: &[u8], at: usize, rest: &[u8]) -> Front
        requires few { length text.now ≤ 4194304 }
        requires within { at < length text.now }
        ensures { result ≡ token_or_fault (place_at text.now at) rest.now None }
    {
        let place = place_of(text, at as u32);
        if begins(rest, b'\'') || begins(rest, b'"') {
            Front::Fault(LexFault::UnclosedQuote(place))
        } else {
            Front::Fault(LexFault::BadByte(place))
        }
    }
}
