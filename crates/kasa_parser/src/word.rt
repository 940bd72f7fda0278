// Words: tokens with their bytes.
ghost use Rattle.std.specs.Prelude.{◌≡◌, ◌∷◌, [], not};
ghost use Rattle.std.specs.List.{list_any};
ghost use Rattle.kasa_lexer.specs.Bytes.{is_digit};
ghost use Rattle.kasa_syntax.specs.declared.tokens.TokenKind.TheVariants.{Name as name_kind, Number as number_kind, Percent as percent_kind, Dollar as dollar_kind, Arrow as arrow_kind, BothArrow as both_kind, Symbol as symbol_kind};
ghost use Rattle.kasa_parser.specs.Words.{are_digits, are_equal, is_of, has};
ghost use Rattle.kasa_parser.specs.Steps.{is_long};
ghost use Rattle.kasa_parser.specs.Decls.{is_keyword, is_intervention, brackets, run_kinds, run_test, arrow_of, count_of, state_name_of, quoted_of, dollar_of, closing_of, keyword_of};
ghost use Rattle.kasa_parser.specs.Grammar.{label_number, label_link, link_of, name_of, state_of};

use crate::run::{DollarWord, Keyword, Run};
use kasa_syntax::{LinkWord, Span, StateWord, TokenKind};
use std::marker::Model;

// A token with its bytes.
#[derive(Drop)]
pub struct Word<'a> {
    pub kind: TokenKind,
    pub bytes: &'a [u8],
    pub span: Span,
}

impl<'a> Model for Word<'a> {
    ghost use Rattle.kasa_parser.specs.Words.{Word};

    ghost Value = { Word };

    ghost view = { λ w. record { kind = w.kind; bytes = w.bytes.now; span = w.span } };
}

// A byte is no digit.
fn has_other(bytes: &[u8]) -> bool
    ensures { result ≡ list_any (λ b. not (is_digit b)) bytes.now }
{
    bytes.iter().any(|b| !is_digit(*b))
}

fn are_digits(bytes: &[u8]) -> bool
    ensures { result ≡ are_digits bytes.now }
{
    !has_other(bytes)
}

fn is_digit(b: u8) -> bool
    ensures { result ≡ is_digit b }
{
    matches!(b, b'0'..=b'9')
}

fn are_equal(bytes: &[u8], spelling: &[u8]) -> bool
    ensures { result ≡ are_equal bytes.now spelling.now }
{
    bytes == spelling
}

// The greatest number of a label.
const LONGEST_LABEL: u32 = 65535;

// The number that the digits write, None where they aren't digits or it is above that of any label.
fn label_of(bytes: &[u8]) -> Option<u16>
    ensures { result ≡ label_number bytes.now }
{
    if !are_digits(bytes) {
        return None;
    }
    let mut number = 0u32;
    for b in bytes {
        number = number * 10 + (*b - b'0') as u32;
        if number > LONGEST_LABEL {
            return None;
        }
    }
    Some(number as u16)
}

impl<'a> Word<'a> {
    pub fn is_symbol(&self, b: u8) -> bool
        ensures { result ≡ is_of (symbol_kind b ∷ []) self.now.kind }
    {
        match self.kind {
            TokenKind::Symbol(c) => c == b,
            _ => false,
        }
    }

    // The name that the word is.
    pub fn name(&self) -> Option<Span>
        ensures { result ≡ name_of self.now }
    {
        match self.kind {
            TokenKind::Name => Some(self.span),
            _ => None,
        }
    }

    pub fn is_name(&self) -> bool
        ensures { result ≡ is_of (name_kind ∷ []) self.now.kind }
    {
        matches!(self.kind, TokenKind::Name)
    }

    // Digits that stand for more than any label.
    pub fn is_long(&self) -> bool
        ensures { result ≡ is_long self.now }
    {
        match self.kind {
            TokenKind::Number => are_digits(self.bytes) && label_of(self.bytes).is_none(),
            _ => false,
        }
    }

    // The state that the word writes.
    pub fn state(&self) -> Option<StateWord>
        ensures { result ≡ state_of self.now }
    {
        match self.kind {
            TokenKind::Symbol(b'#') => Some(StateWord::Hash),
            TokenKind::Name => Some(StateWord::Named(self.span)),
            TokenKind::Number if are_digits(self.bytes) => Some(StateWord::Named(self.span)),
            _ => None,
        }
    }

    // The label that the word writes.
    fn label(&self) -> Option<LinkWord>
        ensures { result ≡ label_link self.now }
    {
        match label_of(self.bytes) {
            None => None,
            Some(number) => Some(LinkWord::Label {
                number,
                span: self.span,
            }),
        }
    }

    // The link that the word writes alone.
    pub fn link(&self) -> Option<LinkWord>
        ensures { result ≡ link_of self.now }
    {
        match self.kind {
            TokenKind::Symbol(b'.') => Some(LinkWord::Free),
            TokenKind::Symbol(b'#') => Some(LinkWord::Hash),
            TokenKind::Underscore => Some(LinkWord::Bound),
            TokenKind::Number => self.label(),
            _ => None,
        }
    }

    // ---- declarations

    pub fn is_keyword(&self, spelling: &[u8]) -> bool
        ensures { result ≡ is_keyword spelling.now self.now }
    {
        match self.kind {
            TokenKind::Percent => are_equal(self.bytes, spelling),
            _ => false,
        }
    }

    pub fn is_intervention(&self) -> bool
        ensures { result ≡ is_intervention self.now }
    {
        match self.kind {
            TokenKind::Dollar => {
                are_equal(self.bytes, b"$DEL") || are_equal(self.bytes, b"$APPLY")
            }
            _ => false,
        }
    }

    fn is_bracket(&self) -> bool
        ensures { result ≡ is_of brackets self.now.kind }
    {
        match self.kind {
            TokenKind::Symbol(b) => matches!(b, b'(' | b')' | b'[' | b']' | b'{' | b'}'),
            _ => false,
        }
    }

    pub fn is_arrow(&self) -> bool
        ensures { result ≡ is_of (arrow_kind ∷ both_kind ∷ []) self.now.kind }
    {
        matches!(self.kind, TokenKind::Arrow | TokenKind::BothArrow)
    }

    pub fn is_percent(&self) -> bool
        ensures { result ≡ is_of (percent_kind ∷ []) self.now.kind }
    {
        matches!(self.kind, TokenKind::Percent)
    }

    pub fn is_dollar(&self) -> bool
        ensures { result ≡ is_of (dollar_kind ∷ []) self.now.kind }
    {
        matches!(self.kind, TokenKind::Dollar)
    }

    // No run goes on with the word.
    pub fn ends_run(&self, which: Run) -> bool
        ensures { result ≡ not (has (run_kinds which) self.now.kind) }
    {
        match which {
            Run::Links => self.is_bracket(),
            Run::Mod => self.is_percent() || self.is_arrow() || self.is_dollar(),
            Run::Rate => self.is_percent() || self.is_arrow(),
        }
    }

    pub fn is_in_run(&self, which: Run) -> bool
        ensures { result ≡ run_test which self.now }
    {
        match which {
            Run::Links => !self.is_keyword(b"%token"),
            Run::Mod | Run::Rate => true,
        }
    }

    pub fn arrow(&self) -> Option<bool>
        ensures { result ≡ arrow_of self.now }
    {
        match self.kind {
            TokenKind::Arrow => Some(false),
            TokenKind::BothArrow => Some(true),
            _ => None,
        }
    }

    // Whether the word of a count is `(`.
    pub fn count(&self) -> Option<bool>
        ensures { result ≡ count_of self.now }
    {
        match self.kind {
            TokenKind::Number | TokenKind::Quoted => Some(false),
            TokenKind::Symbol(b'(') => Some(true),
            TokenKind::Symbol(b'+' | b'-' | b'*' | b'/' | b')') => Some(false),
            _ => None,
        }
    }

    // A name or digits.
    pub fn state_name(&self) -> Option<Span>
        ensures { result ≡ state_name_of self.now }
    {
        match self.kind {
            TokenKind::Name => Some(self.span),
            TokenKind::Number if are_digits(self.bytes) => Some(self.span),
            _ => None,
        }
    }

    pub fn may_be_state_name(&self) -> bool
        ensures { result ≡ is_of (name_kind ∷ number_kind ∷ []) self.now.kind }
    {
        matches!(self.kind, TokenKind::Name | TokenKind::Number)
    }

    // The quoted name that the word is.
    pub fn quoted(&self) -> Option<Span>
        ensures { result ≡ quoted_of self.now }
    {
        match self.kind {
            TokenKind::Quoted => Some(self.span),
            _ => None,
        }
    }

    // What the word with `$` begins, if it isn't an intervention.
    pub fn dollar(&self) -> Option<DollarWord>
        ensures { result ≡ dollar_of self.now }
    {
        if !self.is_dollar() || self.is_intervention() {
            return None;
        }
        if are_equal(self.bytes, b"$ADD") {
            return Some(DollarWord::Addition(self.span.start));
        }
        Some(DollarWord::Other)
    }

    // Where the word ends, if it is `)`.
    pub fn closing(&self) -> Option<u32>
        ensures { result ≡ closing_of self.now }
    {
        match self.kind {
            TokenKind::Symbol(b')') => Some(self.span.end),
            _ => None,
        }
    }

    // What the word begins, if it is a keyword.
    pub fn keyword(&self) -> Option<Keyword>
        ensures { result ≡ keyword_of self.now }
    {
        if self.is_keyword(b"%agent") {
            return Some(Keyword::Agent);
        }
        if self.is_keyword(b"%init") {
            return Some(Keyword::Init);
        }
        if self.is_keyword(b"%mod") {
            return Some(Keyword::Mod);
        }
        let is_skipped = self.is_keyword(b"%var")
            || self.is_keyword(b"%obs")
            || self.is_keyword(b"%plot")
            || self.is_keyword(b"%def");
        if is_skipped {
            Some(Keyword::Skipped)
        } else {
            None
        }
    }
}
