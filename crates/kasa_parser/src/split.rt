// Where declarations end.
ghost use Rattle.std.specs.Prelude.{◌≡◌, ◌≤◌, ◌<◌, ◌+◌, ◌^◌, ◌++◌, ◌∷◌, ◌==◌, ◌||◌, [], false, true, ℕ, List, Some, None, OnOk, IfOk, map};
ghost use Rattle.kasa_parser.specs.Words.{Word, word_of, words_of};
ghost use Rattle.kasa_parser.specs.Declarations.{is_break, begins_declaration, goes_on, deeper, last_kind, ends_at, ended, declarations_of};
ghost use Rattle.kasa_parser.specs.Steps.{AreWithin, may_end};
ghost use Rattle.kasa_parser.specs.Split.{split_from, given_of, AllWithin, AreTaken};

use kasa_num::NoMemory;
use kasa_syntax::{Token, TokenKind};
use std::alloc::Global;
use std::mem;

// The tokens of a declaration, without breaks, and the offset where it ends.
#[derive(Drop)]
pub struct Declared {
    pub tokens: Vec<Token>,
    pub ending: u32,
}

fn is_break(kind: TokenKind) -> bool
    ensures { result ≡ is_break kind }
{
    matches!(kind, TokenKind::Break)
}

// A declaration can begin with such a token.
fn begins_declaration(kind: TokenKind) -> bool
    ensures { result ≡ begins_declaration kind }
{
    match kind {
        TokenKind::Percent | TokenKind::Quoted | TokenKind::Name => true,
        TokenKind::Symbol(b) => b == b'.',
        _ => false,
    }
}

// Behind such a token a declaration goes on.
fn goes_on(kind: TokenKind) -> bool
    ensures { result ≡ goes_on kind }
{
    match kind {
        TokenKind::Arrow | TokenKind::BothArrow => true,
        TokenKind::Symbol(b) => b == b',' || b == b'@',
        _ => false,
    }
}

fn is_opening(b: u8) -> bool
    ensures { result ≡ ((b == 40) || (b == 91) || (b == 123)) }
{
    b == b'(' || b == b'[' || b == b'{'
}

fn is_closing(b: u8) -> bool
    ensures { result ≡ ((b == 41) || (b == 93) || (b == 125)) }
{
    b == b')' || b == b']' || b == b'}'
}

// How deep the brackets are behind a token.
fn deeper(kind: TokenKind, depth: usize) -> usize
    requires { depth < 2 ^ 63 }
    ensures value { result ≡ deeper kind depth }
    ensures within { result ≤ depth + 1 }
{
    match kind {
        TokenKind::Symbol(b) => {
            if is_opening(b) {
                depth + 1
            } else if is_closing(b) {
                depth.saturating_sub(1)
            } else {
                depth
            }
        }
        _ => depth,
    }
}

// A declaration of these tokens may end behind them.
fn may_end(tokens: &[Token]) -> bool
    ensures { (text : List ℕ) → result ≡ may_end (last_kind (words_of text tokens.now)) }
{
    match tokens {
        [] => true,
        [.., last] => !goes_on(last.kind),
    }
}

// A break behind these tokens ends their declaration, where the next token is of this kind.
fn ends_before(tokens: &[Token], depth: usize, next: TokenKind) -> bool
    ensures { (text : List ℕ) → result ≡ ends_at depth (last_kind (words_of text tokens.now)) (Some next) }
{
    depth == 0 && begins_declaration(next) && may_end(tokens)
}

// The declarations that have ended, the tokens of the one that goes on, how deep its brackets are,
// and where the first break behind its last token is.
#[derive(Drop)]
struct Split {
    declared: Vec<Declared>,
    read: Vec<Token>,
    depth: usize,
    broken: Option<u32>,
}

impl Split {
    // Ends the declaration that goes on, if it has tokens.
    fn end(&mut self, alloc: Global, at: u32) -> Result<(), NoMemory>
        ensures given { OnOk result ((text : List ℕ) → given_of text self.new.declared.items ≡ given_of text self.old.declared.items ++ ended (words_of text self.old.read.items) at) }
        ensures read { OnOk result (self.new.read.items ≡ []) }
        ensures same { OnOk result ((self.new.depth ≡ self.old.depth) × (self.new.broken ≡ self.old.broken)) }
        ensures within { OnOk result ((size : ℕ) → AreTaken size self.old → at ≤ size → AreTaken size self.new) }
    {
        if self.read.is_empty() {
            return Ok(());
        }
        let tokens = mem::replace(&mut self.read, Vec::new(alloc));
        self.declared.push(Declared { tokens, ending: at })?;
        Ok(())
    }

    // Ends the declaration that goes on, if it ends at a break before a token of this kind.
    fn end_before(&mut self, alloc: Global, next: TokenKind) -> Result<(), NoMemory>
        ensures split { OnOk result ((text : List ℕ) (size : ℕ) (w : Word) (ws : List Word) → w.kind ≡ next → is_break next ≡ false → split_from text size self.old (w ∷ ws) ≡ split_from text size self.new (w ∷ ws)) }
        ensures broken { OnOk result (self.new.broken ≡ None) }
        ensures depth { OnOk result (self.new.depth ≤ self.old.depth) }
        ensures within { OnOk result ((size : ℕ) → AreTaken size self.old → AreTaken size self.new) }
    {
        let Some(at) = self.broken else {
            return Ok(());
        };
        self.broken = None;
        if ends_before(self.read.as_slice(), self.depth, next) {
            self.depth = 0;
            self.end(alloc, at)?;
        }
        Ok(())
    }

    fn pass_break(&mut self, at: u32)
        ensures split { (text : List ℕ) (size : ℕ) (w : Word) (ws : List Word) → is_break w.kind ≡ true → w.span.start ≡ at → split_from text size self.old (w ∷ ws) ≡ split_from text size self.new ws }
        ensures depth { self.new.depth ≡ self.old.depth }
        ensures within { (size : ℕ) → AreTaken size self.old → at ≤ size → AreTaken size self.new }
    {
        if self.broken.is_none() {
            self.broken = Some(at);
        }
    }

    // Takes the next token.
    fn take(&mut self, alloc: Global, token: Token) -> Result<(), NoMemory>
        requires { self.old.depth < 2 ^ 63 }
        ensures split { OnOk result ((text : List ℕ) (size : ℕ) (ws : List Word) → split_from text size self.old (word_of text token ∷ ws) ≡ split_from text size self.new ws) }
        ensures depth { OnOk result (self.new.depth ≤ self.old.depth + 1) }
        ensures within { OnOk result ((size : ℕ) → AreTaken size self.old → token.start ≤ token.end → token.end ≤ size → AreTaken size self.new) }
    {
        if is_break(token.kind) {
            self.pass_break(token.start);
            return Ok(());
        }
        self.end_before(alloc, token.kind)?;
        self.depth = deeper(token.kind, self.depth);
        self.read.push(token)?;
        Ok(())
    }

    // The declarations, the last of which ends at a break, or behind the last byte.
    fn finish(mut self, alloc: Global, size: u32) -> Result<Vec<Declared>, NoMemory>
        ensures given { IfOk result (λ declared. (text : List ℕ) → given_of text declared.items ≡ split_from text size self []) }
        ensures within { IfOk result (λ declared. AreTaken size self → AllWithin size declared.items) }
    {
        let at = self.broken.unwrap_or(size);
        self.end(alloc, at)?;
        let Split { declared, .. } = self;
        Ok(declared)
    }
}

// The declarations of the tokens of a text of so many bytes, in one pass.
pub fn split_tokens(alloc: Global, tokens: &[Token], size: u32) -> Result<Vec<Declared>, NoMemory>
    ensures given { IfOk result (λ declared. (text : List ℕ) → given_of text declared.items ≡ declarations_of size (words_of text tokens.now)) }
    ensures within { IfOk result (λ declared. AreWithin size tokens.now → AllWithin size declared.items) }
{
    let mut split = Split {
        declared: Vec::new(alloc),
        read: Vec::new(alloc),
        depth: 0,
        broken: None,
    };
    for token in tokens {
        split.take(alloc, *token)?;
    }
    let declared = split.finish(alloc, size)?;
    Ok(declared)
}
