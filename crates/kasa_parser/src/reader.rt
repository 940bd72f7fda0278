// A reader of words, from the left.
ghost use Rattle.std.specs.Prelude.{◌≡◌, ◌∷◌, [], true, length};
ghost use Rattle.kasa_syntax.specs.declared.tokens.TokenKind.TheVariants.{Name as name_kind, Percent as percent_kind, Dollar as dollar_kind, Symbol as symbol_kind};
ghost use Rattle.kasa_parser.specs.Words.{words_of, rest, starts, begins_with, only, past_comma};
ghost use Rattle.kasa_parser.specs.Grammar.{name};
ghost use Rattle.kasa_parser.specs.Rules.{symbol};
ghost use Rattle.kasa_parser.specs.Steps.{AreWithin, Gives, first, has_words};
ghost use Rattle.kasa_parser.specs.Decls.{is_keyword, agent_follows, span_of, all_read};
ghost use Rattle.kasa_parser.specs.declared.reader.Stop.TheVariants.{NoMemory as no_memory};

use crate::word::Word;
use kasa_syntax::{Span, Token};
use std::alloc::AllocFailed;
use std::marker::Model;

// Why words can't be read on: there is no memory, or the first word that is left can't stand
// there.
#[derive(Drop)]
pub enum Stop {
    NoMemory,
    Stuck,
}

impl<T: Drop> From<AllocFailed<T>> for Stop {
    ghost from_gives = { λ _ e. e ≡ no_memory };

    fn from(_: AllocFailed<T>) -> Stop {
        Stop::NoMemory
    }
}

// The words that are left.
#[derive(Drop)]
pub struct Reader<'a> {
    text: &'a [u8],
    tokens: &'a [Token],
}

impl<'a> Model for Reader<'a> {
    ghost use Rattle.std.specs.Prelude.{List};
    ghost use Rattle.std.specs.Prelude.{length};
    ghost use Rattle.kasa_parser.specs.Words.{Word, words_of};
    ghost use Rattle.kasa_parser.specs.Steps.{AreWithin};

    ghost Value = { List Word };

    ghost view = { λ r. words_of r.text.now r.tokens.now };

    ghost invariant = { λ r. AreWithin (length r.text.now) r.tokens.now };
}

impl<'a> Reader<'a> {
    pub fn new(text: &'a [u8], tokens: &'a [Token]) -> Reader<'a>
        requires { AreWithin (length text.now) tokens.now }
        ensures { result ≡ words_of text.now tokens.now }
    {
        Reader { text, tokens }
    }

    // The first word.
    pub fn peek(&self) -> Option<Word<'a>>
        ensures { result ≡ first self.now }
    {
        match self.tokens {
            [] => None,
            [token, ..] => Some(Word {
                kind: token.kind,
                bytes: &self.text[token.start as usize..token.end as usize],
                span: Span {
                    start: token.start,
                    end: token.end,
                },
            }),
        }
    }

    // Passes the first word.
    pub fn advance(&mut self)
        ensures { self.new ≡ rest self.old }
    {
        if let [_, rest @ ..] = self.tokens {
            self.tokens = rest;
        }
    }

    pub fn is_at(&self, b: u8) -> bool
        ensures { result ≡ starts (only (symbol_kind b ∷ [])) self.now }
    {
        match self.peek() {
            None => false,
            Some(word) => word.is_symbol(b),
        }
    }

    pub fn is_at_name(&self) -> bool
        ensures { result ≡ starts (only (name_kind ∷ [])) self.now }
    {
        match self.peek() {
            None => false,
            Some(word) => word.is_name(),
        }
    }

    pub fn is_at_percent(&self) -> bool
        ensures { result ≡ starts (only (percent_kind ∷ [])) self.now }
    {
        match self.peek() {
            None => false,
            Some(word) => word.is_percent(),
        }
    }

    // The first word is this keyword.
    pub fn is_at_keyword(&self, spelling: &[u8]) -> bool
        ensures { result ≡ begins_with (is_keyword spelling.now) self.now }
    {
        match self.peek() {
            None => false,
            Some(word) => word.is_keyword(spelling),
        }
    }

    pub fn is_at_dollar(&self) -> bool
        ensures { result ≡ starts (only (dollar_kind ∷ [])) self.now }
    {
        match self.peek() {
            None => false,
            Some(word) => word.is_dollar(),
        }
    }

    // Behind a comma or not, a name and `(` follow.
    pub fn is_at_next_agent(&self) -> bool
        ensures { result ≡ agent_follows self.now }
    {
        let mut ahead = Reader::new(self.text, self.tokens);
        ahead.pass_comma();
        if !ahead.is_at_name() {
            return false;
        }
        ahead.advance();
        ahead.is_at(b'(')
    }

    // How many words are left.
    pub fn len(&self) -> usize
        ensures { result ≡ length self.now }
    {
        self.tokens.len()
    }

    // Passes a comma that stands first.
    pub fn pass_comma(&mut self)
        ensures { self.new ≡ past_comma self.old }
    {
        if self.is_at(b',') {
            self.advance();
        }
    }

    pub fn symbol(&mut self, b: u8) -> Result<(), Stop>
        ensures { Gives ((symbol b).read self.old) result self.new }
    {
        if !self.is_at(b) {
            return Err(Stop::Stuck);
        }
        self.advance();
        Ok(())
    }

    pub fn name(&mut self) -> Result<Span, Stop>
        ensures { Gives (name.read self.old) result self.new }
    {
        let Some(word) = self.peek() else {
            return Err(Stop::Stuck);
        };
        let Some(name) = word.name() else {
            return Err(Stop::Stuck);
        };
        self.advance();
        Ok(name)
    }

    // From the first byte of the first word to the last byte of the last one.
    pub fn span(&self) -> Span
        requires { has_words self.now ≡ true }
        ensures { result ≡ span_of self.now }
    {
        let tokens = self.tokens;
        Span {
            start: tokens[0].start,
            end: tokens[tokens.len() - 1].end,
        }
    }

    // Nothing is left.
    pub fn end(&self) -> Result<(), Stop>
        ensures { Gives (all_read tt self.now) result self.now }
    {
        if self.peek().is_some() {
            Err(Stop::Stuck)
        } else {
            Ok(())
        }
    }
}
