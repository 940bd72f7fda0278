// From the tokens of declarations to what they say, or the first fault.

ghost use Rattle.std.specs.Prelude.{◌≡◌, ◌≢◌, ◌≤◌, ◌++◌, ◌∷◌, List, Ok, Err, OnOk, IfOk, IfErr, length};
ghost use Rattle.kasa_lexer.specs.Tokens.{IsOutcome as IsLexed};
ghost use Rattle.kasa_parser.specs.Words.{Word as SpecWord, words_of};
ghost use Rattle.kasa_parser.specs.Decls.{said_of, declaration, behind_keyword, span_of};
ghost use Rattle.kasa_parser.specs.Declarations.{Declaration};
ghost use Rattle.kasa_parser.specs.Parses.{IsOutcome, declaration_from, read_all};
ghost use Rattle.kasa_parser.specs.Steps.{AreWithin, Adds, can_go_on, fault_at, fault_of, IsLeft};
ghost use Rattle.kasa_parser.specs.Split.{declaration_of, given_of, AllWithin, read_behind};
ghost use Rattle.kasa_parser.specs.declared.ParseFault.TheVariants.{NoMemory as no_memory};

use crate::ParseFault;
use crate::reader::{Reader, Stop};
use crate::run::{Keyword, Run};
use crate::split::{Declared, split_tokens};
use crate::word::Word;
use kasa_num::{NoMemory, Place};
use kasa_syntax::{Decl, InitDecl, Span, Token, TokenKind, place_of};
use std::alloc::Global;

impl<'a> Reader<'a> {
    fn behind_keyword(
        &mut self,
        alloc: Global,
        keyword: Keyword,
        start: Span,
        decls: &mut Vec<Decl>,
    ) -> Result<(), Stop>
        ensures { Adds (said_of start ((behind_keyword keyword).read self.old)) decls.old.items result decls.new.items self.new }
    {
        match keyword {
            Keyword::Agent => decls.push(Decl::Agent(self.agent_decl(alloc)?))?,
            Keyword::Init => {
                let agents = self.init(alloc)?;
                decls.push(Decl::Init(InitDecl { start, agents }))?;
            }
            Keyword::Mod => self.mod_text(alloc, decls)?,
            Keyword::Skipped => self.run(Run::Rate)?,
        }
        Ok(())
    }

    // Adds what the first words say, where the declaration has this span.
    fn said(&mut self, alloc: Global, start: Span, decls: &mut Vec<Decl>) -> Result<(), Stop>
        ensures { Adds (said_of start (declaration.read self.old)) decls.old.items result decls.new.items self.new }
    {
        let Some(word) = self.peek() else {
            return Err(Stop::Stuck);
        };
        if !word.is_percent() {
            decls.push(Decl::Rule(self.rule(alloc, start)?))?;
            return Ok(());
        }
        let Some(keyword) = word.keyword() else {
            return Err(Stop::Stuck);
        };
        self.advance();
        self.behind_keyword(alloc, keyword, start, decls)
    }

    // Adds what the declaration says.
    fn declaration(&mut self, alloc: Global, decls: &mut Vec<Decl>) -> Result<(), Stop>
        ensures { Adds (declaration_from self.old) decls.old.items result decls.new.items self.new }
    {
        if self.peek().is_none() {
            return Err(Stop::Stuck);
        }
        let start = self.span();
        self.said(alloc, start, decls)?;
        self.end()?;
        Ok(())
    }
}

// The words of an agent without sites.
const AN_AGENT: [Token; 3] = [
    Token {
        kind: TokenKind::Name,
        start: 0,
        end: 0,
    },
    Token {
        kind: TokenKind::Symbol(b'('),
        start: 0,
        end: 0,
    },
    Token {
        kind: TokenKind::Symbol(b')'),
        start: 0,
        end: 0,
    },
];

// A label, which is 0.
const A_LABEL: [Token; 1] = [Token {
    kind: TokenKind::Number,
    start: 0,
    end: 0,
}];

// Some declaration begins with these tokens and more behind them.
fn can_go_on(alloc: Global, text: &[u8], before: &[Token], more: &[Token]) -> Result<bool, NoMemory>
    requires before { AreWithin (length text.now) before.now }
    requires more { AreWithin (length text.now) more.now }
    ensures { IfOk result (λ goes. goes ≡ can_go_on (words_of text.now before.now ++ words_of text.now more.now)) }
{
    let mut tokens = Vec::from_slice(alloc, before)?;
    tokens.extend_from_slice(more)?;
    let mut reader = Reader::new(text, tokens.as_slice());
    let mut decls = Vec::new(alloc);
    match reader.declaration(alloc, &mut decls) {
        Ok(()) => Ok(true),
        Err(Stop::NoMemory) => Err(NoMemory),
        Err(Stop::Stuck) => Ok(reader.peek().is_none()),
    }
}

// The fault at a word that can't stand behind these tokens.
fn fault_at(
    alloc: Global,
    text: &[u8],
    before: &[Token],
    word: &Word,
    place: Place,
) -> Result<ParseFault, NoMemory>
    requires { AreWithin (length text.now) before.now }
    ensures { IfOk result (λ fault. fault ≡ fault_at (words_of text.now before.now) word.now place) }
{
    let used = Reader::new(text, before);
    if word.is_keyword(b"%token") {
        return Ok(ParseFault::Tokens(place));
    }
    if used.is_at_keyword(b"%mod") && word.is_intervention() {
        return Ok(ParseFault::Intervention(place));
    }
    if word.is_symbol(b'|') && !used.is_at_percent() && can_go_on(alloc, text, before, &AN_AGENT)? {
        return Ok(ParseFault::Tokens(place));
    }
    if word.is_long() && can_go_on(alloc, text, before, &A_LABEL)? {
        return Ok(ParseFault::LongLabel(place));
    }
    Ok(ParseFault::Unexpected(place))
}

// The fault of a declaration of which these words are left.
fn fault_of(alloc: Global, text: &[u8], one: &Declared, left: &Reader) -> ParseFault
    requires few { length text.now ≤ 4194304 }
    requires tokens { AreWithin (length text.now) one.now.tokens.items }
    requires ending { one.now.ending ≤ length text.now }
    requires left { IsLeft (words_of text.now one.now.tokens.items) left.now }
    ensures { result ≢ no_memory → result ≡ fault_of text.now one.now.ending (words_of text.now one.now.tokens.items) left.now }
{
    let Some(word) = left.peek() else {
        return ParseFault::Unexpected(place_of(text, one.ending));
    };
    let place = place_of(text, word.span.start);
    let before = &one.tokens[..one.tokens.len() - left.len()];
    match fault_at(alloc, text, before, &word, place) {
        Ok(fault) => fault,
        Err(_) => ParseFault::NoMemory,
    }
}

// Adds what a declaration gives.
fn read_one(
    alloc: Global,
    text: &[u8],
    one: &Declared,
    decls: &mut Vec<Decl>,
) -> Result<(), ParseFault>
    requires few { length text.now ≤ 4194304 }
    requires tokens { AreWithin (length text.now) one.now.tokens.items }
    requires ending { one.now.ending ≤ length text.now }
    ensures ok { OnOk result ((more : List Declaration) → read_behind text.now decls.old.items (declaration_of text.now one.now ∷ more) ≡ read_behind text.now decls.new.items more) }
    ensures err { IfErr result (λ fault. fault ≢ no_memory → (more : List Declaration) → read_behind text.now decls.old.items (declaration_of text.now one.now ∷ more) ≡ Err fault) }
{
    let mut reader = Reader::new(text, one.tokens.as_slice());
    match reader.declaration(alloc, decls) {
        Ok(()) => Ok(()),
        Err(Stop::NoMemory) => Err(ParseFault::NoMemory),
        Err(Stop::Stuck) => Err(fault_of(alloc, text, one, &reader)),
    }
}

// What declarations give, or the first fault.
fn read_each(alloc: Global, text: &[u8], declared: &[Declared]) -> Result<Vec<Decl>, ParseFault>
    requires few { length text.now ≤ 4194304 }
    requires within { AllWithin (length text.now) declared.now }
    ensures ok { IfOk result (λ decls. read_all text.now (given_of text.now declared.now) ≡ Ok decls.items) }
    ensures err { IfErr result (λ fault. fault ≢ no_memory → read_all text.now (given_of text.now declared.now) ≡ Err fault) }
{
    let mut decls = Vec::new(alloc);
    for one in declared {
        read_one(alloc, text, one, &mut decls)?;
    }
    Ok(decls)
}

/// The declarations that the tokens of a text of at most 4,194,304 bytes give, in text order, or
/// the first fault, with its line and column: the first token that can't stand behind those before
/// it, or the end of a declaration that ends too early. Its work is linear in the tokens.
/// `NoMemory` comes only where there is no memory for the declarations.
pub fn parse(alloc: Global, text: &[u8], tokens: &[Token]) -> Result<Vec<Decl>, ParseFault>
    requires few { length text.now ≤ 4194304 }
    requires tokens { IsLexed text.now (Ok tokens.now) }
    ensures tree { IfOk result (λ decls. IsOutcome text.now tokens.now (Ok decls.items)) }
    ensures fault { IfErr result (λ fault. fault ≢ no_memory → IsOutcome text.now tokens.now (Err fault)) }
{
    let Ok(declared) = split_tokens(alloc, tokens, text.len() as u32) else {
        return Err(ParseFault::NoMemory);
    };
    let decls = read_each(alloc, text, declared.as_slice())?;
    Ok(decls)
}
