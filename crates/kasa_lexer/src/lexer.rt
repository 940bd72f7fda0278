// From a text to its tokens.
ghost use Rattle.std.specs.Prelude.{◌≡◌, ◌≢◌, ◌≤◌, ◌<◌, ◌+◌, ◌++◌, ◌==◌, ◌∷◌, [], OnOk, IfOk, IfErr, Ok, Err, length, take, drop};
ghost use Rattle.std.specs.List.{prefix_len};
ghost use Rattle.kasa_lexer.specs.Front.{lone_tokens, taken_len, taken_tokens};
ghost use Rattle.kasa_lexer.specs.Tokens.{IsOutcome};
ghost use Rattle.kasa_lexer.specs.declared.LexFault.TheVariants.{NoMemory as no_memory};

use crate::LexFault;
use crate::bytes::bytes_from;
use crate::front::Front;
use kasa_syntax::{Token, TokenKind};
use std::alloc::Global;

fn push_token(tokens: &mut Vec<Token>, token: Token) -> Result<(), LexFault>
    ensures ok { OnOk result (tokens.new.items ≡ tokens.old.items ++ token ∷ []) }
    ensures err { IfErr result (λ fault. fault ≡ no_memory) }
{
    tokens.push(token).map_err(|_| LexFault::NoMemory)
}

// Appends so many tokens `_`, one behind the other.
fn push_lone(tokens: &mut Vec<Token>, at: usize, n: usize) -> Result<(), LexFault>
    requires { at + n ≤ 4194304 }
    ensures ok { OnOk result (tokens.new.items ≡ tokens.old.items ++ lone_tokens at n) }
    ensures err { IfErr result (λ fault. fault ≡ no_memory) }
{
    for i in 0..n {
        let start = (at + i) as u32;
        let token = Token {
            kind: TokenKind::Underscore,
            start,
            end: start + 1,
        };
        push_token(tokens, token)?;
    }
    Ok(())
}

fn lone_len(text: &[u8]) -> usize
    ensures value { result ≡ prefix_len (λ b. b == 95) text.now }
    ensures within { result ≤ length text.now }
{
    text.iter().take_while(|b| **b == b'_').count()
}

// Appends what stands at an offset, and gives how many bytes it has: a token, or all of a run of
// `_`, so that no run is read twice.
fn take_token(
    tokens: &mut Vec<Token>,
    text: &[u8],
    at: usize,
    kind: TokenKind,
    n: usize,
) -> Result<usize, LexFault>
    requires within { at + n ≤ length text.now }
    requires few { length text.now ≤ 4194304 }
    ensures len { IfOk result (λ len. len ≡ taken_len kind n (drop at text.now)) }
    ensures within { IfOk result (λ len. at + len ≤ length text.now) }
    ensures ok { OnOk result (tokens.new.items ≡ tokens.old.items ++ taken_tokens at kind n (drop at text.now)) }
    ensures err { IfErr result (λ fault. fault ≡ no_memory) }
{
    if kind == TokenKind::Underscore {
        let lone = lone_len(bytes_from(text, at));
        push_lone(tokens, at, lone)?;
        return Ok(lone);
    }
    let token = Token {
        kind,
        start: at as u32,
        end: (at + n) as u32,
    };
    push_token(tokens, token)?;
    Ok(n)
}

/// The tokens of a text of at most 4,194,304 bytes, in text order, or its first fault, with its
/// line and column. It is one pass over the text, without a copy of it. `NoMemory` comes only where
/// there is no memory for the tokens.
pub fn lex(alloc: Global, text: &[u8]) -> Result<Vec<Token>, LexFault>
    requires { length text.now ≤ 4194304 }
    ensures tokens { IfOk result (λ tokens. IsOutcome text.now (Ok tokens.items)) }
    ensures fault { IfErr result (λ fault. fault ≢ no_memory → IsOutcome text.now (Err fault)) }
{
    let mut tokens = Vec::new(alloc);
    let mut at = 0;
    while at < text.len() {
        match Front::of(text, at) {
            Front::Blank(n) => at += n,
            Front::Token(kind, n) => at += take_token(&mut tokens, text, at, kind, n)?,
            Front::Fault(fault) => return Err(fault),
        }
    }
    Ok(tokens)
}
