// Laws of the definition of tokens.
ghost use Rattle.std.specs.Prelude.{◌≡◌, List, ℕ, Result, Ok};
ghost use Rattle.kasa_syntax.specs.declared.tokens.Token.{Token};
ghost use Rattle.kasa_lexer.specs.declared.LexFault.{LexFault};
ghost use Rattle.kasa_lexer.specs.Cover.{Covers};
ghost use Rattle.kasa_lexer.specs.Tokens.{Lexes};

/// Two outcomes of a text are one.
pub fn a_text_has_one_outcome_at_most()
    ensures { (text : List ℕ) (one other : Result (List Token) LexFault) → Lexes text 0 one → Lexes text 0 other → one ≡ other }
{}

/// Each text has its tokens or a fault.
pub fn a_text_has_an_outcome()
    ensures { (text : List ℕ) → (outcome : Result (List Token) LexFault) × Lexes text 0 outcome }
{}

/// Tokens follow one another, with blanks between them and behind the last one, and each is the
/// longest that stands where it begins. So a text without tokens and without a fault is blank.
pub fn tokens_cover_their_text()
    ensures { (text : List ℕ) (tokens : List Token) → Lexes text 0 (Ok tokens) → Covers text 0 tokens }
{}
