// The bytes of words.
ghost use Rattle.std.specs.Prelude.{◌≡◌, ◌-◌, take, drop};
ghost use Rattle.kasa_sig.specs.Mentions.{word};

use kasa_syntax::Span;

/// The bytes of a word.
pub fn word_at(text: &[u8], span: Span) -> &[u8]
    ensures { result.now ≡ word text.now span }
{
    between(text, span.start as usize, span.end as usize)
}

/// The bytes from one offset up to another, as far as the text goes.
pub fn between(text: &[u8], start: usize, end: usize) -> &[u8]
    ensures { result.now ≡ take (end - start) (drop start text.now) }
{
    let rest = &text[start.min(text.len())..];
    &rest[..end.saturating_sub(start).min(rest.len())]
}
