// Blank bytes.
ghost use Rattle.std.specs.Prelude.{◌≡◌, ◌≤◌, ◌<◌, ◌+◌, ◌^◌, ◌==◌, not, length, IfSome};
ghost use Rattle.std.specs.List.{prefix_len};
ghost use Rattle.kasa_lexer.specs.Bytes.{is_space};
ghost use Rattle.kasa_lexer.specs.Front.{begins, blank_len, closes_comment, closing_len, comment_len, going_on_len, mark_len, opens_comment};

use crate::bytes::{bytes_from, is_space};

// Whether the text begins with this byte.
pub fn begins(text: &[u8], b: u8) -> bool
    ensures { result ≡ begins b text.now }
{
    match text {
        [] => false,
        [first, ..] => *first == b,
    }
}

fn closes_comment(text: &[u8]) -> bool
    ensures { result ≡ closes_comment text.now }
{
    matches!(text, [b'*', b'/', ..])
}

// How many bytes of what follows `/*` there are up to and with the first `*/`.
fn closing_len(text: &[u8]) -> Option<usize>
    requires { length text.now < 2 ^ 32 }
    ensures value { result ≡ closing_len text.now }
    ensures within { IfSome result (λ n. n ≤ length text.now) }
{
    for i in 0..text.len() {
        if closes_comment(bytes_from(text, i)) {
            return Some(i + 2);
        }
    }
    None
}

fn line_len(text: &[u8]) -> usize
    ensures value { result ≡ prefix_len (λ c. not (c == 10)) text.now }
    ensures within { result ≤ length text.now }
{
    text.iter().take_while(|b| **b != b'\n').count()
}

fn spaces_len(text: &[u8]) -> usize
    ensures value { result ≡ prefix_len is_space text.now }
    ensures within { result ≤ length text.now }
{
    text.iter().take_while(|b| is_space(**b)).count()
}

fn comment_len(text: &[u8]) -> usize
    requires { length text.now < 2 ^ 32 }
    ensures value { result ≡ comment_len text.now }
    ensures within { result ≤ 1 + length text.now }
{
    match text {
        [] => 0,
        [b, rest @ ..] => {
            if *b == b'/' {
                2 + line_len(rest)
            } else if *b == b'*' {
                match closing_len(rest) {
                    None => 0,
                    Some(n) => 2 + n,
                }
            } else {
                0
            }
        }
    }
}

fn going_on_len(text: &[u8]) -> usize
    requires { length text.now < 2 ^ 32 }
    ensures value { result ≡ going_on_len text.now }
    ensures within { result ≤ 1 + length text.now }
{
    let spaces = spaces_len(text);
    if begins(bytes_from(text, spaces), b'\n') {
        2 + spaces
    } else {
        0
    }
}

fn mark_len(text: &[u8]) -> usize
    ensures value { result ≡ mark_len text.now }
    ensures within { result ≤ 1 + length text.now }
{
    match text {
        [0xBB, 0xBF, ..] => 3,
        _ => 0,
    }
}

// How many blank bytes stand at the front of what is left of a text at an offset.
pub fn blank_len(text: &[u8], at: usize) -> usize
    requires { length text.now < 2 ^ 32 }
    ensures value { result ≡ blank_len at text.now }
    ensures within { result ≤ length text.now }
{
    match text {
        [] => 0,
        [b, rest @ ..] => {
            if is_space(*b) {
                1
            } else if *b == b'\\' {
                going_on_len(rest)
            } else if *b == b'/' {
                comment_len(rest)
            } else if *b == 0xEF && at == 0 {
                mark_len(rest)
            } else {
                0
            }
        }
    }
}

pub fn opens_comment(text: &[u8]) -> bool
    ensures { result ≡ opens_comment text.now }
{
    matches!(text, [b'/', b'*', ..])
}
