// Numbers.
ghost use Rattle.std.specs.Prelude.{◌≡◌, ◌≤◌, ◌<◌, ◌+◌, ◌^◌, length};
ghost use Rattle.kasa_lexer.specs.Front.{behind, digits_len, exponent_len, fraction_len, number_len, number_rest_len, sign_len};

use crate::bytes::{bytes_from, is_digit};

// So many bytes with those before them, or 0 where there are none.
pub fn behind(before: usize, n: usize) -> usize
    requires { before + n < 2 ^ 64 }
    ensures { result ≡ behind before n }
{
    if n == 0 { 0 } else { before + n }
}

fn digits_len(text: &[u8]) -> usize
    ensures value { result ≡ digits_len text.now }
    ensures within { result ≤ length text.now }
{
    text.iter().take_while(|b| is_digit(**b)).count()
}

// How many bytes `.` and digits have.
fn fraction_len(text: &[u8]) -> usize
    requires { length text.now < 2 ^ 32 }
    ensures value { result ≡ fraction_len text.now }
    ensures within { result ≤ length text.now }
{
    match text {
        [b'.', rest @ ..] => behind(1, digits_len(rest)),
        _ => 0,
    }
}

fn sign_len(text: &[u8]) -> usize
    ensures value { result ≡ sign_len text.now }
    ensures within { result ≤ length text.now }
{
    match text {
        [b'+' | b'-', ..] => 1,
        _ => 0,
    }
}

// How many bytes `e` or `E`, maybe a sign, and digits have.
fn exponent_len(text: &[u8]) -> usize
    requires { length text.now < 2 ^ 32 }
    ensures value { result ≡ exponent_len text.now }
    ensures within { result ≤ length text.now }
{
    match text {
        [b'e' | b'E', rest @ ..] => {
            let sign = sign_len(rest);
            behind(1 + sign, digits_len(bytes_from(rest, sign)))
        }
        _ => 0,
    }
}

// How many bytes a fraction and an exponent have, behind the digits of a number.
fn number_rest_len(text: &[u8]) -> usize
    requires { length text.now < 2 ^ 32 }
    ensures value { result ≡ number_rest_len text.now }
    ensures within { result ≤ length text.now }
{
    let fraction = fraction_len(text);
    fraction + exponent_len(bytes_from(text, fraction))
}

// How many bytes the longest number has that the text begins with.
pub fn number_len(text: &[u8]) -> usize
    requires { length text.now < 2 ^ 32 }
    ensures value { result ≡ number_len text.now }
    ensures within { result ≤ length text.now }
{
    let whole = digits_len(text);
    whole + number_rest_len(bytes_from(text, whole))
}
