// Kinds of bytes, and parts of a text.
ghost use Rattle.std.specs.Prelude.{◌≡◌, ◌≤◌, length, drop};
ghost use Rattle.std.specs.List.{prefix_len};
ghost use Rattle.kasa_lexer.specs.Bytes.{is_digit, is_letter, is_letter_or_digit, is_word_byte, is_space, is_symbol};

// What a first byte can begin.
#[derive(Clone, Copy)]
pub enum Class {
    Letter,
    Digit,
    Low,
    Single,
    Double,
    PerCent,
    Cash,
    LineEnd,
    Minus,
    Less,
    Punctuation,
    Other,
}

pub fn is_digit(b: u8) -> bool
    ensures { result ≡ is_digit b }
{
    matches!(b, b'0'..=b'9')
}

pub fn is_letter(b: u8) -> bool
    ensures { result ≡ is_letter b }
{
    matches!(b, b'A'..=b'Z' | b'a'..=b'z')
}

pub fn is_letter_or_digit(b: u8) -> bool
    ensures { result ≡ is_letter_or_digit b }
{
    is_letter(b) || is_digit(b)
}

pub fn is_word_byte(b: u8) -> bool
    ensures { result ≡ is_word_byte b }
{
    is_letter_or_digit(b) || b == b'_'
}

pub fn is_space(b: u8) -> bool
    ensures { result ≡ is_space b }
{
    b == b' ' || b == b'\t' || b == b'\r'
}

pub fn is_symbol(b: u8) -> bool
    ensures { result ≡ is_symbol b }
{
    b"()[]{},.:;/+-*^@#=<>&|?".contains(&b)
}

// The bytes from an index on.
pub fn bytes_from(text: &[u8], n: usize) -> &[u8]
    requires { n ≤ length text.now }
    ensures { result.now ≡ drop n text.now }
{
    &text[n..]
}

impl Class {
    ghost use Rattle.kasa_lexer.specs.Front.{class_of, other_class_of};

    // The class of a byte.
    pub fn of(b: u8) -> Class
        ensures { result ≡ class_of b }
    {
        if is_letter(b) {
            Class::Letter
        } else if is_digit(b) {
            Class::Digit
        } else {
            Class::of_other(b)
        }
    }

    // The class of a byte that is no letter and no digit.
    fn of_other(b: u8) -> Class
        ensures { result ≡ other_class_of b }
    {
        match b {
            b'_' => Class::Low,
            b'\'' => Class::Single,
            b'"' => Class::Double,
            b'%' => Class::PerCent,
            b'$' => Class::Cash,
            b'\n' => Class::LineEnd,
            b'-' => Class::Minus,
            b'<' => Class::Less,
            _ if is_symbol(b) => Class::Punctuation,
            _ => Class::Other,
        }
    }
}
