//! The tokens of texts.
use kasa_lexer::lex;
use std::alloc::Global;
use std::test::Fail;

// The tokens of a text, each with its kind, its first byte and the byte behind it, or its fault.
fn outcome(alloc: Global, text: &str) -> Result<String, Fail> {
    if text.len() > 4194304 {
        return Err(Fail::from("too long"));
    }
    let tokens = match lex(alloc, text.as_bytes()) {
        Ok(tokens) => tokens,
        Err(fault) => return Ok(format!(in alloc; "{fault:?}")?),
    };
    let mut words = String::new(alloc);
    for token in &tokens {
        let word = format!(in alloc; " {:?}:{}-{}", token.kind, token.start, token.end)?;
        words.push_str(word.as_str())?;
    }
    Ok(words)
}

const ROWS: [(&str, &str); 44] = [
    (" \t\r", ""),
    ("\\ \t\r\n", ""),
    ("// a 'b\n", " Break:7-8"),
    ("/*\n\n*/a", " Name:6-7"),
    ("/***/*", " Symbol(42):5-6"),
    ("/ /", " Symbol(47):0-1 Symbol(47):2-3"),
    ("\n\n", " Break:0-1 Break:1-2"),
    ("'a b'", " Quoted:0-5"),
    ("''", " Quoted:0-2"),
    ("\"a'\"", " Text:0-4"),
    ("'é'", " Quoted:0-4"),
    ("1.5", " Number:0-3"),
    ("1.", " Number:0-1 Symbol(46):1-2"),
    (".5", " Symbol(46):0-1 Number:1-2"),
    ("1e", " Number:0-1 Name:1-2"),
    ("1e+", " Number:0-1 Name:1-2 Symbol(43):2-3"),
    ("1E-5", " Number:0-4"),
    ("1.5e+10", " Number:0-7"),
    ("1e1.5", " Number:0-3 Symbol(46):3-4 Number:4-5"),
    ("5_a", " Number:0-1 Name:1-3"),
    ("a5_", " Name:0-3"),
    ("__", " Underscore:0-1 Underscore:1-2"),
    ("_1", " Name:0-2"),
    ("_ 1", " Underscore:0-1 Number:2-3"),
    ("%agent:", " Percent:0-6 Symbol(58):6-7"),
    ("$DEL", " Dollar:0-4"),
    ("->", " Arrow:0-2"),
    ("<->", " BothArrow:0-3"),
    ("<-", " Symbol(60):0-1 Symbol(45):1-2"),
    ("-->", " Symbol(45):0-1 Arrow:1-3"),
    (
        "^=>&?;",
        " Symbol(94):0-1 Symbol(61):1-2 Symbol(62):2-3 Symbol(38):3-4 Symbol(63):4-5 Symbol(59):5-6",
    ),
    ("\u{FEFF}a", " Name:3-4"),
    ("a\u{FEFF}", "BadByte(Place { line: 1, column: 2 })"),
    ("a\\ b", "BadByte(Place { line: 1, column: 2 })"),
    ("a\nb ~ !", "BadByte(Place { line: 2, column: 3 })"),
    ("! 'a", "BadByte(Place { line: 1, column: 1 })"),
    ("%1", "BadByte(Place { line: 1, column: 1 })"),
    ("$_", "BadByte(Place { line: 1, column: 1 })"),
    ("/*/", "UnclosedComment(Place { line: 1, column: 1 })"),
    ("a\n/* *", "UnclosedComment(Place { line: 2, column: 1 })"),
    ("'a\n'", "UnclosedQuote(Place { line: 1, column: 1 })"),
    ("\"", "UnclosedQuote(Place { line: 1, column: 1 })"),
    (
        "a23456789_123456789_123456789_123456789_123456789_123456789_123",
        " Name:0-63",
    ),
    (
        "1.3456789012345678901234567890123456789012345678901234567890123.",
        " Number:0-63 Symbol(46):63-64",
    ),
];

#[test]
fn texts_have_their_tokens_or_their_first_fault(rt: HostRuntime) -> Result<(), Fail> {
    for (text, want) in ROWS {
        let got = outcome(rt.alloc(), text)?;
        assert_eq!(rt; got.as_str(), want, "at {text}");
    }
    Ok(())
}
