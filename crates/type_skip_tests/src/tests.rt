//! Where types end in some token lists, and which token is refused.

use byte_text::StrId;
use std::alloc::{AllocError, Global};
use std::test::Fail;
use syntax_tree::{Token, TokenKind};
use type_skip::{TypeErr, skip_type, type_end};

// Token lists, a byte for each token, from whose first place a type is passed. `n` is a name, `t` the name `typeof`, `s` a
// string, `~` a `...`, `-` a `->`, and a backquote, `'`, `"` and `!` are the pieces of interpolated strings.
static TABLE: [(&[u8], &str); 62] = [
    // Words.
    (b"N", "1"),
    (b"1,", "1"),
    (b"0)", "1"),
    (b"s", "1"),
    // Names.
    (b"n", "1"),
    (b"n.n", "3"),
    (b"n.n.n", "3"),
    (b"nn", "1"),
    (b"n<>", "3"),
    (b"n<n,n>=", "6"),
    (b"n.n<n<n>>~", "10"),
    (b"n~", "2"),
    (b"n<n:n>", "6"),
    (b"n(", "1"),
    // `->` behind a name is none of the type's.
    (b"n-n", "1"),
    // `?`, bars and `...`.
    (b"n??", "3"),
    (b"|n|n&n", "6"),
    (b"&n?", "3"),
    (b"~n", "2"),
    (b"~~n?|n", "6"),
    (b"n?~", "2"),
    // `typeof`.
    (b"t", "1"),
    (b"t.n", "3"),
    (b"t()", "3"),
    (b"t(n<n+n>=1)?", "12"),
    (b"t([{()}])", "9"),
    (b"t(`n'n\")", "8"),
    (b"t(`(`\")\"!)|n", "12"),
    // Tables.
    (b"{}", "2"),
    (b"{n}", "3"),
    (b"{n:n,n:n;}", "10"),
    (b"{[n]:n}", "7"),
    (b"{[n]:n;n:n,}?", "13"),
    (b"{n,n}", "5"),
    // Functions.
    (b"()", "2"),
    (b"()-n", "4"),
    (b"()-()-n|n", "9"),
    (b"(n:n,~n)-()", "11"),
    (b"(n)?", "4"),
    (b"<n,n~>(n)-n", "11"),
    (b"<n=n,n~=~n>()", "13"),
    // Tokens that no type goes on with.
    (b"", "Unexpected 0"),
    (b"+", "Unexpected 0"),
    (b"|", "Unexpected 1"),
    (b"||n", "Unexpected 1"),
    (b"n|", "Unexpected 2"),
    (b"n.1", "Unexpected 2"),
    (b"n<n", "Unexpected 3"),
    (b"n<n]", "Unexpected 3"),
    (b"n<n,>", "Unexpected 4"),
    (b"(n", "Unexpected 2"),
    (b"(n:n:", "Unexpected 4"),
    (b"(,)", "Unexpected 1"),
    (b"()-", "Unexpected 3"),
    (b"{n;;}", "Unexpected 3"),
    (b"{[n:n}", "Unexpected 3"),
    (b"{[n]n}", "Unexpected 4"),
    (b"<>()", "Unexpected 1"),
    (b"<n>n", "Unexpected 3"),
    (b"<n.n>()", "Unexpected 2"),
    (b"t(]", "Unexpected 2"),
    (b"t(`)", "Unexpected 3"),
];

fn kind_of(byte: u8) -> TokenKind {
    match byte {
        b'n' => TokenKind::Name(StrId(9)),
        b't' => TokenKind::Name(StrId::TYPEOF),
        b's' => TokenKind::Str(StrId(9)),
        b'`' => TokenKind::InterpBegin(StrId(9)),
        b'\'' => TokenKind::InterpMid(StrId(9)),
        b'"' => TokenKind::InterpEnd(StrId(9)),
        b'!' => TokenKind::InterpWhole(StrId(9)),
        b'N' => TokenKind::Nil,
        b'1' => TokenKind::True,
        b'0' => TokenKind::False,
        _ => symbol_of(byte),
    }
}

fn symbol_of(byte: u8) -> TokenKind {
    match byte {
        b'~' => TokenKind::TripleDot,
        b'-' => TokenKind::Arrow,
        b'.' => TokenKind::Dot,
        b'?' => TokenKind::Question,
        b'|' => TokenKind::Pipe,
        b'&' => TokenKind::Ampersand,
        b',' => TokenKind::Comma,
        b';' => TokenKind::Semicolon,
        b':' => TokenKind::Colon,
        b'=' => TokenKind::Equal,
        b'<' => TokenKind::Less,
        b'>' => TokenKind::Greater,
        b'(' => TokenKind::OpenParen,
        b')' => TokenKind::CloseParen,
        b'[' => TokenKind::OpenBracket,
        b']' => TokenKind::CloseBracket,
        b'{' => TokenKind::OpenBrace,
        b'}' => TokenKind::CloseBrace,
        _ => TokenKind::Plus,
    }
}

// Tokens of one byte each.
fn tokens_of(alloc: Global, text: &[u8]) -> Result<Vec<Token>, AllocError> {
    let mut tokens = Vec::new(alloc);
    for (at, &byte) in text.iter().enumerate() {
        tokens.push(Token {
            kind: kind_of(byte),
            at,
            end: at + 1,
            line: 1,
            last: 1,
        })?;
    }
    Ok(tokens)
}

fn answer(alloc: Global, text: &[u8]) -> Result<String, AllocError> {
    let tokens = tokens_of(alloc, text)?;
    match skip_type(&tokens, 0) {
        Ok(end) => format!(in alloc; "{end}"),
        Err(TypeErr::Unexpected { at }) => format!(in alloc; "Unexpected {at}"),
        Err(TypeErr::TooDeep { at }) => format!(in alloc; "TooDeep {at}"),
    }
}

// A name between so many of the one piece and as many of the other.
fn nested(alloc: Global, open: &[u8], close: &[u8], count: usize) -> Result<Vec<u8>, AllocError> {
    let mut text = Vec::new(alloc);
    for _ in 0..count {
        text.extend_from_slice(open)?;
    }
    text.push(b'n')?;
    for _ in 0..count {
        text.extend_from_slice(close)?;
    }
    Ok(text)
}

#[test]
fn types_and_refusals(rt: HostRuntime) -> Result<(), Fail> {
    for (text, expected) in &TABLE {
        let found = answer(rt.alloc(), text)?;
        assert_eq!(rt; found.as_str(), *expected);
    }
    Ok(())
}

// The opening and the closing piece, how often they stand around a name, and the answer.
static DEPTHS: [(&[u8], &[u8], usize, &str); 12] = [
    (b"(", b")", 200, "401"),
    (b"(", b")", 201, "TooDeep 200"),
    (b"(", b"", 100000, "TooDeep 200"),
    (b"{[", b"]:n}", 100, "601"),
    (b"{[", b"]:n}", 101, "TooDeep 200"),
    (b"n<", b">", 201, "TooDeep 401"),
    (b"<n=", b">()", 201, "TooDeep 600"),
    (b"t(", b")", 200, "601"),
    (b"t(", b")", 201, "TooDeep 401"),
    (b"()-", b"n", 100000, "300001"),
    (b"~", b"n", 100000, "100001"),
    (b"n?|", b"n", 100000, "300001"),
];

#[test]
fn open_brackets(rt: HostRuntime) -> Result<(), Fail> {
    for (open, close, count, expected) in &DEPTHS {
        let text = nested(rt.alloc(), open, close, *count)?;
        let found = answer(rt.alloc(), &text)?;
        assert_eq!(rt; found.as_str(), *expected);
    }
    Ok(())
}

#[test]
fn from_other_places(rt: HostRuntime) -> Result<(), Fail> {
    let tokens = tokens_of(rt.alloc(), b"n:n?=n")?;
    assert!(rt; skip_type(&tokens, 2) == Ok(4));
    assert!(rt; skip_type(&tokens, 5) == Ok(6));
    assert!(rt; matches!(type_end(&tokens, 2, 0), Ok(4)));
    assert!(rt; skip_type(&tokens, 6) == Err(TypeErr::Unexpected { at: 6 }));
    assert!(rt; skip_type(&tokens, 900) == Err(TypeErr::Unexpected { at: 6 }));
    Ok(())
}
