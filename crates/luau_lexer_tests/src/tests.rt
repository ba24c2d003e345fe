use byte_text::{Interner, StrId};
use luau_lexer::{LexErr, lex, longest_symbol, one_reading, one_token_list};
use std::alloc::{AllocError, Global};
use std::test::Fail;
use syntax_tree::{Token, TokenKind};
use whole_num::Whole;

// The text that a token's kind has a number of.
fn text_id(kind: TokenKind) -> Option<StrId> {
    match kind {
        TokenKind::Name(id)
        | TokenKind::Str(id)
        | TokenKind::InterpBegin(id)
        | TokenKind::InterpMid(id)
        | TokenKind::InterpEnd(id)
        | TokenKind::InterpWhole(id) => Some(id),
        _ => None,
    }
}

fn word(kind: TokenKind) -> &'static str {
    match kind {
        TokenKind::And => "and",
        TokenKind::Break => "break",
        TokenKind::Do => "do",
        TokenKind::Else => "else",
        TokenKind::ElseIf => "elseif",
        TokenKind::End => "end",
        TokenKind::False => "false",
        TokenKind::For => "for",
        TokenKind::Function => "function",
        TokenKind::If => "if",
        TokenKind::In => "in",
        TokenKind::Local => "local",
        TokenKind::Nil => "nil",
        TokenKind::Not => "not",
        TokenKind::Or => "or",
        TokenKind::Repeat => "repeat",
        TokenKind::Return => "return",
        TokenKind::Then => "then",
        TokenKind::True => "true",
        TokenKind::Until => "until",
        TokenKind::While => "while",
        TokenKind::Name(_) => "Name",
        TokenKind::Number(_) => "Number",
        TokenKind::Str(_) => "Str",
        TokenKind::InterpBegin(_) => "Begin",
        TokenKind::InterpMid(_) => "Mid",
        TokenKind::InterpEnd(_) => "End",
        TokenKind::InterpWhole(_) => "Whole",
        _ => symbol(kind),
    }
}

fn symbol(kind: TokenKind) -> &'static str {
    match kind {
        TokenKind::Plus => "+",
        TokenKind::Minus => "-",
        TokenKind::Star => "*",
        TokenKind::Slash => "/",
        TokenKind::DoubleSlash => "//",
        TokenKind::Percent => "%",
        TokenKind::Caret => "^",
        TokenKind::Hash => "#",
        TokenKind::EqualEqual => "==",
        TokenKind::NotEqual => "~=",
        TokenKind::LessEqual => "<=",
        TokenKind::GreaterEqual => ">=",
        TokenKind::Less => "<",
        TokenKind::Greater => ">",
        TokenKind::Equal => "=",
        TokenKind::OpenParen => "(",
        TokenKind::CloseParen => ")",
        TokenKind::OpenBrace => "{",
        TokenKind::CloseBrace => "}",
        TokenKind::OpenBracket => "[",
        TokenKind::CloseBracket => "]",
        TokenKind::Semicolon => ";",
        TokenKind::Colon => ":",
        TokenKind::DoubleColon => "::",
        TokenKind::Comma => ",",
        TokenKind::Dot => ".",
        TokenKind::DoubleDot => "..",
        TokenKind::TripleDot => "...",
        TokenKind::PlusEqual => "+=",
        TokenKind::MinusEqual => "-=",
        TokenKind::StarEqual => "*=",
        TokenKind::SlashEqual => "/=",
        TokenKind::DoubleSlashEqual => "//=",
        TokenKind::PercentEqual => "%=",
        TokenKind::CaretEqual => "^=",
        TokenKind::DoubleDotEqual => "..=",
        TokenKind::Arrow => "->",
        TokenKind::Pipe => "|",
        TokenKind::Ampersand => "&",
        TokenKind::Question => "?",
        _ => "other",
    }
}

fn number(kind: TokenKind) -> Option<Whole> {
    match kind {
        TokenKind::Number(n) => Some(n),
        _ => None,
    }
}

// Adds a token as a text: its word, what it says, its first byte, the byte behind it, and its two lines.
fn show(
    alloc: Global,
    token: Token,
    names: &Interner,
    out: &mut Vec<u8>,
) -> Result<(), AllocError> {
    out.extend_from_slice(word(token.kind).as_bytes())?;
    if let Some(n) = number(token.kind) {
        let text = format!(in alloc; " {}", n.get())?;
        out.extend_from_slice(text.as_bytes())?;
    }
    if let Some(id) = text_id(token.kind) {
        if id.0 < names.count() {
            out.extend_from_slice(b" ")?;
            out.extend_from_slice(names.bytes(id))?;
        }
    }
    let place = format!(in alloc;
        " {}-{} {}-{};",
        token.at, token.end, token.line, token.last
    )?;
    out.extend_from_slice(place.as_bytes())
}

#[test]
fn tokens(rt: HostRuntime) -> Result<(), Fail> {
    for (source, wanted) in &[
        (b"".as_slice(), b"".as_slice()),
        (b" \t\r\x0b\x0c\n", b""),
        (
            b"and break do else elseif end false for function if in",
            b"and 0-3 1-1;break 4-9 1-1;do 10-12 1-1;else 13-17 1-1;elseif 18-24 1-1;end 25-28 1-1;false 29-34 1-1;for 35-38 1-1;function 39-47 1-1;if 48-50 1-1;in 51-53 1-1;",
        ),
        (
            b"local nil not or repeat return then true until while",
            b"local 0-5 1-1;nil 6-9 1-1;not 10-13 1-1;or 14-16 1-1;repeat 17-23 1-1;return 24-30 1-1;then 31-35 1-1;true 36-40 1-1;until 41-46 1-1;while 47-52 1-1;",
        ),
        (
            b"continue type export typeof _a1 ands",
            b"Name continue 0-8 1-1;Name type 9-13 1-1;Name export 14-20 1-1;Name typeof 21-27 1-1;Name _a1 28-31 1-1;Name ands 32-36 1-1;",
        ),
        (
            b"+ - * / // % ^ # == ~= <= >= < > = ( ) { } [ ] ; : ::",
            b"+ 0-1 1-1;- 2-3 1-1;* 4-5 1-1;/ 6-7 1-1;// 8-10 1-1;% 11-12 1-1;^ 13-14 1-1;# 15-16 1-1;== 17-19 1-1;~= 20-22 1-1;<= 23-25 1-1;>= 26-28 1-1;< 29-30 1-1;> 31-32 1-1;= 33-34 1-1;( 35-36 1-1;) 37-38 1-1;{ 39-40 1-1;} 41-42 1-1;[ 43-44 1-1;] 45-46 1-1;; 47-48 1-1;: 49-50 1-1;:: 51-53 1-1;",
        ),
        (
            b", . .. ... += -= *= /= //= %= ^= ..= -> | & ?",
            b", 0-1 1-1;. 2-3 1-1;.. 4-6 1-1;... 7-10 1-1;+= 11-13 1-1;-= 14-16 1-1;*= 17-19 1-1;/= 20-22 1-1;//= 23-26 1-1;%= 27-29 1-1;^= 30-32 1-1;..= 33-36 1-1;-> 37-39 1-1;| 40-41 1-1;& 42-43 1-1;? 44-45 1-1;",
        ),
        (
            b"....a:::b===//==}",
            b"... 0-3 1-1;. 3-4 1-1;Name a 4-5 1-1;:: 5-7 1-1;: 7-8 1-1;Name b 8-9 1-1;== 9-11 1-1;= 11-12 1-1;//= 12-15 1-1;= 15-16 1-1;} 16-17 1-1;",
        ),
        (
            b"a--b\nc --[[ \n]=] ]]d--[=[ ]] ]==] \n\n ]=]e --[==\nf--",
            b"Name a 0-1 1-1;Name c 5-6 2-2;Name d 19-20 3-3;Name e 40-41 5-5;Name f 48-49 6-6;",
        ),
        (
            b"0 007 1_0_0 0x_fF 0XaB 0b101 0B1 .5e1 5. 5.0 1e3 12.50e+2 1500E-2",
            b"Number 0 0-1 1-1;Number 7 2-5 1-1;Number 100 6-11 1-1;Number 255 12-17 1-1;Number 171 18-22 1-1;Number 5 23-28 1-1;Number 1 29-32 1-1;Number 5 33-37 1-1;Number 5 38-40 1-1;Number 5 41-44 1-1;Number 1000 45-48 1-1;Number 1250 49-57 1-1;Number 15 58-65 1-1;",
        ),
        (
            b"9007199254740992 -1 a .1e1",
            b"Number 9007199254740992 0-16 1-1;- 17-18 1-1;Number 1 18-19 1-1;Name a 20-21 1-1;Number 1 22-26 1-1;",
        ),
        (
            b"'a\"b' \"a'b\" '' \"\"",
            b"Str a\"b 0-5 1-1;Str a'b 6-11 1-1;Str  12-14 1-1;Str  15-17 1-1;",
        ),
        (
            b"'\\a\\b\\f\\n\\r\\t\\v\\\\\\\"\\'\\q'",
            b"Str \x07\x08\x0c\n\r\t\x0b\\\"'q 0-24 1-1;",
        ),
        (
            b"'a\\\nb\\\r\nc\\\rd' x",
            b"Str a\nb\nc\rd 0-13 1-3;Name x 14-15 3-3;",
        ),
        (
            b"'a\\z \t\r\n\n b\\zc' x",
            b"Str abc 0-15 1-3;Name x 16-17 3-3;",
        ),
        (
            b"'\\x41\\xfF\\65\\065\\0651\\255\\0'",
            b"Str A\xffAAA1\xff\x00 0-28 1-1;",
        ),
        (
            b"'\\u{41}\\u{00000041}\\u{e9}\\u{20AC}\\u{D800}\\u{10FFFF}'",
            b"Str AA\xc3\xa9\xe2\x82\xac\xed\xa0\x80\xf4\x8f\xbf\xbf 0-52 1-1;",
        ),
        (
            b"[[a]]b[=[]]]=][==[\n]=]]==]",
            b"Str a 0-5 1-1;Name b 5-6 1-1;Str ]] 6-14 1-1;Str ]=] 14-26 1-2;",
        ),
        (
            b"[[\r\na\r\nb\rc\n\\n]]d [[\n\n]]",
            b"Str a\nb\rc\n\\n 0-15 1-4;Name d 15-16 4-4;Str \n 17-23 4-6;",
        ),
        (
            b"[a[1]] [=x",
            b"[ 0-1 1-1;Name a 1-2 1-1;[ 2-3 1-1;Number 1 3-4 1-1;] 4-5 1-1;] 5-6 1-1;[ 7-8 1-1;= 8-9 1-1;Name x 9-10 1-1;",
        ),
        (
            b"`a` `` `\\{\\`\\u{41}}'\\\n`",
            b"Whole a 0-3 1-1;Whole  4-6 1-1;Whole {`A}'\n 7-23 1-2;",
        ),
        (
            b"`a{b}c{d}e`",
            b"Begin a 0-3 1-1;Name b 3-4 1-1;Mid c 4-7 1-1;Name d 7-8 1-1;End e 8-11 1-1;",
        ),
        (
            b"`{ {x={}} -- }\n}`}",
            b"Begin  0-2 1-1;{ 3-4 1-1;Name x 4-5 1-1;= 5-6 1-1;{ 6-7 1-1;} 7-8 1-1;} 8-9 1-1;End  15-17 2-2;} 17-18 2-2;",
        ),
        (
            b"`1{`2{3}4`}5` {`{a",
            b"Begin 1 0-3 1-1;Begin 2 3-6 1-1;Number 3 6-7 1-1;End 4 7-10 1-1;End 5 10-13 1-1;{ 14-15 1-1;Begin  15-17 1-1;Name a 17-18 1-1;",
        ),
    ] {
        let mut names = Interner::new(rt.alloc());
        match lex(rt.alloc(), source, &mut names) {
            Ok(tokens) => {
                let mut text = Vec::new(rt.alloc());
                for token in tokens.as_slice() {
                    show(rt.alloc(), *token, &names, &mut text)?;
                }
                assert_eq!(rt; text.as_slice(), *wanted, "at {source:?}");
            }
            Err(e) => assert!(rt; false, "{e:?} at {source:?}"),
        }
    }
    Ok(())
}

#[test]
fn faults(rt: HostRuntime) -> Result<(), Fail> {
    for (source, wanted) in &[
        (b"a ! b".as_slice(), LexErr::BadByte { at: 2 }),
        (b"~ =", LexErr::BadByte { at: 0 }),
        (b"\x80", LexErr::BadByte { at: 0 }),
        (b"x = 'a\nb'", LexErr::UnfinishedString { at: 4 }),
        (b" \"a'", LexErr::UnfinishedString { at: 1 }),
        (b"'\\", LexErr::UnfinishedString { at: 0 }),
        (b"'\\xZZ \\x", LexErr::UnfinishedString { at: 0 }),
        (b"a [==[ ]=]", LexErr::UnfinishedString { at: 2 }),
        (b"`a{b}c\n`", LexErr::UnfinishedString { at: 4 }),
        (b" `a", LexErr::UnfinishedString { at: 1 }),
        (b"'a\\xZZ'", LexErr::BadEscape { at: 2 }),
        (b"'\\x4'", LexErr::BadEscape { at: 1 }),
        (b"'\\256\\300'", LexErr::BadEscape { at: 1 }),
        (b"'\\u41'", LexErr::BadEscape { at: 1 }),
        (b"'\\u{}'", LexErr::BadEscape { at: 1 }),
        (b"'\\u{000000041}'", LexErr::BadEscape { at: 1 }),
        (b"'\\u{110000}'", LexErr::BadEscape { at: 1 }),
        (b"`a\\x{{`", LexErr::BadEscape { at: 2 }),
        (b"a --[=[ ]]", LexErr::UnfinishedComment { at: 2 }),
        (b"1..2", LexErr::BadNumber { at: 0 }),
        (b"a 0x", LexErr::BadNumber { at: 2 }),
        (b"1e", LexErr::BadNumber { at: 0 }),
        (b"3a !", LexErr::BadNumber { at: 0 }),
        (b"0b12", LexErr::BadNumber { at: 0 }),
        (b" 1.5", LexErr::NotWholeLiteral { at: 1 }),
        (b"15e-2", LexErr::NotWholeLiteral { at: 0 }),
        (b"9007199254740993", LexErr::LiteralRange { at: 0 }),
        (b"0x20000000000001", LexErr::LiteralRange { at: 0 }),
        (b"`a{{b}}`", LexErr::DoubleBrace { at: 2 }),
        (b"`a{b}c{{`", LexErr::DoubleBrace { at: 6 }),
    ] {
        let mut names = Interner::new(rt.alloc());
        match lex(rt.alloc(), source, &mut names) {
            Ok(_) => assert!(rt; false, "tokens at {source:?}"),
            Err(e) => assert_eq!(rt; e, *wanted, "at {source:?}"),
        }
    }
    Ok(())
}

#[test]
fn laws(rt: HostRuntime) -> Result<(), Fail> {
    one_reading();
    one_token_list();
    longest_symbol();
    Ok(())
}
