//! What stands at the places of a token list.

use byte_text::StrId;
use parse_steps::{
    Arguments, Beginning, Level, Opening, Rank, Suffix, arguments_at, beginning_at,
    calls_are_asked, calls_can_open, compound_at, depth_is_counted, end_at, middle_at, name_at,
    next_level, opening_at, operator_at, runs_are_shallow, runs_have_one_end, suffix_at, trees_run,
    unary_at,
};
use std::test::Fail;
use syntax_tree::{BinOp, Token, TokenKind, UnOp};
use type_skip::{Word, kind_at, stands};

fn token(kind: TokenKind) -> Token {
    Token {
        kind,
        at: 0,
        end: 1,
        line: 1,
        last: 1,
    }
}

#[test]
fn words_and_names(rt: HostRuntime) -> Result<(), Fail> {
    let tokens = [
        token(TokenKind::While),
        token(TokenKind::Name(StrId(7))),
        token(TokenKind::InterpMid(StrId(8))),
        token(TokenKind::InterpEnd(StrId(9))),
    ];
    assert!(rt; !stands(&tokens, 0, Word::Do));
    assert!(rt; matches!(kind_at(&tokens, 0), Some(TokenKind::While)));
    assert!(rt; kind_at(&tokens, 4).is_none());
    assert!(rt; name_at(&tokens, 1) == Some(StrId(7)));
    assert!(rt; middle_at(&tokens, 2) == Some(StrId(8)));
    assert!(rt; end_at(&tokens, 3) == Some(StrId(9)));
    assert!(rt; matches!(opening_at(&tokens, 0), Opening::While));
    assert!(rt; matches!(opening_at(&tokens, 4), Opening::Ends));
    Ok(())
}

#[test]
fn operators(rt: HostRuntime) -> Result<(), Fail> {
    let tokens = [
        token(TokenKind::Minus),
        token(TokenKind::DoubleDotEqual),
        token(TokenKind::DoubleDot),
    ];
    assert!(rt; unary_at(&tokens, 0) == Some(UnOp::Minus));
    assert!(rt; operator_at(&tokens, 0, Rank::Sums) == Some(BinOp::Sub));
    assert!(rt; operator_at(&tokens, 0, Rank::Products).is_none());
    assert!(rt; compound_at(&tokens, 1) == Some(BinOp::Concat));
    assert!(rt; stands(&tokens, 2, Word::DoubleDot));
    assert!(rt; next_level(Rank::Comparisons) == Level::Runs);
    Ok(())
}

#[test]
fn beginnings(rt: HostRuntime) -> Result<(), Fail> {
    let tokens = [
        token(TokenKind::OpenBrace),
        token(TokenKind::Str(StrId(7))),
        token(TokenKind::InterpWhole(StrId(8))),
    ];
    assert!(rt; matches!(beginning_at(&tokens, 0), Beginning::Table));
    assert!(rt; matches!(beginning_at(&tokens, 1), Beginning::Leaf));
    assert!(rt; matches!(beginning_at(&tokens, 2), Beginning::Whole));
    assert!(rt; matches!(suffix_at(&tokens, 1), Suffix::Call));
    assert!(rt; matches!(arguments_at(&tokens, 0), Arguments::Table));
    Ok(())
}

#[test]
fn laws(rt: HostRuntime) -> Result<(), Fail> {
    trees_run();
    calls_are_asked();
    calls_can_open();
    runs_are_shallow();
    depth_is_counted();
    runs_have_one_end();
    Ok(())
}
