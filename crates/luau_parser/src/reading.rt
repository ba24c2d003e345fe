//! A whole script, by the rules that read their own nested parts.

ghost use Rattle.expression_parser.specs.Reading.{Asked, FindsWanted};
ghost use Rattle.std.specs.Prelude.{◌<◌, ◌^◌};

use crate::rules::Rules;
use expression_parser::{Fault, Found, Grammar, Wanted};
use std::alloc::Global;
use syntax_tree::Token;

/// What is wanted at a place, where so many nodes may nest in it.
pub(crate) fn nested(
    alloc: Global,
    tokens: &[Token],
    at: usize,
    wanted: Wanted,
    room: usize,
) -> Result<Found, Fault>
    requires small { room < 2 ^ 32 }
    requires asked { Asked tokens.now wanted at }
    ensures { FindsWanted tokens.now room wanted at result }
{
    let grammar = Grammar {
        alloc,
        tokens,
        room,
        nested,
    };
    let rules = Rules { grammar };
    match wanted {
        Wanted::Level(level) => Ok(Found::Part(grammar.level(at, level)?)),
        Wanted::Unary => Ok(Found::Part(grammar.unary(at)?)),
        Wanted::Table => Ok(Found::Part(grammar.table(at)?)),
        Wanted::List => Ok(Found::Parts(grammar.list(at)?)),
        Wanted::Block => Ok(Found::Block(rules.block(at)?)),
    }
}
