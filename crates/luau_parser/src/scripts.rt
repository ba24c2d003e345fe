//! The tree of a script.

ghost use Rattle.std.specs.Prelude.{◌≡◌, ℕ, IfOk, IfErr, Ok, Err, unwrap_or};
ghost use Rattle.syntax_tree.specs.Calls.{Ambiguous};
ghost use Rattle.syntax_tree.specs.Proper.{IsProper};
ghost use Rattle.syntax_tree.specs.declared.tree.Tree.{Tree};
ghost use Rattle.syntax_tree.specs.Places.{offset_at, end_of};
ghost use Rattle.syntax_tree.specs.Parsed.{IsShallow, IsParsed};
ghost use Rattle.luau_parser.specs.Refusals.{IsRefusal, Answers};
ghost use Rattle.luau_parser.specs.Statements.{ReadsScript};
ghost use Rattle.luau_parser.specs.declared.error.ParseErr.TheVariants as refusal;

use crate::error::ParseErr;
use crate::reading::nested;
use byte_text::Interner;
use expression_parser::{Block, Fault, Found, Wanted};
use node_numbers::number;
use sqlite_items::Items;
use std::alloc::Global;
use syntax_tree::{FuncBody, MOST_NESTED, Token, Tree};

/// The tree of a script's tokens, with its nodes numbered.
///
/// The interner is that of the tokens' texts. It is left as it was: the words that the grammar knows by their names have the same
/// numbers in each.
pub fn parse(alloc: Global, tokens: &[Token], names: &mut Interner) -> Result<Tree, ParseErr>
    ensures names { names.new ≡ names.old }
    // The tree derives from the tokens, does not nest too deep, and no call is ambiguous.
    ensures tree { IfOk result (IsParsed tokens.now) }
    // Calls are calls, what is assigned to can be assigned to, and operators fit where they stand.
    ensures proper { IfOk result IsProper }
    // A refusal says what is wrong with the tokens, and where.
    ensures refusal { IfErr result (IsRefusal tokens.now) }
    // Tokens with such a tree are answered by it, unless memory runs out.
    ensures found { (tree : Tree) → IsParsed tokens.now tree → Answers (Ok tree) result }
    // Tokens with a tree that is not too deep, but with an ambiguous call, are refused there, unless memory runs out.
    ensures ambiguous { (tree : Tree) → IsShallow tokens.now tree → (at : ℕ) → Ambiguous tokens.now at → Answers (Err (refusal.AmbiguousCall at)) result }
{
    parse_tokens(alloc, tokens)
}

// The tree, or a refusal. That they answer each list of tokens follows.
fn parse_tokens(alloc: Global, tokens: &[Token]) -> Result<Tree, ParseErr>
    ensures tree { IfOk result (IsParsed tokens.now) }
    ensures refusal { IfErr result (IsRefusal tokens.now) }
{
    match read(alloc, tokens) {
        Ok(block) => {
            let main = FuncBody {
                id: 0,
                at: 0,
                line: 1,
                params: Items::new(alloc),
                vararg: true,
                body: block.stats,
            };
            match number(alloc, main) {
                Ok(tree) => Ok(tree),
                Err(_) => Err(ParseErr::OutOfMemory),
            }
        }
        Err(Fault::Unexpected(place)) => Err(ParseErr::Unexpected {
            at: offset_at(tokens, place),
        }),
        Err(Fault::TooDeep(place)) => Err(ParseErr::TooDeep {
            at: offset_at(tokens, place),
        }),
        Err(Fault::Late(place)) => Err(ParseErr::AmbiguousCall {
            at: offset_at(tokens, place),
        }),
        Err(Fault::OutOfMemory) => Err(ParseErr::OutOfMemory),
    }
}

// The block that is the whole script.
fn read(alloc: Global, tokens: &[Token]) -> Result<Block, Fault>
    ensures { ReadsScript tokens.now result }
{
    match nested(alloc, tokens, 0, Wanted::Block, MOST_NESTED)? {
        Found::Block(block) => {
            if block.end < tokens.len() {
                Err(Fault::Unexpected(block.end))
            } else {
                Ok(block)
            }
        }
        Found::Part(_) | Found::Parts(_) => unreachable!(),
    }
}

// The offset of a token, or of the end of all.
fn offset_at(tokens: &[Token], place: usize) -> usize
    ensures { result ≡ unwrap_or (offset_at tokens.now place) (end_of tokens.now) }
{
    match tokens.get(place) {
        Some(token) => token.at,
        None => match tokens.last() {
            Some(token) => token.end,
            None => 0,
        },
    }
}
