//! The tokens of a script, with their places, or its first fault.
//!
//! The rules stand in `docs/LANGUAGE.md`, under 'Tokens'. The definitions of `syntax_tree` state them on whole
//! texts.
#![tactic(auto)]

mod bytes;
mod error;
mod gaps;
mod laws;
mod lexer;
mod plain;
mod strings;

ghost use Rattle.std.specs.Prelude.{◌≡◌, List, IfOk, IfErr};
ghost use Rattle.syntax_tree.specs.Spellings.{Spelled, Spells};
ghost use Rattle.syntax_tree.specs.Tokens.{AreTokens, texts_after};
ghost use Rattle.luau_lexer.specs.Refusals.{IsRefusal};
ghost use Rattle.luau_lexer.specs.Laws.{Keeps, Reading, HasReading, Answers};

use byte_text::Interner;
pub use error::LexErr;
pub use laws::{longest_symbol, one_reading, one_token_list};
use lexer::{Found, Lexer};
use std::alloc::Global;
use syntax_tree::Token;

/// The tokens of a text, in order. The interner notes the texts of names and strings.
///
/// The text need not be UTF-8. A refusal is the first fault of the text; after one the interner may have noted some of
/// the text's names and strings. How deep brackets and interpolated strings nest costs memory alone.
pub fn lex(alloc: Global, source: &[u8], names: &mut Interner) -> Result<Vec<Token>, LexErr>
    // The tokens are those that the text spells, and their texts those that the interner gives to the ids.
    // It has noted these texts in their order, and nothing else.
    ensures tokens { IfOk result (λ tokens.
        (spelled : List Spelled) × Spells source.now spelled × AreTokens names.new spelled tokens.items
        × (names.new ≡ texts_after names.old spelled)) }
    // A refusal is the text's fault.
    ensures fault { IfErr result (λ fault. IsRefusal source.now fault) }
    // Numbers that were given before keep their texts, after a refusal too.
    ensures kept { Keeps names.old names.new }
    // A text that spells tokens is answered by them, and one with a fault by that refusal, unless memory runs out.
    ensures only { (reading : Reading) → HasReading source.now reading → Answers names.new reading result }
{
    read_tokens(alloc, source, names)
}

// The tokens of a text. That they are all that it can be read as follows from `one_reading`.
fn read_tokens(alloc: Global, source: &[u8], names: &mut Interner) -> Result<Vec<Token>, LexErr>
    ensures tokens { IfOk result (λ tokens.
        (spelled : List Spelled) × Spells source.now spelled × AreTokens names.new spelled tokens.items
        × (names.new ≡ texts_after names.old spelled)) }
    ensures fault { IfErr result (λ fault. IsRefusal source.now fault) }
    ensures kept { Keeps names.old names.new }
{
    let mut lexer = Lexer::new(alloc, source);
    let mut tokens = Vec::new(alloc);
    loop {
        match lexer.next(names)? {
            Found::Passed => {}
            Found::Next(token) => {
                let kind = token.kind;
                tokens.push(Token { kind, ..token })?;
            }
            Found::Finished => return Ok(tokens),
        }
    }
}
