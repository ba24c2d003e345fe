//! From a text to its tree, or to its refusal.

ghost use Rattle.std.specs.Prelude.{◌≡◌, IfOk, Some};
ghost use Rattle.syntax_tree.specs.declared.fault.Refusal.{Refusal};
ghost use Rattle.luau_cli.specs.declared.script.Reading.TheVariants as reading;
ghost use Rattle.luau_cli.specs.Readings.{IsReadingOf};

use byte_text::Interner;
use luau_lexer::lex;
use luau_parser::parse;
use resource::OutOfMemory;
use scopes::resolve;
use std::alloc::Global;
use syntax_tree::{Bindings, Refusal, Tree};

/// An accepted script: its tree, the bindings of the tree, and the texts of its names and strings.
#[derive(Drop)]
pub struct Script {
    pub tree: Tree,
    pub bindings: Bindings,
    pub names: Interner,
}

/// What a text is found to be.
#[derive(Drop)]
pub enum Reading {
    Accepted(Script),
    Refused(Refusal),
}

/// Reads a whole text: its tokens, their tree, and the rules of scopes and sizes.
///
/// The only error is want of memory.
pub fn read_script(alloc: Global, source: &[u8]) -> Result<Reading, OutOfMemory>
    ensures { IfOk result (IsReadingOf source.now) }
{
    let mut names = Interner::new(alloc);
    let tokens = match lex(alloc, source, &mut names) {
        Ok(tokens) => tokens,
        Err(error) => return refused(error.refusal()),
    };
    let tree = match parse(alloc, tokens.as_slice(), &mut names) {
        Ok(tree) => tree,
        Err(error) => return refused(error.refusal()),
    };
    match resolve(alloc, &tree) {
        Ok(bindings) => Ok(Reading::Accepted(Script {
            tree,
            bindings,
            names,
        })),
        Err(error) => refused(error.refusal()),
    }
}

// A refusal, unless memory ran out.
fn refused(refusal: Option<Refusal>) -> Result<Reading, OutOfMemory>
    ensures { IfOk result (λ r. (why : Refusal) × (refusal ≡ Some why) × (r ≡ reading.Refused why)) }
{
    match refusal {
        Some(refusal) => Ok(Reading::Refused(refusal)),
        None => Err(OutOfMemory),
    }
}
