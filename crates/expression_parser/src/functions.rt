//! Functions, their names and parameters, and names with types.

ghost use Rattle.std.specs.Prelude.{◌≡◌, ◌<◌, ◌≤◌, ◌-◌, ◌^◌};
ghost use Rattle.syntax_tree.specs.Grammar.{IsBind};
ghost use Rattle.syntax_tree.specs.Places.{Has};
ghost use Rattle.syntax_tree.specs.declared.token.TokenKind.TheVariants.{Less};
ghost use Rattle.parse_steps.specs.Steps.{most};
ghost use Rattle.expression_parser.specs.Reading.{Nests, FindsBody, FindsGenerics, FindsBind, FindsBinds};
ghost use Rattle.expression_parser.specs.Inner.{FindsTyping, FindsGeneric, FindsParameters};

use crate::fault::Fault;
use crate::grammar::Grammar;
use crate::parts::{Bind, Binds, Found, Function, Parameters, Wanted};
use crate::types::type_at;
use crate::words::{expect, expect_name};
use byte_text::StrId;
use sqlite_items::Items;
use std::alloc::Global;
use syntax_tree::Token;
use type_skip::{Word, stands};

/// A `:` and a type, where a `:` stands.
fn typing(tokens: &[Token], at: usize) -> Result<usize, Fault>
    ensures { FindsTyping tokens.now at result }
{
    if stands(tokens, at, Word::Colon) {
        type_at(tokens, at + 1)
    } else {
        Ok(at)
    }
}

/// A name with a type or without.
pub fn bind(tokens: &[Token], at: usize) -> Result<Bind, Fault>
    ensures { FindsBind tokens.now at result }
{
    let name = expect_name(tokens, at)?;
    let end = typing(tokens, at + 1)?;
    Ok(Bind { name, end })
}

/// Further names behind a first one, which begins at a place, each with a comma before it.
pub fn binds(alloc: Global, tokens: &[Token], begin: usize, first: Bind) -> Result<Binds, Fault>
    requires bind { IsBind tokens.now most begin first.name first.end }
    ensures { FindsBinds tokens.now begin first.end result }
{
    let mut names = Items::new(alloc);
    let mut end = first.end;
    names.push(first.name)?;
    while stands(tokens, end, Word::Comma) {
        let next = bind(tokens, end + 1)?;
        end = next.end;
        names.push(next.name)?;
    }
    Ok(Binds { names, end })
}

/// The parameters of types, where a `<` stands.
pub fn generics(tokens: &[Token], at: usize) -> Result<usize, Fault>
    ensures { FindsGenerics tokens.now at result }
{
    if stands(tokens, at, Word::Less) {
        generic_list(tokens, at)
    } else {
        Ok(at)
    }
}

// From the `<` of parameters of types to behind their `>`.
fn generic_list(tokens: &[Token], at: usize) -> Result<usize, Fault>
    requires opens { Has tokens.now at Less }
    ensures { FindsGenerics tokens.now at result }
{
    let mut end = at + 1;
    loop {
        end = generic(tokens, end)?;
        if !stands(tokens, end, Word::Comma) {
            return expect(tokens, end, Word::Greater);
        }
        end += 1;
    }
}

// One parameter of types: a name, with dots or without, and with a default or without.
fn generic(tokens: &[Token], at: usize) -> Result<usize, Fault>
    ensures { FindsGeneric tokens.now at result }
{
    expect_name(tokens, at)?;
    let end = if stands(tokens, at + 1, Word::TripleDot) {
        at + 2
    } else {
        at + 1
    };
    if stands(tokens, end, Word::Equal) {
        type_at(tokens, end + 1)
    } else {
        Ok(end)
    }
}

/// Parameters up to their `)`, behind those that were added.
fn parameters(tokens: &[Token], at: usize, added: Items<StrId>) -> Result<Parameters, Fault>
    ensures { FindsParameters tokens.now at added result }
{
    let mut names = added;
    if stands(tokens, at, Word::CloseParen) {
        return Ok(Parameters {
            names,
            vararg: false,
            end: at + 1,
        });
    }
    let mut end = at;
    loop {
        if stands(tokens, end, Word::TripleDot) {
            let dots = typing(tokens, end + 1)?;
            let behind = expect(tokens, dots, Word::CloseParen)?;
            return Ok(Parameters {
                names,
                vararg: true,
                end: behind,
            });
        }
        let next = bind(tokens, end)?;
        names.push(next.name)?;
        end = next.end;
        if !stands(tokens, end, Word::Comma) {
            let behind = expect(tokens, end, Word::CloseParen)?;
            return Ok(Parameters {
                names,
                vararg: false,
                end: behind,
            });
        }
        end += 1;
    }
}

impl<'a, F: Fn(Global, &[Token], usize, Wanted, usize) -> Result<Found, Fault>> Grammar<'a, F> {
    /// A function behind its word and its name. Its parameters stand behind those that were added.
    pub fn body(&self, at: usize, added: Items<StrId>) -> Result<Function, Fault>
        requires nests { Nests self.now.room (F.pre self.now.nested) (F.post self.now.nested) }
        requires room { 0 < self.now.room }
        requires small { self.now.room < 2 ^ 32 }
        ensures { FindsBody self.now.tokens.now (self.now.room - 1) at added result }
    {
        let open = generics(self.tokens, at)?;
        let inside = expect(self.tokens, open, Word::OpenParen)?;
        let parameters = parameters(self.tokens, inside, added)?;
        let begin = typing(self.tokens, parameters.end)?;
        let block = self.inner_block(begin)?;
        let end = expect(self.tokens, block.end, Word::End)?;
        Ok(Function {
            params: parameters.names,
            vararg: parameters.vararg,
            stats: block.stats,
            nest: block.nest,
            end,
        })
    }
}
