//! The fields of tables.

ghost use Rattle.std.specs.Prelude.{◌≡◌, ◌+◌, ◌<◌, ◌-◌, ◌^◌, IsFalse};
ghost use Rattle.syntax_tree.specs.Words.{opens_named};
ghost use Rattle.syntax_tree.specs.Places.{Lacks, Has};
ghost use Rattle.syntax_tree.specs.declared.token.TokenKind.TheVariants.{CloseBrace, OpenBracket, Equal, Name};
ghost use Rattle.expression_parser.specs.Reading.{Nests};
ghost use Rattle.expression_parser.specs.Inner.{FindsField, FindsFields};

use crate::fault::Fault;
use crate::grammar::Grammar;
use crate::nodes::{item_at, keyed_at, named_at, push_field};
use crate::parts::{FieldPart, Fields, Found, Wanted};
use crate::words::expect;
use byte_text::StrId;
use parse_steps::name_at;
use sqlite_items::Items;
use std::alloc::Global;
use syntax_tree::Token;
use type_skip::{Word, stands};

impl<'a, F: Fn(Global, &[Token], usize, Wanted, usize) -> Result<Found, Fault>> Grammar<'a, F> {
    /// The fields of a table, behind its `{` and up to its `}`.
    pub(crate) fn fields(&self, at: usize) -> Result<Fields, Fault>
        requires nests { Nests self.now.room (F.pre self.now.nested) (F.post self.now.nested) }
        requires room { 0 < self.now.room }
        requires small { self.now.room < 2 ^ 32 }
        ensures { FindsFields self.now.tokens.now (self.now.room - 1) at result }
    {
        let mut list = Items::new(self.alloc);
        let mut nest = 0;
        let mut end = at;
        loop {
            if stands(self.tokens, end, Word::CloseBrace) {
                return Ok(Fields {
                    list,
                    nest,
                    end: end + 1,
                });
            }
            let field = self.field(end)?;
            nest = nest.max(field.nest);
            end = field.end;
            push_field(&mut list, field.field)?;
            if stands(self.tokens, end, Word::Comma) || stands(self.tokens, end, Word::Semicolon) {
                end += 1;
            } else {
                let behind = expect(self.tokens, end, Word::CloseBrace)?;
                return Ok(Fields {
                    list,
                    nest,
                    end: behind,
                });
            }
        }
    }

    /// A field.
    fn field(&self, at: usize) -> Result<FieldPart, Fault>
        requires nests { Nests self.now.room (F.pre self.now.nested) (F.post self.now.nested) }
        requires room { 0 < self.now.room }
        requires small { self.now.room < 2 ^ 32 }
        requires more { Lacks self.now.tokens.now at CloseBrace }
        ensures { FindsField self.now.tokens.now (self.now.room - 1) at result }
    {
        if stands(self.tokens, at, Word::OpenBracket) {
            return self.keyed(at);
        }
        match name_at(self.tokens, at) {
            Some(name) if stands(self.tokens, at + 1, Word::Equal) => self.named_field(at, name),
            _ => self.item(at),
        }
    }

    /// A field that is an expression alone.
    fn item(&self, at: usize) -> Result<FieldPart, Fault>
        requires nests { Nests self.now.room (F.pre self.now.nested) (F.post self.now.nested) }
        requires room { 0 < self.now.room }
        requires small { self.now.room < 2 ^ 32 }
        requires more { Lacks self.now.tokens.now at CloseBrace }
        requires no_key { Lacks self.now.tokens.now at OpenBracket }
        requires no_name { IsFalse (opens_named self.now.tokens.now at) }
        ensures { FindsField self.now.tokens.now (self.now.room - 1) at result }
    {
        let part = self.inner_expr(at)?;
        let nest = part.nest;
        let end = part.end;
        let field = item_at(self.alloc, self.tokens, at, part.expr)?;
        Ok(FieldPart { field, nest, end })
    }

    /// A field with a name and a `=`.
    fn named_field(&self, at: usize, name: StrId) -> Result<FieldPart, Fault>
        requires nests { Nests self.now.room (F.pre self.now.nested) (F.post self.now.nested) }
        requires room { 0 < self.now.room }
        requires small { self.now.room < 2 ^ 32 }
        requires stands { Has self.now.tokens.now at (Name name) }
        requires equal { Has self.now.tokens.now (at + 1) Equal }
        ensures { FindsField self.now.tokens.now (self.now.room - 1) at result }
    {
        let part = self.inner_expr(at + 2)?;
        let nest = part.nest;
        let end = part.end;
        let field = named_at(self.alloc, self.tokens, at, name, part.expr)?;
        Ok(FieldPart { field, nest, end })
    }

    /// A field with a key in brackets.
    fn keyed(&self, at: usize) -> Result<FieldPart, Fault>
        requires nests { Nests self.now.room (F.pre self.now.nested) (F.post self.now.nested) }
        requires room { 0 < self.now.room }
        requires small { self.now.room < 2 ^ 32 }
        requires opens { Has self.now.tokens.now at OpenBracket }
        ensures { FindsField self.now.tokens.now (self.now.room - 1) at result }
    {
        let key = self.inner_expr(at + 1)?;
        let close = expect(self.tokens, key.end, Word::CloseBracket)?;
        let equal = expect(self.tokens, close, Word::Equal)?;
        let value = self.inner_expr(equal)?;
        let nest = key.nest.max(value.nest);
        let end = value.end;
        let field = keyed_at(self.alloc, self.tokens, at, key.expr, value.expr)?;
        Ok(FieldPart { field, nest, end })
    }
}
