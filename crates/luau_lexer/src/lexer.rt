//! Reads what stands in a text, one thing after another.

ghost use Rattle.std.specs.Prelude.{◌≡◌, ℕ, ◌+◌, ◌++◌, ◌∷◌, [], ◌≤◌, ◌<◌, ◌^◌, length, take, drop, List, IfOk, IfErr, OnOk, Some, slice_get};
ghost use Rattle.byte_text.specs.Texts.{noted};
ghost use Rattle.syntax_tree.specs.Bytes.{line_feeds};
ghost use Rattle.syntax_tree.specs.Spellings.{start, further, outer, ends_expression, form_of, braces_behind, begins_two_braces, comment_form, bracket_form};
ghost use Rattle.syntax_tree.specs.Gaps.{opening_level};
ghost use Rattle.luau_lexer.specs.declared.lexer.Found.TheVariants as found;
ghost use Rattle.luau_lexer.specs.Laws.{Keeps};
ghost use Rattle.luau_lexer.specs.Finding.{IsRoomFor, Finds, Refuses, IsClosed, RefusesString, OpensExpression, IsDoubleBrace};
ghost use Rattle.luau_lexer.specs.Parts.{ends_at};
ghost use Rattle.syntax_tree.specs.declared.form.Form.TheVariants as form;

use crate::LexErr;
use crate::bytes::{begins_with, is_blank, is_name_start};
use crate::gaps::{begins_comment, blanks_len, bracket_level, closing_place, line_len};
use crate::plain::{begins_number, name_len, number_len, reserved_word, symbol_at};
use crate::strings::{Body, End, long_text, read_body};
use byte_text::{Interner, StrId};
use resource::OutOfMemory;
use std::alloc::Global;
use std::marker::Model;
use syntax_tree::{Form, Opener, Token, TokenKind};
use whole_num::{Read, read_literal};

/// What was found at a place.
#[derive(Clone, Copy)]
pub(crate) enum Found {
    /// Blanks or a comment, which were passed.
    Passed,
    Next(Token),
    /// The text's end.
    Finished,
}

/// A text, and how far it was read. Clauses see the place.
#[derive(Drop)]
pub(crate) struct Lexer<'a> {
    alloc: Global,
    source: &'a [u8],
    at: usize,
    line: usize,
    braces: Vec<Opener>,
}

impl<'a> Model for Lexer<'a> {
    ghost use Rattle.std.specs.Prelude.{◌≤◌, ◌+◌, drop, length};
    ghost use Rattle.syntax_tree.specs.Spellings.{Place};

    ghost Value = { Place };

    ghost view = { λ l. record { bytes = drop l.at l.source.now; at = l.at; line = l.line; braces = l.braces.items } };

    ghost invariant = { λ l. (l.at ≤ length l.source.now) × (l.line ≤ l.at + 1) };
}

impl<'a> Lexer<'a> {
    /// A lexer at the beginning of a text.
    pub(crate) fn new(alloc: Global, source: &'a [u8]) -> Lexer<'a>
        ensures { result ≡ start source.now }
    {
        Lexer {
            alloc,
            source,
            at: 0,
            line: 1,
            braces: Vec::new(alloc),
        }
    }

    /// Reads what stands next.
    ///
    /// After a refusal the lexer may have passed some of it.
    pub(crate) fn next(&mut self, names: &mut Interner) -> Result<Found, LexErr>
        ensures found { IfOk result (λ found. Finds (form_of self.old.bytes self.old.braces) self.old self.new names.old names.new found) }
        ensures refused { IfErr result (λ fault. Refuses (form_of self.old.bytes self.old.braces) self.old fault) }
        ensures kept { Keeps names.old names.new }
    {
        match self.form() {
            Form::Finished => Ok(Found::Finished),
            Form::Blanks => Ok(self.blanks()),
            Form::LineComment => Ok(self.line_comment()),
            Form::LongComment(level) => self.long_comment(level),
            Form::Name => self.name(names),
            Form::Number => self.number(),
            Form::Quoted(quote) => self.quoted(quote, names),
            Form::LongString(level) => self.long_string(level, names),
            Form::FirstPiece => self.first_piece(names),
            Form::NextPiece => self.next_piece(names),
            Form::Symbol => self.symbol(),
        }
    }

    // The form of what stands next.
    fn form(&self) -> Form
        ensures value { result ≡ form_of self.now.bytes self.now.braces }
        ensures room { IsRoomFor result self.now.bytes }
    {
        let bytes = self.rest();
        match bytes.first() {
            None => Form::Finished,
            Some(&b) if is_blank(b) => Form::Blanks,
            Some(_) if begins_comment(bytes) => comment_form(&bytes[2..]),
            Some(&b) if is_name_start(b) => Form::Name,
            Some(_) if begins_number(bytes) => Form::Number,
            Some(&b) if b == b'"' || b == b'\'' => Form::Quoted(b),
            Some(&b'`') => Form::FirstPiece,
            Some(&b'[') => bracket_form(bytes),
            Some(&b'}') if self.ends_expression() => Form::NextPiece,
            Some(_) => Form::Symbol,
        }
    }

    // Whether a `}` would end an expression of an interpolated string.
    fn ends_expression(&self) -> bool
        ensures { result ≡ ends_expression self.now.braces }
    {
        matches!(self.braces.last(), Some(Opener::Piece))
    }

    // What is left of the text.
    fn rest(&self) -> &'a [u8]
        ensures value { result.now ≡ self.now.bytes }
        ensures fits { self.now.at + length self.now.bytes < 2 ^ 64 }
    {
        &self.source[self.at..]
    }

    // The offset of what is left.
    fn at(&self) -> usize
        ensures { result ≡ self.now.at }
    {
        self.at
    }

    // Passes some bytes, and counts the lines that end there.
    fn pass(&mut self, len: usize)
        requires { len ≤ length self.old.bytes }
        ensures { self.new ≡ further len self.old.braces self.old }
    {
        let (passed, _) = self.rest().split_at(len);
        self.line += passed.iter().filter(|&&b| b == b'\n').count();
        self.at += len;
    }

    // Takes a token of a kind, which is so many bytes long.
    fn take(&mut self, kind: TokenKind, len: usize) -> Found
        requires { len ≤ length self.old.bytes }
        ensures token { result ≡ found.Next (record {
          kind = kind;
          at = self.old.at;
          «end» = self.old.at + len;
          line = self.old.line;
          last = self.old.line + line_feeds (take len self.old.bytes);
        }) }
        ensures place { self.new ≡ further len self.old.braces self.old }
    {
        let at = self.at;
        let line = self.line;
        self.pass(len);
        Found::Next(Token {
            kind,
            at,
            end: self.at,
            line,
            last: self.line,
        })
    }

    // Notes that a brace was opened.
    fn open(&mut self, opener: Opener) -> Result<(), OutOfMemory>
        ensures { OnOk result (self.new ≡ record self.old { braces = self.old.braces ++ opener ∷ [] }) }
    {
        self.braces.push(opener)?;
        Ok(())
    }

    // Notes that the innermost brace was closed, if one is open.
    fn close(&mut self)
        ensures { self.new ≡ record self.old { braces = outer self.old.braces } }
    {
        self.braces.pop();
    }

    fn blanks(&mut self) -> Found
        requires { IsRoomFor form.Blanks self.old.bytes }
        ensures { (texts : List (List ℕ)) → Finds form.Blanks self.old self.new texts texts result }
    {
        let len = blanks_len(self.rest());
        self.pass(len);
        Found::Passed
    }

    fn line_comment(&mut self) -> Found
        requires { IsRoomFor form.LineComment self.old.bytes }
        ensures { (texts : List (List ℕ)) → Finds form.LineComment self.old self.new texts texts result }
    {
        let len = line_len(self.rest());
        self.pass(len);
        Found::Passed
    }

    fn long_comment(&mut self, level: usize) -> Result<Found, LexErr>
        requires { IsRoomFor (form.LongComment level) self.old.bytes }
        ensures found { IfOk result (λ found. (texts : List (List ℕ)) → Finds (form.LongComment level) self.old self.new texts texts found) }
        ensures refused { IfErr result (λ fault. Refuses (form.LongComment level) self.old fault) }
    {
        let bytes = self.rest();
        match closing_place(level, &bytes[2 + (level + 2)..]) {
            None => Err(LexErr::UnfinishedComment { at: self.at() }),
            Some(k) => {
                self.pass(2 + (level + 2) + k + (level + 2));
                Ok(Found::Passed)
            }
        }
    }

    fn name(&mut self, names: &mut Interner) -> Result<Found, LexErr>
        requires { IsRoomFor form.Name self.old.bytes }
        ensures found { IfOk result (λ found. Finds form.Name self.old self.new names.old names.new found) }
        ensures refused { IfErr result (λ fault. Refuses form.Name self.old fault) }
        ensures kept { Keeps names.old names.new }
    {
        let bytes = self.rest();
        let len = name_len(bytes);
        let (word, _) = bytes.split_at(len);
        let kind = match reserved_word(word) {
            Some(kind) => kind,
            None => TokenKind::Name(note(names, word)?),
        };
        Ok(self.take(kind, len))
    }

    fn number(&mut self) -> Result<Found, LexErr>
        requires { IsRoomFor form.Number self.old.bytes }
        ensures found { IfOk result (λ found. (texts : List (List ℕ)) → Finds form.Number self.old self.new texts texts found) }
        ensures refused { IfErr result (λ fault. Refuses form.Number self.old fault) }
    {
        let bytes = self.rest();
        let len = number_len(bytes);
        let (word, _) = bytes.split_at(len);
        match read_literal(word) {
            Read::Whole(n) => Ok(self.take(TokenKind::Number(n), len)),
            Read::NotWhole => Err(LexErr::NotWholeLiteral { at: self.at() }),
            Read::OutOfRange => Err(LexErr::LiteralRange { at: self.at() }),
            Read::NotNumber => Err(LexErr::BadNumber { at: self.at() }),
        }
    }

    fn symbol(&mut self) -> Result<Found, LexErr>
        ensures found { IfOk result (λ found. (texts : List (List ℕ)) → Finds form.Symbol self.old self.new texts texts found) }
        ensures refused { IfErr result (λ fault. Refuses form.Symbol self.old fault) }
    {
        let Some(symbol) = symbol_at(self.rest()) else {
            return Err(LexErr::BadByte { at: self.at() });
        };
        self.note_brace(symbol.kind)?;
        Ok(self.take(symbol.kind, symbol.len))
    }

    // Notes the brace that a symbol is, if it is one.
    fn note_brace(&mut self, kind: TokenKind) -> Result<(), OutOfMemory>
        ensures { OnOk result (self.new ≡ record self.old { braces = braces_behind kind self.old.braces }) }
    {
        match kind {
            TokenKind::OpenBrace => self.open(Opener::Brace)?,
            TokenKind::CloseBrace => self.close(),
            _ => {}
        }
        Ok(())
    }

    fn quoted(&mut self, quote: u8, names: &mut Interner) -> Result<Found, LexErr>
        requires { IsRoomFor (form.Quoted quote) self.old.bytes }
        ensures found { IfOk result (λ found. Finds (form.Quoted quote) self.old self.new names.old names.new found) }
        ensures refused { IfErr result (λ fault. Refuses (form.Quoted quote) self.old fault) }
        ensures kept { Keeps names.old names.new }
    {
        let body = self.body(End::Quote(quote))?;
        let id = note(names, body.text.as_slice())?;
        Ok(self.take(TokenKind::Str(id), body.len + 2))
    }

    fn long_string(&mut self, level: usize, names: &mut Interner) -> Result<Found, LexErr>
        requires { IsRoomFor (form.LongString level) self.old.bytes }
        ensures found { IfOk result (λ found. Finds (form.LongString level) self.old self.new names.old names.new found) }
        ensures refused { IfErr result (λ fault. Refuses (form.LongString level) self.old fault) }
        ensures kept { Keeps names.old names.new }
    {
        let (_, bytes) = self.rest().split_at(level + 2);
        match closing_place(level, bytes) {
            None => Err(LexErr::UnfinishedString { at: self.at() }),
            Some(k) => {
                let (inner, _) = bytes.split_at(k);
                let text = long_text(self.alloc, inner)?;
                let id = note(names, text.as_slice())?;
                Ok(self.take(TokenKind::Str(id), level + 2 + k + (level + 2)))
            }
        }
    }

    fn first_piece(&mut self, names: &mut Interner) -> Result<Found, LexErr>
        requires { IsRoomFor form.FirstPiece self.old.bytes }
        ensures found { IfOk result (λ found. Finds form.FirstPiece self.old self.new names.old names.new found) }
        ensures refused { IfErr result (λ fault. Refuses form.FirstPiece self.old fault) }
        ensures kept { Keeps names.old names.new }
    {
        let body = self.body(End::Piece)?;
        let opens = self.opens_expression(body.len)?;
        let id = note(names, body.text.as_slice())?;
        if opens {
            self.open(Opener::Piece)?;
            Ok(self.take(TokenKind::InterpBegin(id), body.len + 2))
        } else {
            Ok(self.take(TokenKind::InterpWhole(id), body.len + 2))
        }
    }

    fn next_piece(&mut self, names: &mut Interner) -> Result<Found, LexErr>
        requires { IsRoomFor form.NextPiece self.old.bytes }
        ensures found { IfOk result (λ found. Finds form.NextPiece self.old self.new names.old names.new found) }
        ensures refused { IfErr result (λ fault. Refuses form.NextPiece self.old fault) }
        ensures kept { Keeps names.old names.new }
    {
        let body = self.body(End::Piece)?;
        let opens = self.opens_expression(body.len)?;
        let id = note(names, body.text.as_slice())?;
        if opens {
            Ok(self.take(TokenKind::InterpMid(id), body.len + 2))
        } else {
            self.close();
            Ok(self.take(TokenKind::InterpEnd(id), body.len + 2))
        }
    }

    // The body of the string that begins with the next byte.
    fn body(&self, end: End) -> Result<Closed, LexErr>
        requires { 0 < length self.now.bytes }
        ensures closed { IfOk result (λ body. IsClosed (ends_at end) self.now body) }
        ensures fits { IfOk result (λ body. body.len + 2 < 2 ^ 64) }
        ensures refused { IfErr result (λ fault. RefusesString (ends_at end) self.now fault) }
    {
        let (_, bytes) = self.rest().split_at(1);
        match read_body(self.alloc, bytes, end)? {
            Body::Closed { text, len } => Ok(Closed { text, len }),
            Body::Unclosed => Err(LexErr::UnfinishedString { at: self.at() }),
            Body::Broken(offset) => Err(LexErr::BadEscape {
                at: self.at() + (1 + offset),
            }),
        }
    }

    // Whether a piece whose body is so long ends at the `{` of an expression.
    fn opens_expression(&self, len: usize) -> Result<bool, LexErr>
        requires { 1 + len < length self.now.bytes }
        ensures opens { IfOk result (λ opens. OpensExpression self.now len opens) }
        ensures refused { IfErr result (λ fault. IsDoubleBrace self.now len fault) }
    {
        let (_, end) = self.rest().split_at(1 + len);
        if begins_two_braces(end) {
            return Err(LexErr::DoubleBrace {
                at: self.at() + (1 + len),
            });
        }
        Ok(begins_with(end, b'{'))
    }
}

// The text of a string, and how many bytes spell it.
#[derive(Drop)]
struct Closed {
    text: Vec<u8>,
    len: usize,
}

// The number of a text.
fn note(names: &mut Interner, text: &[u8]) -> Result<StrId, OutOfMemory>
    ensures there { IfOk result (λ id. slice_get names.new id.0 ≡ Some text.now) }
    ensures grown { OnOk result (names.new ≡ noted names.old text.now) }
    ensures kept { Keeps names.old names.new }
{
    names.intern(text)
}

// Whether two `{` stand at the front.
fn begins_two_braces(bytes: &[u8]) -> bool
    ensures { result ≡ begins_two_braces bytes.now }
{
    match bytes.split_first() {
        Some((&b, rest)) => b == b'{' && begins_with(rest, b'{'),
        None => false,
    }
}

// The form of a comment, behind the two `-`.
fn comment_form(bytes: &[u8]) -> Form
    ensures { result ≡ comment_form (opening_level bytes.now) }
{
    match bracket_level(b'[', bytes) {
        Some(level) => Form::LongComment(level),
        None => Form::LineComment,
    }
}

// The form of what begins with `[`.
fn bracket_form(bytes: &[u8]) -> Form
    ensures { result ≡ bracket_form (opening_level bytes.now) }
{
    match bracket_level(b'[', bytes) {
        Some(level) => Form::LongString(level),
        None => Form::Symbol,
    }
}
