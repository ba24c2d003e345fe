//! Nodes of a tree that is not numbered yet.

ghost use Rattle.std.specs.Prelude.{◌≡◌, ◌<◌, ◌^◌, ◌∷◌, ◌++◌, [], suc, max, length, slice_get, IfOk, OnOk};
ghost use Rattle.expression_parser.specs.Reading.{IsNamed, expr_arm};
ghost use Rattle.syntax_tree.specs.Nodes.{offset_of, line_of, expr_at, call_at, field_at, function_at};
ghost use Rattle.syntax_tree.specs.declared.tree.ExprKind as expr;
ghost use Rattle.syntax_tree.specs.declared.tree.FieldKind as field;

use crate::parts::{Ending, Function, Part, Prefix};
use byte_text::StrId;
use sqlite_items::{Boxed, Items};
use std::alloc::{AllocError, Global};
use syntax_tree::{BinOp, Expr, ExprArm, ExprKind, Field, FieldKind, FuncBody, Token};

/// The offset of the token at a place.
pub fn offset(tokens: &[Token], place: usize) -> usize
    ensures { result ≡ offset_of (slice_get tokens.now place) }
{
    match tokens.get(place) {
        Some(token) => token.at,
        None => 0,
    }
}

/// The line of the token at a place.
pub fn line(tokens: &[Token], place: usize) -> usize
    ensures { result ≡ line_of (slice_get tokens.now place) }
{
    match tokens.get(place) {
        Some(token) => token.line,
        None => 0,
    }
}

/// An expression that begins at a place.
pub fn boxed_at(
    alloc: Global,
    tokens: &[Token],
    place: usize,
    kind: ExprKind,
) -> Result<Boxed<Expr>, AllocError>
    ensures { IfOk result (λ e. e ≡ expr_at tokens.now place kind) }
{
    boxed_call(alloc, tokens, place, 0, kind)
}

/// A call that begins at a place and whose arguments open at another, which is its number until the tree is numbered.
pub(crate) fn boxed_call(
    alloc: Global,
    tokens: &[Token],
    place: usize,
    arguments: usize,
    kind: ExprKind,
) -> Result<Boxed<Expr>, AllocError>
    ensures { IfOk result (λ e. e ≡ call_at tokens.now place arguments kind) }
{
    let expr = Expr {
        id: arguments,
        at: offset(tokens, place),
        line: line(tokens, place),
        kind,
    };
    Boxed::new(alloc, expr)
}

/// Puts an expression at the end of a list.
pub fn push(list: &mut Items<Expr>, expr: Boxed<Expr>) -> Result<(), AllocError>
    ensures { OnOk result (list.new ≡ list.old ++ expr ∷ []) }
{
    list.push(expr.into_inner())
}

/// Puts an arm at the end of a list.
pub(crate) fn push_arm(
    list: &mut Items<ExprArm>,
    cond: Boxed<Expr>,
    value: Boxed<Expr>,
) -> Result<(), AllocError>
    ensures { OnOk result (list.new ≡ list.old ++ expr_arm cond value ∷ []) }
{
    list.push(ExprArm {
        cond: cond.into_inner(),
        value: value.into_inner(),
    })
}

/// Puts a field at the end of a list.
pub(crate) fn push_field(list: &mut Items<Field>, field: Boxed<Field>) -> Result<(), AllocError>
    ensures { OnOk result (list.new ≡ list.old ++ field ∷ []) }
{
    list.push(field.into_inner())
}

/// A field of a table that begins at a place.
fn boxed_field(
    alloc: Global,
    tokens: &[Token],
    place: usize,
    kind: FieldKind,
) -> Result<Boxed<Field>, AllocError>
    ensures { IfOk result (λ f. f ≡ field_at tokens.now place kind) }
{
    let field = Field {
        at: offset(tokens, place),
        kind,
    };
    Boxed::new(alloc, field)
}

/// A field that is an expression alone, which begins at a place.
pub(crate) fn item_at(
    alloc: Global,
    tokens: &[Token],
    place: usize,
    item: Boxed<Expr>,
) -> Result<Boxed<Field>, AllocError>
    ensures { IfOk result (λ f. f ≡ field_at tokens.now place (field.Item item)) }
{
    boxed_field(alloc, tokens, place, FieldKind::Item(item.into_inner()))
}

/// A field with a name, which begins at a place.
pub(crate) fn named_at(
    alloc: Global,
    tokens: &[Token],
    place: usize,
    name: StrId,
    value: Boxed<Expr>,
) -> Result<Boxed<Field>, AllocError>
    ensures { IfOk result (λ f. f ≡ field_at tokens.now place (field.Named name value)) }
{
    boxed_field(
        alloc,
        tokens,
        place,
        FieldKind::Named(name, value.into_inner()),
    )
}

/// A field with a key, which begins at a place.
pub(crate) fn keyed_at(
    alloc: Global,
    tokens: &[Token],
    place: usize,
    key: Boxed<Expr>,
    value: Boxed<Expr>,
) -> Result<Boxed<Field>, AllocError>
    ensures { IfOk result (λ f. f ≡ field_at tokens.now place (field.Keyed key value)) }
{
    let kind = FieldKind::Keyed(key.into_inner(), value.into_inner());
    boxed_field(alloc, tokens, place, kind)
}

/// A function whose word `function` stands at a place.
pub fn func_at(tokens: &[Token], place: usize, function: Function) -> FuncBody
    ensures { result ≡ function_at tokens.now place function.params function.vararg function.stats }
{
    FuncBody {
        id: 0,
        at: offset(tokens, place),
        line: line(tokens, place),
        params: function.params,
        vararg: function.vararg,
        body: function.stats,
    }
}

/// The name at a place, as the beginning of a prefix.
pub fn named(
    alloc: Global,
    tokens: &[Token],
    place: usize,
    name: StrId,
) -> Result<Prefix, AllocError>
    requires there { place < length tokens.now }
    ensures { IfOk result (IsNamed tokens.now place name) }
{
    let expr = boxed_at(alloc, tokens, place, ExprKind::Name(name))?;
    Ok(Prefix {
        part: Part {
            expr,
            nest: 0,
            end: place + 1,
        },
        ending: Ending::Target,
    })
}

/// An operator between two parts, of which the left one begins at a place.
pub(crate) fn binary(
    alloc: Global,
    tokens: &[Token],
    place: usize,
    op: BinOp,
    left: Part,
    right: Part,
) -> Result<Part, AllocError>
    requires left { left.nest < 2 ^ 63 }
    requires right { right.nest < 2 ^ 63 }
    ensures { IfOk result (λ p. (p.expr ≡ expr_at tokens.now place (expr.Binary op left.expr right.expr)) × (p.nest ≡ suc (max left.nest right.nest)) × (p.end ≡ right.end)) }
{
    let nest = left.nest.max(right.nest) + 1;
    let end = right.end;
    let kind = ExprKind::Binary {
        op,
        a: left.expr,
        b: right.expr,
    };
    let expr = boxed_at(alloc, tokens, place, kind)?;
    Ok(Part { expr, nest, end })
}
