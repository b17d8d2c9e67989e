// Makes expressions of their parts.
ghost use Rattle.std.specs.Prelude.{◌≡◌, Some};
ghost use Rattle.cs_ast.specs.declared.expression.ExprKind.TheVariants as ek;
ghost use Rattle.cs_grammar.specs.Expressions.{node};
ghost use Rattle.cs_parse.specs.Reading.{Gives};

use crate::unread::Unread;
use cs_ast::{BinaryOp, CastOp, Expr, ExprKind, Ident, UnaryOp, WithPart};
use sqlite_items::{Boxed, Items};
use std::alloc::Global;
use text_core::Place;

pub fn node(alloc: Global, place: Place, kind: ExprKind) -> Result<Boxed<Expr>, Unread>
    ensures { Gives (λ x. x) result (Some (node place kind)) }
{
    Ok(Boxed::new(alloc, Expr { place, kind })?)
}

pub fn unary(
    alloc: Global,
    place: Place,
    op: UnaryOp,
    a: Boxed<Expr>,
) -> Result<Boxed<Expr>, Unread>
    ensures { Gives (λ x. x) result (Some (node place (ek.Unary op a))) }
{
    let kind = ExprKind::Unary(op, a);
    node(alloc, place, kind)
}

pub fn cast(alloc: Global, place: Place, op: CastOp, a: Boxed<Expr>) -> Result<Boxed<Expr>, Unread>
    ensures { Gives (λ x. x) result (Some (node place (ek.Cast op a))) }
{
    let kind = ExprKind::Cast(op, a);
    node(alloc, place, kind)
}

pub fn binary(
    alloc: Global,
    place: Place,
    op: BinaryOp,
    a: Boxed<Expr>,
    b: Boxed<Expr>,
) -> Result<Boxed<Expr>, Unread>
    ensures { Gives (λ x. x) result (Some (node place (ek.Binary op a b))) }
{
    let kind = ExprKind::Binary(op, a, b);
    node(alloc, place, kind)
}

pub fn conditional(
    alloc: Global,
    place: Place,
    a: Boxed<Expr>,
    b: Boxed<Expr>,
    c: Boxed<Expr>,
) -> Result<Boxed<Expr>, Unread>
    ensures { Gives (λ x. x) result (Some (node place (ek.Conditional a b c))) }
{
    let kind = ExprKind::Conditional(a, b, c);
    node(alloc, place, kind)
}

pub fn with_parts(
    alloc: Global,
    place: Place,
    a: Boxed<Expr>,
    parts: Items<WithPart>,
) -> Result<Boxed<Expr>, Unread>
    ensures { Gives (λ x. x) result (Some (node place (ek.With a parts))) }
{
    let kind = ExprKind::With(a, parts);
    node(alloc, place, kind)
}

pub fn member(
    alloc: Global,
    place: Place,
    a: Boxed<Expr>,
    name: Ident,
) -> Result<Boxed<Expr>, Unread>
    ensures { Gives (λ x. x) result (Some (node place (ek.Member a name))) }
{
    let kind = ExprKind::Member(a, name);
    node(alloc, place, kind)
}

pub fn null_member(
    alloc: Global,
    place: Place,
    a: Boxed<Expr>,
    name: Ident,
) -> Result<Boxed<Expr>, Unread>
    ensures { Gives (λ x. x) result (Some (node place (ek.NullMember a name))) }
{
    let kind = ExprKind::NullMember(a, name);
    node(alloc, place, kind)
}

pub fn call(
    alloc: Global,
    place: Place,
    a: Boxed<Expr>,
    arguments: Items<Expr>,
) -> Result<Boxed<Expr>, Unread>
    ensures { Gives (λ x. x) result (Some (node place (ek.Call a arguments))) }
{
    let kind = ExprKind::Call(a, arguments);
    node(alloc, place, kind)
}

pub fn index(
    alloc: Global,
    place: Place,
    a: Boxed<Expr>,
    b: Boxed<Expr>,
) -> Result<Boxed<Expr>, Unread>
    ensures { Gives (λ x. x) result (Some (node place (ek.Index a b))) }
{
    let kind = ExprKind::Index(a, b);
    node(alloc, place, kind)
}
