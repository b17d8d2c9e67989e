// What forms make of the expressions that they waited for.
ghost use Rattle.std.specs.Prelude.{◌≡◌, ◌+◌, ◌*◌, length};
ghost use Rattle.cs_parse.specs.declared.expressions.frame.Form.TheVariants as m;
ghost use Rattle.cs_parse.specs.Frames as spec;
ghost use Rattle.cs_parse.specs.Frames.{Leads, CostsUpTo};

use crate::expressions::frame::{Callee, Form, Turn};
use crate::expressions::parts::{after_argument, after_with_part, text_parts};
use crate::making;
use crate::tokens::{Front, after};
use cs_ast::{CastOp, Expr, Ident, TextPart, WithPart};
use cs_token::{Sign, Token};
use sqlite_items::{Boxed, Items};
use std::alloc::Global;
use text_core::Place;

/// The form with the expression that it waited for, up to the next expression.
pub fn resume<'a>(alloc: Global, form: Form, a: Boxed<Expr>, tokens: &'a [Token]) -> Front<'a, Turn>
    ensures read { Leads (spec.resume form a tokens.now) result }
    ensures small { CostsUpTo (3 * length tokens.now) result }
{
    let whole = match form {
        Form::Unary { place, op } => making::unary(alloc, place, op, a)?,
        Form::Cast { place } => making::cast(alloc, place, CastOp::Text, a)?,
        Form::Binary { place, op, left } => making::binary(alloc, place, op, left, a)?,
        Form::Third {
            place,
            condition,
            chosen,
        } => making::conditional(alloc, place, condition, chosen, a)?,
        Form::Brackets => return closed(a, tokens),
        Form::Index { place, list } => return index(alloc, place, list, a, tokens),
        Form::Second { place, condition } => return second(place, condition, a, tokens),
        Form::Argument {
            place,
            callee,
            found,
        } => return argument(alloc, place, callee, found, a, tokens),
        Form::With {
            place,
            base,
            found,
            name,
        } => return with_part(alloc, place, base, found, name, a, tokens),
        Form::Hole { place, found } => return hole(alloc, place, found, a, tokens),
    };
    Ok((Turn::Found(whole), tokens))
}

/// `)` behind an expression.
fn closed<'a>(a: Boxed<Expr>, tokens: &'a [Token]) -> Front<'a, Turn>
    ensures read { Leads (spec.resume m.Brackets a tokens.now) result }
    ensures small { CostsUpTo (3 * length tokens.now) result }
{
    let rest = after(tokens, Sign::CloseRound)?;
    Ok((Turn::Found(a), rest))
}

/// `]` behind an index.
fn index<'a>(
    alloc: Global,
    place: Place,
    list: Boxed<Expr>,
    a: Boxed<Expr>,
    tokens: &'a [Token],
) -> Front<'a, Turn>
    ensures read { Leads (spec.resume (m.Index place list) a tokens.now) result }
    ensures small { CostsUpTo (3 * length tokens.now) result }
{
    let rest = after(tokens, Sign::CloseSquare)?;
    Ok((Turn::Found(making::index(alloc, place, list, a)?), rest))
}

/// `:` behind the second part of a conditional.
fn second<'a>(
    place: Place,
    condition: Boxed<Expr>,
    chosen: Boxed<Expr>,
    tokens: &'a [Token],
) -> Front<'a, Turn>
    ensures read { Leads (spec.resume (m.Second place condition) chosen tokens.now) result }
    ensures small { CostsUpTo (3 * length tokens.now) result }
{
    let rest = after(tokens, Sign::Colon)?;
    let form = Form::Third {
        place,
        condition,
        chosen,
    };
    Ok((Turn::Wanted(form, 0), rest))
}

fn argument<'a>(
    alloc: Global,
    place: Place,
    callee: Callee,
    found: Items<Expr>,
    a: Boxed<Expr>,
    tokens: &'a [Token],
) -> Front<'a, Turn>
    ensures read { Leads (spec.resume (m.Argument place callee found) a tokens.now) result }
    ensures small { CostsUpTo (3 * length tokens.now) result }
{
    let mut found = found;
    found.push(a.into_inner())?;
    after_argument(alloc, place, callee, found, tokens)
}

fn with_part<'a>(
    alloc: Global,
    place: Place,
    base: Boxed<Expr>,
    found: Items<WithPart>,
    name: Ident,
    a: Boxed<Expr>,
    tokens: &'a [Token],
) -> Front<'a, Turn>
    ensures read { Leads (spec.resume (m.With place base found name) a tokens.now) result }
    ensures small { CostsUpTo (3 * length tokens.now) result }
{
    let mut found = found;
    let value = a.into_inner();
    found.push(WithPart { name, value })?;
    after_with_part(alloc, place, base, found, tokens)
}

/// `}` behind a hole.
fn hole<'a>(
    alloc: Global,
    place: Place,
    found: Items<TextPart>,
    a: Boxed<Expr>,
    tokens: &'a [Token],
) -> Front<'a, Turn>
    ensures read { Leads (spec.resume (m.Hole place found) a tokens.now) result }
    ensures small { CostsUpTo (3 * length tokens.now) result }
{
    let rest = after(tokens, Sign::HoleClose)?;
    let mut found = found;
    found.push(TextPart::Hole(a.into_inner()))?;
    text_parts(alloc, place, found, rest)
}
