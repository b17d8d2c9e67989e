// Reads values of attributes.
ghost use Rattle.std.specs.Prelude.{◌≡◌, IfOk};
ghost use Rattle.razor_reader.specs.AttributeReading as spec;
ghost use Rattle.razor_reader.specs.Reading.{Gives};

use crate::csharp::{led, plain, shown, spelled};
use crate::fronts::{Front, after, behind, has, literal_first};
use crate::mark::Mark;
use crate::tokens::code_first;
use crate::unread::Unread;
use cs_ast::{Expr, Ident};
use cs_token::TokenKind;
use razor_ast::ValuePart;
use razor_token::{Piece, PieceKind};
use sqlite_items::Items;
use std::alloc::Global;
use text_core::Txt;

/// A content expression, from its at sign to its end.
pub fn shown_first<'a>(alloc: Global, pieces: &'a [Piece]) -> Front<'a, Expr>
    ensures { Gives (λ x. (x.0, x.1.now)) result (spec.shown_first pieces.now) }
{
    let inner = after(pieces, Mark::At)?;
    let (tokens, end) = code_first(alloc, inner)?;
    let rest = after(end, Mark::ExpressionEnd)?;
    let a = shown(alloc, &tokens, inner)?;
    Ok((a, rest))
}

/// Whether a literal text stands first.
fn has_literal(pieces: &[Piece]) -> bool
    ensures { result ≡ spec.has_literal pieces.now }
{
    match pieces.split_first() {
        Some((p, _)) => is_literal(p),
        None => false,
    }
}

fn is_literal(p: &Piece) -> bool
    ensures { result ≡ spec.is_literal p.now.kind }
{
    match &p.kind {
        PieceKind::Literal(_) => true,
        _ => false,
    }
}

/// A part of a value that isn't at its end.
fn part_first<'a>(alloc: Global, pieces: &'a [Piece]) -> Front<'a, ValuePart>
    ensures { Gives (λ x. (x.0, x.1.now)) result (spec.part_first pieces.now) }
{
    if has_literal(pieces) {
        let (text, rest) = literal_first(alloc, pieces)?;
        return Ok((ValuePart::Literal(text), rest));
    }
    let (a, rest) = shown_first(alloc, pieces)?;
    Ok((ValuePart::Shown(a), rest))
}

/// Literal texts and content expressions up to the end of a value.
#[tactic(auto, using(crate::proofs::AttributeLoops::parts_start, crate::proofs::AttributeLoops::parts_none, crate::proofs::AttributeLoops::parts_end, crate::proofs::AttributeLoops::parts_fail, crate::proofs::AttributeLoops::parts_turn))]
pub fn parts_first<'a>(alloc: Global, pieces: &'a [Piece]) -> Front<'a, Items<ValuePart>>
    ensures { Gives (λ x. (x.0, x.1.now)) result (spec.parts_first pieces.now) }
{
    let mut parts = Items::new(alloc);
    let mut rest = pieces;
    let mut left = pieces.len();
    while left > 0 {
        if let Some(behind) = behind(rest, Mark::ValueEnd) {
            return Ok((parts, behind));
        }
        let (part, behind) = part_first(alloc, rest)?;
        parts.push(part)?;
        rest = behind;
        left -= 1;
    }
    Err(Unread::Syntax(rest.len()))
}

/// The pieces behind the end of an expression, if that stands first.
fn past_expression<'a>(pieces: &'a [Piece]) -> &'a [Piece]
    ensures { result.now ≡ spec.past_expression pieces.now }
{
    match behind(pieces, Mark::ExpressionEnd) {
        Some(rest) => rest,
        None => pieces,
    }
}

/// An at sign and what stands behind it, up to the end of a value.
pub fn led_first<'a>(alloc: Global, pieces: &'a [Piece]) -> Front<'a, Expr>
    ensures { Gives (λ x. (x.0, x.1.now)) result (spec.led_first pieces.now) }
{
    let inner = after(pieces, Mark::At)?;
    let (tokens, end) = code_first(alloc, inner)?;
    let rest = after(past_expression(end), Mark::ValueEnd)?;
    let a = led(alloc, &tokens, inner)?;
    Ok((a, rest))
}

/// Code up to the end of a value, as an expression or a lambda.
fn code_value<'a>(alloc: Global, pieces: &'a [Piece]) -> Front<'a, Expr>
    ensures { Gives (λ x. (x.0, x.1.now)) result (spec.code_value pieces.now) }
{
    let (tokens, end) = code_first(alloc, pieces)?;
    let rest = after(end, Mark::ValueEnd)?;
    let a = spelled(alloc, &tokens, pieces)?;
    Ok((a, rest))
}

/// The value of an event.
pub fn event_value<'a>(alloc: Global, pieces: &'a [Piece]) -> Front<'a, Expr>
    ensures { Gives (λ x. (x.0, x.1.now)) result (spec.event_value pieces.now) }
{
    if has(pieces, Mark::At) {
        led_first(alloc, pieces)
    } else {
        code_value(alloc, pieces)
    }
}

/// Code up to the end of a value, as an expression.
pub fn key_value<'a>(alloc: Global, pieces: &'a [Piece]) -> Front<'a, Expr>
    ensures { Gives (λ x. (x.0, x.1.now)) result (spec.key_value pieces.now) }
{
    let (tokens, end) = code_first(alloc, pieces)?;
    let rest = after(end, Mark::ValueEnd)?;
    let a = plain(alloc, &tokens, pieces)?;
    Ok((a, rest))
}

/// A name up to the end of a value.
pub fn name_value<'a>(pieces: &'a [Piece]) -> Front<'a, Ident>
    ensures { Gives (λ x. (x.0, x.1.now)) result (spec.name_value pieces.now) }
{
    let Some((p, end)) = pieces.split_first() else {
        return Err(Unread::Syntax(0));
    };
    let name = match &p.kind {
        PieceKind::Code(TokenKind::Name(name)) => Ident {
            place: p.place,
            name: name.clone()?,
        },
        _ => return Err(Unread::Syntax(pieces.len())),
    };
    Ok((name, after(end, Mark::ValueEnd)?))
}

/// A text up to the end of a value.
pub fn text_value<'a>(alloc: Global, pieces: &'a [Piece]) -> Front<'a, Txt>
    ensures { Gives (λ x. (x.0, x.1.now)) result (spec.text_value pieces.now) }
{
    let (text, end) = literal_first(alloc, pieces)?;
    Ok((text, after(end, Mark::ValueEnd)?))
}
