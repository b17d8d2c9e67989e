// Reads arguments, parts behind `with` and parts of interpolated texts, up to the next expression.
ghost use Rattle.std.specs.Prelude.{◌≡◌, ◌+◌, ◌*◌, ◌<◌, Some, None, [], ◌++◌, ◌∷◌, length, MatchOption, IfSome};
ghost use Rattle.cs_parse.specs.Reading.{Gives};
ghost use Rattle.cs_parse.specs.Frames as spec;
ghost use Rattle.cs_parse.specs.Frames.{Leads, CostsUpTo};

use crate::expressions::frame::{Callee, Form, Turn};
use crate::making;
use crate::tables::next;
use crate::tokens::{Front, after, behind, name_first};
use crate::unread::Unread;
use cs_ast::{Expr, ExprKind, Ident, TextPart, WithPart};
use cs_token::{Sign, Token, TokenKind};
use sqlite_items::{Boxed, Items};
use std::alloc::Global;
use text_core::{Place, Txt};

/// All arguments, behind the opening bracket.
#[tactic(auto, using(crate::proofs::FrameLaws::arguments_law))]
pub fn arguments<'a>(
    alloc: Global,
    place: Place,
    callee: Callee,
    tokens: &'a [Token],
) -> Front<'a, Turn>
    ensures read { Leads (spec.all_arguments place callee tokens.now) result }
    ensures small { CostsUpTo (3 * length tokens.now + 1) result }
{
    let found = Items::new(alloc);
    match behind(tokens, Sign::CloseRound) {
        Some(rest) => Ok((Turn::Found(called(alloc, place, callee, found)?), rest)),
        None => {
            let form = Form::Argument {
                place,
                callee,
                found,
            };
            Ok((Turn::Wanted(form, 0), tokens))
        }
    }
}

/// What follows an argument: a comma and more, or the closing bracket.
#[tactic(auto, using(crate::proofs::FrameLaws::arguments_law))]
pub fn after_argument<'a>(
    alloc: Global,
    place: Place,
    callee: Callee,
    found: Items<Expr>,
    tokens: &'a [Token],
) -> Front<'a, Turn>
    ensures read { Leads (spec.after_argument place callee found tokens.now) result }
    ensures small { CostsUpTo (3 * length tokens.now) result }
{
    if let Some(rest) = behind(tokens, Sign::Comma) {
        let form = Form::Argument {
            place,
            callee,
            found,
        };
        return Ok((Turn::Wanted(form, 0), rest));
    }
    let rest = after(tokens, Sign::CloseRound)?;
    Ok((Turn::Found(called(alloc, place, callee, found)?), rest))
}

/// A call, or a new record.
pub fn called(
    alloc: Global,
    place: Place,
    callee: Callee,
    found: Items<Expr>,
) -> Result<Boxed<Expr>, Unread>
    ensures { Gives (λ x. x) result (Some (spec.called place callee found)) }
{
    match callee {
        Callee::Function(a) => making::call(alloc, place, a, found),
        Callee::Record(name) => {
            let kind = ExprKind::New(name, found);
            making::node(alloc, place, kind)
        }
    }
}

/// `N =`, behind parts of a `with`.
#[tactic(auto, using(crate::proofs::FrameLaws::with_law))]
pub fn with_part<'a>(
    place: Place,
    base: Boxed<Expr>,
    found: Items<WithPart>,
    tokens: &'a [Token],
) -> Front<'a, Turn>
    ensures read { Leads (spec.with_from place base found tokens.now) result }
    ensures small { CostsUpTo (3 * length tokens.now) result }
{
    let (name, rest) = name_first(tokens)?;
    let rest = after(rest, Sign::Assign)?;
    let form = Form::With {
        place,
        base,
        found,
        name,
    };
    Ok((Turn::Wanted(form, 0), rest))
}

/// What follows a part of a `with`: a comma and more, or the closing brace.
pub fn after_with_part<'a>(
    alloc: Global,
    place: Place,
    base: Boxed<Expr>,
    found: Items<WithPart>,
    tokens: &'a [Token],
) -> Front<'a, Turn>
    ensures read { Leads (spec.after_with_part place base found tokens.now) result }
    ensures small { CostsUpTo (3 * length tokens.now) result }
{
    if let Some(rest) = behind(tokens, Sign::Comma) {
        return with_part(place, base, found, rest);
    }
    let rest = after(tokens, Sign::CloseBrace)?;
    if next(rest) > 11 {
        return Err(Unread::Syntax(rest.len()));
    }
    Ok((
        Turn::Found(making::with_parts(alloc, place, base, found)?),
        rest,
    ))
}

/// The literal part of an interpolated text that stands first.
fn literal_first<'a>(tokens: &'a [Token]) -> Option<(&'a Txt, &'a [Token])>
    ensures read { MatchOption result
        (spec.literal_first tokens.now ≡ None)
        (λ x. spec.literal_first tokens.now ≡ Some (x.0.now, x.1.now)) }
    ensures fewer { IfSome result (λ x. length x.1.now < length tokens.now) }
{
    let (t, rest) = tokens.split_first()?;
    match &t.kind {
        TokenKind::Part(text) => Some((text, rest)),
        _ => None,
    }
}

/// Parts of an interpolated text behind those found, up to a hole or to the end.
#[tactic(auto, using(crate::proofs::FrameLaws::text_literal))]
pub fn text_parts<'a>(
    alloc: Global,
    place: Place,
    found: Items<TextPart>,
    tokens: &'a [Token],
) -> Front<'a, Turn>
    ensures read { Leads (spec.text_from place found tokens.now) result }
    ensures small { CostsUpTo (3 * length tokens.now) result }
{
    let mut parts = found;
    let mut left = tokens;
    while let Some((text, rest)) = literal_first(left) {
        parts.push(TextPart::Literal(text.clone()?))?;
        left = rest;
    }
    text_end(alloc, place, parts, left)
}

/// A hole of an interpolated text, or its end.
#[tactic(auto, using(crate::proofs::FrameLaws::text_hole, crate::proofs::FrameLaws::text_end))]
fn text_end<'a>(
    alloc: Global,
    place: Place,
    found: Items<TextPart>,
    tokens: &'a [Token],
) -> Front<'a, Turn>
    requires { spec.literal_first tokens.now ≡ None }
    ensures read { Leads (spec.text_from place found tokens.now) result }
    ensures small { CostsUpTo (3 * length tokens.now) result }
{
    if let Some(rest) = behind(tokens, Sign::HoleOpen) {
        let form = Form::Hole { place, found };
        return Ok((Turn::Wanted(form, 0), rest));
    }
    let rest = after(tokens, Sign::InterpolationEnd)?;
    let kind = ExprKind::Interpolated(found);
    Ok((Turn::Found(making::node(alloc, place, kind)?), rest))
}
