// Reads whole lists of tokens.
ghost use Rattle.std.specs.Prelude.{◌≡◌, Some, None, MatchOption};
ghost use Rattle.cs_parse.specs.Answers.{AtAToken};
ghost use Rattle.cs_parse.specs.Reading.{Gives};
ghost use Rattle.cs_parse.specs.WholeReading as spec;

use crate::expressions::expr_first;
use crate::making;
use crate::tokens::{is_sign, is_word};
use crate::unread::Unread;
use cs_ast::{CastOp, Expr};
use cs_token::{Sign, Token, Word};
use sqlite_items::Boxed;
use std::alloc::Global;
use text_core::Place;

/// The place before which reading stopped, with so many tokens left.
pub fn place_before(tokens: &[Token], left: usize) -> Place
    ensures { AtAToken tokens.now result }
{
    let at = tokens.len().saturating_sub(left);
    match tokens.get(at) {
        Some(t) => t.place,
        None => last_place(tokens),
    }
}

fn last_place(tokens: &[Token]) -> Place
    ensures { AtAToken tokens.now result }
{
    match tokens.last() {
        Some(t) => t.place,
        None => Place { line: 1, column: 1 },
    }
}

/// What was read, where no token is left.
fn if_all(a: Boxed<Expr>, rest: &[Token]) -> Result<Expr, Unread>
    ensures { Gives (λ a. a) result (spec.if_all a rest.now) }
{
    if !rest.is_empty() {
        return Err(Unread::Syntax(rest.len()));
    }
    Ok(a.into_inner())
}

/// The tokens as one expression.
fn whole_expression(alloc: Global, tokens: &[Token]) -> Result<Expr, Unread>
    ensures { Gives (λ a. a) result (spec.whole_expression tokens.now) }
{
    let (a, rest) = expr_first(alloc, 0, tokens)?;
    if_all(a, rest)
}

/// The tokens behind `(MarkupString)` and its place, if it stands first.
fn as_markup<'a>(tokens: &'a [Token]) -> Option<(Place, &'a [Token])>
    ensures { MatchOption result
        (spec.as_markup tokens.now ≡ None)
        (λ x. spec.as_markup tokens.now ≡ Some (x.0, x.1.now)) }
{
    let (open, rest) = tokens.split_first()?;
    let (word, rest) = rest.split_first()?;
    let (close, rest) = rest.split_first()?;
    let is_markup = is_sign(open, Sign::OpenRound)
        && is_word(word, Word::MarkupString)
        && is_sign(close, Sign::CloseRound);
    if is_markup {
        Some((open.place, rest))
    } else {
        None
    }
}

/// The tokens as one operand, behind `(MarkupString)` at a place.
fn markup(alloc: Global, place: Place, tokens: &[Token]) -> Result<Expr, Unread>
    ensures { Gives (λ a. a) result (spec.markup place tokens.now) }
{
    let (a, rest) = expr_first(alloc, 11, tokens)?;
    if_all(making::cast(alloc, place, CastOp::Markup, a)?, rest)
}

/// The tokens as one of these.
pub fn whole_value(alloc: Global, tokens: &[Token]) -> Result<Expr, Unread>
    ensures { Gives (λ a. a) result (spec.whole_value tokens.now) }
{
    match as_markup(tokens) {
        Some((place, rest)) => markup(alloc, place, rest),
        None => whole_expression(alloc, tokens),
    }
}
