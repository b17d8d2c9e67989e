// Reads lambdas.
ghost use Rattle.std.specs.Prelude.{◌≡◌, Some, None, MatchOption};
ghost use Rattle.cs_parse.specs.LambdaReading as spec;
ghost use Rattle.cs_parse.specs.LambdaReading.{change_view};
ghost use Rattle.cs_parse.specs.Reading.{Gives};
ghost use Rattle.cs_parse.specs.SimpleReading as simple;

use crate::expressions::expr_first;
use crate::member::bodies::block_body;
use crate::statement::{change_first, changed, is_name};
use crate::tokens::{after, behind, name_first};
use crate::unread::Unread;
use crate::whole::whole_value;
use cs_ast::{Body, Expr, ExprKind, Ident};
use cs_token::{Sign, Token};
use sqlite_items::Boxed;
use std::alloc::Global;
use text_core::Place;

/// The tokens as a value or as a lambda.
pub fn whole_spelled(alloc: Global, tokens: &[Token]) -> Result<Expr, Unread>
    ensures { Gives (λ a. a) result (spec.whole_spelled tokens.now) }
{
    match behind_none(tokens) {
        Some(rest) => of_none(alloc, tokens, rest),
        None => named_or_value(alloc, tokens),
    }
}

fn named_or_value(alloc: Global, tokens: &[Token]) -> Result<Expr, Unread>
    ensures { Gives (λ a. a) result (spec.named_or_value tokens.now) }
{
    match behind_bare(tokens) {
        Some(rest) => of_bare(alloc, tokens, rest),
        None => one_or_value(alloc, tokens),
    }
}

fn one_or_value(alloc: Global, tokens: &[Token]) -> Result<Expr, Unread>
    ensures { Gives (λ a. a) result (spec.one_or_value tokens.now) }
{
    match behind_one(tokens) {
        Some(rest) => of_one(alloc, tokens, rest),
        None => whole_value(alloc, tokens),
    }
}

/// The tokens behind a name.
fn behind_a_name<'a>(tokens: &'a [Token]) -> Option<&'a [Token]>
    ensures { MatchOption result
        (spec.behind_a_name tokens.now ≡ None)
        (λ rest. spec.behind_a_name tokens.now ≡ Some rest.now) }
{
    match tokens.split_first() {
        Some((t, rest)) if is_name(t) => Some(rest),
        _ => None,
    }
}

/// The tokens behind `() =>`.
fn behind_none<'a>(tokens: &'a [Token]) -> Option<&'a [Token]>
    ensures { MatchOption result
        (spec.behind_none tokens.now ≡ None)
        (λ rest. spec.behind_none tokens.now ≡ Some rest.now) }
{
    let rest = behind(tokens, Sign::OpenRound)?;
    let rest = behind(rest, Sign::CloseRound)?;
    behind(rest, Sign::Arrow)
}

/// The tokens behind `x =>`.
fn behind_bare<'a>(tokens: &'a [Token]) -> Option<&'a [Token]>
    ensures { MatchOption result
        (spec.behind_bare tokens.now ≡ None)
        (λ rest. spec.behind_bare tokens.now ≡ Some rest.now) }
{
    let rest = behind_a_name(tokens)?;
    behind(rest, Sign::Arrow)
}

/// The tokens behind `(x) =>`.
fn behind_one<'a>(tokens: &'a [Token]) -> Option<&'a [Token]>
    ensures { MatchOption result
        (spec.behind_one tokens.now ≡ None)
        (λ rest. spec.behind_one tokens.now ≡ Some rest.now) }
{
    let rest = behind(tokens, Sign::OpenRound)?;
    let rest = behind_a_name(rest)?;
    let rest = behind(rest, Sign::CloseRound)?;
    behind(rest, Sign::Arrow)
}

fn place_first(tokens: &[Token]) -> Result<Place, Unread>
    ensures { Gives (λ p. p) result (simple.place_first tokens.now) }
{
    match tokens.first() {
        Some(t) => Ok(t.place),
        None => Err(Unread::Syntax(0)),
    }
}

fn of_none(alloc: Global, tokens: &[Token], rest: &[Token]) -> Result<Expr, Unread>
    ensures { Gives (λ a. a) result (spec.of_none tokens.now rest.now) }
{
    lambda(alloc, place_first(tokens)?, None, rest)
}

fn of_bare(alloc: Global, tokens: &[Token], rest: &[Token]) -> Result<Expr, Unread>
    ensures { Gives (λ a. a) result (spec.of_bare tokens.now rest.now) }
{
    let (name, _) = name_first(tokens)?;
    lambda(alloc, place_first(tokens)?, Some(name), rest)
}

fn of_one(alloc: Global, tokens: &[Token], rest: &[Token]) -> Result<Expr, Unread>
    ensures { Gives (λ a. a) result (spec.of_one tokens.now rest.now) }
{
    let (name, _) = name_first(after(tokens, Sign::OpenRound)?)?;
    lambda(alloc, place_first(tokens)?, Some(name), rest)
}

/// A lambda at a place, of the tokens behind its arrow.
fn lambda(
    alloc: Global,
    place: Place,
    name: Option<Ident>,
    tokens: &[Token],
) -> Result<Expr, Unread>
    ensures { Gives (λ a. a) result (spec.lambda place name tokens.now) }
{
    let body = lambda_body(alloc, tokens)?;
    let kind = ExprKind::Lambda(name, body);
    Ok(Expr { place, kind })
}

fn lambda_body(alloc: Global, tokens: &[Token]) -> Result<Body, Unread>
    ensures { Gives (λ b. b) result (spec.lambda_body tokens.now) }
{
    match behind(tokens, Sign::OpenBrace) {
        Some(rest) => whole_block(alloc, rest),
        None => change_or_value(alloc, tokens),
    }
}

fn whole_block(alloc: Global, tokens: &[Token]) -> Result<Body, Unread>
    ensures { Gives (λ b. b) result (spec.whole_block tokens.now) }
{
    let (block, rest) = block_body(alloc, tokens)?;
    if !rest.is_empty() {
        return Err(Unread::Syntax(rest.len()));
    }
    Ok(block)
}

/// A change of the name that stands first, if there is one.
fn change<'a>(
    alloc: Global,
    tokens: &'a [Token],
) -> Result<Option<(Boxed<Expr>, &'a [Token])>, Unread>
    ensures { Gives change_view result (spec.maybe_change tokens.now) }
{
    let Some((change, rest)) = change_first(tokens) else {
        return Ok(None);
    };
    let (name, _) = name_first(tokens)?;
    Ok(Some(changed(alloc, change, name, rest)?))
}

/// The tokens as a change of a name, or else as an expression.
fn change_or_value(alloc: Global, tokens: &[Token]) -> Result<Body, Unread>
    ensures { Gives (λ b. b) result (spec.change_or_value tokens.now) }
{
    let (a, rest) = match change(alloc, tokens)? {
        Some(changed) => changed,
        None => expr_first(alloc, 0, tokens)?,
    };
    if rest.is_empty() {
        Ok(Body::Value(a))
    } else {
        Err(Unread::Syntax(rest.len()))
    }
}
