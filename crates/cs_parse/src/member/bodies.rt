// Reads the values and the bodies of members.
ghost use Rattle.cs_parse.specs.MemberReading as spec;
ghost use Rattle.cs_parse.specs.Reading.{Gives};

use crate::expressions::expr_first;
use crate::statement::body_first;
use crate::tokens::{Front, after, behind};
use cs_ast::{Body, Expr};
use cs_token::{Sign, Token};
use sqlite_items::Boxed;
use std::alloc::Global;

/// An expression and a semicolon.
pub fn value_first<'a>(alloc: Global, tokens: &'a [Token]) -> Front<'a, Boxed<Expr>>
    ensures { Gives (λ x. (x.0, x.1.now)) result (spec.value_first tokens.now) }
{
    let (a, rest) = expr_first(alloc, 0, tokens)?;
    Ok((a, after(rest, Sign::Semicolon)?))
}

/// The body of a method.
pub fn method_body<'a>(alloc: Global, tokens: &'a [Token]) -> Front<'a, Body>
    ensures { Gives (λ x. (x.0, x.1.now)) result (spec.method_body tokens.now) }
{
    match behind(tokens, Sign::Arrow) {
        Some(rest) => value_body(alloc, rest),
        None => block_body(alloc, after(tokens, Sign::OpenBrace)?),
    }
}

fn value_body<'a>(alloc: Global, tokens: &'a [Token]) -> Front<'a, Body>
    ensures { Gives (λ x. (x.0, x.1.now)) result (spec.value_body tokens.now) }
{
    let (a, rest) = value_first(alloc, tokens)?;
    Ok((Body::Value(a), rest))
}

/// Statements and the brace that closes them.
pub fn block_body<'a>(alloc: Global, tokens: &'a [Token]) -> Front<'a, Body>
    ensures { Gives (λ x. (x.0, x.1.now)) result (spec.block_body tokens.now) }
{
    let (statements, rest) = body_first(alloc, tokens)?;
    Ok((Body::Block(statements), after(rest, Sign::CloseBrace)?))
}
