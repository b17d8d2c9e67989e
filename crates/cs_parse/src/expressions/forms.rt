// Reads the forms that hold no other expression.
ghost use Rattle.std.specs.Prelude.{◌≡◌, ◌≤◌, ◌<◌, Some, None, MatchOption, IfSome, IfOk, length};
ghost use Rattle.cs_parse.specs.Reading.{Gives};
ghost use Rattle.cs_parse.specs.ExpressionReading as spec;

use crate::making;
use crate::tables::next;
use crate::tokens::{Front, after, is_sign, is_word, name_first};
use crate::types::type_first;
use crate::unread::Unread;
use cs_ast::{Expr, ExprKind, StaticType};
use cs_token::{Sign, Token, Word};
use sqlite_items::Boxed;
use std::alloc::Global;
use text_core::Place;

/// `ImmutableList<T>.Empty`
#[tactic(auto, using(crate::proofs::Shorter::type_shorter))]
pub fn empty_list<'a>(alloc: Global, place: Place, tokens: &'a [Token]) -> Front<'a, Boxed<Expr>>
    ensures read { Gives (λ x. (x.0, x.1.now)) result (spec.empty_list place tokens.now) }
    ensures fewer { IfOk result (λ x. length x.1.now ≤ length tokens.now) }
{
    let rest = after(tokens, Sign::Less)?;
    let (inner, rest) = type_first(alloc, rest)?;
    let rest = after(rest, Sign::Greater)?;
    let rest = after(rest, Sign::Dot)?;
    let rest = empty(rest)?;
    let kind = ExprKind::EmptyList(inner);
    Ok((making::node(alloc, place, kind)?, rest))
}

/// `Empty`
fn empty<'a>(tokens: &'a [Token]) -> Result<&'a [Token], Unread>
    ensures read { Gives (λ rest. rest.now) result (spec.empty tokens.now) }
    ensures fewer { IfOk result (λ rest. length rest.now < length tokens.now) }
{
    let (name, rest) = name_first(tokens)?;
    if !name.name.is("Empty") {
        return Err(Unread::Syntax(tokens.len()));
    }
    Ok(rest)
}

/// `int.N`, `string.N`
pub fn static_member<'a>(
    alloc: Global,
    owner: StaticType,
    place: Place,
    tokens: &'a [Token],
) -> Front<'a, Boxed<Expr>>
    ensures read { Gives (λ x. (x.0, x.1.now)) result (spec.static owner place tokens.now) }
    ensures fewer { IfOk result (λ x. length x.1.now ≤ length tokens.now) }
{
    let rest = after(tokens, Sign::Dot)?;
    let (name, rest) = name_first(rest)?;
    let kind = ExprKind::Static(owner, name);
    Ok((making::node(alloc, place, kind)?, rest))
}

/// The tokens behind `string)`, if these stand first.
pub fn as_cast<'a>(tokens: &'a [Token]) -> Option<&'a [Token]>
    ensures read { MatchOption result (spec.as_cast tokens.now ≡ None) (λ rest. spec.as_cast tokens.now ≡ Some rest.now) }
    ensures fewer { IfSome result (λ rest. length rest.now < length tokens.now) }
{
    let Some((t, rest)) = tokens.split_first() else {
        return None;
    };
    match rest.split_first() {
        Some((c, rest)) if is_word(t, Word::String) && is_sign(c, Sign::CloseRound) => Some(rest),
        _ => None,
    }
}

/// `?.N`, behind which nothing that holds its operand more tightly may go on.
pub fn null_member<'a>(
    alloc: Global,
    place: Place,
    a: Boxed<Expr>,
    tokens: &'a [Token],
) -> Front<'a, Boxed<Expr>>
    ensures read { Gives (λ x. (x.0, x.1.now)) result (spec.null_member place a tokens.now) }
    ensures fewer { IfOk result (λ x. length x.1.now ≤ length tokens.now) }
{
    let (name, rest) = name_first(tokens)?;
    if next(rest) > 12 {
        return Err(Unread::Syntax(rest.len()));
    }
    Ok((making::null_member(alloc, place, a, name)?, rest))
}

/// `.N`
pub fn member<'a>(
    alloc: Global,
    place: Place,
    a: Boxed<Expr>,
    tokens: &'a [Token],
) -> Front<'a, Boxed<Expr>>
    ensures read { Gives (λ x. (x.0, x.1.now)) result (spec.member place a tokens.now) }
    ensures fewer { IfOk result (λ x. length x.1.now ≤ length tokens.now) }
{
    let (name, rest) = name_first(tokens)?;
    Ok((making::member(alloc, place, a, name)?, rest))
}
