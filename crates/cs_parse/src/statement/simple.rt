// Reads locals, changes and calls, without the semicolon behind them.
ghost use Rattle.std.specs.Prelude.{◌≡◌, Some, None, MatchOption};
ghost use Rattle.cs_parse.specs.Reading.{Gives};
ghost use Rattle.cs_parse.specs.SimpleReading as spec;
ghost use Rattle.cs_parse.specs.SimpleReading.{front_view};

use crate::expressions::expr_first;
use crate::making;
use crate::statement::making::statement;
use crate::statement::views::is_call;
use crate::statement::words::{behind_word, has_name, is_name, place_first};
use crate::tokens::{Front, behind, has_sign, name_first};
use crate::types::type_first;
use crate::unread::Unread;
use cs_ast::{AssignOp, Expr, ExprKind, Ident, StepOp, Stmt, StmtKind, TypeExpr};
use cs_token::{Sign, Token, TokenKind, Word};
use sqlite_items::Boxed;
use std::alloc::Global;

/// What a sign does to the name before it.
#[derive(Clone, Copy)]
pub enum Change {
    Assign(AssignOp),
    Step(StepOp),
}

#[tactic(auto, unfolding(cs_grammar::specs::Tables::assignment, cs_grammar::specs::Tables::step_operator))]
fn change_of(sign: Sign) -> Option<Change>
    ensures { result ≡ spec.change_of sign }
{
    match sign {
        Sign::Assign => Some(Change::Assign(AssignOp::Set)),
        Sign::AddAssign => Some(Change::Assign(AssignOp::Add)),
        Sign::SubtractAssign => Some(Change::Assign(AssignOp::Subtract)),
        Sign::MultiplyAssign => Some(Change::Assign(AssignOp::Multiply)),
        Sign::DivideAssign => Some(Change::Assign(AssignOp::Divide)),
        Sign::RemainderAssign => Some(Change::Assign(AssignOp::Remainder)),
        Sign::PlusPlus => Some(Change::Step(StepOp::Increment)),
        Sign::MinusMinus => Some(Change::Step(StepOp::Decrement)),
        _ => None,
    }
}

fn changing(kind: &TokenKind) -> Option<Change>
    ensures { result ≡ spec.changing kind.now }
{
    match kind {
        TokenKind::Sign(sign) => change_of(*sign),
        _ => None,
    }
}

/// What changes the name that stands first, and the tokens behind it.
pub fn change_first<'a>(tokens: &'a [Token]) -> Option<(Change, &'a [Token])>
    ensures { MatchOption result
        (spec.change_first tokens.now ≡ None)
        (λ x. spec.change_first tokens.now ≡ Some (x.0, x.1.now)) }
{
    let (n, rest) = tokens.split_first()?;
    let (t, rest) = rest.split_first()?;
    if !is_name(n) {
        return None;
    }
    let change = changing(&t.kind)?;
    Some((change, rest))
}

pub fn changed<'a>(
    alloc: Global,
    change: Change,
    name: Ident,
    tokens: &'a [Token],
) -> Front<'a, Boxed<Expr>>
    ensures { Gives (λ x. (x.0, x.1.now)) result (spec.changed change name tokens.now) }
{
    let place = name.place;
    match change {
        Change::Assign(op) => {
            let (value, rest) = expr_first(alloc, 0, tokens)?;
            let kind = ExprKind::Assign(op, name, value);
            Ok((making::node(alloc, place, kind)?, rest))
        }
        Change::Step(op) => {
            let kind = ExprKind::Step(op, name);
            Ok((making::node(alloc, place, kind)?, tokens))
        }
    }
}

/// An expression that is a call.
fn called<'a>(alloc: Global, tokens: &'a [Token]) -> Front<'a, Boxed<Expr>>
    ensures { Gives (λ x. (x.0, x.1.now)) result (spec.called tokens.now) }
{
    let (a, rest) = expr_first(alloc, 0, tokens)?;
    if !is_call(a.get()) {
        return Err(Unread::Syntax(tokens.len()));
    }
    Ok((a, rest))
}

/// A change or a call.
fn act<'a>(alloc: Global, tokens: &'a [Token]) -> Front<'a, Boxed<Expr>>
    ensures { Gives (λ x. (x.0, x.1.now)) result (spec.act tokens.now) }
{
    match change_first(tokens) {
        Some((change, rest)) => {
            let (name, _) = name_first(tokens)?;
            changed(alloc, change, name, rest)
        }
        None => called(alloc, tokens),
    }
}

/// A type, or `var`.
fn type_or_var<'a>(alloc: Global, tokens: &'a [Token]) -> Front<'a, Option<TypeExpr>>
    ensures { Gives (λ x. (x.0, x.1.now)) result (spec.type_or_var tokens.now) }
{
    match behind_word(tokens, Word::Var) {
        Some(rest) => Ok((None, rest)),
        None => {
            let (a, rest) = type_first(alloc, tokens)?;
            Ok((Some(a), rest))
        }
    }
}

/// The type of the local that stands first, if one does.
fn local_type<'a>(
    alloc: Global,
    tokens: &'a [Token],
) -> Result<Option<(Option<TypeExpr>, &'a [Token])>, Unread>
    ensures { Gives front_view result (Some (spec.local_type tokens.now)) }
{
    match type_or_var(alloc, tokens) {
        Ok((a, rest)) => {
            if has_name(rest) {
                Ok(Some((a, rest)))
            } else {
                Ok(None)
            }
        }
        Err(Unread::Syntax(_)) => Ok(None),
        Err(Unread::Oom) => Err(Unread::Oom),
    }
}

/// An initial value, or none.
pub fn initial<'a>(alloc: Global, tokens: &'a [Token]) -> Front<'a, Option<Expr>>
    ensures { Gives (λ x. (x.0, x.1.now)) result (spec.initial tokens.now) }
{
    match behind(tokens, Sign::Assign) {
        Some(rest) => {
            let (value, rest) = expr_first(alloc, 0, rest)?;
            Ok((Some(value.into_inner()), rest))
        }
        None => Ok((None, tokens)),
    }
}

fn local<'a>(alloc: Global, cs_type: Option<TypeExpr>, tokens: &'a [Token]) -> Front<'a, StmtKind>
    ensures { Gives (λ x. (x.0, x.1.now)) result (spec.local cs_type tokens.now) }
{
    let (name, rest) = name_first(tokens)?;
    let (value, rest) = initial(alloc, rest)?;
    let kind = StmtKind::Local {
        cs_type,
        name,
        value,
    };
    Ok((kind, rest))
}

/// A local, a change or a call.
fn simple<'a>(alloc: Global, tokens: &'a [Token]) -> Front<'a, StmtKind>
    ensures { Gives (λ x. (x.0, x.1.now)) result (spec.simple tokens.now) }
{
    match local_type(alloc, tokens)? {
        Some((cs_type, rest)) => local(alloc, cs_type, rest),
        None => {
            let (a, rest) = act(alloc, tokens)?;
            let kind = StmtKind::Expr(a.into_inner());
            Ok((kind, rest))
        }
    }
}

/// The same at its place.
pub fn simple_first<'a>(alloc: Global, tokens: &'a [Token]) -> Front<'a, Boxed<Stmt>>
    ensures { Gives (λ x. (x.0, x.1.now)) result (spec.simple_first tokens.now) }
{
    let place = place_first(tokens)?;
    let (kind, rest) = simple(alloc, tokens)?;
    Ok((statement(alloc, place, kind)?, rest))
}

/// An expression, or nothing before `;`.
pub fn condition_first<'a>(alloc: Global, tokens: &'a [Token]) -> Front<'a, Option<Expr>>
    ensures { Gives (λ x. (x.0, x.1.now)) result (spec.condition_first tokens.now) }
{
    if has_sign(tokens, Sign::Semicolon) {
        return Ok((None, tokens));
    }
    let (a, rest) = expr_first(alloc, 0, tokens)?;
    Ok((Some(a.into_inner()), rest))
}

/// A change or a call, or nothing before `)`.
pub fn step_first<'a>(alloc: Global, tokens: &'a [Token]) -> Front<'a, Option<Expr>>
    ensures { Gives (λ x. (x.0, x.1.now)) result (spec.step_first tokens.now) }
{
    if has_sign(tokens, Sign::CloseRound) {
        return Ok((None, tokens));
    }
    let (a, rest) = act(alloc, tokens)?;
    Ok((Some(a.into_inner()), rest))
}

/// A local, a change or a call, or nothing before `;`.
pub fn start_first<'a>(alloc: Global, tokens: &'a [Token]) -> Front<'a, Option<Boxed<Stmt>>>
    ensures { Gives (λ x. (x.0, x.1.now)) result (spec.start_first tokens.now) }
{
    if has_sign(tokens, Sign::Semicolon) {
        return Ok((None, tokens));
    }
    let (a, rest) = simple_first(alloc, tokens)?;
    Ok((Some(a), rest))
}
