// What an expression begins with.
ghost use Rattle.std.specs.Prelude.{◌≡◌, ◌+◌, ◌*◌, ◌≤◌, length, Some};
ghost use Rattle.cs_grammar.specs.Expressions.{node};
ghost use Rattle.cs_parse.specs.ExpressionReading as spec;
ghost use Rattle.cs_parse.specs.ExpressionReading.{reads};
ghost use Rattle.cs_parse.specs.Frames.{Leads, CostsUpTo, meaning, cost};

use crate::expressions::forms::{as_cast, empty_list, static_member};
use crate::expressions::frame::{Callee, Form, Turn};
use crate::expressions::parts::{arguments, text_parts};
use crate::making;
use crate::tables::{FirstSign, FirstWord, first_sign, first_word};
use crate::tokens::{Front, after, name_first};
use crate::unread::Unread;
use cs_ast::ExprKind;
use cs_token::{Sign, Token, TokenKind};
use sqlite_items::Items;
use std::alloc::Global;
use text_core::Place;

/// What begins with this token, up to the next expression.
pub fn prefix<'a>(alloc: Global, t: &'a Token, rest: &'a [Token]) -> Front<'a, Turn>
    ensures read { Leads (spec.prefix reads t.now.kind t.now.place rest.now) result }
    ensures small { CostsUpTo (3 * length rest.now + 1) result }
{
    let place = t.place;
    match &t.kind {
        TokenKind::Number(number) => literal(alloc, place, ExprKind::Int(*number), rest),
        TokenKind::Text(text) => literal(alloc, place, ExprKind::Text(text.clone()?), rest),
        TokenKind::Name(name) => literal(alloc, place, ExprKind::Name(name.clone()?), rest),
        TokenKind::Part(_) => Err(Unread::Syntax(rest.len().saturating_add(1))),
        TokenKind::Word(word) => of_word(alloc, first_word(*word), place, rest),
        TokenKind::Sign(sign) => of_sign(alloc, first_sign(*sign), place, rest),
    }
}

/// An expression of one token.
fn literal<'a>(alloc: Global, place: Place, kind: ExprKind, rest: &'a [Token]) -> Front<'a, Turn>
    ensures read { Leads (Some (node place kind, rest.now)) result }
    ensures small { CostsUpTo (3 * length rest.now + 1) result }
{
    Ok((Turn::Found(making::node(alloc, place, kind)?), rest))
}

fn of_word<'a>(alloc: Global, word: FirstWord, place: Place, rest: &'a [Token]) -> Front<'a, Turn>
    ensures read { Leads (spec.of_word reads word place rest.now) result }
    ensures small { CostsUpTo (3 * length rest.now + 1) result }
{
    match word {
        FirstWord::Truth(truth) => literal(alloc, place, ExprKind::Bool(truth), rest),
        FirstWord::Null => literal(alloc, place, ExprKind::Null, rest),
        FirstWord::New => made_record(alloc, place, rest),
        FirstWord::List => {
            let (a, rest) = empty_list(alloc, place, rest)?;
            Ok((Turn::Found(a), rest))
        }
        FirstWord::Static(owner) => {
            let (a, rest) = static_member(alloc, owner, place, rest)?;
            Ok((Turn::Found(a), rest))
        }
        FirstWord::Nothing => Err(Unread::Syntax(rest.len().saturating_add(1))),
    }
}

/// `new N(..)`
#[tactic(auto, using(crate::proofs::FrameLaws::record_law))]
fn made_record<'a>(alloc: Global, place: Place, tokens: &'a [Token]) -> Front<'a, Turn>
    ensures read { Leads (spec.made_record reads place tokens.now) result }
    ensures small { CostsUpTo (3 * length tokens.now + 1) result }
{
    let (name, rest) = name_first(tokens)?;
    let rest = after(rest, Sign::OpenRound)?;
    arguments(alloc, place, Callee::Record(name), rest)
}

fn of_sign<'a>(alloc: Global, sign: FirstSign, place: Place, rest: &'a [Token]) -> Front<'a, Turn>
    ensures read { Leads (spec.of_sign reads sign place rest.now) result }
    ensures small { CostsUpTo (3 * length rest.now + 1) result }
{
    match sign {
        FirstSign::Interpolation => text_parts(alloc, place, Items::new(alloc), rest),
        FirstSign::Round => Ok(round(place, rest)),
        FirstSign::Operator(op) => Ok((Turn::Wanted(Form::Unary { place, op }, 11), rest)),
        FirstSign::Nothing => Err(Unread::Syntax(rest.len().saturating_add(1))),
    }
}

/// A cast, or an expression in brackets.
fn round<'a>(place: Place, tokens: &'a [Token]) -> (Turn, &'a [Token])
    ensures read { spec.round reads place tokens.now ≡ meaning result.0 result.1.now }
    ensures small { cost result.0 result.1.now ≤ 3 * length tokens.now + 1 }
{
    match as_cast(tokens) {
        Some(rest) => (Turn::Wanted(Form::Cast { place }, 11), rest),
        None => (Turn::Wanted(Form::Brackets, 0), tokens),
    }
}
