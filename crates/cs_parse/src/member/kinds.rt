// Reads fields, getters, methods and records, behind their modifiers.
ghost use Rattle.std.specs.Prelude.{◌≡◌, Some, None, MatchOption};
ghost use Rattle.cs_parse.specs.MemberReading as spec;
ghost use Rattle.cs_parse.specs.Reading.{Gives};
ghost use Rattle.cs_parse.specs.SimpleReading as simple;

use crate::member::arguments::argument_list;
use crate::member::attributes::{after_name, is_named};
use crate::member::bodies::{method_body, value_first};
use crate::member::properties::property_of;
use crate::statement::{initial, is_name};
use crate::tokens::{Front, after, behind, has_sign, is_sign, is_word, name_first};
use crate::types::type_first;
use crate::unread::Unread;
use cs_ast::{Ident, MemberKind, TypeExpr};
use cs_token::{Sign, Token, TokenKind, Word};
use std::alloc::Global;

/// A member behind its modifiers.
pub fn declared<'a>(alloc: Global, tokens: &'a [Token]) -> Front<'a, MemberKind>
    ensures { Gives (λ x. (x.0, x.1.now)) result (spec.declared tokens.now) }
{
    if is_record(tokens) {
        record_of(alloc, tokens)
    } else {
        plain(alloc, tokens)
    }
}

/// Whether `record`, a name and a bracket stand first.
fn is_record(tokens: &[Token]) -> bool
    ensures { result ≡ spec.is_record tokens.now }
{
    match tokens {
        [word, name, open, ..] => {
            is_named(word, "record") && is_name(name) && is_sign(open, Sign::OpenRound)
        }
        _ => false,
    }
}

fn record_of<'a>(alloc: Global, tokens: &'a [Token]) -> Front<'a, MemberKind>
    ensures { Gives (λ x. (x.0, x.1.now)) result (spec.record_of tokens.now) }
{
    let rest = after_name(tokens, "record")?;
    let (name, rest) = name_first(rest)?;
    let rest = after(rest, Sign::OpenRound)?;
    let (parts, rest) = argument_list(alloc, rest)?;
    let rest = after(rest, Sign::Semicolon)?;
    Ok((MemberKind::RecordDef { name, parts }, rest))
}

/// What has a result and a name.
fn plain<'a>(alloc: Global, tokens: &'a [Token]) -> Front<'a, MemberKind>
    ensures { Gives (λ x. (x.0, x.1.now)) result (spec.plain tokens.now) }
{
    let (returned, rest) = result_first(alloc, tokens)?;
    let (name, rest) = name_first(rest)?;
    match behind(rest, Sign::OpenRound) {
        Some(rest) => method(alloc, returned, name, rest),
        None => valued(alloc, returned, name, rest),
    }
}

/// The result of a method, or the type of a value.
fn result_first<'a>(alloc: Global, tokens: &'a [Token]) -> Front<'a, Option<TypeExpr>>
    ensures { Gives (λ x. (x.0, x.1.now)) result (spec.result_first tokens.now) }
{
    match behind_nothing(tokens) {
        Some(rest) => Ok((None, rest)),
        None => {
            let (written, rest) = type_first(alloc, tokens)?;
            Ok((Some(written), rest))
        }
    }
}

/// The tokens behind `void`, `Task` or `async Task`, if they stand first.
fn behind_nothing<'a>(tokens: &'a [Token]) -> Option<&'a [Token]>
    ensures { MatchOption result
        (spec.after_nothing tokens.now ≡ None)
        (λ rest. spec.after_nothing tokens.now ≡ Some rest.now) }
{
    let (t, rest) = tokens.split_first()?;
    if is_word(t, Word::Void) || is_word(t, Word::Task) {
        return Some(rest);
    }
    if !is_word(t, Word::Async) {
        return None;
    }
    let (t, rest) = rest.split_first()?;
    if is_word(t, Word::Task) {
        Some(rest)
    } else {
        None
    }
}

fn method<'a>(
    alloc: Global,
    returned: Option<TypeExpr>,
    name: Ident,
    tokens: &'a [Token],
) -> Front<'a, MemberKind>
    ensures { Gives (λ x. (x.0, x.1.now)) result (spec.method returned name tokens.now) }
{
    let (arguments, rest) = argument_list(alloc, tokens)?;
    let (body, rest) = method_body(alloc, rest)?;
    let kind = MemberKind::Method {
        result: returned,
        name,
        arguments,
        body,
    };
    Ok((kind, rest))
}

/// What has a type and a name, and no arguments.
fn valued<'a>(
    alloc: Global,
    written: Option<TypeExpr>,
    name: Ident,
    tokens: &'a [Token],
) -> Front<'a, MemberKind>
    ensures { Gives (λ x. (x.0, x.1.now)) result (spec.valued written name tokens.now) }
{
    let Some(cs_type) = written else {
        return Err(Unread::Syntax(tokens.len()));
    };
    if has_sign(tokens, Sign::OpenBrace) {
        return property_of(alloc, cs_type, name, tokens);
    }
    match behind(tokens, Sign::Arrow) {
        Some(rest) => getter(alloc, cs_type, name, rest),
        None => field(alloc, cs_type, name, tokens),
    }
}

fn getter<'a>(
    alloc: Global,
    cs_type: TypeExpr,
    name: Ident,
    tokens: &'a [Token],
) -> Front<'a, MemberKind>
    ensures { Gives (λ x. (x.0, x.1.now)) result (spec.getter cs_type name tokens.now) }
{
    let (value, rest) = value_first(alloc, tokens)?;
    let value = value.into_inner();
    Ok((
        MemberKind::Getter {
            result: cs_type,
            name,
            value,
        },
        rest,
    ))
}

fn field<'a>(
    alloc: Global,
    cs_type: TypeExpr,
    name: Ident,
    tokens: &'a [Token],
) -> Front<'a, MemberKind>
    ensures { Gives (λ x. (x.0, x.1.now)) result (spec.field cs_type name tokens.now) }
{
    let (initial, rest) = initial(alloc, tokens)?;
    let rest = after(rest, Sign::Semicolon)?;
    let kind = MemberKind::Field {
        cs_type,
        name,
        initial,
    };
    Ok((kind, rest))
}
