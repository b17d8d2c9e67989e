// Reads types, by a stack of what waits for the type inside it.
ghost use Rattle.std.specs.Prelude.{◌≡◌, ◌<◌, ◌≤◌, Some, length, IfOk};
ghost use Rattle.cs_grammar.specs.Tables as tables;
ghost use Rattle.cs_parse.specs.OpenTypes as spec;
ghost use Rattle.cs_parse.specs.Reading.{Gives};
ghost use Rattle.cs_parse.specs.TypeReading as reading;
ghost use Rattle.cs_parse.specs.TypeReading.{type_first};

use crate::tokens::{Front, after, behind};
use crate::unread::Unread;
use cs_ast::{TypeExpr, TypeKind};
use cs_token::{Sign, Token, TokenKind, Word};
use sqlite_items::{Boxed, Items};
use std::alloc::Global;
use text_core::Place;

/// A word that makes a type of another one.
#[derive(Clone, Copy)]
pub enum Former {
    List,
    Callback,
    Fragment,
}

/// A word and `<`, which wait for a type and `>`.
#[derive(Clone, Copy)]
pub struct Opened {
    pub former: Former,
    pub place: Place,
}

/// How a type begins.
#[derive(Drop)]
pub enum Begun {
    Whole(TypeExpr),
    /// It is round another one.
    Round(Opened),
}

#[tactic(auto, unfolding(crate::specs::TypeReading::former))]
fn former_of(word: Word) -> Option<Former>
    ensures { result ≡ reading.former word }
{
    match word {
        Word::ImmutableList => Some(Former::List),
        Word::EventCallback => Some(Former::Callback),
        Word::RenderFragment => Some(Former::Fragment),
        _ => None,
    }
}

#[tactic(auto, unfolding(cs_grammar::specs::Tables::plain_type))]
fn plain_type(word: Word) -> Option<(TypeKind, bool)>
    ensures { result ≡ tables.plain_type word }
{
    match word {
        Word::Int => Some((TypeKind::Int, false)),
        Word::Bool => Some((TypeKind::Bool, false)),
        Word::String => Some((TypeKind::Text, true)),
        Word::ChangeEventArgs => Some((TypeKind::Change, false)),
        Word::EventArgs | Word::MouseEventArgs | Word::KeyboardEventArgs | Word::FocusEventArgs =>
            Some((TypeKind::Args, false)),
        _ => None,
    }
}

/// The type that stands first.
pub fn type_first<'a>(alloc: Global, tokens: &'a [Token]) -> Front<'a, TypeExpr>
    ensures { Gives (λ x. (x.0, x.1.now)) result (type_first tokens.now) }
{
    let mut waiting = Items::new(alloc);
    let mut left = tokens;
    loop {
        let (begun, rest) = begin(left)?;
        match begun {
            Begun::Round(opened) => waiting.push(opened)?,
            Begun::Whole(inner) => return close_all(alloc, waiting, inner, rest),
        }
        left = rest;
    }
}

/// What the tokens begin with.
fn begin<'a>(tokens: &'a [Token]) -> Front<'a, Begun>
    ensures read { Gives (λ x. (x.0, x.1.now)) result (spec.begun tokens.now) }
    ensures fewer { IfOk result (λ x. length x.1.now < length tokens.now) }
{
    let Some((t, rest)) = tokens.split_first() else {
        return Err(Unread::Syntax(0));
    };
    match &t.kind {
        TokenKind::Name(name) => Ok(whole(t.place, true, TypeKind::Named(name.clone()?), rest)),
        TokenKind::Word(word) => of_word(*word, t.place, rest),
        _ => Err(Unread::Syntax(tokens.len())),
    }
}

/// A whole type, behind which a `?` may stand.
fn whole<'a>(
    place: Place,
    nullable: bool,
    kind: TypeKind,
    tokens: &'a [Token],
) -> (Begun, &'a [Token])
    ensures read { spec.whole place nullable kind tokens.now ≡ Some (result.0, result.1.now) }
    ensures fewer { length result.1.now ≤ length tokens.now }
{
    (
        Begun::Whole(TypeExpr { place, kind }),
        unmarked(nullable, tokens),
    )
}

/// The tokens without the `?` that stands first behind a type that can be null.
#[tactic(auto, using(crate::proofs::OpenTypeLaws::after_fewer))]
fn unmarked<'a>(nullable: bool, tokens: &'a [Token]) -> &'a [Token]
    ensures read { result.now ≡ reading.unmarked nullable tokens.now }
    ensures fewer { length result.now ≤ length tokens.now }
{
    if !nullable {
        return tokens;
    }
    match behind(tokens, Sign::Question) {
        Some(rest) => rest,
        None => tokens,
    }
}

fn of_word<'a>(word: Word, place: Place, tokens: &'a [Token]) -> Front<'a, Begun>
    ensures read { Gives (λ x. (x.0, x.1.now)) result (spec.of_word word place tokens.now) }
    ensures fewer { IfOk result (λ x. length x.1.now ≤ length tokens.now) }
{
    if let Some((kind, nullable)) = plain_type(word) {
        return Ok(whole(place, nullable, kind, tokens));
    }
    match former_of(word) {
        Some(former) => of_former(former, place, tokens),
        None => Err(Unread::Syntax(tokens.len())),
    }
}

#[tactic(auto, using(crate::proofs::OpenTypeLaws::after_fewer))]
fn of_former<'a>(former: Former, place: Place, tokens: &'a [Token]) -> Front<'a, Begun>
    ensures read { Gives (λ x. (x.0, x.1.now)) result (spec.of_former former place tokens.now) }
    ensures fewer { IfOk result (λ x. length x.1.now ≤ length tokens.now) }
{
    if let Some(rest) = behind(tokens, Sign::Less) {
        return Ok((Begun::Round(Opened { former, place }), rest));
    }
    match former {
        Former::List => Err(Unread::Syntax(tokens.len())),
        Former::Callback => Ok(whole(place, false, TypeKind::Callback(None), tokens)),
        Former::Fragment => Ok(whole(place, true, TypeKind::Fragment(None), tokens)),
    }
}

/// The type round all of what waits for this one.
fn close_all<'a>(
    alloc: Global,
    waiting: Items<Opened>,
    inner: TypeExpr,
    tokens: &'a [Token],
) -> Front<'a, TypeExpr>
    ensures { Gives (λ x. (x.0, x.1.now)) result (spec.all_closed waiting (Some (inner, tokens.now))) }
{
    let mut waiting = waiting;
    let mut inner = inner;
    let mut left = tokens;
    while let Some(opened) = waiting.pop() {
        let (outer, rest) = close(alloc, opened, inner, left)?;
        inner = outer;
        left = rest;
    }
    Ok((inner, left))
}

/// The type round one that was read.
fn close<'a>(
    alloc: Global,
    opened: Opened,
    inner: TypeExpr,
    tokens: &'a [Token],
) -> Front<'a, TypeExpr>
    ensures { Gives (λ x. (x.0, x.1.now)) result (spec.closed opened inner tokens.now) }
{
    let rest = after(tokens, Sign::Greater)?;
    let inner = Boxed::new(alloc, inner)?;
    let (kind, nullable) = match opened.former {
        Former::List => (TypeKind::List(inner), true),
        Former::Callback => (TypeKind::Callback(Some(inner)), false),
        Former::Fragment => (TypeKind::Fragment(Some(inner)), true),
    };
    let place = opened.place;
    Ok((TypeExpr { place, kind }, unmarked(nullable, rest)))
}
