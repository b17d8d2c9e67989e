// Reads attributes.
ghost use Rattle.std.specs.Prelude.{◌≡◌, Some, None, MatchOption};
ghost use Rattle.std.specs.List.{list_any};
ghost use Rattle.razor_ast.specs.Attributes as grammar;
ghost use Rattle.razor_reader.specs.AttributeReading as spec;
ghost use Rattle.razor_reader.specs.NameReading.{name_form};
ghost use Rattle.razor_reader.specs.Reading.{Gives};

use crate::attribute::texts::{is_name_text, text_expression};
use crate::attribute::values::{
    event_value, key_value, led_first, name_value, parts_first, text_value,
};
use crate::fronts::{Front, Numbered, after, behind, has, next_number, place_first};
use crate::mark::Mark;
use crate::names::{NameForm, name_form};
use crate::unread::Unread;
use cs_ast::Ident;
use razor_ast::{Attribute, AttributeKind, Given};
use razor_token::{Piece, PieceKind};
use sqlite_items::Items;
use std::alloc::Global;
use text_core::Txt;

/// The meaning of an attribute, the next number behind it, and the pieces behind it.
type Meaning<'a> = Numbered<'a, AttributeKind>;

/// Literal text mixed with content expressions, or no value.
fn mixed<'a>(alloc: Global, number: u32, pieces: &'a [Piece]) -> Meaning<'a>
    ensures { Gives (λ x. (x.0, x.1, x.2.now)) result (spec.mixed number pieces.now) }
{
    let next = next_number(number)?;
    let Some(inner) = behind(pieces, Mark::ValueStart) else {
        let value = Items::new(alloc);
        return Ok((AttributeKind::Mixed { number, value }, next, pieces));
    };
    let (value, rest) = parts_first(alloc, inner)?;
    Ok((AttributeKind::Mixed { number, value }, next, rest))
}

fn event<'a>(alloc: Global, number: u32, pieces: &'a [Piece]) -> Meaning<'a>
    ensures { Gives (λ x. (x.0, x.1, x.2.now)) result (spec.event number pieces.now) }
{
    let next = next_number(number)?;
    let (value, rest) = event_value(alloc, after(pieces, Mark::ValueStart)?)?;
    Ok((AttributeKind::Event { number, value }, next, rest))
}

fn bind<'a>(number: u32, pieces: &'a [Piece]) -> Meaning<'a>
    ensures { Gives (λ x. (x.0, x.1, x.2.now)) result (spec.bind number pieces.now) }
{
    let next = next_number(next_number(number)?)?;
    let (field, rest) = name_value(after(pieces, Mark::ValueStart)?)?;
    Ok((AttributeKind::Bind { number, field }, next, rest))
}

fn bind_event<'a>(alloc: Global, number: u32, pieces: &'a [Piece]) -> Meaning<'a>
    ensures { Gives (λ x. (x.0, x.1, x.2.now)) result (spec.bind_event number pieces.now) }
{
    let (text, rest) = text_value(alloc, after(pieces, Mark::ValueStart)?)?;
    if !text.is("oninput") {
        return Err(Unread::Syntax(pieces.len()));
    }
    Ok((AttributeKind::BindEvent, number, rest))
}

fn key<'a>(alloc: Global, number: u32, pieces: &'a [Piece]) -> Meaning<'a>
    ensures { Gives (λ x. (x.0, x.1, x.2.now)) result (spec.key number pieces.now) }
{
    let (value, rest) = key_value(alloc, after(pieces, Mark::ValueStart)?)?;
    Ok((AttributeKind::Key(value), number, rest))
}

fn context<'a>(alloc: Global, number: u32, pieces: &'a [Piece]) -> Meaning<'a>
    ensures { Gives (λ x. (x.0, x.1, x.2.now)) result (spec.context number pieces.now) }
{
    let next = next_number(number)?;
    let inner = after(pieces, Mark::ValueStart)?;
    let (text, rest) = text_value(alloc, inner)?;
    if !is_name_text(alloc, &text)? {
        return Err(Unread::Syntax(inner.len()));
    }
    let name = Ident {
        place: place_first(inner),
        name: text,
    };
    Ok((AttributeKind::Context { number, name }, next, rest))
}

/// A value without an at sign before it, of which `start` is the first character.
fn text<'a>(alloc: Global, all: &[Piece], start: u32, inner: &'a [Piece]) -> Front<'a, Given>
    ensures { Gives (λ x. (x.0, x.1.now)) result (spec.text all.now start inner.now) }
{
    let place = place_first(inner);
    let (text, rest) = text_value(alloc, inner)?;
    let expression = text_expression(alloc, all, start, place, &text)?;
    let given = Given::Text {
        place,
        text,
        expression,
    };
    Ok((given, rest))
}

/// What is given to a parameter by the value that begins with this piece.
fn given<'a>(alloc: Global, all: &[Piece], start: u32, inner: &'a [Piece]) -> Front<'a, Given>
    ensures { Gives (λ x. (x.0, x.1.now)) result (spec.given_by all.now start inner.now) }
{
    if has(inner, Mark::At) {
        let (a, rest) = led_first(alloc, inner)?;
        return Ok((Given::Value(a), rest));
    }
    text(alloc, all, start, inner)
}

/// What is given to a parameter, and the pieces behind it.
fn given_first<'a>(alloc: Global, all: &[Piece], pieces: &'a [Piece]) -> Front<'a, Given>
    ensures { Gives (λ x. (x.0, x.1.now)) result (spec.given_first all.now pieces.now) }
{
    let Some((v, inner)) = pieces.split_first() else {
        return Ok((Given::Nothing, pieces));
    };
    match &v.kind {
        PieceKind::ValueStart(_) => given(alloc, all, v.start, inner),
        _ => Ok((Given::Nothing, pieces)),
    }
}

fn parameter<'a>(alloc: Global, all: &[Piece], number: u32, pieces: &'a [Piece]) -> Meaning<'a>
    ensures { Gives (λ x. (x.0, x.1, x.2.now)) result (spec.parameter all.now number pieces.now) }
{
    let next = next_number(number)?;
    let (given, rest) = given_first(alloc, all, pieces)?;
    Ok((AttributeKind::Parameter { number, given }, next, rest))
}

/// What an attribute means whose name is of this form, by the pieces behind its name.
fn meaning<'a>(
    alloc: Global,
    all: &[Piece],
    form: NameForm,
    number: u32,
    pieces: &'a [Piece],
) -> Meaning<'a>
    ensures { Gives (λ x. (x.0, x.1, x.2.now)) result (spec.meaning all.now form number pieces.now) }
{
    match form {
        NameForm::Plain => mixed(alloc, number, pieces),
        NameForm::Parameter => parameter(alloc, all, number, pieces),
        NameForm::Context => context(alloc, number, pieces),
        NameForm::Key => key(alloc, number, pieces),
        NameForm::Event => event(alloc, number, pieces),
        NameForm::Bind => bind(number, pieces),
        NameForm::BindEvent => bind_event(alloc, number, pieces),
        NameForm::Nothing => Err(Unread::Syntax(pieces.len())),
    }
}

/// What an attribute of this name means on a component's tag, or on another one.
fn meaning_of<'a>(
    alloc: Global,
    all: &[Piece],
    component: bool,
    number: u32,
    name: &Txt,
    pieces: &'a [Piece],
) -> Meaning<'a>
    ensures { Gives (λ x. (x.0, x.1, x.2.now)) result (spec.meaning all.now (name_form component name.now) number pieces.now) }
{
    let form = name_form(alloc, component, name)?;
    meaning(alloc, all, form, number, pieces)
}

/// An attribute of a tag, which is a component's or not, by its name and the pieces behind that.
fn named<'a>(
    alloc: Global,
    all: &[Piece],
    component: bool,
    number: u32,
    p: &Piece,
    name: &Txt,
    pieces: &'a [Piece],
) -> Numbered<'a, Attribute>
    ensures { Gives (λ x. (x.0, x.1, x.2.now)) result (spec.named all.now component number p.now name.now pieces.now) }
{
    let said = name.clone()?;
    let (kind, next, rest) = meaning_of(alloc, all, component, number, name, pieces)?;
    let attribute = Attribute {
        place: p.place,
        name: said,
        kind,
    };
    Ok((attribute, next, rest))
}

/// The attribute that stands first.
fn attribute_first<'a>(
    alloc: Global,
    all: &[Piece],
    component: bool,
    number: u32,
    pieces: &'a [Piece],
) -> Numbered<'a, Attribute>
    ensures { Gives (λ x. (x.0, x.1, x.2.now)) result (spec.attribute_first all.now component number pieces.now) }
{
    let Some((p, rest)) = pieces.split_first() else {
        return Err(Unread::Syntax(0));
    };
    match &p.kind {
        PieceKind::AttributeName(name) => named(alloc, all, component, number, p, name, rest),
        _ => Err(Unread::Syntax(pieces.len())),
    }
}

fn is_attribute(p: &Piece) -> bool
    ensures { result ≡ spec.is_attribute p.now.kind }
{
    match &p.kind {
        PieceKind::AttributeName(_) => true,
        _ => false,
    }
}

/// The pieces from an attribute on that stands behind white space.
fn to_attribute<'a>(pieces: &'a [Piece]) -> Option<&'a [Piece]>
    ensures { MatchOption result
        (spec.to_attribute pieces.now ≡ None)
        (λ rest. spec.to_attribute pieces.now ≡ Some rest.now) }
{
    let rest = behind(pieces, Mark::Space)?;
    let (p, _) = rest.split_first()?;
    if is_attribute(p) { Some(rest) } else { None }
}

/// The attributes that stand first.
#[tactic(auto, using(crate::proofs::AttributeLoops::attributes_start, crate::proofs::AttributeLoops::attributes_none, crate::proofs::AttributeLoops::attributes_end, crate::proofs::AttributeLoops::attributes_fail, crate::proofs::AttributeLoops::attributes_turn))]
fn some_attributes<'a>(
    alloc: Global,
    all: &[Piece],
    component: bool,
    number: u32,
    pieces: &'a [Piece],
) -> Numbered<'a, Items<Attribute>>
    ensures { Gives (λ x. (x.0, x.1, x.2.now)) result (spec.some_attributes all.now component number pieces.now) }
{
    let mut found = Items::new(alloc);
    let mut next = number;
    let mut rest = pieces;
    let mut left = pieces.len() + 1;
    while left > 0 {
        let Some(name) = to_attribute(rest) else {
            return Ok((found, next, rest));
        };
        let (attribute, following, behind) = attribute_first(alloc, all, component, next, name)?;
        found.push(attribute)?;
        next = following;
        rest = behind;
        left -= 1;
    }
    Err(Unread::Syntax(rest.len()))
}

fn is_bind(a: &Attribute) -> bool
    ensures { result ≡ grammar.is_bind a.now.kind }
{
    match &a.kind {
        AttributeKind::Bind { .. } => true,
        _ => false,
    }
}

fn is_bind_event(a: &Attribute) -> bool
    ensures { result ≡ grammar.is_bind_event a.now.kind }
{
    match &a.kind {
        AttributeKind::BindEvent => true,
        _ => false,
    }
}

fn has_bind(attributes: &[Attribute]) -> bool
    ensures { result ≡ list_any (λ a. grammar.is_bind a.kind) attributes.now }
{
    attributes.iter().any(|a| is_bind(a))
}

fn has_bind_event(attributes: &[Attribute]) -> bool
    ensures { result ≡ list_any (λ a. grammar.is_bind_event a.kind) attributes.now }
{
    attributes.iter().any(|a| is_bind_event(a))
}

/// Whether `@bind` is there where `@bind:event` is.
fn is_bound(attributes: &[Attribute]) -> bool
    ensures { result ≡ grammar.is_bound attributes.now }
{
    !has_bind_event(attributes) || has_bind(attributes)
}

/// The attributes of a tag.
pub fn attributes_first<'a>(
    alloc: Global,
    all: &[Piece],
    component: bool,
    number: u32,
    pieces: &'a [Piece],
) -> Numbered<'a, Items<Attribute>>
    ensures { Gives (λ x. (x.0, x.1, x.2.now)) result (spec.attributes_first all.now component number pieces.now) }
{
    let (found, next, rest) = some_attributes(alloc, all, component, number, pieces)?;
    if !is_bound(found.as_slice()) {
        return Err(Unread::Syntax(pieces.len()));
    }
    Ok((found, next, rest))
}
