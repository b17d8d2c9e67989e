// The attributes of elements.
ghost use Rattle.std.specs.Prelude.{◌≡◌, [], ◌∷◌, drop, map, IfOk};
ghost use Rattle.cs_forms.specs.Agrees.{Agrees, AgreesBy};
ghost use Rattle.cs_rules.specs.Judged.{each};
ghost use Rattle.frame_program.specs.Operations.{said_by, dressed_by};
ghost use Rattle.frame_parts.specs.Attributes as spec;
ghost use Rattle.frame_parts.specs.Steps.{judged, code_in};
ghost use Rattle.frame_parts.specs.Views.{IsWhole, home_in, found_view, numbered};
ghost use Rattle.razor_rules.specs.Elements.{event_type as event_type_spec};

use crate::bound::{bind_kind, bound_attribute, bound_event, own_field};
use crate::callbacks::callback;
use crate::making::{Making, put_body};
use crate::scopes::place_at;
use crate::site::Site;
use crate::targets::Found;
use crate::values::code;
use cs_ast::{Code, CsType, Expr, Ident, Scope};
use cs_forms::CheckFault;
use cs_rules::Rule;
use frame_program::{AttributePart, TextPart};
use razor_ast::{Attribute, AttributeKind, ValuePart};
use razor_parts::numbers::plus;
use sqlite_items::Items;
use std::alloc::Global;
use text_core::{Oom, Txt};

fn said(alloc: Global, scope: &Scope, part: &ValuePart) -> Result<TextPart, CheckFault>
    ensures { AgreesBy said_by result (spec.said_by scope.now part.now) }
{
    match part {
        ValuePart::Literal(text) => Ok(TextPart::Literal(text.clone()?)),
        ValuePart::Shown(a) => Ok(TextPart::Shown(code(alloc, scope, a)?)),
    }
}

#[tactic(auto, using(cs_forms::proofs::FrontLemmas::front_none, cs_forms::proofs::FrontLemmas::front_more, cs_forms::proofs::FrontLemmas::front_end))]
fn all_said(
    alloc: Global,
    scope: &Scope,
    parts: &[ValuePart],
) -> Result<Items<TextPart>, CheckFault>
    ensures { AgreesBy (λ all. map said_by all) result (each (spec.said_by scope.now) parts.now) }
{
    let mut all = Items::new(alloc);
    for part in parts {
        all.push(said(alloc, scope, part)?)?;
    }
    Ok(all)
}

/// A text of several parts.
fn joined(
    alloc: Global,
    scope: &Scope,
    number: u32,
    name: &Txt,
    parts: &[ValuePart],
) -> Result<AttributePart, CheckFault>
    ensures { AgreesBy dressed_by result (spec.joined scope.now number name.now parts.now) }
{
    let parts = all_said(alloc, scope, parts)?;
    let name = name.clone()?;
    Ok(AttributePart::Mixed {
        number,
        name,
        parts,
    })
}

/// A value of one part, which may be an expression by itself.
fn whole(
    alloc: Global,
    scope: &Scope,
    number: u32,
    name: &Txt,
    parts: &[ValuePart],
    one: &ValuePart,
) -> Result<AttributePart, CheckFault>
    requires { parts.now ≡ one.now ∷ [] }
    ensures { AgreesBy dressed_by result (spec.whole scope.now number name.now one.now) }
{
    match one {
        ValuePart::Literal(_) => joined(alloc, scope, number, name, parts),
        ValuePart::Shown(a) => {
            let code = code(alloc, scope, a)?;
            let name = name.clone()?;
            Ok(AttributePart::Whole { number, name, code })
        }
    }
}

/// An attribute with a value of such parts, or without one.
fn mixed(
    alloc: Global,
    scope: &Scope,
    number: u32,
    name: &Txt,
    parts: &[ValuePart],
) -> Result<AttributePart, CheckFault>
    ensures { AgreesBy dressed_by result (spec.mixed scope.now number name.now parts.now) }
{
    match parts {
        [] => {
            let name = name.clone()?;
            Ok(AttributePart::Empty { number, name })
        }
        [one] => whole(alloc, scope, number, name, parts, one),
        [_, _, ..] => joined(alloc, scope, number, name, parts),
    }
}

/// The type of the argument of an event.
#[tactic(auto, unfolding(razor_rules::specs::Elements::event_type))]
fn event_type(name: &Txt) -> CsType
    ensures { result ≡ event_type_spec name.now }
{
    if name.is("@onchange") || name.is("@oninput") {
        CsType::Change
    } else {
        CsType::Args
    }
}

fn text_of(alloc: Global, characters: &[char]) -> Result<Txt, Oom>
    ensures { IfOk result (λ text. text ≡ characters.now) }
{
    let mut text = Txt::new(alloc);
    for character in characters {
        text.push(*character)?;
    }
    Ok(text)
}

/// A name without its first character.
#[tactic(auto, using(razor_parts::proofs::ListLemmas::behind_first, razor_parts::proofs::ListLemmas::behind_none))]
fn without_first(alloc: Global, name: &Txt) -> Result<Txt, Oom>
    ensures { IfOk result (λ text. text ≡ drop 1 name.now) }
{
    let characters = name.to_chars(alloc)?;
    match characters.as_slice().split_first() {
        Some((_, rest)) => text_of(alloc, rest),
        None => Ok(Txt::new(alloc)),
    }
}

/// One part alone.
fn alone(alloc: Global, part: AttributePart) -> Result<Items<AttributePart>, Oom>
    ensures { IfOk result (λ parts. parts ≡ part ∷ []) }
{
    let mut parts = Items::new(alloc);
    parts.push(part)?;
    Ok(parts)
}

/// The handler of an event.
fn event(
    site: &Site<'_>,
    scope: &Scope,
    number: u32,
    name: &Txt,
    a: &Expr,
    making: &mut Making,
) -> Result<Items<AttributePart>, CheckFault>
    requires whole { IsWhole site.now }
    ensures { AgreesBy (λ parts. (map dressed_by parts, numbered making.new)) result
        (spec.event (home_in site.now) scope.now number name.now a.now (numbered making.old)) }
{
    let argument = event_type(name);
    let code = callback(site, scope, number, a, Some(&argument), making)?;
    let name = without_first(site.home.alloc, name)?;
    Ok(alone(site.home.alloc, AttributePart::Event { number, name, code })?)
}

/// The own field that is bound.
fn bound_field(site: &Site<'_>, name: &Ident) -> Result<Found, CheckFault>
    ensures { AgreesBy found_view result (spec.bound_field (home_in site.now) name.now) }
{
    match own_field(site.home.alloc, site.home.members, &name.name)? {
        Some(field) => Ok(field),
        None => Err(CheckFault::Broken {
            rule: Rule::BadBind,
            place: name.place,
        }),
    }
}

/// The attribute that shows a bound field, and the handler of its event.
fn bound_parts(
    site: &Site<'_>,
    number: u32,
    element: &Txt,
    attributes: &[Attribute],
    field: &Found,
) -> Result<Items<AttributePart>, Oom>
    ensures { IfOk result (λ parts. map dressed_by parts ≡ spec.bound_parts (home_in site.now) element.now attributes.now number (found_view field.now)) }
{
    let alloc = site.home.alloc;
    let handler = plus(number, 1)?;
    let mut parts = Items::new(alloc);
    parts.push(AttributePart::Whole {
        number,
        name: bound_attribute(alloc, element, attributes, &field.cs_type)?,
        code: Code::Field(field.place),
    })?;
    parts.push(AttributePart::Handler {
        number: handler,
        name: bound_event(alloc, attributes)?,
        place: place_at(site, handler)?,
    })?;
    Ok(parts)
}

/// A bound field, with the body of its handler.
fn bound(
    site: &Site<'_>,
    number: u32,
    element: &Txt,
    attributes: &[Attribute],
    name: &Ident,
    making: &mut Making,
) -> Result<Items<AttributePart>, CheckFault>
    ensures { AgreesBy (λ parts. (map dressed_by parts, numbered making.new)) result
        (spec.bound (home_in site.now) element.now attributes.now number name.now (numbered making.old)) }
{
    let field = bound_field(site, name)?;
    let place = place_at(site, plus(number, 1)?)?;
    let body = Code::Bind(field.place, bind_kind(&field.cs_type));
    put_body(making, place, body)?;
    Ok(bound_parts(site, number, element, attributes, &field)?)
}

fn key(alloc: Global, scope: &Scope, a: &Expr) -> Result<AttributePart, CheckFault>
    ensures { AgreesBy dressed_by result (spec.key scope.now a.now) }
{
    Ok(AttributePart::Key(code(alloc, scope, a)?))
}

fn attribute(
    site: &Site<'_>,
    scope: &Scope,
    element: &Txt,
    attributes: &[Attribute],
    one: &Attribute,
    making: &mut Making,
) -> Result<Items<AttributePart>, CheckFault>
    requires whole { IsWhole site.now }
    ensures { AgreesBy (λ parts. (map dressed_by parts, numbered making.new)) result
        (spec.attribute (home_in site.now) scope.now element.now attributes.now one.now.kind one.now.name (numbered making.old)) }
{
    let alloc = site.home.alloc;
    match &one.kind {
        AttributeKind::Mixed { number, value } => {
            let part = mixed(alloc, scope, *number, &one.name, value.as_slice())?;
            Ok(alone(alloc, part)?)
        }
        AttributeKind::Key(a) => Ok(alone(alloc, key(alloc, scope, a)?)?),
        AttributeKind::Event { number, value } => {
            event(site, scope, *number, &one.name, value, making)
        }
        AttributeKind::Bind { number, field } => {
            bound(site, *number, element, attributes, field, making)
        }
        AttributeKind::BindEvent => Ok(Items::new(alloc)),
        AttributeKind::Parameter { .. } => Ok(Items::new(alloc)),
        AttributeKind::Context { .. } => Ok(Items::new(alloc)),
    }
}

/// The attributes of an element, one after another.
#[tactic(auto, using(crate::proofs::FrontLemmas::front_none, crate::proofs::FrontLemmas::front_more, crate::proofs::FrontLemmas::front_end))]
pub fn dressed(
    site: &Site<'_>,
    scope: &Scope,
    element: &Txt,
    attributes: &[Attribute],
    making: &mut Making,
) -> Result<Items<AttributePart>, CheckFault>
    requires whole { IsWhole site.now }
    ensures { AgreesBy (λ parts. (map dressed_by parts, numbered making.new)) result
        (spec.dressed (home_in site.now) scope.now element.now attributes.now attributes.now (numbered making.old)) }
{
    let mut parts = Items::new(site.home.alloc);
    for one in attributes {
        parts.append(attribute(site, scope, element, attributes, one, making)?)?;
    }
    Ok(parts)
}
