// Bound fields.
ghost use Rattle.std.specs.Prelude.{◌≡◌, ◌&&◌, bytes_eq, codes, option_map, Some, IfOk};
ghost use Rattle.std.specs.List.{list_any};
ghost use Rattle.page_meaning.specs.Attributes.{bind_kind as kind_spec};
ghost use Rattle.razor_parts.specs.Taken as taken;
ghost use Rattle.razor_rules.specs.Elements as spec;
ghost use Rattle.frame_parts.specs.Views.{found_view};

use crate::targets::Found;
use cs_ast::{BindKind, CsType, Member, MemberKind};
use cs_forms::written::type_of;
use razor_ast::{Attribute, AttributeKind, ValuePart};
use razor_parts::numbers::plus;
use std::alloc::Global;
use text_core::{Oom, Txt};

/// How a bound field of a type reads a text.
pub fn bind_kind(cs_type: &CsType) -> BindKind
    ensures { result ≡ kind_spec cs_type.now }
{
    match cs_type {
        CsType::Int => BindKind::Int,
        CsType::Bool => BindKind::Bool,
        CsType::Text => BindKind::Text,
        CsType::Rec(_) => BindKind::Text,
        CsType::List(_) => BindKind::Text,
        CsType::Callback(_) => BindKind::Text,
        CsType::Fragment(_) => BindKind::Text,
        CsType::Change => BindKind::Text,
        CsType::Args => BindKind::Text,
        CsType::Nothing => BindKind::Text,
    }
}

/// The first own field of a name: its number and its type.
pub fn own_field(alloc: Global, members: &[Member], name: &Txt) -> Result<Option<Found>, Oom>
    ensures { IfOk result (λ it. option_map found_view it ≡ spec.own_field members.now name.now) }
{
    let mut place = 0;
    for one in members {
        if let MemberKind::Field {
            cs_type,
            name: other,
            ..
        } = &one.kind
        {
            if other.name == *name {
                let cs_type = type_of(alloc, cs_type)?;
                return Ok(Some(Found { place, cs_type }));
            }
            place = plus(place, 1)?;
        }
    }
    Ok(None)
}

fn is_truth(cs_type: &CsType) -> bool
    ensures { result ≡ spec.is_truth (Some cs_type.now) }
{
    match cs_type {
        CsType::Bool => true,
        CsType::Int => false,
        CsType::Text => false,
        CsType::Rec(_) => false,
        CsType::List(_) => false,
        CsType::Callback(_) => false,
        CsType::Fragment(_) => false,
        CsType::Change => false,
        CsType::Args => false,
        CsType::Nothing => false,
    }
}

fn is_checkbox_part(part: &ValuePart) -> bool
    ensures { result ≡ taken.part_says (codes "checkbox") part.now }
{
    match part {
        ValuePart::Literal(said) => said.is("checkbox"),
        ValuePart::Shown(_) => false,
    }
}

/// Whether a value is the text `checkbox` and nothing else.
fn is_checkbox_value(parts: &[ValuePart]) -> bool
    ensures { result ≡ taken.says (codes "checkbox") parts.now }
{
    match parts.split_first() {
        Some((first, rest)) => match rest.split_first() {
            Some(_) => false,
            None => is_checkbox_part(first),
        },
        None => false,
    }
}

#[tactic(auto, using(razor_parts::proofs::TakenLaws::says_literal))]
fn is_checkbox_text(kind: &AttributeKind) -> bool
    ensures { result ≡ spec.is_literal (codes "checkbox") kind.now }
{
    match kind {
        AttributeKind::Mixed { value, .. } => is_checkbox_value(value.as_slice()),
        AttributeKind::Key(_) => false,
        AttributeKind::Event { .. } => false,
        AttributeKind::Bind { .. } => false,
        AttributeKind::BindEvent => false,
        AttributeKind::Parameter { .. } => false,
        AttributeKind::Context { .. } => false,
    }
}

fn has_checkbox_type(attributes: &[Attribute]) -> bool
    ensures { result ≡ list_any (λ one. bytes_eq one.name (codes "type") && spec.is_literal (codes "checkbox") one.kind) attributes.now }
{
    for one in attributes {
        if one.name.is("type") && is_checkbox_text(&one.kind) {
            return true;
        }
    }
    false
}

#[tactic(auto, unfolding(razor_rules::specs::Elements::is_checkbox))]
fn is_checkbox(element: &Txt, attributes: &[Attribute]) -> bool
    ensures { result ≡ spec.is_checkbox element.now attributes.now }
{
    element.is("input") && has_checkbox_type(attributes)
}

fn is_bind_event(kind: &AttributeKind) -> bool
    ensures { result ≡ spec.is_bind_event kind.now }
{
    match kind {
        AttributeKind::BindEvent => true,
        AttributeKind::Mixed { .. } => false,
        AttributeKind::Key(_) => false,
        AttributeKind::Event { .. } => false,
        AttributeKind::Bind { .. } => false,
        AttributeKind::Parameter { .. } => false,
        AttributeKind::Context { .. } => false,
    }
}

fn has_bind_event(attributes: &[Attribute]) -> bool
    ensures { result ≡ list_any (λ one. spec.is_bind_event one.kind) attributes.now }
{
    for one in attributes {
        if is_bind_event(&one.kind) {
            return true;
        }
    }
    false
}

/// The attribute that shows a bound field of a type.
#[tactic(auto, unfolding(razor_rules::specs::Elements::bound_attribute), using(razor_parts::proofs::WordLaws::checked_word, razor_parts::proofs::WordLaws::value_word))]
pub fn bound_attribute(
    alloc: Global,
    element: &Txt,
    attributes: &[Attribute],
    cs_type: &CsType,
) -> Result<Txt, Oom>
    ensures { IfOk result (λ it. it ≡ spec.bound_attribute element.now attributes.now (Some cs_type.now)) }
{
    if is_checkbox(element, attributes) && is_truth(cs_type) {
        Txt::from_str(alloc, "checked")
    } else {
        Txt::from_str(alloc, "value")
    }
}

/// The event by which a bound field changes.
#[tactic(auto, unfolding(razor_rules::specs::Elements::bound_event), using(razor_parts::proofs::WordLaws::input_word, razor_parts::proofs::WordLaws::change_word))]
pub fn bound_event(alloc: Global, attributes: &[Attribute]) -> Result<Txt, Oom>
    ensures { IfOk result (λ it. it ≡ spec.bound_event attributes.now) }
{
    if has_bind_event(attributes) {
        Txt::from_str(alloc, "oninput")
    } else {
        Txt::from_str(alloc, "onchange")
    }
}
