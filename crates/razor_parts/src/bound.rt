// The names that the attributes of elements count as, and bound fields.
ghost use Rattle.std.specs.Prelude.{◌≡◌, ◌++◌, ◌∷◌, ◌&&◌, [], bytes_eq, codes, drop, map, Some, IfOk, OnOk};
ghost use Rattle.std.specs.List.{list_any};
ghost use Rattle.std.specs.Option.{option_copied};
ghost use Rattle.cs_rules.specs.Written.{type_of};
ghost use Rattle.razor_rules.specs.Names.{name_at};
ghost use Rattle.razor_rules.specs.Elements as spec;
ghost use Rattle.razor_parts.specs.Taken as taken;
ghost use Rattle.razor_parts.specs.Views.{home_of};

use crate::home::Home;
use cs_ast::{Ident, Member, MemberKind, TypeExpr, TypeKind};
use razor_ast::{Attribute, AttributeKind, ValuePart};
use std::alloc::Global;
use text_core::{Oom, Place, Txt};

fn field_by<'a>(kind: &'a MemberKind, name: &Txt) -> Option<&'a TypeExpr>
    ensures { option_copied result ≡ taken.field_by name.now kind.now }
{
    match kind {
        MemberKind::Field {
            cs_type,
            name: other,
            ..
        } => {
            if other.name == *name {
                Some(cs_type)
            } else {
                None
            }
        }
        MemberKind::Parameter { .. } => None,
        MemberKind::Method { .. } => None,
        MemberKind::Getter { .. } => None,
        MemberKind::RecordDef { .. } => None,
    }
}

/// The type that the first field of a name is written with.
fn field_written<'a>(members: &'a [Member], name: &Txt) -> Option<&'a TypeExpr>
    ensures { option_copied result ≡ taken.field_written members.now name.now }
{
    for member in members {
        if let Some(written) = field_by(&member.kind, name) {
            return Some(written);
        }
    }
    None
}

#[tactic(auto, using(crate::proofs::TakenLaws::bindable_int, crate::proofs::TakenLaws::bindable_bool, crate::proofs::TakenLaws::bindable_text, crate::proofs::TakenLaws::bindable_named, crate::proofs::TakenLaws::bindable_list, crate::proofs::TakenLaws::bindable_callback, crate::proofs::TakenLaws::bindable_fragment, crate::proofs::TakenLaws::bindable_change, crate::proofs::TakenLaws::bindable_args))]
fn is_bindable_type(written: &TypeExpr) -> bool
    ensures { result ≡ spec.is_bindable (Some (type_of written.now)) }
{
    match &written.kind {
        TypeKind::Int => true,
        TypeKind::Bool => true,
        TypeKind::Text => true,
        TypeKind::Named(_) => false,
        TypeKind::List(_) => false,
        TypeKind::Callback(_) => false,
        TypeKind::Fragment(_) => false,
        TypeKind::Change => false,
        TypeKind::Args => false,
    }
}

#[tactic(auto, using(crate::proofs::TakenLaws::truth_int, crate::proofs::TakenLaws::truth_bool, crate::proofs::TakenLaws::truth_text, crate::proofs::TakenLaws::truth_named, crate::proofs::TakenLaws::truth_list, crate::proofs::TakenLaws::truth_callback, crate::proofs::TakenLaws::truth_fragment, crate::proofs::TakenLaws::truth_change, crate::proofs::TakenLaws::truth_args))]
fn is_truth_type(written: &TypeExpr) -> bool
    ensures { result ≡ spec.is_truth (Some (type_of written.now)) }
{
    match &written.kind {
        TypeKind::Bool => true,
        TypeKind::Int => false,
        TypeKind::Text => false,
        TypeKind::Named(_) => false,
        TypeKind::List(_) => false,
        TypeKind::Callback(_) => false,
        TypeKind::Fragment(_) => false,
        TypeKind::Change => false,
        TypeKind::Args => false,
    }
}

/// Whether there is a field of a name that can be bound.
#[tactic(auto, using(crate::proofs::TakenLaws::field_law))]
pub fn is_bindable(members: &[Member], name: &Txt) -> bool
    ensures { result ≡ spec.is_bindable (spec.field_type members.now name.now) }
{
    match field_written(members, name) {
        Some(written) => is_bindable_type(written),
        None => false,
    }
}

/// Whether the field of a name is a truth value.
#[tactic(auto, using(crate::proofs::TakenLaws::field_law))]
fn is_truth(members: &[Member], name: &Txt) -> bool
    ensures { result ≡ spec.is_truth (spec.field_type members.now name.now) }
{
    match field_written(members, name) {
        Some(written) => is_truth_type(written),
        None => false,
    }
}

fn is_checkbox_part(part: &ValuePart) -> bool
    ensures { result ≡ taken.part_says (codes "checkbox") part.now }
{
    match part {
        ValuePart::Literal(said) => said.is("checkbox"),
        ValuePart::Shown(_) => false,
    }
}

/// Whether a value is the text `checkbox` and nothing else.
fn is_checkbox_value(parts: &[ValuePart]) -> bool
    ensures { result ≡ taken.says (codes "checkbox") parts.now }
{
    match parts.split_first() {
        Some((first, rest)) => match rest.split_first() {
            Some(_) => false,
            None => is_checkbox_part(first),
        },
        None => false,
    }
}

/// Whether an attribute says `checkbox` literally.
#[tactic(auto, using(crate::proofs::TakenLaws::says_literal))]
fn is_checkbox_text(kind: &AttributeKind) -> bool
    ensures { result ≡ spec.is_literal (codes "checkbox") kind.now }
{
    match kind {
        AttributeKind::Mixed { value, .. } => is_checkbox_value(value.as_slice()),
        AttributeKind::Key(_) => false,
        AttributeKind::Event { .. } => false,
        AttributeKind::Bind { .. } => false,
        AttributeKind::BindEvent => false,
        AttributeKind::Parameter { .. } => false,
        AttributeKind::Context { .. } => false,
    }
}

fn has_checkbox_type(attributes: &[Attribute]) -> bool
    ensures { result ≡ list_any (λ one. bytes_eq one.name (codes "type") && spec.is_literal (codes "checkbox") one.kind) attributes.now }
{
    for one in attributes {
        if one.name.is("type") && is_checkbox_text(&one.kind) {
            return true;
        }
    }
    false
}

/// Whether an element is a box to be checked.
#[tactic(auto, unfolding(razor_rules::specs::Elements::is_checkbox))]
fn is_checkbox(element: &Txt, attributes: &[Attribute]) -> bool
    ensures { result ≡ spec.is_checkbox element.now attributes.now }
{
    element.is("input") && has_checkbox_type(attributes)
}

fn is_bind_event(kind: &AttributeKind) -> bool
    ensures { result ≡ spec.is_bind_event kind.now }
{
    match kind {
        AttributeKind::BindEvent => true,
        AttributeKind::Mixed { .. } => false,
        AttributeKind::Key(_) => false,
        AttributeKind::Event { .. } => false,
        AttributeKind::Bind { .. } => false,
        AttributeKind::Parameter { .. } => false,
        AttributeKind::Context { .. } => false,
    }
}

fn has_bind_event(attributes: &[Attribute]) -> bool
    ensures { result ≡ list_any (λ one. spec.is_bind_event one.kind) attributes.now }
{
    for one in attributes {
        if is_bind_event(&one.kind) {
            return true;
        }
    }
    false
}

/// The attribute that shows a bound field.
#[tactic(auto, unfolding(razor_rules::specs::Elements::bound_attribute), using(crate::proofs::WordLaws::checked_word, crate::proofs::WordLaws::value_word))]
fn bound_attribute(
    alloc: Global,
    members: &[Member],
    element: &Txt,
    attributes: &[Attribute],
    field: &Txt,
) -> Result<Txt, Oom>
    ensures { IfOk result (λ it. it ≡ spec.bound_attribute element.now attributes.now (spec.field_type members.now field.now)) }
{
    if is_checkbox(element, attributes) && is_truth(members, field) {
        Txt::from_str(alloc, "checked")
    } else {
        Txt::from_str(alloc, "value")
    }
}

/// The event by which a bound field changes.
#[tactic(auto, unfolding(razor_rules::specs::Elements::bound_event), using(crate::proofs::WordLaws::input_word, crate::proofs::WordLaws::change_word))]
fn bound_event(alloc: Global, attributes: &[Attribute]) -> Result<Txt, Oom>
    ensures { IfOk result (λ it. it ≡ spec.bound_event attributes.now) }
{
    if has_bind_event(attributes) {
        Txt::from_str(alloc, "oninput")
    } else {
        Txt::from_str(alloc, "onchange")
    }
}

fn text_of(alloc: Global, characters: &[char]) -> Result<Txt, Oom>
    ensures { IfOk result (λ text. text ≡ characters.now) }
{
    let mut text = Txt::new(alloc);
    for character in characters {
        text.push(*character)?;
    }
    Ok(text)
}

/// A name without its first character.
#[tactic(auto, using(crate::proofs::ListLemmas::behind_first, crate::proofs::ListLemmas::behind_none))]
fn without_first(alloc: Global, name: &Txt) -> Result<Txt, Oom>
    ensures { IfOk result (λ text. text ≡ drop 1 name.now) }
{
    let characters = name.to_chars(alloc)?;
    match characters.as_slice().split_first() {
        Some((_, rest)) => text_of(alloc, rest),
        None => Ok(Txt::new(alloc)),
    }
}

fn push(all: &mut Vec<Ident>, place: Place, name: Txt) -> Result<(), Oom>
    ensures { OnOk result (all.new.items ≡ all.old.items ++ name_at place name ∷ []) }
{
    all.push(Ident { place, name })?;
    Ok(())
}

fn push_bound(
    home: &Home<'_>,
    element: &Txt,
    attributes: &[Attribute],
    place: Place,
    field: &Txt,
    all: &mut Vec<Ident>,
) -> Result<(), Oom>
    ensures { OnOk result (all.new.items ≡ all.old.items
        ++ name_at place (spec.bound_attribute element.now attributes.now (spec.field_type home.now.members.now field.now)) ∷ name_at place (spec.bound_event attributes.now) ∷ []) }
{
    let shows = bound_attribute(home.alloc, home.members, element, attributes, field)?;
    push(all, place, shows)?;
    let event = bound_event(home.alloc, attributes)?;
    push(all, place, event)
}

/// The names that an attribute counts as.
fn push_names(
    home: &Home<'_>,
    element: &Txt,
    attributes: &[Attribute],
    one: &Attribute,
    all: &mut Vec<Ident>,
) -> Result<(), Oom>
    ensures { OnOk result (all.new.items ≡ all.old.items
        ++ map (name_at one.now.place) (spec.names_as (home_of home.now) element.now attributes.now one.now.kind one.now.name)) }
{
    match &one.kind {
        AttributeKind::Event { .. } => {
            push(all, one.place, without_first(home.alloc, &one.name)?)
        }
        AttributeKind::Bind { field, .. } => {
            push_bound(home, element, attributes, one.place, &field.name, all)
        }
        AttributeKind::Mixed { .. } => push(all, one.place, one.name.clone()?),
        AttributeKind::Key(_) => push(all, one.place, one.name.clone()?),
        AttributeKind::BindEvent => push(all, one.place, one.name.clone()?),
        AttributeKind::Parameter { .. } => push(all, one.place, one.name.clone()?),
        AttributeKind::Context { .. } => push(all, one.place, one.name.clone()?),
    }
}

/// The names that the attributes of an element count as, with their places.
pub fn counted_names(
    home: &Home<'_>,
    element: &Txt,
    attributes: &[Attribute],
) -> Result<Vec<Ident>, Oom>
    ensures { IfOk result (λ all. all.items ≡ spec.names (home_of home.now) element.now attributes.now) }
{
    let mut all = Vec::new(home.alloc);
    for one in attributes {
        push_names(home, element, attributes, one, &mut all)?;
    }
    Ok(all)
}
