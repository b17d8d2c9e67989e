// What tags are the tags of, and the places of their parameters.
ghost use Rattle.std.specs.Prelude.{◌≡◌, option_map, IfOk};
ghost use Rattle.std.specs.Option.{option_copied};
ghost use Rattle.cs_forms.specs.Agrees.{AgreesBy};
ghost use Rattle.page_meaning.specs.Tags as page;
ghost use Rattle.razor_rules.specs.Parameters.{component_named as component_spec};
ghost use Rattle.frame_parts.specs.Targets as spec;
ghost use Rattle.frame_parts.specs.Views.{found_view, takes_view, target_view};

use crate::values::value;
use cs_ast::{CsType, Expr, Member, MemberKind, Scope};
use cs_forms::CheckFault;
use cs_forms::types::copy_type;
use cs_forms::written::type_of;
use cs_rules::ExprType;
use frame_core::Made;
use razor_ast::{Attribute, AttributeKind, Component, Given};
use razor_parts::home::Home;
use razor_parts::numbers::plus;
use std::alloc::Global;
use text_core::{Oom, Txt};

/// A field or a parameter: its place among those of its component, and its type.
#[derive(Debug, Drop)]
pub struct Found {
    pub place: u32,
    pub cs_type: CsType,
}

/// Whose parameters a tag gives: those of the built-in provider, whose value has a type, or those of a component.
#[derive(Drop)]
pub enum Takes<'a> {
    Provider(CsType),
    Component(&'a Component),
}

/// What a tag is the tag of.
#[derive(Drop)]
pub struct Target<'a> {
    pub made: Made,
    pub takes: Takes<'a>,
}

/// The first parameter of a name: its place and its type.
fn parameter_of(alloc: Global, members: &[Member], name: &Txt) -> Result<Option<Found>, Oom>
    ensures { IfOk result (λ it. option_map found_view it ≡ page.parameter_from members.now name.now 0) }
{
    let mut place = 0;
    for one in members {
        if let MemberKind::Parameter {
            cs_type,
            name: other,
            ..
        } = &one.kind
        {
            if other.name == *name {
                let cs_type = type_of(alloc, cs_type)?;
                return Ok(Some(Found { place, cs_type }));
            }
            place = plus(place, 1)?;
        }
    }
    Ok(None)
}

/// The parameter of a name of the built-in provider.
fn provider_parameter(alloc: Global, cs_type: &CsType, name: &Txt) -> Result<Option<Found>, Oom>
    ensures { IfOk result (λ it. option_map found_view it ≡ page.provider_parameter cs_type.now name.now) }
{
    if name.is("Value") {
        let cs_type = copy_type(alloc, cs_type)?;
        return Ok(Some(Found { place: 0, cs_type }));
    }
    if name.is("Name") {
        return Ok(Some(Found {
            place: 1,
            cs_type: CsType::Text,
        }));
    }
    if name.is("ChildContent") {
        return Ok(Some(Found {
            place: 2,
            cs_type: CsType::Fragment(None),
        }));
    }
    Ok(None)
}

/// The parameter of a name.
pub fn parameter(alloc: Global, target: &Target<'_>, name: &Txt) -> Result<Option<Found>, Oom>
    ensures { IfOk result (λ it. option_map found_view it ≡ (target_view target.now).parameter name.now) }
{
    match &target.takes {
        Takes::Provider(cs_type) => provider_parameter(alloc, cs_type, name),
        Takes::Component(one) => parameter_of(alloc, one.members.as_slice(), name),
    }
}

/// Whether a text given to the parameter of a name is an expression whatever its type.
pub fn reads(target: &Target<'_>, name: &Txt) -> bool
    ensures { result ≡ (target_view target.now).reads name.now }
{
    match &target.takes {
        Takes::Provider(_) => name.is("Value"),
        Takes::Component(_) => false,
    }
}

fn given_by(kind: &AttributeKind) -> Option<&Given>
    ensures { option_copied result ≡ page.given_by kind.now }
{
    match kind {
        AttributeKind::Parameter { given, .. } => Some(given),
        AttributeKind::Mixed { .. } => None,
        AttributeKind::Key(_) => None,
        AttributeKind::Event { .. } => None,
        AttributeKind::Bind { .. } => None,
        AttributeKind::BindEvent => None,
        AttributeKind::Context { .. } => None,
    }
}

/// What the attribute of a name gives.
fn given_in<'a>(attributes: &'a [Attribute], name: &Txt) -> Option<&'a Given>
    ensures { option_copied result ≡ page.given_in attributes.now name.now }
{
    for one in attributes {
        if one.name == *name {
            return given_by(&one.kind);
        }
    }
    None
}

fn expression_in(given: &Given) -> Option<&Expr>
    ensures { option_copied result ≡ page.expression_in given.now }
{
    match given {
        Given::Nothing => None,
        Given::Text { expression, .. } => expression.as_ref(),
        Given::Value(a) => Some(a),
    }
}

fn text_in(alloc: Global, given: &Given) -> Result<Option<Txt>, Oom>
    ensures { IfOk result (λ text. text ≡ page.text_in given.now) }
{
    match given {
        Given::Nothing => Ok(Some(Txt::new(alloc))),
        Given::Text { text, .. } => Ok(Some(text.clone()?)),
        Given::Value(_) => Ok(None),
    }
}

fn own_type(alloc: Global, given: &ExprType) -> Result<Option<CsType>, Oom>
    ensures { IfOk result (λ cs_type. cs_type ≡ page.own_type given.now) }
{
    match given {
        ExprType::Of(cs_type) => Ok(Some(copy_type(alloc, cs_type)?)),
        ExprType::Null => Ok(None),
        ExprType::Markup => Ok(None),
    }
}

/// The type of an expression, if it breaks no rule and has one of its own.
fn type_if_fine(alloc: Global, scope: &Scope, a: &Expr) -> Result<Option<CsType>, Oom>
    ensures { IfOk result (λ cs_type. cs_type ≡ page.type_if_fine scope.now a.now) }
{
    match value(alloc, scope, a) {
        Ok(x) => own_type(alloc, &x.get().expr_type),
        Err(CheckFault::Broken { .. }) => Ok(None),
        Err(CheckFault::Oom) => Err(Oom),
    }
}

/// The type of the value that a provider gives.
#[tactic(auto, using(crate::proofs::WordLaws::value_word))]
fn provided(alloc: Global, scope: &Scope, attributes: &[Attribute]) -> Result<Option<CsType>, Oom>
    ensures { IfOk result (λ cs_type. cs_type ≡ spec.provided scope.now attributes.now) }
{
    let name = Txt::from_str(alloc, "Value")?;
    match given_in(attributes, &name) {
        None => Ok(None),
        Some(given) => match expression_in(given) {
            None => Ok(None),
            Some(a) => type_if_fine(alloc, scope, a),
        },
    }
}

/// The name under which a provider gives its value.
#[tactic(auto, using(crate::proofs::WordLaws::name_word))]
fn provided_name(alloc: Global, attributes: &[Attribute]) -> Result<Option<Txt>, Oom>
    ensures { IfOk result (λ name. name ≡ spec.provided_name attributes.now) }
{
    let name = Txt::from_str(alloc, "Name")?;
    match given_in(attributes, &name) {
        None => Ok(None),
        Some(given) => text_in(alloc, given),
    }
}

fn provider<'a>(alloc: Global, attributes: &[Attribute], cs_type: CsType) -> Result<Target<'a>, Oom>
    ensures { IfOk result (λ target. target_view target ≡ page.provider attributes.now cs_type) }
{
    let name = provided_name(alloc, attributes)?;
    let takes = Takes::Provider(copy_type(alloc, &cs_type)?);
    let made = Made::Provider { cs_type, name };
    Ok(Target { made, takes })
}

/// The first component of a name, as the target of its tags.
fn component<'a>(components: &'a [Component], name: &Txt) -> Result<Option<Target<'a>>, Oom>
    ensures { IfOk result (λ target. option_map target_view target ≡ spec.component_from components.now name.now 0) }
{
    let mut position: u32 = 0;
    for one in components {
        if one.name == *name {
            let made = Made::Component(position);
            let takes = Takes::Component(one);
            return Ok(Some(Target { made, takes }));
        }
        position = plus(position, 1)?;
    }
    Ok(None)
}

/// What a tag of a name is the tag of, in a scope.
#[tactic(auto, using(crate::proofs::TargetLaws::target_law))]
pub fn target_of<'a>(
    home: &Home<'a>,
    scope: &Scope,
    name: &Txt,
    attributes: &[Attribute],
) -> Result<Option<Target<'a>>, Oom>
    ensures { IfOk result (λ target. option_map target_view target ≡ page.target_of home.now.components.now scope.now name.now attributes.now) }
{
    if !name.is("CascadingValue") {
        return component(home.components, name);
    }
    match provided(home.alloc, scope, attributes)? {
        None => Ok(None),
        Some(cs_type) => Ok(Some(provider(home.alloc, attributes, cs_type)?)),
    }
}
