// What the attributes of the tags of components give.
ghost use Rattle.std.specs.Prelude.{◌≡◌, [], ◌∷◌, map, IfOk};
ghost use Rattle.cs_forms.specs.Agrees.{AgreesBy};
ghost use Rattle.cs_rules.specs.declared.rule.Rule.TheVariants.{UnknownParameter};
ghost use Rattle.cs_rules.specs.Judged.{known as known_spec};
ghost use Rattle.frame_program.specs.Operations.{given_by};
ghost use Rattle.frame_program.specs.declared.parts.TagPart.TheVariants as gift;
ghost use Rattle.razor_rules.specs.Parameters.{is_text as is_text_spec};
ghost use Rattle.page_meaning.specs.Tags.{takes_text as takes_text_spec};
ghost use Rattle.frame_parts.specs.Tags as spec;
ghost use Rattle.frame_parts.specs.Views.{IsWhole, home_in, found_view, numbered, target_view};

use crate::callbacks::supplied;
use crate::making::Making;
use crate::site::Site;
use crate::targets::{Found, Target, parameter, reads};
use crate::values::code;
use cs_ast::{CsType, Expr, Scope};
use cs_forms::CheckFault;
use cs_forms::fault::mismatch;
use cs_rules::Rule;
use frame_program::TagPart;
use razor_ast::{Attribute, AttributeKind, Given};
use sqlite_items::Items;
use std::alloc::Global;
use text_core::{Oom, Place, Txt};

fn is_text(cs_type: &CsType) -> bool
    ensures { result ≡ is_text_spec cs_type.now }
{
    match cs_type {
        CsType::Text => true,
        CsType::Int => false,
        CsType::Bool => false,
        CsType::Rec(_) => false,
        CsType::List(_) => false,
        CsType::Callback(_) => false,
        CsType::Fragment(_) => false,
        CsType::Change => false,
        CsType::Args => false,
        CsType::Nothing => false,
    }
}

/// One part alone.
pub fn alone(alloc: Global, part: TagPart) -> Result<Items<TagPart>, Oom>
    ensures { IfOk result (λ parts. parts ≡ part ∷ []) }
{
    let mut parts = Items::new(alloc);
    parts.push(part)?;
    Ok(parts)
}

fn text_gift(alloc: Global, place: u32, text: Txt) -> Result<Items<TagPart>, Oom>
    ensures { IfOk result (λ parts. parts ≡ gift.Text place text ∷ []) }
{
    alone(alloc, TagPart::Text { place, text })
}

/// The parameter of a name.
pub fn known_parameter(
    alloc: Global,
    target: &Target<'_>,
    place: Place,
    name: &Txt,
) -> Result<Found, CheckFault>
    ensures { AgreesBy found_view result (known_spec UnknownParameter place ((target_view target.now).parameter name.now)) }
{
    match parameter(alloc, target, name)? {
        Some(found) => Ok(found),
        None => Err(CheckFault::Broken {
            rule: Rule::UnknownParameter,
            place,
        }),
    }
}

fn expression_gift(
    site: &Site<'_>,
    scope: &Scope,
    number: u32,
    found: &Found,
    a: &Expr,
    making: &mut Making,
) -> Result<Items<TagPart>, CheckFault>
    requires whole { IsWhole site.now }
    ensures { AgreesBy (λ parts. (map given_by parts, numbered making.new)) result
        (spec.expression_gift (home_in site.now) scope.now number (found_view found.now) a.now (numbered making.old)) }
{
    let code = supplied(site, scope, number, &found.cs_type, a, making)?;
    let place = found.place;
    Ok(alone(site.home.alloc, TagPart::Value { place, code })?)
}

fn if_said(
    site: &Site<'_>,
    scope: &Scope,
    number: u32,
    found: &Found,
    place: Place,
    a: &Option<Expr>,
    making: &mut Making,
) -> Result<Items<TagPart>, CheckFault>
    requires whole { IsWhole site.now }
    ensures { AgreesBy (λ parts. (map given_by parts, numbered making.new)) result
        (spec.if_said (home_in site.now) scope.now number (found_view found.now) place a.now (numbered making.old)) }
{
    match a {
        None => Err(mismatch(place)),
        Some(a) => expression_gift(site, scope, number, found, a, making),
    }
}

/// Whether a parameter of a name takes a text as it stands.
fn takes_text(target: &Target<'_>, name: &Txt, cs_type: &CsType) -> bool
    ensures { result ≡ takes_text_spec (target_view target.now) name.now cs_type.now }
{
    !reads(target, name) && is_text(cs_type)
}

/// What a parameter is given: its text where it takes a text as it stands, else its expression.
fn given_gift(
    site: &Site<'_>,
    scope: &Scope,
    number: u32,
    found: &Found,
    as_text: bool,
    given: &Given,
    making: &mut Making,
) -> Result<Items<TagPart>, CheckFault>
    requires whole { IsWhole site.now }
    ensures { AgreesBy (λ parts. (map given_by parts, numbered making.new)) result
        (spec.given_gift (home_in site.now) scope.now number (found_view found.now) as_text given.now (numbered making.old)) }
{
    let alloc = site.home.alloc;
    match given {
        Given::Nothing => Ok(text_gift(alloc, found.place, Txt::new(alloc))?),
        Given::Text {
            place,
            text,
            expression,
        } => {
            if as_text {
                Ok(text_gift(alloc, found.place, text.clone()?)?)
            } else {
                if_said(site, scope, number, found, *place, expression, making)
            }
        }
        Given::Value(a) => expression_gift(site, scope, number, found, a, making),
    }
}

fn key(alloc: Global, scope: &Scope, a: &Expr) -> Result<Items<TagPart>, CheckFault>
    ensures { AgreesBy (λ parts. map given_by parts) result (spec.key scope.now a.now) }
{
    let code = code(alloc, scope, a)?;
    Ok(alone(alloc, TagPart::Key(code))?)
}

fn parameter_gift(
    site: &Site<'_>,
    scope: &Scope,
    target: &Target<'_>,
    number: u32,
    given: &Given,
    one: &Attribute,
    making: &mut Making,
) -> Result<Items<TagPart>, CheckFault>
    requires whole { IsWhole site.now }
    ensures { AgreesBy (λ parts. (map given_by parts, numbered making.new)) result
        (spec.parameter_gift (home_in site.now) scope.now (target_view target.now) number given.now one.now.place one.now.name (numbered making.old)) }
{
    let found = known_parameter(site.home.alloc, target, one.place, &one.name)?;
    let as_text = takes_text(target, &one.name, &found.cs_type);
    given_gift(site, scope, number, &found, as_text, given, making)
}

fn attribute_gift(
    site: &Site<'_>,
    scope: &Scope,
    target: &Target<'_>,
    one: &Attribute,
    making: &mut Making,
) -> Result<Items<TagPart>, CheckFault>
    requires whole { IsWhole site.now }
    ensures { AgreesBy (λ parts. (map given_by parts, numbered making.new)) result
        (spec.attribute_gift (home_in site.now) scope.now (target_view target.now) one.now.kind one.now.place one.now.name (numbered making.old)) }
{
    let alloc = site.home.alloc;
    match &one.kind {
        AttributeKind::Parameter { number, given } => {
            parameter_gift(site, scope, target, *number, given, one, making)
        }
        AttributeKind::Key(a) => key(alloc, scope, a),
        AttributeKind::Mixed { .. } => Ok(Items::new(alloc)),
        AttributeKind::Event { .. } => Ok(Items::new(alloc)),
        AttributeKind::Bind { .. } => Ok(Items::new(alloc)),
        AttributeKind::BindEvent => Ok(Items::new(alloc)),
        AttributeKind::Context { .. } => Ok(Items::new(alloc)),
    }
}

/// What the attributes of a tag give, one after another.
#[tactic(auto, using(crate::proofs::FrontLemmas::front_none, crate::proofs::FrontLemmas::front_more, crate::proofs::FrontLemmas::front_end))]
pub fn attribute_gifts(
    site: &Site<'_>,
    scope: &Scope,
    target: &Target<'_>,
    attributes: &[Attribute],
    making: &mut Making,
) -> Result<Items<TagPart>, CheckFault>
    requires whole { IsWhole site.now }
    ensures { AgreesBy (λ parts. (map given_by parts, numbered making.new)) result
        (spec.attribute_gifts (home_in site.now) scope.now (target_view target.now) attributes.now (numbered making.old)) }
{
    let mut parts = Items::new(site.home.alloc);
    for one in attributes {
        parts.append(attribute_gift(site, scope, target, one, making)?)?;
    }
    Ok(parts)
}
