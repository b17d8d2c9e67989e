// What a component is given on its tag.
ghost use Rattle.std.specs.Prelude.{◌≡◌, bytes_eq, codes, Some, OnOk};
ghost use Rattle.std.specs.List.{list_any};
ghost use Rattle.std.specs.Option.{option_copied};
ghost use Rattle.cs_rules.specs.declared.rule.Rule.TheVariants.{UnknownParameter};
ghost use Rattle.cs_forms.specs.declared.fault.CheckFault.TheVariants.{Broken};
ghost use Rattle.razor_rules.specs.Values.{supplied as supplied_spec, cascading as cascading_spec};
ghost use Rattle.cs_forms.specs.Agrees.{Agrees, AgreesBy};
ghost use Rattle.razor_rules.specs.Findings.{also};
ghost use Rattle.razor_rules.specs.Parameters as spec;
ghost use Rattle.razor_parts.specs.Views.{tagged_view};
ghost use Rattle.razor_check.specs.Given as given_spec;

use crate::noting::note;
use crate::values::{cascading, supplied, value};
use cs_ast::{CsType, Expr, TypeExpr};
use cs_forms::CheckFault;
use cs_forms::fault::mismatch;
use cs_rules::Rule;
use razor_ast::{Attribute, Given};
use razor_parts::home::Home;
use razor_parts::tagged::{Tagged, taken};
use razor_parts::written_types::parameter_type;
use razor_rules::Ground;
use rule_findings::Findings;
use std::alloc::Global;
use text_core::{Oom, Place, Txt};

fn unknown_parameter(place: Place) -> CheckFault
    ensures { result ≡ Broken UnknownParameter place }
{
    CheckFault::Broken {
        rule: Rule::UnknownParameter,
        place,
    }
}

fn place_of_text(at: Place, place: Place, text: &Txt) -> Place
    ensures { result ≡ spec.place_of_text at place text.now }
{
    match text.first() {
        Some(_) => place,
        None => at,
    }
}

/// The expression of an attribute.
fn expression_of(at: Place, given: &Given) -> Result<&Expr, CheckFault>
    ensures { AgreesBy (λ a. a.now) result (spec.expression_of at given.now) }
{
    match given {
        Given::Nothing => Err(mismatch(at)),
        Given::Text {
            place,
            text,
            expression,
        } => match expression {
            Some(a) => Ok(a),
            None => Err(mismatch(place_of_text(at, *place, text))),
        },
        Given::Value(a) => Ok(a),
    }
}

fn supplied_expression(
    alloc: Global,
    g: &mut Ground,
    cs_type: &CsType,
    at: Place,
    given: &Given,
) -> Result<(), CheckFault>
    ensures does { Agrees result (given_spec.judged_expression (supplied_spec g.old cs_type.now) at given.now) }
    ensures same { g.new ≡ g.old }
{
    let a = expression_of(at, given)?;
    supplied(alloc, g, cs_type, a)
}

fn supplied_literal(
    alloc: Global,
    g: &mut Ground,
    cs_type: &CsType,
    given: &Given,
) -> Result<(), CheckFault>
    ensures does { Agrees result (spec.literal_rules (supplied_spec g.old cs_type.now) given.now) }
    ensures same { g.new ≡ g.old }
{
    match given {
        Given::Value(a) => supplied(alloc, g, cs_type, a),
        Given::Nothing => Ok(()),
        Given::Text { .. } => Ok(()),
    }
}

fn is_text(cs_type: &CsType) -> bool
    ensures { result ≡ spec.is_text cs_type.now }
{
    match cs_type {
        CsType::Text => true,
        _ => false,
    }
}

/// What a parameter of a type is given.
fn given_rules(
    alloc: Global,
    g: &mut Ground,
    cs_type: &CsType,
    at: Place,
    given: &Given,
) -> Result<(), CheckFault>
    ensures does { Agrees result (spec.given_rules g.old cs_type.now at given.now) }
    ensures same { g.new ≡ g.old }
{
    if is_text(cs_type) {
        supplied_literal(alloc, g, cs_type, given)
    } else {
        supplied_expression(alloc, g, cs_type, at, given)
    }
}

/// An expression that stands where a literal text has to.
fn no_literal(alloc: Global, g: &Ground, given: &Given) -> Result<(), CheckFault>
    ensures { Agrees result (spec.literal_rules (spec.no_literal g.now) given.now) }
{
    match given {
        Given::Value(a) => {
            let _x = value(alloc, g, a)?;
            Err(mismatch(a.place))
        }
        Given::Nothing => Ok(()),
        Given::Text { .. } => Ok(()),
    }
}

fn cascading_value(alloc: Global, g: &Ground, at: Place, given: &Given) -> Result<(), CheckFault>
    ensures { Agrees result (given_spec.judged_expression (cascading_spec g.now) at given.now) }
{
    let a = expression_of(at, given)?;
    cascading(alloc, g, a)
}

/// An attribute of the built-in component.
fn cascading_rules(
    alloc: Global,
    g: &mut Ground,
    name: &Txt,
    at: Place,
    given: &Given,
) -> Result<(), CheckFault>
    ensures does { Agrees result (spec.cascading_rules g.old name.now at given.now) }
    ensures same { g.new ≡ g.old }
{
    if name.is("Value") {
        cascading_value(alloc, g, at, given)
    } else if name.is("Name") {
        no_literal(alloc, g, given)
    } else if name.is("ChildContent") {
        given_rules(alloc, g, &CsType::Fragment(None), at, given)
    } else {
        Err(unknown_parameter(at))
    }
}

/// What a parameter is given, where its type is one.
fn typed_rules(
    home: &Home<'_>,
    g: &mut Ground,
    written: &TypeExpr,
    at: Place,
    given: &Given,
) -> Result<(), CheckFault>
    ensures does { Agrees result (given_spec.written_rules home.now.records.now g.old (Some written.now) at given.now) }
    ensures same { g.new ≡ g.old }
{
    match parameter_type(home.alloc, home.records, written) {
        Ok(cs_type) => given_rules(home.alloc, g, &cs_type, at, given),
        Err(CheckFault::Broken { .. }) => Ok(()),
        Err(CheckFault::Oom) => Err(CheckFault::Oom),
    }
}

/// What a component is given by an attribute.
fn component_rules(
    home: &Home<'_>,
    g: &mut Ground,
    written: Option<&TypeExpr>,
    at: Place,
    given: &Given,
) -> Result<(), CheckFault>
    ensures does { Agrees result (given_spec.written_rules home.now.records.now g.old (option_copied written.entry) at given.now) }
    ensures same { g.new ≡ g.old }
{
    match written {
        Some(written) => typed_rules(home, g, written, at, given),
        None => Err(unknown_parameter(at)),
    }
}

/// An attribute of a tag of a component by its name, its place and what it gives.
#[tactic(auto, using(crate::proofs::GivenLaws::built_in_given, crate::proofs::GivenLaws::component_given))]
pub fn parameter_rules(
    home: &Home<'_>,
    g: &mut Ground,
    tag: Tagged<'_>,
    name: &Txt,
    at: Place,
    given: &Given,
    found: &mut Findings,
) -> Result<(), Oom>
    ensures does { OnOk result (found.new.first
        ≡ also found.old.first (spec.parameter_rules g.old (tagged_view home.now.records.now tag.entry) name.now at given.now)) }
    ensures same { g.new ≡ g.old }
{
    match tag {
        Tagged::CascadingValue => {
            let checked = cascading_rules(home.alloc, g, name, at, given);
            note(found, checked)
        }
        Tagged::Component(component) => {
            let written = taken(component.members.as_slice(), name);
            let checked = component_rules(home, g, written, at, given);
            note(found, checked)
        }
    }
}

fn has_value(attributes: &[Attribute]) -> bool
    ensures { result ≡ list_any (λ one. bytes_eq one.name (codes "Value")) attributes.now }
{
    for one in attributes {
        if one.name.is("Value") {
            return true;
        }
    }
    false
}

/// A `CascadingValue` has to have a value.
#[tactic(auto, unfolding(razor_rules::specs::Parameters::needed_rules), using(razor_rules::proofs::FirstLaws::also_nothing))]
pub fn needed_rules(
    home: &Home<'_>,
    tag: Tagged<'_>,
    attributes: &[Attribute],
    place: Place,
    found: &mut Findings,
)
    ensures { found.new.first ≡ also found.old.first (spec.needed_rules (tagged_view home.now.records.now tag.entry) attributes.now place) }
{
    match tag {
        Tagged::CascadingValue => {
            found.add_unless(has_value(attributes), Rule::TypeMismatch, place);
        }
        Tagged::Component(_) => {}
    }
}
