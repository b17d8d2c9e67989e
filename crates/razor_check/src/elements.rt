// The rules of the attributes of an element.
ghost use Rattle.std.specs.Prelude.{◌≡◌, [], map, Some, IfOk, OnOk};
ghost use Rattle.std.specs.List.{flat_map};
ghost use Rattle.cs_rules.specs.declared.rule.Rule.TheVariants.{DuplicateAttribute};
ghost use Rattle.razor_rules.specs.Findings.{also, found as found_in};
ghost use Rattle.razor_rules.specs.Values.{callback as callback_spec};
ghost use Rattle.razor_rules.specs.Elements as spec;
ghost use Rattle.razor_rules.specs.Names as names_spec;
ghost use Rattle.rule_findings.specs.Views.{ident_of};
ghost use Rattle.razor_parts.specs.Views.{home_of};
ghost use Rattle.razor_check.specs.Elements as elements;

use crate::noting::note;
use crate::values::{callback, key, shown_value};
use cs_ast::{CsType, Expr, Ident};
use cs_rules::Rule;
use razor_ast::{Attribute, AttributeKind, ValuePart};
use razor_parts::bound::{counted_names, is_bindable};
use razor_parts::home::Home;
use razor_parts::records::named;
use razor_rules::Ground;
use rule_findings::{Findings, Name, repeated};
use std::alloc::Global;
use text_core::{Oom, Txt};

/// The type of the argument of an event.
#[tactic(auto, unfolding(razor_rules::specs::Elements::event_type))]
fn event_type(name: &Txt) -> CsType
    ensures { result ≡ spec.event_type name.now }
{
    if name.is("@onchange") || name.is("@oninput") {
        CsType::Change
    } else {
        CsType::Args
    }
}

#[tactic(auto, using(razor_rules::proofs::FirstLaws::also_nothing))]
fn part_rules(
    home: &Home<'_>,
    g: &Ground,
    part: &ValuePart,
    found: &mut Findings,
) -> Result<(), Oom>
    ensures { OnOk result (found.new.first ≡ also found.old.first (elements.part_rules g.now part.now)) }
{
    match part {
        ValuePart::Literal(_) => Ok(()),
        ValuePart::Shown(a) => note(found, shown_value(home.alloc, g, a)),
    }
}

#[tactic(auto, using(razor_rules::proofs::FirstLaws::also_append, razor_rules::proofs::FirstLaws::also_nothing))]
fn value_rules(
    home: &Home<'_>,
    g: &Ground,
    parts: &[ValuePart],
    found: &mut Findings,
) -> Result<(), Oom>
    ensures { OnOk result (found.new.first ≡ also found.old.first (flat_map (elements.part_rules g.now) parts.now)) }
{
    for part in parts {
        part_rules(home, g, part, found)?;
    }
    Ok(())
}

fn event_rules(
    home: &Home<'_>,
    g: &mut Ground,
    name: &Txt,
    a: &Expr,
    found: &mut Findings,
) -> Result<(), Oom>
    ensures does { OnOk result (found.new.first ≡ also found.old.first (found_in (callback_spec g.old a.now (Some (spec.event_type name.now))))) }
    ensures same { g.new ≡ g.old }
{
    let argument = event_type(name);
    let checked = callback(home.alloc, g, a, Some(&argument));
    note(found, checked)
}

#[tactic(auto, using(razor_rules::proofs::FirstLaws::also_nothing))]
fn attribute_rules(
    home: &Home<'_>,
    g: &mut Ground,
    one: &Attribute,
    found: &mut Findings,
) -> Result<(), Oom>
    ensures does { OnOk result (found.new.first ≡ also found.old.first (elements.attribute_rules home.now.members.now g.old one.now.kind one.now.name)) }
    ensures same { g.new ≡ g.old }
{
    match &one.kind {
        AttributeKind::Mixed { value, .. } => value_rules(home, g, value.as_slice(), found),
        AttributeKind::Key(a) => note(found, key(home.alloc, g, a)),
        AttributeKind::Event { value, .. } => event_rules(home, g, &one.name, value, found),
        AttributeKind::Bind { field, .. } => {
            let fine = is_bindable(home.members, &field.name);
            found.add_unless(fine, Rule::BadBind, field.place);
            Ok(())
        }
        AttributeKind::BindEvent => Ok(()),
        AttributeKind::Parameter { .. } => Ok(()),
        AttributeKind::Context { .. } => Ok(()),
    }
}

#[tactic(auto, using(razor_rules::proofs::FirstLaws::also_append, razor_rules::proofs::FirstLaws::also_nothing))]
fn all_attributes(
    home: &Home<'_>,
    g: &mut Ground,
    attributes: &[Attribute],
    found: &mut Findings,
) -> Result<(), Oom>
    ensures does { OnOk result (found.new.first
        ≡ also found.old.first (flat_map (λ one. elements.attribute_rules home.now.members.now g.old one.kind one.name) attributes.now)) }
    ensures same { g.new ≡ g.old }
{
    for one in attributes {
        attribute_rules(home, g, one, found)?;
    }
    Ok(())
}

fn names_of(alloc: Global, idents: &[Ident]) -> Result<Vec<Name<'_>>, Oom>
    ensures { IfOk result (λ names. map ident_of names.items ≡ idents.now) }
{
    let mut names = Vec::new(alloc);
    for one in idents {
        names.push(named(one))?;
    }
    Ok(names)
}

/// The names that attributes count as, each once.
fn names_rules(
    home: &Home<'_>,
    element: &Txt,
    attributes: &[Attribute],
    found: &mut Findings,
) -> Result<(), Oom>
    ensures { OnOk result (found.new.first
        ≡ also found.old.first (names_spec.repeated DuplicateAttribute [] (spec.names (home_of home.now) element.now attributes.now))) }
{
    let all = counted_names(home, element, attributes)?;
    let names = names_of(home.alloc, all.as_slice())?;
    repeated(Rule::DuplicateAttribute, names.as_slice(), found);
    Ok(())
}

/// The rules of the attributes of an element.
#[tactic(auto, using(razor_rules::proofs::FirstLaws::also_append, crate::proofs::ElementLaws::element_law))]
pub fn element_rules(
    home: &Home<'_>,
    g: &mut Ground,
    element: &Txt,
    attributes: &[Attribute],
    found: &mut Findings,
) -> Result<(), Oom>
    ensures does { OnOk result (found.new.first ≡ also found.old.first (spec.element_rules (home_of home.now) element.now attributes.now g.old)) }
    ensures same { g.new ≡ g.old }
{
    names_rules(home, element, attributes, found)?;
    all_attributes(home, g, attributes, found)
}
