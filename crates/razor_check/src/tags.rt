// The rules of the tags of components and fragments that don't ask what stands in them.
ghost use Rattle.std.specs.Prelude.{◌≡◌, ◌++◌, [], codes, map, OnOk, IfOk};
ghost use Rattle.std.specs.List.{flat_map};
ghost use Rattle.cs_rules.specs.declared.rule.Rule.TheVariants.{DuplicateAttribute};
ghost use Rattle.razor_rules.specs.Findings.{also};
ghost use Rattle.razor_rules.specs.Names as names_spec;
ghost use Rattle.razor_rules.specs.Tags as spec;
ghost use Rattle.razor_rules.specs.Templates.{part_of};
ghost use Rattle.razor_parts.specs.Shapes as shapes;
ghost use Rattle.razor_parts.specs.Views.{home_of, tagged_view};

use crate::noting::note;
use crate::parameters::parameter_rules;
use crate::values::key;
use cs_rules::Rule;
use razor_ast::{Attribute, AttributeKind, TNode};
use razor_parts::home::Home;
use razor_parts::tagged::Tagged;
use razor_parts::tags::{
    Shape, is_blank, is_context, is_fragment_tag, place_of, push_attribute_names,
    push_content_names,
};
use razor_rules::Ground;
use rule_findings::{Findings, repeated};
use text_core::{Oom, Place, Txt};

/// The tag of a fragment has no attribute but `Context`.
#[tactic(auto, using(razor_rules::proofs::FirstLaws::also_append, razor_rules::proofs::FirstLaws::also_nothing))]
pub fn fragment_attributes(attributes: &[Attribute], found: &mut Findings)
    ensures { found.new.first ≡ also found.old.first (flat_map spec.fragment_attribute attributes.now) }
{
    for one in attributes {
        let fine = is_context(&one.kind);
        found.add_unless(fine, Rule::UnknownParameter, one.place);
    }
}

/// No two attributes of one name on the tag of a fragment.
pub fn fragment_names(
    home: &Home<'_>,
    attributes: &[Attribute],
    found: &mut Findings,
) -> Result<(), Oom>
    ensures { OnOk result (found.new.first
        ≡ also found.old.first (names_spec.repeated DuplicateAttribute [] (spec.attribute_names attributes.now))) }
{
    let mut names = Vec::new(home.alloc);
    push_attribute_names(attributes, &mut names)?;
    repeated(Rule::DuplicateAttribute, names.as_slice(), found);
    Ok(())
}

/// No two attributes of one name on the tag of a component, with what its content counts as.
#[tactic(auto, using(crate::proofs::WordLaws::child_content_word))]
pub fn tag_names(
    home: &Home<'_>,
    shape: Shape,
    attributes: &[Attribute],
    nodes: &[TNode],
    place: Place,
    found: &mut Findings,
) -> Result<(), Oom>
    ensures { OnOk result (found.new.first ≡ also found.old.first (names_spec.repeated DuplicateAttribute []
        (spec.attribute_names attributes.now ++ shapes.names_by shape (spec.counted (map (part_of (home_of home.now)) nodes.now)) place (codes "ChildContent")))) }
{
    let loose = Txt::from_str(home.alloc, "ChildContent")?;
    let mut names = Vec::new(home.alloc);
    push_attribute_names(attributes, &mut names)?;
    push_content_names(home, shape, nodes, place, &loose, &mut names)?;
    repeated(Rule::DuplicateAttribute, names.as_slice(), found);
    Ok(())
}

/// An attribute of the tag of a component.
#[tactic(auto, using(razor_rules::proofs::FirstLaws::also_nothing))]
fn attribute_rules(
    home: &Home<'_>,
    g: &mut Ground,
    around: Tagged<'_>,
    one: &Attribute,
    found: &mut Findings,
) -> Result<(), Oom>
    ensures does { OnOk result (found.new.first
        ≡ also found.old.first (spec.attribute_rules (tagged_view home.now.records.now around.entry) g.old one.now one.now.kind)) }
    ensures same { g.new ≡ g.old }
{
    match &one.kind {
        AttributeKind::Parameter { given, .. } => {
            parameter_rules(home, g, around, &one.name, one.place, given, found)
        }
        AttributeKind::Key(a) => note(found, key(home.alloc, g, a)),
        AttributeKind::Mixed { .. } => Ok(()),
        AttributeKind::Event { .. } => Ok(()),
        AttributeKind::Bind { .. } => Ok(()),
        AttributeKind::BindEvent => Ok(()),
        AttributeKind::Context { .. } => Ok(()),
    }
}

/// The attributes of the tag of a component.
#[tactic(auto, using(razor_rules::proofs::FirstLaws::also_append, razor_rules::proofs::FirstLaws::also_nothing))]
pub fn all_attributes(
    home: &Home<'_>,
    g: &mut Ground,
    around: Tagged<'_>,
    attributes: &[Attribute],
    found: &mut Findings,
) -> Result<(), Oom>
    ensures does { OnOk result (found.new.first ≡ also found.old.first
        (flat_map (λ one. spec.attribute_rules (tagged_view home.now.records.now around.entry) g.old one one.kind) attributes.now)) }
    ensures same { g.new ≡ g.old }
{
    for one in attributes {
        attribute_rules(home, g, around, one, found)?;
    }
    Ok(())
}

/// The first node that is no tag of a fragment, where white space doesn't count.
#[tactic(auto, using(razor_rules::proofs::FirstLaws::also_append, razor_rules::proofs::FirstLaws::also_nothing))]
pub fn mixed_rules(
    home: &Home<'_>,
    around: Tagged<'_>,
    nodes: &[TNode],
    found: &mut Findings,
) -> Result<(), Oom>
    ensures { OnOk result (found.new.first ≡ also found.old.first
        (spec.mixed_rules (tagged_view home.now.records.now around.entry) (spec.counted (map (part_of (home_of home.now)) nodes.now)))) }
{
    for one in nodes {
        if !is_blank(home, one)? {
            if !is_fragment_tag(home, around, one)? {
                found.add(Rule::MixedContent, place_of(home, one));
                return Ok(());
            }
        }
    }
    Ok(())
}
