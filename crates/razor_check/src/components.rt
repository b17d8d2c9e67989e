// The rules of the tags of components, and of the fragments in them.
ghost use Rattle.std.specs.Prelude.{◌≡◌, codes, map, OnOk};
ghost use Rattle.std.specs.Option.{option_copied};
ghost use Rattle.razor_rules.specs.Findings.{also, found_then};
ghost use Rattle.razor_rules.specs.Grounds.{in_fragment, with_new};
ghost use Rattle.razor_rules.specs.Parameters.{tagged, fragment_taken as fragment_taken_spec};
ghost use Rattle.razor_rules.specs.Parts.{any_does, in_order};
ghost use Rattle.razor_rules.specs.Tags as tags;
ghost use Rattle.razor_rules.specs.TemplateDeeds.{changing};
ghost use Rattle.razor_rules.specs.Templates.{part_of};
ghost use Rattle.razor_parts.specs.Views.{home_of, tagged_view};
ghost use Rattle.razor_check.specs.Content as content_spec;

use crate::ground::{back, depth_of, enter_fragment, leave_fragment};
use crate::heads::argument_rules;
use crate::parameters::needed_rules;
use crate::tags::{all_attributes, fragment_attributes, fragment_names, mixed_rules, tag_names};
use crate::templates::{node_rules, nodes_rules};
use cs_ast::{CsType, Ident};
use cs_rules::Rule;
use razor_ast::{Attribute, TNode};
use razor_parts::home::Home;
use razor_parts::tagged::{Tagged, fragment_taken, tagged_by};
use razor_parts::tags::{Shape, context_in, context_name, fragment_by, is_blank, shape_of};
use razor_rules::Ground;
use rule_findings::Findings;
use text_core::{Oom, Place, Txt};

/// Nodes behind the argument of the fragment that they are in.
#[cycle(templates)]
fn argued_rules(
    home: &Home<'_>,
    g: &mut Ground,
    nodes: &[TNode],
    argument: Option<CsType>,
    name: &Ident,
    found: &mut Findings,
) -> Result<(), Oom>
    ensures does { OnOk result (found.new.first ≡ also found.old.first
        (found_then (with_new argument name.now (any_does (map (part_of (home_of home.now)) nodes.now) (changing name.now.name)) g.old) (in_order (map (part_of (home_of home.now)) nodes.now)))) }
    ensures same { OnOk result (g.new ≡ g.old) }
{
    let depth = depth_of(g);
    let goes = argument_rules(home, g, nodes, argument, name, found)?;
    if !goes {
        return Ok(());
    }
    nodes_rules(home, g, nodes, found)?;
    back(g, depth);
    Ok(())
}

/// The content of a fragment with such an argument of this name.
#[cycle(templates)]
#[tactic(auto, using(crate::proofs::GoingLemmas::leaves_again))]
fn fragment_rules(
    home: &Home<'_>,
    g: &mut Ground,
    nodes: &[TNode],
    argument: Option<CsType>,
    name: &Ident,
    found: &mut Findings,
) -> Result<(), Oom>
    ensures does { OnOk result (found.new.first ≡ also found.old.first (tags.fragment_rules (map (part_of (home_of home.now)) nodes.now) argument name.now g.old)) }
    ensures same { OnOk result (g.new ≡ g.old) }
{
    let left = enter_fragment(home.alloc, g)?;
    argued_rules(home, g, nodes, argument, name, found)?;
    leave_fragment(g, left);
    Ok(())
}

/// The tag of a fragment with such an argument.
#[cycle(templates)]
#[tactic(auto, using(razor_rules::proofs::FirstLaws::also_append, razor_rules::proofs::FirstLaws::also_nothing))]
fn fragment_tag(
    home: &Home<'_>,
    g: &mut Ground,
    nodes: &[TNode],
    place: Place,
    attributes: &[Attribute],
    argument: Option<CsType>,
    outer: Option<&Ident>,
    found: &mut Findings,
) -> Result<(), Oom>
    ensures does { OnOk result (found.new.first ≡ also found.old.first
        (tags.fragment_tag place attributes.now (map (part_of (home_of home.now)) nodes.now) g.old argument (option_copied outer.entry))) }
    ensures same { OnOk result (g.new ≡ g.old) }
{
    fragment_attributes(attributes, found);
    fragment_names(home, attributes, found)?;
    let name = context_name(home.alloc, context_in(attributes), outer, place)?;
    fragment_rules(home, g, nodes, argument, &name, found)
}

/// A node as the tag of a fragment with such an argument.
#[cycle(templates)]
#[tactic(auto, using(razor_rules::proofs::FirstLaws::also_nothing, crate::proofs::RuleLaws::element_as_fragment, crate::proofs::RuleLaws::child_as_fragment, crate::proofs::RuleLaws::text_as_fragment, crate::proofs::RuleLaws::raw_as_fragment, crate::proofs::RuleLaws::content_as_fragment, crate::proofs::RuleLaws::group_as_fragment, crate::proofs::RuleLaws::statement_as_fragment, crate::proofs::RuleLaws::block_as_fragment, crate::proofs::RuleLaws::if_as_fragment, crate::proofs::RuleLaws::switch_as_fragment, crate::proofs::RuleLaws::for_as_fragment, crate::proofs::RuleLaws::for_each_as_fragment, crate::proofs::RuleLaws::while_as_fragment))]
fn as_fragment(
    home: &Home<'_>,
    g: &mut Ground,
    one: &TNode,
    argument: Option<CsType>,
    outer: Option<&Ident>,
    found: &mut Findings,
) -> Result<(), Oom>
    ensures does { OnOk result (found.new.first ≡ also found.old.first
        ((part_of (home_of home.now) one.now).as_fragment g.old argument (option_copied outer.entry))) }
    ensures same { OnOk result (g.new ≡ g.old) }
{
    match one {
        TNode::Child {
            place,
            attributes,
            children,
            ..
        } => fragment_tag(
            home,
            g,
            children.as_slice(),
            *place,
            attributes.as_slice(),
            argument,
            outer,
            found,
        ),
        TNode::Element { .. } => Ok(()),
        TNode::Text { .. } => Ok(()),
        TNode::Raw { .. } => Ok(()),
        TNode::Content { .. } => Ok(()),
        TNode::Group { .. } => Ok(()),
        TNode::Statement(_) => Ok(()),
        TNode::Block { .. } => Ok(()),
        TNode::If { .. } => Ok(()),
        TNode::Switch { .. } => Ok(()),
        TNode::For { .. } => Ok(()),
        TNode::ForEach { .. } => Ok(()),
        TNode::While { .. } => Ok(()),
    }
}

/// A node in a fragment.
#[cycle(templates)]
#[tactic(auto, using(crate::proofs::GoingLemmas::leaves_again))]
fn inside(home: &Home<'_>, g: &mut Ground, one: &TNode, found: &mut Findings) -> Result<(), Oom>
    ensures does { OnOk result (found.new.first ≡ also found.old.first ((part_of (home_of home.now) one.now).rules (in_fragment g.old))) }
    ensures same { OnOk result (g.new ≡ g.old) }
{
    let left = enter_fragment(home.alloc, g)?;
    node_rules(home, g, one, found)?;
    leave_fragment(g, left);
    Ok(())
}

/// A node beside the tags of fragments, or such a tag.
#[cycle(templates)]
fn by_tag(
    home: &Home<'_>,
    g: &mut Ground,
    one: &TNode,
    around: Tagged<'_>,
    outer: Option<&Ident>,
    found: &mut Findings,
) -> Result<(), Oom>
    ensures does { OnOk result (found.new.first ≡ also found.old.first
        (tags.by_tag (tags.fragment_by (tagged_view home.now.records.now around.entry) (part_of (home_of home.now) one.now).tag) g.old (option_copied outer.entry) (part_of (home_of home.now) one.now))) }
    ensures same { OnOk result (g.new ≡ g.old) }
{
    match fragment_by(home, around, one)? {
        None => inside(home, g, one, found),
        Some(argument) => as_fragment(home, g, one, argument, outer, found),
    }
}

/// Content that is the tags of fragments, or these beside other content.
#[cycle(templates)]
#[tactic(auto, using(razor_rules::proofs::FirstLaws::also_append, razor_rules::proofs::FirstLaws::also_nothing))]
fn tags_rules(
    home: &Home<'_>,
    g: &mut Ground,
    nodes: &[TNode],
    around: Tagged<'_>,
    outer: Option<&Ident>,
    found: &mut Findings,
) -> Result<(), Oom>
    ensures does { OnOk result (found.new.first ≡ also found.old.first
        (tags.tags_rules (tagged_view home.now.records.now around.entry) (tags.counted (map (part_of (home_of home.now)) nodes.now)) g.old (option_copied outer.entry))) }
    ensures same { OnOk result (g.new ≡ g.old) }
{
    for one in nodes {
        if !is_blank(home, one)? {
            by_tag(home, g, one, around, outer, found)?;
        }
    }
    Ok(())
}

/// Content that is `ChildContent`.
#[cycle(templates)]
#[tactic(auto, using(crate::proofs::WordLaws::child_content_word))]
fn loose_rules(
    home: &Home<'_>,
    g: &mut Ground,
    nodes: &[TNode],
    around: Tagged<'_>,
    place: Place,
    outer: Option<&Ident>,
    found: &mut Findings,
) -> Result<(), Oom>
    ensures does { OnOk result (found.new.first ≡ also found.old.first
        (tags.loose_rules (fragment_taken_spec (tagged_view home.now.records.now around.entry) (codes "ChildContent")) (map (part_of (home_of home.now)) nodes.now) place g.old (option_copied outer.entry))) }
    ensures same { OnOk result (g.new ≡ g.old) }
{
    let content = Txt::from_str(home.alloc, "ChildContent")?;
    match fragment_taken(home, around, &content)? {
        None => {
            found.add(Rule::UnknownParameter, place);
            Ok(())
        }
        Some(argument) => {
            let name = context_name(home.alloc, outer, None, place)?;
            fragment_rules(home, g, nodes, argument, &name, found)
        }
    }
}

/// The content of a component's tag, which has such a shape.
#[cycle(templates)]
#[tactic(auto, using(razor_rules::proofs::FirstLaws::also_append, razor_rules::proofs::FirstLaws::also_nothing))]
fn shaped_rules(
    home: &Home<'_>,
    g: &mut Ground,
    nodes: &[TNode],
    around: Tagged<'_>,
    shape: Shape,
    place: Place,
    outer: Option<&Ident>,
    found: &mut Findings,
) -> Result<(), Oom>
    ensures does { OnOk result (found.new.first ≡ also found.old.first
        (content_spec.shaped_rules shape (tagged_view home.now.records.now around.entry) (map (part_of (home_of home.now)) nodes.now) place g.old (option_copied outer.entry))) }
    ensures same { OnOk result (g.new ≡ g.old) }
{
    match shape {
        Shape::Fragments => tags_rules(home, g, nodes, around, outer, found),
        Shape::Mixed => {
            mixed_rules(home, around, nodes, found)?;
            tags_rules(home, g, nodes, around, outer, found)
        }
        Shape::Loose => loose_rules(home, g, nodes, around, place, outer, found),
    }
}

/// The tag of a component.
#[cycle(templates)]
#[tactic(auto, using(razor_rules::proofs::FirstLaws::also_append, razor_rules::proofs::FirstLaws::also_nothing))]
fn tag_rules(
    home: &Home<'_>,
    g: &mut Ground,
    nodes: &[TNode],
    around: Tagged<'_>,
    place: Place,
    attributes: &[Attribute],
    found: &mut Findings,
) -> Result<(), Oom>
    ensures does { OnOk result (found.new.first ≡ also found.old.first
        (content_spec.tag_rules (tagged_view home.now.records.now around.entry) place attributes.now (map (part_of (home_of home.now)) nodes.now) g.old)) }
    ensures same { OnOk result (g.new ≡ g.old) }
{
    needed_rules(home, around, attributes, place, found);
    let shape = shape_of(home, around, nodes)?;
    tag_names(home, shape, attributes, nodes, place, found)?;
    all_attributes(home, g, around, attributes, found)?;
    let outer = context_in(attributes);
    shaped_rules(home, g, nodes, around, shape, place, outer, found)
}

/// A tag that has to be that of a component.
#[cycle(templates)]
#[tactic(auto, using(crate::proofs::ContentLaws::tag_law))]
pub fn component_rules(
    home: &Home<'_>,
    g: &mut Ground,
    nodes: &[TNode],
    place: Place,
    name: &Ident,
    attributes: &[Attribute],
    found: &mut Findings,
) -> Result<(), Oom>
    ensures does { OnOk result (found.new.first ≡ also found.old.first
        (tags.tag_rules (tagged (home_of home.now) name.now.name) place name.now attributes.now (map (part_of (home_of home.now)) nodes.now) g.old)) }
    ensures same { OnOk result (g.new ≡ g.old) }
{
    match tagged_by(home, &name.name) {
        None => {
            found.add(Rule::UnknownComponent, name.place);
            Ok(())
        }
        Some(around) => tag_rules(home, g, nodes, around, place, attributes, found),
    }
}
