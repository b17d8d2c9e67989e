// How the tags of components and fragments are meant.
ghost use Rattle.std.specs.Prelude.{◌≡◌, ◌++◌, map, is_some, IfOk, OnOk};
ghost use Rattle.std.specs.List.{list_all, list_any, flat_map};
ghost use Rattle.std.specs.Option.{option_copied};
ghost use Rattle.razor_ast.specs.Literals.{is_white};
ghost use Rattle.razor_rules.specs.Tags as spec;
ghost use Rattle.razor_rules.specs.Templates.{part_of};
ghost use Rattle.rule_findings.specs.Views.{ident_of};
ghost use Rattle.razor_parts.specs.Shapes as shapes;
ghost use Rattle.razor_parts.specs.Views.{home_of, tagged_view};

use crate::home::Home;
use crate::tagged::{Tagged, fragment_taken};
use cs_ast::{CsType, Ident};
use cs_token::Class;
use razor_ast::{Attribute, AttributeKind, TNode};
use rule_findings::Name;
use std::alloc::Global;
use text_core::{Oom, Place, Txt};

/// Where a node of a component begins.
#[tactic(auto, using(crate::proofs::NodeLaws::element_place, crate::proofs::NodeLaws::child_place, crate::proofs::NodeLaws::text_place, crate::proofs::NodeLaws::raw_place, crate::proofs::NodeLaws::content_place, crate::proofs::NodeLaws::group_place, crate::proofs::NodeLaws::statement_place, crate::proofs::NodeLaws::block_place, crate::proofs::NodeLaws::if_place, crate::proofs::NodeLaws::switch_place, crate::proofs::NodeLaws::for_place, crate::proofs::NodeLaws::for_each_place, crate::proofs::NodeLaws::while_place))]
pub fn place_of(home: &Home<'_>, node: &TNode) -> Place
    ensures { result ≡ (part_of (home_of home.now) node.now).place }
{
    match node {
        TNode::Element { place, .. } => *place,
        TNode::Child { place, .. } => *place,
        TNode::Text { place, .. } => *place,
        TNode::Raw { place, .. } => *place,
        TNode::Content { place, .. } => *place,
        TNode::Group { place, .. } => *place,
        TNode::Statement(one) => one.place,
        TNode::Block { place, .. } => *place,
        TNode::If { place, .. } => *place,
        TNode::Switch { place, .. } => *place,
        TNode::For { place, .. } => *place,
        TNode::ForEach { place, .. } => *place,
        TNode::While { place, .. } => *place,
    }
}

fn are_white(characters: &[char]) -> bool
    ensures { result ≡ is_white characters.now }
{
    characters.iter().all(|c| Class::White.has(*c))
}

/// Whether a text is of white space alone.
fn is_white_text(alloc: Global, text: &Txt) -> Result<bool, Oom>
    ensures { IfOk result (λ yes. yes ≡ is_white text.now) }
{
    let characters = text.to_chars(alloc)?;
    Ok(are_white(&characters))
}

/// Whether a node is a text of white space alone.
#[tactic(auto, using(crate::proofs::NodeLaws::element_blank, crate::proofs::NodeLaws::child_blank, crate::proofs::NodeLaws::text_blank, crate::proofs::NodeLaws::raw_blank, crate::proofs::NodeLaws::content_blank, crate::proofs::NodeLaws::group_blank, crate::proofs::NodeLaws::statement_blank, crate::proofs::NodeLaws::block_blank, crate::proofs::NodeLaws::if_blank, crate::proofs::NodeLaws::switch_blank, crate::proofs::NodeLaws::for_blank, crate::proofs::NodeLaws::for_each_blank, crate::proofs::NodeLaws::while_blank))]
pub fn is_blank(home: &Home<'_>, node: &TNode) -> Result<bool, Oom>
    ensures { IfOk result (λ yes. yes ≡ (part_of (home_of home.now) node.now).blank) }
{
    match node {
        TNode::Text { text, .. } => is_white_text(home.alloc, text),
        TNode::Element { .. } => Ok(false),
        TNode::Child { .. } => Ok(false),
        TNode::Raw { .. } => Ok(false),
        TNode::Content { .. } => Ok(false),
        TNode::Group { .. } => Ok(false),
        TNode::Statement(_) => Ok(false),
        TNode::Block { .. } => Ok(false),
        TNode::If { .. } => Ok(false),
        TNode::Switch { .. } => Ok(false),
        TNode::For { .. } => Ok(false),
        TNode::ForEach { .. } => Ok(false),
        TNode::While { .. } => Ok(false),
    }
}

/// The name of the tag of a component that a node is.
#[tactic(auto, using(crate::proofs::NodeLaws::element_tag, crate::proofs::NodeLaws::child_tag, crate::proofs::NodeLaws::text_tag, crate::proofs::NodeLaws::raw_tag, crate::proofs::NodeLaws::content_tag, crate::proofs::NodeLaws::group_tag, crate::proofs::NodeLaws::statement_tag, crate::proofs::NodeLaws::block_tag, crate::proofs::NodeLaws::if_tag, crate::proofs::NodeLaws::switch_tag, crate::proofs::NodeLaws::for_tag, crate::proofs::NodeLaws::for_each_tag, crate::proofs::NodeLaws::while_tag))]
pub fn tag_name<'a>(home: &Home<'_>, node: &'a TNode) -> Option<&'a Txt>
    ensures { option_copied result ≡ (part_of (home_of home.now) node.now).tag }
{
    match node {
        TNode::Child { name, .. } => Some(&name.name),
        TNode::Element { .. } => None,
        TNode::Text { .. } => None,
        TNode::Raw { .. } => None,
        TNode::Content { .. } => None,
        TNode::Group { .. } => None,
        TNode::Statement(_) => None,
        TNode::Block { .. } => None,
        TNode::If { .. } => None,
        TNode::Switch { .. } => None,
        TNode::For { .. } => None,
        TNode::ForEach { .. } => None,
        TNode::While { .. } => None,
    }
}

/// The argument of the fragment that a node is the tag of, if it is the tag of one.
pub fn fragment_by(
    home: &Home<'_>,
    around: Tagged<'_>,
    node: &TNode,
) -> Result<Option<Option<CsType>>, Oom>
    ensures { IfOk result (λ it. it ≡ spec.fragment_by (tagged_view home.now.records.now around.entry) (part_of (home_of home.now) node.now).tag) }
{
    match tag_name(home, node) {
        Some(name) => fragment_taken(home, around, name),
        None => Ok(None),
    }
}

/// Whether a node is the tag of a fragment.
pub fn is_fragment_tag(home: &Home<'_>, around: Tagged<'_>, node: &TNode) -> Result<bool, Oom>
    ensures { IfOk result (λ yes. yes ≡ spec.is_fragment_tag (tagged_view home.now.records.now around.entry) (part_of (home_of home.now) node.now)) }
{
    let taken = fragment_by(home, around, node)?;
    Ok(taken.is_some())
}

/// How the content of a component's tag is to be taken.
#[derive(Clone, Copy, Debug, PartialEq, Eq)]
pub enum Shape {
    /// The tags of fragments alone, or nothing.
    Fragments,
    /// These beside other content.
    Mixed,
    /// No tag of a fragment.
    Loose,
}

fn shape_by(all: bool, any: bool) -> Shape
    ensures { result ≡ shapes.shape_by all any }
{
    match (all, any) {
        (true, _) => Shape::Fragments,
        (false, true) => Shape::Mixed,
        (false, false) => Shape::Loose,
    }
}

/// How these nodes are to be taken as the content of such a tag.
#[tactic(auto, using(crate::proofs::LeavesLaws::or_on, crate::proofs::LeavesLaws::or_false, crate::proofs::LeavesLaws::and_on, crate::proofs::LeavesLaws::and_true))]
pub fn shape_of(home: &Home<'_>, around: Tagged<'_>, nodes: &[TNode]) -> Result<Shape, Oom>
    ensures { IfOk result (λ shape. shape
        ≡ shapes.shape_by (list_all (spec.is_fragment_tag (tagged_view home.now.records.now around.entry)) (spec.counted (map (part_of (home_of home.now)) nodes.now)))
        (list_any (spec.is_fragment_tag (tagged_view home.now.records.now around.entry)) (spec.counted (map (part_of (home_of home.now)) nodes.now)))) }
{
    let mut all = true;
    let mut any = false;
    for one in nodes {
        if !is_blank(home, one)? {
            let fragment = is_fragment_tag(home, around, one)?;
            all = all && fragment;
            any = any || fragment;
        }
    }
    Ok(shape_by(all, any))
}

fn push_tag_name<'a>(home: &Home<'_>, node: &'a TNode, names: &mut Vec<Name<'a>>) -> Result<(), Oom>
    ensures { OnOk result (map ident_of names.new.items ≡ map ident_of names.old.items
        ++ spec.if_named (part_of (home_of home.now) node.now).place (part_of (home_of home.now) node.now).tag) }
{
    if let Some(text) = tag_name(home, node) {
        let place = place_of(home, node);
        names.push(Name { place, text })?;
    }
    Ok(())
}

/// The names of the tags among nodes.
fn push_tag_names<'a>(
    home: &Home<'_>,
    nodes: &'a [TNode],
    names: &mut Vec<Name<'a>>,
) -> Result<(), Oom>
    ensures { OnOk result (map ident_of names.new.items ≡ map ident_of names.old.items
        ++ flat_map (λ one. spec.if_named one.place one.tag) (spec.counted (map (part_of (home_of home.now)) nodes.now))) }
{
    for one in nodes {
        if !is_blank(home, one)? {
            push_tag_name(home, one, names)?;
        }
    }
    Ok(())
}

/// Where the first of these nodes stands that isn't white space, or else this place.
fn first_place(home: &Home<'_>, nodes: &[TNode], place: Place) -> Result<Place, Oom>
    ensures { IfOk result (λ it. it ≡ spec.first_place (spec.counted (map (part_of (home_of home.now)) nodes.now)) place) }
{
    for one in nodes {
        if !is_blank(home, one)? {
            return Ok(place_of(home, one));
        }
    }
    Ok(place)
}

/// The names that content of such a shape counts as among the attributes of a tag at a place.
pub fn push_content_names<'a>(
    home: &Home<'_>,
    shape: Shape,
    nodes: &'a [TNode],
    place: Place,
    loose: &'a Txt,
    names: &mut Vec<Name<'a>>,
) -> Result<(), Oom>
    ensures { OnOk result (map ident_of names.new.items ≡ map ident_of names.old.items
        ++ shapes.names_by shape (spec.counted (map (part_of (home_of home.now)) nodes.now)) place loose.now) }
{
    match shape {
        Shape::Fragments => push_tag_names(home, nodes, names),
        Shape::Mixed => Ok(()),
        Shape::Loose => {
            let place = first_place(home, nodes, place)?;
            names.push(Name { place, text: loose })?;
            Ok(())
        }
    }
}

/// The name that `Context` gives.
fn context_of(kind: &AttributeKind) -> Option<&Ident>
    ensures { option_copied result ≡ spec.context_of kind.now }
{
    match kind {
        AttributeKind::Context { name, .. } => Some(name),
        AttributeKind::Mixed { .. } => None,
        AttributeKind::Key(_) => None,
        AttributeKind::Event { .. } => None,
        AttributeKind::Bind { .. } => None,
        AttributeKind::BindEvent => None,
        AttributeKind::Parameter { .. } => None,
    }
}

/// Whether an attribute is `Context`.
pub fn is_context(kind: &AttributeKind) -> bool
    ensures { result ≡ is_some (spec.context_of kind.now) }
{
    context_of(kind).is_some()
}

/// The name that the `Context` among attributes gives.
pub fn context_in(attributes: &[Attribute]) -> Option<&Ident>
    ensures { option_copied result ≡ spec.context_in attributes.now }
{
    for one in attributes {
        if let Some(name) = context_of(&one.kind) {
            return Some(name);
        }
    }
    None
}

fn copied(name: &Ident) -> Result<Ident, Oom>
    ensures { IfOk result (λ it. it ≡ name.now) }
{
    let text = name.name.clone()?;
    Ok(Ident {
        place: name.place,
        name: text,
    })
}

/// The name of the argument of a fragment.
#[tactic(auto, using(crate::proofs::WordLaws::context_word))]
pub fn context_name(
    alloc: Global,
    own: Option<&Ident>,
    outer: Option<&Ident>,
    place: Place,
) -> Result<Ident, Oom>
    ensures { IfOk result (λ it. it ≡ spec.context_name (option_copied own.entry) (option_copied outer.entry) place) }
{
    match own {
        Some(name) => copied(name),
        None => match outer {
            Some(name) => copied(name),
            None => Ok(Ident {
                place,
                name: Txt::from_str(alloc, "context")?,
            }),
        },
    }
}

/// The names of attributes.
pub fn push_attribute_names<'a>(
    attributes: &'a [Attribute],
    names: &mut Vec<Name<'a>>,
) -> Result<(), Oom>
    ensures { OnOk result (map ident_of names.new.items ≡ map ident_of names.old.items ++ spec.attribute_names attributes.now) }
{
    for one in attributes {
        names.push(Name {
            place: one.place,
            text: &one.name,
        })?;
    }
    Ok(())
}
