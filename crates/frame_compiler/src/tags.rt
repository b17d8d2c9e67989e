// The tags of components, and what they give.
ghost use Rattle.std.specs.Prelude.{map};
ghost use Rattle.std.specs.Option.{option_copied};
ghost use Rattle.cs_forms.specs.Agrees.{AgreesBy};
ghost use Rattle.frame_program.specs.Operations.{act_of, given_by};
ghost use Rattle.page_meaning.specs.Parts.{part_of};
ghost use Rattle.razor_parts.specs.Views.{tagged_view};
ghost use Rattle.frame_parts.specs.Tags as tags;
ghost use Rattle.frame_parts.specs.Views.{IsWhole, home_in, numbered, target_view};

use crate::fragments::{loose_gift, one_gift};
use cs_ast::{Ident, Scope};
use cs_forms::CheckFault;
use frame_parts::forms;
use frame_parts::fragments::{Giving, are_fragments, known_component, known_target};
use frame_parts::gifts::attribute_gifts;
use frame_parts::making::Making;
use frame_parts::site::Site;
use frame_parts::targets::Target;
use frame_program::{Operation, TagPart};
use razor_ast::{Attribute, TNode};
use razor_parts::tagged::Tagged;
use razor_parts::tags::{context_in, is_blank};
use sqlite_items::Items;
use text_core::Place;

/// What a node gives that may be the tag of a fragment.
#[cycle(nodes)]
#[tactic(auto, using(frame_parts::proofs::TagLaws::child_gift, frame_parts::proofs::TagLaws::element_gift, frame_parts::proofs::TagLaws::text_gift, frame_parts::proofs::TagLaws::raw_gift, frame_parts::proofs::TagLaws::content_gift, frame_parts::proofs::TagLaws::group_gift, frame_parts::proofs::TagLaws::statement_gift, frame_parts::proofs::TagLaws::block_gift, frame_parts::proofs::TagLaws::if_gift, frame_parts::proofs::TagLaws::switch_gift, frame_parts::proofs::TagLaws::for_gift, frame_parts::proofs::TagLaws::for_each_gift, frame_parts::proofs::TagLaws::while_gift))]
fn tag_gift(
    site: &Site<'_>,
    one: &TNode,
    around: Tagged<'_>,
    target: &Target<'_>,
    outer: Option<&Ident>,
    scope: &Scope,
    making: &mut Making,
) -> Result<Items<TagPart>, CheckFault>
    requires whole { IsWhole site.now }
    ensures { AgreesBy (λ parts. (map given_by parts, numbered making.new)) result
        (tags.tag_gift (tagged_view site.now.home.records.now around.entry) (target_view target.now) (home_in site.now) scope.now
        (option_copied outer.entry) (part_of one.now).tag (numbered making.old)) }
{
    match one {
        TNode::Child {
            number,
            place,
            name,
            attributes,
            children,
        } => one_gift(
            site,
            children.as_slice(),
            around,
            target,
            Giving::Tagged,
            &name.name,
            *number,
            *place,
            context_in(attributes.as_slice()),
            outer,
            scope,
            making,
        ),
        TNode::Element { .. } => Ok(Items::new(site.home.alloc)),
        TNode::Text { .. } => Ok(Items::new(site.home.alloc)),
        TNode::Raw { .. } => Ok(Items::new(site.home.alloc)),
        TNode::Content { .. } => Ok(Items::new(site.home.alloc)),
        TNode::Group { .. } => Ok(Items::new(site.home.alloc)),
        TNode::Statement(_) => Ok(Items::new(site.home.alloc)),
        TNode::Block { .. } => Ok(Items::new(site.home.alloc)),
        TNode::If { .. } => Ok(Items::new(site.home.alloc)),
        TNode::Switch { .. } => Ok(Items::new(site.home.alloc)),
        TNode::For { .. } => Ok(Items::new(site.home.alloc)),
        TNode::ForEach { .. } => Ok(Items::new(site.home.alloc)),
        TNode::While { .. } => Ok(Items::new(site.home.alloc)),
    }
}

/// The same, where white space gives nothing.
#[cycle(nodes)]
#[tactic(auto, using(frame_parts::proofs::SameParts::same_blank))]
fn part_gift(
    site: &Site<'_>,
    one: &TNode,
    around: Tagged<'_>,
    target: &Target<'_>,
    outer: Option<&Ident>,
    scope: &Scope,
    making: &mut Making,
) -> Result<Items<TagPart>, CheckFault>
    requires whole { IsWhole site.now }
    ensures { AgreesBy (λ parts. (map given_by parts, numbered making.new)) result
        (tags.part_gift (tagged_view site.now.home.records.now around.entry) (target_view target.now) (home_in site.now) scope.now
        (option_copied outer.entry) (part_of one.now) (numbered making.old)) }
{
    if is_blank(&site.home, one)? {
        Ok(Items::new(site.home.alloc))
    } else {
        tag_gift(site, one, around, target, outer, scope, making)
    }
}

/// What the tags of fragments give, one after another.
#[cycle(nodes)]
#[tactic(auto, using(frame_parts::proofs::FrontLemmas::front_none, frame_parts::proofs::FrontLemmas::front_more, frame_parts::proofs::FrontLemmas::front_end))]
fn tag_gifts(
    site: &Site<'_>,
    nodes: &[TNode],
    around: Tagged<'_>,
    target: &Target<'_>,
    outer: Option<&Ident>,
    scope: &Scope,
    making: &mut Making,
) -> Result<Items<TagPart>, CheckFault>
    requires whole { IsWhole site.now }
    ensures { AgreesBy (λ parts. (map given_by parts, numbered making.new)) result
        (tags.tag_gifts (tagged_view site.now.home.records.now around.entry) (target_view target.now) (home_in site.now) scope.now
        (option_copied outer.entry) (map part_of nodes.now) (numbered making.old)) }
{
    let mut parts = Items::new(site.home.alloc);
    for one in nodes {
        parts.append(part_gift(site, one, around, target, outer, scope, making)?)?;
    }
    Ok(parts)
}

/// What the content of a tag gives.
#[cycle(nodes)]
fn gifts_inside(
    site: &Site<'_>,
    nodes: &[TNode],
    around: Tagged<'_>,
    target: &Target<'_>,
    number: u32,
    place: Place,
    outer: Option<&Ident>,
    scope: &Scope,
    making: &mut Making,
) -> Result<Items<TagPart>, CheckFault>
    requires whole { IsWhole site.now }
    ensures { AgreesBy (λ parts. (map given_by parts, numbered making.new)) result
        (tags.gifts_inside (tagged_view site.now.home.records.now around.entry) (target_view target.now) (home_in site.now) scope.now number place
        (option_copied outer.entry) (map part_of nodes.now) (numbered making.old)) }
{
    if are_fragments(site, around, nodes)? {
        tag_gifts(site, nodes, around, target, outer, scope, making)
    } else {
        loose_gift(
            site, nodes, around, target, number, place, outer, scope, making,
        )
    }
}

/// What the tag of a component gives: by its attributes, and by its content.
#[cycle(nodes)]
fn all_gifts(
    site: &Site<'_>,
    nodes: &[TNode],
    around: Tagged<'_>,
    target: &Target<'_>,
    number: u32,
    place: Place,
    attributes: &[Attribute],
    scope: &Scope,
    making: &mut Making,
) -> Result<Items<TagPart>, CheckFault>
    requires whole { IsWhole site.now }
    ensures { AgreesBy (λ parts. (map given_by parts, numbered making.new)) result
        (tags.all_gifts (tagged_view site.now.home.records.now around.entry) (target_view target.now) (home_in site.now) scope.now number place attributes.now
        (map part_of nodes.now) (numbered making.old)) }
{
    let mut parts = attribute_gifts(site, scope, target, attributes, making)?;
    let outer = context_in(attributes);
    parts.append(gifts_inside(
        site, nodes, around, target, number, place, outer, scope, making,
    )?)?;
    Ok(parts)
}

/// The tag of a component.
#[cycle(nodes)]
pub fn component(
    site: &Site<'_>,
    nodes: &[TNode],
    number: u32,
    place: Place,
    name: &Ident,
    attributes: &[Attribute],
    scope: &Scope,
    making: &mut Making,
) -> Result<Items<Operation>, CheckFault>
    requires whole { IsWhole site.now }
    ensures { AgreesBy (λ all. (map act_of all, numbered making.new)) result
        (tags.component (home_in site.now) scope.now number place name.now attributes.now (map part_of nodes.now) (numbered making.old)) }
{
    let around = known_component(site, name)?;
    let target = known_target(site, scope, name, attributes)?;
    let parts = all_gifts(
        site, nodes, around, &target, number, place, attributes, scope, making,
    )?;
    Ok(forms::child(site.home.alloc, number, target.made, parts)?)
}
