// The operations of nodes.
ghost use Rattle.std.specs.Prelude.{◌≡◌, map, OnOk};
ghost use Rattle.cs_forms.specs.Agrees.{AgreesBy};
ghost use Rattle.frame_program.specs.Operations.{act_of};
ghost use Rattle.page_meaning.specs.Parts.{part_of};
ghost use Rattle.frame_parts.specs.Nodes as spec;
ghost use Rattle.frame_parts.specs.Steps.{step};
ghost use Rattle.frame_parts.specs.Views.{IsWhole, home_in, numbered};

use crate::branches::{branch, switch};
use crate::loops::{for_each, for_loop, while_loop};
use crate::sequences::{block, enclosed};
use crate::tags::component;
use cs_ast::Scope;
use cs_forms::CheckFault;
use frame_parts::attributes::dressed;
use frame_parts::forms;
use frame_parts::making::Making;
use frame_parts::site::Site;
use frame_program::Operation;
use razor_ast::{Attribute, TNode};
use sqlite_items::Items;
use text_core::Txt;

#[cycle(nodes)]
fn element(
    site: &Site<'_>,
    nodes: &[TNode],
    number: u32,
    name: &Txt,
    attributes: &[Attribute],
    scope: &mut Scope,
    making: &mut Making,
) -> Result<Items<Operation>, CheckFault>
    requires whole { IsWhole site.now }
    ensures does { AgreesBy (λ all. (map act_of all, numbered making.new)) result
        (spec.element (home_in site.now) scope.old number name.now attributes.now (map part_of nodes.now) (numbered making.old)) }
    ensures same { OnOk result (scope.new ≡ scope.old) }
{
    let worn = dressed(site, scope, name, attributes, making)?;
    let inside = enclosed(site, nodes, scope, making)?;
    Ok(forms::element(site.home.alloc, number, name, worn, inside)?)
}

/// The operations of a node.
#[cycle(nodes)]
#[tactic(auto, using(frame_parts::proofs::NodeLaws::element_law, frame_parts::proofs::NodeLaws::child_law, frame_parts::proofs::NodeLaws::text_law, frame_parts::proofs::NodeLaws::raw_law, frame_parts::proofs::NodeLaws::content_law, frame_parts::proofs::NodeLaws::group_law, frame_parts::proofs::NodeLaws::statement_law, frame_parts::proofs::NodeLaws::block_law, frame_parts::proofs::NodeLaws::if_law, frame_parts::proofs::NodeLaws::switch_law, frame_parts::proofs::NodeLaws::for_law, frame_parts::proofs::NodeLaws::for_each_law, frame_parts::proofs::NodeLaws::while_law))]
pub fn node(
    site: &Site<'_>,
    one: &TNode,
    scope: &mut Scope,
    making: &mut Making,
) -> Result<Items<Operation>, CheckFault>
    requires whole { IsWhole site.now }
    ensures does { AgreesBy (λ all. (map act_of all, numbered making.new)) result (step ((part_of one.now).makes (home_in site.now) scope.old) (numbered making.old)) }
    ensures same { OnOk result (scope.new ≡ scope.old) }
{
    let alloc = site.home.alloc;
    match one {
        TNode::Element {
            number,
            name,
            attributes,
            children,
            ..
        } => element(
            site,
            children.as_slice(),
            *number,
            &name.name,
            attributes.as_slice(),
            scope,
            making,
        ),
        TNode::Child {
            number,
            place,
            name,
            attributes,
            children,
        } => component(
            site,
            children.as_slice(),
            *number,
            *place,
            name,
            attributes.as_slice(),
            scope,
            making,
        ),
        TNode::Text { number, text, .. } => Ok(forms::text(alloc, *number, text)?),
        TNode::Raw { number, text, .. } => Ok(forms::raw(alloc, *number, text)?),
        TNode::Content { number, value, .. } => forms::content(alloc, scope, *number, value),
        TNode::Group { items, .. } => enclosed(site, items.as_slice(), scope, making),
        TNode::Statement(one) => forms::statement(alloc, scope, one),
        TNode::Block { items, .. } => block(site, items.as_slice(), scope, making),
        TNode::If {
            condition,
            yes,
            no,
            ..
        } => branch(site, yes.get(), no, condition, scope, making),
        TNode::Switch {
            value,
            sections,
            ..
        } => switch(site, sections.as_slice(), value, scope, making),
        TNode::For {
            number,
            start,
            condition,
            step,
            body,
            ..
        } => for_loop(
            site,
            body.get(),
            *number,
            start,
            condition,
            step,
            scope,
            making,
        ),
        TNode::ForEach {
            number,
            name,
            list,
            body,
            ..
        } => for_each(site, body.get(), *number, &name.name, list, scope, making),
        TNode::While {
            number,
            condition,
            body,
            ..
        } => while_loop(site, body.get(), *number, condition, scope, making),
    }
}
