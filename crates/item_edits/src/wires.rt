// What a batch says of items that it puts in.
ghost use Rattle.std.specs.Prelude.{◌≡◌, ◌++◌, map, IfOk};
ghost use Rattle.pairing_meaning.specs.Wires.{wire_attribute, wires_in, wires_of};

use frame_core::{Item, ItemAttribute, ItemValue, WireAttribute, WireNode, WireValue};
use sqlite_items::Items;
use std::alloc::{AllocError, Global};

/// What it says of an attribute or a handler.
pub(crate) fn say_attribute(attribute: &ItemAttribute) -> Result<WireAttribute, AllocError>
    ensures { IfOk result (λ said. said ≡ wire_attribute attribute.now) }
{
    let value = match &attribute.value {
        ItemValue::Text(text) => WireValue::Text(text.clone()?),
        ItemValue::Handler(handler) => WireValue::Handler(handler.id),
    };
    Ok(WireAttribute {
        name: attribute.name.clone()?,
        value,
    })
}

fn say_attributes(
    alloc: Global,
    attributes: &[ItemAttribute],
) -> Result<Items<WireAttribute>, AllocError>
    ensures { IfOk result (λ said. said ≡ map wire_attribute attributes.now) }
{
    let mut said = Items::new(alloc);
    for attribute in attributes {
        said.push(say_attribute(attribute)?)?;
    }
    Ok(said)
}

/// The nodes with that of an item, or with those of a region.
#[cycle(wires)]
fn with_item(
    alloc: Global,
    item: &Item,
    nodes: Items<WireNode>,
) -> Result<Items<WireNode>, AllocError>
    ensures { IfOk result (λ them. them ≡ nodes ++ wires_in item.now) }
{
    let mut nodes = nodes;
    match item {
        Item::Element {
            name,
            attributes,
            children,
            ..
        } => {
            let children = with_items(alloc, children.as_slice(), Items::new(alloc))?;
            nodes.push(WireNode::Element {
                name: name.clone()?,
                attributes: say_attributes(alloc, attributes.as_slice())?,
                children,
            })?;
            Ok(nodes)
        }
        Item::Text { text, .. } => {
            nodes.push(WireNode::Text(text.clone()?))?;
            Ok(nodes)
        }
        Item::Markup { text, .. } => {
            nodes.push(WireNode::Markup(text.clone()?))?;
            Ok(nodes)
        }
        Item::Component { order, .. } => {
            nodes.push(WireNode::Component(*order))?;
            Ok(nodes)
        }
        Item::Region { children, .. } => with_items(alloc, children.as_slice(), nodes),
    }
}

/// The nodes with those of these items.
#[cycle(wires)]
fn with_items(
    alloc: Global,
    items: &[Item],
    nodes: Items<WireNode>,
) -> Result<Items<WireNode>, AllocError>
    ensures { IfOk result (λ them. them ≡ nodes ++ wires_of items.now) }
{
    let mut nodes = nodes;
    for item in items {
        nodes = with_item(alloc, item, nodes)?;
    }
    Ok(nodes)
}

/// One node for each slot of these items.
pub(crate) fn say_items(alloc: Global, items: &[Item]) -> Result<Items<WireNode>, AllocError>
    ensures { IfOk result (λ them. them ≡ wires_of items.now) }
{
    with_items(alloc, items, Items::new(alloc))
}
