// The handlers of a rendering in document order.
ghost use Rattle.std.specs.Prelude.{◌≡◌, ◌++◌, map, IfOk};
ghost use Rattle.std.specs.List.{flat_map};
ghost use Rattle.frame_walk.specs.Ids.{value_of, values_in, values_of};
ghost use Rattle.frame_walk.specs.Told.{told_of};

use frame_core::{Item, ItemAttribute, ItemHandler, ItemValue};
use std::alloc::{AllocError, Global};
use text_core::Txt;

/// A handler, and the name of its attribute.
#[derive(Clone, Copy, Debug)]
pub(crate) struct Told<'a> {
    pub(crate) name: &'a Txt,
    pub(crate) handler: &'a ItemHandler,
}

fn with_attribute<'a>(
    attribute: &'a ItemAttribute,
    tolds: Vec<Told<'a>>,
) -> Result<Vec<Told<'a>>, AllocError>
    ensures { IfOk result (λ them. map told_of them.items ≡ map told_of tolds.entry.items ++ value_of attribute.entry.now) }
{
    let mut tolds = tolds;
    match &attribute.value {
        ItemValue::Handler(handler) => {
            tolds.push(Told {
                name: &attribute.name,
                handler,
            })?;
            Ok(tolds)
        }
        ItemValue::Text(_) => Ok(tolds),
    }
}

fn with_attributes<'a>(
    attributes: &'a [ItemAttribute],
    tolds: Vec<Told<'a>>,
) -> Result<Vec<Told<'a>>, AllocError>
    ensures { IfOk result (λ them. map told_of them.items ≡ map told_of tolds.entry.items ++ flat_map value_of attributes.entry.now) }
{
    let mut tolds = tolds;
    for attribute in attributes {
        tolds = with_attribute(attribute, tolds)?;
    }
    Ok(tolds)
}

#[cycle(told)]
fn with_item<'a>(item: &'a Item, tolds: Vec<Told<'a>>) -> Result<Vec<Told<'a>>, AllocError>
    ensures { IfOk result (λ them. map told_of them.items ≡ map told_of tolds.entry.items ++ values_in item.now) }
{
    match item {
        Item::Element {
            attributes,
            children,
            ..
        } => {
            let tolds = with_attributes(attributes.as_slice(), tolds)?;
            with_items(children.as_slice(), tolds)
        }
        Item::Region { children, .. } => with_items(children.as_slice(), tolds),
        Item::Text { .. } => Ok(tolds),
        Item::Markup { .. } => Ok(tolds),
        Item::Component { .. } => Ok(tolds),
    }
}

#[cycle(told)]
fn with_items<'a>(items: &'a [Item], tolds: Vec<Told<'a>>) -> Result<Vec<Told<'a>>, AllocError>
    ensures { IfOk result (λ them. map told_of them.items ≡ map told_of tolds.entry.items ++ values_of items.now) }
{
    let mut tolds = tolds;
    for item in items {
        tolds = with_item(item, tolds)?;
    }
    Ok(tolds)
}

/// The handlers in an item, in document order.
pub(crate) fn told_in(alloc: Global, item: &Item) -> Result<Vec<Told<'_>>, AllocError>
    ensures { IfOk result (λ tolds. map told_of tolds.items ≡ values_in item.now) }
{
    with_item(item, Vec::new(alloc))
}

/// The handlers in these items, in document order.
pub(crate) fn all_told(alloc: Global, items: &[Item]) -> Result<Vec<Told<'_>>, AllocError>
    ensures { IfOk result (λ tolds. map told_of tolds.items ≡ values_of items.now) }
{
    with_items(items, Vec::new(alloc))
}
