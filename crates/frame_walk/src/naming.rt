// The handlers of a rendering with their ids.
ghost use Rattle.std.specs.Prelude.{◌≡◌, ◌≤◌, [], ◌∷◌, ◌++◌, length, map, IfOk};
ghost use Rattle.std.specs.List.{flat_map};
ghost use Rattle.frame_walk.specs.Ids.{value_of, values_in, values_of, id_of, ids_in, ids_of, bare_attribute, bare};
ghost use Rattle.frame_walk.specs.Told.{Takes};

use frame_core::{Item, ItemAttribute, ItemHandler, ItemValue};
use sqlite_items::Items;
use std::alloc::{AllocError, Global};

/// A handler with the last of the ids.
fn handler_with_id(handler: ItemHandler, ids: &mut Items<u64>) -> ItemHandler
    requires { 1 ≤ length ids.old }
    ensures bare { record result { id = 0 } ≡ record handler { id = 0 } }
    ensures ids { ids.old ≡ ids.new ++ result.id ∷ [] }
{
    let ItemHandler {
        who,
        place,
        captures,
        ..
    } = handler;
    match ids.pop() {
        Some(id) => ItemHandler {
            id,
            who,
            place,
            captures,
        },
        None => unreachable!(),
    }
}

/// An attribute with the last of the ids, if it is a handler.
fn attribute_with_id(attribute: ItemAttribute, ids: &mut Items<u64>) -> ItemAttribute
    requires { length (value_of attribute) ≤ length ids.old }
    ensures bare { bare_attribute result ≡ bare_attribute attribute }
    ensures ids { Takes ids.old ids.new (id_of result) (value_of attribute) }
{
    let ItemAttribute {
        number,
        name,
        value,
    } = attribute;
    let value = match value {
        ItemValue::Text(text) => ItemValue::Text(text),
        ItemValue::Handler(handler) => ItemValue::Handler(handler_with_id(handler, ids)),
    };
    ItemAttribute {
        number,
        name,
        value,
    }
}

/// The attributes with the last of the ids, from the last one on.
fn attributes_with_ids(
    alloc: Global,
    attributes: Items<ItemAttribute>,
    ids: &mut Items<u64>,
) -> Result<Items<ItemAttribute>, AllocError>
    requires { length (flat_map value_of attributes) ≤ length ids.old }
    ensures bare { IfOk result (λ them. map bare_attribute them ≡ map bare_attribute attributes) }
    ensures ids { IfOk result (λ them. Takes ids.old ids.new (flat_map id_of them) (flat_map value_of attributes)) }
{
    let mut rest = attributes;
    let mut named = Vec::new(alloc);
    while let Some(last) = rest.pop() {
        named.push(attribute_with_id(last, ids))?;
    }
    named.as_mut_slice().reverse();
    Ok(Items::from_vec(named))
}

#[cycle(naming)]
fn item_with_ids(alloc: Global, item: Item, ids: &mut Items<u64>) -> Result<Item, AllocError>
    requires { length (values_in item) ≤ length ids.old }
    ensures bare { IfOk result (λ it. bare it ≡ bare item) }
    ensures ids { IfOk result (λ it. Takes ids.old ids.new (ids_in it) (values_in item)) }
{
    match item {
        Item::Element {
            number,
            name,
            key,
            attributes,
            children,
        } => {
            let children = items_with_ids(alloc, children, ids)?;
            let attributes = attributes_with_ids(alloc, attributes, ids)?;
            Ok(Item::Element {
                number,
                name,
                key,
                attributes,
                children,
            })
        }
        Item::Region {
            number,
            key,
            children,
        } => {
            let children = items_with_ids(alloc, children, ids)?;
            Ok(Item::Region {
                number,
                key,
                children,
            })
        }
        other => Ok(other),
    }
}

/// The items with the last of the ids, from the last one on.
#[cycle(naming)]
pub(crate) fn items_with_ids(
    alloc: Global,
    items: Items<Item>,
    ids: &mut Items<u64>,
) -> Result<Items<Item>, AllocError>
    requires { length (values_of items) ≤ length ids.old }
    ensures bare { IfOk result (λ them. map bare them ≡ map bare items) }
    ensures ids { IfOk result (λ them. Takes ids.old ids.new (ids_of them) (values_of items)) }
{
    let mut rest = items;
    let mut named = Vec::new(alloc);
    while let Some(last) = rest.pop() {
        named.push(item_with_ids(alloc, last, ids)?)?;
    }
    named.as_mut_slice().reverse();
    Ok(Items::from_vec(named))
}
