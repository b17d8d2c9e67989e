// The ids that go.
ghost use Rattle.std.specs.Prelude.{◌≡◌, ◌++◌, IfOk};
ghost use Rattle.std.specs.List.{flat_map};
ghost use Rattle.handler_ids.specs.Kept.{Leads};
ghost use Rattle.frame_walk.specs.Ids.{id_of, ids_in, ids_of, gone_from, Disposed, IsDisposed};

use frame_core::{Item, ItemAttribute, ItemValue};
use handler_ids::{Found, Handlers};
use sqlite_items::Items;
use std::alloc::{AllocError, Global};

fn with_attribute(attribute: &ItemAttribute, ids: Items<u64>) -> Result<Items<u64>, AllocError>
    ensures { IfOk result (λ them. them ≡ ids ++ id_of attribute.now) }
{
    let mut ids = ids;
    match &attribute.value {
        ItemValue::Handler(handler) => {
            ids.push(handler.id)?;
            Ok(ids)
        }
        ItemValue::Text(_) => Ok(ids),
    }
}

fn with_attributes(attributes: &[ItemAttribute], ids: Items<u64>) -> Result<Items<u64>, AllocError>
    ensures { IfOk result (λ them. them ≡ ids ++ flat_map id_of attributes.now) }
{
    let mut ids = ids;
    for attribute in attributes {
        ids = with_attribute(attribute, ids)?;
    }
    Ok(ids)
}

#[cycle(ids)]
fn with_item(item: &Item, ids: Items<u64>) -> Result<Items<u64>, AllocError>
    ensures { IfOk result (λ them. them ≡ ids ++ ids_in item.now) }
{
    match item {
        Item::Element {
            attributes,
            children,
            ..
        } => {
            let ids = with_attributes(attributes.as_slice(), ids)?;
            with_items(children.as_slice(), ids)
        }
        Item::Region { children, .. } => with_items(children.as_slice(), ids),
        Item::Text { .. } => Ok(ids),
        Item::Markup { .. } => Ok(ids),
        Item::Component { .. } => Ok(ids),
    }
}

#[cycle(ids)]
fn with_items(items: &[Item], ids: Items<u64>) -> Result<Items<u64>, AllocError>
    ensures { IfOk result (λ them. them ≡ ids ++ ids_of items.now) }
{
    let mut ids = ids;
    for item in items {
        ids = with_item(item, ids)?;
    }
    Ok(ids)
}

/// The ids of the old handlers that no new one has, in document order.
pub(crate) fn gone_ids(alloc: Global, olds: &[Item], news: &[u64]) -> Result<Vec<u64>, AllocError>
    ensures { IfOk result (λ gone. gone.items ≡ gone_from (ids_of olds.now) news.now) }
{
    let ids = with_items(olds, Items::new(alloc))?;
    let mut gone = Vec::new(alloc);
    for id in ids.as_slice() {
        if !news.contains(id) {
            gone.push(*id)?;
        }
    }
    Ok(gone)
}

/// Disposes an id, if it is live.
fn dispose_one(handlers: &mut Handlers, batch: u64, id: u64)
    ensures { Leads handlers.old handlers.new (IsDisposed batch handlers.old.released id) }
{
    if let Found::Live { .. } = handlers.find(id) {
        handlers.dispose(id, batch);
    }
}

/// Disposes those of the ids that are live.
pub(crate) fn dispose_all(handlers: &mut Handlers, batch: u64, ids: &[u64])
    ensures { Leads handlers.old handlers.new (Disposed batch handlers.old.released ids.now) }
{
    for id in ids {
        dispose_one(handlers, batch, *id);
    }
}
