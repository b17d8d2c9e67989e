// The component items of a rendering.
ghost use Rattle.std.specs.Prelude.{◌≡◌, ◌++◌, IfOk};
ghost use Rattle.pairing_meaning.specs.Components.{orders_in, orders_of};

use frame_core::Item;
use sqlite_items::Items;
use std::alloc::{AllocError, Global};

/// The places with those of the component items in an item, in their order.
#[cycle(orders)]
fn with_item(item: &Item, orders: Items<u32>) -> Result<Items<u32>, AllocError>
    ensures { IfOk result (λ them. them ≡ orders ++ orders_in item.now) }
{
    let mut orders = orders;
    match item {
        Item::Component { order, .. } => {
            orders.push(*order)?;
            Ok(orders)
        }
        Item::Element { children, .. } => with_items(children.as_slice(), orders),
        Item::Region { children, .. } => with_items(children.as_slice(), orders),
        Item::Text { .. } => Ok(orders),
        Item::Markup { .. } => Ok(orders),
    }
}

/// The places with those of the component items in these items.
#[cycle(orders)]
fn with_items(items: &[Item], orders: Items<u32>) -> Result<Items<u32>, AllocError>
    ensures { IfOk result (λ them. them ≡ orders ++ orders_of items.now) }
{
    let mut orders = orders;
    for item in items {
        orders = with_item(item, orders)?;
    }
    Ok(orders)
}

/// The component items in these items, in document order.
pub(crate) fn all_orders(alloc: Global, items: &[Item]) -> Result<Items<u32>, AllocError>
    ensures { IfOk result (λ orders. orders ≡ orders_of items.now) }
{
    with_items(items, Items::new(alloc))
}
