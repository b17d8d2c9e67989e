// The component items that do not pair.
ghost use Rattle.std.specs.Prelude.{◌≡◌, map, IfOk};
ghost use Rattle.pairing_meaning.specs.Components.{orders_of};
ghost use Rattle.item_components.specs.Listed.{without};

use crate::orders::all_orders;
use frame_core::Item;
use sqlite_items::Items;
use std::alloc::{AllocError, Global};

/// Those of the places that are not among the others.
fn without(alloc: Global, orders: &[u32], others: &[u32]) -> Result<Items<u32>, AllocError>
    ensures { IfOk result (λ them. them ≡ without others.now orders.now) }
{
    let mut them = Items::new(alloc);
    for order in orders {
        if !others.contains(order) {
            them.push(*order)?;
        }
    }
    Ok(them)
}

fn firsts(alloc: Global, pairs: &[(u32, u32)]) -> Result<Items<u32>, AllocError>
    ensures { IfOk result (λ them. them ≡ map (λ pair. pair.0) pairs.now) }
{
    let mut them = Items::new(alloc);
    for (first, _) in pairs {
        them.push(*first)?;
    }
    Ok(them)
}

fn seconds(alloc: Global, pairs: &[(u32, u32)]) -> Result<Items<u32>, AllocError>
    ensures { IfOk result (λ them. them ≡ map (λ pair. pair.1) pairs.now) }
{
    let mut them = Items::new(alloc);
    for (_, second) in pairs {
        them.push(*second)?;
    }
    Ok(them)
}

/// The new component items that do not pair, in their order, where `retained` has those that do.
pub fn made(alloc: Global, retained: &[(u32, u32)], news: &[Item]) -> Result<Items<u32>, AllocError>
    ensures { IfOk result (λ made. made ≡ without (map (λ pair. pair.1) retained.now) (orders_of news.now)) }
{
    let orders = all_orders(alloc, news)?;
    let paired = seconds(alloc, retained)?;
    without(alloc, orders.as_slice(), paired.as_slice())
}

/// The old component items that do not pair, in their order, where `retained` has those that do.
pub fn disposed(
    alloc: Global,
    retained: &[(u32, u32)],
    olds: &[Item],
) -> Result<Items<u32>, AllocError>
    ensures { IfOk result (λ disposed. disposed ≡ without (map (λ pair. pair.0) retained.now) (orders_of olds.now)) }
{
    let orders = all_orders(alloc, olds)?;
    let paired = firsts(alloc, retained)?;
    without(alloc, orders.as_slice(), paired.as_slice())
}
