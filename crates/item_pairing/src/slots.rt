// The slots of a list, its regions flattened.
ghost use Rattle.std.specs.Prelude.{◌≡◌, ◌++◌, ◌∷◌, [], map, IfOk};
ghost use Rattle.pairing_meaning.specs.Slots.{slots_of};
ghost use Rattle.item_pairing.specs.Standing.{mark_of, slot_of, behind, slots_at};

use crate::labels::count_alike;
use frame_core::Item;
use std::alloc::{AllocError, Global};

/// A region round a slot, and how many like it stand before it among its siblings.
#[derive(Clone, Copy, Debug)]
pub struct Around<'a> {
    pub region: &'a Item,
    pub before: usize,
}

/// An item that is no region, and the regions round it, from the outside in.
#[derive(Debug, Drop)]
pub struct Slot<'a> {
    pub regions: Vec<Around<'a>>,
    pub item: &'a Item,
}

/// The regions with one more, the innermost.
fn with_region<'a>(
    alloc: Global,
    regions: &[Around<'a>],
    around: Around<'a>,
) -> Result<Vec<Around<'a>>, AllocError>
    ensures { IfOk result (λ them. map mark_of them.items ≡ map mark_of regions.entry.now ++ mark_of around.entry ∷ []) }
{
    let mut them = Vec::from_slice(alloc, regions)?;
    them.push(around)?;
    Ok(them)
}

/// The slots with those of one item, before which so many like it stand.
#[cycle(slots)]
fn with_item<'a>(
    alloc: Global,
    regions: &[Around<'a>],
    before: usize,
    item: &'a Item,
    slots: Vec<Slot<'a>>,
) -> Result<Vec<Slot<'a>>, AllocError>
    ensures { IfOk result (λ them. map slot_of them.items ≡ map slot_of slots.entry.items ++ map (behind (map mark_of regions.entry.now)) (slots_at item.now before)) }
{
    match item {
        Item::Region { children, .. } => {
            let regions = with_region(
                alloc,
                regions,
                Around {
                    region: item,
                    before,
                },
            )?;
            with_items(alloc, regions.as_slice(), children.as_slice(), slots)
        }
        _ => {
            let mut slots = slots;
            slots.push(Slot {
                regions: Vec::from_slice(alloc, regions)?,
                item,
            })?;
            Ok(slots)
        }
    }
}

/// The slots with those of these items.
#[cycle(slots)]
fn with_items<'a>(
    alloc: Global,
    regions: &[Around<'a>],
    items: &'a [Item],
    slots: Vec<Slot<'a>>,
) -> Result<Vec<Slot<'a>>, AllocError>
    ensures { IfOk result (λ them. map slot_of them.items ≡ map slot_of slots.entry.items ++ map (behind (map mark_of regions.entry.now)) (slots_of items.now)) }
{
    let mut slots = slots;
    for (k, item) in items.iter().enumerate() {
        let before = count_alike(item, &items[..k]);
        slots = with_item(alloc, regions, before, item, slots)?;
    }
    Ok(slots)
}

/// The slots of these items, in their order.
pub fn slots_in(alloc: Global, items: &[Item]) -> Result<Vec<Slot<'_>>, AllocError>
    ensures { IfOk result (λ slots. map slot_of slots.items ≡ slots_of items.now) }
{
    with_items(alloc, &[], items, Vec::new(alloc))
}
