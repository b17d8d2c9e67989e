// The component items that pair.
ghost use Rattle.std.specs.Prelude.{◌≡◌, ◌<◌, ◌^◌, [], ◌∷◌, map, IfOk};
ghost use Rattle.pairing_meaning.specs.Labels.{label_of};
ghost use Rattle.pairing_meaning.specs.Slots.{slots_of};
ghost use Rattle.pairing_meaning.specs.Components.{Retained};
ghost use Rattle.item_pairing.specs.Standing.{slot_of};
ghost use Rattle.item_edits.specs.Renderings.{size_of, sizes};
ghost use Rattle.item_edits.specs.Steps.{IsLike};
ghost use Rattle.item_components.specs.Listed.{Lists, Within, WithinSlot, AllSmall};

use frame_core::Item;
use item_pairing::{Slot, pair, place_at, slots_in};
use sqlite_items::Items;
use std::alloc::{AllocError, Global};

fn one_pair(alloc: Global, old: u32, new: u32) -> Result<Items<(u32, u32)>, AllocError>
    ensures { IfOk result (λ pairs. pairs ≡ (old, new) ∷ []) }
{
    let mut pairs = Items::new(alloc);
    pairs.push((old, new))?;
    Ok(pairs)
}

/// Those of an old item and a new one that pair.
#[cycle(staying)]
fn of_pair(alloc: Global, old: &Item, new: &Item) -> Result<Items<(u32, u32)>, AllocError>
    requires same { label_of old.now ≡ label_of new.now }
    requires few { size_of old.now < 2 ^ 31 }
    ensures { IfOk result (λ pairs. Lists pairs (Within old.now new.now)) }
{
    match (old, new) {
        (Item::Component { order, .. }, Item::Component { order: now, .. }) => {
            one_pair(alloc, *order, *now)
        }
        (Item::Element { children: olds, .. }, Item::Element { children: news, .. }) => {
            retained(alloc, olds.as_slice(), news.as_slice())
        }
        (Item::Text { .. }, Item::Text { .. }) => Ok(Items::new(alloc)),
        (Item::Markup { .. }, Item::Markup { .. }) => Ok(Items::new(alloc)),
        (Item::Region { .. }, Item::Region { .. }) => Ok(Items::new(alloc)),
        _ => unreachable!(),
    }
}

/// Those of a new item and of the slot at a place, if it pairs with one.
#[cycle(staying)]
fn of_slot(
    alloc: Global,
    place: Option<u32>,
    olds: &[Slot],
    new: &Item,
) -> Result<Items<(u32, u32)>, AllocError>
    requires like { IsLike place (map slot_of olds.now) (label_of new.now) }
    requires few { AllSmall (map slot_of olds.now) }
    ensures { IfOk result (λ pairs. Lists pairs (WithinSlot place (map slot_of olds.now) new.now)) }
{
    let Some(place) = place else {
        return Ok(Items::new(alloc));
    };
    match olds.get(place as usize) {
        Some(old) => of_pair(alloc, old.item, new),
        None => Ok(Items::new(alloc)),
    }
}

/// The component items that pair, the old one first.
#[cycle(staying)]
pub fn retained(
    alloc: Global,
    olds: &[Item],
    news: &[Item],
) -> Result<Items<(u32, u32)>, AllocError>
    requires { sizes olds.now < 2 ^ 31 }
    ensures { IfOk result (λ pairs. Lists pairs (Retained (slots_of olds.now) (slots_of news.now))) }
{
    let old_slots = slots_in(alloc, olds)?;
    let new_slots = slots_in(alloc, news)?;
    let from = pair(alloc, old_slots.as_slice(), new_slots.as_slice())?;
    let mut pairs = Items::new(alloc);
    let places = from.as_slice();
    for (k, new) in new_slots.iter().enumerate() {
        let place = place_at(places, k);
        let more = of_slot(alloc, place, old_slots.as_slice(), new.item)?;
        pairs.append(more)?;
    }
    Ok(pairs)
}
