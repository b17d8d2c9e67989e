// The k-th with the k-th of the same address.
ghost use Rattle.std.specs.Prelude.{◌≡◌, ◌<◌, ◌^◌, ◌↔◌, IsTrue, [], length, map, slice_get, IfOk};
ghost use Rattle.pairing_meaning.specs.Labels.{like};
ghost use Rattle.pairing_meaning.specs.Slots.{same_address};
ghost use Rattle.pairing_meaning.specs.Births.{TellsSlots};
ghost use Rattle.item_pairing.specs.Standing.{mark_of, slot_of, address_of};
ghost use Rattle.item_pairing.specs.Found.{kth, found_for};

use crate::labels::alike;
use crate::slots::{Around, Slot};
use sqlite_items::Items;
use std::alloc::{AllocError, Global};

fn same_region(one: &Around, other: &Around) -> bool
    ensures { IsTrue result ↔ (mark_of one.now ≡ mark_of other.now) }
{
    one.before == other.before && alike(one.region, other.region)
}

fn same_regions(ones: &[Around], others: &[Around]) -> bool
    ensures { IsTrue result ↔ (map mark_of ones.now ≡ map mark_of others.now) }
{
    if ones.len() != others.len() {
        return false;
    }
    for (k, one) in ones.iter().enumerate() {
        if !same_region(one, &others[k]) {
            return false;
        }
    }
    true
}

/// Whether the two have one address.
fn same_slot(one: &Slot, other: &Slot) -> bool
    ensures { result ≡ same_address (address_of one.now) (address_of other.now) }
{
    alike(one.item, other.item) && same_regions(one.regions.as_slice(), other.regions.as_slice())
}

/// How many of the slots have this one's address.
fn count_same(slot: &Slot, slots: &[Slot]) -> usize
    ensures { result ≡ like same_address (address_of slot.now) (map address_of slots.now) }
{
    let mut count = 0;
    for other in slots {
        if same_slot(other, slot) {
            count += 1;
        }
    }
    count
}

/// The place of the slot of this one's address that has so many others of it before it.
fn find(slot: &Slot, before: usize, slots: &[Slot]) -> Option<u32>
    requires { length slots.now < 2 ^ 31 }
    ensures { result ≡ kth same_address (address_of slot.now) before 0 (map address_of slots.now) }
{
    let mut before = before;
    for (k, other) in slots.iter().enumerate() {
        if same_slot(other, slot) {
            if before == 0 {
                return Some(k as u32);
            }
            before -= 1;
        }
    }
    None
}

/// The places that are found for each new slot.
fn find_all(alloc: Global, olds: &[Slot], news: &[Slot]) -> Result<Items<Option<u32>>, AllocError>
    requires { length olds.now < 2 ^ 31 }
    ensures { IfOk result (λ from. from ≡ found_for same_address (map address_of olds.now) [] (map address_of news.now)) }
{
    let mut from = Items::new(alloc);
    for (k, slot) in news.iter().enumerate() {
        from.push(find(slot, count_same(slot, &news[..k]), olds))?;
    }
    Ok(from)
}

/// For each new slot the place of the old one that it pairs with, or none.
pub fn pair(alloc: Global, olds: &[Slot], news: &[Slot]) -> Result<Items<Option<u32>>, AllocError>
    requires { length olds.now < 2 ^ 31 }
    ensures { IfOk result (λ from. TellsSlots (map slot_of olds.now) (map slot_of news.now) from) }
{
    find_all(alloc, olds, news)
}

/// What `pair` tells of the new slot at a place.
pub fn place_at(from: &[Option<u32>], place: usize) -> Option<u32>
    requires { place < length from.now }
    ensures { slice_get from.now place ≡ Some result }
{
    from[place]
}
