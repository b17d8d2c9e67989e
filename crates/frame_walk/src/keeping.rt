// Which ids the handlers of a new rendering keep.
ghost use Rattle.std.specs.Prelude.{◌≡◌, ◌<◌, ◌^◌, ◌↔◌, [], ◌∷◌, ◌++◌, List, IsTrue, map, MatchOption, IfOk};
ghost use Rattle.frame_core.specs.declared.item_attribute.ItemAttribute.{ItemAttribute};
ghost use Rattle.frame_core.specs.declared.item_attribute.ItemHandler.{ItemHandler};
ghost use Rattle.pairing_meaning.specs.Labels.{label_of};
ghost use Rattle.pairing_meaning.specs.Slots.{slots_of};
ghost use Rattle.pairing_meaning.specs.Handlers.{SameHandler};
ghost use Rattle.item_pairing.specs.Standing.{slot_of};
ghost use Rattle.item_edits.specs.Renderings.{size_of, sizes};
ghost use Rattle.item_edits.specs.Steps.{IsLike};
ghost use Rattle.frame_walk.specs.Keeping.{StaysAt, Stays, KeepsUnder, KeepsIn, KeepsAll, KeepsSlot, AllSmall, IsLeaf, none_kept};

use crate::told::told_in;
use cs_ast::{Value, same};
use frame_core::{Item, ItemAttribute, ItemHandler, ItemValue};
use item_pairing::{Slot, pair, place_at, slots_in};
use sqlite_items::Items;
use std::alloc::{AllocError, Global};
use text_core::Txt;

fn same_values(values: &[Value], others: &[Value]) -> bool
    ensures { IsTrue result ↔ (values.now ≡ others.now) }
{
    if values.len() != others.len() {
        return false;
    }
    for (i, value) in values.iter().enumerate() {
        if !same(value, &others[i]) {
            return false;
        }
    }
    true
}

fn same_handler(old: &ItemHandler, new: &ItemHandler) -> bool
    ensures { IsTrue result ↔ SameHandler old.now new.now }
{
    old.who == new.who
        && old.place == new.place
        && same_values(old.captures.as_slice(), new.captures.as_slice())
}

/// The id of the handler of an attribute, where it is of this name and stands for the same.
fn id_at(attribute: &ItemAttribute, name: &Txt, new: &ItemHandler) -> Option<u64>
    ensures { MatchOption result ((old : ItemHandler) → StaysAt attribute.now name.now new.now old → ⊥) (λ id. (old : ItemHandler) × (old.id ≡ id) × StaysAt attribute.now name.now new.now old) }
{
    match &attribute.value {
        ItemValue::Handler(old) => {
            if attribute.name == *name && same_handler(old, new) {
                Some(old.id)
            } else {
                None
            }
        }
        ItemValue::Text(_) => None,
    }
}

/// The id that a handler keeps of what its element's pair had.
fn kept_id(was: &[ItemAttribute], name: &Txt, new: &ItemHandler) -> Option<u64>
    ensures { MatchOption result ((old : ItemHandler) → Stays was.now name.now new.now old → ⊥) (λ id. (old : ItemHandler) × (old.id ≡ id) × Stays was.now name.now new.now old) }
{
    for attribute in was {
        if let Some(id) = id_at(attribute, name, new) {
            return Some(id);
        }
    }
    None
}

/// What was kept, with what the handler of an attribute keeps, if it has one.
fn with_kept(
    was: &[ItemAttribute],
    attribute: &ItemAttribute,
    kept: Items<Option<u64>>,
) -> Result<Items<Option<u64>>, AllocError>
    ensures { IfOk result (λ after. (attributes : List ItemAttribute) → KeepsUnder was.now attributes kept → KeepsUnder was.now (attributes ++ attribute.now ∷ []) after) }
{
    let mut kept = kept;
    match &attribute.value {
        ItemValue::Handler(handler) => {
            kept.push(kept_id(was, &attribute.name, handler))?;
            Ok(kept)
        }
        ItemValue::Text(_) => Ok(kept),
    }
}

fn kept_under(
    alloc: Global,
    was: &[ItemAttribute],
    attributes: &[ItemAttribute],
) -> Result<Items<Option<u64>>, AllocError>
    ensures { IfOk result (λ kept. KeepsUnder was.now attributes.now kept) }
{
    let mut kept = Items::new(alloc);
    for attribute in attributes {
        kept = with_kept(was, attribute, kept)?;
    }
    Ok(kept)
}

fn nothing_kept(alloc: Global, new: &Item) -> Result<Items<Option<u64>>, AllocError>
    ensures { IfOk result (λ kept. kept ≡ none_kept new.now) }
{
    let tolds = told_in(alloc, new)?;
    let mut kept = Items::new(alloc);
    for _told in tolds.as_slice() {
        kept.push(None)?;
    }
    Ok(kept)
}

/// What the handlers in an item keep of the item that it pairs with.
#[cycle(keeping)]
fn kept_in(alloc: Global, old: &Item, new: &Item) -> Result<Items<Option<u64>>, AllocError>
    requires same { label_of old.now ≡ label_of new.now }
    requires few { size_of old.now < 2 ^ 31 }
    requires leaf { IsLeaf old.now }
    ensures { IfOk result (λ kept. KeepsIn old.now new.now kept) }
{
    match (old, new) {
        (
            Item::Element {
                attributes: was,
                children: olds,
                ..
            },
            Item::Element {
                attributes,
                children: news,
                ..
            },
        ) => {
            let mut kept = kept_under(alloc, was.as_slice(), attributes.as_slice())?;
            let inner = kept_ids(alloc, olds.as_slice(), news.as_slice())?;
            kept.append(inner)?;
            Ok(kept)
        }
        (Item::Text { .. }, Item::Text { .. }) => Ok(Items::new(alloc)),
        (Item::Markup { .. }, Item::Markup { .. }) => Ok(Items::new(alloc)),
        (Item::Component { .. }, Item::Component { .. }) => Ok(Items::new(alloc)),
        _ => unreachable!(),
    }
}

/// What the handlers in a new item keep of the slot at a place, if it pairs with one.
#[cycle(keeping)]
fn kept_of(
    alloc: Global,
    place: Option<u32>,
    olds: &[Slot],
    new: &Item,
) -> Result<Items<Option<u64>>, AllocError>
    requires like { IsLike place (map slot_of olds.now) (label_of new.now) }
    requires few { AllSmall (map slot_of olds.now) }
    ensures { IfOk result (λ kept. KeepsSlot place (map slot_of olds.now) new.now kept) }
{
    let Some(place) = place else {
        return nothing_kept(alloc, new);
    };
    match olds.get(place as usize) {
        Some(old) => kept_in(alloc, old.item, new),
        None => Ok(Items::new(alloc)),
    }
}

/// For each handler of the new items, in document order, the id that it keeps.
#[cycle(keeping)]
pub(crate) fn kept_ids(
    alloc: Global,
    olds: &[Item],
    news: &[Item],
) -> Result<Items<Option<u64>>, AllocError>
    requires { sizes olds.now < 2 ^ 31 }
    ensures { IfOk result (λ kept. KeepsAll (slots_of olds.now) (slots_of news.now) kept) }
{
    let old_slots = slots_in(alloc, olds)?;
    let new_slots = slots_in(alloc, news)?;
    let from = pair(alloc, old_slots.as_slice(), new_slots.as_slice())?;
    let mut kept = Items::new(alloc);
    let places = from.as_slice();
    for (k, new) in new_slots.iter().enumerate() {
        let place = place_at(places, k);
        let more = kept_of(alloc, place, old_slots.as_slice(), new.item)?;
        kept.append(more)?;
    }
    Ok(kept)
}
