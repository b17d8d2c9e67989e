// The edits of a list, and of what is within its pairs.
ghost use Rattle.std.specs.Prelude.{◌≡◌, ◌<◌, ◌^◌, ◌++◌, map, IfOk};
ghost use Rattle.edit_meaning.specs.Counted.{counts_in};
ghost use Rattle.pairing_meaning.specs.Labels.{label_of};
ghost use Rattle.pairing_meaning.specs.Slots.{slots_of};
ghost use Rattle.pairing_meaning.specs.Tallies.{Changed, Totals};
ghost use Rattle.pairing_meaning.specs.Turning.{Leads};
ghost use Rattle.item_pairing.specs.Standing.{slot_of};
ghost use Rattle.item_edits.specs.Renderings.{sizes, AllClear};
ghost use Rattle.item_edits.specs.Steps.{text_planned, markup_planned, stepped_in, Changes, Fits, AllFit, IsLike, Inner};

use crate::arranged::arrange_slots;
use crate::names::name_changes;
use crate::wires::say_items;
use frame_core::{Edit, Item};
use item_pairing::{Slot, place_at, slots_in};
use sqlite_items::Items;
use std::alloc::{AllocError, Global};
use text_core::Txt;

fn text_change(alloc: Global, sibling: u32, old: &Txt, new: &Txt) -> Result<Items<Edit>, AllocError>
    ensures { IfOk result (λ edits. edits ≡ text_planned sibling old.now new.now) }
{
    let mut edits = Items::new(alloc);
    if old == new {
        return Ok(edits);
    }
    edits.push(Edit::UpdateText {
        sibling,
        text: new.clone()?,
    })?;
    Ok(edits)
}

fn markup_change(
    alloc: Global,
    sibling: u32,
    old: &Txt,
    new: &Txt,
) -> Result<Items<Edit>, AllocError>
    ensures { IfOk result (λ edits. edits ≡ markup_planned sibling old.now new.now) }
{
    let mut edits = Items::new(alloc);
    if old == new {
        return Ok(edits);
    }
    edits.push(Edit::UpdateMarkup {
        sibling,
        text: new.clone()?,
    })?;
    Ok(edits)
}

/// The edits with those of an element's children, where there are some.
fn with_children(
    edits: Items<Edit>,
    sibling: u32,
    inner: Items<Edit>,
) -> Result<Items<Edit>, AllocError>
    ensures { IfOk result (λ them. them ≡ edits ++ stepped_in sibling inner) }
{
    let mut edits = edits;
    if inner.is_empty() {
        return Ok(edits);
    }
    edits.push(Edit::StepIn { sibling })?;
    edits.append(inner)?;
    edits.push(Edit::StepOut)?;
    Ok(edits)
}

/// The edits that change the node of a pair.
#[cycle(changes)]
fn change(alloc: Global, sibling: u32, old: &Item, new: &Item) -> Result<Items<Edit>, AllocError>
    requires same { label_of old.now ≡ label_of new.now }
    requires fits_old { Fits old.now }
    requires fits { Fits new.now }
    ensures changes { IfOk result (λ edits. Changes sibling old.now new.now edits) }
    ensures counts { IfOk result (λ edits. Changed old.now new.now (counts_in edits)) }
{
    match (old, new) {
        (
            Item::Element {
                attributes: was,
                children: olds,
                ..
            },
            Item::Element {
                attributes,
                children: news,
                ..
            },
        ) => {
            let edits = name_changes(alloc, sibling, was.as_slice(), attributes.as_slice())?;
            let inner = edits_of(alloc, olds.as_slice(), news.as_slice())?;
            with_children(edits, sibling, inner)
        }
        (Item::Text { text, .. }, Item::Text { text: now, .. }) => {
            text_change(alloc, sibling, text, now)
        }
        (Item::Markup { text, .. }, Item::Markup { text: now, .. }) => {
            markup_change(alloc, sibling, text, now)
        }
        (Item::Component { .. }, Item::Component { .. }) => Ok(Items::new(alloc)),
        _ => unreachable!(),
    }
}

/// The edits that change the node of the pair of a new slot, if it has one.
#[cycle(changes)]
fn pair_change(
    alloc: Global,
    sibling: u32,
    place: Option<u32>,
    olds: &[Slot],
    new: &Item,
) -> Result<Items<Edit>, AllocError>
    requires like { IsLike place (map slot_of olds.now) (label_of new.now) }
    requires fit_olds { AllFit (map slot_of olds.now) }
    requires fits { Fits new.now }
    ensures { IfOk result (λ edits. Inner sibling place (map slot_of olds.now) new.now edits) }
{
    let Some(place) = place else {
        return Ok(Items::new(alloc));
    };
    match olds.get(place as usize) {
        Some(old) => change(alloc, sibling, old.item, new),
        None => Ok(Items::new(alloc)),
    }
}

/// The edits that lead from the old items to the new ones.
#[cycle(changes)]
pub fn edits_of(alloc: Global, olds: &[Item], news: &[Item]) -> Result<Items<Edit>, AllocError>
    requires few_old { sizes olds.now < 2 ^ 31 }
    requires few { sizes news.now < 2 ^ 31 }
    requires clear_old { AllClear olds.now }
    requires clear { AllClear news.now }
    ensures leads { IfOk result (λ edits. Leads edits olds.now news.now) }
    ensures counts { IfOk result (λ edits. Totals (slots_of olds.now) (slots_of news.now) (counts_in edits)) }
{
    let old_slots = slots_in(alloc, olds)?;
    let new_slots = slots_in(alloc, news)?;
    let nodes = say_items(alloc, news)?;
    let arranged = arrange_slots(alloc, old_slots.as_slice(), new_slots.as_slice(), nodes)?;
    let from = arranged.from;
    let mut edits = arranged.edits;
    let places = from.as_slice();
    for (k, new) in new_slots.iter().enumerate() {
        let place = place_at(places, k);
        let inner = pair_change(alloc, k as u32, place, old_slots.as_slice(), new.item)?;
        edits.append(inner)?;
    }
    Ok(edits)
}
