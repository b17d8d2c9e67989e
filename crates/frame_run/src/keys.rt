// Keys among siblings.
ghost use Rattle.std.specs.Prelude.{◌≡◌, option_map, IfOk};
ghost use Rattle.std.specs.List.{filter_map};
ghost use Rattle.drawing_meaning.specs.Drawing.{Drawing};
ghost use Rattle.drawing_meaning.specs.Keys as spec;
ghost use Rattle.frame_run.specs.Agrees.{Agrees};
ghost use Rattle.frame_run.specs.Clashes.{clash, key_seen, repeats};

use crate::copying::copy;
use crate::exit::Exit;
use crate::kinds::{equal, is_null};
use cs_ast::Value;
use drawing_meaning::PageFault;
use frame_core::Item;
use sqlite_items::Items;
use std::alloc::{AllocError, Global};

/// A key that isn't null, with the number of its item.
#[derive(Drop)]
struct Key<'a> {
    number: u32,
    value: &'a Value,
}

fn if_key(number: u32, value: &Value) -> Option<Key<'_>>
    ensures { option_map key_seen result ≡ spec.if_key number value.now }
{
    if is_null(value) {
        return None;
    }
    Some(Key { number, value })
}

/// The key of an item, if it has one.
#[tactic(auto, using(crate::proofs::KeyLemmas::element_key, crate::proofs::KeyLemmas::text_key, crate::proofs::KeyLemmas::markup_key, crate::proofs::KeyLemmas::component_key, crate::proofs::KeyLemmas::region_key))]
fn key_of(item: &Item) -> Option<Key<'_>>
    ensures { option_map key_seen result ≡ spec.key_of item.now }
{
    match item {
        Item::Element { number, key, .. } => if_key(*number, key),
        Item::Text { .. } => None,
        Item::Markup { .. } => None,
        Item::Component { number, key, .. } => if_key(*number, key),
        Item::Region { number, key, .. } => if_key(*number, key),
    }
}

/// Whether the key is also that of this item.
fn is_key_of(key: &Key<'_>, item: &Item) -> bool
    ensures { result ≡ clash (Some (key_seen key.now)) (spec.key_of item.now) }
{
    match key_of(item) {
        Some(other) => {
            if key.number != other.number {
                return false;
            }
            equal(key.value, other.value)
        }
        None => false,
    }
}

/// Whether the key of the first item is also that of one of the others.
#[tactic(auto, unfolding(crate::specs::Clashes::repeats))]
fn is_repeated(item: &Item, others: &[Item]) -> bool
    ensures { result ≡ repeats item.now others.now }
{
    let Some(key) = key_of(item) else {
        return false;
    };
    for other in others {
        if is_key_of(&key, other) {
            return true;
        }
    }
    false
}

/// Whether no two items have one number and one key.
#[tactic(auto, using(crate::proofs::KeyLemmas::distinct_more, crate::proofs::KeyLemmas::distinct_no_more))]
fn are_distinct(items: &[Item]) -> bool
    ensures { result ≡ spec.are_distinct (filter_map spec.key_of items.now) }
{
    for (i, item) in items.iter().enumerate() {
        if is_repeated(item, &items[i + 1..]) {
            return false;
        }
    }
    true
}

/// Siblings, which must have distinct keys.
#[tactic(auto, unfolding(drawing_meaning::specs::Keys::siblings))]
pub(crate) fn siblings(items: Items<Item>) -> Result<Items<Item>, Exit>
    ensures { (d : Drawing) → Agrees result d (spec.siblings items d) }
{
    if are_distinct(items.as_slice()) {
        return Ok(items);
    }
    Err(Exit::Fault(PageFault::DuplicateKey))
}

/// The key that the item of a number has among siblings; null where there is none.
fn key_at(alloc: Global, number: u32, items: &[Item]) -> Result<Value, AllocError>
    ensures { IfOk result (λ key. key ≡ spec.key_at number (filter_map spec.key_of items.now)) }
{
    for item in items {
        if let Some(key) = key_of(item) {
            if key.number == number {
                return copy(alloc, key.value);
            }
        }
    }
    Ok(Value::Null)
}

/// The key of a turn: that of the item made by the node of this number, if there is such a node.
pub(crate) fn key_of_turn(
    alloc: Global,
    keyed: Option<u32>,
    items: &[Item],
) -> Result<Value, AllocError>
    ensures { IfOk result (λ key. key ≡ spec.key_of_turn keyed items.now) }
{
    match keyed {
        Some(number) => key_at(alloc, number, items),
        None => Ok(Value::Null),
    }
}
