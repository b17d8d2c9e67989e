// What changes of an element's attributes and handlers.
ghost use Rattle.std.specs.Prelude.{◌≡◌, ◌++◌, ◌&&◌, map, IfOk};
ghost use Rattle.std.specs.List.{filter, list_any};
ghost use Rattle.pairing_meaning.specs.Tallies.{same_name, same_held, is_set, is_unset};
ghost use Rattle.item_edits.specs.Named.{set_of, unset_of, names_planned};

use crate::wires::say_attribute;
use frame_core::{Edit, ItemAttribute, ItemValue};
use sqlite_items::Items;
use std::alloc::{AllocError, Global};

/// Whether a batch says the same of both.
fn says_same(one: &ItemValue, other: &ItemValue) -> bool
    ensures { result ≡ same_held one.now other.now }
{
    match (one, other) {
        (ItemValue::Text(text), ItemValue::Text(other)) => text == other,
        (ItemValue::Handler(handler), ItemValue::Handler(other)) => handler.id == other.id,
        _ => false,
    }
}

fn is_named_so(one: &ItemAttribute, other: &ItemAttribute) -> bool
    ensures { result ≡ same_name one.now other.now }
{
    one.name == other.name
}

fn is_kept(old: &ItemAttribute, new: &ItemAttribute) -> bool
    ensures { result ≡ (same_name old.now new.now && same_held old.now.value new.now.value) }
{
    is_named_so(old, new) && says_same(&old.value, &new.value)
}

fn has_kept(olds: &[ItemAttribute], new: &ItemAttribute) -> bool
    ensures { result ≡ list_any (λ old. same_name old new.now && same_held old.value new.now.value) olds.now }
{
    for old in olds {
        if is_kept(old, new) {
            return true;
        }
    }
    false
}

pub(crate) fn has_name(news: &[ItemAttribute], old: &ItemAttribute) -> bool
    ensures { result ≡ list_any (λ new. same_name new old.now) news.now }
{
    for new in news {
        if is_named_so(new, old) {
            return true;
        }
    }
    false
}

fn with_unsets(
    edits: Items<Edit>,
    sibling: u32,
    olds: &[ItemAttribute],
    news: &[ItemAttribute],
) -> Result<Items<Edit>, AllocError>
    ensures { IfOk result (λ them. them ≡ edits ++ map (unset_of sibling) (filter (is_unset news.now) olds.now)) }
{
    let mut edits = edits;
    for old in olds {
        if !has_name(news, old) {
            edits.push(Edit::Unset {
                sibling,
                name: old.name.clone()?,
            })?;
        }
    }
    Ok(edits)
}

fn with_sets(
    edits: Items<Edit>,
    sibling: u32,
    olds: &[ItemAttribute],
    news: &[ItemAttribute],
) -> Result<Items<Edit>, AllocError>
    ensures { IfOk result (λ them. them ≡ edits ++ map (set_of sibling) (filter (is_set olds.now) news.now)) }
{
    let mut edits = edits;
    for new in news {
        if !has_kept(olds, new) {
            edits.push(Edit::Set {
                sibling,
                attribute: say_attribute(new)?,
            })?;
        }
    }
    Ok(edits)
}

/// The edits that give an element the new attributes and handlers in place of the old ones.
pub(crate) fn name_changes(
    alloc: Global,
    sibling: u32,
    olds: &[ItemAttribute],
    news: &[ItemAttribute],
) -> Result<Items<Edit>, AllocError>
    ensures { IfOk result (λ edits. edits ≡ names_planned sibling olds.now news.now) }
{
    let edits = with_unsets(Items::new(alloc), sibling, olds, news)?;
    with_sets(edits, sibling, olds, news)
}
