// Where each slot of a list belongs.
ghost use Rattle.std.specs.Prelude.{◌≡◌, ◌<◌, ◌^◌, length, IfOk};
ghost use Rattle.pairing_meaning.specs.Order.{partners, merged, numbered, list_M};
ghost use Rattle.sibling_edits.specs.Matched.{Matched};
ghost use Rattle.sibling_edits.specs.Plan.{entries_from};

use edit_meaning::Entry;
use sqlite_items::Items;
use std::alloc::{AllocError, Global};

/// The places of the pairs, in order.
fn partner_places(alloc: Global, to: &[Option<u32>]) -> Result<Items<u32>, AllocError>
    ensures { IfOk result (λ places. places ≡ partners to.now) }
{
    let mut places = Items::new(alloc);
    for place in to {
        if let Some(place) = place {
            places.push(*place)?;
        }
    }
    Ok(places)
}

/// Each new slot's own place where it has no pair, and at the other places these, in order.
fn merge(alloc: Global, from: &[Option<u32>], partners: &[u32]) -> Result<Items<u32>, AllocError>
    requires { length from.now < 2 ^ 31 }
    ensures { IfOk result (λ places. places ≡ merged from.now (numbered 0 from.now) partners.now) }
{
    let mut places = Items::new(alloc);
    let mut rest = partners;
    for (k, pair) in from.iter().enumerate() {
        if pair.is_none() {
            places.push(k as u32)?;
        } else {
            match rest {
                [] => return Ok(places),
                [first, after @ ..] => {
                    places.push(*first)?;
                    rest = after;
                }
            }
        }
    }
    Ok(places)
}

/// The list M of two lists.
fn belonging(
    alloc: Global,
    from: &[Option<u32>],
    to: &[Option<u32>],
) -> Result<Items<u32>, AllocError>
    requires few { length from.now < 2 ^ 31 }
    requires matched { Matched from.now to.now }
    ensures { IfOk result (λ places. (places ≡ list_M from.now to.now) × (length places ≡ length from.now)) }
{
    let partners = partner_places(alloc, to)?;
    merge(alloc, from, partners.as_slice())
}

/// An entry for each place whose slot belongs to another.
fn entries_of(alloc: Global, places: &[u32]) -> Result<Items<Entry>, AllocError>
    requires { length places.now < 2 ^ 31 }
    ensures { IfOk result (λ entries. entries ≡ entries_from 0 places.now) }
{
    let mut entries = Items::new(alloc);
    for (k, place) in places.iter().enumerate() {
        if *place as usize != k {
            entries.push(Entry {
                from: k as u32,
                to: *place,
            })?;
        }
    }
    Ok(entries)
}

/// The entries of the permutation that brings the slots of the list M to their places.
pub(crate) fn permutation(
    alloc: Global,
    from: &[Option<u32>],
    to: &[Option<u32>],
) -> Result<Items<Entry>, AllocError>
    requires few { length from.now < 2 ^ 31 }
    requires matched { Matched from.now to.now }
    ensures { IfOk result (λ entries. entries ≡ entries_from 0 (list_M from.now to.now)) }
{
    let places = belonging(alloc, from, to)?;
    entries_of(alloc, places.as_slice())
}
