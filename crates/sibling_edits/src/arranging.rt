// Removals, then additions, then one permutation.
ghost use Rattle.std.specs.Prelude.{◌≡◌, ℕ, ◌<◌, ◌^◌, ◌++◌, List, length, reverse, IfOk};
ghost use Rattle.edit_meaning.specs.declared.browser_node.BrowserNode.{BrowserNode};
ghost use Rattle.edit_meaning.specs.Counted.{counts_in};
ghost use Rattle.pairing_meaning.specs.Turning.{Turns};
ghost use Rattle.pairing_meaning.specs.Tallies.{list_edits};
ghost use Rattle.sibling_edits.specs.Matched.{Matched, carried};
ghost use Rattle.sibling_edits.specs.Plan.{removals_from, additions_from, ended, planned};

use crate::order::permutation;
use edit_meaning::Entry;
use frame_core::{Edit, WireNode};
use sqlite_items::Items;
use std::alloc::{AllocError, Global};

/// The edits with those that take out what has no pair.
fn with_removals(edits: Items<Edit>, to: &[Option<u32>]) -> Result<Items<Edit>, AllocError>
    requires { length to.now < 2 ^ 31 }
    ensures { IfOk result (λ them. them ≡ edits ++ removals_from 0 to.now) }
{
    let mut edits = edits;
    let mut sibling = 0;
    for place in to {
        match place {
            Some(_) => sibling += 1,
            None => edits.push(Edit::Remove { sibling })?,
        }
    }
    Ok(edits)
}

/// The nodes, the last first.
#[tactic(auto, using(crate::proofs::ReverseLemmas::taken_last))]
fn reversed(alloc: Global, nodes: Items<WireNode>) -> Result<Items<WireNode>, AllocError>
    ensures { IfOk result (λ them. them ≡ reverse nodes) }
{
    let mut nodes = nodes;
    let mut them = Items::new(alloc);
    while let Some(last) = nodes.pop() {
        them.push(last)?;
    }
    Ok(them)
}

/// The edits with those that put in what has no pair.
#[tactic(auto, using(crate::proofs::ReverseLemmas::last_first))]
fn with_additions(
    alloc: Global,
    edits: Items<Edit>,
    from: &[Option<u32>],
    nodes: Items<WireNode>,
) -> Result<Items<Edit>, AllocError>
    requires { length from.now < 2 ^ 31 }
    ensures { IfOk result (λ them. them ≡ edits ++ additions_from 0 from.now nodes) }
{
    let mut edits = edits;
    let mut rest = reversed(alloc, nodes)?;
    for (k, place) in from.iter().enumerate() {
        let Some(node) = rest.pop() else {
            return Ok(edits);
        };
        if place.is_none() {
            edits.push(Edit::Prepend {
                sibling: k as u32,
                node,
            })?;
        }
    }
    Ok(edits)
}

/// The edits with these entries, and their end where there are some.
fn with_moves(edits: Items<Edit>, entries: &[Entry]) -> Result<Items<Edit>, AllocError>
    ensures { IfOk result (λ them. them ≡ edits ++ ended entries.now) }
{
    let mut edits = edits;
    if entries.is_empty() {
        return Ok(edits);
    }
    for entry in entries {
        edits.push(Edit::Move {
            from: entry.from,
            to: entry.to,
        })?;
    }
    edits.push(Edit::MoveEnd)?;
    Ok(edits)
}

fn all_edits(
    alloc: Global,
    from: &[Option<u32>],
    to: &[Option<u32>],
    nodes: Items<WireNode>,
) -> Result<Items<Edit>, AllocError>
    requires few { length from.now < 2 ^ 31 }
    requires few_old { length to.now < 2 ^ 31 }
    requires matched { Matched from.now to.now }
    ensures { IfOk result (λ edits. edits ≡ planned from.now to.now nodes) }
{
    let edits = with_removals(Items::new(alloc), to)?;
    let edits = with_additions(alloc, edits, from, nodes)?;
    let entries = permutation(alloc, from, to)?;
    with_moves(edits, entries.as_slice())
}

/// The edits that make the new list of slots of the old one. `from` has for each new slot the place of its pair among the old ones,
/// `to` the other way round, and `nodes` has what the new slots say; of a slot with a pair it is not used.
pub fn arrange(
    alloc: Global,
    from: &[Option<u32>],
    to: &[Option<u32>],
    nodes: Items<WireNode>,
) -> Result<Items<Edit>, AllocError>
    requires few { length from.now < 2 ^ 31 }
    requires few_old { length to.now < 2 ^ 31 }
    requires alike { length nodes ≡ length from.now }
    requires matched { Matched from.now to.now }
    ensures turns { IfOk result (λ edits. (batch : ℕ) (old : List BrowserNode) → length old ≡ length to.now → Turns batch edits old (carried batch from.now nodes old)) }
    ensures counts { IfOk result (λ edits. counts_in edits ≡ list_edits from.now to.now) }
{
    all_edits(alloc, from, to, nodes)
}
