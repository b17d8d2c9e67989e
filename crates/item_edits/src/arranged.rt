// The pairs of two lists, and their edits.
ghost use Rattle.std.specs.Prelude.{◌≡◌, ℕ, ◌<◌, ◌^◌, List, Option, length, map, IfOk};
ghost use Rattle.edit_meaning.specs.declared.browser_node.BrowserNode.{BrowserNode};
ghost use Rattle.edit_meaning.specs.Counted.{counts_in};
ghost use Rattle.pairing_meaning.specs.Births.{TellsSlots};
ghost use Rattle.pairing_meaning.specs.Turning.{Turns};
ghost use Rattle.pairing_meaning.specs.Tallies.{list_edits};
ghost use Rattle.item_pairing.specs.Standing.{slot_of};
ghost use Rattle.sibling_edits.specs.Matched.{carried};

use frame_core::{Edit, WireNode};
use item_pairing::{Slot, pair};
use sibling_edits::arrange;
use sqlite_items::Items;
use std::alloc::{AllocError, Global};

/// How the slots of a list come to stand.
#[derive(Debug, Drop)]
pub(crate) struct Arranged {
    /// For each new slot the place of the old one that it pairs with, or none.
    pub(crate) from: Items<Option<u32>>,
    /// The edits that bring each slot to its place.
    pub(crate) edits: Items<Edit>,
}

/// Pairs the old slots and the new ones, and gives the edits that bring each to its place. `nodes` has what each new slot says.
pub(crate) fn arrange_slots(
    alloc: Global,
    olds: &[Slot],
    news: &[Slot],
    nodes: Items<WireNode>,
) -> Result<Arranged, AllocError>
    requires few_old { length olds.now < 2 ^ 31 }
    requires few { length news.now < 2 ^ 31 }
    requires alike { length nodes ≡ length news.now }
    ensures tells { IfOk result (λ arranged. TellsSlots (map slot_of olds.now) (map slot_of news.now) arranged.from) }
    ensures turns { IfOk result (λ arranged. (batch : ℕ) (old : List BrowserNode) → length old ≡ length olds.now → Turns batch arranged.edits old (carried batch arranged.from nodes old)) }
    ensures counts { IfOk result (λ arranged. (to : List (Option ℕ)) × TellsSlots (map slot_of news.now) (map slot_of olds.now) to × (counts_in arranged.edits ≡ list_edits arranged.from to)) }
{
    let from = pair(alloc, olds, news)?;
    let to = pair(alloc, news, olds)?;
    let edits = arrange(alloc, from.as_slice(), to.as_slice(), nodes)?;
    Ok(Arranged { from, edits })
}
