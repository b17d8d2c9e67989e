// Batches.
ghost use Rattle.std.specs.Prelude.{◌≡◌, ◌+◌, ◌<◌, ◌≤◌, ◌^◌, length, IfSome, IfNone};
ghost use Rattle.frame_core.specs.Batch.{edits_within};

use crate::Edit;
use sqlite_items::Items;
use std::marker::Model;

/// The edits of one component's tree, in the order in which they act.
#[derive(Debug, Drop)]
pub struct EditList {
    /// The component's number.
    pub component: u32,
    pub edits: Items<Edit>,
}

/// What changes from one page to the next. Contracts see its lists of edits, and the components and handlers that it disposes.
#[derive(Debug, Drop)]
pub struct Batch {
    lists: Items<EditList>,
    components: Items<u32>,
    handlers: Items<u64>,
}

impl Model for Batch {
    ghost use Rattle.std.specs.Prelude.{◌<◌, ◌^◌};
    ghost use Rattle.std.specs.Coded.{codes as rules};
    ghost use Rattle.frame_core.specs.contracts.wire_node.WireNode as e;
    ghost use Rattle.frame_core.specs.Batch.{Changes, edits_within};

    ghost Value = { Changes };

    ghost coded = { Prim.hlevel (rules, e.the_row.coded) };

    ghost view = { λ batch. record { lists = batch.lists; components = batch.components; handlers = batch.handlers } };

    ghost invariant = { λ batch. edits_within batch.lists < 2 ^ 32 };
}

/// The number and the edits of one more list, or None where these are 2^32 or more.
fn added(number: u32, list: &EditList) -> Option<u32>
    ensures some { IfSome result (λ sum. sum ≡ number + length list.now.edits) }
    ensures none { IfNone result (2 ^ 32 ≤ number + length list.now.edits) }
{
    let more = u32::try_from(list.edits.len()).ok()?;
    number.checked_add(more)
}

/// How many edits the lists have, or None where these are 2^32 or more.
#[tactic(auto, using(crate::proofs::EditLemmas::within_front))]
fn edits_in(lists: &[EditList]) -> Option<u32>
    ensures some { IfSome result (λ number. number ≡ edits_within lists.now) }
    ensures none { IfNone result (2 ^ 32 ≤ edits_within lists.now) }
{
    let mut number: u32 = 0;
    for list in lists {
        number = added(number, list)?;
    }
    Some(number)
}

impl Batch {
    /// A batch of these parts, or None where they have 2^32 edits or more.
    pub fn of(lists: Items<EditList>, components: Items<u32>, handlers: Items<u64>) -> Option<Batch>
        ensures some { IfSome result (λ batch. batch ≡ record { lists = lists; components = components; handlers = handlers }) }
        ensures none { IfNone result (2 ^ 32 ≤ edits_within lists) }
    {
        edits_in(lists.as_slice())?;
        Some(Batch {
            lists,
            components,
            handlers,
        })
    }

    /// The lists of edits, in the order in which they act.
    pub fn lists(&self) -> &[EditList]
        ensures lists { result.now ≡ self.now.lists }
        ensures within { edits_within self.now.lists < 2 ^ 32 }
    {
        self.lists.as_slice()
    }

    /// The numbers of the components that go, in the order of their disposal.
    pub fn components(&self) -> &[u32]
        ensures { result.now ≡ self.now.components }
    {
        self.components.as_slice()
    }

    /// The ids of the handlers that go, in rising order.
    pub fn handlers(&self) -> &[u64]
        ensures { result.now ≡ self.now.handlers }
    {
        self.handlers.as_slice()
    }
}
