// What is kept of an id.
ghost use Rattle.std.specs.Prelude.{◌≡◌, Some, map};
ghost use Rattle.handler_ids.specs.declared.handler_value.HandlerValue.{HandlerValue};
ghost use Rattle.handler_ids.specs.Kept.{kept_since, without_value};

use crate::HandlerValue;
use sqlite_items::Boxed;
use std::mem;

/// What is kept of an id that was given.
#[derive(Debug, Drop)]
pub enum Entry {
    /// No batch disposed it.
    Live(Boxed<HandlerValue>),
    /// A batch disposed it that is above the number released.
    Held {
        value: Boxed<HandlerValue>,
        batch: u64,
    },
    /// A batch disposed it that was released. Its value is no longer kept.
    Gone {
        batch: u64,
    },
}

/// Disposes the entry of a live id: it is held, unless the batch is released.
pub(crate) fn dispose_entry(entry: &mut Entry, batch: u64, released: u64)
    ensures { (value : HandlerValue) → entry.old ≡ Entry.Live value → entry.new ≡ kept_since value (Some batch) released }
{
    if let Entry::Live(value) = mem::replace(entry, Entry::Gone { batch }) {
        if released < batch {
            *entry = Entry::Held { value, batch };
        }
    }
}

/// Lets the values of the ids go that are held for a batch up to this number.
pub(crate) fn let_go(entries: &mut [Entry], released: u64)
    ensures { entries.new ≡ map (without_value released) entries.old }
{
    for entry in entries.iter_mut() {
        let_one_go(entry, released);
    }
}

fn let_one_go(entry: &mut Entry, released: u64)
    ensures { entry.new ≡ without_value released entry.old }
{
    if let Entry::Held { batch, .. } = entry {
        let batch = *batch;
        if batch <= released {
            *entry = Entry::Gone { batch };
        }
    }
}
