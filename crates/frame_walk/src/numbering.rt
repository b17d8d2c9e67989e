// Ids for the handlers of a rendering.
ghost use Rattle.std.specs.Prelude.{◌≡◌, ◌<◌, ◌-◌, ◌^◌, length, map, slice_get, Err, IfOk};
ghost use Rattle.handler_ids.specs.declared.give_fault.GiveFault.TheVariants.{NumbersSpent};
ghost use Rattle.handler_ids.specs.Kept.{Leads};
ghost use Rattle.frame_walk.specs.Ids.{IsNumbered, Numbered};
ghost use Rattle.frame_walk.specs.Told.{told_of};

use crate::told::Told;
use crate::values::copy_all;
use handler_ids::{GiveFault, HandlerValue, Handlers};
use sqlite_items::Items;
use std::alloc::{AllocError, Global};

/// What a handler stands for.
fn value_of(alloc: Global, told: &Told) -> Result<HandlerValue, AllocError>
    ensures { IfOk result (λ value. value ≡ told_of told.now) }
{
    Ok(HandlerValue {
        who: told.handler.who,
        place: told.handler.place,
        event: told.name.clone()?,
        captures: copy_all(alloc, told.handler.captures.as_slice())?,
    })
}

/// The id of a handler: the one that it keeps, or the next.
fn number_one(
    alloc: Global,
    handlers: &mut Handlers,
    batch: u64,
    kept: Option<u64>,
    told: &Told,
) -> Result<u64, GiveFault>
    ensures numbered { IfOk result (λ id. Leads handlers.old handlers.new (IsNumbered batch kept (told_of told.now) id)) }
    ensures spent { result ≡ Err NumbersSpent → length handlers.new.entries ≡ 2 ^ 64 - 1 }
{
    match kept {
        Some(id) => Ok(id),
        None => {
            let value = value_of(alloc, told)?;
            handlers.keep_or_give(None, value, batch)
        }
    }
}

fn kept_at(kept: &[Option<u64>], place: usize) -> Option<u64>
    requires { place < length kept.now }
    ensures { slice_get kept.now place ≡ Some result }
{
    kept[place]
}

/// The id of each handler: the one that it keeps, or the next.
pub(crate) fn number(
    alloc: Global,
    handlers: &mut Handlers,
    batch: u64,
    kept: &[Option<u64>],
    tolds: &[Told],
) -> Result<Items<u64>, GiveFault>
    requires { length kept.now ≡ length tolds.now }
    ensures numbered { IfOk result (λ ids. Leads handlers.old handlers.new (Numbered batch kept.now (map told_of tolds.now) ids)) }
    ensures long { IfOk result (λ ids. length ids ≡ length tolds.now) }
    ensures spent { result ≡ Err NumbersSpent → length handlers.new.entries ≡ 2 ^ 64 - 1 }
{
    let mut ids = Items::new(alloc);
    for (k, told) in tolds.iter().enumerate() {
        let id = number_one(alloc, handlers, batch, kept_at(kept, k), told)?;
        ids.push(id)?;
    }
    Ok(ids)
}
