// The walk over two renderings.
ghost use Rattle.std.specs.Prelude.{◌≡◌, ℕ, ◌<◌, ◌-◌, ◌^◌, List, length, map, Err, IfOk};
ghost use Rattle.std.specs.Ordering.{nat_cmp};
ghost use Rattle.std.specs.List.Sorted.{IsPermutation, IsSorted};
ghost use Rattle.edit_meaning.specs.Counted.{counts_in};
ghost use Rattle.pairing_meaning.specs.Slots.{slots_of};
ghost use Rattle.pairing_meaning.specs.Components.{Retained, orders_of};
ghost use Rattle.pairing_meaning.specs.Tallies.{Totals};
ghost use Rattle.pairing_meaning.specs.Turning.{Leads as LeadsTo};
ghost use Rattle.handler_ids.specs.declared.give_fault.GiveFault.TheVariants.{NumbersSpent};
ghost use Rattle.handler_ids.specs.Kept.{Leads};
ghost use Rattle.item_edits.specs.Renderings.{sizes, AllClear};
ghost use Rattle.item_components.specs.Listed.{Lists, without};
ghost use Rattle.frame_walk.specs.Ids.{values_of, ids_of, bare, gone_from};
ghost use Rattle.frame_walk.specs.Keeping.{Gives, Walks};

use crate::Walked;
use crate::going::{dispose_all, gone_ids};
use crate::keeping::kept_ids;
use crate::naming::items_with_ids;
use crate::numbering::number;
use crate::told::all_told;
use frame_core::Item;
use handler_ids::{GiveFault, Handlers};
use item_components::{disposed, made, retained};
use item_edits::edits_of;
use sqlite_items::Items;
use std::alloc::Global;

/// The id of each new handler, in document order: that which it keeps, or the next.
fn ids_for(
    alloc: Global,
    old: &[Item],
    new: &[Item],
    handlers: &mut Handlers,
    batch: u64,
) -> Result<Items<u64>, GiveFault>
    requires { sizes old.now < 2 ^ 31 }
    ensures gives { IfOk result (λ ids. Leads handlers.old handlers.new (Gives batch old.now new.now ids)) }
    ensures long { IfOk result (λ ids. length ids ≡ length (values_of new.now)) }
    ensures spent { result ≡ Err NumbersSpent → length handlers.new.entries ≡ 2 ^ 64 - 1 }
{
    let kept = kept_ids(alloc, old, new)?;
    let tolds = all_told(alloc, new)?;
    number(alloc, handlers, batch, kept.as_slice(), tolds.as_slice())
}

/// What leads from the old rendering to the new one, as this batch. The new handlers get their ids.
pub fn walk(
    alloc: Global,
    old: &[Item],
    new: Items<Item>,
    handlers: &mut Handlers,
    batch: u64,
) -> Result<Walked, GiveFault>
    requires few_old { sizes old.now < 2 ^ 31 }
    requires few { sizes new < 2 ^ 31 }
    requires clear_old { AllClear old.now }
    requires clear { AllClear new }
    // The items are the new ones, apart from the ids of their handlers.
    ensures items { IfOk result (λ walked. map bare walked.items ≡ map bare new) }
    ensures ids { IfOk result (λ walked. Leads handlers.old handlers.new (Walks batch handlers.old.released old.now new walked.items walked.handlers.items)) }
    ensures gone { IfOk result (λ walked. IsPermutation (gone_from (ids_of old.now) (ids_of walked.items)) walked.handlers.items) }
    ensures rising { IfOk result (λ walked. IsSorted nat_cmp walked.handlers.items) }
    ensures leads { IfOk result (λ walked. LeadsTo walked.edits old.now walked.items) }
    ensures counts { IfOk result (λ walked. Totals (slots_of old.now) (slots_of walked.items) (counts_in walked.edits)) }
    ensures retained { IfOk result (λ walked. Lists walked.retained (Retained (slots_of old.now) (slots_of new))) }
    ensures made { IfOk result (λ walked. walked.made ≡ without (map (λ pair. pair.1) walked.retained) (orders_of new)) }
    ensures disposed { IfOk result (λ walked. walked.disposed ≡ without (map (λ pair. pair.0) walked.retained) (orders_of old.now)) }
    ensures spent { result ≡ Err NumbersSpent → length handlers.new.entries ≡ 2 ^ 64 - 1 }
{
    let retained = retained(alloc, old, new.as_slice())?;
    let made = made(alloc, retained.as_slice(), new.as_slice())?;
    let disposed = disposed(alloc, retained.as_slice(), old)?;
    let mut ids = ids_for(alloc, old, new.as_slice(), handlers, batch)?;
    let mut gone = gone_ids(alloc, old, ids.as_slice())?;
    gone.sort()?;
    dispose_all(handlers, batch, gone.as_slice());
    let items = items_with_ids(alloc, new, &mut ids)?;
    let edits = edits_of(alloc, old, items.as_slice())?;
    Ok(Walked {
        items,
        edits,
        retained,
        made,
        disposed,
        handlers: gone,
    })
}
