// The arena.
ghost use Rattle.std.specs.Prelude.{◌≡◌, ◌≢◌, ◌+◌, ◌<◌, ◌≤◌, ◌↔◌, ℕ, [], length, IsTrue, IsOk, IsSome, OnSome, IfNone, IfOk, IfErr, OnErr, IsErrAnd, Some, None, option_copied, IfSome, position};
ghost use Rattle.std.specs.Option.{option_copied_mut};
ghost use Rattle.std.specs.Borrow.{sem};
ghost use Rattle.gen_arena.specs.declared.full.Full.TheVariants.{Spent};
ghost use Rattle.gen_arena.specs.Taken.{is_free, taken, IsFreeAt};
ghost use Rattle.gen_arena.specs.Finding.{found};
ghost use Rattle.gen_arena.specs.Calls.{IsNew, Gives, Removes};

use crate::slot::Slot;
use crate::{Full, Handle};
use std::alloc::Global;
use std::marker::Model;

/// Items, each found by its handle. Contracts see its slots and the limit on their number.
#[derive(Drop)]
pub struct Arena<T> {
    slots: Vec<Slot<T>>,
    limit: u32,
}

impl<T> Model for Arena<T> {
    ghost use Rattle.std.specs.Prelude.{length, ◌≤◌, ◌<◌, ◌^◌};
    ghost use Rattle.gen_arena.specs.Slots.{Slots, slots_code};

    ghost Value = { Slots T };

    ghost coded = { slots_code T.code };

    ghost view = { λ a. record { slots = a.slots.items; limit = a.limit } };

    ghost invariant = { λ a. (length a.slots.items ≤ a.limit) × (a.limit < 2 ^ 32) };
}

/// The first slot that is free.
fn first_free<T>(slots: &[Slot<T>]) -> Option<usize>
    ensures { result ≡ position is_free slots.now }
{
    slots.iter().position(|slot| slot.is_free())
}

impl<T> Arena<T> {
    ghost use Rattle.gen_arena.specs.Lending.{lends_item, lends_found};

    /// An arena without items, which may come to have so many slots.
    pub fn new(alloc: Global, limit: u32) -> Self
        ensures { IsNew limit result }
    {
        Arena {
            slots: Vec::new(alloc),
            limit,
        }
    }

    /// How many slots there are: live, retired or free.
    pub fn slots(&self) -> u32
        ensures number { result ≡ length self.now.slots }
        ensures within { result ≤ self.now.limit }
    {
        self.slots.len() as u32
    }

    /// Puts an item in: into a free slot where there is one, and else into a new one.
    pub fn insert(&mut self, item: T) -> Result<Handle, (T, Full)>
        ensures given { IfOk result (λ handle. Gives self.old handle item self.new) }

        // It fails where no slot is left, or no slot is free and memory is not found. Then nothing changes.
        ensures spent { IsErrAnd result (λ failed. failed.1 ≡ Spent) ↔ (taken self.old ≡ self.old.limit) }
        ensures used_again { taken self.old < length self.old.slots → IsOk result }
        ensures item_returned { IfErr result (λ failed. failed.0 ≡ item) }
        ensures err { OnErr result (self.new ≡ self.old) }
    {
        match first_free(self.slots.as_slice()) {
            Some(place) => Ok(self.fill(place, item)),
            None => self.grow(item),
        }
    }

    fn fill(&mut self, place: usize, item: T) -> Handle
        requires { IsFreeAt self.old.slots place }
        ensures { Gives self.old result item self.new }
    {
        let turn = self.slots[place].fill(item);
        Handle {
            slot: place as u32,
            turn,
        }
    }

    fn grow(&mut self, item: T) -> Result<Handle, (T, Full)>
        requires { taken self.old ≡ length self.old.slots }
        ensures given { IfOk result (λ handle. Gives self.old handle item self.new) }
        ensures spent { IsErrAnd result (λ failed. failed.1 ≡ Spent) ↔ (taken self.old ≡ self.old.limit) }
        ensures item_returned { IfErr result (λ failed. failed.0 ≡ item) }
        ensures err { OnErr result (self.new ≡ self.old) }
    {
        let slot = self.slots();
        if slot == self.limit {
            return Err((item, Full::Spent));
        }
        if self.slots.reserve(1).is_err() {
            return Err((item, Full::Oom));
        }
        self.slots.push_reserved(Slot {
            turn: 0,
            item: Some(item),
        });
        Ok(Handle { slot, turn: 0 })
    }

    /// The item that the handle finds.
    pub fn get(&self, handle: Handle) -> Option<&T>
        ensures { option_copied result ≡ found self.now handle }
    {
        let slot = self.slots.get(handle.slot as usize)?;
        if slot.turn == handle.turn {
            slot.item.as_ref()
        } else {
            None
        }
    }

    /// The item that the handle finds, for writing.
    pub fn get_mut(&mut self, handle: Handle) -> Option<&mut T>
        ensures* writes_back { sem 𝓛 (lends_found T.row self.entry handle result) }
        ensures value { option_copied_mut result ≡ found self.old handle }
    {
        if self.get(handle).is_some() {
            Some(self.item_mut(handle))
        } else {
            None
        }
    }

    fn item_mut(&mut self, handle: Handle) -> &mut T
        requires { IsSome (found self.old handle) }
        ensures* writes_back { sem 𝓛 (lends_item T.row self.entry handle result) }
        ensures value { found self.old handle ≡ Some result.now }
    {
        self.slots[handle.slot as usize].item_mut()
    }

    /// Takes the item out that the handle finds. From then on the handle finds nothing.
    pub fn remove(&mut self, handle: Handle) -> Option<T>
        ensures item { result ≡ found self.old handle }
        ensures removed { OnSome result (Removes self.old handle self.new) }
        ensures none { IfNone result (self.new ≡ self.old) }
    {
        if self.get(handle).is_none() {
            return None;
        }
        self.slots[handle.slot as usize].item.take()
    }
}
