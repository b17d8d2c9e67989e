// One place of an arena.
ghost use Rattle.std.specs.Prelude.{◌≡◌, ◌≢◌, ◌+◌, ◌<◌, ◌^◌, IsTrue, Some, None, IsSome, option_copied, false};
ghost use Rattle.std.specs.Borrow.{sem, Lends};
ghost use Rattle.gen_arena.specs.Taken.{is_free};
ghost use Rattle.gen_arena.specs.contracts.slot.Slot.{the_row};
ghost use Rattle.gen_arena.specs.Lending.{with_value};

use std::mem;

/// A place for an item: the turn that it gave last, and the item, unless that was removed.
#[derive(Drop)]
pub struct Slot<T> {
    pub(crate) turn: u64,
    pub(crate) item: Option<T>,
}

impl<T> Slot<T> {
    /// Whether an item can be put in: it holds none, and it has not given its last turn.
    pub(crate) fn is_free(&self) -> bool
        ensures { result ≡ is_free self.now }
    {
        self.item.is_none() && self.turn < u64::MAX
    }

    /// Puts an item in, on the turn that is given back.
    pub(crate) fn fill(&mut self, item: T) -> u64
        requires { IsTrue (is_free self.old) }
        ensures turn { result ≡ self.old.turn + 1 }
        ensures filled { self.new ≡ record { turn = self.old.turn + 1; item = Some item } }
    {
        self.turn += 1;
        match mem::replace(&mut self.item, Some(item)) {
            None => self.turn,
            Some(_) => unreachable!(),
        }
    }

    /// The item, which it holds.
    pub(crate) fn item_mut(&mut self) -> &mut T
        requires { IsSome self.old.item }
        ensures* lends { sem 𝓛 (Lends (the_row T.row) T.row self.entry result (with_value self.old)) }
        ensures value { self.old.item ≡ Some result.now }
    {
        match &mut self.item {
            Some(item) => item,
            None => unreachable!(),
        }
    }
}
