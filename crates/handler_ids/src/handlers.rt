// The ids of a circuit.
ghost use Rattle.std.specs.Prelude.{◌≡◌, ◌↔◌, ◌-◌, ◌^◌, List, [], length, max, IsOk, IfOk, OnErr, IsTrue, Err, Some, MatchOption};
ghost use Rattle.handler_ids.specs.declared.give_fault.GiveFault.TheVariants.{NumbersSpent};
ghost use Rattle.handler_ids.specs.History.{Past, at_id, disposed_by};
ghost use Rattle.handler_ids.specs.What.{found, seen};
ghost use Rattle.handler_ids.specs.Kept.{Stands, StandsForSome, IsLive, what_is_kept, what_kept, HasValue, Leads};
ghost use Rattle.handler_ids.specs.Naming.{StandsFor, IsGiven, IsNamed};

use crate::entry::{Entry, dispose_entry, let_go};
use crate::handler_value::same_handler;
use crate::{Found, GiveFault, HandlerValue};
use sqlite_items::Boxed;
use std::alloc::Global;
use std::marker::Model;

/// The ids that were given, from 1 on. Contracts see what is kept of each, and the greatest number released.
#[derive(Debug, Drop)]
pub struct Handlers {
    alloc: Global,
    entries: Vec<Entry>,
    released: u64,
}

impl Model for Handlers {
    ghost use Rattle.std.specs.Coded.{codes as rules};
    ghost use Rattle.cs_ast.specs.contracts.value.Value as e;
    ghost use Rattle.handler_ids.specs.Kept.{Kept, StandsForSome};

    ghost Value = { Kept };

    ghost coded = { Prim.hlevel (rules, e.the_row.coded) };

    ghost view = { λ h. record { entries = h.entries.items; released = h.released } };

    ghost invariant = { λ h. StandsForSome (record { entries = h.entries.items; released = h.released }) };
}

impl Handlers {
    /// No id is given yet, and no number released.
    pub fn new(alloc: Global) -> Self
        ensures { Stands result [] × (result.released ≡ 0) }
    {
        Handlers {
            alloc,
            entries: Vec::new(alloc),
            released: 0,
        }
    }

    /// The old id, where its value is equal, and else the next one, which this batch gives.
    pub fn keep_or_give(
        &mut self,
        old: Option<u64>,
        value: HandlerValue,
        batch: u64,
    ) -> Result<u64, GiveFault>
        requires live { MatchOption old (Unit {0}) (IsLive self.old) }
        ensures named { IfOk result (λ id. Leads self.old self.new (IsNamed self.old.released old value batch id)) }
        // An id is kept without memory.
        ensures keeps { StandsFor (what_kept self.old) old value → IsOk result }
        ensures spent { result ≡ Err NumbersSpent → length self.old.entries ≡ 2 ^ 64 - 1 }
        ensures err { OnErr result (self.new ≡ self.old) }
    {
        match self.kept(old, &value) {
            Some(id) => Ok(id),
            None => self.give(value, batch),
        }
    }

    /// The old id, where it is live with this value.
    fn kept(&self, old: Option<u64>, value: &HandlerValue) -> Option<u64>
        ensures { MatchOption result (StandsFor (what_kept self.now) old value.now → ⊥) (λ id. (old ≡ Some id) × HasValue self.now id value.now) }
    {
        let id = old?;
        if self.has_value(id, value) {
            Some(id)
        } else {
            None
        }
    }

    /// Whether the id is live with this value.
    fn has_value(&self, id: u64, value: &HandlerValue) -> bool
        ensures { IsTrue result ↔ HasValue self.now id value.now }
    {
        match self.find(id) {
            Found::Live { value: own } => same_handler(own, value),
            _ => false,
        }
    }

    fn give(&mut self, value: HandlerValue, batch: u64) -> Result<u64, GiveFault>
        ensures given { IfOk result (λ id. Leads self.old self.new (IsGiven value batch id)) }
        ensures spent { result ≡ Err NumbersSpent → length self.old.entries ≡ 2 ^ 64 - 1 }
        ensures err { OnErr result (self.new ≡ self.old) }
    {
        let last = self.entries.len() as u64;
        let id = last.checked_add(1).ok_or(GiveFault::NumbersSpent)?;
        let value = Boxed::new(self.alloc, value)?;
        self.entries.push(Entry::Live(value))?;
        Ok(id)
    }

    /// Disposes a live id: it is held until the batch is released.
    pub fn dispose(&mut self, id: u64, batch: u64)
        requires { IsLive self.old id }
        ensures { Leads self.old self.new (λ history next. next ≡ disposed_by batch id history) }
    {
        dispose_entry(&mut self.entries[(id - 1) as usize], batch, self.released);
    }

    /// All batches up to this number were acknowledged: the ids that they disposed are gone, and their values let go.
    pub fn release(&mut self, acked: u64)
        ensures released { self.new.released ≡ max self.old.released acked }
        ensures history { (history : List Past) → Stands self.old history → Stands self.new history }
    {
        self.released = self.released.max(acked);
        let_go(self.entries.as_mut_slice(), acked);
    }

    /// What the id is.
    pub fn find(&self, id: u64) -> Found<'_>
        ensures kept { seen result ≡ what_kept self.now id }
        ensures history { (history : List Past) → Stands self.now history → seen result ≡ found history id self.now.released }
        ensures some { StandsForSome self.now }
    {
        shown(self.entries.as_slice(), id)
    }
}

/// What the id is by what is kept of it.
fn shown(entries: &[Entry], id: u64) -> Found<'_>
    ensures { seen result ≡ what_is_kept (at_id entries.now id) }
{
    if id == 0 {
        return Found::Unknown;
    }
    match entries.get((id - 1) as usize) {
        None => Found::Unknown,
        Some(Entry::Live(value)) => Found::Live { value: value.get() },
        Some(Entry::Held { value, batch }) => Found::Held {
            value: value.get(),
            batch: *batch,
        },
        Some(Entry::Gone { batch }) => Found::Gone { batch: *batch },
    }
}
