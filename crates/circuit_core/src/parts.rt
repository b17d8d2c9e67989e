// The parts of a circuit, and what the rules do to them.
ghost use Rattle.std.specs.Prelude.{◌≡◌, ◌≤◌, OnOk, None};
ghost use Rattle.circuit_meaning.specs.Circuit.State.{CircuitState, forgetting};
ghost use Rattle.circuit_meaning.specs.Circuit.Batches.{is_due};
ghost use Rattle.circuit_core.specs.Kept.{IsWhole};
ghost use Rattle.circuit_core.specs.Standing.{Stands, Leads, Continues};

use crate::queues::drop_first;
use circuit_meaning::CircuitStatus;
use hub_messages::{Bytes, CircuitFault, Down, Made, Outcome, Stage};
use std::alloc::Global;
use text_core::Oom;

/// The parts of a circuit.
#[derive(Drop)]
pub struct Parts<S> {
    pub alloc: Global,
    pub stage: S,
    pub status: CircuitStatus,
    /// The batches that are not acknowledged.
    pub batches: Vec<Bytes>,
    /// The outcomes that may be asked for again.
    pub outcomes: Vec<Outcome>,
}

impl<S: Stage> Parts<S> {
    ghost use Rattle.circuit_core.specs.Parts.{kept_of};

    /// Whether a batch is made now.
    fn is_due(&self) -> bool
        requires runs { self.now.status.ended ≡ None }
        requires whole { IsWhole S.made S.released (kept_of self.now) }
        ensures { (state : CircuitState S.machine.State) → Stands S.stands (kept_of self.now) state →
            result ≡ is_due state.status (S.machine.is_dirty state.stage) }
    {
        let status = self.status;
        (self.stage.is_dirty() || status.sent == 0)
            && status.sent - status.acked < u64::from(status.window)
    }

    /// Makes a batch, where one is due.
    pub fn make_batch(&mut self, replies: &mut Vec<Down>) -> Result<(), Oom>
        requires runs { self.old.status.ended ≡ None }
        requires whole { IsWhole S.made S.released (kept_of self.old) }
        ensures whole { OnOk result (self.new.status.ended ≡ None → IsWhole S.made S.released (kept_of self.new)) }
        ensures step { OnOk result (Leads S.machine S.stands (kept_of self.old) (kept_of self.new)
            (Continues S.machine replies.old.items replies.new.items)) }
    {
        if !self.is_due() {
            return Ok(());
        }
        let sent = self.status.sent;
        if sent == u64::MAX {
            self.status.ended = Some(CircuitFault::NumbersSpent);
            replies.push(Down::Ended(CircuitFault::NumbersSpent))?;
            return Ok(());
        }
        match self.stage.render(sent + 1)? {
            Made::Batch(bytes) => {
                let again = bytes.copy(self.alloc)?;
                self.batches.push(bytes)?;
                self.status.sent = sent + 1;
                replies.push(Down::Batch {
                    number: sent + 1,
                    bytes: again,
                })?;
                Ok(())
            }
            Made::Fault(fault) => {
                self.status.ended = Some(fault);
                replies.push(Down::Ended(fault))?;
                Ok(())
            }
        }
    }

    /// Outcomes of events up to this one are no longer kept.
    pub fn forget(&mut self, got: u64)
        requires got { got ≤ self.old.status.last }
        requires runs { self.old.status.ended ≡ None }
        requires whole { IsWhole S.made S.released (kept_of self.old) }
        ensures whole { IsWhole S.made S.released (kept_of self.new) }
        ensures status { self.new.status ≡ forgetting self.old.status got }
        ensures step { (state : CircuitState S.machine.State) → Stands S.stands (kept_of self.old) state →
            Stands S.stands (kept_of self.new) (record state { status = forgetting state.status got }) }
    {
        if self.status.forgotten < got {
            drop_first(&mut self.outcomes, (got - self.status.forgotten) as usize);
            self.status.forgotten = got;
        }
    }

    /// Batches up to this one are no longer kept.
    pub fn release(&mut self, acked: u64)
        requires from { self.old.status.acked ≤ acked }
        requires to { acked ≤ self.old.status.sent }
        requires runs { self.old.status.ended ≡ None }
        requires whole { IsWhole S.made S.released (kept_of self.old) }
        ensures whole { IsWhole S.made S.released (kept_of self.new) }
        ensures status { self.new.status ≡ record self.old.status { acked = acked } }
        ensures step { (state : CircuitState S.machine.State) → Stands S.stands (kept_of self.old) state →
            (stage : S.machine.State) × S.machine.Releases state.stage acked stage
            × Stands S.stands (kept_of self.new) (record state { stage = stage; status = record state.status { acked = acked } }) }
    {
        drop_first(&mut self.batches, (acked - self.status.acked) as usize);
        self.status.acked = acked;
        self.stage.release(acked);
    }
}
