// A circuit.
ghost use Rattle.std.specs.Prelude.{◌≡◌, ◌≢◌, ◌≤◌, IfOk, OnErr, None, if◌then◌else◌};
ghost use Rattle.hub_messages.specs.Stage.{IsFirst};
ghost use Rattle.circuit_meaning.specs.Rules.{is_bound};
ghost use Rattle.circuit_meaning.specs.Circuit.State.{CircuitState, started, unbound, out_of_memory};
ghost use Rattle.circuit_meaning.specs.Circuit.Batches.{MakesBatch};
ghost use Rattle.circuit_meaning.specs.Circuit.Steps.{Step};
ghost use Rattle.circuit_core.specs.Standing.{Stands, Leads};
ghost use Rattle.circuit_core.specs.Acknowledging.{done_of, Acknowledges};

use crate::AckDone;
use crate::parts::Parts;
use crate::rules::holds;
use circuit_meaning::CircuitStatus;
use hub_messages::{CircuitFault, Down, Stage, Up};
use std::alloc::Global;
use std::marker::Model;
use text_core::Oom;

/// The replies to a message, in the order in which they are sent.
pub type Replies = Vec<Down>;

/// A circuit over a stage. Contracts see it as what it keeps of its history.
#[derive(Drop)]
pub struct Circuit<S: Stage> {
    parts: Parts<S>,
}

impl<S: Stage> Model for Circuit<S> {
    ghost use Rattle.std.specs.Prelude.{◌≡◌, None};
    ghost use Rattle.circuit_core.specs.Kept.{Kept, IsWhole};
    ghost use Rattle.circuit_core.specs.Parts.{kept_of};

    ghost Value = { Kept S };

    ghost view = { λ circuit. kept_of circuit.parts };

    ghost invariant = { λ circuit. circuit.parts.status.ended ≡ None → IsWhole S.made S.released (kept_of circuit.parts) };
}

impl<S: Stage> Circuit<S> {
    /// A circuit that a connection starts. Its replies are the first batch, or the fault that ends it.
    pub fn start(
        alloc: Global,
        stage: S,
        window: u32,
        connection: u64,
    ) -> Result<(Circuit<S>, Replies), Oom>
    where
        S: Drop,
        requires window_from { 1 ≤ window }
        requires window_to { window ≤ 64 }
        requires first { IsFirst S.machine S.stands stage }
        ensures { IfOk result (λ made. (first : S.machine.State) → S.machine.First first → S.stands stage first →
            (state : CircuitState S.machine.State) × Stands S.stands made.0 state
            × MakesBatch S.machine (started first window connection) made.1.items state) }
    {
        let mut parts = Parts {
            alloc,
            stage,
            status: CircuitStatus {
                window,
                sent: 0,
                acked: 0,
                last: 0,
                forgotten: 0,
                bound: Some(connection),
                ended: None,
            },
            batches: Vec::new(alloc),
            outcomes: Vec::new(alloc),
        };
        let mut replies = Vec::new(alloc);
        parts.make_batch(&mut replies)?;
        Ok((Circuit { parts }, replies))
    }

    /// A message on a connection. A Start makes another circuit, so it is not for this one.
    pub fn step(&mut self, connection: u64, message: &Up) -> Result<Replies, Oom>
        requires { message.now ≢ Up.Start }
        ensures step { IfOk result (λ replies. Leads S.machine S.stands self.old self.new
            (λ state next. Step S.machine state connection message.now replies.items next)) }
        ensures no_memory { OnErr result ((state : CircuitState S.machine.State) → Stands S.stands self.old state →
            Stands S.stands self.new (out_of_memory state)) }
    {
        let status = self.parts.status;
        match self.parts.step(connection, message) {
            Ok(replies) => Ok(replies),
            Err(oom) => {
                self.parts.status = CircuitStatus {
                    ended: Some(status.ended.unwrap_or(CircuitFault::Memory)),
                    ..status
                };
                Err(oom)
            }
        }
    }

    /// An acknowledgement of batches up to this one by itself: no batch is made, and no memory is taken.
    pub fn ack(&mut self, batch: u64) -> AckDone
        ensures done { result ≡ done_of self.old.status batch }
        ensures step { Leads S.machine S.stands self.old self.new (Acknowledges S.machine batch result) }
    {
        let status = self.parts.status;
        if status.sent < batch {
            return AckDone::Ahead { sent: status.sent };
        }
        if batch <= status.acked || status.ended.is_some() {
            return AckDone::Old;
        }
        self.parts.release(batch);
        AckDone::Moved
    }

    /// The connection is closed. The answer is whether it was the bound one.
    pub fn closed(&mut self, connection: u64) -> bool
        ensures bound { result ≡ is_bound self.old.status.bound connection }
        ensures step { (state : CircuitState S.machine.State) → Stands S.stands self.old state →
            Stands S.stands self.new (if result then unbound state else state) }
    {
        if !holds(self.parts.status.bound, connection) {
            return false;
        }
        self.parts.status.bound = None;
        true
    }

    /// The number of the last batch made.
    pub fn sent(&self) -> u64
        ensures { result ≡ self.now.status.sent }
    {
        self.parts.status.sent
    }

    /// The browser has applied batches up to this one.
    pub fn acked(&self) -> u64
        ensures { result ≡ self.now.status.acked }
    {
        self.parts.status.acked
    }

    /// The greatest event number taken.
    pub fn last(&self) -> u64
        ensures { result ≡ self.now.status.last }
    {
        self.parts.status.last
    }

    /// The fault that ended the circuit.
    pub fn ended(&self) -> Option<CircuitFault>
        ensures { result ≡ self.now.status.ended }
    {
        self.parts.status.ended
    }
}
