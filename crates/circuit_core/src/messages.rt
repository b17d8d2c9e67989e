// What each message does to the parts of a circuit.
ghost use Rattle.std.specs.Prelude.{◌≡◌, ◌≢◌, ◌+◌, ◌≤◌, OnOk, IfOk, None, option_copied};
ghost use Rattle.circuit_meaning.specs.Rules.{event_rule, ack_rule, connect_rule};
ghost use Rattle.circuit_meaning.specs.Circuit.Steps.{TellsAgain, EventStep, AckStep, ConnectStep, Step};
ghost use Rattle.circuit_core.specs.Kept.{IsWhole};
ghost use Rattle.circuit_core.specs.Standing.{Leads};

use crate::parts::Parts;
use crate::queues::{push_batches, push_outcomes, without_a_step};
use crate::rules::{for_ack, for_connect, for_event};
use circuit_meaning::Rule;
use hub_messages::{Acted, Down, Stage, Up};
use text_core::{Oom, Txt};

impl<S: Stage> Parts<S> {
    ghost use Rattle.circuit_core.specs.Parts.{kept_of};

    /// The outcome of an event that was taken before, where it is kept.
    fn tell_again(&mut self, number: u64, got: u64) -> Result<Vec<Down>, Oom>
        requires number { number ≤ self.old.status.last }
        requires got { got ≤ self.old.status.last }
        requires runs { self.old.status.ended ≡ None }
        requires whole { IsWhole S.made S.released (kept_of self.old) }
        ensures whole { IsWhole S.made S.released (kept_of self.new) }
        ensures step { IfOk result (λ replies. Leads S.machine S.stands (kept_of self.old) (kept_of self.new)
            (λ state next. TellsAgain state number got replies.items next)) }
    {
        self.forget(got);
        let mut replies = Vec::new(self.alloc);
        if number <= self.status.forgotten {
            return Ok(replies);
        }
        let place = (number - self.status.forgotten - 1) as usize;
        replies.push(Down::Outcome {
            event: number,
            outcome: self.outcomes[place],
        })?;
        Ok(replies)
    }

    /// The next event: its handler runs, the outcome is kept and told, and a batch is made.
    fn take_event(
        &mut self,
        number: u64,
        handler: u64,
        got: u64,
        name: &Txt,
        text: Option<&Txt>,
    ) -> Result<Vec<Down>, Oom>
        requires number { number ≡ self.old.status.last + 1 }
        requires got { got ≤ self.old.status.last }
        requires runs { self.old.status.ended ≡ None }
        requires whole { IsWhole S.made S.released (kept_of self.old) }
        ensures whole { OnOk result (self.new.status.ended ≡ None → IsWhole S.made S.released (kept_of self.new)) }
        ensures step { IfOk result (λ replies. Leads S.machine S.stands (kept_of self.old) (kept_of self.new)
            (λ state next. EventStep S.machine Rule.Takes state number handler got name.now (option_copied text.entry) replies.items next)) }
    {
        self.forget(got);
        self.status.last = number;
        let mut replies = Vec::new(self.alloc);
        match self.stage.act(handler, name, text, self.status.acked)? {
            Acted::Outcome(outcome) => {
                self.outcomes.push(outcome)?;
                replies.push(Down::Outcome {
                    event: number,
                    outcome,
                })?;
                self.make_batch(&mut replies)?;
                Ok(replies)
            }
            Acted::Fault(fault) => {
                self.status.ended = Some(fault);
                replies.push(Down::Ended(fault))?;
                Ok(replies)
            }
        }
    }

    /// The browser has applied batches up to this one.
    fn acknowledge(&mut self, batch: u64, got: u64) -> Result<Vec<Down>, Oom>
        requires batch { batch ≤ self.old.status.sent }
        requires got { got ≤ self.old.status.last }
        requires runs { self.old.status.ended ≡ None }
        requires whole { IsWhole S.made S.released (kept_of self.old) }
        ensures whole { OnOk result (self.new.status.ended ≡ None → IsWhole S.made S.released (kept_of self.new)) }
        ensures step { IfOk result (λ replies. Leads S.machine S.stands (kept_of self.old) (kept_of self.new)
            (λ state next. AckStep S.machine Rule.Takes state batch got replies.items next)) }
    {
        self.forget(got);
        let acked = self.status.acked.max(batch);
        self.release(acked);
        let mut replies = Vec::new(self.alloc);
        self.make_batch(&mut replies)?;
        Ok(replies)
    }

    /// The browser is back: it is told what it has not got.
    fn reconnect(&mut self, connection: u64, applied: u64, got: u64) -> Result<Vec<Down>, Oom>
        requires kept { self.old.status.acked ≤ applied }
        requires made { applied ≤ self.old.status.sent }
        requires got { got ≤ self.old.status.last }
        requires runs { self.old.status.ended ≡ None }
        requires whole { IsWhole S.made S.released (kept_of self.old) }
        ensures whole { OnOk result (self.new.status.ended ≡ None → IsWhole S.made S.released (kept_of self.new)) }
        ensures step { IfOk result (λ replies. Leads S.machine S.stands (kept_of self.old) (kept_of self.new)
            (λ state next. ConnectStep S.machine Rule.Takes state connection applied got replies.items next)) }
    {
        let sent = self.status.sent;
        let last = self.status.last;
        self.forget(got);
        self.release(applied);
        self.status.bound = Some(connection);
        let mut replies = Vec::new(self.alloc);
        replies.push(Down::Connected { sent, last })?;
        push_outcomes(&mut replies, self.status.forgotten, last, &self.outcomes)?;
        push_batches(self.alloc, &mut replies, applied, sent, &self.batches)?;
        self.make_batch(&mut replies)?;
        Ok(replies)
    }

    fn on_event(
        &mut self,
        connection: u64,
        number: u64,
        handler: u64,
        got: u64,
        name: &Txt,
        text: Option<&Txt>,
    ) -> Result<Vec<Down>, Oom>
        requires whole { self.old.status.ended ≡ None → IsWhole S.made S.released (kept_of self.old) }
        ensures whole { OnOk result (self.new.status.ended ≡ None → IsWhole S.made S.released (kept_of self.new)) }
        ensures step { IfOk result (λ replies. Leads S.machine S.stands (kept_of self.old) (kept_of self.new)
            (λ state next. EventStep S.machine (event_rule state.status connection number got) state number handler got name.now (option_copied text.entry) replies.items next)) }
    {
        match for_event(&self.status, connection, number, got) {
            Rule::Again => self.tell_again(number, got),
            Rule::Takes => self.take_event(number, handler, got, name, text),
            rule => without_a_step(self.alloc, rule),
        }
    }

    fn on_ack(&mut self, connection: u64, batch: u64, got: u64) -> Result<Vec<Down>, Oom>
        requires whole { self.old.status.ended ≡ None → IsWhole S.made S.released (kept_of self.old) }
        ensures whole { OnOk result (self.new.status.ended ≡ None → IsWhole S.made S.released (kept_of self.new)) }
        ensures step { IfOk result (λ replies. Leads S.machine S.stands (kept_of self.old) (kept_of self.new)
            (λ state next. AckStep S.machine (ack_rule state.status connection batch got) state batch got replies.items next)) }
    {
        match for_ack(&self.status, connection, batch, got) {
            Rule::Takes => self.acknowledge(batch, got),
            rule => without_a_step(self.alloc, rule),
        }
    }

    fn on_connect(&mut self, connection: u64, applied: u64, got: u64) -> Result<Vec<Down>, Oom>
        requires whole { self.old.status.ended ≡ None → IsWhole S.made S.released (kept_of self.old) }
        ensures whole { OnOk result (self.new.status.ended ≡ None → IsWhole S.made S.released (kept_of self.new)) }
        ensures step { IfOk result (λ replies. Leads S.machine S.stands (kept_of self.old) (kept_of self.new)
            (λ state next. ConnectStep S.machine (connect_rule state.status applied got) state connection applied got replies.items next)) }
    {
        match for_connect(&self.status, applied, got) {
            Rule::Takes => self.reconnect(connection, applied, got),
            rule => without_a_step(self.alloc, rule),
        }
    }

    /// A message on a connection.
    pub fn step(&mut self, connection: u64, message: &Up) -> Result<Vec<Down>, Oom>
        requires not_start { message.now ≢ Up.Start }
        requires whole { self.old.status.ended ≡ None → IsWhole S.made S.released (kept_of self.old) }
        ensures whole { OnOk result (self.new.status.ended ≡ None → IsWhole S.made S.released (kept_of self.new)) }
        ensures step { IfOk result (λ replies. Leads S.machine S.stands (kept_of self.old) (kept_of self.new)
            (λ state next. Step S.machine state connection message.now replies.items next)) }
    {
        match message {
            Up::Start => unreachable!(),
            Up::Connect { applied, got, .. } => self.on_connect(connection, *applied, *got),
            Up::Event {
                number,
                handler,
                got,
                name,
                text,
            } => self.on_event(connection, *number, *handler, *got, name, text.as_ref()),
            Up::Ack { batch, got } => self.on_ack(connection, *batch, *got),
        }
    }
}
