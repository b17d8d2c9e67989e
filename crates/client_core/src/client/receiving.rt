// Messages from the server.
ghost use Rattle.std.specs.Prelude.{◌≡◌, [], IfOk, OnErr};
ghost use Rattle.circuit_meaning.specs.Browser.State.{was_asked};
ghost use Rattle.circuit_meaning.specs.Browser.Bytes.{ReceivesBytes, HearsBytes};
ghost use Rattle.circuit_meaning.specs.Browser.Receives.{Hears, Opens, TakesBatch, TakesOutcome, Turned, is_final};
ghost use Rattle.client_core.specs.Pieces.{pieces_of};

use crate::Ups;
use crate::client::Client;
use circuit_meaning::CircuitKey;
use hub_messages::{Down, Got, HubFault, Outcome, Refusal, Screen, ScreenFault, decode_down};
use text_core::Oom;

impl<B: Screen> Client<B> {
    ghost use Rattle.client_core.specs.Standing.{browser_of, Steps};

    /// Bytes on a connection.
    pub fn receive(&mut self, connection: u64, bytes: &[u8]) -> Result<(Got, Ups), Oom>
        ensures step { IfOk result (λ answer. ReceivesBytes B.Tree.turns connection bytes.now
            (browser_of B.tree self.old) answer.0 (pieces_of answer.1) (browser_of B.tree self.new)) }
        ensures same { OnErr result (browser_of B.tree self.new ≡ browser_of B.tree self.old) }
    {
        if self.status.connection != Some(connection) {
            return Ok((Got::OldConnection, Vec::new(self.alloc)));
        }
        self.hear_bytes(bytes)
    }

    // Bytes on the present connection.
    fn hear_bytes(&mut self, bytes: &[u8]) -> Result<(Got, Ups), Oom>
        ensures step { IfOk result (λ answer. HearsBytes B.Tree.turns bytes.now
            (browser_of B.tree self.old) answer.0 (pieces_of answer.1) (browser_of B.tree self.new)) }
        ensures same { OnErr result (browser_of B.tree self.new ≡ browser_of B.tree self.old) }
    {
        match decode_down(self.alloc, bytes) {
            Ok(message) => self.hear(message),
            Err(HubFault::Malformed) => Ok((Got::Malformed, Vec::new(self.alloc))),
            Err(HubFault::Oom) => Err(Oom),
        }
    }

    // A message on the present connection.
    fn hear(&mut self, message: Down) -> Result<(Got, Ups), Oom>
        ensures step { IfOk result (λ answer. Steps B.tree self.old answer.1 self.new
            (λ before ups after. Hears B.Tree.turns message before answer.0 ups after)) }
        ensures same { OnErr result (browser_of B.tree self.new ≡ browser_of B.tree self.old) }
    {
        match message {
            Down::Started { .. } | Down::Connected { .. } if self.status.opened => {
                let got = Got::AnsweredAgain { event: 0 };
                Ok((got, Vec::new(self.alloc)))
            }
            Down::Started { number, secret } => self.open(Some(CircuitKey { number, secret })),
            Down::Connected { .. } => self.open(self.status.circuit),
            Down::Refused(refusal) => {
                if is_final(refusal) {
                    self.status.over = true;
                }
                Ok((Got::Refused(refusal), Vec::new(self.alloc)))
            }
            Down::Ended(fault) => {
                self.status.over = true;
                Ok((Got::Ended(fault), Vec::new(self.alloc)))
            }
            Down::Batch { .. } | Down::Outcome { .. } if !self.status.opened => {
                Ok((Got::NotOpen, Vec::new(self.alloc)))
            }
            Down::Batch { number, bytes } => self.take_batch(number, bytes.as_slice()),
            Down::Outcome { event, outcome } => Ok((
                self.take_outcome(event, outcome),
                Vec::new(self.alloc),
            )),
        }
    }

    // The connection is bound to this circuit.
    fn open(&mut self, circuit: Option<CircuitKey>) -> Result<(Got, Ups), Oom>
        ensures step { IfOk result (λ answer. Steps B.tree self.old answer.1 self.new
            (λ before ups after. Opens circuit before answer.0 ups after)) }
        ensures same { OnErr result (browser_of B.tree self.new ≡ browser_of B.tree self.old) }
    {
        let mut ups = Vec::new(self.alloc);
        self.unanswered.send(self.alloc, &mut ups, self.got())?;
        self.status.opened = true;
        self.status.circuit = circuit;
        Ok((Got::Opened, ups))
    }

    fn take_batch(&mut self, number: u64, bytes: &[u8]) -> Result<(Got, Ups), Oom>
        ensures step { IfOk result (λ answer. Steps B.tree self.old answer.1 self.new
            (λ before ups after. TakesBatch B.Tree.turns number bytes.now before answer.0 ups after)) }
        ensures same { OnErr result (browser_of B.tree self.new ≡ browser_of B.tree self.old) }
    {
        let applied = self.status.applied;
        if number <= applied {
            let ups = self.acknowledgement(applied)?;
            return Ok((Got::AgainAcked { number }, ups));
        }
        if number - applied > 1 {
            return Ok((Got::NotNext { next: applied + 1 }, Vec::new(self.alloc)));
        }
        self.apply(number, bytes)
    }

    // The batch that is next.
    fn apply(&mut self, number: u64, bytes: &[u8]) -> Result<(Got, Ups), Oom>
        ensures step { IfOk result (λ answer. Steps B.tree self.old answer.1 self.new
            (λ before ups after. Turned B.Tree.turns number bytes.now before answer.0 ups after)) }
        ensures same { OnErr result (browser_of B.tree self.new ≡ browser_of B.tree self.old) }
    {
        let ups = self.acknowledgement(number)?;
        match self.screen.apply(number, bytes) {
            Ok(counts) => {
                self.status.applied = number;
                Ok((Got::Applied { number, counts }, ups))
            }
            Err(ScreenFault::Oom) => Err(Oom),
            Err(fault) => Ok((Got::BadBatch { fault }, Vec::new(self.alloc))),
        }
    }

    fn take_outcome(&mut self, event: u64, outcome: Outcome) -> Got
        ensures { TakesOutcome event outcome (browser_of B.tree self.old)
            result [] (browser_of B.tree self.new) }
    {
        if self.unanswered.answer(event) {
            return Got::Answered { event, outcome };
        }
        if was_asked(self.status.asked, event) {
            return Got::AnsweredAgain { event };
        }
        Got::Stray
    }
}

// Whether an event of this number was ever sent, of those asked.
fn was_asked(asked: u64, event: u64) -> bool
    ensures { result ≡ was_asked asked event }
{
    event > 0 && event <= asked
}

// Whether the circuit is gone for good.
fn is_final(refusal: Refusal) -> bool
    ensures { result ≡ is_final refusal }
{
    matches!(
        refusal,
        Refusal::CircuitUnknown | Refusal::BatchesGone { .. }
    )
}
