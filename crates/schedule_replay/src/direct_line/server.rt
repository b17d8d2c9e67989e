// The server's end of a line.
ghost use Rattle.std.specs.Prelude.{◌≡◌, ◌≤◌, [], ◌∷◌, IfOk, Option};
ghost use Rattle.hub_messages.specs.Stage.{IsFirst};
ghost use Rattle.circuit_meaning.specs.Circuit.State.{CircuitState};
ghost use Rattle.schedule_replay.specs.Line.Server.{Serves, WithoutCircuit};
ghost use Rattle.schedule_replay.specs.Line.Standing.{Becomes, IsReady, StandsServer};

use circuit_core::{Circuit, Replies};
use hub_messages::{Down, Refusal, Stage, Up};
use std::alloc::Global;
use text_core::Oom;

/// The number of the one connection.
pub const CONNECTION: u64 = 1;

/// A stage that waits for its browser, and then its circuit.
#[derive(Drop)]
pub enum Server<S: Stage> {
    Waiting(S),
    Serving(Circuit<S>),
}

/// The one reply.
fn one(alloc: Global, reply: Down) -> Result<Replies, Oom>
    ensures { IfOk result (λ replies. replies.items ≡ reply ∷ []) }
{
    let mut replies = Vec::new(alloc);
    replies.push(reply)?;
    Ok(replies)
}

impl<S: Stage + Drop> Server<S> {
    /// A Start makes the circuit.
    fn begin(alloc: Global, stage: S, window: u32) -> Result<(Self, Replies), Oom>
        requires window_from { 1 ≤ window }
        requires window_to { window ≤ 64 }
        requires first { IsFirst S.machine S.stands stage }
        ensures { IfOk result (λ answer. (first : S.machine.State) → S.machine.First first → S.stands stage first →
            Becomes S.machine S.stands first answer.0 (WithoutCircuit S.machine first window Up.Start answer.1.items)) }
    {
        let (circuit, batch) = Circuit::start(alloc, stage, window, CONNECTION)?;
        let mut replies = batch;
        replies.insert(
            0,
            Down::Started {
                number: CONNECTION,
                secret: 0,
            },
        )?;
        Ok((Server::Serving(circuit), replies))
    }

    /// A message on the connection.
    pub fn receive(self, alloc: Global, window: u32, message: &Up) -> Result<(Self, Replies), Oom>
        requires window_from { 1 ≤ window }
        requires window_to { window ≤ 64 }
        requires ready { IsReady S.machine S.stands self }
        ensures { IfOk result (λ answer. (first : S.machine.State) → S.machine.First first →
            (before : Option (CircuitState S.machine.State)) → StandsServer S.machine S.stands first self before →
            Becomes S.machine S.stands first answer.0 (Serves S.machine first window before message.now answer.1.items)) }
    {
        match self {
            Server::Waiting(stage) => match message {
                Up::Start => Server::begin(alloc, stage, window),
                _ => Ok((
                    Server::Waiting(stage),
                    one(alloc, Down::Refused(Refusal::NotConnected))?,
                )),
            },
            Server::Serving(circuit) => match message {
                Up::Start => Ok((
                    Server::Serving(circuit),
                    one(alloc, Down::Refused(Refusal::AlreadyConnected))?,
                )),
                _ => {
                    let mut circuit = circuit;
                    let replies = circuit.step(CONNECTION, message)?;
                    Ok((Server::Serving(circuit), replies))
                }
            },
        }
    }
}
