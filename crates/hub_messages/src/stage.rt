// The server's end of a circuit's page.
ghost use Rattle.std.specs.Prelude.{◌≡◌, ◌↔◌, ◌+◌, ℕ, IfOk, OnOk, OnErr, max, option_copied};
ghost use Rattle.hub_messages.specs.Stage.{Machine, IsLawful, IsFirst, Answers, made_after, IsShort};

use crate::{Bytes, CircuitFault, Outcome, Turns};
use text_core::{Oom, Txt};

/// What came of an event's handler.
#[derive(Clone, Copy, Debug, PartialEq, Eq)]
pub enum Acted {
    Outcome(Outcome),
    /// The handler's code met a fault, which ends the circuit.
    Fault(CircuitFault),
}

/// What came of a rendering.
#[derive(Debug, Drop)]
pub enum Made {
    Batch(Bytes),
    /// The rendering met a fault, which ends the circuit.
    Fault(CircuitFault),
}

/// What holds the components of a circuit and renders them.
pub trait Stage {
    type Tree: Turns;

    /// Its states, and what each call does to them.
    ghost machine: { Machine Self.Tree };

    /// The stage keeps what later calls need of a state.
    ghost stands: { Self → machine.State → Type 0 };

    /// The number of the last batch made, 0 at first.
    ghost made: { Self → ℕ };

    /// The greatest number released, 0 at first.
    ghost released: { Self → ℕ };

    /// Runs the code of a handler, for an event of this name that carries this text.
    ///
    /// After `Oom` the stage is of no further use.
    fn act(
        &mut self,
        handler: u64,
        name: &Txt,
        text: Option<&Txt>,
        acked: u64,
    ) -> Result<Acted, Oom>
        requires { acked ≡ released self.old }
        ensures step { IfOk result (λ acted. (before : machine.State) → stands self.old before →
            Answers stands self.new (machine.Acts before handler name.now (option_copied text.entry) acted)) }
        ensures made { OnOk result (made self.new ≡ made self.old) }
        ensures released { OnOk result (released self.new ≡ released self.old) };

    /// Whether a component changed since the last rendering.
    fn is_dirty(&self) -> bool
        ensures { (state : machine.State) → stands self.now state → result ≡ machine.is_dirty state };

    /// Renders what changed, as the batch of this number.
    ///
    /// After `Oom` the stage is of no further use.
    fn render(&mut self, number: u64) -> Result<Made, Oom>
        requires { number ≡ made self.old + 1 }
        ensures step { IfOk result (λ answer. (before : machine.State) → stands self.old before →
            Answers stands self.new (machine.Renders before answer)) }
        ensures made { IfOk result (λ answer. made self.new ≡ made_after (made self.old) answer) }
        ensures released { OnOk result (released self.new ≡ released self.old) }
        ensures short { IfOk result IsShort };

    /// The browser has applied batches up to this one, so that handlers disposed by them are gone.
    fn release(&mut self, acked: u64)
        ensures step { (before : machine.State) → stands self.old before →
            Answers stands self.new (machine.Releases before acked) }
        ensures made { made self.new ≡ made self.old }
        ensures released { released self.new ≡ max (released self.old) acked };

    /// The laws of the states.
    ghost lawful: { IsLawful Self.Tree.first Self.Tree.turns machine };

    ghost keeps_made: { (stage : Self) (state : machine.State) → stands stage state → machine.made state ≡ made stage };

    ghost keeps_released: { (stage : Self) (state : machine.State) → stands stage state → machine.released state ≡ released stage };
}

/// What makes a stage for each circuit.
pub trait Maker {
    type S: Stage;

    /// The stages that it may give.
    ghost may_give: { Self → Self.S → Type 0 };

    fn make(&mut self) -> Result<Self::S, Oom>
        ensures gives { IfOk result (λ stage. may_give self.old stage) }
        ensures first { IfOk result (λ stage. IsFirst Self.S.machine Self.S.stands stage) }
        ensures same { (stage : Self.S) → may_give self.new stage ↔ may_give self.old stage };
}
