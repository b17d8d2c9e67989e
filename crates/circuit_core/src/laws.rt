// Laws of whole runs.
ghost use Rattle.std.specs.Prelude.{List, ℕ};
ghost use Rattle.hub_messages.specs.declared.down.Down.{Down};
ghost use Rattle.hub_messages.specs.declared.up.Up.{Up};
ghost use Rattle.circuit_meaning.specs.Circuit.State.{CircuitState, started};
ghost use Rattle.circuit_meaning.specs.Circuit.Batches.{MakesBatch};
ghost use Rattle.circuit_meaning.specs.Circuit.Runs.{Run, IsWithinWindow, GoesOn, IsCalm};

use hub_messages::Stage;

/// After any messages a started circuit has sent no more batches ahead than its window holds, and what it made and
/// answered before is there for good: an event number is taken at most once. The function does nothing: its
/// contract is the law.
pub fn a_run_keeps_the_window_and_the_history<S: Stage>()
    ensures { (stage : S.machine.State) (window : ℕ) (connection : ℕ) (replies : List Down) (first : CircuitState S.machine.State)
        (messages : List (ℕ × Up)) (last : CircuitState S.machine.State)
        → MakesBatch S.machine (started stage window connection) replies first → Run S.machine first messages last
        → IsWithinWindow last.status × GoesOn first last }
{}

/// After any messages no batch is due, while the circuit runs: nothing changed since the last one, or the window is
/// full. The function does nothing: its contract is the law.
pub fn a_run_leaves_no_batch_due<S: Stage>()
    ensures { (stage : S.machine.State) (window : ℕ) (connection : ℕ) (replies : List Down) (first : CircuitState S.machine.State)
        (messages : List (ℕ × Up)) (last : CircuitState S.machine.State)
        → MakesBatch S.machine (started stage window connection) replies first → Run S.machine first messages last
        → IsCalm S.machine last }
{}
