// What becomes of an outcome where a scope, a turn, a section or a body ends.
ghost use Rattle.std.specs.Prelude.{◌≡◌};
ghost use Rattle.cs_ast.specs.declared.value.Value.{Value};
ghost use Rattle.cs_meaning.specs.State.{Fields, State, cut, over};
ghost use Rattle.cs_meaning.specs.Outcome.{Outcome, in_state};
ghost use Rattle.cs_meaning.specs.Scopes as spec;
ghost use Rattle.cs_eval.specs.Agrees.{Agrees, reached};

use crate::exit::Exit;
use crate::progress::Progress;
use cs_ast::Value;

/// Drops the locals behind the first so many.
#[tactic(auto, using(crate::proofs::OutcomeLemmas::agrees_changed))]
pub(crate) fn end_scope(
    count: usize,
    outcome: Result<Value, Exit>,
    progress: &mut Progress,
) -> Result<Value, Exit>
    ensures means { (fields : Fields) (means : Outcome Value) → Agrees outcome (reached progress.old fields) means
        → Agrees result (reached progress.new fields) (in_state (cut count) means) }
    ensures left { progress.new.left ≡ progress.old.left }
{
    progress.locals.truncate(count);
    outcome
}

/// Whether a loop goes on behind a turn.
pub(crate) fn goes_on(outcome: Result<Value, Exit>) -> Result<bool, Exit>
    ensures { (s : State) (means : Outcome Value) → Agrees outcome s means → Agrees result s (spec.turn_end means) }
{
    match outcome {
        Ok(_) => Ok(true),
        Err(Exit::Continue) => Ok(true),
        Err(Exit::Break) => Ok(false),
        Err(exit) => Err(exit),
    }
}

/// What a section of a `switch` gives at its end.
pub(crate) fn end_section(outcome: Result<Value, Exit>) -> Result<Value, Exit>
    ensures { (s : State) (means : Outcome Value) → Agrees outcome s means → Agrees result s (spec.behind_section means) }
{
    match outcome {
        Ok(_) => Ok(Value::Null),
        Err(Exit::Break) => Ok(Value::Null),
        Err(exit) => Err(exit),
    }
}

/// What a body gives: no loop is left behind its end.
pub(crate) fn of_body(outcome: Result<Value, Exit>) -> Result<Value, Exit>
    ensures { (s : State) (means : Outcome Value) → Agrees outcome s means → Agrees result s (spec.of_body means) }
{
    match outcome {
        Err(Exit::Return(value)) => Ok(value),
        Err(Exit::Break) => Err(Exit::Stuck),
        Err(Exit::Continue) => Err(Exit::Stuck),
        other => other,
    }
}

/// The same, and gives back the locals round the call.
#[tactic(auto, using(crate::proofs::OutcomeLemmas::agrees_changed))]
pub(crate) fn end_body(
    outer: Vec<Value>,
    outcome: Result<Value, Exit>,
    progress: &mut Progress,
) -> Result<Value, Exit>
    ensures means { (fields : Fields) (means : Outcome Value) → Agrees outcome (reached progress.old fields) means
        → Agrees result (reached progress.new fields) (in_state (over outer.items) (spec.of_body means)) }
    ensures left { progress.new.left ≡ progress.old.left }
{
    progress.locals = outer;
    of_body(outcome)
}
