// Code in operations, which runs as a body of its own.
ghost use Rattle.std.specs.Prelude.{◌≡◌, ◌≤◌, ℕ, List, IfOk};
ghost use Rattle.cs_ast.specs.declared.value.Value.{Value};
ghost use Rattle.cs_eval.specs.Run.{TriesValue};
ghost use Rattle.cs_meaning.specs.Calls as calls;
ghost use Rattle.cs_meaning.specs.Outcome.{Outcome};
ghost use Rattle.cs_meaning.specs.State.{Fields, state};
ghost use Rattle.drawing_meaning.specs.Drawing.{Drawing, of_outcome, with_state};
ghost use Rattle.drawing_meaning.specs.Stages as spec;
ghost use Rattle.frame_run.specs.Agrees.{Agrees, reached, stage_in};

use crate::copying::copy;
use crate::exit::Exit;
use crate::kinds::truth;
use crate::progress::{Around, Progress};
use cs_ast::{Code, Value};
use cs_eval::{Owners, try_eval};
use cs_meaning::{Fault, Fuel};
use drawing_meaning::PageFault;
use sqlite_items::{Items, at as item_at};
use std::alloc::{AllocError, Global};

/// What code gave, as what a part of a template gives.
#[tactic(auto, using(crate::proofs::FaultLemmas::faulted))]
fn given(outcome: Result<Option<Value>, Fault>) -> Result<Value, Exit>
    ensures { (locals : List Value) (left : ℕ) (means : Outcome Value) (d : Drawing) → TriesValue outcome locals left means
        → Agrees result (with_state (state locals d.state.fields d.state.receivers left) d) (of_outcome means d) }
{
    match outcome {
        Ok(Some(value)) => Ok(value),
        Ok(None) => Err(Exit::Stuck),
        Err(Fault::Oom) => Err(Exit::Memory),
        Err(fault) => Err(Exit::Fault(PageFault::Code(fault))),
    }
}

/// The value of code.
pub(crate) fn value_of<O: Owners>(
    around: &Around<'_>,
    code: &Code,
    progress: &mut Progress,
    owners: &O,
) -> Result<Value, Exit>
    ensures means { Agrees result (reached progress.new (O.fields owners.now))
        (spec.code_value code.now (stage_in around.now (O.parameters owners.now)) (reached progress.old (O.fields owners.now))) }
    ensures spent { progress.new.left ≤ progress.old.left }
{
    let mut fuel = Fuel {
        left: progress.left,
        depth: around.calls,
    };
    let outcome = try_eval(
        around.alloc,
        code,
        &around.program.bodies,
        around.who,
        &mut progress.locals,
        owners,
        &mut fuel,
    );
    progress.left = fuel.left;
    given(outcome)
}

/// The same of code that has to be true or false.
pub(crate) fn truth_of<O: Owners>(
    around: &Around<'_>,
    code: &Code,
    progress: &mut Progress,
    owners: &O,
) -> Result<bool, Exit>
    ensures means { Agrees result (reached progress.new (O.fields owners.now))
        (spec.truth code.now (stage_in around.now (O.parameters owners.now)) (reached progress.old (O.fields owners.now))) }
    ensures spent { progress.new.left ≤ progress.old.left }
{
    let value = value_of(around, code, progress, owners)?;
    match truth(&value) {
        Some(truth) => Ok(truth),
        None => Err(Exit::Stuck),
    }
}

/// Copies of the locals at these positions, if these are there.
#[tactic(auto, using(cs_eval::proofs::PartLemmas::picked_behind), unfolding(cs_meaning::specs::Calls::picked))]
fn picked(
    alloc: Global,
    locals: &[Value],
    positions: &[u32],
) -> Result<Option<Items<Value>>, AllocError>
    ensures { IfOk result (λ values. values ≡ calls.picked locals.now positions.now) }
{
    let mut values = Items::new(alloc);
    for at in positions {
        let Some(value) = item_at(locals, *at as usize) else {
            return Ok(None);
        };
        values.push(copy(alloc, value)?)?;
    }
    Ok(Some(values))
}

/// The values of the locals at these positions.
pub(crate) fn values_at(
    alloc: Global,
    positions: &[u32],
    progress: &Progress,
) -> Result<Items<Value>, Exit>
    ensures { (fields : Fields) → Agrees result (reached progress.now fields) (spec.values_at positions.now (reached progress.now fields)) }
{
    match picked(alloc, progress.locals.values.as_slice(), positions)? {
        Some(values) => Ok(values),
        None => Err(Exit::Stuck),
    }
}
