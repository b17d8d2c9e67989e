// New values, and what they cost.
ghost use Rattle.std.specs.Prelude.{◌≡◌, ◌≤◌};
ghost use Rattle.cs_meaning.specs.State.{State, Fields};
ghost use Rattle.cs_meaning.specs.Outcome.{found};
ghost use Rattle.cs_meaning.specs.NewValues as spec;
ghost use Rattle.cs_eval.specs.Agrees.{Agrees, reached};

use crate::exit::Exit;
use crate::progress::Progress;
use cs_ast::{Value, size};
use cs_meaning::Fault;
use text_core::Txt;

/// The greatest size of a new value.
const LARGEST: u64 = 1_048_576;

/// Charges a new value, which must not be too large.
pub(crate) fn made(value: Value, progress: &mut Progress) -> Result<Value, Exit>
    ensures means { (fields : Fields) → Agrees result (reached progress.new fields) (spec.made value (reached progress.old fields)) }
    ensures spent { progress.new.left ≤ progress.old.left }
{
    let size = size(&value);
    let left = progress.left;
    if size / 64 > u64::from(left) {
        progress.left = 0;
        return Err(Exit::Fault(Fault::FuelSpent));
    }
    progress.left = left - (size / 64) as u32;
    if size > LARGEST {
        return Err(Exit::Fault(Fault::ValueTooLarge));
    }
    Ok(value)
}

/// What is there.
pub(crate) fn required<T>(value: Option<T>) -> Result<T, Exit>
    ensures { (s : State) → Agrees result s (found value s) }
{
    match value {
        Some(value) => Ok(value),
        None => Err(Exit::Stuck),
    }
}

/// Charges a new text, where there is one.
pub(crate) fn new_text(text: Option<Txt>, progress: &mut Progress) -> Result<Value, Exit>
    ensures means { (fields : Fields) → Agrees result (reached progress.new fields) (spec.new_text text (reached progress.old fields)) }
    ensures spent { progress.new.left ≤ progress.old.left }
{
    match text {
        Some(text) => made(Value::Text(text), progress),
        None => Err(Exit::Stuck),
    }
}
