// Units that are paid, and what new texts cost.
ghost use Rattle.std.specs.Prelude.{◌<◌, ◌≤◌, IfOk};
ghost use Rattle.cs_meaning.specs.State.{Fields};
ghost use Rattle.cs_meaning.specs.NewValues.{made};
ghost use Rattle.drawing_meaning.specs.Drawing as spec;
ghost use Rattle.drawing_meaning.specs.Drawing.{run};
ghost use Rattle.frame_run.specs.Agrees.{AgreesAs, reached};

use crate::exit::Exit;
use crate::progress::Progress;
use cs_ast::{Value, size};
use cs_meaning::Fault;
use drawing_meaning::PageFault;

/// The greatest size of a new value.
const LARGEST: u64 = 1_048_576;

/// Pays a unit.
pub(crate) fn pay(progress: &mut Progress) -> Result<(), Exit>
    ensures means { (fields : Fields) → AgreesAs (λ _. tt) result (reached progress.new fields) (spec.pay (reached progress.old fields)) }
    ensures paid { IfOk result (λ _. progress.new.left < progress.old.left) }
    ensures spent { progress.new.left ≤ progress.old.left }
{
    if progress.left < 1 {
        progress.left = 0;
        return Err(Exit::Fault(PageFault::Code(Fault::FuelSpent)));
    }
    progress.left -= 1;
    Ok(())
}

/// Charges a new value, which must not be too large.
pub(crate) fn charged(value: Value, progress: &mut Progress) -> Result<Value, Exit>
    ensures means { (fields : Fields) → AgreesAs (λ it. it) result (reached progress.new fields) (run (made value) (reached progress.old fields)) }
    ensures spent { progress.new.left ≤ progress.old.left }
{
    let size = size(&value);
    let left = progress.left;
    if size / 64 > u64::from(left) {
        progress.left = 0;
        return Err(Exit::Fault(PageFault::Code(Fault::FuelSpent)));
    }
    progress.left = left - (size / 64) as u32;
    if size > LARGEST {
        return Err(Exit::Fault(PageFault::Code(Fault::ValueTooLarge)));
    }
    Ok(value)
}
