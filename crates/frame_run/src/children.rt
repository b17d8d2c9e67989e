// Operations one after another, in scopes of their own and as siblings.
ghost use Rattle.std.specs.Prelude.{◌≤◌, map};
ghost use Rattle.drawing_meaning.specs.Acts as spec;
ghost use Rattle.drawing_meaning.specs.Drawing.{Drawing, scoped as in_scope};
ghost use Rattle.frame_program.specs.Operations.{act_of};
ghost use Rattle.frame_run.specs.Agrees.{Agrees, reached, stage_in};

use crate::exit::Exit;
use crate::keys::siblings;
use crate::nodes::draw;
use crate::progress::{Around, Progress};
use cs_eval::Owners;
use drawing_meaning::Output;
use frame_core::Item;
use frame_program::Operation;
use sqlite_items::Items;

/// The items of a list that no `break` leads out of.
pub(crate) fn ended(out: Output) -> Result<Items<Item>, Exit>
    ensures { (d : Drawing) → Agrees result d (spec.ended out d) }
{
    if out.broke {
        return Err(Exit::Stuck);
    }
    siblings(out.items)
}

/// What operations make, one after another, up to a `break`.
#[cycle(drawing)]
#[tactic(auto, using(crate::proofs::SequenceLemmas::order_start, crate::proofs::SequenceLemmas::order_more, crate::proofs::SequenceLemmas::order_broke, crate::proofs::SequenceLemmas::order_end), unfolding(drawing_meaning::specs::Acts::in_order))]
fn in_order<O: Owners>(
    around: &Around<'_>,
    operations: &[Operation],
    progress: &mut Progress,
    owners: &O,
) -> Result<Output, Exit>
    ensures means { Agrees result (reached progress.new (O.fields owners.now))
        (spec.in_order (map act_of operations.now) (stage_in around.now (O.parameters owners.now)) (reached progress.old (O.fields owners.now))) }
    ensures spent { progress.new.left ≤ progress.old.left }
{
    let mut items = Items::new(around.alloc);
    for operation in operations {
        let out = draw(around, operation, progress, owners)?;
        items.append(out.items)?;
        if out.broke {
            return Ok(Output { items, broke: true });
        }
    }
    Ok(Output {
        items,
        broke: false,
    })
}

/// The same in a scope of its own.
#[cycle(drawing)]
pub(crate) fn scoped<O: Owners>(
    around: &Around<'_>,
    operations: &[Operation],
    progress: &mut Progress,
    owners: &O,
) -> Result<Output, Exit>
    ensures means { Agrees result (reached progress.new (O.fields owners.now))
        (in_scope (spec.in_order (map act_of operations.now) (stage_in around.now (O.parameters owners.now))) (reached progress.old (O.fields owners.now))) }
    ensures spent { progress.new.left ≤ progress.old.left }
{
    let count = progress.locals.values.len();
    let out = in_order(around, operations, progress, owners)?;
    progress.locals.values.truncate(count);
    Ok(out)
}

/// Siblings, one after another.
#[cycle(drawing)]
pub(crate) fn all_siblings<O: Owners>(
    around: &Around<'_>,
    operations: &[Operation],
    progress: &mut Progress,
    owners: &O,
) -> Result<Items<Item>, Exit>
    ensures means { Agrees result (reached progress.new (O.fields owners.now))
        (spec.all_siblings (map act_of operations.now) (stage_in around.now (O.parameters owners.now)) (reached progress.old (O.fields owners.now))) }
    ensures spent { progress.new.left ≤ progress.old.left }
{
    let out = in_order(around, operations, progress, owners)?;
    ended(out)
}
