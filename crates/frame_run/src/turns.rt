// Loops, each of whose turns is a region.
ghost use Rattle.std.specs.Prelude.{◌+◌, ◌≤◌, map};
ghost use Rattle.std.specs.Option.{option_copied};
ghost use Rattle.cs_meaning.specs.Kinds.{items_of};
ghost use Rattle.cs_meaning.specs.Reading.{used};
ghost use Rattle.drawing_meaning.specs.Drawing.{Drawing, run};
ghost use Rattle.drawing_meaning.specs.Turns as spec;
ghost use Rattle.frame_program.specs.Operations.{act_of};
ghost use Rattle.frame_run.specs.Agrees.{Agrees, reached, stage_in};

use crate::charging::pay;
use crate::children::{ended, scoped};
use crate::copying::copy;
use crate::evaluating::{truth_of, value_of};
use crate::exit::Exit;
use crate::keys::key_of_turn;
use crate::kinds::{into_items, is_null};
use crate::progress::{Around, Progress};
use cs_ast::{Code, Value};
use cs_eval::Owners;
use cs_meaning::Fault;
use drawing_meaning::{Output, PageFault};
use frame_core::Item;
use frame_program::Operation;
use sqlite_items::Items;

/// The items of a list, which must not be null.
fn items_in(list: Value) -> Result<Items<Value>, Exit>
    ensures { (d : Drawing) → Agrees result d (run (used list (items_of list)) d) }
{
    if is_null(&list) {
        return Err(Exit::Fault(PageFault::Code(Fault::NullUse)));
    }
    match into_items(list) {
        Some(items) => Ok(items),
        None => Err(Exit::Stuck),
    }
}

/// The test of a loop, which is true where there is none.
fn tested<O: Owners>(
    around: &Around<'_>,
    test: Option<&Code>,
    progress: &mut Progress,
    owners: &O,
) -> Result<bool, Exit>
    ensures means { Agrees result (reached progress.new (O.fields owners.now))
        (spec.test_or_true (option_copied test.entry) (stage_in around.now (O.parameters owners.now)) (reached progress.old (O.fields owners.now))) }
    ensures spent { progress.new.left ≤ progress.old.left }
{
    match test {
        Some(test) => truth_of(around, test, progress, owners),
        None => Ok(true),
    }
}

/// The value of code that may be absent: null then.
fn optional<O: Owners>(
    around: &Around<'_>,
    code: Option<&Code>,
    progress: &mut Progress,
    owners: &O,
) -> Result<Value, Exit>
    ensures means { Agrees result (reached progress.new (O.fields owners.now))
        (spec.code_or_nothing (option_copied code.entry) (stage_in around.now (O.parameters owners.now)) (reached progress.old (O.fields owners.now))) }
    ensures spent { progress.new.left ≤ progress.old.left }
{
    match code {
        Some(code) => value_of(around, code, progress, owners),
        None => Ok(Value::Null),
    }
}

/// A turn of a loop: a region, whose key is that of the item which the node of a number makes in it.
#[cycle(drawing)]
#[tactic(auto, unfolding(drawing_meaning::specs::Turns::turn))]
fn turn<O: Owners>(
    around: &Around<'_>,
    number: u32,
    keyed: Option<u32>,
    body: &[Operation],
    progress: &mut Progress,
    owners: &O,
) -> Result<Item, Exit>
    ensures means { Agrees result (reached progress.new (O.fields owners.now))
        (spec.turn number keyed (map act_of body.now) (stage_in around.now (O.parameters owners.now)) (reached progress.old (O.fields owners.now))) }
    ensures spent { progress.new.left ≤ progress.old.left }
{
    pay(progress)?;
    let out = scoped(around, body, progress, owners)?;
    let children = ended(out)?;
    let key = key_of_turn(around.alloc, keyed, children.as_slice())?;
    Ok(Item::Region {
        number,
        key,
        children,
    })
}

/// Turns of a loop, each of which pays a unit at least.
#[cycle(drawing)]
#[tactic(auto, using(crate::proofs::TurnLemmas::items_start, crate::proofs::TurnLemmas::item_behind, crate::proofs::TurnLemmas::items_end, crate::proofs::TurnLemmas::turns_some, crate::proofs::TurnLemmas::turns_none))]
fn repeat<O: Owners>(
    around: &Around<'_>,
    number: u32,
    test: Option<&Code>,
    step: Option<&Code>,
    keyed: Option<u32>,
    body: &[Operation],
    progress: &mut Progress,
    owners: &O,
) -> Result<Items<Item>, Exit>
    ensures means { Agrees result (reached progress.new (O.fields owners.now))
        (spec.turns (progress.old.left + 1) (spec.test_or_true (option_copied test.entry) (stage_in around.now (O.parameters owners.now)))
        (spec.turn number keyed (map act_of body.now) (stage_in around.now (O.parameters owners.now)))
        (spec.code_or_nothing (option_copied step.entry) (stage_in around.now (O.parameters owners.now))) (reached progress.old (O.fields owners.now))) }
    ensures spent { progress.new.left ≤ progress.old.left }
{
    let mut items = Items::new(around.alloc);
    let mut most = u64::from(progress.left) + 1;
    while most > 0 {
        if !tested(around, test, progress, owners)? {
            return Ok(items);
        }
        items.push(turn(around, number, keyed, body, progress, owners)?)?;
        optional(around, step, progress, owners)?;
        most -= 1;
    }
    progress.left = 0;
    Err(Exit::Fault(PageFault::Code(Fault::FuelSpent)))
}

/// A `while`.
#[cycle(drawing)]
#[tactic(auto, unfolding(drawing_meaning::specs::Turns::while_loop))]
pub(crate) fn while_loop<O: Owners>(
    around: &Around<'_>,
    number: u32,
    test: &Code,
    keyed: Option<u32>,
    body: &[Operation],
    progress: &mut Progress,
    owners: &O,
) -> Result<Output, Exit>
    ensures means { Agrees result (reached progress.new (O.fields owners.now))
        (spec.while_loop number test.now keyed (map act_of body.now) (stage_in around.now (O.parameters owners.now)) (reached progress.old (O.fields owners.now))) }
    ensures spent { progress.new.left ≤ progress.old.left }
{
    pay(progress)?;
    let items = repeat(
        around,
        number,
        Some(test),
        None,
        keyed,
        body,
        progress,
        owners,
    )?;
    Ok(Output {
        items,
        broke: false,
    })
}

/// The start of a `for`, and its turns.
#[cycle(drawing)]
fn behind_start<O: Owners>(
    around: &Around<'_>,
    number: u32,
    start: Option<&Code>,
    test: Option<&Code>,
    step: Option<&Code>,
    keyed: Option<u32>,
    body: &[Operation],
    progress: &mut Progress,
    owners: &O,
) -> Result<Output, Exit>
    ensures means { Agrees result (reached progress.new (O.fields owners.now))
        (spec.behind_start number (option_copied start.entry) (option_copied test.entry) (option_copied step.entry) keyed (map act_of body.now) (stage_in around.now (O.parameters owners.now)) (reached progress.old (O.fields owners.now))) }
    ensures spent { progress.new.left ≤ progress.old.left }
{
    optional(around, start, progress, owners)?;
    let items = repeat(around, number, test, step, keyed, body, progress, owners)?;
    Ok(Output {
        items,
        broke: false,
    })
}

/// A `for`, whose start is in the scope of the whole loop.
#[cycle(drawing)]
#[tactic(auto, unfolding(drawing_meaning::specs::Turns::for_loop))]
pub(crate) fn for_loop<O: Owners>(
    around: &Around<'_>,
    number: u32,
    start: Option<&Code>,
    test: Option<&Code>,
    step: Option<&Code>,
    keyed: Option<u32>,
    body: &[Operation],
    progress: &mut Progress,
    owners: &O,
) -> Result<Output, Exit>
    ensures means { Agrees result (reached progress.new (O.fields owners.now))
        (spec.for_loop number (option_copied start.entry) (option_copied test.entry) (option_copied step.entry) keyed (map act_of body.now) (stage_in around.now (O.parameters owners.now)) (reached progress.old (O.fields owners.now))) }
    ensures spent { progress.new.left ≤ progress.old.left }
{
    pay(progress)?;
    let count = progress.locals.values.len();
    let out = behind_start(
        around, number, start, test, step, keyed, body, progress, owners,
    )?;
    progress.locals.values.truncate(count);
    Ok(out)
}

/// A turn with a value as a new local.
#[cycle(drawing)]
fn turn_over<O: Owners>(
    around: &Around<'_>,
    value: Value,
    number: u32,
    keyed: Option<u32>,
    body: &[Operation],
    progress: &mut Progress,
    owners: &O,
) -> Result<Item, Exit>
    ensures means { Agrees result (reached progress.new (O.fields owners.now))
        (spec.in_new_local value (spec.turn number keyed (map act_of body.now) (stage_in around.now (O.parameters owners.now))) (reached progress.old (O.fields owners.now))) }
    ensures spent { progress.new.left ≤ progress.old.left }
{
    let count = progress.locals.values.len();
    progress.locals.values.push(value)?;
    let item = turn(around, number, keyed, body, progress, owners)?;
    progress.locals.values.truncate(count);
    Ok(item)
}

/// A turn for each value.
#[cycle(drawing)]
#[tactic(auto, using(crate::proofs::TurnLemmas::items_start, crate::proofs::TurnLemmas::item_behind, crate::proofs::TurnLemmas::items_end), unfolding(drawing_meaning::specs::Turns::each_turn))]
fn each<O: Owners>(
    around: &Around<'_>,
    values: &[Value],
    number: u32,
    keyed: Option<u32>,
    body: &[Operation],
    progress: &mut Progress,
    owners: &O,
) -> Result<Items<Item>, Exit>
    ensures means { Agrees result (reached progress.new (O.fields owners.now))
        (spec.each_turn values.now (spec.turn number keyed (map act_of body.now) (stage_in around.now (O.parameters owners.now))) (reached progress.old (O.fields owners.now))) }
    ensures spent { progress.new.left ≤ progress.old.left }
{
    let mut items = Items::new(around.alloc);
    for value in values {
        let value = copy(around.alloc, value)?;
        items.push(turn_over(around, value, number, keyed, body, progress, owners)?)?;
    }
    Ok(items)
}

/// A `foreach`, which takes its list once.
#[cycle(drawing)]
#[tactic(auto, unfolding(drawing_meaning::specs::Turns::for_each))]
pub(crate) fn for_each<O: Owners>(
    around: &Around<'_>,
    number: u32,
    list: &Code,
    keyed: Option<u32>,
    body: &[Operation],
    progress: &mut Progress,
    owners: &O,
) -> Result<Output, Exit>
    ensures means { Agrees result (reached progress.new (O.fields owners.now))
        (spec.for_each number list.now keyed (map act_of body.now) (stage_in around.now (O.parameters owners.now)) (reached progress.old (O.fields owners.now))) }
    ensures spent { progress.new.left ≤ progress.old.left }
{
    pay(progress)?;
    let value = value_of(around, list, progress, owners)?;
    let values = items_in(value)?;
    let items = each(
        around,
        values.as_slice(),
        number,
        keyed,
        body,
        progress,
        owners,
    )?;
    Ok(Output {
        items,
        broke: false,
    })
}
