// Parts of records and items of lists. Where a value has to be there, null is a fault.
ghost use Rattle.std.specs.Prelude.{◌≡◌, ◌<◌, IfOk};
ghost use Rattle.std.specs.Option.{option_copied};
ghost use Rattle.cs_meaning.specs.State.{State, Fields};
ghost use Rattle.cs_meaning.specs.Outcome.{found as is_found};
ghost use Rattle.cs_meaning.specs.Kinds as kind;
ghost use Rattle.cs_meaning.specs.Reading as spec;
ghost use Rattle.cs_meaning.specs.Calls as call;
ghost use Rattle.cs_eval.specs.Agrees.{Agrees, AgreesAs, reached};

use crate::charging::required;
use crate::copying::copy;
use crate::exit::Exit;
use crate::kinds::{Bound, Parts, into_fragment, into_items, into_record, is_null, number};
use crate::progress::{Around, Progress};
use cs_ast::Value;
use cs_meaning::Fault;
use sqlite_items::{Items, at as item_at};
use std::alloc::{AllocError, Global};

/// A copy of what is there.
pub(crate) fn found(alloc: Global, value: Option<&Value>) -> Result<Value, Exit>
    ensures { (s : State) → Agrees result s (is_found (option_copied value.entry) s) }
{
    match value {
        None => Err(Exit::Stuck),
        Some(value) => Ok(copy(alloc, value)?),
    }
}

/// The items of a list.
pub(crate) fn use_items(value: Value) -> Result<Items<Value>, Exit>
    ensures { (s : State) → Agrees result s (spec.used value (kind.items_of value) s) }
{
    if is_null(&value) {
        return Err(Exit::Fault(Fault::NullUse));
    }
    required(into_items(value))
}

/// The parts of a record.
pub(crate) fn use_record(value: Value) -> Result<Parts, Exit>
    ensures { (s : State) → AgreesAs (λ it. (it.kind, it.parts)) result s (spec.used value (kind.record_of value) s) }
{
    if is_null(&value) {
        return Err(Exit::Fault(Fault::NullUse));
    }
    match into_record(value) {
        Some(record) => Ok(record),
        None => Err(Exit::Stuck),
    }
}

/// The parts of a fragment.
pub(crate) fn use_fragment(value: Value) -> Result<Bound, Exit>
    ensures { (s : State) → AgreesAs (λ it. (it.who, it.place, it.captures)) result s (spec.used value (kind.fragment_of value) s) }
{
    if is_null(&value) {
        return Err(Exit::Fault(Fault::NullUse));
    }
    match into_fragment(value) {
        Some(fragment) => Ok(fragment),
        None => Err(Exit::Stuck),
    }
}

/// A number as a place below the limit.
fn placed(limit: usize, n: i32) -> Result<usize, Exit>
    ensures means { (s : State) → Agrees result s (spec.placed limit n s) }
    ensures within { IfOk result (λ place. place < limit) }
{
    if n < 0 {
        return Err(Exit::Fault(Fault::IndexOutOfRange));
    }
    let place = n as usize;
    if place >= limit {
        return Err(Exit::Fault(Fault::IndexOutOfRange));
    }
    Ok(place)
}

/// The same of a value, which has to be a number.
pub(crate) fn place_of(limit: usize, value: &Value) -> Result<usize, Exit>
    ensures means { (s : State) → Agrees result s (spec.place_of limit value.now s) }
    ensures within { IfOk result (λ place. place < limit) }
{
    match number(value) {
        Some(n) => placed(limit, n),
        None => Err(Exit::Stuck),
    }
}

/// The item of a list at an index.
pub(crate) fn indexed(alloc: Global, list: Value, index: &Value) -> Result<Value, Exit>
    ensures { (s : State) → Agrees result s (spec.indexed list index.now s) }
{
    let items = use_items(list)?;
    let place = place_of(items.len(), index)?;
    found(alloc, item_at(items.as_slice(), place))
}

/// The part of a record at a position.
pub(crate) fn part_of(alloc: Global, at: u32, value: Value) -> Result<Value, Exit>
    ensures { (s : State) → Agrees result s (spec.part_of at value s) }
{
    let record = use_record(value)?;
    found(alloc, item_at(record.parts.as_slice(), at as usize))
}

/// The same, and null of null.
pub(crate) fn part_or_null(alloc: Global, at: u32, value: Value) -> Result<Value, Exit>
    ensures { (s : State) → Agrees result s (spec.part_or_null at value s) }
{
    if is_null(&value) {
        return Ok(Value::Null);
    }
    part_of(alloc, at, value)
}

/// A fragment with one more captured value.
pub(crate) fn with_capture(value: Value, more: Value) -> Result<Value, Exit>
    ensures { (s : State) → Agrees result s (call.with_capture value more s) }
{
    let Bound {
        who,
        place,
        mut captures,
    } = use_fragment(value)?;
    captures.push(more)?;
    Ok(Value::Fragment {
        who,
        place,
        captures,
    })
}

/// The parts with these values at these positions, if these are there.
#[tactic(auto, using(crate::proofs::PartLemmas::parts_differ), unfolding(cs_meaning::specs::Reading::with_parts))]
pub(crate) fn with_parts(
    alloc: Global,
    positions: &[u32],
    values: &[Value],
    mut parts: Items<Value>,
) -> Result<Option<Items<Value>>, AllocError>
    ensures { IfOk result (λ changed. changed ≡ spec.with_parts positions.now values.now parts) }
{
    if positions.len() != values.len() {
        return Ok(None);
    }
    for (i, at) in positions.iter().enumerate() {
        let at = *at as usize;
        if at >= parts.len() {
            return Ok(None);
        }
        parts.set(at, copy(alloc, &values[i])?);
    }
    Ok(Some(parts))
}

/// Copies of the locals at these positions, if these are there.
#[tactic(auto, using(crate::proofs::PartLemmas::picked_behind), unfolding(cs_meaning::specs::Calls::picked))]
fn picked(
    alloc: Global,
    locals: &[Value],
    positions: &[u32],
) -> Result<Option<Items<Value>>, AllocError>
    ensures { IfOk result (λ values. values ≡ call.picked locals.now positions.now) }
{
    let mut values = Items::new(alloc);
    for at in positions {
        let Some(value) = item_at(locals, *at as usize) else {
            return Ok(None);
        };
        values.push(copy(alloc, value)?)?;
    }
    Ok(Some(values))
}

/// A method or lambda as a value, with the locals that it captures.
pub(crate) fn captured(
    around: &Around<'_>,
    number: u32,
    positions: &[u32],
    progress: &Progress,
) -> Result<Value, Exit>
    ensures { (fields : Fields) → Agrees result (reached progress.now fields) (call.callback around.now.who number positions.now (reached progress.now fields)) }
{
    match picked(around.alloc, progress.locals.as_slice(), positions)? {
        Some(captures) => Ok(Value::Callback {
            who: around.who,
            place: number,
            captures,
        }),
        None => Err(Exit::Stuck),
    }
}
