// From bytes to the schedule that they spell.
ghost use Rattle.std.specs.Prelude.{◌≡◌, ◌↔◌, ◌≤◌, IfOk, IsTrue, Some, false};
ghost use Rattle.std.specs.Option.{option_map};
ghost use Rattle.serde_json.specs.View.{view, items_view};
ghost use Rattle.schedule_replay.specs.Schedule.{event_name, flow_of, Gives, IsSchedule, has_keys, is_open, json_of, limit_of, open_of, outline_of, places_of, schedule_from, schedule_of, step_by, step_of, steps_from, user_of, weight, weights};
ghost use Rattle.schedule_replay.specs.Reading.{outline_view, ReadsJson, ReadsSteps};

use crate::json::{has_size, text_at, whole, whole_at};
use crate::{Schedule, ScheduleFault, Step, UserStep};
use serde_json::Value;
use sqlite_items::Items;
use std::alloc::Global;
use text_core::{Oom, Txt};

/// The most bytes that an event's name may have.
const NAME_LIMIT: usize = 16_777_216;

/// The most atomic steps.
const STEP_LIMIT: u64 = 100_000;

fn open_of(opened: bool, value: &Value) -> Option<Step>
    ensures { result ≡ open_of opened (view value.now) }
{
    if opened || !has_size(value, 2) {
        return None;
    }
    let tab = whole_at(value, "tab", 0, 0)?;
    Some(Step::Open { tab: tab as u8 })
}

fn flow_of(value: &Value) -> Option<Step>
    ensures { result ≡ flow_of (view value.now) }
{
    if !has_size(value, 2) {
        return None;
    }
    let count = whole_at(value, "count", 1, 1_000)?;
    Some(Step::Flow {
        count: count as u32,
    })
}

fn places_of(alloc: Global, values: &[Value]) -> Result<Option<Items<u32>>, Oom>
    ensures { IfOk result (λ found. found ≡ places_of (items_view values.now)) }
{
    let mut places = Items::new(alloc);
    for value in values {
        let Some(place) = whole(value, 0, 4_294_967_295) else {
            return Ok(None);
        };
        places.push(place as u32)?;
    }
    Ok(Some(places))
}

fn event_name(alloc: Global, name: &str) -> Result<Option<Txt>, Oom>
    ensures { IfOk result (λ found. found ≡ event_name name.now) }
{
    let name = Txt::from_str(alloc, name)?;
    if name.as_str().len() > NAME_LIMIT {
        return Ok(None);
    }
    Ok(Some(name))
}

fn user_of(alloc: Global, value: &Value) -> Result<Option<Step>, Oom>
    ensures { IfOk result (λ found. found ≡ user_of (view value.now)) }
{
    if !has_size(value, 4) {
        return Ok(None);
    }
    let Some(tab) = whole_at(value, "tab", 0, 0) else {
        return Ok(None);
    };
    let Some(path) = value.get("path").and_then(Value::as_array) else {
        return Ok(None);
    };
    let Some(path) = places_of(alloc, path.as_slice())? else {
        return Ok(None);
    };
    let Some(event) = text_at(value, "event") else {
        return Ok(None);
    };
    let Some(event) = event_name(alloc, event)? else {
        return Ok(None);
    };
    Ok(Some(Step::User(UserStep {
        tab: tab as u8,
        path,
        event,
    })))
}

fn step_by(alloc: Global, opened: bool, value: &Value, word: &str) -> Result<Option<Step>, Oom>
    ensures { IfOk result (λ found. found ≡ step_by opened (view value.now) word.now) }
{
    if word == "open" {
        return Ok(open_of(opened, value));
    }
    if word == "user" {
        return user_of(alloc, value);
    }
    if word == "flow" {
        return Ok(flow_of(value));
    }
    Ok(None)
}

/// The step that the value is, if it is one; a tab is opened once.
fn step_of(alloc: Global, opened: bool, value: &Value) -> Result<Option<Step>, Oom>
    ensures { IfOk result (λ found. found ≡ step_of opened (view value.now)) }
{
    match text_at(value, "do") {
        Some(word) => step_by(alloc, opened, value, word),
        None => Ok(None),
    }
}

fn is_open(step: &Step) -> bool
    ensures { result ≡ is_open step.now }
{
    matches!(step, Step::Open { .. })
}

fn steps_of(alloc: Global, values: &[Value]) -> Result<Items<Step>, ScheduleFault>
    ensures { ReadsSteps result (steps_from 1 false (items_view values.now)) }
{
    let mut steps = Items::new(alloc);
    let mut opened = false;
    for (i, value) in values.iter().enumerate() {
        let Some(step) = step_of(alloc, opened, value)? else {
            return Err(ScheduleFault::Step {
                number: i as u64 + 1,
            });
        };
        opened = opened || is_open(&step);
        steps.push(step)?;
    }
    Ok(steps)
}

fn weight(step: &Step) -> u64
    ensures { result ≡ weight step.now }
{
    match step {
        Step::Open { .. } | Step::User(_) => 1,
        Step::Flow { count } => u64::from(*count),
    }
}

/// Whether the steps are at most 100,000 atomic ones.
fn are_few(steps: &[Step]) -> bool
    ensures { IsTrue result ↔ (weights steps.now ≤ 100000) }
{
    let mut total = 0u64;
    for step in steps {
        total = total.saturating_add(weight(step));
    }
    total <= STEP_LIMIT
}

/// The parts of a schedule that is JSON.
#[derive(Clone, Copy)]
struct Parts<'a> {
    window: u32,
    retain: u32,
    steps: &'a [Value],
}

/// A number from 1 to the limit; the default, where there is none.
fn limit_of(value: Option<&Value>, high: u64, default: u64) -> Option<u64>
    ensures { result ≡ limit_of high default (option_map (λ v. view v.now) value.entry) }
{
    match value {
        Some(value) => whole(value, 1, high),
        None => Some(default),
    }
}

/// Whether the object has the keys of a schedule and no other.
fn has_keys(value: &Value) -> bool
    ensures { result ≡ has_keys (view value.now) }
{
    let window = usize::from(value.get("window").is_some());
    let retain = usize::from(value.get("retain").is_some());
    has_size(value, 1 + window + retain)
}

fn parts_of(value: &Value) -> Option<Parts<'_>>
    ensures { option_map outline_view result ≡ outline_of (view value.now) }
{
    if !has_keys(value) {
        return None;
    }
    let window = limit_of(value.get("window"), 64, 10)?;
    let retain = limit_of(value.get("retain"), 100, 100)?;
    let steps = value.get("steps")?.as_array()?;
    Some(Parts {
        window: window as u32,
        retain: retain as u32,
        steps: steps.as_slice(),
    })
}

fn json_of(alloc: Global, bytes: &[u8]) -> Result<Value, ScheduleFault>
    ensures { ReadsJson result (json_of bytes.now) }
{
    match Value::from_slice(alloc, bytes) {
        Ok(value) => Ok(value),
        Err(error) if error.is_memory() => Err(ScheduleFault::Oom),
        Err(_) => Err(ScheduleFault::Unread),
    }
}

fn schedule_with(alloc: Global, parts: &Parts<'_>) -> Result<Schedule, ScheduleFault>
    ensures { Gives result (schedule_from (Some (outline_view parts.now))) }
{
    let steps = steps_of(alloc, parts.steps)?;
    if !are_few(steps.as_slice()) {
        return Err(ScheduleFault::TooMany);
    }
    Ok(Schedule {
        window: parts.window,
        retain: parts.retain,
        steps,
    })
}

/// The schedule that the bytes spell: docs/DEFINITIONS.md, "Schedule".
pub fn read_schedule(alloc: Global, bytes: &[u8]) -> Result<Schedule, ScheduleFault>
    ensures spelled { Gives result (schedule_of bytes.now) }
    ensures bounds { IfOk result IsSchedule }
{
    let json = json_of(alloc, bytes)?;
    match parts_of(&json) {
        Some(parts) => schedule_with(alloc, &parts),
        None => Err(ScheduleFault::Unread),
    }
}
