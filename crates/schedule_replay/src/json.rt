// Members of JSON objects, and whole numbers.
ghost use Rattle.std.specs.Prelude.{◌≡◌};
ghost use Rattle.std.specs.Option.{option_map};
ghost use Rattle.serde_json.specs.Find.{get, as_object};
ghost use Rattle.serde_json.specs.View.{view};
ghost use Rattle.schedule_replay.specs.Schedule.{has_size, within, whole, whole_at, text_at};

use serde_json::Value;

/// Whether the value is an object with just so many members.
pub fn has_size(value: &Value, size: usize) -> bool
    ensures { result ≡ has_size size (as_object (view value.now)) }
{
    match value.as_object() {
        Some(members) => members.len() == size,
        None => false,
    }
}

fn within(low: u64, high: u64, number: u64) -> Option<u64>
    ensures { result ≡ within low high number }
{
    if low <= number && number <= high {
        Some(number)
    } else {
        None
    }
}

/// The whole number that the value is, if it is one within these bounds.
pub fn whole(value: &Value, low: u64, high: u64) -> Option<u64>
    ensures { result ≡ whole low high (view value.now) }
{
    within(low, high, value.as_u64()?)
}

/// The whole number within these bounds that is the member of this key.
pub fn whole_at(value: &Value, key: &str, low: u64, high: u64) -> Option<u64>
    ensures { result ≡ whole_at low high key.now (view value.now) }
{
    whole(value.get(key)?, low, high)
}

/// The text that is the member of this key.
pub fn text_at<'a>(value: &'a Value, key: &str) -> Option<&'a str>
    ensures { option_map (λ text. text.now) result ≡ text_at key.now (view value.now) }
{
    value.get(key)?.as_str()
}
