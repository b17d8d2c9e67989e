// What kind of value a value is, and what it holds.
ghost use Rattle.std.specs.Prelude.{◌≡◌, option_map};
ghost use Rattle.cs_meaning.specs.Equality.{is_same};
ghost use Rattle.cs_meaning.specs.Kinds as spec;

use cs_ast::{Value, same};
use sqlite_items::Items;
use text_core::Txt;

/// Whether the two are the same.
pub(crate) fn equal(x: &Value, y: &Value) -> bool
    ensures { result ≡ is_same x.now y.now }
{
    same(x, y)
}

pub(crate) fn truth(value: &Value) -> Option<bool>
    ensures { result ≡ spec.truth_of value.now }
{
    match value {
        Value::Bool(truth) => Some(*truth),
        _ => None,
    }
}

pub(crate) fn into_text(value: Value) -> Option<Txt>
    ensures { result ≡ spec.string_of value }
{
    match value {
        Value::Text(text) => Some(text),
        _ => None,
    }
}

pub(crate) fn is_null(value: &Value) -> bool
    ensures { result ≡ spec.is_null value.now }
{
    matches!(value, Value::Null)
}

#[tactic(auto, using(cs_meaning::proofs::KindLemmas::items_some, cs_meaning::proofs::KindLemmas::items_none))]
pub(crate) fn into_items(value: Value) -> Option<Items<Value>>
    ensures { result ≡ spec.items_of value }
{
    match value {
        Value::List(items) => Some(items),
        _ => None,
    }
}

/// A fragment or a callback taken apart.
#[derive(Drop)]
pub(crate) struct Bound {
    pub(crate) who: u32,
    pub(crate) place: u32,
    pub(crate) captures: Items<Value>,
}

#[tactic(auto, using(cs_meaning::proofs::KindLemmas::fragment_some, cs_meaning::proofs::KindLemmas::fragment_none))]
pub(crate) fn into_fragment(value: Value) -> Option<Bound>
    ensures { option_map (λ it. (it.who, it.place, it.captures)) result ≡ spec.fragment_of value }
{
    match value {
        Value::Fragment {
            who,
            place,
            captures,
        } => Some(Bound {
            who,
            place,
            captures,
        }),
        _ => None,
    }
}

#[tactic(auto, using(cs_meaning::proofs::KindLemmas::callback_some, cs_meaning::proofs::KindLemmas::callback_none))]
pub(crate) fn into_callback(value: Value) -> Option<Bound>
    ensures { option_map (λ it. (it.who, it.place, it.captures)) result ≡ spec.callback_of value }
{
    match value {
        Value::Callback {
            who,
            place,
            captures,
        } => Some(Bound {
            who,
            place,
            captures,
        }),
        _ => None,
    }
}
