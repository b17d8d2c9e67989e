// What an id stands for.
ghost use Rattle.std.specs.Prelude.{◌≡◌, ◌↔◌, IsTrue};

use cs_ast::{Value, same};
use sqlite_items::Items;
use text_core::Txt;

/// A handler as a rendering makes it: its receiver, the number of its code, the event that it answers, and the values
/// of the locals that it uses.
#[derive(Debug, Drop)]
pub struct HandlerValue {
    pub who: u32,
    pub place: u32,
    pub event: Txt,
    pub captures: Items<Value>,
}

/// Whether the two have the same parts.
pub(crate) fn same_handler(one: &HandlerValue, other: &HandlerValue) -> bool
    ensures { IsTrue result ↔ (one.now ≡ other.now) }
{
    one.who == other.who
        && one.place == other.place
        && one.event == other.event
        && same_values(one.captures.as_slice(), other.captures.as_slice())
}

fn same_values(values: &[Value], others: &[Value]) -> bool
    ensures { IsTrue result ↔ (values.now ≡ others.now) }
{
    if values.len() != others.len() {
        return false;
    }
    for (i, value) in values.iter().enumerate() {
        if !same(value, &others[i]) {
            return false;
        }
    }
    true
}
