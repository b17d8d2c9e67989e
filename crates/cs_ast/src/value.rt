// Values: when they are the same, what they show, and how large they are.
ghost use Rattle.std.specs.Prelude.{◌≡◌, ◌↔◌, ◌-◌, ◌^◌, IsTrue, Some, min, IfOk};
ghost use Rattle.std.specs.Option.{IsSome};
ghost use Rattle.cs_ast.specs.declared.value.Value.TheVariants.{Bool};
ghost use Rattle.cs_ast.specs.Sizes.{size_of};
ghost use Rattle.cs_ast.specs.Texts.{text_of};

use sqlite_items::Items;
use std::alloc::Global;
use text_core::{Oom, Txt, show_i32};

/// A value that code computes.
#[derive(Debug, Drop)]
pub enum Value {
    Int(i32),
    Bool(bool),
    Text(Txt),
    Null,
    /// A record: the number of its declaration, and its parts in their order.
    Rec {
        kind: u32,
        parts: Items<Value>,
    },
    List(Items<Value>),
    /// A template with its receiver, the number of its template, and the values of the locals that it uses.
    Fragment {
        who: u32,
        place: u32,
        captures: Items<Value>,
    },
    /// A method or lambda with its receiver, its number in [`crate::Bodies`], and the values of the locals that it uses.
    Callback {
        who: u32,
        place: u32,
        captures: Items<Value>,
    },
}

/// Whether the two have the same variant and the same parts.
#[cycle(same)]
pub fn same(a: &Value, b: &Value) -> bool
    ensures { IsTrue result ↔ (a.now ≡ b.now) }
{
    match (a, b) {
        (Value::Int(a), Value::Int(b)) => a == b,
        (Value::Bool(a), Value::Bool(b)) => a == b,
        (Value::Text(a), Value::Text(b)) => a == b,
        (Value::Null, Value::Null) => true,
        (
            Value::Rec { kind, parts },
            Value::Rec {
                kind: other,
                parts: others,
            },
        ) => kind == other && same_all(parts.as_slice(), others.as_slice()),
        (Value::List(items), Value::List(others)) => {
            same_all(items.as_slice(), others.as_slice())
        }
        (
            Value::Fragment {
                who,
                place,
                captures,
            },
            Value::Fragment {
                who: other_who,
                place: other_place,
                captures: others,
            },
        )
        | (
            Value::Callback {
                who,
                place,
                captures,
            },
            Value::Callback {
                who: other_who,
                place: other_place,
                captures: others,
            },
        ) => {
            who == other_who
                && place == other_place
                && same_all(captures.as_slice(), others.as_slice())
        }
        _ => false,
    }
}

#[cycle(same)]
fn same_all(values: &[Value], others: &[Value]) -> bool
    ensures { IsTrue result ↔ (values.now ≡ others.now) }
{
    if values.len() != others.len() {
        return false;
    }
    for (i, value) in values.iter().enumerate() {
        if !same(value, &others[i]) {
            return false;
        }
    }
    true
}

/// The text that the value shows: decimal digits, `True` or `False`, itself, or nothing for null.
pub fn show(alloc: Global, value: &Value) -> Result<Txt, Oom>
    requires { IsSome (text_of value.now) }
    ensures { IfOk result (λ text. text_of value.now ≡ Some text) }
{
    match value {
        Value::Int(number) => show_i32(alloc, *number),
        Value::Bool(truth) => show_bool(alloc, *truth),
        Value::Text(text) => Ok(text.clone()?),
        Value::Null => Ok(Txt::new(alloc)),
        _ => unreachable!(),
    }
}

fn show_bool(alloc: Global, truth: bool) -> Result<Txt, Oom>
    ensures { IfOk result (λ text. text_of (Bool truth) ≡ Some text) }
{
    let mut text = Txt::new(alloc);
    text.push_str(if truth { "True" } else { "False" })?;
    Ok(text)
}

/// The size of the value, or the greatest number where it is greater.
pub fn size(value: &Value) -> u64
    ensures { result ≡ min (size_of value.now) (2 ^ 64 - 1) }
{
    match value {
        Value::Int(_) => 4,
        Value::Text(text) => (text.as_str().len() as u64).saturating_add(1),
        Value::Rec { parts, .. } | Value::List(parts) => {
            let mut total = 1u64;
            for part in parts.as_slice() {
                total = total.saturating_add(size(part));
            }
            total
        }
        Value::Bool(_) | Value::Null | Value::Fragment { .. } | Value::Callback { .. } => 1,
    }
}
