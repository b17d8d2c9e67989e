// Copies of values.
ghost use Rattle.std.specs.Prelude.{◌≡◌, IfOk};

use cs_ast::Value;
use sqlite_items::Items;
use std::alloc::{AllocError, Global};

/// A value that is equal to this one.
#[cycle(copy)]
pub(crate) fn copy(alloc: Global, value: &Value) -> Result<Value, AllocError>
    ensures { IfOk result (λ copied. copied ≡ value.now) }
{
    match value {
        Value::Int(number) => Ok(Value::Int(*number)),
        Value::Bool(truth) => Ok(Value::Bool(*truth)),
        Value::Text(text) => Ok(Value::Text(text.clone()?)),
        Value::Null => Ok(Value::Null),
        Value::Rec { kind, parts } => Ok(Value::Rec {
            kind: *kind,
            parts: copy_all(alloc, parts.as_slice())?,
        }),
        Value::List(parts) => Ok(Value::List(copy_all(alloc, parts.as_slice())?)),
        Value::Fragment {
            who,
            place,
            captures,
        } => Ok(Value::Fragment {
            who: *who,
            place: *place,
            captures: copy_all(alloc, captures.as_slice())?,
        }),
        Value::Callback {
            who,
            place,
            captures,
        } => Ok(Value::Callback {
            who: *who,
            place: *place,
            captures: copy_all(alloc, captures.as_slice())?,
        }),
    }
}

#[cycle(copy)]
pub(crate) fn copy_all(alloc: Global, values: &[Value]) -> Result<Items<Value>, AllocError>
    ensures { IfOk result (λ copied. copied ≡ values.now) }
{
    let mut copied = Items::new(alloc);
    for value in values {
        copied.push(copy(alloc, value)?)?;
    }
    Ok(copied)
}
