// Copies of values and of what components are made of.
ghost use Rattle.std.specs.Prelude.{◌≡◌, IfOk};

use cs_ast::{CsType, Value};
use frame_core::Made;
use sqlite_items::{Boxed, Items};
use std::alloc::{AllocError, Global};
use text_core::Txt;

/// A value that is equal to this one.
#[cycle(copy)]
pub(crate) fn copy(alloc: Global, value: &Value) -> Result<Value, AllocError>
    ensures { IfOk result (λ copied. copied ≡ value.now) }
{
    match value {
        Value::Int(number) => Ok(Value::Int(*number)),
        Value::Bool(truth) => Ok(Value::Bool(*truth)),
        Value::Text(text) => Ok(Value::Text(text.clone()?)),
        Value::Null => Ok(Value::Null),
        Value::Rec { kind, parts } => Ok(Value::Rec {
            kind: *kind,
            parts: copy_all(alloc, parts.as_slice())?,
        }),
        Value::List(parts) => Ok(Value::List(copy_all(alloc, parts.as_slice())?)),
        Value::Fragment {
            who,
            place,
            captures,
        } => Ok(Value::Fragment {
            who: *who,
            place: *place,
            captures: copy_all(alloc, captures.as_slice())?,
        }),
        Value::Callback {
            who,
            place,
            captures,
        } => Ok(Value::Callback {
            who: *who,
            place: *place,
            captures: copy_all(alloc, captures.as_slice())?,
        }),
    }
}

#[cycle(copy)]
fn copy_all(alloc: Global, values: &[Value]) -> Result<Items<Value>, AllocError>
    ensures { IfOk result (λ copied. copied ≡ values.now) }
{
    let mut copied = Items::new(alloc);
    for value in values {
        copied.push(copy(alloc, value)?)?;
    }
    Ok(copied)
}

/// Values as locals.
pub(crate) fn copy_locals(alloc: Global, values: &[Value]) -> Result<Vec<Value>, AllocError>
    ensures { IfOk result (λ locals. locals.items ≡ values.now) }
{
    let mut locals = Vec::new(alloc);
    for value in values {
        locals.push(copy(alloc, value)?)?;
    }
    Ok(locals)
}

#[cycle(types)]
fn copy_boxed(alloc: Global, cs_type: &Boxed<CsType>) -> Result<Boxed<CsType>, AllocError>
    ensures { IfOk result (λ copied. copied ≡ cs_type.now) }
{
    Boxed::new(alloc, copy_type(alloc, cs_type.get())?)
}

#[cycle(types)]
fn copy_type(alloc: Global, cs_type: &CsType) -> Result<CsType, AllocError>
    ensures { IfOk result (λ copied. copied ≡ cs_type.now) }
{
    match cs_type {
        CsType::Int => Ok(CsType::Int),
        CsType::Bool => Ok(CsType::Bool),
        CsType::Text => Ok(CsType::Text),
        CsType::Rec(name) => Ok(CsType::Rec(name.clone()?)),
        CsType::List(of) => Ok(CsType::List(copy_boxed(alloc, of)?)),
        CsType::Callback(None) => Ok(CsType::Callback(None)),
        CsType::Callback(Some(of)) => Ok(CsType::Callback(Some(copy_boxed(alloc, of)?))),
        CsType::Fragment(None) => Ok(CsType::Fragment(None)),
        CsType::Fragment(Some(of)) => Ok(CsType::Fragment(Some(copy_boxed(alloc, of)?))),
        CsType::Change => Ok(CsType::Change),
        CsType::Args => Ok(CsType::Args),
        CsType::Nothing => Ok(CsType::Nothing),
    }
}

fn copy_name(name: &Option<Txt>) -> Result<Option<Txt>, AllocError>
    ensures { IfOk result (λ copied. copied ≡ name.now) }
{
    match name {
        Some(name) => Ok(Some(name.clone()?)),
        None => Ok(None),
    }
}

/// What is equal to what this component is made of.
pub(crate) fn copy_made(alloc: Global, made: &Made) -> Result<Made, AllocError>
    ensures { IfOk result (λ copied. copied ≡ made.now) }
{
    match made {
        Made::Component(place) => Ok(Made::Component(*place)),
        Made::Provider { cs_type, name } => Ok(Made::Provider {
            cs_type: copy_type(alloc, cs_type)?,
            name: copy_name(name)?,
        }),
    }
}
