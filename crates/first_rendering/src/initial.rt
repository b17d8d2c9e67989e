// The initial values of fields.
ghost use Rattle.std.specs.Prelude.{◌≡◌};
ghost use Rattle.page_meaning.specs.Initial.{default_of};
ghost use Rattle.first_rendering.specs.First.{initial_value, initial_values, own_value};
ghost use Rattle.first_rendering.specs.Tried.{Comes, Come};

use crate::instance::Nobody;
use cs_ast::{Bodies, Code, CsType, Value};
use cs_eval::{Locals, try_run};
use cs_meaning::{Fault, Fuel};
use frame_program::CompiledField;
use sqlite_items::Items;
use std::alloc::Global;

/// What a field of a type is without an initial value.
fn default_of(cs_type: &CsType) -> Value
    ensures { result ≡ default_of cs_type.now }
{
    match cs_type {
        CsType::Int => Value::Int(0),
        CsType::Bool => Value::Bool(false),
        _ => Value::Null,
    }
}

/// The value of code that runs by itself, or None where it is stuck.
fn code_value(alloc: Global, code: &Code, fuel: &mut Fuel) -> Result<Option<Value>, Fault>
    requires { fuel.old.depth ≡ 1 }
    ensures means { Comes result fuel.new.left (own_value code.now fuel.old.left) }
    ensures depth { fuel.new.depth ≡ fuel.old.depth }
{
    let bodies = Bodies::new(alloc);
    let mut locals = Locals {
        values: Vec::new(alloc),
    };
    let mut nobody = Nobody;
    match try_run(alloc, code, &bodies, 1, &mut locals, &mut nobody, fuel)? {
        Some(ran) => Ok(Some(ran.value)),
        None => Ok(None),
    }
}

/// The initial value of a field, or None where its code is stuck.
fn initial_value(
    alloc: Global,
    field: &CompiledField,
    fuel: &mut Fuel,
) -> Result<Option<Value>, Fault>
    requires { fuel.old.depth ≡ 1 }
    ensures means { Comes result fuel.new.left (initial_value field.now.cs_type field.now.initial fuel.old.left) }
    ensures depth { fuel.new.depth ≡ fuel.old.depth }
{
    match &field.initial {
        Some(code) => code_value(alloc, code, fuel),
        None => Ok(Some(default_of(&field.cs_type))),
    }
}

/// The initial values of fields, in their order, or None where some code is stuck.
pub fn initial_values(
    alloc: Global,
    fields: &[CompiledField],
    fuel: &mut Fuel,
) -> Result<Option<Items<Value>>, Fault>
    requires { fuel.old.depth ≡ 1 }
    ensures { Come result (initial_values fields.now fuel.old.left) }
{
    let mut values = Items::new(alloc);
    for field in fields {
        let Some(value) = initial_value(alloc, field, fuel)? else {
            return Ok(None);
        };
        if values.push(value).is_err() {
            return Err(Fault::Oom);
        }
    }
    Ok(Some(values))
}
