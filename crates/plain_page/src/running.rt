// Running the code of handlers.
ghost use Rattle.std.specs.Prelude.{◌≡◌, ◌<◌, ◌≤◌, length, None, IfOk};
ghost use Rattle.std.specs.Option.{option_copied};
ghost use Rattle.plain_page.specs.Running.{code_at, meaning_at, circuit_fault, Ran, CanRun};

use crate::present::Present;
use cs_ast::{Bodies, Code};
use cs_eval::{Fault, Fuel, Locals, run_code};
use first_click::Method;
use hub_messages::CircuitFault;
use sqlite_items::at;
use std::alloc::Global;
use text_core::Oom;

/// The units that each event may use.
const UNITS: u32 = 1_000_000;

/// The code of the handler with this id.
fn code_at<'a>(methods: &'a [Method], handlers: &[u32], handler: u64) -> Option<&'a Code>
    requires { 0 < handler }
    ensures { option_copied result ≡ code_at methods.now handlers.now handler }
{
    let position = *at(handlers, (handler - 1) as usize)?;
    let method = at(methods, position as usize)?;
    Some(&method.body)
}

/// The fault of the circuit that a fault of code is. Want of memory is none.
fn circuit_fault(fault: Fault) -> Option<CircuitFault>
    ensures { result ≡ circuit_fault fault }
{
    match fault {
        Fault::DivideByZero => Some(CircuitFault::DivideByZero),
        Fault::Overflow => Some(CircuitFault::Overflow),
        Fault::NullUse => Some(CircuitFault::NullUse),
        Fault::IndexOutOfRange => Some(CircuitFault::IndexOutOfRange),
        Fault::FuelSpent => Some(CircuitFault::FuelSpent),
        Fault::CallDepth => Some(CircuitFault::CallDepth),
        Fault::ValueTooLarge => Some(CircuitFault::ValueTooLarge),
        Fault::Oom => None,
    }
}

/// Runs the code of the handler with this id to its end, or to a fault.
pub(crate) fn run(
    alloc: Global,
    methods: &[Method],
    handlers: &[u32],
    handler: u64,
    present: &mut Present,
) -> Result<Option<CircuitFault>, Oom>
    requires able { ∥ CanRun present.old.fields.items methods.now handlers.now ∥₁ }
    requires some { 0 < handler }
    requires known { handler ≤ length handlers.now }
    ensures ran { IfOk result (λ fault. Ran fault present.old.fields.items present.new.fields.items
        (meaning_at present.old.fields.items (code_at methods.now handlers.now handler))) }
    ensures able { IfOk result (λ fault. fault ≡ None → ∥ CanRun present.new.fields.items methods.now handlers.now ∥₁) }
{
    let Some(code) = code_at(methods, handlers, handler) else {
        unreachable!()
    };
    let bodies = Bodies::new(alloc);
    let mut locals = Locals {
        values: Vec::new(alloc),
    };
    let mut fuel = Fuel {
        left: UNITS,
        depth: 0,
    };
    match run_code(alloc, code, &bodies, 1, &mut locals, present, &mut fuel) {
        Ok(_) => Ok(None),
        Err(fault) => match circuit_fault(fault) {
            Some(fault) => Ok(Some(fault)),
            None => Err(Oom),
        },
    }
}
