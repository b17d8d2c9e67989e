// Code of all forms, run from a million units. Values, faults and units by hand.
use crate::building::{
    binary, causing, count_with, first_set, inner_breaks, invoked, less_call, literal, methods,
    no_locals, only_local, plus_call, removed, selecting, text, turns,
};
use cs_ast::{BinaryOp, Code, Value, same};
use cs_eval::{Fault, Fuel, Locals, Owners, Ran, try_run};
use std::alloc::Global;
use std::process::Abort;
use std::test::Fail;
use text_core::Oom;

/// The instances 1 and 2, each with one field.
#[derive(Drop)]
struct Held {
    first: Value,
    second: Value,
}

impl Owners for Held {
    ghost use Rattle.std.specs.Prelude.{◌==◌, ◌&&◌, if◌then◌else◌, Some, None};

    ghost Rest = { Unit {0} };

    ghost fields = { λ it who at. if who == 1 && at == 0 then Some it.first else if who == 2 && at == 0 then Some it.second else None };

    ghost parameters = { λ it who at. None };

    ghost rest = { λ it. tt };

    fn field(&self, who: u32, at: u32) -> Option<&Value> {
        match (who, at) {
            (1, 0) => Some(&self.first),
            (2, 0) => Some(&self.second),
            _ => None,
        }
    }

    fn set(&mut self, who: u32, at: u32, value: Value) -> bool {
        match (who, at) {
            (1, 0) => self.first = value,
            (2, 0) => self.second = value,
            _ => return false,
        }
        true
    }

    fn parameter(&self, _who: u32, _at: u32) -> Option<&Value> {
        None
    }
}

/// What came of a run: what it gave, or its fault; the fields of both instances, the locals, and the units left.
#[derive(Drop)]
struct End {
    outcome: Result<Ran, Fault>,
    owners: Held,
    locals: Locals,
    left: u32,
}

/// Runs code of instance 1, where both fields are 1, one call deep.
fn run(rt: &impl Abort, alloc: Global, code: &Code, locals: Locals) -> Result<End, Oom> {
    let bodies = methods(alloc)?;
    let mut locals = locals;
    let mut owners = Held {
        first: Value::Int(1),
        second: Value::Int(1),
    };
    let mut fuel = Fuel {
        left: 1_000_000,
        depth: 1,
    };
    let ran = try_run(alloc, code, &bodies, 1, &mut locals, &mut owners, &mut fuel);
    let outcome = match ran {
        Ok(Some(ran)) => Ok(ran),
        Ok(None) => panic!(rt; "the code is stuck"),
        Err(fault) => Err(fault),
    };
    Ok(End {
        outcome,
        owners,
        locals,
        left: fuel.left,
    })
}

/// Compares the value or the fault, and what is left of a million units.
fn ends(
    rt: &impl Abort,
    alloc: Global,
    code: Code,
    want: Result<Value, Fault>,
    left: u32,
) -> Result<(), Oom> {
    let end = run(rt, alloc, &code, no_locals(alloc))?;
    match (&end.outcome, &want) {
        (Ok(ran), Ok(want)) => assert!(rt; same(&ran.value, want), "{ran:?}"),
        (Err(fault), Err(want)) => assert!(rt; fault == want, "{fault:?}"),
        (outcome, _) => panic!(rt; "{outcome:?}"),
    }
    assert!(rt; end.left == left, "{} units left", end.left);
    Ok(())
}

/// `{ for (int i = 0; i < limit; i++) { } }` costs 7 + 5 * limit.
#[test]
fn loops_cost_units(rt: HostRuntime) -> Result<(), Fail> {
    let alloc = rt.alloc();
    for (limit, left) in &[(0, 999_993), (3, 999_978), (199_998, 3)] {
        ends(&rt, alloc, turns(alloc, *limit)?, Ok(Value::Null), *left)?;
    }
    ends(&rt, alloc, turns(alloc, 199_999)?, Err(Fault::FuelSpent), 0)?;
    Ok(())
}

/// The list costs seven units, each member one and its arguments.
#[test]
fn lists_have_places(rt: HostRuntime) -> Result<(), Fail> {
    let alloc = rt.alloc();
    let past = Err(Fault::IndexOutOfRange);
    ends(&rt, alloc, removed(alloc, 3)?, past, 999_991)?;
    ends(
        &rt,
        alloc,
        count_with(alloc, 3)?,
        Ok(Value::Int(4)),
        999_989,
    )?;
    ends(&rt, alloc, first_set(alloc)?, Ok(Value::Int(9)), 999_988)?;
    Ok(())
}

/// An operator, its operands, and what comes of them.
const NUMBERS: &[(BinaryOp, i32, i32, Result<i32, Fault>)] = &[
    (BinaryOp::Divide, i32::MIN, -1, Err(Fault::Overflow)),
    (BinaryOp::Remainder, i32::MIN, -1, Err(Fault::Overflow)),
    (BinaryOp::Remainder, 7, 0, Err(Fault::DivideByZero)),
    (BinaryOp::Divide, -7, 2, Ok(-3)),
    (BinaryOp::Remainder, -7, 2, Ok(-1)),
    (BinaryOp::Add, i32::MAX, 1, Ok(i32::MIN)),
    (BinaryOp::Multiply, i32::MAX, 2, Ok(-2)),
];

fn computes(
    rt: &impl Abort,
    alloc: Global,
    op: BinaryOp,
    x: i32,
    y: i32,
    want: Result<i32, Fault>,
) -> Result<(), Oom> {
    let code = binary(alloc, op, Code::Int(x), Code::Int(y))?;
    match want {
        Ok(number) => ends(rt, alloc, code, Ok(Value::Int(number)), 999_997),
        Err(fault) => ends(rt, alloc, code, Err(fault), 999_997),
    }
}

#[test]
fn numbers_are_computed(rt: HostRuntime) -> Result<(), Fail> {
    for (op, x, y, want) in NUMBERS {
        computes(&rt, rt.alloc(), *op, *x, *y, *want)?;
    }
    Ok(())
}

fn joins(rt: &impl Abort, alloc: Global, a: Code, b: Code, want: &str) -> Result<(), Oom> {
    let code = binary(alloc, BinaryOp::Add, a, b)?;
    ends(rt, alloc, code, Ok(text(alloc, want)?), 999_997)
}

#[test]
fn texts_are_joined(rt: HostRuntime) -> Result<(), Fail> {
    let alloc = rt.alloc();
    joins(&rt, alloc, Code::Null, Code::Null, "")?;
    joins(&rt, alloc, Code::Null, literal(alloc, "a")?, "a")?;
    joins(&rt, alloc, literal(alloc, "a")?, Code::Int(-1), "a-1")?;
    joins(&rt, alloc, Code::Bool(true), literal(alloc, "a")?, "Truea")?;
    joins(
        &rt,
        alloc,
        literal(alloc, "a")?,
        Code::Bool(false),
        "aFalse",
    )?;
    Ok(())
}

const SIZES: u32 = (2 << 14) - 2;

/// Each fault but that of memory. The first call costs one unit, and each of the 99 bodies that it leads to three. The text
/// costs four units before its loop, 14 turns of four, and what its values of 128 to 1,048,576 bytes cost.
const CAUSES: &[(Fault, u32)] = &[
    (Fault::DivideByZero, 999_997),
    (Fault::Overflow, 999_997),
    (Fault::NullUse, 999_998),
    (Fault::IndexOutOfRange, 999_991),
    (Fault::FuelSpent, 0),
    (Fault::CallDepth, 1_000_000 - 1 - 99 * 3),
    (Fault::ValueTooLarge, 999_996 - 14 * 4 - SIZES),
];

#[test]
fn faults_have_causes(rt: HostRuntime) -> Result<(), Fail> {
    let alloc = rt.alloc();
    for (fault, left) in CAUSES {
        ends(&rt, alloc, causing(alloc, *fault)?, Err(*fault), *left)?;
    }
    Ok(())
}

/// `n - M()` and `n += M()` read n before M changes it.
#[test]
fn operands_go_from_left_to_right(rt: HostRuntime) -> Result<(), Fail> {
    let alloc = rt.alloc();
    ends(&rt, alloc, less_call(alloc)?, Ok(Value::Int(-4)), 999_991)?;
    ends(&rt, alloc, plus_call(alloc)?, Ok(Value::Int(6)), 999_988)?;
    Ok(())
}

/// It set the field of instance 2 to what was captured, and was noted; nothing else changed.
fn has_called(end: &End) -> bool {
    let Ok(ran) = &end.outcome else {
        return false;
    };
    matches!(&ran.value, Value::Null)
        && ran.receivers.as_slice() == [2].as_slice()
        && matches!(&end.owners.first, Value::Int(1))
        && matches!(&end.owners.second, Value::Int(40))
        && end.locals.values.len() == 1
        && end.left == 999_994
}

fn calls(rt: &impl Abort, alloc: Global, code: Code, locals: Locals) -> Result<(), Oom> {
    let end = run(rt, alloc, &code, locals)?;
    assert!(rt; has_called(&end));
    Ok(())
}

#[test]
fn callbacks_run_in_their_receivers(rt: HostRuntime) -> Result<(), Fail> {
    let alloc = rt.alloc();
    let code = invoked(alloc)?;
    let locals = only_local(alloc)?;
    calls(&rt, alloc, code, locals)?;
    Ok(())
}

/// A `break` ends the inner loop alone: three turns of ten units, and nine before, between and behind them.
#[test]
fn breaks_end_one_loop(rt: HostRuntime) -> Result<(), Fail> {
    let alloc = rt.alloc();
    ends(&rt, alloc, inner_breaks(alloc)?, Ok(Value::Int(4)), 999_961)?;
    Ok(())
}

#[test]
fn sections_are_selected(rt: HostRuntime) -> Result<(), Fail> {
    let alloc = rt.alloc();
    for (value, want) in &[(2, 8), (5, 7)] {
        let code = selecting(alloc, *value)?;
        ends(&rt, alloc, code, Ok(Value::Int(*want)), 999_996)?;
    }
    Ok(())
}
