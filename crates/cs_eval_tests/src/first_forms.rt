// `run_code` and `eval` over two fields, which ask that the code isn't stuck: what the fields hold then, and the units left, by hand.
ghost use Rattle.std.specs.Prelude.{◌≡◌, ◌<◌, [], ◌∷◌, pos, IfOk};
ghost use Rattle.cs_ast.specs.declared.value.Value.TheVariants.{Int};
ghost use Rattle.cs_meaning.specs.FirstForms.{IsStatement};

use crate::building::no_locals;
use cs_ast::{Bodies, Code, StepOp, Value, Variable};
use cs_eval::{Fault, Fuel, Owners, eval, run_code};
use sqlite_items::{Boxed, Items};
use std::alloc::Global;
use std::process::Abort;
use std::test::Fail;
use text_core::Oom;

/// The fields of instance 1, and no parameters.
#[derive(Drop)]
struct Held {
    fields: Items<Value>,
}

impl Owners for Held {
    ghost use Rattle.std.specs.Prelude.{◌==◌, if◌then◌else◌, slice_get, None};

    ghost Rest = { Unit {0} };

    ghost fields = { λ it who at. if who == 1 then slice_get it.fields at else None };

    ghost parameters = { λ it who at. None };

    ghost rest = { λ it. tt };

    fn field(&self, who: u32, at: u32) -> Option<&Value> {
        if who != 1 {
            return None;
        }
        self.fields.get(at as usize)
    }

    fn set(&mut self, who: u32, at: u32, value: Value) -> bool {
        if who != 1 || self.fields.len() <= at as usize {
            return false;
        }
        self.fields.set(at as usize, value);
        true
    }

    fn parameter(&self, _who: u32, _at: u32) -> Option<&Value> {
        None
    }
}

fn zeros(alloc: Global) -> Result<Held, Oom>
    ensures { IfOk result (λ owners. owners.fields ≡ Int (pos 0) ∷ Int (pos 0) ∷ []) }
{
    let mut fields = Items::new(alloc);
    fields.push(Value::Int(0))?;
    fields.push(Value::Int(0))?;
    Ok(Held { fields })
}

fn stepped(alloc: Global, at: u32, op: StepOp) -> Result<Code, Oom>
    requires { at < 2 }
    ensures { IfOk result (λ code. IsStatement 2 code) }
{
    let step = Code::Step(Variable::Field(at), op);
    Ok(Code::Perform(Boxed::new(alloc, step)?))
}

/// A block of these two statements.
fn block(alloc: Global, first: Code, second: Code) -> Result<Code, Oom>
    requires first { IsStatement 2 first }
    requires second { IsStatement 2 second }
    ensures { IfOk result (λ code. IsStatement 2 code) }
{
    let mut statements = Items::new(alloc);
    statements.push(first)?;
    statements.push(second)?;
    Ok(Code::Block(statements))
}

/// `{ n++; m--; }`
fn steps_in_block(alloc: Global) -> Result<Code, Oom>
    ensures { IfOk result (λ code. IsStatement 2 code) }
{
    let first = stepped(alloc, 0, StepOp::Increment)?;
    let second = stepped(alloc, 1, StepOp::Decrement)?;
    block(alloc, first, second)
}

/// The value of a field of instance 1, which is a number.
fn number_at(rt: &impl Abort, owners: &Held, at: u32) -> i32 {
    match owners.field(1, at) {
        Some(Value::Int(n)) => *n,
        _ => panic!(rt; "field {at} is no number"),
    }
}

/// What came of a run: its fault if there was one, the two fields, and the units left.
type End = (Option<Fault>, [i32; 2], u32);

fn numbers(rt: &impl Abort, owners: &Held) -> [i32; 2] {
    [number_at(rt, owners, 0), number_at(rt, owners, 1)]
}

/// Runs the code from zeros.
fn run(rt: &impl Abort, alloc: Global, code: &Code, left: u32) -> Result<End, Oom>
    requires { IsStatement 2 code.now }
{
    let mut owners = zeros(alloc)?;
    let mut locals = no_locals(alloc);
    let mut fuel = Fuel { left, depth: 1 };
    let bodies = Bodies::new(alloc);
    let ran = run_code(alloc, code, &bodies, 1, &mut locals, &mut owners, &mut fuel);
    let fault = match ran {
        Ok(ran) => {
            assert!(rt; matches!(&ran.value, Value::Null) && ran.receivers.is_empty());
            None
        }
        Err(fault) => Some(fault),
    };
    Ok((fault, numbers(rt, &owners), fuel.left))
}

/// Evaluates the code over zeros.
fn evaluated(rt: &impl Abort, alloc: Global, code: &Code, left: u32) -> Result<End, Oom>
    requires { IsStatement 2 code.now }
{
    let owners = zeros(alloc)?;
    let mut locals = no_locals(alloc);
    let mut fuel = Fuel { left, depth: 1 };
    let bodies = Bodies::new(alloc);
    let value = eval(alloc, code, &bodies, 1, &mut locals, &owners, &mut fuel);
    let fault = match value {
        Ok(value) => {
            assert!(rt; matches!(&value, Value::Null));
            None
        }
        Err(fault) => Some(fault),
    };
    Ok((fault, numbers(rt, &owners), fuel.left))
}

/// Runs `{ n++; m--; }` with so many units.
fn runs(rt: &impl Abort, alloc: Global, left: u32, want: End) -> Result<(), Oom> {
    let code = steps_in_block(alloc)?;
    let end = run(rt, alloc, &code, left)?;
    assert!(rt; end == want, "{left} units");
    Ok(())
}

/// Evaluates it with so many units.
fn evaluates(rt: &impl Abort, alloc: Global, left: u32, want: End) -> Result<(), Oom> {
    let code = steps_in_block(alloc)?;
    let end = evaluated(rt, alloc, &code, left)?;
    assert!(rt; end == want, "{left} units");
    Ok(())
}

/// One unit for the block, and two for each statement.
#[test]
fn statements_cost_units(rt: HostRuntime) -> Result<(), Fail> {
    let alloc = rt.alloc();
    let spent = Some(Fault::FuelSpent);
    runs(&rt, alloc, 0, (spent, [0, 0], 0))?;
    runs(&rt, alloc, 2, (spent, [0, 0], 0))?;
    runs(&rt, alloc, 3, (spent, [1, 0], 0))?;
    runs(&rt, alloc, 4, (spent, [1, 0], 0))?;
    runs(&rt, alloc, 5, (None, [1, -1], 0))?;
    runs(&rt, alloc, 6, (None, [1, -1], 1))?;
    Ok(())
}

/// To evaluate costs the same, and changes nothing.
#[test]
fn evaluations_cost_units(rt: HostRuntime) -> Result<(), Fail> {
    let alloc = rt.alloc();
    let spent = Some(Fault::FuelSpent);
    evaluates(&rt, alloc, 0, (spent, [0, 0], 0))?;
    evaluates(&rt, alloc, 4, (spent, [0, 0], 0))?;
    evaluates(&rt, alloc, 5, (None, [0, 0], 0))?;
    evaluates(&rt, alloc, 6, (None, [0, 0], 1))?;
    Ok(())
}
