// Operators between values. Sums, differences and products wrap at 32 bits.
ghost use Rattle.std.specs.Prelude.{◌≡◌, ◌≤◌, ◌+ℤ◌, ◌-ℤ◌, ◌*ℤ◌, int_div, int_rem};
ghost use Rattle.std.specs.Int.{int_wrap, w32};
ghost use Rattle.cs_meaning.specs.State.{State, Fields};
ghost use Rattle.cs_meaning.specs.Kinds.{number_of};
ghost use Rattle.cs_meaning.specs.Equality.{is_same};
ghost use Rattle.cs_meaning.specs.Operators as spec;
ghost use Rattle.cs_eval.specs.Agrees.{Agrees, reached};

use crate::charging::new_text;
use crate::exit::Exit;
use crate::kinds::{is_null, number, string, truth};
use crate::progress::Progress;
use crate::texts::joined;
use cs_ast::{BinaryOp, CastOp, StepOp, UnaryOp, Value, same};
use cs_meaning::Fault;
use std::alloc::Global;

fn sum(x: i32, y: i32) -> i32
    ensures { result ≡ int_wrap w32 (x +ℤ y) }
{
    x.wrapping_add(y)
}

fn difference(x: i32, y: i32) -> i32
    ensures { result ≡ int_wrap w32 (x -ℤ y) }
{
    x.wrapping_sub(y)
}

fn product(x: i32, y: i32) -> i32
    ensures { result ≡ int_wrap w32 (x *ℤ y) }
{
    x.wrapping_mul(y)
}

fn quotient(x: i32, y: i32) -> Result<Value, Exit>
    ensures { (s : State) → Agrees result s (spec.divided x y (int_div x y) s) }
{
    if y == 0 {
        return Err(Exit::Fault(Fault::DivideByZero));
    }
    if x == i32::MIN && y == -1 {
        return Err(Exit::Fault(Fault::Overflow));
    }
    Ok(Value::Int(x / y))
}

fn remainder(x: i32, y: i32) -> Result<Value, Exit>
    ensures { (s : State) → Agrees result s (spec.divided x y (int_rem x y) s) }
{
    if y == 0 {
        return Err(Exit::Fault(Fault::DivideByZero));
    }
    if x == i32::MIN && y == -1 {
        return Err(Exit::Fault(Fault::Overflow));
    }
    Ok(Value::Int(x % y))
}

pub(crate) fn of_numbers(op: BinaryOp, x: i32, y: i32) -> Result<Value, Exit>
    ensures { (s : State) → Agrees result s (spec.of_numbers op x y s) }
{
    match op {
        BinaryOp::Less => Ok(Value::Bool(x < y)),
        BinaryOp::Greater => Ok(Value::Bool(x > y)),
        BinaryOp::LessOrEqual => Ok(Value::Bool(x <= y)),
        BinaryOp::GreaterOrEqual => Ok(Value::Bool(x >= y)),
        BinaryOp::Add => Ok(Value::Int(sum(x, y))),
        BinaryOp::Subtract => Ok(Value::Int(difference(x, y))),
        BinaryOp::Multiply => Ok(Value::Int(product(x, y))),
        BinaryOp::Divide => quotient(x, y),
        BinaryOp::Remainder => remainder(x, y),
        BinaryOp::Coalesce | BinaryOp::Or | BinaryOp::And | BinaryOp::Equal | BinaryOp::NotEqual =>
            Err(Exit::Stuck),
    }
}

fn between_numbers(op: BinaryOp, x: &Value, y: &Value) -> Result<Value, Exit>
    ensures { (s : State) → Agrees result s (spec.between_numbers op (number_of x.now) (number_of y.now) s) }
{
    match (number(x), number(y)) {
        (Some(x), Some(y)) => of_numbers(op, x, y),
        _ => Err(Exit::Stuck),
    }
}

/// Whether the value is a text, or null, which may be the value of one.
fn may_be_text(value: &Value) -> bool
    ensures { result ≡ spec.may_be_text value.now }
{
    is_null(value) || string(value).is_some()
}

fn added(alloc: Global, x: &Value, y: &Value, progress: &mut Progress) -> Result<Value, Exit>
    ensures means { (fields : Fields) → Agrees result (reached progress.new fields) (spec.added x.now y.now (reached progress.old fields)) }
    ensures spent { progress.new.left ≤ progress.old.left }
{
    if may_be_text(x) || may_be_text(y) {
        return new_text(joined(alloc, x, y)?, progress);
    }
    between_numbers(BinaryOp::Add, x, y)
}

pub(crate) fn equal(x: &Value, y: &Value) -> bool
    ensures { result ≡ is_same x.now y.now }
{
    same(x, y)
}

/// What an operator gives of two values.
pub(crate) fn of_values(
    alloc: Global,
    op: BinaryOp,
    x: &Value,
    y: &Value,
    progress: &mut Progress,
) -> Result<Value, Exit>
    ensures means { (fields : Fields) → Agrees result (reached progress.new fields) (spec.of_values op x.now y.now (reached progress.old fields)) }
    ensures spent { progress.new.left ≤ progress.old.left }
{
    match op {
        BinaryOp::Equal => Ok(Value::Bool(equal(x, y))),
        BinaryOp::NotEqual => Ok(Value::Bool(!equal(x, y))),
        BinaryOp::Add => added(alloc, x, y, progress),
        _ => between_numbers(op, x, y),
    }
}

/// What an operator gives of the value behind it.
pub(crate) fn of_value(op: UnaryOp, value: &Value) -> Result<Value, Exit>
    ensures { (s : State) → Agrees result s (spec.of_value op value.now s) }
{
    match op {
        UnaryOp::Minus => match number(value) {
            Some(n) => Ok(Value::Int(difference(0, n))),
            None => Err(Exit::Stuck),
        },
        UnaryOp::Plus => match number(value) {
            Some(n) => Ok(Value::Int(n)),
            None => Err(Exit::Stuck),
        },
        UnaryOp::Not => match truth(value) {
            Some(truth) => Ok(Value::Bool(!truth)),
            None => Err(Exit::Stuck),
        },
    }
}

/// A text in the type of a text, or null.
pub(crate) fn cast(op: CastOp, value: Value) -> Result<Value, Exit>
    ensures { (s : State) → Agrees result s (spec.cast op value s) }
{
    if may_be_text(&value) {
        return Ok(value);
    }
    Err(Exit::Stuck)
}

/// The operator by which `++` or `--` joins 1 to a number.
pub(crate) fn operator_of(op: StepOp) -> BinaryOp
    ensures { result ≡ spec.operator_of op }
{
    match op {
        StepOp::Increment => BinaryOp::Add,
        StepOp::Decrement => BinaryOp::Subtract,
    }
}
