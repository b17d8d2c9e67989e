// Own fields and locals that change.
ghost use Rattle.std.specs.Prelude.{◌≡◌, ◌≤◌, ℕ, pos, IfOk};
ghost use Rattle.cs_ast.specs.declared.code.BindKind.TheVariants as bind;
ghost use Rattle.cs_ast.specs.declared.code.Variable.TheVariants as variable;
ghost use Rattle.cs_meaning.specs.State.{State, Fields};
ghost use Rattle.cs_meaning.specs.Kinds.{number_of};
ghost use Rattle.cs_meaning.specs.Operators as operators;
ghost use Rattle.cs_meaning.specs.Outcome.{found as is_found, and_then};
ghost use Rattle.cs_meaning.specs.Variables as spec;
ghost use Rattle.cs_eval.specs.Agrees.{Agrees, reached};

use crate::exit::Exit;
use crate::kinds::number;
use crate::operators::{of_numbers, operator_of};
use crate::progress::{Around, Progress};
use crate::reading::found;
use crate::store::Store;
use cs_ast::{AssignOp, BinaryOp, BindKind, StepOp, Value, Variable};
use sqlite_items::at as item_at;
use text_core::{Oom, Txt, read_i32};

/// The value that a variable has.
pub(crate) fn value_at<S: Store>(
    around: &Around<'_>,
    target: Variable,
    progress: &Progress,
    store: &S,
) -> Result<Value, Exit>
    ensures { (s : State) → Agrees result s (is_found (spec.value_at around.now.who target (reached progress.now (S.fields store.now))) s) }
{
    match target {
        Variable::Field(at) => found(around.alloc, store.get(around.who, at)),
        Variable::Local(at) => found(
            around.alloc,
            item_at(progress.locals.as_slice(), at as usize),
        ),
    }
}

/// Gives an own field a value.
fn put_field<S: Store>(
    around: &Around<'_>,
    at: u32,
    value: Value,
    progress: &Progress,
    store: &mut S,
) -> Result<Value, Exit>
    ensures means { Agrees result (reached progress.now (S.fields store.new))
        (spec.put around.now.who (variable.Field at) value (reached progress.now (S.fields store.old))) }
    ensures parameters { S.parameters store.new ≡ S.parameters store.old }
    ensures rest { S.rest store.new ≡ S.rest store.old }
{
    if store.put(around.alloc, around.who, at, value)? {
        Ok(Value::Null)
    } else {
        Err(Exit::Stuck)
    }
}

/// Gives a local a value.
fn put_local(at: u32, value: Value, progress: &mut Progress) -> Result<Value, Exit>
    ensures means { (fields : Fields) (who : ℕ) → Agrees result (reached progress.new fields)
        (spec.put who (variable.Local at) value (reached progress.old fields)) }
    ensures left { progress.new.left ≡ progress.old.left }
{
    if at as usize >= progress.locals.len() {
        return Err(Exit::Stuck);
    }
    progress.locals[at as usize] = value;
    Ok(Value::Null)
}

/// Gives a variable a value.
pub(crate) fn put<S: Store>(
    around: &Around<'_>,
    target: Variable,
    value: Value,
    progress: &mut Progress,
    store: &mut S,
) -> Result<Value, Exit>
    ensures means { Agrees result (reached progress.new (S.fields store.new))
        (spec.put around.now.who target value (reached progress.old (S.fields store.old))) }
    ensures parameters { S.parameters store.new ≡ S.parameters store.old }
    ensures rest { S.rest store.new ≡ S.rest store.old }
    ensures spent { progress.new.left ≤ progress.old.left }
{
    match target {
        Variable::Field(at) => put_field(around, at, value, progress, store),
        Variable::Local(at) => put_local(at, value, progress),
    }
}

/// The operator of `+=` and its kin.
pub(crate) fn operator_in(op: AssignOp) -> Option<BinaryOp>
    ensures { result ≡ spec.operator_in op }
{
    match op {
        AssignOp::Set => None,
        AssignOp::Add => Some(BinaryOp::Add),
        AssignOp::Subtract => Some(BinaryOp::Subtract),
        AssignOp::Multiply => Some(BinaryOp::Multiply),
        AssignOp::Divide => Some(BinaryOp::Divide),
        AssignOp::Remainder => Some(BinaryOp::Remainder),
    }
}

/// One more than a number, or one less.
fn next_number(op: StepOp, value: &Value) -> Result<Value, Exit>
    ensures { (s : State) → Agrees result s (and_then (is_found (number_of value.now) s) (λ n s1. operators.of_numbers (operators.operator_of op) n (pos 1) s1)) }
{
    match number(value) {
        Some(n) => of_numbers(operator_of(op), n, 1),
        None => Err(Exit::Stuck),
    }
}

/// `x++` or `x--`.
pub(crate) fn stepped<S: Store>(
    around: &Around<'_>,
    target: Variable,
    op: StepOp,
    progress: &mut Progress,
    store: &mut S,
) -> Result<Value, Exit>
    ensures means { Agrees result (reached progress.new (S.fields store.new))
        (spec.stepped around.now.who target op (reached progress.old (S.fields store.old))) }
    ensures parameters { S.parameters store.new ≡ S.parameters store.old }
    ensures rest { S.rest store.new ≡ S.rest store.old }
    ensures spent { progress.new.left ≤ progress.old.left }
{
    let value = value_at(around, target, progress, store)?;
    let next = next_number(op, &value)?;
    put(around, target, next, progress, store)
}

/// The value that a bound field takes from a text, where it can be read.
fn readable(kind: BindKind, text: &Txt) -> Result<Option<Value>, Oom>
    ensures { IfOk result (λ value. value ≡ spec.readable kind text.now) }
{
    match kind {
        BindKind::Text => Ok(Some(Value::Text(text.clone()?))),
        BindKind::Int => match read_i32(text) {
            Some(n) => Ok(Some(Value::Int(n))),
            None => Ok(None),
        },
        BindKind::Bool => Ok(truth_in(text)),
    }
}

fn truth_in(text: &Txt) -> Option<Value>
    ensures { result ≡ spec.readable bind.Bool text.now }
{
    if text.is("true") || text.is("True") {
        Some(Value::Bool(true))
    } else if text.is("false") || text.is("False") {
        Some(Value::Bool(false))
    } else {
        None
    }
}

/// Gives a bound field the text of an event, which is the first local.
pub(crate) fn bound<S: Store>(
    around: &Around<'_>,
    at: u32,
    kind: BindKind,
    progress: &Progress,
    store: &mut S,
) -> Result<Value, Exit>
    ensures means { Agrees result (reached progress.now (S.fields store.new))
        (spec.bound around.now.who at kind (reached progress.now (S.fields store.old))) }
    ensures parameters { S.parameters store.new ≡ S.parameters store.old }
    ensures rest { S.rest store.new ≡ S.rest store.old }
{
    let Some(Value::Text(text)) = item_at(progress.locals.as_slice(), 0) else {
        return Err(Exit::Stuck);
    };
    match readable(kind, text)? {
        Some(value) => put_field(around, at, value, progress, store),
        None => Ok(Value::Null),
    }
}
