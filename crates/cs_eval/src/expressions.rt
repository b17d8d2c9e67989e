// Expressions with several parts, and assignments.
ghost use Rattle.std.specs.Prelude.{◌≡◌, ◌≤◌, map};
ghost use Rattle.cs_ast.specs.declared.value.Value.TheVariants.{Bool};
ghost use Rattle.cs_meaning.specs.State.{State};
ghost use Rattle.cs_meaning.specs.Outcome.{gives, and_then, found};
ghost use Rattle.cs_meaning.specs.Kinds.{truth_of};
ghost use Rattle.cs_meaning.specs.Expressions as spec;
ghost use Rattle.cs_meaning.specs.Scopes.{all_of};
ghost use Rattle.cs_meaning.specs.Variables as variables;
ghost use Rattle.cs_eval.specs.Agrees.{Agrees, AgreesAs, meaning_in, reached};

use crate::charging::{made, required};
use crate::evaluator::evaluate;
use crate::exit::Exit;
use crate::kinds::{Parts, is_null, truth};
use crate::operators::of_values;
use crate::progress::{Around, Progress};
use crate::reading::{use_record, with_parts};
use crate::store::Store;
use crate::variables::{operator_in, put, value_at};
use cs_ast::{AssignOp, BinaryOp, Code, Value, Variable};

/// The values of expressions, from left to right.
#[cycle(evaluator)]
#[tactic(auto, using(crate::proofs::OutcomeLemmas::all_behind), unfolding(cs_meaning::specs::Scopes::all_of))]
pub(crate) fn all<S: Store>(
    around: &Around<'_>,
    parts: &[Code],
    progress: &mut Progress,
    store: &mut S,
) -> Result<Vec<Value>, Exit>
    ensures means { let run = meaning_in around.now (S.parameters store.old) in
        AgreesAs (λ values. values.items) result (reached progress.new (S.fields store.new))
        (all_of (map run parts.now) (reached progress.old (S.fields store.old))) }
    ensures parameters { S.parameters store.new ≡ S.parameters store.old }
    ensures rest { S.rest store.new ≡ S.rest store.old }
    ensures spent { progress.new.left ≤ progress.old.left }
{
    let mut values = Vec::new(around.alloc);
    for part in parts {
        values.push(evaluate(around, part, progress, store)?)?;
    }
    Ok(values)
}

/// A value that has to be true or false.
fn truthful(value: &Value) -> Result<Value, Exit>
    ensures { (s : State) → Agrees result s (and_then (found (truth_of value.now) s) (λ truth s1. gives (Bool truth) s1)) }
{
    match truth(value) {
        Some(truth) => Ok(Value::Bool(truth)),
        None => Err(Exit::Stuck),
    }
}

/// An operator between two operands; the second of `&&`, `||` and `??` only where it is needed.
#[cycle(evaluator)]
pub(crate) fn binary<S: Store>(
    around: &Around<'_>,
    op: BinaryOp,
    a: &Code,
    b: &Code,
    progress: &mut Progress,
    store: &mut S,
) -> Result<Value, Exit>
    ensures means { let run = meaning_in around.now (S.parameters store.old) in
        Agrees result (reached progress.new (S.fields store.new))
        (spec.binary op (run a.now) (run b.now) (reached progress.old (S.fields store.old))) }
    ensures parameters { S.parameters store.new ≡ S.parameters store.old }
    ensures rest { S.rest store.new ≡ S.rest store.old }
    ensures spent { progress.new.left ≤ progress.old.left }
{
    let x = evaluate(around, a, progress, store)?;
    match op {
        BinaryOp::And => match truth(&x) {
            Some(true) => truthful(&evaluate(around, b, progress, store)?),
            Some(false) => Ok(Value::Bool(false)),
            None => Err(Exit::Stuck),
        },
        BinaryOp::Or => match truth(&x) {
            Some(true) => Ok(Value::Bool(true)),
            Some(false) => truthful(&evaluate(around, b, progress, store)?),
            None => Err(Exit::Stuck),
        },
        BinaryOp::Coalesce if is_null(&x) => evaluate(around, b, progress, store),
        BinaryOp::Coalesce => Ok(x),
        _ => {
            let y = evaluate(around, b, progress, store)?;
            of_values(around.alloc, op, &x, &y, progress)
        }
    }
}

/// `a ? b : c`
#[cycle(evaluator)]
pub(crate) fn conditional<S: Store>(
    around: &Around<'_>,
    a: &Code,
    b: &Code,
    c: &Code,
    progress: &mut Progress,
    store: &mut S,
) -> Result<Value, Exit>
    ensures means { let run = meaning_in around.now (S.parameters store.old) in
        Agrees result (reached progress.new (S.fields store.new))
        (spec.conditional (run a.now) (run b.now) (run c.now) (reached progress.old (S.fields store.old))) }
    ensures parameters { S.parameters store.new ≡ S.parameters store.old }
    ensures rest { S.rest store.new ≡ S.rest store.old }
    ensures spent { progress.new.left ≤ progress.old.left }
{
    let x = evaluate(around, a, progress, store)?;
    match truth(&x) {
        Some(true) => evaluate(around, b, progress, store),
        Some(false) => evaluate(around, c, progress, store),
        None => Err(Exit::Stuck),
    }
}

/// A new record with other parts at these positions.
#[cycle(evaluator)]
pub(crate) fn record_with<S: Store>(
    around: &Around<'_>,
    a: &Code,
    positions: &[u32],
    values: &[Code],
    progress: &mut Progress,
    store: &mut S,
) -> Result<Value, Exit>
    ensures means { let run = meaning_in around.now (S.parameters store.old) in
        Agrees result (reached progress.new (S.fields store.new))
        (spec.record_with (run a.now) positions.now (map run values.now) (reached progress.old (S.fields store.old))) }
    ensures parameters { S.parameters store.new ≡ S.parameters store.old }
    ensures rest { S.rest store.new ≡ S.rest store.old }
    ensures spent { progress.new.left ≤ progress.old.left }
{
    let x = evaluate(around, a, progress, store)?;
    let Parts { kind, parts } = use_record(x)?;
    let values = all(around, values, progress, store)?;
    let alloc = around.alloc;
    let parts = required(with_parts(alloc, positions, values.as_slice(), parts)?)?;
    made(Value::Rec { kind, parts }, progress)
}

/// An assignment.
#[cycle(evaluator)]
pub(crate) fn assign<S: Store>(
    around: &Around<'_>,
    target: Variable,
    op: AssignOp,
    e: &Code,
    progress: &mut Progress,
    store: &mut S,
) -> Result<Value, Exit>
    ensures means { let run = meaning_in around.now (S.parameters store.old) in
        Agrees result (reached progress.new (S.fields store.new))
        (variables.assigned around.now.who target (variables.operator_in op) (run e.now) (reached progress.old (S.fields store.old))) }
    ensures parameters { S.parameters store.new ≡ S.parameters store.old }
    ensures rest { S.rest store.new ≡ S.rest store.old }
    ensures spent { progress.new.left ≤ progress.old.left }
{
    let Some(op) = operator_in(op) else {
        let value = evaluate(around, e, progress, store)?;
        return put(around, target, value, progress, store);
    };
    let old = value_at(around, target, progress, store)?;
    let x = evaluate(around, e, progress, store)?;
    let value = of_values(around.alloc, op, &old, &x, progress)?;
    put(around, target, value, progress, store)
}
