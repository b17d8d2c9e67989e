// Calls of methods and callbacks.
ghost use Rattle.std.specs.Prelude.{◌≡◌, ◌≤◌, [], ◌∷◌, ◌++◌, map, option_map, IfOk};
ghost use Rattle.std.specs.Option.{option_copied};
ghost use Rattle.cs_meaning.specs.Calls as spec;
ghost use Rattle.cs_meaning.specs.Expressions.{two_operands};
ghost use Rattle.cs_meaning.specs.Meaning.{running};
ghost use Rattle.cs_meaning.specs.Scopes as scopes;
ghost use Rattle.cs_eval.specs.Agrees.{Agrees, meaning_in, reached, setting_in};

use crate::copying::copy;
use crate::ending::end_body;
use crate::evaluator::evaluate;
use crate::exit::Exit;
use crate::expressions::all;
use crate::kinds::{Bound, into_callback, is_null};
use crate::progress::{Around, Progress};
use crate::statements::optional;
use crate::store::Store;
use cs_ast::{Code, Value};
use cs_meaning::Fault;
use std::alloc::{AllocError, AllocFailed, Global};
use std::mem;

/// How deep calls may be.
const DEEPEST: u32 = 100;

/// The locals of a body that gets these arguments: one at least.
fn filled(mut arguments: Vec<Value>) -> Result<Vec<Value>, AllocFailed<Value>>
    ensures { IfOk result (λ locals. locals.items ≡ spec.filled arguments.items) }
{
    if arguments.is_empty() {
        arguments.push(Value::Null)?;
    }
    Ok(arguments)
}

/// Copies of captured values.
fn copies(alloc: Global, captures: &[Value]) -> Result<Vec<Value>, AllocError>
    ensures { IfOk result (λ locals. locals.items ≡ captures.now) }
{
    let mut locals = Vec::new(alloc);
    for value in captures {
        locals.push(copy(alloc, value)?)?;
    }
    Ok(locals)
}

/// The locals of a callback: its captures, and its argument.
fn with_argument(
    alloc: Global,
    captures: &[Value],
    argument: Value,
) -> Result<Vec<Value>, AllocError>
    ensures { IfOk result (λ locals. locals.items ≡ captures.now ++ argument ∷ []) }
{
    let mut locals = copies(alloc, captures)?;
    locals.push(argument)?;
    Ok(locals)
}

/// Runs a body over locals of its own.
#[cycle(evaluator)]
fn enter<S: Store>(
    around: &Around<'_>,
    who: u32,
    number: u32,
    locals: Vec<Value>,
    progress: &mut Progress,
    store: &mut S,
) -> Result<Value, Exit>
    ensures means { Agrees result (reached progress.new (S.fields store.new))
        (running (setting_in around.now (S.parameters store.old)) who number locals.items (reached progress.old (S.fields store.old))) }
    ensures parameters { S.parameters store.new ≡ S.parameters store.old }
    ensures rest { S.rest store.new ≡ S.rest store.old }
    ensures spent { progress.new.left ≤ progress.old.left }
{
    if around.depth >= DEEPEST {
        return Err(Exit::Fault(Fault::CallDepth));
    }
    let Some(body) = around.bodies.get(number) else {
        return Err(Exit::Stuck);
    };
    let inside = Around {
        alloc: around.alloc,
        bodies: around.bodies,
        who,
        depth: around.depth + 1,
    };
    let outer = mem::replace(&mut progress.locals, locals);
    let outcome = evaluate(&inside, body, progress, store);
    end_body(outer, outcome, progress)
}

/// A call of a method of the own instance.
#[cycle(evaluator)]
pub(crate) fn call<S: Store>(
    around: &Around<'_>,
    number: u32,
    arguments: &[Code],
    progress: &mut Progress,
    store: &mut S,
) -> Result<Value, Exit>
    ensures means { let run = meaning_in around.now (S.parameters store.old) in
        Agrees result (reached progress.new (S.fields store.new))
        (spec.called (running (setting_in around.now (S.parameters store.old))) around.now.who number (map run arguments.now) (reached progress.old (S.fields store.old))) }
    ensures parameters { S.parameters store.new ≡ S.parameters store.old }
    ensures rest { S.rest store.new ≡ S.rest store.old }
    ensures spent { progress.new.left ≤ progress.old.left }
{
    let arguments = all(around, arguments, progress, store)?;
    let locals = filled(arguments)?;
    enter(around, around.who, number, locals, progress, store)
}

/// A call of a callback, in its receiver; one that isn't set does nothing.
#[cycle(evaluator)]
pub(crate) fn invoke<S: Store>(
    around: &Around<'_>,
    target: &Code,
    argument: Option<&Code>,
    progress: &mut Progress,
    store: &mut S,
) -> Result<Value, Exit>
    ensures means { let run = meaning_in around.now (S.parameters store.old) in
        Agrees result (reached progress.new (S.fields store.new))
        (two_operands (run target.now) (scopes.if_there (option_map run (option_copied argument.entry))) (spec.invoked (running (setting_in around.now (S.parameters store.old)))) (reached progress.old (S.fields store.old))) }
    ensures parameters { S.parameters store.new ≡ S.parameters store.old }
    ensures rest { S.rest store.new ≡ S.rest store.old }
    ensures spent { progress.new.left ≤ progress.old.left }
{
    let x = evaluate(around, target, progress, store)?;
    let argument = optional(around, argument, progress, store)?;
    if is_null(&x) {
        return Ok(Value::Null);
    }
    let Some(callback) = into_callback(x) else {
        return Err(Exit::Stuck);
    };
    let Bound {
        who,
        place,
        captures,
    } = callback;
    let locals = with_argument(around.alloc, captures.as_slice(), argument)?;
    progress.receivers.push(who)?;
    enter(around, who, place, locals, progress, store)?;
    Ok(Value::Null)
}
