// Loops.
ghost use Rattle.std.specs.Prelude.{◌≡◌, ◌≤◌, option_map};
ghost use Rattle.std.specs.Option.{option_copied};
ghost use Rattle.cs_meaning.specs.State.{with_local};
ghost use Rattle.cs_meaning.specs.Outcome.{and_then};
ghost use Rattle.cs_meaning.specs.Scopes as scopes;
ghost use Rattle.cs_meaning.specs.Statements as spec;
ghost use Rattle.cs_eval.specs.Agrees.{Agrees, meaning_in, reached};

use crate::copying::copy;
use crate::ending::{end_scope, goes_on};
use crate::evaluator::evaluate;
use crate::exit::Exit;
use crate::kinds::truth;
use crate::progress::{Around, Progress};
use crate::reading::use_items;
use crate::statements::{optional, scoped};
use crate::store::Store;
use cs_ast::{Code, Value};
use cs_meaning::Fault;

/// The test of a loop, which is true where there is none.
#[cycle(evaluator)]
fn tested<S: Store>(
    around: &Around<'_>,
    test: Option<&Code>,
    progress: &mut Progress,
    store: &mut S,
) -> Result<Value, Exit>
    ensures means { let run = meaning_in around.now (S.parameters store.old) in
        Agrees result (reached progress.new (S.fields store.new))
        (spec.test_of (option_map run (option_copied test.entry)) (reached progress.old (S.fields store.old))) }
    ensures parameters { S.parameters store.new ≡ S.parameters store.old }
    ensures rest { S.rest store.new ≡ S.rest store.old }
    ensures spent { progress.new.left ≤ progress.old.left }
{
    match test {
        Some(test) => evaluate(around, test, progress, store),
        None => Ok(Value::Bool(true)),
    }
}

/// Turns of a loop, each of which pays a unit at least.
#[cycle(evaluator)]
#[tactic(auto, using(cs_meaning::proofs::RecursionLaws::turns_more, cs_meaning::proofs::RecursionLaws::turns_none))]
fn repeat<S: Store>(
    around: &Around<'_>,
    test: Option<&Code>,
    body: &Code,
    step: Option<&Code>,
    progress: &mut Progress,
    store: &mut S,
) -> Result<Value, Exit>
    ensures means { let run = meaning_in around.now (S.parameters store.old) in
        Agrees result (reached progress.new (S.fields store.new))
        (scopes.loop (spec.test_of (option_map run (option_copied test.entry))) (run body.now) (scopes.if_there (option_map run (option_copied step.entry))) (reached progress.old (S.fields store.old))) }
    ensures parameters { S.parameters store.new ≡ S.parameters store.old }
    ensures rest { S.rest store.new ≡ S.rest store.old }
    ensures spent { progress.new.left ≤ progress.old.left }
{
    let mut most = u64::from(progress.left) + 1;
    while most > 0 {
        let x = tested(around, test, progress, store)?;
        match truth(&x) {
            None => return Err(Exit::Stuck),
            Some(false) => return Ok(Value::Null),
            Some(true) => {}
        }
        if !goes_on(scoped(around, body, progress, store))? {
            return Ok(Value::Null);
        }
        optional(around, step, progress, store)?;
        most -= 1;
    }
    progress.left = 0;
    Err(Exit::Fault(Fault::FuelSpent))
}

/// `while`.
#[cycle(evaluator)]
pub(crate) fn while_loop<S: Store>(
    around: &Around<'_>,
    test: &Code,
    body: &Code,
    progress: &mut Progress,
    store: &mut S,
) -> Result<Value, Exit>
    ensures means { let run = meaning_in around.now (S.parameters store.old) in
        Agrees result (reached progress.new (S.fields store.new))
        (spec.while_loop (run test.now) (run body.now) (reached progress.old (S.fields store.old))) }
    ensures parameters { S.parameters store.new ≡ S.parameters store.old }
    ensures rest { S.rest store.new ≡ S.rest store.old }
    ensures spent { progress.new.left ≤ progress.old.left }
{
    repeat(around, Some(test), body, None, progress, store)
}

/// `for`, whose start is in the scope of the whole loop.
#[cycle(evaluator)]
pub(crate) fn for_loop<S: Store>(
    around: &Around<'_>,
    start: Option<&Code>,
    test: Option<&Code>,
    step: Option<&Code>,
    body: &Code,
    progress: &mut Progress,
    store: &mut S,
) -> Result<Value, Exit>
    ensures means { let run = meaning_in around.now (S.parameters store.old) in
        Agrees result (reached progress.new (S.fields store.new))
        (spec.for_loop (option_map run (option_copied start.entry)) (option_map run (option_copied test.entry)) (option_map run (option_copied step.entry)) (run body.now) (reached progress.old (S.fields store.old))) }
    ensures parameters { S.parameters store.new ≡ S.parameters store.old }
    ensures rest { S.rest store.new ≡ S.rest store.old }
    ensures spent { progress.new.left ≤ progress.old.left }
{
    let count = progress.locals.len();
    let outcome = for_turns(around, start, test, step, body, progress, store);
    end_scope(count, outcome, progress)
}

/// The start of a `for`, and its turns.
#[cycle(evaluator)]
fn for_turns<S: Store>(
    around: &Around<'_>,
    start: Option<&Code>,
    test: Option<&Code>,
    step: Option<&Code>,
    body: &Code,
    progress: &mut Progress,
    store: &mut S,
) -> Result<Value, Exit>
    ensures means { let run = meaning_in around.now (S.parameters store.old) in
        Agrees result (reached progress.new (S.fields store.new))
        (and_then (scopes.if_there (option_map run (option_copied start.entry)) (reached progress.old (S.fields store.old)))
        (λ x s1. scopes.loop (spec.test_of (option_map run (option_copied test.entry))) (run body.now) (scopes.if_there (option_map run (option_copied step.entry))) s1)) }
    ensures parameters { S.parameters store.new ≡ S.parameters store.old }
    ensures rest { S.rest store.new ≡ S.rest store.old }
    ensures spent { progress.new.left ≤ progress.old.left }
{
    optional(around, start, progress, store)?;
    repeat(around, test, body, step, progress, store)
}

/// The body with an item as a new local.
#[cycle(evaluator)]
fn turn<S: Store>(
    around: &Around<'_>,
    item: Value,
    body: &Code,
    progress: &mut Progress,
    store: &mut S,
) -> Result<Value, Exit>
    ensures means { let run = meaning_in around.now (S.parameters store.old) in
        Agrees result (reached progress.new (S.fields store.new))
        (scopes.scoped (λ s1. run body.now (with_local item s1)) (reached progress.old (S.fields store.old))) }
    ensures parameters { S.parameters store.new ≡ S.parameters store.old }
    ensures rest { S.rest store.new ≡ S.rest store.old }
    ensures spent { progress.new.left ≤ progress.old.left }
{
    let count = progress.locals.len();
    progress.locals.push(item)?;
    let outcome = evaluate(around, body, progress, store);
    end_scope(count, outcome, progress)
}

/// A turn for each item.
#[cycle(evaluator)]
#[tactic(auto, unfolding(cs_meaning::specs::Scopes::each_of))]
fn each<S: Store>(
    around: &Around<'_>,
    items: &[Value],
    body: &Code,
    progress: &mut Progress,
    store: &mut S,
) -> Result<Value, Exit>
    ensures means { let run = meaning_in around.now (S.parameters store.old) in
        Agrees result (reached progress.new (S.fields store.new))
        (scopes.each_of items.now (run body.now) (reached progress.old (S.fields store.old))) }
    ensures parameters { S.parameters store.new ≡ S.parameters store.old }
    ensures rest { S.rest store.new ≡ S.rest store.old }
    ensures spent { progress.new.left ≤ progress.old.left }
{
    for item in items {
        let item = copy(around.alloc, item)?;
        if !goes_on(turn(around, item, body, progress, store))? {
            return Ok(Value::Null);
        }
    }
    Ok(Value::Null)
}

/// `foreach`, which takes its list once.
#[cycle(evaluator)]
pub(crate) fn for_each<S: Store>(
    around: &Around<'_>,
    list: &Code,
    body: &Code,
    progress: &mut Progress,
    store: &mut S,
) -> Result<Value, Exit>
    ensures means { let run = meaning_in around.now (S.parameters store.old) in
        Agrees result (reached progress.new (S.fields store.new))
        (spec.for_each (run list.now) (run body.now) (reached progress.old (S.fields store.old))) }
    ensures parameters { S.parameters store.new ≡ S.parameters store.old }
    ensures rest { S.rest store.new ≡ S.rest store.old }
    ensures spent { progress.new.left ≤ progress.old.left }
{
    let x = evaluate(around, list, progress, store)?;
    let items = use_items(x)?;
    each(around, items.as_slice(), body, progress, store)
}
