// Statements with several parts, and scopes.
ghost use Rattle.std.specs.Prelude.{◌≡◌, ◌≤◌, map, option_map};
ghost use Rattle.std.specs.Option.{option_copied};
ghost use Rattle.cs_meaning.specs.Scopes as scopes;
ghost use Rattle.cs_meaning.specs.Sections as labels;
ghost use Rattle.cs_meaning.specs.Statements as spec;
ghost use Rattle.cs_meaning.specs.Variables as variables;
ghost use Rattle.cs_eval.specs.Agrees.{Agrees, meaning_in, reached};

use crate::ending::{end_scope, end_section};
use crate::evaluator::evaluate;
use crate::exit::Exit;
use crate::kinds::truth;
use crate::progress::{Around, Progress};
use crate::sections::selected;
use crate::store::Store;
use cs_ast::{Code, Value};
use sqlite_items::{Boxed, Items};

/// Code that may be absent: null then.
#[cycle(evaluator)]
pub(crate) fn optional<S: Store>(
    around: &Around<'_>,
    code: Option<&Code>,
    progress: &mut Progress,
    store: &mut S,
) -> Result<Value, Exit>
    ensures means { let run = meaning_in around.now (S.parameters store.old) in
        Agrees result (reached progress.new (S.fields store.new))
        (scopes.if_there (option_map run (option_copied code.entry)) (reached progress.old (S.fields store.old))) }
    ensures parameters { S.parameters store.new ≡ S.parameters store.old }
    ensures rest { S.rest store.new ≡ S.rest store.old }
    ensures spent { progress.new.left ≤ progress.old.left }
{
    match code {
        Some(code) => evaluate(around, code, progress, store),
        None => Ok(Value::Null),
    }
}

/// Statements, one after another.
#[cycle(evaluator)]
#[tactic(auto, unfolding(cs_meaning::specs::Scopes::in_order))]
fn in_order<S: Store>(
    around: &Around<'_>,
    statements: &[Code],
    progress: &mut Progress,
    store: &mut S,
) -> Result<Value, Exit>
    ensures means { let run = meaning_in around.now (S.parameters store.old) in
        Agrees result (reached progress.new (S.fields store.new))
        (scopes.in_order (map run statements.now) (reached progress.old (S.fields store.old))) }
    ensures parameters { S.parameters store.new ≡ S.parameters store.old }
    ensures rest { S.rest store.new ≡ S.rest store.old }
    ensures spent { progress.new.left ≤ progress.old.left }
{
    for statement in statements {
        evaluate(around, statement, progress, store)?;
    }
    Ok(Value::Null)
}

/// Statements in a scope of their own.
#[cycle(evaluator)]
pub(crate) fn block<S: Store>(
    around: &Around<'_>,
    statements: &[Code],
    progress: &mut Progress,
    store: &mut S,
) -> Result<Value, Exit>
    ensures means { let run = meaning_in around.now (S.parameters store.old) in
        Agrees result (reached progress.new (S.fields store.new))
        (spec.block (map run statements.now) (reached progress.old (S.fields store.old))) }
    ensures parameters { S.parameters store.new ≡ S.parameters store.old }
    ensures rest { S.rest store.new ≡ S.rest store.old }
    ensures spent { progress.new.left ≤ progress.old.left }
{
    let count = progress.locals.len();
    let outcome = in_order(around, statements, progress, store);
    end_scope(count, outcome, progress)
}

/// A statement in a scope of its own.
#[cycle(evaluator)]
pub(crate) fn scoped<S: Store>(
    around: &Around<'_>,
    code: &Code,
    progress: &mut Progress,
    store: &mut S,
) -> Result<Value, Exit>
    ensures means { let run = meaning_in around.now (S.parameters store.old) in
        Agrees result (reached progress.new (S.fields store.new))
        (scopes.scoped (run code.now) (reached progress.old (S.fields store.old))) }
    ensures parameters { S.parameters store.new ≡ S.parameters store.old }
    ensures rest { S.rest store.new ≡ S.rest store.old }
    ensures spent { progress.new.left ≤ progress.old.left }
{
    let count = progress.locals.len();
    let outcome = evaluate(around, code, progress, store);
    end_scope(count, outcome, progress)
}

/// `if`, and `else` if there is one.
#[cycle(evaluator)]
pub(crate) fn branch<S: Store>(
    around: &Around<'_>,
    test: &Code,
    yes: &Code,
    no: Option<&Code>,
    progress: &mut Progress,
    store: &mut S,
) -> Result<Value, Exit>
    ensures means { let run = meaning_in around.now (S.parameters store.old) in
        Agrees result (reached progress.new (S.fields store.new))
        (spec.branch (run test.now) (run yes.now) (option_map run (option_copied no.entry)) (reached progress.old (S.fields store.old))) }
    ensures parameters { S.parameters store.new ≡ S.parameters store.old }
    ensures rest { S.rest store.new ≡ S.rest store.old }
    ensures spent { progress.new.left ≤ progress.old.left }
{
    let x = evaluate(around, test, progress, store)?;
    match truth(&x) {
        Some(true) => scoped(around, yes, progress, store),
        Some(false) => match no {
            Some(no) => scoped(around, no, progress, store),
            None => Ok(Value::Null),
        },
        None => Err(Exit::Stuck),
    }
}

/// A value, and the section of a `switch` that it selects.
#[cycle(evaluator)]
pub(crate) fn switch<S: Store>(
    around: &Around<'_>,
    value: &Boxed<Code>,
    sections: &Items<Code>,
    progress: &mut Progress,
    store: &mut S,
) -> Result<Value, Exit>
    ensures means { let run = meaning_in around.now (S.parameters store.old) in
        Agrees result (reached progress.new (S.fields store.new))
        (spec.switch (run value.now) (λ x. option_map (map run) (labels.selected x (labels.sections_of sections.now))) (reached progress.old (S.fields store.old))) }
    ensures parameters { S.parameters store.new ≡ S.parameters store.old }
    ensures rest { S.rest store.new ≡ S.rest store.old }
    ensures spent { progress.new.left ≤ progress.old.left }
{
    let x = evaluate(around, value.get(), progress, store)?;
    match selected(&x, sections.as_slice()) {
        Some(statements) => end_section(block(around, statements, progress, store)),
        None => Ok(Value::Null),
    }
}

/// A new local with the value of an expression.
#[cycle(evaluator)]
pub(crate) fn declare<S: Store>(
    around: &Around<'_>,
    e: &Code,
    progress: &mut Progress,
    store: &mut S,
) -> Result<Value, Exit>
    ensures means { let run = meaning_in around.now (S.parameters store.old) in
        Agrees result (reached progress.new (S.fields store.new))
        (variables.declared_as (run e.now) (reached progress.old (S.fields store.old))) }
    ensures parameters { S.parameters store.new ≡ S.parameters store.old }
    ensures rest { S.rest store.new ≡ S.rest store.old }
    ensures spent { progress.new.left ≤ progress.old.left }
{
    let value = evaluate(around, e, progress, store)?;
    progress.locals.push(value)?;
    Ok(Value::Null)
}

/// `return`, with its value if there is one.
#[cycle(evaluator)]
pub(crate) fn returned<S: Store>(
    around: &Around<'_>,
    e: Option<&Code>,
    progress: &mut Progress,
    store: &mut S,
) -> Result<Value, Exit>
    ensures means { let run = meaning_in around.now (S.parameters store.old) in
        Agrees result (reached progress.new (S.fields store.new))
        (spec.returned (option_map run (option_copied e.entry)) (reached progress.old (S.fields store.old))) }
    ensures parameters { S.parameters store.new ≡ S.parameters store.old }
    ensures rest { S.rest store.new ≡ S.rest store.old }
    ensures spent { progress.new.left ≤ progress.old.left }
{
    let value = optional(around, e, progress, store)?;
    Err(Exit::Return(value))
}

/// An expression whose value isn't used.
#[cycle(evaluator)]
pub(crate) fn perform<S: Store>(
    around: &Around<'_>,
    e: &Code,
    progress: &mut Progress,
    store: &mut S,
) -> Result<Value, Exit>
    ensures means { let run = meaning_in around.now (S.parameters store.old) in
        Agrees result (reached progress.new (S.fields store.new))
        (spec.performed (run e.now) (reached progress.old (S.fields store.old))) }
    ensures parameters { S.parameters store.new ≡ S.parameters store.old }
    ensures rest { S.rest store.new ≡ S.rest store.old }
    ensures spent { progress.new.left ≤ progress.old.left }
{
    evaluate(around, e, progress, store)?;
    Ok(Value::Null)
}
