// Expressions whose parts are all evaluated.
ghost use Rattle.std.specs.Prelude.{◌≡◌, ◌≤◌, map};
ghost use Rattle.cs_meaning.specs.Calls.{with_capture as captured_more};
ghost use Rattle.cs_meaning.specs.Expressions as spec;
ghost use Rattle.cs_meaning.specs.Operators as operators;
ghost use Rattle.cs_meaning.specs.Reading as parts;
ghost use Rattle.cs_eval.specs.Agrees.{Agrees, meaning_in, reached};

use crate::charging::{made, new_text};
use crate::evaluator::evaluate;
use crate::exit::Exit;
use crate::expressions::all;
use crate::library::library;
use crate::operators::{cast, of_value};
use crate::progress::{Around, Progress};
use crate::reading::{indexed, part_of, part_or_null, with_capture};
use crate::store::Store;
use crate::texts::all_joined;
use cs_ast::{CastOp, Code, LibraryMember, UnaryOp, Value};
use sqlite_items::Items;

/// The texts of these joined.
#[cycle(evaluator)]
pub(crate) fn interpolated<S: Store>(
    around: &Around<'_>,
    pieces: &[Code],
    progress: &mut Progress,
    store: &mut S,
) -> Result<Value, Exit>
    ensures means { let run = meaning_in around.now (S.parameters store.old) in
        Agrees result (reached progress.new (S.fields store.new))
        (spec.interpolated (map run pieces.now) (reached progress.old (S.fields store.old))) }
    ensures parameters { S.parameters store.new ≡ S.parameters store.old }
    ensures rest { S.rest store.new ≡ S.rest store.old }
    ensures spent { progress.new.left ≤ progress.old.left }
{
    let values = all(around, pieces, progress, store)?;
    new_text(all_joined(around.alloc, values.as_slice())?, progress)
}

/// An operator before its operand.
#[cycle(evaluator)]
pub(crate) fn unary<S: Store>(
    around: &Around<'_>,
    op: UnaryOp,
    a: &Code,
    progress: &mut Progress,
    store: &mut S,
) -> Result<Value, Exit>
    ensures means { let run = meaning_in around.now (S.parameters store.old) in
        Agrees result (reached progress.new (S.fields store.new))
        (spec.one_operand (run a.now) (operators.of_value op) (reached progress.old (S.fields store.old))) }
    ensures parameters { S.parameters store.new ≡ S.parameters store.old }
    ensures rest { S.rest store.new ≡ S.rest store.old }
    ensures spent { progress.new.left ≤ progress.old.left }
{
    let x = evaluate(around, a, progress, store)?;
    of_value(op, &x)
}

/// A type in brackets before its operand.
#[cycle(evaluator)]
pub(crate) fn casted<S: Store>(
    around: &Around<'_>,
    op: CastOp,
    a: &Code,
    progress: &mut Progress,
    store: &mut S,
) -> Result<Value, Exit>
    ensures means { let run = meaning_in around.now (S.parameters store.old) in
        Agrees result (reached progress.new (S.fields store.new))
        (spec.one_operand (run a.now) (operators.cast op) (reached progress.old (S.fields store.old))) }
    ensures parameters { S.parameters store.new ≡ S.parameters store.old }
    ensures rest { S.rest store.new ≡ S.rest store.old }
    ensures spent { progress.new.left ≤ progress.old.left }
{
    let x = evaluate(around, a, progress, store)?;
    cast(op, x)
}

/// The part of a record at a position.
#[cycle(evaluator)]
pub(crate) fn part<S: Store>(
    around: &Around<'_>,
    a: &Code,
    at: u32,
    progress: &mut Progress,
    store: &mut S,
) -> Result<Value, Exit>
    ensures means { let run = meaning_in around.now (S.parameters store.old) in
        Agrees result (reached progress.new (S.fields store.new))
        (spec.one_operand (run a.now) (parts.part_of at) (reached progress.old (S.fields store.old))) }
    ensures parameters { S.parameters store.new ≡ S.parameters store.old }
    ensures rest { S.rest store.new ≡ S.rest store.old }
    ensures spent { progress.new.left ≤ progress.old.left }
{
    let x = evaluate(around, a, progress, store)?;
    part_of(around.alloc, at, x)
}

/// The same, and null of null.
#[cycle(evaluator)]
pub(crate) fn null_part<S: Store>(
    around: &Around<'_>,
    a: &Code,
    at: u32,
    progress: &mut Progress,
    store: &mut S,
) -> Result<Value, Exit>
    ensures means { let run = meaning_in around.now (S.parameters store.old) in
        Agrees result (reached progress.new (S.fields store.new))
        (spec.one_operand (run a.now) (parts.part_or_null at) (reached progress.old (S.fields store.old))) }
    ensures parameters { S.parameters store.new ≡ S.parameters store.old }
    ensures rest { S.rest store.new ≡ S.rest store.old }
    ensures spent { progress.new.left ≤ progress.old.left }
{
    let x = evaluate(around, a, progress, store)?;
    part_or_null(around.alloc, at, x)
}

/// The item of a list at an index.
#[cycle(evaluator)]
pub(crate) fn index<S: Store>(
    around: &Around<'_>,
    a: &Code,
    b: &Code,
    progress: &mut Progress,
    store: &mut S,
) -> Result<Value, Exit>
    ensures means { let run = meaning_in around.now (S.parameters store.old) in
        Agrees result (reached progress.new (S.fields store.new))
        (spec.two_operands (run a.now) (run b.now) parts.indexed (reached progress.old (S.fields store.old))) }
    ensures parameters { S.parameters store.new ≡ S.parameters store.old }
    ensures rest { S.rest store.new ≡ S.rest store.old }
    ensures spent { progress.new.left ≤ progress.old.left }
{
    let list = evaluate(around, a, progress, store)?;
    let place = evaluate(around, b, progress, store)?;
    indexed(around.alloc, list, &place)
}

/// A fragment with one more captured value.
#[cycle(evaluator)]
pub(crate) fn fill<S: Store>(
    around: &Around<'_>,
    a: &Code,
    b: &Code,
    progress: &mut Progress,
    store: &mut S,
) -> Result<Value, Exit>
    ensures means { let run = meaning_in around.now (S.parameters store.old) in
        Agrees result (reached progress.new (S.fields store.new))
        (spec.two_operands (run a.now) (run b.now) captured_more (reached progress.old (S.fields store.old))) }
    ensures parameters { S.parameters store.new ≡ S.parameters store.old }
    ensures rest { S.rest store.new ≡ S.rest store.old }
    ensures spent { progress.new.left ≤ progress.old.left }
{
    let fragment = evaluate(around, a, progress, store)?;
    let more = evaluate(around, b, progress, store)?;
    with_capture(fragment, more)
}

/// A new record.
#[cycle(evaluator)]
pub(crate) fn new_record<S: Store>(
    around: &Around<'_>,
    kind: u32,
    parts: &[Code],
    progress: &mut Progress,
    store: &mut S,
) -> Result<Value, Exit>
    ensures means { let run = meaning_in around.now (S.parameters store.old) in
        Agrees result (reached progress.new (S.fields store.new))
        (spec.new_record kind (map run parts.now) (reached progress.old (S.fields store.old))) }
    ensures parameters { S.parameters store.new ≡ S.parameters store.old }
    ensures rest { S.rest store.new ≡ S.rest store.old }
    ensures spent { progress.new.left ≤ progress.old.left }
{
    let values = all(around, parts, progress, store)?;
    let parts = Items::from_vec(values);
    made(Value::Rec { kind, parts }, progress)
}

/// A member of the library over its target and arguments.
#[cycle(evaluator)]
pub(crate) fn member_call<S: Store>(
    around: &Around<'_>,
    member: LibraryMember,
    arguments: &[Code],
    progress: &mut Progress,
    store: &mut S,
) -> Result<Value, Exit>
    ensures means { let run = meaning_in around.now (S.parameters store.old) in
        Agrees result (reached progress.new (S.fields store.new))
        (spec.member_call member (map run arguments.now) (reached progress.old (S.fields store.old))) }
    ensures parameters { S.parameters store.new ≡ S.parameters store.old }
    ensures rest { S.rest store.new ≡ S.rest store.old }
    ensures spent { progress.new.left ≤ progress.old.left }
{
    let values = all(around, arguments, progress, store)?;
    library(around.alloc, member, values, progress)
}
