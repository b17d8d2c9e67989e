// The evaluator: each function gives what its definition says, and pays for it.
ghost use Rattle.std.specs.Prelude.{◌≡◌, ◌≤◌};
ghost use Rattle.std.specs.Option.{option_copied};
ghost use Rattle.cs_meaning.specs.Meaning.{behind};
ghost use Rattle.cs_eval.specs.Agrees.{Agrees, meaning_in, reached, setting_in};

use crate::calls::{call, invoke};
use crate::exit::Exit;
use crate::expressions::{assign, binary, conditional, record_with};
use crate::loops::{for_each, for_loop, while_loop};
use crate::operands::{
    casted, fill, index, interpolated, member_call, new_record, null_part, part, unary,
};
use crate::progress::{Around, Progress};
use crate::reading::{captured, found};
use crate::statements::{block, branch, declare, perform, returned, switch};
use crate::store::Store;
use crate::variables::{bound, stepped};
use cs_ast::{Code, Value};
use cs_meaning::Fault;
use sqlite_items::{Boxed, at as item_at};

/// Code that may be absent.
fn as_code(code: &Option<Boxed<Code>>) -> Option<&Code>
    ensures { option_copied result ≡ code.now }
{
    match code {
        Some(code) => Some(code.get()),
        None => None,
    }
}

/// What code gives.
#[cycle(evaluator)]
pub(crate) fn evaluate<S: Store>(
    around: &Around<'_>,
    code: &Code,
    progress: &mut Progress,
    store: &mut S,
) -> Result<Value, Exit>
    ensures means { Agrees result (reached progress.new (S.fields store.new))
        (meaning_in around.now (S.parameters store.old) code.now (reached progress.old (S.fields store.old))) }
    ensures parameters { S.parameters store.new ≡ S.parameters store.old }
    ensures rest { S.rest store.new ≡ S.rest store.old }
    ensures spent { progress.new.left ≤ progress.old.left }
{
    match code {
        Code::Piece(text) => Ok(Value::Text(text.clone()?)),
        Code::Bind(at, kind) => bound(around, *at, *kind, progress, store),
        Code::Section(..) => Err(Exit::Stuck),
        _ => {
            if progress.left == 0 {
                return Err(Exit::Fault(Fault::FuelSpent));
            }
            progress.left -= 1;
            act(around, code, progress, store)
        }
    }
}

/// What code gives behind the unit that it costs.
#[cycle(evaluator)]
fn act<S: Store>(
    around: &Around<'_>,
    code: &Code,
    progress: &mut Progress,
    store: &mut S,
) -> Result<Value, Exit>
    ensures means { Agrees result (reached progress.new (S.fields store.new))
        (behind (setting_in around.now (S.parameters store.old)) code.now (reached progress.old (S.fields store.old))) }
    ensures parameters { S.parameters store.new ≡ S.parameters store.old }
    ensures rest { S.rest store.new ≡ S.rest store.old }
    ensures spent { progress.new.left ≤ progress.old.left }
{
    let alloc = around.alloc;
    match code {
        Code::Int(number) => Ok(Value::Int(*number)),
        Code::Bool(truth) => Ok(Value::Bool(*truth)),
        Code::Text(text) => Ok(Value::Text(text.clone()?)),
        Code::Null => Ok(Value::Null),
        Code::Field(at) => found(alloc, store.get(around.who, *at)),
        Code::Parameter(at) => found(alloc, store.parameter_of(around.who, *at)),
        Code::Local(at) => found(alloc, item_at(progress.locals.as_slice(), *at as usize)),
        Code::Interpolated(pieces) => interpolated(around, pieces.as_slice(), progress, store),
        Code::Unary(op, a) => unary(around, *op, a.get(), progress, store),
        Code::Cast(op, a) => casted(around, *op, a.get(), progress, store),
        Code::Binary(op, a, b) => binary(around, *op, a.get(), b.get(), progress, store),
        Code::Conditional(a, b, c) => {
            conditional(around, a.get(), b.get(), c.get(), progress, store)
        }
        Code::With(a, positions, values) => {
            let (positions, values) = (positions.as_slice(), values.as_slice());
            record_with(around, a.get(), positions, values, progress, store)
        }
        Code::Part(a, at) => part(around, a.get(), *at, progress, store),
        Code::NullPart(a, at) => null_part(around, a.get(), *at, progress, store),
        Code::Index(a, b) => index(around, a.get(), b.get(), progress, store),
        Code::New(kind, parts) => new_record(around, *kind, parts.as_slice(), progress, store),
        Code::Library(member, arguments) => {
            member_call(around, *member, arguments.as_slice(), progress, store)
        }
        Code::Call(number, arguments) => {
            call(around, *number, arguments.as_slice(), progress, store)
        }
        Code::Callback(number, positions) => {
            captured(around, *number, positions.as_slice(), progress)
        }
        Code::Fill(a, b) => fill(around, a.get(), b.get(), progress, store),
        Code::Invoke(a, argument) => { invoke(around, a.get(), as_code(argument), progress, store) }
        Code::Assign(target, op, e) => assign(around, *target, *op, e.get(), progress, store),
        Code::Step(target, op) => stepped(around, *target, *op, progress, store),
        Code::Declare(e) => declare(around, e.get(), progress, store),
        Code::Empty => Ok(Value::Null),
        Code::Block(statements) => block(around, statements.as_slice(), progress, store),
        Code::If(test, yes, no) => {
            branch(around, test.get(), yes.get(), as_code(no), progress, store)
        }
        Code::While(test, body) => while_loop(around, test.get(), body.get(), progress, store),
        Code::For(start, test, step, body) => {
            let (start, test, step) = (as_code(start), as_code(test), as_code(step));
            for_loop(around, start, test, step, body.get(), progress, store)
        }
        Code::ForEach(list, body) => for_each(around, list.get(), body.get(), progress, store),
        Code::Switch(value, sections) => switch(around, value, sections, progress, store),
        Code::Break => Err(Exit::Break),
        Code::Continue => Err(Exit::Continue),
        Code::Return(e) => returned(around, as_code(e), progress, store),
        Code::Perform(e) => perform(around, e.get(), progress, store),
        Code::Piece(_) => Err(Exit::Stuck),
        Code::Bind(..) => Err(Exit::Stuck),
        Code::Section(..) => Err(Exit::Stuck),
    }
}
