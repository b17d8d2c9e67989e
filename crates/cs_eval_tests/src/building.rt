// Code and values, built by hand.
use cs_ast::{AssignOp, BinaryOp, Bodies, Code, LibraryMember, StepOp, Value, Variable};
use cs_eval::{Fault, Locals};
use sqlite_items::{Boxed, Items};
use std::alloc::Global;
use text_core::{Oom, Txt};

pub(crate) type Made = Result<Code, Oom>;

pub(crate) fn codes<const N: usize>(alloc: Global, codes: [Code; N]) -> Result<Items<Code>, Oom> {
    Ok(Items::from_vec(Vec::from_array(alloc, codes)?))
}

pub(crate) fn text(alloc: Global, said: &str) -> Result<Value, Oom> {
    Ok(Value::Text(Txt::from_str(alloc, said)?))
}

pub(crate) fn literal(alloc: Global, said: &str) -> Made {
    Ok(Code::Text(Txt::from_str(alloc, said)?))
}

pub(crate) fn binary(alloc: Global, op: BinaryOp, a: Code, b: Code) -> Made {
    Ok(Code::Binary(op, Boxed::new(alloc, a)?, Boxed::new(alloc, b)?))
}

pub(crate) fn perform(alloc: Global, e: Code) -> Made {
    Ok(Code::Perform(Boxed::new(alloc, e)?))
}

pub(crate) fn assign(alloc: Global, target: Variable, op: AssignOp, e: Code) -> Made {
    let assignment = Code::Assign(target, op, Boxed::new(alloc, e)?);
    perform(alloc, assignment)
}

pub(crate) fn declare(alloc: Global, e: Code) -> Made {
    Ok(Code::Declare(Boxed::new(alloc, e)?))
}

pub(crate) fn block<const N: usize>(alloc: Global, statements: [Code; N]) -> Made {
    Ok(Code::Block(codes(alloc, statements)?))
}

pub(crate) fn while_true(alloc: Global, body: Code) -> Made {
    let test = Boxed::new(alloc, Code::Bool(true))?;
    Ok(Code::While(test, Boxed::new(alloc, body)?))
}

pub(crate) fn returned(alloc: Global, e: Code) -> Made {
    Ok(Code::Return(Some(Boxed::new(alloc, e)?)))
}

pub(crate) fn library<const N: usize>(
    alloc: Global,
    member: LibraryMember,
    arguments: [Code; N],
) -> Made {
    Ok(Code::Library(member, codes(alloc, arguments)?))
}

/// `for (int i = 0; i < limit; i++)`, where i is the first local.
pub(crate) fn counted(alloc: Global, limit: i32, body: Code) -> Made {
    let start = declare(alloc, Code::Int(0))?;
    let test = binary(alloc, BinaryOp::Less, Code::Local(0), Code::Int(limit))?;
    let step = Code::Step(Variable::Local(0), StepOp::Increment);
    Ok(Code::For(
        Some(Boxed::new(alloc, start)?),
        Some(Boxed::new(alloc, test)?),
        Some(Boxed::new(alloc, step)?),
        Boxed::new(alloc, body)?,
    ))
}

/// `{ for (int i = 0; i < limit; i++) { } }`
pub(crate) fn turns(alloc: Global, limit: i32) -> Made {
    let code = counted(alloc, limit, block(alloc, [])?)?;
    block(alloc, [code])
}

/// `ImmutableList<int>.Empty.Add(1).Add(2).Add(3)`
fn one_two_three(alloc: Global) -> Made {
    let mut list = library(alloc, LibraryMember::EmptyList, [])?;
    for n in 1..4 {
        list = library(alloc, LibraryMember::Add, [list, Code::Int(n)])?;
    }
    Ok(list)
}

/// A list of three without its item at this place.
pub(crate) fn removed(alloc: Global, at: i32) -> Made {
    let list = one_two_three(alloc)?;
    library(alloc, LibraryMember::RemoveAt, [list, Code::Int(at)])
}

/// How many a list of three has with one more at this place.
pub(crate) fn count_with(alloc: Global, at: i32) -> Made {
    let list = one_two_three(alloc)?;
    let longer = library(
        alloc,
        LibraryMember::Insert,
        [list, Code::Int(at), Code::Int(9)],
    )?;
    library(alloc, LibraryMember::Count, [longer])
}

/// The first of a list of three where 9 is set there.
pub(crate) fn first_set(alloc: Global) -> Made {
    let list = one_two_three(alloc)?;
    let set = library(
        alloc,
        LibraryMember::SetItem,
        [list, Code::Int(0), Code::Int(9)],
    )?;
    let set = Boxed::new(alloc, set)?;
    Ok(Code::Index(set, Boxed::new(alloc, Code::Int(0))?))
}

/// `{ for (int i = 0; i < 3; i++) while (true) { n++; break; } return n; }`
pub(crate) fn inner_breaks(alloc: Global) -> Made {
    let add = perform(alloc, Code::Step(Variable::Field(0), StepOp::Increment))?;
    let inner = while_true(alloc, block(alloc, [add, Code::Break])?)?;
    let outer = counted(alloc, 3, inner)?;
    block(alloc, [outer, returned(alloc, Code::Field(0))?])
}

/// A section of these labels that returns the number.
fn section(alloc: Global, labels: &[i32], otherwise: bool, number: i32) -> Made {
    let mut constants = Items::new(alloc);
    for label in labels {
        constants.push(Value::Int(*label))?;
    }
    let statement = returned(alloc, Code::Int(number))?;
    Ok(Code::Section(constants, otherwise, codes(alloc, [statement])?))
}

/// `switch (value) { default: return 7; case 1: case 2: return 8; }`
pub(crate) fn selecting(alloc: Global, value: i32) -> Made {
    let otherwise = section(alloc, &[], true, 7)?;
    let labelled = section(alloc, &[1, 2], false, 8)?;
    let sections = codes(alloc, [otherwise, labelled])?;
    Ok(Code::Switch(Boxed::new(alloc, Code::Int(value))?, sections))
}

/// A call of a method without arguments.
pub(crate) fn call(alloc: Global, number: u32) -> Made {
    Ok(Code::Call(number, codes(alloc, [])?))
}

/// `n - M()`, where M is the method 8.
pub(crate) fn less_call(alloc: Global) -> Made {
    binary(alloc, BinaryOp::Subtract, Code::Field(0), call(alloc, 8)?)
}

/// `{ n += M(); return n; }`, where M is the method 8.
pub(crate) fn plus_call(alloc: Global) -> Made {
    let added = assign(alloc, Variable::Field(0), AssignOp::Add, call(alloc, 8)?)?;
    block(alloc, [added, returned(alloc, Code::Field(0))?])
}

/// A method that calls itself.
fn endless_call(alloc: Global) -> Made {
    let own = perform(alloc, call(alloc, 7)?)?;
    block(alloc, [own])
}

/// A method that sets the field to 10 and gives 5.
fn setting_call(alloc: Global) -> Made {
    let sets = assign(alloc, Variable::Field(0), AssignOp::Set, Code::Int(10))?;
    block(alloc, [sets, returned(alloc, Code::Int(5))?])
}

/// The methods 7, which calls itself, and 8, which sets the field; the callback 3, which sets the field to its first local.
pub(crate) fn methods(alloc: Global) -> Result<Bodies, Oom> {
    let mut bodies = Bodies::new(alloc);
    bodies.set(7, endless_call(alloc)?)?;
    bodies.set(8, setting_call(alloc)?)?;
    let captured = assign(alloc, Variable::Field(0), AssignOp::Set, Code::Local(0))?;
    bodies.set(3, captured)?;
    Ok(bodies)
}

/// A text that is doubled again and again, from 64 bytes on, is too large behind 1,048,575.
pub(crate) fn doubling(alloc: Global) -> Made {
    let said = "0123456789abcdef0123456789abcdef0123456789abcdef0123456789abcdef";
    let start = declare(alloc, literal(alloc, said)?)?;
    let doubled = assign(alloc, Variable::Local(0), AssignOp::Add, Code::Local(0))?;
    block(alloc, [start, while_true(alloc, doubled)?])
}

/// The least code that meets a fault. Want of memory is met by none.
pub(crate) fn causing(alloc: Global, fault: Fault) -> Made {
    match fault {
        Fault::DivideByZero => quotient(alloc, 7, 0),
        Fault::Overflow => quotient(alloc, i32::MIN, -1),
        Fault::NullUse => library(alloc, LibraryMember::Length, [Code::Null]),
        Fault::IndexOutOfRange => removed(alloc, 3),
        Fault::FuelSpent => while_true(alloc, Code::Empty),
        Fault::CallDepth => call(alloc, 7),
        Fault::ValueTooLarge => doubling(alloc),
        Fault::Oom => Ok(Code::Null),
    }
}

fn quotient(alloc: Global, x: i32, y: i32) -> Made {
    binary(alloc, BinaryOp::Divide, Code::Int(x), Code::Int(y))
}

/// A callback of instance 2 whose code is the body 3, and which captured 40.
fn capturing(alloc: Global) -> Result<Value, Oom> {
    let mut captures = Items::new(alloc);
    captures.push(Value::Int(40))?;
    Ok(Value::Callback {
        who: 2,
        place: 3,
        captures,
    })
}

/// The callback as the only local.
pub(crate) fn only_local(alloc: Global) -> Result<Locals, Oom> {
    let mut locals = no_locals(alloc);
    locals.values.push(capturing(alloc)?)?;
    Ok(locals)
}

pub(crate) fn no_locals(alloc: Global) -> Locals {
    Locals {
        values: Vec::new(alloc),
    }
}

/// A call of the callback with 9.
pub(crate) fn invoked(alloc: Global) -> Made {
    let callback = Boxed::new(alloc, Code::Local(0))?;
    let argument = Boxed::new(alloc, Code::Int(9))?;
    Ok(Code::Invoke(callback, Some(argument)))
}
