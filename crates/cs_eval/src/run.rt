// Running code from the first unit to the last.
ghost use Rattle.std.specs.Prelude.{◌≡◌, ◌≤◌, []};
ghost use Rattle.cs_meaning.specs.State.{state};
ghost use Rattle.cs_meaning.specs.Outcome.{IsDefined};
ghost use Rattle.cs_meaning.specs.Meaning.{body_meaning, setting};
ghost use Rattle.cs_eval.specs.Run.{Means, Tries, Evaluates, TriesValue};

use crate::evaluator::evaluate;
use crate::exit::Exit;
use crate::owners::Owners;
use crate::progress::{Around, Progress};
use crate::store::Store;
use crate::trial::Trial;
use cs_ast::{Bodies, Code, Value};
use cs_meaning::{Fault, Fuel};
use std::alloc::Global;
use std::mem;

/// The locals, outermost first.
#[derive(Debug, Drop)]
pub struct Locals {
    pub values: Vec<Value>,
}

/// What a run gave: a value, null where it has none, and the receivers of the callbacks that ran, in order.
#[derive(Debug, Drop)]
pub struct Ran {
    pub value: Value,
    pub receivers: Vec<u32>,
}

/// Runs a whole body over what holds the fields, and gives nothing where it is stuck.
fn run_over<S: Store>(
    alloc: Global,
    code: &Code,
    bodies: &Bodies,
    who: u32,
    locals: &mut Locals,
    store: &mut S,
    fuel: &mut Fuel,
) -> Result<Option<Ran>, Fault>
    ensures means { Tries result locals.new.values.items (S.fields store.new) fuel.new.left
        (body_meaning (setting who (S.parameters store.old) bodies.now fuel.old.depth) code.now
        (state locals.old.values.items (S.fields store.old) [] fuel.old.left)) }
    ensures depth { fuel.new.depth ≡ fuel.old.depth }
    ensures spent { fuel.new.left ≤ fuel.old.left }
    ensures parameters { S.parameters store.new ≡ S.parameters store.old }
    ensures rest { S.rest store.new ≡ S.rest store.old }
{
    let around = Around {
        alloc,
        bodies,
        who,
        depth: fuel.depth,
    };
    let mut progress = Progress {
        locals: mem::replace(&mut locals.values, Vec::new(alloc)),
        receivers: Vec::new(alloc),
        left: fuel.left,
    };
    let outcome = evaluate(&around, code, &mut progress, store);
    locals.values = progress.locals;
    fuel.left = progress.left;
    let receivers = progress.receivers;
    match outcome {
        Ok(value) => Ok(Some(Ran { value, receivers })),
        Err(Exit::Return(value)) => Ok(Some(Ran { value, receivers })),
        Err(Exit::Fault(fault)) => Err(fault),
        Err(Exit::Break) => Ok(None),
        Err(Exit::Continue) => Ok(None),
        Err(Exit::Stuck) => Ok(None),
    }
}

/// Runs a whole body of the instance `who`, and gives nothing where it is stuck. After a fault the owners hold what had been set.
pub fn try_run<O: Owners>(
    alloc: Global,
    code: &Code,
    bodies: &Bodies,
    who: u32,
    locals: &mut Locals,
    owners: &mut O,
    fuel: &mut Fuel,
) -> Result<Option<Ran>, Fault>
    ensures means { Tries result locals.new.values.items (O.fields owners.new) fuel.new.left
        (body_meaning (setting who (O.parameters owners.old) bodies.now fuel.old.depth) code.now
        (state locals.old.values.items (O.fields owners.old) [] fuel.old.left)) }
    ensures depth { fuel.new.depth ≡ fuel.old.depth }
    ensures parameters { O.parameters owners.new ≡ O.parameters owners.old }
    ensures rest { O.rest owners.new ≡ O.rest owners.old }
{
    run_over(alloc, code, bodies, who, locals, owners, fuel)
}

/// Runs a whole body of the instance `who`. After a fault the owners hold what had been set.
pub fn run_code<O: Owners>(
    alloc: Global,
    code: &Code,
    bodies: &Bodies,
    who: u32,
    locals: &mut Locals,
    owners: &mut O,
    fuel: &mut Fuel,
) -> Result<Ran, Fault>
    requires { IsDefined
        (body_meaning (setting who (O.parameters owners.old) bodies.now fuel.old.depth) code.now
        (state locals.old.values.items (O.fields owners.old) [] fuel.old.left)) }
    ensures means { Means result locals.new.values.items (O.fields owners.new) fuel.new.left
        (body_meaning (setting who (O.parameters owners.old) bodies.now fuel.old.depth) code.now
        (state locals.old.values.items (O.fields owners.old) [] fuel.old.left)) }
    ensures depth { fuel.new.depth ≡ fuel.old.depth }
    ensures parameters { O.parameters owners.new ≡ O.parameters owners.old }
    ensures rest { O.rest owners.new ≡ O.rest owners.old }
{
    match run_over(alloc, code, bodies, who, locals, owners, fuel)? {
        Some(ran) => Ok(ran),
        None => unreachable!(),
    }
}

/// Evaluates code of the instance `who`. What it would change of the fields, and the receivers of its callbacks, are not kept.
pub fn eval<O: Owners>(
    alloc: Global,
    code: &Code,
    bodies: &Bodies,
    who: u32,
    locals: &mut Locals,
    owners: &O,
    fuel: &mut Fuel,
) -> Result<Value, Fault>
    requires { IsDefined
        (body_meaning (setting who (O.parameters owners.now) bodies.now fuel.old.depth) code.now
        (state locals.old.values.items (O.fields owners.now) [] fuel.old.left)) }
    ensures means { Evaluates result locals.new.values.items fuel.new.left
        (body_meaning (setting who (O.parameters owners.now) bodies.now fuel.old.depth) code.now
        (state locals.old.values.items (O.fields owners.now) [] fuel.old.left)) }
    ensures depth { fuel.new.depth ≡ fuel.old.depth }
{
    let mut trial = Trial::new(alloc, owners);
    match run_over(alloc, code, bodies, who, locals, &mut trial, fuel)? {
        Some(ran) => Ok(ran.value),
        None => unreachable!(),
    }
}

/// Evaluates code of the instance `who` as [`eval`] does, and gives nothing where it is stuck.
pub fn try_eval<O: Owners>(
    alloc: Global,
    code: &Code,
    bodies: &Bodies,
    who: u32,
    locals: &mut Locals,
    owners: &O,
    fuel: &mut Fuel,
) -> Result<Option<Value>, Fault>
    ensures means { TriesValue result locals.new.values.items fuel.new.left
        (body_meaning (setting who (O.parameters owners.now) bodies.now fuel.old.depth) code.now
        (state locals.old.values.items (O.fields owners.now) [] fuel.old.left)) }
    ensures depth { fuel.new.depth ≡ fuel.old.depth }
    ensures spent { fuel.new.left ≤ fuel.old.left }
{
    let mut trial = Trial::new(alloc, owners);
    match run_over(alloc, code, bodies, who, locals, &mut trial, fuel)? {
        Some(ran) => Ok(Some(ran.value)),
        None => Ok(None),
    }
}
