// What is forbidden besides the rules of names and types.
ghost use Rattle.std.specs.Prelude.{◌≡◌, ◌==◌, if◌then◌else◌, slice_get, Some};
ghost use Rattle.std.specs.List.{list_any};
ghost use Rattle.cs_forbidden.specs.Roots as spec;
ghost use Rattle.cs_forbidden.specs.Trees as trees;
ghost use Rattle.cs_forms.specs.Agrees.{Agrees};
ghost use Rattle.cs_forms.specs.Views.{forbidden_of};

use crate::CheckFault;
use crate::names::Names;
use cs_ast::{Code, Variable};
use cs_forbidden::{Forbidden, Mark};
use cs_rules::{Called, Callee, Checked, Rule};
use sqlite_items::{Boxed, at};
use text_core::Place;

fn against_mark(mark: Mark) -> Option<Rule>
    ensures { result ≡ spec.against_mark (Some mark) }
{
    match mark {
        Mark::OfFor => Some(Rule::ForCapture),
        Mark::Changed => Some(Rule::ChangedCapture),
        Mark::Steady => None,
    }
}

/// The rule against the use of a local from outside.
fn against_local(forbidden: &Forbidden, number: u32) -> Option<Rule>
    ensures { result ≡ spec.against_mark (slice_get forbidden.now.outside number) }
{
    match at(forbidden.outside.as_slice(), number as usize) {
        None => None,
        Some(mark) => against_mark(*mark),
    }
}

/// The rule against an assignment or a step.
fn against_change(forbidden: &Forbidden, target: Variable) -> Option<Rule>
    ensures { result ≡ spec.against_change forbidden.now target }
{
    match target {
        Variable::Local(number) => against_local(forbidden, number),
        Variable::Field(_number) => forbidden.changes,
    }
}

fn is_among(number: u32, bodies: &[u32]) -> bool
    ensures { result ≡ list_any (λ one. one == number) bodies.now }
{
    for one in bodies {
        if *one == number {
            return true;
        }
    }
    false
}

/// The rule against a call of a body.
fn against_call(forbidden: &Forbidden, number: u32) -> Option<Rule>
    ensures { result ≡ (if list_any (λ one. one == number) forbidden.now.bodies then forbidden.now.invokes else None) }
{
    if is_among(number, forbidden.bodies.as_slice()) {
        forbidden.invokes
    } else {
        None
    }
}

/// The rule against code of an expression, by what it does at its root.
#[tactic(auto, using(cs_forbidden::proofs::RootLaws::against_local, cs_forbidden::proofs::RootLaws::against_assign, cs_forbidden::proofs::RootLaws::against_step, cs_forbidden::proofs::RootLaws::against_call, cs_forbidden::proofs::RootLaws::against_invoke, cs_forbidden::proofs::RootLaws::against_other))]
fn against(forbidden: &Forbidden, code: &Code) -> Option<Rule>
    ensures { result ≡ spec.against forbidden.now code.now }
{
    match code {
        Code::Local(number) => against_local(forbidden, *number),
        Code::Assign(target, _op, _value) => against_change(forbidden, *target),
        Code::Step(target, _op) => against_change(forbidden, *target),
        Code::Call(number, _arguments) => against_call(forbidden, *number),
        Code::Invoke(_target, _argument) => forbidden.invokes,
        _ => None,
    }
}

/// The rule against what is called: a fragment that is called is used as a value is.
#[tactic(auto, unfolding(cs_forbidden::specs::Roots::against_called))]
fn against_called(forbidden: &Forbidden, called: &Called) -> Option<Rule>
    ensures { result ≡ spec.against_called forbidden.now called.now }
{
    match called {
        Called::Fill(code) => against(forbidden, code),
        _ => None,
    }
}

/// An expression that is fine, where what its own code does is not forbidden.
pub fn allowed(
    names: &Names<'_>,
    place: Place,
    x: Boxed<Checked>,
) -> Result<Boxed<Checked>, CheckFault>
    ensures { Agrees result (trees.allowed (spec.against (forbidden_of names.now) x.code) place x) }
{
    match against(names.around.forbidden, &x.get().code) {
        Some(rule) => Err(CheckFault::Broken { rule, place }),
        None => Ok(x),
    }
}

/// What is called, where its use is not forbidden.
pub fn allowed_callee(
    names: &Names<'_>,
    place: Place,
    it: Boxed<Callee>,
) -> Result<Boxed<Callee>, CheckFault>
    ensures { Agrees result (trees.allowed (spec.against_called (forbidden_of names.now) it.called) place it) }
{
    match against_called(names.around.forbidden, &it.get().called) {
        Some(rule) => Err(CheckFault::Broken { rule, place }),
        None => Ok(it),
    }
}
