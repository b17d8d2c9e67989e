// The code of a call over the codes of its arguments.
ghost use Rattle.std.specs.Prelude.{◌≡◌, ◌∷◌, IfOk, slice_get};
ghost use Rattle.cs_ast.specs.declared.code.Code.TheVariants as code_by;
ghost use Rattle.cs_rules.specs.declared.callee.Called.TheVariants as called_by;
ghost use Rattle.cs_rules.specs.Library as spec;

use cs_ast::{Code, LibraryMember};
use cs_rules::Called;
use sqlite_items::{Boxed, Items};
use std::alloc::Global;
use text_core::Oom;

/// The first of these, if there is one.
fn first_of(mut arguments: Items<Code>) -> Option<Code>
    ensures { result ≡ slice_get arguments 0 }
{
    if arguments.is_empty() {
        return None;
    }
    Some(arguments.remove(0))
}

fn first_boxed(alloc: Global, arguments: Items<Code>) -> Result<Option<Boxed<Code>>, Oom>
    ensures { IfOk result (λ first. first ≡ slice_get arguments 0) }
{
    match first_of(arguments) {
        None => Ok(None),
        Some(argument) => Ok(Some(Boxed::new(alloc, argument)?)),
    }
}

fn library_code(
    alloc: Global,
    member: LibraryMember,
    target: Code,
    arguments: Items<Code>,
) -> Result<Code, Oom>
    ensures { IfOk result (λ code. code ≡ code_by.Library member (target ∷ arguments)) }
{
    let mut all = Items::new(alloc);
    all.push(target)?;
    all.append(arguments)?;
    Ok(Code::Library(member, all))
}

#[tactic(auto, using(crate::proofs::CallLemmas::invoked))]
fn invoke_code(alloc: Global, target: Code, arguments: Items<Code>) -> Result<Code, Oom>
    ensures { IfOk result (λ code. code ≡ spec.code_of_call (called_by.Invoke target) arguments) }
{
    let target = Boxed::new(alloc, target)?;
    let argument = first_boxed(alloc, arguments)?;
    Ok(Code::Invoke(target, argument))
}

fn fill_code(alloc: Global, target: Code, argument: Code) -> Result<Code, Oom>
    ensures { IfOk result (λ code. code ≡ code_by.Fill target argument) }
{
    let target = Boxed::new(alloc, target)?;
    let argument = Boxed::new(alloc, argument)?;
    Ok(Code::Fill(target, argument))
}

#[tactic(auto, using(crate::proofs::CallLemmas::not_filled, crate::proofs::CallLemmas::is_filled))]
fn filled_code(alloc: Global, target: Code, arguments: Items<Code>) -> Result<Code, Oom>
    ensures { IfOk result (λ code. code ≡ spec.code_of_call (called_by.Fill target) arguments) }
{
    match first_of(arguments) {
        None => Ok(target),
        Some(argument) => fill_code(alloc, target, argument),
    }
}

/// The code of a call over the codes of its arguments.
#[tactic(auto, unfolding(cs_rules::specs::Library::code_of_call))]
pub fn code_of_call(alloc: Global, called: Called, arguments: Items<Code>) -> Result<Code, Oom>
    ensures { IfOk result (λ code. code ≡ spec.code_of_call called arguments) }
{
    match called {
        Called::Method(number) => Ok(Code::Call(number, arguments)),
        Called::Library(member, None) => Ok(Code::Library(member, arguments)),
        Called::Library(member, Some(target)) => library_code(alloc, member, target, arguments),
        Called::Invoke(target) => invoke_code(alloc, target, arguments),
        Called::Fill(target) => filled_code(alloc, target, arguments),
    }
}
