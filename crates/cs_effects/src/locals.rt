// Names of locals in scope.
ghost use Rattle.std.specs.Prelude.{◌≡◌, [], ◌∷◌, ◌++◌, map, IfOk};
ghost use Rattle.cs_effects.specs.Deeds as spec;

use cs_ast::Argument;
use sqlite_items::Items;
use std::alloc::Global;
use text_core::{Oom, Txt};

/// Whether no local has the name.
#[tactic(auto, unfolding(crate::specs::Deeds::is_free))]
pub fn is_free(name: &Txt, locals: &[Txt]) -> bool
    ensures { result ≡ spec.is_free name.now locals.now }
{
    for one in locals {
        if *one == *name {
            return false;
        }
    }
    true
}

pub fn copied(alloc: Global, locals: &[Txt]) -> Result<Items<Txt>, Oom>
    ensures { IfOk result (λ copy. copy ≡ locals.now) }
{
    let mut copy = Items::new(alloc);
    for one in locals {
        copy.push(one.clone()?)?;
    }
    Ok(copy)
}

/// The locals behind the declaration of one more.
pub fn with_local(alloc: Global, locals: &[Txt], name: &Txt) -> Result<Items<Txt>, Oom>
    ensures { IfOk result (λ inner. inner ≡ locals.now ++ name.now ∷ []) }
{
    let mut inner = copied(alloc, locals)?;
    inner.push(name.clone()?)?;
    Ok(inner)
}

/// The locals that a method begins with: its arguments.
pub fn argument_names(alloc: Global, arguments: &[Argument]) -> Result<Items<Txt>, Oom>
    ensures { IfOk result (λ names. names ≡ map (λ one. one.name.name) arguments.now) }
{
    let mut names = Items::new(alloc);
    for one in arguments {
        names.push(one.name.name.clone()?)?;
    }
    Ok(names)
}
