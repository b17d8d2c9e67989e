// The effects of the methods of a component.
ghost use Rattle.std.specs.Prelude.{◌≡◌, IfOk};
ghost use Rattle.cs_effects.specs.Effects.{Told};
ghost use Rattle.cs_effects.specs.Spreading as spreading;

use crate::deed::Deed;
use crate::marks::{Mark, is_marked};
use crate::members::{fields, method_name};
use crate::spreading::doers;
use cs_ast::{Effect, Member};
use std::alloc::Global;
use text_core::Oom;

/// The effects that marks tell.
fn listed(
    alloc: Global,
    members: &[Member],
    changes: &[Mark],
    invokes: &[Mark],
) -> Result<Vec<Effect>, Oom>
    ensures { IfOk result (λ effects. effects.items ≡ spreading.listed members.now changes.now invokes.now) }
{
    let mut effects = Vec::new(alloc);
    let mut rest = members;
    let mut changing = changes;
    let mut invoking = invokes;
    while let Some((member, other_members)) = rest.split_first() {
        let Some((change, other_changes)) = changing.split_first() else {
            return Ok(effects);
        };
        let Some((invoke, other_invokes)) = invoking.split_first() else {
            return Ok(effects);
        };
        if let Some(name) = method_name(&member.kind) {
            let method = name.clone()?;
            effects.push(Effect {
                method,
                changes: is_marked(*change),
                invokes: is_marked(*invoke),
            })?;
        }
        rest = other_members;
        changing = other_changes;
        invoking = other_invokes;
    }
    Ok(effects)
}

/// Of each method, in the order of the members: whether it changes a field, and whether it invokes a callback.
pub fn effects(alloc: Global, members: &[Member]) -> Result<Vec<Effect>, Oom>
    ensures { IfOk result (λ effects. Told members.now members.now effects.items) }
{
    let changing = Deed::Changes(fields(alloc, members)?);
    let changes = doers(alloc, &changing, members)?;
    let invokes = doers(alloc, &Deed::Invokes, members)?;
    let told = listed(alloc, members, changes.as_slice(), invokes.as_slice())?;
    Ok(told)
}
