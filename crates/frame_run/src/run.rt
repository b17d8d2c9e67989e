// One rendering from its first unit to its last.
ghost use Rattle.std.specs.Prelude.{◌≡◌, slice_get};
ghost use Rattle.drawing_meaning.specs.Drawing.{IsDrawn};
ghost use Rattle.frame_program.specs.Frames.{component_items, frames_of};
ghost use Rattle.frame_run.specs.Agrees.{Agrees, reached, stage_in};
ghost use Rattle.frame_run.specs.Run.{Means, Tries};

use crate::children::all_siblings;
use crate::exit::Exit;
use crate::progress::{Around, Progress};
use cs_eval::{Fuel, Locals, Owners};
use cs_meaning::Fault;
use drawing_meaning::PageFault;
use frame_core::Item;
use frame_program::{Compiled, RunScope};
use sqlite_items::{Items, at as item_at};
use std::alloc::Global;

/// The items of a component, if there is one at the place.
fn items_of<O: Owners>(
    around: &Around<'_>,
    component: u32,
    progress: &mut Progress,
    owners: &O,
) -> Result<Items<Item>, Exit>
    ensures { Agrees result (reached progress.new (O.fields owners.now))
        (component_items (slice_get around.now.program.now.components component) (stage_in around.now (O.parameters owners.now)) (reached progress.old (O.fields owners.now))) }
{
    match item_at(around.program.components.as_slice(), component as usize) {
        Some(it) => all_siblings(around, it.operations.as_slice(), progress, owners),
        None => Err(Exit::Stuck),
    }
}

/// The items that a rendering makes, or its fault; nothing where it is stuck.
#[tactic(auto, using(crate::proofs::FaultLemmas::any_fault))]
pub fn try_frames<O: Owners>(
    alloc: Global,
    program: &Compiled,
    scope: RunScope,
    owners: &O,
    fuel: &mut Fuel,
) -> Result<Option<Items<Item>>, PageFault>
    ensures means { Tries result fuel.new.left
        (frames_of program.now scope (O.fields owners.now) (O.parameters owners.now) fuel.old) }
    ensures depth { fuel.new.depth ≡ fuel.old.depth }
{
    let around = Around {
        alloc,
        program,
        who: scope.who,
        calls: fuel.depth,
        depth: scope.depth,
    };
    let mut progress = Progress {
        locals: Locals {
            values: Vec::new(alloc),
        },
        left: fuel.left,
        components: 0,
        others: 0,
        bytes: 0,
    };
    let outcome = items_of(&around, scope.component, &mut progress, owners);
    fuel.left = progress.left;
    match outcome {
        Ok(items) => Ok(Some(items)),
        Err(Exit::Fault(fault)) => Err(fault),
        Err(Exit::Stuck) => Ok(None),
        Err(Exit::Memory) => Err(PageFault::Code(Fault::Oom)),
    }
}

/// The items that a rendering makes, or its fault.
pub fn frames<O: Owners>(
    alloc: Global,
    program: &Compiled,
    scope: RunScope,
    owners: &O,
    fuel: &mut Fuel,
) -> Result<Items<Item>, PageFault>
    requires { IsDrawn (frames_of program.now scope (O.fields owners.now) (O.parameters owners.now) fuel.old) }
    ensures means { Means result fuel.new.left
        (frames_of program.now scope (O.fields owners.now) (O.parameters owners.now) fuel.old) }
    ensures depth { fuel.new.depth ≡ fuel.old.depth }
{
    match try_frames(alloc, program, scope, owners, fuel)? {
        Some(items) => Ok(items),
        None => unreachable!(),
    }
}
