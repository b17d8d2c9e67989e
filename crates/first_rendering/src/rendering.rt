// The first items, and the first page.
ghost use Rattle.page_meaning.specs.Fresh.{items_shown, nodes_of};
ghost use Rattle.first_rendering.specs.First.{first_fields, first_items, first_page, instance_items};
ghost use Rattle.first_rendering.specs.Tried.{Come, TriesItems, TriesPage};

use crate::initial::initial_values;
use crate::instance::FirstInstance;
use cs_ast::Value;
use cs_meaning::{Fault, Fuel};
use drawing_meaning::PageFault;
use frame_core::Item;
use frame_program::{Compiled, RunScope};
use frame_run::try_frames;
use item_page::page_of;
use page_core::Node;
use sqlite_items::Items;
use std::alloc::Global;
use text_core::Oom;

/// The units of initial values together, and of a rendering.
const UNITS: u32 = 1_000_000;

/// The initial values of the fields of the first component, or None where there is none or some code is stuck.
fn first_fields(alloc: Global, program: &Compiled) -> Result<Option<Items<Value>>, Fault>
    ensures { Come result (first_fields program.now) }
{
    let Some(component) = program.components.get(0) else {
        return Ok(None);
    };
    let mut fuel = Fuel {
        left: UNITS,
        depth: 1,
    };
    initial_values(alloc, component.fields.as_slice(), &mut fuel)
}

/// The items of the instance 1 over these fields, or None where code is stuck.
fn instance_items(
    alloc: Global,
    program: &Compiled,
    fields: Items<Value>,
) -> Result<Option<Items<Item>>, PageFault>
    ensures { TriesItems result (instance_items program.now fields) }
{
    let instance = FirstInstance { fields };
    let scope = RunScope {
        who: 1,
        component: 0,
        depth: 1,
    };
    let mut fuel = Fuel {
        left: UNITS,
        depth: 1,
    };
    try_frames(alloc, program, scope, &instance, &mut fuel)
}

/// The items of the first rendering, or None where code is stuck.
pub fn first_items(alloc: Global, program: &Compiled) -> Result<Option<Items<Item>>, PageFault>
    ensures { TriesItems result (first_items program.now) }
{
    match first_fields(alloc, program) {
        Ok(Some(fields)) => instance_items(alloc, program, fields),
        Ok(None) => Ok(None),
        Err(fault) => Err(PageFault::Code(fault)),
    }
}

/// The nodes that the items show, or None where there is a component among them.
fn shown(alloc: Global, items: &[Item]) -> Result<Option<Items<Node>>, PageFault>
    ensures { TriesPage result (nodes_of (items_shown 1 items.now 0)) }
{
    match page_of(alloc, items, 1) {
        Ok(page) => Ok(page),
        Err(Oom) => Err(PageFault::Code(Fault::Oom)),
    }
}

/// The page of the first rendering, or None where code is stuck or makes a component.
pub fn first_page(alloc: Global, program: &Compiled) -> Result<Option<Items<Node>>, PageFault>
    ensures { TriesPage result (first_page program.now) }
{
    match first_items(alloc, program)? {
        Some(items) => shown(alloc, items.as_slice()),
        None => Ok(None),
    }
}
