// Elements, with what they wear and what is in them.
ghost use Rattle.std.specs.Prelude.{◌≤◌, map};
ghost use Rattle.drawing_meaning.specs.Acts.{all_siblings as all_in};
ghost use Rattle.drawing_meaning.specs.Nodes as spec;
ghost use Rattle.drawing_meaning.specs.Stages.{deeper};
ghost use Rattle.frame_program.specs.Operations.{act_of, dressed_by};
ghost use Rattle.frame_run.specs.Agrees.{Agrees, reached, stage_in};

use crate::attributes::all_worn;
use crate::charging::pay;
use crate::children::all_siblings;
use crate::contents::one;
use crate::counting::{begun_at, bytes_in};
use crate::exit::Exit;
use crate::progress::{Around, Progress};
use cs_eval::Owners;
use drawing_meaning::{Dress, Output};
use frame_core::Item;
use frame_program::{AttributePart, Operation};
use sqlite_items::Items;
use text_core::Txt;

/// What is in an element, which lies one deeper.
#[cycle(drawing)]
fn inside<O: Owners>(
    around: &Around<'_>,
    children: &[Operation],
    progress: &mut Progress,
    owners: &O,
) -> Result<Items<Item>, Exit>
    requires { around.now.depth ≤ 1000 }
    ensures means { Agrees result (reached progress.new (O.fields owners.now))
        (all_in (map act_of children.now) (deeper (stage_in around.now (O.parameters owners.now))) (reached progress.old (O.fields owners.now))) }
    ensures spent { progress.new.left ≤ progress.old.left }
{
    let deeper = Around {
        alloc: around.alloc,
        program: around.program,
        who: around.who,
        calls: around.calls,
        depth: around.depth + 1,
    };
    all_siblings(&deeper, children, progress, owners)
}

/// An element.
#[cycle(drawing)]
#[tactic(auto, unfolding(drawing_meaning::specs::Nodes::element))]
pub(crate) fn element<O: Owners>(
    around: &Around<'_>,
    number: u32,
    name: &Txt,
    attributes: &[AttributePart],
    children: &[Operation],
    progress: &mut Progress,
    owners: &O,
) -> Result<Output, Exit>
    ensures means { Agrees result (reached progress.new (O.fields owners.now))
        (spec.element number name.now (map dressed_by attributes.now) (map act_of children.now) (stage_in around.now (O.parameters owners.now)) (reached progress.old (O.fields owners.now))) }
    ensures spent { progress.new.left ≤ progress.old.left }
{
    pay(progress)?;
    begun_at(around.depth, bytes_in(name), progress)?;
    let Dress { worn, key } = all_worn(around, attributes, progress, owners)?;
    let children = inside(around, children, progress, owners)?;
    let item = Item::Element {
        number,
        name: name.clone()?,
        key,
        attributes: worn,
        children,
    };
    Ok(one(around.alloc, item)?)
}
