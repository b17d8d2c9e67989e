// What the tag of a component makes.
ghost use Rattle.std.specs.Prelude.{◌≡◌, ◌≤◌, [], ◌∷◌, map, IfOk};
ghost use Rattle.cs_ast.specs.declared.value.Value.{Value};
ghost use Rattle.cs_ast.specs.declared.value.Value.TheVariants.{Null};
ghost use Rattle.cs_meaning.specs.State.{Fields};
ghost use Rattle.drawing_meaning.specs.Stages.{Stage};
ghost use Rattle.drawing_meaning.specs.Tags as spec;
ghost use Rattle.frame_program.specs.Operations.{given_by};
ghost use Rattle.frame_run.specs.Agrees.{Agrees, reached, stage_in};

use crate::charging::pay;
use crate::contents::one;
use crate::copying::copy_made;
use crate::counting::component_begun;
use crate::evaluating::{value_of, values_at};
use crate::exit::Exit;
use crate::progress::{Around, Progress};
use cs_ast::{Code, Value};
use cs_eval::Owners;
use drawing_meaning::{Gifts, Output};
use frame_core::{Item, ItemParameter, Made};
use frame_program::TagPart;
use sqlite_items::Items;
use std::alloc::{AllocError, Global};
use text_core::Txt;

/// A parameter behind a key.
fn one_gift(alloc: Global, place: u32, value: Value, key: Value) -> Result<Gifts, AllocError>
    ensures { IfOk result (λ it. it ≡ spec.gifts (spec.supplied place value ∷ []) key) }
{
    let mut supplied = Items::new(alloc);
    supplied.push(ItemParameter { place, value })?;
    Ok(Gifts { supplied, key })
}

/// A literal text for the parameter of a place.
#[tactic(auto, unfolding(drawing_meaning::specs::Tags::given_text))]
fn given_text(
    around: &Around<'_>,
    place: u32,
    text: &Txt,
    key: Value,
    progress: &mut Progress,
) -> Result<Gifts, Exit>
    ensures means { (fields : Fields) (stage : Stage) → Agrees result (reached progress.new fields) (spec.given_text place text.now stage key (reached progress.old fields)) }
    ensures spent { progress.new.left ≤ progress.old.left }
{
    pay(progress)?;
    Ok(one_gift(around.alloc, place, Value::Text(text.clone()?), key)?)
}

/// An expression for it.
#[tactic(auto, unfolding(drawing_meaning::specs::Tags::given_value))]
fn given_value<O: Owners>(
    around: &Around<'_>,
    place: u32,
    code: &Code,
    key: Value,
    progress: &mut Progress,
    owners: &O,
) -> Result<Gifts, Exit>
    ensures means { Agrees result (reached progress.new (O.fields owners.now))
        (spec.given_value place code.now (stage_in around.now (O.parameters owners.now)) key (reached progress.old (O.fields owners.now))) }
    ensures spent { progress.new.left ≤ progress.old.left }
{
    pay(progress)?;
    let value = value_of(around, code, progress, owners)?;
    Ok(one_gift(around.alloc, place, value, key)?)
}

/// `@key`
#[tactic(auto, unfolding(drawing_meaning::specs::Tags::given_key))]
fn given_key<O: Owners>(
    around: &Around<'_>,
    code: &Code,
    progress: &mut Progress,
    owners: &O,
) -> Result<Gifts, Exit>
    ensures means { (key : Value) → Agrees result (reached progress.new (O.fields owners.now))
        (spec.given_key code.now (stage_in around.now (O.parameters owners.now)) key (reached progress.old (O.fields owners.now))) }
    ensures spent { progress.new.left ≤ progress.old.left }
{
    Ok(Gifts {
        supplied: Items::new(around.alloc),
        key: value_of(around, code, progress, owners)?,
    })
}

/// The fragment of a number, of the present instance, over the locals at these positions.
#[tactic(auto, unfolding(drawing_meaning::specs::Tags::given_content))]
fn given_content(
    around: &Around<'_>,
    place: u32,
    number: u32,
    positions: &[u32],
    key: Value,
    progress: &mut Progress,
) -> Result<Gifts, Exit>
    ensures means { (fields parameters : Fields) → Agrees result (reached progress.new fields)
        (spec.given_content place number positions.now (stage_in around.now parameters) key (reached progress.old fields)) }
    ensures spent { progress.new.left ≤ progress.old.left }
{
    let captures = values_at(around.alloc, positions, progress)?;
    let fragment = Value::Fragment {
        who: around.who,
        place: number,
        captures,
    };
    Ok(one_gift(around.alloc, place, fragment, key)?)
}

/// The same by a tag of its own.
#[tactic(auto, unfolding(drawing_meaning::specs::Tags::given_fragment))]
fn given_fragment(
    around: &Around<'_>,
    place: u32,
    number: u32,
    positions: &[u32],
    key: Value,
    progress: &mut Progress,
) -> Result<Gifts, Exit>
    ensures means { (fields parameters : Fields) → Agrees result (reached progress.new fields)
        (spec.given_fragment place number positions.now (stage_in around.now parameters) key (reached progress.old fields)) }
    ensures spent { progress.new.left ≤ progress.old.left }
{
    pay(progress)?;
    given_content(around, place, number, positions, key, progress)
}

/// What one part of a tag gives, behind those before it.
fn given<O: Owners>(
    around: &Around<'_>,
    part: &TagPart,
    key: Value,
    progress: &mut Progress,
    owners: &O,
) -> Result<Gifts, Exit>
    ensures means { Agrees result (reached progress.new (O.fields owners.now))
        (given_by part.now (stage_in around.now (O.parameters owners.now)) key (reached progress.old (O.fields owners.now))) }
    ensures spent { progress.new.left ≤ progress.old.left }
{
    match part {
        TagPart::Key(code) => given_key(around, code, progress, owners),
        TagPart::Text { place, text } => given_text(around, *place, text, key, progress),
        TagPart::Value { place, code } => given_value(around, *place, code, key, progress, owners),
        TagPart::Content {
            place,
            number,
            locals,
        } => {
            let positions = locals.as_slice();
            given_content(around, *place, *number, positions, key, progress)
        }
        TagPart::Fragment {
            place,
            number,
            locals,
        } => {
            let positions = locals.as_slice();
            given_fragment(around, *place, *number, positions, key, progress)
        }
    }
}

/// What the parts of a tag give, one after another.
#[tactic(auto, using(crate::proofs::SequenceLemmas::given_start, crate::proofs::SequenceLemmas::given_behind, crate::proofs::SequenceLemmas::given_end), unfolding(drawing_meaning::specs::Tags::all_given))]
fn all_given<O: Owners>(
    around: &Around<'_>,
    parts: &[TagPart],
    progress: &mut Progress,
    owners: &O,
) -> Result<Gifts, Exit>
    ensures means { Agrees result (reached progress.new (O.fields owners.now))
        (spec.all_given (map given_by parts.now) (stage_in around.now (O.parameters owners.now)) Null (reached progress.old (O.fields owners.now))) }
    ensures spent { progress.new.left ≤ progress.old.left }
{
    let mut supplied = Items::new(around.alloc);
    let mut key = Value::Null;
    for part in parts {
        let more = given(around, part, key, progress, owners)?;
        supplied.append(more.supplied)?;
        key = more.key;
    }
    Ok(Gifts { supplied, key })
}

/// The component item of a tag.
#[tactic(auto, unfolding(drawing_meaning::specs::Tags::component))]
pub(crate) fn component<O: Owners>(
    around: &Around<'_>,
    number: u32,
    made: &Made,
    parts: &[TagPart],
    progress: &mut Progress,
    owners: &O,
) -> Result<Output, Exit>
    ensures means { Agrees result (reached progress.new (O.fields owners.now))
        (spec.component number made.now (map given_by parts.now) (stage_in around.now (O.parameters owners.now)) (reached progress.old (O.fields owners.now))) }
    ensures spent { progress.new.left ≤ progress.old.left }
{
    pay(progress)?;
    let order = component_begun(progress)?;
    let Gifts { supplied, key } = all_given(around, parts, progress, owners)?;
    let item = Item::Component {
        number,
        order,
        made: copy_made(around.alloc, made)?,
        key,
        parameters: supplied,
    };
    Ok(one(around.alloc, item)?)
}
