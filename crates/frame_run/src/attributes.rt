// What the attributes of an element make.
ghost use Rattle.std.specs.Prelude.{◌≡◌, ◌≤◌, map, IfOk};
ghost use Rattle.std.specs.Option.{option_to_list};
ghost use Rattle.cs_ast.specs.declared.value.Value.TheVariants.{Null};
ghost use Rattle.cs_meaning.specs.State.{Fields};
ghost use Rattle.drawing_meaning.specs.Attributes as spec;
ghost use Rattle.drawing_meaning.specs.Stages.{Stage};
ghost use Rattle.frame_program.specs.Operations.{dressed_by, said_by};
ghost use Rattle.frame_run.specs.Agrees.{Agrees, AgreesAs, reached, stage_in};

use crate::charging::pay;
use crate::counting::{begun, bytes_in};
use crate::evaluating::value_of;
use crate::exit::Exit;
use crate::kinds::{Bound, into_callback, is_null};
use crate::progress::{Around, Progress};
use crate::texts::{all_said, attribute_text, shown};
use cs_ast::{Code, Value};
use cs_eval::Owners;
use drawing_meaning::Dress;
use frame_core::{ItemAttribute, ItemHandler, ItemValue};
use frame_program::{AttributePart, TextPart};
use sqlite_items::Items;
use std::alloc::{AllocError, Global};
use text_core::Txt;

/// An attribute with such a text, if it has one.
fn with_text(
    number: u32,
    name: &Txt,
    text: Option<Txt>,
    progress: &mut Progress,
) -> Result<Option<ItemAttribute>, Exit>
    ensures means { (fields : Fields) → AgreesAs option_to_list result (reached progress.new fields) (spec.with_text number name.now text (reached progress.old fields)) }
    ensures left { progress.new.left ≡ progress.old.left }
{
    let Some(said) = text else {
        return Ok(None);
    };
    begun(bytes_in(name) + bytes_in(&said), progress)?;
    Ok(Some(ItemAttribute {
        number,
        name: name.clone()?,
        value: ItemValue::Text(said),
    }))
}

/// A handler, which has no id yet.
fn with_handler(
    number: u32,
    name: &Txt,
    handler: Bound,
    progress: &mut Progress,
) -> Result<Option<ItemAttribute>, Exit>
    ensures means { (fields : Fields) → AgreesAs option_to_list result (reached progress.new fields) (spec.with_handler number name.now (handler.who, handler.place, handler.captures) (reached progress.old fields)) }
    ensures left { progress.new.left ≡ progress.old.left }
{
    begun(bytes_in(name), progress)?;
    Ok(Some(ItemAttribute {
        number,
        name: name.clone()?,
        value: ItemValue::Handler(ItemHandler {
            id: 0,
            who: handler.who,
            place: handler.place,
            captures: handler.captures,
        }),
    }))
}

/// The handler that a value is; none where it is null.
fn handler_of(
    number: u32,
    name: &Txt,
    value: Value,
    progress: &mut Progress,
) -> Result<Option<ItemAttribute>, Exit>
    ensures means { (fields : Fields) → AgreesAs option_to_list result (reached progress.new fields) (spec.handler_of number name.now value (reached progress.old fields)) }
    ensures left { progress.new.left ≡ progress.old.left }
{
    if is_null(&value) {
        return Ok(None);
    }
    match into_callback(value) {
        Some(handler) => with_handler(number, name, handler, progress),
        None => Err(Exit::Stuck),
    }
}

/// An attribute without a value: an empty text.
#[tactic(auto, unfolding(drawing_meaning::specs::Attributes::empty))]
fn empty(
    around: &Around<'_>,
    number: u32,
    name: &Txt,
    progress: &mut Progress,
) -> Result<Option<ItemAttribute>, Exit>
    ensures means { (fields : Fields) (stage : Stage) → AgreesAs option_to_list result (reached progress.new fields) (spec.empty number name.now stage (reached progress.old fields)) }
    ensures spent { progress.new.left ≤ progress.old.left }
{
    pay(progress)?;
    with_text(number, name, Some(Txt::new(around.alloc)), progress)
}

/// An attribute whose value is one expression.
#[tactic(auto, unfolding(drawing_meaning::specs::Attributes::whole))]
fn whole<O: Owners>(
    around: &Around<'_>,
    number: u32,
    name: &Txt,
    code: &Code,
    progress: &mut Progress,
    owners: &O,
) -> Result<Option<ItemAttribute>, Exit>
    ensures means { AgreesAs option_to_list result (reached progress.new (O.fields owners.now))
        (spec.whole number name.now code.now (stage_in around.now (O.parameters owners.now)) (reached progress.old (O.fields owners.now))) }
    ensures spent { progress.new.left ≤ progress.old.left }
{
    pay(progress)?;
    let value = value_of(around, code, progress, owners)?;
    let text = attribute_text(around.alloc, &value, progress)?;
    with_text(number, name, text, progress)
}

/// An attribute whose value is one new text of several parts.
#[tactic(auto, unfolding(drawing_meaning::specs::Attributes::mixed))]
fn mixed<O: Owners>(
    around: &Around<'_>,
    number: u32,
    name: &Txt,
    parts: &[TextPart],
    progress: &mut Progress,
    owners: &O,
) -> Result<Option<ItemAttribute>, Exit>
    ensures means { AgreesAs option_to_list result (reached progress.new (O.fields owners.now))
        (spec.mixed number name.now (map said_by parts.now) (stage_in around.now (O.parameters owners.now)) (reached progress.old (O.fields owners.now))) }
    ensures spent { progress.new.left ≤ progress.old.left }
{
    pay(progress)?;
    let said = all_said(around, parts, progress, owners)?;
    let text = shown(around.alloc, &Value::Text(said), progress)?;
    with_text(number, name, Some(text), progress)
}

/// An event.
#[tactic(auto, unfolding(drawing_meaning::specs::Attributes::event))]
fn event<O: Owners>(
    around: &Around<'_>,
    number: u32,
    name: &Txt,
    code: &Code,
    progress: &mut Progress,
    owners: &O,
) -> Result<Option<ItemAttribute>, Exit>
    ensures means { AgreesAs option_to_list result (reached progress.new (O.fields owners.now))
        (spec.event number name.now code.now (stage_in around.now (O.parameters owners.now)) (reached progress.old (O.fields owners.now))) }
    ensures spent { progress.new.left ≤ progress.old.left }
{
    pay(progress)?;
    let value = value_of(around, code, progress, owners)?;
    handler_of(number, name, value, progress)
}

/// The handler of the body of a number, of the present instance.
#[tactic(auto, unfolding(drawing_meaning::specs::Attributes::own_handler))]
fn own_handler(
    around: &Around<'_>,
    number: u32,
    name: &Txt,
    place: u32,
    progress: &mut Progress,
) -> Result<Option<ItemAttribute>, Exit>
    ensures means { (fields parameters : Fields) → AgreesAs option_to_list result (reached progress.new fields)
        (spec.own_handler number name.now place (stage_in around.now parameters) (reached progress.old fields)) }
    ensures spent { progress.new.left ≤ progress.old.left }
{
    pay(progress)?;
    let handler = Bound {
        who: around.who,
        place,
        captures: Items::new(around.alloc),
    };
    with_handler(number, name, handler, progress)
}

/// An attribute, if there is one, behind a key.
fn worn(alloc: Global, one: Option<ItemAttribute>, key: Value) -> Result<Dress, AllocError>
    ensures { IfOk result (λ it. it ≡ spec.dress (option_to_list one) key) }
{
    let mut worn = Items::new(alloc);
    if let Some(one) = one {
        worn.push(one)?;
    }
    Ok(Dress { worn, key })
}

/// What one attribute makes, behind those before it.
fn attribute<O: Owners>(
    around: &Around<'_>,
    part: &AttributePart,
    key: Value,
    progress: &mut Progress,
    owners: &O,
) -> Result<Dress, Exit>
    ensures means { Agrees result (reached progress.new (O.fields owners.now))
        (dressed_by part.now (stage_in around.now (O.parameters owners.now)) key (reached progress.old (O.fields owners.now))) }
    ensures spent { progress.new.left ≤ progress.old.left }
{
    let alloc = around.alloc;
    match part {
        AttributePart::Key(code) => {
            let key = value_of(around, code, progress, owners)?;
            Ok(worn(alloc, None, key)?)
        }
        AttributePart::Empty { number, name } => {
            let one = empty(around, *number, name, progress)?;
            Ok(worn(alloc, one, key)?)
        }
        AttributePart::Whole { number, name, code } => {
            let one = whole(around, *number, name, code, progress, owners)?;
            Ok(worn(alloc, one, key)?)
        }
        AttributePart::Mixed {
            number,
            name,
            parts,
        } => {
            let one = mixed(around, *number, name, parts.as_slice(), progress, owners)?;
            Ok(worn(alloc, one, key)?)
        }
        AttributePart::Event { number, name, code } => {
            let one = event(around, *number, name, code, progress, owners)?;
            Ok(worn(alloc, one, key)?)
        }
        AttributePart::Handler {
            number,
            name,
            place,
        } => {
            let one = own_handler(around, *number, name, *place, progress)?;
            Ok(worn(alloc, one, key)?)
        }
    }
}

/// What attributes make, one after another.
#[tactic(auto, using(crate::proofs::SequenceLemmas::worn_start, crate::proofs::SequenceLemmas::worn_behind, crate::proofs::SequenceLemmas::worn_end), unfolding(drawing_meaning::specs::Attributes::all_worn))]
pub(crate) fn all_worn<O: Owners>(
    around: &Around<'_>,
    parts: &[AttributePart],
    progress: &mut Progress,
    owners: &O,
) -> Result<Dress, Exit>
    ensures means { Agrees result (reached progress.new (O.fields owners.now))
        (spec.all_worn (map dressed_by parts.now) (stage_in around.now (O.parameters owners.now)) Null (reached progress.old (O.fields owners.now))) }
    ensures spent { progress.new.left ≤ progress.old.left }
{
    let mut worn = Items::new(around.alloc);
    let mut key = Value::Null;
    for part in parts {
        let more = attribute(around, part, key, progress, owners)?;
        worn.append(more.worn)?;
        key = more.key;
    }
    Ok(Dress { worn, key })
}
