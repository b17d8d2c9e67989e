// Texts, markup and fragments.
ghost use Rattle.std.specs.Prelude.{◌≡◌, ◌≤◌, [], ◌∷◌, IfOk};
ghost use Rattle.std.specs.Option.{option_to_list};
ghost use Rattle.cs_meaning.specs.State.{Fields};
ghost use Rattle.drawing_meaning.specs.Acts.{output};
ghost use Rattle.drawing_meaning.specs.Nodes as spec;
ghost use Rattle.frame_program.specs.Operations.{appears_in};
ghost use Rattle.frame_run.specs.Agrees.{Agrees, AgreesAs, reached, stage_in};

use crate::charging::pay;
use crate::children::all_siblings;
use crate::copying::copy_locals;
use crate::counting::{begun_at, bytes_in};
use crate::evaluating::value_of;
use crate::exit::Exit;
use crate::kinds::{Bound, into_fragment, is_null};
use crate::progress::{Around, Progress};
use crate::texts::shown;
use cs_ast::{Code, Value};
use cs_eval::Owners;
use cs_meaning::Fault;
use drawing_meaning::{Output, PageFault};
use frame_core::Item;
use frame_program::ContentForm;
use sqlite_items::Items;
use std::alloc::{AllocError, Global};
use std::mem;
use text_core::Txt;

/// How deep calls may be.
const DEEPEST: u32 = 100;

/// One item alone.
pub(crate) fn one(alloc: Global, item: Item) -> Result<Output, AllocError>
    ensures { IfOk result (λ out. out ≡ output (item ∷ [])) }
{
    let mut items = Items::new(alloc);
    items.push(item)?;
    Ok(Output {
        items,
        broke: false,
    })
}

/// The item that there is, if there is one.
fn if_any(alloc: Global, item: Option<Item>) -> Result<Output, AllocError>
    ensures { IfOk result (λ out. out ≡ output (option_to_list item)) }
{
    match item {
        Some(item) => one(alloc, item),
        None => Ok(Output {
            items: Items::new(alloc),
            broke: false,
        }),
    }
}

/// A literal text.
#[tactic(auto, unfolding(drawing_meaning::specs::Nodes::text))]
pub(crate) fn literal(
    around: &Around<'_>,
    number: u32,
    text: &Txt,
    progress: &mut Progress,
) -> Result<Output, Exit>
    ensures means { (fields parameters : Fields) → Agrees result (reached progress.new fields)
        (spec.text number text.now (stage_in around.now parameters) (reached progress.old fields)) }
    ensures spent { progress.new.left ≤ progress.old.left }
{
    pay(progress)?;
    begun_at(around.depth, bytes_in(text), progress)?;
    let text = text.clone()?;
    Ok(one(around.alloc, Item::Text { number, text })?)
}

/// A literal text that is markup.
#[tactic(auto, unfolding(drawing_meaning::specs::Nodes::raw))]
pub(crate) fn raw(
    around: &Around<'_>,
    number: u32,
    text: &Txt,
    progress: &mut Progress,
) -> Result<Output, Exit>
    ensures means { (fields parameters : Fields) → Agrees result (reached progress.new fields)
        (spec.raw number text.now (stage_in around.now parameters) (reached progress.old fields)) }
    ensures spent { progress.new.left ≤ progress.old.left }
{
    pay(progress)?;
    begun_at(around.depth, bytes_in(text), progress)?;
    let text = text.clone()?;
    Ok(one(around.alloc, Item::Markup { number, text })?)
}

/// A value as a text.
#[tactic(auto, unfolding(drawing_meaning::specs::Nodes::as_text))]
fn as_text(
    around: &Around<'_>,
    number: u32,
    value: &Value,
    progress: &mut Progress,
) -> Result<Option<Item>, Exit>
    ensures means { (fields parameters : Fields) → AgreesAs option_to_list result (reached progress.new fields)
        (spec.as_text number value.now (stage_in around.now parameters) (reached progress.old fields)) }
    ensures spent { progress.new.left ≤ progress.old.left }
{
    let text = shown(around.alloc, value, progress)?;
    begun_at(around.depth, bytes_in(&text), progress)?;
    Ok(Some(Item::Text { number, text }))
}

/// A value as markup.
#[tactic(auto, unfolding(drawing_meaning::specs::Nodes::as_markup))]
fn as_markup(
    around: &Around<'_>,
    number: u32,
    value: &Value,
    progress: &mut Progress,
) -> Result<Option<Item>, Exit>
    ensures means { (fields parameters : Fields) → AgreesAs option_to_list result (reached progress.new fields)
        (spec.as_markup number value.now (stage_in around.now parameters) (reached progress.old fields)) }
    ensures spent { progress.new.left ≤ progress.old.left }
{
    let text = shown(around.alloc, value, progress)?;
    begun_at(around.depth, bytes_in(&text), progress)?;
    Ok(Some(Item::Markup { number, text }))
}

/// What a fragment shows: its template over its captures, as code of its receiver, one call deeper.
#[cycle(drawing)]
fn show<O: Owners>(
    around: &Around<'_>,
    fragment: Bound,
    progress: &mut Progress,
    owners: &O,
) -> Result<Items<Item>, Exit>
    ensures means { Agrees result (reached progress.new (O.fields owners.now))
        ((stage_in around.now (O.parameters owners.now)).show fragment.who fragment.place fragment.captures around.now.depth (reached progress.old (O.fields owners.now))) }
    ensures spent { progress.new.left ≤ progress.old.left }
{
    if around.calls >= DEEPEST {
        return Err(Exit::Fault(PageFault::Code(Fault::CallDepth)));
    }
    let Some(operations) = around.program.fragments.get(fragment.place) else {
        return Err(Exit::Stuck);
    };
    let inside = Around {
        alloc: around.alloc,
        program: around.program,
        who: fragment.who,
        calls: around.calls + 1,
        depth: around.depth,
    };
    let captures = copy_locals(around.alloc, fragment.captures.as_slice())?;
    let outer = mem::replace(&mut progress.locals.values, captures);
    let items = all_siblings(&inside, operations.as_slice(), progress, owners)?;
    progress.locals.values = outer;
    Ok(items)
}

/// A fragment as a region with what it shows; null is none.
#[cycle(drawing)]
#[tactic(auto, unfolding(drawing_meaning::specs::Nodes::as_fragment))]
fn as_fragment<O: Owners>(
    around: &Around<'_>,
    number: u32,
    value: Value,
    progress: &mut Progress,
    owners: &O,
) -> Result<Option<Item>, Exit>
    ensures means { AgreesAs option_to_list result (reached progress.new (O.fields owners.now))
        (spec.as_fragment number value (stage_in around.now (O.parameters owners.now)) (reached progress.old (O.fields owners.now))) }
    ensures spent { progress.new.left ≤ progress.old.left }
{
    if is_null(&value) {
        return Ok(None);
    }
    let Some(fragment) = into_fragment(value) else {
        return Err(Exit::Stuck);
    };
    let children = show(around, fragment, progress, owners)?;
    Ok(Some(Item::Region {
        number,
        key: Value::Null,
        children,
    }))
}

/// A value as it is shown.
#[cycle(drawing)]
fn appears<O: Owners>(
    around: &Around<'_>,
    number: u32,
    form: ContentForm,
    value: Value,
    progress: &mut Progress,
    owners: &O,
) -> Result<Option<Item>, Exit>
    ensures means { AgreesAs option_to_list result (reached progress.new (O.fields owners.now))
        (appears_in form number value (stage_in around.now (O.parameters owners.now)) (reached progress.old (O.fields owners.now))) }
    ensures spent { progress.new.left ≤ progress.old.left }
{
    match form {
        ContentForm::Text => as_text(around, number, &value, progress),
        ContentForm::Markup => as_markup(around, number, &value, progress),
        ContentForm::Fragment => as_fragment(around, number, value, progress, owners),
    }
}

/// The value of an expression as content.
#[cycle(drawing)]
#[tactic(auto, unfolding(drawing_meaning::specs::Nodes::content))]
pub(crate) fn content<O: Owners>(
    around: &Around<'_>,
    number: u32,
    form: ContentForm,
    code: &Code,
    progress: &mut Progress,
    owners: &O,
) -> Result<Output, Exit>
    ensures means { Agrees result (reached progress.new (O.fields owners.now))
        (spec.content number (appears_in form) code.now (stage_in around.now (O.parameters owners.now)) (reached progress.old (O.fields owners.now))) }
    ensures spent { progress.new.left ≤ progress.old.left }
{
    pay(progress)?;
    let value = value_of(around, code, progress, owners)?;
    let item = appears(around, number, form, value, progress, owners)?;
    Ok(if_any(around.alloc, item)?)
}
