// The members of the library.
ghost use Rattle.std.specs.Prelude.{◌≡◌, ◌≤◌, ◌+◌, ◌-◌, ◌^◌, min, length, insert, count_by, nat_le, pos, IfOk};
ghost use Rattle.cs_ast.specs.declared.value.Value.TheVariants.{Int};
ghost use Rattle.cs_meaning.specs.State.{State, Fields};
ghost use Rattle.cs_meaning.specs.Library as spec;
ghost use Rattle.cs_eval.specs.Agrees.{Agrees, AgreesAs, reached};

use crate::charging::made;
use crate::copying::copy_all;
use crate::exit::Exit;
use crate::kinds::{into_callback, is_null, string};
use crate::progress::Progress;
use crate::reading::{place_of, use_items};
use crate::texts::shown;
use cs_ast::{LibraryMember, Value};
use cs_meaning::Fault;
use sqlite_items::Items;
use std::alloc::{AllocError, Global};
use text_core::Txt;

/// The only argument.
#[tactic(auto, using(crate::proofs::ArgumentLemmas::one_some, crate::proofs::ArgumentLemmas::one_none))]
fn one_of(mut arguments: Vec<Value>) -> Result<Value, Exit>
    ensures { (s : State) → Agrees result s (spec.one_of arguments.items s) }
{
    if arguments.len() != 1 {
        return Err(Exit::Stuck);
    }
    Ok(arguments.remove(0))
}

/// The two arguments.
#[tactic(auto, using(crate::proofs::ArgumentLemmas::two_some, crate::proofs::ArgumentLemmas::two_none))]
fn two_of(mut arguments: Vec<Value>) -> Result<(Value, Value), Exit>
    ensures { (s : State) → Agrees result s (spec.two_of arguments.items s) }
{
    if arguments.len() != 2 {
        return Err(Exit::Stuck);
    }
    let second = arguments.remove(1);
    let first = arguments.remove(0);
    Ok((first, second))
}

/// The three arguments.
#[tactic(auto, using(crate::proofs::ArgumentLemmas::three_some, crate::proofs::ArgumentLemmas::three_none))]
fn three_of(mut arguments: Vec<Value>) -> Result<(Value, Value, Value), Exit>
    ensures { (s : State) → Agrees result s (spec.three_of arguments.items s) }
{
    if arguments.len() != 3 {
        return Err(Exit::Stuck);
    }
    let third = arguments.remove(2);
    let second = arguments.remove(1);
    let first = arguments.remove(0);
    Ok((first, second, third))
}

/// A count as a number, or the greatest number where it is greater.
fn counted(count: usize) -> Value
    ensures { result ≡ Int (pos (min count (2 ^ 31 - 1))) }
{
    Value::Int(count.min(i32::MAX as usize) as i32)
}

/// The characters of a text from U+10000 on.
fn wide_characters(text: &Txt) -> usize
    ensures { result ≡ count_by (λ character. nat_le 65536 character) text.now }
{
    text.as_str().chars().filter(|c| *c >= '\u{10000}').count()
}

fn characters(text: &Txt) -> usize
    ensures { result ≡ length text.now }
{
    text.as_str().chars().count()
}

/// The UTF-16 units of a text, or the greatest number where there are more.
fn utf16_units(text: &Txt) -> usize
    ensures { result ≡ min (spec.utf16_units text.now) (2 ^ 64 - 1) }
{
    characters(text).saturating_add(wide_characters(text))
}

fn length_of(value: &Value) -> Result<Value, Exit>
    ensures { (s : State) → Agrees result s (spec.length_of value.now s) }
{
    if is_null(value) {
        return Err(Exit::Fault(Fault::NullUse));
    }
    match string(value) {
        Some(text) => Ok(counted(utf16_units(text))),
        None => Err(Exit::Stuck),
    }
}

fn to_text(alloc: Global, value: &Value, progress: &mut Progress) -> Result<Value, Exit>
    ensures means { (fields : Fields) → Agrees result (reached progress.new fields) (spec.to_text value.now (reached progress.old fields)) }
    ensures spent { progress.new.left ≤ progress.old.left }
{
    if is_null(value) {
        return Err(Exit::Fault(Fault::NullUse));
    }
    match shown(alloc, value)? {
        Some(text) => made(Value::Text(text), progress),
        None => Err(Exit::Stuck),
    }
}

fn is_null_or_empty(value: &Value) -> Result<Value, Exit>
    ensures { (s : State) → Agrees result s (spec.is_null_or_empty value.now s) }
{
    if is_null(value) {
        return Ok(Value::Bool(true));
    }
    match string(value) {
        Some(text) => Ok(Value::Bool(text.first().is_none())),
        None => Err(Exit::Stuck),
    }
}

fn count_of(value: Value) -> Result<Value, Exit>
    ensures { (s : State) → Agrees result s (spec.count_of value s) }
{
    let items = use_items(value)?;
    Ok(counted(items.len()))
}

fn list_add(list: Value, item: Value, progress: &mut Progress) -> Result<Value, Exit>
    ensures means { (fields : Fields) → Agrees result (reached progress.new fields) (spec.list_add list item (reached progress.old fields)) }
    ensures spent { progress.new.left ≤ progress.old.left }
{
    let mut items = use_items(list)?;
    items.push(item)?;
    made(Value::List(items), progress)
}

/// The items with one more before the item at this index, or at the end.
fn inserted(
    alloc: Global,
    items: &[Value],
    at: usize,
    item: Value,
) -> Result<Items<Value>, AllocError>
    requires { at ≤ length items.now }
    ensures { IfOk result (λ more. more ≡ insert items.now at item) }
{
    let (front, behind) = items.split_at(at);
    let mut more = copy_all(alloc, front)?;
    more.push(item)?;
    more.append(copy_all(alloc, behind)?)?;
    Ok(more)
}

fn list_insert(
    alloc: Global,
    list: Value,
    place: &Value,
    item: Value,
    progress: &mut Progress,
) -> Result<Value, Exit>
    ensures means { (fields : Fields) → Agrees result (reached progress.new fields) (spec.list_insert list place.now item (reached progress.old fields)) }
    ensures spent { progress.new.left ≤ progress.old.left }
{
    let items = use_items(list)?;
    let items = items.as_slice();
    let at = place_of(items.len() + 1, place)?;
    made(Value::List(inserted(alloc, items, at, item)?), progress)
}

fn list_remove(list: Value, place: &Value, progress: &mut Progress) -> Result<Value, Exit>
    ensures means { (fields : Fields) → Agrees result (reached progress.new fields) (spec.list_remove list place.now (reached progress.old fields)) }
    ensures spent { progress.new.left ≤ progress.old.left }
{
    let mut items = use_items(list)?;
    let at = place_of(items.len(), place)?;
    items.remove(at);
    made(Value::List(items), progress)
}

fn list_set(list: Value, place: &Value, item: Value, progress: &mut Progress) -> Result<Value, Exit>
    ensures means { (fields : Fields) → Agrees result (reached progress.new fields) (spec.list_set list place.now item (reached progress.old fields)) }
    ensures spent { progress.new.left ≤ progress.old.left }
{
    let mut items = use_items(list)?;
    let at = place_of(items.len(), place)?;
    items.set(at, item);
    made(Value::List(items), progress)
}

fn has_delegate(value: Value) -> Result<Value, Exit>
    ensures { (s : State) → Agrees result s (spec.has_delegate value s) }
{
    if is_null(&value) {
        return Ok(Value::Bool(false));
    }
    match into_callback(value) {
        Some(_) => Ok(Value::Bool(true)),
        None => Err(Exit::Stuck),
    }
}

fn change_value(value: Value) -> Result<Value, Exit>
    ensures { (s : State) → Agrees result s (spec.change_value value s) }
{
    if is_null(&value) {
        return Err(Exit::Fault(Fault::NullUse));
    }
    match string(&value) {
        Some(_) => Ok(value),
        None => Err(Exit::Stuck),
    }
}

/// What a member gives of its target, if it has one, and its arguments.
pub(crate) fn library(
    alloc: Global,
    member: LibraryMember,
    arguments: Vec<Value>,
    progress: &mut Progress,
) -> Result<Value, Exit>
    ensures means { (fields : Fields) → Agrees result (reached progress.new fields) (spec.library member arguments.items (reached progress.old fields)) }
    ensures spent { progress.new.left ≤ progress.old.left }
{
    match member {
        LibraryMember::Length => length_of(&one_of(arguments)?),
        LibraryMember::ToText => to_text(alloc, &one_of(arguments)?, progress),
        LibraryMember::IsNullOrEmpty => is_null_or_empty(&one_of(arguments)?),
        LibraryMember::EmptyList if arguments.is_empty() => {
            made(Value::List(Items::new(alloc)), progress)
        }
        LibraryMember::EmptyList => Err(Exit::Stuck),
        LibraryMember::Count => count_of(one_of(arguments)?),
        LibraryMember::Add => {
            let (list, item) = two_of(arguments)?;
            list_add(list, item, progress)
        }
        LibraryMember::Insert => {
            let (list, place, item) = three_of(arguments)?;
            list_insert(alloc, list, &place, item, progress)
        }
        LibraryMember::RemoveAt => {
            let (list, place) = two_of(arguments)?;
            list_remove(list, &place, progress)
        }
        LibraryMember::SetItem => {
            let (list, place, item) = three_of(arguments)?;
            list_set(list, &place, item, progress)
        }
        LibraryMember::HasDelegate => has_delegate(one_of(arguments)?),
        LibraryMember::ChangeValue => change_value(one_of(arguments)?),
    }
}
