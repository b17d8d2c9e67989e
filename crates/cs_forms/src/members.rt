// What a name stands for behind a dot, by the type before it.
ghost use Rattle.std.specs.Prelude.{◌≡◌, [], ◌∷◌, IfOk, option_map};
ghost use Rattle.cs_ast.specs.declared.cs_type.CsType.TheVariants as ty;
ghost use Rattle.cs_rules.specs.declared.callee.Dotted.TheVariants as dotted_by;
ghost use Rattle.cs_rules.specs.Library as spec;
ghost use Rattle.cs_rules.specs.Written as written_spec;

use crate::types::copy_type;
use crate::written::{record_named, type_of};
use cs_ast::{Argument, CsType, LibraryMember, Member};
use cs_rules::Dotted;
use sqlite_items::{Boxed, Items};
use std::alloc::Global;
use text_core::{Oom, Txt};

/// A position as code has it.
pub fn narrowed(position: usize) -> Result<u32, Oom>
    ensures { IfOk result (λ narrow. narrow ≡ position) }
{
    if position > 0xffff_ffff {
        return Err(Oom);
    }
    Ok(position as u32)
}

/// A part of a record: its position and its type.
#[derive(Drop)]
pub struct Part {
    pub number: u32,
    pub cs_type: CsType,
}

/// The part of this name.
pub fn part_named(alloc: Global, parts: &[Argument], name: &Txt) -> Result<Option<Part>, Oom>
    ensures { IfOk result (λ found. option_map (λ part. (part.number, part.cs_type)) found ≡ spec.part_from 0 name.now parts.now) }
{
    for (number, part) in parts.iter().enumerate() {
        if part.name.name == *name {
            let number = narrowed(number)?;
            let cs_type = type_of(alloc, &part.cs_type)?;
            return Ok(Some(Part { number, cs_type }));
        }
    }
    Ok(None)
}

pub fn one(alloc: Global, first: CsType) -> Result<Items<CsType>, Oom>
    ensures { IfOk result (λ types. types ≡ first ∷ []) }
{
    let mut types = Items::new(alloc);
    types.push(first)?;
    Ok(types)
}

/// A copy of the type alone.
pub fn copied_one(alloc: Global, cs_type: &CsType) -> Result<Items<CsType>, Oom>
    ensures { IfOk result (λ types. types ≡ cs_type.now ∷ []) }
{
    let copied = copy_type(alloc, cs_type)?;
    one(alloc, copied)
}

fn two(alloc: Global, first: CsType, second: CsType) -> Result<Items<CsType>, Oom>
    ensures { IfOk result (λ types. types ≡ first ∷ second ∷ []) }
{
    let mut types = one(alloc, first)?;
    types.push(second)?;
    Ok(types)
}

fn of_all(alloc: Global, name: &Txt) -> Option<Dotted>
    ensures { result ≡ spec.entry name.now spec.of_all }
{
    if name.is("ToString") {
        return Some(Dotted::Method(LibraryMember::ToText, Items::new(alloc), CsType::Text));
    }
    None
}

fn of_texts(alloc: Global, name: &Txt) -> Option<Dotted>
    ensures { result ≡ spec.entry name.now spec.of_texts }
{
    if name.is("Length") {
        return Some(Dotted::Property(LibraryMember::Length, CsType::Int));
    }
    of_all(alloc, name)
}

/// A method of lists that gives a list.
fn list_method(
    alloc: Global,
    member: LibraryMember,
    takes: Items<CsType>,
    item: &CsType,
) -> Result<Option<Dotted>, Oom>
    ensures { IfOk result (λ found. found ≡ Some (dotted_by.Method member takes (ty.List item.now))) }
{
    let gives = CsType::List(Boxed::new(alloc, copy_type(alloc, item)?)?);
    Ok(Some(Dotted::Method(member, takes, gives)))
}

fn of_lists(alloc: Global, item: &CsType, name: &Txt) -> Result<Option<Dotted>, Oom>
    ensures { IfOk result (λ found. found ≡ spec.entry name.now (spec.of_lists item.now)) }
{
    if name.is("Count") {
        return Ok(Some(Dotted::Property(LibraryMember::Count, CsType::Int)));
    }
    if name.is("Add") {
        let takes = copied_one(alloc, item)?;
        return list_method(alloc, LibraryMember::Add, takes, item);
    }
    if name.is("Insert") {
        let takes = two(alloc, CsType::Int, copy_type(alloc, item)?)?;
        return list_method(alloc, LibraryMember::Insert, takes, item);
    }
    if name.is("RemoveAt") {
        let takes = one(alloc, CsType::Int)?;
        return list_method(alloc, LibraryMember::RemoveAt, takes, item);
    }
    if name.is("SetItem") {
        let takes = two(alloc, CsType::Int, copy_type(alloc, item)?)?;
        return list_method(alloc, LibraryMember::SetItem, takes, item);
    }
    Ok(None)
}

fn argument_types(alloc: Global, argument: &Option<Boxed<CsType>>) -> Result<Items<CsType>, Oom>
    ensures { IfOk result (λ types. types ≡ spec.argument_types argument.now) }
{
    match argument {
        None => Ok(Items::new(alloc)),
        Some(argument) => copied_one(alloc, argument.get()),
    }
}

fn of_callbacks(
    alloc: Global,
    argument: &Option<Boxed<CsType>>,
    name: &Txt,
) -> Result<Option<Dotted>, Oom>
    ensures { IfOk result (λ found. found ≡ spec.entry name.now (spec.of_callbacks argument.now)) }
{
    if name.is("HasDelegate") {
        return Ok(Some(Dotted::Property(LibraryMember::HasDelegate, CsType::Bool)));
    }
    if name.is("InvokeAsync") {
        return Ok(Some(Dotted::Invoke(argument_types(alloc, argument)?)));
    }
    Ok(None)
}

fn of_changes(name: &Txt) -> Option<Dotted>
    ensures { result ≡ spec.entry name.now spec.of_changes }
{
    if name.is("Value") {
        return Some(Dotted::Property(LibraryMember::ChangeValue, CsType::Text));
    }
    None
}

/// The part of a record, as what stands behind a dot.
fn of_records(
    alloc: Global,
    records: &[Member],
    record_name: &Txt,
    name: &Txt,
) -> Result<Option<Dotted>, Oom>
    ensures { IfOk result (λ found. found ≡ spec.part_named (written_spec.record_named records.now record_name.now) name.now) }
{
    let Some(found) = record_named(records, record_name) else {
        return Ok(None);
    };
    match part_named(alloc, found.parts, name)? {
        Some(part) => Ok(Some(Dotted::Part(part.number, part.cs_type))),
        None => Ok(None),
    }
}

/// What a name stands for behind a dot, by the type before it.
#[tactic(auto, unfolding(cs_rules::specs::Library::behind), using(cs_rules::proofs::TypeLaws::out_int, cs_rules::proofs::TypeLaws::out_bool, cs_rules::proofs::TypeLaws::out_text, cs_rules::proofs::TypeLaws::out_rec, cs_rules::proofs::TypeLaws::out_list, cs_rules::proofs::TypeLaws::out_callback, cs_rules::proofs::TypeLaws::out_fragment, cs_rules::proofs::TypeLaws::out_change, cs_rules::proofs::TypeLaws::out_args, cs_rules::proofs::TypeLaws::out_nothing))]
pub fn behind(
    alloc: Global,
    records: &[Member],
    cs_type: &CsType,
    name: &Txt,
) -> Result<Option<Dotted>, Oom>
    ensures { IfOk result (λ found. found ≡ spec.behind records.now cs_type.now name.now) }
{
    match cs_type {
        CsType::Int | CsType::Bool => Ok(of_all(alloc, name)),
        CsType::Text => Ok(of_texts(alloc, name)),
        CsType::Rec(record_name) => of_records(alloc, records, record_name, name),
        CsType::List(item) => of_lists(alloc, item.get(), name),
        CsType::Callback(argument) => of_callbacks(alloc, argument, name),
        CsType::Change => Ok(of_changes(name)),
        CsType::Fragment(_) | CsType::Args | CsType::Nothing => Ok(None),
    }
}
