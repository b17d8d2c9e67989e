// Types as they are written, and records.
ghost use Rattle.std.specs.Prelude.{◌≡◌, IfOk, map, is_some, if◌then◌else◌, option_map};
ghost use Rattle.cs_rules.specs.Written as spec;
ghost use Rattle.cs_forms.specs.Agrees.{Agrees};
ghost use Rattle.cs_forms.specs.Views.{declared};

use crate::CheckFault;
use cs_ast::{Argument, CsType, Member, MemberKind, TypeExpr, TypeKind};
use cs_rules::Rule;
use sqlite_items::{Boxed, Items};
use std::alloc::{AllocError, Global};
use text_core::{Place, Txt};

/// The type that is written.
#[cycle(written)]
#[tactic(auto, using(cs_rules::proofs::WrittenLaws::type_int, cs_rules::proofs::WrittenLaws::type_bool, cs_rules::proofs::WrittenLaws::type_text, cs_rules::proofs::WrittenLaws::type_named, cs_rules::proofs::WrittenLaws::type_list, cs_rules::proofs::WrittenLaws::type_callback_none, cs_rules::proofs::WrittenLaws::type_callback_some, cs_rules::proofs::WrittenLaws::type_fragment_none, cs_rules::proofs::WrittenLaws::type_fragment_some, cs_rules::proofs::WrittenLaws::type_change, cs_rules::proofs::WrittenLaws::type_args))]
pub fn type_of(alloc: Global, written: &TypeExpr) -> Result<CsType, AllocError>
    ensures { IfOk result (λ cs_type. cs_type ≡ spec.type_of written.now) }
{
    match &written.kind {
        TypeKind::Int => Ok(CsType::Int),
        TypeKind::Bool => Ok(CsType::Bool),
        TypeKind::Text => Ok(CsType::Text),
        TypeKind::Named(name) => Ok(CsType::Rec(name.clone()?)),
        TypeKind::List(item) => Ok(CsType::List(boxed_type(alloc, item)?)),
        TypeKind::Callback(argument) => match argument {
            None => Ok(CsType::Callback(None)),
            Some(argument) => Ok(CsType::Callback(Some(boxed_type(alloc, argument)?))),
        },
        TypeKind::Fragment(argument) => match argument {
            None => Ok(CsType::Fragment(None)),
            Some(argument) => Ok(CsType::Fragment(Some(boxed_type(alloc, argument)?))),
        },
        TypeKind::Change => Ok(CsType::Change),
        TypeKind::Args => Ok(CsType::Args),
    }
}

#[cycle(written)]
fn boxed_type(alloc: Global, written: &Boxed<TypeExpr>) -> Result<Boxed<CsType>, AllocError>
    ensures { IfOk result (λ cs_type. cs_type ≡ spec.type_of written.now) }
{
    Boxed::new(alloc, type_of(alloc, written.get())?)
}

/// The parts of a record with this name.
fn parts_of<'a>(name: &Txt, kind: &'a MemberKind) -> Option<&'a [Argument]>
    ensures { option_map (λ parts. parts.now) result ≡ spec.parts_of name.now kind.now }
{
    match kind {
        MemberKind::RecordDef { name: other, parts } if other.name == *name => {
            Some(parts.as_slice())
        }
        _ => None,
    }
}

/// A record: its place among the records, which is its number, and its parts.
#[derive(Clone, Copy)]
pub struct Declared<'a> {
    pub number: usize,
    pub parts: &'a [Argument],
}

/// The first record of this name.
#[tactic(auto, unfolding(cs_rules::specs::Written::record_named))]
pub fn record_named<'a>(records: &'a [Member], name: &Txt) -> Option<Declared<'a>>
    ensures { option_map declared result ≡ spec.record_named records.now name.now }
{
    for (number, member) in records.iter().enumerate() {
        if let Some(parts) = parts_of(name, &member.kind) {
            return Some(Declared { number, parts });
        }
    }
    None
}

/// The place, where no record has the name.
fn unknown_record(records: &[Member], name: &Txt, place: Place) -> Option<Place>
    ensures { result ≡ (if is_some (spec.record_named records.now name.now) then None else Some place) }
{
    match record_named(records, name) {
        Some(_) => None,
        None => Some(place),
    }
}

/// The types of the parts.
pub fn part_types(alloc: Global, parts: &[Argument]) -> Result<Items<CsType>, AllocError>
    ensures { IfOk result (λ types. types ≡ map (λ part. spec.type_of part.cs_type) parts.now) }
{
    let mut types = Items::new(alloc);
    for part in parts {
        types.push(type_of(alloc, &part.cs_type)?)?;
    }
    Ok(types)
}

/// Where a written type is none that values of fields, locals and parts may have.
#[tactic(auto, using(cs_rules::proofs::WrittenLaws::unknown_int, cs_rules::proofs::WrittenLaws::unknown_bool, cs_rules::proofs::WrittenLaws::unknown_text, cs_rules::proofs::WrittenLaws::unknown_named, cs_rules::proofs::WrittenLaws::unknown_list, cs_rules::proofs::WrittenLaws::unknown_callback, cs_rules::proofs::WrittenLaws::unknown_fragment, cs_rules::proofs::WrittenLaws::unknown_change, cs_rules::proofs::WrittenLaws::unknown_args))]
pub fn unknown_in(written: &TypeExpr, records: &[Member]) -> Option<Place>
    ensures { result ≡ spec.unknown_in records.now written.now }
{
    match &written.kind {
        TypeKind::Int | TypeKind::Bool | TypeKind::Text => None,
        TypeKind::Named(name) => unknown_record(records, name, written.place),
        TypeKind::List(item) => unknown_in(item.get(), records),
        TypeKind::Callback(_) | TypeKind::Fragment(_) | TypeKind::Change | TypeKind::Args => {
            Some(written.place)
        }
    }
}

/// The written type, where values of fields, locals and parts may have it.
#[tactic(auto, unfolding(cs_rules::specs::Written::written))]
pub fn written(alloc: Global, records: &[Member], cs_type: &TypeExpr) -> Result<CsType, CheckFault>
    ensures { Agrees result (spec.written records.now cs_type.now) }
{
    match unknown_in(cs_type, records) {
        Some(place) => Err(CheckFault::Broken {
            rule: Rule::UnknownType,
            place,
        }),
        None => Ok(type_of(alloc, cs_type)?),
    }
}
