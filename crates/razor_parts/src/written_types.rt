// Types as they are written for parameters of components and arguments of methods.
ghost use Rattle.std.specs.Prelude.{◌≡◌};
ghost use Rattle.cs_rules.specs.Written.{known_type, type_of};
ghost use Rattle.cs_forms.specs.Agrees.{Agrees};
ghost use Rattle.razor_rules.specs.WrittenTypes as spec;

use cs_ast::{CsType, Member, TypeExpr, TypeKind};
use cs_forms::CheckFault;
use cs_forms::written::{type_of, unknown_in};
use cs_rules::Rule;
use sqlite_items::Boxed;
use std::alloc::Global;
use text_core::Place;

/// The type that is written, unless it is none at a place.
fn known(alloc: Global, unknown: Option<Place>, cs_type: &TypeExpr) -> Result<CsType, CheckFault>
    ensures { Agrees result (known_type unknown (type_of cs_type.now)) }
{
    match unknown {
        Some(place) => Err(CheckFault::Broken {
            rule: Rule::UnknownType,
            place,
        }),
        None => Ok(type_of(alloc, cs_type)?),
    }
}

/// Where the type of an argument is none.
#[tactic(auto, using(crate::proofs::TypeLaws::argument_int, crate::proofs::TypeLaws::argument_bool, crate::proofs::TypeLaws::argument_text, crate::proofs::TypeLaws::argument_named, crate::proofs::TypeLaws::argument_list, crate::proofs::TypeLaws::argument_callback, crate::proofs::TypeLaws::argument_fragment, crate::proofs::TypeLaws::argument_change, crate::proofs::TypeLaws::argument_args))]
fn unknown_argument(records: &[Member], cs_type: &TypeExpr) -> Option<Place>
    ensures { result ≡ spec.unknown_argument records.now cs_type.now }
{
    match &cs_type.kind {
        TypeKind::Change | TypeKind::Args => None,
        TypeKind::Int
        | TypeKind::Bool
        | TypeKind::Text
        | TypeKind::Named(_)
        | TypeKind::List(_)
        | TypeKind::Callback(_)
        | TypeKind::Fragment(_) => unknown_in(cs_type, records),
    }
}

fn unknown_if_any(records: &[Member], argument: &Option<Boxed<TypeExpr>>) -> Option<Place>
    ensures { result ≡ spec.unknown_if_any records.now argument.now }
{
    match argument {
        Some(argument) => unknown_argument(records, argument.get()),
        None => None,
    }
}

/// Where the type of a parameter is none.
#[tactic(auto, using(crate::proofs::TypeLaws::parameter_int, crate::proofs::TypeLaws::parameter_bool, crate::proofs::TypeLaws::parameter_text, crate::proofs::TypeLaws::parameter_named, crate::proofs::TypeLaws::parameter_list, crate::proofs::TypeLaws::parameter_callback, crate::proofs::TypeLaws::parameter_fragment, crate::proofs::TypeLaws::parameter_change, crate::proofs::TypeLaws::parameter_args))]
fn unknown_parameter(records: &[Member], cs_type: &TypeExpr) -> Option<Place>
    ensures { result ≡ spec.unknown_parameter records.now cs_type.now }
{
    match &cs_type.kind {
        TypeKind::Callback(argument) => unknown_if_any(records, argument),
        TypeKind::Fragment(argument) => unknown_if_any(records, argument),
        TypeKind::Int
        | TypeKind::Bool
        | TypeKind::Text
        | TypeKind::Named(_)
        | TypeKind::List(_)
        | TypeKind::Change
        | TypeKind::Args => unknown_in(cs_type, records),
    }
}

/// The type of an argument of a method.
pub fn argument_type(
    alloc: Global,
    records: &[Member],
    cs_type: &TypeExpr,
) -> Result<CsType, CheckFault>
    ensures { Agrees result (spec.argument_type records.now cs_type.now) }
{
    known(alloc, unknown_argument(records, cs_type), cs_type)
}

/// The type of a parameter of a component.
pub fn parameter_type(
    alloc: Global,
    records: &[Member],
    cs_type: &TypeExpr,
) -> Result<CsType, CheckFault>
    ensures { Agrees result (spec.parameter_type records.now cs_type.now) }
{
    known(alloc, unknown_parameter(records, cs_type), cs_type)
}
