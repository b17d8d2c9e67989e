// What tags are the tags of, and what they take.
ghost use Rattle.std.specs.Prelude.{◌≡◌, option_map, IfOk};
ghost use Rattle.std.specs.Option.{option_copied};
ghost use Rattle.cs_ast.specs.declared.cs_type.CsType.{out-CsType};
ghost use Rattle.cs_rules.specs.Written.{type_of as type_written};
ghost use Rattle.razor_rules.specs.Parameters as spec;
ghost use Rattle.razor_parts.specs.Taken as taken;
ghost use Rattle.razor_parts.specs.Taken.{written_as, argument_written};
ghost use Rattle.razor_parts.specs.Views.{home_of, tagged_view};

use crate::home::Home;
use cs_ast::{CsType, Member, MemberKind, TypeExpr, TypeKind};
use cs_forms::written::type_of;
use razor_ast::Component;
use std::alloc::{AllocError, Global};
use text_core::{Oom, Txt};

/// What a tag is the tag of.
#[derive(Clone, Copy)]
pub enum Tagged<'a> {
    CascadingValue,
    Component(&'a Component),
}

/// The component of a name.
fn component_named<'a>(components: &'a [Component], name: &Txt) -> Option<&'a Component>
    ensures { option_copied result ≡ spec.component_named components.now name.now }
{
    for component in components {
        if component.name == *name {
            return Some(component);
        }
    }
    None
}

/// What a tag of this name is the tag of, if it is of a component.
#[tactic(auto, unfolding(razor_rules::specs::Parameters::tagged))]
pub fn tagged_by<'a>(home: &Home<'a>, name: &Txt) -> Option<Tagged<'a>>
    ensures { option_map (tagged_view home.now.records.now) result ≡ spec.tagged (home_of home.now) name.now }
{
    if name.is("CascadingValue") {
        return Some(Tagged::CascadingValue);
    }
    match component_named(home.components, name) {
        Some(component) => Some(Tagged::Component(component)),
        None => None,
    }
}

/// The type that a member is written with, if it is a parameter of this name that tags give.
fn written_by<'a>(kind: &'a MemberKind, name: &Txt) -> Option<&'a TypeExpr>
    ensures { option_copied result ≡ taken.written_by name.now kind.now }
{
    match kind {
        MemberKind::Parameter {
            cascading,
            cs_type,
            name: other,
            ..
        } => {
            if !*cascading && other.name == *name {
                Some(cs_type)
            } else {
                None
            }
        }
        MemberKind::Field { .. } => None,
        MemberKind::Method { .. } => None,
        MemberKind::Getter { .. } => None,
        MemberKind::RecordDef { .. } => None,
    }
}

/// The type that the parameter of this name is written with, which the tags of a component give.
pub fn taken<'a>(members: &'a [Member], name: &Txt) -> Option<&'a TypeExpr>
    ensures { option_copied result ≡ written_as members.now name.now }
{
    for member in members {
        if let Some(written) = written_by(&member.kind, name) {
            return Some(written);
        }
    }
    None
}

/// The argument of a fragment of this type, if it is a fragment's.
#[tactic(auto, using(crate::proofs::TakenLaws::argument_int, crate::proofs::TakenLaws::argument_bool, crate::proofs::TakenLaws::argument_text, crate::proofs::TakenLaws::argument_named, crate::proofs::TakenLaws::argument_list, crate::proofs::TakenLaws::argument_callback, crate::proofs::TakenLaws::argument_fragment_none, crate::proofs::TakenLaws::argument_fragment_some, crate::proofs::TakenLaws::argument_change, crate::proofs::TakenLaws::argument_args))]
fn argument_of(alloc: Global, written: &TypeExpr) -> Result<Option<Option<CsType>>, AllocError>
    ensures { IfOk result (λ it. it ≡ spec.argument_level (out-CsType (type_written written.now))) }
{
    match &written.kind {
        TypeKind::Fragment(argument) => match argument {
            None => Ok(Some(None)),
            Some(argument) => Ok(Some(Some(type_of(alloc, argument.get())?))),
        },
        TypeKind::Int => Ok(None),
        TypeKind::Bool => Ok(None),
        TypeKind::Text => Ok(None),
        TypeKind::Named(_) => Ok(None),
        TypeKind::List(_) => Ok(None),
        TypeKind::Callback(_) => Ok(None),
        TypeKind::Change => Ok(None),
        TypeKind::Args => Ok(None),
    }
}

fn argument_taken(
    alloc: Global,
    members: &[Member],
    name: &Txt,
) -> Result<Option<Option<CsType>>, AllocError>
    ensures { IfOk result (λ it. it ≡ argument_written (written_as members.now name.now)) }
{
    match taken(members, name) {
        None => Ok(None),
        Some(written) => argument_of(alloc, written),
    }
}

/// The argument of a fragment that a component takes under a name, if it takes one.
#[tactic(auto, using(crate::proofs::TakenLaws::built_in_takes, crate::proofs::TakenLaws::component_takes))]
pub fn fragment_taken(
    home: &Home<'_>,
    tag: Tagged<'_>,
    name: &Txt,
) -> Result<Option<Option<CsType>>, Oom>
    ensures { IfOk result (λ it. it ≡ spec.fragment_taken (tagged_view home.now.records.now tag.entry) name.now) }
{
    match tag {
        Tagged::CascadingValue => {
            if name.is("ChildContent") {
                Ok(Some(None))
            } else {
                Ok(None)
            }
        }
        Tagged::Component(component) => {
            Ok(argument_taken(home.alloc, component.members.as_slice(), name)?)
        }
    }
}
