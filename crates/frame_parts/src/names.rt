// What names stand for in a scope.
ghost use Rattle.std.specs.Prelude.{◌≡◌, ◌&&◌, IfOk, bytes_eq, is_some};
ghost use Rattle.std.specs.List.{list_any};
ghost use Rattle.std.specs.Option.{option_copied};
ghost use Rattle.cs_forms.specs.Agrees.{Agrees, AgreesBy};
ghost use Rattle.cs_rules.specs.Names as spec;
ghost use Rattle.razor_rules.specs.Values as values_spec;

use cs_ast::{CsType, Ident, NameKind, Named, Scope};
use cs_forms::CheckFault;
use cs_forms::fault::mismatch;
use cs_forms::types::{copy_type, copy_types};
use cs_rules::Rule;
use razor_parts::locals::push_local;
use std::alloc::Global;
use text_core::{Oom, Place, Txt};

/// Whether a name stands for a local.
pub fn is_local(kind: &NameKind) -> bool
    ensures { result ≡ spec.is_local kind.now }
{
    match kind {
        NameKind::Local => true,
        NameKind::Field => false,
        NameKind::Parameter => false,
        NameKind::Method(_) => false,
        NameKind::Getter => false,
    }
}

/// Whether a name stands for a method that is called with brackets.
pub fn is_method(kind: &NameKind) -> bool
    ensures { result ≡ is_some (values_spec.taken_by kind.now) }
{
    match kind {
        NameKind::Method(_) => true,
        NameKind::Field => false,
        NameKind::Parameter => false,
        NameKind::Getter => false,
        NameKind::Local => false,
    }
}

/// The innermost that has the name.
#[tactic(auto, unfolding(cs_rules::specs::Names::meant))]
pub fn meant<'a>(names: &'a [Named], name: &Txt) -> Option<&'a Named>
    ensures { option_copied result ≡ spec.meant names.now name.now }
{
    let mut rest = names;
    while let Some((last, before)) = rest.split_last() {
        if last.name == *name {
            return Some(last);
        }
        rest = before;
    }
    None
}

fn copied_kind(alloc: Global, kind: &NameKind) -> Result<NameKind, Oom>
    ensures { IfOk result (λ copy. copy ≡ kind.now) }
{
    match kind {
        NameKind::Field => Ok(NameKind::Field),
        NameKind::Parameter => Ok(NameKind::Parameter),
        NameKind::Method(takes) => Ok(NameKind::Method(copy_types(alloc, takes.as_slice())?)),
        NameKind::Getter => Ok(NameKind::Getter),
        NameKind::Local => Ok(NameKind::Local),
    }
}

/// The same name with the same type.
pub fn copied(alloc: Global, one: &Named) -> Result<Named, Oom>
    ensures { IfOk result (λ copy. copy ≡ one.now) }
{
    Ok(Named {
        name: one.name.clone()?,
        cs_type: copy_type(alloc, &one.cs_type)?,
        kind: copied_kind(alloc, &one.kind)?,
        place: one.place,
    })
}

fn has_local(names: &[Named], name: &Txt) -> bool
    ensures { result ≡ list_any (λ one. spec.is_local one.kind && bytes_eq one.name name.now) names.now }
{
    for one in names {
        if is_local(&one.kind) && one.name == *name {
            return true;
        }
    }
    false
}

/// Refuses the name of a local that is there.
#[tactic(auto, unfolding(cs_rules::specs::Names::is_new))]
fn is_new(scope: &Scope, name: &Ident) -> Result<(), CheckFault>
    ensures { Agrees result (spec.is_new scope.now name.now) }
{
    if has_local(scope.names.as_slice(), &name.name) {
        return Err(CheckFault::Broken {
            rule: Rule::DuplicateName,
            place: name.place,
        });
    }
    Ok(())
}

/// Puts the argument of a lambda at a place in scope, where it takes one of this type.
pub fn push_argument(
    alloc: Global,
    scope: &mut Scope,
    place: Place,
    name: &Option<Ident>,
    argument: Option<&CsType>,
) -> Result<(), CheckFault>
    ensures { AgreesBy (λ x. scope.new) result (values_spec.lambda_scope scope.old place name.now (option_copied argument.entry)) }
{
    match name {
        None => Ok(push_local(scope, &Txt::new(alloc), CsType::Nothing)?),
        Some(name) => match argument {
            None => Err(mismatch(place)),
            Some(argument) => {
                is_new(scope, name)?;
                let cs_type = copy_type(alloc, argument)?;
                Ok(push_local(scope, &name.name, cs_type)?)
            }
        },
    }
}
