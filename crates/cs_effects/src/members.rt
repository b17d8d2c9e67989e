// What members are for a deed.
ghost use Rattle.std.specs.Prelude.{◌≡◌, IfOk};
ghost use Rattle.std.specs.Option.{option_copied};
ghost use Rattle.cs_effects.specs.Effects as spec;

use crate::deed::Deed;
use crate::expressions::does;
use crate::locals::argument_names;
use crate::statements::body as body_does;
use cs_ast::{Member, MemberKind};
use sqlite_items::Items;
use std::alloc::Global;
use text_core::{Oom, Txt};

/// The name of a method, with brackets or without.
#[tactic(auto, unfolding(crate::specs::Effects::method_name))]
pub fn method_name(kind: &MemberKind) -> Option<&Txt>
    ensures { option_copied result ≡ spec.method_name kind.now }
{
    match kind {
        MemberKind::Method { name, .. } => Some(&name.name),
        MemberKind::Getter { name, .. } => Some(&name.name),
        MemberKind::Field { .. } => None,
        MemberKind::Parameter { .. } => None,
        MemberKind::RecordDef { .. } => None,
    }
}

/// Whether the body of a method does it.
#[tactic(auto, unfolding(crate::specs::Effects::does_itself))]
pub fn does_itself(alloc: Global, deed: &Deed, kind: &MemberKind) -> Result<bool, Oom>
    ensures { IfOk result (λ yes. yes ≡ spec.does_itself deed.now kind.now) }
{
    match kind {
        MemberKind::Method {
            arguments,
            body,
            ..
        } => {
            let locals = argument_names(alloc, arguments.as_slice())?;
            body_does(alloc, deed, locals.as_slice(), body)
        }
        MemberKind::Getter { value, .. } => {
            let locals = Items::new(alloc);
            Ok(does(deed, locals.as_slice(), value))
        }
        MemberKind::Field { .. } => Ok(false),
        MemberKind::Parameter { .. } => Ok(false),
        MemberKind::RecordDef { .. } => Ok(false),
    }
}

#[tactic(auto, unfolding(crate::specs::Effects::field_name))]
fn field_name(kind: &MemberKind) -> Option<&Txt>
    ensures { option_copied result ≡ spec.field_name kind.now }
{
    match kind {
        MemberKind::Field { name, .. } => Some(&name.name),
        MemberKind::Parameter { .. } => None,
        MemberKind::Method { .. } => None,
        MemberKind::Getter { .. } => None,
        MemberKind::RecordDef { .. } => None,
    }
}

/// The names of the fields, in order.
pub fn fields(alloc: Global, members: &[Member]) -> Result<Items<Txt>, Oom>
    ensures { IfOk result (λ names. names ≡ spec.fields members.now) }
{
    let mut names = Items::new(alloc);
    for member in members {
        if let Some(name) = field_name(&member.kind) {
            names.push(name.clone()?)?;
        }
    }
    Ok(names)
}
