// Components by themselves.
ghost use Rattle.std.specs.Prelude.{◌≡◌};
ghost use Rattle.std.specs.List.{list_all};
ghost use Rattle.standing_alone.specs.Alone.{is_lifecycle, is_own, stands_alone};

use crate::tags::any_tag;
use cs_ast::{Member, MemberKind};
use razor_ast::Component;
use text_core::Txt;

fn is_lifecycle(name: &Txt) -> bool
    ensures { result ≡ is_lifecycle name.now }
{
    name.is("OnInitialized") || name.is("OnParametersSet") || name.is("Dispose")
}

/// Whether a member is nothing that comes from outside, and nothing that is run from there.
fn is_own(kind: &MemberKind) -> bool
    ensures { result ≡ is_own kind.now }
{
    match kind {
        MemberKind::Parameter { .. } => false,
        MemberKind::Method { name, .. } => !is_lifecycle(&name.name),
        MemberKind::Field { .. } => true,
        MemberKind::Getter { .. } => true,
        MemberKind::RecordDef { .. } => true,
    }
}

fn are_own(members: &[Member]) -> bool
    ensures { result ≡ list_all (λ one. is_own one.kind) members.now }
{
    for one in members {
        if !is_own(&one.kind) {
            return false;
        }
    }
    true
}

/// Whether a component can be rendered by itself.
pub fn stands_alone(component: &Component) -> bool
    ensures { result ≡ stands_alone component.now }
{
    if component.disposes {
        return false;
    }
    if !are_own(component.members.as_slice()) {
        return false;
    }
    !any_tag(component.nodes.as_slice())
}
