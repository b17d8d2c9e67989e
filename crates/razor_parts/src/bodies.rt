// The numbers of bodies with effects.
ghost use Rattle.std.specs.Prelude.{◌≡◌, ◌&&◌, ◌||◌, true, false, IfOk};
ghost use Rattle.razor_rules.specs.Members as members_spec;
ghost use Rattle.razor_rules.specs.Restrictions as spec;

use crate::numbers::plus;
use cs_ast::{Effect, Member, MemberKind};
use sqlite_items::Items;
use std::alloc::Global;
use text_core::Oom;

#[tactic(auto, unfolding(razor_rules::specs::Members::is_method))]
fn is_method(kind: &MemberKind) -> bool
    ensures { result ≡ members_spec.is_method kind.now }
{
    match kind {
        MemberKind::Method { .. } | MemberKind::Getter { .. } => true,
        MemberKind::Field { .. } | MemberKind::Parameter { .. } | MemberKind::RecordDef { .. } =>
            false,
    }
}

/// The numbers of the bodies that invoke a callback, and of those that change a field where these are asked for too.
#[tactic(auto, using(crate::proofs::EffectLemmas::no_method, crate::proofs::EffectLemmas::with_this, crate::proofs::EffectLemmas::without_this))]
fn bodies(
    alloc: Global,
    first: u32,
    members: &[Member],
    effects: &[Effect],
    changing: bool,
) -> Result<Items<u32>, Oom>
    ensures { IfOk result (λ bodies. bodies
        ≡ spec.with_effect (λ one. (changing && one.changes) || one.invokes) (members_spec.numbered_effects first members.now effects.now)) }
{
    let mut numbers = Items::new(alloc);
    let mut number = first;
    let mut rest = effects;
    let mut others = members;
    while let Some((member, other_members)) = others.split_first() {
        let Some((effect, other_effects)) = rest.split_first() else {
            return Ok(numbers);
        };
        if is_method(&member.kind) {
            if changing && effect.changes || effect.invokes {
                numbers.push(number)?;
            }
            rest = other_effects;
        }
        number = plus(number, 1)?;
        others = other_members;
    }
    Ok(numbers)
}

/// The numbers of the bodies that change a field or invoke a callback.
pub fn impure(
    alloc: Global,
    first: u32,
    members: &[Member],
    effects: &[Effect],
) -> Result<Items<u32>, Oom>
    ensures { IfOk result (λ bodies. bodies ≡ spec.impure_in (members_spec.numbered_effects first members.now effects.now)) }
{
    bodies(alloc, first, members, effects, true)
}

/// The numbers of the bodies that invoke a callback.
pub fn invoking(
    alloc: Global,
    first: u32,
    members: &[Member],
    effects: &[Effect],
) -> Result<Items<u32>, Oom>
    ensures { IfOk result (λ bodies. bodies ≡ spec.invoking_in (members_spec.numbered_effects first members.now effects.now)) }
{
    bodies(alloc, first, members, effects, false)
}
