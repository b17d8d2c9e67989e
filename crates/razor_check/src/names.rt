// What names stand for in a scope.
ghost use Rattle.std.specs.Prelude.{◌≡◌, ◌&&◌, bytes_eq, reverse};
ghost use Rattle.std.specs.List.{list_any};
ghost use Rattle.std.specs.Option.{option_copied};
ghost use Rattle.cs_rules.specs.Names as spec;
ghost use Rattle.cs_forms.specs.Agrees.{Agrees};

use cs_ast::{Ident, NameKind, Named, Scope};
use cs_forms::CheckFault;
use cs_rules::Rule;
use text_core::Txt;

fn is_local(kind: &NameKind) -> bool
    ensures { result ≡ spec.is_local kind.now }
{
    match kind {
        NameKind::Local => true,
        NameKind::Field => false,
        NameKind::Parameter => false,
        NameKind::Method(_) => false,
        NameKind::Getter => false,
    }
}

fn has_local(names: &[Named], name: &Txt) -> bool
    ensures { result ≡ list_any (λ one. spec.is_local one.kind && bytes_eq one.name name.now) names.now }
{
    for one in names {
        if is_local(&one.kind) && one.name == *name {
            return true;
        }
    }
    false
}

/// Refuses the name of a local that is there.
#[tactic(auto, unfolding(cs_rules::specs::Names::is_new))]
pub fn is_new(scope: &Scope, name: &Ident) -> Result<(), CheckFault>
    ensures { Agrees result (spec.is_new scope.now name.now) }
{
    if has_local(scope.names.as_slice(), &name.name) {
        return Err(CheckFault::Broken {
            rule: Rule::DuplicateName,
            place: name.place,
        });
    }
    Ok(())
}

/// The innermost that has the name.
#[tactic(auto, unfolding(cs_rules::specs::Names::meant))]
pub fn meant<'a>(names: &'a [Named], name: &Txt) -> Option<&'a Named>
    ensures { option_copied result ≡ spec.meant names.now name.now }
{
    let mut rest = names;
    while let Some((last, before)) = rest.split_last() {
        if last.name == *name {
            return Some(last);
        }
        rest = before;
    }
    None
}
