// Locals that are put in scope, and taken out of it.
ghost use Rattle.std.specs.Prelude.{◌≡◌, IfOk, OnOk, length, take};
ghost use Rattle.cs_rules.specs.Names as names;
ghost use Rattle.razor_rules.specs.Scopes as spec;

use crate::numbers::plus;
use cs_ast::{Argument, CsType, NameKind, Named, Scope};
use cs_forms::written::type_of;
use sqlite_items::Items;
use std::alloc::Global;
use text_core::{Oom, Txt};

fn is_local(kind: &NameKind) -> bool
    ensures { result ≡ names.is_local kind.now }
{
    match kind {
        NameKind::Local => true,
        NameKind::Field | NameKind::Parameter | NameKind::Method(_) | NameKind::Getter => false,
    }
}

fn locals_in(all: &[Named]) -> Result<u32, Oom>
    ensures { IfOk result (λ count. count ≡ names.locals_in all.now) }
{
    let mut count = 0;
    for one in all {
        if is_local(&one.kind) {
            count = plus(count, 1)?;
        }
    }
    Ok(count)
}

/// A new local.
#[tactic(auto, unfolding(cs_rules::specs::Names::with_local))]
pub fn push_local(scope: &mut Scope, name: &Txt, cs_type: CsType) -> Result<(), Oom>
    ensures behind { OnOk result (scope.new ≡ names.with_local scope.old name.now cs_type) }
    ensures kept { take (length scope.old.names) scope.new.names ≡ scope.old.names }
    ensures rest { scope.new ≡ record scope.old { names = scope.new.names } }
{
    let place = locals_in(scope.names.as_slice())?;
    let name = name.clone()?;
    scope.names.push(Named {
        name,
        cs_type,
        kind: NameKind::Local,
        place,
    })?;
    Ok(())
}

/// Arguments as locals.
#[tactic(auto, using(crate::proofs::ListLemmas::kept_on))]
fn push_all(alloc: Global, scope: &mut Scope, arguments: &[Argument]) -> Result<(), Oom>
    ensures behind { OnOk result (scope.new ≡ spec.with_locals arguments.now scope.old) }
    ensures kept { take (length scope.old.names) scope.new.names ≡ scope.old.names }
    ensures rest { scope.new ≡ record scope.old { names = scope.new.names } }
{
    for one in arguments {
        let cs_type = type_of(alloc, &one.cs_type)?;
        push_local(scope, &one.name.name, cs_type)?;
    }
    Ok(())
}

/// The locals that a body begins with: its arguments, or one that no name stands for.
pub fn push_arguments(alloc: Global, scope: &mut Scope, arguments: &[Argument]) -> Result<(), Oom>
    ensures behind { OnOk result (scope.new ≡ spec.with_arguments arguments.now scope.old) }
    ensures kept { take (length scope.old.names) scope.new.names ≡ scope.old.names }
    ensures rest { scope.new ≡ record scope.old { names = scope.new.names } }
{
    if arguments.is_empty() {
        return push_local(scope, &Txt::new(alloc), CsType::Nothing);
    }
    push_all(alloc, scope, arguments)
}

/// Takes names out of scope, down to so many.
pub fn cut(all: &mut Items<Named>, depth: usize)
    ensures { all.new ≡ take depth all.old }
{
    while all.len() > depth {
        all.pop();
    }
}
