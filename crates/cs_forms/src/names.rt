// What names stand for in a scope.
ghost use Rattle.std.specs.Prelude.{◌≡◌, ◌&&◌, ◌≤◌, OnOk, IfOk, IsTrue, length, reverse, take};
ghost use Rattle.std.specs.List.{list_any};
ghost use Rattle.std.specs.Str.{bytes_eq};
ghost use Rattle.std.specs.Option.{option_copied};
ghost use Rattle.cs_rules.specs.Names as spec;
ghost use Rattle.cs_forms.specs.Agrees.{Agrees, AgreesBy};
ghost use Rattle.cs_forms.specs.Views.{scope_of, forbidden_of};

use crate::CheckFault;
use crate::fault::mismatch;
use crate::types::{checked, copy_type};
use cs_ast::{Code, CsType, Ident, NameKind, Named, Scope, Variable};
use cs_forbidden::Forbidden;
use cs_rules::{Checked, Rule};
use sqlite_items::{Boxed, Items};
use std::alloc::Global;
use text_core::{Oom, Place, Txt};

/// What code stands in: a scope, and what is forbidden there.
#[derive(Clone, Copy)]
pub struct Around<'a> {
    pub scope: &'a Scope,
    pub forbidden: &'a Forbidden,
}

/// The names that code may use: those around it, and the locals that are declared in it.
#[derive(Drop)]
pub struct Names<'a> {
    pub alloc: Global,
    pub around: Around<'a>,
    pub locals: Items<Named>,
}

/// The last of these that has the name.
fn last_named<'a>(name: &Txt, names: &'a [Named]) -> Option<&'a Named>
    ensures { option_copied result ≡ spec.first_named name.now (reverse names.now) }
{
    let mut rest = names;
    while let Some((last, before)) = rest.split_last() {
        if last.name == *name {
            return Some(last);
        }
        rest = before;
    }
    None
}

fn is_local(kind: &NameKind) -> bool
    ensures { result ≡ spec.is_local kind.now }
{
    match kind {
        NameKind::Local => true,
        _ => false,
    }
}

/// How many locals there are.
fn locals_in(names: &[Named]) -> usize
    ensures count { result ≡ spec.locals_in names.now }
    ensures bound { result ≤ length names.now }
{
    let mut count = 0;
    for one in names {
        if is_local(&one.kind) {
            count += 1;
        }
    }
    count
}

/// Whether a local has the name.
fn has_local(names: &[Named], name: &Txt) -> bool
    ensures { result ≡ list_any (λ one. spec.is_local one.kind && bytes_eq one.name name.now) names.now }
{
    for one in names {
        if is_local(&one.kind) && one.name == *name {
            return true;
        }
    }
    false
}

impl<'a> Names<'a> {
    #[tactic(auto, using(crate::proofs::NameLemmas::no_locals))]
    pub fn new(alloc: Global, scope: &'a Scope, forbidden: &'a Forbidden) -> Self
        ensures scope { scope_of result ≡ scope.now }
        ensures forbidden { forbidden_of result ≡ forbidden.now }
        ensures around { result.around.scope.now ≡ scope.now }
    {
        let around = Around { scope, forbidden };
        Names {
            alloc,
            around,
            locals: Items::new(alloc),
        }
    }
}

impl Names<'_> {
    /// The innermost that has the name.
    #[tactic(auto, using(crate::proofs::NameLemmas::meant_inner, crate::proofs::NameLemmas::meant_outer))]
    pub fn meant(&self, name: &Txt) -> Option<&Named>
        ensures { option_copied result ≡ spec.meant (scope_of self.now).names name.now }
    {
        match last_named(name, self.locals.as_slice()) {
            Some(local) => Some(local),
            None => last_named(name, self.around.scope.names.as_slice()),
        }
    }

    /// The same where a name stands in code.
    #[tactic(auto, unfolding(cs_rules::specs::Names::meant_by))]
    pub fn meant_at(&self, place: Place, name: &Txt) -> Result<&Named, CheckFault>
        ensures { AgreesBy (λ one. one.now) result (spec.meant_by (scope_of self.now) (record { place = place; name = name.now })) }
    {
        match self.meant(name) {
            Some(one) => Ok(one),
            None => Err(CheckFault::Broken {
                rule: Rule::UnknownName,
                place,
            }),
        }
    }

    /// Refuses the name of a local that is there.
    #[tactic(auto, unfolding(cs_rules::specs::Names::is_new))]
    pub fn is_new(&self, name: &Ident) -> Result<(), CheckFault>
        ensures { Agrees result (spec.is_new (scope_of self.now) name.now) }
    {
        if has_local(self.around.scope.names.as_slice(), &name.name)
            || has_local(self.locals.as_slice(), &name.name)
        {
            return Err(CheckFault::Broken {
                rule: Rule::DuplicateName,
                place: name.place,
            });
        }
        Ok(())
    }

    /// How many locals are in scope.
    #[tactic(auto, using(crate::proofs::NameLemmas::locals_append))]
    fn count(&self) -> Result<u32, Oom>
        ensures { IfOk result (λ count. count ≡ spec.locals_in (scope_of self.now).names) }
    {
        let outer = locals_in(self.around.scope.names.as_slice());
        let inner = locals_in(self.locals.as_slice());
        if outer > 0x7fff_ffff || inner > 0x7fff_ffff {
            return Err(Oom);
        }
        Ok(outer as u32 + inner as u32)
    }

    /// Declares a local.
    #[tactic(auto, unfolding(cs_rules::specs::Names::with_local))]
    pub fn declare(&mut self, name: &Txt, cs_type: CsType) -> Result<(), Oom>
        ensures declared { OnOk result (scope_of self.new ≡ spec.with_local (scope_of self.old) name.now cs_type) }
        ensures around { self.new.around ≡ self.old.around }
        ensures kept { OnOk result (take (length self.old.locals) self.new.locals ≡ self.old.locals) }
    {
        let place = self.count()?;
        let name = name.clone()?;
        self.locals.push(Named {
            name,
            cs_type,
            kind: NameKind::Local,
            place,
        })?;
        Ok(())
    }
}

/// A name as a value.
#[tactic(auto, unfolding(cs_rules::specs::Names::value_of_name))]
pub fn value_of_name(alloc: Global, place: Place, one: &Named) -> Result<Boxed<Checked>, CheckFault>
    ensures { Agrees result (spec.value_of_name place one.now) }
{
    let code = match &one.kind {
        NameKind::Field => Code::Field(one.place),
        NameKind::Parameter => Code::Parameter(one.place),
        NameKind::Local => Code::Local(one.place),
        NameKind::Getter => Code::Call(one.place, Items::new(alloc)),
        NameKind::Method(_) => return Err(mismatch(place)),
    };
    let cs_type = copy_type(alloc, &one.cs_type)?;
    checked(alloc, place, code, cs_type)
}

/// A name as the target of an assignment.
#[tactic(auto, unfolding(cs_rules::specs::Names::variable_of))]
pub fn variable_of(place: Place, kind: &NameKind, number: u32) -> Result<Variable, CheckFault>
    ensures { Agrees result (spec.variable_of place kind.now number) }
{
    match kind {
        NameKind::Field => Ok(Variable::Field(number)),
        NameKind::Local => Ok(Variable::Local(number)),
        NameKind::Parameter => Err(CheckFault::Broken {
            rule: Rule::ParameterAssigned,
            place,
        }),
        NameKind::Getter | NameKind::Method(_) => Err(mismatch(place)),
    }
}
