// The fields and parameters of components, and the numbers of lifecycle methods.
ghost use Rattle.std.specs.Prelude.{◌≡◌, ◌∷◌, [], map, option_map, is_some, IfOk};
ghost use Rattle.std.specs.Str.{chars};
ghost use Rattle.cs_forms.specs.Agrees.{Agrees, AgreesBy};
ghost use Rattle.cs_rules.specs.Written.{type_of as type_written};
ghost use Rattle.frame_parts.specs.Components as spec;
ghost use Rattle.frame_parts.specs.Methods as methods;
ghost use Rattle.frame_parts.specs.Views.{IsWhole, home_in};

use crate::bodies::method_by;
use crate::scopes::initial_scope;
use crate::site::Site;
use crate::values::optional_code;
use cs_ast::{Code, CsType, Expr, Ident, Member, MemberKind, TypeExpr};
use cs_forms::CheckFault;
use cs_forms::written::type_of;
use frame_program::{CompiledField, Wanted};
use razor_parts::numbers::plus;
use sqlite_items::Items;
use std::alloc::Global;
use text_core::{Oom, Txt};

/// The code of an initial value, if there is one.
fn initial_code(site: &Site<'_>, initial: &Option<Expr>) -> Result<Option<Code>, CheckFault>
    requires whole { IsWhole site.now }
    ensures { Agrees result (spec.initial_code (home_in site.now) initial.now) }
{
    let scope = initial_scope(site)?;
    optional_code(site.home.alloc, &scope, initial)
}

/// One field or parameter alone.
fn alone(
    alloc: Global,
    name: &Ident,
    cs_type: &TypeExpr,
    cascading: Option<Wanted>,
    initial: Option<Code>,
) -> Result<Items<CompiledField>, Oom>
    ensures { IfOk result (λ all. all ≡ spec.field name.now.name (type_written cs_type.now) cascading initial ∷ []) }
{
    let mut all = Items::new(alloc);
    all.push(CompiledField {
        name: name.name.clone()?,
        cs_type: type_of(alloc, cs_type)?,
        initial,
        cascading,
    })?;
    Ok(all)
}

/// The own field that a member is, if it is one.
#[tactic(auto, unfolding(crate::specs::Components::field_in))]
fn field_in(site: &Site<'_>, kind: &MemberKind) -> Result<Items<CompiledField>, CheckFault>
    requires whole { IsWhole site.now }
    ensures { Agrees result (spec.field_in (home_in site.now) kind.now) }
{
    let alloc = site.home.alloc;
    match kind {
        MemberKind::Field {
            cs_type,
            name,
            initial,
        } => {
            let initial = initial_code(site, initial)?;
            Ok(alone(alloc, name, cs_type, None, initial)?)
        }
        MemberKind::Parameter { .. } => Ok(Items::new(alloc)),
        MemberKind::Method { .. } => Ok(Items::new(alloc)),
        MemberKind::Getter { .. } => Ok(Items::new(alloc)),
        MemberKind::RecordDef { .. } => Ok(Items::new(alloc)),
    }
}

fn copied(source: &Option<Txt>) -> Result<Option<Txt>, Oom>
    ensures { IfOk result (λ copy. copy ≡ source.now) }
{
    match source {
        Some(name) => Ok(Some(name.clone()?)),
        None => Ok(None),
    }
}

/// What a parameter takes, if it is a cascading one.
fn wanted(
    alloc: Global,
    cascading: bool,
    source: &Option<Txt>,
    cs_type: &TypeExpr,
) -> Result<Option<Wanted>, Oom>
    ensures { IfOk result (λ it. it ≡ spec.wanted cascading source.now (type_written cs_type.now)) }
{
    if !cascading {
        return Ok(None);
    }
    Ok(Some(Wanted {
        cs_type: type_of(alloc, cs_type)?,
        name: copied(source)?,
    }))
}

/// The parameter that a member is, if it is one.
#[tactic(auto, unfolding(crate::specs::Components::parameter_in))]
fn parameter_in(site: &Site<'_>, kind: &MemberKind) -> Result<Items<CompiledField>, CheckFault>
    requires whole { IsWhole site.now }
    ensures { Agrees result (spec.parameter_in (home_in site.now) kind.now) }
{
    let alloc = site.home.alloc;
    match kind {
        MemberKind::Parameter {
            cascading,
            source,
            cs_type,
            name,
            initial,
        } => {
            let initial = initial_code(site, initial)?;
            let takes = wanted(alloc, *cascading, source, cs_type)?;
            Ok(alone(alloc, name, cs_type, takes, initial)?)
        }
        MemberKind::Field { .. } => Ok(Items::new(alloc)),
        MemberKind::Method { .. } => Ok(Items::new(alloc)),
        MemberKind::Getter { .. } => Ok(Items::new(alloc)),
        MemberKind::RecordDef { .. } => Ok(Items::new(alloc)),
    }
}

/// The own fields of a component.
#[tactic(auto, using(crate::proofs::FrontLemmas::judged_none, crate::proofs::FrontLemmas::judged_more, crate::proofs::FrontLemmas::judged_end))]
pub fn fields(site: &Site<'_>) -> Result<Items<CompiledField>, CheckFault>
    requires whole { IsWhole site.now }
    ensures { Agrees result (spec.declared (spec.field_in (home_in site.now)) (home_in site.now).members) }
{
    let mut all = Items::new(site.home.alloc);
    for one in site.home.members {
        all.append(field_in(site, &one.kind)?)?;
    }
    Ok(all)
}

/// The parameters of a component.
#[tactic(auto, using(crate::proofs::FrontLemmas::judged_none, crate::proofs::FrontLemmas::judged_more, crate::proofs::FrontLemmas::judged_end))]
pub fn parameters(site: &Site<'_>) -> Result<Items<CompiledField>, CheckFault>
    requires whole { IsWhole site.now }
    ensures { Agrees result (spec.declared (spec.parameter_in (home_in site.now)) (home_in site.now).members) }
{
    let mut all = Items::new(site.home.alloc);
    for one in site.home.members {
        all.append(parameter_in(site, &one.kind)?)?;
    }
    Ok(all)
}

fn number_of(site: &Site<'_>, name: &Txt) -> Result<Option<u32>, Oom>
    ensures { IfOk result (λ number. number ≡ spec.method_number (home_in site.now).first name.now (home_in site.now).members) }
{
    let mut number = site.home.first;
    for one in site.home.members {
        if let Some(_) = method_by(&one.kind, name) {
            return Ok(Some(number));
        }
        number = plus(number, 1)?;
    }
    Ok(None)
}

/// The number of the body of the first method of a name, if there is one.
pub fn method_number(site: &Site<'_>, name: &str) -> Result<Option<u32>, Oom>
    ensures { IfOk result (λ number. number ≡ spec.method_number (home_in site.now).first (chars name.now) (home_in site.now).members) }
{
    let name = Txt::from_str(site.home.alloc, name)?;
    number_of(site, &name)
}
