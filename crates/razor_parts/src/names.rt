// What the names of members stand for.
ghost use Rattle.std.specs.Prelude.{◌≡◌, ◌++◌, IfOk, OnOk, map, reverse};
ghost use Rattle.cs_ast.specs.declared.scope.NameKind.TheVariants as kind;
ghost use Rattle.cs_rules.specs.Written.{type_of};
ghost use Rattle.razor_rules.specs.Members as spec;
ghost use Rattle.razor_parts.specs.Views.{before_of};

use crate::numbers::plus;
use cs_ast::{Argument, CsType, Ident, Member, MemberKind, NameKind, Named, TypeExpr};
use cs_forms::written::{part_types, type_of};
use sqlite_items::Items;
use std::alloc::Global;
use text_core::Oom;

/// How many fields, parameters and members there are before a member.
#[derive(Clone, Copy, Debug)]
pub struct Before {
    pub fields: u32,
    pub parameters: u32,
    pub members: u32,
}

/// The same behind one more.
#[tactic(auto, unfolding(razor_rules::specs::Members::and_this))]
fn and_this(kind: &MemberKind, before: Before) -> Result<Before, Oom>
    ensures { IfOk result (λ next. before_of next ≡ spec.and_this kind.now (before_of before)) }
{
    let members = plus(before.members, 1)?;
    match kind {
        MemberKind::Field { .. } => Ok(Before {
            fields: plus(before.fields, 1)?,
            parameters: before.parameters,
            members,
        }),
        MemberKind::Parameter { .. } => Ok(Before {
            fields: before.fields,
            parameters: plus(before.parameters, 1)?,
            members,
        }),
        MemberKind::Method { .. } | MemberKind::Getter { .. } | MemberKind::RecordDef { .. } => {
            Ok(Before {
                fields: before.fields,
                parameters: before.parameters,
                members,
            })
        }
    }
}

fn push_name(
    names: &mut Items<Named>,
    name: &Ident,
    cs_type: CsType,
    kind: NameKind,
    place: u32,
) -> Result<(), Oom>
    ensures { OnOk result (names.new ≡ names.old ++ spec.name_for name.now cs_type kind place) }
{
    let name = name.name.clone()?;
    names.push(Named {
        name,
        cs_type,
        kind,
        place,
    })?;
    Ok(())
}

/// The type of what a method gives.
pub fn result_type(alloc: Global, gives: &Option<TypeExpr>) -> Result<CsType, Oom>
    ensures { IfOk result (λ cs_type. cs_type ≡ spec.result_type gives.now) }
{
    match gives {
        Some(written) => Ok(type_of(alloc, written)?),
        None => Ok(CsType::Nothing),
    }
}

fn push_method(
    alloc: Global,
    names: &mut Items<Named>,
    gives: &Option<TypeExpr>,
    name: &Ident,
    arguments: &[Argument],
    place: u32,
) -> Result<(), Oom>
    ensures { OnOk result (names.new ≡ names.old ++ spec.name_for name.now (spec.result_type gives.now)
        (kind.Method (map (λ one. type_of one.cs_type) arguments.now)) place) }
{
    let cs_type = result_type(alloc, gives)?;
    let takes = part_types(alloc, arguments)?;
    push_name(names, name, cs_type, NameKind::Method(takes), place)
}

/// What the name of a member stands for, with so many members before it.
#[tactic(auto, unfolding(razor_rules::specs::Members::named))]
fn push_named(
    alloc: Global,
    first: u32,
    before: Before,
    kind: &MemberKind,
    names: &mut Items<Named>,
) -> Result<(), Oom>
    ensures { OnOk result (names.new ≡ names.old ++ spec.named first (before_of before) kind.now) }
{
    match kind {
        MemberKind::Field { cs_type, name, .. } => {
            let cs_type = type_of(alloc, cs_type)?;
            push_name(names, name, cs_type, NameKind::Field, before.fields)
        }
        MemberKind::Parameter { cs_type, name, .. } => {
            let cs_type = type_of(alloc, cs_type)?;
            push_name(names, name, cs_type, NameKind::Parameter, before.parameters)
        }
        MemberKind::Method {
            result,
            name,
            arguments,
            ..
        } => {
            let body = plus(first, before.members)?;
            push_method(alloc, names, result, name, arguments.as_slice(), body)
        }
        MemberKind::Getter { result, name, .. } => {
            let body = plus(first, before.members)?;
            let cs_type = type_of(alloc, result)?;
            push_name(names, name, cs_type, NameKind::Getter, body)
        }
        MemberKind::RecordDef { .. } => Ok(()),
    }
}

fn reversed(alloc: Global, mut names: Items<Named>) -> Result<Items<Named>, Oom>
    ensures { IfOk result (λ it. it ≡ reverse names) }
{
    let mut all = Items::new(alloc);
    while let Some(last) = names.pop() {
        all.push(last)?;
    }
    Ok(all)
}

/// The names of members, the first one innermost.
#[tactic(auto, using(crate::proofs::NameLemmas::names_more))]
pub fn member_names(alloc: Global, first: u32, members: &[Member]) -> Result<Items<Named>, Oom>
    ensures { IfOk result (λ names. names ≡ spec.names_of first members.now) }
{
    let mut names = Items::new(alloc);
    let mut before = Before {
        fields: 0,
        parameters: 0,
        members: 0,
    };
    for member in members {
        push_named(alloc, first, before, &member.kind, &mut names)?;
        before = and_this(&member.kind, before)?;
    }
    reversed(alloc, names)
}
