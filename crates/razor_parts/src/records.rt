// The records of a program.
ghost use Rattle.std.specs.Prelude.{◌≡◌, ◌++◌, ◌∷◌, [], IfOk, OnOk, filter, map};
ghost use Rattle.razor_rules.specs.Members.{is_record, name_of};
ghost use Rattle.razor_rules.specs.Scopes as spec;
ghost use Rattle.rule_findings.specs.Views.{text_of, ident_of};

use cs_ast::{Argument, Ident, Member, MemberKind, TypeExpr, TypeKind};
use razor_ast::Component;
use rule_findings::Name;
use sqlite_items::{Boxed, Items};
use std::alloc::{AllocError, Global};
use text_core::Oom;

fn copy_ident(ident: &Ident) -> Result<Ident, AllocError>
    ensures { IfOk result (λ copied. copied ≡ ident.now) }
{
    let name = ident.name.clone()?;
    Ok(Ident {
        place: ident.place,
        name,
    })
}

#[cycle(copy)]
fn copy_boxed(alloc: Global, it: &Boxed<TypeExpr>) -> Result<Boxed<TypeExpr>, AllocError>
    ensures { IfOk result (λ copied. copied ≡ it.now) }
{
    Boxed::new(alloc, copy_type(alloc, it.get())?)
}

#[cycle(copy)]
fn copy_kind(alloc: Global, kind: &TypeKind) -> Result<TypeKind, AllocError>
    ensures { IfOk result (λ copied. copied ≡ kind.now) }
{
    match kind {
        TypeKind::Int => Ok(TypeKind::Int),
        TypeKind::Bool => Ok(TypeKind::Bool),
        TypeKind::Text => Ok(TypeKind::Text),
        TypeKind::Named(name) => Ok(TypeKind::Named(name.clone()?)),
        TypeKind::List(item) => Ok(TypeKind::List(copy_boxed(alloc, item)?)),
        TypeKind::Callback(None) => Ok(TypeKind::Callback(None)),
        TypeKind::Callback(Some(argument)) => {
            Ok(TypeKind::Callback(Some(copy_boxed(alloc, argument)?)))
        }
        TypeKind::Fragment(None) => Ok(TypeKind::Fragment(None)),
        TypeKind::Fragment(Some(argument)) => {
            Ok(TypeKind::Fragment(Some(copy_boxed(alloc, argument)?)))
        }
        TypeKind::Change => Ok(TypeKind::Change),
        TypeKind::Args => Ok(TypeKind::Args),
    }
}

#[cycle(copy)]
fn copy_type(alloc: Global, it: &TypeExpr) -> Result<TypeExpr, AllocError>
    ensures { IfOk result (λ copied. copied ≡ it.now) }
{
    let kind = copy_kind(alloc, &it.kind)?;
    Ok(TypeExpr {
        place: it.place,
        kind,
    })
}

fn copy_part(alloc: Global, part: &Argument) -> Result<Argument, AllocError>
    ensures { IfOk result (λ copied. copied ≡ part.now) }
{
    let cs_type = copy_type(alloc, &part.cs_type)?;
    let name = copy_ident(&part.name)?;
    Ok(Argument { cs_type, name })
}

fn copy_parts(alloc: Global, parts: &[Argument]) -> Result<Items<Argument>, AllocError>
    ensures { IfOk result (λ copies. copies ≡ parts.now) }
{
    let mut copies = Items::new(alloc);
    for part in parts {
        copies.push(copy_part(alloc, part)?)?;
    }
    Ok(copies)
}

/// Puts a copy of a member behind records, if it is one.
#[tactic(auto, unfolding(razor_rules::specs::Members::is_record))]
fn push_record(
    alloc: Global,
    member: &Member,
    records: &mut Items<Member>,
) -> Result<(), AllocError>
    ensures { OnOk result (records.new ≡ records.old ++ filter (λ one. is_record one.kind) (member.now ∷ [])) }
{
    match &member.kind {
        MemberKind::RecordDef { name, parts } => {
            let name = copy_ident(name)?;
            let parts = copy_parts(alloc, parts.as_slice())?;
            records.push(Member {
                place: member.place,
                kind: MemberKind::RecordDef { name, parts },
            })
        }
        MemberKind::Field { .. } => Ok(()),
        MemberKind::Parameter { .. } => Ok(()),
        MemberKind::Method { .. } => Ok(()),
        MemberKind::Getter { .. } => Ok(()),
    }
}

#[tactic(auto, using(crate::proofs::ListLemmas::filter_more))]
fn push_records(
    alloc: Global,
    members: &[Member],
    records: &mut Items<Member>,
) -> Result<(), AllocError>
    ensures { OnOk result (records.new ≡ records.old ++ filter (λ one. is_record one.kind) members.now) }
{
    for member in members {
        push_record(alloc, member, records)?;
    }
    Ok(())
}

/// The records of all files, in order.
pub fn records_of(alloc: Global, components: &[Component]) -> Result<Items<Member>, Oom>
    ensures { IfOk result (λ records. records ≡ spec.records_of components.now) }
{
    let mut records = Items::new(alloc);
    for component in components {
        push_records(alloc, component.members.as_slice(), &mut records)?;
    }
    Ok(records)
}

/// The name that a member declares.
#[tactic(auto, unfolding(razor_rules::specs::Members::name_of))]
pub fn member_name(kind: &MemberKind) -> &Ident
    ensures { result.now ≡ name_of kind.now }
{
    match kind {
        MemberKind::Field { name, .. } => name,
        MemberKind::Parameter { name, .. } => name,
        MemberKind::Method { name, .. } => name,
        MemberKind::Getter { name, .. } => name,
        MemberKind::RecordDef { name, .. } => name,
    }
}

#[tactic(auto, unfolding(razor_rules::specs::Members::is_record))]
fn is_a_record(kind: &MemberKind) -> bool
    ensures { result ≡ is_record kind.now }
{
    match kind {
        MemberKind::RecordDef { .. } => true,
        MemberKind::Field { .. } => false,
        MemberKind::Parameter { .. } => false,
        MemberKind::Method { .. } => false,
        MemberKind::Getter { .. } => false,
    }
}

/// A name where it stands.
pub fn named(ident: &Ident) -> Name<'_>
    ensures { ident_of result ≡ ident.now }
{
    Name {
        place: ident.place,
        text: &ident.name,
    }
}

/// The names of members.
pub fn member_idents(alloc: Global, members: &[Member]) -> Result<Vec<Name<'_>>, Oom>
    ensures { IfOk result (λ names. map ident_of names.items ≡ map (λ one. name_of one.kind) members.now) }
{
    let mut names = Vec::new(alloc);
    for member in members {
        names.push(named(member_name(&member.kind)))?;
    }
    Ok(names)
}

/// Puts the names of the records among members behind other names.
pub fn push_record_names<'a>(members: &'a [Member], names: &mut Vec<Name<'a>>) -> Result<(), Oom>
    ensures idents { OnOk result (map ident_of names.new.items
        ≡ map ident_of names.old.items ++ map (λ one. name_of one.kind) (filter (λ one. is_record one.kind) members.now)) }
    ensures texts { OnOk result (map text_of names.new.items
        ≡ map text_of names.old.items ++ map (λ one. (name_of one.kind).name) (filter (λ one. is_record one.kind) members.now)) }
{
    for member in members {
        if is_a_record(&member.kind) {
            names.push(named(member_name(&member.kind)))?;
        }
    }
    Ok(())
}

/// The names of the records of components.
pub fn record_names(alloc: Global, components: &[Component]) -> Result<Vec<Name<'_>>, Oom>
    ensures { IfOk result (λ names. map text_of names.items ≡ map (λ one. (name_of one.kind).name) (spec.records_of components.now)) }
{
    let mut names = Vec::new(alloc);
    for component in components {
        push_record_names(component.members.as_slice(), &mut names)?;
    }
    Ok(names)
}
