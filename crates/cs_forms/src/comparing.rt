// Which records are compared by their values.
ghost use Rattle.std.specs.Prelude.{◌≡◌, ◌↔◌, IfOk, IsTrue, length, map};
ghost use Rattle.std.specs.List.{list_all};
ghost use Rattle.cs_rules.specs.Written as written_spec;
ghost use Rattle.cs_forms.specs.Comparing as spec;

use crate::written::record_named;
use cs_ast::{Argument, CsType, Member, MemberKind, TypeExpr, TypeKind};
use sqlite_items::at;
use std::alloc::{AllocError, Global};
use text_core::Txt;

/// What a table says of the record of this name.
fn is_flagged(flags: &[bool], records: &[Member], name: &Txt) -> bool
    ensures { result ≡ spec.flag_of flags.now (written_spec.record_named records.now name.now) }
{
    match record_named(records, name) {
        None => false,
        Some(found) => match at(flags, found.number) {
            None => false,
            Some(flag) => *flag,
        },
    }
}

/// Whether values of a type are compared, by a table of the records.
fn compares(flags: &[bool], records: &[Member], cs_type: &CsType) -> bool
    ensures { result ≡ spec.compares_by flags.now records.now cs_type.now }
{
    match cs_type {
        CsType::Int | CsType::Bool | CsType::Text => true,
        CsType::Rec(name) => is_flagged(flags, records, name),
        _ => false,
    }
}

/// The same of a type as it is written.
#[tactic(auto, using(cs_rules::proofs::WrittenLaws::type_int, cs_rules::proofs::WrittenLaws::type_bool, cs_rules::proofs::WrittenLaws::type_text, cs_rules::proofs::WrittenLaws::type_named, cs_rules::proofs::WrittenLaws::type_list, cs_rules::proofs::WrittenLaws::type_callback, cs_rules::proofs::WrittenLaws::type_fragment, cs_rules::proofs::WrittenLaws::type_change, cs_rules::proofs::WrittenLaws::type_args))]
fn part_compares(flags: &[bool], records: &[Member], written: &TypeExpr) -> bool
    ensures { result ≡ spec.compares_by flags.now records.now (written_spec.type_of written.now) }
{
    match &written.kind {
        TypeKind::Int => true,
        TypeKind::Bool => true,
        TypeKind::Text => true,
        TypeKind::Named(name) => is_flagged(flags, records, name),
        TypeKind::List(_item) => false,
        TypeKind::Callback(_argument) => false,
        TypeKind::Fragment(_argument) => false,
        TypeKind::Change => false,
        TypeKind::Args => false,
    }
}

/// Whether all parts are compared.
fn all_compare(flags: &[bool], records: &[Member], parts: &[Argument]) -> bool
    ensures { result ≡ list_all (λ part. spec.compares_by flags.now records.now (written_spec.type_of part.cs_type)) parts.now }
{
    for part in parts {
        if !part_compares(flags, records, &part.cs_type) {
            return false;
        }
    }
    true
}

/// Whether all parts of a member are compared, if it is a record.
fn parts_compare(flags: &[bool], records: &[Member], kind: &MemberKind) -> bool
    ensures { result ≡ spec.parts_pass (spec.compares_by flags.now records.now) kind.now }
{
    match kind {
        MemberKind::RecordDef { name: _, parts } => all_compare(flags, records, parts.as_slice()),
        _ => false,
    }
}

fn has_no_parts(kind: &MemberKind) -> bool
    ensures { result ≡ spec.has_no_parts kind.now }
{
    match kind {
        MemberKind::RecordDef { parts, .. } => parts.is_empty(),
        _ => false,
    }
}

/// The table where nothing is looked into.
fn first_table(alloc: Global, records: &[Member]) -> Result<Vec<bool>, AllocError>
    ensures { IfOk result (λ flags. flags.items ≡ map (λ one. spec.has_no_parts one.kind) records.now) }
{
    let mut flags = Vec::new(alloc);
    for one in records {
        flags.push(has_no_parts(&one.kind))?;
    }
    Ok(flags)
}

/// The table behind this one.
fn next_table(alloc: Global, flags: &[bool], records: &[Member]) -> Result<Vec<bool>, AllocError>
    ensures { IfOk result (λ next. next.items ≡ map (λ one. spec.parts_pass (spec.compares_by flags.now records.now) one.kind) records.now) }
{
    let mut next = Vec::new(alloc);
    for one in records {
        next.push(parts_compare(flags, records, &one.kind))?;
    }
    Ok(next)
}

/// Whether two tables are the same.
fn same_table(a: &[bool], b: &[bool]) -> bool
    ensures { IsTrue result ↔ (a.now ≡ b.now) }
{
    a == b
}

/// The table where records are looked into as deep as there are records.
#[tactic(auto, using(crate::proofs::ComparingLemmas::first_table))]
fn last_table(alloc: Global, records: &[Member]) -> Result<Vec<bool>, AllocError>
    ensures { IfOk result (λ flags. flags.items ≡ spec.table (length records.now) records.now) }
{
    let mut flags = first_table(alloc, records)?;
    for _depth in 0..records.len() {
        let next = next_table(alloc, flags.as_slice(), records)?;
        if same_table(next.as_slice(), flags.as_slice()) {
            return Ok(flags);
        }
        flags = next;
    }
    Ok(flags)
}

/// Whether values of the type are compared with each other.
#[tactic(auto, using(crate::proofs::ComparingLemmas::by_last))]
pub fn is_comparable(
    alloc: Global,
    records: &[Member],
    cs_type: &CsType,
) -> Result<bool, AllocError>
    ensures { IfOk result (λ yes. yes ≡ written_spec.is_comparable records.now cs_type.now) }
{
    let flags = last_table(alloc, records)?;
    Ok(compares(flags.as_slice(), records, cs_type))
}
