// Records that contain themselves.
ghost use Rattle.std.specs.Prelude.{◌≡◌, ◌↔◌, ◌<◌, IsTrue, IfOk, OnOk, false, Some, length, map, slice_get, MatchOption};
ghost use Rattle.std.specs.List.{list_any};
ghost use Rattle.std.specs.Option.{option_copied};
ghost use Rattle.cs_rules.specs.Written.{type_of as type_written};
ghost use Rattle.razor_rules.specs.Names.{is_among};
ghost use Rattle.razor_rules.specs.Records as records_spec;
ghost use Rattle.razor_parts.specs.Circles as spec;
ghost use Rattle.razor_parts.specs.declared.circles.Mark.TheVariants as mark;

use crate::records::member_name;
use cs_ast::{Argument, CsType, Member, MemberKind};
use cs_forms::written::{record_named, type_of};
use sqlite_items::Items;
use std::alloc::Global;
use text_core::{Oom, Txt};

/// The record that values of a type hold.
#[tactic(auto, using(crate::proofs::HeldLaws::held_int, crate::proofs::HeldLaws::held_bool, crate::proofs::HeldLaws::held_text, crate::proofs::HeldLaws::held_rec, crate::proofs::HeldLaws::held_list, crate::proofs::HeldLaws::held_callback, crate::proofs::HeldLaws::held_fragment, crate::proofs::HeldLaws::held_change, crate::proofs::HeldLaws::held_args, crate::proofs::HeldLaws::held_nothing))]
fn held(cs_type: &CsType) -> Option<&Txt>
    ensures { option_copied result ≡ records_spec.held_record cs_type.now }
{
    match cs_type {
        CsType::Rec(name) => Some(name),
        CsType::List(item) => held(item.get()),
        CsType::Int => None,
        CsType::Bool => None,
        CsType::Text => None,
        CsType::Callback(_) => None,
        CsType::Fragment(_) => None,
        CsType::Change => None,
        CsType::Args => None,
        CsType::Nothing => None,
    }
}

/// What is known of a record.
#[derive(Clone, Copy, Debug, PartialEq, Eq)]
pub enum Mark {
    /// It isn't known to be reached.
    Clear,
    /// It is reached, and its parts weren't looked at.
    Waiting,
    /// It is reached, and so are its parts.
    Passed,
}

fn is_waiting(mark: Mark) -> bool
    ensures { result ≡ spec.is_waiting mark }
{
    match mark {
        Mark::Waiting => true,
        Mark::Clear | Mark::Passed => false,
    }
}

fn is_clear(mark: Mark) -> bool
    ensures { result ≡ spec.is_clear mark }
{
    match mark {
        Mark::Clear => true,
        Mark::Waiting | Mark::Passed => false,
    }
}

/// Where the first stands that waits.
fn first_waiting(marks: &[Mark]) -> Option<usize>
    ensures { MatchOption result (list_any spec.is_waiting marks.now ≡ false)
        (λ at. (at < length marks.now) × (slice_get marks.now at ≡ Some mark.Waiting)) }
{
    for (at, mark) in marks.iter().enumerate() {
        if is_waiting(*mark) {
            return Some(at);
        }
    }
    None
}

/// Marks the record at a place, if it is clear.
fn mark_at(marks: &mut Items<Mark>, at: usize)
    ensures { marks.new ≡ spec.marked_at marks.old at }
{
    match sqlite_items::at(marks.as_slice(), at) {
        Some(mark) => {
            if is_clear(*mark) {
                marks.set(at, Mark::Waiting);
            }
        }
        None => {}
    }
}

/// Marks the record of a name.
#[tactic(auto, unfolding(crate::specs::Circles::marked))]
fn mark_named(records: &[Member], marks: &mut Items<Mark>, name: &Txt)
    ensures { marks.new ≡ spec.marked records.now name.now marks.old }
{
    match record_named(records, name) {
        Some(found) => mark_at(marks, found.number),
        None => {}
    }
}

/// The parts of a record.
fn parts_of(kind: &MemberKind) -> &[Argument]
    ensures { result.now ≡ spec.parts_of kind.now }
{
    match kind {
        MemberKind::RecordDef { parts, .. } => parts.as_slice(),
        MemberKind::Field { .. } => &[],
        MemberKind::Parameter { .. } => &[],
        MemberKind::Method { .. } => &[],
        MemberKind::Getter { .. } => &[],
    }
}

fn parts_at(records: &[Member], at: usize) -> &[Argument]
    ensures { result.now ≡ spec.parts_at (slice_get records.now at) }
{
    match sqlite_items::at(records, at) {
        Some(member) => parts_of(&member.kind),
        None => &[],
    }
}

/// Whether a part holds the record of a name. Another record that it holds is marked.
fn pass(
    alloc: Global,
    records: &[Member],
    name: &Txt,
    part: &Argument,
    marks: &mut Items<Mark>,
) -> Result<bool, Oom>
    ensures yes { IfOk result (λ yes. yes ≡ records_spec.is_named name.now (records_spec.held_record (type_written part.now.cs_type))) }
    ensures marks { OnOk result (marks.new ≡ spec.marked_by records.now (records_spec.held_record (type_written part.now.cs_type)) marks.old) }
{
    let cs_type = type_of(alloc, &part.cs_type)?;
    match held(&cs_type) {
        None => Ok(false),
        Some(other) => {
            mark_named(records, marks, other);
            Ok(*other == *name)
        }
    }
}

/// Whether one of these parts holds the record of a name. The records that they hold are marked.
fn pass_all(
    alloc: Global,
    records: &[Member],
    name: &Txt,
    parts: &[Argument],
    marks: &mut Items<Mark>,
) -> Result<bool, Oom>
    ensures yes { IfOk result (λ yes. yes ≡ spec.holds_one name.now parts.now) }
    ensures marks { IfOk result (λ yes. yes ≡ false → marks.new ≡ spec.marked_all records.now parts.now marks.old) }
{
    for part in parts {
        if pass(alloc, records, name, part, marks)? {
            return Ok(true);
        }
    }
    Ok(false)
}

fn no_marks(alloc: Global, records: &[Member]) -> Result<Items<Mark>, Oom>
    ensures { IfOk result (λ marks. marks ≡ map (λ one. mark.Clear) records.now) }
{
    let mut marks = Items::new(alloc);
    for _record in records {
        marks.push(Mark::Clear)?;
    }
    Ok(marks)
}

/// Whether the record of a name contains itself.
fn contains_itself(alloc: Global, records: &[Member], name: &Txt) -> Result<bool, Oom>
    ensures { IfOk result (λ yes. IsTrue yes ↔ records_spec.Holds records.now name.now name.now) }
{
    let mut marks = no_marks(alloc, records)?;
    mark_named(records, &mut marks, name);
    while let Some(at) = first_waiting(marks.as_slice()) {
        marks.set(at, Mark::Passed);
        if pass_all(alloc, records, name, parts_at(records, at), &mut marks)? {
            return Ok(true);
        }
    }
    Ok(false)
}

/// The names of the records that contain themselves.
pub fn circular_names(alloc: Global, records: &[Member]) -> Result<Items<Txt>, Oom>
    ensures { IfOk result (λ names. spec.AreCircular records.now names) }
{
    let mut names = Items::new(alloc);
    for record in records {
        let name = &member_name(&record.kind).name;
        if contains_itself(alloc, records, name)? {
            names.push(name.clone()?)?;
        }
    }
    Ok(names)
}

/// Whether a name is among these.
pub fn is_among_texts(name: &Txt, names: &[Txt]) -> bool
    ensures { result ≡ is_among name.now names.now }
{
    for one in names {
        if *name == *one {
            return true;
        }
    }
    false
}
