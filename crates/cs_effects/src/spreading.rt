// Which methods do a deed, themselves or through methods that they run.
ghost use Rattle.std.specs.Prelude.{◌≡◌, ◌<◌, length, map, IfOk, slice_get};
ghost use Rattle.std.specs.Option.{option_copied};
ghost use Rattle.cs_effects.specs.Spreading as spec;

use crate::deed::Deed;
use crate::marks::{Mark, first_waiting};
use crate::members::{does_itself, method_name};
use cs_ast::Member;
use sqlite_items::Items;
use std::alloc::Global;
use text_core::{Oom, Txt};

fn first_mark(alloc: Global, deed: &Deed, member: &Member) -> Result<Mark, Oom>
    ensures { IfOk result (λ mark. mark ≡ spec.first_mark deed.now member.now) }
{
    if does_itself(alloc, deed, &member.kind)? {
        Ok(Mark::Waiting)
    } else {
        Ok(Mark::Clear)
    }
}

/// The marks of those that do it themselves.
fn first_marks(alloc: Global, deed: &Deed, members: &[Member]) -> Result<Items<Mark>, Oom>
    ensures { IfOk result (λ marks. marks ≡ map (spec.first_mark deed.now) members.now) }
{
    let mut marks = Items::new(alloc);
    for member in members {
        marks.push(first_mark(alloc, deed, member)?)?;
    }
    Ok(marks)
}

fn touched(alloc: Global, runs: &Deed, member: &Member, mark: Mark) -> Result<Mark, Oom>
    ensures { IfOk result (λ new. new ≡ spec.touched runs.now member.now mark) }
{
    match mark {
        Mark::Clear => first_mark(alloc, runs, member),
        Mark::Waiting => Ok(Mark::Waiting),
        Mark::Spread => Ok(Mark::Spread),
    }
}

/// Marks those that run a method.
fn touch(alloc: Global, runs: &Deed, members: &[Member], marks: &[Mark]) -> Result<Items<Mark>, Oom>
    ensures { IfOk result (λ new. new ≡ spec.touch runs.now members.now marks.now) }
{
    let mut new = Items::new(alloc);
    let mut rest = members;
    let mut old = marks;
    while let Some((member, other_members)) = rest.split_first() {
        let Some((mark, other_marks)) = old.split_first() else {
            return Ok(new);
        };
        new.push(touched(alloc, runs, member, *mark)?)?;
        rest = other_members;
        old = other_marks;
    }
    Ok(new)
}

fn name_at<'a>(members: &'a [Member], at: usize) -> Option<&'a Txt>
    ensures { option_copied result ≡ spec.name_of (slice_get members.now at) }
{
    match sqlite_items::at(members, at) {
        None => None,
        Some(member) => method_name(&member.kind),
    }
}

/// Spreads the mark of one that waits to those that run it.
#[tactic(auto, unfolding(crate::specs::Spreading::spread))]
fn spread(
    alloc: Global,
    members: &[Member],
    mut marks: Items<Mark>,
    at: usize,
) -> Result<Items<Mark>, Oom>
    requires { at < length marks }
    ensures { IfOk result (λ new. new ≡ spec.spread members.now marks at) }
{
    marks.set(at, Mark::Spread);
    match name_at(members, at) {
        None => Ok(marks),
        Some(name) => {
            let runs = Deed::Runs(name.clone()?);
            touch(alloc, &runs, members, marks.as_slice())
        }
    }
}

/// The marks of those that do it.
pub fn doers(alloc: Global, deed: &Deed, members: &[Member]) -> Result<Items<Mark>, Oom>
    ensures { IfOk result (λ marks. spec.Found members.now deed.now marks) }
{
    let mut marks = first_marks(alloc, deed, members)?;
    while let Some(at) = first_waiting(marks.as_slice()) {
        marks = spread(alloc, members, marks, at)?;
    }
    Ok(marks)
}
