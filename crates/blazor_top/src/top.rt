// The top call.
ghost use Rattle.std.specs.Prelude.{◌≡◌, ◌≤◌, ◌⊎◌, ◌∷◌, [], None};
ghost use Rattle.outside.specs.Faults.{Rose};
ghost use Rattle.blazor_top.specs.Command.{command_of};
ghost use Rattle.blazor_top.specs.Reply.{IsOutput, IsRefusal, IsUsage, IsUnscheduled, IsMissing, IsUnread, IsTooLarge};
ghost use Rattle.blazor_top.specs.Run.{Wrote, CutOff, IsReply, IsAccepted, Says, IsStatus, Finishes};

use crate::output::output_of;
use crate::refusal::{Refusal, Stop};
use crate::status::Status;
use crate::writing::{write_line, write_lines};
use outside::{Files, Sink, Written};
use std::alloc::Global;
use text_core::Txt;

/// What the top call answers.
#[derive(Clone, Copy, Debug, PartialEq, Eq)]
pub struct Finished {
    /// The number with which the process ends: docs/DEFINITIONS.md, "Statuses".
    pub status: u8,
}

/// Writes what was asked for, and says how that ended.
fn finish<S: Sink>(alloc: Global, out: &mut S, lines: &[Txt]) -> Status
    ensures ends { Finishes Status.Done lines.now (S.written out.old) (S.written out.new)
        (Rose (S.fault_count out.old) (S.fault_count out.new)) result }
    ensures later { S.fault_count out.old ≤ S.fault_count out.new }
{
    match write_lines(alloc, out, lines) {
        Written::All => Status::Done,
        Written::Fault => Status::Unwritten,
        Written::Oom => Status::OutOfMemory,
    }
}

/// Writes a refusal, and says how that ended.
fn refuse<S: Sink>(alloc: Global, out: &mut S, refusal: &Refusal) -> Status
    ensures ends { Finishes refusal.now.status (refusal.now.line ∷ []) (S.written out.old) (S.written out.new)
        (Rose (S.fault_count out.old) (S.fault_count out.new)) result }
    ensures later { S.fault_count out.old ≤ S.fault_count out.new }
{
    match write_line(alloc, out, &refusal.line) {
        Written::All => refusal.status,
        Written::Fault => Status::Unwritten,
        Written::Oom => Status::OutOfMemory,
    }
}

/// Answers the words.
fn answer<F: Files, S: Sink>(alloc: Global, words: &[Txt], files: &mut F, out: &mut S) -> Status
    ensures says { Says words.now (F.held files.old) (Rose (F.fault_count files.old) (F.fault_count files.new))
        (S.written out.old) (S.written out.new) (Rose (S.fault_count out.old) (S.fault_count out.new)) result }
    ensures idle { command_of words.now ≡ None → files.new ≡ files.old }
    ensures same { F.held files.new ≡ F.held files.old }
    ensures later { (F.fault_count files.old ≤ F.fault_count files.new)
        × (S.fault_count out.old ≤ S.fault_count out.new) }
{
    match output_of(alloc, words, files) {
        Ok(lines) => finish(alloc, out, &lines),
        Err(Stop::Refused(refusal)) => refuse(alloc, out, &refusal),
        Err(Stop::Oom) => Status::OutOfMemory,
    }
}

/// Does all that the program does: reads what the words name, writes what they ask for or why there is none, and says
/// with which status the process is to end.
pub fn run<F: Files, S: Sink>(alloc: Global, words: &[Txt], files: &mut F, out: &mut S) -> Finished
    // What the words ask for is written whole: of how many components an accepted program is, the page of the fresh rendering of its component, the frames of it, the fault
    // that ends it, or the transcript of the schedule over a component.
    ensures answered { result.status ≡ 0 → Wrote (S.written out.old) (S.written out.new) (IsOutput words.now (F.held files.old)) }

    // Each refusal comes only for its cause, and its line is written whole.
    ensures refused { result.status ≡ 1 → Wrote (S.written out.old) (S.written out.new) (IsRefusal words.now (F.held files.old)) }
    ensures misused { result.status ≡ 2 → Wrote (S.written out.old) (S.written out.new) (IsUsage words.now) }
    ensures unscheduled { result.status ≡ 3 → Wrote (S.written out.old) (S.written out.new) (IsUnscheduled words.now (F.held files.old)) }
    ensures missing { result.status ≡ 4 → Wrote (S.written out.old) (S.written out.new) (IsMissing words.now (F.held files.old)) }
    ensures too_large { result.status ≡ 8 → Wrote (S.written out.old) (S.written out.new) (IsTooLarge words.now (F.held files.old)) }

    // The count of faults of the files rose.
    ensures unread { result.status ≡ 5 → Wrote (S.written out.old) (S.written out.new)
        (IsUnread words.now (F.held files.old) (Rose (F.fault_count files.old) (F.fault_count files.new))) }

    // Where writing stopped, a front of the lines is written, but not all. The status 9 is for want of memory, of which no
    // contract can give the cause.
    ensures unwritten { result.status ≡ 6
        → CutOff (S.written out.old) (S.written out.new)
        (IsReply words.now (F.held files.old) (Rose (F.fault_count files.old) (F.fault_count files.new)))
        × Rose (S.fault_count out.old) (S.fault_count out.new) }
    ensures no_memory { result.status ≡ 9
        → CutOff (S.written out.old) (S.written out.new)
        (IsReply words.now (F.held files.old) (Rose (F.fault_count files.old) (F.fault_count files.new)))
        ⊎ (S.written out.new ≡ S.written out.old) }

    // There is no other status.
    ensures no_other { IsStatus result.status }

    // So what is accepted is answered or replayed, unless a count of faults rises or memory runs out.
    ensures completes { IsAccepted words.now (F.held files.old)
        → (Rose (F.fault_count files.old) (F.fault_count files.new) → ⊥)
        → (Rose (S.fault_count out.old) (S.fault_count out.new) → ⊥)
        → (result.status ≡ 0) ⊎ (result.status ≡ 9) }

    // Words that are no command touch no file; and the contents of files stay.
    ensures idle { command_of words.now ≡ None → files.new ≡ files.old }
    ensures same { F.held files.new ≡ F.held files.old }
    ensures later { (F.fault_count files.old ≤ F.fault_count files.new)
        × (S.fault_count out.old ≤ S.fault_count out.new) }
{
    Finished {
        status: answer(alloc, words, files, out).code(),
    }
}
