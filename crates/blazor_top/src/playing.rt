// From the bytes of a schedule and of a program to the transcript.
ghost use Rattle.std.specs.Prelude.{◌≡◌, ◌++◌, codes, IfOk, Ok};
ghost use Rattle.std.specs.Fmt.{decimal};
ghost use Rattle.plain_page.specs.Runnable.{IsRunnable};
ghost use Rattle.schedule_replay.specs.Schedule.{schedule_of, IsSchedule};
ghost use Rattle.blazor_top.specs.Program.{FileSpells};
ghost use Rattle.blazor_top.specs.Stopping.{NoComponent, NoSchedule, OnRefusal, Plays, PlaysNot, Refuses};
ghost use Rattle.blazor_top.specs.Transcript.{IsTranscriptOf};

use crate::asking::not_yet;
use crate::reading::Sources;
use crate::refusal::{Refusal, Stop, about, ascii_line, refused_with};
use crate::status::Status;
use first_click::{Component, read};
use plain_page::{PlainScreen, PlainStage, what_a_file_spells_can_run};
use schedule_replay::{Schedule, ScheduleFault, read_schedule, replay};
use sqlite_items::Items;
use std::alloc::Global;
use text_core::{Oom, Txt};

/// The component that a file of this name and these bytes spells.
fn component_of(alloc: Global, name: &Txt, bytes: &[u8]) -> Result<Component, Stop>
    ensures spelled { IfOk result (FileSpells name.now bytes.now) }
    ensures refused { OnRefusal result (NoComponent name.now bytes.now) }
{
    match read(alloc, name, bytes)? {
        Some(component) => Ok(component),
        None => Err(not_yet(alloc, name)),
    }
}

/// The line about the first step that is none.
fn step_line(alloc: Global, number: u64) -> Result<Txt, Oom>
    ensures { IfOk result (λ line. line ≡ codes "schedule step " ++ decimal number) }
{
    let digits = number.to_string(alloc)?;
    let mut line = ascii_line(alloc, "schedule step ")?;
    line.push_str(digits.as_str())?;
    Ok(line)
}

/// The refusal of a schedule whose first step that is none has this number.
fn no_step(alloc: Global, number: u64) -> Stop
    ensures { Refuses result Status.Unscheduled (codes "schedule step " ++ decimal number) }
{
    match step_line(alloc, number) {
        Ok(line) => Stop::Refused(Refusal {
            status: Status::Unscheduled,
            line,
        }),
        Err(Oom) => Stop::Oom,
    }
}

/// The schedule that a file of this name and these bytes spells.
fn schedule_of(alloc: Global, name: &Txt, bytes: &[u8]) -> Result<Schedule, Stop>
    ensures spelled { IfOk result (λ schedule. schedule_of bytes.now ≡ Ok schedule) }
    ensures bounds { IfOk result IsSchedule }
    ensures refused { OnRefusal result (NoSchedule name.now bytes.now) }
{
    match read_schedule(alloc, bytes) {
        Ok(schedule) => Ok(schedule),
        Err(ScheduleFault::Unread) => Err(refused_with(
            alloc,
            Status::Unscheduled,
            "schedule unread",
        )),
        Err(ScheduleFault::Step { number }) => Err(no_step(alloc, number)),
        Err(ScheduleFault::TooMany) => {
            Err(about(alloc, Status::TooLarge, "too large ", name, ""))
        }
        Err(ScheduleFault::Oom) => Err(Stop::Oom),
    }
}

/// The transcript of the schedule over a circuit of the component.
fn transcript(alloc: Global, component: Component, schedule: &Schedule) -> Result<Vec<Txt>, Oom>
    requires component { IsRunnable component }
    requires schedule { IsSchedule schedule.now }
    ensures { IfOk result (λ lines. IsTranscriptOf component schedule.now lines.items) }
{
    let stage = PlainStage::new(alloc, component)?;
    replay(alloc, stage, PlainScreen::new(alloc), schedule)
}

/// The transcript of a schedule over a program, which is one component so far.
pub fn play(
    alloc: Global,
    schedule: &Txt,
    root: &Txt,
    others: &Items<Txt>,
    sources: &Sources,
) -> Result<Vec<Txt>, Stop>
    ensures output { IfOk result (λ lines. Plays root.now others.now sources.now.schedule.items sources.now.root.items lines.items) }
    ensures refused { OnRefusal result
        (PlaysNot schedule.now root.now sources.now.schedule.items sources.now.root.items others.now) }
{
    let component = component_of(alloc, root, &sources.root)?;
    if let Some(second) = others.get(0) {
        return Err(not_yet(alloc, second));
    }
    let schedule = schedule_of(alloc, schedule, &sources.schedule)?;
    what_a_file_spells_can_run();
    Ok(transcript(alloc, component, &schedule)?)
}
