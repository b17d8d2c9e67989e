// A schedule over a line.
ghost use Rattle.std.specs.Prelude.{◌≡◌, ◌≤◌, ◌<◌, ◌+◌, ◌^◌, ◌++◌, codes, IfOk};
ghost use Rattle.hub_messages.specs.Stage.{IsFirst};
ghost use Rattle.schedule_replay.specs.Every.{Every};
ghost use Rattle.schedule_replay.specs.Line.Standing.{IsRunning, LeadsLines};
ghost use Rattle.schedule_replay.specs.Line.Steps.{ends_of, Flows};
ghost use Rattle.schedule_replay.specs.Line.Transcript.{Runs, StepLines, Transcript};
ghost use Rattle.schedule_replay.specs.Schedule.{HasShortName, IsSchedule, weight, weights};
ghost use Rattle.schedule_replay.specs.Texts.{numbered};

use crate::direct_line::Line;
use crate::texts::push_numbered;
use crate::{Schedule, Step};
use hub_messages::{PrintScreen, Screen, Stage, Turns};
use std::alloc::Global;
use text_core::{Oom, Txt};

/// So many messages are delivered, or all that are fresh.
fn flow<T: Turns, S: Stage<Tree = T> + Drop, V: PrintScreen + Screen<Tree = T> + Drop>(
    line: Line<S, V>,
    count: u32,
    lines: &mut Vec<Txt>,
) -> Result<Line<S, V>, Oom>
    requires few { line.steps + count < 2 ^ 32 }
    requires window_from { 1 ≤ line.window }
    requires window_to { line.window ≤ 64 }
    requires running { IsRunning S.machine S.stands T.first T.turns T.page V.Screen.tree line }
    ensures { IfOk result (λ next. LeadsLines S.machine S.stands T.first T.turns T.page V.Screen.tree line next lines.old.items lines.new.items
        (λ ends state more after. Flows ends count state more after)) }
{
    let mut line = line;
    for _turn in 0..count {
        if line.delivered >= line.messages.len() {
            return Ok(line);
        }
        let (next, text) = line.deliver()?;
        lines.push(text)?;
        line = next;
    }
    Ok(line)
}

/// One step of a schedule.
fn play<T: Turns, S: Stage<Tree = T> + Drop, V: PrintScreen + Screen<Tree = T> + Drop>(
    line: Line<S, V>,
    step: &Step,
    lines: &mut Vec<Txt>,
) -> Result<Line<S, V>, Oom>
    requires few { line.steps + weight step.now < 2 ^ 32 }
    requires short { HasShortName step.now }
    requires window_from { 1 ≤ line.window }
    requires window_to { line.window ≤ 64 }
    requires running { IsRunning S.machine S.stands T.first T.turns T.page V.Screen.tree line }
    ensures { IfOk result (λ next. LeadsLines S.machine S.stands T.first T.turns T.page V.Screen.tree line next lines.old.items lines.new.items
        (λ ends state more after. StepLines ends step.now state more after)) }
{
    match step {
        Step::Open { .. } => {
            let (next, text) = line.open()?;
            lines.push(text)?;
            Ok(next)
        }
        Step::User(user) => {
            let (next, text) = line.user(user)?;
            lines.push(text)?;
            Ok(next)
        }
        Step::Flow { count } => flow(line, *count, lines),
    }
}

/// Steps of a schedule, one after another.
fn play_all<T: Turns, S: Stage<Tree = T> + Drop, V: PrintScreen + Screen<Tree = T> + Drop>(
    line: Line<S, V>,
    steps: &[Step],
    lines: &mut Vec<Txt>,
) -> Result<Line<S, V>, Oom>
    requires few { line.steps + weights steps.now < 2 ^ 32 }
    requires short { Every HasShortName steps.now }
    requires window_from { 1 ≤ line.window }
    requires window_to { line.window ≤ 64 }
    requires running { IsRunning S.machine S.stands T.first T.turns T.page V.Screen.tree line }
    ensures { IfOk result (λ next. LeadsLines S.machine S.stands T.first T.turns T.page V.Screen.tree line next lines.old.items lines.new.items
        (λ ends state more after. Runs ends steps.now state more after)) }
{
    let mut line = line;
    for step in steps {
        line = play(line, step, lines)?;
    }
    Ok(line)
}

/// The last line: how many atomic steps there were.
fn done_line(alloc: Global, steps: u64) -> Result<Txt, Oom>
    ensures { IfOk result (λ line. line ≡ numbered (codes "done") steps) }
{
    let mut line = Txt::new(alloc);
    push_numbered(alloc, &mut line, "done", steps)?;
    Ok(line)
}

/// The lines of the transcript of a schedule, without their ends, over a line between a server with this stage and a
/// browser with this screen.
pub fn replay<T: Turns, S: Stage<Tree = T> + Drop, V: PrintScreen + Screen<Tree = T> + Drop>(
    alloc: Global,
    stage: S,
    screen: V,
    schedule: &Schedule,
) -> Result<Vec<Txt>, Oom>
    requires schedule { IsSchedule schedule.now }
    requires stage { IsFirst S.machine S.stands stage }
    requires screen { V.Screen.tree screen ≡ T.first }
    ensures { IfOk result (λ lines. (first : S.machine.State) → S.machine.First first → S.stands stage first
        → Transcript (ends_of S.machine first schedule.now.window T.turns T.page) T.first schedule.now.steps lines.items) }
{
    let line = Line::new(alloc, schedule.window, stage, screen);
    let mut lines = Vec::new(alloc);
    let line = play_all(line, schedule.steps.as_slice(), &mut lines)?;
    lines.push(done_line(alloc, line.steps)?)?;
    Ok(lines)
}
