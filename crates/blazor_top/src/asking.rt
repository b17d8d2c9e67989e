// What is asked of a program.
ghost use Rattle.std.specs.Prelude.{◌≡◌, ◌<◌, length, IfOk};
ghost use Rattle.blazor_top.specs.Asking.{Answered, AreAlone};
ghost use Rattle.blazor_top.specs.Checking.{IsSound};
ghost use Rattle.blazor_top.specs.Lines.{refused_line};
ghost use Rattle.blazor_top.specs.Stopping.{Declines, OnRefusal, Refuses, RefusesAsOther};

use crate::checking::{program_of, sound_lines};
use crate::command::Question;
use crate::refusal::{Stop, about};
use crate::status::Status;
use component_files::SourceFile;
use program_lines::{frame_lines, page_lines};
use razor_ast::Component;
use standing_alone::stands_alone;
use std::alloc::Global;
use text_core::Txt;

/// The refusal of a file at which a program is not taken yet.
pub fn not_yet(alloc: Global, name: &Txt) -> Stop
    ensures { Refuses result Status.Refused (refused_line name.now) }
{
    about(alloc, Status::Refused, "refused NotYet ", name, " 1:1")
}

/// Refuses any other program than one component that stands alone.
fn refuse_others(alloc: Global, files: &[SourceFile], components: &[Component]) -> Result<(), Stop>
    requires sound { IsSound files.now components.now }
    requires some { 0 < length files.now }
    ensures alone { IfOk result (λ _. AreAlone components.now) }
    ensures refused { OnRefusal result (RefusesAsOther files.now) }
{
    if files.len() > 1 {
        return Err(not_yet(alloc, &files[1].name));
    }
    if stands_alone(&components[0]) {
        return Ok(());
    }
    Err(not_yet(alloc, &files[0].name))
}

/// The page of a program of one component, or the fault that ends its rendering.
fn rendered(alloc: Global, files: &[SourceFile], components: &[Component]) -> Result<Vec<Txt>, Stop>
    requires sound { IsSound files.now components.now }
    requires some { 0 < length files.now }
    ensures output { IfOk result (λ lines. Answered Question.Render files.now lines.items) }
    ensures refused { OnRefusal result (RefusesAsOther files.now) }
{
    refuse_others(alloc, files, components)?;
    match page_lines(alloc, components)? {
        Some(lines) => Ok(lines),
        None => unreachable!(),
    }
}

/// The frames of the first rendering of a program of one component, or the fault that ends it.
fn listed(alloc: Global, files: &[SourceFile], components: &[Component]) -> Result<Vec<Txt>, Stop>
    requires sound { IsSound files.now components.now }
    requires some { 0 < length files.now }
    ensures output { IfOk result (λ lines. Answered Question.Frames files.now lines.items) }
    ensures refused { OnRefusal result (RefusesAsOther files.now) }
{
    refuse_others(alloc, files, components)?;
    match frame_lines(alloc, components)? {
        Some(lines) => Ok(lines),
        None => unreachable!(),
    }
}

/// The answer to a question about the program of these files.
pub fn answer(alloc: Global, question: Question, files: &[SourceFile]) -> Result<Vec<Txt>, Stop>
    requires { 0 < length files.now }
    ensures output { IfOk result (λ lines. Answered question files.now lines.items) }
    ensures refused { OnRefusal result (Declines question files.now) }
{
    let program = program_of(alloc, files)?;
    match question {
        Question::Check => Ok(sound_lines(alloc, program.components())?),
        Question::Render => rendered(alloc, files, program.components()),
        Question::Frames => listed(alloc, files, program.components()),
    }
}
