// What the words ask for.
ghost use Rattle.std.specs.Prelude.{◌≡◌, ◌<◌, ◌≤◌, ◌∷◌, [], length, IfOk, None};
ghost use Rattle.outside.specs.Faults.{Rose};
ghost use Rattle.blazor_top.specs.Command.{command_of};
ghost use Rattle.blazor_top.specs.Lines.{usage_line};
ghost use Rattle.blazor_top.specs.Reply.{IsOutput, Replies};
ghost use Rattle.blazor_top.specs.Stopping.{CommandOutput, CommandRefused, OnRefusal, Refuses};
ghost use Rattle.blazor_top.specs.declared.command.Command.TheVariants as command;

use crate::asking::answer;
use crate::command::{Command, Question, command_of};
use crate::playing::play;
use crate::reading::{read_program, read_sources};
use crate::refusal::{Stop, refused_with};
use crate::status::Status;
use outside::Files;
use sqlite_items::Items;
use std::alloc::Global;
use text_core::Txt;

/// The refusal of words that are no command.
fn usage(alloc: Global) -> Stop
    ensures { Refuses result Status.Usage usage_line }
{
    refused_with(alloc, Status::Usage, "usage: blazor COMMAND ARGUMENTS")
}

/// Reads the files of a program, and answers a question about it.
fn ask<F: Files>(
    alloc: Global,
    files: &mut F,
    question: Question,
    names: &[Txt],
) -> Result<Vec<Txt>, Stop>
    requires { 0 < length names.now }
    ensures output { IfOk result (λ lines. CommandOutput (F.held files.old) (command.Ask question names.now) lines.items) }
    ensures refused { OnRefusal result (CommandRefused (F.held files.old)
        (Rose (F.fault_count files.old) (F.fault_count files.new)) (command.Ask question names.now)) }
    ensures same { F.held files.new ≡ F.held files.old }
    ensures later { F.fault_count files.old ≤ F.fault_count files.new }
{
    let sources = read_program(alloc, files, names)?;
    answer(alloc, question, &sources)
}

/// The transcript of the schedule over the program.
fn transcribe<F: Files>(
    alloc: Global,
    files: &mut F,
    schedule: &Txt,
    root: &Txt,
    others: &Items<Txt>,
) -> Result<Vec<Txt>, Stop>
    ensures output { IfOk result (λ lines. CommandOutput (F.held files.old)
        (command.Replay schedule.now root.now others.now) lines.items) }
    ensures refused { OnRefusal result (CommandRefused (F.held files.old)
        (Rose (F.fault_count files.old) (F.fault_count files.new)) (command.Replay schedule.now root.now others.now)) }
    ensures same { F.held files.new ≡ F.held files.old }
    ensures later { F.fault_count files.old ≤ F.fault_count files.new }
{
    let sources = read_sources(alloc, files, schedule, root, others)?;
    play(alloc, schedule, root, others, &sources)
}

/// Reads what the words name, and makes what they ask for.
pub fn output_of<F: Files>(alloc: Global, words: &[Txt], files: &mut F) -> Result<Vec<Txt>, Stop>
    ensures output { IfOk result (λ lines. IsOutput words.now (F.held files.old) lines.items) }
    ensures refused { OnRefusal result (λ status line. Replies words.now (F.held files.old)
        (Rose (F.fault_count files.old) (F.fault_count files.new)) status (line ∷ [])) }
    ensures idle { command_of words.now ≡ None → files.new ≡ files.old }
    ensures same { F.held files.new ≡ F.held files.old }
    ensures later { F.fault_count files.old ≤ F.fault_count files.new }
{
    match command_of(alloc, words)? {
        None => Err(usage(alloc)),
        Some(
            Command::Ask {
                question,
                files: names,
            },
        ) => ask(alloc, files, question, names.as_slice()),
        Some(
            Command::Replay {
                schedule,
                root,
                others,
            },
        ) => transcribe(alloc, files, &schedule, &root, &others),
    }
}
