// The files that a command names, read in the order of the words.
ghost use Rattle.std.specs.Prelude.{◌≡◌, ◌≤◌, map, IfOk, OnOk};
ghost use Rattle.blazor_top.specs.Checking.{AreHeld, IsBehind};
ghost use Rattle.outside.specs.Faults.{Rose};
ghost use Rattle.outside.specs.declared.files.FileRead.TheVariants as read;
ghost use Rattle.schedule_replay.specs.Every.{Every};
ghost use Rattle.blazor_top.specs.Reading.{component_file, files_of, named, schedule_file, Holds, IsThere};
ghost use Rattle.blazor_top.specs.Stopping.{AnswerStops, OnRefusal, Stopped, StopsAt};
ghost use Rattle.blazor_top.specs.declared.command.Command.TheVariants as command;

use crate::refusal::{Stop, about};
use crate::status::Status;
use component_files::SourceFile;
use outside::{FileRead, Files};
use sqlite_items::Items;
use std::alloc::Global;
use text_core::{Oom, Txt};

/// The most bytes that a component's file may have.
const COMPONENT_LIMIT: u64 = 1_048_576;

/// The most bytes that a schedule may have.
const SCHEDULE_LIMIT: u64 = 16_777_216;

/// The bytes that a replay is made of.
#[derive(Debug, Drop)]
pub struct Sources {
    pub schedule: Vec<u8>,
    pub root: Vec<u8>,
}

/// The bytes that were read, or the refusal in their place.
fn bytes_of(alloc: Global, name: &Txt, answer: FileRead) -> Result<Vec<u8>, Stop>
    ensures bytes { IfOk result (λ bytes. answer ≡ read.Bytes bytes) }
    ensures stopped { OnRefusal result (AnswerStops name.now answer) }
{
    match answer {
        FileRead::Bytes(bytes) => Ok(bytes),
        FileRead::Missing => Err(about(alloc, Status::Missing, "missing ", name, "")),
        FileRead::TooLarge => Err(about(alloc, Status::TooLarge, "too large ", name, "")),
        FileRead::Failed => Err(about(alloc, Status::Unread, "unread ", name, "")),
        FileRead::Oom => Err(Stop::Oom),
    }
}

/// Reads a file that has at most so many bytes.
fn read_file<F: Files>(
    alloc: Global,
    files: &mut F,
    name: &Txt,
    limit: u64,
) -> Result<Vec<u8>, Stop>
    ensures bytes { IfOk result (λ bytes. Holds (F.held files.old) (named name.now limit) bytes.items) }
    ensures stopped { OnRefusal result (λ status line. StopsAt (F.held files.old)
        (Rose (F.fault_count files.old) (F.fault_count files.new)) status (named name.now limit) line) }
    ensures same { F.held files.new ≡ F.held files.old }
    ensures later { F.fault_count files.old ≤ F.fault_count files.new }
{
    let answer = files.read(alloc, name, limit);
    bytes_of(alloc, name, answer)
}

/// Reads the file of a component.
pub fn read_component<F: Files>(alloc: Global, files: &mut F, name: &Txt) -> Result<Vec<u8>, Stop>
    ensures bytes { IfOk result (λ bytes. Holds (F.held files.old) (component_file name.now) bytes.items) }
    ensures stopped { OnRefusal result (λ status line. StopsAt (F.held files.old)
        (Rose (F.fault_count files.old) (F.fault_count files.new)) status (component_file name.now) line) }
    ensures same { F.held files.new ≡ F.held files.old }
    ensures later { F.fault_count files.old ≤ F.fault_count files.new }
{
    read_file(alloc, files, name, COMPONENT_LIMIT)
}

/// Puts a file of this name and these bytes behind others.
fn push_source(sources: &mut Vec<SourceFile>, name: &Txt, bytes: Vec<u8>) -> Result<(), Oom>
    ensures { OnOk result (IsBehind sources.old.items name.now bytes.items sources.new.items) }
{
    let name = name.clone()?;
    sources.push(SourceFile { name, bytes })?;
    Ok(())
}

/// Reads the files of a program.
pub fn read_program<F: Files>(
    alloc: Global,
    files: &mut F,
    names: &[Txt],
) -> Result<Vec<SourceFile>, Stop>
    ensures held { IfOk result (λ sources. AreHeld (F.held files.old) names.now sources.items) }
    ensures stopped { OnRefusal result (Stopped (F.held files.old)
        (Rose (F.fault_count files.old) (F.fault_count files.new)) (map component_file names.now)) }
    ensures same { F.held files.new ≡ F.held files.old }
    ensures later { F.fault_count files.old ≤ F.fault_count files.new }
{
    let mut sources = Vec::new(alloc);
    for name in names {
        let bytes = read_component(alloc, files, name)?;
        push_source(&mut sources, name, bytes)?;
    }
    Ok(sources)
}

/// Reads files of components, to see that they are there.
fn visit<F: Files>(alloc: Global, files: &mut F, names: &[Txt]) -> Result<(), Stop>
    ensures there { IfOk result (λ _. Every (IsThere (F.held files.old)) (map component_file names.now)) }
    ensures stopped { OnRefusal result (Stopped (F.held files.old)
        (Rose (F.fault_count files.old) (F.fault_count files.new)) (map component_file names.now)) }
    ensures same { F.held files.new ≡ F.held files.old }
    ensures later { F.fault_count files.old ≤ F.fault_count files.new }
{
    for name in names {
        read_component(alloc, files, name)?;
    }
    Ok(())
}

/// Reads all files of a replay.
pub fn read_sources<F: Files>(
    alloc: Global,
    files: &mut F,
    schedule: &Txt,
    root: &Txt,
    others: &Items<Txt>,
) -> Result<Sources, Stop>
    ensures schedule { IfOk result (λ sources. Holds (F.held files.old) (schedule_file schedule.now) sources.schedule.items) }
    ensures root { IfOk result (λ sources. Holds (F.held files.old) (component_file root.now) sources.root.items) }
    ensures there { IfOk result (λ _. Every (IsThere (F.held files.old)) (map component_file others.now)) }
    ensures stopped { OnRefusal result (Stopped (F.held files.old) (Rose (F.fault_count files.old) (F.fault_count files.new))
        (files_of (command.Replay schedule.now root.now others.now))) }
    ensures same { F.held files.new ≡ F.held files.old }
    ensures later { F.fault_count files.old ≤ F.fault_count files.new }
{
    let schedule = read_file(alloc, files, schedule, SCHEDULE_LIMIT)?;
    let root = read_component(alloc, files, root)?;
    visit(alloc, files, others.as_slice())?;
    Ok(Sources { schedule, root })
}
