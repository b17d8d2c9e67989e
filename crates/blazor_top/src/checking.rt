// Whether files are a program.
ghost use Rattle.std.specs.Prelude.{◌≡◌, ◌<◌, ◌++◌, [], ◌∷◌, length, slice_get, IfOk, IsTrue, OnOk, Some};
ghost use Rattle.std.specs.Fmt.{decimal};
ghost use Rattle.text_core.specs.Ascii.{is_ascii};
ghost use Rattle.component_files.specs.Files.{AllSpell};
ghost use Rattle.blazor_top.specs.Checking.{refusal_line, rule_kind, sound_line, unread_kind, unread_place, IsSound};
ghost use Rattle.blazor_top.specs.Stopping.{OnRefusal, Refuses, RefusesFor};

use crate::refusal::{Refusal, Stop, ascii_line};
use crate::status::Status;
use component_files::{FileFault, SourceFile, Unreadable, read_files};
use cs_rules::Rule;
use razor_ast::Component;
use razor_check::{Program, ProgramFault, check};
use sqlite_items::Items;
use std::alloc::Global;
use text_core::{Oom, Place, Txt};

/// The name of a rule, as refusals tell it.
fn rule_kind(rule: Rule) -> &'static str
    ensures name { result.now ≡ rule_kind rule }
    ensures ascii { IsTrue (is_ascii result.now) }
{
    match rule {
        Rule::DuplicateComponent => "DuplicateComponent",
        Rule::BadComponentName => "BadComponentName",
        Rule::DuplicateName => "DuplicateName",
        Rule::UnknownComponent => "UnknownComponent",
        Rule::UnknownParameter => "UnknownParameter",
        Rule::DuplicateAttribute => "DuplicateAttribute",
        Rule::MixedContent => "MixedContent",
        Rule::UnknownName => "UnknownName",
        Rule::UnknownType => "UnknownType",
        Rule::TypeMismatch => "TypeMismatch",
        Rule::NotAssigned => "NotAssigned",
        Rule::ParameterAssigned => "ParameterAssigned",
        Rule::ForCapture => "ForCapture",
        Rule::ChangedCapture => "ChangedCapture",
        Rule::ImpureTemplate => "ImpureTemplate",
        Rule::CallbackInLifecycle => "CallbackInLifecycle",
        Rule::LoopJump => "LoopJump",
        Rule::BadKey => "BadKey",
        Rule::BadBind => "BadBind",
        Rule::BadLifecycle => "BadLifecycle",
        Rule::MissingReturn => "MissingReturn",
        Rule::RecursiveRecord => "RecursiveRecord",
    }
}

fn unread_kind(cause: Unreadable) -> &'static str
    ensures name { result.now ≡ unread_kind cause }
    ensures ascii { IsTrue (is_ascii result.now) }
{
    match cause {
        Unreadable::TooLong => "TooLong",
        Unreadable::TooDeep(_) => "TooDeep",
        Unreadable::Syntax(_) => "Syntax",
    }
}

fn unread_place(cause: Unreadable) -> Place
    ensures { result ≡ unread_place cause }
{
    match cause {
        Unreadable::TooLong => Place { line: 1, column: 1 },
        Unreadable::TooDeep(place) | Unreadable::Syntax(place) => place,
    }
}

/// Writes a number behind a text.
fn push_number(alloc: Global, line: &mut Txt, number: u64) -> Result<(), Oom>
    ensures { OnOk result (line.new ≡ line.old ++ decimal number) }
{
    let digits = number.to_string(alloc)?;
    line.push_str(digits.as_str())?;
    Ok(())
}

/// The line about a file of this name.
fn refusal_line(alloc: Global, kind: &str, name: &Txt, place: Place) -> Result<Txt, Oom>
    requires { IsTrue (is_ascii kind.now) }
    ensures { IfOk result (λ line. line ≡ refusal_line kind.now name.now place) }
{
    let mut line = ascii_line(alloc, "refused ")?;
    line.push_str(kind)?;
    line.push(' ')?;
    line.push_text(name)?;
    line.push(' ')?;
    push_number(alloc, &mut line, u64::from(place.line))?;
    line.push(':')?;
    push_number(alloc, &mut line, u64::from(place.column))?;
    Ok(line)
}

/// The refusal of a program for a file of it.
fn refused(alloc: Global, kind: &str, file: &SourceFile, place: Place) -> Stop
    requires { IsTrue (is_ascii kind.now) }
    ensures { Refuses result Status.Refused (refusal_line kind.now file.now.name place) }
{
    match refusal_line(alloc, kind, &file.name, place) {
        Ok(line) => Stop::Refused(Refusal {
            status: Status::Refused,
            line,
        }),
        Err(Oom) => Stop::Oom,
    }
}

/// The file at a position.
fn file_at(files: &[SourceFile], position: usize) -> &SourceFile
    requires { position < length files.now }
    ensures { slice_get files.now position ≡ Some result.now }
{
    &files[position]
}

/// The components that the files spell.
fn components_of(alloc: Global, files: &[SourceFile]) -> Result<Items<Component>, Stop>
    ensures spelled { IfOk result (AllSpell files.now) }
    ensures refused { OnRefusal result (RefusesFor files.now) }
{
    match read_files(alloc, files) {
        Ok(components) => Ok(components),
        Err(FileFault::Unread { file, cause }) => Err(refused(
            alloc,
            unread_kind(cause),
            file_at(files, file),
            unread_place(cause),
        )),
        Err(FileFault::Oom) => Err(Stop::Oom),
    }
}

/// The program of components, where they break no rule.
fn sound_program(
    alloc: Global,
    files: &[SourceFile],
    components: Items<Component>,
) -> Result<Program, Stop>
    requires { AllSpell files.now components }
    ensures sound { IfOk result (λ program. IsSound files.now program.components) }
    ensures refused { OnRefusal result (RefusesFor files.now) }
{
    match check(alloc, components) {
        Ok(program) => Ok(program),
        Err(ProgramFault::Broken { file, rule, place }) => Err(refused(
            alloc,
            rule_kind(rule),
            file_at(files, file),
            place,
        )),
        Err(ProgramFault::Oom) => Err(Stop::Oom),
    }
}

/// The program that the files spell, where it breaks no rule.
pub fn program_of(alloc: Global, files: &[SourceFile]) -> Result<Program, Stop>
    ensures sound { IfOk result (λ program. IsSound files.now program.components) }
    ensures refused { OnRefusal result (RefusesFor files.now) }
{
    let components = components_of(alloc, files)?;
    sound_program(alloc, files, components)
}

/// The line that says of how many components a program is, as the only one.
pub fn sound_lines(alloc: Global, components: &[Component]) -> Result<Vec<Txt>, Oom>
    ensures { IfOk result (λ lines. lines.items ≡ sound_line components.now ∷ []) }
{
    let mut line = ascii_line(alloc, "ok ")?;
    push_number(alloc, &mut line, components.len() as u64)?;
    let mut lines = Vec::new(alloc);
    lines.push(line)?;
    Ok(lines)
}
