// The words of the command line.
ghost use Rattle.std.specs.Prelude.{◌≡◌, ◌++◌, IfOk, OnOk};
ghost use Rattle.blazor_top.specs.Command.{asked_of, begins_with_dash, command_of, names_in, replay_of};

use sqlite_items::Items;
use std::alloc::Global;
use text_core::{Oom, Txt};

/// The most files that a program may have beside its root.
const MOST_OTHERS: usize = 255;

/// The most files that a program may have.
const MOST_FILES: usize = 256;

/// What is asked of the program of some files.
#[derive(Clone, Copy, Debug, PartialEq, Eq)]
pub enum Question {
    /// Whether they are one, and of how many components.
    Check,
    /// Its first page.
    Render,
    /// The frames of its first rendering.
    Frames,
}

/// What the words of the command line ask for.
#[derive(Debug, Drop)]
pub enum Command {
    Ask {
        question: Question,
        files: Items<Txt>,
    },
    /// The transcript of a schedule over a program, whose root stands in the first of its files.
    Replay {
        schedule: Txt,
        root: Txt,
        others: Items<Txt>,
    },
}

/// The command that the words ask for, if they ask for one.
pub fn command_of(alloc: Global, words: &[Txt]) -> Result<Option<Command>, Oom>
    ensures { IfOk result (λ found. found ≡ command_of words.now) }
{
    let [word, rest @ ..] = words else {
        return Ok(None);
    };
    let Some(names) = names_in(alloc, rest)? else {
        return Ok(None);
    };
    if word.is("check") {
        return Ok(asked_of(Question::Check, names));
    }
    if word.is("render") {
        return Ok(asked_of(Question::Render, names));
    }
    if word.is("frames") {
        return Ok(asked_of(Question::Frames, names));
    }
    if word.is("replay") {
        return Ok(replay_of(names));
    }
    Ok(None)
}

fn asked_of(question: Question, names: Items<Txt>) -> Option<Command>
    ensures { result ≡ asked_of question names }
{
    if names.is_empty() || names.len() > MOST_FILES {
        return None;
    }
    Some(Command::Ask {
        question,
        files: names,
    })
}

fn replay_of(names: Items<Txt>) -> Option<Command>
    ensures { result ≡ replay_of names }
{
    let mut names = names;
    if names.len() < 2 {
        return None;
    }
    let schedule = names.remove(0);
    let root = names.remove(0);
    if names.len() > MOST_OTHERS {
        return None;
    }
    Some(Command::Replay {
        schedule,
        root,
        others: names,
    })
}

/// The names among words that hold no options.
fn names_in(alloc: Global, words: &[Txt]) -> Result<Option<Items<Txt>>, Oom>
    ensures { IfOk result (λ names. names ≡ names_in words.now) }
{
    let mut names = Items::new(alloc);
    let mut rest = words;
    while let [word, behind @ ..] = rest {
        if word.is("--") {
            push_all(&mut names, behind)?;
            return Ok(Some(names));
        }
        if begins_with_dash(word) {
            return Ok(None);
        }
        names.push(word.clone()?)?;
        rest = behind;
    }
    Ok(Some(names))
}

fn push_all(names: &mut Items<Txt>, words: &[Txt]) -> Result<(), Oom>
    ensures { OnOk result (names.new ≡ names.old ++ words.now) }
{
    for word in words {
        names.push(word.clone()?)?;
    }
    Ok(())
}

fn begins_with_dash(word: &Txt) -> bool
    ensures { result ≡ begins_with_dash word.now }
{
    word.first() == Some('-')
}
