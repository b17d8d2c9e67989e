// Refusals, and their lines.
ghost use Rattle.std.specs.Prelude.{◌≡◌, IfOk, IsTrue};
ghost use Rattle.text_core.specs.Ascii.{is_ascii};
ghost use Rattle.blazor_top.specs.Lines.{line_about};
ghost use Rattle.blazor_top.specs.Stopping.{Refuses};

use crate::status::Status;
use std::alloc::{AllocError, Global};
use text_core::{Oom, Txt};
use thiserror::Error;

/// A status, and the line that is written in place of what was asked for.
#[derive(Debug, Drop)]
pub struct Refusal {
    pub status: Status,
    pub line: Txt,
}

/// Why a command comes to no output.
#[derive(Debug, Drop, Error)]
pub enum Stop {
    #[error("refused")]
    Refused(Refusal),
    #[error("out of memory")]
    Oom,
}

impl From<Oom> for Stop {
    ghost use Rattle.std.specs.Prelude.{◌≡◌};
    ghost use Rattle.blazor_top.specs.declared.refusal.Stop.TheVariants as stop;

    ghost from_gives = { λ _ given. given ≡ stop.Oom };

    fn from(_: Oom) -> Self {
        Stop::Oom
    }
}

/// A line about a file: its name between these words.
fn line_about(alloc: Global, before: &str, name: &Txt, after: &str) -> Result<Txt, Oom>
    requires before { IsTrue (is_ascii before.now) }
    requires after { IsTrue (is_ascii after.now) }
    ensures { IfOk result (λ line. line ≡ line_about before.now name.now after.now) }
{
    let mut line = Txt::new(alloc);
    line.push_str(before)?;
    line.push_text(name)?;
    line.push_str(after)?;
    Ok(line)
}

/// A line of ASCII characters.
pub fn ascii_line(alloc: Global, text: &str) -> Result<Txt, Oom>
    requires { IsTrue (is_ascii text.now) }
    ensures { IfOk result (λ line. line ≡ text.now) }
{
    let mut line = Txt::new(alloc);
    line.push_str(text)?;
    Ok(line)
}

/// The refusal with this status and this line.
pub fn refused_with(alloc: Global, status: Status, text: &str) -> Stop
    requires { IsTrue (is_ascii text.now) }
    ensures { Refuses result status text.now }
{
    match ascii_line(alloc, text) {
        Ok(line) => Stop::Refused(Refusal { status, line }),
        Err(Oom) => Stop::Oom,
    }
}

/// The refusal with this status, whose line is about a file.
pub fn about(alloc: Global, status: Status, before: &str, name: &Txt, after: &str) -> Stop
    requires before { IsTrue (is_ascii before.now) }
    requires after { IsTrue (is_ascii after.now) }
    ensures { Refuses result status (line_about before.now name.now after.now) }
{
    match line_about(alloc, before, name, after) {
        Ok(line) => Stop::Refused(Refusal { status, line }),
        Err(Oom) => Stop::Oom,
    }
}
