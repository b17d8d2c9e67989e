// Lines handed to a sink, each with its end as one piece.
ghost use Rattle.std.specs.Prelude.{◌≡◌, ◌≤◌, ◌∷◌, [], IfOk};
ghost use Rattle.outside.specs.Faults.{Rose};
ghost use Rattle.outside.specs.Sink.{Adds};
ghost use Rattle.outside.specs.Writing.{AddsFront};
ghost use Rattle.schedule_replay.specs.Line.Transcript.{lines_text};
ghost use Rattle.blazor_top.specs.Run.{lines_bytes};

use outside::{Sink, Written, write_all};
use std::alloc::Global;
use text_core::{Oom, Txt};

/// A line with its end.
fn ended(alloc: Global, line: &Txt) -> Result<Txt, Oom>
    ensures { IfOk result (λ piece. piece ≡ lines_text (line.now ∷ [])) }
{
    let mut piece = Txt::new(alloc);
    piece.push_text(line)?;
    piece.push('\n')?;
    Ok(piece)
}

/// Writes a line and its end.
pub fn write_line<S: Sink>(alloc: Global, out: &mut S, line: &Txt) -> Written
    ensures all { result ≡ Written.All → Adds (S.written out.old) (S.written out.new) (lines_bytes (line.now ∷ [])) }
    ensures front { (result ≡ Written.All → ⊥) → AddsFront (S.written out.old) (S.written out.new) (lines_bytes (line.now ∷ [])) }
    ensures fault { result ≡ Written.Fault → Rose (S.fault_count out.old) (S.fault_count out.new) }
    ensures later { S.fault_count out.old ≤ S.fault_count out.new }
{
    match ended(alloc, line) {
        Ok(piece) => write_all(out, piece.as_str().as_bytes()),
        Err(Oom) => Written::Oom,
    }
}

/// Writes lines, up to the first that can't be written whole.
pub fn write_lines<S: Sink>(alloc: Global, out: &mut S, lines: &[Txt]) -> Written
    ensures all { result ≡ Written.All → Adds (S.written out.old) (S.written out.new) (lines_bytes lines.now) }
    ensures front { (result ≡ Written.All → ⊥) → AddsFront (S.written out.old) (S.written out.new) (lines_bytes lines.now) }
    ensures fault { result ≡ Written.Fault → Rose (S.fault_count out.old) (S.fault_count out.new) }
    ensures later { S.fault_count out.old ≤ S.fault_count out.new }
{
    for line in lines {
        match write_line(alloc, out, line) {
            Written::All => {}
            Written::Fault => return Written::Fault,
            Written::Oom => return Written::Oom,
        }
    }
    Written::All
}
