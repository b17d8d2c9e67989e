// Faults of files and of a sink, and a sink that takes little at a time.
ghost use Rattle.std.specs.Prelude.{Some};

use crate::support::{Ran, ended, files, run_over, texts};
use blazor_top::run;
use outside::{MemSink, Sink, Wrote};
use std::alloc::Global;
use std::process::Abort;
use std::test::Fail;
use text_core::{Oom, Txt};

/// Takes at most so many bytes of each piece.
#[derive(Debug, Drop)]
struct Slow {
    sink: MemSink,
    most: usize,
}

impl Sink for Slow {
    ghost use Rattle.std.specs.Prelude.{Some};
    ghost use Rattle.outside.specs.MemSink.{sink_bytes, calls_of};
    ghost use Rattle.outside.specs.Calls.{calls_failed};

    ghost written = { λ slow. Some (sink_bytes slow.sink) };

    ghost fault_count = { λ slow. calls_failed (calls_of slow.sink) };

    fn faults(&self) -> u64 {
        self.sink.faults()
    }

    fn write(&mut self, piece: &[u8]) -> Wrote {
        if piece.len() <= self.most || self.most == 0 {
            return self.sink.write(piece);
        }
        self.sink.write(&piece[..self.most])
    }
}

/// A page that is written to a sink which takes so many bytes of a piece, and fails at the call of this number.
fn slowly(alloc: Global, most: usize, failing: u64) -> Result<Ran, Oom> {
    let words = texts(alloc, &["render", "A.razor"])?;
    let mut files = files(alloc, "A.razor", "<p>Hi</p>", Vec::new(alloc))?;
    let sink = MemSink::new(alloc, [failing].to_vec(alloc)?);
    let mut out = Slow { sink, most };
    let status = run(alloc, &words, &mut files, &mut out).status;
    let bytes = out.sink.bytes().to_vec(alloc)?;
    Ok(Ran { status, bytes })
}

fn are_written(
    rt: &impl Abort,
    alloc: Global,
    rows: &[(usize, u64, u8, &str)],
) -> Result<(), Fail> {
    for (most, failing, status, written) in rows {
        let ran = slowly(alloc, *most, *failing)?;
        ended(rt, &ran, *status, written, written);
    }
    Ok(())
}

#[test]
fn writes_the_rest_again(rt: HostRuntime) -> Result<(), Fail> {
    are_written(
        &rt,
        rt.alloc(),
        &[
            (1, 0, 0, "<p>Hi</p>\n"),
            (4, 0, 0, "<p>Hi</p>\n"),
            (4, 3, 6, "<p>Hi</p"),
            (4, 1, 6, ""),
            (100, 1, 6, ""),
            (100, 2, 0, "<p>Hi</p>\n"),
        ],
    )
}

/// A page of one of two names, where A.razor alone is there, with the calls of the files and of the sink that fail.
fn failing(alloc: Global, name: &str, reading: u64, writing: u64) -> Result<Ran, Oom> {
    let words = texts(alloc, &["render", name])?;
    let mut files = files(alloc, "A.razor", "x", [reading].to_vec(alloc)?)?;
    let mut out = MemSink::new(alloc, [writing].to_vec(alloc)?);
    let status = run(alloc, &words, &mut files, &mut out).status;
    let bytes = out.bytes().to_vec(alloc)?;
    Ok(Ran { status, bytes })
}

fn are_told(
    rt: &impl Abort,
    alloc: Global,
    rows: &[(&str, u64, u64, u8, &str)],
) -> Result<(), Fail> {
    for (name, reading, writing, status, written) in rows {
        let ran = failing(alloc, name, *reading, *writing)?;
        ended(rt, &ran, *status, written, written);
    }
    Ok(())
}

#[test]
fn tells_faults(rt: HostRuntime) -> Result<(), Fail> {
    are_told(
        &rt,
        rt.alloc(),
        &[
            ("A.razor", 1, 0, 5, "unread A.razor\n"),
            ("A.razor", 2, 0, 0, "x\n"),
            ("A.razor", 1, 1, 6, ""),
            ("B.razor", 0, 1, 6, ""),
            ("B.razor", 1, 0, 5, "unread B.razor\n"),
        ],
    )
}

/// A replay of one schedule over one file named twice, where this call fails.
fn replay_failing(alloc: Global, failing: u64) -> Result<Ran, Oom> {
    let mut files = files(alloc, "A.razor", "x", [failing].to_vec(alloc)?)?;
    files.put(Txt::from_str(alloc, "s.json")?, b"[]".to_vec(alloc)?)?;
    let words = texts(alloc, &["replay", "s.json", "A.razor", "A.razor"])?;
    run_over(alloc, &words, &mut files)
}

fn are_named(rt: &impl Abort, alloc: Global, rows: &[(u64, u8, &str)]) -> Result<(), Fail> {
    for (failing, status, written) in rows {
        let ran = replay_failing(alloc, *failing)?;
        ended(rt, &ran, *status, written, written);
    }
    Ok(())
}

#[test]
fn tells_the_file_that_failed(rt: HostRuntime) -> Result<(), Fail> {
    are_named(
        &rt,
        rt.alloc(),
        &[
            (1, 5, "unread s.json\n"),
            (2, 5, "unread A.razor\n"),
            (3, 5, "unread A.razor\n"),
            (4, 1, "refused NotYet A.razor 1:1\n"),
        ],
    )
}
