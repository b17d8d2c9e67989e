// Calls on their happy path and at a fault, through the traits.
use outside::{FileRead, Files, MemFiles, MemSink, Output, Sink, SystemFiles, Wrote};
use std::alloc::Global;
use std::fs;
use std::process::Abort;
use std::test::Fail;
use text_core::{Oom, Txt};

// The bytes, or what came in their place.
fn shown(answer: &FileRead) -> &[u8] {
    match answer {
        FileRead::Bytes(bytes) => bytes,
        FileRead::Missing => b"missing",
        FileRead::TooLarge => b"too large",
        FileRead::Failed => b"failed",
        FileRead::Oom => b"out of memory",
    }
}

// A file's name and a limit, what is read, and how many faults there were then.
type Reading = (&'static str, u64, &'static [u8], u64);

fn reads<F: Files>(
    rt: &impl Abort,
    alloc: Global,
    files: &mut F,
    table: &[Reading],
) -> Result<(), Oom> {
    for (name, limit, want, faults) in table {
        let answer = files.read(alloc, &Txt::from_str(alloc, name)?, *limit);
        assert_eq!(rt; shown(&answer), *want, "{name} up to {limit}");
        assert_eq!(rt; files.faults(), *faults, "{name} up to {limit}");
    }
    Ok(())
}

// A piece, what its write answers, and how many faults there were then.
type Writing = (&'static [u8], Wrote, u64);

fn writes<S: Sink>(rt: &impl Abort, sink: &mut S, table: &[Writing]) {
    for (piece, want, faults) in table {
        assert_eq!(rt; sink.write(piece), *want, "{piece:?}");
        assert_eq!(rt; sink.faults(), *faults, "{piece:?}");
    }
}

#[test]
fn in_memory(rt: HostRuntime) -> Result<(), Fail> {
    let alloc = rt.alloc();
    let mut files = MemFiles::new(alloc, [2, 5].to_vec(alloc)?);
    for (name, bytes) in [("a", "one"), ("b", "three"), ("a", "four")] {
        files.put(Txt::from_str(alloc, name)?, bytes.as_bytes().to_vec(alloc)?)?;
    }
    let table: [Reading; 6] = [
        ("a", 4, b"four", 0),
        ("a", 4, b"failed", 1),
        ("a", 3, b"too large", 1),
        ("c", 4, b"missing", 1),
        ("c", 4, b"failed", 2),
        ("b", 5, b"three", 2),
    ];
    reads(&rt, alloc, &mut files, &table)?;

    let mut sink = MemSink::new(alloc, [2].to_vec(alloc)?);
    let table: [Writing; 4] = [
        (b"ab", Wrote::Took(2), 0),
        (b"cd", Wrote::Failed, 1),
        (b"", Wrote::Took(0), 1),
        (b"ef", Wrote::Took(2), 1),
    ];
    writes(&rt, &mut sink, &table);
    assert_eq!(rt; sink.bytes(), b"abef".as_slice());
    Ok(())
}

#[test]
fn on_the_system(rt: HostRuntime) -> Result<(), Fail> {
    let alloc = rt.alloc();
    fs::write(&rt, "four", "four")?;
    let table: [Reading; 5] = [
        ("four", 4, b"four", 0),
        ("four", 3, b"too large", 0),
        ("none", 4, b"missing", 0),
        (".", 4, b"failed", 1),
        ("four", u64::MAX, b"four", 1),
    ];
    reads(&rt, alloc, &mut SystemFiles::new(rt.clone()?), &table)?;

    let mut taken = Vec::new(alloc);
    writes(
        &rt,
        &mut Output::new(&mut taken),
        &[(b"abc", Wrote::Took(3), 0)],
    );
    assert_eq!(rt; taken.as_slice(), b"abc".as_slice());
    let mut two = [0u8; 2];
    let table: [Writing; 3] = [
        (b"abc", Wrote::Took(2), 0),
        (b"c", Wrote::Took(0), 1),
        (b"", Wrote::Took(0), 1),
    ];
    writes(&rt, &mut Output::new(two.as_mut_slice()), &table);
    let unwritable = fs::open(&rt, "four")?;
    writes(
        &rt,
        &mut Output::new(unwritable),
        &[(b"x", Wrote::Failed, 1)],
    );
    Ok(())
}
