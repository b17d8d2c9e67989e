// Runs over files in memory.
use blazor_top::run;
use outside::{MemFiles, MemSink};
use std::alloc::Global;
use std::process::Abort;
use text_core::{Oom, Txt};

/// How a run ended, and what it wrote.
#[derive(Debug, Drop)]
pub struct Ran {
    pub status: u8,
    pub bytes: Vec<u8>,
}

/// These words as texts.
pub fn texts(alloc: Global, words: &[&str]) -> Result<Vec<Txt>, Oom> {
    let mut texts = Vec::new(alloc);
    for word in words {
        texts.push(Txt::from_str(alloc, word)?)?;
    }
    Ok(texts)
}

/// Files that hold one file, and whose calls of these numbers fail.
pub fn files(alloc: Global, name: &str, text: &str, failing: Vec<u64>) -> Result<MemFiles, Oom> {
    let mut files = MemFiles::new(alloc, failing);
    files.put(Txt::from_str(alloc, name)?, text.as_bytes().to_vec(alloc)?)?;
    Ok(files)
}

/// Files of these names and texts.
pub fn all_files(alloc: Global, table: &[(&str, &str)]) -> Result<MemFiles, Oom> {
    let mut files = MemFiles::new(alloc, Vec::new(alloc));
    for (name, text) in table {
        files.put(Txt::from_str(alloc, name)?, text.as_bytes().to_vec(alloc)?)?;
    }
    Ok(files)
}

/// A run of these words over these files.
pub fn run_over(alloc: Global, words: &[Txt], files: &mut MemFiles) -> Result<Ran, Oom> {
    let mut out = MemSink::new(alloc, Vec::new(alloc));
    let status = run(alloc, words, files, &mut out).status;
    let bytes = out.bytes().to_vec(alloc)?;
    Ok(Ran { status, bytes })
}

/// A run of these words over one file.
pub fn outcome(alloc: Global, words: &[&str], name: &str, text: &str) -> Result<Ran, Oom> {
    let mut files = files(alloc, name, text, Vec::new(alloc))?;
    run_over(alloc, &texts(alloc, words)?, &mut files)
}

/// The page of a file, or the line in its place.
pub fn page(alloc: Global, text: &str) -> Result<Ran, Oom> {
    outcome(alloc, &["render", "A.razor"], "A.razor", text)
}

/// The transcript of no steps over a file, or the line in its place.
pub fn replayed(alloc: Global, name: &str, text: &str) -> Result<Ran, Oom> {
    let mut files = all_files(alloc, &[("s.json", "{\"steps\":[]}"), (name, text)])?;
    run_over(
        alloc,
        &texts(alloc, &["replay", "s.json", name])?,
        &mut files,
    )
}

/// A run ended with this status and wrote this text.
pub fn ended(rt: &impl Abort, ran: &Ran, status: u8, written: &str, at: &str) {
    assert_eq!(rt; ran.status, status, "at {at}");
    assert_eq!(rt; ran.bytes.as_slice(), written.as_bytes(), "at {at}");
}
