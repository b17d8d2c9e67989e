// Files in memory.
ghost use Rattle.std.specs.Prelude.{◌≡◌, ◌↔◌, IsTrue, Some, None, OnOk, OnErr, List, ℕ, false};
ghost use Rattle.outside.specs.Calls.{calls_failed, IsFresh, NextFails, MakesCall};
ghost use Rattle.outside.specs.Files.{Answers, ReadHasCause};

use crate::calls::Calls;
use crate::files::{FileRead, Files};
use std::alloc::Global;
use std::collections::BTreeMap;
use text_core::{Oom, Txt};

/// Files in memory. Each `read` is a numbered call, from 1.
#[derive(Debug, Drop)]
pub struct MemFiles {
    files: BTreeMap<Txt, Vec<u8>>,
    calls: Calls,
}

impl MemFiles {
    ghost use Rattle.outside.specs.MemFiles.{file_at, calls_of, is_failed, PutsFile};

    /// No files. The calls whose numbers are in `failing` are to fail.
    pub fn new(alloc: Global, failing: Vec<u64>) -> Self
        ensures empty { (name : List ℕ) → file_at result name ≡ None }
        ensures calls { IsFresh (calls_of result) failing.items }
    {
        MemFiles {
            files: BTreeMap::new(alloc),
            calls: Calls::new(failing),
        }
    }

    /// Gives the file of that name these bytes, in place of those that it had.
    pub fn put(&mut self, name: Txt, bytes: Vec<u8>) -> Result<(), Oom>
        ensures ok { OnOk result (PutsFile self.old self.new name bytes.items) }
        ensures err { OnErr result (file_at self.new ≡ file_at self.old) }
        ensures calls { calls_of self.new ≡ calls_of self.old }
    {
        self.files.insert(name, bytes)?;
        Ok(())
    }

    // What a call that isn't to fail answers.
    fn answer(&self, alloc: Global, name: &Txt, limit: u64) -> FileRead
        ensures answer { Answers (Some (file_at self.now)) name.now limit result }
        ensures sound { is_failed result ≡ false }
    {
        match self.files.get(name) {
            None => FileRead::Missing,
            Some(bytes) if bytes.len() as u64 > limit => FileRead::TooLarge,
            Some(bytes) => match bytes.to_vec(alloc) {
                Ok(bytes) => FileRead::Bytes(bytes),
                Err(_) => FileRead::Oom,
            },
        }
    }
}

impl Files for MemFiles {
    ghost use Rattle.outside.specs.MemFiles.{file_at, calls_of, is_failed};

    ghost held = { λ files. Some (file_at files) };

    ghost fault_count = { λ files. calls_failed (calls_of files) };

    fn faults(&self) -> u64 {
        self.calls.faults()
    }

    fn read(&mut self, alloc: Global, name: &Txt, limit: u64) -> FileRead
        ensures answer { Answers (Some (file_at self.old)) name.now limit result }
        ensures same { file_at self.new ≡ file_at self.old }
        ensures cause { ReadHasCause (calls_failed (calls_of self.old))
            (calls_failed (calls_of self.new)) result }

        ensures fails { IsTrue (is_failed result) ↔ NextFails (calls_of self.old) }
        ensures call { MakesCall (calls_of self.old) (calls_of self.new) (is_failed result) }
    {
        if self.calls.next_fails() {
            return FileRead::Failed;
        }
        self.answer(alloc, name, limit)
    }
}
