// Adapters over the system's files and any writer.
ghost use Rattle.std.specs.Prelude.{◌≡◌, None};

use crate::files::{FileRead, Files};
use crate::sink::{Sink, Wrote};
use std::alloc::Global;
use std::fs;
use std::io::{self, ErrorKind, Read, Write};
use text_core::Txt;

/// The system's files. What they hold isn't told.
#[derive(Drop)]
pub struct SystemFiles<R: std::rt::Files + Drop> {
    rt: R,
    faults: u64,
}

impl<R: std::rt::Files + Drop> SystemFiles<R> {
    pub fn new(rt: R) -> Self
        ensures { ⟦<SystemFiles<R> as Files>⟧.fault_count result ≡ 0 }
    {
        SystemFiles { rt, faults: 0 }
    }

    // All the bytes, or one more than the limit where there are more, so that a huge file isn't read whole.
    fn bytes(&self, alloc: Global, name: &str, limit: u64) -> io::Result<Vec<u8>> {
        let file = fs::open(&self.rt, name)?;
        let mut bytes = Vec::new(alloc);
        file.take(limit.saturating_add(1)).read_to_end(&mut bytes)?;
        Ok(bytes)
    }
}

impl<R: std::rt::Files + Drop> Files for SystemFiles<R> {
    ghost held = { λ _. None };

    ghost fault_count = { λ files. files.faults };

    fn faults(&self) -> u64 {
        self.faults
    }

    /// Every error is a fault but that there is no file or no memory: also that the name is a folder's, or that the
    /// file may not be read.
    fn read(&mut self, alloc: Global, name: &Txt, limit: u64) -> FileRead {
        match self.bytes(alloc, name.as_str(), limit) {
            Ok(bytes) if bytes.len() as u64 > limit => FileRead::TooLarge,
            Ok(bytes) => FileRead::Bytes(bytes),
            Err(error) => match error.kind() {
                ErrorKind::NotFound => FileRead::Missing,
                ErrorKind::OutOfMemory => FileRead::Oom,
                _ => {
                    self.faults = self.faults.saturating_add(1);
                    FileRead::Failed
                }
            },
        }
    }
}

/// Any writer, as standard output. What was written isn't told.
#[derive(Drop)]
pub struct Output<W: Write + Drop> {
    writer: W,
    faults: u64,
}

impl<W: Write + Drop> Output<W> {
    pub fn new(writer: W) -> Self
        ensures { ⟦<Output<W> as Sink>⟧.fault_count result ≡ 0 }
    {
        Output { writer, faults: 0 }
    }
}

impl<W: Write + Drop> Sink for Output<W> {
    ghost written = { λ _. None };

    ghost fault_count = { λ output. output.faults };

    fn faults(&self) -> u64 {
        self.faults
    }

    fn write(&mut self, piece: &[u8]) -> Wrote {
        match self.writer.write(piece) {
            Ok(taken) => {
                if taken == 0 && !piece.is_empty() {
                    self.faults = self.faults.saturating_add(1);
                }
                Wrote::Took(taken)
            }
            Err(error) if error.kind() == ErrorKind::OutOfMemory => Wrote::Oom,
            Err(_) => {
                self.faults = self.faults.saturating_add(1);
                Wrote::Failed
            }
        }
    }
}
