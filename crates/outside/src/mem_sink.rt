// A sink in memory.
ghost use Rattle.std.specs.Prelude.{◌≡◌, ◌↔◌, IsTrue, Some, []};
ghost use Rattle.outside.specs.Calls.{calls_failed, IsFresh, NextFails, MakesCall};
ghost use Rattle.outside.specs.Sink.{Takes, WriteHasCause};

use crate::calls::Calls;
use crate::sink::{Sink, Wrote};
use std::alloc::Global;

/// A sink in memory, which takes each piece whole. Each `write` is a numbered call, from 1.
#[derive(Debug, Drop)]
pub struct MemSink {
    bytes: Vec<u8>,
    calls: Calls,
}

impl MemSink {
    ghost use Rattle.outside.specs.MemSink.{sink_bytes, calls_of};

    /// Nothing taken. The calls whose numbers are in `failing` are to fail.
    pub fn new(alloc: Global, failing: Vec<u64>) -> Self
        ensures empty { sink_bytes result ≡ [] }
        ensures calls { IsFresh (calls_of result) failing.items }
    {
        MemSink {
            bytes: Vec::new(alloc),
            calls: Calls::new(failing),
        }
    }

    /// All the bytes taken so far.
    pub fn bytes(&self) -> &[u8]
        ensures { result.now ≡ sink_bytes self.now }
    {
        &self.bytes
    }
}

impl Sink for MemSink {
    ghost use Rattle.outside.specs.MemSink.{sink_bytes, calls_of, is_failed, TookWhole};

    ghost written = { λ sink. Some (sink_bytes sink) };

    ghost fault_count = { λ sink. calls_failed (calls_of sink) };

    fn faults(&self) -> u64 {
        self.calls.faults()
    }

    fn write(&mut self, piece: &[u8]) -> Wrote
        ensures takes { Takes (Some (sink_bytes self.old)) (Some (sink_bytes self.new))
            piece.now result }
        ensures cause { WriteHasCause (calls_failed (calls_of self.old))
            (calls_failed (calls_of self.new)) piece.now result }

        ensures whole { TookWhole piece.now result }
        ensures fails { IsTrue (is_failed result) ↔ NextFails (calls_of self.old) }
        ensures call { MakesCall (calls_of self.old) (calls_of self.new) (is_failed result) }
    {
        if self.calls.next_fails() {
            return Wrote::Failed;
        }
        match self.bytes.extend_from_slice(piece) {
            Ok(()) => Wrote::Took(piece.len()),
            Err(_) => Wrote::Oom,
        }
    }
}
