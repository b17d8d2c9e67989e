// Bytes handed to a sink, again from where it stopped.
ghost use Rattle.std.specs.Prelude.{◌≡◌, ◌≤◌};
ghost use Rattle.outside.specs.Faults.{Rose};
ghost use Rattle.outside.specs.Sink.{Adds};
ghost use Rattle.outside.specs.Writing.{AddsFront};

use crate::{Sink, Wrote};

/// How a writing ended.
#[derive(Clone, Copy, Debug, PartialEq, Eq)]
pub enum Written {
    All,
    Fault,
    Oom,
}

/// Writes all of the bytes, or a front of them where the sink answers a fault or finds no memory.
pub fn write_all<S: Sink>(out: &mut S, bytes: &[u8]) -> Written
    ensures all { result ≡ Written.All → Adds (S.written out.old) (S.written out.new) bytes.now }
    ensures front { (result ≡ Written.All → ⊥) → AddsFront (S.written out.old) (S.written out.new) bytes.now }
    ensures fault { result ≡ Written.Fault → Rose (S.fault_count out.old) (S.fault_count out.new) }
    ensures later { S.fault_count out.old ≤ S.fault_count out.new }
{
    let mut rest = bytes;
    while !rest.is_empty() {
        match out.write(rest) {
            Wrote::Took(0) | Wrote::Failed => return Written::Fault,
            Wrote::Took(taken) => rest = &rest[taken..],
            Wrote::Oom => return Written::Oom,
        }
    }
    Written::All
}
