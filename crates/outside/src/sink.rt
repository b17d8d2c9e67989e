// Where output goes.
ghost use Rattle.std.specs.Prelude.{◌≡◌, List, ℕ};
ghost use Rattle.std.specs.declared.option.Option.{Option};
ghost use Rattle.outside.specs.Sink.{Takes, WriteHasCause};

/// What a write answered.
#[derive(Clone, Copy, Debug, PartialEq, Eq)]
pub enum Wrote {
    /// So many bytes from the front of the piece were taken.
    Took(usize),
    /// A fault, which was counted. Nothing was taken.
    Failed,
    /// Nothing was taken.
    Oom,
}

/// Takes bytes, a piece at a time.
pub trait Sink {
    /// The bytes taken, where the object tells them.
    ghost written: { Self → Option (List ℕ) };

    /// How many faults there were. It never falls, and stays at the end of 64 bits.
    ghost fault_count: { Self → ℕ };

    fn faults(&self) -> u64
        ensures { result ≡ fault_count self.now };

    /// Takes the piece or a front of it. To take nothing of a piece that isn't empty is a fault.
    fn write(&mut self, piece: &[u8]) -> Wrote
        ensures takes { Takes (written self.old) (written self.new) piece.now result }
        ensures cause { WriteHasCause (fault_count self.old) (fault_count self.new) piece.now result };
}
