// Files by name.
ghost use Rattle.std.specs.Prelude.{◌≡◌, List, ℕ};
ghost use Rattle.std.specs.declared.option.Option.{Option};
ghost use Rattle.outside.specs.Files.{Answers, ReadHasCause};

use std::alloc::Global;
use text_core::Txt;

/// What the reading of a file answered.
#[derive(Debug, Drop)]
pub enum FileRead {
    /// All the bytes of the file.
    Bytes(Vec<u8>),
    /// There is no file of that name.
    Missing,
    /// The file has more bytes than the limit.
    TooLarge,
    /// A fault, which was counted.
    Failed,
    Oom,
}

/// Files by name, each read whole.
pub trait Files {
    /// The bytes at each name, where the object tells them.
    ghost held: { Self → Option (List ℕ → Option (List ℕ)) };

    /// How many faults there were. It never falls, and stays at the end of 64 bits.
    ghost fault_count: { Self → ℕ };

    fn faults(&self) -> u64
        ensures { result ≡ fault_count self.now };

    /// Reads a file that has at most `limit` bytes.
    fn read(&mut self, alloc: Global, name: &Txt, limit: u64) -> FileRead
        ensures answer { Answers (held self.old) name.now limit result }
        ensures same { held self.new ≡ held self.old }
        ensures cause { ReadHasCause (fault_count self.old) (fault_count self.new) result };
}
