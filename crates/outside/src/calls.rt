// The numbered calls of an object in memory, and which of them are to fail.
ghost use Rattle.std.specs.Prelude.{◌≡◌, ◌↔◌, ◌≤◌, IsTrue};
ghost use Rattle.std.specs.Bool.{OnTrue};
ghost use Rattle.outside.specs.Faults.{Rose};

/// The calls of an object, numbered from 1 in one order over all its numbered methods.
#[derive(Debug, Drop)]
pub(crate) struct Calls {
    made: u64,
    failing: Vec<u64>,
    faults: u64,
}

impl Calls {
    ghost use Rattle.outside.specs.Calls.{calls_failed, IsFresh, NextFails, MakesCall};

    /// No call yet; those whose numbers are in `failing` are to fail.
    pub(crate) fn new(failing: Vec<u64>) -> Self
        ensures { IsFresh result failing.items }
    {
        Calls {
            made: 0,
            failing,
            faults: 0,
        }
    }

    /// How many calls failed.
    pub(crate) fn faults(&self) -> u64
        ensures { result ≡ calls_failed self.now }
    {
        self.faults
    }

    /// Makes the next call, and says whether it is to fail.
    pub(crate) fn next_fails(&mut self) -> bool
        ensures fails { IsTrue result ↔ NextFails self.old }
        ensures call { MakesCall self.old self.new result }
        ensures later { calls_failed self.old ≤ calls_failed self.new }
        ensures rises { OnTrue result (Rose (calls_failed self.old) (calls_failed self.new)) }
    {
        self.made = self.made.saturating_add(1);
        if !self.failing.contains(&self.made) {
            return false;
        }
        self.faults = self.faults.saturating_add(1);
        true
    }
}
