ghost use Rattle.std.specs.Prelude.{◌≡◌};
ghost use Rattle.handler_ids.specs.declared.give_fault.GiveFault.TheVariants as fault;

use std::alloc::{AllocError, AllocFailed};
use thiserror::Error;

/// Why no id was given.
#[derive(Clone, Copy, Debug, PartialEq, Eq, Error)]
pub enum GiveFault {
    /// The last id is the greatest number of 64 bits.
    #[error("no number is left for a handler")]
    NumbersSpent,
    #[error("out of memory")]
    Oom,
}

impl From<AllocError> for GiveFault {
    ghost from_gives = { λ _ given. given ≡ fault.Oom };

    fn from(_: AllocError) -> Self {
        GiveFault::Oom
    }
}

impl<T: Drop> From<AllocFailed<T>> for GiveFault {
    ghost from_gives = { λ _ given. given ≡ fault.Oom };

    fn from(_: AllocFailed<T>) -> Self {
        GiveFault::Oom
    }
}
