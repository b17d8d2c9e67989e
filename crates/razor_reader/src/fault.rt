use std::alloc::{AllocError, AllocFailed};
use text_core::{Oom, Place};
use thiserror::Error;

/// Why a file was not read.
#[derive(Clone, Copy, Debug, PartialEq, Eq, Error)]
pub enum ReadFault {
    /// The text has more than 1,048,576 bytes.
    #[error("more than 1,048,576 bytes")]
    TooLong,
    /// The first place at which the nesting of brackets, blocks and tags is above 200.
    #[error("{place:?}: nested more than 200 deep")]
    TooDeep { place: Place },
    /// The text spells no component. Reading stopped before this place.
    #[error("{place:?}: this spells no component")]
    Syntax { place: Place },
    #[error("out of memory")]
    Oom,
}

impl From<AllocError> for ReadFault {
    ghost use Rattle.std.specs.Prelude.{◌≡◌};
    ghost use Rattle.razor_reader.specs.declared.fault.ReadFault.TheVariants as f;

    ghost from_gives = { λ _ e. e ≡ f.Oom };

    fn from(_: AllocError) -> ReadFault {
        ReadFault::Oom
    }
}

impl From<Oom> for ReadFault {
    ghost use Rattle.std.specs.Prelude.{◌≡◌};
    ghost use Rattle.razor_reader.specs.declared.fault.ReadFault.TheVariants as f;

    ghost from_gives = { λ _ e. e ≡ f.Oom };

    fn from(_: Oom) -> ReadFault {
        ReadFault::Oom
    }
}

impl<T: Drop> From<AllocFailed<T>> for ReadFault {
    ghost use Rattle.std.specs.Prelude.{◌≡◌};
    ghost use Rattle.razor_reader.specs.declared.fault.ReadFault.TheVariants as f;

    ghost from_gives = { λ _ e. e ≡ f.Oom };

    fn from(_: AllocFailed<T>) -> ReadFault {
        ReadFault::Oom
    }
}
