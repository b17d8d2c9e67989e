use std::alloc::{AllocError, AllocFailed};
use text_core::Place;
use thiserror::Error;

/// Why tokens were not read.
#[derive(Clone, Copy, Debug, PartialEq, Eq, Error)]
pub enum ParseFault {
    /// The tokens spell nothing. The place is that of the token before which reading stopped, or of the last token; it
    /// is 1:1 where there are no tokens.
    #[error("{place:?}: these tokens spell nothing")]
    Syntax { place: Place },
    /// The first place at which the nesting is above 200.
    #[error("{place:?}: nested more than 200 deep")]
    TooDeep { place: Place },
    #[error("out of memory")]
    Oom,
}

impl From<AllocError> for ParseFault {
    ghost use Rattle.std.specs.Prelude.{◌≡◌};
    ghost use Rattle.cs_parse.specs.declared.fault.ParseFault.TheVariants.{Oom};

    ghost from_gives = { λ _ e. e ≡ Oom };

    fn from(_: AllocError) -> ParseFault {
        ParseFault::Oom
    }
}

impl<T: Drop> From<AllocFailed<T>> for ParseFault {
    ghost use Rattle.std.specs.Prelude.{◌≡◌};
    ghost use Rattle.cs_parse.specs.declared.fault.ParseFault.TheVariants.{Oom};

    ghost from_gives = { λ _ e. e ≡ Oom };

    fn from(_: AllocFailed<T>) -> ParseFault {
        ParseFault::Oom
    }
}
