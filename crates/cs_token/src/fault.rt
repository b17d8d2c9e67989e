// Why a text has no tokens.
ghost use Rattle.std.specs.Prelude.{◌≡◌};
ghost use Rattle.cs_token.specs.Faults.{fault_at};

use text_core::{Oom, Place};
use thiserror::Error;

/// What is wrong where a text can't go on.
#[derive(Clone, Copy, Debug, PartialEq, Eq)]
pub enum Cause {
    BadCharacter,
    UnendedText,
    UnendedComment,
    NumberTooWide,
}

/// Why a text has no tokens: what is wrong at the first place where it can't go on, and that place.
#[derive(Clone, Copy, Debug, PartialEq, Eq, Error)]
pub enum LexFault {
    /// A character that neither begins nor goes on a token. Where an escape isn't known, it is the backslash.
    #[error("a character that is part of no token")]
    BadCharacter { place: Place },
    /// A text, or the outermost interpolated text, that begins here and isn't closed in its line.
    #[error("a text that isn't closed in its line")]
    UnendedText { place: Place },
    /// A comment that begins here and isn't closed.
    #[error("a comment that isn't closed")]
    UnendedComment { place: Place },
    /// A number above 2147483647 that begins here.
    #[error("a number above 2147483647")]
    NumberTooWide { place: Place },
    #[error("out of memory")]
    Oom,
}

impl From<Oom> for LexFault {
    ghost use Rattle.std.specs.Prelude.{◌≡◌};
    ghost use Rattle.cs_token.specs.declared.fault.LexFault.TheVariants as fault;

    ghost from_gives = { λ _ f. f ≡ fault.Oom };

    fn from(_: Oom) -> Self {
        LexFault::Oom
    }
}

impl Cause {
    /// The fault of this cause at a place.
    pub fn at(self, place: Place) -> LexFault
        ensures { result ≡ fault_at self place }
    {
        match self {
            Cause::BadCharacter => LexFault::BadCharacter { place },
            Cause::UnendedText => LexFault::UnendedText { place },
            Cause::UnendedComment => LexFault::UnendedComment { place },
            Cause::NumberTooWide => LexFault::NumberTooWide { place },
        }
    }
}
