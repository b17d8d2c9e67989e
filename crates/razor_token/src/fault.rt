// Why a text has no pieces.
use text_core::{Oom, Place};
use thiserror::Error;

/// Why a text has no pieces.
#[derive(Clone, Copy, Debug, PartialEq, Eq, Error)]
pub enum RazorFault {
    /// Nothing that goes on with the text stands at this place.
    #[error("a text that is not Razor")]
    Syntax { place: Place },
    #[error("out of memory")]
    Oom,
}

impl From<Oom> for RazorFault {
    ghost use Rattle.std.specs.Prelude.{◌≡◌};
    ghost use Rattle.razor_token.specs.declared.fault.RazorFault.TheVariants as fault;

    ghost from_gives = { λ _ f. f ≡ fault.Oom };

    fn from(_: Oom) -> Self {
        RazorFault::Oom
    }
}
