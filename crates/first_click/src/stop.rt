// Why no code was read.
use std::alloc::{AllocError, AllocFailed};
use text_core::Oom;

/// Why a reader of code gives none.
#[derive(Clone, Copy, Debug, PartialEq, Eq)]
pub enum Stop {
    /// Nothing of the form stands there.
    Nothing,
    /// Memory ran out.
    Oom,
}

impl From<Oom> for Stop {
    ghost use Rattle.std.specs.Prelude.{◌≡◌};
    ghost use Rattle.first_click.specs.declared.stop.Stop.TheVariants as stop;

    ghost from_gives = { λ _ e. e ≡ stop.Oom };

    fn from(_: Oom) -> Stop {
        Stop::Oom
    }
}

impl From<AllocError> for Stop {
    ghost use Rattle.std.specs.Prelude.{◌≡◌};
    ghost use Rattle.first_click.specs.declared.stop.Stop.TheVariants as stop;

    ghost from_gives = { λ _ e. e ≡ stop.Oom };

    fn from(_: AllocError) -> Stop {
        Stop::Oom
    }
}

impl<T: Drop> From<AllocFailed<T>> for Stop {
    ghost use Rattle.std.specs.Prelude.{◌≡◌};
    ghost use Rattle.first_click.specs.declared.stop.Stop.TheVariants as stop;

    ghost from_gives = { λ _ e. e ≡ stop.Oom };

    fn from(_: AllocFailed<T>) -> Stop {
        Stop::Oom
    }
}
