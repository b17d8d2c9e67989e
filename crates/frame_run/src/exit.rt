use drawing_meaning::PageFault;
use std::alloc::{AllocError, AllocFailed};
use text_core::Oom;

/// Why a part of a template gives nothing to what is round it.
#[derive(Debug, Drop)]
pub(crate) enum Exit {
    Fault(PageFault),
    /// A value has a wrong kind, or a number stands for nothing.
    Stuck,
    /// Memory ran out.
    Memory,
}

impl From<AllocError> for Exit {
    ghost use Rattle.std.specs.Prelude.{◌≡◌};
    ghost use Rattle.frame_run.specs.declared.exit.Exit.TheVariants as exit;

    ghost from_gives = { λ _ e. e ≡ exit.Memory };

    fn from(_: AllocError) -> Self {
        Exit::Memory
    }
}

impl<T: Drop> From<AllocFailed<T>> for Exit {
    ghost use Rattle.std.specs.Prelude.{◌≡◌};
    ghost use Rattle.frame_run.specs.declared.exit.Exit.TheVariants as exit;

    ghost from_gives = { λ _ e. e ≡ exit.Memory };

    fn from(_: AllocFailed<T>) -> Self {
        Exit::Memory
    }
}

impl From<Oom> for Exit {
    ghost use Rattle.std.specs.Prelude.{◌≡◌};
    ghost use Rattle.frame_run.specs.declared.exit.Exit.TheVariants as exit;

    ghost from_gives = { λ _ e. e ≡ exit.Memory };

    fn from(_: Oom) -> Self {
        Exit::Memory
    }
}
