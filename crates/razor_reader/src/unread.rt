use std::alloc::{AllocError, AllocFailed};
use text_core::Oom;

/// Why nothing was read: the pieces that were left are not of the form, or memory ran out.
#[derive(Clone, Copy)]
pub enum Unread {
    /// How many pieces were left.
    Syntax(usize),
    Oom,
}

impl From<AllocError> for Unread {
    ghost use Rattle.std.specs.Prelude.{◌≡◌};
    ghost use Rattle.razor_reader.specs.declared.unread.Unread.TheVariants.{Oom};

    ghost from_gives = { λ _ e. e ≡ Oom };

    fn from(_: AllocError) -> Unread {
        Unread::Oom
    }
}

impl From<Oom> for Unread {
    ghost use Rattle.std.specs.Prelude.{◌≡◌};
    ghost use Rattle.razor_reader.specs.declared.unread.Unread.TheVariants as u;

    ghost from_gives = { λ _ e. e ≡ u.Oom };

    fn from(_: Oom) -> Unread {
        Unread::Oom
    }
}

impl<T: Drop> From<AllocFailed<T>> for Unread {
    ghost use Rattle.std.specs.Prelude.{◌≡◌};
    ghost use Rattle.razor_reader.specs.declared.unread.Unread.TheVariants.{Oom};

    ghost from_gives = { λ _ e. e ≡ Oom };

    fn from(_: AllocFailed<T>) -> Unread {
        Unread::Oom
    }
}
