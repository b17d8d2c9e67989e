use std::alloc::{AllocError, AllocFailed};

/// Why nothing was read: the tokens that were left are not of the form, or memory ran out.
#[derive(Clone, Copy)]
pub enum Unread {
    /// How many tokens were left.
    Syntax(usize),
    Oom,
}

impl From<AllocError> for Unread {
    ghost use Rattle.std.specs.Prelude.{◌≡◌};
    ghost use Rattle.cs_parse.specs.declared.unread.Unread.TheVariants.{Oom};

    ghost from_gives = { λ _ e. e ≡ Oom };

    fn from(_: AllocError) -> Unread {
        Unread::Oom
    }
}

impl<T: Drop> From<AllocFailed<T>> for Unread {
    ghost use Rattle.std.specs.Prelude.{◌≡◌};
    ghost use Rattle.cs_parse.specs.declared.unread.Unread.TheVariants.{Oom};

    ghost from_gives = { λ _ e. e ≡ Oom };

    fn from(_: AllocFailed<T>) -> Unread {
        Unread::Oom
    }
}
