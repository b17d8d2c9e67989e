ghost use Rattle.std.specs.Prelude.{◌≡◌};
ghost use Rattle.page_core.specs.declared.faults.ApplyFault.TheVariants as fault;

use std::alloc::AllocError;
use text_core::Oom;
use thiserror::Error;

/// Why bytes spell no batch.
#[derive(Clone, Copy, Debug, PartialEq, Eq, Error)]
pub enum BatchFault {
    #[error("Short")]
    Short,
    #[error("BadOffset")]
    BadOffset,
    #[error("BadCount")]
    BadCount,
    #[error("BadKind")]
    BadKind,
    #[error("BadSubtree")]
    BadSubtree,
    #[error("BadString")]
    BadString,
    #[error("out of memory")]
    Oom,
}

/// Why the edits of a batch do not fit a tree.
#[derive(Clone, Copy, Debug, PartialEq, Eq, Error)]
pub enum ApplyFault {
    #[error("NoComponent")]
    NoComponent,
    #[error("NoSibling")]
    NoSibling,
    #[error("NotElement")]
    NotElement,
    #[error("NotText")]
    NotText,
    #[error("NoAttribute")]
    NoAttribute,
    #[error("BadPermutation")]
    BadPermutation,
    #[error("Unbalanced")]
    Unbalanced,
    #[error("out of memory")]
    Oom,
}

impl From<Oom> for ApplyFault {
    ghost from_gives = { λ _ given. given ≡ fault.Oom };

    fn from(_: Oom) -> Self {
        ApplyFault::Oom
    }
}

impl From<AllocError> for ApplyFault {
    ghost from_gives = { λ _ given. given ≡ fault.Oom };

    fn from(_: AllocError) -> Self {
        ApplyFault::Oom
    }
}
