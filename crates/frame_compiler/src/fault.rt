use cs_rules::Rule;
use std::alloc::AllocError;
use text_core::{Oom, Place};
use thiserror::Error;

/// Why components were not compiled.
#[derive(Clone, Copy, Debug, PartialEq, Eq, Error)]
pub enum CompileFault {
    /// A rule is broken in the file at this position.
    #[error("a rule is broken")]
    Broken {
        file: usize,
        rule: Rule,
        place: Place,
    },
    #[error("out of memory")]
    Oom,
}

impl From<Oom> for CompileFault {
    ghost use Rattle.std.specs.Prelude.{◌≡◌};
    ghost use Rattle.frame_compiler.specs.declared.fault.CompileFault.TheVariants as fault;

    ghost from_gives = { λ _ e. e ≡ fault.Oom };

    fn from(_: Oom) -> Self {
        CompileFault::Oom
    }
}

impl From<AllocError> for CompileFault {
    ghost use Rattle.std.specs.Prelude.{◌≡◌};
    ghost use Rattle.frame_compiler.specs.declared.fault.CompileFault.TheVariants as fault;

    ghost from_gives = { λ _ e. e ≡ fault.Oom };

    fn from(_: AllocError) -> Self {
        CompileFault::Oom
    }
}
