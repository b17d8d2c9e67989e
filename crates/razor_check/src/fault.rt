use cs_rules::Rule;
use text_core::{Oom, Place};
use thiserror::Error;

/// Why components are no program.
#[derive(Clone, Copy, Debug, PartialEq, Eq, Error)]
pub enum ProgramFault {
    /// A rule is broken in the file at this position.
    #[error("a rule is broken")]
    Broken {
        file: usize,
        rule: Rule,
        place: Place,
    },
    #[error("out of memory")]
    Oom,
}

impl From<Oom> for ProgramFault {
    ghost use Rattle.std.specs.Prelude.{◌≡◌};
    ghost use Rattle.razor_check.specs.declared.fault.ProgramFault.TheVariants as fault;

    ghost from_gives = { λ _ e. e ≡ fault.Oom };

    fn from(_: Oom) -> Self {
        ProgramFault::Oom
    }
}
