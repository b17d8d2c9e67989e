ghost use Rattle.std.specs.Prelude.{◌≡◌};
ghost use Rattle.cs_rules.specs.declared.rule.Rule.TheVariants.{TypeMismatch};
ghost use Rattle.cs_forms.specs.declared.fault.CheckFault.TheVariants.{Broken};

use cs_rules::Rule;
use std::alloc::{AllocError, AllocFailed};
use text_core::{Oom, Place};
use thiserror::Error;

/// Why code was not accepted.
#[derive(Clone, Copy, Debug, PartialEq, Eq, Error)]
pub enum CheckFault {
    #[error("a rule is broken")]
    Broken { rule: Rule, place: Place },
    #[error("out of memory")]
    Oom,
}

/// The fault that what stands at this place has no allowed type.
pub fn mismatch(place: Place) -> CheckFault
    ensures { result ≡ Broken TypeMismatch place }
{
    CheckFault::Broken {
        rule: Rule::TypeMismatch,
        place,
    }
}

impl From<AllocError> for CheckFault {
    ghost use Rattle.std.specs.Prelude.{◌≡◌};
    ghost use Rattle.cs_forms.specs.declared.fault.CheckFault.TheVariants as fault;

    ghost from_gives = { λ _ e. e ≡ fault.Oom };

    fn from(_: AllocError) -> Self {
        CheckFault::Oom
    }
}

impl<T: Drop> From<AllocFailed<T>> for CheckFault {
    ghost use Rattle.std.specs.Prelude.{◌≡◌};
    ghost use Rattle.cs_forms.specs.declared.fault.CheckFault.TheVariants as fault;

    ghost from_gives = { λ _ e. e ≡ fault.Oom };

    fn from(_: AllocFailed<T>) -> Self {
        CheckFault::Oom
    }
}

impl From<Oom> for CheckFault {
    ghost use Rattle.std.specs.Prelude.{◌≡◌};
    ghost use Rattle.cs_forms.specs.declared.fault.CheckFault.TheVariants as fault;

    ghost from_gives = { λ _ e. e ≡ fault.Oom };

    fn from(_: Oom) -> Self {
        CheckFault::Oom
    }
}
