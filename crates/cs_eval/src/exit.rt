use cs_ast::Value;
use cs_meaning::Fault;
use std::alloc::{AllocError, AllocFailed};
use text_core::Oom;

/// Why code gives no value to what is round it.
#[derive(Debug, Drop)]
pub(crate) enum Exit {
    Break,
    Continue,
    Return(Value),
    Fault(Fault),
    /// An operand has a wrong kind, or a name stands for nothing.
    Stuck,
}

impl From<AllocError> for Exit {
    ghost use Rattle.std.specs.Prelude.{◌≡◌};
    ghost use Rattle.cs_eval.specs.declared.exit.Exit.TheVariants as exit;
    ghost use Rattle.cs_meaning.specs.declared.fault.Fault.TheVariants.{Oom};

    ghost from_gives = { λ _ e. e ≡ exit.Fault Oom };

    fn from(_: AllocError) -> Self {
        Exit::Fault(Fault::Oom)
    }
}

impl<T: Drop> From<AllocFailed<T>> for Exit {
    ghost use Rattle.std.specs.Prelude.{◌≡◌};
    ghost use Rattle.cs_eval.specs.declared.exit.Exit.TheVariants as exit;
    ghost use Rattle.cs_meaning.specs.declared.fault.Fault.TheVariants.{Oom};

    ghost from_gives = { λ _ e. e ≡ exit.Fault Oom };

    fn from(_: AllocFailed<T>) -> Self {
        Exit::Fault(Fault::Oom)
    }
}

impl From<Oom> for Exit {
    ghost use Rattle.std.specs.Prelude.{◌≡◌};
    ghost use Rattle.cs_eval.specs.declared.exit.Exit.TheVariants as exit;
    ghost use Rattle.cs_meaning.specs.declared.fault.Fault.TheVariants as fault;

    ghost from_gives = { λ _ e. e ≡ exit.Fault fault.Oom };

    fn from(_: Oom) -> Self {
        Exit::Fault(Fault::Oom)
    }
}
