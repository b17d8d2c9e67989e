ghost use Rattle.std.specs.Prelude.{◌≡◌};
ghost use Rattle.hub_messages.specs.declared.hub_fault.HubFault.TheVariants as fault;

use text_core::{Oom, WireFault};
use thiserror::Error;

/// Why no message was decoded.
#[derive(Clone, Copy, Debug, PartialEq, Eq, Error)]
pub enum HubFault {
    /// The bytes spell no message.
    #[error("the bytes spell no message")]
    Malformed,
    #[error("out of memory")]
    Oom,
}

impl From<Oom> for HubFault {
    ghost from_gives = { λ _ given. given ≡ fault.Oom };

    fn from(_: Oom) -> Self {
        HubFault::Oom
    }
}

impl From<WireFault> for HubFault {
    ghost use Rattle.hub_messages.specs.Reading.Faults.{hub_fault};

    ghost from_gives = { λ wire given. given ≡ hub_fault wire };

    fn from(fault: WireFault) -> Self {
        match fault {
            WireFault::BadLength | WireFault::Short | WireFault::BadUtf8 => HubFault::Malformed,
            WireFault::Oom => HubFault::Oom,
        }
    }
}
