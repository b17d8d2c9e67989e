ghost use Rattle.std.specs.Prelude.{◌≡◌};
ghost use Rattle.text_core.specs.declared.wire_fault.WireFault.TheVariants as fault;

use crate::Oom;
use thiserror::Error;

/// Why no text was taken from bytes.
#[derive(Clone, Copy, Debug, PartialEq, Eq, Error)]
pub enum WireFault {
    /// The length has more than four groups, or a last one that it does not need.
    #[error("a text's length is not in its shortest form")]
    BadLength,
    /// The bytes end before the length or the text does.
    #[error("the bytes end before the text does")]
    Short,
    #[error("a text is not UTF-8")]
    BadUtf8,
    #[error("out of memory")]
    Oom,
}

impl From<Oom> for WireFault {
    ghost from_gives = { λ _ given. given ≡ fault.Oom };

    fn from(_: Oom) -> Self {
        WireFault::Oom
    }
}
