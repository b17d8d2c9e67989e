use cs_meaning::Fault;
use thiserror::Error;

/// Why a rendering ended without items.
#[derive(Clone, Copy, Debug, PartialEq, Eq, Error)]
pub enum PageFault {
    /// Code met a fault.
    #[error("code met a fault")]
    Code(Fault),
    /// Two siblings have one number and one key.
    #[error("duplicate key")]
    DuplicateKey,
    /// There are too many items or bytes, or they lie too deep.
    #[error("page too large")]
    PageTooLarge,
}
