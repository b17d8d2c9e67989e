use std::alloc::{AllocError, AllocFailed};
use thiserror::Error;

/// Memory ran out.
#[derive(Clone, Copy, Debug, PartialEq, Eq, Error)]
#[error("out of memory")]
pub struct Oom;

impl From<AllocError> for Oom {
    fn from(_: AllocError) -> Self {
        Oom
    }
}

impl<T: Drop> From<AllocFailed<T>> for Oom {
    fn from(_: AllocFailed<T>) -> Self {
        Oom
    }
}
