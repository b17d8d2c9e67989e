// Why an arena takes no item.
use thiserror::Error;

/// Why an item was not put in.
#[derive(Clone, Copy, Debug, PartialEq, Eq, Error)]
pub enum Full {
    /// As many slots as the arena may have are live or retired.
    #[error("the arena has no slot left")]
    Spent,
    #[error("out of memory")]
    Oom,
}
