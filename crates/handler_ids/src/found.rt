// What an id is.
use crate::HandlerValue;

/// What an id is.
#[derive(Clone, Copy, Debug)]
pub enum Found<'a> {
    /// It was given and not disposed.
    Live { value: &'a HandlerValue },
    /// A batch disposed it that is above the number released.
    Held { value: &'a HandlerValue, batch: u64 },
    /// A batch disposed it that was released.
    Gone { batch: u64 },
    /// It was never given.
    Unknown,
}
