// Names for items.

/// What an arena gives for an item: the slot that holds it, and the turn on which the slot was given.
#[derive(Clone, Copy, Debug, PartialEq, Eq)]
pub struct Handle {
    pub slot: u32,
    pub turn: u64,
}
