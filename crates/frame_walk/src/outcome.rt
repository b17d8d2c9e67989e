use frame_core::{Edit, Item};
use sqlite_items::Items;

/// What a walk answers. Component items are named by their places among the component items of their rendering.
#[derive(Debug, Drop)]
pub struct Walked {
    /// The new items, whose handlers have their ids.
    pub items: Items<Item>,
    /// The edits that make the new tree of the old one.
    pub edits: Items<Edit>,
    /// The component items that pair, the old one first.
    pub retained: Items<(u32, u32)>,
    /// The new component items without a pair.
    pub made: Items<u32>,
    /// The old component items without a pair.
    pub disposed: Items<u32>,
    /// The ids that went, in rising order.
    pub handlers: Vec<u64>,
}
