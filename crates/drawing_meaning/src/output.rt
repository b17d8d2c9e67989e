// What parts of a template come to while they are drawn.
use cs_ast::Value;
use frame_core::{Item, ItemAttribute, ItemParameter};
use sqlite_items::Items;

/// Items, and whether a `break` leads out of the section round them.
#[derive(Debug, Drop)]
pub struct Output {
    pub items: Items<Item>,
    pub broke: bool,
}

/// The attributes and handlers of an element, and its key.
#[derive(Debug, Drop)]
pub struct Dress {
    pub worn: Items<ItemAttribute>,
    pub key: Value,
}

/// The parameters that a tag supplies, and its key.
#[derive(Debug, Drop)]
pub struct Gifts {
    pub supplied: Items<ItemParameter>,
    pub key: Value,
}
