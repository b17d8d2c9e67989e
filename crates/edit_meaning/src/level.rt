use crate::{BrowserNode, Names};
use sqlite_items::Items;
use text_core::Txt;

/// An element whose children are edited: its siblings without it, its place among them, and what it is but for its children.
#[derive(Debug, Drop)]
pub struct Level {
    pub siblings: Items<BrowserNode>,
    pub place: u32,
    pub born: u64,
    pub name: Txt,
    pub names: Names,
}
