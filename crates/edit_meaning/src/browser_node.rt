// The nodes of a browser's tree.
use crate::Names;
use sqlite_items::Items;
use text_core::Txt;

/// A node. `born` is the number of the batch that made it.
#[derive(Debug, Drop)]
pub enum BrowserNode {
    Element {
        born: u64,
        name: Txt,
        names: Names,
        children: Items<BrowserNode>,
    },
    Text {
        born: u64,
        text: Txt,
    },
    Markup {
        born: u64,
        text: Txt,
    },
    /// The place where the component of this number is shown.
    Component(u32),
}
