use crate::{Attributes, HandlerIds};
use sqlite_items::Items;
use text_core::Txt;

/// A node of a page. `born` is the number of the batch that made it.
#[derive(Debug, Drop)]
pub enum Node {
    Element {
        born: u64,
        name: Txt,
        attributes: Attributes,
        /// The handlers of events, which are not printed.
        handlers: HandlerIds,
        children: Items<Node>,
    },
    /// Text, which is escaped where it is printed.
    Text {
        born: u64,
        text: Txt,
    },
    /// Raw markup, which is printed as it is.
    Markup {
        born: u64,
        text: Txt,
    },
}

/// A page.
#[derive(Debug, Drop)]
pub struct Page {
    pub nodes: Items<Node>,
}
