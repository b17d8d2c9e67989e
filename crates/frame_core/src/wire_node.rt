// Nodes as a batch says them, which have no birth yet.
use sqlite_items::Items;
use text_core::Txt;

/// A node with all that is in it.
#[derive(Debug, Drop)]
pub enum WireNode {
    Element {
        name: Txt,
        /// In the order in which they are set: of several with one name the last stands.
        attributes: Items<WireAttribute>,
        children: Items<WireNode>,
    },
    Text(Txt),
    Markup(Txt),
    /// The place where the component of this number is shown.
    Component(u32),
}

/// What is set on an element, under a name.
#[derive(Debug, Drop)]
pub struct WireAttribute {
    pub name: Txt,
    pub value: WireValue,
}

/// What a name of an element stands for.
#[derive(Debug, Drop)]
pub enum WireValue {
    /// The text of an attribute.
    Text(Txt),
    /// The id of an event's handler.
    Handler(u64),
}
