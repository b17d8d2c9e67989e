// Items as one rendering of an instance makes them, which no browser has seen yet.
use crate::{ItemAttribute, Made};
use cs_ast::Value;
use sqlite_items::Items;
use text_core::Txt;

/// An item with all that is in it. `number` is that of the template node that made it; a key that is null is no key.
#[derive(Debug, Drop)]
pub enum Item {
    Element {
        number: u32,
        name: Txt,
        key: Value,
        attributes: Items<ItemAttribute>,
        children: Items<Item>,
    },
    Text {
        number: u32,
        text: Txt,
    },
    Markup {
        number: u32,
        text: Txt,
    },
    /// The place of a component, with the parameters that it is supplied. `order` is its place among the component items of the
    /// rendering.
    Component {
        number: u32,
        order: u32,
        made: Made,
        key: Value,
        parameters: Items<ItemParameter>,
    },
    /// Items that stand among the siblings of the region, as those of one turn of a loop.
    Region {
        number: u32,
        key: Value,
        children: Items<Item>,
    },
}

/// A parameter of a component, by its place among the component's parameters.
#[derive(Debug, Drop)]
pub struct ItemParameter {
    pub place: u32,
    pub value: Value,
}
