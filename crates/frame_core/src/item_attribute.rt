// What an element has under its names.
use cs_ast::Value;
use sqlite_items::Items;
use text_core::Txt;

/// An attribute or a handler of an element.
#[derive(Debug, Drop)]
pub struct ItemAttribute {
    /// That of the template node that made it.
    pub number: u32,
    pub name: Txt,
    pub value: ItemValue,
}

/// What a name of an element stands for.
#[derive(Debug, Drop)]
pub enum ItemValue {
    /// The text of an attribute.
    Text(Txt),
    /// The handler of an event.
    Handler(ItemHandler),
}

/// A handler: its receiver, the number of its code, and the values of the locals that it uses.
#[derive(Debug, Drop)]
pub struct ItemHandler {
    /// The id by which a browser names it, or 0 where none is given yet.
    pub id: u64,
    pub who: u32,
    pub place: u32,
    pub captures: Items<Value>,
}
