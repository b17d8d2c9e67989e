// Items of a rendering.
use cs_ast::Value;
use frame_core::{Item, ItemAttribute, ItemHandler, ItemValue, Made};
use sqlite_items::Items;
use std::alloc::Global;
use std::test::Fail;
use text_core::Txt;

fn text(alloc: Global, number: u32, said: &str) -> Result<Item, Fail> {
    Ok(Item::Text {
        number,
        text: Txt::from_str(alloc, said)?,
    })
}

fn markup(alloc: Global, number: u32, said: &str) -> Result<Item, Fail> {
    Ok(Item::Markup {
        number,
        text: Txt::from_str(alloc, said)?,
    })
}

fn attribute(alloc: Global, number: u32, name: &str, said: &str) -> Result<ItemAttribute, Fail> {
    Ok(ItemAttribute {
        number,
        name: Txt::from_str(alloc, name)?,
        value: ItemValue::Text(Txt::from_str(alloc, said)?),
    })
}

fn handler(alloc: Global, number: u32, name: &str) -> Result<ItemAttribute, Fail> {
    Ok(ItemAttribute {
        number,
        name: Txt::from_str(alloc, name)?,
        value: ItemValue::Handler(ItemHandler {
            id: 0,
            who: 1,
            place: 7,
            captures: Items::new(alloc),
        }),
    })
}

/// An element `b` with a handler and a text.
fn button(alloc: Global) -> Result<Item, Fail> {
    let mut attributes = Items::new(alloc);
    attributes.push(handler(alloc, 6, "onclick")?)?;
    let mut children = Items::new(alloc);
    children.push(text(alloc, 7, "x\\y\n")?)?;
    Ok(Item::Element {
        number: 5,
        name: Txt::from_str(alloc, "b")?,
        key: Value::Null,
        attributes,
        children,
    })
}

/// A region with such an element and markup.
fn region(alloc: Global) -> Result<Item, Fail> {
    let mut children = Items::new(alloc);
    children.push(button(alloc)?)?;
    children.push(markup(alloc, 8, "&amp;")?)?;
    Ok(Item::Region {
        number: 4,
        key: Value::Int(1),
        children,
    })
}

/// An element `p` with a handler, an attribute, and two such regions with a text before them.
pub fn paragraph(alloc: Global) -> Result<Items<Item>, Fail> {
    let mut attributes = Items::new(alloc);
    attributes.push(handler(alloc, 1, "oninput")?)?;
    attributes.push(attribute(alloc, 2, "class", "\"a\"")?)?;
    let mut children = Items::new(alloc);
    children.push(text(alloc, 3, "<")?)?;
    children.push(region(alloc)?)?;
    children.push(region(alloc)?)?;
    let mut items = Items::new(alloc);
    items.push(Item::Element {
        number: 0,
        name: Txt::from_str(alloc, "p")?,
        key: Value::Null,
        attributes,
        children,
    })?;
    Ok(items)
}

/// An element with a component in it.
pub fn with_component(alloc: Global) -> Result<Items<Item>, Fail> {
    let mut children = Items::new(alloc);
    children.push(Item::Component {
        number: 1,
        order: 0,
        made: Made::Component(1),
        key: Value::Null,
        parameters: Items::new(alloc),
    })?;
    let mut items = Items::new(alloc);
    items.push(Item::Element {
        number: 0,
        name: Txt::from_str(alloc, "p")?,
        key: Value::Null,
        attributes: Items::new(alloc),
        children,
    })?;
    Ok(items)
}
