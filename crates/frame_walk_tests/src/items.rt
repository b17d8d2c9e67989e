// Items of renderings.
use cs_ast::Value;
use frame_core::{Item, ItemAttribute, ItemHandler, ItemValue, Made};
use sqlite_items::Items;
use std::alloc::Global;
use std::test::Fail;
use text_core::Txt;

/// A key, or none where the number is 0.
fn key(number: i32) -> Value {
    if number == 0 {
        Value::Null
    } else {
        Value::Int(number)
    }
}

fn one(alloc: Global, item: Item) -> Result<Items<Item>, Fail> {
    let mut items = Items::new(alloc);
    items.push(item)?;
    Ok(items)
}

fn element(
    alloc: Global,
    number: u32,
    key: Value,
    attributes: Items<ItemAttribute>,
    children: Items<Item>,
) -> Result<Item, Fail> {
    Ok(Item::Element {
        number,
        name: Txt::from_str(alloc, "p")?,
        key,
        attributes,
        children,
    })
}

/// An element of this key, with a text in it.
fn row(alloc: Global, number: i32, said: &str) -> Result<Item, Fail> {
    let text = Item::Text {
        number: 3,
        text: Txt::from_str(alloc, said)?,
    };
    let inner = one(alloc, text)?;
    element(alloc, 2, key(number), Items::new(alloc), inner)
}

/// An element with a row for each key and text.
pub fn rows(alloc: Global, rows: &[(i32, &str)]) -> Result<Items<Item>, Fail> {
    let mut children = Items::new(alloc);
    for (number, said) in rows {
        children.push(row(alloc, *number, said)?)?;
    }
    let all = element(alloc, 1, Value::Null, Items::new(alloc), children)?;
    one(alloc, all)
}

fn attribute(alloc: Global, name: &str, text: &str) -> Result<ItemAttribute, Fail> {
    Ok(ItemAttribute {
        number: 4,
        name: Txt::from_str(alloc, name)?,
        value: ItemValue::Text(Txt::from_str(alloc, text)?),
    })
}

fn click(alloc: Global, captured: i32) -> Result<ItemAttribute, Fail> {
    let mut captures = Items::new(alloc);
    captures.push(Value::Int(captured))?;
    Ok(ItemAttribute {
        number: 5,
        name: Txt::from_str(alloc, "onclick")?,
        value: ItemValue::Handler(ItemHandler {
            id: 0,
            who: 1,
            place: 2,
            captures,
        }),
    })
}

/// An element that can be clicked, of this class, whose handler has captured a number, with a title or without.
pub fn button(
    alloc: Global,
    class: &str,
    captured: i32,
    titled: bool,
) -> Result<Items<Item>, Fail> {
    let mut attributes = Items::new(alloc);
    attributes.push(attribute(alloc, "class", class)?)?;
    attributes.push(click(alloc, captured)?)?;
    if titled {
        attributes.push(attribute(alloc, "title", "t")?)?;
    }
    let all = element(alloc, 1, Value::Null, attributes, Items::new(alloc))?;
    one(alloc, all)
}

/// Component items of these keys.
pub fn components(alloc: Global, keys: &[(u32, i32)]) -> Result<Items<Item>, Fail> {
    let mut items = Items::new(alloc);
    for (order, number) in keys {
        items.push(Item::Component {
            number: 9,
            order: *order,
            made: Made::Component(1),
            key: key(*number),
            parameters: Items::new(alloc),
        })?;
    }
    Ok(items)
}
