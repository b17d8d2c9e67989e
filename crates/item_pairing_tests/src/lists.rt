// Lists of items, by numbers and keys.
use cs_ast::Value;
use frame_core::Item;
use item_pairing::{pair, slots_in};
use sqlite_items::Items;
use std::alloc::Global;
use std::test::Fail;
use text_core::Txt;

/// An element with a key, or a text where the key is 0.
fn item(alloc: Global, number: u32, key: i32) -> Result<Item, Fail> {
    if key == 0 {
        return Ok(Item::Text {
            number,
            text: Txt::from_str(alloc, "t")?,
        });
    }
    Ok(Item::Element {
        number,
        name: Txt::from_str(alloc, "p")?,
        key: Value::Int(key),
        attributes: Items::new(alloc),
        children: Items::new(alloc),
    })
}

/// Elements and texts of these numbers and keys.
pub fn items(alloc: Global, list: &[(u32, i32)]) -> Result<Items<Item>, Fail> {
    let mut items = Items::new(alloc);
    for (number, key) in list {
        items.push(item(alloc, *number, *key)?)?;
    }
    Ok(items)
}

/// Regions of number 5 with these keys, each with so many texts.
pub fn regions(alloc: Global, list: &[(i32, u32)]) -> Result<Items<Item>, Fail> {
    let mut items = Items::new(alloc);
    for (key, texts) in list {
        let mut children = Items::new(alloc);
        for _ in 0..*texts {
            children.push(item(alloc, 6, 0)?)?;
        }
        items.push(Item::Region {
            number: 5,
            key: Value::Int(*key),
            children,
        })?;
    }
    Ok(items)
}

/// The place of each new slot's pair, or -1.
pub fn places(alloc: Global, olds: &[Item], news: &[Item]) -> Result<Vec<i64>, Fail> {
    let old_slots = slots_in(alloc, olds)?;
    let new_slots = slots_in(alloc, news)?;
    if old_slots.len() > 1000 {
        return Err(Fail::from("too long"));
    }
    let from = pair(alloc, old_slots.as_slice(), new_slots.as_slice())?;
    let mut places = Vec::new(alloc);
    for place in from.as_slice() {
        places.push(place.map_or(-1, i64::from))?;
    }
    Ok(places)
}
