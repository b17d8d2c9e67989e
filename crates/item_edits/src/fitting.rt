// Of which renderings edits are made.
ghost use Rattle.std.specs.Prelude.{◌↔◌, ◌<◌, ◌^◌, IsTrue};
ghost use Rattle.item_edits.specs.Renderings.{sizes, NamesDiffer, Clear, AllClear};

use crate::names::has_name;
use crate::sizing::with_items;
use frame_core::{Item, ItemAttribute};

fn names_differ(attributes: &[ItemAttribute]) -> bool
    ensures { IsTrue result ↔ NamesDiffer attributes.now }
{
    for (k, attribute) in attributes.iter().enumerate() {
        if has_name(&attributes[..k], attribute) {
            return false;
        }
    }
    true
}

/// Whether no element in the item has two attributes of one name.
#[cycle(clear)]
fn is_clear(item: &Item) -> bool
    ensures { IsTrue result ↔ Clear item.now }
{
    match item {
        Item::Element {
            attributes,
            children,
            ..
        } => names_differ(attributes.as_slice()) && all_clear(children.as_slice()),
        Item::Region { children, .. } => all_clear(children.as_slice()),
        Item::Text { .. } => true,
        Item::Markup { .. } => true,
        Item::Component { .. } => true,
    }
}

#[cycle(clear)]
fn all_clear(items: &[Item]) -> bool
    ensures { IsTrue result ↔ AllClear items.now }
{
    for item in items {
        if !is_clear(item) {
            return false;
        }
    }
    true
}

/// Whether `edits_of` takes these items.
pub fn fits(items: &[Item]) -> bool
    ensures { IsTrue result ↔ ((sizes items.now < 2 ^ 31) × AllClear items.now) }
{
    with_items(0, items) < 1 << 31 && all_clear(items)
}
