// How many items there are.
ghost use Rattle.std.specs.Prelude.{◌≡◌, ◌+◌, ◌-◌, ◌^◌, min};
ghost use Rattle.item_edits.specs.Renderings.{size_of, sizes};

use frame_core::Item;

/// The number with that of the items in an item, itself among them, or the largest one.
#[cycle(sizes)]
fn with_item(count: u32, item: &Item) -> u32
    ensures { result ≡ min (count + size_of item.now) (2 ^ 32 - 1) }
{
    let count = count.saturating_add(1);
    match item {
        Item::Element { children, .. } => with_items(count, children.as_slice()),
        Item::Region { children, .. } => with_items(count, children.as_slice()),
        Item::Text { .. } => count,
        Item::Markup { .. } => count,
        Item::Component { .. } => count,
    }
}

/// The number with that of these items and of all that is in them, or the largest one.
#[cycle(sizes)]
pub(crate) fn with_items(count: u32, items: &[Item]) -> u32
    ensures { result ≡ min (count + sizes items.now) (2 ^ 32 - 1) }
{
    let mut count = count;
    for item in items {
        count = with_item(count, item);
    }
    count
}
