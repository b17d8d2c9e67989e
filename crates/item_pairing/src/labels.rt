// What pairs an item: its number, its kind and its key.
ghost use Rattle.std.specs.Prelude.{◌≡◌, ◌↔◌, IsTrue, map};
ghost use Rattle.pairing_meaning.specs.Labels.{label_of, like, same_label};

use crate::made::same_made;
use cs_ast::same;
use frame_core::Item;

fn number(item: &Item) -> u32
    ensures { result ≡ (label_of item.now).number }
{
    match item {
        Item::Element { number, .. } => *number,
        Item::Text { number, .. } => *number,
        Item::Markup { number, .. } => *number,
        Item::Component { number, .. } => *number,
        Item::Region { number, .. } => *number,
    }
}

/// Whether two items have the same number, kind and key.
pub(crate) fn alike(one: &Item, other: &Item) -> bool
    ensures { IsTrue result ↔ (label_of one.now ≡ label_of other.now) }
{
    if number(one) != number(other) {
        return false;
    }
    match (one, other) {
        (
            Item::Element { name, key, .. },
            Item::Element {
                name: other_name,
                key: other_key,
                ..
            },
        ) => name == other_name && same(key, other_key),
        (Item::Text { .. }, Item::Text { .. }) => true,
        (Item::Markup { .. }, Item::Markup { .. }) => true,
        (
            Item::Component { made, key, .. },
            Item::Component {
                made: other_made,
                key: other_key,
                ..
            },
        ) => same_made(made, other_made) && same(key, other_key),
        (Item::Region { key, .. }, Item::Region { key: other_key, .. }) => same(key, other_key),
        _ => false,
    }
}

/// How many of the items are like this one.
pub(crate) fn count_alike(item: &Item, items: &[Item]) -> usize
    ensures { result ≡ like same_label (label_of item.now) (map label_of items.now) }
{
    let mut count = 0;
    for other in items {
        if alike(other, item) {
            count += 1;
        }
    }
    count
}
