// The lines of items, one behind another.
ghost use Rattle.std.specs.Prelude.{◌≡◌, ◌++◌, [], ◌∷◌, codes, IfOk, Some, option_map};
ghost use Rattle.frame_text.specs.Frames.{attribute_listed, attributes_listed, behind, frame_lines, given_behind, headed, item_listed, items_listed, then_all};
ghost use Rattle.frame_text.specs.Lines.{component_line, element_line, region_line};
ghost use Rattle.frame_text.specs.Standing.{front_of};

use crate::line::{
    attribute_line, component_line, element_line, markup_line, region_line, text_line,
};
use frame_core::{Item, ItemAttribute, ItemValue};
use std::alloc::Global;
use text_core::{Oom, Txt};

/// The lines so far, and how many of the handlers of the rendering have an id.
#[derive(Debug, Drop)]
pub struct Front {
    pub lines: Vec<Txt>,
    pub given: u64,
}

/// The lines so far and one more.
fn with_line(front: Front, line: Txt) -> Result<Front, Oom>
    ensures lines { IfOk result (λ it. it.lines.items ≡ front.lines.items ++ line ∷ []) }
    ensures given { IfOk result (λ it. it.given ≡ front.given) }
{
    let mut front = front;
    front.lines.push(line)?;
    Ok(front)
}

/// The lines so far, behind them a line, and behind it those that follow it.
fn with_block(front: Front, head: Txt, inside: Front) -> Result<Front, Oom>
    ensures lines { IfOk result (λ it. it.lines.items ≡ front.lines.items ++ head ∷ inside.lines.items) }
    ensures given { IfOk result (λ it. it.given ≡ inside.given) }
{
    let Front {
        lines: mut within,
        given,
    } = inside;
    let mut lines = front.lines;
    lines.push(head)?;
    lines.append(&mut within)?;
    Ok(Front { lines, given })
}

/// How many handlers have ids behind this attribute or handler.
fn given_behind(value: &ItemValue, given: u64) -> Result<u64, Oom>
    ensures { IfOk result (λ count. count ≡ given_behind value.now given) }
{
    match value {
        ItemValue::Text(_) => Ok(given),
        ItemValue::Handler(_) => given.checked_add(1).ok_or(Oom),
    }
}

/// The lines with that of an attribute or a handler.
fn with_attribute(alloc: Global, attribute: &ItemAttribute, front: Front) -> Result<Front, Oom>
    ensures { IfOk result (λ it. Some (front_of it) ≡ behind front.lines.items (attribute_listed attribute.now front.given)) }
{
    let line = attribute_line(alloc, attribute, front.given)?;
    let given = given_behind(&attribute.value, front.given)?;
    let front = with_line(front, line)?;
    Ok(Front {
        lines: front.lines,
        given,
    })
}

/// The lines with those of attributes and handlers.
fn with_attributes(alloc: Global, attributes: &[ItemAttribute], front: Front) -> Result<Front, Oom>
    ensures { IfOk result (λ it. Some (front_of it) ≡ behind front.lines.items (attributes_listed attributes.now front.given)) }
{
    let mut front = front;
    for attribute in attributes {
        front = with_attribute(alloc, attribute, front)?;
    }
    Ok(front)
}

/// The lines with those of an element.
#[cycle(list)]
fn with_element(
    alloc: Global,
    number: u32,
    name: &Txt,
    attributes: &[ItemAttribute],
    children: &[Item],
    front: Front,
) -> Result<Option<Front>, Oom>
    ensures { IfOk result (λ found. option_map front_of found ≡ behind front.lines.items
        (headed (element_line number name.now) (then_all (attributes_listed attributes.now front.given) (items_listed children.now)))) }
{
    let inside = Front {
        lines: Vec::new(alloc),
        given: front.given,
    };
    let inside = with_attributes(alloc, attributes, inside)?;
    let Some(inside) = with_items(alloc, children, inside)? else {
        return Ok(None);
    };
    let head = element_line(alloc, number, name, inside.lines.len() + 1)?;
    Ok(Some(with_block(front, head, inside)?))
}

/// The lines with those of a region.
#[cycle(list)]
fn with_region(
    alloc: Global,
    number: u32,
    children: &[Item],
    front: Front,
) -> Result<Option<Front>, Oom>
    ensures { IfOk result (λ found. option_map front_of found ≡ behind front.lines.items
        (headed (region_line number) (items_listed children.now front.given))) }
{
    let inside = Front {
        lines: Vec::new(alloc),
        given: front.given,
    };
    let Some(inside) = with_items(alloc, children, inside)? else {
        return Ok(None);
    };
    let head = region_line(alloc, number, inside.lines.len() + 1)?;
    Ok(Some(with_block(front, head, inside)?))
}

/// The lines with those of an item, or None where there is a component in it.
#[cycle(list)]
fn with_item(alloc: Global, item: &Item, front: Front) -> Result<Option<Front>, Oom>
    ensures { IfOk result (λ found. option_map front_of found ≡ behind front.lines.items (item_listed item.now front.given)) }
{
    match item {
        Item::Element {
            number,
            name,
            attributes,
            children,
            ..
        } => with_element(
            alloc,
            *number,
            name,
            attributes.as_slice(),
            children.as_slice(),
            front,
        ),
        Item::Text { number, text } => {
            Ok(Some(with_line(front, text_line(alloc, *number, text)?)?))
        }
        Item::Markup { number, text } => {
            Ok(Some(with_line(front, markup_line(alloc, *number, text)?)?))
        }
        Item::Component { .. } => Ok(None),
        Item::Region {
            number,
            children,
            ..
        } => with_region(alloc, *number, children.as_slice(), front),
    }
}

/// The lines with those of these items.
#[cycle(list)]
fn with_items(alloc: Global, items: &[Item], front: Front) -> Result<Option<Front>, Oom>
    ensures { IfOk result (λ found. option_map front_of found ≡ behind front.lines.items (items_listed items.now front.given)) }
{
    let mut front = front;
    for item in items {
        front = match with_item(alloc, item, front)? {
            Some(more) => more,
            None => return Ok(None),
        };
    }
    Ok(Some(front))
}

/// The line about a component and those of its frames, and at last one that says that these are all.
fn between(alloc: Global, component: &Txt, frames: Front) -> Result<Vec<Txt>, Oom>
    ensures { IfOk result (λ lines. lines.items ≡ component_line component.now ∷ frames.lines.items ++ codes "done" ∷ []) }
{
    let mut done = Txt::new(alloc);
    done.push_str("done")?;
    let first = Front {
        lines: Vec::new(alloc),
        given: frames.given,
    };
    let all = with_block(first, component_line(alloc, component)?, frames)?;
    Ok(with_line(all, done)?.lines)
}

/// The lines of the frames of these items, which the first instance of a page makes, of a component of this name; or None where
/// there is a component among them.
pub fn frame_lines(alloc: Global, component: &Txt, items: &[Item]) -> Result<Option<Vec<Txt>>, Oom>
    ensures { IfOk result (λ found. option_map (λ lines. lines.items) found ≡ frame_lines component.now items.now) }
{
    let front = Front {
        lines: Vec::new(alloc),
        given: 0,
    };
    match with_items(alloc, items, front)? {
        Some(frames) => Ok(Some(between(alloc, component, frames)?)),
        None => Ok(None),
    }
}
