// From bytes to the plain page that they spell.
ghost use Rattle.std.specs.Prelude.{◌≡◌, IfOk, option_map};
ghost use Rattle.plain_page.specs.Reading.{word_at, front_at, handlers_of, element_at, node_at, nodes_at};

use crate::click::click;
use crate::spelling::{CLICKABLE, ELEMENT, END, TEXT};
use page_core::{Attributes, HandlerIds, Node};
use sqlite_items::Items;
use std::alloc::Global;
use text_core::{Oom, Txt, WireFault, take_text, take_u64};

// A number of eight bytes, and the bytes behind it.
#[tactic(auto, using(crate::specs::Laws::Reading::u64_at_long), unfolding(crate::specs::Reading::word_at))]
fn word_at(bytes: &[u8]) -> Option<(u64, &[u8])>
    ensures { option_map (λ found. (found.0, found.1.now)) result ≡ word_at bytes.now }
{
    let word = take_u64(bytes, 0)?;
    Some((word, bytes.get(8..)?))
}

// A birth, a text and the bytes behind them.
#[tactic(auto, unfolding(crate::specs::Reading::front_at))]
fn front_at(alloc: Global, bytes: &[u8]) -> Result<Option<(u64, Txt, &[u8])>, Oom>
    ensures { IfOk result (λ found. option_map (λ front. (front.0, front.1, front.2.now)) found ≡ front_at bytes.now) }
{
    let Some(born) = take_u64(bytes, 0) else {
        return Ok(None);
    };
    match take_text(alloc, bytes, 8) {
        Ok((text, end)) => Ok(Some((born, text, &bytes[end..]))),
        Err(WireFault::BadLength) => Ok(None),
        Err(WireFault::Short) => Ok(None),
        Err(WireFault::BadUtf8) => Ok(None),
        Err(WireFault::Oom) => Err(Oom),
    }
}

fn handlers_of(alloc: Global, handler: Option<u64>) -> Result<HandlerIds, Oom>
    ensures { IfOk result (λ handlers. handlers ≡ handlers_of handler) }
{
    let mut handlers = HandlerIds::new(alloc);
    match handler {
        None => Ok(handlers),
        Some(id) => {
            handlers.set(click(alloc)?, id)?;
            Ok(handlers)
        }
    }
}

// The children of an element, and the bytes behind it.
#[cycle(reading)]
fn element_at(
    alloc: Global,
    fuel: usize,
    born: u64,
    name: Txt,
    handler: Option<u64>,
    bytes: &[u8],
) -> Result<Option<(Node, &[u8])>, Oom>
    ensures { IfOk result (λ found. option_map (λ node. (node.0, node.1.now)) found
        ≡ element_at (nodes_at fuel) born name handler bytes.now) }
{
    let Some((children, rest)) = nodes_at(alloc, fuel, bytes)? else {
        return Ok(None);
    };
    let node = Node::Element {
        born,
        name,
        attributes: Attributes::new(alloc),
        handlers: handlers_of(alloc, handler)?,
        children,
    };
    Ok(Some((node, rest)))
}

#[cycle(reading)]
#[tactic(auto, unfolding(crate::specs::Reading::node_at))]
fn node_at(alloc: Global, fuel: usize, kind: u8, bytes: &[u8]) -> Result<Option<(Node, &[u8])>, Oom>
    ensures { IfOk result (λ found. option_map (λ node. (node.0, node.1.now)) found
        ≡ node_at (nodes_at fuel) kind bytes.now) }
{
    let Some((born, text, rest)) = front_at(alloc, bytes)? else {
        return Ok(None);
    };
    if kind == TEXT {
        return Ok(Some((Node::Text { born, text }, rest)));
    }
    if kind == ELEMENT {
        return element_at(alloc, fuel, born, text, None, rest);
    }
    if kind != CLICKABLE {
        return Ok(None);
    }
    let Some((id, rest)) = word_at(rest) else {
        return Ok(None);
    };
    element_at(alloc, fuel, born, text, Some(id), rest)
}

/// Siblings, and the bytes behind them, if the bytes begin with siblings.
#[cycle(reading)]
pub(crate) fn nodes_at(
    alloc: Global,
    fuel: usize,
    bytes: &[u8],
) -> Result<Option<(Items<Node>, &[u8])>, Oom>
    ensures { IfOk result (λ found. option_map (λ nodes. (nodes.0, nodes.1.now)) found ≡ nodes_at fuel bytes.now) }
{
    let mut nodes = Items::new(alloc);
    let mut rest = bytes;
    let mut left = fuel;
    while left > 0 {
        left -= 1;
        let Some((kind, behind)) = rest.split_first() else {
            return Ok(None);
        };
        if *kind == END {
            return Ok(Some((nodes, behind)));
        }
        let Some((node, behind)) = node_at(alloc, left, *kind, behind)? else {
            return Ok(None);
        };
        nodes.push(node)?;
        rest = behind;
    }
    Ok(None)
}
