// What items show, one behind another.
ghost use Rattle.std.specs.Prelude.{◌≡◌, ◌++◌, [], ◌∷◌, IfOk, option_map};
ghost use Rattle.page_core.specs.declared.node.Node.TheOpen as node;
ghost use Rattle.page_core.specs.declared.node.Node.TheViews.{roll-Node};
ghost use Rattle.page_meaning.specs.Fresh.{and_also, dressed, in_element, items_shown, shown_item};
ghost use Rattle.item_page.specs.Standing.{front_of};

use crate::dressing::{Dress, dressed};
use frame_core::{Item, ItemAttribute};
use page_core::Node;
use sqlite_items::Items;
use std::alloc::Global;
use text_core::{Oom, Txt};

/// The nodes so far, and how many of the handlers of the page have an id.
#[derive(Debug, Drop)]
pub struct Front {
    pub nodes: Items<Node>,
    pub given: u64,
}

/// The nodes so far and one more.
fn with_node(front: Front, node: Node) -> Result<Front, Oom>
    ensures nodes { IfOk result (λ it. it.nodes ≡ front.nodes ++ node ∷ []) }
    ensures given { IfOk result (λ it. it.given ≡ front.given) }
{
    let mut front = front;
    front.nodes.push(node)?;
    Ok(front)
}

fn text_node(born: u64, text: &Txt) -> Result<Node, Oom>
    ensures { IfOk result (λ it. it ≡ roll-Node (node.Text born text.now)) }
{
    Ok(Node::Text {
        born,
        text: text.clone()?,
    })
}

fn markup_node(born: u64, text: &Txt) -> Result<Node, Oom>
    ensures { IfOk result (λ it. it ≡ roll-Node (node.Markup born text.now)) }
{
    Ok(Node::Markup {
        born,
        text: text.clone()?,
    })
}

fn element_node(born: u64, name: &Txt, dress: Dress, children: Items<Node>) -> Result<Node, Oom>
    ensures { IfOk result (λ it. it ≡ roll-Node (node.Element born name.now dress.attributes dress.handlers children)) }
{
    Ok(Node::Element {
        born,
        name: name.clone()?,
        attributes: dress.attributes,
        handlers: dress.handlers,
        children,
    })
}

/// The nodes with that of an element.
#[cycle(show)]
fn with_element(
    alloc: Global,
    born: u64,
    name: &Txt,
    worn: &[ItemAttribute],
    children: &[Item],
    front: Front,
) -> Result<Option<Front>, Oom>
    ensures { IfOk result (λ found. option_map front_of found ≡ and_also front.nodes
        (in_element born name.now (dressed front.given worn.now) (items_shown born children.now (dressed front.given worn.now).given))) }
{
    let dress = dressed(alloc, front.given, worn)?;
    let inside = Front {
        nodes: Items::new(alloc),
        given: dress.given,
    };
    let Some(inside) = with_items(alloc, born, children, inside)? else {
        return Ok(None);
    };
    let front = Front {
        nodes: front.nodes,
        given: inside.given,
    };
    let node = element_node(born, name, dress, inside.nodes)?;
    Ok(Some(with_node(front, node)?))
}

/// The nodes with those of an item, or None where there is a component in it.
#[cycle(show)]
fn with_item(alloc: Global, born: u64, item: &Item, front: Front) -> Result<Option<Front>, Oom>
    ensures { IfOk result (λ found. option_map front_of found ≡ and_also front.nodes (shown_item born item.now front.given)) }
{
    match item {
        Item::Element {
            name,
            attributes,
            children,
            ..
        } => with_element(
            alloc,
            born,
            name,
            attributes.as_slice(),
            children.as_slice(),
            front,
        ),
        Item::Text { text, .. } => Ok(Some(with_node(front, text_node(born, text)?)?)),
        Item::Markup { text, .. } => Ok(Some(with_node(front, markup_node(born, text)?)?)),
        Item::Component { .. } => Ok(None),
        Item::Region { children, .. } => with_items(alloc, born, children.as_slice(), front),
    }
}

/// The nodes with those of these items.
#[cycle(show)]
fn with_items(alloc: Global, born: u64, items: &[Item], front: Front) -> Result<Option<Front>, Oom>
    ensures { IfOk result (λ found. option_map front_of found ≡ and_also front.nodes (items_shown born items.now front.given)) }
{
    let mut front = front;
    for item in items {
        front = match with_item(alloc, born, item, front)? {
            Some(more) => more,
            None => return Ok(None),
        };
    }
    Ok(Some(front))
}

/// The nodes that items show, each born with this batch, or None where there is a component among them.
pub fn page_of(alloc: Global, items: &[Item], born: u64) -> Result<Option<Items<Node>>, Oom>
    ensures { IfOk result (λ found. found ≡ option_map (λ it. it.nodes) (items_shown born items.now 0)) }
{
    let front = Front {
        nodes: Items::new(alloc),
        given: 0,
    };
    match with_items(alloc, born, items, front)? {
        Some(page) => Ok(Some(page.nodes)),
        None => Ok(None),
    }
}
