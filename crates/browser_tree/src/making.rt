// New nodes.
ghost use Rattle.std.specs.Prelude.{◌≡◌, ◌++◌, IfOk, map};
ghost use Rattle.std.specs.List.{concat};
ghost use Rattle.edit_meaning.specs.Made.{made, components_in};

use crate::names::set_all;
use edit_meaning::BrowserNode;
use frame_core::WireNode;
use sqlite_items::Items;
use std::alloc::Global;
use text_core::Oom;

/// The node that this batch makes.
#[cycle(make)]
pub(crate) fn make(alloc: Global, batch: u64, wire: &WireNode) -> Result<BrowserNode, Oom>
    ensures { IfOk result (λ node. node ≡ made batch wire.now) }
{
    match wire {
        WireNode::Element {
            name,
            attributes,
            children,
        } => Ok(BrowserNode::Element {
            born: batch,
            name: name.clone()?,
            names: set_all(alloc, attributes.as_slice())?,
            children: make_all(alloc, batch, children.as_slice())?,
        }),
        WireNode::Text(text) => Ok(BrowserNode::Text {
            born: batch,
            text: text.clone()?,
        }),
        WireNode::Markup(text) => Ok(BrowserNode::Markup {
            born: batch,
            text: text.clone()?,
        }),
        WireNode::Component(number) => Ok(BrowserNode::Component(*number)),
    }
}

#[cycle(make)]
fn make_all(alloc: Global, batch: u64, wires: &[WireNode]) -> Result<Items<BrowserNode>, Oom>
    ensures { IfOk result (λ nodes. nodes ≡ map (made batch) wires.now) }
{
    let mut nodes = Items::new(alloc);
    for wire in wires {
        nodes.push(make(alloc, batch, wire)?)?;
    }
    Ok(nodes)
}

/// Adds the numbers of the components in a node.
#[cycle(components)]
pub(crate) fn add_components(numbers: &mut Items<u32>, wire: &WireNode) -> Result<(), Oom>
    ensures { IfOk result (λ _. numbers.new ≡ numbers.old ++ components_in wire.now) }
{
    match wire {
        WireNode::Element { children, .. } => add_all_components(numbers, children.as_slice()),
        WireNode::Text(_) => Ok(()),
        WireNode::Markup(_) => Ok(()),
        WireNode::Component(number) => Ok(numbers.push(*number)?),
    }
}

#[cycle(components)]
fn add_all_components(numbers: &mut Items<u32>, wires: &[WireNode]) -> Result<(), Oom>
    ensures { IfOk result (λ _. numbers.new ≡ numbers.old ++ concat (map components_in wires.now)) }
{
    for wire in wires {
        add_components(numbers, wire)?;
    }
    Ok(())
}
