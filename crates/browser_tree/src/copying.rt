// Copies of trees, on which the edits of a batch are tried.
ghost use Rattle.std.specs.Prelude.{◌≡◌, IfOk};

use crate::component_tree::ComponentTree;
use crate::names;
use edit_meaning::BrowserNode;
use sqlite_items::Items;
use std::alloc::Global;
use std::collections::BTreeMap;
use text_core::Oom;

/// The same node once more.
#[cycle(copy)]
pub(crate) fn copy(alloc: Global, node: &BrowserNode) -> Result<BrowserNode, Oom>
    ensures { IfOk result (λ copy. copy ≡ node.now) }
{
    match node {
        BrowserNode::Element {
            born,
            name,
            names,
            children,
        } => Ok(BrowserNode::Element {
            born: *born,
            name: name.clone()?,
            names: names::copy(names)?,
            children: copy_all(alloc, children.as_slice())?,
        }),
        BrowserNode::Text { born, text } => Ok(BrowserNode::Text {
            born: *born,
            text: text.clone()?,
        }),
        BrowserNode::Markup { born, text } => Ok(BrowserNode::Markup {
            born: *born,
            text: text.clone()?,
        }),
        BrowserNode::Component(number) => Ok(BrowserNode::Component(*number)),
    }
}

/// The same nodes once more.
#[cycle(copy)]
pub(crate) fn copy_all(alloc: Global, nodes: &[BrowserNode]) -> Result<Items<BrowserNode>, Oom>
    ensures { IfOk result (λ copy. copy ≡ nodes.now) }
{
    let mut copies = Items::new(alloc);
    for node in nodes {
        copies.push(copy(alloc, node)?)?;
    }
    Ok(copies)
}

/// The same trees once more.
pub(crate) fn copy_tree(alloc: Global, tree: &ComponentTree) -> Result<ComponentTree, Oom>
    ensures { IfOk result (λ copy. copy.entries ≡ tree.now.entries) }
{
    let mut copy = BTreeMap::new(alloc);
    for (number, nodes) in tree.iter() {
        copy.insert(*number, copy_all(alloc, nodes.as_slice())?)?;
    }
    Ok(copy)
}
