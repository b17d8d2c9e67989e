// The page that a tree shows.
ghost use Rattle.std.specs.Prelude.{◌≡◌, ◌++◌, IfOk, length};
ghost use Rattle.std.specs.List.{flat_map};
ghost use Rattle.page_core.specs.declared.node.Node.TheVariants as page;
ghost use Rattle.edit_meaning.specs.Shown.{shown, component_shown, page_of};

use crate::component_tree::ComponentTree;
use edit_meaning::{BrowserNode, Names};
use page_core::{Node, copy_attributes, copy_handlers};
use sqlite_items::Items;
use std::alloc::Global;
use text_core::{Oom, Txt};

/// What a tree shows: at most so many components in one another.
#[tactic(auto, using(crate::proofs::ShownLemmas::flat_map_map, crate::proofs::ShownLemmas::shown_some))]
#[cycle(show)]
fn show(
    alloc: Global,
    within: usize,
    tree: &ComponentTree,
    node: &BrowserNode,
    page: &mut Items<Node>,
) -> Result<(), Oom>
    ensures { IfOk result (λ _. page.new ≡ page.old ++ shown (component_shown within tree.now.entries) node.now) }
{
    match node {
        BrowserNode::Element {
            born,
            name,
            names,
            children,
        } => {
            let mut inside = Items::new(alloc);
            show_all(alloc, within, tree, children.as_slice(), &mut inside)?;
            Ok(page.push(element(*born, name, names, inside)?)?)
        }
        BrowserNode::Text { born, text } => Ok(page.push(Node::Text {
            born: *born,
            text: text.clone()?,
        })?),
        BrowserNode::Markup { born, text } => Ok(page.push(Node::Markup {
            born: *born,
            text: text.clone()?,
        })?),
        BrowserNode::Component(number) => show_component(alloc, within, tree, *number, page),
    }
}

#[cycle(show)]
fn show_all(
    alloc: Global,
    within: usize,
    tree: &ComponentTree,
    nodes: &[BrowserNode],
    page: &mut Items<Node>,
) -> Result<(), Oom>
    ensures { IfOk result (λ _. page.new ≡ page.old ++ flat_map (shown (component_shown within tree.now.entries)) nodes.now) }
{
    for node in nodes {
        show(alloc, within, tree, node, page)?;
    }
    Ok(())
}

#[cycle(show)]
#[tactic(auto, using(crate::proofs::ShownLemmas::flat_map_map, crate::proofs::ShownLemmas::shown_some))]
fn show_component(
    alloc: Global,
    within: usize,
    tree: &ComponentTree,
    number: u32,
    page: &mut Items<Node>,
) -> Result<(), Oom>
    ensures { IfOk result (λ _. page.new ≡ page.old ++ component_shown within tree.now.entries number) }
{
    if within == 0 {
        return Ok(());
    }
    match tree.get(&number) {
        None => Ok(()),
        Some(nodes) => show_all(alloc, within - 1, tree, nodes.as_slice(), page),
    }
}

fn element(born: u64, name: &Txt, names: &Names, children: Items<Node>) -> Result<Node, Oom>
    ensures { IfOk result (λ node. node ≡ page.Element born name.now names.now.attributes names.now.handlers children) }
{
    Ok(Node::Element {
        born,
        name: name.clone()?,
        attributes: copy_attributes(&names.attributes)?,
        handlers: copy_handlers(&names.handlers)?,
        children,
    })
}

/// The nodes that the tree shows.
pub(crate) fn show_page(alloc: Global, tree: &ComponentTree) -> Result<Items<Node>, Oom>
    ensures { IfOk result (λ page. page ≡ page_of tree.now.entries) }
{
    let mut page = Items::new(alloc);
    show_component(alloc, tree.len(), tree, 1, &mut page)?;
    Ok(page)
}
