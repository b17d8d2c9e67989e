// Paths to nodes of a page.
ghost use Rattle.std.specs.Prelude.{◌≡◌, slice_get};
ghost use Rattle.std.specs.Option.{option_copied};
ghost use Rattle.page_core.specs.Path.{children_of, node_at, node_behind};

use crate::{Node, Page};

/// The node that a path names: its last number is the node's place among its siblings, from 0, and each number
/// before it the place of an element round it, the outermost first. The empty path names no node.
pub fn at<'a>(page: &'a Page, path: &[u32]) -> Option<&'a Node>
    ensures { option_copied result ≡ node_at page.now.nodes path.now }
{
    match path {
        [] => None,
        [place, places @ ..] => behind(among(page.nodes.as_slice(), *place), places),
    }
}

fn behind<'a>(node: Option<&'a Node>, places: &[u32]) -> Option<&'a Node>
    ensures { option_copied result ≡ node_behind (option_copied node.entry) places.now }
{
    let node = node?;
    match places {
        [] => Some(node),
        [place, places @ ..] => behind(among(children(node), *place), places),
    }
}

fn among(nodes: &[Node], place: u32) -> Option<&Node>
    ensures { option_copied result ≡ slice_get nodes.now place }
{
    sqlite_items::at(nodes, place as usize)
}

fn children(node: &Node) -> &[Node]
    ensures { result.now ≡ children_of node.now }
{
    match node {
        Node::Element { children, .. } => children.as_slice(),
        Node::Text { .. } | Node::Markup { .. } => &[],
    }
}
