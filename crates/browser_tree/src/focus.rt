// The siblings that edits act on, and what stands round them.
ghost use Rattle.std.specs.Prelude.{◌≡◌, ◌++◌, IfOk, take, drop, reverse};
ghost use Rattle.std.specs.List.{insert};

use crate::component_tree::ComponentTree;
use edit_meaning::{BrowserNode, Entry, Level};
use sqlite_items::Items;
use std::alloc::Global;
use text_core::Oom;

/// Where edits act. The innermost of the elements round it is the last.
#[derive(Drop)]
pub(crate) struct Focus {
    pub(crate) here: Items<BrowserNode>,
    pub(crate) above: Items<Level>,
    pub(crate) entries: Items<Entry>,
    pub(crate) tree: ComponentTree,
}

/// Takes the nodes from a place on away, the last first.
#[tactic(auto, using(crate::proofs::FocusLemmas::taken_last))]
fn tail_of(
    alloc: Global,
    nodes: &mut Items<BrowserNode>,
    place: usize,
) -> Result<Items<BrowserNode>, Oom>
    ensures front { IfOk result (λ _. nodes.new ≡ take place nodes.old) }
    ensures tail { IfOk result (λ tail. reverse tail ≡ drop place nodes.old) }
{
    let mut tail = Items::new(alloc);
    while nodes.len() > place {
        let Some(last) = nodes.pop() else {
            return Ok(tail);
        };
        tail.push(last)?;
    }
    Ok(tail)
}

/// The nodes with one more before a place, or at the end where there are fewer.
#[tactic(auto, using(crate::proofs::FocusLemmas::taken_last))]
pub(crate) fn inserted(
    alloc: Global,
    nodes: Items<BrowserNode>,
    place: usize,
    node: BrowserNode,
) -> Result<Items<BrowserNode>, Oom>
    ensures { IfOk result (λ them. them ≡ insert nodes place node) }
{
    let mut nodes = nodes;
    let mut tail = tail_of(alloc, &mut nodes, place)?;
    nodes.push(node)?;
    while let Some(next) = tail.pop() {
        nodes.push(next)?;
    }
    Ok(nodes)
}
