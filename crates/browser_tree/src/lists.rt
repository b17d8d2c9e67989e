// What the lists of a batch make of a tree.
ghost use Rattle.std.specs.Prelude.{◌≡◌, IfOk, IfSome, IfNone, None, Some};
ghost use Rattle.edit_meaning.specs.Edits.{nodes_of};
ghost use Rattle.edit_meaning.specs.Batches.{list_edited, lists_edited, put_back, after_batch};
ghost use Rattle.browser_tree.specs.Answers.{Gives};
ghost use Rattle.browser_tree.specs.Standing.{focus_of};

use crate::component_tree::{ComponentTree, forget_all};
use crate::copying::copy_all;
use crate::edits::edit_all;
use crate::focus::Focus;
use frame_core::{Batch, EditList};
use page_core::ApplyFault;
use sqlite_items::Items;
use std::alloc::Global;

/// Ends the edits of a component's list.
fn close(component: u32, focus: Focus) -> Result<ComponentTree, ApplyFault>
    ensures { Gives (λ new. new.entries) result (put_back component (focus_of focus)) }
{
    let Focus {
        here,
        above,
        entries,
        tree,
    } = focus;
    let mut tree = tree;
    if !above.is_empty() {
        return Err(ApplyFault::Unbalanced);
    }
    if !entries.is_empty() {
        return Err(ApplyFault::Unbalanced);
    }
    match tree.insert(component, here) {
        Ok(_) => Ok(tree),
        Err(_) => Err(ApplyFault::Oom),
    }
}

#[tactic(auto, using(crate::proofs::AnswerLemmas::fails_all, crate::proofs::AnswerLemmas::goes_all))]
fn edit_list(
    alloc: Global,
    batch: u64,
    list: &EditList,
    tree: ComponentTree,
) -> Result<ComponentTree, ApplyFault>
    ensures { Gives (λ new. new.entries) result (list_edited batch list.now tree.entries) }
{
    let Some(nodes) = tree.get(&list.component) else {
        return Err(ApplyFault::NoComponent);
    };
    let here = copy_all(alloc, nodes.as_slice())?;
    let focus = Focus {
        here,
        above: Items::new(alloc),
        entries: Items::new(alloc),
        tree,
    };
    close(
        list.component,
        edit_all(alloc, batch, list.edits.as_slice(), focus)?,
    )
}

#[tactic(auto, using(crate::proofs::AnswerLemmas::fails_all, crate::proofs::AnswerLemmas::goes_all))]
fn edit_lists(
    alloc: Global,
    batch: u64,
    lists: &[EditList],
    tree: ComponentTree,
) -> Result<ComponentTree, ApplyFault>
    ensures { Gives (λ new. new.entries) result (lists_edited batch lists.now tree.entries) }
{
    let mut tree = tree;
    for list in lists {
        tree = edit_list(alloc, batch, list, tree)?;
    }
    Ok(tree)
}

/// The tree after the batch.
#[tactic(auto, using(crate::proofs::AnswerLemmas::fails_all, crate::proofs::AnswerLemmas::goes_all))]
pub(crate) fn edit_tree(
    alloc: Global,
    number: u64,
    batch: &Batch,
    tree: ComponentTree,
) -> Result<ComponentTree, ApplyFault>
    ensures { Gives (λ new. new.entries) result (after_batch number batch.now tree.entries) }
{
    let tree = edit_lists(alloc, number, batch.lists(), tree)?;
    forget_all(tree, batch.components())
}
