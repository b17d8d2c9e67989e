// The trees of components, by their numbers.
ghost use Rattle.std.specs.Prelude.{◌≡◌};
ghost use Rattle.edit_meaning.specs.Edits.{has_component, with_component, with_components};
ghost use Rattle.edit_meaning.specs.Batches.{forgotten, all_forgotten};
ghost use Rattle.browser_tree.specs.Answers.{Gives};

use edit_meaning::BrowserNode;
use page_core::ApplyFault;
use sqlite_items::Items;
use std::alloc::Global;
use std::collections::BTreeMap;

/// The nodes of each component.
pub(crate) type ComponentTree = BTreeMap<u32, Items<BrowserNode>>;

/// Whether the tree has a component of this number.
pub(crate) fn has(tree: &ComponentTree, number: u32) -> bool
    ensures { result ≡ has_component tree.now.entries number }
{
    tree.contains_key(&number)
}

fn add(alloc: Global, tree: ComponentTree, number: u32) -> Result<ComponentTree, ApplyFault>
    ensures { Gives (λ new. new.entries) result (with_component number tree.entries) }
{
    let mut tree = tree;
    if has(&tree, number) {
        return Err(ApplyFault::NoComponent);
    }
    match tree.insert(number, Items::new(alloc)) {
        Ok(_) => Ok(tree),
        Err(_) => Err(ApplyFault::Oom),
    }
}

/// The tree with these components more, which are empty.
#[tactic(auto, using(crate::proofs::AnswerLemmas::fails_all, crate::proofs::AnswerLemmas::goes_all))]
pub(crate) fn add_all(
    alloc: Global,
    tree: ComponentTree,
    numbers: &[u32],
) -> Result<ComponentTree, ApplyFault>
    ensures { Gives (λ new. new.entries) result (with_components numbers.now tree.entries) }
{
    let mut tree = tree;
    let mut rest = numbers;
    while let [number, others @ ..] = rest {
        tree = add(alloc, tree, *number)?;
        rest = others;
    }
    Ok(tree)
}

fn forget(tree: ComponentTree, number: u32) -> Result<ComponentTree, ApplyFault>
    ensures { Gives (λ new. new.entries) result (forgotten number tree.entries) }
{
    let mut tree = tree;
    if !has(&tree, number) {
        return Err(ApplyFault::NoComponent);
    }
    let _ = tree.remove(&number);
    Ok(tree)
}

/// The tree without these components.
#[tactic(auto, using(crate::proofs::AnswerLemmas::fails_all, crate::proofs::AnswerLemmas::goes_all))]
pub(crate) fn forget_all(tree: ComponentTree, numbers: &[u32]) -> Result<ComponentTree, ApplyFault>
    ensures { Gives (λ new. new.entries) result (all_forgotten numbers.now tree.entries) }
{
    let mut tree = tree;
    let mut rest = numbers;
    while let [number, others @ ..] = rest {
        tree = forget(tree, *number)?;
        rest = others;
    }
    Ok(tree)
}
