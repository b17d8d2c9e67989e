// The browser's tree.
ghost use Rattle.std.specs.Prelude.{◌≡◌, IfOk, OnErr};
ghost use Rattle.edit_meaning.specs.Batches.{first_tree, after_batch};
ghost use Rattle.edit_meaning.specs.Counted.{counts_of};
ghost use Rattle.edit_meaning.specs.Shown.{page_of};
ghost use Rattle.browser_tree.specs.Answers.{Gives};

use crate::component_tree::ComponentTree;
use crate::copying::copy_tree;
use crate::counting::count;
use crate::lists::edit_tree;
use crate::showing::show_page;
use frame_core::Batch;
use page_core::{ApplyFault, Counts, Page};
use sqlite_items::Items;
use std::alloc::Global;
use std::collections::BTreeMap;
use std::marker::Model;
use text_core::Oom;

/// What a browser holds of a circuit. Contracts see the nodes of each component, by their numbers.
#[derive(Drop)]
pub struct Browser {
    alloc: Global,
    tree: ComponentTree,
}

impl Model for Browser {
    ghost use Rattle.std.specs.Coded.{codes as rules};
    ghost use Rattle.edit_meaning.specs.contracts.browser_node.BrowserNode as e;
    ghost use Rattle.edit_meaning.specs.Focus.{Tree};

    ghost Value = { Tree };

    ghost coded = { Prim.hlevel (rules, e.the_row.coded) };

    ghost view = { λ browser. browser.tree.entries };
}

impl Browser {
    /// Before the first batch: component 1, with nothing in it.
    pub fn new(alloc: Global) -> Result<Self, Oom>
        ensures { IfOk result (λ browser. browser ≡ first_tree) }
    {
        let mut tree = BTreeMap::new(alloc);
        tree.insert(1, Items::new(alloc))?;
        Ok(Browser { alloc, tree })
    }

    /// Applies the batch of this number, and tells how many edits of each kind it has; or answers the fault of the first edit
    /// that has one, and then nothing has changed.
    pub fn apply_batch(&mut self, number: u64, batch: &Batch) -> Result<Counts, ApplyFault>
        ensures applied { Gives (λ _. self.new) result (after_batch number batch.now self.old) }
        ensures counts { IfOk result (λ counts. counts ≡ counts_of batch.now) }
        ensures same { OnErr result (self.new ≡ self.old) }
    {
        let tree = copy_tree(self.alloc, &self.tree)?;
        self.tree = edit_tree(self.alloc, number, batch, tree)?;
        Ok(count(batch))
    }

    /// The page that the tree shows.
    pub fn page(&self) -> Result<Page, Oom>
        ensures { IfOk result (λ page. page.nodes ≡ page_of self.now) }
    {
        Ok(Page {
            nodes: show_page(self.alloc, &self.tree)?,
        })
    }
}
