// Renderings one after another, on one page.
use browser_tree::Browser;
use frame_core::{Batch, Edit, EditList, Item};
use frame_walk::{Walked, walk};
use handler_ids::Handlers;
use item_edits::fits;
use page_core::{Counts, Page};
use sqlite_items::Items;
use std::alloc::Global;
use std::test::Fail;

/// A browser, and the last rendering that it shows.
#[derive(Drop)]
pub struct Shown {
    alloc: Global,
    browser: Browser,
    handlers: Handlers,
    items: Items<Item>,
    pub retained: Items<(u32, u32)>,
    batch: u64,
}

fn walked(
    alloc: Global,
    old: &[Item],
    new: Items<Item>,
    handlers: &mut Handlers,
    batch: u64,
) -> Result<Walked, Fail> {
    if !fits(old) || !fits(new.as_slice()) {
        return Err(Fail::from("no edits are made of these items"));
    }
    Ok(walk(alloc, old, new, handlers, batch)?)
}

fn batch_of(alloc: Global, edits: Items<Edit>, gone: Vec<u64>) -> Result<Batch, Fail> {
    let mut lists = Items::new(alloc);
    lists.push(EditList {
        component: 1,
        edits,
    })?;
    match Batch::of(lists, Items::new(alloc), Items::from_vec(gone)) {
        Some(batch) => Ok(batch),
        None => Err(Fail::from("too many edits")),
    }
}

fn apply(browser: &mut Browser, number: u64, batch: &Batch) -> Result<Counts, Fail> {
    match browser.apply_batch(number, batch) {
        Ok(counts) => Ok(counts),
        Err(_) => Err(Fail::from("the browser refuses an edit")),
    }
}

impl Shown {
    pub fn new(alloc: Global) -> Result<Self, Fail> {
        Ok(Shown {
            alloc,
            browser: Browser::new(alloc)?,
            handlers: Handlers::new(alloc),
            items: Items::new(alloc),
            retained: Items::new(alloc),
            batch: 0,
        })
    }

    /// Shows these items in place of those before, and tells which edits that takes.
    pub fn show(&mut self, new: Items<Item>) -> Result<Counts, Fail> {
        self.batch = self.batch.saturating_add(1);
        let Walked {
            items,
            edits,
            retained,
            handlers,
            ..
        } = walked(
            self.alloc,
            self.items.as_slice(),
            new,
            &mut self.handlers,
            self.batch,
        )?;
        self.items = items;
        self.retained = retained;
        let batch = batch_of(self.alloc, edits, handlers)?;
        apply(&mut self.browser, self.batch, &batch)
    }

    pub fn page(&self) -> Result<Page, Fail> {
        Ok(self.browser.page()?)
    }
}
