// A screen that shows plain pages.
ghost use Rattle.std.specs.Prelude.{◌≡◌, List, [], IfOk, MatchOption};
ghost use Rattle.hub_messages.specs.Screen.{found_on};
ghost use Rattle.page_core.specs.declared.node.Node.{Node, out-Node};
ghost use Rattle.plain_page.specs.Spelling.{Spells};
ghost use Rattle.plain_page.specs.Turning.{counts_between};
ghost use Rattle.plain_page.specs.Showing.{Shows};

use crate::click::click;
use crate::page_tree::PageTree;
use crate::reading::nodes_at;
use crate::turning::counts_between;
use hub_messages::{At, PrintScreen, Screen, ScreenFault};
use page_core::{ApplyFault, BatchFault, Counts, Node, Page, at, print};
use sqlite_items::Items;
use std::alloc::Global;
use text_core::{Oom, Txt};

/// The most bytes of a batch.
const MOST_BYTES: usize = 33_554_368;

/// The page that bytes spell, if they spell one.
fn read_page(alloc: Global, bytes: &[u8]) -> Result<Option<Page>, Oom>
    ensures { IfOk result (λ found. MatchOption found
        ((nodes : List Node) → Spells bytes.now nodes → ⊥)
        (λ page. Spells bytes.now page.nodes)) }
{
    if bytes.len() > MOST_BYTES {
        return Ok(None);
    }
    let Some((nodes, rest)) = nodes_at(alloc, bytes.len(), bytes)? else {
        return Ok(None);
    };
    match rest {
        [] => Ok(Some(Page { nodes })),
        [_, ..] => Ok(None),
    }
}

/// What bytes make of a page.
#[derive(Debug, Drop)]
enum Shown {
    /// Another page.
    Page(Page, Counts),
    /// They spell no page.
    Unread,
    /// No batch takes the page to the one that they spell.
    Unlike,
}

fn show(alloc: Global, number: u64, before: &Page, bytes: &[u8]) -> Result<Shown, Oom>
    ensures { IfOk result (Shows number before.now.nodes bytes.now) }
{
    let Some(page) = read_page(alloc, bytes)? else {
        return Ok(Shown::Unread);
    };
    let click = click(alloc)?;
    match counts_between(
        &click,
        number,
        before.nodes.as_slice(),
        page.nodes.as_slice(),
    ) {
        Some(counts) => Ok(Shown::Page(page, counts)),
        None => Ok(Shown::Unlike),
    }
}

/// A screen that shows plain pages.
#[derive(Debug, Drop)]
pub struct PlainScreen {
    alloc: Global,
    tree: PageTree,
}

impl PlainScreen {
    /// A screen that has applied no batch.
    pub fn new(alloc: Global) -> Self
        ensures { result.tree.page.nodes ≡ [] }
    {
        PlainScreen {
            alloc,
            tree: PageTree {
                page: Page {
                    nodes: Items::new(alloc),
                },
            },
        }
    }

    /// The page that it shows.
    pub fn page(&self) -> &Page
        ensures { result.now ≡ self.now.tree.page }
    {
        &self.tree.page
    }
}

fn handler_on(node: &Node, event: &Txt) -> At
    ensures { result ≡ found_on (out-Node node.now) event.now }
{
    match node {
        Node::Element { handlers, .. } => match handlers.get(event) {
            None => At::NoHandler,
            Some(id) => At::Handler(*id),
        },
        Node::Text { .. } => At::NoNode,
        Node::Markup { .. } => At::NoNode,
    }
}

impl Screen for PlainScreen {
    ghost use Rattle.std.specs.Prelude.{OnErr};
    ghost use Rattle.hub_messages.specs.Screen.{IsNamed, IsRefusal, HasNone};
    ghost use Rattle.plain_page.specs.Showing.{HasCause};
    ghost use Rattle.plain_page.specs.Turning.{Turned};

    type Tree = PageTree;

    ghost tree = { λ screen. screen.tree };

    fn apply(&mut self, number: u64, bytes: &[u8]) -> Result<Counts, ScreenFault>
        ensures applied { IfOk result (λ counts. Turned number bytes.now self.old.tree self.new.tree counts) }
        ensures refused { IsRefusal result → HasNone Turned number bytes.now self.old.tree }
        ensures named { IsNamed result }
        ensures same { OnErr result (self.new.tree ≡ self.old.tree) }
        ensures cause { HasCause number self.old.tree.page.nodes bytes.now result }
    {
        match show(self.alloc, number, &self.tree.page, bytes) {
            Err(Oom) => Err(ScreenFault::Oom),
            Ok(Shown::Unread) => Err(ScreenFault::Read(BatchFault::BadSubtree)),
            Ok(Shown::Unlike) => Err(ScreenFault::Apply(ApplyFault::NotText)),
            Ok(Shown::Page(page, counts)) => {
                self.tree = PageTree { page };
                Ok(counts)
            }
        }
    }

    fn handler_at(&self, path: &[u32], event: &Txt) -> At {
        match at(&self.tree.page, path) {
            None => At::NoNode,
            Some(node) => handler_on(node, event),
        }
    }
}

impl PrintScreen for PlainScreen {
    fn print(&self, alloc: Global) -> Result<Txt, Oom> {
        print(alloc, self.page())
    }
}
