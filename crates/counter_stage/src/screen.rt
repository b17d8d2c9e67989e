// A screen that shows a counter.
ghost use Rattle.std.specs.Prelude.{◌≡◌};
ghost use Rattle.counter_stage.specs.Tree.{counts_of as counts_by};
ghost use Rattle.counter_stage.specs.Button.{is_first, found_by};

use crate::CounterTree;
use hub_messages::{At, Screen, ScreenFault};
use page_core::{BatchFault, Counts};
use text_core::Txt;

/// A screen that shows a counter.
#[derive(Debug, Drop)]
pub struct CounterScreen {
    pub tree: CounterTree,
}

impl CounterScreen {
    /// A screen that shows nothing yet.
    pub fn new() -> Self
        ensures { result.tree ≡ CounterTree.Blank }
    {
        CounterScreen {
            tree: CounterTree::Blank,
        }
    }
}

impl Screen for CounterScreen {
    type Tree = CounterTree;

    ghost tree = { λ screen. screen.tree };

    fn apply(&mut self, number: u64, bytes: &[u8]) -> Result<Counts, ScreenFault> {
        match bytes {
            [shown] => {
                self.tree = CounterTree::Shows(*shown);
                Ok(counts_of(number))
            }
            _ => Err(ScreenFault::Read(BatchFault::Short)),
        }
    }

    fn handler_at(&self, path: &[u32], event: &Txt) -> At {
        match self.tree {
            CounterTree::Blank => At::NoNode,
            CounterTree::Shows(_) => on_button(path, event),
        }
    }
}

// What stands at a path of a button without elements in it.
fn on_button(path: &[u32], event: &Txt) -> At
    ensures { result ≡ found_by path.now event.now }
{
    if !names_first(path) {
        return At::NoNode;
    }
    if event.is("onclick") {
        At::Handler(1)
    } else {
        At::NoHandler
    }
}

// Whether a path names the first node.
fn names_first(path: &[u32]) -> bool
    ensures { result ≡ is_first path.now }
{
    match path {
        [place] => *place == 0,
        _ => false,
    }
}

// The first batch puts the button in, each later one changes its text.
fn counts_of(number: u64) -> Counts
    ensures { result ≡ counts_by number }
{
    let first = number == 1;
    Counts {
        prepend: u32::from(first),
        remove: 0,
        set: 0,
        unset: 0,
        text: u32::from(!first),
        step_in: u32::from(!first),
        step_out: u32::from(!first),
        markup: 0,
        moves: 0,
        ends: 0,
    }
}
