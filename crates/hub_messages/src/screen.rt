// The browser's end of a circuit's page.
ghost use Rattle.std.specs.Prelude.{◌≡◌, IfOk, OnErr};
ghost use Rattle.page_core.specs.Print.{nodes_text};
ghost use Rattle.hub_messages.specs.Screen.{found_at, IsNamed, IsRefusal, HasNone};

use crate::Turns;
use page_core::{ApplyFault, BatchFault, Counts};
use std::alloc::Global;
use text_core::{Oom, Txt};
use thiserror::Error;

/// Why a batch was not applied.
#[derive(Clone, Copy, Debug, PartialEq, Eq, Error)]
pub enum ScreenFault {
    /// The bytes spell no batch.
    #[error("{0}")]
    Read(BatchFault),
    /// The edits do not fit the tree.
    #[error("{0}")]
    Apply(ApplyFault),
    #[error("out of memory")]
    Oom,
}

/// What stands at a path of a page, for an event.
#[derive(Clone, Copy, Debug, PartialEq, Eq)]
pub enum At {
    /// The path names no element.
    NoNode,
    /// The element has no handler of this event.
    NoHandler,
    /// The id of the handler.
    Handler(u64),
}

/// What shows the tree of a circuit to its user.
pub trait Screen {
    type Tree: Turns;

    /// The tree that it shows.
    ghost tree: { Self → Self.Tree };

    /// Applies the batch of this number. The tree stays as it was where the batch is refused.
    fn apply(&mut self, number: u64, bytes: &[u8]) -> Result<Counts, ScreenFault>
        ensures applied { IfOk result (λ counts. Self.Tree.turns number bytes.now (tree self.old) (tree self.new) counts) }
        ensures refused { IsRefusal result → HasNone Self.Tree.turns number bytes.now (tree self.old) }
        ensures named { IsNamed result }
        ensures same { OnErr result (tree self.new ≡ tree self.old) };

    /// The handler of an event at a path of the page: see `page_core::at` for paths.
    fn handler_at(&self, path: &[u32], event: &Txt) -> At
        ensures { result ≡ found_at (Self.Tree.page (tree self.now)) path.now event.now };
}

/// A screen whose page can be printed.
pub trait PrintScreen: Screen {
    /// The page that the screen shows, printed: see `page_core::print`.
    fn print(&self, alloc: Global) -> Result<Txt, Oom>
        ensures { IfOk result (λ text. text ≡ nodes_text (Self.Tree.page (Self.tree self.now))) };
}
