// Edits of a list of siblings, and of the lists in it.
ghost use Rattle.std.specs.Prelude.{◌≡◌};
ghost use Rattle.frame_core.specs.EditTypes.{type_of};

use crate::{WireAttribute, WireNode};
use text_core::Txt;

/// An edit. `sibling` is a place in the list that is edited, from 0.
#[derive(Debug, Drop)]
pub enum Edit {
    /// Puts a node in before the sibling, or at the end.
    Prepend {
        sibling: u32,
        node: WireNode,
    },
    /// Takes a node out.
    Remove {
        sibling: u32,
    },
    /// Sets an attribute or a handler of an element.
    Set {
        sibling: u32,
        attribute: WireAttribute,
    },
    /// Takes an attribute or a handler away.
    Unset {
        sibling: u32,
        name: Txt,
    },
    UpdateText {
        sibling: u32,
        text: Txt,
    },
    /// The edits that follow are of the children of this element.
    StepIn {
        sibling: u32,
    },
    /// The edits that follow are of the list round that element again.
    StepOut,
    UpdateMarkup {
        sibling: u32,
        text: Txt,
    },
    /// An entry of a permutation: what stands at `from` comes to stand at `to`.
    Move {
        from: u32,
        to: u32,
    },
    /// The entries before it act, all at once.
    MoveEnd,
}

impl Edit {
    /// The number of the edit's type, from 1 to 10: docs/DEFINITIONS.md, "Edits".
    pub fn type_number(&self) -> u32
        ensures { result ≡ type_of self.now }
    {
        match self {
            Edit::Prepend { .. } => 1,
            Edit::Remove { .. } => 2,
            Edit::Set { .. } => 3,
            Edit::Unset { .. } => 4,
            Edit::UpdateText { .. } => 5,
            Edit::StepIn { .. } => 6,
            Edit::StepOut => 7,
            Edit::UpdateMarkup { .. } => 8,
            Edit::Move { .. } => 9,
            Edit::MoveEnd => 10,
        }
    }
}
