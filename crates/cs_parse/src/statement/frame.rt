// Statements that have begun, and what follows them.
use cs_ast::{Expr, Ident, Label, Section, Stmt};
use sqlite_items::{Boxed, Items};
use text_core::Place;

/// Where `break` and `continue` may stand.
#[derive(Clone, Copy)]
pub struct Jumps {
    pub breaks: bool,
    pub continues: bool,
}

/// A block, up to one of its statements or to its end.
#[derive(Drop)]
pub struct OpenBlock {
    pub place: Place,
    pub jumps: Jumps,
    pub found: Items<Stmt>,
}

/// A `switch`, up to one of its sections or to its end.
#[derive(Drop)]
pub struct OpenSwitch {
    pub place: Place,
    pub value: Boxed<Expr>,
    pub jumps: Jumps,
    /// How many labels `default` may still stand.
    pub room: usize,
    pub sections: Items<Section>,
}

/// A section of a `switch`, up to one of its statements or to its end.
#[derive(Drop)]
pub struct OpenSection {
    pub before: OpenSwitch,
    pub labels: Items<Label>,
    pub found: Items<Stmt>,
}

/// What waits for a statement inside it.
#[derive(Drop)]
pub enum Frame {
    /// An `if`, for its first branch.
    Yes {
        place: Place,
        jumps: Jumps,
        condition: Boxed<Expr>,
    },
    /// An `if`, for its second branch.
    No {
        place: Place,
        condition: Boxed<Expr>,
        yes: Boxed<Stmt>,
    },
    While {
        place: Place,
        condition: Boxed<Expr>,
    },
    For {
        place: Place,
        start: Option<Boxed<Stmt>>,
        condition: Option<Expr>,
        step: Option<Expr>,
    },
    ForEach {
        place: Place,
        name: Ident,
        list: Boxed<Expr>,
    },
    Block(OpenBlock),
    Section(OpenSection),
}

/// What follows what is read.
#[derive(Drop)]
pub enum Next {
    /// Nothing: the statement is whole.
    Done(Boxed<Stmt>),
    /// A statement inside another one.
    Inside(Frame, Jumps),
    Block(OpenBlock),
    Switch(OpenSwitch),
    Section(OpenSection),
}

/// What a statement is that begins with a token.
#[derive(Clone, Copy)]
pub enum Beginning {
    Empty,
    Block,
    If,
    While,
    For,
    ForEach,
    Switch,
    Await,
    Break,
    Continue,
    Return,
    /// A local, a change or a call.
    Simple,
    /// No statement begins so.
    Nothing,
}
