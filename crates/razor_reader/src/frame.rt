// What has begun of content and code, and what follows.
use cs_ast::{Expr, Ident, Label, Stmt};
use razor_ast::{Attribute, TNode, TSection};
use sqlite_items::{Boxed, Items};
use text_core::Place;

/// Where `break` and `continue` may stand.
#[derive(Clone, Copy)]
pub struct Jumps {
    pub breaks: bool,
    pub continues: bool,
}

/// A tag behind its attributes.
#[derive(Drop)]
pub struct OpenTag {
    pub number: u32,
    pub place: Place,
    pub name: Ident,
    pub component: bool,
    pub attributes: Items<Attribute>,
}

/// What content stands in.
#[derive(Drop)]
pub enum Owner {
    Tag(OpenTag),
    /// `<text>` in code, at this place.
    Group(Place),
    /// `@:` at this place.
    Line(Place),
}

/// Content, up to one of its items or to its end.
#[derive(Drop)]
pub struct OpenContent {
    pub owner: Owner,
    /// Whether an edge stands right before what follows.
    pub edge: bool,
    pub found: Items<TNode>,
}

/// A block, up to one of its statements or to its end.
#[derive(Drop)]
pub struct OpenBlock {
    pub place: Place,
    pub jumps: Jumps,
    pub found: Items<TNode>,
}

/// A `switch`, up to one of its sections or to its end.
#[derive(Drop)]
pub struct OpenSwitch {
    pub place: Place,
    pub value: Expr,
    pub jumps: Jumps,
    /// How many labels `default` may still stand.
    pub room: usize,
    pub sections: Items<TSection>,
}

/// A section of a `switch`, up to one of its statements or to its end.
#[derive(Drop)]
pub struct OpenSection {
    pub before: OpenSwitch,
    pub labels: Items<Label>,
    pub found: Items<TNode>,
}

/// What waits for a part inside it.
#[derive(Drop)]
pub enum Frame {
    Content(OpenContent),
    Block(OpenBlock),
    Section(OpenSection),
    /// An `if`, for its first branch.
    Yes {
        braced: bool,
        place: Place,
        jumps: Jumps,
        condition: Expr,
    },
    /// An `if`, for its second branch.
    No {
        place: Place,
        condition: Expr,
        yes: Boxed<TNode>,
    },
    While {
        number: u32,
        place: Place,
        condition: Expr,
    },
    For {
        number: u32,
        place: Place,
        start: Option<Stmt>,
        condition: Option<Expr>,
        step: Option<Expr>,
    },
    ForEach {
        number: u32,
        place: Place,
        name: Ident,
        list: Expr,
    },
}

/// What is to be read.
#[derive(Clone, Copy)]
pub enum Wanted {
    /// A part of content that isn't literal text.
    Item,
    /// A statement of a block, or what besides may stand there.
    Line(Jumps),
    /// The body of a statement, which has to be a block where the statement stands in content.
    Body { braced: bool, jumps: Jumps },
    /// What stands behind `else`.
    Otherwise { braced: bool, jumps: Jumps },
}

/// What follows what is read.
#[derive(Drop)]
pub enum Next {
    /// Nothing: the part is whole.
    Done(TNode),
    /// A part inside another one.
    Inside(Frame, Wanted),
    Content(OpenContent),
    Block(OpenBlock),
    Switch(OpenSwitch),
    Section(OpenSection),
}
