// What waits for an expression.
use cs_ast::{BinaryOp, Expr, Ident, TextPart, UnaryOp, WithPart};
use sqlite_items::{Boxed, Items};
use text_core::Place;

/// What arguments are for.
#[derive(Drop)]
pub enum Callee {
    Function(Boxed<Expr>),
    Record(Ident),
}

/// A form, of which an expression comes next: what was read of it before, and the place where it begins.
#[derive(Drop)]
pub enum Form {
    Unary {
        place: Place,
        op: UnaryOp,
    },
    Cast {
        place: Place,
    },
    Brackets,
    Binary {
        place: Place,
        op: BinaryOp,
        left: Boxed<Expr>,
    },
    /// A conditional at its second part.
    Second {
        place: Place,
        condition: Boxed<Expr>,
    },
    /// A conditional at its third part.
    Third {
        place: Place,
        condition: Boxed<Expr>,
        chosen: Boxed<Expr>,
    },
    Index {
        place: Place,
        list: Boxed<Expr>,
    },
    /// A call or a new record at an argument.
    Argument {
        place: Place,
        callee: Callee,
        found: Items<Expr>,
    },
    /// A `with` at the value of a part.
    With {
        place: Place,
        base: Boxed<Expr>,
        found: Items<WithPart>,
        name: Ident,
    },
    /// An interpolated text at a hole.
    Hole {
        place: Place,
        found: Items<TextPart>,
    },
}

/// What waits for an expression.
#[derive(Drop)]
pub enum Frame {
    Form(Form),
    /// What goes on at a level with an expression that begins at a place.
    Operations { level: u8, place: Place },
}

/// What comes next.
#[derive(Drop)]
pub enum Turn {
    /// An expression was found.
    Found(Boxed<Expr>),
    /// An expression of a level is wanted for a form.
    Wanted(Form, u8),
}
