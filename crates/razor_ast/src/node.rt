// The trees of content, and of code with markup.
use crate::Attribute;
use cs_ast::{Expr, Ident, Label, Stmt};
use sqlite_items::{Boxed, Items};
use text_core::{Place, Txt};

/// A part of content or of code with markup. What makes something has a number: they rise through a file from 0, a tag before
/// its attributes and these before its content.
#[cycle(template)]
#[derive(Debug, Drop)]
pub enum TNode {
    /// An element, at the place of its `<`.
    Element {
        number: u32,
        place: Place,
        name: Ident,
        attributes: Items<Attribute>,
        children: Items<TNode>,
    },
    /// A tag whose name begins with A to Z: a component, or the content of a parameter of the component round it.
    Child {
        number: u32,
        place: Place,
        name: Ident,
        attributes: Items<Attribute>,
        children: Items<TNode>,
    },
    /// A literal text.
    Text {
        number: u32,
        place: Place,
        text: Txt,
    },
    /// A literal text with `&` in it, which is markup.
    Raw {
        number: u32,
        place: Place,
        text: Txt,
    },
    /// A content expression, at the place of its at sign.
    Content {
        number: u32,
        place: Place,
        value: Expr,
    },
    /// `<text>` and its content, or `@:` and the content of its line.
    Group {
        place: Place,
        items: Items<TNode>,
    },
    /// A statement without statements in it.
    Statement(Stmt),
    Block {
        place: Place,
        items: Items<TNode>,
    },
    If {
        place: Place,
        condition: Expr,
        yes: Boxed<TNode>,
        no: Option<Boxed<TNode>>,
    },
    Switch {
        place: Place,
        value: Expr,
        sections: Items<TSection>,
    },
    For {
        number: u32,
        place: Place,
        start: Option<Stmt>,
        condition: Option<Expr>,
        step: Option<Expr>,
        body: Boxed<TNode>,
    },
    ForEach {
        number: u32,
        place: Place,
        name: Ident,
        list: Expr,
        body: Boxed<TNode>,
    },
    While {
        number: u32,
        place: Place,
        condition: Expr,
        body: Boxed<TNode>,
    },
}

/// A section of a `switch`. Its last statement is a `break` or a `return`.
#[cycle(template)]
#[derive(Debug, Drop)]
pub struct TSection {
    pub labels: Items<Label>,
    pub items: Items<TNode>,
}
