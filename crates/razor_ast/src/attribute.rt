// The trees of attributes.
use cs_ast::{Expr, Ident};
use sqlite_items::Items;
use text_core::{Place, Txt};

/// An attribute of a tag, at the place of its name.
#[derive(Debug, Drop)]
pub struct Attribute {
    pub place: Place,
    pub name: Txt,
    pub kind: AttributeKind,
}

/// The forms of attributes. What makes something has a number; a bound field makes an attribute, and with the next number a
/// handler.
#[derive(Debug, Drop)]
pub enum AttributeKind {
    /// An attribute of an element: its text, which is empty where it has no value, or the value of one expression.
    Mixed {
        number: u32,
        value: Items<ValuePart>,
    },
    /// `@key="e"`
    Key(Expr),
    /// `@onclick="e"` and its kin.
    Event {
        number: u32,
        value: Expr,
    },
    /// `@bind="x"`
    Bind {
        number: u32,
        field: Ident,
    },
    /// `@bind:event="oninput"`
    BindEvent,
    /// A parameter of a component.
    Parameter {
        number: u32,
        given: Given,
    },
    /// `Context="x"`
    Context {
        number: u32,
        name: Ident,
    },
}

/// A part of the text of an element's attribute.
#[derive(Debug, Drop)]
pub enum ValuePart {
    Literal(Txt),
    Shown(Expr),
}

/// What a tag gives to a parameter.
#[derive(Debug, Drop)]
pub enum Given {
    /// There is no value.
    Nothing,
    /// A value without an at sign before it, and where it begins: its characters, and the expression that they spell, if any.
    Text {
        place: Place,
        text: Txt,
        expression: Option<Expr>,
    },
    /// The expression behind an at sign.
    Value(Expr),
}
