// Parts of operations.
use cs_ast::Code;
use sqlite_items::Items;
use text_core::Txt;

/// How the value of a content expression is shown.
#[derive(Clone, Copy, Debug, PartialEq, Eq)]
pub enum ContentForm {
    Text,
    Markup,
    Fragment,
}

/// A part of the text of an attribute.
#[derive(Debug, Drop)]
pub enum TextPart {
    Literal(Txt),
    Shown(Code),
}

/// What an attribute of an element does.
#[derive(Debug, Drop)]
pub enum AttributePart {
    /// `@key`
    Key(Code),
    /// An attribute without a value.
    Empty {
        number: u32,
        name: Txt,
    },
    /// An attribute whose value is one expression.
    Whole {
        number: u32,
        name: Txt,
        code: Code,
    },
    /// An attribute whose value is a text of several parts.
    Mixed {
        number: u32,
        name: Txt,
        parts: Items<TextPart>,
    },
    /// The handler of an event.
    Event {
        number: u32,
        name: Txt,
        code: Code,
    },
    /// The handler of the body of this number, as that of a bound field.
    Handler {
        number: u32,
        name: Txt,
        place: u32,
    },
}

/// What a part of a component's tag does: it gives a parameter by its place.
#[derive(Debug, Drop)]
pub enum TagPart {
    /// `@key`
    Key(Code),
    Text {
        place: u32,
        text: Txt,
    },
    Value {
        place: u32,
        code: Code,
    },
    /// The loose content of the tag: the fragment of a number, with the locals that it captures.
    Content {
        place: u32,
        number: u32,
        locals: Items<u32>,
    },
    /// The same by a tag of its own.
    Fragment {
        place: u32,
        number: u32,
        locals: Items<u32>,
    },
}
