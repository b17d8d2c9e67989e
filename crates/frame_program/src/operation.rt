// What a template does.
use crate::parts::{AttributePart, ContentForm, TagPart};
use cs_ast::{Code, Value};
use frame_core::Made;
use sqlite_items::Items;
use text_core::Txt;

/// A node of a template whose code is resolved. What makes something has the number of its node. `keyed` is the number of the tag
/// whose key is that of a loop's turn.
#[cycle(operation)]
#[derive(Debug, Drop)]
pub enum Operation {
    Element {
        number: u32,
        name: Txt,
        attributes: Items<AttributePart>,
        children: Items<Operation>,
    },
    /// The tag of a component.
    Child {
        number: u32,
        made: Made,
        parts: Items<TagPart>,
    },
    Text {
        number: u32,
        text: Txt,
    },
    /// A literal text that is markup.
    Raw {
        number: u32,
        text: Txt,
    },
    Content {
        number: u32,
        form: ContentForm,
        code: Code,
    },
    Statement(Code),
    /// The `break` of a section.
    Break,
    Block(Items<Operation>),
    If {
        test: Code,
        holds: Items<Operation>,
        fails: Items<Operation>,
    },
    Switch {
        value: Code,
        sections: Items<OperationSection>,
    },
    For {
        number: u32,
        start: Option<Code>,
        test: Option<Code>,
        step: Option<Code>,
        keyed: Option<u32>,
        body: Items<Operation>,
    },
    ForEach {
        number: u32,
        list: Code,
        keyed: Option<u32>,
        body: Items<Operation>,
    },
    While {
        number: u32,
        test: Code,
        keyed: Option<u32>,
        body: Items<Operation>,
    },
}

/// A section of a `switch`: its constants, whether `default` is among its labels, and what it does.
#[cycle(operation)]
#[derive(Debug, Drop)]
pub struct OperationSection {
    pub constants: Items<Value>,
    pub otherwise: bool,
    pub operations: Items<Operation>,
}
