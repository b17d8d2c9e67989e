// The trees of components.
ghost use Rattle.std.specs.Prelude.{◌≡◌};
ghost use Rattle.first_click.specs.Fields.{field, has_field};

use cs_ast::{Code, Value};
use sqlite_items::Items;
use text_core::Txt;

/// A field of type `int`, and its value: the initial one in a component.
#[derive(Debug, Drop)]
pub struct Field {
    pub name: Txt,
    /// A `Value::Int`.
    pub value: Value,
}

impl Field {
    /// A field of this name and number.
    pub fn new(name: Txt, value: i32) -> Self
        ensures { result ≡ field name value }
    {
        Field {
            name,
            value: Value::Int(value),
        }
    }
}

/// Whether one of the fields has the name.
pub fn has_field(fields: &[Field], name: &Txt) -> bool
    ensures { result ≡ has_field fields.now name.now }
{
    for field in fields {
        if field.name == *name {
            return true;
        }
    }
    false
}

/// A method without parameters.
#[derive(Debug, Drop)]
pub struct Method {
    pub name: Txt,
    /// A `Code::Block` of `Code::Perform`s, in which a field is named by its position among the component's fields.
    pub body: Code,
}

/// What an element contains, or a component at its top.
#[derive(Debug, Drop)]
pub enum Item {
    Element {
        name: Txt,
        /// The id of the handler of clicks: the k-th start tag that has one, in the order of the file, has the id k.
        handler: Option<u64>,
        children: Items<Item>,
    },
    Literal {
        text: Txt,
    },
    /// A field that is shown.
    Shown {
        field: Txt,
    },
}

/// A component: its fields and methods, and what it shows.
#[derive(Debug, Drop)]
pub struct Component {
    pub fields: Items<Field>,
    pub methods: Items<Method>,
    /// At place k - 1 the position, among the methods, of the one that the handler with id k calls.
    pub handlers: Items<u32>,
    pub items: Items<Item>,
}
