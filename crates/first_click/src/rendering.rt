// The fresh rendering of items.
ghost use Rattle.std.specs.Prelude.{◌≡◌, IfOk};
ghost use Rattle.first_click.specs.Rendering.{shown_text, field_text, handlers_of, fresh_node, fresh_nodes};

use crate::component::{Field, Item};
use cs_ast::{Value, show};
use page_core::{Attributes, HandlerIds, Node};
use sqlite_items::Items;
use std::alloc::Global;
use text_core::{Oom, Txt};

/// The name of the event of clicks.
const CLICK: &[u8] = b"onclick";

/// What a value shows; the empty text, where it has none.
fn shown_text(alloc: Global, value: &Value) -> Result<Txt, Oom>
    ensures { IfOk result (λ text. text ≡ shown_text value.now) }
{
    match value {
        Value::Int(_) | Value::Bool(_) | Value::Text(_) | Value::Null => show(alloc, value),
        Value::Rec { .. } | Value::List(_) | Value::Fragment { .. } | Value::Callback { .. } => {
            Ok(Txt::new(alloc))
        }
    }
}

/// What a field shows; the empty text, where there is none of the name.
fn field_text(alloc: Global, fields: &[Field], name: &Txt) -> Result<Txt, Oom>
    ensures { IfOk result (λ text. text ≡ field_text fields.now name.now) }
{
    for field in fields {
        if field.name == *name {
            return shown_text(alloc, &field.value);
        }
    }
    Ok(Txt::new(alloc))
}

/// The handlers of an element that has this one for clicks.
fn handlers_of(alloc: Global, handler: Option<u64>) -> Result<HandlerIds, Oom>
    ensures { IfOk result (λ handlers. handlers ≡ handlers_of handler) }
{
    let mut handlers = HandlerIds::new(alloc);
    if let Some(id) = handler {
        handlers.set(Txt::from_latin1(alloc, CLICK)?, id)?;
    }
    Ok(handlers)
}

/// The nodes of items over fields with their present values, each born with that batch.
#[cycle(fresh)]
pub fn fresh_nodes(
    alloc: Global,
    born: u64,
    fields: &[Field],
    items: &[Item],
) -> Result<Items<Node>, Oom>
    ensures { IfOk result (λ nodes. nodes ≡ fresh_nodes born fields.now items.now) }
{
    let mut nodes = Items::new(alloc);
    for item in items {
        nodes.push(fresh_node(alloc, born, fields, item)?)?;
    }
    Ok(nodes)
}

/// The node of an item over fields with their present values, born with that batch.
#[cycle(fresh)]
pub fn fresh_node(alloc: Global, born: u64, fields: &[Field], item: &Item) -> Result<Node, Oom>
    ensures { IfOk result (λ node. node ≡ fresh_node born fields.now item.now) }
{
    match item {
        Item::Element {
            name,
            handler,
            children,
        } => Ok(Node::Element {
            born,
            name: name.clone()?,
            attributes: Attributes::new(alloc),
            handlers: handlers_of(alloc, *handler)?,
            children: fresh_nodes(alloc, born, fields, children.as_slice())?,
        }),
        Item::Literal { text } => Ok(Node::Text {
            born,
            text: text.clone()?,
        }),
        Item::Shown { field } => Ok(Node::Text {
            born,
            text: field_text(alloc, fields, field)?,
        }),
    }
}
