// Items in short: `<name key name=value ..>..</>`, `'text'`, `"markup"`, `{order key place=value ..}`, `(key ..)`.
use cs_ast::{Value, show};
use frame_core::{Item, ItemAttribute, ItemParameter, ItemValue};
use std::alloc::Global;
use text_core::{Oom, Txt};

fn value(alloc: Global, value: &Value, out: &mut Txt) -> Result<(), Oom> {
    match value {
        Value::Int(_) | Value::Bool(_) | Value::Text(_) => out.push_text(&show(alloc, value)?),
        Value::Null => out.push('-'),
        Value::Rec { .. } => out.push('r'),
        Value::List(_) => out.push('l'),
        Value::Fragment { .. } => out.push('f'),
        Value::Callback { .. } => out.push('c'),
    }
}

fn attribute(it: &ItemAttribute, out: &mut Txt) -> Result<(), Oom> {
    out.push(' ')?;
    out.push_text(&it.name)?;
    match &it.value {
        ItemValue::Text(text) => {
            out.push('=')?;
            out.push_text(text)
        }
        ItemValue::Handler(_) => out.push('!'),
    }
}

fn parameter(alloc: Global, it: &ItemParameter, out: &mut Txt) -> Result<(), Oom> {
    out.push_str(if it.place == 0 { " 0=" } else { " 1=" })?;
    value(alloc, &it.value, out)
}

#[cycle(items)]
fn item(alloc: Global, it: &Item, out: &mut Txt) -> Result<(), Oom> {
    match it {
        Item::Element {
            name,
            key,
            attributes,
            children,
            ..
        } => {
            out.push('<')?;
            out.push_text(name)?;
            out.push(' ')?;
            value(alloc, key, out)?;
            for one in attributes.as_slice() {
                attribute(one, out)?;
            }
            out.push('>')?;
            items(alloc, children.as_slice(), out)?;
            out.push_str("</>")
        }
        Item::Text { text, .. } => {
            out.push('\'')?;
            out.push_text(text)?;
            out.push('\'')
        }
        Item::Markup { text, .. } => {
            out.push('"')?;
            out.push_text(text)?;
            out.push('"')
        }
        Item::Component {
            order,
            key,
            parameters,
            ..
        } => {
            out.push(if *order == 0 { '{' } else { '[' })?;
            value(alloc, key, out)?;
            for one in parameters.as_slice() {
                parameter(alloc, one, out)?;
            }
            out.push('}')
        }
        Item::Region { key, children, .. } => {
            out.push('(')?;
            value(alloc, key, out)?;
            items(alloc, children.as_slice(), out)?;
            out.push(')')
        }
    }
}

/// Writes the items in short.
#[cycle(items)]
pub(crate) fn items(alloc: Global, all: &[Item], out: &mut Txt) -> Result<(), Oom> {
    for one in all {
        item(alloc, one, out)?;
    }
    Ok(())
}
