// The bytes of a plain page.
ghost use Rattle.std.specs.Prelude.{◌≡◌, ◌++◌, IsTrue, OnOk};
ghost use Rattle.std.specs.Str.{all_scalars};
ghost use Rattle.plain_page.specs.Click.{onclick, click_handler};
ghost use Rattle.plain_page.specs.Plain.{is_short, is_plain, are_plain, is_stored, are_stored, fits_word};
ghost use Rattle.plain_page.specs.Spelling.{spelled_front, spelled_start, spelled_node, spelled_nodes};

use page_core::{HandlerIds, Node};
use text_core::{Oom, Txt, put_text, put_u64};

/// Stands behind the last of siblings.
pub(crate) const END: u8 = 0;

pub(crate) const TEXT: u8 = 1;

pub(crate) const ELEMENT: u8 = 2;
/// An element with a handler of clicks.
pub(crate) const CLICKABLE: u8 = 3;

/// Appends the bytes of siblings.
#[cycle(spelling)]
pub(crate) fn put_nodes(out: &mut Vec<u8>, click: &Txt, nodes: &[Node]) -> Result<(), Oom>
    requires name { click.now ≡ onclick }
    requires plain { IsTrue (are_plain nodes.now) }
    ensures put { OnOk result (out.new.items ≡ out.old.items ++ spelled_nodes nodes.now) }
    ensures stored { OnOk result (IsTrue (are_stored nodes.now)) }
{
    for node in nodes {
        put_node(out, click, node)?;
    }
    out.push(END)?;
    Ok(())
}

#[cycle(spelling)]
fn put_node(out: &mut Vec<u8>, click: &Txt, node: &Node) -> Result<(), Oom>
    requires name { click.now ≡ onclick }
    requires plain { IsTrue (is_plain node.now) }
    ensures put { OnOk result (out.new.items ≡ out.old.items ++ spelled_node node.now) }
    ensures stored { OnOk result (IsTrue (is_stored node.now)) }
{
    match node {
        Node::Element {
            born,
            name,
            handlers,
            children,
            ..
        } => {
            put_start(out, click, *born, name, handlers)?;
            put_nodes(out, click, children.as_slice())
        }
        Node::Text { born, text } => put_front(out, TEXT, *born, text),
        Node::Markup { .. } => unreachable!(),
    }
}

fn put_start(
    out: &mut Vec<u8>,
    click: &Txt,
    born: u64,
    name: &Txt,
    handlers: &HandlerIds,
) -> Result<(), Oom>
    requires name { click.now ≡ onclick }
    requires short { IsTrue (is_short name.now) }
    ensures put { OnOk result
        (out.new.items ≡ out.old.items ++ spelled_start born name.now (click_handler handlers.now)) }
    ensures scalars { OnOk result (IsTrue (all_scalars name.now)) }
    ensures id { OnOk result (IsTrue (fits_word (click_handler handlers.now))) }
{
    match handlers.get(click) {
        None => put_front(out, ELEMENT, born, name),
        Some(id) => {
            let id = *id;
            put_front(out, CLICKABLE, born, name)?;
            put_u64(out, id)
        }
    }
}

fn put_front(out: &mut Vec<u8>, kind: u8, born: u64, text: &Txt) -> Result<(), Oom>
    requires { IsTrue (is_short text.now) }
    ensures put { OnOk result (out.new.items ≡ out.old.items ++ spelled_front kind born text.now) }
    ensures scalars { OnOk result (IsTrue (all_scalars text.now)) }
{
    let _characters = text.as_str();
    out.push(kind)?;
    put_u64(out, born)?;
    put_text(out, text)
}
