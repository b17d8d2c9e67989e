// How a page prints.
ghost use Rattle.std.specs.Prelude.{◌≡◌, ◌++◌, IfOk, OnOk};
ghost use Rattle.page_core.specs.Print.{attribute_text, attributes_text, start_tag, end_tag, node_text, nodes_text, page_text};

use crate::escape::{Context, print_escaped};
use crate::{Attributes, Node, Page, is_void};
use std::alloc::Global;
use text_core::{Oom, Txt};

/// The page as it prints.
pub fn print(alloc: Global, page: &Page) -> Result<Txt, Oom>
    ensures { IfOk result (λ text. text ≡ page_text page.now) }
{
    let mut out = Txt::new(alloc);
    print_nodes(&mut out, page.nodes.as_slice())?;
    Ok(out)
}

#[cycle(print)]
fn print_nodes(out: &mut Txt, nodes: &[Node]) -> Result<(), Oom>
    ensures { OnOk result (out.new ≡ out.old ++ nodes_text nodes.now) }
{
    for node in nodes {
        print_node(out, node)?;
    }
    Ok(())
}

#[cycle(print)]
fn print_node(out: &mut Txt, node: &Node) -> Result<(), Oom>
    ensures { OnOk result (out.new ≡ out.old ++ node_text node.now) }
{
    match node {
        Node::Element {
            name,
            attributes,
            children,
            ..
        } => {
            print_start_tag(out, name, attributes)?;
            print_nodes(out, children.as_slice())?;
            print_end_tag(out, name)
        }
        Node::Text { text, .. } => print_escaped(out, Context::Text, text),
        Node::Markup { text, .. } => out.push_text(text),
    }
}

fn print_start_tag(out: &mut Txt, name: &Txt, attributes: &Attributes) -> Result<(), Oom>
    ensures { OnOk result (out.new ≡ out.old ++ start_tag name.now attributes.now) }
{
    out.push('<')?;
    out.push_text(name)?;
    print_attributes(out, attributes)?;
    out.push('>')
}

fn print_attributes(out: &mut Txt, attributes: &Attributes) -> Result<(), Oom>
    ensures { OnOk result (out.new ≡ out.old ++ attributes_text attributes.now) }
{
    for (name, value) in &attributes.entries {
        print_attribute(out, name, value)?;
    }
    Ok(())
}

fn print_attribute(out: &mut Txt, name: &Txt, value: &Txt) -> Result<(), Oom>
    ensures { OnOk result (out.new ≡ out.old ++ attribute_text (name.now, value.now)) }
{
    out.push(' ')?;
    out.push_text(name)?;
    out.push_str("=\"")?;
    print_escaped(out, Context::Value, value)?;
    out.push('"')
}

fn print_end_tag(out: &mut Txt, name: &Txt) -> Result<(), Oom>
    ensures { OnOk result (out.new ≡ out.old ++ end_tag name.now) }
{
    if is_void(name) {
        return Ok(());
    }
    out.push_str("</")?;
    out.push_text(name)?;
    out.push('>')
}
