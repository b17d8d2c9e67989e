// Writes content, and code with markup.
ghost use Rattle.std.specs.Prelude.{◌≡◌, ◌++◌, [], ◌∷◌, OnOk, map, option_map};
ghost use Rattle.std.specs.List.{flat_map};
ghost use Rattle.razor_token.specs.declared.piece.PieceKind.TheVariants as k;
ghost use Rattle.razor_print.specs.Parts.{parts_text, in_block, piece};
ghost use Rattle.razor_print.specs.Nodes as spec;
ghost use Rattle.razor_print.specs.Nodes.{node as printed_node, section_parts};

use crate::attributes::push_attributes;
use crate::before::{Before, is_parted, is_text};
use crate::heads::{behind_text, push_for_head, push_foreach_head, push_parted};
use crate::parts::{push_ascii, push_said, push_shown};
use cs_ast::{Expr, Ident, Stmt};
use cs_print::{push_in_round, push_labels, push_sign, push_statement, push_word};
use cs_token::{Sign, Word};
use razor_ast::{Attribute, TNode, TSection};
use sqlite_items::Boxed;
use std::alloc::Global;
use text_core::{Oom, Txt};

/// What the node is to the node right behind it.
#[tactic(auto, using(crate::proofs::NodeLaws::node_element, crate::proofs::NodeLaws::node_child, crate::proofs::NodeLaws::node_text, crate::proofs::NodeLaws::node_raw, crate::proofs::NodeLaws::node_content, crate::proofs::NodeLaws::node_group, crate::proofs::NodeLaws::node_statement, crate::proofs::NodeLaws::node_block, crate::proofs::NodeLaws::node_if, crate::proofs::NodeLaws::node_switch, crate::proofs::NodeLaws::node_for, crate::proofs::NodeLaws::node_foreach, crate::proofs::NodeLaws::node_while))]
pub fn leaves(node: &TNode) -> Before
    ensures { result ≡ (printed_node node.now).leaves }
{
    match node {
        TNode::Text { text, .. } | TNode::Raw { text, .. } => behind_text(text),
        TNode::Element { .. }
        | TNode::Child { .. }
        | TNode::Content { .. }
        | TNode::Group { .. }
        | TNode::Statement(_)
        | TNode::Block { .. }
        | TNode::Switch { .. }
        | TNode::For { .. }
        | TNode::ForEach { .. }
        | TNode::While { .. } => Before::Other,
        TNode::If { .. } => Before::If,
    }
}

/// Whether an at sign and a word begin the node in content.
#[tactic(auto, using(crate::proofs::NodeLaws::node_element, crate::proofs::NodeLaws::node_child, crate::proofs::NodeLaws::node_text, crate::proofs::NodeLaws::node_raw, crate::proofs::NodeLaws::node_content, crate::proofs::NodeLaws::node_group, crate::proofs::NodeLaws::node_statement, crate::proofs::NodeLaws::node_block, crate::proofs::NodeLaws::node_if, crate::proofs::NodeLaws::node_switch, crate::proofs::NodeLaws::node_for, crate::proofs::NodeLaws::node_foreach, crate::proofs::NodeLaws::node_while))]
fn is_marked(node: &TNode) -> bool
    ensures { result ≡ (printed_node node.now).marked }
{
    match node {
        TNode::If { .. }
        | TNode::Switch { .. }
        | TNode::For { .. }
        | TNode::ForEach { .. }
        | TNode::While { .. } => true,
        TNode::Text { .. }
        | TNode::Raw { .. }
        | TNode::Element { .. }
        | TNode::Child { .. }
        | TNode::Content { .. }
        | TNode::Group { .. }
        | TNode::Statement(_)
        | TNode::Block { .. } => false,
    }
}

/// A node of content behind such a node.
#[cycle(template)]
#[tactic(auto, using(crate::proofs::WrittenLaws::parted_written))]
pub fn push_item(alloc: Global, out: &mut Txt, before: Before, node: &TNode) -> Result<(), Oom>
    ensures { OnOk result (out.new ≡ out.old ++ parts_text (spec.item before (printed_node node.now))) }
{
    let parted = is_parted(before, is_marked(node), is_text(leaves(node)));
    push_parted(out, parted)?;
    push_in_content(alloc, out, node)
}

/// A node in content.
#[cycle(template)]
#[tactic(auto, using(crate::proofs::NodeLaws::node_element, crate::proofs::NodeLaws::node_child, crate::proofs::NodeLaws::node_text, crate::proofs::NodeLaws::node_raw, crate::proofs::NodeLaws::node_content, crate::proofs::NodeLaws::node_group, crate::proofs::NodeLaws::node_statement, crate::proofs::NodeLaws::node_block, crate::proofs::NodeLaws::node_if, crate::proofs::NodeLaws::node_switch, crate::proofs::NodeLaws::node_for, crate::proofs::NodeLaws::node_foreach, crate::proofs::NodeLaws::node_while, crate::proofs::TextLaws::text_nothing))]
fn push_in_content(alloc: Global, out: &mut Txt, node: &TNode) -> Result<(), Oom>
    ensures { OnOk result (out.new ≡ out.old ++ parts_text ((printed_node node.now).content)) }
{
    match node {
        TNode::Text { text, .. } | TNode::Raw { text, .. } => push_said(out, text),
        TNode::Statement(_) => Ok(()),
        TNode::Element { .. } | TNode::Child { .. } | TNode::Content { .. } | TNode::Group { .. } =>
            push_in_code(alloc, out, node),
        TNode::Block { .. }
        | TNode::If { .. }
        | TNode::Switch { .. }
        | TNode::For { .. }
        | TNode::ForEach { .. }
        | TNode::While { .. } => push_at_code(alloc, out, node),
    }
}

/// Code behind its at sign.
#[cycle(template)]
#[tactic(auto, using(crate::proofs::TextLaws::text_then))]
fn push_at_code(alloc: Global, out: &mut Txt, node: &TNode) -> Result<(), Oom>
    ensures { OnOk result (out.new ≡ out.old ++ parts_text (piece k.CodeAt (64 ∷ []) ∷ (printed_node node.now).code)) }
{
    out.push('@')?;
    push_in_code(alloc, out, node)
}

/// A node in code.
#[cycle(template)]
#[tactic(auto, using(crate::proofs::NodeLaws::node_element, crate::proofs::NodeLaws::node_child, crate::proofs::NodeLaws::node_text, crate::proofs::NodeLaws::node_raw, crate::proofs::NodeLaws::node_content, crate::proofs::NodeLaws::node_group, crate::proofs::NodeLaws::node_statement, crate::proofs::NodeLaws::node_block, crate::proofs::NodeLaws::node_if, crate::proofs::NodeLaws::node_switch, crate::proofs::NodeLaws::node_for, crate::proofs::NodeLaws::node_foreach, crate::proofs::NodeLaws::node_while, crate::proofs::TextLaws::text_nothing, crate::proofs::TextLaws::text_code))]
fn push_in_code(alloc: Global, out: &mut Txt, node: &TNode) -> Result<(), Oom>
    ensures { OnOk result (out.new ≡ out.old ++ parts_text ((printed_node node.now).code)) }
{
    match node {
        TNode::Text { .. } | TNode::Raw { .. } => Ok(()),
        TNode::Element {
            name,
            attributes,
            children,
            ..
        } => push_tag(alloc, out, name, attributes.as_slice(), children.as_slice()),
        TNode::Child {
            name,
            attributes,
            children,
            ..
        } => push_tag(alloc, out, name, attributes.as_slice(), children.as_slice()),
        TNode::Content { value, .. } => push_shown(alloc, out, value),
        TNode::Group { items, .. } => push_group(alloc, out, items.as_slice()),
        TNode::Statement(a) => push_statement(alloc, out, a),
        TNode::Block { items, .. } => push_block(alloc, out, items.as_slice()),
        TNode::If {
            condition,
            yes,
            no,
            ..
        } => push_if(alloc, out, condition, yes.get(), no),
        TNode::Switch {
            value,
            sections,
            ..
        } => push_switch(alloc, out, value, sections.as_slice()),
        TNode::For {
            start,
            condition,
            step,
            body,
            ..
        } => push_for(alloc, out, start, condition, step, body.get()),
        TNode::ForEach {
            name,
            list,
            body,
            ..
        } => push_foreach(alloc, out, name, list, body.get()),
        TNode::While {
            condition,
            body,
            ..
        } => push_while(alloc, out, condition, body.get()),
    }
}

#[cycle(template)]
#[tactic(auto, using(crate::proofs::WrittenLaws::tag_written))]
fn push_tag(
    alloc: Global,
    out: &mut Txt,
    name: &Ident,
    attributes: &[Attribute],
    children: &[TNode],
) -> Result<(), Oom>
    ensures { OnOk result (out.new ≡ out.old ++ parts_text (spec.tag name.now.name attributes.now (map printed_node children.now))) }
{
    out.push('<')?;
    out.push_text(&name.name)?;
    push_attributes(alloc, out, attributes)?;
    push_inside(alloc, out, &name.name, children)
}

/// What stands behind the attributes of a tag.
#[cycle(template)]
#[tactic(auto, using(crate::proofs::WrittenLaws::empty_written, crate::proofs::WrittenLaws::inside_written))]
fn push_inside(alloc: Global, out: &mut Txt, name: &Txt, children: &[TNode]) -> Result<(), Oom>
    ensures { OnOk result (out.new ≡ out.old ++ parts_text (spec.inside name.now (map printed_node children.now))) }
{
    if children.is_empty() {
        return push_ascii(out, "/>");
    }
    out.push('>')?;
    push_content(alloc, out, children)?;
    push_end_tag(out, name)
}

#[tactic(auto, using(crate::proofs::WrittenLaws::end_tag_written))]
fn push_end_tag(out: &mut Txt, name: &Txt) -> Result<(), Oom>
    ensures { OnOk result (out.new ≡ out.old ++ parts_text (spec.end_tag name.now)) }
{
    push_ascii(out, "</")?;
    out.push_text(name)?;
    out.push('>')
}

/// Nodes of content one behind another.
#[cycle(template)]
fn push_content(alloc: Global, out: &mut Txt, nodes: &[TNode]) -> Result<(), Oom>
    ensures { OnOk result (out.new ≡ out.old ++ parts_text (spec.content (map printed_node nodes.now))) }
{
    let mut before = Before::Other;
    for node in nodes {
        push_item(alloc, out, before, node)?;
        before = leaves(node);
    }
    Ok(())
}

/// These in `<text>`.
#[cycle(template)]
#[tactic(auto, using(crate::proofs::WrittenLaws::group_written))]
fn push_group(alloc: Global, out: &mut Txt, items: &[TNode]) -> Result<(), Oom>
    ensures { OnOk result (out.new ≡ out.old ++ parts_text (spec.group (map printed_node items.now))) }
{
    push_ascii(out, "<text>")?;
    push_content(alloc, out, items)?;
    push_ascii(out, "</text>")
}

/// Code with markup in braces.
#[cycle(template)]
#[tactic(auto, using(crate::proofs::WrittenLaws::block_written))]
fn push_block(alloc: Global, out: &mut Txt, items: &[TNode]) -> Result<(), Oom>
    ensures { OnOk result (out.new ≡ out.old ++ parts_text (in_block (spec.lines (map printed_node items.now)))) }
{
    push_sign(out, Sign::OpenBrace)?;
    push_lines(alloc, out, items)?;
    out.push('}')
}

/// Code with markup.
#[cycle(template)]
fn push_lines(alloc: Global, out: &mut Txt, items: &[TNode]) -> Result<(), Oom>
    ensures { OnOk result (out.new ≡ out.old ++ parts_text (spec.lines (map printed_node items.now))) }
{
    for item in items {
        push_in_code(alloc, out, item)?;
    }
    Ok(())
}

/// The other branch, if there is one.
#[cycle(template)]
#[tactic(auto, using(crate::proofs::TextLaws::text_nothing, crate::proofs::WrittenLaws::otherwise_written))]
fn push_otherwise(alloc: Global, out: &mut Txt, no: &Option<Boxed<TNode>>) -> Result<(), Oom>
    ensures { OnOk result (out.new ≡ out.old ++ parts_text (spec.otherwise (option_map printed_node no.now))) }
{
    match no {
        None => Ok(()),
        Some(no) => {
            push_word(out, Word::Else)?;
            push_in_code(alloc, out, no.get())
        }
    }
}

#[cycle(template)]
#[tactic(auto, using(crate::proofs::WrittenLaws::if_written))]
fn push_if(
    alloc: Global,
    out: &mut Txt,
    condition: &Expr,
    yes: &TNode,
    no: &Option<Boxed<TNode>>,
) -> Result<(), Oom>
    ensures { OnOk result (out.new ≡ out.old ++ parts_text (spec.if_else condition.now (printed_node yes.now) (option_map printed_node no.now))) }
{
    push_word(out, Word::If)?;
    push_in_round(alloc, out, condition)?;
    push_in_code(alloc, out, yes)?;
    push_otherwise(alloc, out, no)
}

#[cycle(template)]
#[tactic(auto, using(crate::proofs::WrittenLaws::switch_written))]
fn push_switch(alloc: Global, out: &mut Txt, value: &Expr, sections: &[TSection]) -> Result<(), Oom>
    ensures { OnOk result (out.new ≡ out.old ++ parts_text (spec.switch_of value.now (map section_parts sections.now))) }
{
    push_word(out, Word::Switch)?;
    push_in_round(alloc, out, value)?;
    push_sign(out, Sign::OpenBrace)?;
    push_sections(alloc, out, sections)?;
    out.push('}')
}

#[cycle(template)]
#[tactic(auto, using(crate::proofs::NodeLaws::section_law, crate::proofs::TextLaws::text_code, crate::proofs::TextLaws::text_behind))]
fn push_section(alloc: Global, out: &mut Txt, section: &TSection) -> Result<(), Oom>
    ensures { OnOk result (out.new ≡ out.old ++ parts_text (section_parts section.now)) }
{
    push_labels(alloc, out, section.labels.as_slice())?;
    push_lines(alloc, out, section.items.as_slice())
}

#[cycle(template)]
fn push_sections(alloc: Global, out: &mut Txt, sections: &[TSection]) -> Result<(), Oom>
    ensures { OnOk result (out.new ≡ out.old ++ parts_text (flat_map (λ x. x) (map section_parts sections.now))) }
{
    for section in sections {
        push_section(alloc, out, section)?;
    }
    Ok(())
}

#[cycle(template)]
#[tactic(auto, using(crate::proofs::WrittenLaws::for_written))]
fn push_for(
    alloc: Global,
    out: &mut Txt,
    start: &Option<Stmt>,
    condition: &Option<Expr>,
    step: &Option<Expr>,
    body: &TNode,
) -> Result<(), Oom>
    ensures { OnOk result (out.new ≡ out.old ++ parts_text (spec.for_loop start.now condition.now step.now (printed_node body.now))) }
{
    push_word(out, Word::For)?;
    push_for_head(alloc, out, start, condition, step)?;
    push_in_code(alloc, out, body)
}

#[cycle(template)]
#[tactic(auto, using(crate::proofs::WrittenLaws::foreach_written))]
fn push_foreach(
    alloc: Global,
    out: &mut Txt,
    name: &Ident,
    list: &Expr,
    body: &TNode,
) -> Result<(), Oom>
    ensures { OnOk result (out.new ≡ out.old ++ parts_text (spec.foreach_loop name.now.name list.now (printed_node body.now))) }
{
    push_word(out, Word::Foreach)?;
    push_foreach_head(alloc, out, name, list)?;
    push_in_code(alloc, out, body)
}

#[cycle(template)]
#[tactic(auto, using(crate::proofs::WrittenLaws::while_written))]
fn push_while(alloc: Global, out: &mut Txt, condition: &Expr, body: &TNode) -> Result<(), Oom>
    ensures { OnOk result (out.new ≡ out.old ++ parts_text (spec.while_loop condition.now (printed_node body.now))) }
{
    push_word(out, Word::While)?;
    push_in_round(alloc, out, condition)?;
    push_in_code(alloc, out, body)
}
