// The outline of a component: the forms of its parts with their numbers.
use crate::attribute::attributes;
use crate::forms::{count, form, number, some_form, some_statement_form, statement_form};
use cs_ast::{Expr, Ident, Stmt};
use razor_ast::{Attribute, Component, TNode, TSection};
use sqlite_items::{Boxed, Items};
use std::alloc::Global;
use std::test::Fail;
use text_core::Txt;

fn quoted(alloc: Global, out: &mut String, n: u32, quote: &str, text: &Txt) -> Result<(), Fail> {
    number(alloc, out, n)?;
    out.push_str(quote)?;
    out.push_str(text.as_str())?;
    out.push_str("'")?;
    Ok(())
}

fn shown(alloc: Global, out: &mut String, n: u32, value: &Expr) -> Result<(), Fail> {
    number(alloc, out, n)?;
    out.push_str("@")?;
    out.push_str(form(value))?;
    Ok(())
}

fn statement(out: &mut String, a: &Stmt) -> Result<(), Fail> {
    out.push_str(statement_form(a))?;
    out.push_str(";")?;
    Ok(())
}

fn word(out: &mut String, word: &str) -> Result<(), Fail> {
    out.push_str(word)?;
    Ok(())
}

fn worded(out: &mut String, word: &str, a: &Expr) -> Result<(), Fail> {
    out.push_str(word)?;
    out.push_str(form(a))?;
    Ok(())
}

fn tag(
    alloc: Global,
    out: &mut String,
    n: u32,
    name: &Ident,
    all: &Items<Attribute>,
) -> Result<(), Fail> {
    out.push_str(name.name.as_str())?;
    number(alloc, out, n)?;
    attributes(alloc, out, all.as_slice())
}

fn for_loop(
    alloc: Global,
    out: &mut String,
    n: u32,
    start: &Option<Stmt>,
    condition: &Option<Expr>,
    step: &Option<Expr>,
) -> Result<(), Fail> {
    out.push_str("for")?;
    number(alloc, out, n)?;
    out.push_str(" ")?;
    out.push_str(some_statement_form(start))?;
    out.push_str(" ")?;
    out.push_str(some_form(condition))?;
    out.push_str(" ")?;
    out.push_str(some_form(step))?;
    Ok(())
}

fn for_each(
    alloc: Global,
    out: &mut String,
    n: u32,
    name: &Ident,
    list: &Expr,
) -> Result<(), Fail> {
    out.push_str("foreach")?;
    number(alloc, out, n)?;
    out.push_str(" ")?;
    out.push_str(name.name.as_str())?;
    worded(out, " ", list)
}

fn while_loop(alloc: Global, out: &mut String, n: u32, condition: &Expr) -> Result<(), Fail> {
    out.push_str("while")?;
    number(alloc, out, n)?;
    worded(out, " ", condition)
}

/// What stands before the parts inside.
fn head(alloc: Global, out: &mut String, node: &TNode) -> Result<(), Fail> {
    match node {
        TNode::Element {
            number,
            name,
            attributes,
            ..
        } => tag(alloc, out, *number, name, attributes),
        TNode::Child {
            number,
            name,
            attributes,
            ..
        } => tag(alloc, out, *number, name, attributes),
        TNode::Text { number, text, .. } => quoted(alloc, out, *number, "'", text),
        TNode::Raw { number, text, .. } => quoted(alloc, out, *number, "&'", text),
        TNode::Content { number, value, .. } => shown(alloc, out, *number, value),
        TNode::Group { .. } => word(out, ":"),
        TNode::Statement(a) => statement(out, a),
        TNode::Block { .. } => word(out, "block"),
        TNode::If { condition, .. } => worded(out, "if ", condition),
        TNode::Switch { value, .. } => worded(out, "switch ", value),
        TNode::For {
            number,
            start,
            condition,
            step,
            ..
        } => for_loop(alloc, out, *number, start, condition, step),
        TNode::ForEach {
            number,
            name,
            list,
            ..
        } => for_each(alloc, out, *number, name, list),
        TNode::While {
            number,
            condition,
            ..
        } => while_loop(alloc, out, *number, condition),
    }
}

#[cycle(outline)]
fn node(alloc: Global, out: &mut String, node: &TNode) -> Result<(), Fail> {
    head(alloc, out, node)?;
    inside(alloc, out, node)
}

#[cycle(outline)]
fn inside(alloc: Global, out: &mut String, node: &TNode) -> Result<(), Fail> {
    match node {
        TNode::Element { children, .. } => list(alloc, out, children.as_slice()),
        TNode::Child { children, .. } => list(alloc, out, children.as_slice()),
        TNode::Group { items, .. } => list(alloc, out, items.as_slice()),
        TNode::Block { items, .. } => list(alloc, out, items.as_slice()),
        TNode::If { .. } => branches(alloc, out, node),
        TNode::Switch { sections, .. } => switch(alloc, out, sections.as_slice()),
        TNode::For { body, .. } => behind(alloc, out, " ", body.get()),
        TNode::ForEach { body, .. } => behind(alloc, out, " ", body.get()),
        TNode::While { body, .. } => behind(alloc, out, " ", body.get()),
        _ => Ok(()),
    }
}

#[cycle(outline)]
fn list(alloc: Global, out: &mut String, nodes: &[TNode]) -> Result<(), Fail> {
    out.push_str("(")?;
    for inner in nodes {
        node(alloc, out, inner)?;
    }
    out.push_str(")")?;
    Ok(())
}

#[cycle(outline)]
fn behind(alloc: Global, out: &mut String, word: &str, inner: &TNode) -> Result<(), Fail> {
    out.push_str(word)?;
    node(alloc, out, inner)
}

#[cycle(outline)]
fn otherwise(alloc: Global, out: &mut String, no: &Option<Boxed<TNode>>) -> Result<(), Fail> {
    match no {
        None => Ok(()),
        Some(no) => behind(alloc, out, " else ", no.get()),
    }
}

#[cycle(outline)]
fn branches(alloc: Global, out: &mut String, node: &TNode) -> Result<(), Fail> {
    match node {
        TNode::If { yes, no, .. } => {
            behind(alloc, out, " ", yes.get())?;
            otherwise(alloc, out, no)
        }
        _ => Ok(()),
    }
}

#[cycle(outline)]
fn section(alloc: Global, out: &mut String, it: &TSection) -> Result<(), Fail> {
    out.push_str(" ")?;
    count(alloc, out, it.labels.len())?;
    list(alloc, out, it.items.as_slice())
}

#[cycle(outline)]
fn switch(alloc: Global, out: &mut String, sections: &[TSection]) -> Result<(), Fail> {
    for it in sections {
        section(alloc, out, it)?;
    }
    Ok(())
}

pub fn outline(alloc: Global, component: &Component) -> Result<String, Fail> {
    let mut out = String::new(alloc);
    for inner in component.nodes.as_slice() {
        node(alloc, &mut out, inner)?;
    }
    if component.disposes {
        out.push_str("!")?;
    }
    if !component.members.is_empty() {
        out.push_str("+")?;
        count(alloc, &mut out, component.members.len())?;
    }
    Ok(out)
}
