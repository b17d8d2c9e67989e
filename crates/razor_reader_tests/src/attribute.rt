// The outline of attributes: their names, numbers and values.
use crate::forms::{form, number, some_form};
use razor_ast::{Attribute, AttributeKind, Given, ValuePart};
use std::alloc::Global;
use std::test::Fail;

fn value_part(out: &mut String, part: &ValuePart) -> Result<(), Fail> {
    match part {
        ValuePart::Literal(text) => {
            out.push_str("'")?;
            out.push_str(text.as_str())?;
            out.push_str("'")?;
        }
        ValuePart::Shown(a) => {
            out.push_str("@")?;
            out.push_str(form(a))?;
        }
    }
    Ok(())
}

fn given(out: &mut String, given: &Given) -> Result<(), Fail> {
    match given {
        Given::Nothing => Ok(()),
        Given::Text {
            text,
            expression,
            ..
        } => {
            out.push_str("'")?;
            out.push_str(text.as_str())?;
            out.push_str("'")?;
            out.push_str(some_form(expression))?;
            Ok(())
        }
        Given::Value(a) => {
            out.push_str("@")?;
            out.push_str(form(a))?;
            Ok(())
        }
    }
}

fn attribute(alloc: Global, out: &mut String, a: &Attribute) -> Result<(), Fail> {
    out.push_str(a.name.as_str())?;
    match &a.kind {
        AttributeKind::Mixed { number: n, value } => {
            number(alloc, out, *n)?;
            for part in value.as_slice() {
                value_part(out, part)?;
            }
        }
        AttributeKind::Key(e) => {
            out.push_str(" ")?;
            out.push_str(form(e))?;
        }
        AttributeKind::Event { number: n, value } => {
            number(alloc, out, *n)?;
            out.push_str(" ")?;
            out.push_str(form(value))?;
        }
        AttributeKind::Bind { number: n, field } => {
            number(alloc, out, *n)?;
            out.push_str(" ")?;
            out.push_str(field.name.as_str())?;
        }
        AttributeKind::BindEvent => {}
        AttributeKind::Parameter {
            number: n,
            given: value,
        } => {
            number(alloc, out, *n)?;
            given(out, value)?;
        }
        AttributeKind::Context { number: n, name } => {
            number(alloc, out, *n)?;
            out.push_str(" ")?;
            out.push_str(name.name.as_str())?;
        }
    }
    Ok(())
}

pub fn attributes(alloc: Global, out: &mut String, all: &[Attribute]) -> Result<(), Fail> {
    if all.is_empty() {
        return Ok(());
    }
    out.push_str("[")?;
    let mut first = true;
    for a in all {
        if !first {
            out.push_str(" ")?;
        }
        first = false;
        attribute(alloc, out, a)?;
    }
    out.push_str("]")?;
    Ok(())
}
