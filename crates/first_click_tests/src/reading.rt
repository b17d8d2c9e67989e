// Components at examples, and that each call can succeed.
use cs_ast::{AssignOp, BinaryOp, Code, StepOp, Variable};
use first_click::{Component, Field, Item, fresh_node, fresh_nodes, read};
use page_core::{Node, Page, print};
use sqlite_items::Items;
use std::alloc::Global;
use std::test::Fail;
use text_core::{Oom, Txt};

const COUNTER: &str =
    "<p>@n</p><button @onclick=\"Add\">+</button>@code { int n = 0; void Add() { n++; } }";

fn component(alloc: Global, text: &str) -> Result<Option<Component>, Oom> {
    read(
        alloc,
        &Txt::from_str(alloc, "pages/Counter.razor")?,
        text.as_bytes(),
    )
}

/// The number that a step adds to, with the operator.
fn stepped(code: &Code) -> Option<(u32, StepOp)> {
    if let Code::Perform(inner) = code {
        if let Code::Step(Variable::Field(number), op) = inner.get() {
            return Some((*number, *op));
        }
    }
    None
}

/// The field that an assignment sets, and its value.
fn assigned(code: &Code) -> Option<(u32, &Code)> {
    if let Code::Perform(inner) = code {
        if let Code::Assign(Variable::Field(number), AssignOp::Set, value) = inner.get() {
            return Some((*number, value.get()));
        }
    }
    None
}

/// The operands of an operator.
fn operands(code: &Code, wanted: BinaryOp) -> Option<(&Code, &Code)> {
    if let Code::Binary(op, a, b) = code {
        if *op == wanted {
            return Some((a.get(), b.get()));
        }
    }
    None
}

/// The statements of the method at this place.
fn statements(component: &Component, at: usize) -> Option<&[Code]> {
    if let Some(method) = component.methods.get(at) {
        if let Code::Block(statements) = &method.body {
            return Some(statements.as_slice());
        }
    }
    None
}

/// Whether the method is `m--;` and `n = 1 - 2 - 3 * (m - n);`, joined as it should be.
fn is_joined_well(component: &Component) -> Option<bool> {
    let all = statements(component, 0)?;
    let (number, value) = assigned(all.get(1)?)?;
    let (chain, product) = operands(value, BinaryOp::Subtract)?;
    let (one, two) = operands(chain, BinaryOp::Subtract)?;
    let (three, inner) = operands(product, BinaryOp::Multiply)?;
    let (m, n) = operands(inner, BinaryOp::Subtract)?;
    let numbers = matches!(one, Code::Int(1))
        && matches!(two, Code::Int(2))
        && matches!(three, Code::Int(3));
    let names = matches!(m, Code::Field(0)) && matches!(n, Code::Field(1));
    let step = stepped(all.first()?) == Some((0, StepOp::Decrement));
    Some(number == 1 && numbers && names && step)
}

/// The id of the handler of the item at this place.
fn handler(component: &Component, at: usize) -> Option<u64> {
    match component.items.get(at) {
        Some(Item::Element { handler, .. }) => *handler,
        _ => None,
    }
}

/// The id of the handler that an element has for this event.
fn click(node: &Node, event: &Txt) -> Option<u64> {
    match node {
        Node::Element { handlers, .. } => handlers.get(event).copied(),
        Node::Text { .. } | Node::Markup { .. } => None,
    }
}

#[test]
fn reads_a_counter(rt: HostRuntime) -> Result<(), Fail> {
    let alloc = rt.alloc();
    let counter = component(alloc, COUNTER)?;
    assert!(rt; counter.is_some());
    if let Some(counter) = counter {
        assert_eq!(rt; counter.fields.len(), 1);
        assert_eq!(rt; counter.handlers.as_slice(), [0u32].as_slice());
        assert_eq!(rt; handler(&counter, 0), None);
        assert_eq!(rt; handler(&counter, 1), Some(1));
        let all = statements(&counter, 0).unwrap_or(&[]);
        assert_eq!(rt; all.len(), 1);
        assert!(rt; stepped(&all[0]) == Some((0, StepOp::Increment)));
    }
    Ok(())
}

#[test]
fn joins_operators_by_strength(rt: HostRuntime) -> Result<(), Fail> {
    let alloc = rt.alloc();
    let read = component(alloc, "@code{void A(){m--;n=1-2-3*(m-n);}int m=1;int n=2;}")?;
    assert!(rt; read.is_some());
    if let Some(read) = read {
        assert_eq!(rt; is_joined_well(&read), Some(true));
    }
    Ok(())
}

#[test]
fn gives_handlers_ids_in_order(rt: HostRuntime) -> Result<(), Fail> {
    let alloc = rt.alloc();
    let read = component(
        alloc,
        "<b @onclick=\"B\"><i @onclick=\"A\"></i></b><u></u><u @onclick=\"B\"></u>@code{void A(){}void B(){}}",
    )?;
    assert!(rt; read.is_some());
    if let Some(read) = read {
        assert_eq!(rt; read.handlers.as_slice(), [1u32, 0, 1].as_slice());
        for (at, id) in [Some(1), None, Some(3)].iter().enumerate() {
            assert_eq!(rt; handler(&read, at), *id);
        }
    }
    Ok(())
}

#[test]
fn renders_present_values(rt: HostRuntime) -> Result<(), Fail> {
    let alloc = rt.alloc();
    let counter = component(alloc, COUNTER)?;
    assert!(rt; counter.is_some());
    if let Some(counter) = counter {
        let mut fields = Items::new(alloc);
        fields.push(Field::new(Txt::from_str(alloc, "n")?, -7))?;
        let nodes = fresh_nodes(alloc, 5, fields.as_slice(), counter.items.as_slice())?;
        let page = print(alloc, &Page { nodes })?;
        assert_eq!(rt; page.as_str(), "<p>-7</p><button>+</button>");
        for (at, item) in counter.items.as_slice().iter().enumerate() {
            let node = fresh_node(alloc, 5, fields.as_slice(), item)?;
            let expected = if at == 1 { Some(1) } else { None };
            assert_eq!(rt; click(&node, &Txt::from_str(alloc, "onclick")?), expected);
        }
    }
    Ok(())
}
