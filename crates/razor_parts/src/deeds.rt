// Whether parts of a template do something besides computing.
ghost use Rattle.std.specs.Prelude.{◌≡◌, ◌||◌, map, option_map, IfOk};
ghost use Rattle.std.specs.List.{list_any};
ghost use Rattle.cs_effects.specs.Deeds.{of_body};
ghost use Rattle.razor_rules.specs.TemplateDeeds as spec;
ghost use Rattle.razor_rules.specs.Parts.{any_does};
ghost use Rattle.razor_rules.specs.Templates.{part_of, part_of_section};
ghost use Rattle.razor_parts.specs.Views.{home_of};

use crate::forms::{Form, form_of};
use crate::home::Home;
use cs_ast::{Body, Expr, Ident, Stmt};
use cs_effects::{Deed, body_does, expression_does, statement_does};
use razor_ast::{Attribute, AttributeKind, Given, TNode, TSection, ValuePart};
use sqlite_items::{Boxed, Items};
use std::alloc::Global;
use text_core::{Oom, Txt};

/// Assigning or stepping the local of a name.
pub fn changing(alloc: Global, name: &Txt) -> Result<Deed, Oom>
    ensures { IfOk result (λ deed. deed ≡ spec.changing name.now) }
{
    let mut names = Items::new(alloc);
    names.push(name.clone()?)?;
    Ok(Deed::Changes(names))
}

fn names_in(alloc: Global, argument: &Option<Ident>) -> Result<Items<Txt>, Oom>
    ensures { IfOk result (λ names. names ≡ spec.names_in argument.now) }
{
    let mut names = Items::new(alloc);
    if let Some(argument) = argument {
        names.push(argument.name.clone()?)?;
    }
    Ok(names)
}

fn lambda(alloc: Global, deed: &Deed, argument: &Option<Ident>, body: &Body) -> Result<bool, Oom>
    ensures { IfOk result (λ yes. yes ≡ of_body deed.now body.now (spec.names_in argument.now)) }
{
    let locals = names_in(alloc, argument)?;
    body_does(alloc, deed, locals.as_slice(), body)
}

/// An expression, or a lambda when it is run.
#[tactic(auto, using(crate::proofs::DeedLaws::lambda_does, crate::proofs::DeedLaws::name_does, crate::proofs::DeedLaws::other_does))]
fn expression(alloc: Global, deed: &Deed, a: &Expr) -> Result<bool, Oom>
    ensures { IfOk result (λ yes. yes ≡ spec.expression_does deed.now a.now) }
{
    match form_of(&a.kind) {
        Form::Lambda(argument, body) => lambda(alloc, deed, argument, body),
        Form::Name(_) => Ok(expression_does(deed, &[], a)),
        Form::Other => Ok(expression_does(deed, &[], a)),
    }
}

fn optional(alloc: Global, deed: &Deed, a: &Option<Expr>) -> Result<bool, Oom>
    ensures { IfOk result (λ yes. yes ≡ spec.if_any (spec.expression_does deed.now) a.now) }
{
    match a {
        Some(a) => expression(alloc, deed, a),
        None => Ok(false),
    }
}

#[tactic(auto, unfolding(razor_rules::specs::TemplateDeeds::statement_does))]
fn statement(alloc: Global, deed: &Deed, one: &Stmt) -> Result<bool, Oom>
    ensures { IfOk result (λ yes. yes ≡ spec.statement_does deed.now one.now) }
{
    statement_does(alloc, deed, &[], one)
}

fn start_does(alloc: Global, deed: &Deed, start: &Option<Stmt>) -> Result<bool, Oom>
    ensures { IfOk result (λ yes. yes ≡ spec.if_any (spec.statement_does deed.now) start.now) }
{
    match start {
        Some(start) => statement(alloc, deed, start),
        None => Ok(false),
    }
}

fn part_does(alloc: Global, deed: &Deed, part: &ValuePart) -> Result<bool, Oom>
    ensures { IfOk result (λ yes. yes ≡ spec.part_does deed.now part.now) }
{
    match part {
        ValuePart::Literal(_) => Ok(false),
        ValuePart::Shown(a) => expression(alloc, deed, a),
    }
}

fn value(alloc: Global, deed: &Deed, parts: &[ValuePart]) -> Result<bool, Oom>
    ensures { IfOk result (λ yes. yes ≡ list_any (spec.part_does deed.now) parts.now) }
{
    for part in parts {
        if part_does(alloc, deed, part)? {
            return Ok(true);
        }
    }
    Ok(false)
}

fn given_does(alloc: Global, deed: &Deed, given: &Given) -> Result<bool, Oom>
    ensures { IfOk result (λ yes. yes ≡ spec.given_does deed.now given.now) }
{
    match given {
        Given::Nothing => Ok(false),
        Given::Text { expression: a, .. } => optional(alloc, deed, a),
        Given::Value(a) => expression(alloc, deed, a),
    }
}

#[tactic(auto, unfolding(razor_rules::specs::TemplateDeeds::attribute_does))]
fn attribute(alloc: Global, deed: &Deed, kind: &AttributeKind) -> Result<bool, Oom>
    ensures { IfOk result (λ yes. yes ≡ spec.attribute_does deed.now kind.now) }
{
    match kind {
        AttributeKind::Mixed { value: parts, .. } => value(alloc, deed, parts.as_slice()),
        AttributeKind::Key(a) => expression(alloc, deed, a),
        AttributeKind::Event { value: a, .. } => expression(alloc, deed, a),
        AttributeKind::Parameter { given, .. } => given_does(alloc, deed, given),
        AttributeKind::Bind { .. } => Ok(false),
        AttributeKind::BindEvent => Ok(false),
        AttributeKind::Context { .. } => Ok(false),
    }
}

fn attributes_do(alloc: Global, deed: &Deed, attributes: &[Attribute]) -> Result<bool, Oom>
    ensures { IfOk result (λ yes. yes ≡ spec.attributes_do deed.now attributes.now) }
{
    for one in attributes {
        if attribute(alloc, deed, &one.kind)? {
            return Ok(true);
        }
    }
    Ok(false)
}

/// Whether one of these nodes does it.
#[cycle(deeds)]
pub fn any(home: &Home<'_>, deed: &Deed, nodes: &[TNode]) -> Result<bool, Oom>
    ensures { IfOk result (λ yes. yes ≡ any_does (map (part_of (home_of home.now)) nodes.now) deed.now) }
{
    for one in nodes {
        if node(home, deed, one)? {
            return Ok(true);
        }
    }
    Ok(false)
}

#[cycle(deeds)]
fn tag(
    home: &Home<'_>,
    deed: &Deed,
    children: &[TNode],
    attributes: &[Attribute],
) -> Result<bool, Oom>
    ensures { IfOk result (λ yes. yes ≡ (spec.attributes_do deed.now attributes.now || any_does (map (part_of (home_of home.now)) children.now) deed.now)) }
{
    if attributes_do(home.alloc, deed, attributes)? {
        return Ok(true);
    }
    any(home, deed, children)
}

#[cycle(deeds)]
#[tactic(auto, using(crate::proofs::DeedLaws::section_does))]
fn section(home: &Home<'_>, deed: &Deed, one: &TSection) -> Result<bool, Oom>
    ensures { IfOk result (λ yes. yes ≡ (part_of_section (home_of home.now) one.now).does deed.now) }
{
    any(home, deed, one.items.as_slice())
}

#[cycle(deeds)]
fn any_section(home: &Home<'_>, deed: &Deed, sections: &[TSection]) -> Result<bool, Oom>
    ensures { IfOk result (λ yes. yes ≡ list_any (λ one. one.does deed.now) (map (part_of_section (home_of home.now)) sections.now)) }
{
    for one in sections {
        if section(home, deed, one)? {
            return Ok(true);
        }
    }
    Ok(false)
}

#[cycle(deeds)]
fn branch(home: &Home<'_>, deed: &Deed, one: &Option<Boxed<TNode>>) -> Result<bool, Oom>
    ensures { IfOk result (λ yes. yes ≡ spec.if_any (λ x. x.does deed.now) (option_map (part_of (home_of home.now)) one.now)) }
{
    match one {
        Some(one) => node(home, deed, one.get()),
        None => Ok(false),
    }
}

#[cycle(deeds)]
fn branches(
    home: &Home<'_>,
    deed: &Deed,
    yes: &TNode,
    no: &Option<Boxed<TNode>>,
    test: &Expr,
) -> Result<bool, Oom>
    ensures { IfOk result (λ it. it ≡ (spec.expression_does deed.now test.now || (part_of (home_of home.now) yes.now).does deed.now
        || spec.if_any (λ x. x.does deed.now) (option_map (part_of (home_of home.now)) no.now))) }
{
    if expression(home.alloc, deed, test)? {
        return Ok(true);
    }
    if node(home, deed, yes)? {
        return Ok(true);
    }
    branch(home, deed, no)
}

#[cycle(deeds)]
fn sections_do(home: &Home<'_>, deed: &Deed, sections: &[TSection], a: &Expr) -> Result<bool, Oom>
    ensures { IfOk result (λ yes. yes ≡ (spec.expression_does deed.now a.now
        || list_any (λ one. one.does deed.now) (map (part_of_section (home_of home.now)) sections.now))) }
{
    if expression(home.alloc, deed, a)? {
        return Ok(true);
    }
    any_section(home, deed, sections)
}

#[cycle(deeds)]
fn for_does(
    home: &Home<'_>,
    deed: &Deed,
    body: &TNode,
    start: &Option<Stmt>,
    test: &Option<Expr>,
    step: &Option<Expr>,
) -> Result<bool, Oom>
    ensures { IfOk result (λ yes. yes ≡ (spec.if_any (spec.statement_does deed.now) start.now || spec.if_any (spec.expression_does deed.now) test.now
        || spec.if_any (spec.expression_does deed.now) step.now || (part_of (home_of home.now) body.now).does deed.now)) }
{
    if start_does(home.alloc, deed, start)? {
        return Ok(true);
    }
    if optional(home.alloc, deed, test)? {
        return Ok(true);
    }
    if optional(home.alloc, deed, step)? {
        return Ok(true);
    }
    node(home, deed, body)
}

#[cycle(deeds)]
fn loop_does(home: &Home<'_>, deed: &Deed, body: &TNode, a: &Expr) -> Result<bool, Oom>
    ensures { IfOk result (λ yes. yes ≡ (spec.expression_does deed.now a.now || (part_of (home_of home.now) body.now).does deed.now)) }
{
    if expression(home.alloc, deed, a)? {
        return Ok(true);
    }
    node(home, deed, body)
}

/// Whether a node does it.
#[cycle(deeds)]
#[tactic(auto, using(crate::proofs::DeedLaws::element_does, crate::proofs::DeedLaws::child_tag_does, crate::proofs::DeedLaws::text_does, crate::proofs::DeedLaws::raw_does, crate::proofs::DeedLaws::content_does, crate::proofs::DeedLaws::group_does, crate::proofs::DeedLaws::statement_node_does, crate::proofs::DeedLaws::block_does, crate::proofs::DeedLaws::if_does, crate::proofs::DeedLaws::switch_does, crate::proofs::DeedLaws::for_does, crate::proofs::DeedLaws::for_each_does, crate::proofs::DeedLaws::while_does))]
pub fn node(home: &Home<'_>, deed: &Deed, one: &TNode) -> Result<bool, Oom>
    ensures { IfOk result (λ yes. yes ≡ (part_of (home_of home.now) one.now).does deed.now) }
{
    match one {
        TNode::Element {
            attributes,
            children,
            ..
        } => tag(home, deed, children.as_slice(), attributes.as_slice()),
        TNode::Child {
            attributes,
            children,
            ..
        } => tag(home, deed, children.as_slice(), attributes.as_slice()),
        TNode::Text { .. } => Ok(false),
        TNode::Raw { .. } => Ok(false),
        TNode::Content { value: a, .. } => expression(home.alloc, deed, a),
        TNode::Group { items, .. } => any(home, deed, items.as_slice()),
        TNode::Statement(one) => statement(home.alloc, deed, one),
        TNode::Block { items, .. } => any(home, deed, items.as_slice()),
        TNode::If {
            condition,
            yes,
            no,
            ..
        } => branches(home, deed, yes.get(), no, condition),
        TNode::Switch {
            value: a,
            sections,
            ..
        } => sections_do(home, deed, sections.as_slice(), a),
        TNode::For {
            start,
            condition,
            step,
            body,
            ..
        } => for_does(home, deed, body.get(), start, condition, step),
        TNode::ForEach { list, body, .. } => loop_does(home, deed, body.get(), list),
        TNode::While {
            condition,
            body,
            ..
        } => loop_does(home, deed, body.get(), condition),
    }
}
