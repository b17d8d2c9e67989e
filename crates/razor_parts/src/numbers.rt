// How many numbers bodies and templates take.
ghost use Rattle.std.specs.Prelude.{◌≡◌, ◌+◌, IfOk, map, sum, option_map};
ghost use Rattle.razor_rules.specs.Numbers as spec;

use razor_ast::{Attribute, AttributeKind, Component, TNode, TSection};
use sqlite_items::Boxed;
use text_core::Oom;

pub fn plus(a: u32, b: u32) -> Result<u32, Oom>
    ensures { IfOk result (λ n. n ≡ a + b) }
{
    a.checked_add(b).ok_or(Oom)
}

#[tactic(auto, unfolding(razor_rules::specs::Numbers::numbers_of_kind))]
fn of_attribute(kind: &AttributeKind) -> u32
    ensures { result ≡ spec.numbers_of_kind kind.now }
{
    match kind {
        AttributeKind::Key(_) | AttributeKind::BindEvent => 0,
        AttributeKind::Bind { .. } => 2,
        AttributeKind::Mixed { .. }
        | AttributeKind::Event { .. }
        | AttributeKind::Parameter { .. }
        | AttributeKind::Context { .. } => 1,
    }
}

fn of_attributes(attributes: &[Attribute]) -> Result<u32, Oom>
    ensures { IfOk result (λ n. n ≡ sum (map (λ one. spec.numbers_of_kind one.kind) attributes.now)) }
{
    let mut all = 0;
    for one in attributes {
        all = plus(all, of_attribute(&one.kind))?;
    }
    Ok(all)
}

#[cycle(numbers)]
fn of_nodes(nodes: &[TNode]) -> Result<u32, Oom>
    ensures { IfOk result (λ n. n ≡ sum (map spec.numbers_of nodes.now)) }
{
    let mut all = 0;
    for one in nodes {
        all = plus(all, of_node(one)?)?;
    }
    Ok(all)
}

#[cycle(numbers)]
fn of_tag(children: &[TNode], attributes: &[Attribute]) -> Result<u32, Oom>
    ensures { IfOk result (λ n. n ≡ spec.numbers_of_tag attributes.now (map spec.numbers_of children.now)) }
{
    let own = plus(1, of_attributes(attributes)?)?;
    plus(own, of_nodes(children)?)
}

#[cycle(numbers)]
fn of_loop(body: &TNode) -> Result<u32, Oom>
    ensures { IfOk result (λ n. n ≡ 1 + spec.numbers_of body.now) }
{
    plus(1, of_node(body)?)
}

#[cycle(numbers)]
#[tactic(auto, using(crate::proofs::NumberLaws::section_numbered))]
fn of_section(section: &TSection) -> Result<u32, Oom>
    ensures { IfOk result (λ n. n ≡ spec.numbers_of_section section.now) }
{
    of_nodes(section.items.as_slice())
}

#[cycle(numbers)]
fn of_sections(all: &[TSection]) -> Result<u32, Oom>
    ensures { IfOk result (λ n. n ≡ sum (map spec.numbers_of_section all.now)) }
{
    let mut sum = 0;
    for section in all {
        sum = plus(sum, of_section(section)?)?;
    }
    Ok(sum)
}

#[cycle(numbers)]
fn of_branch(one: &Option<Boxed<TNode>>) -> Result<u32, Oom>
    ensures { IfOk result (λ n. n ≡ spec.if_any (option_map spec.numbers_of one.now)) }
{
    match one {
        Some(one) => of_node(one.get()),
        None => Ok(0),
    }
}

#[cycle(numbers)]
fn of_branches(yes: &TNode, no: &Option<Boxed<TNode>>) -> Result<u32, Oom>
    ensures { IfOk result (λ n. n ≡ spec.numbers_of yes.now + spec.if_any (option_map spec.numbers_of no.now)) }
{
    let first = of_node(yes)?;
    plus(first, of_branch(no)?)
}

#[cycle(numbers)]
#[tactic(auto, using(crate::proofs::NumberLaws::element_numbered, crate::proofs::NumberLaws::child_numbered, crate::proofs::NumberLaws::text_numbered, crate::proofs::NumberLaws::raw_numbered, crate::proofs::NumberLaws::content_numbered, crate::proofs::NumberLaws::group_numbered, crate::proofs::NumberLaws::statement_numbered, crate::proofs::NumberLaws::block_numbered, crate::proofs::NumberLaws::if_numbered, crate::proofs::NumberLaws::switch_numbered, crate::proofs::NumberLaws::for_numbered, crate::proofs::NumberLaws::for_each_numbered, crate::proofs::NumberLaws::while_numbered))]
fn of_node(node: &TNode) -> Result<u32, Oom>
    ensures { IfOk result (λ n. n ≡ spec.numbers_of node.now) }
{
    match node {
        TNode::Element {
            attributes,
            children,
            ..
        } => of_tag(children.as_slice(), attributes.as_slice()),
        TNode::Child {
            attributes,
            children,
            ..
        } => of_tag(children.as_slice(), attributes.as_slice()),
        TNode::Text { .. } => Ok(1),
        TNode::Raw { .. } => Ok(1),
        TNode::Content { .. } => Ok(1),
        TNode::Group { items, .. } => of_nodes(items.as_slice()),
        TNode::Statement(_) => Ok(0),
        TNode::Block { items, .. } => of_nodes(items.as_slice()),
        TNode::If { yes, no, .. } => of_branches(yes.get(), no),
        TNode::Switch { sections, .. } => of_sections(sections.as_slice()),
        TNode::For { body, .. } => of_loop(body.get()),
        TNode::ForEach { body, .. } => of_loop(body.get()),
        TNode::While { body, .. } => of_loop(body.get()),
    }
}

/// The number behind those of a component that begin with this one.
pub fn behind(first: u32, component: &Component) -> Result<u32, Oom>
    ensures { IfOk result (λ n. n ≡ first + spec.span component.now) }
{
    let members = u32::try_from(component.members.len()).map_err(|_| Oom)?;
    let own = plus(members, of_nodes(component.nodes.as_slice())?)?;
    plus(first, own)
}
