// The tags whose keys are those of turns.
ghost use Rattle.std.specs.Prelude.{◌≡◌, map};
ghost use Rattle.std.specs.List.{list_any};
ghost use Rattle.page_meaning.specs.Parts as spec;

use razor_ast::{Attribute, AttributeKind, TNode};

fn is_key(kind: &AttributeKind) -> bool
    ensures { result ≡ spec.is_key kind.now }
{
    match kind {
        AttributeKind::Key(_) => true,
        AttributeKind::Mixed { .. } => false,
        AttributeKind::Event { .. } => false,
        AttributeKind::Bind { .. } => false,
        AttributeKind::BindEvent => false,
        AttributeKind::Parameter { .. } => false,
        AttributeKind::Context { .. } => false,
    }
}

fn has_key(attributes: &[Attribute]) -> bool
    ensures { result ≡ list_any (λ one. spec.is_key one.kind) attributes.now }
{
    for one in attributes {
        if is_key(&one.kind) {
            return true;
        }
    }
    false
}

/// The number of a tag, if it has a key.
fn keyed_tag(number: u32, attributes: &[Attribute]) -> Option<u32>
    ensures { result ≡ spec.keyed_tag number attributes.now }
{
    if has_key(attributes) {
        Some(number)
    } else {
        None
    }
}

/// The number of a node that is a tag with a key.
#[tactic(auto, using(crate::proofs::PartLaws::element_keyed, crate::proofs::PartLaws::child_keyed, crate::proofs::PartLaws::text_keyed, crate::proofs::PartLaws::raw_keyed, crate::proofs::PartLaws::content_keyed, crate::proofs::PartLaws::group_keyed, crate::proofs::PartLaws::statement_keyed, crate::proofs::PartLaws::block_keyed, crate::proofs::PartLaws::if_keyed, crate::proofs::PartLaws::switch_keyed, crate::proofs::PartLaws::for_keyed, crate::proofs::PartLaws::for_each_keyed, crate::proofs::PartLaws::while_keyed))]
fn keyed(node: &TNode) -> Option<u32>
    ensures { result ≡ (spec.part_of node.now).keyed }
{
    match node {
        TNode::Element {
            number,
            attributes,
            ..
        } => keyed_tag(*number, attributes.as_slice()),
        TNode::Child {
            number,
            attributes,
            ..
        } => keyed_tag(*number, attributes.as_slice()),
        TNode::Text { .. } => None,
        TNode::Raw { .. } => None,
        TNode::Content { .. } => None,
        TNode::Group { .. } => None,
        TNode::Statement(_) => None,
        TNode::Block { .. } => None,
        TNode::If { .. } => None,
        TNode::Switch { .. } => None,
        TNode::For { .. } => None,
        TNode::ForEach { .. } => None,
        TNode::While { .. } => None,
    }
}

/// The first tag with a key directly among nodes.
fn first_keyed(nodes: &[TNode]) -> Option<u32>
    ensures { result ≡ spec.first_keyed (map spec.part_of nodes.now) }
{
    for one in nodes {
        if let Some(number) = keyed(one) {
            return Some(number);
        }
    }
    None
}

/// The number of the tag whose key is that of a turn with this body.
#[tactic(auto, using(crate::proofs::PartLaws::element_turn_key, crate::proofs::PartLaws::child_turn_key, crate::proofs::PartLaws::text_turn_key, crate::proofs::PartLaws::raw_turn_key, crate::proofs::PartLaws::content_turn_key, crate::proofs::PartLaws::group_turn_key, crate::proofs::PartLaws::statement_turn_key, crate::proofs::PartLaws::block_turn_key, crate::proofs::PartLaws::if_turn_key, crate::proofs::PartLaws::switch_turn_key, crate::proofs::PartLaws::for_turn_key, crate::proofs::PartLaws::for_each_turn_key, crate::proofs::PartLaws::while_turn_key))]
pub fn turn_key(body: &TNode) -> Option<u32>
    ensures { result ≡ (spec.part_of body.now).turn_key }
{
    match body {
        TNode::Block { items, .. } => first_keyed(items.as_slice()),
        TNode::Element { .. } => None,
        TNode::Child { .. } => None,
        TNode::Text { .. } => None,
        TNode::Raw { .. } => None,
        TNode::Content { .. } => None,
        TNode::Group { .. } => None,
        TNode::Statement(_) => None,
        TNode::If { .. } => None,
        TNode::Switch { .. } => None,
        TNode::For { .. } => None,
        TNode::ForEach { .. } => None,
        TNode::While { .. } => None,
    }
}
