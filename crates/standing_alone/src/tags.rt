// Tags of components in templates.
ghost use Rattle.std.specs.Prelude.{◌≡◌, map};
ghost use Rattle.std.specs.List.{list_any};
ghost use Rattle.standing_alone.specs.Tags.{any_of, has_tag, section_has_tag, some_has_tag};

use razor_ast::{TNode, TSection};
use sqlite_items::Boxed;

#[cycle(tags)]
fn some_has_tag(node: &Option<Boxed<TNode>>) -> bool
    ensures { result ≡ some_has_tag node.now }
{
    match node {
        Some(node) => has_tag(node.get()),
        None => false,
    }
}

#[cycle(tags)]
fn section_has_tag(section: &TSection) -> bool
    ensures { result ≡ section_has_tag section.now }
{
    any_tag(section.items.as_slice())
}

#[cycle(tags)]
fn any_section(sections: &[TSection]) -> bool
    ensures { result ≡ any_of (map section_has_tag sections.now) }
{
    for section in sections {
        if section_has_tag(section) {
            return true;
        }
    }
    false
}

/// Whether a part of a template is a tag of a component, or has one in it.
#[cycle(tags)]
fn has_tag(node: &TNode) -> bool
    ensures { result ≡ has_tag node.now }
{
    match node {
        TNode::Child { .. } => true,
        TNode::Element { children, .. } => any_tag(children.as_slice()),
        TNode::Group { items, .. } => any_tag(items.as_slice()),
        TNode::Block { items, .. } => any_tag(items.as_slice()),
        TNode::If { yes, no, .. } => {
            if has_tag(yes.get()) {
                return true;
            }
            some_has_tag(no)
        }
        TNode::Switch { sections, .. } => any_section(sections.as_slice()),
        TNode::For { body, .. } => has_tag(body.get()),
        TNode::ForEach { body, .. } => has_tag(body.get()),
        TNode::While { body, .. } => has_tag(body.get()),
        TNode::Text { .. } => false,
        TNode::Raw { .. } => false,
        TNode::Content { .. } => false,
        TNode::Statement(_) => false,
    }
}

/// Whether one of these parts does.
#[cycle(tags)]
pub fn any_tag(nodes: &[TNode]) -> bool
    ensures { result ≡ any_of (map has_tag nodes.now) }
{
    for node in nodes {
        if has_tag(node) {
            return true;
        }
    }
    false
}
