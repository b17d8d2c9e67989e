// What changes between two pages that are alike.
ghost use Rattle.std.specs.Prelude.{◌≡◌, ◌+◌, ◌-◌, ◌^◌, min, option_map};
ghost use Rattle.plain_page.specs.Click.{onclick, click_handler};
ghost use Rattle.plain_page.specs.Changes.{unchanged, together, text_change, element_change, is_same_handler, node_changes, page_changes, capped};

use page_core::{HandlerIds, Node};
use text_core::Txt;

/// What changes between two pages that are alike.
#[derive(Clone, Copy, Debug, PartialEq, Eq)]
pub struct Changed {
    /// Texts that differ.
    pub texts: u32,
    /// Elements in which some text differs, at any depth.
    pub elements: u32,
}

/// The changes of a page to another, or `None` where they are not alike.
#[cycle(changes)]
pub fn changes_of(click: &Txt, before: &[Node], after: &[Node]) -> Option<Changed>
    requires { click.now ≡ onclick }
    ensures { result ≡ option_map capped (page_changes before.now after.now) }
{
    if before.len() != after.len() {
        return None;
    }
    let mut all = Changed {
        texts: 0,
        elements: 0,
    };
    for (i, node) in before.iter().enumerate() {
        all = both(all, changes_of_node(click, node, &after[i])?);
    }
    Some(all)
}

#[cycle(changes)]
#[tactic(auto, using(crate::proofs::ChangeLemmas::capped_inside))]
fn changes_of_node(click: &Txt, before: &Node, after: &Node) -> Option<Changed>
    requires { click.now ≡ onclick }
    ensures { result ≡ option_map capped (node_changes before.now after.now) }
{
    match (before, after) {
        (
            Node::Element {
                born,
                name,
                handlers,
                children,
                ..
            },
            Node::Element {
                born: other_born,
                name: other_name,
                handlers: others,
                children: nodes,
                ..
            },
        ) => {
            if *born != *other_born {
                return None;
            }
            if name != other_name {
                return None;
            }
            if !has_same_handler(click, handlers, others) {
                return None;
            }
            let inside = changes_of(click, children.as_slice(), nodes.as_slice())?;
            Some(gone_into(inside))
        }
        (
            Node::Text { born, text },
            Node::Text {
                born: other_born,
                text: other,
            },
        ) => {
            if *born != *other_born {
                return None;
            }
            Some(change_of_text(text, other))
        }
        _ => None,
    }
}

fn has_same_handler(click: &Txt, handlers: &HandlerIds, others: &HandlerIds) -> bool
    requires { click.now ≡ onclick }
    ensures { result ≡ is_same_handler (click_handler handlers.now) (click_handler others.now) }
{
    match (handlers.get(click), others.get(click)) {
        (None, None) => true,
        (Some(id), Some(other)) => *id == *other,
        (None, Some(_)) => false,
        (Some(_), None) => false,
    }
}

fn change_of_text(before: &Txt, after: &Txt) -> Changed
    ensures { result ≡ text_change before.now after.now }
{
    if before == after {
        Changed {
            texts: 0,
            elements: 0,
        }
    } else {
        Changed {
            texts: 1,
            elements: 0,
        }
    }
}

fn gone_into(inside: Changed) -> Changed
    ensures { result ≡ capped (element_change inside) }
{
    if inside.texts == 0 {
        inside
    } else {
        Changed {
            texts: inside.texts,
            elements: inside.elements.saturating_add(1),
        }
    }
}

fn both(one: Changed, other: Changed) -> Changed
    ensures { result ≡ capped (together one other) }
{
    Changed {
        texts: one.texts.saturating_add(other.texts),
        elements: one.elements.saturating_add(other.elements),
    }
}
