// What a batch makes of a page.
ghost use Rattle.std.specs.Prelude.{◌≡◌, ◌≤◌, List, length, IsTrue};
ghost use Rattle.page_core.specs.declared.node.Node.{Node};
ghost use Rattle.plain_page.specs.Click.{onclick};
ghost use Rattle.plain_page.specs.Plain.{are_plain};
ghost use Rattle.plain_page.specs.Spelling.{spelled_nodes};
ghost use Rattle.plain_page.specs.Turning.{is_born, are_born, counts_of_nodes, counts_of_changes, counts_between};

use crate::changes::{Changed, changes_of};
use page_core::{Counts, Node};
use text_core::Txt;

/// Whether the nodes and all in them are born with that batch.
#[cycle(born)]
fn are_born(number: u64, nodes: &[Node]) -> bool
    ensures { result ≡ are_born number nodes.now }
{
    for node in nodes {
        if !is_born(number, node) {
            return false;
        }
    }
    true
}

#[cycle(born)]
fn is_born(number: u64, node: &Node) -> bool
    ensures { result ≡ is_born number node.now }
{
    match node {
        Node::Element { born, children, .. } => {
            if *born != number {
                return false;
            }
            are_born(number, children.as_slice())
        }
        Node::Text { born, .. } => *born == number,
        Node::Markup { born, .. } => *born == number,
    }
}

fn counts_of_nodes(nodes: u32) -> Counts
    ensures { (all : List Node) → length all ≡ nodes → result ≡ counts_of_nodes all }
{
    Counts {
        prepend: nodes,
        remove: 0,
        set: 0,
        unset: 0,
        text: 0,
        step_in: 0,
        step_out: 0,
        markup: 0,
        moves: 0,
        ends: 0,
    }
}

fn counts_of_changes(changes: Changed) -> Counts
    ensures { result ≡ counts_of_changes changes }
{
    Counts {
        prepend: 0,
        remove: 0,
        set: 0,
        unset: 0,
        text: changes.texts,
        step_in: changes.elements,
        step_out: changes.elements,
        markup: 0,
        moves: 0,
        ends: 0,
    }
}

/// The counts of the batch of this number that takes one page to the other, or `None` where no batch does.
pub(crate) fn counts_between(
    click: &Txt,
    number: u64,
    before: &[Node],
    after: &[Node],
) -> Option<Counts>
    requires name { click.now ≡ onclick }
    requires plain { IsTrue (are_plain after.now) }
    requires few { length (spelled_nodes after.now) ≤ 33554368 }
    ensures { result ≡ counts_between number before.now after.now }
{
    if before.is_empty() {
        if !are_born(number, after) {
            return None;
        }
        return Some(counts_of_nodes(after.len() as u32));
    }
    let changes = changes_of(click, before, after)?;
    Some(counts_of_changes(changes))
}
