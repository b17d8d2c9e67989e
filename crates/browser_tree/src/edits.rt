// What each edit makes of the siblings that it acts on.
ghost use Rattle.std.specs.Prelude.{◌≡◌, Result, Ok, Err};
ghost use Rattle.frame_core.specs.declared.edit.Edit.TheVariants as edit;
ghost use Rattle.edit_meaning.specs.Edits.{acted, goes_on, edited, all_edited};
ghost use Rattle.browser_tree.specs.Answers.{Gives};
ghost use Rattle.browser_tree.specs.Standing.{focus_of, Puts};

use crate::component_tree::add_all;
use crate::focus::{Focus, inserted};
use crate::making::{add_components, make};
use crate::nodes::{set_attribute, set_markup, set_text, unset_attribute};
use crate::permutation::{apart, closed, move_all};
use edit_meaning::{BrowserNode, Entry, Level};
use frame_core::{Edit, WireAttribute, WireNode};
use page_core::ApplyFault;
use sqlite_items::Items;
use std::alloc::Global;
use text_core::Txt;

fn prepend(
    alloc: Global,
    batch: u64,
    sibling: u32,
    wire: &WireNode,
    focus: Focus,
) -> Result<Focus, ApplyFault>
    ensures { Gives focus_of result (acted batch (edit.Prepend sibling wire.now) (focus_of focus)) }
{
    let Focus {
        here,
        above,
        entries,
        tree,
    } = focus;
    let mut numbers = Items::new(alloc);
    add_components(&mut numbers, wire)?;
    let tree = add_all(alloc, tree, numbers.as_slice())?;
    if here.len() < sibling as usize {
        return Err(ApplyFault::NoSibling);
    }
    let here = inserted(alloc, here, sibling as usize, make(alloc, batch, wire)?)?;
    Ok(Focus {
        here,
        above,
        entries,
        tree,
    })
}

fn remove(batch: u64, sibling: u32, focus: Focus) -> Result<Focus, ApplyFault>
    ensures { Gives focus_of result (acted batch (edit.Remove sibling) (focus_of focus)) }
{
    let mut focus = focus;
    if sibling as usize >= focus.here.len() {
        return Err(ApplyFault::NoSibling);
    }
    let _ = focus.here.remove(sibling as usize);
    Ok(focus)
}

/// The focus with a node put in at a place.
fn put_in(alloc: Global, sibling: u32, node: BrowserNode, focus: Focus) -> Result<Focus, ApplyFault>
    ensures { Puts sibling node focus result }
{
    let Focus {
        here,
        above,
        entries,
        tree,
    } = focus;
    let here = inserted(alloc, here, sibling as usize, node)?;
    Ok(Focus {
        here,
        above,
        entries,
        tree,
    })
}

fn set(
    alloc: Global,
    batch: u64,
    sibling: u32,
    attribute: &WireAttribute,
    focus: Focus,
) -> Result<Focus, ApplyFault>
    ensures { Gives focus_of result (acted batch (edit.Set sibling attribute.now) (focus_of focus)) }
{
    let mut focus = focus;
    if sibling as usize >= focus.here.len() {
        return Err(ApplyFault::NoSibling);
    }
    let node = set_attribute(focus.here.remove(sibling as usize), attribute)?;
    put_in(alloc, sibling, node, focus)
}

fn unset(
    alloc: Global,
    batch: u64,
    sibling: u32,
    name: &Txt,
    focus: Focus,
) -> Result<Focus, ApplyFault>
    ensures { Gives focus_of result (acted batch (edit.Unset sibling name.now) (focus_of focus)) }
{
    let mut focus = focus;
    if sibling as usize >= focus.here.len() {
        return Err(ApplyFault::NoSibling);
    }
    let node = unset_attribute(focus.here.remove(sibling as usize), name)?;
    put_in(alloc, sibling, node, focus)
}

fn update_text(
    alloc: Global,
    batch: u64,
    sibling: u32,
    text: &Txt,
    focus: Focus,
) -> Result<Focus, ApplyFault>
    ensures { Gives focus_of result (acted batch (edit.UpdateText sibling text.now) (focus_of focus)) }
{
    let mut focus = focus;
    if sibling as usize >= focus.here.len() {
        return Err(ApplyFault::NoSibling);
    }
    let node = set_text(focus.here.remove(sibling as usize), text)?;
    put_in(alloc, sibling, node, focus)
}

fn update_markup(
    alloc: Global,
    batch: u64,
    sibling: u32,
    text: &Txt,
    focus: Focus,
) -> Result<Focus, ApplyFault>
    ensures { Gives focus_of result (acted batch (edit.UpdateMarkup sibling text.now) (focus_of focus)) }
{
    let mut focus = focus;
    if sibling as usize >= focus.here.len() {
        return Err(ApplyFault::NoSibling);
    }
    let node = set_markup(focus.here.remove(sibling as usize), text)?;
    put_in(alloc, sibling, node, focus)
}

fn step_in(batch: u64, sibling: u32, focus: Focus) -> Result<Focus, ApplyFault>
    ensures { Gives focus_of result (acted batch (edit.StepIn sibling) (focus_of focus)) }
{
    let Focus {
        here,
        above,
        entries,
        tree,
    } = focus;
    let mut siblings = here;
    let mut above = above;
    if sibling as usize >= siblings.len() {
        return Err(ApplyFault::NoSibling);
    }
    match siblings.remove(sibling as usize) {
        BrowserNode::Element {
            born,
            name,
            names,
            children,
        } => {
            above.push(Level {
                siblings,
                place: sibling,
                born,
                name,
                names,
            })?;
            Ok(Focus {
                here: children,
                above,
                entries,
                tree,
            })
        }
        BrowserNode::Text { .. } => Err(ApplyFault::NotElement),
        BrowserNode::Markup { .. } => Err(ApplyFault::NotElement),
        BrowserNode::Component(_) => Err(ApplyFault::NotElement),
    }
}

fn step_out(alloc: Global, batch: u64, focus: Focus) -> Result<Focus, ApplyFault>
    ensures { Gives focus_of result (acted batch edit.StepOut (focus_of focus)) }
{
    let Focus {
        here,
        above,
        entries,
        tree,
    } = focus;
    let mut above = above;
    match above.pop() {
        None => Err(ApplyFault::Unbalanced),
        Some(
            Level {
                siblings,
                place,
                born,
                name,
                names,
            },
        ) => {
            let element = BrowserNode::Element {
                born,
                name,
                names,
                children: here,
            };
            Ok(Focus {
                here: inserted(alloc, siblings, place as usize, element)?,
                above,
                entries,
                tree,
            })
        }
    }
}

fn move_one(batch: u64, entry: Entry, focus: Focus) -> Result<Focus, ApplyFault>
    ensures { Gives focus_of result (acted batch (edit.Move entry.from entry.to) (focus_of focus)) }
{
    let mut focus = focus;
    if entry.from as usize >= focus.here.len() {
        return Err(ApplyFault::NoSibling);
    }
    if entry.to as usize >= focus.here.len() {
        return Err(ApplyFault::NoSibling);
    }
    if !apart(entry, focus.entries.as_slice()) {
        return Err(ApplyFault::BadPermutation);
    }
    focus.entries.push(entry)?;
    Ok(focus)
}

fn end_moves(alloc: Global, batch: u64, focus: Focus) -> Result<Focus, ApplyFault>
    ensures { Gives focus_of result (acted batch edit.MoveEnd (focus_of focus)) }
{
    let Focus {
        here,
        above,
        entries,
        tree,
    } = focus;
    if !closed(entries.as_slice()) {
        return Err(ApplyFault::BadPermutation);
    }
    Ok(Focus {
        here: move_all(alloc, here.as_slice(), entries.as_slice())?,
        above,
        entries: Items::new(alloc),
        tree,
    })
}

fn act(alloc: Global, batch: u64, edit: &Edit, focus: Focus) -> Result<Focus, ApplyFault>
    ensures { Gives focus_of result (acted batch edit.now (focus_of focus)) }
{
    match edit {
        Edit::Prepend { sibling, node } => prepend(alloc, batch, *sibling, node, focus),
        Edit::Remove { sibling } => remove(batch, *sibling, focus),
        Edit::Set { sibling, attribute } => set(alloc, batch, *sibling, attribute, focus),
        Edit::Unset { sibling, name } => unset(alloc, batch, *sibling, name, focus),
        Edit::UpdateText { sibling, text } => update_text(alloc, batch, *sibling, text, focus),
        Edit::StepIn { sibling } => step_in(batch, *sibling, focus),
        Edit::StepOut => step_out(alloc, batch, focus),
        Edit::UpdateMarkup { sibling, text } => update_markup(alloc, batch, *sibling, text, focus),
        Edit::Move { from, to } => move_one(
            batch,
            Entry {
                from: *from,
                to: *to,
            },
            focus,
        ),
        Edit::MoveEnd => end_moves(alloc, batch, focus),
    }
}

/// Whether the edit may stand there: only an entry goes on with an open permutation, and only its end ends it.
fn may_stand(edit: &Edit, entries: &[Entry]) -> bool
    ensures { result ≡ goes_on edit.now entries.now }
{
    match edit {
        Edit::Move { .. } => true,
        Edit::MoveEnd => true,
        Edit::Prepend { .. } => entries.is_empty(),
        Edit::Remove { .. } => entries.is_empty(),
        Edit::Set { .. } => entries.is_empty(),
        Edit::Unset { .. } => entries.is_empty(),
        Edit::UpdateText { .. } => entries.is_empty(),
        Edit::StepIn { .. } => entries.is_empty(),
        Edit::StepOut => entries.is_empty(),
        Edit::UpdateMarkup { .. } => entries.is_empty(),
    }
}

fn step(alloc: Global, batch: u64, edit: &Edit, focus: Focus) -> Result<Focus, ApplyFault>
    ensures { Gives focus_of result (edited batch edit.now (focus_of focus)) }
{
    if !may_stand(edit, focus.entries.as_slice()) {
        return Err(ApplyFault::BadPermutation);
    }
    act(alloc, batch, edit, focus)
}

/// One edit after the other.
#[tactic(auto, using(crate::proofs::AnswerLemmas::fails_all, crate::proofs::AnswerLemmas::goes_all))]
pub(crate) fn edit_all(
    alloc: Global,
    batch: u64,
    edits: &[Edit],
    focus: Focus,
) -> Result<Focus, ApplyFault>
    ensures { Gives focus_of result (all_edited batch edits.now (focus_of focus)) }
{
    let mut focus = focus;
    for edit in edits {
        focus = step(alloc, batch, edit, focus)?;
    }
    Ok(focus)
}
