// Batches written in words: `|` parts batches, `;` parts edits, and a blank the words of an edit.
// `@2` begins the list of component 2, and `~2` disposes it; the edits before the first `@` are of component 1.
use browser_tree::Browser;
use frame_core::{Batch, Edit, EditList, WireAttribute, WireNode, WireValue};
use page_core::{ApplyFault, Counts};
use sqlite_items::Items;
use std::alloc::Global;
use std::test::Fail;
use text_core::{Txt, read_i32};

fn number(alloc: Global, word: &str) -> Result<u32, Fail> {
    let word = Txt::from_str(alloc, word)?;
    Ok(read_i32(&word).map_or(0, |number| number.unsigned_abs()))
}

fn value(alloc: Global, word: &str) -> Result<WireValue, Fail> {
    Ok(match word.strip_prefix("#") {
        Some(id) => WireValue::Handler(u64::from(number(alloc, id)?)),
        None => WireValue::Text(Txt::from_str(alloc, word)?),
    })
}

fn node(alloc: Global, kind: &str, word: &str) -> Result<Option<WireNode>, Fail> {
    Ok(match kind {
        "element" => Some(WireNode::Element {
            name: Txt::from_str(alloc, word)?,
            attributes: Items::new(alloc),
            children: Items::new(alloc),
        }),
        "text" => Some(WireNode::Text(Txt::from_str(alloc, word)?)),
        "markup" => Some(WireNode::Markup(Txt::from_str(alloc, word)?)),
        "component" => Some(WireNode::Component(number(alloc, word)?)),
        _ => None,
    })
}

fn change(alloc: Global, kind: &str, sibling: u32, word: &str, last: &str) -> Result<Edit, Fail> {
    let text = Txt::from_str(alloc, word)?;
    Ok(match kind {
        "remove" => Edit::Remove { sibling },
        "set" => Edit::Set {
            sibling,
            attribute: WireAttribute {
                name: text,
                value: value(alloc, last)?,
            },
        },
        "unset" => Edit::Unset {
            sibling,
            name: text,
        },
        "say" => Edit::UpdateText { sibling, text },
        "raw" => Edit::UpdateMarkup { sibling, text },
        "in" => Edit::StepIn { sibling },
        "out" => Edit::StepOut,
        "move" => Edit::Move {
            from: sibling,
            to: number(alloc, word)?,
        },
        _ => Edit::MoveEnd,
    })
}

fn edit(alloc: Global, words: &str) -> Result<Edit, Fail> {
    let mut words = words.split(' ');
    let kind = words.next().unwrap_or("");
    let sibling = number(alloc, words.next().unwrap_or(""))?;
    let word = words.next().unwrap_or("");
    let last = words.next().unwrap_or("");
    match node(alloc, kind, word)? {
        Some(node) => Ok(Edit::Prepend { sibling, node }),
        None => change(alloc, kind, sibling, word, last),
    }
}

/// The batch of these words.
fn batch(alloc: Global, words: &str) -> Result<Option<Batch>, Fail> {
    let mut lists = Items::new(alloc);
    let mut component = 1;
    let mut edits = Items::new(alloc);
    let mut disposed = Items::new(alloc);
    for part in words.split(';') {
        let part = part.trim();
        if let Some(word) = part.strip_prefix("@") {
            lists.push(EditList { component, edits })?;
            component = number(alloc, word)?;
            edits = Items::new(alloc);
        } else if let Some(word) = part.strip_prefix("~") {
            disposed.push(number(alloc, word)?)?;
        } else if !part.is_empty() {
            edits.push(edit(alloc, part)?)?;
        }
    }
    lists.push(EditList { component, edits })?;
    Ok(Batch::of(lists, disposed, Items::new(alloc)))
}

/// Applies the batches of these words, from number 1 on; what the last that was applied answered.
pub fn apply(
    alloc: Global,
    browser: &mut Browser,
    script: &str,
) -> Result<Result<Counts, ApplyFault>, Fail> {
    let mut answer = Err(ApplyFault::Oom);
    for (words, number) in script.split('|').zip(1..=u64::MAX) {
        let Some(batch) = batch(alloc, words)? else {
            return Ok(Err(ApplyFault::Oom));
        };
        answer = browser.apply_batch(number, &batch);
        if answer.is_err() {
            return Ok(answer);
        }
    }
    Ok(answer)
}
