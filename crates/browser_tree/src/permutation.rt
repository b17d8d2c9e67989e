// Permutations of siblings.
ghost use Rattle.std.specs.Prelude.{◌≡◌, ◌==◌, IfOk, slice_get, List, [], ◌∷◌};
ghost use Rattle.std.specs.List.{list_any, insert};
ghost use Rattle.std.specs.Option.{unwrap_or};
ghost use Rattle.edit_meaning.specs.Permutations.{source, moved, is_apart, is_closed};

use crate::copying::copy;
use edit_meaning::{BrowserNode, Entry};
use sqlite_items::{Items, at};
use std::alloc::Global;
use text_core::Oom;

fn source_of(entries: &[Entry], place: usize) -> usize
    ensures { result ≡ source entries.now place }
{
    for entry in entries {
        if entry.to as usize == place {
            return entry.from as usize;
        }
    }
    place
}

fn at_or<'a>(nodes: &'a [BrowserNode], place: usize, node: &'a BrowserNode) -> &'a BrowserNode
    ensures { result.now ≡ unwrap_or (slice_get nodes.now place) node.now }
{
    match at(nodes, place) {
        Some(other) => other,
        None => node,
    }
}

/// The nodes, each at its new place.
pub(crate) fn move_all(
    alloc: Global,
    nodes: &[BrowserNode],
    entries: &[Entry],
) -> Result<Items<BrowserNode>, Oom>
    ensures { IfOk result (λ them. them ≡ moved entries.now nodes.now) }
{
    let mut them = Items::new(alloc);
    for (place, node) in nodes.iter().enumerate() {
        them.push(copy(alloc, at_or(nodes, source_of(entries, place), node))?)?;
    }
    Ok(them)
}

/// Whether no entry has its first place, nor its second one.
pub(crate) fn apart(entry: Entry, entries: &[Entry]) -> bool
    ensures { result ≡ is_apart entry entries.now }
{
    entries.iter().all(|other| !(other.from == entry.from) && !(other.to == entry.to))
}

fn is_second(place: u32, entries: &[Entry]) -> bool
    ensures { result ≡ list_any (λ other. other.to == place) entries.now }
{
    entries.iter().any(|other| other.to == place)
}

/// Whether each first place is a second one.
pub(crate) fn closed(entries: &[Entry]) -> bool
    ensures { result ≡ is_closed entries.now }
{
    entries.iter().all(|entry| is_second(entry.from, entries))
}
