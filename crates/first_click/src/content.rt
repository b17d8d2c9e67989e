// From the parts of content to the tree that they spell.
ghost use Rattle.std.specs.Prelude.{◌≡◌, [], Some, IfOk, MatchOption};
ghost use Rattle.std.specs.List.{list_all};
ghost use Rattle.std.specs.Option.{option_map};
ghost use Rattle.first_click.specs.Characters.{is_white};
ghost use Rattle.first_click.specs.Content.{is_blank, without_first_blank, without_last_blank, trimmed, Spelled, SpellsTree};
ghost use Rattle.first_click.specs.Reading.Content.{begins_blank, ends_blank, state_of, with_item, started, ended, taken, finished, built};

use super::component::{Field, Item, has_field};
use super::names::is_element_name;
use super::parts::Part;
use sqlite_items::Items;
use std::alloc::Global;
use text_core::{Oom, Txt};

/// How deep elements may be nested.
const DEPTH: usize = 100;

fn is_white_space(character: char) -> bool
    ensures { result ≡ is_white character }
{
    matches!(character, ' ' | '\t' | '\n' | '\r')
}

/// Whether the text is of white space alone.
fn is_white_text(text: &Txt) -> bool
    ensures { result ≡ list_all is_white text.now }
{
    text.as_str().chars().all(is_white_space)
}

/// Whether the item is a literal text of white space alone.
fn is_blank(item: &Item) -> bool
    ensures { result ≡ is_blank item.now }
{
    match item {
        Item::Literal { text } => is_white_text(text),
        Item::Element { .. } | Item::Shown { .. } => false,
    }
}

fn begins_blank(items: &[Item]) -> bool
    ensures { result ≡ begins_blank items.now }
{
    match items {
        [] => false,
        [first, ..] => is_blank(first),
    }
}

fn ends_blank(items: &[Item]) -> bool
    ensures { result ≡ ends_blank items.now }
{
    match items {
        [] => false,
        [.., last] => is_blank(last),
    }
}

fn drop_first_blank(items: &mut Items<Item>)
    ensures { items.new ≡ without_first_blank items.old }
{
    if begins_blank(items.as_slice()) {
        items.remove(0);
    }
}

fn drop_last_blank(items: &mut Items<Item>)
    ensures { items.new ≡ without_last_blank items.old }
{
    if ends_blank(items.as_slice()) {
        items.remove(items.len() - 1);
    }
}

/// Drops a literal text of white space alone at the front and at the end.
fn trim(items: &mut Items<Item>)
    ensures { items.new ≡ trimmed items.old }
{
    drop_first_blank(items);
    drop_last_blank(items);
}

/// An element whose end tag has not come yet, and the items before it.
#[derive(Debug, Drop)]
struct Unclosed {
    name: Txt,
    handler: Option<u64>,
    before: Items<Item>,
}

/// Makes a tree of parts: the elements that are still open, the innermost last, and the items so far.
#[derive(Debug, Drop)]
struct Builder {
    outer: Vec<Unclosed>,
    items: Items<Item>,
}

impl Builder {
    fn with_item(self, item: Item) -> Result<Option<Self>, Oom>
        ensures { IfOk result (λ found. option_map state_of found ≡ Some (with_item (state_of self) item)) }
    {
        let Builder { outer, mut items } = self;
        items.push(item)?;
        Ok(Some(Builder { outer, items }))
    }

    #[tactic(auto, unfolding(crate::specs::Reading::Content::started))]
    fn started(self, alloc: Global, name: Txt, handler: Option<u64>) -> Result<Option<Self>, Oom>
        ensures { IfOk result (λ found. option_map state_of found ≡ started (state_of self) name handler) }
    {
        let Builder { mut outer, items } = self;
        if outer.len() >= DEPTH {
            return Ok(None);
        }
        if !is_element_name(&name) {
            return Ok(None);
        }
        outer.push(Unclosed {
            name,
            handler,
            before: items,
        })?;
        Ok(Some(Builder {
            outer,
            items: Items::new(alloc),
        }))
    }

    #[tactic(auto, unfolding(crate::specs::Reading::Content::ended))]
    fn ended(self, name: &Txt) -> Result<Option<Self>, Oom>
        ensures { IfOk result (λ found. option_map state_of found ≡ ended (state_of self).0 (state_of self).1 name.now) }
    {
        let Builder {
            mut outer,
            mut items,
        } = self;
        let Some(
            Unclosed {
                name: opened,
                handler,
                mut before,
            },
        ) = outer.pop()
        else {
            return Ok(None);
        };
        if opened != *name {
            return Ok(None);
        }
        trim(&mut items);
        before.push(Item::Element {
            name: opened,
            handler,
            children: items,
        })?;
        Ok(Some(Builder {
            outer,
            items: before,
        }))
    }

    /// The builder behind one more part, if the part may stand there.
    #[tactic(auto, unfolding(crate::specs::Reading::Content::taken))]
    fn taken(self, alloc: Global, fields: &[Field], part: &Part) -> Result<Option<Self>, Oom>
        ensures { IfOk result (λ found. option_map state_of found ≡ taken fields.now (state_of self) part.now) }
    {
        match part {
            Part::Start { name, handler } => self.started(alloc, name.clone()?, *handler),
            Part::End { name } => self.ended(name),
            Part::Literal { text } => self.with_item(Item::Literal {
                text: text.clone()?,
            }),
            Part::Shown { name } => {
                if !has_field(fields, name) {
                    return Ok(None);
                }
                self.with_item(Item::Shown {
                    field: name.clone()?,
                })
            }
        }
    }

    /// The items, where every element is closed.
    fn finished(self) -> Option<Items<Item>>
        ensures { result ≡ finished (state_of self) }
    {
        let Builder { outer, mut items } = self;
        if !outer.is_empty() {
            return None;
        }
        trim(&mut items);
        Some(items)
    }
}

/// The builder behind all the parts, if they fit.
fn build(alloc: Global, fields: &[Field], parts: &[Part]) -> Result<Option<Builder>, Oom>
    ensures { IfOk result
        (λ found. option_map state_of found ≡ built fields.now ([], []) parts.now) }
{
    let mut builder = Builder {
        outer: Vec::new(alloc),
        items: Items::new(alloc),
    };
    for part in parts {
        let Some(next) = builder.taken(alloc, fields, part)? else {
            return Ok(None);
        };
        builder = next;
    }
    Ok(Some(builder))
}

/// The tree that the parts spell over these fields, if they spell one.
pub fn tree_of(alloc: Global, fields: &[Field], parts: &[Part]) -> Result<Option<Items<Item>>, Oom>
    ensures { IfOk result (λ found. MatchOption found
        ((items : _) → Spelled fields.now 100 parts.now items → ⊥)
        (λ tree. SpellsTree fields.now parts.now tree)) }
{
    match build(alloc, fields, parts)? {
        Some(builder) => Ok(builder.finished()),
        None => Ok(None),
    }
}
