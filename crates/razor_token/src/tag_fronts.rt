// What stands at the front of a tag behind its name.
ghost use Rattle.std.specs.Prelude.{◌≡◌, ◌<◌, ◌≤◌, length, take, IfOk};
ghost use Rattle.razor_token.specs.Moving.{Takes};
ghost use Rattle.razor_token.specs.TagFronts.{name_count, name_change, attribute_of, start_tag_at, end_tag_at};

use crate::PieceKind;
use crate::context::{Change, Context};
use crate::found::{Found, piece, text_of};
use crate::runs::{RunKind, begins, run};
use crate::tags::held_by;
use std::alloc::Global;
use text_core::{Oom, Txt};

/// How many characters the name of an attribute has.
fn name_count(text: &[char]) -> usize
    ensures same { result ≡ name_count text.now }
    ensures within { result ≤ length text.now }
{
    if begins(&['@'], text) {
        1 + run(RunKind::AttributeName, &text[1..])
    } else {
        run(RunKind::AttributeName, text)
    }
}

/// Whether a value follows the name.
fn name_change(component: bool, name: &Txt, characters: &[char], behind: &[char]) -> Change
    requires { name.now ≡ characters.now }
    ensures { result ≡ name_change component name.now behind.now }
{
    if begins(&['='], behind) {
        Change::enters(Context::Named(held_by(component, name, characters)))
    } else {
        Change::stays()
    }
}

/// The name of an attribute.
fn attribute(alloc: Global, component: bool, text: &[char]) -> Result<Option<Found>, Oom>
    ensures same { IfOk result (λ found. found ≡ attribute_of component (name_count text.now) text.now) }
    ensures takes { IfOk result (λ found. Takes text.now found) }
{
    let count = name_count(text);
    if count == 0 {
        return Ok(None);
    }
    let (characters, behind) = text.split_at(count);
    let name = text_of(alloc, characters)?;
    let change = name_change(component, &name, characters, behind);
    Ok(piece(PieceKind::AttributeName(name), count, change))
}

/// In a start tag: white space, its end, or an attribute.
#[tactic(auto, unfolding(crate::specs::TagFronts::start_tag_at))]
pub(crate) fn start_tag(
    alloc: Global,
    component: bool,
    void: bool,
    text: &[char],
) -> Result<Option<Found>, Oom>
    ensures same { IfOk result (λ found. found ≡ start_tag_at component void text.now) }
    ensures takes { IfOk result (λ found. Takes text.now found) }
{
    let white = run(RunKind::White, text);
    if white != 0 {
        return Ok(piece(PieceKind::Space, white, Change::stays()));
    }
    if begins(&['/', '>'], text) {
        return Ok(piece(PieceKind::EmptyTagEnd, 2, Change::leaves()));
    }
    if !begins(&['>'], text) {
        return attribute(alloc, component, text);
    }
    Ok(if void {
        piece(PieceKind::EmptyTagEnd, 1, Change::leaves())
    } else {
        piece(
            PieceKind::ContentStart,
            1,
            Change::becomes(Context::Element),
        )
    })
}

/// In an end tag: white space, or its end.
#[tactic(auto, unfolding(crate::specs::TagFronts::end_tag_at))]
pub(crate) fn end_tag(text: &[char]) -> Option<Found>
    ensures same { result ≡ end_tag_at text.now }
    ensures takes { Takes text.now result }
{
    let white = run(RunKind::White, text);
    if white != 0 {
        piece(PieceKind::Space, white, Change::stays())
    } else if begins(&['>'], text) {
        piece(PieceKind::EndTagEnd, 1, Change::leaves())
    } else {
        None
    }
}
