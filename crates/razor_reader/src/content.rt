// Goes on with content that has begun.
ghost use Rattle.std.specs.Prelude.{◌≡◌, Some};
ghost use Rattle.razor_ast.specs.Literals as literals;
ghost use Rattle.razor_reader.specs.ContentReading as spec;
ghost use Rattle.razor_reader.specs.Reading.{Gives};

use crate::begin::tag_node;
use crate::frame::{Frame, Next, OpenContent, OpenTag, Owner, Wanted};
use crate::fronts::{Numbered, after, literal_first, next_number, past_space, place_first};
use crate::mark::{Mark, mark_of};
use crate::unread::Unread;
use cs_token::Class;
use razor_ast::TNode;
use razor_token::{Piece, PieceKind};
use sqlite_items::Items;
use std::alloc::Global;
use text_core::{Place, Txt};

/// Whether they are white space alone.
fn are_white(characters: &[char]) -> bool
    ensures { result ≡ literals.is_white characters.now }
{
    characters.iter().all(|c| Class::White.has(*c))
}

/// Whether the text is white space alone.
fn is_white(alloc: Global, text: &Txt) -> Result<bool, Unread>
    ensures { Gives (λ b. b) result (Some (literals.is_white text.now)) }
{
    let characters = text.to_chars(alloc)?;
    Ok(are_white(&characters))
}

/// Whether the text stays between two edges, or between what is none.
fn is_kept(alloc: Global, before: bool, behind: bool, text: &Txt) -> Result<bool, Unread>
    ensures { Gives (λ b. b) result (Some (literals.is_kept before behind text.now)) }
{
    if text.first().is_none() {
        return Ok(false);
    }
    let white = is_white(alloc, text)?;
    Ok(!(white && (before || behind)))
}

/// Whether an ampersand is one of them.
fn has_ampersand(characters: &[char]) -> bool
    ensures { result ≡ literals.is_raw characters.now }
{
    characters.iter().any(|c| *c == '&')
}

/// Whether an ampersand stands in the text.
fn is_raw(alloc: Global, text: &Txt) -> Result<bool, Unread>
    ensures { Gives (λ b. b) result (Some (literals.is_raw text.now)) }
{
    let characters = text.to_chars(alloc)?;
    Ok(has_ampersand(&characters))
}

/// The node of a literal text.
fn text_node(alloc: Global, number: u32, place: Place, text: Txt) -> Result<TNode, Unread>
    ensures { Gives (λ a. a) result (Some (literals.text_node number place text)) }
{
    if is_raw(alloc, &text)? {
        return Ok(TNode::Raw {
            number,
            place,
            text,
        });
    }
    Ok(TNode::Text {
        number,
        place,
        text,
    })
}

/// The nodes with that of a text between two edges, where it stays, and the next number.
pub fn with_text(
    alloc: Global,
    found: Items<TNode>,
    edges: (bool, bool),
    number: u32,
    place: Place,
    text: Txt,
) -> Result<(Items<TNode>, u32), Unread>
    ensures { Gives (λ x. x) result (Some (spec.with_text found edges number place text)) }
{
    let mut found = found;
    let (before, behind) = edges;
    if !is_kept(alloc, before, behind, &text)? {
        return Ok((found, number));
    }
    found.push(text_node(alloc, number, place, text)?)?;
    Ok((found, next_number(number)?))
}

/// Whether an item of content stands first, and whether it is an edge.
pub fn item_edge(pieces: &[Piece]) -> Option<bool>
    ensures { result ≡ spec.item_edge pieces.now }
{
    let (p, _) = pieces.split_first()?;
    match mark_of(p) {
        Mark::TagStart | Mark::At => Some(false),
        Mark::CodeAt => Some(true),
        _ => None,
    }
}

/// The pieces behind an end tag of this name.
fn end_tag<'a>(name: &Txt, pieces: &'a [Piece]) -> Result<&'a [Piece], Unread>
    ensures { Gives (λ rest. rest.now) result (spec.end_tag name.now pieces.now) }
{
    let Some((p, rest)) = pieces.split_first() else {
        return Err(Unread::Syntax(0));
    };
    let PieceKind::EndTagStart(found) = &p.kind else {
        return Err(Unread::Syntax(pieces.len()));
    };
    if !found.is(name.as_str()) {
        return Err(Unread::Syntax(pieces.len()));
    }
    after(past_space(rest), Mark::EndTagEnd)
}

/// The end of a tag's content.
fn end_of_tag<'a>(
    tag: OpenTag,
    found: Items<TNode>,
    number: u32,
    pieces: &'a [Piece],
) -> Numbered<'a, Next>
    ensures { Gives (λ x. (x.0, x.1, x.2.now)) result (spec.end_of_tag tag found number pieces.now) }
{
    let rest = end_tag(&tag.name.name, pieces)?;
    Ok((Next::Done(tag_node(tag, found)), number, rest))
}

fn is_text_end(p: &Piece) -> bool
    ensures { result ≡ spec.is_text_end p.now.kind }
{
    match &p.kind {
        PieceKind::EndTagStart(name) => name.is("text"),
        _ => false,
    }
}

/// The end of the content of `<text>`.
fn end_of_group<'a>(
    place: Place,
    items: Items<TNode>,
    number: u32,
    pieces: &'a [Piece],
) -> Numbered<'a, Next>
    ensures { Gives (λ x. (x.0, x.1, x.2.now)) result (spec.end_of_group place items number pieces.now) }
{
    let Some((p, rest)) = pieces.split_first() else {
        return Err(Unread::Syntax(0));
    };
    if !is_text_end(p) {
        return Err(Unread::Syntax(pieces.len()));
    }
    let rest = after(past_space(rest), Mark::EndTagEnd)?;
    Ok((Next::Done(TNode::Group { place, items }), number, rest))
}

/// The end of the content behind `@:`.
fn end_of_line<'a>(
    place: Place,
    items: Items<TNode>,
    number: u32,
    pieces: &'a [Piece],
) -> Numbered<'a, Next>
    ensures { Gives (λ x. (x.0, x.1, x.2.now)) result (spec.end_of_line place items number pieces.now) }
{
    let rest = after(pieces, Mark::LineEnd)?;
    Ok((Next::Done(TNode::Group { place, items }), number, rest))
}

/// The end of content.
fn end_of<'a>(
    owner: Owner,
    found: Items<TNode>,
    number: u32,
    pieces: &'a [Piece],
) -> Numbered<'a, Next>
    ensures { Gives (λ x. (x.0, x.1, x.2.now)) result (spec.end_of owner found number pieces.now) }
{
    match owner {
        Owner::Tag(tag) => end_of_tag(tag, found, number, pieces),
        Owner::Group(place) => end_of_group(place, found, number, pieces),
        Owner::Line(place) => end_of_line(place, found, number, pieces),
    }
}

/// In content: a literal text, and then an item or the end.
pub fn content<'a>(
    alloc: Global,
    begun: OpenContent,
    number: u32,
    pieces: &'a [Piece],
) -> Numbered<'a, Next>
    ensures { Gives (λ x. (x.0, x.1, x.2.now)) result (spec.content begun number pieces.now) }
{
    let OpenContent { owner, edge, found } = begun;
    let (text, rest) = literal_first(alloc, pieces)?;
    let place = place_first(pieces);
    match item_edge(rest) {
        Some(behind) => {
            let (found, next) = with_text(alloc, found, (edge, behind), number, place, text)?;
            let frame = Frame::Content(OpenContent {
                owner,
                edge: behind,
                found,
            });
            Ok((Next::Inside(frame, Wanted::Item), next, rest))
        }
        None => {
            let (found, next) = with_text(alloc, found, (edge, true), number, place, text)?;
            end_of(owner, found, next, rest)
        }
    }
}
