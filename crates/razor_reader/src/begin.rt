// Begins to read tags and what else stands in content and in code.
ghost use Rattle.std.specs.Prelude.{◌≡◌, Some};
ghost use Rattle.razor_ast.specs.Nodes as nodes;
ghost use Rattle.razor_reader.specs.BeginReading as spec;
ghost use Rattle.razor_reader.specs.Reading.{Gives};

use crate::attribute::{attributes_first, shown_first};
use crate::frame::{Jumps, Next, OpenContent, OpenTag, Owner, Wanted};
use crate::fronts::{Numbered, after, behind, has, next_number, past_space, place_first};
use crate::mark::Mark;
use crate::names::{is_component, is_element_name};
use crate::statement::{nowhere, statement};
use crate::unread::Unread;
use cs_ast::Ident;
use razor_ast::{Attribute, TNode};
use razor_token::{Piece, PieceKind};
use sqlite_items::Items;
use std::alloc::Global;
use text_core::{Place, Txt};

/// A content expression.
fn shown<'a>(alloc: Global, number: u32, place: Place, pieces: &'a [Piece]) -> Numbered<'a, Next>
    ensures { Gives (λ x. (x.0, x.1, x.2.now)) result (spec.shown number place pieces.now) }
{
    let (value, rest) = shown_first(alloc, pieces)?;
    let next = next_number(number)?;
    let node = TNode::Content {
        number,
        place,
        value,
    };
    Ok((Next::Done(node), next, rest))
}

/// The name behind the first character of its piece.
fn name_at(p: &Piece, name: &Txt) -> Result<Ident, Unread>
    ensures { Gives (λ n. n) result (Some (nodes.name_at p.now name.now)) }
{
    let place = Place {
        line: p.place.line,
        column: p.place.column.checked_add(1).ok_or(Unread::Oom)?,
    };
    Ok(Ident {
        place,
        name: name.clone()?,
    })
}

/// A tag, or an element, with what stands in it.
pub fn tag_node(tag: OpenTag, children: Items<TNode>) -> TNode
    ensures { result ≡ spec.tag_node tag children }
{
    let OpenTag {
        number,
        place,
        name,
        component,
        attributes,
    } = tag;
    if component {
        TNode::Child {
            number,
            place,
            name,
            attributes,
            children,
        }
    } else {
        TNode::Element {
            number,
            place,
            name,
            attributes,
            children,
        }
    }
}

/// Content begins.
fn content_in(alloc: Global, owner: Owner) -> Next
    ensures { result ≡ spec.content_in owner }
{
    Next::Content(OpenContent {
        owner,
        edge: true,
        found: Items::new(alloc),
    })
}

/// A tag behind its attributes: its end, or its content.
fn opened<'a>(alloc: Global, tag: OpenTag, number: u32, pieces: &'a [Piece]) -> Numbered<'a, Next>
    ensures { Gives (λ x. (x.0, x.1, x.2.now)) result (spec.opened tag number pieces.now) }
{
    let pieces = past_space(pieces);
    if let Some(rest) = behind(pieces, Mark::EmptyTagEnd) {
        let node = tag_node(tag, Items::new(alloc));
        return Ok((Next::Done(node), number, rest));
    }
    let rest = after(pieces, Mark::ContentStart)?;
    Ok((content_in(alloc, Owner::Tag(tag)), number, rest))
}

/// A tag of this name with these attributes.
fn open_tag(
    number: u32,
    p: &Piece,
    name: &Txt,
    attributes: Items<Attribute>,
) -> Result<OpenTag, Unread>
    ensures { Gives (λ tag. tag) result (Some (spec.open_tag number p.now name.now attributes)) }
{
    Ok(OpenTag {
        number,
        place: p.place,
        name: name_at(p, name)?,
        component: is_component(name),
        attributes,
    })
}

/// A tag of this name behind it.
fn tag<'a>(
    alloc: Global,
    all: &[Piece],
    number: u32,
    p: &Piece,
    name: &Txt,
    pieces: &'a [Piece],
) -> Numbered<'a, Next>
    ensures { Gives (λ x. (x.0, x.1, x.2.now)) result (spec.tag all.now number p.now name.now pieces.now) }
{
    if !is_element_name(name) {
        return Err(Unread::Syntax(pieces.len() + 1));
    }
    let next = next_number(number)?;
    let (attributes, next, rest) = attributes_first(alloc, all, is_component(name), next, pieces)?;
    let tag = open_tag(number, p, name, attributes)?;
    opened(alloc, tag, next, rest)
}

/// Content behind `<text` in code.
fn group<'a>(alloc: Global, number: u32, place: Place, pieces: &'a [Piece]) -> Numbered<'a, Next>
    ensures { Gives (λ x. (x.0, x.1, x.2.now)) result (spec.group number place pieces.now) }
{
    let rest = after(past_space(pieces), Mark::ContentStart)?;
    Ok((content_in(alloc, Owner::Group(place)), number, rest))
}

/// A tag in code, or `<text>`.
fn tag_in_code<'a>(
    alloc: Global,
    all: &[Piece],
    number: u32,
    p: &Piece,
    name: &Txt,
    pieces: &'a [Piece],
) -> Numbered<'a, Next>
    ensures { Gives (λ x. (x.0, x.1, x.2.now)) result (spec.tag_in_code all.now number p.now name.now pieces.now) }
{
    if name.is("text") {
        group(alloc, number, p.place, pieces)
    } else {
        tag(alloc, all, number, p, name, pieces)
    }
}

/// A part of content that isn't literal text.
fn item<'a>(alloc: Global, all: &[Piece], number: u32, pieces: &'a [Piece]) -> Numbered<'a, Next>
    ensures { Gives (λ x. (x.0, x.1, x.2.now)) result (spec.item all.now number pieces.now) }
{
    let Some((p, rest)) = pieces.split_first() else {
        return Err(Unread::Syntax(0));
    };
    match &p.kind {
        PieceKind::TagStart(name) => tag(alloc, all, number, p, name, rest),
        PieceKind::At => shown(alloc, number, p.place, pieces),
        PieceKind::CodeAt => statement(alloc, true, p.place, nowhere(), number, rest),
        _ => Err(Unread::Syntax(pieces.len())),
    }
}

/// A statement of a block, or what besides may stand there.
fn line<'a>(
    alloc: Global,
    all: &[Piece],
    jumps: Jumps,
    number: u32,
    pieces: &'a [Piece],
) -> Numbered<'a, Next>
    ensures { Gives (λ x. (x.0, x.1, x.2.now)) result (spec.line all.now jumps number pieces.now) }
{
    let Some((p, rest)) = pieces.split_first() else {
        return Err(Unread::Syntax(0));
    };
    match &p.kind {
        PieceKind::TagStart(name) => tag_in_code(alloc, all, number, p, name, rest),
        PieceKind::At => shown(alloc, number, p.place, pieces),
        PieceKind::LineStart => Ok((content_in(alloc, Owner::Line(p.place)), number, rest)),
        PieceKind::CodeAt => statement(alloc, false, p.place, jumps, number, rest),
        PieceKind::Code(_) => statement(alloc, false, p.place, jumps, number, pieces),
        _ => Err(Unread::Syntax(pieces.len())),
    }
}

/// The body of a statement.
fn body<'a>(
    alloc: Global,
    braced: bool,
    jumps: Jumps,
    number: u32,
    pieces: &'a [Piece],
) -> Numbered<'a, Next>
    ensures { Gives (λ x. (x.0, x.1, x.2.now)) result (spec.body braced jumps number pieces.now) }
{
    if braced && !has(pieces, Mark::OpenBrace) {
        return Err(Unread::Syntax(pieces.len()));
    }
    statement(alloc, braced, place_first(pieces), jumps, number, pieces)
}

/// What stands behind `else`.
fn otherwise<'a>(
    alloc: Global,
    braced: bool,
    jumps: Jumps,
    number: u32,
    pieces: &'a [Piece],
) -> Numbered<'a, Next>
    ensures { Gives (λ x. (x.0, x.1, x.2.now)) result (spec.otherwise braced jumps number pieces.now) }
{
    if has(pieces, Mark::If) {
        return statement(alloc, braced, place_first(pieces), jumps, number, pieces);
    }
    body(alloc, braced, jumps, number, pieces)
}

/// Begins to read what is wanted.
pub fn begin<'a>(
    alloc: Global,
    all: &[Piece],
    wanted: Wanted,
    number: u32,
    pieces: &'a [Piece],
) -> Numbered<'a, Next>
    ensures { Gives (λ x. (x.0, x.1, x.2.now)) result (spec.begin all.now wanted number pieces.now) }
{
    match wanted {
        Wanted::Item => item(alloc, all, number, pieces),
        Wanted::Line(jumps) => line(alloc, all, jumps, number, pieces),
        Wanted::Body { braced, jumps } => body(alloc, braced, jumps, number, pieces),
        Wanted::Otherwise { braced, jumps } => otherwise(alloc, braced, jumps, number, pieces),
    }
}
