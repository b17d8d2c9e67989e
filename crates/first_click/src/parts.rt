// From the pieces of content to the parts of a tree, with the ids of handlers.
ghost use Rattle.std.specs.Prelude.{◌≡◌, ◌<◌, ◌^◌, map, length, IfOk, IfSome};
ghost use Rattle.std.specs.Option.{option_map};
ghost use Rattle.first_click.specs.Handlers.{method_number, part_of, parts_behind, handlers_of};
ghost use Rattle.first_click.specs.Reading.Views.{piece_of};

use super::component::Method;
use super::pieces::{Piece, PieceKind};
use sqlite_items::Items;
use std::alloc::Global;
use text_core::{Oom, Txt};

/// A part of a tree, in the order of the file.
#[derive(Debug, Drop)]
pub enum Part {
    /// A start tag: the name of its element, and the id of its handler.
    Start { name: Txt, handler: Option<u64> },
    /// An end tag, by the name of its element.
    End { name: Txt },
    Literal { text: Txt },
    /// A field that is shown.
    Shown { name: Txt },
}

/// The parts of a tree, and for each handler the position of its method.
#[derive(Debug, Drop)]
pub struct Parts {
    pub parts: Vec<Part>,
    pub handlers: Items<u32>,
}

/// The position of the method with this name.
fn method_number(methods: &[Method], name: &Txt) -> Option<u32>
    requires { length methods.now < 2 ^ 32 }
    ensures { result ≡ method_number methods.now name.now }
{
    for (at, method) in methods.iter().enumerate() {
        if method.name == *name {
            return Some(at as u32);
        }
    }
    None
}

/// The part that a piece is, a start tag with this handler.
fn part_of(alloc: Global, piece: Piece<'_>, handler: Option<u64>) -> Result<Part, Oom>
    ensures { IfOk result (λ part. part ≡ part_of (piece_of piece.entry) handler) }
{
    let text = Txt::from_latin1(alloc, piece.text)?;
    match piece.kind {
        PieceKind::Open => Ok(Part::Start {
            name: text,
            handler,
        }),
        PieceKind::Close => Ok(Part::End { name: text }),
        PieceKind::Literal => Ok(Part::Literal { text }),
        PieceKind::Shown => Ok(Part::Shown { name: text }),
    }
}

/// The parts that pieces are, if each method that they name is one of these.
pub fn parts_of(
    alloc: Global,
    methods: &[Method],
    pieces: &[Piece<'_>],
) -> Result<Option<Parts>, Oom>
    requires { length methods.now < 2 ^ 32 }
    ensures parts { IfOk result (λ found. IfSome found (λ made. made.parts.items ≡ parts_behind 0 (map piece_of pieces.now))) }
    ensures handlers { IfOk result (λ found. option_map (λ made. made.handlers) found ≡ handlers_of methods.now (map piece_of pieces.now)) }
{
    let mut parts = Vec::new(alloc);
    let mut handlers = Items::new(alloc);
    for piece in pieces {
        if piece.method.is_empty() {
            parts.push(part_of(alloc, *piece, None)?)?;
        } else {
            let name = Txt::from_latin1(alloc, piece.method)?;
            let Some(number) = method_number(methods, &name) else {
                return Ok(None);
            };
            handlers.push(number)?;
            parts.push(part_of(alloc, *piece, Some(handlers.len() as u64))?)?;
        }
    }
    Ok(Some(Parts { parts, handlers }))
}
