// From a file to the component that it spells.
ghost use Rattle.std.specs.Prelude.{◌≡◌, ◌↔◌, ◌≤◌, IsTrue, count_by, map, length, encode_utf8_all, IfOk, IfSome, MatchOption};
ghost use Rattle.first_click.specs.declared.characters.Class.TheVariants as class;
ghost use Rattle.first_click.specs.Characters.{AreAll};
ghost use Rattle.first_click.specs.Component.{counts, Spells};
ghost use Rattle.first_click.specs.Reading.Views.{piece_of};
ghost use Rattle.first_click.specs.Weight.{weights};

use super::characters::{Class, are_all};
use super::code::declared;
use super::component::Component;
use super::content::tree_of;
use super::file_name::names_component;
use super::parts::parts_of;
use super::pieces::{Piece, PieceKind, cut};
use std::alloc::Global;
use text_core::{Oom, Txt};

/// The most characters that a file of the form has.
const CHARACTERS: usize = 65_536;

/// The most elements and texts that a file of the form has.
const NODES: usize = 1_000;

/// Whether the piece is a start tag, a text or a shown field.
fn counts(piece: &Piece<'_>) -> bool
    ensures { result ≡ counts (piece_of piece.now) }
{
    match piece.kind {
        PieceKind::Open | PieceKind::Literal | PieceKind::Shown => true,
        PieceKind::Close => false,
    }
}

/// Whether the pieces are few enough.
fn are_few(pieces: &[Piece<'_>]) -> bool
    ensures { IsTrue result ↔ (count_by counts (map piece_of pieces.now) ≤ 1000) }
{
    pieces.iter().filter(|piece| counts(piece)).count() <= NODES
}

/// Whether the text is short enough and of plain characters.
fn is_plain(text: &[u8]) -> bool
    ensures { IsTrue result ↔ ((length text.now ≤ 65536) × AreAll class.Plain text.now) }
{
    text.len() <= CHARACTERS && are_all(Class::Plain, text)
}

/// The component that a file of this name with this text spells, if it is of the form.
pub fn read(alloc: Global, name: &Txt, text: &[u8]) -> Result<Option<Component>, Oom>
    ensures spelled { IfOk result (λ found. MatchOption found
        ((component : _) → Spells (encode_utf8_all name.now) text.now component → ⊥)
        (Spells (encode_utf8_all name.now) text.now)) }
    // What a file spells is small.
    ensures light { IfOk result (λ found. IfSome found (λ component. weights component.items ≤ 1000000)) }
{
    if !names_component(name.as_str().as_bytes()) {
        return Ok(None);
    }
    if !is_plain(text) {
        return Ok(None);
    }
    let content = cut(alloc, text)?;
    if !are_few(&content.pieces) {
        return Ok(None);
    }
    let Some(code) = declared(alloc, content.end)? else {
        return Ok(None);
    };
    let Some(made) = parts_of(alloc, code.methods.as_slice(), &content.pieces)? else {
        return Ok(None);
    };
    let Some(items) = tree_of(alloc, code.fields.as_slice(), &made.parts)? else {
        return Ok(None);
    };
    Ok(Some(Component {
        fields: code.fields,
        methods: code.methods,
        handlers: made.handlers,
        items,
    }))
}
