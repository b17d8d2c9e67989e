// The pieces of content: tags, literal texts and shown fields, one after another.
ghost use Rattle.std.specs.Prelude.{◌≡◌, map, IfOk};
ghost use Rattle.std.specs.Option.{option_map};
ghost use Rattle.first_click.specs.Reading.Runs.{strip};
ghost use Rattle.first_click.specs.Reading.Views.{piece_of};
ghost use Rattle.first_click.specs.Reading.Cutting.{handled_at, opened_at, open_at, close_at, shown_at, literal_at, piece_at, CutsUp};

use super::characters::{Class, begins, ends, run};
use std::alloc::Global;
use text_core::Oom;

/// What a piece of content is.
#[derive(Clone, Copy, Debug, PartialEq, Eq)]
pub enum PieceKind {
    /// A start tag, by the name of its element.
    Open,
    /// An end tag, by the name of its element.
    Close,
    /// Literal text.
    Literal,
    /// A field that is shown, by its name.
    Shown,
}

/// A piece of content.
#[derive(Clone, Copy, Debug)]
pub struct Piece<'a> {
    pub kind: PieceKind,
    /// Its name or text.
    pub text: &'a [u8],
    /// The method that a start tag names for clicks, empty where there is none.
    pub method: &'a [u8],
}

/// A moment of reading: whether a letter, digit or `_` stands right before, and the text that is left.
#[derive(Clone, Copy, Debug)]
pub struct Reached<'a> {
    pub after_word: bool,
    pub rest: &'a [u8],
}

/// What stands behind this front.
#[tactic(auto, unfolding(crate::specs::Reading::Runs::strip))]
pub fn after<'a>(front: &[u8], text: &'a [u8]) -> Option<&'a [u8]>
    ensures { option_map (λ rest. rest.now) result ≡ strip front.now text.now }
{
    text.strip_prefix(front)
}

/// What begins and ends the name of a method in a start tag.
const ONCLICK: &[u8] = b" @onclick=\"";

const END_OF_TAG: &[u8] = b"\">";

/// The rest of a start tag that names a method, from behind its own name on.
#[tactic(auto, unfolding(crate::specs::Reading::Cutting::handled_at))]
fn cut_handled<'a>(name: &'a [u8], text: &'a [u8]) -> Option<(Piece<'a>, Reached<'a>)>
    ensures { option_map (λ cut. (piece_of cut.0, (cut.1.after_word, cut.1.rest.now))) result
        ≡ handled_at name.now text.now }
{
    let inside = after(ONCLICK, text)?;
    let (method, rest) = run(Class::Letter, inside)?;
    let rest = after(END_OF_TAG, rest)?;
    Some((
        Piece {
            kind: PieceKind::Open,
            text: name,
            method,
        },
        Reached {
            after_word: false,
            rest,
        },
    ))
}

/// The rest of a start tag, from behind its name on.
#[tactic(auto, unfolding(crate::specs::Reading::Cutting::opened_at))]
fn cut_opened<'a>(name: &'a [u8], text: &'a [u8]) -> Option<(Piece<'a>, Reached<'a>)>
    ensures { option_map (λ cut. (piece_of cut.0, (cut.1.after_word, cut.1.rest.now))) result
        ≡ opened_at name.now text.now }
{
    if let Some(rest) = after(b">", text) {
        return Some((
            Piece {
                kind: PieceKind::Open,
                text: name,
                method: b"",
            },
            Reached {
                after_word: false,
                rest,
            },
        ));
    }
    cut_handled(name, text)
}

/// The rest of a start tag, from its name on.
#[tactic(auto, unfolding(crate::specs::Reading::Cutting::open_at))]
fn cut_open(text: &[u8]) -> Option<(Piece<'_>, Reached<'_>)>
    ensures { option_map (λ cut. (piece_of cut.0, (cut.1.after_word, cut.1.rest.now))) result ≡ open_at text.now }
{
    let (name, rest) = run(Class::Lower, text)?;
    cut_opened(name, rest)
}

/// The rest of an end tag, from its name on.
#[tactic(auto, unfolding(crate::specs::Reading::Cutting::close_at))]
fn cut_close(text: &[u8]) -> Option<(Piece<'_>, Reached<'_>)>
    ensures { option_map (λ cut. (piece_of cut.0, (cut.1.after_word, cut.1.rest.now))) result ≡ close_at text.now }
{
    let (name, rest) = run(Class::Lower, text)?;
    let rest = after(b">", rest)?;
    Some((
        Piece {
            kind: PieceKind::Close,
            text: name,
            method: b"",
        },
        Reached {
            after_word: false,
            rest,
        },
    ))
}

/// A shown field, from its name on. `@code` isn't one.
#[tactic(auto, unfolding(crate::specs::Reading::Cutting::shown_at))]
fn cut_shown(text: &[u8]) -> Option<(Piece<'_>, Reached<'_>)>
    ensures { option_map (λ cut. (piece_of cut.0, (cut.1.after_word, cut.1.rest.now))) result
        ≡ shown_at text.now }
{
    let (name, rest) = run(Class::Letter, text)?;
    if name == b"code".as_slice() {
        return None;
    }
    if begins(Class::Continuing, rest) {
        return None;
    }
    Some((
        Piece {
            kind: PieceKind::Shown,
            text: name,
            method: b"",
        },
        Reached {
            after_word: true,
            rest,
        },
    ))
}

/// A literal text, as long as it goes.
#[tactic(auto, unfolding(crate::specs::Reading::Cutting::literal_at))]
fn cut_literal(text: &[u8]) -> Option<(Piece<'_>, Reached<'_>)>
    ensures { option_map (λ cut. (piece_of cut.0, (cut.1.after_word, cut.1.rest.now))) result
        ≡ literal_at text.now }
{
    let (text, rest) = run(Class::Literal, text)?;
    Some((
        Piece {
            kind: PieceKind::Literal,
            text,
            method: b"",
        },
        Reached {
            after_word: ends(Class::Word, text),
            rest,
        },
    ))
}

/// The piece that stands at the front, if one does.
#[tactic(auto, unfolding(crate::specs::Reading::Cutting::piece_at))]
fn cut_piece(at: Reached<'_>) -> Option<(Piece<'_>, Reached<'_>)>
    ensures { option_map (λ cut. (piece_of cut.0, (cut.1.after_word, cut.1.rest.now))) result
        ≡ piece_at (at.entry.after_word, at.entry.rest.now) }
{
    if let Some(rest) = after(b"</", at.rest) {
        return cut_close(rest);
    }
    if let Some(rest) = after(b"<", at.rest) {
        return cut_open(rest);
    }
    if let Some(rest) = after(b"@", at.rest) {
        return if at.after_word { None } else { cut_shown(rest) };
    }
    cut_literal(at.rest)
}

/// The pieces at the front of a text, as many as there are, and the moment behind them.
#[derive(Debug, Drop)]
pub struct Pieces<'a> {
    pub pieces: Vec<Piece<'a>>,
    pub end: Reached<'a>,
}

/// Cuts a text into its pieces.
pub fn cut<'a>(alloc: Global, text: &'a [u8]) -> Result<Pieces<'a>, Oom>
    ensures { IfOk result (λ cut. CutsUp text.now (map piece_of cut.pieces.items) (cut.end.after_word, cut.end.rest.now)) }
{
    let mut pieces = Vec::new(alloc);
    let mut at = Reached {
        after_word: false,
        rest: text,
    };
    while let Some((piece, next)) = cut_piece(at) {
        pieces.push(piece)?;
        at = next;
    }
    Ok(Pieces { pieces, end: at })
}
