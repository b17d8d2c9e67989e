// What stands at the front of a text.
ghost use Rattle.std.specs.Prelude.{◌≡◌, ◌<◌, ◌≤◌, length, IfOk};
ghost use Rattle.razor_token.specs.Moving.{Takes};
ghost use Rattle.razor_token.specs.Pieces.{piece, literal, space};

use crate::PieceKind;
use crate::context::Change;
use cs_token::TokenKind;
use std::alloc::Global;
use text_core::{Oom, Txt};

/// The piece at the front of a text: what it is, how many characters it has, and what it changes.
#[derive(Debug, Drop)]
pub struct Found {
    /// What it is.
    pub kind: PieceKind,
    /// How many characters it has.
    pub count: usize,
    /// What it changes of what is open.
    pub change: Change,
}

/// A token of code at the front of a text, or none for white space and a comment, and how many characters it has.
#[derive(Debug, Drop)]
pub struct CodeFront {
    /// The token, or none.
    pub token: Option<TokenKind>,
    /// How many characters it has.
    pub count: usize,
}

/// A piece of so many characters that changes this.
pub(crate) fn piece(kind: PieceKind, count: usize, change: Change) -> Option<Found>
    ensures { result ≡ piece kind count change }
{
    Some(Found {
        kind,
        count,
        change,
    })
}

/// The text of these characters.
pub(crate) fn text_of(alloc: Global, characters: &[char]) -> Result<Txt, Oom>
    ensures { IfOk result (λ text. text ≡ characters.now) }
{
    let mut text = Txt::new(alloc);
    for character in characters {
        text.push(*character)?;
    }
    Ok(text)
}

/// So many characters as literal text, if there are any.
pub(crate) fn literal(alloc: Global, count: usize, text: &[char]) -> Result<Option<Found>, Oom>
    requires { count ≤ length text.now }
    ensures same { IfOk result (λ found. found ≡ literal count text.now) }
    ensures takes { IfOk result (λ found. Takes text.now found) }
{
    if count == 0 {
        return Ok(None);
    }
    let said = text_of(alloc, &text[..count])?;
    Ok(piece(PieceKind::Literal(said), count, Change::stays()))
}
