// What stands at the front of pieces.
ghost use Rattle.std.specs.Prelude.{◌≡◌, ◌+◌, Some, None, MatchOption};
ghost use Rattle.razor_ast.specs.Literals.{literal_run, place_of};
ghost use Rattle.razor_reader.specs.Reading as spec;
ghost use Rattle.razor_reader.specs.Reading.{Gives};

use crate::mark::{Mark, is};
use crate::unread::Unread;
use cs_token::first_place;
use razor_token::{Piece, PieceKind};
use std::alloc::Global;
use text_core::{Place, Txt};

/// What was read, and the pieces behind it.
pub type Front<'a, T> = Result<(T, &'a [Piece]), Unread>;

/// The same, with the next number between them.
pub type Numbered<'a, T> = Result<(T, u32, &'a [Piece]), Unread>;

/// Whether a piece of this mark stands first.
pub fn has(pieces: &[Piece], mark: Mark) -> bool
    ensures { result ≡ spec.has mark pieces.now }
{
    match pieces.split_first() {
        Some((p, _)) => is(p, mark),
        None => false,
    }
}

/// The pieces behind the one of this mark, if it stands first.
pub fn behind<'a>(pieces: &'a [Piece], mark: Mark) -> Option<&'a [Piece]>
    ensures { MatchOption result (spec.after mark pieces.now ≡ None) (λ rest. spec.after mark pieces.now ≡ Some rest.now) }
{
    match pieces.split_first() {
        Some((p, rest)) if is(p, mark) => Some(rest),
        _ => None,
    }
}

/// The pieces behind the one of this mark, which has to stand first.
pub fn after<'a>(pieces: &'a [Piece], mark: Mark) -> Result<&'a [Piece], Unread>
    ensures { Gives (λ rest. rest.now) result (spec.after mark pieces.now) }
{
    match behind(pieces, mark) {
        Some(rest) => Ok(rest),
        None => Err(Unread::Syntax(pieces.len())),
    }
}

/// The pieces behind white space of a tag, if it stands first.
pub fn past_space<'a>(pieces: &'a [Piece]) -> &'a [Piece]
    ensures { result.now ≡ spec.past_space pieces.now }
{
    match behind(pieces, Mark::Space) {
        Some(rest) => rest,
        None => pieces,
    }
}

/// The place of the first piece.
pub fn place_first(pieces: &[Piece]) -> Place
    ensures { result ≡ place_of pieces.now }
{
    match pieces.split_first() {
        Some((p, _)) => p.place,
        None => first_place(),
    }
}

/// The number behind this one. More numbers than there are would be given up; no file has as many parts.
pub fn next_number(number: u32) -> Result<u32, Unread>
    ensures { Gives (λ n. n) result (Some (number + 1)) }
{
    if number == u32::MAX {
        return Err(Unread::Oom);
    }
    Ok(number + 1)
}

/// What the literal pieces at the front say together.
#[tactic(auto, using(crate::proofs::PieceLoops::literal_more, crate::proofs::PieceLoops::literal_done, crate::proofs::PieceLoops::literal_other))]
pub fn literal_first<'a>(alloc: Global, pieces: &'a [Piece]) -> Front<'a, Txt>
    ensures { Gives (λ x. (x.0, x.1.now)) result (Some (literal_run pieces.now)) }
{
    let mut text = Txt::new(alloc);
    let mut rest = pieces;
    while let Some((p, behind)) = rest.split_first() {
        let PieceKind::Literal(more) = &p.kind else {
            return Ok((text, rest));
        };
        text.push_text(more)?;
        rest = behind;
    }
    Ok((text, rest))
}
