// From the text of a file to its component.
ghost use Rattle.std.specs.Prelude.{◌≡◌, ◌-◌, ◌≤◌, length, drop, encode_utf8_all, IfOk, Some, None};
ghost use Rattle.cs_token.specs.Places.{place_after};
ghost use Rattle.razor_ast.specs.Pieces.{counted, is_counted};
ghost use Rattle.razor_reader.specs.Answers.{Answers, SyntaxWithin};
ghost use Rattle.razor_reader.specs.PieceAnswers.{Flattened, Kept, place_or, Spelled, IsOf};

use crate::depth::first_too_deep;
use crate::fault::ReadFault;
use crate::file_text::{stem, text_read};
use crate::unread::Unread;
use crate::whole::{Parts, whole_parts};
use cs_token::{behind, first_place};
use razor_ast::Component;
use razor_token::{Piece, PieceKind, RazorFault, pieces};
use std::alloc::{AllocFailed, Global};
use text_core::{Oom, Place, Txt};

/// The most bytes that a file has.
const BYTES: usize = 1_048_576;

/// Whether the piece is neither white space nor a comment of code, nor a comment of content.
fn counts(p: &Piece) -> bool
    ensures { result ≡ is_counted p.now.kind }
{
    match &p.kind {
        PieceKind::Comment | PieceKind::Gap => false,
        _ => true,
    }
}

/// The pieces but for white space and comments of code and comments of content.
fn counted(alloc: Global, all: Vec<Piece>) -> Result<Vec<Piece>, AllocFailed<Piece>>
    ensures { IfOk result (λ kept. kept.items ≡ counted all.items) }
{
    let mut kept = Vec::new(alloc);
    for p in all {
        if counts(&p) {
            kept.push(p)?;
        }
    }
    Ok(kept)
}

/// The place behind all characters of a text.
fn end_of(alloc: Global, text: &Txt) -> Result<Place, Oom>
    requires { length (encode_utf8_all text.now) ≤ 1048576 }
    ensures { IfOk result (λ place. place ≡ place_after text.now) }
{
    let characters = text.to_chars(alloc)?;
    Ok(behind(first_place(), &characters))
}

/// The place before the last so many pieces.
fn place_before(pieces: &[Piece], left: usize, end: Place) -> Place
    ensures { result ≡ place_or end (drop (length pieces.now - left) pieces.now) }
{
    let (_, rest) = pieces.split_at(pieces.len().saturating_sub(left));
    match rest.split_first() {
        Some((p, _)) => p.place,
        None => end,
    }
}

/// The parts that pieces spell.
#[tactic(auto, using(crate::proofs::PlaceLemmas::placed_in))]
fn parts_of(alloc: Global, text: &Txt, kept: &[Piece]) -> Result<Parts, ReadFault>
    requires short { length (encode_utf8_all text.now) ≤ 1048576 }
    requires kept { Kept text.now kept.now }
    ensures { Spelled text.now kept.now result }
{
    match whole_parts(alloc, kept) {
        Ok(parts) => Ok(parts),
        Err(Unread::Syntax(left)) => {
            let end = end_of(alloc, text)?;
            Err(ReadFault::Syntax {
                place: place_before(kept, left, end),
            })
        }
        Err(Unread::Oom) => Err(ReadFault::Oom),
    }
}

/// The pieces of a text that nest nowhere too deeply.
#[tactic(auto, using(crate::proofs::AnswerLemmas::kept_of, crate::proofs::AnswerLemmas::deep_of))]
fn flat_pieces(alloc: Global, text: &Txt) -> Result<Vec<Piece>, ReadFault>
    requires { length (encode_utf8_all text.now) ≤ 1048576 }
    ensures { Flattened text.now result }
{
    let all = match pieces(alloc, text) {
        Ok(all) => all,
        Err(RazorFault::Syntax { place }) => return Err(ReadFault::Syntax { place }),
        Err(RazorFault::Oom) => return Err(ReadFault::Oom),
    };
    match first_too_deep(alloc, &all) {
        Ok(None) => Ok(counted(alloc, all)?),
        Ok(Some(place)) => Err(ReadFault::TooDeep { place }),
        Err(_) => Err(ReadFault::Oom),
    }
}

/// The component of parts and a name.
fn component(alloc: Global, name: &Txt, parts: Parts) -> Result<Component, Oom>
    ensures { IfOk result (λ c. IsOf name.now parts c) }
{
    let Parts {
        disposes,
        members,
        nodes,
        ..
    } = parts;
    Ok(Component {
        name: stem(alloc, name)?,
        disposes,
        members,
        nodes,
    })
}

/// Reads the text of a file of this name as the component that it spells.
#[tactic(auto, using(crate::proofs::ReadAnswers::short_read, crate::proofs::ReadAnswers::spelled_there, crate::proofs::ReadAnswers::deep_there, crate::proofs::ReadAnswers::uncut_there, crate::proofs::ReadAnswers::unspelled_there))]
pub fn read(alloc: Global, name: &Txt, text: &Txt) -> Result<Component, ReadFault>
    ensures answer { Answers name.now text.now result }
    ensures place { SyntaxWithin text.now result }
{
    if text.as_str().len() > BYTES {
        return Err(ReadFault::TooLong);
    }
    let text = text_read(alloc, text)?;
    let kept = flat_pieces(alloc, &text)?;
    let parts = parts_of(alloc, &text, &kept)?;
    Ok(component(alloc, name, parts)?)
}
