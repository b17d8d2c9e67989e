// Where tokens first nest too deeply.
ghost use Rattle.std.specs.Prelude.{◌≡◌, [], IfOk};
ghost use Rattle.cs_grammar.specs.Nesting.{too_deep};
ghost use Rattle.cs_parse.specs.DepthReading as spec;

use cs_token::{Sign, Token, TokenKind, Word};
use std::alloc::{AllocError, Global};
use text_core::Place;

/// What a token does to the brackets that are open.
#[derive(Clone, Copy)]
pub enum Bracketing {
    Opens,
    Closes,
    Parts,
    Counts,
    Nothing,
}

#[tactic(auto, unfolding(crate::specs::DepthReading::of_sign))]
fn of_sign(sign: Sign) -> Bracketing
    ensures { result ≡ spec.of_sign sign }
{
    match sign {
        Sign::OpenRound | Sign::OpenSquare | Sign::OpenBrace | Sign::HoleOpen => Bracketing::Opens,
        Sign::CloseRound | Sign::CloseSquare | Sign::CloseBrace | Sign::HoleClose => {
            Bracketing::Closes
        }
        Sign::Comma | Sign::Semicolon => Bracketing::Parts,
        Sign::InterpolationStart | Sign::InterpolationEnd => Bracketing::Nothing,
        _ => Bracketing::Counts,
    }
}

#[tactic(auto, unfolding(crate::specs::DepthReading::of_word))]
fn of_word(word: Word) -> Bracketing
    ensures { result ≡ spec.of_word word }
{
    match word {
        Word::Else => Bracketing::Counts,
        _ => Bracketing::Nothing,
    }
}

fn of_kind(kind: &TokenKind) -> Bracketing
    ensures { result ≡ spec.of_kind kind.now }
{
    match kind {
        TokenKind::Sign(sign) => of_sign(*sign),
        TokenKind::Word(word) => of_word(*word),
        TokenKind::Name(_) | TokenKind::Number(_) | TokenKind::Text(_) | TokenKind::Part(_) => {
            Bracketing::Nothing
        }
    }
}

/// The first place at which the nesting is above 200.
#[tactic(auto, using(crate::proofs::DepthLemmas::counted_so))]
pub fn first_too_deep(alloc: Global, tokens: &[Token]) -> Result<Option<Place>, AllocError>
    ensures { IfOk result (λ place. place ≡ too_deep tokens.now) }
{
    let place = first_above(alloc, tokens)?;
    Ok(place)
}

fn first_above(alloc: Global, tokens: &[Token]) -> Result<Option<Place>, AllocError>
    ensures { IfOk result (λ place. place ≡ spec.deep_from [] tokens.now) }
{
    let mut counts: Vec<u32> = Vec::new(alloc);
    let mut total = 0u32;
    for t in tokens {
        match of_kind(&t.kind) {
            Bracketing::Opens => {
                counts.push(1)?;
                total += 1;
            }
            Bracketing::Closes => {
                if let Some(count) = counts.pop() {
                    total -= count;
                }
            }
            Bracketing::Parts => {
                if let Some(count) = counts.pop() {
                    counts.push(1)?;
                    total = total - count + 1;
                }
            }
            Bracketing::Counts => {
                if let Some(count) = counts.pop() {
                    counts.push(count + 1)?;
                    total += 1;
                }
            }
            Bracketing::Nothing => {}
        }
        if total > 200 {
            return Ok(Some(t.place));
        }
    }
    Ok(None)
}
