// How deeply pieces and tokens nest.
ghost use Rattle.std.specs.Prelude.{◌≡◌, nat_lt, sum, [], ◌∷◌, reverse, is_some, OnOk, IfOk};
ghost use Rattle.cs_grammar.specs.Nesting as code;
ghost use Rattle.razor_ast.specs.Nesting as nesting;
ghost use Rattle.razor_ast.specs.Nesting.{too_deep, open_before};

use crate::tokens::{closes, opens};
use cs_token::{Sign, Token, TokenKind, Word};
use razor_token::{Piece, PieceKind};
use std::alloc::Global;
use text_core::{Oom, Place};

#[tactic(auto, unfolding(cs_grammar::specs::Nesting::parts))]
fn parts(sign: Sign) -> bool
    ensures { result ≡ code.parts sign }
{
    match sign {
        Sign::Comma | Sign::Semicolon => true,
        _ => false,
    }
}

#[tactic(auto, unfolding(cs_grammar::specs::Nesting::bounds_text))]
fn bounds_text(sign: Sign) -> bool
    ensures { result ≡ code.bounds_text sign }
{
    match sign {
        Sign::InterpolationStart | Sign::InterpolationEnd => true,
        _ => false,
    }
}

#[tactic(auto, unfolding(cs_grammar::specs::Nesting::is_else))]
fn is_else(word: Word) -> bool
    ensures { result ≡ code.is_else word }
{
    match word {
        Word::Else => true,
        _ => false,
    }
}

/// One more is open.
fn enter(counts: &mut Vec<u32>) -> Result<(), Oom>
    ensures { OnOk result (reverse counts.new.items ≡ 1 ∷ reverse counts.old.items) }
{
    counts.push(1)?;
    Ok(())
}

/// The innermost is open no more.
fn leave(counts: &mut Vec<u32>)
    ensures { reverse counts.new.items ≡ code.closed (reverse counts.old.items) }
{
    let _ = counts.pop();
}

/// The innermost counts itself alone.
fn restart(counts: &mut Vec<u32>) -> Result<(), Oom>
    ensures { OnOk result (reverse counts.new.items ≡ code.begun (reverse counts.old.items)) }
{
    match counts.pop() {
        Some(_) => {
            counts.push(1)?;
            Ok(())
        }
        None => Ok(()),
    }
}

/// The innermost counts one more.
fn count_more(counts: &mut Vec<u32>) -> Result<(), Oom>
    ensures { OnOk result (reverse counts.new.items ≡ code.counted (reverse counts.old.items)) }
{
    match counts.pop() {
        Some(n) => {
            counts.push(n.checked_add(1).ok_or(Oom)?)?;
            Ok(())
        }
        None => Ok(()),
    }
}

/// Counts a sign.
fn count_sign(counts: &mut Vec<u32>, sign: Sign) -> Result<(), Oom>
    ensures { OnOk result (reverse counts.new.items ≡ code.behind_sign sign (reverse counts.old.items)) }
{
    if opens(sign) {
        return enter(counts);
    }
    if closes(sign) {
        leave(counts);
        return Ok(());
    }
    if parts(sign) {
        return restart(counts);
    }
    if bounds_text(sign) {
        return Ok(());
    }
    count_more(counts)
}

/// Counts a token.
fn count_token(counts: &mut Vec<u32>, kind: &TokenKind) -> Result<(), Oom>
    ensures { OnOk result (reverse counts.new.items ≡ code.behind kind.now (reverse counts.old.items)) }
{
    match kind {
        TokenKind::Sign(sign) => count_sign(counts, *sign),
        TokenKind::Word(word) => {
            if is_else(*word) {
                count_more(counts)
            } else {
                Ok(())
            }
        }
        _ => Ok(()),
    }
}

/// Counts a piece.
fn count_piece(counts: &mut Vec<u32>, kind: &PieceKind) -> Result<(), Oom>
    ensures { OnOk result (reverse counts.new.items ≡ nesting.behind kind.now (reverse counts.old.items)) }
{
    match kind {
        PieceKind::Code(kind) => count_token(counts, kind),
        PieceKind::TagStart(_) => enter(counts),
        PieceKind::EmptyTagEnd => {
            leave(counts);
            Ok(())
        }
        PieceKind::EndTagStart(_) => {
            leave(counts);
            Ok(())
        }
        _ => Ok(()),
    }
}

/// Whether more than 200 are counted.
#[tactic(auto, using(crate::proofs::SumLemmas::too_deep_now, crate::proofs::SumLemmas::not_too_deep))]
fn is_too_deep(counts: &[u32]) -> bool
    ensures { result ≡ nat_lt 200 (sum (reverse counts.now)) }
{
    let mut total = 0u64;
    for n in counts {
        total += u64::from(*n);
        if total > 200 {
            return true;
        }
    }
    false
}

/// The first place of the pieces at which the nesting is above 200.
pub fn first_too_deep(alloc: Global, pieces: &[Piece]) -> Result<Option<Place>, Oom>
    ensures { IfOk result (λ place. place ≡ nesting.too_deep_from [] pieces.now) }
{
    let mut counts: Vec<u32> = Vec::new(alloc);
    for p in pieces {
        count_piece(&mut counts, &p.kind)?;
        if is_too_deep(&counts) {
            return Ok(Some(p.place));
        }
    }
    Ok(None)
}

/// What is open behind all pieces that begin before this character.
pub fn open_before(alloc: Global, start: u32, pieces: &[Piece]) -> Result<Vec<u32>, Oom>
    ensures { IfOk result (λ counts. reverse counts.items ≡ open_before start [] pieces.now) }
{
    let mut counts: Vec<u32> = Vec::new(alloc);
    for p in pieces {
        if p.start >= start {
            return Ok(counts);
        }
        count_piece(&mut counts, &p.kind)?;
    }
    Ok(counts)
}

/// Whether the tokens nest too deep somewhere, with these open round them.
pub fn nests_too_deep(mut counts: Vec<u32>, tokens: &[Token]) -> Result<bool, Oom>
    ensures { IfOk result (λ deep. deep ≡ is_some (code.too_deep_from (reverse counts.items) tokens.now)) }
{
    for t in tokens {
        count_token(&mut counts, &t.kind)?;
        if is_too_deep(&counts) {
            return Ok(true);
        }
    }
    Ok(false)
}
