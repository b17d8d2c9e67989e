// From pieces of code to tokens.
ghost use Rattle.std.specs.Prelude.{◌≡◌, ◌<◌, ◌^◌, Some, None, IfOk, MatchOption};
ghost use Rattle.cs_grammar.specs.Nesting as nesting;
ghost use Rattle.razor_ast.specs.Brackets as brackets;
ghost use Rattle.razor_ast.specs.Brackets.{in_brackets};
ghost use Rattle.razor_reader.specs.Reading.{Gives};
ghost use Rattle.razor_reader.specs.TokenReading as spec;

use crate::fronts::{Front, after};
use crate::mark::{Mark, is_token};
use crate::unread::Unread;
use cs_token::{Sign, Token, TokenKind};
use razor_token::{Piece, PieceKind};
use std::alloc::{AllocError, Global};

fn copy_of(kind: &TokenKind) -> Result<TokenKind, AllocError>
    ensures { IfOk result (λ copy. copy ≡ kind.now) }
{
    match kind {
        TokenKind::Name(text) => Ok(TokenKind::Name(text.clone()?)),
        TokenKind::Number(number) => Ok(TokenKind::Number(*number)),
        TokenKind::Text(text) => Ok(TokenKind::Text(text.clone()?)),
        TokenKind::Part(text) => Ok(TokenKind::Part(text.clone()?)),
        TokenKind::Word(word) => Ok(TokenKind::Word(*word)),
        TokenKind::Sign(sign) => Ok(TokenKind::Sign(*sign)),
    }
}

/// The token that a piece of code is.
fn token_of(p: &Piece, kind: &TokenKind) -> Result<Token, AllocError>
    ensures { IfOk result (λ t. t ≡ brackets.token_of p.now kind.now) }
{
    Ok(Token {
        kind: copy_of(kind)?,
        start: p.start,
        end: p.end,
        place: p.place,
    })
}

pub fn copy_token(t: &Token) -> Result<Token, AllocError>
    ensures { IfOk result (λ copy. copy ≡ t.now) }
{
    Ok(Token {
        kind: copy_of(&t.kind)?,
        start: t.start,
        end: t.end,
        place: t.place,
    })
}

/// The tokens that the pieces of code at the front are.
#[tactic(auto, using(crate::proofs::PieceLoops::code_more, crate::proofs::PieceLoops::code_done, crate::proofs::PieceLoops::code_other))]
pub fn code_first<'a>(alloc: Global, pieces: &'a [Piece]) -> Front<'a, Vec<Token>>
    ensures { Gives (λ x. (x.0.items, x.1.now)) result (Some (spec.code_run pieces.now)) }
{
    let mut tokens = Vec::new(alloc);
    let mut rest = pieces;
    while let Some((p, behind)) = rest.split_first() {
        let PieceKind::Code(kind) = &p.kind else {
            return Ok((tokens, rest));
        };
        tokens.push(token_of(p, kind)?)?;
        rest = behind;
    }
    Ok((tokens, rest))
}

/// The tokens up to and with the first of a mark.
#[tactic(auto, using(crate::proofs::PieceLoops::nothing_before, crate::proofs::PieceLoops::to_more, crate::proofs::PieceLoops::to_last, crate::proofs::PieceLoops::to_other))]
pub fn code_to<'a>(alloc: Global, pieces: &'a [Piece], mark: Mark) -> Front<'a, Vec<Token>>
    ensures { Gives (λ x. (x.0.items, x.1.now)) result (spec.code_to mark pieces.now) }
{
    let mut tokens = Vec::new(alloc);
    let mut rest = pieces;
    while let Some((p, behind)) = rest.split_first() {
        let PieceKind::Code(kind) = &p.kind else {
            return Err(Unread::Syntax(rest.len()));
        };
        let token = token_of(p, kind)?;
        let is_last = is_token(&token, mark);
        tokens.push(token)?;
        if is_last {
            return Ok((tokens, behind));
        }
        rest = behind;
    }
    Err(Unread::Syntax(0))
}

#[tactic(auto, unfolding(cs_grammar::specs::Nesting::opens))]
pub fn opens(sign: Sign) -> bool
    ensures { result ≡ nesting.opens sign }
{
    match sign {
        Sign::OpenRound | Sign::OpenSquare | Sign::OpenBrace | Sign::HoleOpen => true,
        _ => false,
    }
}

#[tactic(auto, unfolding(cs_grammar::specs::Nesting::closes))]
pub fn closes(sign: Sign) -> bool
    ensures { result ≡ nesting.closes sign }
{
    match sign {
        Sign::CloseRound | Sign::CloseSquare | Sign::CloseBrace | Sign::HoleClose => true,
        _ => false,
    }
}

/// One less, if there is one.
fn before(count: usize) -> Option<usize>
    ensures { result ≡ brackets.before count }
{
    if count == 0 { None } else { Some(count - 1) }
}

/// How many brackets are open behind a sign, or none where it closes one more than are open.
fn count_behind_sign(sign: Sign, count: usize) -> Option<usize>
    requires { count < 2 ^ 63 }
    ensures { result ≡ brackets.count_behind_sign sign count }
{
    if opens(sign) {
        Some(count + 1)
    } else if closes(sign) {
        before(count)
    } else {
        Some(count)
    }
}

/// The same behind any token.
fn count_behind(kind: &TokenKind, count: usize) -> Option<usize>
    requires { count < 2 ^ 63 }
    ensures { result ≡ brackets.count_behind kind.now count }
{
    match kind {
        TokenKind::Sign(sign) => count_behind_sign(*sign, count),
        _ => Some(count),
    }
}

/// The tokens up to a bracket that closes one more than are open, and the pieces from that bracket on.
#[tactic(auto, using(crate::proofs::PieceLoops::nothing_before, crate::proofs::PieceLoops::in_more, crate::proofs::PieceLoops::in_end, crate::proofs::PieceLoops::in_other))]
fn inside<'a>(alloc: Global, pieces: &'a [Piece]) -> Front<'a, Vec<Token>>
    ensures { Gives (λ x. (x.0.items, x.1.now)) result (in_brackets pieces.now 0) }
{
    let mut tokens = Vec::new(alloc);
    let mut count = 0;
    let mut rest = pieces;
    while let Some((p, behind)) = rest.split_first() {
        let PieceKind::Code(kind) = &p.kind else {
            return Err(Unread::Syntax(rest.len()));
        };
        let Some(inner) = count_behind(kind, count) else {
            return Ok((tokens, rest));
        };
        tokens.push(token_of(p, kind)?)?;
        count = inner;
        rest = behind;
    }
    Err(Unread::Syntax(0))
}

/// The tokens in round brackets, and the pieces behind these.
pub fn round<'a>(alloc: Global, pieces: &'a [Piece]) -> Front<'a, Vec<Token>>
    ensures { Gives (λ x. (x.0.items, x.1.now)) result (spec.round pieces.now) }
{
    let (tokens, rest) = inside(alloc, after(pieces, Mark::OpenRound)?)?;
    Ok((tokens, after(rest, Mark::CloseRound)?))
}

/// The tokens between a bracket of one mark and one of the other, which are first and last.
pub fn between<'a>(tokens: &'a [Token], opening: Mark, closing: Mark) -> Option<&'a [Token]>
    ensures { MatchOption result
        (spec.between opening closing tokens.now ≡ None)
        (λ inner. spec.between opening closing tokens.now ≡ Some inner.now) }
{
    let (first, rest) = tokens.split_first()?;
    if !is_token(first, opening) {
        return None;
    }
    before_last(rest, closing)
}

/// The tokens before the last, which has this mark.
#[tactic(auto, using(crate::proofs::TokenLemmas::before_last_is, crate::proofs::TokenLemmas::before_none_is))]
fn before_last<'a>(tokens: &'a [Token], mark: Mark) -> Option<&'a [Token]>
    ensures { MatchOption result
        (spec.before_last mark tokens.now ≡ None)
        (λ inner. spec.before_last mark tokens.now ≡ Some inner.now) }
{
    let (last, inner) = tokens.split_last()?;
    if is_token(last, mark) {
        Some(inner)
    } else {
        None
    }
}
