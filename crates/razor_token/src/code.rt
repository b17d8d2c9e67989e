// C# code at the front of a text.
ghost use Rattle.std.specs.Prelude.{◌≡◌, ◌<◌, ◌≤◌, ◌==◌, length, IfOk};
ghost use Rattle.std.specs.List.{list_any};
ghost use Rattle.razor_token.specs.Moving.{Takes, Moves, TakesCode};
ghost use Rattle.razor_token.specs.CodeFronts.{mark, keeps_quote, code_front, code_in, keeps_bare, sign_of, code_kind, opens, closes, code_piece, bracket_sign, bracket_change, bracket_kind, bracket_at, opening_at, name_piece, name_at, chain_at, closing_at, members_at};

use crate::context::{Change, Context};
use crate::found::{CodeFront, Found, piece, text_of};
use crate::runs::begins;
use crate::{PieceKind, Quote};
use cs_token::{Around, Class, Front, Sign, TokenKind, front_of};
use std::alloc::Global;
use text_core::Oom;

impl Quote {
    /// Its character.
    pub(crate) fn mark(self) -> char
        ensures { result ≡ mark self }
    {
        match self {
            Quote::Double => '"',
            Quote::Single => '\'',
        }
    }
}

/// Whether the character stands in the text.
pub(crate) fn contains(wanted: char, text: &[char]) -> bool
    ensures { result ≡ list_any (λ c. c == wanted) text.now }
{
    text.iter().any(|character| *character == wanted)
}

/// Whether no quote stands in the text that ends the value round it.
fn keeps_quote(quote: Option<Quote>, text: &[char]) -> bool
    ensures { result ≡ keeps_quote quote text.now }
{
    match quote {
        None => true,
        Some(quote) => !contains(quote.mark(), text),
    }
}

/// A token, white space or a comment.
#[tactic(auto, using(crate::proofs::FrontLemmas::front_shorter, crate::proofs::FrontLemmas::front_some, crate::proofs::FrontLemmas::front_none))]
pub(crate) fn code_front(
    alloc: Global,
    around: Option<Around>,
    text: &[char],
) -> Result<Option<CodeFront>, Oom>
    ensures same { IfOk result (λ front. front ≡ code_front around text.now) }
    ensures takes { IfOk result (λ front. TakesCode text.now front) }
{
    Ok(match front_of(alloc, around, text)? {
        Front::Piece(token, rest) => Some(CodeFront {
            token,
            count: text.len() - rest.len(),
        }),
        Front::Wrong(..) => None,
    })
}

/// The same, inside the value that this quote ends.
pub(crate) fn code_in(
    alloc: Global,
    quote: Option<Quote>,
    around: Option<Around>,
    text: &[char],
) -> Result<Option<CodeFront>, Oom>
    ensures same { IfOk result (λ front. front ≡ code_in quote around text.now) }
    ensures takes { IfOk result (λ front. TakesCode text.now front) }
{
    Ok(match code_front(alloc, around, text)? {
        Some(front) if keeps_quote(quote, &text[..front.count]) => Some(front),
        _ => None,
    })
}

/// The sign of a token.
pub(crate) fn sign_of(token: &Option<TokenKind>) -> Option<Sign>
    ensures { result ≡ sign_of token.now }
{
    match token {
        Some(TokenKind::Sign(sign)) => Some(*sign),
        _ => None,
    }
}

/// The piece of a token, or of white space or a comment.
fn code_kind(token: Option<TokenKind>) -> PieceKind
    ensures { result ≡ code_kind token }
{
    match token {
        Some(kind) => PieceKind::Code(kind),
        None => PieceKind::Gap,
    }
}

/// A piece of code that changes this.
pub(crate) fn code_piece(front: CodeFront, change: Change) -> Option<Found>
    ensures { result ≡ code_piece front change }
{
    let sign = sign_of(&front.token);
    piece(code_kind(front.token), front.count, change.with_sign(sign))
}

/// Whether the sign opens a bracket.
#[tactic(auto, unfolding(crate::specs::CodeFronts::opens))]
fn opens(sign: Sign) -> bool
    ensures { result ≡ opens sign }
{
    matches!(sign, Sign::OpenRound | Sign::OpenSquare | Sign::OpenBrace)
}

/// Whether the sign closes a bracket.
#[tactic(auto, unfolding(crate::specs::CodeFronts::closes))]
fn closes(sign: Sign) -> bool
    ensures { result ≡ closes sign }
{
    matches!(
        sign,
        Sign::CloseRound | Sign::CloseSquare | Sign::CloseBrace
    )
}

/// What a sign changes in brackets.
fn bracket_sign(quote: Option<Quote>, raw: bool, sign: Sign) -> Change
    ensures { result ≡ bracket_sign quote raw sign }
{
    if opens(sign) {
        Change::enters(Context::Bracket { quote, raw })
    } else if closes(sign) {
        Change::leaves()
    } else {
        Change::stays()
    }
}

/// What a token changes in brackets, where this is open of an interpolated text.
fn bracket_change(
    quote: Option<Quote>,
    raw: bool,
    around: Option<Around>,
    sign: Option<Sign>,
) -> Change
    ensures { result ≡ bracket_change quote raw around sign }
{
    match (around, sign) {
        (None, Some(sign)) => bracket_sign(quote, raw, sign),
        _ => Change::stays(),
    }
}

/// In brackets.
#[tactic(auto, unfolding(crate::specs::CodeFronts::bracket_at))]
pub(crate) fn bracket(
    alloc: Global,
    quote: Option<Quote>,
    raw: bool,
    around: Option<Around>,
    text: &[char],
) -> Result<Option<Found>, Oom>
    ensures same { IfOk result (λ found. found ≡ bracket_at quote raw around text.now) }
    ensures takes { IfOk result (λ found. Takes text.now found) }
{
    let Some(CodeFront { token, count }) = code_in(alloc, quote, around, text)? else {
        return Ok(None);
    };
    let sign = sign_of(&token);
    let change = bracket_change(quote, raw, around, sign).with_sign(sign);
    let kind = if raw {
        PieceKind::Literal(text_of(alloc, &text[..count])?)
    } else {
        code_kind(token)
    };
    Ok(piece(kind, count, change))
}

/// The bracket of `@(`.
#[tactic(auto, unfolding(crate::specs::CodeFronts::opening_at))]
pub(crate) fn opening(text: &[char]) -> Option<Found>
    ensures same { result ≡ opening_at text.now }
    ensures takes { Takes text.now result }
{
    if begins(&['('], text) {
        let inside = Context::Bracket {
            quote: None,
            raw: false,
        };
        piece(
            PieceKind::Code(TokenKind::Sign(Sign::OpenRound)),
            1,
            Change::becomes(inside),
        )
    } else {
        None
    }
}

/// A name, and no other token.
pub(crate) fn name_piece(change: Change, front: Option<CodeFront>) -> Option<Found>
    ensures { result ≡ name_piece change front }
{
    let CodeFront { token, count } = front?;
    match token? {
        TokenKind::Name(name) => piece(PieceKind::Code(TokenKind::Name(name)), count, change),
        _ => None,
    }
}

/// A name behind an at sign or a dot.
#[tactic(auto, unfolding(crate::specs::CodeFronts::name_at))]
pub(crate) fn name(alloc: Global, quote: Option<Quote>, text: &[char]) -> Result<Option<Found>, Oom>
    ensures same { IfOk result (λ found. found ≡ name_at quote text.now) }
    ensures takes { IfOk result (λ found. Takes text.now found) }
{
    let front = code_front(alloc, None, text)?;
    Ok(name_piece(Change::becomes(Context::Chain(quote)), front))
}

/// What goes on with such a name, or the end of the expression.
#[tactic(auto, unfolding(crate::specs::CodeFronts::chain_at))]
pub(crate) fn chain(quote: Option<Quote>, text: &[char]) -> Option<Found>
    ensures same { result ≡ chain_at quote text.now }
    ensures moves { Moves text.now result }
{
    let inside = Context::Bracket { quote, raw: false };
    let (sign, change) = if begins(&['.'], text) && cs_token::begins(Class::Letter, &text[1..]) {
        (Sign::Dot, Change::becomes(Context::Name(quote)))
    } else if begins(&['('], text) {
        (Sign::OpenRound, Change::enters(inside))
    } else if begins(&['['], text) {
        (Sign::OpenSquare, Change::enters(inside))
    } else {
        return closing();
    };
    piece(PieceKind::Code(TokenKind::Sign(sign)), 1, change)
}

/// The end of an expression or of `@code`.
pub(crate) fn closing() -> Option<Found>
    ensures { result ≡ closing_at }
{
    piece(PieceKind::ExpressionEnd, 0, Change::leaves())
}

/// Behind `@code`: white space and comments, and a brace.
#[tactic(auto, unfolding(crate::specs::CodeFronts::members_at))]
pub(crate) fn members(alloc: Global, text: &[char]) -> Result<Option<Found>, Oom>
    ensures same { IfOk result (λ found. found ≡ members_at text.now) }
    ensures takes { IfOk result (λ found. Takes text.now found) }
{
    let Some(front) = code_front(alloc, None, text)? else {
        return Ok(None);
    };
    let inside = Context::Bracket {
        quote: None,
        raw: false,
    };
    Ok(match front.token {
        None => piece(PieceKind::Gap, front.count, Change::stays()),
        Some(TokenKind::Sign(Sign::OpenBrace)) => piece(
            PieceKind::Code(TokenKind::Sign(Sign::OpenBrace)),
            front.count,
            Change::becomes_both(Context::Closing, inside),
        ),
        _ => None,
    })
}
