// The expression that the text of an attribute spells.
ghost use Rattle.std.specs.Prelude.{◌≡◌, ◌≤◌, length, encode_utf8_all, map, IfOk, Some, None, []};
ghost use Rattle.razor_ast.specs.TextValues as values;
ghost use Rattle.razor_ast.specs.Nesting.{open_before};
ghost use Rattle.razor_reader.specs.TextReading as spec;
ghost use Rattle.razor_reader.specs.Reading.{Gives};

use crate::csharp::spelled;
use crate::depth::{nests_too_deep, open_before};
use crate::unread::Unread;
use cs_ast::Expr;
use cs_token::{LexFault, Token, TokenKind, tokens};
use razor_token::Piece;
use std::alloc::Global;
use text_core::{Oom, Place, Txt};

/// The most bytes that a text has whose tokens are asked for; a whole file has no more.
const BYTES: usize = 1_048_576;

/// A place of a text that begins at another place.
fn place_from(begin: Place, place: Place) -> Result<Place, Oom>
    ensures { IfOk result (λ p. p ≡ values.place_from begin place) }
{
    if place.line == 1 {
        let sum = begin.column.checked_add(place.column).ok_or(Oom)?;
        return Ok(Place {
            line: begin.line,
            column: sum.saturating_sub(1),
        });
    }
    let sum = begin.line.checked_add(place.line).ok_or(Oom)?;
    Ok(Place {
        line: sum.saturating_sub(1),
        column: place.column,
    })
}

/// A token of a text that begins at this place.
fn token_from(begin: Place, token: Token) -> Result<Token, Oom>
    ensures { IfOk result (λ t. t ≡ values.token_from begin token) }
{
    let place = place_from(begin, token.place)?;
    let mut moved = token;
    moved.place = place;
    Ok(moved)
}

/// The tokens of a text, if it spells any.
#[tactic(auto, using(crate::proofs::LexLemmas::spelled_is, crate::proofs::LexLemmas::wrong_is))]
fn spelled_tokens(alloc: Global, text: &Txt) -> Result<Option<Vec<Token>>, Oom>
    ensures { IfOk result (λ found. spec.items_of found ≡ spec.spelled_tokens text.now) }
{
    if text.as_str().len() > BYTES {
        return Err(Oom);
    }
    match tokens(alloc, text) {
        Ok(spelled) => Ok(Some(spelled)),
        Err(LexFault::BadCharacter { .. }) => Ok(None),
        Err(LexFault::UnendedText { .. }) => Ok(None),
        Err(LexFault::UnendedComment { .. }) => Ok(None),
        Err(LexFault::NumberTooWide { .. }) => Ok(None),
        Err(LexFault::Oom) => Err(Oom),
    }
}

/// The tokens of a text that begins at this place.
fn tokens_from(alloc: Global, begin: Place, tokens: Vec<Token>) -> Result<Vec<Token>, Oom>
    ensures { IfOk result (λ moved. moved.items ≡ map (values.token_from begin) tokens.items) }
{
    let mut moved = Vec::new(alloc);
    for token in tokens {
        moved.push(token_from(begin, token)?)?;
    }
    Ok(moved)
}

/// The tokens of a text that begins at this place, if it spells any.
fn text_tokens(alloc: Global, begin: Place, text: &Txt) -> Result<Option<Vec<Token>>, Oom>
    ensures { IfOk result (λ found. spec.items_of found ≡ spec.text_tokens begin text.now) }
{
    match spelled_tokens(alloc, text)? {
        Some(tokens) => Ok(Some(tokens_from(alloc, begin, tokens)?)),
        None => Ok(None),
    }
}

/// The expression that a text spells, which begins at this place behind this character of the pieces, or none.
pub fn text_expression(
    alloc: Global,
    all: &[Piece],
    start: u32,
    begin: Place,
    text: &Txt,
) -> Result<Option<Expr>, Oom>
    ensures { IfOk result (λ a. a ≡ spec.text_expression (open_before start [] all.now) begin text.now) }
{
    let Some(tokens) = text_tokens(alloc, begin, text)? else {
        return Ok(None);
    };
    if nests_too_deep(open_before(alloc, start, all)?, &tokens)? {
        return Ok(None);
    }
    match spelled(alloc, &tokens, &[]) {
        Ok(a) => Ok(Some(a)),
        Err(Unread::Syntax(_)) => Ok(None),
        Err(Unread::Oom) => Err(Oom),
    }
}

/// Whether the text is a name and nothing more.
pub fn is_name_text(alloc: Global, text: &Txt) -> Result<bool, Oom>
    ensures { IfOk result (λ is. is ≡ spec.is_name_text text.now) }
{
    let Some(tokens) = text_tokens(alloc, Place { line: 1, column: 1 }, text)? else {
        return Ok(false);
    };
    match tokens.as_slice() {
        [t] => Ok(is_name_of(t, text)),
        _ => Ok(false),
    }
}

/// Whether the token is the name of these characters.
fn is_name_of(t: &Token, text: &Txt) -> bool
    ensures { result ≡ spec.is_name_of text.now t.now.kind }
{
    match &t.kind {
        TokenKind::Name(name) => name.is(text.as_str()),
        _ => false,
    }
}
