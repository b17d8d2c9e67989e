// What stands at the front of a value of an attribute.
ghost use Rattle.std.specs.Prelude.{◌≡◌, ◌<◌, ◌≤◌, length, take, drop, IfOk};
ghost use Rattle.razor_token.specs.declared.piece.PieceKind.TheVariants as k;
ghost use Rattle.razor_token.specs.Contexts.{leaves};
ghost use Rattle.razor_token.specs.Pieces.{piece};
ghost use Rattle.razor_token.specs.Moving.{Takes, Moves, TakesCode};
ghost use Rattle.razor_token.specs.CodeFronts.{code_front, where_it, keeps_bare};
ghost use Rattle.razor_token.specs.ValueFronts.{quoted_run, quoted_change, bare_change, quoted_start, named_at, code_lead_at, shown_lead_at, shown_in, mixed_at, text_at, bare_text_at, plain_code, code_value_at, bare_code_at, value_at};

use crate::code::{code_front, code_in, code_piece};
use crate::content::{is_within_word, literal_at};
use crate::context::{Change, Context, Held, Holds};
use crate::found::{CodeFront, Found, literal, piece, text_of};
use crate::runs::{RunKind, are_bare, bare_run, begins, run};
use crate::{PieceKind, Quote};
use cs_token::{Around, Class};
use std::alloc::Global;
use text_core::Oom;

/// The characters of literal text in these quotes.
fn quoted_run(quote: Quote) -> RunKind
    ensures { result ≡ quoted_run quote }
{
    match quote {
        Quote::Double => RunKind::DoubleQuoted,
        Quote::Single => RunKind::SingleQuoted,
    }
}

/// What a quoted value is, by what its attribute can have and whether it begins with an at sign.
fn quoted_change(holds: Holds, quote: Quote, at: bool) -> Change
    ensures { result ≡ quoted_change holds quote at }
{
    let held = match holds {
        Holds::Mixed => Held::Mixed,
        Holds::Supplied if !at => Held::Text,
        Holds::Text => Held::Text,
        _ => Held::Code,
    };
    let value = Context::Value(held, Some(quote));
    match holds {
        Holds::Supplied | Holds::Event if at => Change::becomes_both(value, Context::CodeLead),
        _ => Change::becomes(value),
    }
}

/// The same without quotes.
fn bare_change(holds: Holds, at: bool) -> Change
    ensures { result ≡ bare_change holds at }
{
    match holds {
        Holds::Mixed | Holds::Supplied | Holds::Event if at => {
            Change::becomes_both(Context::Value(Held::Ended, None), Context::ShownLead)
        }
        Holds::Code | Holds::Event => Change::becomes(Context::Value(Held::Code, None)),
        _ => Change::becomes(Context::Value(Held::Text, None)),
    }
}

/// `=` and this quote behind it.
fn quoted_start(holds: Holds, quote: Quote, text: &[char]) -> Option<Found>
    requires { 2 ≤ length text.now }
    ensures same { result ≡ quoted_start holds quote text.now }
    ensures takes { Takes text.now result }
{
    let change = quoted_change(holds, quote, begins(&['@'], &text[2..]));
    piece(PieceKind::ValueStart(Some(quote)), 2, change)
}

/// `=` and the quote behind it, or the value.
#[tactic(auto, unfolding(crate::specs::ValueFronts::named_at))]
pub(crate) fn named(holds: Holds, text: &[char]) -> Option<Found>
    ensures same { result ≡ named_at holds text.now }
    ensures takes { Takes text.now result }
{
    if begins(&['=', '"'], text) {
        quoted_start(holds, Quote::Double, text)
    } else if begins(&['=', '\''], text) {
        quoted_start(holds, Quote::Single, text)
    } else if begins(&['='], text) {
        let change = bare_change(holds, begins(&['@'], &text[1..]));
        piece(PieceKind::ValueStart(None), 1, change)
    } else {
        None
    }
}

/// An at sign before the one expression of a quoted value.
#[tactic(auto, unfolding(crate::specs::ValueFronts::code_lead_at))]
pub(crate) fn code_lead(text: &[char]) -> Option<Found>
    ensures same { result ≡ code_lead_at text.now }
    ensures takes { Takes text.now result }
{
    if begins(&['@', '('], text) {
        piece(PieceKind::At, 1, Change::becomes(Context::Opening))
    } else if begins(&['@'], text) {
        piece(PieceKind::At, 1, Change::leaves())
    } else {
        None
    }
}

/// An at sign before the content expression of a value without quotes.
#[tactic(auto, unfolding(crate::specs::ValueFronts::shown_lead_at))]
pub(crate) fn shown_lead(text: &[char]) -> Option<Found>
    ensures same { result ≡ shown_lead_at text.now }
    ensures takes { Takes text.now result }
{
    if begins(&['@', '('], text) {
        let change = Change::becomes_both(Context::Closing, Context::Opening);
        piece(PieceKind::At, 1, change)
    } else if begins(&['@'], text) && cs_token::begins(Class::Letter, &text[1..]) {
        piece(PieceKind::At, 1, Change::becomes(Context::Name(None)))
    } else {
        None
    }
}

/// An expression in a quoted value.
fn shown_in(quote: Quote, text: &[char]) -> Option<Found>
    requires { 1 ≤ length text.now }
    ensures same { result ≡ shown_in quote text.now }
    ensures takes { Takes text.now result }
{
    let change = if begins(&['('], &text[1..]) {
        Change::enters_both(Context::Closing, Context::Opening)
    } else if cs_token::begins(Class::Letter, &text[1..]) {
        Change::enters(Context::Name(Some(quote)))
    } else {
        return None;
    };
    piece(PieceKind::At, 1, change)
}

/// The end of a quoted value.
fn value_end(count: usize) -> Option<Found>
    ensures { result ≡ piece k.ValueEnd count leaves }
{
    piece(PieceKind::ValueEnd, count, Change::leaves())
}

/// Literal text mixed with content expressions.
#[tactic(auto, unfolding(crate::specs::ValueFronts::mixed_at))]
fn mixed(
    alloc: Global,
    quote: Quote,
    last: Option<char>,
    text: &[char],
) -> Result<Option<Found>, Oom>
    ensures same { IfOk result (λ found. found ≡ mixed_at quote last text.now) }
    ensures takes { IfOk result (λ found. Takes text.now found) }
{
    if begins(&[quote.mark()], text) {
        Ok(value_end(1))
    } else if begins(&['@', '@'], text) {
        literal_at(alloc, 2)
    } else if !begins(&['@'], text) {
        literal(alloc, run(quoted_run(quote), text), text)
    } else if is_within_word(last, &text[1..]) {
        literal_at(alloc, 1)
    } else {
        Ok(shown_in(quote, text))
    }
}

/// So many characters as they are.
fn as_they_are(alloc: Global, characters: &[char], change: Change) -> Result<Option<Found>, Oom>
    ensures { IfOk result (λ found. found ≡ piece (k.Literal characters.now) (length characters.now) change) }
{
    let said = text_of(alloc, characters)?;
    Ok(piece(PieceKind::Literal(said), characters.len(), change))
}

/// Characters as they are; a quote in the brackets of `@(..)` is one of them.
#[tactic(auto, unfolding(crate::specs::ValueFronts::text_at))]
fn text_value(alloc: Global, quote: Quote, text: &[char]) -> Result<Option<Found>, Oom>
    ensures same { IfOk result (λ found. found ≡ text_at quote text.now) }
    ensures takes { IfOk result (λ found. Takes text.now found) }
{
    if begins(&[quote.mark()], text) {
        Ok(value_end(1))
    } else if begins(&['@', '@'], text) {
        as_they_are(alloc, &['@', '@'], Change::stays())
    } else if begins(&['@', '('], text) {
        let inside = Context::Bracket {
            quote: None,
            raw: true,
        };
        as_they_are(alloc, &['@', '('], Change::enters(inside))
    } else if begins(&['@'], text) {
        literal_at(alloc, 1)
    } else {
        literal(alloc, run(quoted_run(quote), text), text)
    }
}

/// The same without quotes.
#[tactic(auto, unfolding(crate::specs::ValueFronts::bare_text_at))]
fn bare_text(alloc: Global, text: &[char]) -> Result<Option<Found>, Oom>
    ensures same { IfOk result (λ found. found ≡ bare_text_at text.now) }
    ensures takes { IfOk result (λ found. Takes text.now found) }
{
    let count = bare_run(text);
    if count == 0 {
        return Ok(None);
    }
    let said = text_of(alloc, &text[..count])?;
    let ended = Context::Value(Held::Ended, None);
    Ok(piece(PieceKind::Literal(said), count, Change::becomes(ended)))
}

/// A piece of code that changes nothing else.
fn plain_code(front: Option<CodeFront>) -> Option<Found>
    ensures { result ≡ plain_code front }
{
    let front = front?;
    code_piece(front, Change::stays())
}

/// Code in a quoted value.
#[tactic(auto, unfolding(crate::specs::ValueFronts::code_value_at))]
fn code_value(
    alloc: Global,
    quote: Quote,
    around: Option<Around>,
    text: &[char],
) -> Result<Option<Found>, Oom>
    ensures same { IfOk result (λ found. found ≡ code_value_at quote around text.now) }
    ensures takes { IfOk result (λ found. Takes text.now found) }
{
    if around.is_none() && begins(&[quote.mark()], text) {
        return Ok(value_end(1));
    }
    Ok(plain_code(code_in(alloc, Some(quote), around, text)?))
}

/// Whether a piece of code lies in a value without quotes.
fn keeps_bare(text: &[char], front: &CodeFront) -> bool
    requires { front.now.count ≤ length text.now }
    ensures { result ≡ keeps_bare text.now front.now }
{
    let (here, behind) = text.split_at(front.count);
    are_bare(here) && (front.token.is_some() || !begins(&['>'], behind))
}

/// A piece of code in a value without quotes.
fn bare_front(
    alloc: Global,
    around: Option<Around>,
    text: &[char],
) -> Result<Option<CodeFront>, Oom>
    ensures same { IfOk result (λ front. front ≡ where_it (keeps_bare text.now) (code_front around text.now)) }
    ensures takes { IfOk result (λ front. TakesCode text.now front) }
{
    Ok(match code_front(alloc, around, text)? {
        Some(front) if keeps_bare(text, &front) => Some(front),
        _ => None,
    })
}

/// Code in a value without quotes.
#[tactic(auto, unfolding(crate::specs::ValueFronts::bare_code_at))]
fn bare_code(alloc: Global, around: Option<Around>, text: &[char]) -> Result<Option<Found>, Oom>
    ensures same { IfOk result (λ found. found ≡ bare_code_at around text.now) }
    ensures moves { IfOk result (λ found. Moves text.now found) }
{
    if around.is_none() && bare_run(text) == 0 {
        return Ok(value_end(0));
    }
    Ok(plain_code(bare_front(alloc, around, text)?))
}

/// In a value.
pub(crate) fn value(
    alloc: Global,
    held: Held,
    quote: Option<Quote>,
    around: Option<Around>,
    last: Option<char>,
    text: &[char],
) -> Result<Option<Found>, Oom>
    ensures same { IfOk result (λ found. found ≡ value_at held quote around last text.now) }
    ensures moves { IfOk result (λ found. Moves text.now found) }
{
    match (held, quote) {
        (Held::Mixed, Some(quote)) => mixed(alloc, quote, last, text),
        (Held::Mixed, None) => Ok(None),
        (Held::Text, Some(quote)) => text_value(alloc, quote, text),
        (Held::Text, None) => bare_text(alloc, text),
        (Held::Code, Some(quote)) => code_value(alloc, quote, around, text),
        (Held::Code, None) => bare_code(alloc, around, text),
        (Held::Ended, _) => Ok(value_end(0)),
    }
}
