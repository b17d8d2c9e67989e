// What stands at the front of a text.
ghost use Rattle.std.specs.Prelude.{◌≡◌, IfOk};
ghost use Rattle.std.specs.Option.{option_map};
ghost use Rattle.cs_token.specs.Reading.Fronts.{read, stopped_at, past_end, comment_at, text_at, number_kind, digits_at, name_kind, name_at, sign_in, sign_here, white_at, code_at, part_at, front_at};

use crate::around::Around;
use crate::characters::{Class, after, begins, split};
use crate::fault::Cause;
use crate::signs::longest_sign;
use crate::written::{Form, said};
use crate::{Sign, TokenKind, Word};
use std::alloc::Global;
use text_core::{Oom, Txt, read_i32};

/// What stands at the front of a text.
#[derive(Debug, Drop)]
pub enum Front<'a> {
    /// A token, or white space or a comment where there is none, and what stands behind it.
    Piece(Option<TokenKind>, &'a [char]),
    /// Nothing that goes on: what is wrong, and the text from the wrong place on.
    Wrong(Cause, &'a [char]),
}

/// Nothing goes on: the line ends, and with it what was open, or a character is part of nothing.
fn stopped<'a>(opening: &'a [char], rest: &'a [char]) -> Front<'a>
    ensures { read result ≡ stopped_at opening.now rest.now }
{
    if begins(Class::Inline, rest) {
        Front::Wrong(Cause::BadCharacter, rest)
    } else {
        Front::Wrong(Cause::UnendedText, opening)
    }
}

/// What stands behind the end of a comment, which may have to be in the line.
fn past_end(in_line: bool, text: &[char]) -> Option<&[char]>
    ensures { option_map (λ rest. rest.now) result ≡ past_end in_line text.now }
{
    let mut rest = text;
    while let [first, next @ ..] = rest {
        if let Some(behind) = after(&['*', '/'], rest) {
            return Some(behind);
        }
        if in_line && *first == '\n' {
            return None;
        }
        rest = next;
    }
    None
}

/// A comment, from its opening on.
fn comment<'a>(in_line: bool, opening: &'a [char], body: &'a [char]) -> Front<'a>
    ensures { read result ≡ comment_at in_line opening.now body.now }
{
    match past_end(in_line, body) {
        Some(rest) => Front::Piece(None, rest),
        None if in_line => Front::Wrong(Cause::UnendedText, opening),
        None => Front::Wrong(Cause::UnendedComment, opening),
    }
}

/// A text in double quotes, from the opening one on.
fn quoted<'a>(alloc: Global, opening: &'a [char], body: &'a [char]) -> Result<Front<'a>, Oom>
    ensures { IfOk result (λ front. read front ≡ text_at opening.now body.now) }
{
    let (text, rest) = said(alloc, Form::Quoted, body)?;
    Ok(match after(&['"'], rest) {
        Some(rest) => Front::Piece(Some(TokenKind::Text(text)), rest),
        None => stopped(opening, rest),
    })
}

/// What stands at the front of the literal text of an interpolated text.
#[tactic(auto, unfolding(crate::specs::Reading::Fronts::part_at))]
fn part(alloc: Global, text: &[char]) -> Result<Front<'_>, Oom>
    ensures { IfOk result (λ front. read front ≡ part_at text.now) }
{
    let (part, rest) = said(alloc, Form::Part, text)?;
    if part.first().is_some() {
        return Ok(Front::Piece(Some(TokenKind::Part(part)), rest));
    }
    if let Some(rest) = after(&['"'], rest) {
        return Ok(Front::Piece(Some(TokenKind::Sign(Sign::InterpolationEnd)), rest));
    }
    if let Some(rest) = after(&['{'], rest) {
        return Ok(Front::Piece(Some(TokenKind::Sign(Sign::HoleOpen)), rest));
    }
    Ok(stopped(rest, rest))
}

/// The text of these characters.
fn text_of(alloc: Global, characters: &[char]) -> Result<Txt, Oom>
    ensures { IfOk result (λ text. text ≡ characters.now) }
{
    let mut text = Txt::new(alloc);
    for character in characters {
        text.push(*character)?;
    }
    Ok(text)
}

/// A word, or a name.
fn name(alloc: Global, text: &[char]) -> Result<Front<'_>, Oom>
    ensures { IfOk result (λ front. read front ≡ name_at text.now) }
{
    let (name, rest) = split(Class::Word, text);
    let name = text_of(alloc, name)?;
    let kind = match Word::of(&name) {
        Some(word) => TokenKind::Word(word),
        None => TokenKind::Name(name),
    };
    Ok(Front::Piece(Some(kind), rest))
}

/// A number.
fn number(alloc: Global, text: &[char]) -> Result<Front<'_>, Oom>
    ensures { IfOk result (λ front. read front ≡ digits_at text.now) }
{
    let (digits, rest) = split(Class::Digit, text);
    let digits = text_of(alloc, digits)?;
    Ok(match read_i32(&digits) {
        Some(number) => Front::Piece(Some(TokenKind::Number(number)), rest),
        None => Front::Wrong(Cause::NumberTooWide, text),
    })
}

/// The sign as it is meant here: a closing brace in a hole ends the hole.
fn meant(around: Option<Around>, sign: Sign) -> Sign
    ensures { result ≡ sign_in around sign }
{
    match (around, sign) {
        (Some(Around::Hole), Sign::CloseBrace) => Sign::HoleClose,
        _ => sign,
    }
}

/// A sign.
fn sign(around: Option<Around>, text: &[char]) -> Front<'_>
    ensures { read result ≡ sign_here around text.now }
{
    if let Some(sign) = longest_sign(text) {
        if let Some(rest) = after(sign.mark(), text) {
            return Front::Piece(Some(TokenKind::Sign(meant(around, sign))), rest);
        }
    }
    stopped(text, text)
}

/// White space.
fn white(in_line: bool, text: &[char]) -> Front<'_>
    ensures { read result ≡ white_at in_line text.now }
{
    match text {
        [first, rest @ ..] if !(in_line && *first == '\n') => Front::Piece(None, rest),
        _ => Front::Wrong(Cause::UnendedText, text),
    }
}

/// What stands at the front of code.
#[tactic(auto, unfolding(crate::specs::Reading::Fronts::code_at))]
fn code(alloc: Global, around: Option<Around>, text: &[char]) -> Result<Front<'_>, Oom>
    ensures { IfOk result (λ front. read front ≡ code_at around text.now) }
{
    let in_line = around.is_some();
    if begins(Class::White, text) {
        return Ok(white(in_line, text));
    }
    if begins(Class::Letter, text) {
        return name(alloc, text);
    }
    if begins(Class::Digit, text) {
        return number(alloc, text);
    }
    if let Some(body) = after(&['"'], text) {
        return quoted(alloc, text, body);
    }
    if let Some(body) = after(&['/', '/'], text) {
        let (_, rest) = split(Class::Inline, body);
        return Ok(Front::Piece(None, rest));
    }
    if let Some(body) = after(&['/', '*'], text) {
        return Ok(comment(in_line, text, body));
    }
    Ok(sign(around, text))
}

/// What stands at the front of a text, where this is open round it.
pub fn front_of(alloc: Global, around: Option<Around>, text: &[char]) -> Result<Front<'_>, Oom>
    ensures { IfOk result (λ front. read front ≡ front_at around text.now) }
{
    match around {
        Some(Around::Interpolation) => part(alloc, text),
        _ => code(alloc, around, text),
    }
}
