// What stands at the front of content.
ghost use Rattle.std.specs.Prelude.{◌≡◌, ◌+◌, ◌<◌, ◌≤◌, false, length, drop, codes, IfOk};
ghost use Rattle.razor_token.specs.declared.context.Context.TheVariants as x;
ghost use Rattle.razor_token.specs.declared.piece.PieceKind.TheVariants as k;
ghost use Rattle.razor_token.specs.declared.runs.RunKind.TheVariants as r;
ghost use Rattle.razor_token.specs.Runs.{run, count_to};
ghost use Rattle.razor_token.specs.Contexts.{stays, enters};
ghost use Rattle.razor_token.specs.Pieces.{piece};
ghost use Rattle.razor_token.specs.Moving.{Takes, Moves};
ghost use Rattle.razor_token.specs.ContentFronts.{comment_to, is_word, is_within_word, shown_at, is_code_word, top_word, word_behind, word_at, transition_at, at_sign, tag_of, end_tag_of, is_element, tag_sign, is_line, content_run, content_at, line_at};

use crate::PieceKind;
use crate::context::{Change, Context};
use crate::directives::{implements_directive, is_directive, named_directive, page_directive};
use crate::found::{Found, literal, piece, text_of};
use crate::runs::{RunKind, begins, count_to, run};
use crate::tags::{is_component, is_void};
use cs_token::Class;
use std::alloc::Global;
use text_core::{Oom, Txt};

/// A comment behind its first two characters.
fn comment(end: &[char], text: &[char]) -> Option<Found>
    requires { 2 ≤ length text.now }
    ensures same { result ≡ comment_to (count_to end.now (drop 2 text.now)) }
    ensures takes { Takes text.now result }
{
    let count = count_to(end, &text[2..])?;
    piece(PieceKind::Comment, count + 2, Change::stays())
}

/// Whether the character is a letter or a digit.
fn is_word(character: Option<char>) -> bool
    ensures { result ≡ is_word character }
{
    match character {
        Some(character) => Class::Word.has(character),
        None => false,
    }
}

/// Whether a letter or a digit stands on both sides.
pub(crate) fn is_within_word(last: Option<char>, behind: &[char]) -> bool
    ensures { result ≡ is_within_word last behind.now }
{
    is_word(last) && cs_token::begins(Class::Word, behind)
}

/// An expression behind an at sign.
pub(crate) fn shown(text: &[char]) -> Option<Found>
    requires { 1 ≤ length text.now }
    ensures same { result ≡ shown_at text.now }
    ensures takes { Takes text.now result }
{
    let change = if begins(&['('], &text[1..]) {
        Change::enters_both(Context::Closing, Context::Opening)
    } else if cs_token::begins(Class::Letter, &text[1..]) {
        Change::enters(Context::Name(None))
    } else {
        return None;
    };
    piece(PieceKind::At, 1, change)
}

/// Whether the word begins code with markup.
pub(crate) fn is_code_word(word: &Txt) -> bool
    ensures { result ≡ is_code_word word.now }
{
    word.is("if") || word.is("switch") || word.is("for") || word.is("foreach") || word.is("while")
}

/// What a word behind an at sign means at the top of a file.
fn top_word(word: &Txt, size: usize, text: &[char]) -> Option<Found>
    requires same { size ≡ length word.now }
    requires within { size + 1 ≤ length text.now }
    ensures same { result ≡ top_word word.now text.now }
    ensures takes { Takes text.now result }
{
    if word.is("code") {
        piece(PieceKind::MembersAt, 5, Change::enters(Context::Members))
    } else if word.is("implements") {
        implements_directive(text)
    } else if word.is("page") {
        page_directive(text)
    } else if is_directive(word) {
        named_directive(size + 1, text)
    } else {
        shown(text)
    }
}

/// What stands behind an at sign, if it is a word.
pub(crate) fn word_behind(alloc: Global, text: &[char]) -> Result<Txt, Oom>
    requires { 1 ≤ length text.now }
    ensures same { IfOk result (λ word. word ≡ word_behind text.now) }
{
    let behind = &text[1..];
    text_of(alloc, &behind[..run(RunKind::Word, behind)])
}

/// The at sign before code with markup.
fn code_at() -> Option<Found>
    ensures { result ≡ piece k.CodeAt 1 (enters (x.Head false)) }
{
    let head = Context::Head { with_else: false };
    piece(PieceKind::CodeAt, 1, Change::enters(head))
}

/// An at sign before a word of so many characters.
fn word_at(context: Option<Context>, word: &Txt, size: usize, text: &[char]) -> Option<Found>
    requires same { size ≡ length word.now }
    requires within { size + 1 ≤ length text.now }
    ensures same { result ≡ word_at context word.now text.now }
    ensures takes { Takes text.now result }
{
    if is_code_word(word) {
        return code_at();
    }
    match context {
        None => top_word(word, size, text),
        Some(_) => shown(text),
    }
}

/// An at sign that isn't literal text and begins no comment.
#[tactic(auto, unfolding(crate::specs::ContentFronts::transition_at))]
fn transition(alloc: Global, context: Option<Context>, text: &[char]) -> Result<Option<Found>, Oom>
    requires { 1 ≤ length text.now }
    ensures same { IfOk result (λ found. found ≡ transition_at context text.now) }
    ensures takes { IfOk result (λ found. Takes text.now found) }
{
    let behind = &text[1..];
    if begins(&['{'], behind) {
        return Ok(code_at());
    }
    let size = run(RunKind::Word, behind);
    let word = text_of(alloc, &behind[..size])?;
    Ok(word_at(context, &word, size, text))
}

/// A piece of literal text that says an at sign.
pub(crate) fn literal_at(alloc: Global, count: usize) -> Result<Option<Found>, Oom>
    ensures { IfOk result (λ found. found ≡ piece (k.Literal (codes "@")) count stays) }
{
    let said = text_of(alloc, &['@'])?;
    Ok(piece(PieceKind::Literal(said), count, Change::stays()))
}

/// An at sign.
#[tactic(auto, unfolding(crate::specs::ContentFronts::at_sign))]
fn at_sign(
    alloc: Global,
    context: Option<Context>,
    last: Option<char>,
    text: &[char],
) -> Result<Option<Found>, Oom>
    requires { 1 ≤ length text.now }
    ensures same { IfOk result (λ found. found ≡ at_sign context last text.now) }
    ensures takes { IfOk result (λ found. Takes text.now found) }
{
    if begins(&['@', '@'], text) {
        literal_at(alloc, 2)
    } else if begins(&['@', '*'], text) {
        Ok(comment(&['*', '@'], text))
    } else if is_within_word(last, &text[1..]) {
        literal_at(alloc, 1)
    } else {
        transition(alloc, context, text)
    }
}

/// `<` and a name.
pub(crate) fn tag(alloc: Global, text: &[char]) -> Result<Option<Found>, Oom>
    requires { 1 ≤ length text.now }
    ensures same { IfOk result (λ found. found ≡ tag_of (run r.TagName (drop 1 text.now)) text.now) }
    ensures takes { IfOk result (λ found. Takes text.now found) }
{
    let behind = &text[1..];
    let count = run(RunKind::TagName, behind);
    if count == 0 {
        return Ok(None);
    }
    let characters = &behind[..count];
    let name = text_of(alloc, characters)?;
    let inside = Context::StartTag {
        component: is_component(characters),
        void: is_void(&name),
    };
    Ok(piece(PieceKind::TagStart(name), count + 1, Change::enters(inside)))
}

/// `</` and a name.
fn end_tag(alloc: Global, text: &[char]) -> Result<Option<Found>, Oom>
    requires { 2 ≤ length text.now }
    ensures same { IfOk result (λ found. found ≡ end_tag_of (run r.TagName (drop 2 text.now)) text.now) }
    ensures takes { IfOk result (λ found. Takes text.now found) }
{
    let behind = &text[2..];
    let count = run(RunKind::TagName, behind);
    if count == 0 {
        return Ok(None);
    }
    let name = text_of(alloc, &behind[..count])?;
    Ok(piece(
        PieceKind::EndTagStart(name),
        count + 2,
        Change::becomes(Context::EndTag),
    ))
}

/// A `<`.
#[tactic(auto, unfolding(crate::specs::ContentFronts::tag_sign))]
fn tag_sign(alloc: Global, context: Option<Context>, text: &[char]) -> Result<Option<Found>, Oom>
    requires { 1 ≤ length text.now }
    ensures same { IfOk result (λ found. found ≡ tag_sign context text.now) }
    ensures takes { IfOk result (λ found. Takes text.now found) }
{
    if begins(&['<', '!', '-', '-'], text) {
        return Ok(comment(&['-', '-', '>'], text));
    }
    if !begins(&['<', '/'], text) {
        return tag(alloc, text);
    }
    match context {
        Some(Context::Element) => end_tag(alloc, text),
        _ => Ok(None),
    }
}

/// The characters of literal text there.
fn content_run(context: Option<Context>) -> RunKind
    ensures { result ≡ content_run context }
{
    match context {
        Some(Context::Line) => RunKind::InLine,
        _ => RunKind::Content,
    }
}

/// Content of the innermost context, or of the file, with this character before it.
#[tactic(auto, unfolding(crate::specs::ContentFronts::content_at))]
pub(crate) fn content(
    alloc: Global,
    context: Option<Context>,
    last: Option<char>,
    text: &[char],
) -> Result<Option<Found>, Oom>
    ensures same { IfOk result (λ found. found ≡ content_at context last text.now) }
    ensures takes { IfOk result (λ found. Takes text.now found) }
{
    if begins(&['@'], text) {
        at_sign(alloc, context, last, text)
    } else if begins(&['<'], text) {
        tag_sign(alloc, context, text)
    } else {
        literal(alloc, run(content_run(context), text), text)
    }
}

/// Content behind `@:`, which ends before a line feed.
#[tactic(auto, unfolding(crate::specs::ContentFronts::line_at))]
pub(crate) fn line(alloc: Global, last: Option<char>, text: &[char]) -> Result<Option<Found>, Oom>
    ensures same { IfOk result (λ found. found ≡ line_at last text.now) }
    ensures moves { IfOk result (λ found. Moves text.now found) }
{
    if begins(&['\n'], text) {
        return Ok(piece(PieceKind::LineEnd, 0, Change::leaves()));
    }
    content(alloc, Some(Context::Line), last, text)
}
