// Directives at the front of a text.
ghost use Rattle.std.specs.Prelude.{◌≡◌, ◌+◌, ◌<◌, ◌≤◌, length, drop, IfOk};
ghost use Rattle.razor_token.specs.Moving.{Takes, Moves};
ghost use Rattle.razor_token.specs.Directives.{feed_count, with_blanks, named_directive, page_text, page_directive, implements_count, implements_directive, is_directive, line_end, directive_at};

use crate::PieceKind;
use crate::code::{code_front, name_piece};
use crate::context::{Change, Context, Wanted};
use crate::found::{Found, piece};
use crate::runs::{RunKind, begins, run};
use cs_token::{Sign, TokenKind};
use std::alloc::Global;
use text_core::{Oom, Txt};

/// One line feed, if it stands there.
fn feed_count(text: &[char]) -> usize
    ensures same { result ≡ feed_count text.now }
    ensures within { result ≤ length text.now }
{
    if begins(&['\n'], text) { 1 } else { 0 }
}

/// So many characters and the blanks behind them.
fn with_blanks(count: usize, text: &[char]) -> usize
    requires { count ≤ length text.now }
    ensures same { result ≡ with_blanks count text.now }
    ensures within { result ≤ length text.now }
    ensures least { count ≤ result }
{
    count + run(RunKind::Blank, &text[count..])
}

/// Behind a directive's word, of so many characters: blanks and a name.
pub(crate) fn named_directive(count: usize, text: &[char]) -> Option<Found>
    requires { count ≤ length text.now }
    ensures same { result ≡ named_directive count text.now }
    ensures takes { Takes text.now result }
{
    let behind = with_blanks(count, text);
    if behind == count {
        return None;
    }
    let inside = Context::Directive(Wanted::Name);
    piece(PieceKind::Directive, behind, Change::enters(inside))
}

/// Behind a quote, at so many characters: a text to the next quote.
fn page_text(count: usize, text: &[char]) -> Option<Found>
    requires { count ≤ length text.now }
    ensures same { result ≡ page_text count text.now }
    ensures takes { Takes text.now result }
{
    let end = count + run(RunKind::PageText, &text[count..]);
    if begins(&['"'], &text[end..]) {
        let inside = Context::Directive(Wanted::End);
        piece(PieceKind::Directive, end + 1, Change::enters(inside))
    } else {
        None
    }
}

/// Behind `@page`: blanks and a text in double quotes.
pub(crate) fn page_directive(text: &[char]) -> Option<Found>
    requires { 5 ≤ length text.now }
    ensures same { result ≡ page_directive text.now }
    ensures takes { Takes text.now result }
{
    let quote = with_blanks(5, text);
    if begins(&['"'], &text[quote..]) {
        page_text(quote + 1, text)
    } else {
        None
    }
}

/// Behind so many characters: `IDisposable`, with a line feed right behind it.
fn implements_count(count: usize, text: &[char]) -> Option<Found>
    requires { count ≤ length text.now }
    ensures same { result ≡ implements_count count text.now }
    ensures takes { Takes text.now result }
{
    let rest = &text[count..];
    let name = ['I', 'D', 'i', 's', 'p', 'o', 's', 'a', 'b', 'l', 'e'];
    if begins(&name, rest) && run(RunKind::Word, rest) == 11 {
        let end = count + 11;
        let whole = end + feed_count(&text[end..]);
        piece(PieceKind::Implements, whole, Change::stays())
    } else {
        None
    }
}

/// `@implements`, blanks and `IDisposable`.
pub(crate) fn implements_directive(text: &[char]) -> Option<Found>
    requires { 11 ≤ length text.now }
    ensures same { result ≡ implements_directive text.now }
    ensures takes { Takes text.now result }
{
    let behind = with_blanks(11, text);
    if behind == 11 {
        None
    } else {
        implements_count(behind, text)
    }
}

/// Whether the word begins a directive without meaning here.
pub(crate) fn is_directive(word: &Txt) -> bool
    ensures { result ≡ is_directive word.now }
{
    word.is("using") || word.is("namespace") || word.is("rendermode")
}

/// The end of a directive's line.
fn line_end(text: &[char]) -> Option<Found>
    ensures same { result ≡ line_end text.now }
    ensures moves { Moves text.now result }
{
    let blanks = run(RunKind::Blank, text);
    let rest = &text[blanks..];
    if rest.is_empty() || begins(&['\n'], rest) {
        let end = blanks + feed_count(rest);
        piece(PieceKind::DirectiveEnd, end, Change::leaves())
    } else {
        None
    }
}

/// In the line of a directive.
#[tactic(auto, unfolding(crate::specs::Directives::directive_at))]
pub(crate) fn directive(alloc: Global, wanted: Wanted, text: &[char]) -> Result<Option<Found>, Oom>
    ensures same { IfOk result (λ found. found ≡ directive_at wanted text.now) }
    ensures moves { IfOk result (λ found. Moves text.now found) }
{
    match wanted {
        Wanted::Name => {
            let front = code_front(alloc, None, text)?;
            let next = Context::Directive(Wanted::Dot);
            Ok(name_piece(Change::becomes(next), front))
        }
        Wanted::Dot if begins(&['.'], text) => {
            let next = Context::Directive(Wanted::Name);
            let dot = PieceKind::Code(TokenKind::Sign(Sign::Dot));
            Ok(piece(dot, 1, Change::becomes(next)))
        }
        Wanted::Dot | Wanted::End => Ok(line_end(text)),
    }
}
