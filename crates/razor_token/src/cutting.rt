// From a text to its pieces.
ghost use Rattle.std.specs.Prelude.{◌≡◌, ◌+◌, ◌<◌, ◌≤◌, ◌↔◌, [], ◌∷◌, ◌++◌, length, reverse, encode_utf8_all, IfOk, OnOk, IsTrue, MatchResult};
ghost use Rattle.razor_token.specs.Moving.{Moves, Takes};
ghost use Rattle.razor_token.specs.Contexts.{innermost, changed};
ghost use Rattle.razor_token.specs.Cutting.{last_of, found_in, line_behind, opened_behind, ending, Cuts};
ghost use Rattle.razor_token.specs.Answers.{Explains, Cover};
ghost use Rattle.razor_token.specs.Cutters.{IsPlaced, IsWhere, IsFirst, moment_of, Taken, Stepped};

use crate::blocks::{block, head};
use crate::code::{bracket, chain, closing, contains, members, name, opening};
use crate::content::{content, line};
use crate::context::{Change, Context};
use crate::directives::directive;
use crate::found::Found;
use crate::tag_fronts::{end_tag, start_tag};
use crate::values::{code_lead, named, shown_lead, value};
use crate::{Piece, PieceKind, RazorFault};
use cs_token::{Around, Opened, Sign, TokenKind, behind, first_place, innermost, move_past};
use std::alloc::Global;
use text_core::{Oom, Place, Txt};

/// What a cutter has come to: what is open, and how far it went.
#[derive(Drop)]
pub(crate) struct Cutter {
    contexts: Vec<Context>,
    line: bool,
    opened: Vec<Opened>,
    at: usize,
    place: Place,
}

/// The innermost context, which is the last.
fn innermost_context(contexts: &[Context]) -> Option<Context>
    ensures { result ≡ innermost (reverse contexts.now) }
{
    match contexts {
        [] => None,
        [.., last] => Some(*last),
    }
}

/// The last of these characters.
fn last_of(text: &[char]) -> Option<char>
    ensures { result ≡ last_of text.now }
{
    match text {
        [] => None,
        [.., last] => Some(*last),
    }
}

/// What stands at the front of a text in a context.
fn found_in(
    alloc: Global,
    context: Option<Context>,
    in_line: bool,
    around: Option<Around>,
    last: Option<char>,
    text: &[char],
) -> Result<Option<Found>, Oom>
    ensures same { IfOk result (λ found. found ≡ found_in context in_line around last text.now) }
    ensures moves { IfOk result (λ found. Moves text.now found) }
    ensures top { context ≡ None → IfOk result (λ found. Takes text.now found) }
{
    let Some(inner) = context else {
        return content(alloc, None, last, text);
    };
    match inner {
        Context::Element => content(alloc, Some(Context::Element), last, text),
        Context::Line => line(alloc, last, text),
        Context::StartTag { component, void } => start_tag(alloc, component, void, text),
        Context::EndTag => Ok(end_tag(text)),
        Context::Named(holds) => Ok(named(holds, text)),
        Context::Value(held, quote) => value(alloc, held, quote, around, last, text),
        Context::CodeLead => Ok(code_lead(text)),
        Context::ShownLead => Ok(shown_lead(text)),
        Context::Opening => Ok(opening(text)),
        Context::Name(quote) => name(alloc, quote, text),
        Context::Chain(quote) => Ok(chain(quote, text)),
        Context::Closing => Ok(closing()),
        Context::Members => members(alloc, text),
        Context::Bracket { quote, raw } => bracket(alloc, quote, raw, around, text),
        Context::Head { with_else } => head(alloc, with_else, around, text),
        Context::Block { point, with_else } => block(
            alloc, in_line, point, with_else, around, text,
        ),
        Context::Directive(wanted) => directive(alloc, wanted, text),
    }
}

/// Makes a change of the contexts.
fn change_contexts(contexts: &mut Vec<Context>, change: &Change) -> Result<(), Oom>
    ensures { OnOk result (reverse contexts.new.items ≡ changed change.now (reverse contexts.old.items)) }
{
    if change.leaves {
        contexts.pop();
    }
    if let Some(context) = change.enters {
        contexts.push(context)?;
    }
    if let Some(context) = change.within {
        contexts.push(context)?;
    }
    Ok(())
}

/// What is open of an interpolated text behind a sign of code.
fn move_opened(opened: &mut Vec<Opened>, sign: Option<Sign>, place: Place) -> Result<(), Oom>
    ensures { OnOk result (reverse opened.new.items ≡ opened_behind sign place (reverse opened.old.items)) }
{
    match sign {
        Some(sign) => move_past(opened, &Some(TokenKind::Sign(sign)), place),
        None => Ok(()),
    }
}

/// Whether a line is open behind the piece.
fn line_behind(kind: &PieceKind, line: bool) -> bool
    ensures { result ≡ line_behind kind.now line }
{
    match kind {
        PieceKind::LineStart => true,
        PieceKind::LineEnd => false,
        _ => line,
    }
}

impl Cutter {
    fn new(alloc: Global) -> Self
        ensures { IsFirst result }
    {
        Cutter {
            contexts: Vec::new(alloc),
            line: false,
            opened: Vec::new(alloc),
            at: 0,
            place: first_place(),
        }
    }

    /// Takes what was found, the characters of which are these.
    fn take(&mut self, found: Found, here: &[char]) -> Result<Piece, Oom>
        requires room { self.old.at + length here.now ≤ 1048576 }
        requires fits { IsPlaced self.old.at self.old.place }
        ensures { IfOk result (λ piece. Taken self.old found here.now self.new piece) }
    {
        let Found {
            kind,
            count: _,
            change,
        } = found;
        let place = self.place;
        let start = self.at as u32;
        change_contexts(&mut self.contexts, &change)?;
        move_opened(&mut self.opened, change.sign, place)?;
        self.line = line_behind(&kind, self.line);
        self.at += here.len();
        self.place = behind(place, here);
        Ok(Piece {
            kind,
            start,
            end: self.at as u32,
            place,
        })
    }

    /// The piece that stands next, if there is one.
    fn step(&mut self, alloc: Global, text: &[char]) -> Result<Option<Piece>, Oom>
        requires whole { length text.now ≤ 1048576 }
        requires there { IsWhere text.now self.old }
        ensures { IfOk result (λ piece. Stepped text.now self.old piece self.new) }
    {
        let (before, rest) = text.split_at(self.at);
        let context = innermost_context(&self.contexts);
        let around = innermost(&self.opened);
        let Some(found) = found_in(alloc, context, self.line, around, last_of(before), rest)? else {
            return Ok(None);
        };
        let (here, _) = rest.split_at(found.count);
        if self.line && contains('\n', here) {
            return Ok(None);
        }
        Ok(Some(self.take(found, here)?))
    }

    /// Whether the text is at its end, with nothing open.
    fn is_done(&self, text: &[char]) -> bool
        requires { IsWhere text.now self.now }
        ensures { IsTrue result ↔ (moment_of text.now self.now ≡ ending text.now) }
    {
        self.contexts.is_empty() && self.opened.is_empty() && !self.line && self.at == text.len()
    }
}

/// Keeps a piece.
fn keep(pieces: &mut Vec<Piece>, piece: Piece) -> Result<(), Oom>
    ensures { OnOk result (pieces.new.items ≡ pieces.old.items ++ piece ∷ []) }
{
    pieces.push(piece)?;
    Ok(())
}

/// The pieces of these characters.
fn cut(alloc: Global, text: &[char]) -> Result<Vec<Piece>, RazorFault>
    requires { length text.now ≤ 1048576 }
    ensures { MatchResult result (λ pieces. Cuts text.now pieces.items) (Explains text.now) }
{
    let mut cutter = Cutter::new(alloc);
    let mut pieces = Vec::new(alloc);
    while let Some(piece) = cutter.step(alloc, text)? {
        keep(&mut pieces, piece)?;
    }
    if cutter.is_done(text) {
        Ok(pieces)
    } else {
        Err(RazorFault::Syntax {
            place: cutter.place,
        })
    }
}

/// The pieces of Razor text, in order.
pub fn pieces(alloc: Global, text: &Txt) -> Result<Vec<Piece>, RazorFault>
    requires { length (encode_utf8_all text.now) ≤ 1048576 }
    ensures answer { MatchResult result (λ pieces. Cuts text.now pieces.items) (Explains text.now) }
    ensures cover { IfOk result (λ pieces. Cover 0 text.now pieces.items) }
{
    let characters = text.to_chars(alloc)?;
    cut(alloc, &characters)
}
