// Begins statements.
ghost use Rattle.std.specs.Prelude.{◌≡◌};
ghost use Rattle.cs_parse.specs.Reading.{Gives};
ghost use Rattle.cs_parse.specs.StatementReading as spec;

use crate::expressions::expr_first;
use crate::statement::frame::{Beginning, Frame, Jumps, Next, OpenBlock, OpenSwitch};
use crate::statement::making::{done, ended};
use crate::statement::simple::{condition_first, simple_first, start_first, step_first};
use crate::statement::views::is_invoke;
use crate::statement::words::after_word;
use crate::tokens::{Front, after, name_first};
use crate::unread::Unread;
use cs_ast::{Expr, Stmt, StmtKind};
use cs_token::{Sign, Token, TokenKind, Word};
use sqlite_items::{Boxed, Items};
use std::alloc::Global;
use text_core::Place;

const IN_LOOP: Jumps = Jumps {
    breaks: true,
    continues: true,
};

fn in_switch(jumps: Jumps) -> Jumps
    ensures { result ≡ spec.in_switch jumps }
{
    Jumps {
        breaks: true,
        continues: jumps.continues,
    }
}

#[tactic(auto, unfolding(crate::specs::StatementReading::by_sign))]
fn by_sign(sign: Sign) -> Beginning
    ensures { result ≡ spec.by_sign sign }
{
    match sign {
        Sign::Semicolon => Beginning::Empty,
        Sign::OpenBrace => Beginning::Block,
        Sign::OpenRound | Sign::InterpolationStart | Sign::Minus | Sign::Plus | Sign::Not => {
            Beginning::Simple
        }
        _ => Beginning::Nothing,
    }
}

#[tactic(auto, unfolding(crate::specs::StatementReading::by_word))]
fn by_word(word: Word) -> Beginning
    ensures { result ≡ spec.by_word word }
{
    match word {
        Word::If => Beginning::If,
        Word::While => Beginning::While,
        Word::For => Beginning::For,
        Word::Foreach => Beginning::ForEach,
        Word::Switch => Beginning::Switch,
        Word::Await => Beginning::Await,
        Word::Break => Beginning::Break,
        Word::Continue => Beginning::Continue,
        Word::Return => Beginning::Return,
        Word::Var
        | Word::True
        | Word::False
        | Word::Null
        | Word::New
        | Word::Int
        | Word::Bool
        | Word::String
        | Word::ImmutableList
        | Word::EventCallback
        | Word::RenderFragment
        | Word::ChangeEventArgs
        | Word::EventArgs
        | Word::MouseEventArgs
        | Word::KeyboardEventArgs
        | Word::FocusEventArgs => Beginning::Simple,
        _ => Beginning::Nothing,
    }
}

fn beginning(kind: &TokenKind) -> Beginning
    ensures { result ≡ spec.beginning kind.now }
{
    match kind {
        TokenKind::Sign(sign) => by_sign(*sign),
        TokenKind::Word(word) => by_word(*word),
        TokenKind::Part(_) => Beginning::Nothing,
        TokenKind::Name(_) | TokenKind::Number(_) | TokenKind::Text(_) => Beginning::Simple,
    }
}

fn is_something(beginning: Beginning) -> bool
    ensures { result ≡ spec.is_something beginning }
{
    match beginning {
        Beginning::Nothing => false,
        _ => true,
    }
}

/// Whether a statement begins here.
pub fn begins(tokens: &[Token]) -> bool
    ensures { result ≡ spec.begins tokens.now }
{
    match tokens.split_first() {
        Some((t, _)) => is_something(beginning(&t.kind)),
        None => false,
    }
}

/// An expression in round brackets.
fn in_round<'a>(alloc: Global, tokens: &'a [Token]) -> Front<'a, Boxed<Expr>>
    ensures { Gives (λ x. (x.0, x.1.now)) result (spec.in_round tokens.now) }
{
    let rest = after(tokens, Sign::OpenRound)?;
    let (a, rest) = expr_first(alloc, 0, rest)?;
    Ok((a, after(rest, Sign::CloseRound)?))
}

fn begun_if<'a>(alloc: Global, jumps: Jumps, place: Place, tokens: &'a [Token]) -> Front<'a, Next>
    ensures { Gives (λ x. (x.0, x.1.now)) result (spec.begun_if jumps place tokens.now) }
{
    let (condition, rest) = in_round(alloc, tokens)?;
    let frame = Frame::Yes {
        place,
        jumps,
        condition,
    };
    Ok((Next::Inside(frame, jumps), rest))
}

fn begun_while<'a>(alloc: Global, place: Place, tokens: &'a [Token]) -> Front<'a, Next>
    ensures { Gives (λ x. (x.0, x.1.now)) result (spec.begun_while place tokens.now) }
{
    let (condition, rest) = in_round(alloc, tokens)?;
    let frame = Frame::While { place, condition };
    Ok((Next::Inside(frame, IN_LOOP), rest))
}

/// The start of a `for` in its signs.
fn for_start<'a>(alloc: Global, tokens: &'a [Token]) -> Front<'a, Option<Boxed<Stmt>>>
    ensures { Gives (λ x. (x.0, x.1.now)) result (spec.for_start tokens.now) }
{
    let rest = after(tokens, Sign::OpenRound)?;
    let (start, rest) = start_first(alloc, rest)?;
    Ok((start, after(rest, Sign::Semicolon)?))
}

/// The condition of a `for`, and the sign behind it.
fn for_condition<'a>(alloc: Global, tokens: &'a [Token]) -> Front<'a, Option<Expr>>
    ensures { Gives (λ x. (x.0, x.1.now)) result (spec.for_condition tokens.now) }
{
    let (condition, rest) = condition_first(alloc, tokens)?;
    Ok((condition, after(rest, Sign::Semicolon)?))
}

/// The step of a `for`, and the sign behind it.
fn for_step<'a>(alloc: Global, tokens: &'a [Token]) -> Front<'a, Option<Expr>>
    ensures { Gives (λ x. (x.0, x.1.now)) result (spec.for_step tokens.now) }
{
    let (step, rest) = step_first(alloc, tokens)?;
    Ok((step, after(rest, Sign::CloseRound)?))
}

fn begun_for<'a>(alloc: Global, place: Place, tokens: &'a [Token]) -> Front<'a, Next>
    ensures { Gives (λ x. (x.0, x.1.now)) result (spec.begun_for place tokens.now) }
{
    let (start, rest) = for_start(alloc, tokens)?;
    let (condition, rest) = for_condition(alloc, rest)?;
    let (step, rest) = for_step(alloc, rest)?;
    let frame = Frame::For {
        place,
        start,
        condition,
        step,
    };
    Ok((Next::Inside(frame, IN_LOOP), rest))
}

fn begun_for_each<'a>(alloc: Global, place: Place, tokens: &'a [Token]) -> Front<'a, Next>
    ensures { Gives (λ x. (x.0, x.1.now)) result (spec.begun_for_each place tokens.now) }
{
    let rest = after(tokens, Sign::OpenRound)?;
    let rest = after_word(rest, Word::Var)?;
    let (name, rest) = name_first(rest)?;
    let rest = after_word(rest, Word::In)?;
    let (list, rest) = expr_first(alloc, 0, rest)?;
    let rest = after(rest, Sign::CloseRound)?;
    let frame = Frame::ForEach { place, name, list };
    Ok((Next::Inside(frame, IN_LOOP), rest))
}

fn begun_switch<'a>(
    alloc: Global,
    jumps: Jumps,
    place: Place,
    tokens: &'a [Token],
) -> Front<'a, Next>
    ensures { Gives (λ x. (x.0, x.1.now)) result (spec.begun_switch jumps place tokens.now) }
{
    let (value, rest) = in_round(alloc, tokens)?;
    let rest = after(rest, Sign::OpenBrace)?;
    let open = OpenSwitch {
        place,
        value,
        jumps: in_switch(jumps),
        room: 1,
        sections: Items::new(alloc),
    };
    Ok((Next::Switch(open), rest))
}

fn begun_await<'a>(alloc: Global, place: Place, tokens: &'a [Token]) -> Front<'a, Next>
    ensures { Gives (λ x. (x.0, x.1.now)) result (spec.begun_await place tokens.now) }
{
    let (a, rest) = expr_first(alloc, 0, tokens)?;
    if !is_invoke(a.get()) {
        return Err(Unread::Syntax(tokens.len()));
    }
    let kind = StmtKind::Await(a.into_inner());
    ended(alloc, place, kind, rest)
}

fn begun_return<'a>(alloc: Global, place: Place, tokens: &'a [Token]) -> Front<'a, Next>
    ensures { Gives (λ x. (x.0, x.1.now)) result (spec.begun_return place tokens.now) }
{
    let (value, rest) = condition_first(alloc, tokens)?;
    let kind = StmtKind::Return(value);
    ended(alloc, place, kind, rest)
}

/// `break` or `continue`, where it may stand.
fn begun_jump<'a>(
    alloc: Global,
    allowed: bool,
    place: Place,
    kind: StmtKind,
    tokens: &'a [Token],
) -> Front<'a, Next>
    ensures { Gives (λ x. (x.0, x.1.now)) result (spec.begun_jump allowed place kind tokens.now) }
{
    if !allowed {
        return Err(Unread::Syntax(tokens.len().saturating_add(1)));
    }
    ended(alloc, place, kind, tokens)
}

/// A statement by the way it begins: its place, and the tokens behind the one there.
fn begun<'a>(
    alloc: Global,
    jumps: Jumps,
    by: Beginning,
    place: Place,
    tokens: &'a [Token],
) -> Front<'a, Next>
    ensures { Gives (λ x. (x.0, x.1.now)) result (spec.begun jumps by place tokens.now) }
{
    match by {
        Beginning::Empty => done(alloc, place, StmtKind::Empty, tokens),
        Beginning::Block => {
            let found = Items::new(alloc);
            let open = OpenBlock {
                place,
                jumps,
                found,
            };
            Ok((Next::Block(open), tokens))
        }
        Beginning::If => begun_if(alloc, jumps, place, tokens),
        Beginning::While => begun_while(alloc, place, tokens),
        Beginning::For => begun_for(alloc, place, tokens),
        Beginning::ForEach => begun_for_each(alloc, place, tokens),
        Beginning::Switch => begun_switch(alloc, jumps, place, tokens),
        Beginning::Await => begun_await(alloc, place, tokens),
        Beginning::Break => begun_jump(alloc, jumps.breaks, place, StmtKind::Break, tokens),
        Beginning::Continue => {
            begun_jump(alloc, jumps.continues, place, StmtKind::Continue, tokens)
        }
        Beginning::Return => begun_return(alloc, place, tokens),
        Beginning::Simple | Beginning::Nothing => {
            Err(Unread::Syntax(tokens.len().saturating_add(1)))
        }
    }
}

/// A local, a change or a call with its semicolon.
fn begun_simple<'a>(alloc: Global, tokens: &'a [Token]) -> Front<'a, Next>
    ensures { Gives (λ x. (x.0, x.1.now)) result (spec.begun_simple tokens.now) }
{
    let (a, rest) = simple_first(alloc, tokens)?;
    let rest = after(rest, Sign::Semicolon)?;
    Ok((Next::Done(a), rest))
}

fn is_simple(beginning: Beginning) -> bool
    ensures { result ≡ spec.is_simple beginning }
{
    match beginning {
        Beginning::Simple => true,
        _ => false,
    }
}

/// The statement that stands first, so far as it is known by what it begins with.
pub fn begin<'a>(alloc: Global, jumps: Jumps, tokens: &'a [Token]) -> Front<'a, Next>
    ensures { Gives (λ x. (x.0, x.1.now)) result (spec.begin jumps tokens.now) }
{
    let Some((t, rest)) = tokens.split_first() else {
        return Err(Unread::Syntax(0));
    };
    let by = beginning(&t.kind);
    if is_simple(by) {
        return begun_simple(alloc, tokens);
    }
    begun(alloc, jumps, by, t.place, rest)
}
