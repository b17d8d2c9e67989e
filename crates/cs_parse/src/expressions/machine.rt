// Reads an expression, one turn after the other.
ghost use Rattle.std.specs.Prelude.{◌≡◌, ◌+◌, ◌*◌, ◌<◌, ◌≤◌, length, IfOk};
ghost use Rattle.cs_parse.specs.Reading.{Gives};
ghost use Rattle.cs_parse.specs.ExpressionReading as spec;
ghost use Rattle.cs_parse.specs.ExpressionReading.{reads};
ghost use Rattle.cs_parse.specs.Frames.{Moves, cost, go_on};

use crate::expressions::begin::prefix;
use crate::expressions::frame::{Frame, Turn};
use crate::expressions::further::further;
use crate::expressions::resume::resume;
use crate::tables::{going_of, strength};
use crate::tokens::Front;
use crate::unread::Unread;
use cs_ast::Expr;
use cs_token::Token;
use sqlite_items::{Boxed, Items};
use std::alloc::Global;
use text_core::Place;

/// The expression of a level that stands first.
pub fn expr_first<'a>(alloc: Global, level: u8, tokens: &'a [Token]) -> Front<'a, Boxed<Expr>>
    ensures { Gives (λ x. (x.0, x.1.now)) result (spec.expr_first level tokens.now) }
{
    let mut stack = Items::new(alloc);
    let (mut turn, mut left) = begin(alloc, &mut stack, level, tokens)?;
    loop {
        let (next, rest) = match turn {
            Turn::Wanted(form, level) => {
                stack.push(Frame::Form(form))?;
                begin(alloc, &mut stack, level, left)?
            }
            Turn::Found(a) => match stack.pop() {
                Some(frame) => go_on(alloc, &mut stack, frame, a, left)?,
                None => return Ok((a, left)),
            },
        };
        turn = next;
        left = rest;
    }
}

/// Begins an expression of a level.
fn begin<'a>(
    alloc: Global,
    stack: &mut Items<Frame>,
    level: u8,
    tokens: &'a [Token],
) -> Front<'a, Turn>
    ensures read { Moves stack.old ((reads tokens.now).expr level) stack.new result }
    ensures small { IfOk result
        (λ x. cost x.0 x.1.now + length stack.new < 3 * length tokens.now + length stack.old) }
{
    let Some((t, rest)) = tokens.split_first() else {
        return Err(Unread::Syntax(0));
    };
    stack.push(Frame::Operations {
        level,
        place: t.place,
    })?;
    prefix(alloc, t, rest)
}

/// What a frame makes of the expression that it waited for.
fn go_on<'a>(
    alloc: Global,
    stack: &mut Items<Frame>,
    frame: Frame,
    a: Boxed<Expr>,
    tokens: &'a [Token],
) -> Front<'a, Turn>
    ensures read { Moves stack.old (go_on frame a tokens.now) stack.new result }
    ensures small { IfOk result
        (λ x. cost x.0 x.1.now + length stack.new ≤ 3 * length tokens.now + length stack.old) }
{
    match frame {
        Frame::Form(form) => resume(alloc, form, a, tokens),
        Frame::Operations { level, place } => operations(alloc, stack, level, place, a, tokens),
    }
}

/// What goes on at a level after an expression that begins at a place.
fn operations<'a>(
    alloc: Global,
    stack: &mut Items<Frame>,
    level: u8,
    place: Place,
    a: Boxed<Expr>,
    tokens: &'a [Token],
) -> Front<'a, Turn>
    ensures read { Moves stack.old ((reads tokens.now).loop level place a) stack.new result }
    ensures small { IfOk result
        (λ x. cost x.0 x.1.now + length stack.new ≤ 3 * length tokens.now + length stack.old) }
{
    let Some((t, rest)) = tokens.split_first() else {
        return Ok((Turn::Found(a), tokens));
    };
    let going = going_of(&t.kind);
    if strength(going) <= level {
        return Ok((Turn::Found(a), tokens));
    }
    stack.push(Frame::Operations { level, place })?;
    further(alloc, place, a, going, rest)
}
