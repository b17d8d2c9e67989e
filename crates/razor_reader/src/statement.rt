// Begins to read statements of code with markup.
ghost use Rattle.std.specs.Prelude.{◌≡◌};
ghost use Rattle.razor_reader.specs.StatementReading as spec;
ghost use Rattle.razor_reader.specs.Reading.{Gives};

use crate::csharp::{plain, simple};
use crate::frame::{Frame, Jumps, Next, OpenBlock, OpenSwitch, Wanted};
use crate::fronts::{Front, Numbered, after, next_number};
use crate::heads::{for_each_head, for_head};
use crate::mark::{Mark, mark_of};
use crate::tokens::{code_to, round};
use crate::unread::Unread;
use cs_ast::{Expr, Stmt, StmtKind};
use razor_ast::TNode;
use razor_token::Piece;
use sqlite_items::Items;
use std::alloc::Global;
use text_core::Place;

/// Outside all loops and all `switch`.
pub fn nowhere() -> Jumps
    ensures { result ≡ spec.nowhere }
{
    Jumps {
        breaks: false,
        continues: false,
    }
}

fn in_loop() -> Jumps
    ensures { result ≡ spec.in_loop }
{
    Jumps {
        breaks: true,
        continues: true,
    }
}

fn in_switch(jumps: Jumps) -> Jumps
    ensures { result ≡ spec.in_switch jumps }
{
    Jumps {
        breaks: true,
        continues: jumps.continues,
    }
}

/// An expression in round brackets.
fn condition_first<'a>(alloc: Global, pieces: &'a [Piece]) -> Front<'a, Expr>
    ensures { Gives (λ x. (x.0, x.1.now)) result (spec.condition_first pieces.now) }
{
    let (tokens, rest) = round(alloc, pieces)?;
    let a = plain(alloc, &tokens, pieces)?;
    Ok((a, rest))
}

/// An `if` behind its word.
fn begun_if<'a>(
    alloc: Global,
    braced: bool,
    place: Place,
    jumps: Jumps,
    number: u32,
    pieces: &'a [Piece],
) -> Numbered<'a, Next>
    ensures { Gives (λ x. (x.0, x.1, x.2.now)) result (spec.begun_if braced place jumps number pieces.now) }
{
    let (condition, rest) = condition_first(alloc, pieces)?;
    let frame = Frame::Yes {
        braced,
        place,
        jumps,
        condition,
    };
    let next = Next::Inside(frame, Wanted::Body { braced, jumps });
    Ok((next, number, rest))
}

/// The body of a loop.
fn inside_loop(frame: Frame, braced: bool) -> Next
    ensures { result ≡ spec.inside_loop frame braced }
{
    let jumps = in_loop();
    Next::Inside(frame, Wanted::Body { braced, jumps })
}

fn begun_while<'a>(
    alloc: Global,
    braced: bool,
    place: Place,
    number: u32,
    pieces: &'a [Piece],
) -> Numbered<'a, Next>
    ensures { Gives (λ x. (x.0, x.1, x.2.now)) result (spec.begun_while braced place number pieces.now) }
{
    let (condition, rest) = condition_first(alloc, pieces)?;
    let next = next_number(number)?;
    let frame = Frame::While {
        number,
        place,
        condition,
    };
    Ok((inside_loop(frame, braced), next, rest))
}

fn begun_for<'a>(
    alloc: Global,
    braced: bool,
    place: Place,
    number: u32,
    pieces: &'a [Piece],
) -> Numbered<'a, Next>
    ensures { Gives (λ x. (x.0, x.1, x.2.now)) result (spec.begun_for braced place number pieces.now) }
{
    let (tokens, rest) = round(alloc, pieces)?;
    let (start, condition, step) = for_head(alloc, &tokens, pieces)?;
    let next = next_number(number)?;
    let frame = Frame::For {
        number,
        place,
        start,
        condition,
        step,
    };
    Ok((inside_loop(frame, braced), next, rest))
}

fn begun_for_each<'a>(
    alloc: Global,
    braced: bool,
    place: Place,
    number: u32,
    pieces: &'a [Piece],
) -> Numbered<'a, Next>
    ensures { Gives (λ x. (x.0, x.1, x.2.now)) result (spec.begun_for_each braced place number pieces.now) }
{
    let (tokens, rest) = round(alloc, pieces)?;
    let (name, list) = for_each_head(alloc, &tokens, pieces)?;
    let next = next_number(number)?;
    let frame = Frame::ForEach {
        number,
        place,
        name,
        list,
    };
    Ok((inside_loop(frame, braced), next, rest))
}

fn begun_switch<'a>(
    alloc: Global,
    place: Place,
    jumps: Jumps,
    number: u32,
    pieces: &'a [Piece],
) -> Numbered<'a, Next>
    ensures { Gives (λ x. (x.0, x.1, x.2.now)) result (spec.begun_switch place jumps number pieces.now) }
{
    let (value, rest) = condition_first(alloc, pieces)?;
    let rest = after(rest, Mark::OpenBrace)?;
    let begun = OpenSwitch {
        place,
        value,
        jumps: in_switch(jumps),
        room: 1,
        sections: Items::new(alloc),
    };
    Ok((Next::Switch(begun), number, rest))
}

/// A block behind its brace.
fn begun_block(alloc: Global, place: Place, jumps: Jumps) -> Next
    ensures { result ≡ spec.begun_block place jumps }
{
    Next::Block(OpenBlock {
        place,
        jumps,
        found: Items::new(alloc),
    })
}

/// A `break` or a `continue` behind its word, where it may stand.
fn jump<'a>(
    allowed: bool,
    place: Place,
    kind: StmtKind,
    number: u32,
    pieces: &'a [Piece],
) -> Numbered<'a, Next>
    ensures { Gives (λ x. (x.0, x.1, x.2.now)) result (spec.jump allowed place kind number pieces.now) }
{
    if !allowed {
        return Err(Unread::Syntax(pieces.len() + 1));
    }
    let rest = after(pieces, Mark::Semicolon)?;
    let node = TNode::Statement(Stmt { place, kind });
    Ok((Next::Done(node), number, rest))
}

/// A statement without statements in it, and no jump.
fn simple_statement<'a>(
    alloc: Global,
    braced: bool,
    number: u32,
    pieces: &'a [Piece],
) -> Numbered<'a, Next>
    ensures { Gives (λ x. (x.0, x.1, x.2.now)) result (spec.simple_statement braced number pieces.now) }
{
    if braced {
        return Err(Unread::Syntax(pieces.len()));
    }
    let (tokens, rest) = code_to(alloc, pieces, Mark::Semicolon)?;
    let a = simple(alloc, &tokens, pieces)?;
    Ok((Next::Done(TNode::Statement(a)), number, rest))
}

/// A statement at a place. Where its bodies have to be blocks, it is no simple one.
pub fn statement<'a>(
    alloc: Global,
    braced: bool,
    place: Place,
    jumps: Jumps,
    number: u32,
    pieces: &'a [Piece],
) -> Numbered<'a, Next>
    ensures { Gives (λ x. (x.0, x.1, x.2.now)) result (spec.statement braced place jumps number pieces.now) }
{
    let Some((p, rest)) = pieces.split_first() else {
        return Err(Unread::Syntax(0));
    };
    match mark_of(p) {
        Mark::OpenBrace => Ok((begun_block(alloc, place, jumps), number, rest)),
        Mark::If => begun_if(alloc, braced, place, jumps, number, rest),
        Mark::While => begun_while(alloc, braced, place, number, rest),
        Mark::For => begun_for(alloc, braced, place, number, rest),
        Mark::Foreach => begun_for_each(alloc, braced, place, number, rest),
        Mark::Switch => begun_switch(alloc, place, jumps, number, rest),
        Mark::Break => jump(
            !braced && jumps.breaks,
            p.place,
            StmtKind::Break,
            number,
            rest,
        ),
        Mark::Continue => jump(
            !braced && jumps.continues,
            p.place,
            StmtKind::Continue,
            number,
            rest,
        ),
        _ => simple_statement(alloc, braced, number, pieces),
    }
}
