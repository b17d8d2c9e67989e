// Reads whole statements, over the frames that wait for them.
ghost use Rattle.std.specs.Prelude.{◌≡◌};
ghost use Rattle.cs_parse.specs.Reading.{Gives};
ghost use Rattle.cs_parse.specs.StatementReading as spec;
ghost use Rattle.cs_parse.specs.StatementReading.{statements_in};

use crate::statement::begin::{begin, begins};
use crate::statement::frame::{Frame, Jumps, Next};
use crate::statement::go_on::{block, resume, section, switch};
use crate::tokens::Front;
use crate::unread::Unread;
use cs_ast::Stmt;
use cs_token::Token;
use sqlite_items::{Boxed, Items};
use std::alloc::Global;

/// The statement that stands first.
fn statement_first<'a>(alloc: Global, jumps: Jumps, tokens: &'a [Token]) -> Front<'a, Boxed<Stmt>>
    ensures { Gives (λ x. (x.0, x.1.now)) result (spec.statement_first jumps tokens.now) }
{
    let mut stack: Vec<Frame> = Vec::new(alloc);
    let (mut next, mut rest) = begin(alloc, jumps, tokens)?;
    loop {
        let (following, behind) = match next {
            Next::Done(made) => match stack.pop() {
                Some(frame) => resume(alloc, frame, made, rest)?,
                None => return Ok((made, rest)),
            },
            Next::Inside(frame, inner) => {
                stack.push(frame)?;
                begin(alloc, inner, rest)?
            }
            Next::Block(open) => block(alloc, open, rest)?,
            Next::Switch(open) => switch(alloc, open, rest)?,
            Next::Section(open) => section(open, rest)?,
        };
        next = following;
        rest = behind;
    }
}

/// The statements that stand first, outside all loops and all `switch`.
pub fn body_first<'a>(alloc: Global, tokens: &'a [Token]) -> Front<'a, Items<Stmt>>
    ensures { Gives (λ x. (x.0, x.1.now)) result (spec.statements_first spec.nowhere tokens.now) }
{
    let nowhere = Jumps {
        breaks: false,
        continues: false,
    };
    statements_first(alloc, nowhere, tokens)
}

/// The statements that stand first.
#[tactic(auto, unfolding(crate::specs::StatementReading::statements_first))]
fn statements_first<'a>(alloc: Global, jumps: Jumps, tokens: &'a [Token]) -> Front<'a, Items<Stmt>>
    ensures { Gives (λ x. (x.0, x.1.now)) result (spec.statements_first jumps tokens.now) }
{
    statements(alloc, tokens.len() + 1, jumps, tokens)
}

#[tactic(auto, using(crate::proofs::StatementTurns::statements_start, crate::proofs::StatementTurns::statements_none, crate::proofs::StatementTurns::statements_turn, crate::proofs::StatementTurns::statements_end, crate::proofs::StatementTurns::statements_fail))]
fn statements<'a>(
    alloc: Global,
    fuel: usize,
    jumps: Jumps,
    tokens: &'a [Token],
) -> Front<'a, Items<Stmt>>
    ensures { Gives (λ x. (x.0, x.1.now)) result (statements_in fuel jumps tokens.now) }
{
    let mut found = Items::new(alloc);
    let mut left = fuel;
    let mut tokens = tokens;
    while left > 0 {
        if !begins(tokens) {
            return Ok((found, tokens));
        }
        let (a, rest) = statement_first(alloc, jumps, tokens)?;
        found.push(a.into_inner())?;
        tokens = rest;
        left -= 1;
    }
    Err(Unread::Syntax(tokens.len()))
}
