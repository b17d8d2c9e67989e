// Makes statements of their parts.
ghost use Rattle.std.specs.Prelude.{◌≡◌, Some};
ghost use Rattle.cs_grammar.specs.Statements.{stmt};
ghost use Rattle.cs_parse.specs.Reading.{Gives};
ghost use Rattle.cs_parse.specs.StatementReading as spec;

use crate::statement::frame::Next;
use crate::tokens::{Front, after};
use crate::unread::Unread;
use cs_ast::{Stmt, StmtKind};
use cs_token::{Sign, Token};
use sqlite_items::Boxed;
use std::alloc::Global;
use text_core::Place;

pub fn statement(alloc: Global, place: Place, kind: StmtKind) -> Result<Boxed<Stmt>, Unread>
    ensures { Gives (λ x. x) result (Some (stmt place kind)) }
{
    Ok(Boxed::new(alloc, Stmt { place, kind })?)
}

/// A whole statement.
pub fn done<'a>(alloc: Global, place: Place, kind: StmtKind, rest: &'a [Token]) -> Front<'a, Next>
    ensures { Gives (λ x. (x.0, x.1.now)) result (spec.done place kind rest.now) }
{
    let made = statement(alloc, place, kind)?;
    Ok((Next::Done(made), rest))
}

/// The same before its semicolon.
pub fn ended<'a>(
    alloc: Global,
    place: Place,
    kind: StmtKind,
    tokens: &'a [Token],
) -> Front<'a, Next>
    ensures { Gives (λ x. (x.0, x.1.now)) result (spec.ended place kind tokens.now) }
{
    let rest = after(tokens, Sign::Semicolon)?;
    done(alloc, place, kind, rest)
}
