// Reads what stands in the brackets of `for` and `foreach`.
ghost use Rattle.std.specs.Prelude.{◌≡◌, ◌++◌, ◌∷◌, [], Some, None, IfOk, MatchOption};
ghost use Rattle.razor_reader.specs.HeadReading as spec;
ghost use Rattle.razor_reader.specs.Reading.{Gives};

use crate::csharp::{plain, simple};
use crate::mark::{Mark, is_token};
use crate::tokens::copy_token;
use crate::unread::Unread;
use cs_ast::{Expr, Ident, Stmt, StmtKind};
use cs_token::{Token, TokenKind};
use razor_token::Piece;
use std::alloc::{AllocError, Global};

/// The tokens up to and with the first semicolon, and those behind it.
#[tactic(auto, using(crate::proofs::HeadLoops::nothing_head, crate::proofs::HeadLoops::semicolon_more, crate::proofs::HeadLoops::semicolon_here, crate::proofs::HeadLoops::semicolon_none))]
fn to_semicolon<'a>(tokens: &'a [Token]) -> Option<(&'a [Token], &'a [Token])>
    ensures { MatchOption result
        (spec.to_semicolon tokens.now ≡ None)
        (λ x. spec.to_semicolon tokens.now ≡ Some (x.0.now, x.1.now)) }
{
    for (at, t) in tokens.iter().enumerate() {
        if is_token(t, Mark::Semicolon) {
            return Some(tokens.split_at(at + 1));
        }
    }
    None
}

/// The statement that begins a `for`, of which the tokens have the semicolon: a local, a change or a call, or none.
fn start(alloc: Global, tokens: &[Token], pieces: &[Piece]) -> Result<Option<Stmt>, Unread>
    ensures { Gives (λ a. a) result (spec.start tokens.now) }
{
    let a = simple(alloc, tokens, pieces)?;
    match &a.kind {
        StmtKind::Local { .. } | StmtKind::Expr(_) => Ok(Some(a)),
        StmtKind::Empty => Ok(None),
        _ => Err(Unread::Syntax(pieces.len())),
    }
}

/// The tokens without the last.
#[tactic(auto, using(crate::proofs::HeadLoops::without_is))]
fn without_last<'a>(tokens: &'a [Token]) -> &'a [Token]
    ensures { result.now ≡ spec.without_last tokens.now }
{
    match tokens.split_last() {
        Some((_, inner)) => inner,
        None => tokens,
    }
}

/// The condition of a `for`, of which the tokens have the semicolon: an expression, or none.
fn condition(alloc: Global, tokens: &[Token], pieces: &[Piece]) -> Result<Option<Expr>, Unread>
    ensures { Gives (λ a. a) result (spec.condition tokens.now) }
{
    let tokens = without_last(tokens);
    if tokens.is_empty() {
        return Ok(None);
    }
    Ok(Some(plain(alloc, tokens, pieces)?))
}

/// The tokens with a last one behind them.
fn with_last(alloc: Global, tokens: &[Token], last: &Token) -> Result<Vec<Token>, AllocError>
    ensures { IfOk result (λ all. all.items ≡ tokens.now ++ last.now ∷ []) }
{
    let mut all = Vec::new(alloc);
    for t in tokens {
        all.push(copy_token(t)?)?;
    }
    all.push(copy_token(last)?)?;
    Ok(all)
}

/// The expression of a statement that is a change or a call.
fn act(a: Stmt, pieces: &[Piece]) -> Result<Option<Expr>, Unread>
    ensures { Gives (λ a. a) result (spec.act a) }
{
    let Stmt { kind, .. } = a;
    match kind {
        StmtKind::Expr(a) => Ok(Some(a)),
        StmtKind::Empty => Ok(None),
        _ => Err(Unread::Syntax(pieces.len())),
    }
}

/// The step of a `for`: a change or a call, or none. The semicolon is one from elsewhere.
fn step(
    alloc: Global,
    tokens: &[Token],
    semicolon: &Token,
    pieces: &[Piece],
) -> Result<Option<Expr>, Unread>
    ensures { Gives (λ a. a) result (spec.step tokens.now semicolon.now) }
{
    let all = with_last(alloc, tokens, semicolon)?;
    act(simple(alloc, &all, pieces)?, pieces)
}

/// What begins, ends and goes on with a `for`.
pub type ForParts = (Option<Stmt>, Option<Expr>, Option<Expr>);

/// The parts of a `for`, of which the first two have their semicolons.
#[tactic(auto, using(crate::proofs::HeadLoops::last_is, crate::proofs::HeadLoops::last_none))]
fn three_parts(
    alloc: Global,
    first: &[Token],
    second: &[Token],
    third: &[Token],
    pieces: &[Piece],
) -> Result<ForParts, Unread>
    ensures { Gives (λ a. a) result (spec.three_parts first.now second.now third.now) }
{
    let Some(semicolon) = second.last() else {
        return Err(Unread::Syntax(pieces.len()));
    };
    let start = start(alloc, first, pieces)?;
    let condition = condition(alloc, second, pieces)?;
    let step = step(alloc, third, semicolon, pieces)?;
    Ok((start, condition, step))
}

/// What stands in the brackets of a `for`.
pub fn for_head(alloc: Global, tokens: &[Token], pieces: &[Piece]) -> Result<ForParts, Unread>
    ensures { Gives (λ a. a) result (spec.for_head tokens.now) }
{
    let Some((first, rest)) = to_semicolon(tokens) else {
        return Err(Unread::Syntax(pieces.len()));
    };
    let Some((second, third)) = to_semicolon(rest) else {
        return Err(Unread::Syntax(pieces.len()));
    };
    three_parts(alloc, first, second, third, pieces)
}

/// A name as part of a tree.
fn name_of(t: &Token) -> Result<Ident, Unread>
    ensures { Gives (λ n. n) result (spec.name_of t.now) }
{
    match &t.kind {
        TokenKind::Name(name) => Ok(Ident {
            place: t.place,
            name: name.clone()?,
        }),
        _ => Err(Unread::Syntax(0)),
    }
}

/// What stands in the brackets of a `foreach`.
pub fn for_each_head(
    alloc: Global,
    tokens: &[Token],
    pieces: &[Piece],
) -> Result<(Ident, Expr), Unread>
    ensures { Gives (λ a. a) result (spec.for_each_head tokens.now) }
{
    let [var, name, within, list @ ..] = tokens else {
        return Err(Unread::Syntax(pieces.len()));
    };
    if !is_token(var, Mark::Var) || !is_token(within, Mark::In) {
        return Err(Unread::Syntax(pieces.len()));
    }
    let name = match name_of(name) {
        Ok(name) => name,
        Err(Unread::Syntax(_)) => return Err(Unread::Syntax(pieces.len())),
        Err(Unread::Oom) => return Err(Unread::Oom),
    };
    Ok((name, plain(alloc, list, pieces)?))
}
