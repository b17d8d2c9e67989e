// From tokens to the trees of C# that they spell.
ghost use Rattle.std.specs.Prelude.{◌≡◌, Some, None};
ghost use Rattle.razor_reader.specs.CodeReading as spec;
ghost use Rattle.razor_reader.specs.Reading.{Gives};

use crate::mark::Mark;
use crate::tokens::between;
use crate::unread::Unread;
use cs_ast::{CastOp, Expr, ExprKind, Member, Stmt, StmtKind};
use cs_parse::ParseFault;
use cs_token::{Token, TokenKind};
use razor_token::Piece;
use sqlite_items::Items;
use std::alloc::Global;
use text_core::Place;

/// How many pieces are left from the one at this place on.
fn left_from(pieces: &[Piece], place: Place) -> usize {
    for (at, p) in pieces.iter().enumerate() {
        if p.place == place {
            return pieces.len() - at;
        }
    }
    0
}

/// The tokens, of which the pieces are the first, as an expression, an operand as markup, or a lambda.
#[tactic(auto, using(crate::proofs::CodeLemmas::is_spelled, crate::proofs::CodeLemmas::not_spelled, crate::proofs::CodeLemmas::deep_spelled))]
pub fn spelled(alloc: Global, tokens: &[Token], pieces: &[Piece]) -> Result<Expr, Unread>
    ensures { Gives (λ a. a) result (spec.spelled tokens.now) }
{
    match cs_parse::expression(alloc, tokens) {
        Ok(a) => Ok(a),
        Err(ParseFault::Syntax { place }) => Err(Unread::Syntax(left_from(pieces, place))),
        Err(ParseFault::TooDeep { place }) => Err(Unread::Syntax(left_from(pieces, place))),
        Err(ParseFault::Oom) => Err(Unread::Oom),
    }
}

fn is_markup(op: CastOp) -> bool
    ensures { result ≡ spec.is_markup op }
{
    match op {
        CastOp::Markup => true,
        CastOp::Text => false,
    }
}

fn is_lambda(a: &Expr) -> bool
    ensures { result ≡ spec.is_lambda a.now }
{
    match &a.kind {
        ExprKind::Lambda(_, _) => true,
        _ => false,
    }
}

/// Whether it is neither a lambda nor markup.
fn is_plain(a: &Expr) -> bool
    ensures { result ≡ spec.is_plain a.now }
{
    match &a.kind {
        ExprKind::Lambda(_, _) => false,
        ExprKind::Cast(op, _) => !is_markup(*op),
        _ => true,
    }
}

/// The tokens as an expression.
pub fn plain(alloc: Global, tokens: &[Token], pieces: &[Piece]) -> Result<Expr, Unread>
    ensures { Gives (λ a. a) result (spec.plain tokens.now) }
{
    let a = spelled(alloc, tokens, pieces)?;
    if is_plain(&a) {
        Ok(a)
    } else {
        Err(Unread::Syntax(pieces.len()))
    }
}

/// The tokens as an expression or as an operand as markup.
fn value(alloc: Global, tokens: &[Token], pieces: &[Piece]) -> Result<Expr, Unread>
    ensures { Gives (λ a. a) result (spec.value tokens.now) }
{
    let a = spelled(alloc, tokens, pieces)?;
    if is_lambda(&a) {
        Err(Unread::Syntax(pieces.len()))
    } else {
        Ok(a)
    }
}

/// Whether the token is a name.
fn is_name(t: &Token) -> bool
    ensures { result ≡ spec.is_name t.now.kind }
{
    match &t.kind {
        TokenKind::Name(_) => true,
        _ => false,
    }
}

fn begins_with_name(tokens: &[Token]) -> bool
    ensures { result ≡ spec.begins_with_name tokens.now }
{
    match tokens.split_first() {
        Some((t, _)) => is_name(t),
        None => false,
    }
}

/// The tokens behind the at sign of content: a value in brackets, or a name and what goes on with it.
pub fn shown(alloc: Global, tokens: &[Token], pieces: &[Piece]) -> Result<Expr, Unread>
    ensures { Gives (λ a. a) result (spec.shown tokens.now) }
{
    if begins_with_name(tokens) {
        return plain(alloc, tokens, pieces);
    }
    match between(tokens, Mark::OpenRound, Mark::CloseRound) {
        Some(inner) => value(alloc, inner, pieces),
        None => Err(Unread::Syntax(pieces.len())),
    }
}

/// The tokens behind the at sign of a value, which may be in brackets as a whole.
pub fn led(alloc: Global, tokens: &[Token], pieces: &[Piece]) -> Result<Expr, Unread>
    ensures { Gives (λ a. a) result (spec.led tokens.now) }
{
    match spelled(alloc, tokens, pieces) {
        Ok(a) => Ok(a),
        Err(Unread::Oom) => Err(Unread::Oom),
        Err(Unread::Syntax(left)) => match between(tokens, Mark::OpenRound, Mark::CloseRound) {
            Some(inner) => spelled(alloc, inner, pieces),
            None => Err(Unread::Syntax(left)),
        },
    }
}

/// The tokens as members.
#[tactic(auto, using(crate::proofs::CodeLemmas::is_members, crate::proofs::CodeLemmas::not_members, crate::proofs::CodeLemmas::deep_members))]
fn all_members(alloc: Global, tokens: &[Token], pieces: &[Piece]) -> Result<Items<Member>, Unread>
    ensures { Gives (λ a. a) result (spec.all_members tokens.now) }
{
    match cs_parse::members(alloc, tokens) {
        Ok(found) => Ok(found),
        Err(ParseFault::Syntax { place }) => Err(Unread::Syntax(left_from(pieces, place))),
        Err(ParseFault::TooDeep { place }) => Err(Unread::Syntax(left_from(pieces, place))),
        Err(ParseFault::Oom) => Err(Unread::Oom),
    }
}

/// The tokens of `@code` behind its at sign: members in braces.
pub fn members(alloc: Global, tokens: &[Token], pieces: &[Piece]) -> Result<Items<Member>, Unread>
    ensures { Gives (λ a. a) result (spec.members tokens.now) }
{
    match between(tokens, Mark::OpenBrace, Mark::CloseBrace) {
        Some(inner) => all_members(alloc, inner, pieces),
        None => Err(Unread::Syntax(pieces.len())),
    }
}

/// The tokens as statements.
#[tactic(auto, using(crate::proofs::CodeLemmas::is_body, crate::proofs::CodeLemmas::not_body, crate::proofs::CodeLemmas::deep_body))]
fn all_statements(alloc: Global, tokens: &[Token], pieces: &[Piece]) -> Result<Items<Stmt>, Unread>
    ensures { Gives (λ a. a) result (spec.all_statements tokens.now) }
{
    match cs_parse::statements(alloc, tokens) {
        Ok(found) => Ok(found),
        Err(ParseFault::Syntax { place }) => Err(Unread::Syntax(left_from(pieces, place))),
        Err(ParseFault::TooDeep { place }) => Err(Unread::Syntax(left_from(pieces, place))),
        Err(ParseFault::Oom) => Err(Unread::Oom),
    }
}

/// Whether it is a statement without statements in it, and no jump.
fn is_simple(a: &Stmt) -> bool
    ensures { result ≡ spec.is_simple a.now }
{
    match &a.kind {
        StmtKind::Local { .. }
        | StmtKind::Empty
        | StmtKind::Expr(_)
        | StmtKind::Await(_)
        | StmtKind::Return(_) => true,
        _ => false,
    }
}

/// The only statement.
fn only(found: Items<Stmt>, pieces: &[Piece]) -> Result<Stmt, Unread>
    ensures { Gives (λ a. a) result (spec.only found) }
{
    let mut found = found;
    match found.pop() {
        Some(a) if found.is_empty() => Ok(a),
        _ => Err(Unread::Syntax(pieces.len())),
    }
}

/// The tokens, the last a semicolon, as one such statement.
pub fn simple(alloc: Global, tokens: &[Token], pieces: &[Piece]) -> Result<Stmt, Unread>
    ensures { Gives (λ a. a) result (spec.simple tokens.now) }
{
    let a = only(all_statements(alloc, tokens, pieces)?, pieces)?;
    if is_simple(&a) {
        Ok(a)
    } else {
        Err(Unread::Syntax(pieces.len()))
    }
}
