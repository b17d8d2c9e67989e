// What stands at the front of code with markup.
ghost use Rattle.std.specs.Prelude.{◌≡◌, ◌<◌, ◌≤◌, false, length, drop, IfOk};
ghost use Rattle.razor_token.specs.declared.context.Context.TheVariants as x;
ghost use Rattle.razor_token.specs.declared.context.Point.TheVariants as point;
ghost use Rattle.razor_token.specs.Contexts.{becomes_both};
ghost use Rattle.razor_token.specs.Moving.{Takes};
ghost use Rattle.razor_token.specs.BlockFronts.{head_change, head_change_of, head_at, else_follows, end_change, brace_change, block_sign, behind_name, block_change, block_change_of, statement_at, block_at_sign, is_beginning, block_at};

use crate::PieceKind;
use crate::code::{code_front, code_piece};
use crate::content::{is_code_word, shown, tag, word_behind};
use crate::context::{Change, Context, Point};
use crate::found::{Found, piece, text_of};
use crate::runs::{RunKind, begins, run};
use cs_token::{Around, Sign, TokenKind, Word};
use std::alloc::Global;
use text_core::{Oom, Txt};

/// Brackets of code.
const BRACKET: Context = Context::Bracket {
    quote: None,
    raw: false,
};

/// What a token changes in the head of code with markup.
fn head_change(with_else: bool, kind: &TokenKind) -> Change
    ensures { result ≡ head_change with_else kind.now }
{
    match kind {
        TokenKind::Sign(Sign::OpenBrace) => Change::becomes(Context::Block {
            point: Point::Begins,
            with_else,
        }),
        TokenKind::Sign(Sign::OpenRound | Sign::OpenSquare) => Change::enters(BRACKET),
        TokenKind::Word(Word::If) => Change::becomes(Context::Head { with_else: true }),
        TokenKind::Word(Word::Else) => Change::becomes(Context::Head { with_else: false }),
        _ => Change::stays(),
    }
}

/// The same for white space and comments, and inside an interpolated text.
fn head_change_of(with_else: bool, around: Option<Around>, token: &Option<TokenKind>) -> Change
    ensures { result ≡ head_change_of with_else around token.now }
{
    match (around, token) {
        (None, Some(kind)) => head_change(with_else, kind),
        _ => Change::stays(),
    }
}

/// In a head.
#[tactic(auto, unfolding(crate::specs::BlockFronts::head_at))]
pub(crate) fn head(
    alloc: Global,
    with_else: bool,
    around: Option<Around>,
    text: &[char],
) -> Result<Option<Found>, Oom>
    ensures same { IfOk result (λ found. found ≡ head_at with_else around text.now) }
    ensures takes { IfOk result (λ found. Takes text.now found) }
{
    let Some(front) = code_front(alloc, around, text)? else {
        return Ok(None);
    };
    let change = head_change_of(with_else, around, &front.token);
    Ok(code_piece(front, change))
}

/// Whether the word `else` follows behind white space.
fn else_follows(text: &[char]) -> bool
    ensures { result ≡ else_follows text.now }
{
    let rest = &text[run(RunKind::White, text)..];
    begins(&['e', 'l', 's', 'e'], rest) && run(RunKind::Word, rest) == 4
}

/// A block ends before this text.
fn end_change(with_else: bool, behind: &[char]) -> Change
    ensures { result ≡ end_change with_else behind.now }
{
    if with_else && else_follows(behind) {
        Change::becomes(Context::Head { with_else: false })
    } else {
        Change::leaves()
    }
}

/// What a brace begins.
fn brace_change(point: Point, with_else: bool) -> Change
    ensures { result ≡ brace_change point with_else }
{
    match point {
        Point::BehindWith => becomes_within(with_else),
        _ => {
            let outer = Context::Block {
                point: Point::Begins,
                with_else,
            };
            let inner = Context::Block {
                point: Point::Begins,
                with_else: false,
            };
            Change::becomes_both(outer, inner)
        }
    }
}

/// A bracket begins in a statement.
fn becomes_within(with_else: bool) -> Change
    ensures { result ≡ becomes_both (x.Block point.Within with_else) (x.Bracket None false) }
{
    let outer = Context::Block {
        point: Point::Within,
        with_else,
    };
    Change::becomes_both(outer, BRACKET)
}

/// What a sign changes in a block.
fn block_sign(point: Point, with_else: bool, sign: Sign, behind: &[char]) -> Change
    ensures { result ≡ block_sign point with_else sign behind.now }
{
    let next = match sign {
        Sign::OpenBrace => return brace_change(point, with_else),
        Sign::CloseBrace => return end_change(with_else, behind),
        Sign::OpenRound | Sign::OpenSquare => return becomes_within(with_else),
        Sign::Semicolon | Sign::Colon => Point::Begins,
        _ => Point::Within,
    };
    Change::becomes(Context::Block {
        point: next,
        with_else,
    })
}

/// The point behind a name.
fn behind_name(name: &Txt) -> Point
    ensures { result ≡ behind_name name.now }
{
    if name.is("with") {
        Point::BehindWith
    } else {
        Point::Within
    }
}

/// What a token changes in a block.
fn block_change(point: Point, with_else: bool, kind: &TokenKind, behind: &[char]) -> Change
    ensures { result ≡ block_change point with_else kind.now behind.now }
{
    let next = match kind {
        TokenKind::Sign(sign) => return block_sign(point, with_else, *sign, behind),
        TokenKind::Name(name) => behind_name(name),
        _ => Point::Within,
    };
    Change::becomes(Context::Block {
        point: next,
        with_else,
    })
}

/// The same for white space and comments, and inside an interpolated text.
fn block_change_of(
    point: Point,
    with_else: bool,
    around: Option<Around>,
    token: &Option<TokenKind>,
    behind: &[char],
) -> Change
    ensures { result ≡ block_change_of point with_else around token.now behind.now }
{
    match (around, token) {
        (None, Some(kind)) => block_change(point, with_else, kind, behind),
        _ => Change::stays(),
    }
}

/// Code of a statement.
#[tactic(auto, unfolding(crate::specs::BlockFronts::statement_at))]
fn statement(
    alloc: Global,
    point: Point,
    with_else: bool,
    around: Option<Around>,
    text: &[char],
) -> Result<Option<Found>, Oom>
    ensures same { IfOk result (λ found. found ≡ statement_at point with_else around text.now) }
    ensures takes { IfOk result (λ found. Takes text.now found) }
{
    let Some(front) = code_front(alloc, around, text)? else {
        return Ok(None);
    };
    let behind = &text[front.count..];
    let change = block_change_of(point, with_else, around, &front.token, behind);
    Ok(code_piece(front, change))
}

/// An at sign where a statement begins.
#[tactic(auto, unfolding(crate::specs::BlockFronts::block_at_sign))]
fn at_sign(alloc: Global, in_line: bool, text: &[char]) -> Result<Option<Found>, Oom>
    requires { 1 ≤ length text.now }
    ensures same { IfOk result (λ found. found ≡ block_at_sign in_line text.now) }
    ensures takes { IfOk result (λ found. Takes text.now found) }
{
    if begins(&['@', ':'], text) {
        if in_line {
            return Ok(None);
        }
        return Ok(piece(PieceKind::LineStart, 2, Change::enters(Context::Line)));
    }
    let word = word_behind(alloc, text)?;
    Ok(if is_code_word(&word) {
        piece(PieceKind::CodeAt, 1, Change::stays())
    } else {
        shown(text)
    })
}

/// Whether a statement begins here.
fn is_beginning(point: Point) -> bool
    ensures { result ≡ is_beginning point }
{
    matches!(point, Point::Begins)
}

/// In a block.
#[tactic(auto, unfolding(crate::specs::BlockFronts::block_at))]
pub(crate) fn block(
    alloc: Global,
    in_line: bool,
    point: Point,
    with_else: bool,
    around: Option<Around>,
    text: &[char],
) -> Result<Option<Found>, Oom>
    ensures same { IfOk result (λ found. found ≡ block_at in_line point with_else around text.now) }
    ensures takes { IfOk result (λ found. Takes text.now found) }
{
    if is_beginning(point) && begins(&['@'], text) {
        at_sign(alloc, in_line, text)
    } else if is_beginning(point) && begins(&['<'], text) {
        tag(alloc, text)
    } else {
        statement(alloc, point, with_else, around, text)
    }
}
