// What pieces and tokens are, by marks that are told apart at once.
ghost use Rattle.std.specs.Prelude.{◌≡◌, ◌↔◌, IsTrue};
ghost use Rattle.razor_reader.specs.Marks as spec;

use cs_token::{Sign, Token, TokenKind, Word};
use razor_token::{Piece, PieceKind};

/// What a piece or a token is, where that is all that the grammar asks of it.
#[derive(Clone, Copy, PartialEq, Eq)]
pub enum Mark {
    Space,
    At,
    CodeAt,
    MembersAt,
    ExpressionEnd,
    Directive,
    DirectiveEnd,
    Implements,
    ValueEnd,
    ContentStart,
    EmptyTagEnd,
    EndTagEnd,
    LineStart,
    LineEnd,
    ValueStart,
    TagStart,
    OpenRound,
    CloseRound,
    OpenBrace,
    CloseBrace,
    Semicolon,
    Colon,
    Minus,
    Break,
    Case,
    Continue,
    Default,
    Else,
    False,
    For,
    Foreach,
    If,
    In,
    Null,
    Switch,
    True,
    Var,
    While,
    Other,
}

#[tactic(auto, unfolding(crate::specs::Marks::sign_mark))]
fn sign_mark(sign: Sign) -> Mark
    ensures { result ≡ spec.sign_mark sign }
{
    match sign {
        Sign::OpenRound => Mark::OpenRound,
        Sign::CloseRound => Mark::CloseRound,
        Sign::OpenBrace => Mark::OpenBrace,
        Sign::CloseBrace => Mark::CloseBrace,
        Sign::Semicolon => Mark::Semicolon,
        Sign::Colon => Mark::Colon,
        Sign::Minus => Mark::Minus,
        _ => Mark::Other,
    }
}

#[tactic(auto, unfolding(crate::specs::Marks::word_mark))]
fn word_mark(word: Word) -> Mark
    ensures { result ≡ spec.word_mark word }
{
    match word {
        Word::Break => Mark::Break,
        Word::Case => Mark::Case,
        Word::Continue => Mark::Continue,
        Word::Default => Mark::Default,
        Word::Else => Mark::Else,
        Word::False => Mark::False,
        Word::For => Mark::For,
        Word::Foreach => Mark::Foreach,
        Word::If => Mark::If,
        Word::In => Mark::In,
        Word::Null => Mark::Null,
        Word::Switch => Mark::Switch,
        Word::True => Mark::True,
        Word::Var => Mark::Var,
        Word::While => Mark::While,
        _ => Mark::Other,
    }
}

fn token_mark(kind: &TokenKind) -> Mark
    ensures { result ≡ spec.token_mark kind.now }
{
    match kind {
        TokenKind::Sign(sign) => sign_mark(*sign),
        TokenKind::Word(word) => word_mark(*word),
        TokenKind::Name(_) | TokenKind::Number(_) | TokenKind::Text(_) | TokenKind::Part(_) => {
            Mark::Other
        }
    }
}

/// What a piece is.
pub fn mark_of(p: &Piece) -> Mark
    ensures { result ≡ spec.mark_of p.now.kind }
{
    match &p.kind {
        PieceKind::Code(kind) => token_mark(kind),
        PieceKind::Space => Mark::Space,
        PieceKind::At => Mark::At,
        PieceKind::CodeAt => Mark::CodeAt,
        PieceKind::MembersAt => Mark::MembersAt,
        PieceKind::ExpressionEnd => Mark::ExpressionEnd,
        PieceKind::Directive => Mark::Directive,
        PieceKind::DirectiveEnd => Mark::DirectiveEnd,
        PieceKind::Implements => Mark::Implements,
        PieceKind::ValueEnd => Mark::ValueEnd,
        PieceKind::ContentStart => Mark::ContentStart,
        PieceKind::EmptyTagEnd => Mark::EmptyTagEnd,
        PieceKind::EndTagEnd => Mark::EndTagEnd,
        PieceKind::LineStart => Mark::LineStart,
        PieceKind::LineEnd => Mark::LineEnd,
        PieceKind::ValueStart(_) => Mark::ValueStart,
        PieceKind::TagStart(_) => Mark::TagStart,
        PieceKind::Literal(_)
        | PieceKind::Comment
        | PieceKind::Gap
        | PieceKind::AttributeName(_)
        | PieceKind::EndTagStart(_) => Mark::Other,
    }
}

fn same(a: Mark, b: Mark) -> bool
    ensures { IsTrue result ↔ (a ≡ b) }
{
    a == b
}

pub fn is(p: &Piece, mark: Mark) -> bool
    ensures { result ≡ spec.is_mark mark p.now.kind }
{
    same(mark_of(p), mark)
}

/// The same of a token.
pub fn is_token(t: &Token, mark: Mark) -> bool
    ensures { result ≡ spec.is_token mark t.now.kind }
{
    same(token_mark(&t.kind), mark)
}
