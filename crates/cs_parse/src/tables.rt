// What the signs and words of an expression do.
ghost use Rattle.std.specs.Prelude.{◌≡◌, ◌≤◌};
ghost use Rattle.cs_grammar.specs.Tables.{left_level, right_level};
ghost use Rattle.cs_parse.specs.ExpressionReading as spec;

use cs_ast::{BinaryOp, StaticType, UnaryOp};
use cs_token::{Sign, Token, TokenKind, Word};

/// What an expression is that begins with a word.
#[derive(Clone, Copy)]
pub enum FirstWord {
    Truth(bool),
    Null,
    New,
    List,
    Static(StaticType),
    Nothing,
}

/// What an expression is that begins with a sign.
#[derive(Clone, Copy)]
pub enum FirstSign {
    Interpolation,
    Round,
    Operator(UnaryOp),
    Nothing,
}

/// How a token goes on with the expression before it.
#[derive(Clone, Copy)]
pub enum Going {
    Conditional,
    Operator(BinaryOp),
    With,
    NullMember,
    Member,
    Call,
    Index,
    Nothing,
}

#[tactic(auto, unfolding(crate::specs::ExpressionReading::first_word))]
pub fn first_word(word: Word) -> FirstWord
    ensures { result ≡ spec.first_word word }
{
    match word {
        Word::True => FirstWord::Truth(true),
        Word::False => FirstWord::Truth(false),
        Word::Null => FirstWord::Null,
        Word::New => FirstWord::New,
        Word::ImmutableList => FirstWord::List,
        Word::Int => FirstWord::Static(StaticType::Int),
        Word::String => FirstWord::Static(StaticType::Text),
        _ => FirstWord::Nothing,
    }
}

#[tactic(auto, unfolding(crate::specs::ExpressionReading::first_sign))]
pub fn first_sign(sign: Sign) -> FirstSign
    ensures { result ≡ spec.first_sign sign }
{
    match sign {
        Sign::InterpolationStart => FirstSign::Interpolation,
        Sign::OpenRound => FirstSign::Round,
        Sign::Minus => FirstSign::Operator(UnaryOp::Minus),
        Sign::Plus => FirstSign::Operator(UnaryOp::Plus),
        Sign::Not => FirstSign::Operator(UnaryOp::Not),
        _ => FirstSign::Nothing,
    }
}

#[tactic(auto, unfolding(crate::specs::ExpressionReading::going_sign))]
pub fn going_sign(sign: Sign) -> Going
    ensures { result ≡ spec.going_sign sign }
{
    match sign {
        Sign::Question => Going::Conditional,
        Sign::QuestionDot => Going::NullMember,
        Sign::Dot => Going::Member,
        Sign::OpenRound => Going::Call,
        Sign::OpenSquare => Going::Index,
        Sign::QuestionQuestion => Going::Operator(BinaryOp::Coalesce),
        Sign::Or => Going::Operator(BinaryOp::Or),
        Sign::And => Going::Operator(BinaryOp::And),
        Sign::Equal => Going::Operator(BinaryOp::Equal),
        Sign::NotEqual => Going::Operator(BinaryOp::NotEqual),
        Sign::Less => Going::Operator(BinaryOp::Less),
        Sign::Greater => Going::Operator(BinaryOp::Greater),
        Sign::LessOrEqual => Going::Operator(BinaryOp::LessOrEqual),
        Sign::GreaterOrEqual => Going::Operator(BinaryOp::GreaterOrEqual),
        Sign::Plus => Going::Operator(BinaryOp::Add),
        Sign::Minus => Going::Operator(BinaryOp::Subtract),
        Sign::Star => Going::Operator(BinaryOp::Multiply),
        Sign::Slash => Going::Operator(BinaryOp::Divide),
        Sign::Percent => Going::Operator(BinaryOp::Remainder),
        _ => Going::Nothing,
    }
}

pub fn going_of(kind: &TokenKind) -> Going
    ensures { result ≡ spec.going kind.now }
{
    match kind {
        TokenKind::Name(name) => {
            if name.is("with") {
                Going::With
            } else {
                Going::Nothing
            }
        }
        TokenKind::Sign(sign) => going_sign(*sign),
        TokenKind::Number(_) | TokenKind::Text(_) | TokenKind::Part(_) | TokenKind::Word(_) =>
            Going::Nothing,
    }
}

#[tactic(auto, unfolding(cs_grammar::specs::Tables::left_level, cs_grammar::specs::Tables::level))]
pub fn left_level(op: BinaryOp) -> u8
    ensures value { result ≡ left_level op }
    ensures small { result ≤ 9 }
{
    match op {
        BinaryOp::Coalesce => 3,
        BinaryOp::Or => 4,
        BinaryOp::And => 5,
        BinaryOp::Equal | BinaryOp::NotEqual => 6,
        BinaryOp::Less | BinaryOp::Greater | BinaryOp::LessOrEqual | BinaryOp::GreaterOrEqual => 7,
        BinaryOp::Add | BinaryOp::Subtract => 8,
        BinaryOp::Multiply | BinaryOp::Divide | BinaryOp::Remainder => 9,
    }
}

#[tactic(auto, unfolding(cs_grammar::specs::Tables::right_level))]
pub fn right_level(op: BinaryOp) -> u8
    ensures { result ≡ right_level op }
{
    match op {
        BinaryOp::Coalesce => 2,
        BinaryOp::Or => 5,
        BinaryOp::And => 6,
        BinaryOp::Equal | BinaryOp::NotEqual => 7,
        BinaryOp::Less | BinaryOp::Greater | BinaryOp::LessOrEqual | BinaryOp::GreaterOrEqual => 8,
        BinaryOp::Add | BinaryOp::Subtract => 9,
        BinaryOp::Multiply | BinaryOp::Divide | BinaryOp::Remainder => 10,
    }
}

pub fn strength(going: Going) -> u8
    ensures { result ≡ spec.strength going }
{
    match going {
        Going::Conditional => 2,
        Going::Operator(op) => left_level(op) + 1,
        Going::With => 11,
        Going::NullMember => 13,
        Going::Member | Going::Call | Going::Index => 14,
        Going::Nothing => 0,
    }
}

/// The strength of the token that stands first.
pub fn next(tokens: &[Token]) -> u8
    ensures { result ≡ spec.next tokens.now }
{
    match tokens.split_first() {
        Some((t, _)) => strength(going_of(&t.kind)),
        None => 0,
    }
}
