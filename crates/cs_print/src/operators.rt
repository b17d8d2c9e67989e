// The signs and words of operators, and how tightly they hold.
ghost use Rattle.std.specs.Prelude.{◌≡◌};
ghost use Rattle.cs_grammar.specs.Tables as tables;
ghost use Rattle.cs_print.specs.Printed as spec;

use cs_ast::{AssignOp, BinaryOp, CastOp, StaticType, StepOp, UnaryOp};
use cs_token::{Sign, Word};

#[tactic(auto, unfolding(crate::specs::Printed::operator_sign))]
pub fn operator_sign(op: BinaryOp) -> Sign
    ensures { result ≡ spec.operator_sign op }
{
    match op {
        BinaryOp::Coalesce => Sign::QuestionQuestion,
        BinaryOp::Or => Sign::Or,
        BinaryOp::And => Sign::And,
        BinaryOp::Equal => Sign::Equal,
        BinaryOp::NotEqual => Sign::NotEqual,
        BinaryOp::Less => Sign::Less,
        BinaryOp::Greater => Sign::Greater,
        BinaryOp::LessOrEqual => Sign::LessOrEqual,
        BinaryOp::GreaterOrEqual => Sign::GreaterOrEqual,
        BinaryOp::Add => Sign::Plus,
        BinaryOp::Subtract => Sign::Minus,
        BinaryOp::Multiply => Sign::Star,
        BinaryOp::Divide => Sign::Slash,
        BinaryOp::Remainder => Sign::Percent,
    }
}

#[tactic(auto, unfolding(crate::specs::Printed::unary_sign))]
pub fn unary_sign(op: UnaryOp) -> Sign
    ensures { result ≡ spec.unary_sign op }
{
    match op {
        UnaryOp::Minus => Sign::Minus,
        UnaryOp::Plus => Sign::Plus,
        UnaryOp::Not => Sign::Not,
    }
}

#[tactic(auto, unfolding(crate::specs::Printed::assignment_sign))]
pub fn assignment_sign(op: AssignOp) -> Sign
    ensures { result ≡ spec.assignment_sign op }
{
    match op {
        AssignOp::Set => Sign::Assign,
        AssignOp::Add => Sign::AddAssign,
        AssignOp::Subtract => Sign::SubtractAssign,
        AssignOp::Multiply => Sign::MultiplyAssign,
        AssignOp::Divide => Sign::DivideAssign,
        AssignOp::Remainder => Sign::RemainderAssign,
    }
}

#[tactic(auto, unfolding(crate::specs::Printed::step_sign))]
pub fn step_sign(op: StepOp) -> Sign
    ensures { result ≡ spec.step_sign op }
{
    match op {
        StepOp::Increment => Sign::PlusPlus,
        StepOp::Decrement => Sign::MinusMinus,
    }
}

#[tactic(auto, unfolding(crate::specs::Printed::cast_word))]
pub fn cast_word(op: CastOp) -> Word
    ensures { result ≡ spec.cast_word op }
{
    match op {
        CastOp::Text => Word::String,
        CastOp::Markup => Word::MarkupString,
    }
}

#[tactic(auto, unfolding(crate::specs::Printed::static_word))]
pub fn static_word(owner: StaticType) -> Word
    ensures { result ≡ spec.static_word owner }
{
    match owner {
        StaticType::Int => Word::Int,
        StaticType::Text => Word::String,
    }
}

pub fn truth_word(truth: bool) -> Word
    ensures { result ≡ spec.truth_word truth }
{
    if truth { Word::True } else { Word::False }
}

/// How tightly an operation holds its operands.
#[tactic(auto, unfolding(cs_grammar::specs::Tables::level))]
pub fn level(op: BinaryOp) -> u32
    ensures { result ≡ tables.level op }
{
    match op {
        BinaryOp::Coalesce => 2,
        BinaryOp::Or => 4,
        BinaryOp::And => 5,
        BinaryOp::Equal | BinaryOp::NotEqual => 6,
        BinaryOp::Less | BinaryOp::Greater | BinaryOp::LessOrEqual | BinaryOp::GreaterOrEqual => 7,
        BinaryOp::Add | BinaryOp::Subtract => 8,
        BinaryOp::Multiply | BinaryOp::Divide | BinaryOp::Remainder => 9,
    }
}

/// What it asks of its left operand.
#[tactic(auto, unfolding(cs_grammar::specs::Tables::left_level))]
pub fn left_level(op: BinaryOp) -> u32
    ensures { result ≡ tables.left_level op }
{
    match op {
        BinaryOp::Coalesce => 3,
        _ => level(op),
    }
}

/// What it asks of its right operand.
#[tactic(auto, unfolding(cs_grammar::specs::Tables::level, cs_grammar::specs::Tables::right_level))]
pub fn right_level(op: BinaryOp) -> u32
    ensures { result ≡ tables.right_level op }
{
    match op {
        BinaryOp::Coalesce => 2,
        _ => level(op) + 1,
    }
}
