// The reader of expressions.
ghost use Rattle.std.specs.Prelude.{◌≡◌, ◌<◌, ◌≤◌, ◌^◌, Some, length, IsTrue};
ghost use Rattle.text_core.specs.Ascii.{is_ascii};
ghost use Rattle.cs_ast.specs.declared.code.Code.TheVariants as code;
ghost use Rattle.first_click.specs.Expressions.{field_number, leaf, operator, tightness};
ghost use Rattle.first_click.specs.Reading.Expressions as spec;
ghost use Rattle.first_click.specs.Reading.Expressions.{Gives, within, expression_in, operations_in, behind_token};

use super::component::Field;
use super::names::is_of_letters;
use super::stop::Stop;
use cs_ast::{BinaryOp, Code};
use sqlite_items::Boxed;
use std::alloc::Global;
use text_core::{Txt, read_i32};

/// The position of the field with this name.
pub fn field_number(fields: &[Field], name: &Txt) -> Option<u32>
    requires { length fields.now < 2 ^ 32 }
    ensures { result ≡ field_number fields.now name.now }
{
    for (at, field) in fields.iter().enumerate() {
        if field.name == *name {
            return Some(at as u32);
        }
    }
    None
}

#[tactic(auto, unfolding(crate::specs::Expressions::operator))]
fn operator_of(token: &Txt) -> Option<BinaryOp>
    ensures { result ≡ operator token.now }
{
    if token.is("+") {
        return Some(BinaryOp::Add);
    }
    if token.is("-") {
        return Some(BinaryOp::Subtract);
    }
    if token.is("*") {
        return Some(BinaryOp::Multiply);
    }
    None
}

#[tactic(auto, unfolding(crate::specs::Expressions::tightness))]
fn tightness_of(op: BinaryOp) -> u8
    ensures value { result ≡ tightness op }
    ensures small { result ≤ 1 }
{
    match op {
        BinaryOp::Multiply => 1,
        _ => 0,
    }
}

fn binary(alloc: Global, op: BinaryOp, a: Code, b: Code) -> Result<Code, Stop>
    ensures { Gives (λ x. x) result (Some (code.Binary op a b)) }
{
    Ok(Code::Binary(op, Boxed::new(alloc, a)?, Boxed::new(alloc, b)?))
}

/// The tokens behind this one, which has to stand first.
pub fn behind_token<'a>(wanted: &str, tokens: &'a [Txt]) -> Result<&'a [Txt], Stop>
    requires { IsTrue (is_ascii wanted.now) }
    ensures { Gives (λ rest. rest.now) result (behind_token wanted.now tokens.now) }
{
    let Some((token, rest)) = tokens.split_first() else {
        return Err(Stop::Nothing);
    };
    if token.is(wanted) {
        return Ok(rest);
    }
    Err(Stop::Nothing)
}

/// The number that a token writes, or the field that it names.
#[tactic(auto, unfolding(crate::specs::Expressions::leaf))]
fn leaf(fields: &[Field], token: &Txt) -> Result<Code, Stop>
    requires { length fields.now < 2 ^ 32 }
    ensures { Gives (λ x. x) result (leaf fields.now token.now) }
{
    if is_of_letters(token) {
        let Some(number) = field_number(fields, token) else {
            return Err(Stop::Nothing);
        };
        return Ok(Code::Field(number));
    }
    let Some(number) = read_i32(token) else {
        return Err(Stop::Nothing);
    };
    Ok(Code::Int(number))
}

/// The expression of a level that stands first, and what stands behind it.
#[cycle(expressions)]
#[tactic(auto, using(crate::proofs::Reading::ExpressionLaws::expression_law, crate::proofs::Reading::ExpressionLaws::expression_none))]
pub fn expression<'a>(
    alloc: Global,
    fields: &[Field],
    fuel: usize,
    level: u8,
    tokens: &'a [Txt],
) -> Result<(Code, &'a [Txt]), Stop>
    requires { length fields.now < 2 ^ 32 }
    ensures { Gives (λ x. (x.0, x.1.now)) result (expression_in fields.now fuel level tokens.now) }
{
    if fuel == 0 {
        return Err(Stop::Nothing);
    }
    let Some((token, rest)) = tokens.split_first() else {
        return Err(Stop::Nothing);
    };
    let (a, rest) = operand(alloc, fields, fuel - 1, token, rest)?;
    operations(alloc, fields, fuel - 1, level, a, rest)
}

/// The operand that begins with this token.
#[cycle(expressions)]
fn operand<'a>(
    alloc: Global,
    fields: &[Field],
    fuel: usize,
    token: &Txt,
    rest: &'a [Txt],
) -> Result<(Code, &'a [Txt]), Stop>
    requires { length fields.now < 2 ^ 32 }
    ensures { Gives (λ x. (x.0, x.1.now)) result (spec.operand fields.now (within fields.now fuel) token.now rest.now) }
{
    if token.is("(") {
        return bracketed(alloc, fields, fuel, rest);
    }
    Ok((leaf(fields, token)?, rest))
}

#[cycle(expressions)]
fn bracketed<'a>(
    alloc: Global,
    fields: &[Field],
    fuel: usize,
    tokens: &'a [Txt],
) -> Result<(Code, &'a [Txt]), Stop>
    requires { length fields.now < 2 ^ 32 }
    ensures { Gives (λ x. (x.0, x.1.now)) result (spec.bracketed fields.now (within fields.now fuel) tokens.now) }
{
    let (a, rest) = expression(alloc, fields, fuel, 0, tokens)?;
    Ok((a, behind_token(")", rest)?))
}

/// What goes on after an expression.
#[cycle(expressions)]
#[tactic(auto, using(crate::proofs::Reading::ExpressionLaws::operations_law, crate::proofs::Reading::ExpressionLaws::operations_none))]
fn operations<'a>(
    alloc: Global,
    fields: &[Field],
    fuel: usize,
    level: u8,
    a: Code,
    tokens: &'a [Txt],
) -> Result<(Code, &'a [Txt]), Stop>
    requires { length fields.now < 2 ^ 32 }
    ensures { Gives (λ x. (x.0, x.1.now)) result (operations_in fields.now fuel level a tokens.now) }
{
    if fuel == 0 {
        return Err(Stop::Nothing);
    }
    let Some((token, rest)) = tokens.split_first() else {
        return Ok((a, tokens));
    };
    let Some(op) = operator_of(token) else {
        return Ok((a, tokens));
    };
    if tightness_of(op) < level {
        return Ok((a, tokens));
    }
    operated(alloc, fields, fuel - 1, level, a, op, rest)
}

#[cycle(expressions)]
fn operated<'a>(
    alloc: Global,
    fields: &[Field],
    fuel: usize,
    level: u8,
    a: Code,
    op: BinaryOp,
    tokens: &'a [Txt],
) -> Result<(Code, &'a [Txt]), Stop>
    requires { length fields.now < 2 ^ 32 }
    ensures { Gives (λ x. (x.0, x.1.now)) result (spec.binary fields.now (within fields.now fuel) level a op tokens.now) }
{
    let (b, rest) = expression(alloc, fields, fuel, tightness_of(op) + 1, tokens)?;
    let both = binary(alloc, op, a, b)?;
    operations(alloc, fields, fuel, level, both, rest)
}
