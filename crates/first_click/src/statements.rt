// The reader of statements and methods.
ghost use Rattle.std.specs.Prelude.{◌≡◌, ◌<◌, ◌^◌, [], Some, length, map, IfOk, MatchOption};
ghost use Rattle.first_click.specs.Expressions.{field_number};
ghost use Rattle.first_click.specs.Reading.Expressions.{Gives};
ghost use Rattle.first_click.specs.Reading.Statements.{assignment_at, step_at, statement_behind, statement_at};
ghost use Rattle.first_click.specs.Reading.Views.{member_of};
ghost use Rattle.first_click.specs.Statements.{assignment, step, step_operator, StatementStands, Defines};
ghost use Rattle.first_click.specs.Walks.{Walk};

use super::component::{Field, Method};
use super::expressions::{behind_token, expression, field_number};
use super::members::Member;
use super::stop::Stop;
use cs_ast::{AssignOp, Code, StepOp, Variable};
use sqlite_items::{Boxed, Items};
use std::alloc::Global;
use text_core::{Oom, Txt};

fn assignment(alloc: Global, number: u32, value: Code) -> Result<Code, Stop>
    ensures { Gives (λ x. x) result (Some (assignment number value)) }
{
    let value = Boxed::new(alloc, value)?;
    let assigned = Code::Assign(Variable::Field(number), AssignOp::Set, value);
    Ok(Code::Perform(Boxed::new(alloc, assigned)?))
}

fn step(alloc: Global, number: u32, op: StepOp) -> Result<Code, Stop>
    ensures { Gives (λ x. x) result (Some (step number op)) }
{
    let stepped = Code::Step(Variable::Field(number), op);
    Ok(Code::Perform(Boxed::new(alloc, stepped)?))
}

#[tactic(auto, unfolding(crate::specs::Statements::step_operator))]
fn step_operator(token: &Txt) -> Result<StepOp, Stop>
    ensures { Gives (λ x. x) result (step_operator token.now) }
{
    if token.is("++") {
        return Ok(StepOp::Increment);
    }
    if token.is("--") {
        return Ok(StepOp::Decrement);
    }
    Err(Stop::Nothing)
}

/// An assignment to the field of this number, from behind its `=` on.
#[tactic(auto, unfolding(crate::specs::Reading::Statements::assignment_at))]
fn cut_assignment<'a>(
    alloc: Global,
    fields: &[Field],
    number: u32,
    tokens: &'a [Txt],
) -> Result<(Code, &'a [Txt]), Stop>
    requires { length fields.now < 2 ^ 32 }
    ensures { Gives (λ x. (x.0, x.1.now)) result (assignment_at fields.now number tokens.now) }
{
    let (value, rest) = expression(alloc, fields, tokens.len() + 1, 0, tokens)?;
    let rest = behind_token(";", rest)?;
    Ok((assignment(alloc, number, value)?, rest))
}

/// A step of the field of this number, from this token on.
#[tactic(auto, unfolding(crate::specs::Reading::Statements::step_at))]
fn cut_step<'a>(
    alloc: Global,
    number: u32,
    token: &Txt,
    tokens: &'a [Txt],
) -> Result<(Code, &'a [Txt]), Stop>
    ensures { Gives (λ x. (x.0, x.1.now)) result (step_at number token.now tokens.now) }
{
    let op = step_operator(token)?;
    let rest = behind_token(";", tokens)?;
    Ok((step(alloc, number, op)?, rest))
}

/// The statement that stands first, and what stands behind it.
#[tactic(auto, unfolding(crate::specs::Reading::Statements::statement_at))]
fn cut_statement<'a>(
    alloc: Global,
    fields: &[Field],
    tokens: &'a [Txt],
) -> Result<(Code, &'a [Txt]), Stop>
    requires { length fields.now < 2 ^ 32 }
    ensures { Gives (λ x. (x.0, x.1.now)) result (statement_at fields.now tokens.now) }
{
    let [name, token, rest @ ..] = tokens else {
        return Err(Stop::Nothing);
    };
    let Some(number) = field_number(fields, name) else {
        return Err(Stop::Nothing);
    };
    if token.is("=") {
        return cut_assignment(alloc, fields, number, rest);
    }
    cut_step(alloc, number, token, rest)
}

/// The statements that the tokens are, one after another, if they are statements alone.
fn statements_of(
    alloc: Global,
    fields: &[Field],
    tokens: &[Txt],
) -> Result<Option<Items<Code>>, Oom>
    requires { length fields.now < 2 ^ 32 }
    ensures { IfOk result (λ found. MatchOption found
        ((statements : _) → Walk (StatementStands fields.now) tokens.now statements [] → ⊥)
        (λ statements. Walk (StatementStands fields.now) tokens.now statements [])) }
{
    let mut statements = Items::new(alloc);
    let mut rest = tokens;
    while !rest.is_empty() {
        match cut_statement(alloc, fields, rest) {
            Ok((statement, next)) => {
                statements.push(statement)?;
                rest = next;
            }
            Err(Stop::Nothing) => return Ok(None),
            Err(Stop::Oom) => return Err(Oom),
        }
    }
    Ok(Some(statements))
}

/// The methods that members define over these fields, if their bodies are statements.
pub fn methods_of(
    alloc: Global,
    fields: &[Field],
    members: &[Member<'_>],
) -> Result<Option<Items<Method>>, Oom>
    requires { length fields.now < 2 ^ 32 }
    ensures { IfOk result (λ found. MatchOption found
        ((methods : _) → Defines fields.now (map member_of members.now) methods → ⊥)
        (Defines fields.now (map member_of members.now))) }
{
    let mut methods = Items::new(alloc);
    for member in members {
        let Member::Method { name, body } = *member else {
            continue;
        };
        let Some(statements) = statements_of(alloc, fields, body)? else {
            return Ok(None);
        };
        methods.push(Method {
            name: name.clone()?,
            body: Code::Block(statements),
        })?;
    }
    Ok(Some(methods))
}
