// What operators take and give.
ghost use Rattle.std.specs.Prelude.{◌≡◌, IfOk};
ghost use Rattle.cs_rules.specs.declared.rule.Rule.TheVariants.{TypeMismatch};
ghost use Rattle.cs_rules.specs.declared.checked.ExprType.TheVariants.{Of};
ghost use Rattle.cs_rules.specs.Judged.{fine, known};
ghost use Rattle.cs_rules.specs.Types as types_spec;
ghost use Rattle.cs_rules.specs.Operators as spec;
ghost use Rattle.cs_forms.specs.Agrees.{Agrees};

use crate::CheckFault;
use crate::comparing::is_comparable;
use crate::fault::mismatch;
use crate::types::{common_type, has_values, may_be_null, same_type, wants};
use cs_ast::{AssignOp, BinaryOp, CastOp, CsType, Member, UnaryOp};
use cs_rules::ExprType;
use sqlite_items::Boxed;
use std::alloc::Global;
use text_core::{Oom, Place};

/// The type that an operator before its operand takes and gives.
#[tactic(auto, unfolding(cs_rules::specs::Operators::unary_type))]
pub fn unary_type(op: UnaryOp) -> CsType
    ensures { result ≡ spec.unary_type op }
{
    match op {
        UnaryOp::Not => CsType::Bool,
        UnaryOp::Minus | UnaryOp::Plus => CsType::Int,
    }
}

/// The type that a cast gives of a text.
#[tactic(auto, unfolding(cs_rules::specs::Operators::cast_type))]
pub fn cast_type(op: CastOp) -> ExprType
    ensures { result ≡ spec.cast_type op }
{
    match op {
        CastOp::Text => ExprType::Of(CsType::Text),
        CastOp::Markup => ExprType::Markup,
    }
}

/// The type that an operator takes on both sides, where it is one.
#[tactic(auto, unfolding(cs_rules::specs::Operators::taken_type))]
fn taken_type(op: BinaryOp) -> Option<CsType>
    ensures { result ≡ spec.taken_type op }
{
    match op {
        BinaryOp::Or | BinaryOp::And => Some(CsType::Bool),
        BinaryOp::Less
        | BinaryOp::Greater
        | BinaryOp::LessOrEqual
        | BinaryOp::GreaterOrEqual
        | BinaryOp::Subtract
        | BinaryOp::Multiply
        | BinaryOp::Divide
        | BinaryOp::Remainder => Some(CsType::Int),
        BinaryOp::Add | BinaryOp::Equal | BinaryOp::NotEqual | BinaryOp::Coalesce => None,
    }
}

/// The type that such an operator gives.
#[tactic(auto, unfolding(cs_rules::specs::Operators::given_type))]
fn given_type(op: BinaryOp) -> CsType
    ensures { result ≡ spec.given_type op }
{
    match op {
        BinaryOp::Subtract | BinaryOp::Multiply | BinaryOp::Divide | BinaryOp::Remainder => {
            CsType::Int
        }
        _ => CsType::Bool,
    }
}

#[tactic(auto, unfolding(cs_rules::specs::Operators::is_text))]
fn is_text(given: &ExprType) -> bool
    ensures { result ≡ spec.is_text given.now }
{
    match given {
        ExprType::Of(CsType::Text) => true,
        _ => false,
    }
}

/// Whether it can be joined to a text.
#[tactic(auto, unfolding(cs_rules::specs::Operators::is_shown))]
fn is_shown(given: &ExprType) -> bool
    ensures { result ≡ spec.is_shown given.now }
{
    match given {
        ExprType::Of(CsType::Int)
        | ExprType::Of(CsType::Bool)
        | ExprType::Of(CsType::Text)
        | ExprType::Null => true,
        _ => false,
    }
}

#[tactic(auto, unfolding(cs_rules::specs::Operators::shown))]
pub fn shown(place: Place, given: &ExprType) -> Result<(), CheckFault>
    ensures { Agrees result (spec.shown place given.now) }
{
    if is_shown(given) {
        Ok(())
    } else {
        Err(mismatch(place))
    }
}

#[tactic(auto, unfolding(cs_rules::specs::Operators::is_nullable))]
fn is_nullable(given: &ExprType) -> bool
    ensures { result ≡ spec.is_nullable given.now }
{
    match given {
        ExprType::Of(given) => may_be_null(given),
        ExprType::Null => true,
        ExprType::Markup => false,
    }
}

/// Whether there are values of the type.
#[tactic(auto, unfolding(cs_rules::specs::Operators::is_value))]
pub fn is_value(given: &ExprType) -> bool
    ensures { result ≡ spec.is_value given.now }
{
    match given {
        ExprType::Of(given) => has_values(given),
        ExprType::Null => true,
        ExprType::Markup => false,
    }
}

/// Whether it may be compared with something.
#[tactic(auto, unfolding(cs_rules::specs::Operators::may_compare))]
fn may_compare(alloc: Global, records: &[Member], given: &ExprType) -> Result<bool, Oom>
    ensures { IfOk result (λ yes. yes ≡ spec.may_compare records.now given.now) }
{
    match given {
        ExprType::Of(given) => {
            if may_be_null(given) {
                return Ok(true);
            }
            Ok(is_comparable(alloc, records, given)?)
        }
        ExprType::Null => Ok(true),
        ExprType::Markup => Ok(false),
    }
}

/// Whether they may be compared with each other.
#[tactic(auto, unfolding(cs_rules::specs::Operators::are_compared))]
fn are_compared(alloc: Global, records: &[Member], a: &ExprType, b: &ExprType) -> Result<bool, Oom>
    ensures { IfOk result (λ yes. yes ≡ spec.are_compared records.now a.now b.now) }
{
    match (a, b) {
        (ExprType::Of(a), ExprType::Of(b)) => {
            if !same_type(a, b) {
                return Ok(false);
            }
            Ok(is_comparable(alloc, records, a)?)
        }
        (ExprType::Of(given), ExprType::Null) | (ExprType::Null, ExprType::Of(given)) => {
            Ok(may_be_null(given))
        }
        (ExprType::Null, ExprType::Null) => Ok(true),
        _ => Ok(false),
    }
}

/// A type of its own.
fn of_type(alloc: Global, cs_type: CsType) -> Result<Boxed<ExprType>, CheckFault>
    ensures { Agrees result (fine (Of cs_type)) }
{
    let expr_type = Boxed::new(alloc, ExprType::Of(cs_type))?;
    Ok(expr_type)
}

/// Both sides of one type.
fn alike(
    alloc: Global,
    taken: &CsType,
    given: CsType,
    first: Place,
    a: &ExprType,
    second: Place,
    b: &ExprType,
) -> Result<Boxed<ExprType>, CheckFault>
    ensures { Agrees result (spec.alike taken.now given first a.now second b.now) }
{
    wants(taken, first, a)?;
    wants(taken, second, b)?;
    of_type(alloc, given)
}

/// `+` joins where a text is on one side, and else it adds.
#[tactic(auto, unfolding(cs_rules::specs::Operators::sum_type))]
fn sum_type(
    alloc: Global,
    first: Place,
    a: &ExprType,
    second: Place,
    b: &ExprType,
) -> Result<Boxed<ExprType>, CheckFault>
    ensures { Agrees result (spec.sum_type first a.now second b.now) }
{
    if is_text(a) || is_text(b) {
        shown(first, a)?;
        shown(second, b)?;
        return of_type(alloc, CsType::Text);
    }
    alike(alloc, &CsType::Int, CsType::Int, first, a, second, b)
}

fn common_at(
    alloc: Global,
    a: &ExprType,
    second: Place,
    b: &ExprType,
) -> Result<Boxed<ExprType>, CheckFault>
    ensures { Agrees result (known TypeMismatch second (types_spec.common_type a.now b.now)) }
{
    match common_type(alloc, a, b)? {
        Some(common) => Ok(Boxed::new(alloc, common)?),
        None => Err(mismatch(second)),
    }
}

/// The type of either of two values.
#[tactic(auto, unfolding(cs_rules::specs::Operators::either_type))]
pub fn either_type(
    alloc: Global,
    allowed: bool,
    first: Place,
    a: &ExprType,
    second: Place,
    b: &ExprType,
) -> Result<Boxed<ExprType>, CheckFault>
    ensures { Agrees result (spec.either_type allowed first a.now second b.now) }
{
    if allowed {
        common_at(alloc, a, second, b)
    } else {
        Err(mismatch(first))
    }
}

#[tactic(auto, unfolding(cs_rules::specs::Operators::comparison_type))]
fn comparison_type(
    alloc: Global,
    records: &[Member],
    first: Place,
    a: &ExprType,
    second: Place,
    b: &ExprType,
) -> Result<Boxed<ExprType>, CheckFault>
    ensures { Agrees result (spec.comparison_type records.now first a.now second b.now) }
{
    if !may_compare(alloc, records, a)? {
        return Err(mismatch(first));
    }
    if !are_compared(alloc, records, a, b)? {
        return Err(mismatch(second));
    }
    of_type(alloc, CsType::Bool)
}

/// An operator that takes one type on both sides.
#[tactic(auto, unfolding(cs_rules::specs::Operators::plain_type))]
fn plain_type(
    alloc: Global,
    op: BinaryOp,
    first: Place,
    a: &ExprType,
    second: Place,
    b: &ExprType,
) -> Result<Boxed<ExprType>, CheckFault>
    ensures { Agrees result (spec.plain_type op first a.now second b.now) }
{
    match taken_type(op) {
        Some(taken) => alike(alloc, &taken, given_type(op), first, a, second, b),
        None => Err(mismatch(first)),
    }
}

/// The type of an operator between two operands, each at its place.
#[tactic(auto, unfolding(cs_rules::specs::Operators::binary_type))]
pub fn binary_type(
    alloc: Global,
    records: &[Member],
    op: BinaryOp,
    first: Place,
    a: &ExprType,
    second: Place,
    b: &ExprType,
) -> Result<Boxed<ExprType>, CheckFault>
    ensures { Agrees result (spec.binary_type records.now op first a.now second b.now) }
{
    match op {
        BinaryOp::Add => sum_type(alloc, first, a, second, b),
        BinaryOp::Equal | BinaryOp::NotEqual => {
            comparison_type(alloc, records, first, a, second, b)
        }
        BinaryOp::Coalesce => either_type(alloc, is_nullable(a), first, a, second, b),
        _ => plain_type(alloc, op, first, a, second, b),
    }
}

/// The operator of `+=` and its kin.
#[tactic(auto, unfolding(cs_rules::specs::Operators::operator_of))]
pub fn operator_of(op: AssignOp) -> Option<BinaryOp>
    ensures { result ≡ spec.operator_of op }
{
    match op {
        AssignOp::Set => None,
        AssignOp::Add => Some(BinaryOp::Add),
        AssignOp::Subtract => Some(BinaryOp::Subtract),
        AssignOp::Multiply => Some(BinaryOp::Multiply),
        AssignOp::Divide => Some(BinaryOp::Divide),
        AssignOp::Remainder => Some(BinaryOp::Remainder),
    }
}
