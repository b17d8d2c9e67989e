// Types: which are the same, which may be null, what fits where.
ghost use Rattle.std.specs.Prelude.{◌≡◌, ◌↔◌, IsTrue, IfOk, option_map};
ghost use Rattle.std.specs.Option.{option_copied};
ghost use Rattle.cs_ast.specs.declared.cs_type.CsType.{out-CsType};
ghost use Rattle.cs_rules.specs.declared.checked.ExprType.TheVariants.{Of};
ghost use Rattle.cs_rules.specs.Judged.{fine};
ghost use Rattle.cs_rules.specs.Types as spec;
ghost use Rattle.cs_forms.specs.Agrees.{Agrees, AgreesBy};

use crate::CheckFault;
use crate::fault::mismatch;
use cs_ast::{Code, CsType};
use cs_rules::{Checked, ExprType};
use sqlite_items::{Boxed, Items};
use std::alloc::{AllocError, Global};
use text_core::Place;

/// Whether the two are equal.
fn equal(a: &CsType, b: &CsType) -> bool
    ensures { IsTrue result ↔ (a.now ≡ b.now) }
{
    match (a, b) {
        (CsType::Int, CsType::Int)
        | (CsType::Bool, CsType::Bool)
        | (CsType::Text, CsType::Text)
        | (CsType::Change, CsType::Change)
        | (CsType::Args, CsType::Args)
        | (CsType::Nothing, CsType::Nothing) => true,
        (CsType::Rec(a), CsType::Rec(b)) => a == b,
        (CsType::List(a), CsType::List(b)) => equal(a.get(), b.get()),
        (CsType::Callback(None), CsType::Callback(None))
        | (CsType::Fragment(None), CsType::Fragment(None)) => true,
        (CsType::Callback(Some(a)), CsType::Callback(Some(b)))
        | (CsType::Fragment(Some(a)), CsType::Fragment(Some(b))) => equal(a.get(), b.get()),
        _ => false,
    }
}

/// Whether two types are the same.
pub fn same_type(a: &CsType, b: &CsType) -> bool
    ensures { result ≡ spec.same_type a.now b.now }
{
    equal(a, b)
}

/// A type that is equal to this one.
#[cycle(copy)]
pub fn copy_type(alloc: Global, cs_type: &CsType) -> Result<CsType, AllocError>
    ensures { IfOk result (λ copied. copied ≡ cs_type.now) }
{
    match cs_type {
        CsType::Int => Ok(CsType::Int),
        CsType::Bool => Ok(CsType::Bool),
        CsType::Text => Ok(CsType::Text),
        CsType::Rec(name) => Ok(CsType::Rec(name.clone()?)),
        CsType::List(item) => Ok(CsType::List(copy_boxed(alloc, item)?)),
        CsType::Callback(None) => Ok(CsType::Callback(None)),
        CsType::Callback(Some(argument)) => {
            Ok(CsType::Callback(Some(copy_boxed(alloc, argument)?)))
        }
        CsType::Fragment(None) => Ok(CsType::Fragment(None)),
        CsType::Fragment(Some(argument)) => {
            Ok(CsType::Fragment(Some(copy_boxed(alloc, argument)?)))
        }
        CsType::Change => Ok(CsType::Change),
        CsType::Args => Ok(CsType::Args),
        CsType::Nothing => Ok(CsType::Nothing),
    }
}

#[cycle(copy)]
fn copy_boxed(alloc: Global, cs_type: &Boxed<CsType>) -> Result<Boxed<CsType>, AllocError>
    ensures { IfOk result (λ copied. copied ≡ cs_type.now) }
{
    Boxed::new(alloc, copy_type(alloc, cs_type.get())?)
}

/// Whether a value of the type may be null.
#[tactic(auto, unfolding(cs_rules::specs::Types::may_be_null))]
pub fn may_be_null(cs_type: &CsType) -> bool
    ensures { result ≡ spec.may_be_null cs_type.now }
{
    match cs_type {
        CsType::Text | CsType::Rec(_) | CsType::List(_) | CsType::Fragment(_) => true,
        _ => false,
    }
}

/// Whether they are a callback without an argument and one with an argument.
#[tactic(auto, unfolding(cs_rules::specs::Types::drops_argument), using(cs_rules::proofs::TypeLaws::out_callback))]
fn drops_argument(given: &CsType, wanted: &CsType) -> bool
    ensures { result ≡ spec.drops_argument (out-CsType given.now) (out-CsType wanted.now) }
{
    match (given, wanted) {
        (CsType::Callback(None), CsType::Callback(Some(_))) => true,
        _ => false,
    }
}

#[tactic(auto, unfolding(cs_rules::specs::Types::fits_type))]
pub fn fits_type(given: &CsType, wanted: &CsType) -> bool
    ensures { result ≡ spec.fits_type given.now wanted.now }
{
    same_type(given, wanted) || drops_argument(given, wanted)
}

/// Whether an expression of the first type stands where one of the second is wanted.
#[tactic(auto, unfolding(cs_rules::specs::Types::fits))]
pub fn fits(given: &ExprType, wanted: &CsType) -> bool
    ensures { result ≡ spec.fits given.now wanted.now }
{
    match given {
        ExprType::Of(given) => fits_type(given, wanted),
        ExprType::Null => may_be_null(wanted),
        ExprType::Markup => false,
    }
}

/// The type of two values of which either may be given.
#[tactic(auto, unfolding(cs_rules::specs::Types::common_type))]
pub fn common_type(
    alloc: Global,
    a: &ExprType,
    b: &ExprType,
) -> Result<Option<ExprType>, AllocError>
    ensures { IfOk result (λ common. common ≡ spec.common_type a.now b.now) }
{
    match (a, b) {
        (ExprType::Of(a), ExprType::Of(b)) => common_of_types(alloc, a, b),
        (ExprType::Of(given), ExprType::Null) | (ExprType::Null, ExprType::Of(given)) => {
            if may_be_null(given) {
                Ok(Some(ExprType::Of(copy_type(alloc, given)?)))
            } else {
                Ok(None)
            }
        }
        (ExprType::Null, ExprType::Null) => Ok(Some(ExprType::Null)),
        _ => Ok(None),
    }
}

#[tactic(auto, unfolding(cs_rules::specs::Types::common_type))]
fn common_of_types(alloc: Global, a: &CsType, b: &CsType) -> Result<Option<ExprType>, AllocError>
    ensures { IfOk result (λ common. common ≡ spec.common_type (Of a.now) (Of b.now)) }
{
    if fits_type(a, b) {
        return Ok(Some(ExprType::Of(copy_type(alloc, b)?)));
    }
    if fits_type(b, a) {
        return Ok(Some(ExprType::Of(copy_type(alloc, a)?)));
    }
    Ok(None)
}

/// Whether there are values of the type.
#[tactic(auto, unfolding(cs_rules::specs::Types::has_values))]
pub fn has_values(cs_type: &CsType) -> bool
    ensures { result ≡ spec.has_values cs_type.now }
{
    match cs_type {
        CsType::Nothing => false,
        _ => true,
    }
}

/// What stands at a place has a type that fits.
#[tactic(auto, unfolding(cs_rules::specs::Types::wants))]
pub fn wants(wanted: &CsType, place: Place, given: &ExprType) -> Result<(), CheckFault>
    ensures { Agrees result (spec.wants wanted.now place given.now) }
{
    if fits(given, wanted) {
        Ok(())
    } else {
        Err(mismatch(place))
    }
}

/// The code of an expression.
pub fn code_of(x: Boxed<Checked>) -> Code
    ensures { result ≡ x.code }
{
    x.into_inner().code
}

pub fn boxed_code(alloc: Global, x: Boxed<Checked>) -> Result<Boxed<Code>, AllocError>
    ensures { IfOk result (λ code. code ≡ x.code) }
{
    Boxed::new(alloc, code_of(x))
}

/// The code of an expression that fits.
#[tactic(auto, unfolding(cs_rules::specs::Types::fitting))]
pub fn fitting(wanted: &CsType, x: Boxed<Checked>) -> Result<Code, CheckFault>
    ensures { Agrees result (spec.fitting wanted.now x) }
{
    if fits(&x.get().expr_type, wanted) {
        Ok(code_of(x))
    } else {
        Err(mismatch(x.get().place))
    }
}

/// The type of what has one of its own, and a value.
#[tactic(auto, unfolding(cs_rules::specs::Types::own_type))]
pub fn own_type(place: Place, given: &ExprType) -> Result<&CsType, CheckFault>
    ensures { AgreesBy (λ cs_type. cs_type.now) result (spec.own_type place given.now) }
{
    match given {
        ExprType::Of(given) if has_values(given) => Ok(given),
        _ => Err(mismatch(place)),
    }
}

/// An expression of a type of its own.
pub fn checked(
    alloc: Global,
    place: Place,
    code: Code,
    cs_type: CsType,
) -> Result<Boxed<Checked>, CheckFault>
    ensures { Agrees result (fine (spec.checked place code cs_type)) }
{
    let expr_type = ExprType::Of(cs_type);
    let x = Boxed::new(
        alloc,
        Checked {
            place,
            code,
            expr_type,
        },
    )?;
    Ok(x)
}

/// An expression of this type.
pub fn typed(
    alloc: Global,
    place: Place,
    code: Code,
    expr_type: Boxed<ExprType>,
) -> Result<Boxed<Checked>, CheckFault>
    ensures { Agrees result (fine (record { place = place; code = code; expr_type = expr_type })) }
{
    let expr_type = expr_type.into_inner();
    let x = Boxed::new(
        alloc,
        Checked {
            place,
            code,
            expr_type,
        },
    )?;
    Ok(x)
}

/// Types that are equal to these.
pub fn copy_types(alloc: Global, types: &[CsType]) -> Result<Items<CsType>, AllocError>
    ensures { IfOk result (λ copied. copied ≡ types.now) }
{
    let mut copied = Items::new(alloc);
    for cs_type in types {
        copied.push(copy_type(alloc, cs_type)?)?;
    }
    Ok(copied)
}
