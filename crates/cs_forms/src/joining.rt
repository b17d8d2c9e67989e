// Forms of several parts, by what was found of the parts.
ghost use Rattle.std.specs.Prelude.{◌≡◌, IfOk};
ghost use Rattle.cs_ast.specs.declared.code.Code.TheVariants as code_by;
ghost use Rattle.cs_ast.specs.declared.cs_type.CsType.TheVariants as ty;
ghost use Rattle.cs_rules.specs.Judged.{fine};
ghost use Rattle.cs_rules.specs.Types as types_spec;
ghost use Rattle.cs_rules.specs.Library as library_spec;
ghost use Rattle.cs_rules.specs.Operators as operators_spec;
ghost use Rattle.cs_forms.specs.Agrees.{Agrees, AgreesBy};
ghost use Rattle.cs_forms.specs.Views.{declared, listed_view};
ghost use Rattle.cs_forms.specs.Steps as steps;

use crate::CheckFault;
use crate::arguments::passed;
use crate::calls::code_of_call;
use crate::leaves::{chosen_type, items_of};
use crate::members::narrowed;
use crate::operators::{binary_type, cast_type};
use crate::types::{boxed_code, checked, code_of, copy_type, fitting, typed};
use crate::written::{Declared, part_types};
use cs_ast::{BinaryOp, CastOp, Code, CsType, Ident, Member};
use cs_rules::{Callee, Checked};
use sqlite_items::{Boxed, Items};
use std::alloc::Global;
use text_core::{Oom, Place};

fn binary_code(
    alloc: Global,
    op: BinaryOp,
    x: Boxed<Checked>,
    y: Boxed<Checked>,
) -> Result<Code, Oom>
    ensures { IfOk result (λ code. code ≡ code_by.Binary op x.code y.code) }
{
    let a = boxed_code(alloc, x)?;
    let b = boxed_code(alloc, y)?;
    Ok(Code::Binary(op, a, b))
}

/// Two operands and their operator.
pub fn joined(
    alloc: Global,
    records: &[Member],
    op: BinaryOp,
    x: Boxed<Checked>,
    y: Boxed<Checked>,
    place: Place,
) -> Result<Boxed<Checked>, CheckFault>
    ensures { Agrees result (steps.joined records.now op x y place) }
{
    let expr_type = binary_type(
        alloc,
        records,
        op,
        x.get().place,
        &x.get().expr_type,
        y.get().place,
        &y.get().expr_type,
    )?;
    let code = binary_code(alloc, op, x, y)?;
    typed(alloc, place, code, expr_type)
}

/// A cast of a code.
pub fn casted(
    alloc: Global,
    op: CastOp,
    code: Code,
    place: Place,
) -> Result<Boxed<Checked>, CheckFault>
    ensures { Agrees result (fine (record { place = place; code = code_by.Cast op code; expr_type = operators_spec.cast_type op })) }
{
    let code = Boxed::new(alloc, code)?;
    let expr_type = Boxed::new(alloc, cast_type(op))?;
    typed(alloc, place, Code::Cast(op, code), expr_type)
}

fn conditional_code(
    alloc: Global,
    test: Boxed<Code>,
    x: Boxed<Checked>,
    y: Boxed<Checked>,
) -> Result<Code, Oom>
    ensures { IfOk result (λ code. code ≡ code_by.Conditional test x.code y.code) }
{
    let a = boxed_code(alloc, x)?;
    let b = boxed_code(alloc, y)?;
    Ok(Code::Conditional(test, a, b))
}

/// `a ? b : c` behind the test of its condition.
fn chosen_by(
    alloc: Global,
    test: Boxed<Code>,
    x: Boxed<Checked>,
    y: Boxed<Checked>,
    place: Place,
) -> Result<Boxed<Checked>, CheckFault>
    ensures { Agrees result (steps.chosen_by test x y place) }
{
    let expr_type = chosen_type(alloc, x.get(), y.get())?;
    let code = conditional_code(alloc, test, x, y)?;
    typed(alloc, place, code, expr_type)
}

/// `a ? b : c`
pub fn chosen(
    alloc: Global,
    test: Boxed<Checked>,
    x: Boxed<Checked>,
    y: Boxed<Checked>,
    place: Place,
) -> Result<Boxed<Checked>, CheckFault>
    ensures { Agrees result (steps.chosen test x y place) }
{
    let test = fitting(&CsType::Bool, test)?;
    let test = Boxed::new(alloc, test)?;
    chosen_by(alloc, test, x, y, place)
}

fn index_code(alloc: Global, list: Code, at: Code) -> Result<Code, Oom>
    ensures { IfOk result (λ code. code ≡ code_by.Index list at) }
{
    let list = Boxed::new(alloc, list)?;
    let at = Boxed::new(alloc, at)?;
    Ok(Code::Index(list, at))
}

/// A list: the type of its items, and its code.
#[derive(Drop)]
pub struct Listed {
    pub item: CsType,
    pub code: Code,
}

pub fn items_and_code(alloc: Global, x: Boxed<Checked>) -> Result<Listed, CheckFault>
    ensures { AgreesBy listed_view result (steps.listed x) }
{
    let item = items_of(x.get().place, &x.get().expr_type)?;
    let item = copy_type(alloc, item)?;
    let code = code_of(x);
    Ok(Listed { item, code })
}

fn item_at(
    alloc: Global,
    item: CsType,
    list: Code,
    y: Boxed<Checked>,
    place: Place,
) -> Result<Boxed<Checked>, CheckFault>
    ensures { Agrees result (steps.item_at item list y place) }
{
    let at = fitting(&CsType::Int, y)?;
    let code = index_code(alloc, list, at)?;
    checked(alloc, place, code, item)
}

/// `a[b]`
pub fn indexed(
    alloc: Global,
    x: Boxed<Checked>,
    y: Boxed<Checked>,
    place: Place,
) -> Result<Boxed<Checked>, CheckFault>
    ensures { Agrees result (steps.indexed x y place) }
{
    let Listed { item, code } = items_and_code(alloc, x)?;
    item_at(alloc, item, code, y, place)
}

fn finished(
    alloc: Global,
    place: Place,
    callee: Boxed<Callee>,
    codes: Items<Code>,
) -> Result<Boxed<Checked>, CheckFault>
    ensures { Agrees result (fine (types_spec.checked place (library_spec.code_of_call callee.called codes) callee.gives)) }
{
    let Callee { called, gives, .. } = callee.into_inner();
    let code = code_of_call(alloc, called, codes)?;
    checked(alloc, place, code, gives)
}

/// A call of what was found over arguments.
pub fn called(
    alloc: Global,
    place: Place,
    callee: Boxed<Callee>,
    xs: Vec<Boxed<Checked>>,
) -> Result<Boxed<Checked>, CheckFault>
    ensures { Agrees result (steps.called place callee xs.items) }
{
    let codes = passed(alloc, place, callee.get().takes.as_slice(), xs)?;
    finished(alloc, place, callee, codes)
}

fn new_code(
    alloc: Global,
    place: Place,
    number: usize,
    codes: Items<Code>,
    name: &Ident,
) -> Result<Boxed<Checked>, CheckFault>
    ensures { Agrees result (fine (types_spec.checked place (code_by.New number codes) (ty.Rec name.now.name))) }
{
    let number = narrowed(number)?;
    let record_name = name.name.clone()?;
    checked(
        alloc,
        place,
        Code::New(number, codes),
        CsType::Rec(record_name),
    )
}

/// `new N(..)` over arguments.
pub fn constructed(
    alloc: Global,
    place: Place,
    found: Declared<'_>,
    xs: Vec<Boxed<Checked>>,
    name: &Ident,
) -> Result<Boxed<Checked>, CheckFault>
    ensures { Agrees result (steps.constructed place (declared found.entry) xs.items name.now) }
{
    let wanted = part_types(alloc, found.parts)?;
    let codes = passed(alloc, place, wanted.as_slice(), xs)?;
    new_code(alloc, place, found.number, codes, name)
}
