// What forms come to by what was found of their parts.
ghost use Rattle.std.specs.Prelude.{◌≡◌, IfOk, option_map};
ghost use Rattle.cs_ast.specs.declared.code.Code.TheVariants as code_by;
ghost use Rattle.cs_ast.specs.declared.cs_type.CsType.{out-CsType};
ghost use Rattle.cs_ast.specs.declared.cs_type.CsType.TheVariants as ty;
ghost use Rattle.cs_rules.specs.declared.checked.ExprType.TheVariants as type_by;
ghost use Rattle.cs_rules.specs.declared.rule.Rule.TheVariants.{UnknownName, UnknownType};
ghost use Rattle.cs_rules.specs.declared.callee.Called.TheVariants as called_by;
ghost use Rattle.cs_rules.specs.Judged.{fine, known};
ghost use Rattle.cs_rules.specs.Expressions as spec;
ghost use Rattle.cs_rules.specs.Library as library_spec;
ghost use Rattle.cs_rules.specs.Operators as operators_spec;
ghost use Rattle.cs_rules.specs.Types as types_spec;
ghost use Rattle.cs_rules.specs.Written as written_spec;
ghost use Rattle.cs_forms.specs.Agrees.{Agrees, AgreesBy};
ghost use Rattle.cs_forms.specs.Views.{declared, scope_of};

use crate::CheckFault;
use crate::callees::callee_of_value;
use crate::fault::mismatch;
use crate::library::static_value;
use crate::members::{Part, behind, part_named};
use crate::names::{Names, value_of_name, variable_of};
use crate::operators::{binary_type, either_type, is_value};
use crate::types::{checked, code_of, copy_type, copy_types, fitting, own_type, typed, wants};
use crate::written::{Declared, record_named, written};
use cs_ast::{
    Argument, BinaryOp, Code, CsType, Ident, LibraryMember, Member, NameKind, Named, StaticType,
    StepOp, TypeExpr,
};
use cs_rules::{Called, Callee, Checked, Dotted, ExprType, Rule};
use sqlite_items::{Boxed, Items};
use std::alloc::{AllocError, Global};
use text_core::{Place, Txt};

pub fn null(alloc: Global, place: Place) -> Result<Boxed<Checked>, CheckFault>
    ensures { Agrees result (fine (record { place = place; code = code_by.Null; expr_type = type_by.Null })) }
{
    let expr_type = Boxed::new(alloc, ExprType::Null)?;
    typed(alloc, place, Code::Null, expr_type)
}

pub fn text(alloc: Global, text: &Txt, place: Place) -> Result<Boxed<Checked>, CheckFault>
    ensures { Agrees result (fine (types_spec.checked place (code_by.Text text.now) ty.Text)) }
{
    let text = text.clone()?;
    checked(alloc, place, Code::Text(text), CsType::Text)
}

/// The type of `a ? b : c` by those of b and c.
#[tactic(auto, unfolding(cs_rules::specs::Expressions::chosen_type, cs_rules::specs::Operators::either_type))]
pub fn chosen_type(alloc: Global, x: &Checked, y: &Checked) -> Result<Boxed<ExprType>, CheckFault>
    ensures { Agrees result (spec.chosen_type x.now y.now) }
{
    let allowed = is_value(&x.expr_type);
    either_type(alloc, allowed, x.place, &x.expr_type, y.place, &y.expr_type)
}

/// The type of the items, where it is that of a list.
#[tactic(auto, using(cs_rules::proofs::TypeLaws::out_int, cs_rules::proofs::TypeLaws::out_bool, cs_rules::proofs::TypeLaws::out_text, cs_rules::proofs::TypeLaws::out_rec, cs_rules::proofs::TypeLaws::out_list, cs_rules::proofs::TypeLaws::out_callback, cs_rules::proofs::TypeLaws::out_fragment, cs_rules::proofs::TypeLaws::out_change, cs_rules::proofs::TypeLaws::out_args, cs_rules::proofs::TypeLaws::out_nothing))]
fn item_type(place: Place, cs_type: &CsType) -> Result<&CsType, CheckFault>
    ensures { AgreesBy (λ item. item.now) result (spec.item_type place (out-CsType cs_type.now)) }
{
    match cs_type {
        CsType::List(item) => Ok(item.get()),
        CsType::Int
        | CsType::Bool
        | CsType::Text
        | CsType::Rec(_)
        | CsType::Callback(_)
        | CsType::Fragment(_)
        | CsType::Change
        | CsType::Args
        | CsType::Nothing => Err(mismatch(place)),
    }
}

#[tactic(auto, unfolding(cs_rules::specs::Expressions::items_of))]
pub fn items_of(place: Place, given: &ExprType) -> Result<&CsType, CheckFault>
    ensures { AgreesBy (λ item. item.now) result (spec.items_of place given.now) }
{
    match given {
        ExprType::Of(cs_type) => item_type(place, cs_type),
        _ => Err(mismatch(place)),
    }
}

/// What a name behind a dot stands for.
#[tactic(auto, unfolding(cs_rules::specs::Expressions::dotted))]
pub fn dotted(names: &Names<'_>, x: &Checked, name: &Ident) -> Result<Boxed<Dotted>, CheckFault>
    ensures { Agrees result (spec.dotted (scope_of names.now) x.now name.now) }
{
    let cs_type = own_type(x.place, &x.expr_type)?;
    let records = names.around.scope.records.as_slice();
    match behind(names.alloc, records, cs_type, &name.name)? {
        Some(found) => Ok(Boxed::new(names.alloc, found)?),
        None => Err(CheckFault::Broken {
            rule: Rule::UnknownName,
            place: name.place,
        }),
    }
}

/// The record of this name.
pub fn known_record<'a>(records: &'a [Member], name: &Ident) -> Result<Declared<'a>, CheckFault>
    ensures { AgreesBy declared result (known UnknownType name.now.place (written_spec.record_named records.now name.now.name)) }
{
    match record_named(records, &name.name) {
        Some(found) => Ok(found),
        None => Err(CheckFault::Broken {
            rule: Rule::UnknownType,
            place: name.place,
        }),
    }
}

/// The part of this name.
pub fn known_part(alloc: Global, parts: &[Argument], name: &Ident) -> Result<Part, CheckFault>
    ensures { AgreesBy (λ part. (part.number, part.cs_type)) result (known UnknownName name.now.place (library_spec.part_from 0 name.now.name parts.now)) }
{
    match part_named(alloc, parts, &name.name)? {
        Some(part) => Ok(part),
        None => Err(CheckFault::Broken {
            rule: Rule::UnknownName,
            place: name.place,
        }),
    }
}

/// The record that a type is.
#[tactic(auto, unfolding(cs_rules::specs::Expressions::record_of))]
pub fn record_of<'a>(records: &'a [Member], given: &ExprType) -> Option<Declared<'a>>
    ensures { option_map declared result ≡ spec.record_of records.now given.now }
{
    match given {
        ExprType::Of(CsType::Rec(name)) => record_named(records, name),
        _ => None,
    }
}

#[tactic(auto, unfolding(cs_rules::specs::Expressions::empty_list))]
pub fn empty_list(
    names: &Names<'_>,
    cs_type: &TypeExpr,
    place: Place,
) -> Result<Boxed<Checked>, CheckFault>
    ensures { Agrees result (spec.empty_list cs_type.now place (scope_of names.now)) }
{
    let item = written(names.alloc, names.around.scope.records.as_slice(), cs_type)?;
    let item = Boxed::new(names.alloc, item)?;
    let code = Code::Library(LibraryMember::EmptyList, Items::new(names.alloc));
    checked(names.alloc, place, code, CsType::List(item))
}

#[tactic(auto, unfolding(cs_rules::specs::Expressions::static_member))]
pub fn static_member(
    names: &Names<'_>,
    of: StaticType,
    name: &Ident,
    place: Place,
) -> Result<Boxed<Checked>, CheckFault>
    ensures { Agrees result (spec.static_member of name.now place (scope_of names.now)) }
{
    static_value(names.alloc, place, of, name)
}

/// The type that an operator gives of a variable and a value.
fn operated(
    names: &Names<'_>,
    op: BinaryOp,
    target: Place,
    cs_type: &CsType,
    x: &Checked,
) -> Result<Boxed<ExprType>, CheckFault>
    ensures { Agrees result (operators_spec.binary_type (scope_of names.now).records op target (type_by.Of cs_type.now) x.now.place x.now.expr_type) }
{
    let old = of_type(names.alloc, cs_type)?;
    let records = names.around.scope.records.as_slice();
    binary_type(
        names.alloc,
        records,
        op,
        target,
        old.get(),
        x.place,
        &x.expr_type,
    )
}

fn of_type(alloc: Global, cs_type: &CsType) -> Result<Boxed<ExprType>, AllocError>
    ensures { IfOk result (λ expr_type. expr_type ≡ type_by.Of cs_type.now) }
{
    let copied = copy_type(alloc, cs_type)?;
    Boxed::new(alloc, ExprType::Of(copied))
}

/// What is assigned: the value itself, or what the operator gives of the old value and it.
#[tactic(auto, unfolding(cs_rules::specs::Expressions::assigned))]
pub fn assigned(
    names: &Names<'_>,
    op: Option<BinaryOp>,
    target: Place,
    cs_type: &CsType,
    x: Boxed<Checked>,
) -> Result<Code, CheckFault>
    ensures { Agrees result (spec.assigned (scope_of names.now).records op target cs_type.now x) }
{
    let Some(op) = op else {
        return fitting(cs_type, x);
    };
    let given = operated(names, op, target, cs_type, x.get())?;
    wants(cs_type, x.get().place, given.get())?;
    Ok(code_of(x))
}

#[tactic(auto, unfolding(cs_rules::specs::Expressions::step))]
pub fn step(
    names: &Names<'_>,
    op: StepOp,
    target: &Ident,
    place: Place,
) -> Result<Boxed<Checked>, CheckFault>
    ensures { Agrees result (spec.step op target.now place (scope_of names.now)) }
{
    let one = names.meant_at(target.place, &target.name)?;
    let variable = variable_of(target.place, &one.kind, one.place)?;
    let old = of_type(names.alloc, &one.cs_type)?;
    wants(&CsType::Int, target.place, old.get())?;
    checked(
        names.alloc,
        place,
        Code::Step(variable, op),
        CsType::Nothing,
    )
}

#[tactic(auto, unfolding(cs_rules::specs::Expressions::name_read))]
pub fn name_read(names: &Names<'_>, name: &Txt, place: Place) -> Result<Boxed<Checked>, CheckFault>
    ensures { Agrees result (spec.name_read name.now place (scope_of names.now)) }
{
    let one = names.meant_at(place, name)?;
    value_of_name(names.alloc, place, one)
}

fn method(
    alloc: Global,
    number: u32,
    takes: Items<CsType>,
    gives: &CsType,
) -> Result<Boxed<Callee>, AllocError>
    ensures { IfOk result (λ callee. callee ≡ record { called = called_by.Method number; takes = takes; gives = gives.now }) }
{
    let gives = copy_type(alloc, gives)?;
    let called = Called::Method(number);
    Boxed::new(
        alloc,
        Callee {
            called,
            takes,
            gives,
        },
    )
}

#[tactic(auto, unfolding(cs_rules::specs::Expressions::callee_by_kind))]
fn callee_by_kind(alloc: Global, place: Place, one: &Named) -> Result<Boxed<Callee>, CheckFault>
    ensures { Agrees result (spec.callee_by_kind place one.now one.now.kind) }
{
    match &one.kind {
        NameKind::Method(takes) => {
            let takes = copy_types(alloc, takes.as_slice())?;
            let callee = method(alloc, one.place, takes, &one.cs_type)?;
            Ok(callee)
        }
        _ => {
            let x = value_of_name(alloc, place, one)?;
            callee_of_value(alloc, x)
        }
    }
}

#[tactic(auto, unfolding(cs_rules::specs::Expressions::name_called))]
pub fn name_called(names: &Names<'_>, name: &Txt, place: Place) -> Result<Boxed<Callee>, CheckFault>
    ensures { Agrees result (spec.name_called name.now place (scope_of names.now)) }
{
    let one = names.meant_at(place, name)?;
    callee_by_kind(names.alloc, place, one)
}
