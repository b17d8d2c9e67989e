// What is called: members of the library, callbacks and fragments.
ghost use Rattle.std.specs.Prelude.{◌≡◌, [], ◌∷◌};
ghost use Rattle.cs_ast.specs.declared.cs_type.CsType.{out-CsType};
ghost use Rattle.cs_ast.specs.declared.cs_type.CsType.TheVariants as ty;
ghost use Rattle.cs_ast.specs.declared.cs_type.CsType.TheOpen.{CsType-F};
ghost use Rattle.cs_ast.specs.declared.code.LibraryMember.TheVariants as library_by;
ghost use Rattle.cs_ast.specs.declared.operators.StaticType.TheVariants as static_by;
ghost use Rattle.cs_rules.specs.declared.callee.Dotted.TheVariants as dotted_by;
ghost use Rattle.cs_rules.specs.declared.callee.Called.TheVariants as called_by;
ghost use Rattle.cs_rules.specs.Judged.{fine};
ghost use Rattle.cs_rules.specs.Library as spec;
ghost use Rattle.cs_forms.specs.Agrees.{Agrees};

use crate::CheckFault;
use crate::fault::mismatch;
use crate::library::{part_value, property_value, static_value};
use crate::members::{copied_one, one};
use cs_ast::{Code, CsType, Ident, LibraryMember, StaticType};
use cs_rules::{Called, Callee, Checked, Dotted, ExprType};
use sqlite_items::{Boxed, Items};
use std::alloc::Global;
use text_core::Place;

/// What is called, over arguments of these types, giving this type.
fn callee(
    alloc: Global,
    called: Called,
    takes: Items<CsType>,
    gives: CsType,
) -> Result<Boxed<Callee>, CheckFault>
    ensures { Agrees result (fine (record { called = called; takes = takes; gives = gives })) }
{
    let it = Boxed::new(
        alloc,
        Callee {
            called,
            takes,
            gives,
        },
    )?;
    Ok(it)
}

/// A fragment with a parameter, as what is called.
#[tactic(auto, using(cs_rules::proofs::TypeLaws::out_int, cs_rules::proofs::TypeLaws::out_bool, cs_rules::proofs::TypeLaws::out_text, cs_rules::proofs::TypeLaws::out_rec, cs_rules::proofs::TypeLaws::out_list, cs_rules::proofs::TypeLaws::out_callback, cs_rules::proofs::TypeLaws::out_fragment, cs_rules::proofs::TypeLaws::out_change, cs_rules::proofs::TypeLaws::out_args, cs_rules::proofs::TypeLaws::out_nothing))]
fn fragment(
    alloc: Global,
    place: Place,
    code: Code,
    cs_type: &CsType,
) -> Result<Boxed<Callee>, CheckFault>
    ensures { Agrees result (spec.fragment_level place code (out-CsType cs_type.now)) }
{
    match cs_type {
        CsType::Fragment(argument) => filled(alloc, place, code, argument),
        CsType::Int
        | CsType::Bool
        | CsType::Text
        | CsType::Rec(_)
        | CsType::List(_)
        | CsType::Callback(_)
        | CsType::Change
        | CsType::Args
        | CsType::Nothing => Err(mismatch(place)),
    }
}

fn filled_with(alloc: Global, code: Code, argument: &CsType) -> Result<Boxed<Callee>, CheckFault>
    ensures { Agrees result (fine (record { called = called_by.Fill code; takes = argument.now ∷ []; gives = ty.Fragment None })) }
{
    let takes = copied_one(alloc, argument)?;
    callee(alloc, Called::Fill(code), takes, CsType::Fragment(None))
}

fn filled(
    alloc: Global,
    place: Place,
    code: Code,
    argument: &Option<Boxed<CsType>>,
) -> Result<Boxed<Callee>, CheckFault>
    ensures { Agrees result (spec.fragment_level place code (CsType-F.Fragment argument.now)) }
{
    match argument {
        None => Err(mismatch(place)),
        Some(argument) => filled_with(alloc, code, argument.get()),
    }
}

/// A value as what is called.
#[tactic(auto, unfolding(cs_rules::specs::Library::callee_of_value))]
pub fn callee_of_value(alloc: Global, x: Boxed<Checked>) -> Result<Boxed<Callee>, CheckFault>
    ensures { Agrees result (spec.callee_of_value x) }
{
    let Checked {
        place,
        code,
        expr_type,
    } = x.into_inner();
    match expr_type {
        ExprType::Of(cs_type) => fragment(alloc, place, code, &cs_type),
        ExprType::Null => Err(mismatch(place)),
        ExprType::Markup => Err(mismatch(place)),
    }
}

/// The part of a record as what is called.
#[tactic(auto, unfolding(cs_rules::specs::Library::callee_of_member))]
fn part_called(
    alloc: Global,
    place: Place,
    code: Code,
    number: u32,
    cs_type: CsType,
) -> Result<Boxed<Callee>, CheckFault>
    ensures { Agrees result (spec.callee_of_member place code (dotted_by.Part number cs_type)) }
{
    let x = part_value(alloc, place, code, number, cs_type)?;
    callee_of_value(alloc, x)
}

/// A property of the library as what is called.
#[tactic(auto, unfolding(cs_rules::specs::Library::callee_of_member))]
fn property_called(
    alloc: Global,
    place: Place,
    code: Code,
    member: LibraryMember,
    cs_type: CsType,
) -> Result<Boxed<Callee>, CheckFault>
    ensures { Agrees result (spec.callee_of_member place code (dotted_by.Property member cs_type)) }
{
    let x = property_value(alloc, place, code, member, cs_type)?;
    callee_of_value(alloc, x)
}

/// A member as what is called.
#[tactic(auto, unfolding(cs_rules::specs::Library::callee_of_member))]
pub fn callee_of_member(
    alloc: Global,
    place: Place,
    code: Code,
    found: Boxed<Dotted>,
) -> Result<Boxed<Callee>, CheckFault>
    ensures { Agrees result (spec.callee_of_member place code found) }
{
    match found.into_inner() {
        Dotted::Method(member, takes, gives) => {
            callee(alloc, Called::Library(member, Some(code)), takes, gives)
        }
        Dotted::Invoke(takes) => callee(alloc, Called::Invoke(code), takes, CsType::Nothing),
        Dotted::Part(number, cs_type) => part_called(alloc, place, code, number, cs_type),
        Dotted::Property(member, cs_type) => property_called(alloc, place, code, member, cs_type),
    }
}

fn emptiness(alloc: Global) -> Result<Boxed<Callee>, CheckFault>
    ensures { Agrees result (fine (record { called = called_by.Library library_by.IsNullOrEmpty None; takes = ty.Text ∷ []; gives = ty.Bool })) }
{
    let takes = one(alloc, CsType::Text)?;
    let called = Called::Library(LibraryMember::IsNullOrEmpty, None);
    callee(alloc, called, takes, CsType::Bool)
}

#[tactic(auto, unfolding(cs_rules::specs::Library::static_callee))]
fn text_callee(alloc: Global, place: Place, name: &Ident) -> Result<Boxed<Callee>, CheckFault>
    ensures { Agrees result (spec.static_callee place static_by.Text name.now) }
{
    if name.name.is("IsNullOrEmpty") {
        return emptiness(alloc);
    }
    let x = static_value(alloc, place, StaticType::Text, name)?;
    callee_of_value(alloc, x)
}

/// `int.N` and `string.N` as what is called.
#[tactic(auto, unfolding(cs_rules::specs::Library::static_callee))]
pub fn static_callee(
    alloc: Global,
    place: Place,
    of: StaticType,
    name: &Ident,
) -> Result<Boxed<Callee>, CheckFault>
    ensures { Agrees result (spec.static_callee place of name.now) }
{
    match of {
        StaticType::Text => text_callee(alloc, place, name),
        StaticType::Int => {
            let x = static_value(alloc, place, of, name)?;
            callee_of_value(alloc, x)
        }
    }
}
