// The parts of records and the members of the library, as values.
ghost use Rattle.std.specs.Prelude.{◌≡◌, [], ◌∷◌, IfOk, if◌then◌else◌};
ghost use Rattle.cs_ast.specs.declared.code.Code.TheVariants as code_by;
ghost use Rattle.cs_ast.specs.declared.operators.StaticType.TheVariants as static_by;
ghost use Rattle.cs_forms.specs.declared.fault.CheckFault.TheVariants.{Broken};
ghost use Rattle.cs_rules.specs.declared.callee.Dotted.TheVariants as dotted_by;
ghost use Rattle.cs_rules.specs.declared.rule.Rule.TheVariants.{UnknownName};
ghost use Rattle.cs_rules.specs.Judged.{fine, mismatch as wrong};
ghost use Rattle.cs_rules.specs.Library as spec;
ghost use Rattle.cs_rules.specs.Types as types_spec;
ghost use Rattle.cs_forms.specs.Agrees.{Agrees};

use crate::CheckFault;
use crate::fault::mismatch;
use crate::types::{boxed_code, checked, code_of, may_be_null};
use cs_ast::{Code, CsType, Ident, LibraryMember, StaticType};
use cs_rules::{Checked, Dotted, Rule};
use sqlite_items::{Boxed, Items};
use std::alloc::Global;
use text_core::{Oom, Place, Txt};

/// The code of a library member over what stands before its dot.
fn property(alloc: Global, member: LibraryMember, code: Code) -> Result<Code, Oom>
    ensures { IfOk result (λ it. it ≡ code_by.Library member (code ∷ [])) }
{
    let mut target = Items::new(alloc);
    target.push(code)?;
    Ok(Code::Library(member, target))
}

/// The part of a record as a value.
#[tactic(auto, unfolding(cs_rules::specs::Library::value_of_member))]
pub fn part_value(
    alloc: Global,
    place: Place,
    code: Code,
    number: u32,
    cs_type: CsType,
) -> Result<Boxed<Checked>, CheckFault>
    ensures { Agrees result (spec.value_of_member place code (dotted_by.Part number cs_type)) }
{
    let target = Boxed::new(alloc, code)?;
    checked(alloc, place, Code::Part(target, number), cs_type)
}

/// A property of the library as a value.
#[tactic(auto, unfolding(cs_rules::specs::Library::value_of_member))]
pub fn property_value(
    alloc: Global,
    place: Place,
    code: Code,
    member: LibraryMember,
    cs_type: CsType,
) -> Result<Boxed<Checked>, CheckFault>
    ensures { Agrees result (spec.value_of_member place code (dotted_by.Property member cs_type)) }
{
    let code = property(alloc, member, code)?;
    checked(alloc, place, code, cs_type)
}

/// A member as a value.
#[tactic(auto, unfolding(cs_rules::specs::Library::value_of_member))]
pub fn value_of_member(
    alloc: Global,
    place: Place,
    code: Code,
    found: Boxed<Dotted>,
) -> Result<Boxed<Checked>, CheckFault>
    ensures { Agrees result (spec.value_of_member place code found) }
{
    match found.into_inner() {
        Dotted::Part(number, cs_type) => part_value(alloc, place, code, number, cs_type),
        Dotted::Property(member, cs_type) => property_value(alloc, place, code, member, cs_type),
        Dotted::Method(_, _, _) => Err(mismatch(place)),
        Dotted::Invoke(_) => Err(mismatch(place)),
    }
}

fn null_part(
    alloc: Global,
    place: Place,
    x: Boxed<Checked>,
    number: u32,
    cs_type: CsType,
) -> Result<Boxed<Checked>, CheckFault>
    ensures { Agrees result (if types_spec.may_be_null cs_type then fine (types_spec.checked place (code_by.NullPart x.code number) cs_type) else wrong x.place) }
{
    if !may_be_null(&cs_type) {
        return Err(mismatch(x.get().place));
    }
    let target = boxed_code(alloc, x)?;
    checked(alloc, place, Code::NullPart(target, number), cs_type)
}

fn null_property(
    alloc: Global,
    place: Place,
    x: Boxed<Checked>,
    member: LibraryMember,
    cs_type: CsType,
) -> Result<Boxed<Checked>, CheckFault>
    ensures { Agrees result (if types_spec.may_be_null cs_type then fine (types_spec.checked place (code_by.Library member (x.code ∷ [])) cs_type) else wrong x.place) }
{
    if !may_be_null(&cs_type) {
        return Err(mismatch(x.get().place));
    }
    let code = property(alloc, member, code_of(x))?;
    checked(alloc, place, code, cs_type)
}

/// A member behind `?.`.
#[tactic(auto, unfolding(cs_rules::specs::Library::null_member))]
pub fn null_member(
    alloc: Global,
    place: Place,
    x: Boxed<Checked>,
    found: Boxed<Dotted>,
) -> Result<Boxed<Checked>, CheckFault>
    ensures { Agrees result (spec.null_member place x found) }
{
    match found.into_inner() {
        Dotted::Part(number, cs_type) => null_part(alloc, place, x, number, cs_type),
        Dotted::Property(member, cs_type) => null_property(alloc, place, x, member, cs_type),
        Dotted::Method(_, _, _) => Err(mismatch(x.get().place)),
        Dotted::Invoke(_) => Err(mismatch(x.get().place)),
    }
}

/// `int.N` as a value.
#[tactic(auto, unfolding(cs_rules::specs::Library::static_value, cs_rules::specs::Library::found_static))]
fn number_value(alloc: Global, place: Place, name: &Ident) -> Result<Boxed<Checked>, CheckFault>
    ensures { Agrees result (spec.found_static name.now (spec.static_value place static_by.Int name.now.name)) }
{
    if name.name.is("MaxValue") {
        return checked(alloc, place, Code::Int(i32::MAX), CsType::Int);
    }
    if name.name.is("MinValue") {
        return checked(alloc, place, Code::Int(i32::MIN), CsType::Int);
    }
    Err(unknown(name))
}

/// `string.N` as a value.
#[tactic(auto, unfolding(cs_rules::specs::Library::static_value, cs_rules::specs::Library::found_static))]
fn text_value(alloc: Global, place: Place, name: &Ident) -> Result<Boxed<Checked>, CheckFault>
    ensures { Agrees result (spec.found_static name.now (spec.static_value place static_by.Text name.now.name)) }
{
    if name.name.is("Empty") {
        return checked(alloc, place, Code::Text(Txt::new(alloc)), CsType::Text);
    }
    if name.name.is("IsNullOrEmpty") {
        return Err(mismatch(place));
    }
    Err(unknown(name))
}

/// The fault that nothing has the name.
fn unknown(name: &Ident) -> CheckFault
    ensures { result ≡ Broken UnknownName name.now.place }
{
    CheckFault::Broken {
        rule: Rule::UnknownName,
        place: name.place,
    }
}

/// `int.N` and `string.N` as values.
pub fn static_value(
    alloc: Global,
    place: Place,
    of: StaticType,
    name: &Ident,
) -> Result<Boxed<Checked>, CheckFault>
    ensures { Agrees result (spec.found_static name.now (spec.static_value place of name.now.name)) }
{
    match of {
        StaticType::Int => number_value(alloc, place, name),
        StaticType::Text => text_value(alloc, place, name),
    }
}
