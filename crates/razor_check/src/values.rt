// Expressions in templates: what they come to, and which types they have to have.
ghost use Rattle.std.specs.Prelude.{◌≡◌, length, take, option_map, if◌then◌else◌};
ghost use Rattle.std.specs.Option.{option_copied};
ghost use Rattle.cs_ast.specs.declared.cs_type.CsType.{out-CsType};
ghost use Rattle.cs_ast.specs.declared.cs_type.CsType.TheVariants as t;
ghost use Rattle.cs_rules.specs.Judged.{fine, mismatch as wrong};
ghost use Rattle.cs_rules.specs.Names.{meant as meant_spec};
ghost use Rattle.cs_forms.specs.Agrees.{Agrees, AgreesBy};
ghost use Rattle.razor_rules.specs.Values as spec;
ghost use Rattle.razor_check.specs.Results as results;

use crate::bodies::{checked_body, checked_value};
use crate::ground::in_lambda;
use crate::names::{is_new, meant};
use cs_ast::{Body, CsType, Expr, Ident, NameKind, Named, Scope};
use cs_forms::CheckFault;
use cs_forms::comparing::is_comparable;
use cs_forms::fault::mismatch;
use cs_forms::operators::shown;
use cs_forms::types::{copy_type, same_type, wants};
use cs_rules::{Checked, ExprType, Rule};
use razor_parts::forms::{Form, form_of};
use razor_parts::locals::{cut, push_local};
use razor_rules::Ground;
use sqlite_items::Boxed;
use std::alloc::Global;
use text_core::{Place, Txt};

/// An expression that is run when the template is.
pub fn value(alloc: Global, g: &Ground, a: &Expr) -> Result<Boxed<Checked>, CheckFault>
    ensures { Agrees result (spec.value g.now a.now) }
{
    checked_value(alloc, &g.forbidden, &g.scope, a)
}

#[tactic(auto, using(cs_rules::proofs::TypeLaws::out_int, cs_rules::proofs::TypeLaws::out_bool, cs_rules::proofs::TypeLaws::out_text, cs_rules::proofs::TypeLaws::out_rec, cs_rules::proofs::TypeLaws::out_list, cs_rules::proofs::TypeLaws::out_callback, cs_rules::proofs::TypeLaws::out_fragment, cs_rules::proofs::TypeLaws::out_change, cs_rules::proofs::TypeLaws::out_args, cs_rules::proofs::TypeLaws::out_nothing))]
fn is_content_type(cs_type: &CsType) -> bool
    ensures { result ≡ spec.is_content_level (out-CsType cs_type.now) }
{
    match cs_type {
        CsType::Int => true,
        CsType::Bool => true,
        CsType::Text => true,
        CsType::Fragment(None) => true,
        CsType::Fragment(Some(_)) => false,
        CsType::Rec(_) => false,
        CsType::List(_) => false,
        CsType::Callback(_) => false,
        CsType::Change => false,
        CsType::Args => false,
        CsType::Nothing => false,
    }
}

#[tactic(auto, unfolding(razor_rules::specs::Values::is_content))]
fn is_content(given: &ExprType) -> bool
    ensures { result ≡ spec.is_content given.now }
{
    match given {
        ExprType::Of(cs_type) => is_content_type(cs_type),
        ExprType::Null => false,
        ExprType::Markup => true,
    }
}

/// An expression as content.
#[tactic(auto, unfolding(razor_rules::specs::Values::content))]
pub fn content(alloc: Global, g: &Ground, a: &Expr) -> Result<(), CheckFault>
    ensures { Agrees result (spec.content g.now a.now) }
{
    let x = value(alloc, g, a)?;
    if is_content(&x.get().expr_type) {
        Ok(())
    } else {
        Err(mismatch(x.get().place))
    }
}

/// An expression in the value of an attribute of an element.
#[tactic(auto, unfolding(razor_rules::specs::Values::shown_value))]
pub fn shown_value(alloc: Global, g: &Ground, a: &Expr) -> Result<(), CheckFault>
    ensures { Agrees result (spec.shown_value g.now a.now) }
{
    let x = value(alloc, g, a)?;
    shown(x.get().place, &x.get().expr_type)
}

#[tactic(auto, unfolding(razor_rules::specs::Values::is_key))]
fn is_key(alloc: Global, scope: &Scope, given: &ExprType) -> Result<bool, CheckFault>
    ensures { Agrees result (fine (spec.is_key scope.now.records given.now)) }
{
    match given {
        ExprType::Of(cs_type) => Ok(is_comparable(alloc, scope.records.as_slice(), cs_type)?),
        ExprType::Null => Ok(false),
        ExprType::Markup => Ok(false),
    }
}

/// An expression as a key.
#[tactic(auto, unfolding(razor_rules::specs::Values::key))]
pub fn key(alloc: Global, g: &Ground, a: &Expr) -> Result<(), CheckFault>
    ensures { Agrees result (spec.key g.now a.now) }
{
    let x = value(alloc, g, a)?;
    if is_key(alloc, &g.scope, &x.get().expr_type)? {
        Ok(())
    } else {
        Err(CheckFault::Broken {
            rule: Rule::BadKey,
            place: x.get().place,
        })
    }
}

#[tactic(auto, using(cs_rules::proofs::TypeLaws::out_int, cs_rules::proofs::TypeLaws::out_bool, cs_rules::proofs::TypeLaws::out_text, cs_rules::proofs::TypeLaws::out_rec, cs_rules::proofs::TypeLaws::out_list, cs_rules::proofs::TypeLaws::out_callback, cs_rules::proofs::TypeLaws::out_fragment, cs_rules::proofs::TypeLaws::out_change, cs_rules::proofs::TypeLaws::out_args, cs_rules::proofs::TypeLaws::out_nothing))]
fn is_cascading_type(cs_type: &CsType) -> bool
    ensures { result ≡ spec.is_cascading_level (out-CsType cs_type.now) }
{
    match cs_type {
        CsType::Int => true,
        CsType::Bool => true,
        CsType::Text => true,
        CsType::Rec(_) => true,
        CsType::List(_) => true,
        CsType::Callback(_) => false,
        CsType::Fragment(_) => false,
        CsType::Change => false,
        CsType::Args => false,
        CsType::Nothing => false,
    }
}

#[tactic(auto, unfolding(razor_rules::specs::Values::is_cascading))]
fn is_cascading(given: &ExprType) -> bool
    ensures { result ≡ spec.is_cascading given.now }
{
    match given {
        ExprType::Of(cs_type) => is_cascading_type(cs_type),
        ExprType::Null => false,
        ExprType::Markup => false,
    }
}

/// The value of a `CascadingValue`.
#[tactic(auto, unfolding(razor_rules::specs::Values::cascading))]
pub fn cascading(alloc: Global, g: &Ground, a: &Expr) -> Result<(), CheckFault>
    ensures { Agrees result (spec.cascading g.now a.now) }
{
    let x = value(alloc, g, a)?;
    if is_cascading(&x.get().expr_type) {
        Ok(())
    } else {
        Err(mismatch(x.get().place))
    }
}

/// Whether a method that takes these may be the value of a callback with such an argument.
fn takes_fit(takes: &[CsType], argument: Option<&CsType>) -> bool
    ensures { result ≡ spec.takes_fit takes.now (option_copied argument.entry) }
{
    match takes {
        [] => true,
        [one] => match argument {
            Some(argument) => same_type(one, argument),
            None => false,
        },
        _ => false,
    }
}

/// The locals of a lambda as the value of a callback with such an argument.
fn push_argument(
    alloc: Global,
    scope: &mut Scope,
    place: Place,
    name: &Option<Ident>,
    argument: Option<&CsType>,
) -> Result<(), CheckFault>
    ensures does { AgreesBy (λ x. scope.new) result (spec.lambda_scope scope.old place name.now (option_copied argument.entry)) }
    ensures kept { take (length scope.old.names) scope.new.names ≡ scope.old.names }
    ensures rest { scope.new ≡ record scope.old { names = scope.new.names } }
{
    match name {
        None => Ok(push_local(scope, &Txt::new(alloc), CsType::Nothing)?),
        Some(name) => match argument {
            None => Err(mismatch(place)),
            Some(argument) => {
                is_new(scope, name)?;
                let cs_type = copy_type(alloc, argument)?;
                Ok(push_local(scope, &name.name, cs_type)?)
            }
        },
    }
}

/// The body of a lambda behind its argument.
#[tactic(auto, unfolding(razor_rules::specs::Values::lambda))]
fn lambda_body(
    alloc: Global,
    g: &mut Ground,
    place: Place,
    name: &Option<Ident>,
    body: &Body,
    argument: Option<&CsType>,
) -> Result<(), CheckFault>
    ensures does { Agrees result (spec.lambda g.old place name.now body.now (option_copied argument.entry)) }
    ensures kept { take (length g.old.scope.names) g.new.scope.names ≡ g.old.scope.names }
    ensures rest { g.new ≡ record g.old { scope = record g.old.scope { names = g.new.scope.names } } }
{
    push_argument(alloc, &mut g.scope, place, name, argument)?;
    let forbidden = in_lambda(alloc, g)?;
    let _code = checked_body(alloc, &forbidden, &g.scope, body)?;
    Ok(())
}

/// A lambda as the value of a callback with such an argument.
fn lambda(
    alloc: Global,
    g: &mut Ground,
    place: Place,
    name: &Option<Ident>,
    body: &Body,
    argument: Option<&CsType>,
) -> Result<(), CheckFault>
    ensures does { Agrees result (spec.lambda g.old place name.now body.now (option_copied argument.entry)) }
    ensures same { g.new ≡ g.old }
{
    let depth = g.scope.names.len();
    let result = lambda_body(alloc, g, place, name, body, argument);
    cut(&mut g.scope.names, depth);
    result
}

fn callback_type(alloc: Global, argument: Option<&CsType>) -> Result<CsType, CheckFault>
    ensures { Agrees result (fine (t.Callback (option_copied argument.entry))) }
{
    match argument {
        Some(argument) => {
            let argument = copy_type(alloc, argument)?;
            Ok(CsType::Callback(Some(Boxed::new(alloc, argument)?)))
        }
        None => Ok(CsType::Callback(None)),
    }
}

/// An expression that has a callback's type.
#[tactic(auto, unfolding(razor_rules::specs::Values::callback_expression))]
fn callback_expression(
    alloc: Global,
    g: &Ground,
    a: &Expr,
    argument: Option<&CsType>,
) -> Result<(), CheckFault>
    ensures { Agrees result (spec.callback_expression g.now a.now (option_copied argument.entry)) }
{
    let x = value(alloc, g, a)?;
    let wanted = callback_type(alloc, argument)?;
    wants(&wanted, x.get().place, &x.get().expr_type)
}

/// The types that a method takes.
fn taken_by(one: &Named) -> Option<&[CsType]>
    ensures { option_map (λ takes. takes.now) result ≡ spec.taken_by one.now.kind }
{
    match &one.kind {
        NameKind::Method(takes) => Some(takes.as_slice()),
        NameKind::Field => None,
        NameKind::Parameter => None,
        NameKind::Getter => None,
        NameKind::Local => None,
    }
}

fn callback_method(
    place: Place,
    takes: &[CsType],
    argument: Option<&CsType>,
) -> Result<(), CheckFault>
    ensures { Agrees result (if spec.takes_fit takes.now (option_copied argument.entry) then fine tt else wrong place) }
{
    if takes_fit(takes, argument) {
        Ok(())
    } else {
        Err(mismatch(place))
    }
}

/// A name as the value of a callback with such an argument.
fn callback_name(
    alloc: Global,
    g: &Ground,
    a: &Expr,
    name: &Txt,
    argument: Option<&CsType>,
) -> Result<(), CheckFault>
    ensures { Agrees result (spec.callback_by_name g.now (meant_spec g.now.scope.names name.now) a.now (option_copied argument.entry)) }
{
    match meant(g.scope.names.as_slice(), name) {
        None => callback_expression(alloc, g, a, argument),
        Some(one) => match taken_by(one) {
            None => callback_expression(alloc, g, a, argument),
            Some(takes) => callback_method(a.place, takes, argument),
        },
    }
}

/// The value of a callback with such an argument: a lambda, the name of a method, or an expression of the type.
#[tactic(auto, using(crate::proofs::ValueLaws::callback_lambda, crate::proofs::ValueLaws::callback_name, crate::proofs::ValueLaws::callback_other))]
pub fn callback(
    alloc: Global,
    g: &mut Ground,
    a: &Expr,
    argument: Option<&CsType>,
) -> Result<(), CheckFault>
    ensures does { Agrees result (spec.callback g.old a.now (option_copied argument.entry)) }
    ensures same { g.new ≡ g.old }
{
    match form_of(&a.kind) {
        Form::Lambda(name, body) => lambda(alloc, g, a.place, name, body, argument),
        Form::Name(name) => callback_name(alloc, g, a, name, argument),
        Form::Other => callback_expression(alloc, g, a, argument),
    }
}

fn supplied_value(alloc: Global, g: &Ground, cs_type: &CsType, a: &Expr) -> Result<(), CheckFault>
    ensures { Agrees result (results.fitting_value g.now cs_type.now a.now) }
{
    let x = value(alloc, g, a)?;
    wants(cs_type, x.get().place, &x.get().expr_type)
}

fn supplied_callback(
    alloc: Global,
    g: &mut Ground,
    argument: &Option<Boxed<CsType>>,
    a: &Expr,
) -> Result<(), CheckFault>
    ensures does { Agrees result (spec.callback g.old a.now argument.now) }
    ensures same { g.new ≡ g.old }
{
    match argument {
        Some(argument) => callback(alloc, g, a, Some(argument.get())),
        None => callback(alloc, g, a, None),
    }
}

/// An expression as what a parameter of a type is given.
#[tactic(auto, using(crate::proofs::ValueLaws::supplied_int, crate::proofs::ValueLaws::supplied_bool, crate::proofs::ValueLaws::supplied_text, crate::proofs::ValueLaws::supplied_rec, crate::proofs::ValueLaws::supplied_list, crate::proofs::ValueLaws::supplied_callback, crate::proofs::ValueLaws::supplied_fragment, crate::proofs::ValueLaws::supplied_change, crate::proofs::ValueLaws::supplied_args, crate::proofs::ValueLaws::supplied_nothing))]
pub fn supplied(alloc: Global, g: &mut Ground, cs_type: &CsType, a: &Expr) -> Result<(), CheckFault>
    ensures does { Agrees result (spec.supplied g.old cs_type.now a.now) }
    ensures same { g.new ≡ g.old }
{
    match cs_type {
        CsType::Callback(argument) => supplied_callback(alloc, g, argument, a),
        CsType::Int => supplied_value(alloc, g, cs_type, a),
        CsType::Bool => supplied_value(alloc, g, cs_type, a),
        CsType::Text => supplied_value(alloc, g, cs_type, a),
        CsType::Rec(_) => supplied_value(alloc, g, cs_type, a),
        CsType::List(_) => supplied_value(alloc, g, cs_type, a),
        CsType::Fragment(_) => supplied_value(alloc, g, cs_type, a),
        CsType::Change => supplied_value(alloc, g, cs_type, a),
        CsType::Args => supplied_value(alloc, g, cs_type, a),
        CsType::Nothing => supplied_value(alloc, g, cs_type, a),
    }
}
