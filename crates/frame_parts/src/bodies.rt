// The bodies of members and lambdas.
ghost use Rattle.std.specs.Prelude.{◌≡◌, option_map};
ghost use Rattle.std.specs.Option.{option_copied};
ghost use Rattle.cs_forbidden.specs.Roots.{nothing};
ghost use Rattle.cs_forms.specs.Agrees.{Agrees, AgreesBy};
ghost use Rattle.page_meaning.specs.Bodies as page;
ghost use Rattle.razor_rules.specs.Bodies as spec;
ghost use Rattle.frame_parts.specs.Methods as methods;
ghost use Rattle.frame_parts.specs.Views.{IsWhole, home_in, method_view, numbered};

use crate::captures::inner_scope;
use crate::making::{Making, put_body};
use crate::names::push_argument;
use crate::scopes::member_scope;
use crate::site::Site;
use cs_ast::{
    Argument, Body, Code, CsType, Expr, Ident, Member, MemberKind, Named, Scope, TypeExpr,
};
use cs_check::{check_body_with, check_expr_with};
use cs_forbidden::Forbidden;
use cs_forms::CheckFault;
use cs_forms::types::{code_of, has_values, wants};
use cs_forms::written::type_of;
use cs_rules::Checked;
use razor_parts::locals::push_arguments;
use razor_parts::names::result_type;
use razor_parts::numbers::plus;
use sqlite_items::Boxed;
use std::alloc::Global;
use text_core::{Place, Txt};

/// A value of a body fits, or is dropped.
fn result_fits(scope: &Scope, x: &Checked) -> Result<(), CheckFault>
    ensures { Agrees result (spec.result_fits scope.now.result x.now) }
{
    if has_values(&scope.result) {
        wants(&scope.result, x.place, &x.expr_type)
    } else {
        Ok(())
    }
}

/// An expression as the body of what has the scope's result.
fn checked_value(alloc: Global, scope: &Scope, a: &Expr) -> Result<Code, CheckFault>
    ensures { Agrees result (methods.judged_value scope.now a.now) }
{
    let forbidden = Forbidden::nothing(alloc);
    let x = Boxed::new(alloc, check_expr_with(alloc, a, scope, &forbidden)?)?;
    result_fits(scope, x.get())?;
    Ok(code_of(x))
}

/// What a body comes to in a scope.
#[tactic(auto, using(crate::proofs::BodyLaws::value_judged, crate::proofs::BodyLaws::block_judged))]
fn checked_body(alloc: Global, scope: &Scope, body: &Body) -> Result<Code, CheckFault>
    ensures { Agrees result (spec.judged_body nothing scope.now body.now) }
{
    match body {
        Body::Value(a) => checked_value(alloc, scope, a.get()),
        Body::Block(body) => {
            let forbidden = Forbidden::nothing(alloc);
            check_body_with(alloc, body.as_slice(), scope, &forbidden)
        }
    }
}

/// A method: its result, its arguments and its body.
#[derive(Clone, Copy)]
pub struct Method<'a> {
    pub result: &'a Option<TypeExpr>,
    pub arguments: &'a [Argument],
    pub body: &'a Body,
}

/// A member, if it is a method of this name.
pub fn method_by<'a>(kind: &'a MemberKind, name: &Txt) -> Option<Method<'a>>
    ensures { option_map method_view result ≡ methods.method_by name.now kind.now }
{
    match kind {
        MemberKind::Method {
            result,
            name: other,
            arguments,
            body,
        } => {
            if other.name == *name {
                Some(Method {
                    result,
                    arguments: arguments.as_slice(),
                    body,
                })
            } else {
                None
            }
        }
        MemberKind::Field { .. } => None,
        MemberKind::Parameter { .. } => None,
        MemberKind::Getter { .. } => None,
        MemberKind::RecordDef { .. } => None,
    }
}

/// The first method of a name.
fn method_named<'a>(members: &'a [Member], name: &Txt) -> Option<Method<'a>>
    ensures { option_map method_view result ≡ methods.method_named members.now name.now }
{
    for one in members {
        if let Some(method) = method_by(&one.kind, name) {
            return Some(method);
        }
    }
    None
}

fn method_code(site: &Site<'_>, it: Method<'_>) -> Result<Code, CheckFault>
    requires whole { IsWhole site.now }
    ensures { Agrees result (page.method_code (home_in site.now) it.entry.result.now it.entry.arguments.now it.entry.body.now) }
{
    let alloc = site.home.alloc;
    let mut scope = member_scope(site)?;
    scope.result = result_type(alloc, it.result)?;
    push_arguments(alloc, &mut scope, it.arguments)?;
    checked_body(alloc, &scope, it.body)
}

/// Gives the body of a method a number.
fn method_body(
    site: &Site<'_>,
    number: u32,
    it: Method<'_>,
    making: &mut Making,
) -> Result<(), CheckFault>
    requires whole { IsWhole site.now }
    ensures { AgreesBy (λ it. (it, numbered making.new)) result (methods.method_body (home_in site.now) number (method_view it.entry) (numbered making.old)) }
{
    let code = method_code(site, it)?;
    Ok(put_body(making, number, code)?)
}

fn getter_code(site: &Site<'_>, gives: &TypeExpr, value: &Expr) -> Result<Code, CheckFault>
    requires whole { IsWhole site.now }
    ensures { Agrees result (methods.getter_code (home_in site.now) gives.now value.now) }
{
    let alloc = site.home.alloc;
    let mut scope = member_scope(site)?;
    scope.result = type_of(alloc, gives)?;
    push_arguments(alloc, &mut scope, &[])?;
    checked_value(alloc, &scope, value)
}

fn getter_body(
    site: &Site<'_>,
    number: u32,
    gives: &TypeExpr,
    value: &Expr,
    making: &mut Making,
) -> Result<(), CheckFault>
    requires whole { IsWhole site.now }
    ensures { AgreesBy (λ it. (it, numbered making.new)) result (methods.getter_body (home_in site.now) number gives.now value.now (numbered making.old)) }
{
    let code = getter_code(site, gives, value)?;
    Ok(put_body(making, number, code)?)
}

/// Gives the body of the method of a name another number, if there is such a method.
pub fn named_body(
    site: &Site<'_>,
    number: u32,
    name: &Txt,
    making: &mut Making,
) -> Result<(), CheckFault>
    requires whole { IsWhole site.now }
    ensures { AgreesBy (λ it. (it, numbered making.new)) result
        (methods.named_body (home_in site.now) number (methods.method_named (home_in site.now).members name.now) (numbered making.old)) }
{
    match method_named(site.home.members, name) {
        Some(method) => method_body(site, number, method, making),
        None => Ok(()),
    }
}

fn member_body(
    site: &Site<'_>,
    number: u32,
    kind: &MemberKind,
    making: &mut Making,
) -> Result<(), CheckFault>
    requires whole { IsWhole site.now }
    ensures { AgreesBy (λ it. (it, numbered making.new)) result (methods.member_body (home_in site.now) number kind.now (numbered making.old)) }
{
    match kind {
        MemberKind::Method {
            result,
            arguments,
            body,
            ..
        } => {
            let method = Method {
                result,
                arguments: arguments.as_slice(),
                body,
            };
            method_body(site, number, method, making)
        }
        MemberKind::Getter { result, value, .. } => {
            getter_body(site, number, result, value, making)
        }
        MemberKind::Field { .. } => Ok(()),
        MemberKind::Parameter { .. } => Ok(()),
        MemberKind::RecordDef { .. } => Ok(()),
    }
}

/// Gives the bodies of the members of a component their numbers.
pub fn member_bodies(site: &Site<'_>, making: &mut Making) -> Result<(), CheckFault>
    requires whole { IsWhole site.now }
    ensures { AgreesBy (λ it. (it, numbered making.new)) result
        (methods.member_bodies (home_in site.now) (home_in site.now).first (home_in site.now).members (numbered making.old)) }
{
    let mut number = site.home.first;
    for one in site.home.members {
        member_body(site, number, &one.kind, making)?;
        number = plus(number, 1)?;
    }
    Ok(())
}

/// The code of a lambda at a place, behind the locals that it uses, where it takes an argument of this type.
fn lambda_code(
    site: &Site<'_>,
    captured: &[Named],
    place: Place,
    name: &Option<Ident>,
    body: &Body,
    argument: Option<&CsType>,
) -> Result<Code, CheckFault>
    requires whole { IsWhole site.now }
    ensures { Agrees result (methods.lambda_code (home_in site.now) captured.now place name.now body.now (option_copied argument.entry)) }
{
    let alloc = site.home.alloc;
    let mut scope = inner_scope(site, captured)?;
    push_argument(alloc, &mut scope, place, name, argument)?;
    checked_body(alloc, &scope, body)
}

/// Gives the body of a lambda a number.
pub fn lambda_body(
    site: &Site<'_>,
    captured: &[Named],
    number: u32,
    place: Place,
    name: &Option<Ident>,
    body: &Body,
    argument: Option<&CsType>,
    making: &mut Making,
) -> Result<(), CheckFault>
    requires whole { IsWhole site.now }
    ensures { AgreesBy (λ it. (it, numbered making.new)) result
        (methods.lambda_body (home_in site.now) captured.now number place name.now body.now (option_copied argument.entry) (numbered making.old)) }
{
    let code = lambda_code(site, captured, place, name, body, argument)?;
    Ok(put_body(making, number, code)?)
}
