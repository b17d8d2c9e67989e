// The code of callbacks and handlers.
ghost use Rattle.std.specs.Prelude.{◌≡◌, IfOk};
ghost use Rattle.std.specs.Option.{option_copied};
ghost use Rattle.cs_forms.specs.Agrees.{AgreesBy};
ghost use Rattle.cs_rules.specs.Names.{meant as meant_spec};
ghost use Rattle.page_meaning.specs.Callbacks as page;
ghost use Rattle.page_meaning.specs.Tags.{supplied_code};
ghost use Rattle.frame_parts.specs.Callbacks as spec;
ghost use Rattle.frame_parts.specs.Steps.{step, judged, code_in};
ghost use Rattle.frame_parts.specs.Views.{IsWhole, home_in, numbered};

use crate::bodies::{lambda_body, named_body};
use crate::captures::{User, positions_of, used};
use crate::making::Making;
use crate::names::{is_method, meant};
use crate::scopes::place_at;
use crate::site::Site;
use crate::values::code;
use cs_ast::{Body, Code, CsType, Expr, Ident, Named, Scope};
use cs_forms::CheckFault;
use razor_parts::forms::{Form, form_of};
use sqlite_items::Boxed;
use text_core::{Oom, Txt};

/// A callback of the present instance over these locals, whose body stands at a number of the content.
fn own_callback(site: &Site<'_>, number: u32, locals: &[Named]) -> Result<Code, Oom>
    ensures { IfOk result (λ code. code ≡ page.own_callback (home_in site.now) number locals.now) }
{
    let place = place_at(site, number)?;
    let positions = positions_of(site.home.alloc, locals)?;
    Ok(Code::Callback(place, positions))
}

fn lambda(
    site: &Site<'_>,
    scope: &Scope,
    number: u32,
    a: &Expr,
    name: &Option<Ident>,
    body: &Body,
    argument: Option<&CsType>,
    making: &mut Making,
) -> Result<Code, CheckFault>
    requires whole { IsWhole site.now }
    ensures { AgreesBy (λ code. (code, numbered making.new)) result
        (spec.lambda_callback (home_in site.now) scope.now number a.now name.now body.now (option_copied argument.entry) (numbered making.old)) }
{
    let captured = used(site, User::Expression(a), scope)?;
    let captured = captured.as_slice();
    let place = place_at(site, number)?;
    lambda_body(site, captured, place, a.place, name, body, argument, making)?;
    Ok(own_callback(site, number, captured)?)
}

/// An expression, which is no callback of its own.
fn plain(site: &Site<'_>, scope: &Scope, a: &Expr, making: &mut Making) -> Result<Code, CheckFault>
    ensures { AgreesBy (λ code. (code, numbered making.new)) result (judged (code_in scope.now a.now) (numbered making.old)) }
{
    code(site.home.alloc, scope, a)
}

/// A name that stands for this.
fn meant_callback(
    site: &Site<'_>,
    scope: &Scope,
    number: u32,
    a: &Expr,
    one: Option<&Named>,
    making: &mut Making,
) -> Result<Code, CheckFault>
    ensures { AgreesBy (λ code. (code, numbered making.new)) result
        (spec.meant_callback (option_copied one.entry) (home_in site.now) scope.now number a.now (numbered making.old)) }
{
    match one {
        None => plain(site, scope, a, making),
        Some(one) => {
            if is_method(&one.kind) {
                Ok(own_callback(site, number, &[])?)
            } else {
                plain(site, scope, a, making)
            }
        }
    }
}

fn named(
    site: &Site<'_>,
    scope: &Scope,
    number: u32,
    a: &Expr,
    name: &Txt,
    making: &mut Making,
) -> Result<Code, CheckFault>
    requires whole { IsWhole site.now }
    ensures { AgreesBy (λ code. (code, numbered making.new)) result
        (spec.named_callback (home_in site.now) scope.now number a.now name.now (numbered making.old)) }
{
    let place = place_at(site, number)?;
    named_body(site, place, name, making)?;
    let one = meant(scope.names.as_slice(), name);
    meant_callback(site, scope, number, a, one, making)
}

/// The code of the value of an event, or of a parameter that is a callback, with an argument of this type.
#[tactic(auto, using(crate::proofs::CallbackLaws::callback_lambda, crate::proofs::CallbackLaws::callback_name, crate::proofs::CallbackLaws::callback_other))]
pub fn callback(
    site: &Site<'_>,
    scope: &Scope,
    number: u32,
    a: &Expr,
    argument: Option<&CsType>,
    making: &mut Making,
) -> Result<Code, CheckFault>
    requires whole { IsWhole site.now }
    ensures { AgreesBy (λ code. (code, numbered making.new)) result
        (step (page.callback (home_in site.now) scope.now number a.now (option_copied argument.entry)) (numbered making.old)) }
{
    match form_of(&a.kind) {
        Form::Lambda(name, body) => lambda(site, scope, number, a, name, body, argument, making),
        Form::Name(name) => named(site, scope, number, a, name, making),
        Form::Other => plain(site, scope, a, making),
    }
}

fn supplied_callback(
    site: &Site<'_>,
    scope: &Scope,
    number: u32,
    argument: &Option<Boxed<CsType>>,
    a: &Expr,
    making: &mut Making,
) -> Result<Code, CheckFault>
    requires whole { IsWhole site.now }
    ensures { AgreesBy (λ code. (code, numbered making.new)) result
        (step (page.callback (home_in site.now) scope.now number a.now argument.now) (numbered making.old)) }
{
    match argument {
        Some(argument) => callback(site, scope, number, a, Some(argument.get()), making),
        None => callback(site, scope, number, a, None, making),
    }
}

/// The code of an expression for a parameter of a type.
#[tactic(auto, using(crate::proofs::CallbackLaws::supplied_int, crate::proofs::CallbackLaws::supplied_bool, crate::proofs::CallbackLaws::supplied_text, crate::proofs::CallbackLaws::supplied_rec, crate::proofs::CallbackLaws::supplied_list, crate::proofs::CallbackLaws::supplied_callback, crate::proofs::CallbackLaws::supplied_fragment, crate::proofs::CallbackLaws::supplied_change, crate::proofs::CallbackLaws::supplied_args, crate::proofs::CallbackLaws::supplied_nothing))]
pub fn supplied(
    site: &Site<'_>,
    scope: &Scope,
    number: u32,
    cs_type: &CsType,
    a: &Expr,
    making: &mut Making,
) -> Result<Code, CheckFault>
    requires whole { IsWhole site.now }
    ensures { AgreesBy (λ code. (code, numbered making.new)) result
        (step (supplied_code (home_in site.now) scope.now number cs_type.now a.now) (numbered making.old)) }
{
    match cs_type {
        CsType::Callback(argument) => {
            supplied_callback(site, scope, number, argument, a, making)
        }
        CsType::Int => plain(site, scope, a, making),
        CsType::Bool => plain(site, scope, a, making),
        CsType::Text => plain(site, scope, a, making),
        CsType::Rec(_) => plain(site, scope, a, making),
        CsType::List(_) => plain(site, scope, a, making),
        CsType::Fragment(_) => plain(site, scope, a, making),
        CsType::Change => plain(site, scope, a, making),
        CsType::Args => plain(site, scope, a, making),
        CsType::Nothing => plain(site, scope, a, making),
    }
}
