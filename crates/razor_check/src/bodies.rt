// The bodies of methods and lambdas.
ghost use Rattle.cs_forms.specs.Agrees.{Agrees};
ghost use Rattle.cs_forbidden.specs.Trees as forbidden_spec;
ghost use Rattle.razor_rules.specs.Bodies as spec;
ghost use Rattle.razor_check.specs.Results as results;

use cs_ast::{Body, Code, Expr, Scope};
use cs_check::{check_body_with, check_expr_with};
use cs_forbidden::Forbidden;
use cs_forms::CheckFault;
use cs_forms::types::{code_of, has_values, wants};
use cs_rules::Checked;
use sqlite_items::Boxed;
use std::alloc::Global;

/// An expression in a scope, where these things are forbidden in it.
pub fn checked_value(
    alloc: Global,
    forbidden: &Forbidden,
    scope: &Scope,
    a: &Expr,
) -> Result<Boxed<Checked>, CheckFault>
    ensures { Agrees result (forbidden_spec.value_in forbidden.now scope.now a.now) }
{
    let x = check_expr_with(alloc, a, scope, forbidden)?;
    Ok(Boxed::new(alloc, x)?)
}

/// A value of a body fits, or is dropped.
fn result_fits(scope: &Scope, x: &Checked) -> Result<(), CheckFault>
    ensures { Agrees result (spec.result_fits scope.now.result x.now) }
{
    if has_values(&scope.result) {
        wants(&scope.result, x.place, &x.expr_type)
    } else {
        Ok(())
    }
}

/// An expression as the body of what has the scope's result.
pub fn checked_result(
    alloc: Global,
    forbidden: &Forbidden,
    scope: &Scope,
    a: &Expr,
) -> Result<Code, CheckFault>
    ensures { Agrees result (results.judged_value forbidden.now scope.now a.now) }
{
    let x = checked_value(alloc, forbidden, scope, a)?;
    result_fits(scope, x.get())?;
    Ok(code_of(x))
}

/// What a body comes to in a scope, where these things are forbidden in it.
#[tactic(auto, using(crate::proofs::BodyLaws::value_judged, crate::proofs::BodyLaws::block_judged))]
pub fn checked_body(
    alloc: Global,
    forbidden: &Forbidden,
    scope: &Scope,
    body: &Body,
) -> Result<Code, CheckFault>
    ensures { Agrees result (spec.judged_body forbidden.now scope.now body.now) }
{
    match body {
        Body::Value(a) => checked_result(alloc, forbidden, scope, a.get()),
        Body::Block(body) => check_body_with(alloc, body.as_slice(), scope, forbidden),
    }
}
