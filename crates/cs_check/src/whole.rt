// Whole expressions, bodies and statements.
ghost use Rattle.std.specs.Prelude.{◌≡◌};
ghost use Rattle.cs_rules.specs.Statements.{done};
ghost use Rattle.cs_rules.specs.Trees.{value_in, body_in};
ghost use Rattle.cs_forbidden.specs.Trees as forbidden_spec;
ghost use Rattle.cs_forms.specs.Agrees.{Agrees, AgreesBy};
ghost use Rattle.cs_check.specs.Views.{behind};

use crate::expressions::value;
use crate::statements::{in_order, statement};
use cs_ast::{Code, Expr, Named, Scope, Stmt};
use cs_forbidden::Forbidden;
use cs_forms::CheckFault;
use cs_forms::names::Names;
use cs_rules::Checked;
use sqlite_items::Items;
use std::alloc::Global;

/// The code and the type of an expression in a scope, or the first rule that it breaks.
#[tactic(auto, using(cs_forbidden::proofs::Nothing::same_uses))]
pub fn check_expr(alloc: Global, e: &Expr, scope: &Scope) -> Result<Checked, CheckFault>
    ensures { Agrees result (value_in scope.now e.now) }
{
    let forbidden = Forbidden::nothing(alloc);
    check_expr_with(alloc, e, scope, &forbidden)
}

/// The code of the statements of a body in a scope, a block, or the first rule that they break.
#[tactic(auto, using(crate::proofs::WholeLemmas::same_body))]
pub fn check_body(alloc: Global, body: &[Stmt], scope: &Scope) -> Result<Code, CheckFault>
    ensures { Agrees result (body_in scope.now body.now) }
{
    let forbidden = Forbidden::nothing(alloc);
    check_body_with(alloc, body, scope, &forbidden)
}

/// As [`check_expr`], where these things are forbidden besides.
pub fn check_expr_with(
    alloc: Global,
    e: &Expr,
    scope: &Scope,
    forbidden: &Forbidden,
) -> Result<Checked, CheckFault>
    ensures { Agrees result (forbidden_spec.value_in forbidden.now scope.now e.now) }
{
    let names = Names::new(alloc, scope, forbidden);
    let x = value(&names, e)?;
    Ok(x.into_inner())
}

/// As [`check_body`], where these things are forbidden besides.
pub fn check_body_with(
    alloc: Global,
    body: &[Stmt],
    scope: &Scope,
    forbidden: &Forbidden,
) -> Result<Code, CheckFault>
    ensures { Agrees result (forbidden_spec.body_in forbidden.now scope.now body.now) }
{
    let mut names = Names::new(alloc, scope, forbidden);
    let codes = in_order(&mut names, body)?;
    Ok(Code::Block(codes))
}

/// A statement that breaks no rule: its code, and the locals that it declares behind those of its scope.
#[derive(Debug, Drop)]
pub struct Stated {
    pub code: Code,
    pub locals: Items<Named>,
}

/// One statement in a scope, where these things are forbidden besides, or the first rule that it breaks.
pub fn check_statement_with(
    alloc: Global,
    one: &Stmt,
    scope: &Scope,
    forbidden: &Forbidden,
) -> Result<Stated, CheckFault>
    ensures { AgreesBy (λ stated. done (behind scope.now stated.locals) stated.code) result (forbidden_spec.statement forbidden.now one.now scope.now) }
{
    let mut names = Names::new(alloc, scope, forbidden);
    let code = statement(&mut names, one)?;
    let locals = names.locals;
    Ok(Stated { code, locals })
}
