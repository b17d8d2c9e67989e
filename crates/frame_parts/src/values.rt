// Expressions and statements in templates.
ghost use Rattle.std.specs.Prelude.{◌≡◌, map, option_map, OnOk, take, length};
ghost use Rattle.cs_ast.specs.declared.scope.Scope.{Scope};
ghost use Rattle.cs_check.specs.Views.{behind as behind_scope};
ghost use Rattle.cs_forms.specs.Agrees.{Agrees, AgreesBy};
ghost use Rattle.cs_forms.specs.Views.{listed_view};
ghost use Rattle.cs_rules.specs.Judged.{if_there};
ghost use Rattle.cs_rules.specs.Statements as statements;
ghost use Rattle.cs_rules.specs.Statements.{done};
ghost use Rattle.cs_rules.specs.Trees as trees;
ghost use Rattle.frame_parts.specs.Heads as heads;
ghost use Rattle.frame_parts.specs.Steps.{code_in};
ghost use Rattle.frame_parts.specs.HeadViews.{head_view};

use cs_ast::{Code, Expr, Scope, Stmt};
use cs_check::{Stated, check_expr, check_statement_with};
use cs_forbidden::Forbidden;
use cs_forms::CheckFault;
use cs_forms::joining::{Listed, items_and_code};
use cs_forms::types::code_of;
use cs_rules::Checked;
use sqlite_items::Boxed;
use std::alloc::Global;

/// An expression.
pub fn value(alloc: Global, scope: &Scope, a: &Expr) -> Result<Boxed<Checked>, CheckFault>
    ensures { Agrees result (trees.value_in scope.now a.now) }
{
    let x = check_expr(alloc, a, scope)?;
    Ok(Boxed::new(alloc, x)?)
}

/// The code of an expression.
pub fn code(alloc: Global, scope: &Scope, a: &Expr) -> Result<Code, CheckFault>
    ensures { Agrees result (code_in scope.now a.now) }
{
    let x = value(alloc, scope, a)?;
    Ok(code_of(x))
}

/// The code of an expression that may be absent.
pub fn optional_code(
    alloc: Global,
    scope: &Scope,
    a: &Option<Expr>,
) -> Result<Option<Code>, CheckFault>
    ensures { Agrees result (if_there (code_in scope.now) a.now) }
{
    match a {
        Some(a) => Ok(Some(code(alloc, scope, a)?)),
        None => Ok(None),
    }
}

/// A statement, with the locals that it declares.
#[tactic(auto, using(cs_forbidden::proofs::Nothing::same_statement))]
pub fn stated(alloc: Global, scope: &Scope, one: &Stmt) -> Result<Boxed<Stated>, CheckFault>
    ensures { AgreesBy (λ stated. done (behind_scope scope.now stated.locals) stated.code) result (trees.statement one.now scope.now) }
{
    let forbidden = Forbidden::nothing(alloc);
    let it = check_statement_with(alloc, one, scope, &forbidden)?;
    Ok(Boxed::new(alloc, it)?)
}

/// The start of a `for`, whose local is in scope from then on.
#[tactic(auto, using(cs_check::proofs::ScopeLemmas::kept_self, crate::proofs::ScopeLemmas::kept_more))]
pub fn started(
    alloc: Global,
    scope: &mut Scope,
    start: &Option<Stmt>,
) -> Result<Option<Code>, CheckFault>
    ensures does { AgreesBy (λ code. (code, scope.new)) result (statements.started (option_map trees.statement start.now) scope.old) }
    ensures kept { OnOk result (take (length scope.old.names) scope.new.names ≡ scope.old.names) }
    ensures rest { OnOk result (scope.new ≡ record scope.old { names = scope.new.names }) }
{
    match start {
        Some(start) => {
            let Stated { code, locals } = stated(alloc, scope, start)?.into_inner();
            scope.names.append(locals)?;
            Ok(Some(code))
        }
        None => Ok(None),
    }
}

/// What stands in the brackets of a `for`.
#[derive(Drop)]
pub struct Head {
    pub start: Option<Code>,
    pub test: Option<Code>,
    pub step: Option<Code>,
}

/// The start of a `for`, and behind it its test and its step.
pub fn headed(
    alloc: Global,
    scope: &mut Scope,
    start: &Option<Stmt>,
    test: &Option<Expr>,
    step: &Option<Expr>,
) -> Result<Boxed<Head>, CheckFault>
    ensures does { AgreesBy (λ head. (head_view head, scope.new)) result (heads.headed start.now test.now step.now scope.old) }
    ensures kept { OnOk result (take (length scope.old.names) scope.new.names ≡ scope.old.names) }
    ensures rest { OnOk result (scope.new ≡ record scope.old { names = scope.new.names }) }
{
    let start = started(alloc, scope, start)?;
    let test = optional_code(alloc, scope, test)?;
    let step = optional_code(alloc, scope, step)?;
    Ok(Boxed::new(alloc, Head { start, test, step })?)
}

/// Goes behind a statement.
#[tactic(auto, using(crate::proofs::ScopeLemmas::kept_more))]
pub fn go_behind(alloc: Global, scope: &mut Scope, one: &Stmt) -> Result<(), CheckFault>
    ensures does { AgreesBy (λ gone. scope.new) result (heads.behind one.now scope.old) }
    ensures kept { OnOk result (take (length scope.old.names) scope.new.names ≡ scope.old.names) }
    ensures rest { OnOk result (scope.new ≡ record scope.old { names = scope.new.names }) }
{
    let it = stated(alloc, scope, one)?;
    let Stated { locals, .. } = it.into_inner();
    scope.names.append(locals)?;
    Ok(())
}

/// The list of a `foreach`.
pub fn listed(alloc: Global, scope: &Scope, list: &Expr) -> Result<Listed, CheckFault>
    ensures { AgreesBy listed_view result (heads.listed list.now scope.now) }
{
    let x = value(alloc, scope, list)?;
    items_and_code(alloc, x)
}
