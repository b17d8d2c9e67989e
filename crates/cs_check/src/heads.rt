// What stands in the brackets of statements.
ghost use Rattle.std.specs.Prelude.{option_map, if◌then◌else◌};
ghost use Rattle.cs_rules.specs.Judged.{fine, if_there, mismatch as wrong};
ghost use Rattle.cs_rules.specs.Statements as spec;
ghost use Rattle.cs_forbidden.specs.Trees.{uses};
ghost use Rattle.cs_forms.specs.Agrees.{Agrees, AgreesBy};
ghost use Rattle.cs_check.specs.Steps as steps;
ghost use Rattle.cs_forms.specs.Views.{scope_of, forbidden_of, listed_view};
ghost use Rattle.cs_check.specs.Views.{head_view};

use crate::expressions::value;
use cs_ast::{Code, CsType, Expr};
use cs_forms::CheckFault;
use cs_forms::fault::mismatch;
use cs_forms::joining::{Listed, items_and_code};
use cs_forms::labels::decides;
use cs_forms::names::Names;
use cs_forms::types::{boxed_code, fitting};
use cs_rules::{Checked, ExprType};
use sqlite_items::Boxed;

/// A condition.
#[tactic(auto, unfolding(cs_rules::specs::Statements::condition))]
pub fn condition(names: &Names<'_>, a: &Expr) -> Result<Boxed<Code>, CheckFault>
    ensures { Agrees result (spec.condition (uses (forbidden_of names.now) a.now).value (scope_of names.now)) }
{
    let x = value(names, a)?;
    let code = fitting(&CsType::Bool, x)?;
    Ok(Boxed::new(names.alloc, code)?)
}

fn stepped(names: &Names<'_>, a: &Expr) -> Result<Boxed<Code>, CheckFault>
    ensures { Agrees result (spec.stepped (uses (forbidden_of names.now) a.now).value (scope_of names.now)) }
{
    let x = value(names, a)?;
    Ok(boxed_code(names.alloc, x)?)
}

/// A condition, where there is one.
fn optional_condition(
    names: &Names<'_>,
    a: &Option<Expr>,
) -> Result<Option<Boxed<Code>>, CheckFault>
    ensures { Agrees result (if_there (λ x. spec.condition x (scope_of names.now)) (option_map (λ x. x.value) (option_map (uses (forbidden_of names.now)) a.now))) }
{
    match a {
        None => Ok(None),
        Some(a) => Ok(Some(condition(names, a)?)),
    }
}

fn optional_step(names: &Names<'_>, a: &Option<Expr>) -> Result<Option<Boxed<Code>>, CheckFault>
    ensures { Agrees result (if_there (λ x. spec.stepped x (scope_of names.now)) (option_map (λ x. x.value) (option_map (uses (forbidden_of names.now)) a.now))) }
{
    match a {
        None => Ok(None),
        Some(a) => Ok(Some(stepped(names, a)?)),
    }
}

/// The list of a `foreach`.
pub fn list_of(names: &Names<'_>, list: &Expr) -> Result<Listed, CheckFault>
    ensures { AgreesBy listed_view result (steps.list_of (uses (forbidden_of names.now) list.now).value (scope_of names.now)) }
{
    let x = value(names, list)?;
    items_and_code(names.alloc, x)
}

/// What stands in the brackets of a `for`.
#[derive(Drop)]
pub struct Head {
    pub start: Option<Boxed<Code>>,
    pub test: Option<Boxed<Code>>,
    pub step: Option<Boxed<Code>>,
}

pub fn heading(
    names: &Names<'_>,
    start: Option<Boxed<Code>>,
    test: &Option<Expr>,
    step: &Option<Expr>,
) -> Result<Boxed<Head>, CheckFault>
    ensures { AgreesBy head_view result (steps.heading start (option_map (λ x. x.value) (option_map (uses (forbidden_of names.now)) test.now))
        (option_map (λ x. x.value) (option_map (uses (forbidden_of names.now)) step.now)) (scope_of names.now)) }
{
    let test = optional_condition(names, test)?;
    let step = optional_step(names, step)?;
    let head = Boxed::new(names.alloc, Head { start, test, step })?;
    Ok(head)
}

/// The type by which a `switch` decides.
pub fn deciding(x: &Checked) -> Result<&ExprType, CheckFault>
    ensures { AgreesBy (λ decided. decided.now) result (if spec.decides x.now.expr_type then fine x.now.expr_type else wrong x.now.place) }
{
    if decides(&x.expr_type) {
        Ok(&x.expr_type)
    } else {
        Err(mismatch(x.place))
    }
}
