// The locals that statements declare.
ghost use Rattle.std.specs.Prelude.{◌≡◌, map, option_map, OnOk, take, length};
ghost use Rattle.cs_rules.specs.Judged.{if_there};
ghost use Rattle.cs_rules.specs.Statements as spec;
ghost use Rattle.cs_forbidden.specs.Trees.{uses};
ghost use Rattle.cs_rules.specs.Written as written_spec;
ghost use Rattle.cs_forms.specs.Agrees.{Agrees, AgreesBy};
ghost use Rattle.cs_check.specs.Steps as steps;
ghost use Rattle.cs_forms.specs.Views.{scope_of, forbidden_of};
ghost use Rattle.cs_check.specs.Views.{ready_view};

use crate::expressions::value;
use cs_ast::{Code, CsType, Expr, Ident, TypeExpr};
use cs_forms::CheckFault;
use cs_forms::fault::mismatch;
use cs_forms::names::Names;
use cs_forms::types::{boxed_code, copy_type, fits, own_type};
use cs_forms::written::written;
use cs_rules::{Checked, Rule};
use sqlite_items::Boxed;
use std::alloc::Global;

fn declared_type(
    names: &Names<'_>,
    cs_type: &Option<TypeExpr>,
) -> Result<Option<CsType>, CheckFault>
    ensures { Agrees result (if_there (written_spec.written (scope_of names.now).records) cs_type.now) }
{
    match cs_type {
        None => Ok(None),
        Some(cs_type) => {
            let records = names.around.scope.records.as_slice();
            Ok(Some(written(names.alloc, records, cs_type)?))
        }
    }
}

/// The initial value of a local.
fn initial(names: &Names<'_>, name: &Ident, a: &Option<Expr>) -> Result<Boxed<Checked>, CheckFault>
    ensures { Agrees result (spec.initial name.now (option_map (λ x. x.value) (option_map (uses (forbidden_of names.now)) a.now)) (scope_of names.now)) }
{
    match a {
        None => Err(CheckFault::Broken {
            rule: Rule::NotAssigned,
            place: name.place,
        }),
        Some(a) => value(names, a),
    }
}

/// The type of a local: what is written, or for `var` that of the value.
#[tactic(auto, unfolding(cs_rules::specs::Statements::local_type))]
fn local_type(alloc: Global, declared: Option<CsType>, x: &Checked) -> Result<CsType, CheckFault>
    ensures { Agrees result (spec.local_type declared x.now) }
{
    match declared {
        None => {
            let given = own_type(x.place, &x.expr_type)?;
            Ok(copy_type(alloc, given)?)
        }
        Some(cs_type) => {
            if fits(&x.expr_type, &cs_type) {
                Ok(cs_type)
            } else {
                Err(mismatch(x.place))
            }
        }
    }
}

/// A local that is ready to be declared: its type, and the code of its declaration.
#[derive(Drop)]
struct Ready {
    cs_type: CsType,
    code: Code,
}

fn typed(alloc: Global, declared: Option<CsType>, x: Boxed<Checked>) -> Result<Ready, CheckFault>
    ensures { AgreesBy ready_view result (steps.typed declared x) }
{
    let cs_type = local_type(alloc, declared, x.get())?;
    let value = boxed_code(alloc, x)?;
    let code = Code::Declare(value);
    Ok(Ready { cs_type, code })
}

fn prepared(
    names: &Names<'_>,
    cs_type: &Option<TypeExpr>,
    name: &Ident,
    a: &Option<Expr>,
) -> Result<Ready, CheckFault>
    ensures { AgreesBy ready_view result (steps.prepared cs_type.now name.now (option_map (λ x. x.value) (option_map (uses (forbidden_of names.now)) a.now)) (scope_of names.now)) }
{
    let declared = declared_type(names, cs_type)?;
    names.is_new(name)?;
    let x = initial(names, name, a)?;
    typed(names.alloc, declared, x)
}

/// A local.
#[tactic(auto, unfolding(cs_rules::specs::Statements::local), using(crate::proofs::ScopeLemmas::kept_self))]
pub fn local(
    names: &mut Names<'_>,
    cs_type: &Option<TypeExpr>,
    name: &Ident,
    a: &Option<Expr>,
) -> Result<Code, CheckFault>
    ensures does { AgreesBy (λ code. spec.done (scope_of names.new) code) result
        (spec.local cs_type.now name.now (option_map (λ x. x.value) (option_map (uses (forbidden_of names.old)) a.now)) (scope_of names.old)) }
    ensures around { names.new.around ≡ names.old.around }
    ensures kept { OnOk result (take (length names.old.locals) names.new.locals ≡ names.old.locals) }
{
    let Ready { cs_type, code } = prepared(names, cs_type, name, a)?;
    names.declare(&name.name, cs_type)?;
    Ok(code)
}
