// What each form of statement comes to.
ghost use Rattle.std.specs.Prelude.{◌≡◌, map, option_map, OnOk, take, length};
ghost use Rattle.cs_rules.specs.Judged.{each, if_there};
ghost use Rattle.cs_rules.specs.Statements as spec;
ghost use Rattle.cs_forbidden.specs.Trees.{uses, statement as statement_of};
ghost use Rattle.cs_forbidden.specs.Forms.{statement_of_kind, section as section_of};
ghost use Rattle.cs_forms.specs.Agrees.{Agrees, AgreesBy};
ghost use Rattle.cs_forms.specs.Views.{scope_of, forbidden_of};

use crate::expressions::value;
use crate::heads::{Head, condition, deciding, heading, list_of};
use crate::locals::local;
use cs_ast::{Code, CsType, Expr, Ident, Section, Stmt, StmtKind};
use cs_forms::CheckFault;
use cs_forms::fault::mismatch;
use cs_forms::joining::Listed;
use cs_forms::labels::{constants, has_default};
use cs_forms::names::Names;
use cs_forms::types::{boxed_code, fits, fitting};
use cs_rules::ExprType;
use sqlite_items::{Boxed, Items};
use text_core::Place;

/// Ends the scopes of locals behind the first ones.
fn cut(names: &mut Names<'_>, depth: usize)
    ensures around { names.new.around ≡ names.old.around }
    ensures kept { names.new.locals ≡ take depth names.old.locals }
{
    while names.locals.len() > depth {
        names.locals.pop();
    }
}

#[tactic(auto, unfolding(cs_rules::specs::Statements::perform))]
fn perform(names: &Names<'_>, a: &Expr) -> Result<Code, CheckFault>
    ensures { AgreesBy (λ code. spec.done (scope_of names.now) code) result (spec.perform (uses (forbidden_of names.now) a.now).value (scope_of names.now)) }
{
    let x = value(names, a)?;
    let code = boxed_code(names.alloc, x)?;
    Ok(Code::Perform(code))
}

#[tactic(auto, unfolding(cs_rules::specs::Statements::return_of))]
fn return_of(names: &Names<'_>, a: &Option<Expr>, place: Place) -> Result<Code, CheckFault>
    ensures { AgreesBy (λ code. spec.done (scope_of names.now) code) result
        (spec.return_of (option_map (λ x. x.value) (option_map (uses (forbidden_of names.now)) a.now)) place (scope_of names.now)) }
{
    match a {
        None => {
            if !fits(&ExprType::Of(CsType::Nothing), &names.around.scope.result) {
                return Err(mismatch(place));
            }
            Ok(Code::Return(None))
        }
        Some(a) => {
            let x = value(names, a)?;
            let code = fitting(&names.around.scope.result, x)?;
            Ok(Code::Return(Some(Boxed::new(names.alloc, code)?)))
        }
    }
}

/// What a statement comes to.
#[cycle(statements)]
pub fn statement(names: &mut Names<'_>, one: &Stmt) -> Result<Code, CheckFault>
    ensures does { AgreesBy (λ code. spec.done (scope_of names.new) code) result (statement_of (forbidden_of names.old) one.now (scope_of names.old)) }
    ensures around { names.new.around ≡ names.old.around }
    ensures kept { OnOk result (take (length names.old.locals) names.new.locals ≡ names.old.locals) }
{
    form(names, one.place, &one.kind)
}

/// The same by its form.
#[cycle(statements)]
#[tactic(auto, using(crate::proofs::ScopeLemmas::kept_self))]
fn form(names: &mut Names<'_>, place: Place, kind: &StmtKind) -> Result<Code, CheckFault>
    ensures does { AgreesBy (λ code. spec.done (scope_of names.new) code) result (statement_of_kind (forbidden_of names.old) kind.now place (scope_of names.old)) }
    ensures around { names.new.around ≡ names.old.around }
    ensures kept { OnOk result (take (length names.old.locals) names.new.locals ≡ names.old.locals) }
{
    match kind {
        StmtKind::Local {
            cs_type,
            name,
            value,
        } => local(names, cs_type, name, value),
        StmtKind::Empty => Ok(Code::Empty),
        StmtKind::Block(body) => block(names, body.as_slice()),
        StmtKind::If { condition, yes, no } => if_else(names, condition, yes.get(), no),
        StmtKind::While { condition, body } => while_loop(names, body.get(), condition),
        StmtKind::For {
            start,
            condition,
            step,
            body,
        } => for_loop(names, start, condition, step, body.get()),
        StmtKind::ForEach { name, list, body } => for_each(names, name, body.get(), list),
        StmtKind::Switch { value, sections } => switch(names, sections.as_slice(), value),
        StmtKind::Break => Ok(Code::Break),
        StmtKind::Continue => Ok(Code::Continue),
        StmtKind::Return(a) => return_of(names, a, place),
        StmtKind::Expr(a) => perform(names, a),
        StmtKind::Await(a) => perform(names, a),
    }
}

/// Statements, in order.
#[cycle(statements)]
#[tactic(auto, using(cs_forms::proofs::FrontLemmas::front_none, cs_forms::proofs::FrontLemmas::front_more, cs_forms::proofs::FrontLemmas::front_end, crate::proofs::ScopeLemmas::kept_self, crate::proofs::ScopeLemmas::kept_on))]
pub fn in_order(names: &mut Names<'_>, body: &[Stmt]) -> Result<Items<Code>, CheckFault>
    ensures does { Agrees result (spec.in_order (map (statement_of (forbidden_of names.old)) body.now) (scope_of names.old)) }
    ensures around { names.new.around ≡ names.old.around }
    ensures kept { OnOk result (take (length names.old.locals) names.new.locals ≡ names.old.locals) }
{
    let mut codes = Items::new(names.alloc);
    for one in body {
        codes.push(statement(names, one)?)?;
    }
    Ok(codes)
}

/// The same in a scope of their own.
#[cycle(statements)]
fn enclosed(names: &mut Names<'_>, body: &[Stmt]) -> Result<Items<Code>, CheckFault>
    ensures does { Agrees result (spec.in_order (map (statement_of (forbidden_of names.old)) body.now) (scope_of names.old)) }
    ensures around { names.new.around ≡ names.old.around }
    ensures same { OnOk result (names.new.locals ≡ names.old.locals) }
{
    let depth = names.locals.len();
    let codes = in_order(names, body)?;
    cut(names, depth);
    Ok(codes)
}

/// A statement in a scope of its own.
#[cycle(statements)]
fn alone(names: &mut Names<'_>, one: &Stmt) -> Result<Boxed<Code>, CheckFault>
    ensures does { Agrees result (spec.alone (statement_of (forbidden_of names.old) one.now) (scope_of names.old)) }
    ensures around { names.new.around ≡ names.old.around }
    ensures same { OnOk result (names.new.locals ≡ names.old.locals) }
{
    let depth = names.locals.len();
    let code = statement(names, one)?;
    let code = Boxed::new(names.alloc, code)?;
    cut(names, depth);
    Ok(code)
}

#[cycle(statements)]
fn optional_alone(
    names: &mut Names<'_>,
    one: &Option<Boxed<Stmt>>,
) -> Result<Option<Boxed<Code>>, CheckFault>
    ensures does { Agrees result (if_there (λ x. spec.alone x (scope_of names.old)) (option_map (statement_of (forbidden_of names.old)) one.now)) }
    ensures around { names.new.around ≡ names.old.around }
    ensures same { OnOk result (names.new.locals ≡ names.old.locals) }
{
    match one {
        None => Ok(None),
        Some(one) => Ok(Some(alone(names, one.get())?)),
    }
}

#[cycle(statements)]
#[tactic(auto, unfolding(cs_rules::specs::Statements::block), using(crate::proofs::ScopeLemmas::kept_self))]
fn block(names: &mut Names<'_>, body: &[Stmt]) -> Result<Code, CheckFault>
    ensures does { AgreesBy (λ code. spec.done (scope_of names.new) code) result (spec.block (map (statement_of (forbidden_of names.old)) body.now) (scope_of names.old)) }
    ensures around { names.new.around ≡ names.old.around }
    ensures kept { OnOk result (take (length names.old.locals) names.new.locals ≡ names.old.locals) }
{
    let codes = enclosed(names, body)?;
    Ok(Code::Block(codes))
}

#[cycle(statements)]
#[tactic(auto, unfolding(cs_rules::specs::Statements::if_else), using(crate::proofs::ScopeLemmas::kept_self))]
fn if_else(
    names: &mut Names<'_>,
    test: &Expr,
    yes: &Stmt,
    no: &Option<Boxed<Stmt>>,
) -> Result<Code, CheckFault>
    ensures does { AgreesBy (λ code. spec.done (scope_of names.new) code) result
        (spec.if_else (uses (forbidden_of names.old) test.now).value (statement_of (forbidden_of names.old) yes.now) (option_map (statement_of (forbidden_of names.old)) no.now) (scope_of names.old)) }
    ensures around { names.new.around ≡ names.old.around }
    ensures kept { OnOk result (take (length names.old.locals) names.new.locals ≡ names.old.locals) }
{
    let code = condition(names, test)?;
    let first = alone(names, yes)?;
    let second = optional_alone(names, no)?;
    Ok(Code::If(code, first, second))
}

#[cycle(statements)]
#[tactic(auto, unfolding(cs_rules::specs::Statements::while_loop), using(crate::proofs::ScopeLemmas::kept_self))]
fn while_loop(names: &mut Names<'_>, body: &Stmt, test: &Expr) -> Result<Code, CheckFault>
    ensures does { AgreesBy (λ code. spec.done (scope_of names.new) code) result
        (spec.while_loop (uses (forbidden_of names.old) test.now).value (statement_of (forbidden_of names.old) body.now) (scope_of names.old)) }
    ensures around { names.new.around ≡ names.old.around }
    ensures kept { OnOk result (take (length names.old.locals) names.new.locals ≡ names.old.locals) }
{
    let code = condition(names, test)?;
    let turn = alone(names, body)?;
    Ok(Code::While(code, turn))
}

/// The start of a `for`.
#[cycle(statements)]
fn started(
    names: &mut Names<'_>,
    start: &Option<Boxed<Stmt>>,
) -> Result<Option<Boxed<Code>>, CheckFault>
    ensures does { AgreesBy (λ code. (code, scope_of names.new)) result (spec.started (option_map (statement_of (forbidden_of names.old)) start.now) (scope_of names.old)) }
    ensures around { names.new.around ≡ names.old.around }
    ensures kept { OnOk result (take (length names.old.locals) names.new.locals ≡ names.old.locals) }
{
    match start {
        None => Ok(None),
        Some(start) => {
            let code = statement(names, start.get())?;
            Ok(Some(Boxed::new(names.alloc, code)?))
        }
    }
}

#[cycle(statements)]
#[tactic(auto, unfolding(cs_rules::specs::Statements::for_loop), using(crate::proofs::ScopeLemmas::kept_self))]
fn for_loop(
    names: &mut Names<'_>,
    start: &Option<Boxed<Stmt>>,
    test: &Option<Expr>,
    step: &Option<Expr>,
    body: &Stmt,
) -> Result<Code, CheckFault>
    ensures does { AgreesBy (λ code. spec.done (scope_of names.new) code) result
        (spec.for_loop (option_map (statement_of (forbidden_of names.old)) start.now) (option_map (λ x. x.value) (option_map (uses (forbidden_of names.old)) test.now))
        (option_map (λ x. x.value) (option_map (uses (forbidden_of names.old)) step.now)) (statement_of (forbidden_of names.old) body.now) (scope_of names.old)) }
    ensures around { names.new.around ≡ names.old.around }
    ensures kept { OnOk result (take (length names.old.locals) names.new.locals ≡ names.old.locals) }
{
    let depth = names.locals.len();
    let first = started(names, start)?;
    let head = heading(names, first, test, step)?;
    let turn = alone(names, body)?;
    cut(names, depth);
    let Head { start, test, step } = head.into_inner();
    Ok(Code::For(start, test, step, turn))
}

#[cycle(statements)]
#[tactic(auto, unfolding(cs_rules::specs::Statements::for_each), using(crate::proofs::ScopeLemmas::kept_self))]
fn for_each(
    names: &mut Names<'_>,
    name: &Ident,
    body: &Stmt,
    list: &Expr,
) -> Result<Code, CheckFault>
    ensures does { AgreesBy (λ code. spec.done (scope_of names.new) code) result
        (spec.for_each name.now (uses (forbidden_of names.old) list.now).value (statement_of (forbidden_of names.old) body.now) (scope_of names.old)) }
    ensures around { names.new.around ≡ names.old.around }
    ensures kept { OnOk result (take (length names.old.locals) names.new.locals ≡ names.old.locals) }
{
    names.is_new(name)?;
    let Listed { item, code } = list_of(names, list)?;
    let code = Boxed::new(names.alloc, code)?;
    let depth = names.locals.len();
    names.declare(&name.name, item)?;
    let turn = alone(names, body)?;
    cut(names, depth);
    Ok(Code::ForEach(code, turn))
}

/// A section of a `switch` that decides by a type.
#[cycle(statements)]
#[tactic(auto, unfolding(cs_rules::specs::Statements::section), using(cs_forbidden::proofs::FormLaws::section_law))]
fn section(names: &mut Names<'_>, decided: &ExprType, it: &Section) -> Result<Code, CheckFault>
    ensures does { Agrees result (section_of (forbidden_of names.old) it.now decided.now (scope_of names.old)) }
    ensures around { names.new.around ≡ names.old.around }
    ensures same { OnOk result (names.new.locals ≡ names.old.locals) }
{
    let labels = it.labels.as_slice();
    let constants = constants(names.alloc, decided, labels)?;
    let codes = enclosed(names, it.body.as_slice())?;
    Ok(Code::Section(constants, has_default(labels), codes))
}

#[cycle(statements)]
#[tactic(auto, using(cs_forms::proofs::FrontLemmas::front_none, cs_forms::proofs::FrontLemmas::front_more, cs_forms::proofs::FrontLemmas::front_end))]
fn sections(
    names: &mut Names<'_>,
    decided: &ExprType,
    all: &[Section],
) -> Result<Items<Code>, CheckFault>
    ensures does { Agrees result (each (λ one. one decided.now (scope_of names.old)) (map (section_of (forbidden_of names.old)) all.now)) }
    ensures around { names.new.around ≡ names.old.around }
    ensures same { OnOk result (names.new.locals ≡ names.old.locals) }
{
    let mut codes = Items::new(names.alloc);
    for it in all {
        codes.push(section(names, decided, it)?)?;
    }
    Ok(codes)
}

#[cycle(statements)]
#[tactic(auto, unfolding(cs_rules::specs::Statements::switch_of), using(crate::proofs::ScopeLemmas::kept_self))]
fn switch(names: &mut Names<'_>, all: &[Section], a: &Expr) -> Result<Code, CheckFault>
    ensures does { AgreesBy (λ code. spec.done (scope_of names.new) code) result
        (spec.switch_of (uses (forbidden_of names.old) a.now).value (map (section_of (forbidden_of names.old)) all.now) (scope_of names.old)) }
    ensures around { names.new.around ≡ names.old.around }
    ensures kept { OnOk result (take (length names.old.locals) names.new.locals ≡ names.old.locals) }
{
    let x = value(names, a)?;
    let decided = deciding(x.get())?;
    let codes = sections(names, decided, all)?;
    let code = boxed_code(names.alloc, x)?;
    Ok(Code::Switch(code, codes))
}
