// Whether statements do a deed.
ghost use Rattle.std.specs.Prelude.{◌≡◌, [], ◌∷◌, ◌++◌, ◌||◌, map, option_map, IfOk, OnOk};
ghost use Rattle.std.specs.List.{list_any};
ghost use Rattle.cs_effects.specs.Deeds as spec;

use crate::deed::Deed;
use crate::expressions::does;
use crate::locals::{copied, with_local};
use cs_ast::{Body, Expr, Section, Stmt, StmtKind};
use sqlite_items::{Boxed, Items};
use std::alloc::Global;
use text_core::{Oom, Txt};

/// Puts the name of the local that is declared by a form behind the others.
#[tactic(auto, using(crate::proofs::DeedLaws::none_declared, crate::proofs::DeedLaws::local_declares, crate::proofs::DeedLaws::empty_declares, crate::proofs::DeedLaws::block_declares, crate::proofs::DeedLaws::if_declares, crate::proofs::DeedLaws::while_declares, crate::proofs::DeedLaws::for_declares, crate::proofs::DeedLaws::for_each_declares, crate::proofs::DeedLaws::switch_declares, crate::proofs::DeedLaws::break_declares, crate::proofs::DeedLaws::continue_declares, crate::proofs::DeedLaws::return_declares, crate::proofs::DeedLaws::expr_declares, crate::proofs::DeedLaws::await_declares))]
fn declare(deed: &Deed, locals: &mut Items<Txt>, kind: &StmtKind) -> Result<(), Oom>
    ensures { OnOk result (locals.new ≡ locals.old ++ (spec.of_statement_kind deed.now kind.now).declares) }
{
    match kind {
        StmtKind::Local { name, .. } => locals.push(name.name.clone()?)?,
        StmtKind::Empty => {}
        StmtKind::Block(_) => {}
        StmtKind::If { .. } => {}
        StmtKind::While { .. } => {}
        StmtKind::For { .. } => {}
        StmtKind::ForEach { .. } => {}
        StmtKind::Switch { .. } => {}
        StmtKind::Break => {}
        StmtKind::Continue => {}
        StmtKind::Return(_) => {}
        StmtKind::Expr(_) => {}
        StmtKind::Await(_) => {}
    }
    Ok(())
}

fn optional(deed: &Deed, locals: &[Txt], a: &Option<Expr>) -> bool
    ensures { result ≡ spec.if_there (λ x. x.done locals.now) (option_map (spec.of_expr deed.now) a.now) }
{
    match a {
        None => false,
        Some(a) => does(deed, locals, a),
    }
}

/// Whether a statement does it.
#[cycle(statements)]
#[tactic(auto, using(crate::proofs::DeedLaws::statement_law))]
pub fn statement(alloc: Global, deed: &Deed, locals: &[Txt], one: &Stmt) -> Result<bool, Oom>
    ensures { IfOk result (λ yes. yes ≡ (spec.of_statement deed.now one.now).done locals.now) }
{
    form(alloc, deed, locals, &one.kind)
}

/// The same by its form.
#[cycle(statements)]
#[tactic(auto, using(crate::proofs::DeedLaws::local_statement, crate::proofs::DeedLaws::empty_statement, crate::proofs::DeedLaws::block_statement, crate::proofs::DeedLaws::if_statement, crate::proofs::DeedLaws::while_statement, crate::proofs::DeedLaws::for_statement, crate::proofs::DeedLaws::for_each_statement, crate::proofs::DeedLaws::switch_statement, crate::proofs::DeedLaws::break_statement, crate::proofs::DeedLaws::continue_statement, crate::proofs::DeedLaws::return_statement, crate::proofs::DeedLaws::expr_statement, crate::proofs::DeedLaws::await_statement))]
fn form(alloc: Global, deed: &Deed, locals: &[Txt], kind: &StmtKind) -> Result<bool, Oom>
    ensures { IfOk result (λ yes. yes ≡ (spec.of_statement_kind deed.now kind.now).done locals.now) }
{
    match kind {
        StmtKind::Local { value, .. } => Ok(optional(deed, locals, value)),
        StmtKind::Empty => Ok(false),
        StmtKind::Block(body) => in_order(alloc, deed, locals, body.as_slice()),
        StmtKind::If { condition, yes, no } => {
            if_else(alloc, deed, locals, condition, yes.get(), no)
        }
        StmtKind::While { condition, body } => {
            while_loop(alloc, deed, locals, body.get(), condition)
        }
        StmtKind::For {
            start,
            condition,
            step,
            body,
        } => for_loop(alloc, deed, locals, start, condition, step, body.get()),
        StmtKind::ForEach { name, list, body } => {
            for_each(alloc, deed, locals, &name.name, body.get(), list)
        }
        StmtKind::Switch { value, sections } => {
            switch(alloc, deed, locals, sections.as_slice(), value)
        }
        StmtKind::Break => Ok(false),
        StmtKind::Continue => Ok(false),
        StmtKind::Return(a) => Ok(optional(deed, locals, a)),
        StmtKind::Expr(a) => Ok(does(deed, locals, a)),
        StmtKind::Await(a) => Ok(does(deed, locals, a)),
    }
}

/// Statements one after another, each behind the locals of those before it.
#[cycle(statements)]
#[tactic(auto, using(crate::proofs::DeedLaws::behind_one))]
pub fn in_order(alloc: Global, deed: &Deed, locals: &[Txt], body: &[Stmt]) -> Result<bool, Oom>
    ensures { IfOk result (λ yes. yes ≡ spec.in_order (map (spec.of_statement deed.now) body.now) locals.now) }
{
    let mut inner = copied(alloc, locals)?;
    for one in body {
        if statement(alloc, deed, inner.as_slice(), one)? {
            return Ok(true);
        }
        declare(deed, &mut inner, &one.kind)?;
    }
    Ok(false)
}

#[cycle(statements)]
fn maybe(alloc: Global, deed: &Deed, locals: &[Txt], one: &Option<Boxed<Stmt>>) -> Result<bool, Oom>
    ensures { IfOk result (λ yes. yes ≡ spec.if_there (λ x. x.done locals.now) (option_map (spec.of_statement deed.now) one.now)) }
{
    match one {
        None => Ok(false),
        Some(one) => statement(alloc, deed, locals, one.get()),
    }
}

#[cycle(statements)]
fn if_else(
    alloc: Global,
    deed: &Deed,
    locals: &[Txt],
    condition: &Expr,
    yes: &Stmt,
    no: &Option<Boxed<Stmt>>,
) -> Result<bool, Oom>
    ensures { IfOk result (λ it. it ≡ ((spec.of_expr deed.now condition.now).done locals.now
        || ((spec.of_statement deed.now yes.now).done locals.now || spec.if_there (λ x. x.done locals.now) (option_map (spec.of_statement deed.now) no.now)))) }
{
    if does(deed, locals, condition) {
        return Ok(true);
    }
    if statement(alloc, deed, locals, yes)? {
        return Ok(true);
    }
    maybe(alloc, deed, locals, no)
}

#[cycle(statements)]
fn while_loop(
    alloc: Global,
    deed: &Deed,
    locals: &[Txt],
    body: &Stmt,
    condition: &Expr,
) -> Result<bool, Oom>
    ensures { IfOk result (λ yes. yes ≡ ((spec.of_expr deed.now condition.now).done locals.now || (spec.of_statement deed.now body.now).done locals.now)) }
{
    if does(deed, locals, condition) {
        return Ok(true);
    }
    statement(alloc, deed, locals, body)
}

/// The locals behind the start of a `for`.
#[tactic(auto, using(crate::proofs::DeedLaws::statement_law))]
fn behind(
    alloc: Global,
    deed: &Deed,
    locals: &[Txt],
    start: &Option<Boxed<Stmt>>,
) -> Result<Items<Txt>, Oom>
    ensures { IfOk result (λ inner. inner ≡ spec.behind (option_map (spec.of_statement deed.now) start.now) locals.now) }
{
    let mut inner = copied(alloc, locals)?;
    match start {
        None => Ok(inner),
        Some(start) => {
            declare(deed, &mut inner, &start.get().kind)?;
            Ok(inner)
        }
    }
}

#[cycle(statements)]
fn for_loop(
    alloc: Global,
    deed: &Deed,
    locals: &[Txt],
    start: &Option<Boxed<Stmt>>,
    condition: &Option<Expr>,
    step: &Option<Expr>,
    body: &Stmt,
) -> Result<bool, Oom>
    ensures { IfOk result (λ yes. yes ≡ (spec.if_there (λ x. x.done locals.now) (option_map (spec.of_statement deed.now) start.now)
        || (spec.if_there (λ x. x.done (spec.behind (option_map (spec.of_statement deed.now) start.now) locals.now)) (option_map (spec.of_expr deed.now) condition.now)
        || (spec.if_there (λ x. x.done (spec.behind (option_map (spec.of_statement deed.now) start.now) locals.now)) (option_map (spec.of_expr deed.now) step.now)
        || (spec.of_statement deed.now body.now).done (spec.behind (option_map (spec.of_statement deed.now) start.now) locals.now))))) }
{
    if maybe(alloc, deed, locals, start)? {
        return Ok(true);
    }
    let inner = behind(alloc, deed, locals, start)?;
    if optional(deed, inner.as_slice(), condition) {
        return Ok(true);
    }
    if optional(deed, inner.as_slice(), step) {
        return Ok(true);
    }
    statement(alloc, deed, inner.as_slice(), body)
}

#[cycle(statements)]
fn for_each(
    alloc: Global,
    deed: &Deed,
    locals: &[Txt],
    name: &Txt,
    body: &Stmt,
    list: &Expr,
) -> Result<bool, Oom>
    ensures { IfOk result (λ yes. yes ≡ ((spec.of_expr deed.now list.now).done locals.now || (spec.of_statement deed.now body.now).done (locals.now ++ name.now ∷ []))) }
{
    if does(deed, locals, list) {
        return Ok(true);
    }
    let inner = with_local(alloc, locals, name)?;
    statement(alloc, deed, inner.as_slice(), body)
}

#[cycle(statements)]
#[tactic(auto, using(crate::proofs::DeedLaws::section_law))]
fn section(alloc: Global, deed: &Deed, locals: &[Txt], it: &Section) -> Result<bool, Oom>
    ensures { IfOk result (λ yes. yes ≡ spec.of_section deed.now it.now locals.now) }
{
    in_order(alloc, deed, locals, it.body.as_slice())
}

#[cycle(statements)]
fn switch(
    alloc: Global,
    deed: &Deed,
    locals: &[Txt],
    sections: &[Section],
    value: &Expr,
) -> Result<bool, Oom>
    ensures { IfOk result (λ yes. yes ≡ ((spec.of_expr deed.now value.now).done locals.now || list_any (λ one. one locals.now) (map (spec.of_section deed.now) sections.now))) }
{
    if does(deed, locals, value) {
        return Ok(true);
    }
    for one in sections {
        if section(alloc, deed, locals, one)? {
            return Ok(true);
        }
    }
    Ok(false)
}

/// Whether a body does it.
#[tactic(auto, using(crate::proofs::DeedLaws::value_done, crate::proofs::DeedLaws::body_block_done))]
pub fn body(alloc: Global, deed: &Deed, locals: &[Txt], it: &Body) -> Result<bool, Oom>
    ensures { IfOk result (λ yes. yes ≡ spec.of_body deed.now it.now locals.now) }
{
    match it {
        Body::Value(a) => Ok(does(deed, locals, a.get())),
        Body::Block(statements) => in_order(alloc, deed, locals, statements.as_slice()),
    }
}
