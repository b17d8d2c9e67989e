// What is forbidden besides: which rule is told at which column.
use crate::trees::{assignment, binary, call, int, local, name, scope};
use cs_ast::{BinaryOp, Expr};
use cs_check::{CheckFault, Rule, check_expr_with, check_statement_with};
use cs_forbidden::{Forbidden, Mark};
use sqlite_items::Items;
use std::alloc::Global;
use std::test::Fail;
use text_core::Oom;

/// The start of a `for` declared s, n is assigned, fields must not change, and the body of F must not be called.
fn forbidden(alloc: Global) -> Result<Forbidden, Oom> {
    let mut forbidden = Forbidden::nothing(alloc);
    forbidden.outside.push(Mark::OfFor)?;
    forbidden.outside.push(Mark::Changed)?;
    forbidden.bodies.push(9)?;
    forbidden.changes = Some(Rule::ImpureTemplate);
    forbidden.invokes = Some(Rule::CallbackInLifecycle);
    Ok(forbidden)
}

/// An expression, the rule that it breaks, and the column.
#[derive(Drop)]
struct Case {
    e: Expr,
    rule: Rule,
    column: u32,
}

fn add(cases: &mut Vec<Case>, e: Expr, rule: Rule, column: u32) -> Result<(), Oom> {
    cases.push(Case { e, rule, column })?;
    Ok(())
}

fn cases(alloc: Global) -> Result<Vec<Case>, Oom> {
    // s; n; n = 1; g = 1; F(1); F(n); 1 == n
    let mut cases = Vec::new(alloc);
    add(&mut cases, name(alloc, 3, "s")?, Rule::ForCapture, 3)?;
    add(&mut cases, name(alloc, 3, "n")?, Rule::ChangedCapture, 3)?;
    let local = assignment(alloc, "n", int(5))?;
    add(&mut cases, local, Rule::ChangedCapture, 1)?;
    let field = assignment(alloc, "g", int(5))?;
    add(&mut cases, field, Rule::ImpureTemplate, 1)?;
    let called = call(alloc, Some(int(3)))?;
    add(&mut cases, called, Rule::CallbackInLifecycle, 1)?;
    let inner = call(alloc, Some(name(alloc, 3, "n")?))?;
    add(&mut cases, inner, Rule::ChangedCapture, 3)?;
    let second = binary(alloc, BinaryOp::Equal, int(1), name(alloc, 6, "n")?)?;
    add(&mut cases, second, Rule::ChangedCapture, 6)?;
    Ok(cases)
}

/// The column where an expression breaks a rule, or 0.
fn breaks(alloc: Global, e: &Expr, rule: Rule) -> Result<u32, Oom> {
    let scope = scope(alloc)?;
    let forbidden = forbidden(alloc)?;
    match check_expr_with(alloc, e, &scope, &forbidden) {
        Err(CheckFault::Broken { rule: found, place }) if found == rule => Ok(place.column),
        _ => Ok(0),
    }
}

#[test]
fn what_is_forbidden_is_told_at_its_place(rt: HostRuntime) -> Result<(), Fail> {
    let alloc = rt.alloc();
    for case in &cases(alloc)? {
        assert_eq!(rt; breaks(alloc, &case.e, case.rule)?, case.column);
    }
    Ok(())
}

#[test]
fn a_statement_declares_its_locals(rt: HostRuntime) -> Result<(), Fail> {
    let alloc = rt.alloc();
    // var x = P;
    let value = name(alloc, 9, "P")?;
    let one = local(alloc, None, "x", Some(value))?;
    let stated = check_statement_with(alloc, &one, &scope(alloc)?, &forbidden(alloc)?)?;
    assert_eq!(rt; stated.locals.len(), 1);
    Ok(())
}
