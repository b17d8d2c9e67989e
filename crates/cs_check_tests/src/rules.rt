// Rules at small bodies: which is told at which column, and what comes of code that breaks none.
use crate::trees::{
    assignment, at, binary, call, int, local, name, perform, record_type, scope, truth,
};
use cs_ast::{BinaryOp, Code, CsType, Stmt, StmtKind};
use cs_check::{CheckFault, ExprType, Rule, check_body, check_expr};
use sqlite_items::Items;
use std::alloc::Global;
use std::test::Fail;
use text_core::Oom;

/// A body, the rule that it breaks, and the column.
#[derive(Drop)]
struct Case {
    body: Items<Stmt>,
    rule: Rule,
    column: u32,
}

fn broken(alloc: Global, statement: Stmt, rule: Rule, column: u32) -> Result<Case, Oom> {
    let mut body = Items::new(alloc);
    body.push(statement)?;
    Ok(Case { body, rule, column })
}

fn of_names(alloc: Global, cases: &mut Vec<Case>) -> Result<(), Oom> {
    // var s = 1; z; Z x = 1; var x;
    let again = local(alloc, None, "s", Some(int(9)))?;
    cases.push(broken(alloc, again, Rule::DuplicateName, 5)?)?;
    let nothing = perform(name(alloc, 3, "z")?);
    cases.push(broken(alloc, nothing, Rule::UnknownName, 3)?)?;
    let written = record_type(alloc, "Z")?;
    let untyped = local(alloc, Some(written), "x", Some(int(9)))?;
    cases.push(broken(alloc, untyped, Rule::UnknownType, 1)?)?;
    let unset = local(alloc, None, "x", None)?;
    cases.push(broken(alloc, unset, Rule::NotAssigned, 5)?)?;
    Ok(())
}

fn of_types(alloc: Global, cases: &mut Vec<Case>) -> Result<(), Oom> {
    // 1 + true; true - 1; 1 == true; F(); F(true); return 1; where nothing is wanted
    let second = binary(alloc, BinaryOp::Add, int(1), truth(5))?;
    cases.push(broken(alloc, perform(second), Rule::TypeMismatch, 5)?)?;
    let first = binary(alloc, BinaryOp::Subtract, truth(1), int(8))?;
    cases.push(broken(alloc, perform(first), Rule::TypeMismatch, 1)?)?;
    let pair = binary(alloc, BinaryOp::Equal, int(1), truth(6))?;
    cases.push(broken(alloc, perform(pair), Rule::TypeMismatch, 6)?)?;
    let none = call(alloc, None)?;
    cases.push(broken(alloc, perform(none), Rule::TypeMismatch, 1)?)?;
    let wrong = call(alloc, Some(truth(3)))?;
    cases.push(broken(alloc, perform(wrong), Rule::TypeMismatch, 3)?)?;
    let returned = Stmt {
        place: at(1),
        kind: StmtKind::Return(Some(int(8))),
    };
    cases.push(broken(alloc, returned, Rule::TypeMismatch, 8)?)?;
    Ok(())
}

fn of_changes(alloc: Global, cases: &mut Vec<Case>) -> Result<(), Oom> {
    // P = 1; P = 1 + true; n = true;
    let parameter = assignment(alloc, "P", int(5))?;
    cases.push(broken(alloc, perform(parameter), Rule::ParameterAssigned, 1)?)?;
    let value = binary(alloc, BinaryOp::Add, int(5), truth(9))?;
    let part = assignment(alloc, "P", value)?;
    cases.push(broken(alloc, perform(part), Rule::TypeMismatch, 9)?)?;
    let changed = assignment(alloc, "n", truth(5))?;
    cases.push(broken(alloc, perform(changed), Rule::TypeMismatch, 5)?)?;
    Ok(())
}

/// Two rules are broken: the first is told.
fn of_two(alloc: Global, cases: &mut Vec<Case>) -> Result<(), Oom> {
    // P = 1; z;
    let mut body = Items::new(alloc);
    body.push(perform(assignment(alloc, "P", int(5))?))?;
    body.push(perform(name(alloc, 9, "z")?))?;
    cases.push(Case {
        body,
        rule: Rule::ParameterAssigned,
        column: 1,
    })?;
    Ok(())
}

/// The column where a body breaks a rule first, or 0.
fn breaks(alloc: Global, body: &[Stmt], rule: Rule) -> Result<u32, Oom> {
    let scope = scope(alloc)?;
    match check_body(alloc, body, &scope) {
        Err(CheckFault::Broken { rule: found, place }) if found == rule => Ok(place.column),
        _ => Ok(0),
    }
}

#[test]
fn each_rule_is_told_at_its_place(rt: HostRuntime) -> Result<(), Fail> {
    let alloc = rt.alloc();
    let mut cases = Vec::new(alloc);
    of_names(alloc, &mut cases)?;
    of_types(alloc, &mut cases)?;
    of_changes(alloc, &mut cases)?;
    of_two(alloc, &mut cases)?;
    for case in &cases {
        assert_eq!(rt;
            breaks(alloc, case.body.as_slice(), case.rule)?,
            case.column
        );
    }
    Ok(())
}

#[test]
fn names_become_numbers(rt: HostRuntime) -> Result<(), Fail> {
    let alloc = rt.alloc();
    let scope = scope(alloc)?;
    let x = check_expr(alloc, &name(alloc, 1, "n")?, &scope)?;
    assert!(rt; matches!(x.code, Code::Local(1)));
    let x = check_expr(alloc, &name(alloc, 1, "P")?, &scope)?;
    assert!(rt; matches!(x.code, Code::Parameter(3)));
    let x = check_expr(alloc, &call(alloc, Some(int(3)))?, &scope)?;
    assert!(rt; matches!(x.code, Code::Call(9, _)));
    assert!(rt; matches!(x.expr_type, ExprType::Of(CsType::Int)));
    Ok(())
}
