// The forms of expressions and statements, and numbers.
use cs_ast::{Expr, ExprKind, Stmt, StmtKind};
use std::alloc::Global;
use std::test::Fail;

pub fn form(a: &Expr) -> &'static str {
    match &a.kind {
        ExprKind::Name(_) => "name",
        ExprKind::Int(_) => "int",
        ExprKind::Bool(_) => "bool",
        ExprKind::Text(_) => "text",
        ExprKind::Binary(_, _, _) => "binary",
        ExprKind::Member(_, _) => "member",
        ExprKind::Call(_, _) => "call",
        ExprKind::Index(_, _) => "index",
        ExprKind::Cast(_, _) => "cast",
        ExprKind::Conditional(_, _, _) => "conditional",
        ExprKind::Lambda(_, _) => "lambda",
        ExprKind::Assign(_, _, _) => "assign",
        ExprKind::Step(_, _) => "step",
        ExprKind::Interpolated(_) => "interpolated",
        _ => "other",
    }
}

pub fn statement_form(a: &Stmt) -> &'static str {
    match &a.kind {
        StmtKind::Local { .. } => "local",
        StmtKind::Empty => "empty",
        StmtKind::Expr(_) => "act",
        StmtKind::Await(_) => "await",
        StmtKind::Return(_) => "return",
        StmtKind::Break => "break",
        StmtKind::Continue => "continue",
        _ => "compound",
    }
}

pub fn some_form(a: &Option<Expr>) -> &'static str {
    match a {
        Some(a) => form(a),
        None => "none",
    }
}

pub fn some_statement_form(a: &Option<Stmt>) -> &'static str {
    match a {
        Some(a) => statement_form(a),
        None => "none",
    }
}

pub fn number(alloc: Global, out: &mut String, n: u32) -> Result<(), Fail> {
    out.push_str(format!(in alloc; "{n}")?.as_str())?;
    Ok(())
}

pub fn count(alloc: Global, out: &mut String, n: usize) -> Result<(), Fail> {
    out.push_str(format!(in alloc; "{n}")?.as_str())?;
    Ok(())
}
