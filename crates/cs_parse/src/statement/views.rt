// What a tree is at its root.
ghost use Rattle.std.specs.Prelude.{◌≡◌};
ghost use Rattle.cs_parse.specs.TreeViews as spec;

use cs_ast::{Expr, ExprKind, Stmt, StmtKind};

pub fn is_call(a: &Expr) -> bool
    ensures { result ≡ spec.is_call a.now }
{
    match &a.kind {
        ExprKind::Call(_, _) => true,
        _ => false,
    }
}

/// Whether it is the member `InvokeAsync`.
fn is_invoke_member(a: &Expr) -> bool
    ensures { result ≡ spec.is_invoke_member a.now }
{
    match &a.kind {
        ExprKind::Member(_, name) => name.name.is("InvokeAsync"),
        _ => false,
    }
}

/// Whether it is a call of that member.
pub fn is_invoke(a: &Expr) -> bool
    ensures { result ≡ spec.is_invoke a.now }
{
    match &a.kind {
        ExprKind::Call(f, _) => is_invoke_member(f.get()),
        _ => false,
    }
}

fn leaves_by(a: &Stmt) -> bool
    ensures { result ≡ spec.leaves_by a.now }
{
    match &a.kind {
        StmtKind::Break | StmtKind::Return(_) => true,
        _ => false,
    }
}

/// Whether the last of the statements is a `break` or a `return`.
#[tactic(auto, using(crate::proofs::TreeLemmas::leaves_last, crate::proofs::TreeLemmas::leaves_none))]
pub fn leaves(found: &[Stmt]) -> bool
    ensures { result ≡ spec.leaves found.now }
{
    match found.last() {
        Some(a) => leaves_by(a),
        None => false,
    }
}
