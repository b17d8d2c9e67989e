// What texts are read as lambdas, and which are not.
use crate::expressions::form;
use crate::reading::{Form, are_refused, expression_of};
use cs_ast::{Body, Expr, ExprKind};
use std::alloc::Global;
use std::process::Abort;
use std::test::Fail;

/// Whether there is a name, and what stands behind the arrow.
fn parts(a: &Expr) -> (bool, &'static str) {
    match &a.kind {
        ExprKind::Lambda(name, Body::Value(value)) => (name.is_some(), form(&value.get().kind)),
        ExprKind::Lambda(name, Body::Block(_)) => (name.is_some(), "block"),
        kind => (false, form(kind)),
    }
}

fn have_parts(
    rt: &impl Abort,
    alloc: Global,
    rows: &[(&str, (bool, &'static str))],
) -> Result<(), Fail> {
    for (text, expected) in rows {
        let read = expression_of(alloc, text)?;
        assert_eq!(rt; parts(&read), *expected, "{text}");
        assert_eq!(rt; read.place.line, 1, "{text}");
    }
    Ok(())
}

#[test]
fn reads_every_lambda(rt: HostRuntime) -> Result<(), Fail> {
    have_parts(
        &rt,
        rt.alloc(),
        &[
            ("() => a", (false, "name")),
            ("x => x + 1", (true, "+")),
            ("(x) => x.a", (true, "member")),
            ("() => n = 1", (false, "assign")),
            ("() => n += 1", (false, "assign")),
            ("() => n++", (false, "step")),
            ("x => n--", (true, "step")),
            ("() => F(n)", (false, "call")),
            ("() => { }", (false, "block")),
            ("x => { n = x; }", (true, "block")),
            ("(x) => { return; }", (true, "block")),
            ("(x)", (false, "name")),
            ("(x) == y", (false, "==")),
        ],
    )
}

#[test]
fn refuses_what_is_no_lambda(rt: HostRuntime) -> Result<(), Fail> {
    are_refused(
        &rt,
        rt.alloc(),
        Form::Expression,
        &[
            ("() =>", 4),
            ("(x, y) => x", 3),
            ("x => y => z", 8),
            ("() => a = b = c", 13),
            ("() => n++ + 1", 11),
            ("1 + (x => x)", 8),
            ("(() => a)", 3),
            ("int => 1", 5),
            ("(int) => 1", 5),
            ("() => { } + 1", 11),
            ("() => { n = 1 }", 15),
        ],
    )
}
