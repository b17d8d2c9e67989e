// What texts are read as statements, and why they are not.
use crate::reading::{Form, are_refused, fault_of, is_syntax_fault, statements_of};
use cs_ast::{Label, LabelKind, Section, Stmt, StmtKind};
use cs_parse::ParseFault;
use std::alloc::Global;
use std::process::Abort;
use std::test::Fail;
use text_core::{Place, Txt};

fn form(a: &Stmt) -> &'static str {
    match &a.kind {
        StmtKind::Local { value: None, .. } => "local",
        StmtKind::Local { value: Some(_), .. } => "local = value",
        StmtKind::Empty => "empty",
        StmtKind::Block(_) => "block",
        StmtKind::If { no: None, .. } => "if",
        StmtKind::If { no: Some(_), .. } => "if else",
        StmtKind::While { .. } => "while",
        StmtKind::For { .. } => "for",
        StmtKind::ForEach { .. } => "foreach",
        StmtKind::Switch { .. } => "switch",
        StmtKind::Break => "break",
        StmtKind::Continue => "continue",
        StmtKind::Return(None) => "return",
        StmtKind::Return(Some(_)) => "return value",
        StmtKind::Expr(_) => "expression",
        StmtKind::Await(_) => "await",
    }
}

type Forms = (&'static str, &'static str, &'static str);

/// The forms of a statement and of the two statements inside it.
fn forms(a: &Stmt) -> Forms {
    match &a.kind {
        StmtKind::If { yes, no: None, .. } => (form(a), form(yes.get()), ""),
        StmtKind::If {
            yes,
            no: Some(no),
            ..
        } => (form(a), form(yes.get()), form(no.get())),
        StmtKind::While { body, .. } => (form(a), form(body.get()), ""),
        StmtKind::For { body, .. } => (form(a), form(body.get()), ""),
        StmtKind::ForEach { body, .. } => (form(a), form(body.get()), ""),
        StmtKind::Block(body) => match (body.get(0), body.get(1)) {
            (Some(first), Some(second)) => (form(a), form(first), form(second)),
            (Some(first), None) => (form(a), form(first), ""),
            _ => (form(a), "", ""),
        },
        _ => (form(a), "", ""),
    }
}

/// The form of the one statement of a text.
fn only_form(read: &[Stmt]) -> &'static str {
    match read {
        [a] => form(a),
        _ => "not one statement",
    }
}

fn have_form(rt: &impl Abort, alloc: Global, rows: &[(&str, &str)]) -> Result<(), Fail> {
    for (text, expected) in rows {
        let read = statements_of(alloc, text)?;
        assert_eq!(rt; only_form(read.as_slice()), *expected, "{text}");
    }
    Ok(())
}

#[test]
fn reads_every_form(rt: HostRuntime) -> Result<(), Fail> {
    have_form(
        &rt,
        rt.alloc(),
        &[
            ("int n;", "local"),
            ("var x = f(1);", "local = value"),
            ("string? s = null;", "local = value"),
            ("Row? r = new Row(1);", "local = value"),
            (
                "ImmutableList<Row> rows = ImmutableList<Row>.Empty;",
                "local = value",
            ),
            ("EventCallback<int> c;", "local"),
            (";", "empty"),
            ("{ }", "block"),
            ("{ f(); { g(); } ; }", "block"),
            ("if (a) f();", "if"),
            ("if (a) { } else { }", "if else"),
            ("while (a) break;", "while"),
            ("for (int i = 0; i < 3; i++) { continue; }", "for"),
            ("for (i = 0; ; f()) ;", "for"),
            ("for (;;) { }", "for"),
            ("foreach (var x in a.b) f(x);", "foreach"),
            ("switch (n) { }", "switch"),
            (
                "switch (n) { case 1: case -2: break; default: return; }",
                "switch",
            ),
            ("return;", "return"),
            ("return a ? b : c;", "return value"),
            ("x = 1;", "expression"),
            ("x += 1;", "expression"),
            ("x--;", "expression"),
            ("a.b(c);", "expression"),
            ("(f());", "expression"),
            ("string.IsNullOrEmpty(s);", "expression"),
            ("ImmutableList<int>.Empty.Add(1);", "expression"),
            ("await OnClick.InvokeAsync(1);", "await"),
        ],
    )
}

fn have_forms(rt: &impl Abort, alloc: Global, rows: &[(&str, Forms)]) -> Result<(), Fail> {
    for (text, expected) in rows {
        let read = statements_of(alloc, text)?;
        assert_eq!(rt; read.get(0).map(forms), Some(*expected), "{text}");
    }
    Ok(())
}

#[test]
fn joins_branches(rt: HostRuntime) -> Result<(), Fail> {
    have_forms(
        &rt,
        rt.alloc(),
        &[
            ("if (a) if (b) f(); else g();", ("if", "if else", "")),
            (
                "if (a) { if (b) f(); } else g();",
                ("if else", "block", "expression"),
            ),
            (
                "if (a) if (b) f(); else ; else g();",
                ("if else", "if else", "expression"),
            ),
            (
                "if (a) while (b) if (c) f(); else g();",
                ("if", "while", ""),
            ),
            (
                "if (a) f(); else if (b) g(); else h();",
                ("if else", "expression", "if else"),
            ),
            (
                "while (a) if (b) break; else continue;",
                ("while", "if else", ""),
            ),
            (
                "for (;;) foreach (var x in xs) break;",
                ("for", "foreach", ""),
            ),
            ("{ int a; a = 1; f(a); }", ("block", "local", "expression")),
        ],
    )
}

fn says(label: &Label) -> &'static str {
    match &label.kind {
        LabelKind::Int(-2) => "-2",
        LabelKind::Int(_) => "number",
        LabelKind::Bool(true) => "true",
        LabelKind::Bool(false) => "false",
        LabelKind::Text(_) => "text",
        LabelKind::Null => "null",
        LabelKind::Default => "default",
    }
}

fn sections(body: &[Stmt]) -> &[Section] {
    match body.first() {
        Some(
            Stmt {
                kind: StmtKind::Switch { sections, .. },
                ..
            },
        ) => sections.as_slice(),
        _ => &[],
    }
}

/// How many labels and how many statements a section has.
fn counts(found: &[Section], at: usize) -> Option<(usize, usize)> {
    found.get(at).map(|s| (s.labels.len(), s.body.len()))
}

fn label(found: &[Section], at: usize, label: usize) -> Option<&'static str> {
    found.get(at).and_then(|s| s.labels.get(label).map(says))
}

fn have_counts(rt: &impl Abort, found: &[Section], rows: &[(usize, usize, usize)]) {
    for (at, labels, statements) in rows {
        assert_eq!(rt; counts(found, *at), Some((*labels, *statements)), "{at}");
    }
}

fn have_labels(rt: &impl Abort, found: &[Section], rows: &[(usize, usize, &'static str)]) {
    for (at, number, expected) in rows {
        assert_eq!(rt;
            label(found, *at, *number),
            Some(*expected),
            "{at} {number}"
        );
    }
}

#[test]
fn reads_sections(rt: HostRuntime) -> Result<(), Fail> {
    let text =
        "switch (n) { case 1: case -2: f(); break; case \"a\": return; case true: case false: default: { } return 1; case null: break; }";
    let read = statements_of(rt.alloc(), text)?;
    let found = sections(read.as_slice());
    assert_eq!(rt; found.len(), 4);
    have_counts(&rt, found, &[(0, 2, 2), (1, 1, 1), (2, 3, 2), (3, 1, 1)]);
    have_labels(
        &rt,
        found,
        &[
            (0, 0, "number"),
            (0, 1, "-2"),
            (1, 0, "text"),
            (2, 0, "true"),
            (2, 1, "false"),
            (2, 2, "default"),
            (3, 0, "null"),
        ],
    );
    Ok(())
}

fn place_of(read: &[Stmt], at: usize) -> Option<Place> {
    read.get(at).map(|a| a.place)
}

#[test]
fn keeps_places(rt: HostRuntime) -> Result<(), Fail> {
    let text = "f();\n  { x = 1; }\n  if (a) ;";
    let read = statements_of(rt.alloc(), text)?;
    for (at, line, column) in &[(0, 1, 1), (1, 2, 3), (2, 3, 3)] {
        let place = Place {
            line: *line,
            column: *column,
        };
        assert_eq!(rt; place_of(read.as_slice(), *at), Some(place), "{at}");
    }
    Ok(())
}

fn are_no_statements(rt: &impl Abort, alloc: Global, texts: &[&str]) -> Result<(), Fail> {
    for text in texts {
        assert!(rt; is_syntax_fault(alloc, Form::Statements, text)?, "{text}");
    }
    Ok(())
}

#[test]
fn refuses_what_is_not_of_the_form(rt: HostRuntime) -> Result<(), Fail> {
    are_no_statements(
        &rt,
        rt.alloc(),
        &[
            "f()",
            "1;",
            "a;",
            "a + b;",
            "-f();",
            "a?.f();",
            "a.b = 1;",
            "x = y = 1;",
            "int n = ;",
            "var;",
            "const int n = 1;",
            "int a, b;",
            "{ f();",
            "f(); }",
            "if a f();",
            "if (a)",
            "if (a) else f();",
            "else f();",
            "if (a) f(); else else g();",
            "while () f();",
            "while (a) int;",
            "do { } while (a);",
            "for (int i = 0, i < 3; i++) ;",
            "for (; ; a) ;",
            "for (; ; i++, f()) ;",
            "foreach (int x in xs) ;",
            "foreach (var x of xs) ;",
            "break;",
            "continue;",
            "if (a) break;",
            "switch (n) { case 1: continue; }",
            "while (a) switch (n) { case 1: continue; }",
            "switch (n) { case 1: f(); }",
            "switch (n) { case 1: }",
            "switch (n) { f(); }",
            "switch (n) { case a: break; }",
            "switch (n) { case 1 + 1: break; }",
            "switch (n) { default: break; default: break; }",
            "switch (n) { default: case 1: default: break; }",
            "await f();",
            "await a.InvokeAsync;",
            "await OnClick.InvokeAsync() + 1;",
            "return",
            "return 1 2;",
            "case 1: break;",
            "x => y;",
        ],
    )
}

#[test]
fn says_where_reading_stopped(rt: HostRuntime) -> Result<(), Fail> {
    are_refused(
        &rt,
        rt.alloc(),
        Form::Statements,
        &[
            ("f(); }", 6),
            ("f(); break;", 6),
            ("if (a) f(); else else g();", 18),
            ("switch (n) { default: break; default: break; }", 30),
            ("int n = 1 2;", 11),
        ],
    )
}

fn repeated(alloc: Global, part: &str, count: usize, end: &str) -> Result<Txt, Fail> {
    let mut text = Txt::new(alloc);
    for _ in 0..count {
        text.push_str(part)?;
    }
    text.push_str(end)?;
    Ok(text)
}

fn form_of_chain(alloc: Global, part: &str) -> Result<Option<&'static str>, Fail> {
    let text = repeated(alloc, part, 1000, ";")?;
    let read = statements_of(alloc, text.as_str())?;
    Ok(read.get(0).map(form))
}

fn are_chains(rt: &impl Abort, alloc: Global, rows: &[(&str, &'static str)]) -> Result<(), Fail> {
    for (part, expected) in rows {
        assert_eq!(rt; form_of_chain(alloc, part)?, Some(*expected), "{part}");
    }
    Ok(())
}

#[test]
fn reads_chains_of_any_length(rt: HostRuntime) -> Result<(), Fail> {
    are_chains(
        &rt,
        rt.alloc(),
        &[
            ("if (a) ", "if"),
            ("while (a) ", "while"),
            ("if (a) ; else ", "if else"),
            ("for (;;) ", "for"),
        ],
    )
}

#[test]
fn refuses_what_nests_too_deeply(rt: HostRuntime) -> Result<(), Fail> {
    let alloc = rt.alloc();
    let text = repeated(alloc, "{", 201, "")?;
    let place = Place {
        line: 1,
        column: 201,
    };
    assert_eq!(rt;
        fault_of(alloc, Form::Statements, text.as_str())?,
        Some(ParseFault::TooDeep { place })
    );
    Ok(())
}
