// What texts are read as, and why they are not.
use crate::reading::{Form, are_refused, expression_of, fault_of, is_syntax_fault};
use crate::words::WORDS;
use cs_ast::{BinaryOp, Expr, ExprKind};
use cs_parse::ParseFault;
use std::alloc::Global;
use std::process::Abort;
use std::test::Fail;
use text_core::{Place, Txt};

pub fn form(kind: &ExprKind) -> &'static str {
    match kind {
        ExprKind::Int(_) => "int",
        ExprKind::Bool(_) => "bool",
        ExprKind::Text(_) => "text",
        ExprKind::Null => "null",
        ExprKind::Interpolated(_) => "interpolated",
        ExprKind::Name(_) => "name",
        ExprKind::Unary(_, _) => "unary",
        ExprKind::Cast(_, _) => "cast",
        ExprKind::Binary(op, _, _) => operator(*op),
        ExprKind::Conditional(_, _, _) => "?:",
        ExprKind::With(_, _) => "with",
        ExprKind::Member(_, _) => "member",
        ExprKind::NullMember(_, _) => "null member",
        ExprKind::Call(_, _) => "call",
        ExprKind::Index(_, _) => "index",
        ExprKind::New(_, _) => "new",
        ExprKind::EmptyList(_) => "empty list",
        ExprKind::Static(_, _) => "static",
        ExprKind::Assign(_, _, _) => "assign",
        ExprKind::Step(_, _) => "step",
        ExprKind::Lambda(_, _) => "lambda",
    }
}

fn operator(op: BinaryOp) -> &'static str {
    match op {
        BinaryOp::Coalesce => "??",
        BinaryOp::Or => "||",
        BinaryOp::And => "&&",
        BinaryOp::Equal => "==",
        BinaryOp::NotEqual => "!=",
        BinaryOp::Less => "<",
        BinaryOp::Greater => ">",
        BinaryOp::LessOrEqual => "<=",
        BinaryOp::GreaterOrEqual => ">=",
        BinaryOp::Add => "+",
        BinaryOp::Subtract => "-",
        BinaryOp::Multiply => "*",
        BinaryOp::Divide => "/",
        BinaryOp::Remainder => "%",
    }
}

type Forms = (&'static str, &'static str, &'static str, &'static str);

/// The forms of an expression and of its two or three operands.
fn forms(a: &Expr) -> Forms {
    match &a.kind {
        ExprKind::Binary(op, a, b) => (operator(*op), form(&a.get().kind), form(&b.get().kind), ""),
        ExprKind::Conditional(a, b, c) => (
            "?:",
            form(&a.get().kind),
            form(&b.get().kind),
            form(&c.get().kind),
        ),
        ExprKind::Unary(_, a) => ("unary", form(&a.get().kind), "", ""),
        ExprKind::Cast(_, a) => ("cast", form(&a.get().kind), "", ""),
        ExprKind::With(a, _) => ("with", form(&a.get().kind), "", ""),
        ExprKind::Member(a, _) => ("member", form(&a.get().kind), "", ""),
        ExprKind::Call(a, _) => ("call", form(&a.get().kind), "", ""),
        kind => (form(kind), "", "", ""),
    }
}

fn have_form(rt: &impl Abort, alloc: Global, rows: &[(&str, &str)]) -> Result<(), Fail> {
    for (text, expected) in rows {
        let read = expression_of(alloc, text)?;
        assert_eq!(rt; form(&read.kind), *expected, "{text}");
    }
    Ok(())
}

#[test]
fn reads_every_form(rt: HostRuntime) -> Result<(), Fail> {
    have_form(
        &rt,
        rt.alloc(),
        &[
            ("7", "int"),
            ("true", "bool"),
            ("\"a\"", "text"),
            ("null", "null"),
            ("$\"a{n + 1}b{$\"{x}\"}\"", "interpolated"),
            ("n", "name"),
            ("-n", "unary"),
            ("!b", "unary"),
            ("(string)a.b", "cast"),
            ("(MarkupString)a.b", "cast"),
            ("a ?? b", "??"),
            ("a || b", "||"),
            ("a && b", "&&"),
            ("a == b", "=="),
            ("a != b", "!="),
            ("a < b", "<"),
            ("a > b", ">"),
            ("a <= b", "<="),
            ("a >= b", ">="),
            ("a + b", "+"),
            ("a - b", "-"),
            ("a * b", "*"),
            ("a / b", "/"),
            ("a % b", "%"),
            ("a ? b : c", "?:"),
            ("a with { B = 1, C = 2 }", "with"),
            ("a.b", "member"),
            ("a?.b", "null member"),
            ("a.b(c, d)", "call"),
            ("f()", "call"),
            ("a[0]", "index"),
            ("new N(1, \"a\")", "new"),
            ("ImmutableList<ImmutableList<string?>>.Empty", "empty list"),
            ("int.MaxValue", "static"),
            ("string.IsNullOrEmpty(s)", "call"),
        ],
    )
}

fn have_forms(rt: &impl Abort, alloc: Global, rows: &[(&str, Forms)]) -> Result<(), Fail> {
    for (text, expected) in rows {
        let read = expression_of(alloc, text)?;
        assert_eq!(rt; forms(&read), *expected, "{text}");
    }
    Ok(())
}

#[test]
fn joins_operands(rt: HostRuntime) -> Result<(), Fail> {
    have_forms(
        &rt,
        rt.alloc(),
        &[
            ("1 - 2 - 3", ("-", "-", "int", "")),
            ("1 - (2 - 3)", ("-", "int", "-", "")),
            ("a ?? b ?? c", ("??", "name", "??", "")),
            ("a ? b : c ? d : e", ("?:", "name", "name", "?:")),
            ("1 + 2 * 3", ("+", "int", "*", "")),
            ("1 * 2 + 3", ("+", "*", "int", "")),
            ("a || b && c", ("||", "name", "&&", "")),
            ("a == b < c", ("==", "name", "<", "")),
            ("a ?? b || c", ("??", "name", "||", "")),
            ("a + b == c ? d : e", ("?:", "==", "name", "name")),
            ("-a with { B = 1 }", ("with", "unary", "", "")),
            ("a * b with { C = 1 }", ("*", "name", "with", "")),
            ("-a.b", ("unary", "member", "", "")),
            ("(string)-a", ("cast", "unary", "", "")),
            ("(a?.b).c", ("member", "null member", "", "")),
            ("a[0].b(1)", ("call", "member", "", "")),
        ],
    )
}

/// A text between other texts that stand so often before it and behind it.
fn repeated(
    alloc: Global,
    before: &str,
    text: &str,
    behind: &str,
    count: usize,
) -> Result<Txt, Fail> {
    let mut whole = Txt::new(alloc);
    for _ in 0..count {
        whole.push_str(before)?;
    }
    whole.push_str(text)?;
    for _ in 0..count {
        whole.push_str(behind)?;
    }
    Ok(whole)
}

fn form_of_chain(
    alloc: Global,
    before: &str,
    text: &str,
    behind: &str,
) -> Result<&'static str, Fail> {
    let text = repeated(alloc, before, text, behind, 1_000)?;
    let read = expression_of(alloc, text.as_str())?;
    Ok(form(&read.kind))
}

fn are_chains(
    rt: &impl Abort,
    alloc: Global,
    rows: &[(&str, &str, &str, &str)],
) -> Result<(), Fail> {
    for (before, text, behind, expected) in rows {
        assert_eq!(rt; form_of_chain(alloc, before, text, behind)?, *expected);
    }
    Ok(())
}

#[test]
fn reads_long_chains(rt: HostRuntime) -> Result<(), Fail> {
    are_chains(
        &rt,
        rt.alloc(),
        &[
            ("- ", "a", "", "unary"),
            ("(string)", "a", "", "cast"),
            ("a ?? ", "b", "", "??"),
            ("a ? b : ", "c", "", "?:"),
            ("", "a", " - b", "-"),
            ("", "a", ".b", "member"),
            ("", "a", "(0)[1]", "index"),
            ("", "a", " with { B = 1 }", "with"),
        ],
    )
}

fn operand(a: Expr) -> Expr {
    let Expr { place, kind } = a;
    match kind {
        ExprKind::Unary(_, operand) => operand.into_inner(),
        kind => Expr { place, kind },
    }
}

// The tree is taken apart from its root, since letting go of one so deep takes a deep stack.
#[test]
fn reads_without_recursion(rt: HostRuntime) -> Result<(), Fail> {
    let alloc = rt.alloc();
    let text = repeated(alloc, "- ", "a", "", 20_000)?;
    let mut read = expression_of(alloc, text.as_str())?;
    for _ in 0..20_000 {
        read = operand(read);
    }
    assert_eq!(rt; form(&read.kind), "name");
    Ok(())
}

fn stand_at(rt: &impl Abort, alloc: Global, rows: &[(&str, u32, u32)]) -> Result<(), Fail> {
    for (text, line, column) in rows {
        let place = Place {
            line: *line,
            column: *column,
        };
        let read = expression_of(alloc, text)?;
        assert_eq!(rt; read.place, place, "{text}");
    }
    Ok(())
}

#[test]
fn keeps_places(rt: HostRuntime) -> Result<(), Fail> {
    stand_at(
        &rt,
        rt.alloc(),
        &[
            ("(1 + 2) + 3", 1, 1),
            ("((1 + 2))", 1, 3),
            ("\n  a.b", 2, 3),
        ],
    )
}

#[test]
fn refuses_what_is_not_of_the_form(rt: HostRuntime) -> Result<(), Fail> {
    are_refused(
        &rt,
        rt.alloc(),
        Form::Expression,
        &[
            ("", 1),
            ("1 +", 3),
            ("a?.b.c", 5),
            ("a?.f()", 5),
            ("a with { }", 10),
            ("a with { B = 1 }.c", 17),
            ("a = b", 3),
            ("a++", 2),
            ("new N", 5),
            ("f(a,)", 5),
            ("ImmutableList<int>.Nope", 20),
            ("bool.Parse", 1),
            ("(a", 2),
            ("a b", 3),
            ("1.x y", 5),
            ("1 + (MarkupString)s", 6),
            ("((MarkupString)s)", 3),
            ("(MarkupString)s + 1", 17),
        ],
    )
}

fn is_no_name(alloc: Global, word: &str) -> Result<bool, Fail> {
    let mut text = Txt::from_str(alloc, "a.")?;
    text.push_str(word)?;
    is_syntax_fault(alloc, Form::Expression, text.as_str())
}

#[test]
fn takes_no_word_as_a_name(rt: HostRuntime) -> Result<(), Fail> {
    let alloc = rt.alloc();
    for word in WORDS {
        assert!(rt; is_no_name(alloc, word)?, "{word}");
    }
    Ok(())
}

fn fault_of_brackets(
    alloc: Global,
    count: usize,
    behind: &str,
) -> Result<Option<ParseFault>, Fail> {
    let text = repeated(alloc, "(", "1", behind, count)?;
    fault_of(alloc, Form::Expression, text.as_str())
}

#[test]
fn refuses_what_nests_too_deeply(rt: HostRuntime) -> Result<(), Fail> {
    let alloc = rt.alloc();
    let place = Place {
        line: 1,
        column: 201,
    };
    let too_deep = Some(ParseFault::TooDeep { place });
    assert_eq!(rt; fault_of_brackets(alloc, 200, ")")?, None);
    assert_eq!(rt; fault_of_brackets(alloc, 201, ")")?, too_deep);
    // Nesting is tested before what is spelled: this text lacks its closing brackets.
    assert_eq!(rt; fault_of_brackets(alloc, 202, "")?, too_deep);
    Ok(())
}
