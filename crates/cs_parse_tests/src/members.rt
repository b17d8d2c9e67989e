// What texts are read as members, and which are not.
use crate::reading::{Form, are_refused, is_syntax_fault, members_of};
use crate::words::WORDS;
use cs_ast::{Body, Member, MemberKind};
use std::alloc::Global;
use std::process::Abort;
use std::test::Fail;
use text_core::{Place, Txt};

fn form(kind: &MemberKind) -> &'static str {
    match kind {
        MemberKind::Field { initial: None, .. } => "field",
        MemberKind::Field { .. } => "field with a value",
        MemberKind::Parameter {
            cascading,
            source,
            ..
        } => parameter(*cascading, source.is_some()),
        MemberKind::Method { result, body, .. } => method(result.is_some(), body),
        MemberKind::Getter { .. } => "getter",
        MemberKind::RecordDef { .. } => "record",
    }
}

fn parameter(cascading: bool, named: bool) -> &'static str {
    match (cascading, named) {
        (false, _) => "parameter",
        (true, false) => "cascading",
        (true, true) => "cascading by name",
    }
}

fn method(valued: bool, body: &Body) -> &'static str {
    match (valued, body) {
        (true, Body::Value(_)) => "function =>",
        (true, Body::Block(_)) => "function {}",
        (false, Body::Value(_)) => "method =>",
        (false, Body::Block(_)) => "method {}",
    }
}

/// The form of the one member of a text.
fn only_form(read: &[Member]) -> &'static str {
    match read {
        [a] => form(&a.kind),
        _ => "not one member",
    }
}

fn have_form(rt: &impl Abort, alloc: Global, rows: &[(&str, &str)]) -> Result<(), Fail> {
    for (text, expected) in rows {
        let read = members_of(alloc, text)?;
        assert_eq!(rt; only_form(read.as_slice()), *expected, "{text}");
    }
    Ok(())
}

#[test]
fn reads_every_member(rt: HostRuntime) -> Result<(), Fail> {
    have_form(
        &rt,
        rt.alloc(),
        &[
            ("int n;", "field"),
            ("int n = 1 + 2;", "field with a value"),
            ("private string? s;", "field"),
            (
                "ImmutableList<Item> items = ImmutableList<Item>.Empty;",
                "field with a value",
            ),
            ("EventCallback<int> changed;", "field"),
            ("RenderFragment? content;", "field"),
            ("record r;", "field"),
            ("get set;", "field"),
            ("public int N { get; set; }", "field"),
            ("public int N { get; set; } = 3;", "field with a value"),
            ("record N { get; set; }", "field"),
            ("[Parameter] public int N { get; set; }", "parameter"),
            ("[Parameter] int N { get; set; } = 3;", "parameter"),
            (
                "[CascadingParameter] private Theme T { get; set; }",
                "cascading",
            ),
            (
                "[CascadingParameter(Name = \"a\")] public int N { get; set; }",
                "cascading by name",
            ),
            ("int Twice => n * 2;", "getter"),
            ("record R => r;", "getter"),
            ("void F() { }", "method {}"),
            ("void F() => G();", "method =>"),
            ("Task F() { n = 1; }", "method {}"),
            ("async Task F() { await E.InvokeAsync(); }", "method {}"),
            ("int F(int a, string? b) => a;", "function =>"),
            ("Item F() { return i; }", "function {}"),
            ("record? F() => null;", "function =>"),
            ("record Item(int Id, string Text);", "record"),
            ("record Empty();", "record"),
            ("public record Item(ImmutableList<int> All);", "record"),
        ],
    )
}

fn count_after(alloc: Global, modifier: &str, rest: &str) -> Result<usize, Fail> {
    let mut text = Txt::from_str(alloc, modifier)?;
    text.push_str(rest)?;
    Ok(members_of(alloc, text.as_str())?.len())
}

fn stands_before(
    rt: &impl Abort,
    alloc: Global,
    modifier: &str,
    rests: &[&str],
) -> Result<(), Fail> {
    for rest in rests {
        assert_eq!(rt; count_after(alloc, modifier, rest)?, 1, "{modifier}{rest}");
    }
    Ok(())
}

#[test]
fn takes_every_modifier(rt: HostRuntime) -> Result<(), Fail> {
    let rests = [
        " int n;",
        " void F() { }",
        " override int N => 1;",
        " record R();",
    ];
    for modifier in &["private", "public", "protected", "internal", "override"] {
        stands_before(&rt, rt.alloc(), modifier, &rests)?;
    }
    Ok(())
}

fn place_of(read: &[Member], at: usize) -> Option<Place> {
    read.get(at).map(|a| a.place)
}

#[test]
fn keeps_places_of_members(rt: HostRuntime) -> Result<(), Fail> {
    let text = "int n;\n  private int m;\n[Parameter] public int N { get; set; }";
    let read = members_of(rt.alloc(), text)?;
    assert_eq!(rt; read.len(), 3);
    for (at, line, column) in &[(0, 1, 1), (1, 2, 3), (2, 3, 1)] {
        let place = Place {
            line: *line,
            column: *column,
        };
        assert_eq!(rt; place_of(read.as_slice(), *at), Some(place));
    }
    Ok(())
}

#[test]
fn refuses_what_is_no_member(rt: HostRuntime) -> Result<(), Fail> {
    are_refused(
        &rt,
        rt.alloc(),
        Form::Members,
        &[
            ("int", 1),
            ("int n", 5),
            ("int n = ;", 9),
            ("void n;", 7),
            ("async void F() { }", 7),
            ("int N { get; }", 14),
            ("int N { set; get; }", 9),
            ("int N { get; set; } = 3", 23),
            ("int F(int) { }", 10),
            ("int F(int a,) { }", 13),
            ("int F() ;", 9),
            ("record N(int A)", 15),
            ("record N(int A) { }", 17),
            ("[Parameter] int n;", 18),
            ("[Parameter] int N => 1;", 19),
            ("[Parameter] void F() { }", 18),
            ("[Other] int N { get; set; }", 2),
            ("[CascadingParameter()] int N { get; set; }", 21),
            ("private [Parameter] int N { get; set; }", 9),
            ("int n; ;", 8),
        ],
    )
}

fn is_refused(alloc: Global, before: &str, word: &str, behind: &str) -> Result<bool, Fail> {
    let mut text = Txt::from_str(alloc, before)?;
    text.push_str(word)?;
    text.push_str(behind)?;
    is_syntax_fault(alloc, Form::Members, text.as_str())
}

/// No member is read where the word stands between these.
fn is_no_name(
    rt: &impl Abort,
    alloc: Global,
    word: &str,
    round: &[(&str, &str)],
) -> Result<(), Fail> {
    for (before, behind) in round {
        assert!(rt;
            is_refused(alloc, before, word, behind)?,
            "{before}{word}{behind}"
        );
    }
    Ok(())
}

const ROUND_NAMES: &[(&str, &str)] = &[
    ("int ", ";"),
    ("int ", " { get; set; }"),
    ("int ", " => 1;"),
    ("void ", "() { }"),
    ("void F(int ", ") { }"),
    ("record ", "(int A);"),
    ("record R(int ", ");"),
    ("[Parameter] public int ", " { get; set; }"),
];

#[test]
fn takes_no_word_as_the_name_of_a_member(rt: HostRuntime) -> Result<(), Fail> {
    for word in WORDS {
        is_no_name(&rt, rt.alloc(), word, ROUND_NAMES)?;
    }
    Ok(())
}
