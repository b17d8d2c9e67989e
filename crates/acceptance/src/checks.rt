// Which files are a program, and the first rule that others break.
use crate::support::{all_files, run_over, texts};
use std::alloc::Global;
use std::test::Fail;
use text_core::{Oom, Txt};

/// What `check` writes of files `NAME TEXT` with bars between them.
fn checked(alloc: Global, row: &str) -> Result<String, Oom> {
    let mut words = texts(alloc, &["check"])?;
    let mut table = Vec::new(alloc);
    for file in row.split('|') {
        let (name, text) = file.split_once(' ').unwrap_or((file, ""));
        words.push(Txt::from_str(alloc, name)?)?;
        table.push((name, text))?;
    }
    let mut files = all_files(alloc, &table)?;
    let ran = run_over(alloc, &words, &mut files)?;
    Ok(String::from_utf8(ran.bytes).unwrap_or(String::new(alloc)))
}

/// The rows of which something else is written than is wanted.
fn others(alloc: Global, rows: &[(&str, &str)]) -> Result<String, Oom> {
    let mut all = String::new(alloc);
    for (files, wanted) in rows {
        let said = checked(alloc, files)?;
        if said.trim_end() != *wanted {
            all.push_str(files)?;
            all.push_str(" => ")?;
            all.push_str(said.as_str())?;
        }
    }
    Ok(all)
}

/// Each rule, broken once.
const RULES: [(&str, &str); 25] = [
    (
        "A.razor x|b/A.razor y",
        "refused DuplicateComponent b/A.razor 1:1",
    ),
    ("a.razor x", "refused BadComponentName a.razor 1:1"),
    ("A x", "refused BadComponentName A 1:1"),
    (
        "CascadingValue.razor x",
        "refused BadComponentName CascadingValue.razor 1:1",
    ),
    (
        "A.razor @code { int n; bool n; }",
        "refused DuplicateName A.razor 1:21",
    ),
    ("A.razor <B/>", "refused UnknownComponent A.razor 1:2"),
    (
        "A.razor <A X=\"1\"/>",
        "refused UnknownParameter A.razor 1:4",
    ),
    ("A.razor <A>x</A>", "refused UnknownParameter A.razor 1:1"),
    (
        "A.razor <p a=\"1\" @onclick=\"F\" onclick=\"2\"></p>@code { void F() { } }",
        "refused DuplicateAttribute A.razor 1:23",
    ),
    (
        "A.razor <A><T>x</T>y</A>@code { [Parameter] public RenderFragment T { get; set; } }",
        "refused MixedContent A.razor 1:12",
    ),
    ("A.razor <p>@m</p>", "refused UnknownName A.razor 1:5"),
    (
        "A.razor @code { Foo x; }",
        "refused UnknownType A.razor 1:9",
    ),
    ("A.razor @(1 + true)", "refused TypeMismatch A.razor 1:7"),
    ("A.razor @{ int x; }", "refused NotAssigned A.razor 1:8"),
    (
        "A.razor @code { [Parameter] public int P { get; set; } void F() { P = 1; } }",
        "refused ParameterAssigned A.razor 1:59",
    ),
    (
        "A.razor @for (int i = 0; i < 3; i++) { <button @onclick=\"() => Hit(i)\">@i</button> }@code { void Hit(int k) { } }",
        "refused ForCapture A.razor 1:60",
    ),
    (
        "A.razor @{ var x = 1; x = 2; <p @onclick=\"() => F(x)\"/> }@code { void F(int k) { } }",
        "refused ChangedCapture A.razor 1:43",
    ),
    (
        "A.razor <p>@Next()</p>@code { int n = 0; int Next() { n++; return n; } }",
        "refused ImpureTemplate A.razor 1:5",
    ),
    (
        "A.razor @code { [Parameter] public EventCallback E { get; set; } void OnInitialized() { E.InvokeAsync(); } }",
        "refused CallbackInLifecycle A.razor 1:81",
    ),
    (
        "A.razor @while (true) { break; }",
        "refused LoopJump A.razor 1:17",
    ),
    (
        "A.razor <p @key=\"ks\"/>@code { ImmutableList<int> ks; }",
        "refused BadKey A.razor 1:10",
    ),
    ("A.razor <p @bind=\"z\"/>", "refused BadBind A.razor 1:11"),
    (
        "A.razor @code { int Dispose() { return 1; } }",
        "refused BadLifecycle A.razor 1:13",
    ),
    (
        "A.razor @code { int F() { } }",
        "refused MissingReturn A.razor 1:13",
    ),
    (
        "A.razor @code { record N(ImmutableList<N> K); }",
        "refused RecursiveRecord A.razor 1:16",
    ),
];

#[test]
fn tells_each_rule_at_its_place(rt: HostRuntime) -> Result<(), Fail> {
    let alloc = rt.alloc();
    let others = others(alloc, &RULES)?;
    assert_eq!(rt; others.as_str(), "");
    Ok(())
}

/// Programs, and which refusal of several is told.
const PROGRAMS: [(&str, &str); 9] = [
    (
        "Counter.razor <p>@n</p><button @onclick=\"Add\">+</button>@code { int n = 0; void Add() { n++; } }",
        "ok 1",
    ),
    (
        "Top.razor <CascadingValue Value=\"@n\"><Mid /></CascadingValue><button @onclick=\"Up\">u</button>@code { int n = 1; void Up() { n++; } }|Mid.razor <p>m</p><Leaf />|Leaf.razor <i>@N</i>@code { [CascadingParameter] public int N { get; set; } }",
        "ok 3",
    ),
    ("A.razor <p>@m</p><B>", "refused Syntax A.razor 1:13"),
    ("A.razor <p>|B.razor @zzz", "refused Syntax A.razor 1:4"),
    ("A.razor ", "ok 1"),
    ("A.razor <B/>|B.razor x", "ok 2"),
    (
        "A.razor <p>@zzz</p>@code { Foo x; }",
        "refused UnknownName A.razor 1:5",
    ),
    (
        "A.razor @code { Foo x; }|B.razor <p>@m</p>",
        "refused UnknownType A.razor 1:9",
    ),
    (
        "A.razor <p>@m</p>|B.razor <p>",
        "refused Syntax B.razor 1:4",
    ),
];

#[test]
fn tells_programs(rt: HostRuntime) -> Result<(), Fail> {
    let alloc = rt.alloc();
    let others = others(alloc, &PROGRAMS)?;
    assert_eq!(rt; others.as_str(), "");
    Ok(())
}
