// Printed pages.
use crate::support::{all_files, ended, page, run_over, texts};
use std::alloc::Global;
use std::process::Abort;
use std::test::Fail;

fn are_pages(rt: &impl Abort, alloc: Global, rows: &[(&str, &str)]) -> Result<(), Fail> {
    for (text, expected) in rows {
        let ran = page(alloc, text)?;
        ended(rt, &ran, 0, expected, text);
    }
    Ok(())
}

const FORMS: &[(&str, &str)] = &[
    ("", "\n"),
    ("Hello", "Hello\n"),
    ("<p>@n</p>@code { int n = 0; }", "<p>0</p>\n"),
    ("a@b.c @@ @(1+2)x", "a@b.c @ 3x\n"),
    ("1 > 0 \"'", "1 &gt; 0 \"'\n"),
    ("&amp;<br>", "&amp;<br>\n"),
    (
        "<p>@(n + 1)</p>@code { int n = int.MaxValue; }",
        "<p>-2147483648</p>\n",
    ),
    (
        "<p>@n</p><button @onclick=\"Add\">+</button>@code { int n = 0; void Add() { n++; } }",
        "<p>0</p><button>+</button>\n",
    ),
    (
        "<ul>@foreach (var k in ks) { <li @key=\"k\">@k</li> }</ul>@code { ImmutableList<int> ks = ImmutableList<int>.Empty.Add(1).Add(2).Add(3); }",
        "<ul><li>1</li><li>2</li><li>3</li></ul>\n",
    ),
    (
        "@for (int i = 0; i < 2; i++) { <b>@i</b> }@while (false) { <i/> }",
        "<b>0</b><b>1</b>\n",
    ),
    (
        "@if (n > 1) { <b>many</b> } else { <b>few</b> }@code { int n = 2; }",
        "<b>many</b>\n",
    ),
    (
        "@switch (n) { case 1: <i>one</i> break; default: <i>other</i> break; }@code { int n = 1; }",
        "<i>one</i>\n",
    ),
    (
        "@((MarkupString)\"<b>&amp;</b>\")<b title=\"@t\">@t</b>@code { string t = \"<\\\"&\"; }",
        "<b>&amp;</b><b title=\"&lt;&quot;&amp;\">&lt;\"&amp;</b>\n",
    ),
];

#[test]
fn renders_forms(rt: HostRuntime) -> Result<(), Fail> {
    are_pages(&rt, rt.alloc(), FORMS)
}

const ATTRIBUTES: &[(&str, &str)] = &[
    (
        "<input disabled=\"@b\" title=\"@t\">@code { bool b = true; string t = null; }",
        "<input disabled=\"\">\n",
    ),
    (
        "<input disabled=\"@b\" title=\"@t\">@code { bool b = false; string t = \"\"; }",
        "<input title=\"\">\n",
    ),
    (
        "<p class=\"a @b c\" id=\"@n\" hidden>x</p>@code { string b = null; int n = 3; }",
        "<p class=\"a  c\" hidden=\"\" id=\"3\">x</p>\n",
    ),
    (
        "<input @bind=\"n\">@code { int n = 7; }",
        "<input value=\"7\">\n",
    ),
];

#[test]
fn renders_attributes(rt: HostRuntime) -> Result<(), Fail> {
    are_pages(&rt, rt.alloc(), ATTRIBUTES)
}

/// The counter as the usual project template has it, but for its line with the title of the page.
const COUNTER: &str = "@page \"/counter\"
@rendermode InteractiveServer

<h1>Counter</h1>

<p role=\"status\">Current count: @currentCount</p>

<button class=\"btn btn-primary\" @onclick=\"IncrementCount\">Click me</button>

@code {
    private int currentCount = 0;

    private void IncrementCount()
    {
        currentCount++;
    }
}
";

#[test]
fn renders_the_counter_of_the_project_template(rt: HostRuntime) -> Result<(), Fail> {
    are_pages(
        &rt,
        rt.alloc(),
        &[(
            COUNTER,
            "<h1>Counter</h1>\n\n<p role=\"status\">Current count: 0</p>\n\n<button class=\"btn btn-primary\">Click me</button>\n",
        )],
    )
}

const FAULTS: &[(&str, &str)] = &[
    ("@(1 / n)\n@code { int n = 0; }", "ended DivideByZero\n"),
    ("@code { int n = 1 / 0; }", "ended DivideByZero\n"),
    (
        "@(m / n)\n@code { int m = int.MinValue; int n = -1; }",
        "ended Overflow\n",
    ),
    ("@t.Length\n@code { string t = null; }", "ended NullUse\n"),
    (
        "@ks[1]\n@code { ImmutableList<int> ks = ImmutableList<int>.Empty.Add(1); }",
        "ended IndexOutOfRange\n",
    ),
    ("@while (true) { }", "ended FuelSpent\n"),
    (
        "@F(1)\n@code { int F(int n) { return F(n); } }",
        "ended CallDepth\n",
    ),
    (
        "@foreach (var k in ks) { <b @key=\"k\"/> }@code { ImmutableList<int> ks = ImmutableList<int>.Empty.Add(1).Add(1); }",
        "ended DuplicateKey\n",
    ),
];

#[test]
fn names_faults(rt: HostRuntime) -> Result<(), Fail> {
    are_pages(&rt, rt.alloc(), FAULTS)
}

fn are_refused(rt: &impl Abort, alloc: Global, rows: &[(&str, &str)]) -> Result<(), Fail> {
    for (text, line) in rows {
        let ran = page(alloc, text)?;
        ended(rt, &ran, 1, line, text);
    }
    Ok(())
}

const REFUSED: &[(&str, &str)] = &[
    ("<p>@m</p>", "refused UnknownName A.razor 1:5\n"),
    (
        "<p>@Next()</p>@code { int n = 0; int Next() { n++; return n; } }",
        "refused ImpureTemplate A.razor 1:5\n",
    ),
    (
        "<CascadingValue Value=\"1\">x</CascadingValue>",
        "refused NotYet A.razor 1:1\n",
    ),
    ("@if (true) { <A/> }", "refused NotYet A.razor 1:1\n"),
    (
        "@code { [Parameter] public int P { get; set; } }",
        "refused NotYet A.razor 1:1\n",
    ),
    (
        "@code { void OnInitialized() { } }",
        "refused NotYet A.razor 1:1\n",
    ),
    (
        "@code { void OnParametersSet() { } }",
        "refused NotYet A.razor 1:1\n",
    ),
    (
        "@implements IDisposable\n@code { public void Dispose() { } }",
        "refused NotYet A.razor 1:1\n",
    ),
];

#[test]
fn refuses_what_is_not_taken_yet(rt: HostRuntime) -> Result<(), Fail> {
    are_refused(&rt, rt.alloc(), REFUSED)
}

#[test]
fn refuses_the_second_of_several_files(rt: HostRuntime) -> Result<(), Fail> {
    let alloc = rt.alloc();
    let mut files = all_files(
        alloc,
        &[("A.razor", "x"), ("B.razor", "y"), ("C.razor", "@z")],
    )?;
    let two = texts(alloc, &["render", "A.razor", "B.razor"])?;
    ended(
        &rt,
        &run_over(alloc, &two, &mut files)?,
        1,
        "refused NotYet B.razor 1:1\n",
        "two files",
    );
    let three = texts(alloc, &["render", "A.razor", "B.razor", "C.razor"])?;
    ended(
        &rt,
        &run_over(alloc, &three, &mut files)?,
        1,
        "refused UnknownName C.razor 1:2\n",
        "three files",
    );
    Ok(())
}
