// Programs, and the first rule that each breaks.
use razor_ast::Component;
use razor_check::{ProgramFault, check};
use razor_reader::read;
use sqlite_items::Items;
use std::alloc::Global;
use std::test::Fail;
use text_core::{Oom, Txt};

fn read_all(alloc: Global, files: &str) -> Result<Option<Vec<Component>>, Oom> {
    let mut components = Vec::new(alloc);
    for file in files.split('|') {
        let Some((name, text)) = file.split_once(' ') else {
            return Ok(None);
        };
        let name = Txt::from_str(alloc, name)?;
        let text = Txt::from_str(alloc, text)?;
        match read(alloc, &name, &text) {
            Ok(component) => components.push(component)?,
            Err(_) => return Ok(None),
        }
    }
    Ok(Some(components))
}

/// What comes of files `NAME TEXT` with bars between them: `ok` and their number, or the rule, the file's position and the place.
fn outcome(alloc: Global, files: &str) -> Result<String, Oom> {
    let Some(components) = read_all(alloc, files)? else {
        return Ok(format!(in alloc; "unread")?);
    };
    let said = match check(alloc, Items::from_vec(components)) {
        Ok(program) => format!(in alloc; "ok {}", program.components().len())?,
        Err(ProgramFault::Broken { file, rule, place }) => {
            format!(in alloc; "{rule:?} {file} {}:{}", place.line, place.column)?
        }
        Err(ProgramFault::Oom) => format!(in alloc; "oom")?,
    };
    Ok(said)
}

/// The rows of which something else comes than is wanted.
fn others(alloc: Global, rows: &[(&str, &str)]) -> Result<String, Oom> {
    let mut all = String::new(alloc);
    for (files, wanted) in rows {
        let said = outcome(alloc, files)?;
        if said.as_str() != *wanted {
            all.push_str(files)?;
            all.push_str(" => ")?;
            all.push_str(said.as_str())?;
            all.push_str("\n")?;
        }
    }
    Ok(all)
}

const FINE: [(&str, &str); 13] = [
    ("A.razor ", "ok 1"),
    (
        "Counter.razor <p>@n</p><button @onclick=\"Add\">+</button>@code { int n = 0; void Add() { n++; } }",
        "ok 1",
    ),
    (
        "Hits.razor <p>@picked</p>@foreach (var k in ks) { <button @key=\"k\" @onclick=\"() => Hit(k)\">@k</button> }@code { int picked = 0; ImmutableList<int> ks = ImmutableList<int>.Empty.Add(7).Add(8); void Hit(int k) { picked = k; ks = ks.RemoveAt(0); } }",
        "ok 1",
    ),
    (
        "Items.razor @foreach (var k in ks) { <Piece @key=\"k\" Id=\"k\" OnGone=\"Gone\" /> }@code { ImmutableList<int> ks = ImmutableList<int>.Empty.Add(1); void Gone(int k) { ks = ks.RemoveAt(0).Add(k + 10); } }|Piece.razor <button @onclick=\"Go\">@Id</button>@code { [Parameter] public int Id { get; set; } [Parameter] public EventCallback<int> OnGone { get; set; } async Task Go() { await OnGone.InvokeAsync(Id); } }",
        "ok 2",
    ),
    (
        "Top.razor <CascadingValue Value=\"@n\"><Mid /></CascadingValue><button @onclick=\"Up\">u</button>@code { int n = 1; void Up() { n++; } }|Mid.razor <p>m</p><Leaf />|Leaf.razor <i>@N</i>@code { [CascadingParameter] public int N { get; set; } }",
        "ok 3",
    ),
    ("A.razor <A/>", "ok 1"),
    (
        "A.razor @if (b) { <p/> } else { <i/> }@code { bool b; int n; void F() { int n = 1; } }",
        "ok 1",
    ),
    ("A.razor @{ var x = 1; x = 2; <p>@x</p> }", "ok 1"),
    (
        "A.razor <C><T>a</T> <U>b@(context)</U></C>|C.razor @T @U(1) @code { [Parameter] public RenderFragment T { get; set; } [Parameter] public RenderFragment<int> U { get; set; } }",
        "ok 2",
    ),
    (
        "A.razor @switch (n) { case 1: if (b) { break; } <p/> break; default: break; }@code { int n; bool b; }",
        "ok 1",
    ),
    (
        "A.razor <input @bind=\"s\"><input type=\"checkbox\" @bind=\"b\" value=\"x\">@code { string s = \"\"; bool b; }",
        "ok 1",
    ),
    (
        "A.razor <C S=\"x@y\" N=\"1 + 2\" On=\"() => n++\" Off=\"@F\"/>@code { int n; void F() { n = 1; } }|C.razor @code { [Parameter] public string S { get; set; } [Parameter] public int N { get; set; } [Parameter] public EventCallback On { get; set; } [Parameter] public EventCallback<int> Off { get; set; } }",
        "ok 2",
    ),
    (
        "A.razor @code { record R(int A, string B); R r = new R(1, \"\"); int F() { while (true) { } } int G => 1; void OnInitialized() { F(); } }",
        "ok 1",
    ),
];

#[test]
fn fine_programs_are_accepted(rt: HostRuntime) -> Result<(), Fail> {
    let alloc = rt.alloc();
    let others = others(alloc, &FINE)?;
    assert_eq!(rt; others.as_str(), "");
    Ok(())
}

/// Each rule, broken once.
const BROKEN: [(&str, &str); 23] = [
    ("A.razor x|b/A.razor y", "DuplicateComponent 1 1:1"),
    ("a.razor x", "BadComponentName 0 1:1"),
    ("A x", "BadComponentName 0 1:1"),
    ("CascadingValue.razor x", "BadComponentName 0 1:1"),
    ("A.razor @code { int n; bool n; }", "DuplicateName 0 1:21"),
    ("A.razor <B/>", "UnknownComponent 0 1:2"),
    ("A.razor <A X=\"1\"/>", "UnknownParameter 0 1:4"),
    ("A.razor <A>x</A>", "UnknownParameter 0 1:1"),
    (
        "A.razor <p a=\"1\" @onclick=\"F\" onclick=\"2\"></p>@code { void F() { } }",
        "DuplicateAttribute 0 1:23",
    ),
    (
        "A.razor <A><T>x</T>y</A>@code { [Parameter] public RenderFragment T { get; set; } }",
        "MixedContent 0 1:12",
    ),
    ("A.razor <p>@m</p>", "UnknownName 0 1:5"),
    ("A.razor @code { Foo x; }", "UnknownType 0 1:9"),
    ("A.razor @(1 + true)", "TypeMismatch 0 1:7"),
    ("A.razor @{ int x; }", "NotAssigned 0 1:8"),
    (
        "A.razor @code { [Parameter] public int P { get; set; } void F() { P = 1; } }",
        "ParameterAssigned 0 1:59",
    ),
    (
        "A.razor @for (int i = 0; i < 3; i++) { <button @onclick=\"() => Hit(i)\">@i</button> }@code { void Hit(int k) { } }",
        "ForCapture 0 1:60",
    ),
    (
        "A.razor @{ var x = 1; x = 2; <p @onclick=\"() => F(x)\"/> }@code { void F(int k) { } }",
        "ChangedCapture 0 1:43",
    ),
    (
        "A.razor <p>@Next()</p>@code { int n = 0; int Next() { n++; return n; } }",
        "ImpureTemplate 0 1:5",
    ),
    (
        "A.razor @code { [Parameter] public EventCallback E { get; set; } void OnInitialized() { E.InvokeAsync(); } }",
        "CallbackInLifecycle 0 1:81",
    ),
    ("A.razor @while (true) { break; }", "LoopJump 0 1:17"),
    (
        "A.razor <p @key=\"ks\"/>@code { ImmutableList<int> ks; }",
        "BadKey 0 1:10",
    ),
    ("A.razor <p @bind=\"z\"/>", "BadBind 0 1:11"),
    (
        "A.razor @code { int Dispose() { return 1; } }",
        "BadLifecycle 0 1:13",
    ),
];

#[test]
fn each_rule_is_told_at_its_place(rt: HostRuntime) -> Result<(), Fail> {
    let alloc = rt.alloc();
    let others = others(alloc, &BROKEN)?;
    assert_eq!(rt; others.as_str(), "");
    Ok(())
}

/// More of the rules, and which of several comes first.
const FIRST: [(&str, &str); 22] = [
    ("A.razor @code { int F() { } }", "MissingReturn 0 1:13"),
    (
        "A.razor @code { int F() { if (true) { return 1; } } }",
        "MissingReturn 0 1:13",
    ),
    (
        "A.razor @code { record N(ImmutableList<N> K); }",
        "RecursiveRecord 0 1:16",
    ),
    (
        "A.razor @code { record R(S A); record S(R B); }",
        "RecursiveRecord 0 1:16",
    ),
    (
        "A.razor @(1 + F())@code { int n; int F() { n = 1; return n; } }",
        "ImpureTemplate 0 1:7",
    ),
    (
        "A.razor @{ n = F(); }@code { int n; int F() { n = 1; return n; } }",
        "ImpureTemplate 0 1:8",
    ),
    (
        "A.razor @for (int i = 0; i < 3; i++) { <p @onclick=\"() => Hit(i, true)\"/> }@code { void Hit(int k) { } }",
        "ForCapture 0 1:55",
    ),
    (
        "A.razor @for (int i = 0; i < 3; i++) { <C><p>@i</p></C> }|C.razor @ChildContent @code { [Parameter] public RenderFragment ChildContent { get; set; } }",
        "ForCapture 0 1:39",
    ),
    (
        "A.razor @{ P = 1; }@code { [Parameter] public int P { get; set; } }",
        "ParameterAssigned 0 1:4",
    ),
    (
        "A.razor @{ E.InvokeAsync(); }@code { [Parameter] public EventCallback E { get; set; } }",
        "ImpureTemplate 0 1:4",
    ),
    (
        "A.razor <C><T>a</T></C>|C.razor @code { [Parameter] public RenderFragment<int> T { get; set; } record R(int A, int A); }",
        "DuplicateName 1 1:84",
    ),
    (
        "A.razor <C><D>x</D></C>|C.razor @ChildContent(1) @code { [Parameter] public RenderFragment<int> ChildContent { get; set; } }|D.razor @ChildContent(1) @code { [Parameter] public RenderFragment<int> ChildContent { get; set; } }",
        "DuplicateName 0 1:4",
    ),
    (
        "A.razor <C Context=\"q\"><D>x</D></C>|C.razor @ChildContent(1) @code { [Parameter] public RenderFragment<int> ChildContent { get; set; } }|D.razor @ChildContent(1) @code { [Parameter] public RenderFragment<int> ChildContent { get; set; } }",
        "ok 3",
    ),
    (
        "A.razor <CascadingValue>x</CascadingValue>",
        "TypeMismatch 0 1:1",
    ),
    (
        "A.razor <CascadingValue Value=\"@null\">x</CascadingValue>",
        "TypeMismatch 0 1:25",
    ),
    (
        "A.razor <CascadingValue Value=\"1\" Name=\"@s\">x</CascadingValue>@code { string s; }",
        "TypeMismatch 0 1:34",
    ),
    ("A.razor <p>@zzz</p>@code { Foo x; }", "UnknownName 0 1:5"),
    (
        "A.razor @code { Foo x; }|B.razor <p>@m</p>",
        "UnknownType 0 1:9",
    ),
    (
        "A.razor <B N=\"x\"/>@code { }|B.razor @code { [Parameter] public int N { get; set; } }",
        "UnknownName 0 1:7",
    ),
    (
        "A.razor <B N=\"\"/>|B.razor @code { [Parameter] public int N { get; set; } }",
        "TypeMismatch 0 1:4",
    ),
    (
        "A.razor <B P=\"1\"/>|B.razor @code { [Parameter] public Foo P { get; set; } }",
        "UnknownType 1 1:28",
    ),
    (
        "A.razor @code { record R(int A); }|B.razor @code { record R(int B); }",
        "DuplicateName 1 1:16",
    ),
];

#[test]
fn the_first_broken_rule_is_told(rt: HostRuntime) -> Result<(), Fail> {
    let alloc = rt.alloc();
    let others = others(alloc, &FIRST)?;
    assert_eq!(rt; others.as_str(), "");
    Ok(())
}
