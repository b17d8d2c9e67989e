// Code with markup, and whole files.
use crate::support::compare;
use std::test::Fail;

#[test]
fn reads_code_with_markup(rt: HostRuntime) -> Result<(), Fail> {
    let alloc = rt.alloc();
    compare(
        &rt,
        alloc,
        &[
            (
                "@if (b) { <i/> } else if (c) { @n } else { x = 1; }",
                "if name block(i0()) else if name block(1@name) else block(act;)",
            ),
            ("@{ int i = 0; <i>@i</i> }", "block(local;i0(1@name))"),
            (
                "@for (int i = 0; i < 3; i++) { <i/> }",
                "for0 local binary step block(i1())",
            ),
            ("@for (;;) { break; }", "for0 none none none block(break;)"),
            (
                "@for (i = 0; b; F()) { continue; }",
                "for0 act name call block(continue;)",
            ),
            (
                "@foreach (var x in xs) { @x }",
                "foreach0 x name block(1@name)",
            ),
            (
                "@while (b) { @:x @n }\n }",
                "while0 name block(:(1'x '2@name3' }'))",
            ),
            (
                "@switch (n) { case 1: case -2: <i/> break; default: return; }",
                "switch name 2(i0()break;) 1(return;)",
            ),
            (
                "@switch (s) { case \"a\": break; case null: break; case true: return 1; }",
                "switch name 1(break;) 1(break;) 1(return;)",
            ),
            (
                "@if (b) { <text>a <b/></text> }",
                "if name block(:(0'a 'b1()))",
            ),
            ("@if (b) { <text >a</text > }", "if name block(:(0'a'))"),
            (
                "@{ if (c) if (d) n = 1; else n = 2; while (e) ; }",
                "block(if name if name act; else act;while0 name empty;)",
            ),
            (
                "@{ if (c) { } else while (d) { } await F.InvokeAsync(); }",
                "block(if name block() else while0 name block()await;)",
            ),
            (
                "@if (b) { @if (c) { } @foreach (var x in y) { } { } }",
                "if name block(if name block()foreach0 x name block()block())",
            ),
            (
                "@{ <p>@if (b) { <i/> }</p> n++; }",
                "block(p0(if name block(i1()))act;)",
            ),
            ("@{ @n@m @(1) }", "block(0@name1@name2@int)"),
            ("@{ var s = $\"{n}}}\"; /* } */ }", "block(local;)"),
        ],
    )
}

#[test]
fn reads_listings(rt: HostRuntime) -> Result<(), Fail> {
    let alloc = rt.alloc();
    compare(
        &rt,
        alloc,
        &[
            (
                "<p>@n</p><button @onclick=\"Add\">+</button>@code { int n = 0; void Add() { n++; } }",
                "p0(1@name)button2[@onclick3 name](4'+')+2",
            ),
            (
                "<p>@picked</p>@foreach (var k in ks) { <button @key=\"k\" @onclick=\"() => Hit(k)\">@k</button> }@code { int picked = 0; ImmutableList<int> ks = ImmutableList<int>.Empty.Add(7).Add(8); void Hit(int k) { picked = k; ks = ks.RemoveAt(0); } }",
                "p0(1@name)foreach2 k name block(button3[@key name @onclick4 lambda](5@name))+3",
            ),
            (
                "@foreach (var k in ks) { <Piece @key=\"k\" Id=\"k\" OnGone=\"Gone\" /> }@code { ImmutableList<int> ks = ImmutableList<int>.Empty.Add(1); void Gone(int k) { ks = ks.RemoveAt(0).Add(k + 10); } }",
                "foreach0 k name block(Piece1[@key name Id2'k'name OnGone3'Gone'name]())+2",
            ),
            (
                "<button @onclick=\"Go\">@Id</button>@code { [Parameter] public int Id { get; set; } [Parameter] public EventCallback<int> OnGone { get; set; } async Task Go() { await OnGone.InvokeAsync(Id); } }",
                "button0[@onclick1 name](2@name)+3",
            ),
            (
                "<CascadingValue Value=\"@n\"><Mid /></CascadingValue><button @onclick=\"Up\">u</button>@code { int n = 1; void Up() { n++; } }",
                "CascadingValue0[Value1@name](Mid2())button3[@onclick4 name](5'u')+2",
            ),
            ("<p>m</p><Leaf />", "p0(1'm')Leaf2()"),
            (
                "<i>@N</i>@code { [CascadingParameter] public int N { get; set; } }",
                "i0(1@name)+1",
            ),
            (
                "<li class=\"@(Item.Done ? \"done\" : \"open\")\"><button @onclick=\"Flip\">v</button>@ChildContent</li>@code { [Parameter] public Entry Item { get; set; } [Parameter] public EventCallback<int> OnToggle { get; set; } [Parameter] public RenderFragment ChildContent { get; set; } async Task Flip() { await OnToggle.InvokeAsync(Item.Id); } }",
                "li0[class1@conditional](button2[@onclick3 name](4'v')5@name)+4",
            ),
        ],
    )
}

#[test]
fn reads_longer_listings(rt: HostRuntime) -> Result<(), Fail> {
    let alloc = rt.alloc();
    compare(
        &rt,
        alloc,
        &[
            (
                "<h1>Todo (@items.Count)</h1>\n<input @bind=\"title\"><button @onclick=\"Add\">Add</button>\n<ul>\n    @foreach (var item in items)\n    {\n        <Row @key=\"item.Id\" Item=\"item\" OnToggle=\"Toggle\">\n            <b>@item.Title</b>\n        </Row>\n    }\n</ul>\n@code {\n    record Entry(int Id, string Title, bool Done);\n    string title = \"\";\n    int next = 1;\n    ImmutableList<Entry> items = ImmutableList<Entry>.Empty;\n    void Add() {\n        if (title == \"\") { return; }\n        items = items.Add(new Entry(next, title, false));\n        next++;\n        title = \"\";\n    }\n    void Toggle(int id) {\n        for (int i = 0; i < items.Count; i++) {\n            if (items[i].Id == id) { items = items.SetItem(i, items[i] with { Done = !items[i].Done }); }\n        }\n    }\n}",
                "h10(1'Todo ('2@member3')')4'\n'input5[@bind6 title]()button8[@onclick9 name](10'Add')11'\n'ul12(foreach13 item name block(Row14[@key member Item15'item'name OnToggle16'Toggle'name](b17(18@member))))+6",
            ),
            (
                "<button @onclick=\"Add\">add</button>\n<ul>\n@foreach (var r in rows)\n{\n    <li @key=\"r.Id\"><b>@r.Name</b><button @onclick=\"() => Remove(r.Id)\">x</button></li>\n}\n</ul>\n@code {\n    record Line(int Id, string Name);\n    ImmutableList<Line> rows = ImmutableList<Line>.Empty;\n    int next = 1;\n    void Add() { if (rows.Count < 20) { rows = rows.Add(new Line(next, \"r\" + next)); next++; } }\n    void Remove(int id) { for (int i = 0; i < rows.Count; i++) { if (rows[i].Id == id) { rows = rows.RemoveAt(i); return; } } }\n}",
                "button0[@onclick1 name](2'add')3'\n'ul4(foreach5 r name block(li6[@key member](b7(8@member)button9[@onclick10 lambda](11'x'))))+5",
            ),
            (
                "\u{feff}@page \"/counter\"\r\n@rendermode InteractiveServer\r\n\r\n<h1>Counter</h1>\r\n\r\n<p role=\"status\">Current count: @currentCount</p>\r\n\r\n<button class=\"btn btn-primary\" @onclick=\"IncrementCount\">Click me</button>\r\n\r\n@code {\r\n    private int currentCount = 0;\r\n\r\n    private void IncrementCount()\r\n    {\r\n        currentCount++;\r\n    }\r\n}\r\n",
                "h10(1'Counter')2'\n\n'p3[role4'status'](5'Current count: '6@name)7'\n\n'button8[class9'btn btn-primary' @onclick10 name](11'Click me')+2",
            ),
        ],
    )
}
