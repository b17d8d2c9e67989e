// Components, and the operations that they are compiled to.
use frame_compiler::{CompileFault, compile};
use razor_ast::Component;
use razor_reader::read;
use sqlite_items::Items;
use std::alloc::Global;
use std::test::Fail;
use text_core::{Oom, Txt};

fn read_all(alloc: Global, files: &str) -> Result<Option<Items<Component>>, Oom> {
    let mut components = Items::new(alloc);
    for file in files.split('|') {
        let Some((name, text)) = file.split_once(' ') else {
            return Ok(None);
        };
        let name = Txt::from_str(alloc, name)?;
        let text = Txt::from_str(alloc, text)?;
        match read(alloc, &name, &text) {
            Ok(component) => components.push(component)?,
            Err(_) => return Ok(None),
        }
    }
    Ok(Some(components))
}

/// What comes of files `NAME TEXT` with bars between them.
fn outcome(alloc: Global, files: &str) -> Result<String, Oom> {
    let Some(components) = read_all(alloc, files)? else {
        return Ok(format!(in alloc; "unread")?);
    };
    let said = match compile(alloc, components.as_slice()) {
        Ok(program) => format!(in alloc; "{program:?}")?,
        Err(CompileFault::Broken { file, rule, place }) => {
            format!(in alloc; "{rule:?} {file} {}:{}", place.line, place.column)?
        }
        Err(CompileFault::Oom) => format!(in alloc; "oom")?,
    };
    Ok(said)
}

/// The rows whose outcome does not have the piece that is wanted.
fn others(alloc: Global, rows: &[(&str, &str)]) -> Result<String, Oom> {
    let mut all = String::new(alloc);
    for (files, wanted) in rows {
        let said = outcome(alloc, files)?;
        if !said.as_str().contains(*wanted) {
            all.push_str(files)?;
            all.push_str(" => ")?;
            all.push_str(said.as_str())?;
            all.push_str("\n")?;
        }
    }
    Ok(all)
}

/// Each form once: files, and a piece of what they are compiled to.
const ROWS: [(&str, &str); 15] = [
    (
        "A.razor <p>@n</p>@code { int n; }",
        "Element { number: 0, name: Txt { text: \"p\" }, attributes: Items { items: [] }, children: Items { items: [Content { number: 1, form: Text, code: Field(0) }] } }",
    ),
    (
        "A.razor a&amp;b",
        "Raw { number: 0, text: Txt { text: \"a&amp;b\" } }",
    ),
    (
        "A.razor @if (b) { <i/> }@code { bool b; }",
        "If { test: Field(0), holds: Items { items: [Block(",
    ),
    (
        "A.razor <p @onclick=\"F\"/>@code { void F() { } }",
        "Event { number: 1, name: Txt { text: \"onclick\" }, code: Callback(2, Items { items: [] }) }",
    ),
    (
        "A.razor <p @onclick=\"F\"/>@code { void F() { } }",
        "codes: {0: Block(Items { items: [] }), 2: Block(Items { items: [] })}",
    ),
    (
        "A.razor <input @bind=\"s\">@code { string s; }",
        "Whole { number: 1, name: Txt { text: \"value\" }, code: Field(0) }, Handler { number: 2, name: Txt { text: \"onchange\" }, place: 3 }",
    ),
    (
        "A.razor <input @bind=\"s\">@code { string s; }",
        "codes: {3: Bind(0, Text)}",
    ),
    (
        "A.razor @foreach (var k in ks) { <b @key=\"k\">@k</b> }@code { ImmutableList<int> ks; }",
        "ForEach { number: 0, list: Field(0), keyed: Some(1), body:",
    ),
    (
        "A.razor @{ var x = 1; <C>@x</C> }|C.razor @ChildContent @code { [Parameter] public RenderFragment ChildContent { get; set; } }",
        "Content { place: 0, number: 0, locals: Items { items: [0] } }",
    ),
    (
        "A.razor @switch (n) { case 1: break; default: break; }@code { int n; }",
        "OperationSection { constants: Items { items: [] }, otherwise: true, operations: Items { items: [Break] } }",
    ),
    (
        "A.razor <CascadingValue Value=\"@n\">x</CascadingValue>@code { int n; }",
        "made: Provider { cs_type: Int, name: None }, parts: Items { items: [Value { place: 0, code: Field(0) }, Content { place: 2, number: 1, locals: Items { items: [] } }] }",
    ),
    (
        "A.razor <CascadingValue Value=\"s\" Name=\"s\">x</CascadingValue>@code { string s = \"\"; }",
        "made: Provider { cs_type: Text, name: Some(Txt { text: \"s\" }) }, parts: Items { items: [Value { place: 0, code: Field(0) }, Text { place: 1, text: Txt { text: \"s\" } }, Content",
    ),
    (
        "A.razor @code { int n; void OnInitialized() { } }",
        "initialized: Some(1), parameters_set: None, dispose: None",
    ),
    (
        "A.razor @code { [CascadingParameter] public int N { get; set; } }",
        "cascading: Some(Wanted { cs_type: Int, name: None })",
    ),
    ("A.razor x|B.razor @m", "UnknownName 1 1:2"),
];

#[test]
fn each_form_is_compiled(rt: HostRuntime) -> Result<(), Fail> {
    let alloc = rt.alloc();
    let others = others(alloc, &ROWS)?;
    assert_eq!(rt; others.as_str(), "");
    Ok(())
}
