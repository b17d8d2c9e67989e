// Components by their texts.
use razor_reader::read;
use standing_alone::stands_alone;
use std::alloc::Global;
use std::test::Fail;
use text_core::Txt;

fn is_alone(alloc: Global, text: &str) -> Result<bool, Fail> {
    let name = Txt::from_str(alloc, "Page.razor")?;
    let text = Txt::from_str(alloc, text)?;
    Ok(stands_alone(&read(alloc, &name, &text)?))
}

const COMPONENTS: &[(&str, bool)] = &[
    ("", true),
    ("<p>@n</p>@code { int n = 0; void Add() { n++; } }", true),
    ("@code { int Next => 1; record R(int A); }", true),
    ("<A/>", false),
    ("<p><b><A/></b></p>", false),
    ("@{ <A/> }", false),
    ("@if (true) { <p/> } else { <A/> }", false),
    ("@if (true) { <A/> }", false),
    ("@switch (1) { case 1: <A/> break; }", false),
    ("@for (;;) { <A/> }", false),
    ("@foreach (var x in xs) { <A/> }", false),
    ("@while (true) { <A/> }", false),
    ("@{ <text><A/></text> }", false),
    ("@code { [Parameter] public int P { get; set; } }", false),
    ("@code { void OnInitialized() { } }", false),
    ("@code { void OnParametersSet() { } }", false),
    ("@code { void Dispose() { } }", false),
    ("@implements IDisposable\n", false),
];

#[test]
fn tells_which_stand_alone(rt: HostRuntime) -> Result<(), Fail> {
    for (text, expected) in COMPONENTS {
        assert_eq!(rt; is_alone(rt.alloc(), text)?, *expected, "{text}");
    }
    Ok(())
}
