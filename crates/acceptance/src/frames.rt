// Frames, line by line.
use crate::support::{ended, outcome};
use std::alloc::Global;
use std::process::Abort;
use std::test::Fail;

fn are_frames(rt: &impl Abort, alloc: Global, rows: &[(&str, &str)]) -> Result<(), Fail> {
    for (text, expected) in rows {
        let ran = outcome(alloc, &["frames", "Counter.razor"], "Counter.razor", text)?;
        ended(rt, &ran, 0, expected, text);
    }
    Ok(())
}

const FRAMES: &[(&str, &str)] = &[
    ("", "component 1 Counter\ndone\n"),
    (
        "<p>@n</p><button @onclick=\"Add\">+</button>@code { int n = 0; void Add() { n++; } }",
        "component 1 Counter\nelement 0 2 p\ntext 1 0\nelement 2 3 button\nattribute 3 onclick #1\ntext 4 +\ndone\n",
    ),
    (
        "<ul>@foreach (var k in ks) { <li @key=\"k\" title=\"a\\b\">@k</li> }</ul>@code { ImmutableList<int> ks = ImmutableList<int>.Empty.Add(7).Add(8); }",
        "component 1 Counter\nelement 0 9 ul\nregion 1 4\nelement 2 3 li\nattribute 3 title=a\\\\b\ntext 4 7\nregion 1 4\nelement 2 3 li\nattribute 3 title=a\\\\b\ntext 4 8\ndone\n",
    ),
    (
        "<b @onclick=\"A\"><i @onclick=\"A\">x\ny</i></b>&amp;@code { void A() { } }",
        "component 1 Counter\nelement 0 5 b\nattribute 1 onclick #1\nelement 2 3 i\nattribute 3 onclick #2\ntext 4 x\\ny\nmarkup 5 &amp;\ndone\n",
    ),
    (
        "<input @bind=\"n\">@code { int n = 7; }",
        "component 1 Counter\nelement 0 3 input\nattribute 1 value=7\nattribute 2 onchange #1\ndone\n",
    ),
    (
        "@{ while (n > 3) { } }@(1 / n)@code { int n = 0; }",
        "ended DivideByZero\n",
    ),
];

#[test]
fn writes_frames(rt: HostRuntime) -> Result<(), Fail> {
    are_frames(&rt, rt.alloc(), FRAMES)
}
