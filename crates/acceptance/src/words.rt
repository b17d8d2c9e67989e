// Which words are a command.
use crate::support::{ended, outcome};
use std::alloc::Global;
use std::process::Abort;
use std::test::Fail;

const USAGE: &str = "usage: blazor COMMAND ARGUMENTS\n";

const WORDS: &[(&[&str], u8, &str)] = &[
    (&[], 2, USAGE),
    (&["--help"], 2, USAGE),
    (&["render"], 2, USAGE),
    (&["render", "--"], 2, USAGE),
    (&["render", "-x"], 2, USAGE),
    (&["render", "-"], 2, USAGE),
    (&["render", "A.razor", "-x"], 2, USAGE),
    (&["frames"], 2, USAGE),
    (&["frames", "-x"], 2, USAGE),
    (
        &["render", "A.razor", "A.razor"],
        1,
        "refused DuplicateComponent A.razor 1:1\n",
    ),
    (&["render", "A.razor", "B.razor"], 4, "missing B.razor\n"),
    (&["render", "--", "A.razor", "--"], 4, "missing --\n"),
    (&["--", "render", "A.razor"], 2, USAGE),
    (&["Render", "A.razor"], 2, USAGE),
    (&["check"], 2, USAGE),
    (&["check", "-x"], 2, USAGE),
    (&["check", "A.razor", "B.razor"], 4, "missing B.razor\n"),
    (&["check", "A.razor"], 0, "ok 1\n"),
    (&["check", "--", "A.razor"], 0, "ok 1\n"),
    (&["render", "A.razor"], 0, "x\n"),
    (&["render", "--", "A.razor"], 0, "x\n"),
    (&["render", "A.razor", "--"], 0, "x\n"),
    (&["frames", "A.razor"], 0, "component 1 A\ntext 0 x\ndone\n"),
    (&["render", "B.razor"], 4, "missing B.razor\n"),
    (&["render", "--", "-x"], 4, "missing -x\n"),
    (&["render", "--", "--"], 4, "missing --\n"),
    (&["render", ""], 4, "missing \n"),
    (&["render", "\u{e9}"], 4, "missing \u{e9}\n"),
];

fn end_so(rt: &impl Abort, alloc: Global, rows: &[(&[&str], u8, &str)]) -> Result<(), Fail> {
    for (words, status, line) in rows {
        let ran = outcome(alloc, words, "A.razor", "x")?;
        ended(rt, &ran, *status, line, line);
    }
    Ok(())
}

#[test]
fn reads_words(rt: HostRuntime) -> Result<(), Fail> {
    end_so(&rt, rt.alloc(), WORDS)
}
