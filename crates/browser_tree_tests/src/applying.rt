// What batches make of the tree, and which they are refused.
use crate::script::apply;
use browser_tree::Browser;
use page_core::{ApplyFault, Counts, Node, Page, at, print};
use std::alloc::Global;
use std::process::Abort;
use std::test::Fail;
use text_core::Txt;

fn shown(alloc: Global, browser: &Browser) -> Result<Txt, Fail> {
    Ok(print(alloc, &browser.page()?)?)
}

/// The page that the batches of these words lead to.
fn shows(rt: &impl Abort, alloc: Global, script: &str, expected: &str) -> Result<(), Fail> {
    let mut browser = Browser::new(alloc)?;
    assert!(rt; apply(alloc, &mut browser, script)?.is_ok(), "at {script}");
    assert_eq!(rt; shown(alloc, &browser)?.as_str(), expected, "at {script}");
    Ok(())
}

fn show_all(rt: &impl Abort, alloc: Global, rows: &[(&str, &str)]) -> Result<(), Fail> {
    for (script, expected) in rows {
        shows(rt, alloc, script, expected)?;
    }
    Ok(())
}

#[test]
fn shows_pages(rt: HostRuntime) -> Result<(), Fail> {
    show_all(
        &rt,
        rt.alloc(),
        &[
            ("", ""),
            ("text 0 c; text 0 a; text 1 b", "abc"),
            (
                "element 0 p; in 0; text 0 a&b; out; text 1 z",
                "<p>a&amp;b</p>z",
            ),
            (
                "element 0 p; set 0 id x; set 0 class y | unset 0 id",
                "<p class=\"y\"></p>",
            ),
            ("element 0 p; set 0 onclick #7", "<p></p>"),
            (
                "element 0 p; set 0 onclick #7; set 0 onclick z",
                "<p onclick=\"z\"></p>",
            ),
            ("element 0 p; set 0 x y; set 0 x #7", "<p></p>"),
            (
                "text 0 a; text 1 b; text 2 c | move 0 2; move 1 0; move 2 1; end",
                "bca",
            ),
            ("text 0 a; text 1 b | end; remove 0", "b"),
            ("text 0 a | say 0 b", "b"),
            ("markup 0 <i> | raw 0 <b>", "<b>"),
            ("component 0 2; text 1 z; @2; text 0 x", "xz"),
            ("component 0 2; text 1 z; @2; text 0 x | ~2", "z"),
            (
                "component 0 2; @2; text 0 x | ~2 | component 0 2; @2; text 0 y",
                "yy",
            ),
            (
                "component 0 2 | @2; component 0 3 | @3; text 0 deep",
                "deep",
            ),
            ("~1", ""),
        ],
    )
}

/// The batch of these words is refused for this, and leaves the page empty.
fn refuses(rt: &impl Abort, alloc: Global, edits: &str, expected: ApplyFault) -> Result<(), Fail> {
    let mut browser = Browser::new(alloc)?;
    let answer = apply(alloc, &mut browser, edits)?;
    assert!(rt; answer == Err(expected), "at {edits}");
    assert!(rt; shown(alloc, &browser)?.as_str().is_empty(), "at {edits}");
    Ok(())
}

fn refuse_all(rt: &impl Abort, alloc: Global, rows: &[(&str, ApplyFault)]) -> Result<(), Fail> {
    for (edits, expected) in rows {
        refuses(rt, alloc, edits, *expected)?;
    }
    Ok(())
}

#[test]
fn refuses_edits(rt: HostRuntime) -> Result<(), Fail> {
    refuse_all(
        &rt,
        rt.alloc(),
        &[
            ("remove 0", ApplyFault::NoSibling),
            ("text 1 a", ApplyFault::NoSibling),
            ("in 0", ApplyFault::NoSibling),
            ("set 0 x y", ApplyFault::NoSibling),
            ("@9", ApplyFault::NoComponent),
            ("~9", ApplyFault::NoComponent),
            ("component 5 1", ApplyFault::NoComponent),
            ("component 0 2; component 1 2", ApplyFault::NoComponent),
            ("component 0 2; ~2; ~2", ApplyFault::NoComponent),
            ("text 0 a; in 0", ApplyFault::NotElement),
            ("text 0 a; set 0 x y", ApplyFault::NotElement),
            ("component 0 2; unset 0 x", ApplyFault::NotElement),
            ("element 0 p; say 0 x", ApplyFault::NotText),
            ("markup 0 a; say 0 x", ApplyFault::NotText),
            ("text 0 a; raw 0 x", ApplyFault::NotText),
            ("element 0 p; unset 0 id", ApplyFault::NoAttribute),
            (
                "text 0 a; text 1 b; move 0 1; move 0 0",
                ApplyFault::BadPermutation,
            ),
            (
                "text 0 a; text 1 b; move 0 1; move 1 1",
                ApplyFault::BadPermutation,
            ),
            (
                "text 0 a; text 1 b; move 0 1; end",
                ApplyFault::BadPermutation,
            ),
            (
                "text 0 a; text 1 b; move 0 1; remove 9",
                ApplyFault::BadPermutation,
            ),
            (
                "text 0 a; text 1 b; move 0 1; move 0 2",
                ApplyFault::NoSibling,
            ),
            ("out", ApplyFault::Unbalanced),
            ("element 0 p; in 0", ApplyFault::Unbalanced),
            (
                "text 0 a; text 1 b; move 0 1; move 1 0",
                ApplyFault::Unbalanced,
            ),
        ],
    )
}

#[test]
fn counts_edits(rt: HostRuntime) -> Result<(), Fail> {
    let alloc = rt.alloc();
    let mut browser = Browser::new(alloc)?;
    let script =
        "element 0 p; element 1 b; set 0 x y; set 0 x z; unset 0 x; in 0; text 0 a; say 0 b; markup 1 c; raw 1 d; out; move 0 1; move 1 0; end; remove 0; @1; component 0 2";
    let expected = Counts {
        prepend: 5,
        remove: 1,
        set: 2,
        unset: 1,
        text: 1,
        step_in: 1,
        step_out: 1,
        markup: 1,
        moves: 2,
        ends: 1,
    };
    assert!(rt; apply(alloc, &mut browser, script)? == Ok(expected));
    Ok(())
}

fn born(node: Option<&Node>) -> u64 {
    match node {
        Some(Node::Element { born, .. }) => *born,
        Some(Node::Text { born, .. }) => *born,
        Some(Node::Markup { born, .. }) => *born,
        None => 0,
    }
}

/// Paths, and the batches that made the nodes there.
const BIRTHS: &[(&[u32], u64)] = &[(&[0], 1), (&[1], 1), (&[1, 0], 2), (&[2], 0)];

fn are_born(rt: &impl Abort, page: &Page, rows: &[(&[u32], u64)]) {
    for (path, expected) in rows {
        assert_eq!(rt; born(at(page, path)), *expected);
    }
}

#[test]
fn keeps_births(rt: HostRuntime) -> Result<(), Fail> {
    let alloc = rt.alloc();
    let mut browser = Browser::new(alloc)?;
    let script =
        "element 0 p; text 1 x | in 0; text 0 a; out | move 0 1; move 1 0; end; say 0 y; set 1 id z | remove 9";
    assert!(rt; apply(alloc, &mut browser, script)? == Err(ApplyFault::NoSibling));
    let page = browser.page()?;
    are_born(&rt, &page, BIRTHS);
    Ok(())
}
