// What leads from one rendering to the next.
use crate::items::{button, components, rows};
use crate::page::Shown;
use page_core::{Counts, Node, Page, at, print};
use std::alloc::Global;
use std::process::Abort;
use std::test::Fail;
use text_core::Txt;

const NONE: Counts = Counts {
    prepend: 0,
    remove: 0,
    set: 0,
    unset: 0,
    text: 0,
    step_in: 0,
    step_out: 0,
    markup: 0,
    moves: 0,
    ends: 0,
};

type Rows = &'static [(i32, &'static str)];

fn printed(alloc: Global, shown: &Shown) -> Result<Txt, Fail> {
    Ok(print(alloc, &shown.page()?)?)
}

/// The page that these rows make with nothing before them.
fn fresh(alloc: Global, list: Rows) -> Result<Txt, Fail> {
    let mut shown = Shown::new(alloc)?;
    shown.show(rows(alloc, list)?)?;
    printed(alloc, &shown)
}

fn leads(
    rt: &impl Abort,
    alloc: Global,
    first: Rows,
    second: Rows,
    expected: &Counts,
) -> Result<(), Fail> {
    let mut shown = Shown::new(alloc)?;
    shown.show(rows(alloc, first)?)?;
    let counts = shown.show(rows(alloc, second)?)?;
    assert!(rt; counts == *expected, "from {first:?} to {second:?}");
    let page = printed(alloc, &shown)?;
    assert!(rt;
        page == fresh(alloc, second)?,
        "from {first:?} to {second:?}"
    );
    Ok(())
}

/// Rows, those that come after them, and the edits that this takes.
const CASES: &[(Rows, Rows, Counts)] = &[
    (&[(1, "a"), (2, "b")], &[(1, "a"), (2, "b")], NONE),
    (
        &[(1, "a"), (2, "b"), (3, "c")],
        &[(2, "b"), (3, "c"), (1, "a")],
        Counts {
            step_in: 1,
            step_out: 1,
            moves: 3,
            ends: 1,
            ..NONE
        },
    ),
    (
        &[(0, "1"), (0, "2"), (0, "3")],
        &[(0, "2"), (0, "3")],
        Counts {
            remove: 1,
            text: 2,
            step_in: 3,
            step_out: 3,
            ..NONE
        },
    ),
    (
        &[(1, "a")],
        &[(2, "a")],
        Counts {
            prepend: 1,
            remove: 1,
            step_in: 1,
            step_out: 1,
            ..NONE
        },
    ),
    (
        &[(1, "a"), (2, "b")],
        &[(2, "x"), (9, "n"), (1, "a")],
        Counts {
            prepend: 1,
            text: 1,
            step_in: 2,
            step_out: 2,
            moves: 2,
            ends: 1,
            ..NONE
        },
    ),
];

#[test]
fn counts_are_sums_over_pairs(rt: HostRuntime) -> Result<(), Fail> {
    let alloc = rt.alloc();
    for (first, second, expected) in CASES {
        leads(&rt, alloc, first, second, expected)?;
    }
    Ok(())
}

fn born(page: &Page, path: &[u32]) -> u64 {
    match at(page, path) {
        Some(Node::Element { born, .. }) => *born,
        Some(Node::Text { born, .. }) => *born,
        Some(Node::Markup { born, .. }) => *born,
        None => 0,
    }
}

fn births(rt: &impl Abort, page: &Page, expected: &[(&[u32], u64)]) {
    for (path, batch) in expected {
        assert!(rt; born(page, path) == *batch, "at {path:?}");
    }
}

#[test]
fn births_stay_on_pairs(rt: HostRuntime) -> Result<(), Fail> {
    let alloc = rt.alloc();
    let mut shown = Shown::new(alloc)?;
    shown.show(rows(alloc, &[(1, "a"), (2, "b")])?)?;
    shown.show(rows(alloc, &[(3, "c"), (2, "z"), (1, "a")])?)?;
    let page = shown.page()?;
    births(
        &rt,
        &page,
        &[
            (&[0], 1),
            (&[0, 0], 2),
            (&[0, 0, 0], 2),
            (&[0, 1], 1),
            (&[0, 1, 0], 1),
            (&[0, 2], 1),
        ],
    );
    Ok(())
}

/// A class, what the handler has captured, and whether there is a title; how many names are set and unset, and the handler's id.
type Changed = (&'static str, i32, bool, u32, u32, u64);

const CHANGES: &[Changed] = &[
    ("a", 1, true, 0, 0, 1),
    ("b", 1, true, 1, 0, 1),
    ("b", 2, true, 1, 0, 2),
    ("b", 2, false, 0, 1, 2),
    ("c", 3, true, 3, 0, 3),
];

fn clicked(alloc: Global, page: &Page) -> Result<u64, Fail> {
    match at(page, &[0]) {
        Some(Node::Element { handlers, .. }) => {
            let name = Txt::from_str(alloc, "onclick")?;
            Ok(handlers.get(&name).copied().unwrap_or(0))
        }
        _ => Ok(0),
    }
}

fn changes(
    rt: &impl Abort,
    alloc: Global,
    shown: &mut Shown,
    changed: &Changed,
) -> Result<(), Fail> {
    let (class, captured, titled, set, unset, id) = *changed;
    let counts = shown.show(button(alloc, class, captured, titled)?)?;
    let expected = Counts { set, unset, ..NONE };
    assert!(rt; counts == expected, "at {class} {captured}");
    let found = clicked(alloc, &shown.page()?)?;
    assert!(rt; found == id, "at {class} {captured}");
    Ok(())
}

#[test]
fn names_change_where_they_differ(rt: HostRuntime) -> Result<(), Fail> {
    let alloc = rt.alloc();
    let mut shown = Shown::new(alloc)?;
    shown.show(button(alloc, "a", 1, true)?)?;
    for changed in CHANGES {
        changes(&rt, alloc, &mut shown, changed)?;
    }
    Ok(())
}

#[test]
fn components_stay_with_their_pairs(rt: HostRuntime) -> Result<(), Fail> {
    let alloc = rt.alloc();
    let mut shown = Shown::new(alloc)?;
    shown.show(components(alloc, &[(2, 1), (3, 2)])?)?;
    assert!(rt; shown.retained.is_empty());
    let counts = shown.show(components(alloc, &[(2, 2), (3, 1)])?)?;
    let turned = Counts {
        moves: 2,
        ends: 1,
        ..NONE
    };
    assert!(rt; counts == turned);
    assert!(rt; shown.retained.as_slice() == [(3, 2), (2, 3)].as_slice());
    Ok(())
}
