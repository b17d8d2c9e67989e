// What items come to.
use crate::items::{paragraph, with_component};
use frame_text::frame_lines;
use item_page::page_of;
use page_core::{Node, Page, at, print};
use std::alloc::Global;
use std::test::Fail;
use text_core::Txt;

const PRINTED: &str = "<p class=\"&quot;a&quot;\">&lt;<b>x\\y\n</b>&amp;<b>x\\y\n</b>&amp;</p>";

/// The page of the paragraph.
fn page(alloc: Global) -> Result<Option<Page>, Fail> {
    let items = paragraph(alloc)?;
    match page_of(alloc, items.as_slice(), 3)? {
        Some(nodes) => Ok(Some(Page { nodes })),
        None => Ok(None),
    }
}

#[test]
fn shows_a_page(rt: HostRuntime) -> Result<(), Fail> {
    let alloc = rt.alloc();
    let Some(page) = page(alloc)? else {
        assert!(rt; false, "there is a page");
        return Ok(());
    };
    assert_eq!(rt; print(alloc, &page)?.as_str(), PRINTED);
    Ok(())
}

/// The id of the handler of an event at a path of the page, or 0.
fn handler_at(alloc: Global, path: &[u32], event: &str) -> Result<u64, Fail> {
    let Some(page) = page(alloc)? else {
        return Ok(0);
    };
    let event = Txt::from_str(alloc, event)?;
    match at(&page, path) {
        Some(Node::Element { handlers, .. }) => Ok(handlers.get(&event).copied().unwrap_or(0)),
        _ => Ok(0),
    }
}

const HANDLERS: &[(&[u32], &str, u64)] = &[
    (&[0], "oninput", 1),
    (&[0], "onclick", 0),
    (&[0, 1], "onclick", 2),
    (&[0, 3], "onclick", 3),
];

#[test]
fn numbers_handlers(rt: HostRuntime) -> Result<(), Fail> {
    for (path, event, id) in HANDLERS {
        assert_eq!(rt; handler_at(rt.alloc(), path, event)?, *id, "{event}");
    }
    Ok(())
}

const LINES: &[&str] = &[
    "component 1 Page",
    "element 0 14 p",
    "attribute 1 oninput #1",
    "attribute 2 class=\"a\"",
    "text 3 <",
    "region 4 5",
    "element 5 3 b",
    "attribute 6 onclick #2",
    "text 7 x\\\\y\\n",
    "markup 8 &amp;",
    "region 4 5",
    "element 5 3 b",
    "attribute 6 onclick #3",
    "text 7 x\\\\y\\n",
    "markup 8 &amp;",
    "done",
];

#[test]
fn lists_frames(rt: HostRuntime) -> Result<(), Fail> {
    let alloc = rt.alloc();
    let name = Txt::from_str(alloc, "Page")?;
    let items = paragraph(alloc)?;
    let Some(lines) = frame_lines(alloc, &name, items.as_slice())? else {
        assert!(rt; false, "there are lines");
        return Ok(());
    };
    assert_eq!(rt; lines.len(), LINES.len());
    for (line, expected) in lines.iter().zip(LINES) {
        assert_eq!(rt; line.as_str(), *expected);
    }
    Ok(())
}

#[test]
fn takes_no_components(rt: HostRuntime) -> Result<(), Fail> {
    let alloc = rt.alloc();
    let name = Txt::from_str(alloc, "Page")?;
    let items = with_component(alloc)?;
    assert!(rt; page_of(alloc, items.as_slice(), 1)?.is_none());
    assert!(rt; frame_lines(alloc, &name, items.as_slice())?.is_none());
    Ok(())
}
