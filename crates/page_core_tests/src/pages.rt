// What pages print, and what is found by a name.
use page_core::{Attributes, HandlerIds, Node, Page, is_void, print};
use sqlite_items::Items;
use std::alloc::Global;
use std::process::Abort;
use std::test::Fail;
use text_core::{Oom, Txt};

fn text(alloc: Global, text: &str) -> Result<Node, Oom> {
    Ok(Node::Text {
        born: 0,
        text: Txt::from_str(alloc, text)?,
    })
}

fn markup(alloc: Global, text: &str) -> Result<Node, Oom> {
    Ok(Node::Markup {
        born: 0,
        text: Txt::from_str(alloc, text)?,
    })
}

fn element(
    alloc: Global,
    name: &str,
    attributes: &[(&str, &str)],
    children: Vec<Node>,
) -> Result<Node, Oom> {
    let mut all = Attributes::new(alloc);
    for (name, value) in attributes {
        all.set(Txt::from_str(alloc, name)?, Txt::from_str(alloc, value)?)?;
    }
    Ok(Node::Element {
        born: 0,
        name: Txt::from_str(alloc, name)?,
        attributes: all,
        handlers: HandlerIds::new(alloc),
        children: Items::from_vec(children),
    })
}

fn clickable(alloc: Global) -> Result<Node, Oom> {
    let mut handlers = HandlerIds::new(alloc);
    handlers.set(Txt::from_str(alloc, "onclick")?, 7)?;
    Ok(Node::Element {
        born: 0,
        name: Txt::from_str(alloc, "button")?,
        attributes: Attributes::new(alloc),
        handlers,
        children: Items::from_vec(vec![in alloc; text(alloc, "Go")?]?),
    })
}

fn nested(alloc: Global) -> Result<Node, Oom> {
    let hello = vec![in alloc; text(alloc, "Hi")?]?;
    let paragraph = element(alloc, "p", &[("id", "x"), ("class", "a b")], hello)?;
    let line = element(alloc, "br", &[], Vec::new(alloc))?;
    element(alloc, "main", &[], vec![in alloc; paragraph, line]?)
}

fn printed(alloc: Global, nodes: Vec<Node>) -> Result<Txt, Oom> {
    let page = Page {
        nodes: Items::from_vec(nodes),
    };
    print(alloc, &page)
}

#[test]
fn prints_pages(rt: HostRuntime) -> Result<(), Fail> {
    let alloc = rt.alloc();
    let mixed = vec![in alloc; markup(alloc, "<i>")?, nested(alloc)?, clickable(alloc)?]?;
    assert_eq!(rt;
        printed(alloc, mixed)?.as_str(),
        "<i><main><p class=\"a b\" id=\"x\">Hi</p><br></main><button>Go</button>"
    );
    assert_eq!(rt; printed(alloc, Vec::new(alloc))?.as_str(), "");
    Ok(())
}

fn is_escaped(
    rt: &impl Abort,
    alloc: Global,
    given: &str,
    in_text: &str,
    in_value: &str,
) -> Result<(), Fail> {
    let words = vec![in alloc; text(alloc, given)?]?;
    assert_eq!(rt; printed(alloc, words)?.as_str(), in_text);
    let raw = vec![in alloc; markup(alloc, given)?]?;
    assert_eq!(rt; printed(alloc, raw)?.as_str(), given);
    let paragraph = element(alloc, "p", &[("title", given)], Vec::new(alloc))?;
    let nodes = vec![in alloc; paragraph]?;
    assert_eq!(rt; printed(alloc, nodes)?.as_str(), in_value);
    Ok(())
}

// Characters, and how they stand in a text and in an attribute's value.
const ESCAPES: &[(&str, &str, &str)] = &[
    ("é", "é", "<p title=\"é\"></p>"),
    ("1 & 2", "1 &amp; 2", "<p title=\"1 &amp; 2\"></p>"),
    ("<b>", "&lt;b&gt;", "<p title=\"&lt;b&gt;\"></p>"),
    ("\"'", "\"'", "<p title=\"&quot;'\"></p>"),
    ("&amp;", "&amp;amp;", "<p title=\"&amp;amp;\"></p>"),
];

#[test]
fn escapes_characters(rt: HostRuntime) -> Result<(), Fail> {
    for (given, in_text, in_value) in ESCAPES {
        is_escaped(&rt, rt.alloc(), given, in_text, in_value)?;
    }
    Ok(())
}

fn ends(
    rt: &impl Abort,
    alloc: Global,
    name: &str,
    void: bool,
    expected: &str,
) -> Result<(), Fail> {
    assert_eq!(rt; is_void(&Txt::from_str(alloc, name)?), void, "at {name}");
    let children = vec![in alloc; text(alloc, "x")?]?;
    let nodes = vec![in alloc; element(alloc, name, &[], children)?]?;
    assert_eq!(rt; printed(alloc, nodes)?.as_str(), expected);
    Ok(())
}

// Names of elements, whether they are void, and how one with a text in it is printed.
const ELEMENTS: &[(&str, bool, &str)] = &[
    ("area", true, "<area>x"),
    ("base", true, "<base>x"),
    ("br", true, "<br>x"),
    ("col", true, "<col>x"),
    ("embed", true, "<embed>x"),
    ("hr", true, "<hr>x"),
    ("img", true, "<img>x"),
    ("input", true, "<input>x"),
    ("link", true, "<link>x"),
    ("meta", true, "<meta>x"),
    ("source", true, "<source>x"),
    ("track", true, "<track>x"),
    ("wbr", true, "<wbr>x"),
    ("p", false, "<p>x</p>"),
    ("BR", false, "<BR>x</BR>"),
];

#[test]
fn ends_elements(rt: HostRuntime) -> Result<(), Fail> {
    for (name, void, expected) in ELEMENTS {
        ends(&rt, rt.alloc(), name, *void, expected)?;
    }
    Ok(())
}

#[test]
fn keeps_the_last_value(rt: HostRuntime) -> Result<(), Fail> {
    let alloc = rt.alloc();
    let mut handlers = HandlerIds::new(alloc);
    assert!(rt; handlers.is_empty());
    for (name, id) in [("onclick", 1), ("oninput", 2), ("onclick", 3)] {
        handlers.set(Txt::from_str(alloc, name)?, id)?;
    }
    assert_eq!(rt; handlers.len(), 2);
    for (name, expected) in [("onclick", Some(3)), ("oninput", Some(2)), ("onkey", None)] {
        let found = handlers.get(&Txt::from_str(alloc, name)?).copied();
        assert_eq!(rt; found, expected, "at {name}");
    }
    Ok(())
}
