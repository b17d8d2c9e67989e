// Files that spell nothing, that nest too deeply, and that are too long.
use crate::support::outlined;
use std::alloc::Global;
use std::process::Abort;
use std::test::Fail;

/// No text is razor.
fn refuse(rt: &impl Abort, alloc: Global, texts: &[&str]) -> Result<(), Fail> {
    for text in texts {
        let found = outlined(alloc, text)?;
        assert!(rt; found.as_str().starts_with("syntax "), "{text}: {found}");
    }
    Ok(())
}

#[test]
fn refuses_what_is_not_razor(rt: HostRuntime) -> Result<(), Fail> {
    refuse(
        &rt,
        rt.alloc(),
        &[
            "<p>",
            "<p></q>",
            "</p>",
            "<script></script>",
            "<style></style>",
            "<text>x</text>",
            "<!DOCTYPE html>",
            "< p></p>",
            "<p a = \"1\"></p>",
            "<p/ >",
            "<p a=/>",
            "<p a=\"b\"c=\"d\"/>",
            "@",
            "@true",
            "@new",
            "@(x => x)",
            "@(n++)",
            "@(1",
            "<p @onClick=\"F\"/>",
            "<p @on=\"F\"/>",
            "<p @foo=\"F\"/>",
            "<p @onclick/>",
            "<p @key=\"@k\"/>",
            "<p @key=\"k => k\"/>",
            "<p @bind=\"@s\"/>",
            "<p @bind=\"s.t\"/>",
            "<p @bind:event=\"oninput\"/>",
            "<p @bind=\"s\" @bind:event=\"onchange\"/>",
            "<p a=\"@(x => x)\"/>",
            "<C @onclick=\"F\"/>",
            "<C @bind=\"s\"/>",
            "<C Context/>",
            "<C Context=\"1\"/>",
            "<C Context=\"a b\"/>",
            "<C A=\"@n n\"/>",
            "@page",
            "@page.x",
            "@using A.B;",
            "@code { int = }",
        ],
    )
}

#[test]
fn refuses_wrong_code(rt: HostRuntime) -> Result<(), Fail> {
    refuse(
        &rt,
        rt.alloc(),
        &[
            "@if (b) n = 1;",
            "@if (b) { } else x",
            "@if b { }",
            "@if (x => x) { }",
            "@if (b) { if (c) <i/> }",
            "@if (b) { else { } }",
            "@if (b) { break; }",
            "@while (b) { @switch (n) { case 1: continue } }",
            "@{ continue; }",
            "@{ @{ } }",
            "@{ @@ }",
            "@{ <!-- c --> }",
            "@{ <text/> }",
            "@{ <text a=\"b\"></text> }",
            "@{ <script></script> }",
            "@{ <p><text>x</text></p> }",
            "@{ n }",
            "@{ x => x; }",
            "@for (int i = 0; i < 3) { }",
            "@for (return; b; n++) { }",
            "@for (;; n) { }",
            "@foreach (int x in xs) { }",
            "@foreach (var x in xs, ys) { }",
            "@switch (n) { case 1: <i/> }",
            "@switch (n) { <i/> }",
            "@switch (n) { case m: break; }",
            "@switch (n) { default: break; default: break; }",
            "@switch (n) { case 1: }",
        ],
    )
}

/// The text with so many of one text, some text, and as many of another one.
fn nested(
    alloc: Global,
    count: usize,
    open: &str,
    inner: &str,
    close: &str,
) -> Result<String, Fail> {
    let mut text = String::new(alloc);
    for _ in 0..count {
        text.push_str(open)?;
    }
    text.push_str(inner)?;
    for _ in 0..count {
        text.push_str(close)?;
    }
    Ok(text)
}

/// The outline of some text between so many of one text and as many of another one.
fn outline_of_nested(
    alloc: Global,
    count: usize,
    open: &str,
    inner: &str,
    close: &str,
) -> Result<String, Fail> {
    let text = nested(alloc, count, open, inner, close)?;
    outlined(alloc, text.as_str())
}

/// The outline of 1 in so many round brackets, behind and before these texts.
fn outline_of_brackets(
    alloc: Global,
    before: &str,
    count: usize,
    behind: &str,
) -> Result<String, Fail> {
    let mut text = String::from_str(alloc, before)?;
    text.push_str(nested(alloc, count, "(", "1", ")")?.as_str())?;
    text.push_str(behind)?;
    outlined(alloc, text.as_str())
}

fn measures_brackets(rt: &impl Abort, alloc: Global) -> Result<(), Fail> {
    let found = outline_of_brackets(alloc, "@", 201, "")?;
    assert_eq!(rt; found.as_str(), "too deep 1:202");
    let found = outline_of_brackets(alloc, "@", 200, "")?;
    assert_eq!(rt; found.as_str(), "0@int");
    let found = outline_of_brackets(alloc, "<C A=\"", 200, "\"/>")?;
    assert!(rt; found.as_str().ends_with("'none]()"));
    Ok(())
}

#[test]
fn measures_nesting(rt: HostRuntime) -> Result<(), Fail> {
    let alloc = rt.alloc();
    let found = outline_of_nested(alloc, 201, "<b>", "", "</b>")?;
    assert_eq!(rt; found.as_str(), "too deep 1:601");
    let found = outline_of_nested(alloc, 200, "<b>", "", "</b>")?;
    assert!(rt; found.as_str().starts_with("b0(b1("));
    measures_brackets(&rt, alloc)
}

fn outline_of_branches(alloc: Global) -> Result<String, Fail> {
    let mut chain = String::from_str(alloc, "@if (b) { }")?;
    for _ in 0..100 {
        chain.push_str(" else if (b) { }")?;
    }
    outlined(alloc, chain.as_str())
}

fn outline_of_loops(alloc: Global) -> Result<String, Fail> {
    let mut text = String::from_str(alloc, "@{ ")?;
    text.push_str(nested(alloc, 100, "while (b) ", "n = 1;", "")?.as_str())?;
    text.push_str(" }")?;
    outlined(alloc, text.as_str())
}

#[test]
fn reads_long_chains(rt: HostRuntime) -> Result<(), Fail> {
    let alloc = rt.alloc();
    let begin = "if name block() else if name block() else if";
    assert!(rt; outline_of_branches(alloc)?.as_str().starts_with(begin));
    let begin = "block(while0 name while1 name while2";
    assert!(rt; outline_of_loops(alloc)?.as_str().starts_with(begin));
    Ok(())
}

fn outline_of_letters(alloc: Global, count: usize) -> Result<String, Fail> {
    let mut text = String::new(alloc);
    for _ in 0..count {
        text.push('a')?;
    }
    outlined(alloc, text.as_str())
}

#[test]
fn measures_length(rt: HostRuntime) -> Result<(), Fail> {
    let alloc = rt.alloc();
    assert_eq!(rt; outline_of_letters(alloc, 1_048_577)?.as_str(), "too long");
    assert_eq!(rt; outline_of_letters(alloc, 1_048_576)?.len(), 1_048_579);
    Ok(())
}
