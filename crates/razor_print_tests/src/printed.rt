// What components are printed as. What is printed is read again and printed as the same text.
use razor_print::push_component;
use razor_reader::read;
use std::alloc::Global;
use std::process::Abort;
use std::test::Fail;
use text_core::Txt;

fn printed(alloc: Global, text: &str) -> Result<Txt, Fail> {
    let name = Txt::from_str(alloc, "Page.razor")?;
    let text = Txt::from_str(alloc, text)?;
    let component = read(alloc, &name, &text)?;
    let mut out = Txt::new(alloc);
    push_component(alloc, &mut out, &component)?;
    Ok(out)
}

fn compare(rt: &impl Abort, alloc: Global, rows: &[(&str, &str)]) -> Result<(), Fail> {
    for (text, expected) in rows {
        let once = printed(alloc, text)?;
        assert_eq!(rt; once.as_str(), *expected, "{text}");
        let twice = printed(alloc, once.as_str())?;
        assert_eq!(rt; twice.as_str(), *expected, "{text}");
    }
    Ok(())
}

#[test]
fn prints_content(rt: HostRuntime) -> Result<(), Fail> {
    let alloc = rt.alloc();
    compare(
        &rt,
        alloc,
        &[
            ("", ""),
            ("a@b.c @@ @(1+2)x", "a@@b.c @@ @(1 + 2 )x"),
            ("<p>@n</p>x@@@n", "<p>@(n )</p>x@@@(n )"),
            (
                "<br><my-tag></my-tag> <C><T>a</T></C>",
                "<br/><my-tag/> <C><T>a</T></C>",
            ),
            (
                "@implements IDisposable\n@page \"/\"\nx",
                "@implements IDisposable\nx",
            ),
            (
                "@using A\na&amp;b @code { int n; }",
                "a&amp;b @code{ int n ; }",
            ),
            ("a @code { } b", "a @code{ } b"),
            (
                "a@**@@code { }b@**@@code { int n; }",
                "a@**@@code{ }b@**@@code{ int n ; }",
            ),
        ],
    )
}

#[test]
fn prints_code_with_markup(rt: HostRuntime) -> Result<(), Fail> {
    let alloc = rt.alloc();
    compare(
        &rt,
        alloc,
        &[
            ("a@**@@if (b) { }", "a@**@@if ( b ) { }"),
            ("@if (b) { }@**@ else c", "@if ( b ) { }@**@ else c"),
            (
                "@if (b) { <i/> } else { n = 1; }",
                "@if ( b ) { <i/>}else { n = 1 ; }",
            ),
            (
                "@{ @:x @n\n <text>y</text> @n }",
                "@{ <text>x @(n )</text><text>y</text>@(n )}",
            ),
            (
                "@foreach (var x in y) { if (x) F(x); }",
                "@foreach ( var x in y ) { if ( x ) F ( x ) ; }",
            ),
            ("@for (;;) { break; }", "@for ( ; ; ) { break ; }"),
            (
                "@switch (n) { case -1: <i/> break; }",
                "@switch ( n ) { case - 1 : <i/>break ; }",
            ),
        ],
    )
}

#[test]
fn prints_attributes(rt: HostRuntime) -> Result<(), Fail> {
    let alloc = rt.alloc();
    compare(
        &rt,
        alloc,
        &[
            ("<a b c=d e='f\"@n'/>", "<a b=\"\" c=\"d\" e='f\"@(n )'/>"),
            (
                "<a @key=\"k\" @onclick=\"F\"/>",
                "<a @key='k ' @onclick=\"@(F )\"/>",
            ),
            (
                "<a @bind=\"s\" @bind:event=\"oninput\"/>",
                "<a @bind=\"s \" @bind:event=\"oninput\"/>",
            ),
            (
                "<C A=\"1\" B=\"@n\" D Context=\"x\"/>",
                "<C A=\"1\" B=\"@(n )\" D Context=\"x\"/>",
            ),
            (
                "<C A=\"a@(f(\"x\"))'\" B='p@(\"y\")\"'/>",
                "<C A=\"a@(f(\"x\"))'\" B='p@(\"y\")\"'/>",
            ),
        ],
    )
}
