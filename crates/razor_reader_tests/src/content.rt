// What content is read as.
use crate::support::compare;
use razor_reader::read;
use std::alloc::Global;
use std::process::Abort;
use std::test::Fail;
use text_core::Txt;

#[test]
fn reads_content(rt: HostRuntime) -> Result<(), Fail> {
    let alloc = rt.alloc();
    compare(
        &rt,
        alloc,
        &[
            ("", ""),
            ("a", "0'a'"),
            (
                "<p>@n</p><button @onclick=\"Add\">+</button>",
                "p0(1@name)button2[@onclick3 name](4'+')",
            ),
            ("a@b.c @@ @(1+2)x", "0'a@b.c @ '1@binary2'x'"),
            ("x@@@n", "0'x@'1@name"),
            ("@a.b(c)[0].", "0@index1'.'"),
            (
                "<p>@page</p><p>@code { }</p>",
                "p0(1@name)p2(3@name4' { }')",
            ),
            ("a&amp;b", "0&'a&amp;b'"),
            ("a<!-- x -->b@* y *@c", "0'abc'"),
            ("<br><input>x", "br0()input1()2'x'"),
            ("<my-tag/><C><T>a</T></C>", "my-tag0()C1(T2(3'a'))"),
            ("@implements IDisposable\nx", "0'x'!"),
            (
                "@using A.B\n@page \"/\" \n@namespace N\nx @code { int n; }@code { int m; }",
                "0'x '+2",
            ),
        ],
    )
}

#[test]
fn drops_white_space(rt: HostRuntime) -> Result<(), Fail> {
    let alloc = rt.alloc();
    compare(
        &rt,
        alloc,
        &[
            (" ", ""),
            ("<i/> <b/>", "i0()1' 'b2()"),
            ("<i/>\r\n<b/>", "i0()1'\n'b2()"),
            ("<i/>\r<b/>", "i0()1'\r'b2()"),
            (" <i/> ", "i0()"),
            ("<p> </p>", "p0()"),
            ("<p> x </p>", "p0(1' x ')"),
            ("<i/> @if (b) { } <b/>", "i0()if name block()b1()"),
            ("<i/> @* c *@ @if (b) { }", "i0()if name block()"),
            ("x @if (b) { } y", "0'x 'if name block()1' y'"),
            ("<i/> @code { } <b/>", "i0()b1()"),
            ("@page \"/\"\n\n<i/>", "i0()"),
            ("@page \"/\"\n\nx", "0'\nx'"),
            ("@n @n", "0@name1' '2@name"),
        ],
    )
}

#[test]
fn reads_attributes_of_elements(rt: HostRuntime) -> Result<(), Fail> {
    let alloc = rt.alloc();
    compare(
        &rt,
        alloc,
        &[
            ("<a b/>", "a0[b1]()"),
            ("<a b=\"\" c='d\"e' f=g/>", "a0[b1 c2'd\"e' f3'g']()"),
            (
                "<a b=\"@n y@@z a@b @(1 + 2)\"/>",
                "a0[b1@name' y@z a@b '@binary]()",
            ),
            ("<a b=@n c=@(\"x\") />", "a0[b1@name c2@text]()"),
            ("<a b=\"@(\")\")\"/>", "a0[b1@text]()"),
            ("<a b=\"@((MarkupString)s)\"/>", "a0[b1@cast]()"),
            ("<a b=x/>c", "a0[b1'x']()2'c'"),
            ("<a @onclick=\"F\"/>", "a0[@onclick1 name]()"),
            ("<a @onclick=F/>", "a0[@onclick1 name]()"),
            ("<a @onclick=\"@F\"/>", "a0[@onclick1 name]()"),
            ("<a @onclick='@(F)'/>", "a0[@onclick1 name]()"),
            ("<a @onclick=@(F) />", "a0[@onclick1 name]()"),
            ("<a @onclick=\"(F)\"/>", "a0[@onclick1 name]()"),
            ("<a @onclick=\"() => n++\"/>", "a0[@onclick1 lambda]()"),
            ("<a @onclick=\"@(() => n++)\"/>", "a0[@onclick1 lambda]()"),
            (
                "<a @onclick=\"@(e => { n = 1; })\"/>",
                "a0[@onclick1 lambda]()",
            ),
            ("<a @key=\"k.Id\" b/>", "a0[@key member b1]()"),
            ("<a @bind=\"s\" c=\"d\"/>", "a0[@bind1 s c3'd']()"),
            (
                "<a @bind=\"s\" @bind:event=\"oninput\" c>x</a>",
                "a0[@bind1 s @bind:event c3](4'x')",
            ),
        ],
    )
}

#[test]
fn reads_attributes_of_components(rt: HostRuntime) -> Result<(), Fail> {
    let alloc = rt.alloc();
    compare(
        &rt,
        alloc,
        &[
            (
                "<C A=\"1\" B=\"x y\" D=\"@n + 1\" E />",
                "C0[A1'1'int B2'x y'none D3@binary E4]()",
            ),
            ("<C A='@F' B=3/>", "C0[A1@name B2'3'int]()"),
            ("<C A=\"\"/>", "C0[A1''none]()"),
            ("<C A=\"() => n++\"/>", "C0[A1'() => n++'lambda]()"),
            (
                "<C A=\"x@@y\" B=\" @n\"/>",
                "C0[A1'x@@y'none B2' @n'none]()",
            ),
            ("<C A=\"@(n)\" B=\"@(1) + 1\"/>", "C0[A1@name B2@binary]()"),
            ("<C Context=\"x\">y</C>", "C0[Context1 x](2'y')"),
            (
                "<C @key=\"k\"><T Context=\"x\">@x</T> <U/></C>",
                "C0[@key name](T1[Context2 x](3@name)4' 'U5())",
            ),
        ],
    )
}

/// The name of the component of an empty file.
fn stem_of(alloc: Global, name: &str) -> Result<Txt, Fail> {
    let text = Txt::new(alloc);
    Ok(read(alloc, &Txt::from_str(alloc, name)?, &text)?.name)
}

fn have_stems(rt: &impl Abort, alloc: Global, rows: &[(&str, &str)]) -> Result<(), Fail> {
    for (name, stem) in rows {
        assert_eq!(rt; stem_of(alloc, name)?.as_str(), *stem, "{name}");
    }
    Ok(())
}

#[test]
fn reads_stems(rt: HostRuntime) -> Result<(), Fail> {
    have_stems(
        &rt,
        rt.alloc(),
        &[
            ("a/b/Counter.razor", "Counter"),
            ("Counter.razor", "Counter"),
            ("a.b.razor", "a.b"),
            ("Counter.cs", ""),
            ("a/.razor", ""),
            ("razor", ""),
        ],
    )
}
