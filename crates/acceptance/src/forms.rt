// Which files are of the first-click form, which alone is replayed so far.
use crate::support::{ended, replayed};
use std::alloc::Global;
use std::process::Abort;
use std::test::Fail;

fn are_refused(rt: &impl Abort, alloc: Global, texts: &[&str]) -> Result<(), Fail> {
    for text in texts {
        let ran = replayed(alloc, "A.razor", text)?;
        ended(rt, &ran, 1, "refused NotYet A.razor 1:1\n", text);
    }
    Ok(())
}

#[test]
fn refuses_other_files(rt: HostRuntime) -> Result<(), Fail> {
    are_refused(
        &rt,
        rt.alloc(),
        &[
            "<p>",
            "</p>",
            "<p>x</b>",
            "<a><b></a></b>",
            "<p >x</p>",
            "<p\n></p>",
            "<P></P>",
            "<p/>",
            "<>x</>",
            "<h1>x</h1>",
            "<br>",
            "<br></br>",
            "<script></script>",
            "<style></style>",
            "<text></text>",
            "<p id=\"x\"></p>",
            "a < b",
            "a & b",
            "&amp;",
            "@@",
            "@",
            "@(1)",
            "@n",
            "x@n @code{int n=1;}",
            "_@n @code{int n=1;}",
            "@n@n @code{int n=1;}",
            "@n.x @code{int n=1;}",
            "@n(1) @code{int n=1;}",
            "@n[0] @code{int n=1;}",
            "@n_ @code{int n=1;}",
            "@n1 @code{int n=1;}",
            "@n@code{int n=1;}",
            "x@code{}",
            "@code{}x",
            "@code{}@code{}",
            "<p>@code{}</p>",
            "<p>@code</p>",
            "@code{",
            "@code}",
            "@code{int n=1}",
            "@code{int n;}",
            "@code{int n=;}",
            "@code{intn=1;}",
            "@code{int n=-1;}",
            "@code{int n=+1;}",
            "@code{int n=1a;}",
            "@code{int n=2147483648;}",
            "@code{int n=1;;}",
            "@code{int a=1;int a=2;}",
            "@code{int if=1;}",
            "@code{int page=1;}",
            "@code{int a_b=1;}",
            "@code{int a1=1;}",
            "@code{string n=1;}",
            "@code{int n=1;/* c */}",
            "<p @onclick=\"A\">x</p>",
            "<p @onclick=\"n\">x</p>@code{int n=1;}",
            "<p @onclick=\"a\">x</p>@code{void A(){}}",
            "<p  @onclick=\"A\">x</p>@code{void A(){}}",
            "<p\t@onclick=\"A\">x</p>@code{void A(){}}",
            "<p @onclick=\"A\" >x</p>@code{void A(){}}",
            "<p @onclick =\"A\">x</p>@code{void A(){}}",
            "<p @onclick=\"@A\">x</p>@code{void A(){}}",
            "<p @onclick=\"A()\">x</p>@code{void A(){}}",
            "<p @onclick=\"\">x</p>@code{void A(){}}",
            "<p @onclick='A'>x</p>@code{void A(){}}",
            "<p @onclick=A>x</p>@code{void A(){}}",
            "<p @onclick=\"A\" @onclick=\"A\">x</p>@code{void A(){}}",
            "<p @onfocus=\"A\">x</p>@code{void A(){}}",
            "<p>x</p @onclick=\"A\">@code{void A(){}}",
            "@A @code{void A(){}}",
            "@code{void A(){}void A(){}}",
            "@code{int A=1;void A(){}}",
            "@code{void OnInitialized(){}}",
            "@code{void OnParametersSet(){}}",
            "@code{void while(){}}",
            "@code{void A1(){}}",
            "@code{void A()}",
            "@code{void A(){}",
            "@code{void A(){};}",
            "@code{void A(int n){}}",
            "@code{int A(){}}",
            "@code{private void A(){}}",
            "@code{void A(){n++;}}",
            "@code{int n=1;void A(){A++;}}",
            "@code{int n=1;void A(){n++}}",
            "@code{int n=1;void A(){n+ +;}}",
            "@code{int n=1;void A(){n+++;}}",
            "@code{int n=1;void A(){++n;}}",
            "@code{int n=1;void A(){n;}}",
            "@code{int n=1;void A(){;}}",
            "@code{int n=1;void A(){{}}}",
            "@code{int n=1;void A(){n=;}}",
            "@code{int n=1;void A(){n=1}}",
            "@code{int n=1;void A(){n==1;}}",
            "@code{int n=1;void A(){n+=1;}}",
            "@code{int n=1;void A(){n=-1;}}",
            "@code{int n=1;void A(){n=1-+1;}}",
            "@code{int n=1;void A(){n=n--1;}}",
            "@code{int n=1;void A(){n=n/2;}}",
            "@code{int n=1;void A(){n=(1;}}",
            "@code{int n=1;void A(){n=1);}}",
            "@code{int n=1;void A(){n=();}}",
            "@code{int n=1;void A(){n=1 1;}}",
            "@code{int n=1;void A(){n=m;}}",
            "@code{int n=1;void A(){n=A;}}",
            "@code{int n=1;void A(){n=2147483648;}}",
            "@code{int n=1;void A(){int m=1;}}",
            "@* c *@",
            "<!-- c -->",
            "\u{e9}",
            "a\r\nb",
            "\u{feff}x",
        ],
    )
}

fn end_with(rt: &impl Abort, alloc: Global, rows: &[(&str, u8)]) -> Result<(), Fail> {
    for (name, status) in rows {
        let ran = replayed(alloc, name, "x")?;
        assert_eq!(rt; ran.status, *status, "at {name}");
    }
    Ok(())
}

#[test]
fn refuses_other_names(rt: HostRuntime) -> Result<(), Fail> {
    end_with(
        &rt,
        rt.alloc(),
        &[
            ("A.razor", 0),
            ("pages/list/A_1.razor", 0),
            ("../A.razor", 0),
            ("\u{e9}/Caf.razor", 0),
            ("a.razor", 1),
            ("A", 1),
            (".razor", 1),
            ("1A.razor", 1),
            ("A-b.razor", 1),
            ("A.b.razor", 1),
            ("A.razor/", 1),
            ("A.razor.txt", 1),
            ("A.RAZOR", 1),
            ("Caf\u{e9}.razor", 1),
            ("CascadingValue.razor", 1),
            ("x/CascadingValue.razor", 1),
            ("CascadingValues.razor", 0),
        ],
    )
}
