// The pieces of short texts, and where texts have none.
use cs_token::TokenKind;
use razor_token::{Piece, PieceKind, Quote, RazorFault, pieces};
use std::alloc::Global;
use std::process::Abort;
use std::test::Fail;
use text_core::{Oom, Place, Txt, show_i32};

/// The most bytes that a text has whose pieces are asked for.
const BYTES: usize = 1_048_576;

fn cut(alloc: Global, text: &str) -> Result<Vec<Piece>, RazorFault> {
    let text = Txt::from_str(alloc, text)?;
    if text.as_str().len() > BYTES {
        return Err(RazorFault::Oom);
    }
    pieces(alloc, &text)
}

fn push_between(line: &mut Txt, begin: &str, text: &Txt, end: &str) -> Result<(), Oom> {
    line.push_str(begin)?;
    line.push_text(text)?;
    line.push_str(end)
}

/// A token: a name or a word as it is, a number behind `#`, a text between `"`, a sign by its characters.
fn push_token(alloc: Global, line: &mut Txt, kind: &TokenKind) -> Result<(), Oom> {
    match kind {
        TokenKind::Name(name) => line.push_text(name),
        TokenKind::Number(number) => {
            line.push('#')?;
            line.push_text(&show_i32(alloc, *number)?)
        }
        TokenKind::Text(text) => push_between(line, "\"", text, "\""),
        TokenKind::Part(text) => push_between(line, "`", text, "`"),
        TokenKind::Word(word) => line.push_str(word.spelling()),
        TokenKind::Sign(sign) => push_characters(line, sign.mark()),
    }
}

fn push_characters(line: &mut Txt, characters: &[char]) -> Result<(), Oom> {
    for character in characters {
        line.push(*character)?;
    }
    Ok(())
}

/// A piece in a few characters: literal text between brackets, a token behind `:`.
fn push_piece(alloc: Global, line: &mut Txt, kind: &PieceKind) -> Result<(), Oom> {
    match kind {
        PieceKind::Literal(text) => push_between(line, "[", text, "]"),
        PieceKind::Comment => line.push_str("comment"),
        PieceKind::Gap => line.push_str("~"),
        PieceKind::Space => line.push_str("_"),
        PieceKind::Code(kind) => {
            line.push(':')?;
            push_token(alloc, line, kind)
        }
        PieceKind::At => line.push_str("@"),
        PieceKind::CodeAt => line.push_str("@code-with-markup"),
        PieceKind::MembersAt => line.push_str("@code"),
        PieceKind::ExpressionEnd => line.push_str("end"),
        PieceKind::Directive => line.push_str("directive"),
        PieceKind::DirectiveEnd => line.push_str("line-end"),
        PieceKind::Implements => line.push_str("implements"),
        PieceKind::TagStart(name) => push_between(line, "<", name, ""),
        PieceKind::AttributeName(name) => push_between(line, "", name, ""),
        PieceKind::ValueStart(Some(Quote::Double)) => line.push_str("=\""),
        PieceKind::ValueStart(Some(Quote::Single)) => line.push_str("='"),
        PieceKind::ValueStart(None) => line.push_str("="),
        PieceKind::ValueEnd => line.push_str("value-end"),
        PieceKind::ContentStart => line.push_str(">"),
        PieceKind::EmptyTagEnd => line.push_str("/>"),
        PieceKind::EndTagStart(name) => push_between(line, "</", name, ""),
        PieceKind::EndTagEnd => line.push_str("end>"),
        PieceKind::LineStart => line.push_str("@:"),
        PieceKind::LineEnd => line.push_str("eol"),
    }
}

/// The pieces one after another, with a space between them.
fn shown(alloc: Global, pieces: &[Piece]) -> Result<Txt, Oom> {
    let mut line = Txt::new(alloc);
    for (at, piece) in pieces.iter().enumerate() {
        if at > 0 {
            line.push(' ')?;
        }
        push_piece(alloc, &mut line, &piece.kind)?;
    }
    Ok(line)
}

fn reads(rt: &impl Abort, alloc: Global, text: &str, expected: &str) -> Result<(), Fail> {
    let found = cut(alloc, text)?;
    let line = shown(alloc, &found)?;
    assert_eq!(rt; line.as_str(), expected, "at {text}");
    Ok(())
}

/// Whether each text is cut into the pieces beside it.
fn read_all(rt: &impl Abort, alloc: Global, rows: &[(&str, &str)]) -> Result<(), Fail> {
    for (text, expected) in rows {
        reads(rt, alloc, text, expected)?;
    }
    Ok(())
}

/// Whether no text has pieces.
fn refuse_all(rt: &impl Abort, alloc: Global, texts: &[&str]) -> Result<(), Fail> {
    for text in texts {
        let found = cut(alloc, text);
        assert!(rt;
            matches!(found, Err(RazorFault::Syntax { .. })),
            "at {text}"
        );
    }
    Ok(())
}

#[test]
fn cuts_content(rt: HostRuntime) -> Result<(), Fail> {
    read_all(
        &rt,
        rt.alloc(),
        &[
            ("", ""),
            ("a b\n", "[a b\n]"),
            (
                "a@b.c @@ @(1+2)x",
                "[a] [@] [b.c ] [@] [ ] @ :( :#1 :+ :#2 :) end [x]",
            ),
            ("x@@@n", "[x] [@] @ :n end"),
            ("é@n", "[é] @ :n end"),
            ("@né", "@ :n end [é]"),
            ("@n@n", "@ :n end [@] [n]"),
            ("@n.", "@ :n end [.]"),
            (
                "@n.a(1)[2].b c",
                "@ :n :. :a :( :#1 :) :[ :#2 :] :. :b end [ c]",
            ),
            ("@s?.a", "@ :s end [?.a]"),
            ("@f (1)", "@ :f end [ (1)]"),
            ("@f($\"{n}b\")", "@ :f :( :$\" :{ :n :} :`b` :\" :) end"),
            ("@* a *b *@@**@c", "comment comment [c]"),
            ("<!-- <b> @x --><!-->", "comment comment"),
            ("<p>@page</p>", "<p > @ :page end </p end>"),
        ],
    )
}

#[test]
fn cuts_tags(rt: HostRuntime) -> Result<(), Fail> {
    read_all(
        &rt,
        rt.alloc(),
        &[
            ("<p></p>", "<p > </p end>"),
            ("<p ></p\n>", "<p _ > </p _ end>"),
            ("<br><1a/><-/>", "<br /> <1a /> <- />"),
            ("<a x y-1:z.w />", "<a _ x _ y-1:z.w _ />"),
            (
                "<a x=\"\" y='b\"c'/>",
                "<a _ x =\" value-end _ y =' [b\"c] value-end />",
            ),
            ("<a x=b/c/>", "<a _ x = [b/c] value-end />"),
            ("<a x=@b.c/>", "<a _ x = @ :b :. :c end value-end />"),
            (
                "<a x=@(1 > 2)/>",
                "<a _ x = @ :( :#1 ~ :> ~ :#2 :) end value-end />",
            ),
            (
                "<a x=\"b@c @@ @n@(\")\")d\"/>",
                "<a _ x =\" [b] [@] [c ] [@] [ ] @ :n end @ :( :\")\" :) end [d] value-end />",
            ),
            (
                "<a @key=\"n\" @key=n/>",
                "<a _ @key =\" :n value-end _ @key = :n value-end />",
            ),
            (
                "<a @onclick=\"() => F(1)\"/>",
                "<a _ @onclick =\" :( :) ~ :=> ~ :F :( :#1 :) value-end />",
            ),
            (
                "<a @onclick=\"@(() => F(\"b\"))\"/>",
                "<a _ @onclick =\" @ :( :( :) ~ :=> ~ :F :( :\"b\" :) :) value-end />",
            ),
            ("<a @onclick='@F'/>", "<a _ @onclick =' @ :F value-end />"),
            ("<a @onclick=@F/>", "<a _ @onclick = @ :F end value-end />"),
            (
                "<A N=\"@(1) + 1\" S=\"x@@y@(\")\")\" />",
                "<A _ N =\" @ :( :#1 :) ~ :+ ~ :#1 value-end _ S =\" [x] [@@] [y] [@(] [\")\"] [)] value-end _ />",
            ),
            (
                "<A S=\" @n\" Context=\"x\" T/>",
                "<A _ S =\" [ ] [@] [n] value-end _ Context =\" [x] value-end _ T />",
            ),
            (
                "<a @bind=\"s\" @bind:event=\"oninput\"/>",
                "<a _ @bind =\" :s value-end _ @bind:event =\" [oninput] value-end />",
            ),
        ],
    )
}

#[test]
fn cuts_code_with_markup(rt: HostRuntime) -> Result<(), Fail> {
    read_all(
        &rt,
        rt.alloc(),
        &[
            ("@{ }x", "@code-with-markup :{ ~ :} [x]"),
            (
                "@if (b) { <p/> } else { }",
                "@code-with-markup :if ~ :( :b :) ~ :{ ~ <p /> ~ :} ~ :else ~ :{ ~ :}",
            ),
            (
                "@if (b) { } elsewhere",
                "@code-with-markup :if ~ :( :b :) ~ :{ ~ :} [ elsewhere]",
            ),
            (
                "@if (b) {}else if(c){}\nelse{} else",
                "@code-with-markup :if ~ :( :b :) ~ :{ :} :else ~ :if :( :c :) :{ :} ~ :else :{ :} [ else]",
            ),
            (
                "@{ @n@m <b>a</b> x = y < z; }",
                "@code-with-markup :{ ~ @ :n end @ :m end ~ <b > [a] </b end> ~ :x ~ := ~ :y ~ :< ~ :z :; ~ :}",
            ),
            (
                "@{ @:a } <b></b>\n}",
                "@code-with-markup :{ ~ @: [a } ] <b > </b end> eol ~ :}",
            ),
            (
                "@{ if (b) { <i/> } <text>a</text> @if (b) {} }",
                "@code-with-markup :{ ~ :if ~ :( :b :) ~ :{ ~ <i /> ~ :} ~ <text > [a] </text end> ~ @code-with-markup :if ~ :( :b :) ~ :{ :} ~ :}",
            ),
            (
                "@switch (n) { case 1: <i/> break; }",
                "@code-with-markup :switch ~ :( :n :) ~ :{ ~ :case ~ :#1 :: ~ <i /> ~ :break :; ~ :}",
            ),
            (
                "@{ x = y with { A = 1 }; <i/> }",
                "@code-with-markup :{ ~ :x ~ := ~ :y ~ :with ~ :{ ~ :A ~ := ~ :#1 ~ :} :; ~ <i /> ~ :}",
            ),
            (
                "@for (;;) {}",
                "@code-with-markup :for ~ :( :; :; :) ~ :{ :}",
            ),
        ],
    )
}

#[test]
fn cuts_what_stands_at_the_top(rt: HostRuntime) -> Result<(), Fail> {
    read_all(
        &rt,
        rt.alloc(),
        &[
            (
                "@code { int n = 0; void F() { } }a",
                "@code ~ :{ ~ :int ~ :n ~ := ~ :#0 :; ~ :void ~ :F :( :) ~ :{ ~ :} ~ :} end [a]",
            ),
            (
                "@using A.B \n@page \"/a\"\nx",
                "directive :A :. :B line-end directive line-end [x]",
            ),
            ("@implements IDisposable <p/>", "implements [ ] <p />"),
            ("@implements IDisposable\nx", "implements [x]"),
        ],
    )
}

#[test]
fn refuses_what_is_no_razor(rt: HostRuntime) -> Result<(), Fail> {
    refuse_all(
        &rt,
        rt.alloc(),
        &[
            "@",
            "@ n",
            "@1",
            "a @",
            "<",
            "< p>",
            "<>",
            "</p>",
            "<p>",
            "<p / >",
            "<!doctype html>",
            "<!-- a",
            "@* a",
            "<p a = \"1\">",
            "<p a=/>",
            "<p a=\"b",
            "<p a='@d[\"x\"'>",
            "<a x=\"@d[\"y\"]\">",
            "<a x=b\"c>",
            "@true",
            "@int.MaxValue",
            "@x.default",
            "@(1",
            "@f(",
            "@page",
            "@page.x",
            "@using A.B;",
            "@using System.Threading.Task",
            "@page \"/a\\\"b\"",
            "@page \"/x\" <p/>",
            "@code",
            "@code x",
            "@code {",
            "@{",
            "@{ @@ }",
            "@{ @* a *@ }",
            "@{ @{ } }",
            "@if (b) <p/>",
            "@{ @:<b>\n</b> }",
            "@{ @:a }",
            "<p a=\"@{ }\">",
            "@if (b) { } else x",
            "@{ </p> }",
        ],
    )
}

#[test]
fn tells_the_place(rt: HostRuntime) -> Result<(), Fail> {
    let found = cut(rt.alloc(), "a\n<p @n=1");
    assert_eq!(rt;
        found,
        Err(RazorFault::Syntax {
            place: Place { line: 2, column: 8 }
        })
    );
    Ok(())
}
