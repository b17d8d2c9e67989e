// The tokens of short texts, and the first faults in them.
use cs_token::{LexFault, Sign, Token, TokenKind, tokens};
use std::alloc::Global;
use std::process::Abort;
use std::test::Fail;
use text_core::{Oom, Place, Txt, show_i32};

/// The most bytes that a text has whose tokens are asked for.
const BYTES: usize = 1_048_576;

pub fn lexed(alloc: Global, text: &str) -> Result<Vec<Token>, LexFault> {
    let text = Txt::from_str(alloc, text)?;
    if text.as_str().len() > BYTES {
        return Err(LexFault::Oom);
    }
    tokens(alloc, &text)
}

/// A token in a few characters: a name as it is, a number behind `#`, a text between `"`, a part of an interpolated text
/// between `'`, a word behind `:`, a sign as it is written, but `<{` and `}>` for the braces of a hole and `">` for the end.
fn push_kind(alloc: Global, line: &mut Txt, kind: &TokenKind) -> Result<(), Oom> {
    match kind {
        TokenKind::Name(name) => line.push_text(name),
        TokenKind::Number(number) => {
            line.push('#')?;
            line.push_text(&show_i32(alloc, *number)?)
        }
        TokenKind::Text(text) => push_between(line, '"', text),
        TokenKind::Part(text) => push_between(line, '\'', text),
        TokenKind::Word(word) => {
            line.push(':')?;
            line.push_str(word.spelling())
        }
        TokenKind::Sign(Sign::HoleOpen) => line.push_str("<{"),
        TokenKind::Sign(Sign::HoleClose) => line.push_str("}>"),
        TokenKind::Sign(Sign::InterpolationEnd) => line.push_str("\">"),
        TokenKind::Sign(sign) => push_characters(line, sign.mark()),
    }
}

fn push_between(line: &mut Txt, quote: char, text: &Txt) -> Result<(), Oom> {
    line.push(quote)?;
    line.push_text(text)?;
    line.push(quote)
}

fn push_characters(line: &mut Txt, characters: &[char]) -> Result<(), Oom> {
    for character in characters {
        line.push(*character)?;
    }
    Ok(())
}

/// The tokens one after another, with a space between them.
fn shown(alloc: Global, tokens: &[Token]) -> Result<Txt, Oom> {
    let mut line = Txt::new(alloc);
    for (at, token) in tokens.iter().enumerate() {
        if at > 0 {
            line.push(' ')?;
        }
        push_kind(alloc, &mut line, &token.kind)?;
    }
    Ok(line)
}

/// The tokens of each text are those beside it.
fn are_tokens(rt: &impl Abort, alloc: Global, rows: &[(&str, &str)]) -> Result<(), Fail> {
    for (text, expected) in rows {
        let tokens = lexed(alloc, text)?;
        assert_eq!(rt; shown(alloc, &tokens)?.as_str(), *expected, "{text:?}");
    }
    Ok(())
}

#[test]
fn reads_tokens(rt: HostRuntime) -> Result<(), Fail> {
    are_tokens(
        &rt,
        rt.alloc(),
        &[
            ("", ""),
            (" \t\r\n ", ""),
            ("x", "x"),
            ("_a9 Z", "_a9 Z"),
            ("0 007 42 2147483647", "#0 #7 #42 #2147483647"),
            ("1a", "#1 a"),
            ("1.5", "#1 . #5"),
            ("1L", "#1 L"),
            ("int x = 1;", ":int x = #1 ;"),
            ("intx int_ Int iN", "intx int_ Int iN"),
            ("record with", "record with"),
            ("a?.b ?? c ? d : e", "a ?. b ?? c ? d : e"),
            ("a?.5:b", "a ?. #5 : b"),
            (
                "ImmutableList<ImmutableList<int>>",
                ":ImmutableList < :ImmutableList < :int > >",
            ),
            ("a+++b--- -c", "a ++ + b -- - - c"),
            ("a<=b>=c==d!=e=>f", "a <= b >= c == d != e => f"),
            ("!a&&b||c", "! a && b || c"),
            ("a===b", "a == = b"),
            ("///\nx", "x"),
            ("a // b \"\n/c", "a / c"),
            ("a//", "a"),
            ("a/* b */c/**/d/***/e/*/*/f", "a c d e f"),
            ("/* \n */ x", "x"),
            ("a / *b", "a / * b"),
        ],
    )
}

#[test]
fn reads_texts(rt: HostRuntime) -> Result<(), Fail> {
    are_tokens(
        &rt,
        rt.alloc(),
        &[
            ("\"\"", "\"\""),
            ("\"a b\"c", "\"a b\" c"),
            ("\"{}//'\"", "\"{}//'\""),
            ("\"é日𝄞\"", "\"é日𝄞\""),
            ("\"a\rb\"", "\"a\rb\""),
            (r#""\\""#, r#""\""#),
            (r#""\"""#, r#"""""#),
            (r#""\'""#, r#""'""#),
            (r#""\0""#, "\"\0\""),
            (r#""\n""#, "\"\n\""),
            (r#""\r""#, "\"\r\""),
            (r#""\t""#, "\"\t\""),
            (r#""\u0041\u00e9\u00E9\uFFFD""#, "\"Aéé\u{FFFD}\""),
            (r#""\u00411""#, "\"A1\""),
            (r#""\uD7FF\uE000""#, "\"\u{D7FF}\u{E000}\""),
        ],
    )
}

#[test]
fn reads_interpolated_texts(rt: HostRuntime) -> Result<(), Fail> {
    are_tokens(
        &rt,
        rt.alloc(),
        &[
            ("$\"\"", "$\" \">"),
            ("$\"a\"", "$\" 'a' \">"),
            ("$\"{x}\"", "$\" <{ x }> \">"),
            ("$\"a{x}b{ y }c\";", "$\" 'a' <{ x }> 'b' <{ y }> 'c' \"> ;"),
            ("$\"{{{x}}}\"", "$\" '{' <{ x }> '}' \">"),
            ("$\"{{}}\"", "$\" '{}' \">"),
            (r#"$"\"\n{x}\u0041""#, "$\" '\"\n' <{ x }> 'A' \">"),
            ("$\"{\"}\"}\"", "$\" <{ \"}\" }> \">"),
            ("$\"{$\"{x}\"}\"", "$\" <{ $\" <{ x }> \"> }> \">"),
            ("$\"{a with { B = 1 }}\"", "$\" <{ a with { B = #1 } }> \">"),
            ("$\"{ /* } */ x /**/ }\"", "$\" <{ x }> \">"),
            ("$\"{x:y}{x,5}\"", "$\" <{ x : y }> <{ x , #5 }> \">"),
            ("{ $\"{x}\" }", "{ $\" <{ x }> \"> }"),
            ("$\"//{x}/*\"", "$\" '//' <{ x }> '/*' \">"),
        ],
    )
}

/// Each text is one token, of this kind.
/// Each token with the start, the end, the line and the column beside it.
fn are_at(rt: &impl Abort, tokens: &[Token], spans: &[(u32, u32, u32, u32)]) {
    assert_eq!(rt; tokens.len(), spans.len());
    for (token, (start, end, line, column)) in tokens.iter().zip(spans) {
        assert_eq!(rt; (token.start, token.end), (*start, *end));
        let place = Place {
            line: *line,
            column: *column,
        };
        assert_eq!(rt; token.place, place);
    }
}

#[test]
fn tells_spans_and_places(rt: HostRuntime) -> Result<(), Fail> {
    let tokens = lexed(rt.alloc(), " = \"\\n\";\r\n\t$\"a{1}\"")?;
    are_at(
        &rt,
        &tokens,
        &[
            (1, 2, 1, 2),
            (3, 7, 1, 4),
            (7, 8, 1, 8),
            (11, 13, 2, 2),
            (13, 14, 2, 4),
            (14, 15, 2, 5),
            (15, 16, 2, 6),
            (16, 17, 2, 7),
            (17, 18, 2, 8),
        ],
    );
    Ok(())
}

/// What is wrong, with its line and its column.
fn told(fault: &LexFault) -> (&'static str, u32, u32) {
    match fault {
        LexFault::BadCharacter { place } => ("character", place.line, place.column),
        LexFault::UnendedText { place } => ("text", place.line, place.column),
        LexFault::UnendedComment { place } => ("comment", place.line, place.column),
        LexFault::NumberTooWide { place } => ("number", place.line, place.column),
        LexFault::Oom => ("memory", 0, 0),
    }
}

fn first_fault(alloc: Global, text: &str) -> (&'static str, u32, u32) {
    match lexed(alloc, text) {
        Ok(_) => ("", 0, 0),
        Err(fault) => told(&fault),
    }
}

fn are_faults(rt: &impl Abort, alloc: Global, rows: &[(&str, &'static str, u32, u32)]) {
    for (text, wrong, line, column) in rows {
        assert_eq!(rt;
            first_fault(alloc, text),
            (*wrong, *line, *column),
            "{text:?}"
        );
    }
}

#[test]
fn finds_the_first_fault(rt: HostRuntime) {
    are_faults(
        &rt,
        rt.alloc(),
        &[
            ("#", "character", 1, 1),
            ("a\n  #", "character", 2, 3),
            ("\r#", "character", 1, 2),
            ("é", "character", 1, 1),
            ("\"é\" é", "character", 1, 5),
            ("'a'", "character", 1, 1),
            ("a & b", "character", 1, 3),
            ("a|b", "character", 1, 2),
            ("&&&", "character", 1, 3),
            ("$ \"\"", "character", 1, 1),
            ("@x", "character", 1, 1),
            ("\\", "character", 1, 1),
            ("\"a", "text", 1, 1),
            ("a \"b\nc\"", "text", 1, 3),
            ("\n \"", "text", 2, 2),
            ("/* a", "comment", 1, 1),
            ("/*/", "comment", 1, 1),
            ("1\n/**\n*", "comment", 2, 1),
            ("2147483648", "number", 1, 1),
            ("a 99999999999999999999", "number", 1, 3),
            (r#""\q""#, "character", 1, 2),
            (r#""a\x""#, "character", 1, 3),
            (r#""\"#, "character", 1, 2),
            (r#""\u12G4""#, "character", 1, 2),
            (r#""\u123""#, "character", 1, 2),
            (r#""\uD800""#, "character", 1, 2),
            (r#""\uDFFF""#, "character", 1, 2),
            ("$\"}\"", "character", 1, 3),
            ("$\"a\\q\"", "character", 1, 4),
            ("$\"{#}\"", "character", 1, 4),
            ("$\"{2147483648}\"", "number", 1, 4),
            ("$\"a", "text", 1, 1),
            ("x\n$\"a{b", "text", 2, 1),
            ("$\"{x\n}\"", "text", 1, 1),
            ("$\"{a{b}\"", "text", 1, 1),
            ("$\"{ \"a", "text", 1, 1),
            ("$\"{$\"{\n", "text", 1, 1),
            ("$\"{$\"a\"}b", "text", 1, 1),
            ("$\"\" $\"", "text", 1, 5),
            ("$\"{/* a", "text", 1, 1),
            ("$\"{/*\n*/x}\"", "text", 1, 1),
            ("$\"{x // }\"", "text", 1, 1),
            ("# \"", "character", 1, 1),
        ],
    );
}

const START: Place = Place { line: 1, column: 1 };

/// What is said of each fault.
const SAID: &[(LexFault, &str)] = &[
    (
        LexFault::BadCharacter { place: START },
        "a character that is part of no token",
    ),
    (
        LexFault::UnendedText { place: START },
        "a text that isn't closed in its line",
    ),
    (
        LexFault::UnendedComment { place: START },
        "a comment that isn't closed",
    ),
    (
        LexFault::NumberTooWide { place: START },
        "a number above 2147483647",
    ),
    (LexFault::Oom, "out of memory"),
];

#[test]
fn names_faults(rt: HostRuntime) -> Result<(), Fail> {
    let alloc = rt.alloc();
    for (fault, line) in SAID {
        assert_eq!(rt; fault.to_string(alloc)?.as_str(), *line);
    }
    Ok(())
}
