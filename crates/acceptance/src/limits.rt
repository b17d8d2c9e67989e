// Files at the limits of the form and of the program.
use crate::support::{page, replayed};
use std::alloc::Global;
use std::test::Fail;
use text_core::Oom;

/// What stands round the value of an assignment. At the value two braces are open, and `=` counts in the inner one.
const BEGIN: &str = "@code{int n=1;void A(){n=";

const END: &str = ";}}";

fn repeat(text: &str, count: usize, out: &mut String) -> Result<(), Oom> {
    for _ in 0..count {
        out.push_str(text)?;
    }
    Ok(())
}

/// A text that is made of these, each so many times.
fn made_of(alloc: Global, parts: &[(&str, usize)]) -> Result<String, Oom> {
    let mut text = String::new(alloc);
    for (part, count) in parts {
        repeat(part, *count, &mut text)?;
    }
    Ok(text)
}

/// The parts of a file, and the status of its run.
const SIZES: &[(&[(&str, usize)], u8)] = &[
    (&[("a", 65_536)], 0),
    (&[("a", 65_537)], 1),
    (&[("a", 1_048_576)], 1),
    (&[("a", 1_048_577)], 8),
    (&[("<b>", 100), ("</b>", 100)], 0),
    (&[("<b>", 101), ("</b>", 101)], 1),
    (&[("<b></b>", 1_000)], 0),
    (&[("<b></b>", 1_001)], 1),
    (&[("<b>x</b>", 500)], 0),
    (&[("<b>x</b>", 500), ("x", 1)], 1),
    (&[("@n ", 500), ("@code{int n=1;}", 1)], 0),
    (&[("@n ", 501), ("@code{int n=1;}", 1)], 1),
    (&[(BEGIN, 1), ("(", 97), ("1", 1), (")", 97), (END, 1)], 0),
    (&[(BEGIN, 1), ("(", 98), ("1", 1), (")", 98), (END, 1)], 1),
    (&[(BEGIN, 1), ("1+", 97), ("1", 1), (END, 1)], 0),
    (&[(BEGIN, 1), ("1-", 98), ("1", 1), (END, 1)], 1),
    (
        &[
            (BEGIN, 1),
            ("1*", 97),
            ("1;n=", 1),
            ("1*", 97),
            ("1", 1),
            (END, 1),
        ],
        0,
    ),
    (&[(BEGIN, 1), ("1+(", 49), ("1", 1), (")", 49), (END, 1)], 1),
    (&[(BEGIN, 1), ("1+(", 48), ("1", 1), (")", 48), (END, 1)], 0),
    (&[(BEGIN, 1), ("1;n=", 1_000), ("1", 1), (END, 1)], 0),
];

fn status_of(alloc: Global, parts: &[(&str, usize)]) -> Result<u8, Oom> {
    let text = made_of(alloc, parts)?;
    Ok(replayed(alloc, "A.razor", text.as_str())?.status)
}

#[test]
fn keeps_limits(rt: HostRuntime) -> Result<(), Fail> {
    for (parts, status) in SIZES {
        assert_eq!(rt; status_of(rt.alloc(), parts)?, *status, "at {parts:?}");
    }
    Ok(())
}

#[test]
fn says_which_file_is_too_large(rt: HostRuntime) -> Result<(), Fail> {
    let alloc = rt.alloc();
    let ran = page(alloc, made_of(alloc, &[("a", 1_048_577)])?.as_str())?;
    assert_eq!(rt; ran.bytes.as_slice(), b"too large A.razor\n".as_slice());
    Ok(())
}
