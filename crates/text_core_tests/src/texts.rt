// What the definitions come to at examples, and that each call can succeed.
use std::alloc::Global;
use std::cmp::Ordering;
use std::process::Abort;
use std::test::Fail;
use text_core::{Oom, Place, Txt, read_i32, show_i32};

const NUMBERS: &[(&str, Option<i32>)] = &[
    ("", None),
    ("-", None),
    ("0", Some(0)),
    ("-0", Some(0)),
    ("007", Some(7)),
    ("-12", Some(-12)),
    ("+5", None),
    ("--5", None),
    ("-+5", None),
    (" 5", None),
    ("5 ", None),
    ("1a", None),
    ("1_000", None),
    ("१२", None),
    ("2147483647", Some(2_147_483_647)),
    ("2147483648", None),
    ("-2147483648", Some(-2_147_483_648)),
    ("-2147483649", None),
    ("1234567890123456789012345678901234567890", None),
    ("0000000000000000000000000000000000000009", Some(9)),
];

#[test]
fn reads_numbers(rt: HostRuntime) -> Result<(), Fail> {
    let alloc = rt.alloc();
    for (text, number) in NUMBERS {
        let given = Txt::from_str(alloc, text)?;
        assert_eq!(rt; read_i32(&given), *number, "{text:?}");
    }
    Ok(())
}

const SHOWN: &[(i32, &str)] = &[
    (0, "0"),
    (1, "1"),
    (-1, "-1"),
    (120, "120"),
    (2_147_483_647, "2147483647"),
    (-2_147_483_648, "-2147483648"),
];

#[test]
fn shows_numbers(rt: HostRuntime) -> Result<(), Fail> {
    let alloc = rt.alloc();
    for (number, text) in SHOWN {
        assert_eq!(rt; show_i32(alloc, *number)?.as_str(), *text);
    }
    Ok(())
}

fn pushed(alloc: Global) -> Result<Txt, Oom> {
    let mut text = Txt::new(alloc);
    text.push('é')?;
    text.push_str("a日")?;
    text.push_text(&Txt::from_str(alloc, "𝄞!")?)?;
    Ok(text)
}

fn is_made(rt: &impl Abort, text: &Txt, expected: &str) -> Result<(), Fail> {
    assert_eq!(rt; text.as_str(), expected);
    assert_eq!(rt; text.clone()?.as_str(), expected);
    Ok(())
}

#[test]
fn makes_texts(rt: HostRuntime) -> Result<(), Fail> {
    let alloc = rt.alloc();
    is_made(&rt, &Txt::new(alloc), "")?;
    is_made(&rt, &Txt::from_str(alloc, "日本")?, "日本")?;
    is_made(&rt, &Txt::from_latin1(alloc, b"caf\xE9\xFF")?, "caféÿ")?;
    is_made(&rt, &Txt::from(String::from_str(alloc, "naïve")?), "naïve")?;
    is_made(&rt, &pushed(alloc)?, "éa日𝄞!")
}

const CHARACTERS: &[(&str, Option<char>, &[char])] = &[
    ("", None, &[]),
    ("a", Some('a'), &['a']),
    ("é日𝄞", Some('é'), &['é', '日', '𝄞']),
];

#[test]
fn shows_characters(rt: HostRuntime) -> Result<(), Fail> {
    let alloc = rt.alloc();
    for (text, first, characters) in CHARACTERS {
        let given = Txt::from_str(alloc, text)?;
        assert_eq!(rt; given.first(), *first, "{text:?}");
        assert_eq!(rt; given.to_chars(alloc)?.as_slice(), *characters, "{text:?}");
    }
    Ok(())
}

// Texts, whether each is the word, and whether it is listed.
const WORDS: &[(&str, bool, bool)] = &[
    ("", false, false),
    ("né", true, true),
    ("br", false, true),
    ("BR", false, false),
    ("b", false, false),
    ("né ", false, false),
];

#[test]
fn knows_words(rt: HostRuntime) -> Result<(), Fail> {
    let alloc = rt.alloc();
    for (text, is_the_word, is_listed) in WORDS {
        let given = Txt::from_str(alloc, text)?;
        assert_eq!(rt; given.is("né"), *is_the_word, "{text:?}");
        assert_eq!(rt; given.is_one_of(&["br", "né"]), *is_listed, "{text:?}");
        assert!(rt; !given.is_one_of(&[]), "{text:?}");
    }
    Ok(())
}

fn is_before(rt: &impl Abort, low: &Txt, high: &Txt) -> Result<(), Fail> {
    assert!(rt; *low < *high, "{low:?}, {high:?}");
    assert_eq!(rt; low.cmp(high), Ordering::Less);
    assert_eq!(rt; high.cmp(low), Ordering::Greater);
    assert_eq!(rt; low.cmp(low), Ordering::Equal);
    assert!(rt; *low == low.clone()? && *low != *high, "{low:?}, {high:?}");
    Ok(())
}

const RISING: &[(&str, &str)] = &[
    ("", "a"),
    ("a", "ab"),
    ("ab", "b"),
    ("Z", "a"),
    ("10", "9"),
    ("z", "é"),
    // In the order of UTF-16 these stand the other way round.
    ("\u{FFFD}", "\u{10000}"),
];

#[test]
fn orders_texts(rt: HostRuntime) -> Result<(), Fail> {
    let alloc = rt.alloc();
    for (low, high) in RISING {
        is_before(
            &rt,
            &Txt::from_str(alloc, low)?,
            &Txt::from_str(alloc, high)?,
        )?;
    }
    Ok(())
}

#[test]
fn orders_places(rt: HostRuntime) {
    for (low, high) in [((1, 9), (2, 1)), ((2, 1), (2, 3))] {
        let low = Place {
            line: low.0,
            column: low.1,
        };
        let high = Place {
            line: high.0,
            column: high.1,
        };
        assert!(rt; low < high, "{low:?}, {high:?}");
        assert_eq!(rt; high.cmp(&low), Ordering::Greater);
    }
}

#[test]
fn tells_of_memory(rt: HostRuntime) -> Result<(), Fail> {
    let alloc = rt.alloc();
    assert_eq!(rt; Oom.to_string(alloc)?.as_str(), "out of memory");
    Ok(())
}
