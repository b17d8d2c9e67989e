// Bytes of numbers and texts, by hand, and that each call can succeed.
use std::alloc::Global;
use std::process::Abort;
use std::test::Fail;
use text_core::{Txt, WireFault, put_text, put_u32, put_u64, take_text, take_u32, take_u64};

fn puts_32(rt: &impl Abort, alloc: Global, value: u32, bytes: &[u8; 4]) -> Result<(), Fail> {
    let mut out = [9].to_vec(alloc)?;
    put_u32(&mut out, value)?;
    assert_eq!(rt; out.len(), 5);
    assert_eq!(rt; &out[1..], bytes.as_slice());
    assert_eq!(rt; take_u32(&out, 1), Some(value));
    assert_eq!(rt; take_u32(&out, 2), None);
    assert_eq!(rt; take_u32(&out, 6), None);
    Ok(())
}

fn puts_64(rt: &impl Abort, alloc: Global, value: u64, bytes: &[u8; 8]) -> Result<(), Fail> {
    let mut out = [9].to_vec(alloc)?;
    put_u64(&mut out, value)?;
    assert_eq!(rt; out.len(), 9);
    assert_eq!(rt; &out[1..], bytes.as_slice());
    assert_eq!(rt; take_u64(&out, 1), Some(value));
    assert_eq!(rt; take_u64(&out, 2), None);
    Ok(())
}

#[test]
fn puts_and_takes_numbers(rt: HostRuntime) -> Result<(), Fail> {
    let alloc = rt.alloc();
    puts_32(&rt, alloc, 0, &[0; 4])?;
    puts_32(&rt, alloc, 1, &[1, 0, 0, 0])?;
    puts_32(&rt, alloc, 0x0403_0201, &[1, 2, 3, 4])?;
    puts_32(&rt, alloc, 0xFFFF_FFFF, &[0xFF; 4])?;
    puts_64(&rt, alloc, 1, &[1, 0, 0, 0, 0, 0, 0, 0])?;
    puts_64(&rt, alloc, 0x0807_0605_0403_0201, &[1, 2, 3, 4, 5, 6, 7, 8])?;
    puts_64(&rt, alloc, 0xFFFF_FFFF_FFFF_FFFF, &[0xFF; 8])
}

fn repeated(alloc: Global, count: usize) -> Result<Txt, Fail> {
    let mut text = Txt::new(alloc);
    for _ in 0..count {
        text.push('a')?;
    }
    Ok(text)
}

const GROUPS: &[(usize, &[u8])] = &[
    (0, &[0x00]),
    (1, &[0x01]),
    (127, &[0x7F]),
    (128, &[0x80, 0x01]),
    (16_383, &[0xFF, 0x7F]),
    (16_384, &[0x80, 0x80, 0x01]),
    (2_097_151, &[0xFF, 0xFF, 0x7F]),
];

#[test]
fn puts_lengths_in_groups(rt: HostRuntime) -> Result<(), Fail> {
    let alloc = rt.alloc();
    for (length, groups) in GROUPS {
        let text = repeated(alloc, *length)?;
        let mut out = Vec::new(alloc);
        assert!(rt; text.as_str().len() < 1 << 28);
        put_text(&mut out, &text)?;
        assert!(rt; out.starts_with(groups), "{length}");
        assert_eq!(rt; Some(out.len()), groups.len().checked_add(*length));
        let (taken, end) = take_text(alloc, &out, 0)?;
        assert!(rt; taken == text);
        assert_eq!(rt; end, out.len());
    }
    Ok(())
}

const TEXTS: &[(&str, &[u8])] = &[
    ("", &[0]),
    ("onclick", &[7, 0x6F, 0x6E, 0x63, 0x6C, 0x69, 0x63, 0x6B]),
    ("é𝄞", &[6, 0xC3, 0xA9, 0xF0, 0x9D, 0x84, 0x9E]),
];

#[test]
fn puts_and_takes_texts(rt: HostRuntime) -> Result<(), Fail> {
    let alloc = rt.alloc();
    for (text, bytes) in TEXTS {
        let text = Txt::from_str(alloc, text)?;
        let mut out = [9].to_vec(alloc)?;
        assert!(rt; text.as_str().len() < 1 << 28);
        put_text(&mut out, &text)?;
        assert!(rt; out.len() > 1);
        assert_eq!(rt; &out[1..], *bytes);
        let end = out.len();
        out.push(9)?;
        let (taken, place) = take_text(alloc, &out, 1)?;
        assert!(rt; taken == text);
        assert_eq!(rt; place, end);
    }
    Ok(())
}

const NO_TEXTS: &[(&[u8], usize, WireFault)] = &[
    (&[0x80, 0x80, 0x80, 0x80, 0x01], 0, WireFault::BadLength),
    (&[0x80, 0x80, 0x80, 0x80], 0, WireFault::BadLength),
    (&[0x80, 0x00], 0, WireFault::BadLength),
    (&[0x81, 0x80, 0x00], 0, WireFault::BadLength),
    (&[0xFF, 0xFF, 0xFF, 0x00], 0, WireFault::BadLength),
    (&[], 0, WireFault::Short),
    (&[0x00], 2, WireFault::Short),
    (&[0x80], 0, WireFault::Short),
    (&[0x80, 0x80, 0x80], 0, WireFault::Short),
    (&[0xFF, 0xFF, 0xFF, 0x7F], 0, WireFault::Short),
    (&[0x02, 0x61], 0, WireFault::Short),
    (&[0x02, 0xFF], 0, WireFault::Short),
    (&[0x01, 0xFF, 0x00], 0, WireFault::BadUtf8),
    (&[0x03, 0xED, 0xA0, 0x80], 0, WireFault::BadUtf8),
];

#[test]
fn refuses_bytes_of_no_text(rt: HostRuntime) -> Result<(), Fail> {
    let alloc = rt.alloc();
    for (bytes, at, fault) in NO_TEXTS {
        assert_eq!(rt;
            take_text(alloc, bytes, *at).err(),
            Some(*fault),
            "{bytes:?}"
        );
    }
    Ok(())
}

const MESSAGES: &[(WireFault, &str)] = &[
    (
        WireFault::BadLength,
        "a text's length is not in its shortest form",
    ),
    (WireFault::Short, "the bytes end before the text does"),
    (WireFault::BadUtf8, "a text is not UTF-8"),
    (WireFault::Oom, "out of memory"),
];

#[test]
fn tells_of_faults(rt: HostRuntime) -> Result<(), Fail> {
    let alloc = rt.alloc();
    for (fault, message) in MESSAGES {
        assert_eq!(rt; fault.to_string(alloc)?.as_str(), *message);
    }
    Ok(())
}
