// Texts as bytes: the length of the text in UTF-8, and the UTF-8.
ghost use Rattle.std.specs.Prelude.{◌≡◌, ℕ, ◌+◌, ◌<◌, ◌≤◌, ◌^◌, List, ◌++◌, length, take, drop, Ok, slice_range, encode_utf8_all, OnOk, OnErr, IfOk};
ghost use Rattle.text_core.specs.LengthGroups.{groups, length_at};
ghost use Rattle.text_core.specs.TextBytes.{text_bytes, text_at, Gives};

use crate::{Oom, Txt, WireFault};
use std::alloc::Global;

/// How many groups of a length may follow the first.
const MORE_GROUPS: u8 = 3;

// Appends a length in groups, of which so many may follow the first. Where memory runs out, some may stand there.
fn put_length(out: &mut Vec<u8>, more: u8, size: u32) -> Result<(), Oom>
    requires most { more ≤ 3 }
    requires fits { size < 128 ^ (more + 1) }
    ensures ok { OnOk result (out.new.items ≡ out.old.items ++ groups more size) }
    ensures err { OnErr result (take (length out.old.items) out.new.items ≡ out.old.items) }
{
    if more == 0 {
        out.push(size as u8)?;
        return Ok(());
    }
    if size < 128 {
        out.push(size as u8)?;
        return Ok(());
    }
    out.push((size % 128 + 128) as u8)?;
    put_length(out, more - 1, size / 128)
}

// The length at the front, of whose groups so many may follow the first, and several may stand before; and what
// follows it.
fn take_length(bytes: &[u8], more: u8, several: bool) -> Result<(u32, &[u8]), WireFault>
    requires { more ≤ 3 }
    ensures value { Gives (λ found. (found.0, found.1.now)) result (length_at more several bytes.now) }
    ensures small { IfOk result (λ found. found.0 < 128 ^ (more + 1)) }
{
    let [group, rest @ ..] = bytes else {
        return Err(WireFault::Short);
    };
    if several && *group == 0 {
        return Err(WireFault::BadLength);
    }
    if *group < 128 {
        return Ok((u32::from(*group), rest));
    }
    if more == 0 {
        return Err(WireFault::BadLength);
    }
    let (size, rest) = take_length(rest, more - 1, true)?;
    Ok((u32::from(*group - 128) + 128 * size, rest))
}

// The text whose bytes stand at the front, and what follows it.
#[tactic(auto, unfolding(crate::specs::TextBytes::text_at))]
fn text_in_front(alloc: Global, bytes: &[u8]) -> Result<(Txt, &[u8]), WireFault>
    ensures { Gives (λ found. (found.0, found.1.now)) result (text_at bytes.now) }
{
    let (size, content) = take_length(bytes, MORE_GROUPS, false)?;
    let size = size as usize;
    if content.len() < size {
        return Err(WireFault::Short);
    }
    let (text, rest) = content.split_at(size);
    match str::from_utf8(text) {
        Ok(text) => Ok((Txt::from_str(alloc, text)?, rest)),
        Err(_) => Err(WireFault::BadUtf8),
    }
}

// Appends UTF-8 and its length before it. Where memory runs out, some of these bytes may stand there.
fn append_content(out: &mut Vec<u8>, content: &[u8]) -> Result<(), Oom>
    requires { length content.now < 2 ^ 28 }
    ensures ok { OnOk result (out.new.items ≡ out.old.items ++ (groups 3 (length content.now) ++ content.now)) }
    ensures err { OnErr result (take (length out.old.items) out.new.items ≡ out.old.items) }
{
    put_length(out, MORE_GROUPS, content.len() as u32)?;
    out.extend_from_slice(content)?;
    Ok(())
}

/// Appends the bytes of a text: its length, and its UTF-8.
#[tactic(auto, unfolding(crate::specs::TextBytes::text_bytes))]
pub fn put_text(out: &mut Vec<u8>, text: &Txt) -> Result<(), Oom>
    requires { length (encode_utf8_all text.now) < 2 ^ 28 }
    ensures ok { OnOk result (out.new.items ≡ out.old.items ++ text_bytes text.now) }
    ensures err { OnErr result (out.new.items ≡ out.old.items) }
    ensures reads_back { (rest : List ℕ)
        → OnOk result (text_at (drop (length out.old.items) (out.new.items ++ rest)) ≡ Ok (text.now, rest)) }
{
    let before = out.len();
    let put = append_content(out, text.as_str().as_bytes());
    if put.is_err() {
        out.truncate(before);
    }
    put
}

/// The text whose bytes stand at a place, and the place behind them; or the first fault of these bytes, in the order of
/// `WireFault`.
pub fn take_text(alloc: Global, bytes: &[u8], at: usize) -> Result<(Txt, usize), WireFault>
    ensures taken { Gives (λ taken. (taken.0, drop taken.1 bytes.now)) result (text_at (drop at bytes.now)) }
    ensures spelled { IfOk result (λ taken. slice_range bytes.now at taken.1 ≡ text_bytes taken.0) }
    ensures within { IfOk result (λ taken. (at ≤ taken.1) × (taken.1 ≤ length bytes.now)) }
{
    let Some(rest) = bytes.get(at..) else {
        return Err(WireFault::Short);
    };
    let (text, behind) = text_in_front(alloc, rest)?;
    Ok((text, bytes.len() - behind.len()))
}
