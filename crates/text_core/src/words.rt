// Numbers as bytes, the least byte first.
ghost use Rattle.std.specs.Prelude.{◌≡◌, ◌++◌, ℕ, List, Some, drop, OnOk, OnErr, length};
ghost use Rattle.text_core.specs.Words.{u32_bytes, u64_bytes, u32_at, u64_at};

use crate::Oom;
use byteorder::{ByteOrder, LittleEndian};

/// Appends the four bytes of a number, the least first.
#[tactic(auto, unfolding(crate::specs::Words::u32_bytes))]
pub fn put_u32(out: &mut Vec<u8>, value: u32) -> Result<(), Oom>
    ensures ok { OnOk result (out.new.items ≡ out.old.items ++ u32_bytes value) }
    ensures err { OnErr result (out.new.items ≡ out.old.items) }
    ensures reads_back { (rest : List ℕ)
        → OnOk result (u32_at (drop (length out.old.items) (out.new.items ++ rest)) ≡ Some value) }
{
    let mut bytes = [0; 4];
    LittleEndian::write_u32(&mut bytes, value);
    out.extend_from_slice(&bytes)?;
    Ok(())
}

/// Appends the eight bytes of a number, the least first.
#[tactic(auto, unfolding(crate::specs::Words::u64_bytes))]
pub fn put_u64(out: &mut Vec<u8>, value: u64) -> Result<(), Oom>
    ensures ok { OnOk result (out.new.items ≡ out.old.items ++ u64_bytes value) }
    ensures err { OnErr result (out.new.items ≡ out.old.items) }
    ensures reads_back { (rest : List ℕ)
        → OnOk result (u64_at (drop (length out.old.items) (out.new.items ++ rest)) ≡ Some value) }
{
    let mut bytes = [0; 8];
    LittleEndian::write_u64(&mut bytes, value);
    out.extend_from_slice(&bytes)?;
    Ok(())
}

/// The number whose four bytes stand at a place, or `None` where fewer stand there.
#[tactic(auto, unfolding(crate::specs::Words::u32_at))]
pub fn take_u32(bytes: &[u8], at: usize) -> Option<u32>
    ensures { result ≡ u32_at (drop at bytes.now) }
{
    let word = bytes.get(at..)?;
    if word.len() < 4 {
        return None;
    }
    Some(LittleEndian::read_u32(word))
}

/// The number whose eight bytes stand at a place, or `None` where fewer stand there.
#[tactic(auto, unfolding(crate::specs::Words::u64_at))]
pub fn take_u64(bytes: &[u8], at: usize) -> Option<u64>
    ensures { result ≡ u64_at (drop at bytes.now) }
{
    let word = bytes.get(at..)?;
    if word.len() < 8 {
        return None;
    }
    Some(LittleEndian::read_u64(word))
}
