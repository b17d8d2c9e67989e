// Fields of messages, at the end of bytes and at the front of them.
ghost use Rattle.std.specs.Prelude.{◌≡◌, ◌<◌, ◌^◌, ◌++◌, length, encode_utf8_all, OnOk};
ghost use Rattle.hub_messages.specs.Spelling.Fields.{numbers, carried, coded};
ghost use Rattle.text_core.specs.TextBytes.{text_bytes};
ghost use Rattle.hub_messages.specs.Spelling.Spells.{IsText, IsCarried};
ghost use Rattle.hub_messages.specs.Reading.Faults.{Gives};
ghost use Rattle.hub_messages.specs.Reading.Fields.{byte_at, number_at, pair_at, name_at, nothing_in, carried_in, number_in};

use crate::HubFault;
use std::alloc::Global;
use text_core::{Oom, Txt, put_text, put_u64, take_text, take_u64};

/// Appends numbers, one after another.
pub(crate) fn put_numbers(out: &mut Vec<u8>, values: &[u64]) -> Result<(), Oom>
    ensures { OnOk result (out.new.items ≡ out.old.items ++ numbers values.now) }
{
    for value in values {
        put_u64(out, *value)?;
    }
    Ok(())
}

/// Appends bytes.
pub(crate) fn put_bytes(out: &mut Vec<u8>, bytes: &[u8]) -> Result<(), Oom>
    ensures { OnOk result (out.new.items ≡ out.old.items ++ bytes.now) }
{
    out.extend_from_slice(bytes)?;
    Ok(())
}

/// Appends a text.
pub(crate) fn put_name(out: &mut Vec<u8>, name: &Txt) -> Result<(), Oom>
    requires { length (encode_utf8_all name.now) < 2 ^ 28 }
    ensures spelled { OnOk result (out.new.items ≡ out.old.items ++ text_bytes name.now) }
    ensures sayable { OnOk result (IsText name.now) }
{
    put_text(out, name)
}

/// Appends 1 and the text, or 0 where there is none.
pub(crate) fn put_carried(out: &mut Vec<u8>, text: &Option<Txt>) -> Result<(), Oom>
    requires { length (carried text.now) < 2 ^ 28 }
    ensures spelled { OnOk result (out.new.items ≡ out.old.items ++ carried text.now) }
    ensures sayable { OnOk result (IsCarried text.now) }
{
    match text {
        None => put_bytes(out, &[0]),
        Some(text) => {
            put_bytes(out, &[1])?;
            put_name(out, text)
        }
    }
}

/// Appends a code and the number that comes with it.
pub(crate) fn put_coded(out: &mut Vec<u8>, code: u8, value: Option<u64>) -> Result<(), Oom>
    ensures { OnOk result (out.new.items ≡ out.old.items ++ coded (code, value)) }
{
    out.push(code)?;
    match value {
        None => Ok(()),
        Some(value) => put_u64(out, value),
    }
}

/// A byte, and what follows it.
pub(crate) fn take_byte(bytes: &[u8]) -> Result<(u8, &[u8]), HubFault>
    ensures { Gives (λ taken. (taken.0, taken.1.now)) result (byte_at bytes.now) }
{
    match bytes {
        [byte, rest @ ..] => Ok((*byte, rest)),
        [] => Err(HubFault::Malformed),
    }
}

/// A number, and what follows it.
#[tactic(auto, unfolding(crate::specs::Reading::Fields::number_at))]
pub(crate) fn take_number(bytes: &[u8]) -> Result<(u64, &[u8]), HubFault>
    ensures { Gives (λ taken. (taken.0, taken.1.now)) result (number_at bytes.now) }
{
    let value = take_u64(bytes, 0).ok_or(HubFault::Malformed)?;
    Ok((value, &bytes[8..]))
}

/// Two numbers, and what follows them.
#[tactic(auto, unfolding(crate::specs::Reading::Fields::pair_at))]
pub(crate) fn take_pair(bytes: &[u8]) -> Result<((u64, u64), &[u8]), HubFault>
    ensures { Gives (λ taken. (taken.0, taken.1.now)) result (pair_at bytes.now) }
{
    let (first, rest) = take_number(bytes)?;
    let (second, rest) = take_number(rest)?;
    Ok(((first, second), rest))
}

/// A text, and what follows it.
#[tactic(auto, unfolding(crate::specs::Reading::Fields::name_at))]
pub(crate) fn take_name(alloc: Global, bytes: &[u8]) -> Result<(Txt, &[u8]), HubFault>
    ensures { Gives (λ taken. (taken.0, taken.1.now)) result (name_at bytes.now) }
{
    let (name, end) = take_text(alloc, bytes, 0)?;
    Ok((name, &bytes[end..]))
}

/// Nothing follows the last field.
pub(crate) fn end(bytes: &[u8]) -> Result<(), HubFault>
    ensures { Gives (λ nothing. nothing) result (nothing_in bytes.now) }
{
    match bytes {
        [] => Ok(()),
        _ => Err(HubFault::Malformed),
    }
}

/// What an event carries: 1 and a text, or 0.
#[tactic(auto, unfolding(crate::specs::Reading::Fields::carried_in))]
pub(crate) fn read_carried(alloc: Global, bytes: &[u8]) -> Result<Option<Txt>, HubFault>
    ensures { Gives (λ text. text) result (carried_in bytes.now) }
{
    let (flag, rest) = take_byte(bytes)?;
    match flag {
        0 => {
            end(rest)?;
            Ok(None)
        }
        1 => {
            let (text, rest) = take_name(alloc, rest)?;
            end(rest)?;
            Ok(Some(text))
        }
        _ => Err(HubFault::Malformed),
    }
}

/// The number that comes with a code, if one does.
#[tactic(auto, unfolding(crate::specs::Reading::Fields::number_in))]
pub(crate) fn read_number(bytes: &[u8]) -> Result<Option<u64>, HubFault>
    ensures { Gives (λ value. value) result (number_in bytes.now) }
{
    if bytes.is_empty() {
        return Ok(None);
    }
    let (value, rest) = take_number(bytes)?;
    end(rest)?;
    Ok(Some(value))
}
