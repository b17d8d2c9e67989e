// Messages to bytes.
ghost use Rattle.std.specs.Prelude.{◌≡◌, ◌≤◌, ◌++◌, length, IfOk, OnOk};
ghost use Rattle.hub_messages.specs.Spelling.Messages.{up_bytes, down_bytes};
ghost use Rattle.hub_messages.specs.Spelling.Spells.{IsUp, IsDown, SpellsUp, SpellsDown};

use crate::codes::{
    ACK, BATCH, CONNECT, CONNECTED, ENDED, EVENT, OUTCOME, REFUSED, START, STARTED, VERSION,
    fault_code, outcome_code, refusal_code,
};
use crate::fields::{put_bytes, put_carried, put_coded, put_name, put_numbers};
use crate::{Down, Up};
use std::alloc::Global;
use text_core::{Oom, put_u32};

/// The bytes of a message from a browser: docs/DEFINITIONS.md, "Hub messages".
pub fn encode_up(alloc: Global, message: &Up) -> Result<Vec<u8>, Oom>
    requires { length (up_bytes message.now) ≤ 33554432 }
    ensures { IfOk result (λ bytes. SpellsUp bytes.items message.now) }
{
    let mut out = Vec::new(alloc);
    put_up(&mut out, message)?;
    Ok(out)
}

/// The bytes of a message from the server: docs/DEFINITIONS.md, "Hub messages".
pub fn encode_down(alloc: Global, message: &Down) -> Result<Vec<u8>, Oom>
    requires { length (down_bytes message.now) ≤ 33554432 }
    ensures { IfOk result (λ bytes. SpellsDown bytes.items message.now) }
{
    let mut out = Vec::new(alloc);
    put_down(&mut out, message)?;
    Ok(out)
}

#[tactic(auto, unfolding(crate::specs::Spelling::Messages::up_bytes, crate::specs::Spelling::Spells::IsUp))]
fn put_up(out: &mut Vec<u8>, message: &Up) -> Result<(), Oom>
    requires { length (up_bytes message.now) ≤ 33554432 }
    ensures spelled { OnOk result (out.new.items ≡ out.old.items ++ up_bytes message.now) }
    ensures sayable { OnOk result (IsUp message.now) }
{
    match message {
        Up::Start => put_bytes(out, &[START, VERSION]),
        Up::Connect {
            number,
            secret,
            applied,
            got,
        } => {
            put_bytes(out, &[CONNECT, VERSION])?;
            put_numbers(out, &[*number, *secret, *applied, *got])
        }
        Up::Event {
            number,
            handler,
            got,
            name,
            text,
        } => {
            put_bytes(out, &[EVENT])?;
            put_numbers(out, &[*number, *handler, *got])?;
            put_name(out, name)?;
            put_carried(out, text)
        }
        Up::Ack { batch, got } => {
            put_bytes(out, &[ACK])?;
            put_numbers(out, &[*batch, *got])
        }
    }
}

#[tactic(auto, unfolding(crate::specs::Spelling::Messages::down_bytes, crate::specs::Spelling::Spells::IsDown))]
fn put_down(out: &mut Vec<u8>, message: &Down) -> Result<(), Oom>
    requires { length (down_bytes message.now) ≤ 33554432 }
    ensures spelled { OnOk result (out.new.items ≡ out.old.items ++ down_bytes message.now) }
    ensures sayable { OnOk result (IsDown message.now) }
{
    match message {
        Down::Started { number, secret } => {
            put_bytes(out, &[STARTED])?;
            put_numbers(out, &[*number, *secret])
        }
        Down::Connected { sent, last } => {
            put_bytes(out, &[CONNECTED])?;
            put_numbers(out, &[*sent, *last])
        }
        Down::Batch { number, bytes } => {
            put_bytes(out, &[BATCH])?;
            put_numbers(out, &[*number])?;
            put_u32(out, bytes.as_slice().len() as u32)?;
            put_bytes(out, bytes.as_slice())
        }
        Down::Outcome { event, outcome } => {
            put_bytes(out, &[OUTCOME])?;
            put_numbers(out, &[*event])?;
            let (code, value) = outcome_code(*outcome);
            put_coded(out, code, value)
        }
        Down::Refused(refusal) => {
            put_bytes(out, &[REFUSED])?;
            let (code, value) = refusal_code(*refusal);
            put_coded(out, code, value)
        }
        Down::Ended(fault) => put_bytes(out, &[ENDED, fault_code(*fault)]),
    }
}
