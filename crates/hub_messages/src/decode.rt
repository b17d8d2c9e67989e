// Bytes to messages.
ghost use Rattle.std.specs.Prelude.{◌≡◌, Err, IfOk};
ghost use Rattle.hub_messages.specs.declared.up.Up.{Up};
ghost use Rattle.hub_messages.specs.declared.down.Down.{Down};
ghost use Rattle.hub_messages.specs.Spelling.Spells.{SpellsUp, SpellsDown};
ghost use Rattle.hub_messages.specs.Reading.Faults.{Gives};
ghost use Rattle.hub_messages.specs.Reading.Messages.{start_in, connect_in, event_in, ack_in, up_in, started_in, connected_in, batch_in, outcome_in, refused_in, ended_in, down_in};

use crate::codes::{
    ACK, BATCH, CONNECT, CONNECTED, ENDED, EVENT, OUTCOME, REFUSED, START, STARTED, VERSION,
    fault_of, outcome_of, refusal_of,
};
use crate::fields::{end, read_carried, read_number, take_byte, take_name, take_number, take_pair};
use crate::{Bytes, Down, HubFault, Up};
use std::alloc::Global;
use text_core::take_u32;

/// The most bytes that a message has.
const MAX_BYTES: usize = 33_554_432;

/// The message of a browser that these bytes spell.
pub fn decode_up(alloc: Global, bytes: &[u8]) -> Result<Up, HubFault>
    ensures spelled { IfOk result (λ message. SpellsUp bytes.now message) }
    ensures only { IfOk result (λ message. (other : Up) → SpellsUp bytes.now other → other ≡ message) }
    ensures malformed { result ≡ Err HubFault.Malformed → (message : Up) → SpellsUp bytes.now message → ⊥ }
{
    if bytes.len() > MAX_BYTES {
        return Err(HubFault::Malformed);
    }
    read_up(alloc, bytes)
}

/// The message of the server that these bytes spell.
pub fn decode_down(alloc: Global, bytes: &[u8]) -> Result<Down, HubFault>
    ensures spelled { IfOk result (λ message. SpellsDown bytes.now message) }
    ensures only { IfOk result (λ message. (other : Down) → SpellsDown bytes.now other → other ≡ message) }
    ensures malformed { result ≡ Err HubFault.Malformed → (message : Down) → SpellsDown bytes.now message → ⊥ }
{
    if bytes.len() > MAX_BYTES {
        return Err(HubFault::Malformed);
    }
    read_down(alloc, bytes)
}

#[tactic(auto, unfolding(crate::specs::Reading::Messages::up_in))]
fn read_up(alloc: Global, bytes: &[u8]) -> Result<Up, HubFault>
    ensures { Gives (λ message. message) result (up_in bytes.now) }
{
    let (kind, rest) = take_byte(bytes)?;
    match kind {
        START => read_start(rest),
        CONNECT => read_connect(rest),
        EVENT => read_event(alloc, rest),
        ACK => read_ack(rest),
        _ => Err(HubFault::Malformed),
    }
}

#[tactic(auto, unfolding(crate::specs::Reading::Messages::start_in))]
fn read_start(bytes: &[u8]) -> Result<Up, HubFault>
    ensures { Gives (λ message. message) result (start_in bytes.now) }
{
    let (version, rest) = take_byte(bytes)?;
    if version != VERSION {
        return Err(HubFault::Malformed);
    }
    end(rest)?;
    Ok(Up::Start)
}

#[tactic(auto, unfolding(crate::specs::Reading::Messages::connect_in))]
fn read_connect(bytes: &[u8]) -> Result<Up, HubFault>
    ensures { Gives (λ message. message) result (connect_in bytes.now) }
{
    let (version, rest) = take_byte(bytes)?;
    if version != VERSION {
        return Err(HubFault::Malformed);
    }
    let ((number, secret), rest) = take_pair(rest)?;
    let ((applied, got), rest) = take_pair(rest)?;
    end(rest)?;
    Ok(Up::Connect {
        number,
        secret,
        applied,
        got,
    })
}

#[tactic(auto, unfolding(crate::specs::Reading::Messages::event_in))]
fn read_event(alloc: Global, bytes: &[u8]) -> Result<Up, HubFault>
    ensures { Gives (λ message. message) result (event_in bytes.now) }
{
    let (number, rest) = take_number(bytes)?;
    let ((handler, got), rest) = take_pair(rest)?;
    let (name, rest) = take_name(alloc, rest)?;
    let text = read_carried(alloc, rest)?;
    Ok(Up::Event {
        number,
        handler,
        got,
        name,
        text,
    })
}

#[tactic(auto, unfolding(crate::specs::Reading::Messages::ack_in))]
fn read_ack(bytes: &[u8]) -> Result<Up, HubFault>
    ensures { Gives (λ message. message) result (ack_in bytes.now) }
{
    let ((batch, got), rest) = take_pair(bytes)?;
    end(rest)?;
    Ok(Up::Ack { batch, got })
}

#[tactic(auto, unfolding(crate::specs::Reading::Messages::down_in))]
fn read_down(alloc: Global, bytes: &[u8]) -> Result<Down, HubFault>
    ensures { Gives (λ message. message) result (down_in bytes.now) }
{
    let (kind, rest) = take_byte(bytes)?;
    match kind {
        STARTED => read_started(rest),
        CONNECTED => read_connected(rest),
        BATCH => read_batch(alloc, rest),
        OUTCOME => read_outcome(rest),
        REFUSED => read_refused(rest),
        ENDED => read_ended(rest),
        _ => Err(HubFault::Malformed),
    }
}

#[tactic(auto, unfolding(crate::specs::Reading::Messages::started_in))]
fn read_started(bytes: &[u8]) -> Result<Down, HubFault>
    ensures { Gives (λ message. message) result (started_in bytes.now) }
{
    let ((number, secret), rest) = take_pair(bytes)?;
    end(rest)?;
    Ok(Down::Started { number, secret })
}

#[tactic(auto, unfolding(crate::specs::Reading::Messages::connected_in))]
fn read_connected(bytes: &[u8]) -> Result<Down, HubFault>
    ensures { Gives (λ message. message) result (connected_in bytes.now) }
{
    let ((sent, last), rest) = take_pair(bytes)?;
    end(rest)?;
    Ok(Down::Connected { sent, last })
}

#[tactic(auto, unfolding(crate::specs::Reading::Messages::batch_in))]
fn read_batch(alloc: Global, bytes: &[u8]) -> Result<Down, HubFault>
    ensures { Gives (λ message. message) result (batch_in bytes.now) }
{
    let (number, rest) = take_number(bytes)?;
    let size = take_u32(rest, 0).ok_or(HubFault::Malformed)?;
    let batch = &rest[4..];
    if batch.len() != size as usize {
        return Err(HubFault::Malformed);
    }
    let batch = batch.to_vec(alloc).map_err(|_| HubFault::Oom)?;
    Ok(Down::Batch {
        number,
        bytes: Bytes::new(batch),
    })
}

#[tactic(auto, unfolding(crate::specs::Reading::Messages::outcome_in))]
fn read_outcome(bytes: &[u8]) -> Result<Down, HubFault>
    ensures { Gives (λ message. message) result (outcome_in bytes.now) }
{
    let (event, rest) = take_number(bytes)?;
    let (code, rest) = take_byte(rest)?;
    let value = read_number(rest)?;
    let outcome = outcome_of(code, value).ok_or(HubFault::Malformed)?;
    Ok(Down::Outcome { event, outcome })
}

#[tactic(auto, unfolding(crate::specs::Reading::Messages::refused_in))]
fn read_refused(bytes: &[u8]) -> Result<Down, HubFault>
    ensures { Gives (λ message. message) result (refused_in bytes.now) }
{
    let (code, rest) = take_byte(bytes)?;
    let value = read_number(rest)?;
    let refusal = refusal_of(code, value).ok_or(HubFault::Malformed)?;
    Ok(Down::Refused(refusal))
}

#[tactic(auto, unfolding(crate::specs::Reading::Messages::ended_in))]
fn read_ended(bytes: &[u8]) -> Result<Down, HubFault>
    ensures { Gives (λ message. message) result (ended_in bytes.now) }
{
    let (code, rest) = take_byte(bytes)?;
    let fault = fault_of(code).ok_or(HubFault::Malformed)?;
    end(rest)?;
    Ok(Down::Ended(fault))
}
