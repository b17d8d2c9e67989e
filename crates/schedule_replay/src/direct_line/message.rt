// Messages on a line, as bytes.
ghost use Rattle.std.specs.Prelude.{◌≡◌, ◌++◌, ℕ, List, map, OnOk};
ghost use Rattle.std.specs.List.{AllZip};
ghost use Rattle.hub_messages.specs.Spelling.Spells.{SpellsDown};
ghost use Rattle.client_core.specs.Pieces.{pieces_of};
ghost use Rattle.schedule_replay.specs.Every.{Every};
ghost use Rattle.schedule_replay.specs.Line.InStep.{IsShortReply};
ghost use Rattle.schedule_replay.specs.Line.Standing.{SpelledDown};

use client_core::Ups;
use hub_messages::{Bytes, Down, encode_down};
use std::alloc::Global;
use text_core::Oom;

/// A message, by its direction.
#[derive(Debug, Drop)]
pub enum Message {
    Up(Bytes),
    Down(Bytes),
}

/// The browser sends these.
pub fn send_up(messages: &mut Vec<Message>, ups: Ups) -> Result<(), Oom>
    ensures { OnOk result (messages.new.items ≡ messages.old.items ++ map Message.Up (pieces_of ups)) }
{
    for up in ups {
        messages.push(Message::Up(Bytes::new(up)))?;
    }
    Ok(())
}

/// The server sends these.
pub fn send_down(alloc: Global, messages: &mut Vec<Message>, replies: &[Down]) -> Result<(), Oom>
    requires { Every IsShortReply replies.now }
    ensures { OnOk result (SpelledDown messages.old.items replies.now messages.new.items) }
{
    for reply in replies {
        let bytes = encode_down(alloc, reply)?;
        messages.push(Message::Down(Bytes::new(bytes)))?;
    }
    Ok(())
}
