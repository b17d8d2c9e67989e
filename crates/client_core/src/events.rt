// The events that are not answered.
ghost use Rattle.std.specs.Prelude.{◌≡◌, ◌++◌, ◌≤◌, ◌^◌, ◌∷◌, [], false, List, length, IfOk, OnOk, OnErr};
ghost use Rattle.std.specs.Option.{option_copied};
ghost use Rattle.circuit_meaning.specs.Browser.State.{answered_up_to, is_unanswered, without};
ghost use Rattle.circuit_meaning.specs.Browser.Greeting.{event_message, event_messages};
ghost use Rattle.hub_messages.specs.declared.up.Up.{Up};
ghost use Rattle.client_core.specs.Pieces.{SpellAll, IsShort};
ghost use Rattle.client_core.specs.EventSize.{event_size, IsSendable};

use crate::Ups;
use crate::sending::add;
use circuit_meaning::UnansweredEvent;
use hub_messages::Up;
use std::alloc::Global;
use std::marker::Model;
use text_core::{Oom, Txt};

/// The events that are not answered, by rising numbers. Contracts see them as a list.
#[derive(Debug, Drop)]
pub struct UnansweredEvents {
    events: Vec<UnansweredEvent>,
}

impl Model for UnansweredEvents {
    ghost use Rattle.std.specs.Prelude.{List, All};
    ghost use Rattle.client_core.specs.EventSize.{IsSendable};
    ghost use Rattle.circuit_meaning.specs.declared.browser.UnansweredEvent.{UnansweredEvent};

    ghost Value = { List UnansweredEvent };

    ghost view = { λ it. it.events.items };

    ghost invariant = { λ it. All IsSendable it.events.items };
}

impl UnansweredEvents {
    pub fn new(alloc: Global) -> Self
        ensures { result ≡ [] }
    {
        UnansweredEvents {
            events: Vec::new(alloc),
        }
    }

    pub fn len(&self) -> usize
        ensures { result ≡ length self.now }
    {
        self.events.len()
    }

    /// The greatest number up to which all events are answered, of those asked.
    pub fn answered_up_to(&self, asked: u64) -> u64
        ensures { result ≡ answered_up_to asked self.now }
    {
        match self.events.as_slice() {
            [] => asked,
            [first, ..] => first.number.saturating_sub(1),
        }
    }

    pub fn push(&mut self, event: UnansweredEvent) -> Result<(), Oom>
        requires { IsSendable event }
        ensures ok { OnOk result (self.new ≡ self.old ++ event ∷ []) }
        ensures err { OnErr result (self.new ≡ self.old) }
    {
        self.events.push(event)?;
        Ok(())
    }

    /// Takes the event of this number away, if it is there.
    pub fn answer(&mut self, number: u64) -> bool
        ensures there { result ≡ is_unanswered number self.old }
        ensures rest { self.new ≡ without number self.old }
        ensures none { result ≡ false → self.new ≡ self.old }
    {
        for place in 0..self.events.len() {
            if self.events[place].number == number {
                self.events.remove(place);
                return true;
            }
        }
        false
    }

    /// Adds the messages of all these events.
    pub fn send(&self, alloc: Global, ups: &mut Ups, got: u64) -> Result<(), Oom>
        ensures { (before : List Up) → SpellAll ups.old before
            → OnOk result (SpellAll ups.new (before ++ event_messages got self.now)) }
    {
        for event in &self.events {
            add(alloc, ups, &message(event, got)?)?;
        }
        Ok(())
    }
}

/// The event of this number, with copies of these texts.
pub fn event_of(
    number: u64,
    handler: u64,
    name: &Txt,
    text: Option<&Txt>,
) -> Result<UnansweredEvent, Oom>
    requires { event_size name.now (option_copied text) ≤ 2 ^ 24 }
    ensures number { IfOk result (λ event. event.number ≡ number) }
    ensures handler { IfOk result (λ event. event.handler ≡ handler) }
    ensures name { IfOk result (λ event. event.name ≡ name.now) }
    ensures text { IfOk result (λ event. event.text ≡ option_copied text.entry) }
    ensures sendable { IfOk result IsSendable }
{
    Ok(UnansweredEvent {
        number,
        handler,
        name: name.clone()?,
        text: text.cloned()?,
    })
}

/// The message of an event.
#[tactic(auto, using(crate::proofs::SizeLemmas::short_event))]
pub fn message(event: &UnansweredEvent, got: u64) -> Result<Up, Oom>
    requires { IsSendable event.now }
    ensures short { IfOk result IsShort }
    ensures up { IfOk result (λ up. up ≡ event_message got event.now) }
{
    Ok(Up::Event {
        number: event.number,
        handler: event.handler,
        got,
        name: event.name.clone()?,
        text: event.text.clone()?,
    })
}
