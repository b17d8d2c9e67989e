// Events of the user.
ghost use Rattle.std.specs.Prelude.{◌≡◌, ◌≤◌, ◌^◌, [], ◌∷◌, if◌then◌else◌, IfOk, OnErr};
ghost use Rattle.std.specs.Option.{option_copied};
ghost use Rattle.circuit_meaning.specs.Browser.State.{got_of};
ghost use Rattle.circuit_meaning.specs.Browser.Greeting.{event_message};
ghost use Rattle.hub_messages.specs.Screen.{found_at};
ghost use Rattle.circuit_meaning.specs.Browser.Receives.{Where};
ghost use Rattle.circuit_meaning.specs.Browser.Asks.{Asks, AsksNext, OnlyAnswers, is_full};
ghost use Rattle.client_core.specs.EventSize.{event_size, IsSendable};
ghost use Rattle.client_core.specs.Pieces.{SpellAll};

use crate::Ups;
use crate::client::Client;
use crate::events::{event_of, message};
use crate::sending::one;
use circuit_meaning::UnansweredEvent;
use hub_messages::{Asked, At, Screen};
use text_core::{Oom, Txt};

/// How many events may be unanswered.
const MOST_UNANSWERED: usize = 64;

impl<B: Screen> Client<B> {
    ghost use Rattle.client_core.specs.Standing.{browser_of, Steps};

    /// The user does something at a node of the page: see `page_core::at` for paths.
    ///
    /// The event is kept until it is answered, and sent at once where the connection is open.
    pub fn user(
        &mut self,
        path: &[u32],
        event: &Txt,
        text: Option<&Txt>,
    ) -> Result<(Asked, Ups), Oom>
        requires { event_size event.now (option_copied text) ≤ 2 ^ 24 }
        ensures step { IfOk result (λ answer. Steps B.tree self.old answer.1 self.new
            (λ before ups after. Asks (λ tree. found_at (B.Tree.page tree) path.now event.now)
            event.now (option_copied text.entry) before answer.0 ups after)) }
        ensures same { OnErr result (browser_of B.tree self.new ≡ browser_of B.tree self.old) }
    {
        if self.status.over {
            return Ok((Asked::Over, Vec::new(self.alloc)));
        }
        match self.screen.handler_at(path, event) {
            At::NoNode => Ok((Asked::NoNode, Vec::new(self.alloc))),
            At::NoHandler => Ok((Asked::NoHandler, Vec::new(self.alloc))),
            At::Handler(handler) => self.ask(handler, event, text),
        }
    }

    // An event on the handler of this id.
    fn ask(&mut self, handler: u64, event: &Txt, text: Option<&Txt>) -> Result<(Asked, Ups), Oom>
        requires { event_size event.now (option_copied text) ≤ 2 ^ 24 }
        ensures step { IfOk result (λ answer. Steps B.tree self.old answer.1 self.new
            (λ before ups after. Where (is_full before)
            (OnlyAnswers Asked.EventsFull before answer.0 ups after)
            (AsksNext handler event.now (option_copied text.entry) before answer.0 ups after))) }
        ensures same { OnErr result (browser_of B.tree self.new ≡ browser_of B.tree self.old) }
    {
        if self.unanswered.len() >= MOST_UNANSWERED || self.status.asked == u64::MAX {
            return Ok((Asked::EventsFull, Vec::new(self.alloc)));
        }
        let number = self.status.asked + 1;
        let kept = event_of(number, handler, event, text)?;
        let ups = self.sent_at_once(&kept)?;
        self.unanswered.push(kept)?;
        self.status.asked = number;
        Ok((Asked::Asked { number }, ups))
    }

    // The event's message, where the connection is open.
    fn sent_at_once(&self, event: &UnansweredEvent) -> Result<Ups, Oom>
        requires { IsSendable event.now }
        ensures { IfOk result (λ sent. SpellAll sent
            (if self.now.status.opened
            then event_message (got_of (browser_of B.tree self.now)) event.now ∷ [] else [])) }
    {
        if !self.status.opened {
            return Ok(Vec::new(self.alloc));
        }
        one(self.alloc, &message(event, self.got())?)
    }
}
