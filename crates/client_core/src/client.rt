// The client, and what it sends.
ghost use Rattle.std.specs.Prelude.{◌≡◌, [], ◌∷◌, IfOk, OnErr};
ghost use Rattle.circuit_meaning.specs.Browser.State.{fresh_browser, got_of};
ghost use Rattle.circuit_meaning.specs.Browser.Greeting.{greeting, acknowledgement, Connects, Retries, Cuts};
ghost use Rattle.client_core.specs.Pieces.{SpellAll, IsShort};

use crate::Ups;
use crate::events::UnansweredEvents;
use crate::sending::one;
use circuit_meaning::BrowserStatus;
use hub_messages::{Screen, Up};
use std::alloc::Global;
use text_core::Oom;

mod asking;
mod receiving;

/// The browser's end of a circuit.
#[derive(Debug, Drop)]
pub struct Client<B> {
    alloc: Global,
    screen: B,
    status: BrowserStatus,
    unanswered: UnansweredEvents,
}

impl<B: Screen> Client<B> {
    ghost use Rattle.client_core.specs.Standing.{browser_of, Steps};

    /// A client that knows no circuit and has no connection.
    pub fn new(alloc: Global, screen: B) -> Self
        requires { B.tree screen ≡ B.Tree.first }
        ensures { browser_of B.tree result ≡ fresh_browser B.Tree.first }
    {
        Client {
            alloc,
            screen,
            status: BrowserStatus {
                connection: None,
                opened: false,
                circuit: None,
                applied: 0,
                asked: 0,
                over: false,
            },
            unanswered: UnansweredEvents::new(alloc),
        }
    }

    /// What shows the client's tree.
    pub fn screen(&self) -> &B
        ensures { B.tree result.now ≡ (browser_of B.tree self.now).tree }
    {
        &self.screen
    }

    // The greatest number up to which all events are answered.
    fn got(&self) -> u64
        ensures { result ≡ got_of (browser_of B.tree self.now) }
    {
        self.unanswered.answered_up_to(self.status.asked)
    }

    #[tactic(auto, using(crate::proofs::SizeLemmas::short_start, crate::proofs::SizeLemmas::short_connect))]
    fn greeting(&self) -> Up
        ensures greeting { result ≡ greeting (browser_of B.tree self.now) }
        ensures short { IsShort result }
    {
        match self.status.circuit {
            None => Up::Start,
            Some(circuit) => Up::Connect {
                number: circuit.number,
                secret: circuit.secret,
                applied: self.status.applied,
                got: self.got(),
            },
        }
    }

    // Batches up to this one are applied.
    #[tactic(auto, using(crate::proofs::SizeLemmas::short_ack))]
    fn acknowledgement(&self, batch: u64) -> Result<Ups, Oom>
        ensures { IfOk result (λ sent. SpellAll sent
            (Up.Ack batch (got_of (browser_of B.tree self.now)) ∷ [])) }
    {
        one(
            self.alloc,
            &Up::Ack {
                batch,
                got: self.got(),
            },
        )
    }

    /// A new connection of this number: the client greets the server on it.
    pub fn connect(&mut self, connection: u64) -> Result<Ups, Oom>
        ensures step { IfOk result (λ sent. Steps B.tree self.old sent self.new
            (λ before ups after. Connects before connection ups after)) }
        ensures same { OnErr result (browser_of B.tree self.new ≡ browser_of B.tree self.old) }
    {
        let ups = one(self.alloc, &self.greeting())?;
        self.status.connection = Some(connection);
        self.status.opened = false;
        Ok(ups)
    }

    /// Says again what may be lost: the greeting before the connection is open, and then what is applied and each
    /// event that is not answered.
    pub fn retry(&mut self) -> Result<Ups, Oom>
        ensures step { IfOk result (λ sent. Steps B.tree self.old sent self.new
            (λ before ups after. Retries before ups after)) }
        ensures same { OnErr result (browser_of B.tree self.new ≡ browser_of B.tree self.old) }
    {
        if self.status.connection.is_none() {
            return Ok(Vec::new(self.alloc));
        }
        if !self.status.opened {
            return one(self.alloc, &self.greeting());
        }
        let mut ups = self.acknowledgement(self.status.applied)?;
        self.unanswered.send(self.alloc, &mut ups, self.got())?;
        Ok(ups)
    }

    /// Gives up the connection, and answers whether there was one.
    pub fn cut(&mut self) -> bool
        ensures { Cuts (browser_of B.tree self.old) result (browser_of B.tree self.new) }
    {
        let had = self.status.connection.is_some();
        self.status.connection = None;
        self.status.opened = false;
        had
    }
}
