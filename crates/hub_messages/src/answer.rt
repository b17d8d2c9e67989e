use crate::{CircuitFault, Outcome, Refusal, ScreenFault};
use page_core::Counts;

/// What a browser made of a message.
#[derive(Clone, Copy, Debug, PartialEq, Eq)]
pub enum Got {
    /// The message came on a connection that is not the present one.
    OldConnection,
    /// The bytes spell no message.
    Malformed,
    /// The connection is open: it is bound to the browser's circuit.
    Opened,
    Refused(Refusal),
    Ended(CircuitFault),
    /// The message came before the connection was open.
    NotOpen,
    Answered { event: u64, outcome: Outcome },
    AnsweredAgain { event: u64 },
    /// The answer of an event that was never sent.
    Stray,
    /// A batch that was applied before.
    AgainAcked { number: u64 },
    /// A batch that is not the next one.
    NotNext { next: u64 },
    Applied { number: u64, counts: Counts },
    BadBatch { fault: ScreenFault },
}

/// What became of an event at the browser.
#[derive(Clone, Copy, Debug, PartialEq, Eq)]
pub enum Asked {
    /// The browser's circuit is gone.
    Over,
    /// The path names no element.
    NoNode,
    /// The element has no handler of this event.
    NoHandler,
    /// Too many events are unanswered, or the numbers are spent.
    EventsFull,
    /// The event has this number.
    Asked { number: u64 },
}
