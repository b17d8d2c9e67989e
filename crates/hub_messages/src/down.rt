use crate::{Bytes, CircuitFault, Outcome, Refusal};

/// A message from the server to a browser.
#[derive(Debug, Drop)]
pub enum Down {
    /// The circuit that a Start made.
    Started {
        number: u64,
        secret: u64,
    },
    /// The browser is bound to its circuit again.
    Connected {
        /// The last batch made.
        sent: u64,
        /// The greatest event number taken.
        last: u64,
    },
    Batch {
        number: u64,
        bytes: Bytes,
    },
    /// What became of an event.
    Outcome {
        event: u64,
        outcome: Outcome,
    },
    Refused(Refusal),
    Ended(CircuitFault),
}
