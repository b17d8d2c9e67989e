use text_core::Txt;

/// A message from a browser to the server.
#[derive(Debug, Drop)]
pub enum Up {
    /// A browser without a circuit wants one.
    Start,
    /// A browser is back on another connection.
    Connect {
        /// The number of its circuit.
        number: u64,
        /// The secret that came with the circuit's number.
        secret: u64,
        /// The last batch that it applied.
        applied: u64,
        /// All events up to this one are answered.
        got: u64,
    },
    /// An event on a handler.
    Event {
        /// Events are numbered from 1.
        number: u64,
        handler: u64,
        got: u64,
        /// The event's name, as `onclick`.
        name: Txt,
        /// The text that the event carries, if any.
        text: Option<Txt>,
    },
    /// Batches up to this one are applied.
    Ack {
        batch: u64,
        got: u64,
    },
}
