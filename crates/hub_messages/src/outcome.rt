/// What became of an event that the circuit took.
#[derive(Clone, Copy, Debug, PartialEq, Eq)]
pub enum Outcome {
    /// The handler's code ran.
    Acted,
    /// No handler ever had this id.
    HandlerUnknown,
    /// The handler was disposed by this batch, which the browser has acknowledged.
    HandlerGone { batch: u64 },
    /// The component that would receive the event is disposed.
    ComponentGone,
    /// The handler is for an event of another name.
    WrongEvent,
    /// The event carries a text that it should not, or lacks one, or a too long one.
    BadArguments,
}

/// Why a message is refused. Nothing changes then.
#[derive(Clone, Copy, Debug, PartialEq, Eq)]
pub enum Refusal {
    /// The bytes spell no message.
    Malformed,
    /// The connection was never bound to a circuit.
    NotConnected,
    /// The connection was bound to a circuit before.
    AlreadyConnected,
    /// No circuit here has this number and secret.
    CircuitUnknown,
    /// The browser says that it applied a batch that was never made.
    AppliedAhead { sent: u64 },
    /// The browser acknowledges a batch that was never made.
    AckAhead { sent: u64 },
    /// The browser says that an event is answered that was never taken.
    GotAhead { last: u64 },
    /// A batch that the browser needs is acknowledged, and so no longer kept.
    BatchesGone { acked: u64 },
    /// An event comes before one with a lower number.
    Early { next: u64 },
    /// Too many outcomes are kept, of which this is the oldest.
    OutcomesFull { oldest: u64 },
}

/// Why a circuit ended.
#[derive(Clone, Copy, Debug, PartialEq, Eq)]
pub enum CircuitFault {
    DivideByZero,
    Overflow,
    NullUse,
    IndexOutOfRange,
    FuelSpent,
    CallDepth,
    ValueTooLarge,
    DuplicateKey,
    PageTooLarge,
    TooManyComponents,
    TooDeepTree,
    Memory,
    NumbersSpent,
}
