use text_core::Txt;

/// The number of a circuit, and the secret without which nobody connects to it.
#[derive(Clone, Copy, Debug, PartialEq, Eq)]
pub struct CircuitKey {
    pub number: u64,
    pub secret: u64,
}

/// What a browser knows beside its tree and its unanswered events.
#[derive(Clone, Copy, Debug, PartialEq, Eq)]
pub struct BrowserStatus {
    /// The present connection.
    pub connection: Option<u64>,
    /// The present connection is bound to the browser's circuit.
    pub opened: bool,
    pub circuit: Option<CircuitKey>,
    /// The number of the last batch applied.
    pub applied: u64,
    /// The number of the last event.
    pub asked: u64,
    /// The circuit is gone for good.
    pub over: bool,
}

/// An event that is not answered yet.
#[derive(Debug, Drop)]
pub struct UnansweredEvent {
    pub number: u64,
    pub handler: u64,
    /// The event's name, as `onclick`.
    pub name: Txt,
    /// The text that the event carries, if any.
    pub text: Option<Txt>,
}
