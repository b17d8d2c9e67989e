use hub_messages::{CircuitFault, Refusal};

/// What a circuit counts.
#[derive(Clone, Copy, Debug, PartialEq, Eq)]
pub struct CircuitStatus {
    /// How many batches may be unacknowledged, 1 to 64.
    pub window: u32,
    /// The number of the last batch made.
    pub sent: u64,
    /// The browser has applied batches up to this one.
    pub acked: u64,
    /// The greatest event number taken.
    pub last: u64,
    /// Outcomes of events up to this one are no longer kept.
    pub forgotten: u64,
    /// The connection that the circuit is bound to.
    pub bound: Option<u64>,
    /// The fault that ended the circuit.
    pub ended: Option<CircuitFault>,
}

/// Which rule of a circuit a message meets.
#[derive(Clone, Copy, Debug, PartialEq, Eq)]
pub enum Rule {
    /// The connection is not the bound one: no reply.
    Silent,
    /// The circuit has ended.
    Over(CircuitFault),
    Refuses(Refusal),
    /// The event was taken before.
    Again,
    /// The message is taken.
    Takes,
}
