/// What came of an acknowledgement that takes no memory.
#[derive(Clone, Copy, Debug, PartialEq, Eq)]
pub enum AckDone {
    /// The browser has applied more batches than before.
    Moved,
    /// These batches were acknowledged before, or the circuit has ended.
    Old,
    /// No such batch was made yet; this is the last one.
    Ahead { sent: u64 },
}
