// Codes of messages, outcomes, refusals and faults.
ghost use Rattle.std.specs.Prelude.{◌≡◌};
ghost use Rattle.hub_messages.specs.Spelling.Codes.{outcome_code, refusal_code, fault_code};
ghost use Rattle.hub_messages.specs.Reading.Codes.{outcome_of, refusal_of, fault_of};

use crate::{CircuitFault, Outcome, Refusal};

/// The version of the messages.
pub(crate) const VERSION: u8 = 1;

pub(crate) const START: u8 = 0x01;

pub(crate) const CONNECT: u8 = 0x02;

pub(crate) const EVENT: u8 = 0x03;

pub(crate) const ACK: u8 = 0x04;

pub(crate) const STARTED: u8 = 0x81;

pub(crate) const CONNECTED: u8 = 0x82;

pub(crate) const BATCH: u8 = 0x83;

pub(crate) const OUTCOME: u8 = 0x84;

pub(crate) const REFUSED: u8 = 0x85;

pub(crate) const ENDED: u8 = 0x86;

/// The code of an outcome, and the number that comes with it.
pub(crate) fn outcome_code(outcome: Outcome) -> (u8, Option<u64>)
    ensures { result ≡ outcome_code outcome }
{
    match outcome {
        Outcome::Acted => (1, None),
        Outcome::HandlerUnknown => (2, None),
        Outcome::HandlerGone { batch } => (3, Some(batch)),
        Outcome::ComponentGone => (4, None),
        Outcome::WrongEvent => (5, None),
        Outcome::BadArguments => (6, None),
    }
}

#[tactic(auto, unfolding(crate::specs::Reading::Codes::outcome_of))]
pub(crate) fn outcome_of(code: u8, value: Option<u64>) -> Option<Outcome>
    ensures { result ≡ outcome_of code value }
{
    match value {
        None => match code {
            1 => Some(Outcome::Acted),
            2 => Some(Outcome::HandlerUnknown),
            4 => Some(Outcome::ComponentGone),
            5 => Some(Outcome::WrongEvent),
            6 => Some(Outcome::BadArguments),
            _ => None,
        },
        Some(batch) => match code {
            3 => Some(Outcome::HandlerGone { batch }),
            _ => None,
        },
    }
}

/// The code of a refusal, and the number that comes with it.
pub(crate) fn refusal_code(refusal: Refusal) -> (u8, Option<u64>)
    ensures { result ≡ refusal_code refusal }
{
    match refusal {
        Refusal::Malformed => (1, None),
        Refusal::NotConnected => (2, None),
        Refusal::AlreadyConnected => (3, None),
        Refusal::CircuitUnknown => (4, None),
        Refusal::AppliedAhead { sent } => (5, Some(sent)),
        Refusal::AckAhead { sent } => (6, Some(sent)),
        Refusal::GotAhead { last } => (7, Some(last)),
        Refusal::BatchesGone { acked } => (8, Some(acked)),
        Refusal::Early { next } => (9, Some(next)),
        Refusal::OutcomesFull { oldest } => (10, Some(oldest)),
    }
}

#[tactic(auto, unfolding(crate::specs::Reading::Codes::refusal_of))]
pub(crate) fn refusal_of(code: u8, value: Option<u64>) -> Option<Refusal>
    ensures { result ≡ refusal_of code value }
{
    match value {
        None => match code {
            1 => Some(Refusal::Malformed),
            2 => Some(Refusal::NotConnected),
            3 => Some(Refusal::AlreadyConnected),
            4 => Some(Refusal::CircuitUnknown),
            _ => None,
        },
        Some(value) => match code {
            5 => Some(Refusal::AppliedAhead { sent: value }),
            6 => Some(Refusal::AckAhead { sent: value }),
            7 => Some(Refusal::GotAhead { last: value }),
            8 => Some(Refusal::BatchesGone { acked: value }),
            9 => Some(Refusal::Early { next: value }),
            10 => Some(Refusal::OutcomesFull { oldest: value }),
            _ => None,
        },
    }
}

/// The code of a fault.
pub(crate) fn fault_code(fault: CircuitFault) -> u8
    ensures { result ≡ fault_code fault }
{
    match fault {
        CircuitFault::DivideByZero => 1,
        CircuitFault::Overflow => 2,
        CircuitFault::NullUse => 3,
        CircuitFault::IndexOutOfRange => 4,
        CircuitFault::FuelSpent => 5,
        CircuitFault::CallDepth => 6,
        CircuitFault::ValueTooLarge => 7,
        CircuitFault::DuplicateKey => 8,
        CircuitFault::PageTooLarge => 9,
        CircuitFault::TooManyComponents => 10,
        CircuitFault::TooDeepTree => 11,
        CircuitFault::Memory => 12,
        CircuitFault::NumbersSpent => 13,
    }
}

#[tactic(auto, unfolding(crate::specs::Reading::Codes::fault_of))]
pub(crate) fn fault_of(code: u8) -> Option<CircuitFault>
    ensures { result ≡ fault_of code }
{
    match code {
        1 => Some(CircuitFault::DivideByZero),
        2 => Some(CircuitFault::Overflow),
        3 => Some(CircuitFault::NullUse),
        4 => Some(CircuitFault::IndexOutOfRange),
        5 => Some(CircuitFault::FuelSpent),
        6 => Some(CircuitFault::CallDepth),
        7 => Some(CircuitFault::ValueTooLarge),
        8 => Some(CircuitFault::DuplicateKey),
        9 => Some(CircuitFault::PageTooLarge),
        10 => Some(CircuitFault::TooManyComponents),
        11 => Some(CircuitFault::TooDeepTree),
        12 => Some(CircuitFault::Memory),
        13 => Some(CircuitFault::NumbersSpent),
        _ => None,
    }
}
