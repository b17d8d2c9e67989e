use sqlite_items::Items;
use std::alloc::AllocError;
use text_core::{Oom, Txt};
use thiserror::Error;

/// What is done at the ends and on the lines between them, in order.
#[derive(Debug, Drop)]
pub struct Schedule {
    /// How many batches a circuit may leave unacknowledged, 1 to 64.
    pub window: u32,
    /// How many circuits without a connection the server retains, 1 to 100.
    pub retain: u32,
    pub steps: Items<Step>,
}

/// A step of a schedule.
#[derive(Debug, Drop)]
pub enum Step {
    /// A tab takes a new connection.
    Open { tab: u8 },
    User(UserStep),
    /// The oldest fresh messages are delivered, up to so many.
    Flow { count: u32 },
}

/// An event at a tab.
#[derive(Debug, Drop)]
pub struct UserStep {
    pub tab: u8,
    /// The places that lead to the element, the outermost first.
    pub path: Items<u32>,
    /// The event's name.
    pub event: Txt,
}

/// Why bytes spell no schedule.
#[derive(Clone, Copy, Debug, PartialEq, Eq, Error)]
pub enum ScheduleFault {
    /// No JSON, or not an object of the outline: docs/DEFINITIONS.md, "Schedule".
    #[error("schedule unread")]
    Unread,
    /// The first step that is none, by its number from 1.
    #[error("schedule step {number}")]
    Step { number: u64 },
    /// More than 100,000 atomic steps.
    #[error("too many steps")]
    TooMany,
    #[error("out of memory")]
    Oom,
}

impl From<Oom> for ScheduleFault {
    ghost use Rattle.std.specs.Prelude.{◌≡◌};
    ghost use Rattle.schedule_replay.specs.declared.schedule.ScheduleFault.TheVariants as fault;

    ghost from_gives = { λ _ given. given ≡ fault.Oom };

    fn from(_: Oom) -> Self {
        ScheduleFault::Oom
    }
}

impl From<AllocError> for ScheduleFault {
    ghost use Rattle.std.specs.Prelude.{◌≡◌};
    ghost use Rattle.schedule_replay.specs.declared.schedule.ScheduleFault.TheVariants as fault;

    ghost from_gives = { λ _ given. given ≡ fault.Oom };

    fn from(_: AllocError) -> Self {
        ScheduleFault::Oom
    }
}
