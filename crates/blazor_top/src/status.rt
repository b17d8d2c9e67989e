ghost use Rattle.std.specs.Prelude.{◌≡◌};
ghost use Rattle.blazor_top.specs.Status.{code_of};

/// How the program ended.
#[derive(Clone, Copy, Debug, PartialEq, Eq)]
pub enum Status {
    Done,
    Refused,
    Usage,
    Unscheduled,
    Missing,
    Unread,
    Unwritten,
    TooLarge,
    OutOfMemory,
}

impl Status {
    /// The number with which the process ends.
    pub fn code(self) -> u8
        ensures { result ≡ code_of self }
    {
        match self {
            Status::Done => 0,
            Status::Refused => 1,
            Status::Usage => 2,
            Status::Unscheduled => 3,
            Status::Missing => 4,
            Status::Unread => 5,
            Status::Unwritten => 6,
            Status::TooLarge => 8,
            Status::OutOfMemory => 9,
        }
    }
}
