//! The ways in which a run ends.
ghost use Rattle.std.specs.Prelude.{◌≡◌};
ghost use Rattle.line_input.specs.Statuses.{code, status_of};

use lisp_graph::Name;
use world_text::Reason;

/// How a run ended.
#[derive(Clone, Copy, Debug, PartialEq, Eq)]
pub enum Status {
    /// The input was read to its end, and everything that it requests was written.
    Done,
    /// The sink failed.
    WriteFailed,
    /// A line broke a rule.
    Refused,
    /// The source failed.
    ReadFailed,
    /// The world has no room for an area, or its objects exceed a quota.
    NoSpace,
    /// Memory ran out.
    NoMemory,
    /// The swap device failed.
    SwapFailed,
    /// The arguments of the program were refused.
    Usage,
    /// The requested object isn't one of the world's.
    NoObject,
}

impl Status {
    /// The number of the status: 0 to 8, in the order of the variants.
    pub fn code(self) -> u8
        ensures { result ≡ code self }
    {
        match self {
            Status::Done => 0,
            Status::WriteFailed => 1,
            Status::Refused => 2,
            Status::ReadFailed => 3,
            Status::NoSpace => 4,
            Status::NoMemory => 5,
            Status::SwapFailed => 6,
            Status::Usage => 7,
            Status::NoObject => 8,
        }
    }
}

/// The trouble that an error line reports. Lines are counted from 1.
#[derive(Debug, Drop)]
pub enum RunError {
    /// The line breaks a rule, for this reason.
    Line(u64, Reason),
    /// With the area of this line, the areas need more regions than there are.
    TooSmall(u64),
    /// The objects before the line are charged `charged` words in the area, and those of the line `wanted`; the sum exceeds the quota.
    Exhausted {
        line: u64,
        area: Name,
        charged: u32,
        wanted: u32,
        quota: u32,
    },
    /// The source failed.
    Read,
    /// Memory ran out.
    Memory,
    /// The swap device failed.
    Swap,
    /// The arguments of the program were refused.
    Usage,
    /// No object of the world has this number.
    NoObject(u32),
}

impl RunError {
    /// The status of a run with this trouble.
    pub fn status(&self) -> Status
        ensures { result ≡ status_of self.now }
    {
        match self {
            RunError::Line(_, _) => Status::Refused,
            RunError::TooSmall(_) => Status::NoSpace,
            RunError::Exhausted { .. } => Status::NoSpace,
            RunError::Read => Status::ReadFailed,
            RunError::Memory => Status::NoMemory,
            RunError::Swap => Status::SwapFailed,
            RunError::Usage => Status::Usage,
            RunError::NoObject(_) => Status::NoObject,
        }
    }
}

/// Why a run stopped before the end of the input: a write failed, or there is a trouble to report.
#[derive(Debug, Drop)]
pub enum RunStop {
    Write,
    Tell(RunError),
}
