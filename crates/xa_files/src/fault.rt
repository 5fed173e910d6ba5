//! Why a run of a file ends early.

ghost use Rattle.std.specs.Prelude.{◌≡◌, Some};
ghost use Rattle.xa_files.specs.declared.fault.RunFault.TheVariants.{Memory};

use std::alloc::{AllocError, AllocFailed};
use std::fmt;

/// Why a run of a file ends early. Each displays as its text on standard error, which is written by
/// hand here so that contracts can cite it (`fault_text`). A scenario meets neither Job nor Work.
#[derive(Clone, Copy, Debug, PartialEq, Eq)]
pub enum RunFault {
    /// The text isn't UTF-8 or no TOML document.
    NotToml,
    /// The top of the document is not as it must be.
    Header,
    /// The first faulty step, from 1.
    Step(usize),
    /// The first faulty job, from 1.
    Job(usize),
    /// The decision log failed.
    Log,
    /// A request for memory was refused.
    Memory,
    /// The work didn't come to its end.
    Work,
    /// A write to the output failed.
    Output,
}

impl RunFault {
    ghost use Rattle.xa_files.specs.Faults.{fault_status};

    /// The status that a program ends with for this fault: 1 if the file is refused, 2 if the work
    /// on it fails.
    pub fn status(self) -> u8
        ensures { result ≡ fault_status self }
    {
        match self {
            RunFault::NotToml | RunFault::Header | RunFault::Step(_) | RunFault::Job(_) => 1,
            RunFault::Log | RunFault::Memory | RunFault::Work | RunFault::Output => 2,
        }
    }
}

impl fmt::Display for RunFault {
    ghost use Rattle.xa_files.specs.Faults.{fault_text};

    ghost output = { λ fault. Some (fault_text fault) };

    fn fmt<W: fmt::Write>(&self, f: &mut fmt::Formatter<W>) -> fmt::Result {
        match self {
            RunFault::NotToml => write!(f, "xatm: scenario: not TOML"),
            RunFault::Header => write!(f, "xatm: scenario: header"),
            RunFault::Step(number) => write!(f, "xatm: scenario: step {number}"),
            RunFault::Job(number) => write!(f, "xatm: scenario: job {number}"),
            RunFault::Log => write!(f, "xatm: log"),
            RunFault::Memory => write!(f, "xatm: memory"),
            RunFault::Work => write!(f, "xatm: work"),
            RunFault::Output => write!(f, "xatm: output"),
        }
    }
}

impl std::error::Error for RunFault {}

impl From<AllocError> for RunFault {
    ghost from_gives = { λ _ e. e ≡ Memory };

    fn from(_e: AllocError) -> RunFault {
        RunFault::Memory
    }
}

impl<T: Drop> From<AllocFailed<T>> for RunFault {
    ghost from_gives = { λ _ e. e ≡ Memory };

    fn from(_e: AllocFailed<T>) -> RunFault {
        RunFault::Memory
    }
}

impl From<xa_base::Memory> for RunFault {
    ghost from_gives = { λ _ e. e ≡ Memory };

    fn from(_e: xa_base::Memory) -> RunFault {
        RunFault::Memory
    }
}
