//! Why a command ends with a status other than 0.

ghost use Rattle.std.specs.Prelude.{◌≡◌};
ghost use Rattle.xa_files.specs.declared.fault.RunFault.TheVariants as Faults;
ghost use Rattle.xa_commands.specs.declared.failure.Failure.TheVariants.{Run};

use std::alloc::{AllocError, AllocFailed};
use std::io;
use std::io::ErrorKind;
use xa_base::Memory;
use xa_files::RunFault;
use xa_listing::run_fault;
use xa_log::LogFault;
use xa_restore::{LineFault, RestoreFault};
use xa_server::ServeFault;
use xa_tm::StartFault;

/// Why a command ends early.
#[derive(Drop)]
pub enum Failure {
    /// The command line is refused, as this text says.
    CommandLine(String),
    /// The words of the command line can't be read.
    Words,
    /// The words of a look at a log ask for two things at once.
    LogWords,
    /// A file can't be read: its path, and why.
    Unreadable(String),
    /// The work on the file ended early.
    Run(RunFault),
    /// A file is refused for this fault, and this text tells of all its faults.
    Told(RunFault, String),
    /// The log or the output in a file failed, as this text says: its path, and why. A later try may go well.
    Failed(String),
    /// The run of the file has more events than a picture shows.
    TooLong,
    /// The requests of a driver can't be read.
    Input,
    /// The name of the manager is none.
    Name,
    /// The names of the resource managers are none, or not one for each.
    RmNames,
    /// Another process has the log, as this text says. A later try may go well.
    InUse(String),
    /// There is no such log, or it is another's, as this text says. No later try goes otherwise.
    Refused(String),
    /// Only a part of the log is there, as this text says.
    Half(String),
    /// The log is shut, as this text says.
    Shut(String),
    /// The log has had fewer starts than were asked for, as this text says.
    Older(String),
    /// The line of this number, of those that a log is to be made from, is wrong in this.
    Line(usize, LineFault),
}

impl Failure {
    ghost use Rattle.std.specs.Prelude.{◌≢◌};
    ghost use Rattle.std.specs.IoError.{error_kind};
    ghost use Rattle.xa_commands.specs.Failures.{failure_status};

    /// This failure, or want of memory, where that is the cause.
    pub fn caused_by(self, error: &io::Error) -> Failure
        ensures memory { error_kind error.now ≡ ErrorKind.OutOfMemory → result ≡ Run Faults.Memory }
        ensures other { error_kind error.now ≢ ErrorKind.OutOfMemory → result ≡ self }
    {
        match error.kind() {
            ErrorKind::OutOfMemory => Failure::Run(RunFault::Memory),
            _ => self,
        }
    }

    /// The status that the program ends with: 1 if the file is refused, 2 if the work on it fails, 3 if the command line is
    /// refused; and of a log 4 if it is older than was asked for, 5 if another process has it, 6 if it is none or another's,
    /// 7 if only a part of it is there, and 8 if it is shut.
    pub fn status(&self) -> u8
        ensures { result ≡ failure_status self.now }
    {
        match self {
            Failure::CommandLine(_) | Failure::Words | Failure::LogWords => 3,
            Failure::Name | Failure::RmNames => 3,
            Failure::Unreadable(_) | Failure::Line(_, _) => 1,
            Failure::TooLong | Failure::Input | Failure::Failed(_) => 2,
            Failure::Older(_) => 4,
            Failure::InUse(_) => 5,
            Failure::Refused(_) => 6,
            Failure::Half(_) => 7,
            Failure::Shut(_) => 8,
            Failure::Run(fault) | Failure::Told(fault, _) => fault.status(),
        }
    }

    /// Prints the text of the failure.
    pub fn print<R: Print + Eprint>(&self, rt: &R) -> io::Result<()> {
        match self {
            Failure::Words => eprintln!(rt; "xatm: command line"),
            Failure::LogWords => eprintln!(rt;
                "xatm: command line: --explain, --json, --make, --shut, --open, --add-rm and --rename-rm \
                don't go together"
            ),
            Failure::Unreadable(text) | Failure::Failed(text) | Failure::InUse(text) => {
                eprintln!(rt; "xatm: {text}")
            }
            Failure::Run(fault) => eprintln!(rt; "{fault}"),
            Failure::CommandLine(text) | Failure::Told(_, text) => eprint!(rt; "{text}"),
            Failure::TooLong => eprintln!(rt; "xatm: chart: more than 200 events"),
            Failure::Input => eprintln!(rt; "xatm: input"),
            Failure::Name => eprintln!(rt; "xatm: name: 1 to 16 letters, digits, _ and -"),
            Failure::RmNames => eprintln!(rt;
                "xatm: rm: a name for each resource manager, and for each another one: \
                1 to 64 letters, digits, _ and -"
            ),
            Failure::Refused(text) | Failure::Older(text) => eprintln!(rt; "xatm: log: {text}"),
            Failure::Half(text) | Failure::Shut(text) => eprintln!(rt; "xatm: log: {text}"),
            Failure::Line(number, fault) => eprintln!(rt; "xatm: line {number}: {fault}"),
        }
    }
}

impl From<RunFault> for Failure {
    ghost from_gives = { λ fault failure. failure ≡ Run fault };

    fn from(fault: RunFault) -> Failure {
        Failure::Run(fault)
    }
}

impl From<StartFault> for Failure {
    ghost use Rattle.xa_commands.specs.Failures.{failure_of_start};

    ghost from_gives = { λ fault failure. failure ≡ failure_of_start fault };

    fn from(fault: StartFault) -> Failure {
        match fault {
            StartFault::Log => Failure::Run(RunFault::Log),
            StartFault::Memory => Failure::Run(RunFault::Memory),
        }
    }
}

impl From<ServeFault> for Failure {
    ghost use Rattle.xa_commands.specs.Failures.{failure_of_service};

    ghost from_gives = { λ fault failure. failure ≡ failure_of_service fault };

    fn from(fault: ServeFault) -> Failure {
        match fault {
            ServeFault::Input => Failure::Input,
            ServeFault::Output => Failure::Run(RunFault::Output),
            ServeFault::Memory => Failure::Run(RunFault::Memory),
            // Whoever has the log shuts it, and tells that instead.
            ServeFault::Strange => Failure::Run(RunFault::Log),
        }
    }
}

impl From<AllocError> for Failure {
    ghost from_gives = { λ _ failure. failure ≡ Run Faults.Memory };

    fn from(_error: AllocError) -> Failure {
        Failure::Run(RunFault::Memory)
    }
}

impl<T: Drop> From<AllocFailed<T>> for Failure {
    ghost from_gives = { λ _ failure. failure ≡ Run Faults.Memory };

    fn from(_error: AllocFailed<T>) -> Failure {
        Failure::Run(RunFault::Memory)
    }
}

impl From<LogFault> for Failure {
    ghost use Rattle.xa_listing.specs.Faults.{fault_of_log};

    ghost from_gives = { λ fault failure. failure ≡ Run (fault_of_log fault) };

    fn from(fault: LogFault) -> Failure {
        Failure::Run(run_fault(fault))
    }
}

impl From<RestoreFault> for Failure {
    fn from(fault: RestoreFault) -> Failure {
        match fault {
            RestoreFault::Line(number, fault) => Failure::Line(number, fault),
            RestoreFault::Memory => Failure::Run(RunFault::Memory),
        }
    }
}

impl From<Memory> for Failure {
    ghost from_gives = { λ _ failure. failure ≡ Run Faults.Memory };

    fn from(_error: Memory) -> Failure {
        Failure::Run(RunFault::Memory)
    }
}
