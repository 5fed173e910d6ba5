//! Why a log can't be listed.

ghost use Rattle.std.specs.Prelude.{◌≡◌};
ghost use Rattle.xa_listing.specs.Faults.{fault_of_log};

use xa_files::RunFault;
use xa_log::LogFault;

/// What a fault of the log is to a run: want of memory is that of the run, and each other fault is
/// Log.
pub fn run_fault(fault: LogFault) -> RunFault
    ensures { result ≡ fault_of_log fault }
{
    match fault {
        LogFault::Memory => RunFault::Memory,
        LogFault::Store | LogFault::Version | LogFault::Spent => RunFault::Log,
    }
}
