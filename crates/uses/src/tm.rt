//! `xa_tm`: a manager starts over a log, and begins a transaction.

ghost use Rattle.std.specs.Prelude.{◌≡◌, IfOk};

use std::alloc::Global;
use xa_base::{Gtrid, Refusal};
use xa_log::MemLog;
use xa_tm::{Manager, StartFault};

/// The first transaction of the first manager over a new log.
pub fn first(alloc: Global) -> Result<Result<Gtrid, Refusal>, StartFault>
    ensures { IfOk result (λ begun. IfOk begun (λ g.
        g ≡ record { incarnation = 1; sequence = 1 })) }
{
    let mut manager = Manager::new(alloc, 1, 1, MemLog::new(alloc))?;
    Ok(manager.begin(0))
}
