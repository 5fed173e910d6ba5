//! `xa_server`: each transaction agrees by its own branches, whatever becomes of another's.

ghost use Rattle.std.specs.Prelude.{IfOk, IsSomeAnd};
ghost use Rattle.uses.specs.Transactions.{AreServedApartFrom};
ghost use Rattle.xa_log.specs.Contract.{Honestly};
ghost use Rattle.xa_server.specs.Sessions.{IsEmptyLog};

use crate::serve::{SessionFault, served_over};
use std::alloc::Global;
use xa_log::DecisionLog;
use xa_names::laws::without_a_name_nothing_changes;
use xa_server::laws::{served_sessions_agree, served_transactions_agree};

/// Serves two drivers, one after the other, over a log that is empty at first. Between the two
/// there may be trouble with a branch of some transaction: somebody ended it by hand, against the
/// log too, or its database forgot it. Every other transaction agrees as ever: none of its branches
/// is committed beside one that is rolled back or lost. The log that is left has its row if one is
/// committed and another is prepared still, and has none if one is rolled back or lost.
///
/// Of the databases it is supposed only that they obey the branch state table as far as the
/// branches of that other transaction go.
pub fn served_apart_from_trouble<L: DecisionLog + Drop>(
    alloc: Global,
    threads: u32,
    rms: u32,
    log: L,
    first: &[u8],
    second: &[u8],
) -> Result<(Vec<u8>, Vec<u8>, L), SessionFault>
    ensures apart { IfOk result (λ left. Honestly (L.moment log) (L.moment left.2)
        (IsSomeAnd (L.moment log).content IsEmptyLog →
        AreServedApartFrom (L.moment left.2).content first.now second.now
        left.0.items left.1.items)) }
{
    served_sessions_agree::<L>();
    served_transactions_agree::<L>();
    without_a_name_nothing_changes();
    let one = served_over(alloc, threads, rms, log, first)?;
    let two = served_over(alloc, threads, rms, one.1, second)?;
    Ok((one.0, two.0, two.1))
}
