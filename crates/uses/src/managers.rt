//! `xa_names`: two drivers are served by managers of two names, each with a log of its own, over
//! the same resource managers.

ghost use Rattle.std.specs.Prelude.{IfOk};
ghost use Rattle.uses.specs.Managers.{AreServedApart, AreServedBeside, IsServedFrom};

use crate::paths::session_over;
use crate::serve::{SessionFault, whole};
use std::alloc::Global;
use xa_log::DecisionLog;
use xa_names::ManagerName;
use xa_server::Server;
use xa_server::laws::{
    left_sessions_agree, managers_agree, managers_stay_apart, replies_are_tracked,
    served_databases_agree,
};
use xa_session::laws::starts_are_tracked;

/// Serves a driver that writes this text, by a manager of this name over this log, and gives what
/// was written for it.
fn served_under<L: DecisionLog + Drop>(
    alloc: Global,
    threads: u32,
    rms: u32,
    log: L,
    name: &ManagerName,
    text: &[u8],
) -> Result<Vec<u8>, SessionFault>
    ensures { IfOk result (λ written.
        IsServedFrom L.moment name.now threads rms text.now written.items) }
{
    let mut written = Vec::new(alloc);
    let mut unread = whole(alloc, text)?;
    match Server::new(alloc, threads, rms, log) {
        Ok(mut server) => match server.serve_under(name, &mut unread, &mut written) {
            Ok(()) => Ok(written),
            Err(fault) => Err(SessionFault::Serve(fault)),
        },
        Err(fault) => Err(SessionFault::Start(fault)),
    }
}

/// Serves two drivers by managers of two names, over the same resource managers, each manager over
/// a log of its own. Whatever the texts say, each one's theorem holds beside the other: what it
/// tells has a right history, and databases that obey the branch state table agree of its
/// transactions. And if the names differ, neither driver is told a call on an identifier on which
/// the other one is told a call, until a log fails: so nothing of the other's is ended.
pub fn served_apart<L: DecisionLog + Drop>(
    alloc: Global,
    threads: u32,
    rms: u32,
    logs: (L, L),
    name: &ManagerName,
    other: &ManagerName,
    first: &[u8],
    second: &[u8],
) -> Result<(Vec<u8>, Vec<u8>), SessionFault>
    ensures { IfOk result (λ written. AreServedApart name.now other.now threads rms
        first.now second.now written.0.items written.1.items) }
{
    managers_stay_apart::<L>();
    served_databases_agree::<L>();
    starts_are_tracked::<L>();
    replies_are_tracked::<L>();
    let one = served_under(alloc, threads, rms, logs.0, name, first)?;
    let two = served_under(alloc, threads, rms, logs.1, other, second)?;
    Ok((one, two))
}

/// Serves two drivers by managers of two names, each over a log of its own, and over the same
/// databases, which hold no branch of either at first. Whatever the texts say, and wherever all
/// identifiers then stand at databases that obey the branch state table: if the names differ, the
/// branches of each manager are alike, and no identifier is of a branch of both.
pub fn served_beside<L: DecisionLog + Drop>(
    alloc: Global,
    threads: u32,
    rms: u32,
    logs: (L, L),
    name: &ManagerName,
    other: &ManagerName,
    first: &[u8],
    second: &[u8],
) -> Result<(Vec<u8>, Vec<u8>), SessionFault>
    ensures { IfOk result (λ written. AreServedBeside L.moment name.now other.now
        logs.0 logs.1 first.now second.now written.0.items written.1.items) }
{
    left_sessions_agree();
    managers_agree::<L>();
    let one = session_over(alloc, name, threads, rms, logs.0, first)?;
    let two = session_over(alloc, other, threads, rms, logs.1, second)?;
    Ok((one.0, two.0))
}
