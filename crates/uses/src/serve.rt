//! `xa_server`: a driver is served, databases that obey the branch state table agree, also after a
//! second driver that recovers what the first one left, and the log has the rows of what is
//! committed.

ghost use Rattle.std.specs.Prelude.{◌≡◌, IfOk, IsSomeAnd, Some};
ghost use Rattle.std.specs.Io.Buffered.{reader_remaining};
ghost use Rattle.uses.specs.Sessions.{AreServedTo, IsServed, IsServedOver};
ghost use Rattle.uses.specs.Sessions.{IsServedTwice, LogsCommits};
ghost use Rattle.xa_base.specs.declared.state.Standing.TheVariants.{Unstarted};
ghost use Rattle.xa_server.specs.Sessions.{IsEmptyLog};
ghost use Rattle.xa_log.specs.Contract.{Honestly};

use std::alloc::Global;
use std::io::BufReader;
use xa_log::{DecisionLog, MemLog};
use xa_names::laws::without_a_name_nothing_changes;
use xa_server::laws::{served_databases_agree, served_sessions_agree, voted_commits_are_logged};
use xa_server::{ServeFault, Server};
use xa_tm::StartFault;

/// Why a driver isn't served.
#[derive(Clone, Copy)]
pub enum SessionFault {
    /// The coordinator didn't start.
    Start(StartFault),
    /// The session was broken off.
    Serve(ServeFault),
}

/// A reader of this text.
pub(crate) fn whole(alloc: Global, text: &[u8]) -> Result<BufReader<&[u8]>, SessionFault>
    ensures { IfOk result (λ unread.
        reader_remaining (λ slice. Some slice.now) unread ≡ Some text.now) }
{
    match BufReader::new(alloc, text) {
        Ok(unread) => Ok(unread),
        Err(_) => Err(SessionFault::Serve(ServeFault::Memory)),
    }
}

/// Serves a driver that writes this text, of any number of threads and resource managers, over a
/// new log in memory. Whatever the text says, what it tells and what is written for it have a right
/// history; and wherever the branches then stand at databases that obey the branch state table, no
/// branch of a transaction is committed beside one that is rolled back or lost.
pub fn served(alloc: Global, threads: u32, rms: u32, text: &[u8]) -> Result<Vec<u8>, SessionFault>
    ensures { IfOk result (λ written. IsServed threads rms text.now written.items) }
{
    served_databases_agree::<MemLog>();
    let mut written = Vec::new(alloc);
    let mut unread = whole(alloc, text)?;
    let log = MemLog::new(alloc);
    match Server::new(alloc, threads, rms, log) {
        Ok(mut server) => match server.serve(&mut unread, &mut written) {
            Ok(()) => Ok(written),
            Err(fault) => Err(SessionFault::Serve(fault)),
        },
        Err(fault) => Err(SessionFault::Start(fault)),
    }
}

/// Serves a driver that writes this text, over a log, and gives what was written for it and the
/// log.
pub(crate) fn served_over<L: DecisionLog + Drop>(
    alloc: Global,
    threads: u32,
    rms: u32,
    log: L,
    text: &[u8],
) -> Result<(Vec<u8>, L), SessionFault>
    ensures { IfOk result (λ left.
        IsServedOver L.moment threads rms log text.now left.0.items left.1) }
{
    let mut written = Vec::new(alloc);
    let mut unread = whole(alloc, text)?;
    match Server::new(alloc, threads, rms, log) {
        Ok(mut server) => match server.serve(&mut unread, &mut written) {
            Ok(()) => Ok((written, server.into_log())),
            Err(fault) => Err(SessionFault::Serve(fault)),
        },
        Err(fault) => Err(SessionFault::Start(fault)),
    }
}

/// Serves a driver that writes this text, over a log, and gives what was written for it and the
/// log. If the text ends with votes, XA_OK each, and a line that commits their transactions, and
/// this is replied by `decided`, the log has the row of each.
pub fn commits<L: DecisionLog + Drop>(
    alloc: Global,
    log: L,
    text: &[u8],
) -> Result<(Vec<u8>, L), SessionFault>
    ensures { IfOk result (λ left. Honestly (L.moment log) (L.moment left.1)
        (LogsCommits (L.moment left.1).content text.now left.0.items)) }
{
    voted_commits_are_logged::<L>();
    served_over(alloc, 2, 2, log, text)
}

/// Serves a driver that says nothing, over a log that is empty. That is the least of the sessions
/// that agree: no branch is at any database before it, and none after it.
pub fn silent<L: DecisionLog + Drop>(
    alloc: Global,
    threads: u32,
    rms: u32,
    log: L,
) -> Result<(Vec<u8>, L), SessionFault>
    ensures { IfOk result (λ left. Honestly (L.moment log) (L.moment left.1)
        (IsSomeAnd (L.moment log).content IsEmptyLog →
        AreServedTo L.moment left.1 (λ b. Unstarted))) }
{
    served_sessions_agree::<L>();
    without_a_name_nothing_changes();
    served_over(alloc, threads, rms, log, &[])
}

/// Serves two drivers, one after the other, over a log that is empty at first. The first may be
/// killed anywhere, as after a decision and before its xa_commits; the second recovers what it
/// finds. Whatever their texts say, and wherever the branches then stand at databases that obey the
/// branch state table: no branch of a transaction is committed beside one that is rolled back or
/// lost. And the log has the row of each transaction with a branch that is committed and one that
/// is prepared still, so that recovery commits that one too.
///
/// If the first driver's text ends with votes, XA_OK each, and a line that commits their
/// transactions, and this is replied by `decided`, each branch of these that stood prepared as that
/// driver was killed ends committed, whatever the second one asks for: none is ever rolled back or
/// lost, and once the log has no row of a transaction, its branches are committed, unless a
/// database ended one by itself.
pub fn served_twice<L: DecisionLog + Drop>(
    alloc: Global,
    threads: u32,
    rms: u32,
    log: L,
    first: &[u8],
    second: &[u8],
) -> Result<(Vec<u8>, Vec<u8>, L), SessionFault>
    ensures { IfOk result (λ left. Honestly (L.moment log) (L.moment left.2)
        (IsSomeAnd (L.moment log).content IsEmptyLog →
        IsServedTwice (L.moment left.2).content first.now second.now
        left.0.items left.1.items)) }
{
    served_sessions_agree::<L>();
    voted_commits_are_logged::<L>();
    without_a_name_nothing_changes();
    let one = served_over(alloc, threads, rms, log, first)?;
    let two = served_over(alloc, threads, rms, one.1, second)?;
    Ok((one.0, two.0, two.1))
}
