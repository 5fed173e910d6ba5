//! `xa_server` over files: one process after another opens the log at a path and serves a driver
//! over it.

ghost use Rattle.std.specs.Prelude.{IfOk};
ghost use Rattle.sqlite_wal.specs.Files.{image_at};
ghost use Rattle.uses.specs.Paths.{AreTwoProcesses, IsProcess, IsSessionOver};

use crate::serve::{SessionFault, whole};
use sqlite::{FileFrom, FileStore, Start};
use std::alloc::Global;
use xa_log::{DecisionLog, LogFault};
use xa_names::ManagerName;
use xa_server::Server;
use xa_server::laws::{left_sessions_agree, sessions_go_on};
use xa_sql_log::SqlLog;

/// Why a process comes to no end of its session.
#[derive(Clone, Copy)]
pub enum ProcessFault {
    /// The log couldn't be opened.
    Log(LogFault),
    /// The driver isn't served.
    Session(SessionFault),
}

/// Serves a driver that writes this text, as the manager of this name, over a log, and gives what
/// was written for it and the log. If sessions before it left what the log has, this one goes on
/// from them.
pub(crate) fn session_over<L: DecisionLog + Drop>(
    alloc: Global,
    name: &ManagerName,
    threads: u32,
    rms: u32,
    log: L,
    text: &[u8],
) -> Result<(Vec<u8>, L), SessionFault>
    ensures { IfOk result (λ left.
        IsSessionOver L.moment name.now log text.now left.0.items left.1) }
{
    sessions_go_on::<L>();
    let mut written = Vec::new(alloc);
    let mut unread = whole(alloc, text)?;
    match Server::new(alloc, threads, rms, log) {
        Ok(mut server) => match server.serve_under(name, &mut unread, &mut written) {
            Ok(()) => Ok((written, server.into_log())),
            Err(fault) => Err(SessionFault::Serve(fault)),
        },
        Err(fault) => Err(SessionFault::Start(fault)),
    }
}

/// One process: opens the log at a path, or makes it, and serves a driver over it. `start` stands
/// for what the files held, whatever that was.
pub fn process<S: Start>(
    rt: &HostRuntime,
    path: &str,
    start: S,
    name: &ManagerName,
    threads: u32,
    rms: u32,
    text: &[u8],
) -> Result<(Vec<u8>, SqlLog<FileStore<FileFrom<S>>>), ProcessFault>
    ensures { IfOk result (λ left.
        IsProcess ⟦<SqlLog<FileStore<FileFrom<S>>> as DecisionLog>⟧.moment (image_at S.Start)
        name.now text.now left.0.items left.1) }
{
    match SqlLog::open_from(rt, path, start) {
        Ok(log) => match session_over(rt.alloc(), name, threads, rms, log, text) {
            Ok(left) => Ok(left),
            Err(fault) => Err(ProcessFault::Session(fault)),
        },
        Err(fault) => Err(ProcessFault::Log(fault)),
    }
}

/// Two processes, one after the other, open the log at one path: the first makes it, and the second
/// opens what the first left. Whatever the drivers' texts say, and wherever the branches then stand
/// at databases that obey the branch state table: no branch of a transaction is committed beside
/// one that is rolled back or lost, and the log decides of what is prepared still. A branch that
/// the second process found prepared, with its transaction's row in the log, is never rolled back
/// or lost.
///
/// What the one leaves and the other finds is told by the log's content. So it is the same whether
/// the first process closed its log or a crash of its disk left it, after a line or in a call that
/// failed.
pub fn two_processes<S: Start, T: Start>(
    rt: &HostRuntime,
    path: &str,
    starts: (S, T),
    name: &ManagerName,
    threads: u32,
    rms: u32,
    first: &[u8],
    second: &[u8],
) -> Result<(Vec<u8>, Vec<u8>, SqlLog<FileStore<FileFrom<T>>>), ProcessFault>
    ensures { IfOk result (λ left. AreTwoProcesses
        ⟦<SqlLog<FileStore<FileFrom<S>>> as DecisionLog>⟧.moment
        ⟦<SqlLog<FileStore<FileFrom<T>>> as DecisionLog>⟧.moment
        (image_at S.Start) (image_at T.Start) name.now first.now second.now
        left.0.items left.1.items left.2) }
{
    left_sessions_agree();
    let (start, later) = starts;
    let told = {
        let one = process(rt, path, start, name, threads, rms, first)?;
        one.0
    };
    let two = process(rt, path, later, name, threads, rms, second)?;
    Ok((told, two.0, two.1))
}
