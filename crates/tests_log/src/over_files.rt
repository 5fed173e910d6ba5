//! Logs in files in memory, which stop and which a crash leaves. What is done over a log is proved
//! once for all logs: it names no store, and one function hands it a log in any store. That files
//! are a store is proved anew for each call that asks for one, so that a function makes one such
//! call.

use crate::disks::{Stops, StopsAfter, blank, crashed, log_over, stopping};
use sqlite::{Alter, FileStore, Files};
use std::alloc::Global;
use std::process::Abort;
use std::test::Fail;
use xa_log::{DecisionLog, MemLog};
use xa_sql_log::SqlLog;

/// A log that a crash leaves.
pub(crate) trait Crashes: DecisionLog + Drop + Sized {
    /// The log as a crash leaves it, opened again. It stops after so many calls of its journal, if
    /// it can.
    fn reopened(self, alloc: Global, calls: u64) -> Option<Self>;
}

impl Crashes for MemLog {
    fn reopened(self, _alloc: Global, _calls: u64) -> Option<MemLog> {
        Some(self)
    }
}

/// A store in which a crash leaves a log.
pub(crate) trait LeavesLog: Alter + Drop + Sized {
    /// The log in the store as a crash leaves that, opened again. It stops after so many calls of
    /// its journal.
    fn log_after_crash(self, alloc: Global, calls: u64) -> Option<SqlLog<Self>>;
}

impl<D: StopsAfter> LeavesLog for FileStore<D> {
    fn log_after_crash(self, alloc: Global, calls: u64) -> Option<SqlLog<FileStore<D>>> {
        let files = crashed(self.close());
        match stopping(alloc, &files, Stops::Journal, calls) {
            Ok(files) => log_over(alloc, files),
            Err(_) => None,
        }
    }
}

impl<S: LeavesLog> Crashes for SqlLog<S> {
    fn reopened(self, alloc: Global, calls: u64) -> Option<SqlLog<S>> {
        self.into_connection()
            .into_store()
            .log_after_crash(alloc, calls)
    }
}

/// What is done over a log.
pub(crate) trait OverLog {
    /// Does it, and keeps what that comes to.
    fn over<L: Crashes>(&mut self, rt: &impl Abort, alloc: Global, log: L) -> Result<(), Fail>;
}

/// Does it over a log in a store.
fn over_store<S: LeavesLog, W: OverLog>(
    rt: &impl Abort,
    alloc: Global,
    log: SqlLog<S>,
    work: &mut W,
) -> Result<(), Fail> {
    work.over(rt, alloc, log)
}

/// Opens a log in files, or makes it, and hands it over. Tells whether there was a log.
pub(crate) fn over_files<D: StopsAfter, W: OverLog>(
    rt: &impl Abort,
    alloc: Global,
    files: Files<D>,
    work: &mut W,
) -> Result<bool, Fail> {
    match log_over(alloc, files) {
        Some(log) => match over_store(rt, alloc, log, work) {
            Ok(()) => Ok(true),
            Err(fail) => Err(fail),
        },
        None => Ok(false),
    }
}

/// The same over empty files of which the one stops after so many calls.
pub(crate) fn over_stopping_files<W: OverLog>(
    rt: &impl Abort,
    alloc: Global,
    which: Stops,
    calls: u64,
    work: &mut W,
) -> Result<bool, Fail> {
    let files = stopping(alloc, &blank(alloc), which, calls)?;
    over_files(rt, alloc, files, work)
}
