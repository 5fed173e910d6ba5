//! The two files of a log: a log over them, and what is done over a connection to them, which is
//! closed then.

use crate::disks::seen::Seen;
use crate::disks::task::{Change, Done, Reached, Task, perform};
use sqlite::{Connection, FileStore, Files, Options};
use sqlite_disk::{Crash, Disk};
use std::alloc::Global;
use xa_log::LogFault;
use xa_sql_log::SqlLog;

/// How files are opened: with little memory for pages, so that a run is short. After so many frames
/// the journal is copied into the database file.
fn options(checkpoint_frames: usize) -> Options {
    Options {
        cache_pages: 16,
        spill_pages: 16,
        checkpoint_frames,
        seed: 7,
    }
}

/// What a task comes to over a connection to files, and the files as they then stand, with no copy
/// of the journal into the database file.
fn perform_over<D: Disk + Drop>(
    conn: Connection<FileStore<D>>,
    task: Task<'_>,
) -> (Done, Files<D>) {
    let (done, store) = perform(conn, task);
    (done, store.close())
}

/// The same over the files. The journal has room for all that the task writes.
fn perform_in<D: Disk + Drop>(alloc: Global, files: Files<D>, task: Task<'_>) -> (Done, Files<D>) {
    if !files.may_be_used() {
        return (Done::Nothing, files);
    }
    match Connection::open_files(alloc, files, options(1000)) {
        Ok(conn) => perform_over(conn, task),
        Err((_, left)) => (Done::Nothing, left.into_files()),
    }
}

/// The files once these statements have run. It is an `Err` if they don't open, or a statement is
/// refused.
pub(crate) fn files_after<D: Disk + Drop>(
    alloc: Global,
    files: Files<D>,
    sql: &str,
) -> Result<Files<D>, LogFault> {
    match perform_in(alloc, files, Task::Execute(sql)) {
        (Done::Executed, files) => Ok(files),
        _ => Err(LogFault::Store),
    }
}

/// What the tables in the files hold, and the files. It is an `Err` if they don't open.
pub(crate) fn look_in<D: Disk + Drop>(
    alloc: Global,
    files: Files<D>,
) -> Result<(Seen, Files<D>), LogFault> {
    match perform_in(alloc, files, Task::Look) {
        (Done::Seen(seen), files) => Ok((seen, files)),
        _ => Err(LogFault::Store),
    }
}

/// How far a log comes that takes the files and makes the change, if there is one, and the files.
pub(crate) fn run_in<D: Disk + Drop>(
    alloc: Global,
    files: Files<D>,
    change: Option<Change>,
) -> (Reached, Files<D>) {
    match perform_in(alloc, files, Task::Run(change)) {
        (Done::Ran(reached), files) => (reached, files),
        (_, files) => (Reached::Nothing, files),
    }
}

/// The files as a crash leaves them.
pub(crate) fn crashed<D: Crash + Drop>(mut files: Files<D>) -> Files<D> {
    files.log.crash();
    files.db.crash();
    files
}

/// How far a run comes, what a crash after it leaves, and what the next log makes of that.
pub(crate) fn crash_after<D: Crash + Drop>(
    alloc: Global,
    files: Files<D>,
    change: Option<Change>,
) -> Result<(Reached, Seen, Seen), LogFault> {
    let (reached, files) = run_in(alloc, files, change);
    let (left, files) = look_in(alloc, crashed(files))?;
    let (_, files) = run_in(alloc, files, None);
    let (next, _) = look_in(alloc, files)?;
    Ok((reached, left, next))
}

/// A log over the files, if they open and it can make its tables. With little room in the journal,
/// so that the database file is written too.
pub(crate) fn log_over<D: Disk + Drop>(
    alloc: Global,
    files: Files<D>,
) -> Option<SqlLog<FileStore<D>>> {
    if !files.may_be_used() {
        return None;
    }
    SqlLog::open_files(alloc, files, options(4)).ok()
}
