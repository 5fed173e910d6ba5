//! Why a log can't be opened, or fails.

use crate::copies::copied_log;
use crate::failure::Failure;
use crate::files::system_failure;
use crate::places::{check_place, name_beside};
use crate::stores::{Spent, work_in_files};
use sqlite::{Connection, Error, ErrorCode, Unknown};
use std::alloc::Global;
use std::fs::{self, OpenOptions};
use std::io::{self, Write};
use std::path::Path;
use xa_files::RunFault;
use xa_log::LogFault;
use xa_sql_log::SqlLog;

/// How many bytes are written to see whether there is room for them: as many as a small log takes.
const TRIED_BYTES: usize = 1 << 16;

const NO_LOG: &str = "not a decision log";

const FULL: &str = "the disk is full";

/// A refusal of the log at a path, which no later try mends.
pub(crate) fn refused(alloc: Global, path: &str, reason: &str) -> Result<Failure, Failure> {
    Ok(Failure::Refused(format!(in alloc; "{path}: {reason}")?))
}

/// A failure of the log at a path, which a later try may not meet.
fn failed(alloc: Global, path: &str, reason: &str) -> Result<Failure, Failure> {
    Ok(Failure::Failed(format!(in alloc; "{path}: {reason}")?))
}

/// The failure of a log that another process has.
pub(crate) fn in_use(alloc: Global, path: &str) -> Failure {
    match format!(in alloc; "{path}: in use by another process") {
        Ok(text) => Failure::InUse(text),
        Err(error) => Failure::from(error),
    }
}

/// What the store's own reason is to the log at a path.
pub(crate) fn store_failure(alloc: Global, path: &str, error: &Error) -> Result<Failure, Failure> {
    match error {
        Error::SqliteFailure(ErrorCode::OutOfMemory) => Ok(Failure::Run(RunFault::Memory)),
        Error::SqliteFailure(ErrorCode::DatabaseBusy) => { Ok(in_use(alloc, path)) }
        Error::SqliteFailure(ErrorCode::DiskFull) => failed(alloc, path, FULL),
        Error::SqliteFailure(ErrorCode::SystemIoFailure) => {
            failed(alloc, path, "the disk failed, or refuses a write")
        }
        Error::SqliteFailure(ErrorCode::NotADatabase) => refused(alloc, path, NO_LOG),
        Error::SqliteFailure(ErrorCode::DatabaseCorrupt) => {
            refused(alloc, path, "damaged, or not a decision log")
        }
        other => Ok(Failure::Failed(format!(in alloc; "{path}: {other}")?)),
    }
}

/// Whether the folder of a path is there.
pub(crate) fn has_folder(rt: &HostRuntime, path: &str) -> bool {
    match Path::new(path).parent() {
        Some(folder) if !folder.as_str().is_empty() => fs::exists(rt, folder).unwrap_or(true),
        _ => true,
    }
}

/// Why the system refuses the path of a log, if it does, or why what lies there is none.
fn path_failure(rt: &HostRuntime, path: &str) -> Result<Option<Failure>, Failure> {
    let alloc = rt.alloc();
    if let Err(failure) = check_place(rt, path) {
        return Ok(Some(failure));
    }
    if !fs::exists(rt, path).unwrap_or(true) {
        return Ok(None);
    }
    if let Err(error) = fs::open(rt, path) {
        return Ok(Some(system_failure(alloc, path, &error)));
    }
    match SqlLog::is_another_file(rt, path) {
        Ok(true) => Ok(Some(refused(alloc, path, NO_LOG)?)),
        _ => Ok(None),
    }
}

/// Tries to write the file at a path, of which nothing changes, or where there is none, one beside it, which is removed.
fn try_to_write(rt: &HostRuntime, path: &str) -> Result<io::Result<()>, Failure> {
    if fs::exists(rt, path).unwrap_or(true) {
        let opened = OpenOptions::new().read(true).write(true).open(rt, path);
        if let Err(error) = opened {
            return Ok(Err(error));
        }
    }
    let beside = name_beside(rt, path)?;
    let tried = write_some(rt, beside.as_str());
    // Where it was never made, there is nothing to remove.
    let _removed = fs::remove_file(rt, beside.as_str());
    Ok(tried)
}

/// Writes some bytes into a new file.
fn write_some(rt: &HostRuntime, path: &str) -> io::Result<()> {
    let mut bytes = Vec::new(rt.alloc());
    bytes.resize(TRIED_BYTES, 0)?;
    let mut file = fs::File::create_new(rt, path)?;
    file.write_all(bytes.as_slice())?;
    file.sync_all()
}

/// Why nothing can be written at a path, if the system says so.
fn write_failure(rt: &HostRuntime, path: &str, told: &str) -> Result<Option<Failure>, Failure> {
    match try_to_write(rt, path)? {
        Ok(()) => Ok(None),
        Err(error) if error.kind() == io::ErrorKind::StorageFull => {
            Ok(Some(failed(rt.alloc(), told, FULL)?))
        }
        Err(error) => Ok(Some(system_failure(rt.alloc(), told, &error))),
    }
}

/// Why there can be no log at a path, if that is so, and no journal lies beside it: an open would make one. Beside a journal what
/// lies there may be a log's all the same, since a crash may tear what is copied into the file.
pub(crate) fn place_failure(rt: &HostRuntime, path: &str) -> Result<Option<Failure>, Failure> {
    match path_failure(rt, path)? {
        // Want of memory is no matter of the path.
        Some(Failure::Run(fault)) => Err(Failure::Run(fault)),
        Some(failure) => {
            match SqlLog::has_journal(rt, path) {
                Ok(false) => Ok(Some(failure)),
                _ => Ok(None),
            }
        }
        None => Ok(None),
    }
}

/// Why the store at a path fails: it is opened and closed once more, to hear its own reason. Where that goes well, it is tried whether
/// anything can be written there; and where that goes well too, no reason is known. No log is made for that.
fn store_reason(rt: &HostRuntime, path: &str, told: &str) -> Result<Failure, Failure> {
    let alloc = rt.alloc();
    let error = if fs::exists(rt, path).unwrap_or(true) {
        opening_error(rt, path)
    } else {
        Some(Error::SqliteFailure(ErrorCode::CannotOpen))
    };
    match error {
        Some(Error::SqliteFailure(ErrorCode::CannotOpen)) => {
            match write_failure(rt, path, told)? {
                Some(failure) => Ok(failure),
                None => failed(alloc, told, "can't be opened or made there"),
            }
        }
        Some(error) => store_failure(alloc, told, &error),
        None => match write_failure(rt, path, told)? {
            Some(failure) => Ok(failure),
            None => failed(
                alloc,
                told,
                "the log failed, for a reason that isn't told, or no manager can start over it",
            ),
        },
    }
}

/// The store's own reason why the database at a path isn't opened and closed, if it isn't.
fn opening_error(rt: &HostRuntime, path: &str) -> Option<Error> {
    match Connection::open_from(rt, path, false, Unknown) {
        Ok(conn) => conn.close().err(),
        Err((error, _left)) => Some(error),
    }
}

/// The failure of the log at a path, with its reason, as that of the log that is told.
fn reason_of(
    rt: &HostRuntime,
    path: &str,
    told: &str,
    fault: LogFault,
) -> Result<Failure, Failure> {
    let alloc = rt.alloc();
    match fault {
        LogFault::Memory => Ok(Failure::Run(RunFault::Memory)),
        LogFault::Version => {
            refused(
                alloc,
                told,
                "not a decision log of a known version: written by a newer xatm?",
            )
        }
        LogFault::Spent => refused(
            alloc,
            told,
            "no incarnation is left: it takes no more starts",
        ),
        LogFault::Store => match path_failure(rt, path)? {
            Some(failure) => Ok(failure),
            None => store_reason(rt, path, told),
        },
    }
}

/// The failure of a log that is made at a path, as that of the path which is told.
pub(crate) fn opening_failure_of(
    rt: &HostRuntime,
    path: &str,
    told: &str,
    fault: LogFault,
) -> Failure {
    match reason_of(rt, path, told, fault) {
        Ok(failure) | Err(failure) => failure,
    }
}

/// The failure of the log at a path that can't be opened.
pub(crate) fn opening_failure(rt: &HostRuntime, path: &str, fault: LogFault) -> Failure {
    opening_failure_of(rt, path, path, fault)
}

/// The failure of a look at a path where there is no log.
pub(crate) fn no_log(rt: &HostRuntime, path: &str) -> Failure {
    let alloc = rt.alloc();
    let reason = match path_failure(rt, path) {
        Ok(Some(failure)) | Err(failure) => return failure,
        Ok(None) if fs::exists(rt, path).unwrap_or(true) => NO_LOG,
        Ok(None) => "no such file",
    };
    match refused(alloc, path, reason) {
        Ok(failure) | Err(failure) => failure,
    }
}

/// The failure of a run over the log at a path, with its reason where it is one of the log.
pub(crate) fn running_failure(rt: &HostRuntime, path: &str, failure: Failure) -> Failure {
    match failure {
        Failure::Run(RunFault::Log) => match late_reason(rt, path) {
            Ok(failure) | Err(failure) => failure,
        },
        other => other,
    }
}

/// The failure of a look at the log at a path, which is no start, with its reason where it is one of the log.
pub(crate) fn looking_failure(rt: &HostRuntime, path: &str, failure: Failure) -> Failure {
    match failure {
        Failure::Run(RunFault::Log) => match store_reason(rt, path, path) {
            Ok(failure) | Err(failure) => failure,
        },
        other => other,
    }
}

/// Why a log that was opened fails.
fn late_reason(rt: &HostRuntime, path: &str) -> Result<Failure, Failure> {
    let mut spent = Spent(false);
    if let Ok(copy) = copied_log(rt, path, false) {
        // A copy is let go: whether it could be closed says nothing of the log.
        let _closed = work_in_files(copy, &mut spent);
    }
    if spent.0 {
        return reason_of(rt, path, path, LogFault::Spent);
    }
    store_reason(rt, path, path)
}
