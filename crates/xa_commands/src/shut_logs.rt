//! A log that is shut by hand, and opened again.

use crate::failure::Failure;
use crate::lists::head_of;
use crate::log_reasons::{in_use, opening_failure, refused};
use crate::stores::{close_in_files, shut_in_files};
use sqlite::Unknown;
use xa_sql_log::{LockFault, SqlLog};

/// The failure of a log that can't be locked.
pub(crate) fn lock_failure(rt: &HostRuntime, path: &str, fault: LockFault) -> Failure {
    match fault {
        LockFault::InUse => in_use(rt.alloc(), path),
        LockFault::Log(fault) => opening_failure(rt, path, fault),
    }
}

/// Shuts the log at a path, so that every start refuses it. One that is shut stays so.
pub fn shut_log(rt: &HostRuntime, path: &str) -> Result<(), Failure> {
    // If there is no log, a lock would make its files.
    let _there = head_of(rt, path)?;
    let files = match SqlLog::lock(rt, path, Unknown) {
        Ok(files) => files,
        Err(fault) => return Err(lock_failure(rt, path, fault)),
    };
    if head_of(rt, path)?.is_shut {
        return Ok(());
    }
    let shut = match SqlLog::open_locked(rt, files, "") {
        Ok(log) => shut_in_files(log),
        Err(fault) => Err(fault),
    };
    shut.map_err(|fault| opening_failure(rt, path, fault))
}

/// Opens the log at a path again, which has to be shut.
pub fn open_log(rt: &HostRuntime, path: &str) -> Result<(), Failure> {
    // If there is no log, a lock would make its files.
    let _there = head_of(rt, path)?;
    let files = match SqlLog::lock(rt, path, Unknown) {
        Ok(files) => files,
        Err(fault) => return Err(lock_failure(rt, path, fault)),
    };
    if !head_of(rt, path)?.is_shut {
        return Err(refused(rt.alloc(), path, "it isn't shut")?);
    }
    let opened = match SqlLog::reopen_locked(rt, files) {
        Ok(log) => close_in_files(log),
        Err(fault) => Err(fault),
    };
    opened.map_err(|fault| opening_failure(rt, path, fault))
}
