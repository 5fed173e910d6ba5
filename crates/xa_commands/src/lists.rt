//! The log at a path as text.

use crate::copies::copied_log;
use crate::failure::Failure;
use crate::log_names::{manager_in, print_named, refuse_half};
use crate::log_reasons::{looking_failure, no_log, opening_failure};
use crate::logs::shut;
use crate::places::check_place;
use crate::stores::{Listing, incarnation_in_files, work_in_files};
use sqlite::FileStore;
use sqlite_disk::Disk;
use std::alloc::Global;
use std::io::Write;
use xa_diagnostics::log_json;
use xa_files::write_text;
use xa_log::LogFault;
use xa_sql_log::{LogHead, SqlLog};

/// Lists the log at a path, or tells what it asks of an operator (`explains`). Where there is none it fails: who looks at a log makes
/// none. One that can't be opened, since another process runs over it or it can't be written, is looked at in a copy of its files.
pub fn list<W: Write>(
    rt: &HostRuntime,
    path: &str,
    explains: bool,
    out: &mut W,
) -> Result<(), Failure> {
    let alloc = rt.alloc();
    let head = head_of(rt, path)?;
    let name = manager_in(head.label.as_str());
    let explained_for = if explains {
        Some(name.as_slice())
    } else {
        None
    };
    let text = if head.is_shut {
        shut_text(rt, path, explained_for)?
    } else {
        text_about(rt, path, explained_for)?
    };
    let text = String::from_utf8_lossy(alloc, text.as_slice())?;
    print_named(alloc, head.label.as_str(), text.as_str(), out)
}

/// What the log at a path says of itself. If there is none, it fails.
pub(crate) fn head_of(rt: &HostRuntime, path: &str) -> Result<LogHead, Failure> {
    check_place(rt, path)?;
    refuse_half(rt, path)?;
    match SqlLog::head(rt, path) {
        Ok(Some(head)) => Ok(head),
        Ok(None) => Err(no_log(rt, path)),
        Err(fault) => Err(opening_failure(rt, path, fault)),
    }
}

/// What there is to say about a copy of a log that is shut, and that it is.
fn shut_text(
    rt: &HostRuntime,
    path: &str,
    explained_for: Option<&[u8]>,
) -> Result<Vec<u8>, Failure> {
    let copy = copied_log(rt, path, true)?;
    // A copy is let go: whether it could be closed says nothing of the log.
    let (text, _closed) = listed_text(rt.alloc(), explained_for, copy)?;
    // A note that can't be written changes no status.
    let _unwritten = shut(rt.alloc(), path).print(rt);
    Ok(text)
}

/// What there is to say about a log, or about a copy of it.
fn text_about(
    rt: &HostRuntime,
    path: &str,
    explained_for: Option<&[u8]>,
) -> Result<Vec<u8>, Failure> {
    let alloc = rt.alloc();
    match SqlLog::look(rt, path) {
        Ok(log) => {
            let (text, closed) = match listed_text(alloc, explained_for, log) {
                Ok(listed) => listed,
                Err(failure) => return Err(looking_failure(rt, path, failure)),
            };
            match closed {
                Ok(()) => Ok(text),
                Err(fault) => Err(looking_failure(rt, path, Failure::from(fault))),
            }
        }
        Err(LogFault::Store) => {
            let copy = copied_log(rt, path, false)?;
            // A copy is let go: whether it could be closed says nothing of the log.
            let (text, _closed) = listed_text(alloc, explained_for, copy)?;
            // A note that can't be written changes no status.
            let _unwritten = eprintln!(rt;
                "xatm: {path}: another process runs over it, or it can't be written: \
                it is shown as a copy has it"
            );
            Ok(text)
        }
        Err(fault) => Err(opening_failure(rt, path, fault)),
    }
}

/// What there is to say about a log, its incarnation first; and whether it could be closed then.
fn listed_text<D: Disk + Drop>(
    alloc: Global,
    explained_for: Option<&[u8]>,
    mut log: SqlLog<FileStore<D>>,
) -> Result<(Vec<u8>, Result<(), LogFault>), Failure> {
    let mut listing = Listing {
        explained_for,
        text: Vec::new(alloc),
        listed: Ok(()),
    };
    let incarnation = incarnation_in_files(&mut log)?;
    let line = format!(in alloc; "incarnation {incarnation}\n")?;
    listing.text.extend_from_slice(line.as_bytes())?;
    let closed = work_in_files(log, &mut listing);
    listing.listed?;
    Ok((listing.text, closed))
}

/// Lists the log at a path, and prints JSON.
pub fn list_as_json<W: Write>(rt: &HostRuntime, path: &str, out: &mut W) -> Result<(), Failure> {
    let alloc = rt.alloc();
    let mut printed = Vec::new(alloc);
    list(rt, path, false, &mut printed)?;
    let printed = String::from_utf8_lossy(alloc, printed.as_slice())?;
    let json = log_json(alloc, printed.as_str())?;
    Ok(write_text(json.as_bytes(), out)?)
}
