//! Copies of a log's files, in memory. Who looks at a log by way of them neither locks nor writes it, so a manager may run over it
//! meanwhile.

ghost use Rattle.std.specs.Prelude.{◌≡◌, ◌&&◌, nat_eq, take, IsTrue, IfOk};
ghost use Rattle.std.specs.Cmp.Lexicographic.{pointwise};

use crate::failure::Failure;
use crate::files::{is_missing, system_failure};
use crate::log_reasons::{opening_failure, store_failure};
use sqlite::{Alter, Connection, Error, FileStore, Files, Options};
use sqlite_disk::{Disk, Memory};
use std::alloc::Global;
use std::{fs, io};
use xa_log::LogFault;
use xa_sql_log::{SqlLog, journal_path};

/// How long the header of a journal is. It changes whenever the journal begins anew.
const HEADER_LEN: usize = 32;

/// How often the files are read, until no journal began anew meanwhile.
const MOST_READINGS: usize = 100;

/// What a file holds: nothing where there is none.
fn bytes_at(rt: &HostRuntime, path: &str) -> io::Result<Vec<u8>> {
    let error = match fs::read(rt, path) {
        Ok(bytes) => return Ok(bytes),
        Err(error) => error,
    };
    if is_missing(&error) {
        return Ok(Vec::new(rt.alloc()));
    }
    Err(error)
}

/// The header of a journal.
fn header_of(journal: &[u8]) -> &[u8]
    ensures { result.now ≡ take HEADER_LEN journal.now }
{
    if journal.len() <= HEADER_LEN {
        return journal;
    }
    journal.split_at(HEADER_LEN).0
}

/// Whether a journal wasn't begun anew from the moment when it was read before to that when it was read after: it has the same header
/// each time.
fn is_one_journal(before: &[u8], journal: &[u8], after: &[u8]) -> bool
    ensures { result ≡ (pointwise nat_eq (take HEADER_LEN before.now) (take HEADER_LEN journal.now)
        && pointwise nat_eq (take HEADER_LEN after.now) (take HEADER_LEN journal.now)) }
{
    let header = header_of(journal);
    header_of(before) == header && header_of(after) == header
}

/// The database file and the journal of a log, as they stood together at one moment.
///
/// A manager that runs over the log adds to the journal, and copies it into the database file at times, before it begins the
/// journal anew, with another header. So where the header is the same before and after, the journal that was read between
/// has all that was written into the database file meanwhile. What was added while it was read may lack.
fn bytes_of(rt: &HostRuntime, path: &str) -> io::Result<(Vec<u8>, Vec<u8>)> {
    let real = fs::canonicalize(rt, path)?;
    let journal_path = match journal_path(rt.alloc(), real.as_str()) {
        Ok(journal_path) => journal_path,
        Err(error) => return Err(io::Error::from(error)),
    };
    for _ in 0..MOST_READINGS {
        let before = bytes_at(rt, journal_path.as_str())?;
        let db = bytes_at(rt, real.as_str())?;
        let journal = bytes_at(rt, journal_path.as_str())?;
        let after = bytes_at(rt, journal_path.as_str())?;
        if is_one_journal(&before, &journal, &after) {
            return Ok((db, journal));
        }
    }
    Err(io::Error::other("it is written too often to be looked at; try again"))
}

/// A file in memory of these bytes.
fn memory_of(alloc: Global, bytes: &[u8]) -> Result<Memory, io::Error>
    ensures usable { IfOk result (λ file. IsTrue (⟦<Memory as Disk>⟧.is_usable file)) }
{
    let mut file = Memory::new(alloc);
    match file.write_at(0, bytes) {
        Ok(()) => Ok(file),
        Err(error) => Err(error),
    }
}

/// Copies of the files of the log at a path.
fn copies_of(rt: &HostRuntime, path: &str) -> io::Result<Files<Memory>>
    ensures log { IfOk result (λ files. IsTrue (⟦<Memory as Disk>⟧.is_usable files.log)) }
    ensures db { IfOk result (λ files. IsTrue (⟦<Memory as Disk>⟧.is_usable files.db)) }
{
    let (db, journal) = bytes_of(rt, path)?;
    Ok(Files {
        log: memory_of(rt.alloc(), journal.as_slice())?,
        db: memory_of(rt.alloc(), db.as_slice())?,
    })
}

/// The log in a database. One that is shut is opened again there.
fn adopted<S: Alter + Drop>(conn: Connection<S>, is_shut: bool) -> Result<SqlLog<S>, LogFault> {
    if is_shut {
        return SqlLog::reopen(conn);
    }
    match SqlLog::adopt(conn) {
        Ok(log) => Ok(log),
        Err((fault, _conn)) => Err(fault),
    }
}

/// Why no log is in some files.
#[derive(Drop)]
enum CopyFault {
    /// The store's own reason.
    Store(Error),
    /// The log's.
    Log(LogFault),
}

/// The log in files, which may be written.
fn log_in_files<D: Disk + Drop>(
    alloc: Global,
    files: Files<D>,
    is_shut: bool,
) -> Result<SqlLog<FileStore<D>>, CopyFault>
    requires log { IsTrue (D.Disk.is_usable files.log) }
    requires db { IsTrue (D.Disk.is_usable files.db) }
{
    match Connection::open_files(alloc, files, Options::new(0)) {
        Ok(conn) => match adopted(conn, is_shut) {
            Ok(log) => Ok(log),
            Err(fault) => Err(CopyFault::Log(fault)),
        },
        Err((error, _files)) => Err(CopyFault::Store(error)),
    }
}

/// The log at a path, in a copy. What is changed of that changes no file. Of a database without the tables of a log they are made
/// in the copy: whether there is a log, its label tells.
pub(crate) fn copied_log(
    rt: &HostRuntime,
    path: &str,
    is_shut: bool,
) -> Result<SqlLog<FileStore<Memory>>, Failure> {
    let alloc = rt.alloc();
    let files = match copies_of(rt, path) {
        Ok(files) => files,
        Err(error) => return Err(system_failure(alloc, path, &error)),
    };
    match log_in_files(alloc, files, is_shut) {
        Ok(log) => Ok(log),
        Err(CopyFault::Store(error)) => Err(store_failure(alloc, path, &error)?),
        Err(CopyFault::Log(fault)) => Err(opening_failure(rt, path, fault)),
    }
}
