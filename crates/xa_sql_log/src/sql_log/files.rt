//! The files of a log: opened at a path, and copied into memory.
ghost use Rattle.std.specs.Prelude.{◌≡◌, ◌≢◌, ◌++◌, ◌||◌, [], true, false, codes, length, nat_eq, nat_le, IfErr, IfOk, IsErr, IsErrAnd, IsOk, IsTrue};
ghost use Rattle.std.specs.IoError.{error_kind};
ghost use Rattle.std.specs.List.{starts_with};
ghost use Rattle.std.specs.String.{string_bytes};
ghost use Rattle.sqlite.specs.State.{HasCleanDisk};
ghost use Rattle.sqlite.specs.Files.{file_state, over_files, IsBlankAs, IsOpened};
ghost use Rattle.sqlite_disk.specs.Memory.{memory_bytes};
ghost use Rattle.sqlite_std_file.specs.File.{file_is_usable, IsFresh};
ghost use Rattle.sqlite_wal.specs.Files.{image_at};
ghost use Rattle.xa_log.specs.Contract.{IsStoreFault};
ghost use Rattle.xa_sql_log.specs.FoundFiles.{FindsLogIn};
ghost use Rattle.xa_sql_log.specs.Halves.{is_rest};

use super::SqlLog;
use super::halves::is_rest;
use super::pages::connect;
use sqlite::{Connection, FileFrom, FileStore, Files, Options, Start, Unknown};
use sqlite_disk::{Disk, Memory};
use sqlite_std_file::OpenError;
use std::alloc::{AllocError, Global};
use std::fs;
use std::hash::{BuildHasher, RandomState};
use std::io::{self, ErrorKind, Read};
use std::path::PathBuf;
use xa_log::LogFault;

/// How many pages a log keeps in memory. It reads few again, and each is made when the files are opened: 2,000 take longer
/// than all else that an open does.
const CACHE_PAGES: usize = 128;

/// How a database file begins.
const SQLITE: &[u8] = b"SQLite format 3\0";

/// The same before its first byte is written.
const UNFINISHED: &[u8] = b"\0QLite format 3\0";

/// How a log uses its files, with this seed for the salts of its journal.
pub(super) fn options_of(seed: u64) -> Options {
    Options {
        cache_pages: CACHE_PAGES,
        ..Options::new(seed)
    }
}

/// The options of a log with a seed by chance.
pub(super) fn options_by_chance(rt: &HostRuntime) -> Result<Options, LogFault>
    ensures { IfErr result IsStoreFault }
{
    let Ok(state) = RandomState::new(rt) else {
        return Err(LogFault::Store);
    };
    Ok(options_of(state.hash_one(&0u8)))
}

/// The fault of a file that wasn't read.
pub(super) fn read_fault(error: io::Error) -> LogFault
    ensures { IsStoreFault result }
{
    if error.kind() == ErrorKind::OutOfMemory {
        LogFault::Memory
    } else {
        LogFault::Store
    }
}

/// The fault of files that don't open.
pub(super) fn open_fault(error: OpenError) -> LogFault
    ensures { IsStoreFault result }
{
    match error {
        OpenError::OutOfMemory => LogFault::Memory,
        OpenError::Io(error) => read_fault(error),
        OpenError::Busy | OpenError::HotJournal => LogFault::Store,
    }
}

/// The file at a path and its journal, each made where it is missing. Two paths that SQLite has another meaning for name
/// none: that of a database in memory, and a URI.
fn files_at<S: Start>(
    rt: &HostRuntime,
    path: &str,
    start: S,
) -> Result<Files<FileFrom<S>>, LogFault>
    ensures memory { path.now ≡ codes ":memory:" → IsErrAnd result IsStoreFault }
    ensures cause { IfErr result IsStoreFault }
    ensures usable { IfOk result (λ files.
        IsTrue (file_is_usable S.Start files.log) × IsTrue (file_is_usable S.Start files.db)) }
    ensures fresh { IfOk result (λ files. IsFresh true files.log × IsFresh false files.db) }
{
    if path == ":memory:" || path.starts_with("file:") {
        return Err(LogFault::Store);
    }
    match sqlite_std_file::open(rt, path, start) {
        Ok(files) => Ok(files),
        Err(error) => Err(open_fault(error)),
    }
}

/// Opens the file at a path with a journal beside it.
pub(super) fn connection_to<S: Start>(
    rt: &HostRuntime,
    path: &str,
    start: S,
) -> Result<Connection<FileStore<FileFrom<S>>>, LogFault>
    ensures memory { path.now ≡ codes ":memory:" → IsErrAnd result IsStoreFault }
    ensures cause { IfErr result IsStoreFault }
    ensures opened { IfOk result (λ conn. HasCleanDisk (file_state conn) → IsOpened conn) }
    ensures found { IfOk result (λ conn. HasCleanDisk (file_state conn) →
        FindsLogIn (image_at S.Start) (file_state conn)) }
    ensures plain { IfOk result (λ conn. HasCleanDisk (file_state conn) →
        IsBlankAs false (image_at S.Start) → (over_files.view conn.store).has_sums ≡ false) }
{
    let files = files_at(rt, path, start)?;
    let options = options_by_chance(rt)?;
    connect(rt.alloc(), files, options)
}

/// What the regular file at a path holds. What isn't one is not read: a pipe would keep the reader waiting.
pub(super) fn bytes_at(rt: &HostRuntime, path: &str) -> io::Result<Vec<u8>> {
    if !fs::metadata(rt, path)?.is_file() {
        return Err(ErrorKind::Unsupported.into());
    }
    fs::read(rt, path)
}

/// The bytes that were read, and none of a file that is missing.
pub(super) fn bytes_or_none(alloc: Global, read: io::Result<Vec<u8>>) -> Result<Vec<u8>, LogFault>
    ensures bytes { IfOk read (λ bytes. IfOk result (λ found. found.items ≡ bytes.items)) }
    ensures found { IfOk read (λ _. IsOk result) }
    ensures missing { IfErr read (λ error. error_kind error ≡ ErrorKind.NotFound →
        IfOk result (λ found. found.items ≡ [])) }
    ensures unread { IfErr read (λ error. error_kind error ≢ ErrorKind.NotFound → IsErr result) }
    ensures cause { IfErr result IsStoreFault }
{
    match read {
        Ok(bytes) => Ok(bytes),
        Err(error) if error.kind() == ErrorKind::NotFound => Ok(Vec::new(alloc)),
        Err(error) => Err(read_fault(error)),
    }
}

/// The path of the journal of a database file, in whose path no link is left.
pub fn journal_path(alloc: Global, path: &str) -> Result<String, AllocError>
    ensures { IfOk result (λ text. string_bytes text ≡ path.now ++ codes "-wal") }
{
    let mut text = String::from_str(alloc, path)?;
    text.push_str("-wal")?;
    Ok(text)
}

/// A file in memory that holds these bytes.
fn file_of(alloc: Global, bytes: &[u8]) -> Result<Memory, LogFault>
    ensures usable { IfOk result (λ file. IsTrue (⟦<Memory as Disk>⟧.is_usable file)) }
    ensures bytes { IfOk result (λ file. memory_bytes file ≡ bytes.now) }
    ensures cause { IfErr result IsStoreFault }
{
    let mut file = Memory::new(alloc);
    match file.write_at(0, bytes) {
        Ok(()) => Ok(file),
        Err(error) => Err(read_fault(error)),
    }
}

/// Files in memory that hold these bytes of a journal and of its database.
fn files_of(alloc: Global, journal: &[u8], db: &[u8]) -> Result<Files<Memory>, LogFault>
    ensures log { IfOk result (λ files. IsTrue (⟦<Memory as Disk>⟧.is_usable files.log)) }
    ensures db { IfOk result (λ files. IsTrue (⟦<Memory as Disk>⟧.is_usable files.db)) }
    ensures journal { IfOk result (λ files. memory_bytes files.log ≡ journal.now) }
    ensures database { IfOk result (λ files. memory_bytes files.db ≡ db.now) }
    ensures cause { IfErr result IsStoreFault }
{
    Ok(Files {
        log: file_of(alloc, journal)?,
        db: file_of(alloc, db)?,
    })
}

/// Whether a file begins as a database does, or as one whose first page was written, except for its
/// first byte, which is written last: a kill while the file was first made leaves it so.
fn has_mark(beginning: &[u8]) -> bool
    ensures { result ≡ (starts_with nat_eq beginning.now SQLITE.now || starts_with nat_eq beginning.now UNFINISHED.now) }
{
    beginning.starts_with(SQLITE) || beginning.starts_with(UNFINISHED)
}

/// Whether a file that begins so is to be read, beside a journal of these bytes: it has a
/// database's mark, or one byte at most, or the journal has what is still to be copied into it. So
/// a large file of another kind is refused by its beginning.
fn may_be_database(beginning: &[u8], journal: &[u8]) -> bool
    ensures { result ≡ (nat_le (length beginning.now) 1
        || ((starts_with nat_eq beginning.now SQLITE.now || starts_with nat_eq beginning.now UNFINISHED.now)
        || is_rest journal.now)) }
{
    beginning.len() <= 1 || has_mark(beginning) || is_rest(journal)
}

/// The first bytes of the file at a path, as many as a database's mark has.
fn beginning_of(rt: &HostRuntime, path: &str) -> io::Result<Vec<u8>> {
    if !fs::metadata(rt, path)?.is_file() {
        return Err(ErrorKind::Unsupported.into());
    }
    let mut beginning = Vec::new(rt.alloc());
    fs::open(rt, path)?
        .take(SQLITE.len() as u64)
        .read_to_end(&mut beginning)?;
    Ok(beginning)
}

/// What the journal of the database file at a path holds, in which no link is left, and whether the file is one of another kind.
fn journal_at(rt: &HostRuntime, path: &str) -> Result<(Vec<u8>, bool), LogFault>
    ensures cause { IfErr result IsStoreFault }
{
    let alloc = rt.alloc();
    let journal = journal_path(alloc, path)?;
    let journal = bytes_or_none(alloc, bytes_at(rt, journal.as_str()))?;
    let beginning = bytes_or_none(alloc, beginning_of(rt, path))?;
    let is_another = !may_be_database(&beginning, &journal);
    Ok((journal, is_another))
}

/// The path of a file in which no link is left.
fn real_path(rt: &HostRuntime, path: &str) -> Result<PathBuf, LogFault>
    ensures cause { IfErr result IsStoreFault }
{
    match fs::canonicalize(rt, path) {
        Ok(path) => Ok(path),
        Err(error) => Err(read_fault(error)),
    }
}

/// Copies of the database file at a path and of its journal. As in SQLite, that lies where a link leads. A file of another kind is
/// refused by its beginning.
pub(super) fn copies_of(rt: &HostRuntime, path: &str) -> Result<Files<Memory>, LogFault>
    ensures log { IfOk result (λ files. IsTrue (⟦<Memory as Disk>⟧.is_usable files.log)) }
    ensures db { IfOk result (λ files. IsTrue (⟦<Memory as Disk>⟧.is_usable files.db)) }
    ensures cause { IfErr result IsStoreFault }
{
    let path = real_path(rt, path)?;
    let (journal, is_another) = journal_at(rt, path.as_str())?;
    if is_another {
        return Err(LogFault::Store);
    }
    let db = bytes_or_none(rt.alloc(), bytes_at(rt, path.as_str()))?;
    files_of(rt.alloc(), journal.as_slice(), db.as_slice())
}

impl SqlLog<FileStore<FileFrom<Unknown>>> {
    /// Whether the file at a path is one of another kind: it has more than a byte, and begins otherwise than a database does, while
    /// no journal beside it has what belongs there. Only its first bytes are read, and that journal.
    pub fn is_another_file(rt: &HostRuntime, path: &str) -> Result<bool, LogFault>
        ensures cause { IfErr result IsStoreFault }
    {
        let path = real_path(rt, path)?;
        Ok(journal_at(rt, path.as_str())?.1)
    }
}
