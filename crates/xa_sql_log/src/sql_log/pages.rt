//! A connection over the files of a log. Where no database is there, a new one is made with small pages.
ghost use Rattle.std.specs.Prelude.{◌≡◌, ◌↔◌, [], false, IfErr, IfOk, IsTrue};
ghost use Rattle.sqlite.specs.Files.{file_state, image_of, over_files, Finds, IsBlankAs, IsEmpty, IsOpened};
ghost use Rattle.sqlite.specs.State.{HasCleanDisk};
ghost use Rattle.sqlite.specs.Steps.{IsFresh};
ghost use Rattle.sqlite_store.specs.FileStore.{state as store_state, view};
ghost use Rattle.sqlite_store.specs.Unopened as unopened;
ghost use Rattle.sqlite_wal.specs.PageSize.{bytes_of};
ghost use Rattle.sqlite_wal.specs.Reads.{AreClean, OnlyReads};
ghost use Rattle.xa_log.specs.Contract.{IsStoreFault};
ghost use Rattle.xa_sql_log.specs.FoundFiles.{FindsLogIn, IsUnmade};

use crate::statements::store_fault;
use sqlite::{Connection, FileStore, Files, Options};
use sqlite_disk::Disk;
use sqlite_pager::Pager;
use sqlite_pool::probe_blank;
use sqlite_store::{OpenError, Unopened};
use sqlite_wal::PageSize;
use std::alloc::Global;
use xa_log::LogFault;

/// The bytes of a page of a new log. A commit writes each page that it changes, and copies it
/// several times: so small pages make it cheap. A log with larger ones is taken as it is.
const PAGE_BYTES: usize = 1024;

/// The fault of a database that isn't made.
fn make_fault(error: OpenError) -> LogFault
    ensures { IsStoreFault result }
{
    match error {
        OpenError::OutOfMemory => LogFault::Memory,
        OpenError::Io | OpenError::Full | OpenError::Refused => LogFault::Store,
    }
}

/// The fault of files that aren't read.
fn probe_fault(error: sqlite_wal::Error) -> LogFault
    ensures { IsStoreFault result }
{
    match error {
        sqlite_wal::Error::OutOfMemory => LogFault::Memory,
        _ => LogFault::Store,
    }
}

/// Whether no database with pages of this size has been made in the files yet. Nothing is written.
fn is_unmade<D: Disk>(alloc: Global, files: &mut Files<D>, size: PageSize) -> Result<bool, LogFault>
    requires log { IsTrue (D.Disk.is_usable files.old.log) }
    requires db { IsTrue (D.Disk.is_usable files.old.db) }
    requires size { bytes_of size ≡ PAGE_BYTES }
    ensures found { IfOk result (λ it. AreClean D.Disk files.new.log files.new.db →
        (IsTrue it ↔ IsUnmade (image_of D.Disk files.old))) }
    ensures log { OnlyReads D.Disk files.old.log files.new.log }
    ensures db { OnlyReads D.Disk files.old.db files.new.db }
    ensures cause { IfErr result IsStoreFault }
{
    match probe_blank(alloc, files, size, false) {
        Ok(it) => Ok(it),
        Err(error) => Err(probe_fault(error)),
    }
}

/// The files, of which nothing is known yet, with pages of this size.
fn unopened<D: Disk + Drop>(
    alloc: Global,
    files: Files<D>,
    size: PageSize,
    options: Options,
) -> Result<Unopened<D>, LogFault>
    ensures files { IfOk result (λ it. unopened.files_of it ≡ (files.log, files.db)) }
    ensures size { IfOk result (λ it. (unopened.state_of it).page_size ≡ bytes_of size) }
    ensures none { IfOk result (λ it. unopened.wanted_by it ≡ []) }
    ensures cause { IfErr result IsStoreFault }
{
    let Ok(pager) = Pager::new(alloc, files, size, options) else {
        return Err(LogFault::Memory);
    };
    match Unopened::new(alloc, pager, &[]) {
        Ok(it) => Ok(it),
        Err(_) => Err(LogFault::Memory),
    }
}

/// The store of an empty database in files that have none.
fn made<D: Disk + Drop>(files: Unopened<D>) -> Result<FileStore<D>, LogFault>
    requires usable { unopened.AreUsable files }
    requires none { unopened.wanted_by files ≡ [] }
    ensures honest { IfOk result (λ store. IsTrue (view store).is_clean →
        IsTrue (unopened.state_of files).is_clean) }
    ensures fresh { IfOk result (λ store. IsTrue (view store).is_clean → IsFresh (view store)) }
    ensures empty { IfOk result (λ store. IsTrue (view store).is_clean →
        IsEmpty (view store).trees) }
    ensures size { IfOk result (λ store. IsTrue (view store).is_clean →
        (store_state store).page_size ≡ (unopened.state_of files).page_size) }
    ensures cause { IfErr result IsStoreFault }
{
    match files.create() {
        Ok(store) => Ok(store),
        Err((error, _left)) => Err(make_fault(error)),
    }
}

/// A connection over the empty database that is made in files without one.
fn connect_new<D: Disk + Drop>(
    alloc: Global,
    files: Files<D>,
    size: PageSize,
    options: Options,
) -> Result<Connection<FileStore<D>>, LogFault>
    requires log { IsTrue (D.Disk.is_usable files.log) }
    requires db { IsTrue (D.Disk.is_usable files.db) }
    ensures honest { IfOk result (λ conn. HasCleanDisk (file_state conn) →
        AreClean D.Disk files.log files.db) }
    ensures opened { IfOk result (λ conn. HasCleanDisk (file_state conn) → IsOpened conn) }
    ensures empty { IfOk result (λ conn. HasCleanDisk (file_state conn) →
        IsEmpty (file_state conn).committed.trees) }
    ensures plain { IfOk result (λ conn. HasCleanDisk (file_state conn) →
        (over_files.view conn.store).has_sums ≡ false) }
    ensures cause { IfErr result IsStoreFault }
{
    let fresh = unopened(alloc, files, size, options)?;
    let store = made(fresh)?;
    match Connection::over(alloc, store) {
        Ok(conn) => Ok(conn),
        Err((error, _store)) => Err(store_fault(error)),
    }
}

/// A connection over the database that was made in files before.
fn connect_old<D: Disk + Drop>(
    alloc: Global,
    files: Files<D>,
    options: Options,
) -> Result<Connection<FileStore<D>>, LogFault>
    requires log { IsTrue (D.Disk.is_usable files.log) }
    requires db { IsTrue (D.Disk.is_usable files.db) }
    ensures opened { IfOk result (λ conn. HasCleanDisk (file_state conn) → IsOpened conn) }
    ensures found { IfOk result (λ conn. HasCleanDisk (file_state conn) → Finds files conn) }
    ensures plain { IfOk result (λ conn. HasCleanDisk (file_state conn) →
        IsBlankAs false (image_of D.Disk files) →
        (over_files.view conn.store).has_sums ≡ false) }
    ensures cause { IfErr result IsStoreFault }
{
    match Connection::open_files(alloc, files, options) {
        Ok(conn) => Ok(conn),
        Err((error, _left)) => Err(store_fault(error)),
    }
}

/// Opens the files of a log. Where no database is in them, or one that was only begun, an empty one
/// is made; one that is there keeps the pages that it has.
pub(super) fn connect<D: Disk + Drop>(
    alloc: Global,
    mut files: Files<D>,
    options: Options,
) -> Result<Connection<FileStore<D>>, LogFault>
    requires log { IsTrue (D.Disk.is_usable files.log) }
    requires db { IsTrue (D.Disk.is_usable files.db) }
    ensures honest { IfOk result (λ conn. HasCleanDisk (file_state conn) →
        AreClean D.Disk files.log files.db) }
    ensures opened { IfOk result (λ conn. HasCleanDisk (file_state conn) → IsOpened conn) }
    ensures found { IfOk result (λ conn. HasCleanDisk (file_state conn) →
        FindsLogIn (image_of D.Disk files) (file_state conn)) }
    ensures plain { IfOk result (λ conn. HasCleanDisk (file_state conn) →
        IsBlankAs false (image_of D.Disk files) →
        (over_files.view conn.store).has_sums ≡ false) }
    ensures cause { IfErr result IsStoreFault }
{
    let size = PageSize::new(PAGE_BYTES).unwrap();
    if is_unmade(alloc, &mut files, size)? {
        return connect_new(alloc, files, size, options);
    }
    connect_old(alloc, files, options)
}
