//! A log that is looked at. Who looks makes none, and an open writes where there is none: so the files are tried on a
//! copy first.
ghost use Rattle.std.specs.Prelude.{◌≡◌, codes, Err, IsErr, IsTrue, IfOk, IfErr};
ghost use Rattle.sqlite.specs.State.{HasCleanDisk};
ghost use Rattle.sqlite.specs.Held.{state};
ghost use Rattle.sqlite.specs.Files.{file_state};
ghost use Rattle.sqlite_wal.specs.Files.{image_at};
ghost use Rattle.xa_log.specs.Contract.{IsStoreFault};
ghost use Rattle.xa_sql_log.specs.OpenedDatabase.{HoldsLog, HoldsLogOrNothing, IsBlank};
ghost use Rattle.xa_sql_log.specs.PreparedDatabase.{IsOverFiles};

use super::SqlLog;
use super::files::{copies_of, options_of};
use super::pages::connect;
use crate::layout::has_log;
use crate::statements::of_store;
use sqlite::{Alter, Connection, FileFrom, FileStore, Files, Unknown};
use sqlite_disk::{Disk, Start};
use std::alloc::Global;
use xa_log::{DecisionLog, LogFault};

/// Whether a log takes a database that has the tables of one. No table is made.
fn try_database<S: Alter + Drop>(conn: Connection<S>) -> Result<(), LogFault>
    ensures blank { IsBlank (state S.Store conn) → result ≡ Err LogFault.Version }
{
    if !has_log(&conn) {
        return Err(LogFault::Version);
    }
    match SqlLog::adopt(conn) {
        Ok(_log) => Ok(()),
        Err((fault, _conn)) => Err(fault),
    }
}

/// The same of the database in these files.
fn try_files<D: Disk + Drop>(alloc: Global, files: Files<D>) -> Result<(), LogFault>
    requires log { IsTrue (D.Disk.is_usable files.log) }
    requires db { IsTrue (D.Disk.is_usable files.db) }
{
    try_database(connect(alloc, files, options_of(0))?)
}

impl SqlLog<FileStore<FileFrom<Unknown>>> {
    /// Opens the log that is in the file at a path, as `open` does: one of version 1 is migrated. Where there is no file,
    /// or no log in it, it fails, and makes none: neither the file nor its journal is written then. What the files hold
    /// is read once more for that, into memory.
    ///
    /// [`LogFault::Version`] comes also for a file that is empty, and for a database that has no table of a log.
    pub fn look(
        rt: &HostRuntime,
        path: &str,
    ) -> Result<SqlLog<FileStore<FileFrom<Unknown>>>, LogFault>
        ensures faults { IfOk result (λ log. log.faults ≡ 0) }
        ensures opened { IfOk result (λ log. HasCleanDisk (file_state log.conn) →
            IsOverFiles (image_at ⟦<Unknown as Start>⟧) log.conn) }
        ensures order { IfOk result (λ log. HoldsLog (image_at ⟦<Unknown as Start>⟧) →
            (⟦<SqlLog<FileStore<FileFrom<Unknown>>> as DecisionLog>⟧.moment log).is_in_order) }
        ensures order_found { IfOk result
            (λ log. HoldsLogOrNothing (image_at ⟦<Unknown as Start>⟧) →
            (⟦<SqlLog<FileStore<FileFrom<Unknown>>> as DecisionLog>⟧.moment log).is_in_order) }
        ensures memory { path.now ≡ codes ":memory:" → IsErr result }
    {
        let copies = copies_of(rt, path)?;
        try_files(rt.alloc(), copies)?;
        SqlLog::open(rt, path)
    }
}

impl<D: Disk + Drop> SqlLog<FileStore<D>> {
    /// Copies the journal into the database file, which then holds the whole log by itself, and closes both. A log that
    /// is dropped loses nothing, but lies in both files, which belong together.
    pub fn close(self) -> Result<(), LogFault>
        ensures { IfErr result IsStoreFault }
    {
        let SqlLog { conn, faults: _ } = self;
        of_store(conn.close())
    }
}
