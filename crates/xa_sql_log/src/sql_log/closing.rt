//! The files of a log: copied into one and closed, and opened again.
ghost use Rattle.std.specs.Prelude.{◌≡◌, Some, IsTrue, IfOk, IfErr};
ghost use Rattle.sqlite.specs.State.{HasCleanDisk, IsLive};
ghost use Rattle.sqlite.specs.Held.{state};
ghost use Rattle.sqlite.specs.Files.{file_state, image_of};
ghost use Rattle.sqlite_wal.specs.Reads.{AreClean};
ghost use Rattle.xa_log.specs.Content.{Content};
ghost use Rattle.xa_log.specs.Contract.{IsStoreFault};
ghost use Rattle.xa_sql_log.specs.ClosedFiles.{HoldsWhole};
ghost use Rattle.xa_sql_log.specs.OpenedDatabase.{HoldsLog};
ghost use Rattle.xa_sql_log.specs.PreparedDatabase.{IsOverFiles};

use super::SqlLog;
use super::pages::connect;
use crate::statements::store_fault;
use sqlite::{Alter, Connection, FileStore, Files, Options};
use sqlite_disk::Disk;
use std::alloc::Global;
use xa_log::{DecisionLog, LogFault};

/// The connection as it is: its rows obey the tables.
fn with_live_tables<S: Alter + Drop>(conn: Connection<S>) -> Connection<S>
    ensures same { result ≡ conn }
    ensures live { IsLive (state S.Store conn) }
{
    let _tables = conn.schema();
    conn
}

impl<D: Disk + Drop> SqlLog<FileStore<D>> {
    /// Copies the journal into the database file, which then holds the whole log by itself, and gives the files back: of a
    /// log in order `held` says so, where no file has given back other than what was written (`honest`). A log that is
    /// dropped loses nothing either, but lies in both files.
    pub fn close_files(self) -> Result<Files<D>, (LogFault, FileStore<D>)>
        ensures usable { IfOk result (λ files.
            IsTrue (D.Disk.is_usable files.log) × IsTrue (D.Disk.is_usable files.db)) }
        ensures held { IfOk result (λ files.
            (⟦<SqlLog<FileStore<D>> as DecisionLog>⟧.moment self).is_in_order →
            AreClean D.Disk files.log files.db → (c : Content) →
            (⟦<SqlLog<FileStore<D>> as DecisionLog>⟧.moment self).content ≡ Some c →
            HoldsWhole c (image_of D.Disk files)) }
        ensures honest { IfOk result (λ files. AreClean D.Disk files.log files.db →
            (⟦<SqlLog<FileStore<D>> as DecisionLog>⟧.moment self).is_honest) }
        ensures cause { IfErr result (λ e. IsStoreFault e.0) }
    {
        let SqlLog { conn, faults: _ } = self;
        let conn = with_live_tables(conn);
        match conn.close_files() {
            Ok(files) => Ok(files),
            Err((error, store)) => Err((store_fault(error), store)),
        }
    }

    /// Opens the log in these files, or makes it, as `adopt` does. The log is in order where the database file was empty or
    /// the files held a log (`order`); and of files that hold a whole log it has the content (`held`).
    pub fn open_files(
        alloc: Global,
        files: Files<D>,
        options: Options,
    ) -> Result<SqlLog<FileStore<D>>, LogFault>
        requires log { IsTrue (D.Disk.is_usable files.log) }
        requires db { IsTrue (D.Disk.is_usable files.db) }
        ensures faults { IfOk result (λ log. log.faults ≡ 0) }
        ensures honest { IfOk result (λ log.
            (⟦<SqlLog<FileStore<D>> as DecisionLog>⟧.moment log).is_honest →
            AreClean D.Disk files.log files.db) }
        ensures opened { IfOk result (λ log. HasCleanDisk (file_state log.conn) →
            IsOverFiles (image_of D.Disk files) log.conn) }
        ensures order { IfOk result (λ log. HoldsLog (image_of D.Disk files) →
            (⟦<SqlLog<FileStore<D>> as DecisionLog>⟧.moment log).is_in_order) }
        ensures held { IfOk result (λ log. (c : Content) → HoldsWhole c (image_of D.Disk files) →
            (⟦<SqlLog<FileStore<D>> as DecisionLog>⟧.moment log).is_honest →
            (⟦<SqlLog<FileStore<D>> as DecisionLog>⟧.moment log).content ≡ Some c) }
    {
        let conn = connect(alloc, files, options)?;
        SqlLog::adopt_files(conn)
    }
}
