//! A log in files that is shut, so that every start refuses it, until somebody opens it again.
ghost use Rattle.std.specs.Prelude.{◌≡◌, Some, IfErr, IfOk, IsTrue};
ghost use Rattle.sqlite.specs.Files.{image_of};
ghost use Rattle.sqlite.specs.Held.{state};
ghost use Rattle.sqlite.specs.State.{HasCleanDisk};
ghost use Rattle.sqlite_wal.specs.Reads.{AreClean};
ghost use Rattle.xa_log.specs.Content.{Content};
ghost use Rattle.xa_log.specs.Contract.{IsStoreFault};
ghost use Rattle.xa_sql_log.specs.OpenedDatabase.{HasTables, NamesVersion};
ghost use Rattle.xa_sql_log.specs.ShutLogs.{HoldsShut, IsShutWith, shut_version};
ghost use Rattle.xa_sql_log.specs.Sql.{IsReadyWith};

use super::SqlLog;
use crate::shutting::{reopen, shut};
use crate::statements::store_fault;
use sqlite::{Alter, Connection, FileStore, Files};
use sqlite_disk::Disk;
use xa_log::{DecisionLog, LogFault};

impl<D: Disk + Drop> SqlLog<FileStore<D>> {
    /// Shuts the log and closes its files. From then on no open takes it (`shut` of [`SqlLog::open_locked`]), and its rows stay as
    /// they are, until [`SqlLog::reopen`]. If it fails, the log is shut or as it was.
    pub fn shut(self) -> Result<Files<D>, LogFault>
        ensures shut { IfOk result (λ files.
            (⟦<SqlLog<FileStore<D>> as DecisionLog>⟧.moment self).is_in_order →
            AreClean D.Disk files.log files.db → (c : Content) →
            (⟦<SqlLog<FileStore<D>> as DecisionLog>⟧.moment self).content ≡ Some c →
            HoldsShut c (image_of D.Disk files)) }
        ensures cause { IfErr result IsStoreFault }
    {
        let SqlLog {
            mut conn,
            faults: _,
        } = self;
        shut(&mut conn)?;
        match conn.close_files() {
            Ok(files) => Ok(files),
            Err((error, _store)) => Err(store_fault(error)),
        }
    }

    /// As `reopen`, over files.
    pub(super) fn reopen_files(
        conn: Connection<FileStore<D>>,
    ) -> Result<SqlLog<FileStore<D>>, LogFault> {
        SqlLog::reopen(conn)
    }
}

impl<S: Alter + Drop> SqlLog<S> {
    /// Opens a log that is shut again, and takes it as `adopt` does: it holds what it held (`held`). Of a log that isn't shut
    /// it is [`LogFault::Version`] (`shut`).
    pub fn reopen(mut conn: Connection<S>) -> Result<SqlLog<S>, LogFault>
        ensures held { IfOk result (λ log. (c : Content) → IsShutWith c (state S.Store conn) →
            HasCleanDisk (state S.Store log.conn) → IsReadyWith c (state S.Store log.conn)) }
        ensures shut { IfOk result (λ log. HasTables (state S.Store conn) →
            HasCleanDisk (state S.Store log.conn) →
            NamesVersion shut_version (state S.Store conn)) }
    {
        reopen(&mut conn)?;
        SqlLog::adopt_or_close(conn)
    }
}
