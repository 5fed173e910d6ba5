//! A log that is opened: in memory, and in the file at a path.
ghost use Rattle.std.specs.Prelude.{◌≡◌, codes, Ok, IfOk, IsErrAnd};
ghost use Rattle.sqlite.specs.State.{HasCleanDisk};
ghost use Rattle.sqlite.specs.Held.{state};
ghost use Rattle.sqlite.specs.Steps.{over_memory};
ghost use Rattle.sqlite.specs.Files.{file_state};
ghost use Rattle.sqlite_wal.specs.Files.{image_at};
ghost use Rattle.xa_log.specs.Content.{nothing};
ghost use Rattle.xa_log.specs.Contract.{IsStoreFault};
ghost use Rattle.xa_sql_log.specs.Sql.{IsLasting, IsReadyWith};
ghost use Rattle.xa_sql_log.specs.declared.sql_log.SqlLog.{SqlLog as Log};
ghost use Rattle.xa_sql_log.specs.OpenedDatabase.{IsKnownDatabase, HoldsLog, HoldsLogOrNothing};
ghost use Rattle.xa_sql_log.specs.PreparedDatabase.{IsOverFiles, Prepares};

use super::SqlLog;
use super::files::connection_to;
use sqlite::{Alter, Connection, FileFrom, FileStore, MemStore, Start, Unknown};
use sqlite_disk::Disk;
use std::alloc::Global;
use xa_log::{DecisionLog, LogFault};

impl<S: Alter + Drop> SqlLog<S> {
    /// Does what `adopt` does, and closes the connection where that fails.
    pub(super) fn adopt_or_close(conn: Connection<S>) -> Result<SqlLog<S>, LogFault>
        ensures faults { IfOk result (λ log. log.faults ≡ 0) }
        ensures taken { IfOk result (λ log. HasCleanDisk (state S.Store log.conn) →
            Prepares (state S.Store conn) (state S.Store log.conn) (Ok tt)) }
        ensures order { IfOk result (λ log.
            (HasCleanDisk (state S.Store conn) → IsKnownDatabase (state S.Store conn)) →
            IsLasting (state S.Store log.conn)) }
    {
        match SqlLog::adopt(conn) {
            Ok(log) => Ok(log),
            Err((fault, _)) => Err(fault),
        }
    }
}

impl SqlLog<MemStore> {
    /// An empty log in memory, which is in order.
    pub fn open_in_memory(alloc: Global) -> Result<SqlLog<MemStore>, LogFault>
        ensures faults { IfOk result (λ log. log.faults ≡ 0) }
        ensures empty { IfOk result (λ log. IsReadyWith nothing (state over_memory log.conn)) }
        ensures honest { IfOk result (λ log. HasCleanDisk (state over_memory log.conn)) }
        ensures order { IfOk result (λ log.
            (⟦<SqlLog<MemStore> as DecisionLog>⟧.moment log).is_in_order) }
    {
        let conn = Connection::open_in_memory(alloc)?;
        SqlLog::adopt_or_close(conn)
    }
}

/// A log in memory is honest at every moment: nobody else writes it, and it gives back what was written. This does nothing:
/// its clause is a law.
pub fn memory_is_honest()
    ensures { (log : Log MemStore) →
        (⟦<SqlLog<MemStore> as DecisionLog>⟧.moment log).is_honest }
{}

impl<D: Disk + Drop> SqlLog<FileStore<D>> {
    /// The same over files. A proof that goes from any store to the host's files by way of this one is far smaller.
    pub(super) fn adopt_files(
        conn: Connection<FileStore<D>>,
    ) -> Result<SqlLog<FileStore<D>>, LogFault>
        ensures faults { IfOk result (λ log. log.faults ≡ 0) }
        ensures taken { IfOk result (λ log. HasCleanDisk (file_state log.conn) →
            Prepares (file_state conn) (file_state log.conn) (Ok tt)) }
        ensures order { IfOk result (λ log.
            (HasCleanDisk (file_state conn) → IsKnownDatabase (file_state conn)) →
            IsLasting (file_state log.conn)) }
    {
        SqlLog::adopt_or_close(conn)
    }
}

impl<S: Start> SqlLog<FileStore<FileFrom<S>>> {
    /// Opens the log in the file at a path, or makes it, as `adopt` does. The file's journal lies beside it; both
    /// are of this log alone. [`LogFault::Store`] comes also where the files can't be opened or hold no database, and
    /// for the path `:memory:`, which names no file.
    ///
    /// The log is in order, as the clauses of `DecisionLog` ask, where the database file was empty or the files held a
    /// log (`order`), and where an open may find in them no table at all, or a log (`order_found`).
    ///
    /// `start` stands for what the files held, which the contract names. A program passes [`sqlite::Unknown`], or
    /// [`sqlite::Wary`], which syncs twice for each commit and so supposes less of a write that a crash tears.
    pub fn open_from(
        rt: &HostRuntime,
        path: &str,
        start: S,
    ) -> Result<SqlLog<FileStore<FileFrom<S>>>, LogFault>
        ensures faults { IfOk result (λ log. log.faults ≡ 0) }
        ensures opened { IfOk result (λ log. HasCleanDisk (file_state log.conn) →
            IsOverFiles (image_at S.Start) log.conn) }
        ensures order { IfOk result (λ log. HoldsLog (image_at S.Start) →
            (⟦<SqlLog<FileStore<FileFrom<S>>> as DecisionLog>⟧.moment log).is_in_order) }
        ensures order_found { IfOk result (λ log. HoldsLogOrNothing (image_at S.Start) →
            (⟦<SqlLog<FileStore<FileFrom<S>>> as DecisionLog>⟧.moment log).is_in_order) }
        ensures memory { path.now ≡ codes ":memory:" → IsErrAnd result IsStoreFault }
    {
        let conn = connection_to(rt, path, start)?;
        SqlLog::adopt_files(conn)
    }
}

impl SqlLog<FileStore<FileFrom<Unknown>>> {
    /// Opens the log in the file at a path, or makes it, as `open_from` does with [`sqlite::Unknown`]. Over files that
    /// aren't empty, no proof shows that the clause `opened` says anything: a program that states a theorem over such
    /// files calls `open_from`.
    pub fn open(
        rt: &HostRuntime,
        path: &str,
    ) -> Result<SqlLog<FileStore<FileFrom<Unknown>>>, LogFault>
        ensures faults { IfOk result (λ log. log.faults ≡ 0) }
        ensures opened { IfOk result (λ log. HasCleanDisk (file_state log.conn) →
            IsOverFiles (image_at ⟦<Unknown as Start>⟧) log.conn) }
        ensures order { IfOk result (λ log. HoldsLog (image_at ⟦<Unknown as Start>⟧) →
            (⟦<SqlLog<FileStore<FileFrom<Unknown>>> as DecisionLog>⟧.moment log).is_in_order) }
        ensures order_found { IfOk result
            (λ log. HoldsLogOrNothing (image_at ⟦<Unknown as Start>⟧) →
            (⟦<SqlLog<FileStore<FileFrom<Unknown>>> as DecisionLog>⟧.moment log).is_in_order) }
        ensures memory { path.now ≡ codes ":memory:" → IsErrAnd result IsStoreFault }
    {
        SqlLog::open_from(rt, path, Unknown)
    }
}
