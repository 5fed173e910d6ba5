//! A log that is opened for whoever its label allows. Its files are locked first: what is then read of them stays so until the log
//! is let go.
ghost use Rattle.std.specs.Prelude.{◌≡◌, ◌≢◌, ◌⊎◌, [], true, false, IfErr, IfOk, IsTrue, Ok, Some};
ghost use Rattle.sqlite.specs.State.{HasCleanDisk};
ghost use Rattle.sqlite.specs.Held.{state};
ghost use Rattle.sqlite.specs.Files.{file_state, IsOpened};
ghost use Rattle.sqlite_std_file.specs.File.{file_is_usable, IsFresh};
ghost use Rattle.sqlite_wal.specs.Files.{image_at};
ghost use Rattle.xa_log.specs.Content.{Content, nothing};
ghost use Rattle.xa_log.specs.Contract.{IsStoreFault};
ghost use Rattle.xa_sql_log.specs.FoundFiles.{FindsLogIn};
ghost use Rattle.xa_sql_log.specs.HeldContents.{HoldsContent, MakesLabelled};
ghost use Rattle.xa_sql_log.specs.Labels.{MakesParticipants, labelled};
ghost use Rattle.xa_sql_log.specs.OpenedDatabase.{HasTables, HoldsLog, IsBlank, IsKnownDatabase};
ghost use Rattle.xa_sql_log.specs.PreparedDatabase.{Prepares};
ghost use Rattle.xa_sql_log.specs.ShutLogs.{HoldsShut};
ghost use Rattle.xa_sql_log.specs.Sql.{IsLasting, IsReadyWith};

use super::SqlLog;
use super::files::{open_fault, options_by_chance};
use super::pages::connect;
use crate::label::labelled_text;
use crate::layout::has_log;
use crate::tables::make_tables;
use sqlite::{Alter, Connection, FileFrom, FileStore, Files, Start};
use sqlite_disk::Disk;
use sqlite_std_file::OpenError;
use std::alloc::Global;
use xa_log::{DecisionLog, LogFault};

/// Why the files of a log aren't locked.
#[derive(Clone, Copy, Debug, PartialEq, Eq)]
pub enum LockFault {
    /// Another process has them.
    InUse,
    /// They can't be opened, or memory was refused.
    Log(LogFault),
}

/// Makes the tables of an empty log with a label.
fn make_labelled<S: Alter>(
    alloc: Global,
    conn: &mut Connection<S>,
    label: &str,
) -> Result<(), LogFault>
    ensures made { HasCleanDisk (state S.Store conn.new) → IsBlank (state S.Store conn.old) →
        MakesParticipants (labelled label.now) → result ≡ Ok tt →
        IsReadyWith nothing (state S.Store conn.new) }
    ensures honest { HasCleanDisk (state S.Store conn.new) → HasCleanDisk (state S.Store conn.old) }
    ensures cause { IfErr result IsStoreFault }
{
    if !conn.is_autocommit() {
        return Err(LogFault::Store);
    }
    let text = labelled_text(alloc, label)?;
    make_tables(conn, text.as_str())
}

/// A database in which an empty log is made with this label, if it has no table of a log. Without a label, or beside tables of a
/// log, it stays as it is.
fn with_label<S: Alter + Drop>(
    alloc: Global,
    mut conn: Connection<S>,
    label: &str,
) -> Result<Connection<S>, LogFault>
    ensures kept { IfOk result (λ it. (label.now ≡ []) ⊎ HasTables (state S.Store conn) →
        it ≡ conn) }
    ensures made { IfOk result (λ it. label.now ≢ [] → HasCleanDisk (state S.Store it) →
        IsBlank (state S.Store conn) → MakesParticipants (labelled label.now) →
        IsReadyWith nothing (state S.Store it)) }
    ensures honest { IfOk result (λ it.
        HasCleanDisk (state S.Store it) → HasCleanDisk (state S.Store conn)) }
    ensures cause { IfErr result IsStoreFault }
{
    if label.is_empty() || has_log(&conn) {
        return Ok(conn);
    }
    make_labelled(alloc, &mut conn, label)?;
    Ok(conn)
}

impl<S: Alter + Drop> SqlLog<S> {
    /// Takes a connection as `adopt` does. An empty log that is made gets this label.
    fn adopt_as(alloc: Global, conn: Connection<S>, label: &str) -> Result<SqlLog<S>, LogFault>
        ensures honest { IfOk result (λ log.
            HasCleanDisk (state S.Store log.conn) → HasCleanDisk (state S.Store conn)) }
        ensures kept { IfOk result (λ log. HasCleanDisk (state S.Store log.conn) →
            (label.now ≡ []) ⊎ HasTables (state S.Store conn) →
            Prepares (state S.Store conn) (state S.Store log.conn) (Ok tt)) }
        ensures made { IfOk result (λ log. label.now ≢ [] →
            HasCleanDisk (state S.Store log.conn) → IsBlank (state S.Store conn) →
            MakesParticipants (labelled label.now) →
            IsReadyWith nothing (state S.Store log.conn)) }
        ensures order { IfOk result (λ log. (HasCleanDisk (state S.Store conn) →
            IsKnownDatabase (state S.Store conn) × (label.now ≢ [] → IsBlank (state S.Store conn) →
            MakesParticipants (labelled label.now))) → IsLasting (state S.Store log.conn)) }
    {
        let conn = with_label(alloc, conn, label)?;
        SqlLog::adopt_or_close(conn)
    }
}

impl<D: Disk + Drop> SqlLog<FileStore<D>> {
    /// The same over files.
    fn adopt_files_as(
        alloc: Global,
        conn: Connection<FileStore<D>>,
        label: &str,
    ) -> Result<SqlLog<FileStore<D>>, LogFault>
        ensures honest { IfOk result (λ log.
            HasCleanDisk (file_state log.conn) → HasCleanDisk (file_state conn)) }
        ensures kept { IfOk result (λ log. HasCleanDisk (file_state log.conn) →
            (label.now ≡ []) ⊎ HasTables (file_state conn) →
            Prepares (file_state conn) (file_state log.conn) (Ok tt)) }
        ensures made { IfOk result (λ log. label.now ≢ [] →
            HasCleanDisk (file_state log.conn) → IsBlank (file_state conn) →
            MakesParticipants (labelled label.now) → IsReadyWith nothing (file_state log.conn)) }
        ensures order { IfOk result (λ log. (HasCleanDisk (file_state conn) →
            IsKnownDatabase (file_state conn) × (label.now ≢ [] → IsBlank (file_state conn) →
            MakesParticipants (labelled label.now))) → IsLasting (file_state log.conn)) }
    {
        SqlLog::adopt_as(alloc, conn, label)
    }
}

/// A connection over files that were just opened.
fn connection_over<S: Start>(
    rt: &HostRuntime,
    files: Files<FileFrom<S>>,
) -> Result<Connection<FileStore<FileFrom<S>>>, LogFault>
    requires log { IsTrue (file_is_usable S.Start files.log) }
    requires db { IsTrue (file_is_usable S.Start files.db) }
    requires fresh_log { IsFresh true files.log }
    requires fresh_db { IsFresh false files.db }
    ensures opened { IfOk result (λ conn. HasCleanDisk (file_state conn) → IsOpened conn) }
    ensures found { IfOk result (λ conn. HasCleanDisk (file_state conn) →
        FindsLogIn (image_at S.Start) (file_state conn)) }
    ensures cause { IfErr result IsStoreFault }
{
    let options = options_by_chance(rt)?;
    connect(rt.alloc(), files, options)
}

impl<S: Start> SqlLog<FileStore<FileFrom<S>>> {
    /// Opens the files of the log at a path, or makes them, and locks them: until they are let go no other process opens them, and
    /// so neither does this program. [`LockFault::InUse`] says that another has them.
    ///
    /// `start` stands for what they held, as in `open_from`. What is then read at the path, as by `label` and `is_half`, is so
    /// until [`SqlLog::open_locked`] opens the log.
    pub fn lock(rt: &HostRuntime, path: &str, start: S) -> Result<Files<FileFrom<S>>, LockFault>
        ensures log { IfOk result (λ files. IsTrue (file_is_usable S.Start files.log)) }
        ensures db { IfOk result (λ files. IsTrue (file_is_usable S.Start files.db)) }
        ensures fresh_log { IfOk result (λ files. IsFresh true files.log) }
        ensures fresh_db { IfOk result (λ files. IsFresh false files.db) }
    {
        if path == ":memory:" || path.starts_with("file:") {
            return Err(LockFault::Log(LogFault::Store));
        }
        match sqlite_std_file::open(rt, path, start) {
            Ok(files) => Ok(files),
            Err(OpenError::Busy) => Err(LockFault::InUse),
            Err(error) => Err(LockFault::Log(open_fault(error))),
        }
    }

    /// Opens the log in files that were just locked, as `open_from` does. A log that is made gets this label, in the transaction
    /// that makes its tables; one that is there keeps its own.
    ///
    /// - `order`: the log is in order, if the database file was empty or the files held a log;
    /// - `held`: it has the content that the files held, if they have been honest so far;
    /// - `shut`: a log that was shut isn't opened.
    pub fn open_locked(
        rt: &HostRuntime,
        files: Files<FileFrom<S>>,
        label: &str,
    ) -> Result<SqlLog<FileStore<FileFrom<S>>>, LogFault>
        requires log { IsTrue (file_is_usable S.Start files.log) }
        requires db { IsTrue (file_is_usable S.Start files.db) }
        requires fresh_log { IsFresh true files.log }
        requires fresh_db { IsFresh false files.db }
        ensures order { IfOk result (λ log. HoldsLog (image_at S.Start) →
            MakesLabelled label.now (image_at S.Start) →
            (⟦<SqlLog<FileStore<FileFrom<S>>> as DecisionLog>⟧.moment log).is_in_order) }
        ensures held { IfOk result (λ log. (c : Content) → HoldsContent c (image_at S.Start) →
            MakesLabelled label.now (image_at S.Start) →
            (⟦<SqlLog<FileStore<FileFrom<S>>> as DecisionLog>⟧.moment log).is_honest →
            (⟦<SqlLog<FileStore<FileFrom<S>>> as DecisionLog>⟧.moment log).content ≡ Some c) }
        ensures shut { IfOk result (λ log. (c : Content) → HoldsShut c (image_at S.Start) →
            (⟦<SqlLog<FileStore<FileFrom<S>>> as DecisionLog>⟧.moment log).is_honest → ⊥) }
    {
        let conn = connection_over(rt, files)?;
        SqlLog::adopt_files_as(rt.alloc(), conn, label)
    }

    /// Opens a log that is shut again, in files that were just locked, as [`SqlLog::reopen`] does.
    pub fn reopen_locked(
        rt: &HostRuntime,
        files: Files<FileFrom<S>>,
    ) -> Result<SqlLog<FileStore<FileFrom<S>>>, LogFault>
        requires log { IsTrue (file_is_usable S.Start files.log) }
        requires db { IsTrue (file_is_usable S.Start files.db) }
        requires fresh_log { IsFresh true files.log }
        requires fresh_db { IsFresh false files.db }
    {
        SqlLog::reopen_files(connection_over(rt, files)?)
    }
}
