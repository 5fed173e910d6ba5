//! A decision log in a database.
ghost use Rattle.std.specs.Prelude.{◌≡◌, false, Ok, Err, IsTrue, IfOk, IfErr};
ghost use Rattle.sqlite.specs.State.{HasCleanDisk};
ghost use Rattle.sqlite.specs.Held.{state};
ghost use Rattle.xa_sql_log.specs.Layouts.{HasOtherTables};
ghost use Rattle.xa_sql_log.specs.OpenedDatabase.{IsFoundLog, IsKnownDatabase};
ghost use Rattle.xa_sql_log.specs.PreparedDatabase.{Prepares};

mod claiming;
mod closing;
mod files;
mod halves;
mod labels;
mod looking;
mod opening;
mod pages;
mod shutting;
mod starts;

use crate::{decisions, groups, heuristics, meta, participants, removals, rows, tables};
pub use claiming::LockFault;
pub use files::journal_path;
pub use opening::memory_is_honest;
use sqlite::{Alter, Connection};
use std::alloc::Global;
use xa_base::{Branch, Gtrid, How};
use xa_log::{Decision, DecisionLog, LogFault, LogRows, Logged, counted};

/// A decision log in four tables of a database, in a file or in memory. While the log has it, no other connection
/// may write the database.
#[derive(Drop)]
pub struct SqlLog<S: Alter> {
    conn: Connection<S>,
    faults: u64,
}

impl<S: Alter + Drop> SqlLog<S> {
    /// Takes a connection: makes the tables of an empty log where the database has none of them, migrates those of
    /// version 1 with all their rows, and keeps those of version 2. A migration and the making of tables are one
    /// transaction each. A failure gives the connection back. Tables, indexes and views of others may stand beside the
    /// log's; of such a database the contract says only that each call is safe.
    ///
    /// - [`LogFault::Version`]: the tables name another version, or lack a number or have one that doesn't fit its
    ///   type; or they have names of a log's and aren't a log's, as where one is missing or has other columns. Nothing
    ///   has changed.
    /// - [`LogFault::Store`]: the store failed, or a transaction is open.
    /// - [`LogFault::Memory`]: a request for memory was refused.
    ///
    /// In the contract `ok` says what the log then holds and `err` what a failure leaves, each by `Prepares`:
    ///
    /// - `made`, `migrated`, `kept`: what the log holds, by what the database was;
    /// - `found`, `found_err`: what a crash may have left of a log in order, also of one that a failure had shut, is a log
    ///   when it is opened again: it is taken with its content, and never refused as unknown;
    /// - `version`: no log is made of the tables of one where no row of `tm_meta` names version 1 or 2 and a natural
    ///   incarnation;
    /// - `known`: a database without tables, or one that a log has left, is refused by the store or for want of memory
    ///   alone;
    /// - `undone`, `unknown`, `refused`: after a failure the database is as it was, or shut;
    /// - `crash`, `crash_kept`: a crash leaves what it might have left before, or all that one transaction made; over
    ///   version 2 nothing else.
    ///
    /// The log is in order, as the clauses of `DecisionLog` ask, over a blank database and one of a log of version 1 or 2
    /// (`order`), and over what a crash may have left of a log (`order_found`).
    pub fn adopt(mut conn: Connection<S>) -> Result<SqlLog<S>, (LogFault, Connection<S>)>
        ensures faults { IfOk result (λ log. log.faults ≡ 0) }
        ensures busy { IsTrue conn.in_transaction → result ≡ Err (LogFault.Store, conn) }
        // Tables that aren't a log's are refused, and nothing is written.
        ensures other { conn.in_transaction ≡ false → HasOtherTables (state S.Store conn) →
            result ≡ Err (LogFault.Version, conn) }
        // What the log then holds, or what a failure leaves.
        ensures ok { IfOk result (λ log. HasCleanDisk (state S.Store log.conn) →
            Prepares (state S.Store conn) (state S.Store log.conn) (Ok tt)) }
        ensures err { IfErr result (λ e. HasCleanDisk (state S.Store e.1) →
            Prepares (state S.Store conn) (state S.Store e.1) (Err e.0)) }
        // The log is in order.
        ensures order { IfOk result (λ log. IsKnownDatabase (state S.Store conn) →
            (⟦<SqlLog<S> as DecisionLog>⟧.moment log).is_in_order) }
        ensures order_found { IfOk result (λ log. IsFoundLog (state S.Store conn) →
            (⟦<SqlLog<S> as DecisionLog>⟧.moment log).is_in_order) }
    {
        match tables::prepare(&mut conn) {
            Ok(()) => {
                // Read for its clause alone: whatever was run, the rows obey the tables.
                let _tables = conn.schema();
                Ok(SqlLog { conn, faults: 0 })
            }
            Err(fault) => Err((fault, conn)),
        }
    }

    /// The connection as it stands.
    pub fn into_connection(self) -> Connection<S>
        ensures { result ≡ self.conn }
    {
        let SqlLog { conn, faults: _ } = self;
        conn
    }
}

impl<S: Alter> DecisionLog for SqlLog<S> {
    ghost use Rattle.sqlite.specs.Held.{state as shown};
    ghost use Rattle.xa_log.specs.Contract.{MayEnd};
    ghost use Rattle.xa_sql_log.specs.SqlLaws.{fits_content, own_content, durable_content};
    ghost use Rattle.xa_sql_log.specs.Sql.{sql_moment};

    ghost moment = { λ log. sql_moment (shown S.Store log.conn) log.faults };

    ghost says = { λ call _ _ _ fault. MayEnd call fault };

    ghost durable = { λ log c d order is left.
        durable_content _ (λ db. S.Store.settled log.conn.store db) c d order.order is left };

    ghost own = { λ log c order is. own_content _ c order.order is };

    ghost fits = { λ log c order is. fits_content _ c order.order is };

    fn commit(&mut self, g: Gtrid, participants: &[Branch]) -> Result<Logged, LogFault> {
        let logged = decisions::commit(&mut self.conn, g, participants);
        counted(&mut self.faults, logged)
    }

    fn commit_all(
        &mut self,
        alloc: Global,
        decisions: &[Decision],
    ) -> Result<Vec<Logged>, LogFault> {
        let answers = groups::commit_all(&mut self.conn, alloc, decisions);
        counted(&mut self.faults, answers)
    }

    fn contains(&mut self, g: Gtrid) -> Result<bool, LogFault> {
        let found = decisions::find_decision(&mut self.conn, g);
        counted(&mut self.faults, found)
    }

    fn participants(&mut self, g: Gtrid) -> Result<Vec<Branch>, LogFault> {
        let list = participants::participants(&mut self.conn, g);
        counted(&mut self.faults, list)
    }

    fn done(&mut self, g: Gtrid) -> Result<bool, LogFault> {
        let found = decisions::done(&mut self.conn, g);
        counted(&mut self.faults, found)
    }

    fn done_all(&mut self, gtrids: &[Gtrid]) -> Result<(), LogFault> {
        let taken = removals::done_all(&mut self.conn, gtrids);
        counted(&mut self.faults, taken)
    }

    fn note_heuristic(&mut self, b: Branch, how: How) -> Result<(), LogFault> {
        let noted = heuristics::note_heuristic(&mut self.conn, b, how);
        counted(&mut self.faults, noted)
    }

    fn heuristic_of(&mut self, b: Branch) -> Result<Option<How>, LogFault> {
        let how = heuristics::find_heuristic(&mut self.conn, b);
        counted(&mut self.faults, how)
    }

    fn bump(&mut self) -> Result<u64, LogFault> {
        let bumped = meta::bump(&mut self.conn);
        counted(&mut self.faults, bumped)
    }

    fn rows(&mut self) -> Result<LogRows, LogFault> {
        let all = rows::rows(&mut self.conn);
        counted(&mut self.faults, all)
    }

    fn faults(&self) -> u64 {
        self.faults
    }
}
