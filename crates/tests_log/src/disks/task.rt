//! What is done over a connection: statements run, its tables are looked at, or a log takes it and
//! may make a change.

ghost use Rattle.std.specs.Prelude.{◌≡◌, ◌≤◌};
ghost use Rattle.xa_log.specs.Contract.{FitsRow};

use crate::disks::seen::{Seen, look};
use sqlite::{Alter, Connection};
use xa_base::{Branch, Gtrid, How};
use xa_log::{DecisionLog, LogFault};
use xa_sql_log::SqlLog;

/// A call that changes the log.
#[derive(Clone, Copy)]
pub(crate) enum Change {
    Commit,
    Done,
    Note,
    Bump,
}

/// How far a run of a log came.
#[derive(Clone, Copy)]
pub(crate) enum Reached {
    /// The files did not open.
    Nothing,
    /// The log refused them.
    Refused(LogFault),
    /// The log has them, and the call that makes the change failed.
    Adopted,
    /// The log has them, and made the change if there was one.
    End,
}

/// What is done.
#[derive(Clone, Copy)]
pub(crate) enum Task<'a> {
    Execute(&'a str),
    Look,
    /// A log takes the connection, and makes the change if there is one.
    Run(Option<Change>),
}

/// What a task came to.
#[derive(Clone, Copy)]
pub(crate) enum Done {
    /// There was no connection, or a statement was refused.
    Nothing,
    Executed,
    Seen(Seen),
    Ran(Reached),
}

/// A transaction of the first incarnation.
fn gtrid(sequence: u64) -> Gtrid
    requires { sequence ≤ 1000 }
    ensures { FitsRow result }
{
    Gtrid {
        incarnation: 1,
        sequence,
    }
}

/// The branch of a transaction at a resource manager.
fn branch(gtrid: Gtrid, rm: u32) -> Branch
    ensures { result.gtrid ≡ gtrid }
{
    Branch {
        gtrid,
        thread: 0,
        rm,
    }
}

/// Makes the change, and tells whether the call succeeded.
fn makes<L: DecisionLog>(log: &mut L, change: Change) -> bool {
    let (first, second) = (gtrid(1), gtrid(2));
    match change {
        Change::Commit => {
            let participants = [branch(second, 0), branch(second, 1), branch(second, 2)];
            log.commit(second, &participants).is_ok()
        }
        Change::Done => log.done(first).is_ok(),
        Change::Note => log.note_heuristic(branch(first, 0), How::Mix).is_ok(),
        Change::Bump => log.bump().is_ok(),
    }
}

/// A log takes the connection, makes the change if there is one, and gives the connection back.
fn run_on<S: Alter + Drop>(
    conn: Connection<S>,
    change: Option<Change>,
) -> (Reached, Connection<S>) {
    let mut log = match SqlLog::adopt(conn) {
        Ok(log) => log,
        Err((fault, conn)) => return (Reached::Refused(fault), conn),
    };
    let is_made = match change {
        Some(change) => makes(&mut log, change),
        None => true,
    };
    let reached = if is_made {
        Reached::End
    } else {
        Reached::Adopted
    };
    (reached, log.into_connection())
}

fn execute<S: Alter>(mut conn: Connection<S>, sql: &str) -> (Done, Connection<S>) {
    let done = match conn.execute_batch(sql) {
        Ok(()) => Done::Executed,
        Err(_) => Done::Nothing,
    };
    (done, conn)
}

/// Does it, and gives the store back.
pub(crate) fn perform<S: Alter + Drop>(conn: Connection<S>, task: Task<'_>) -> (Done, S) {
    let (done, conn) = perform_on(conn, task);
    (done, conn.into_store())
}

/// Does it, and gives the connection back.
fn perform_on<S: Alter + Drop>(mut conn: Connection<S>, task: Task<'_>) -> (Done, Connection<S>) {
    match task {
        Task::Execute(sql) => execute(conn, sql),
        Task::Look => (Done::Seen(look(&mut conn)), conn),
        Task::Run(change) => {
            let (reached, conn) = run_on(conn, change);
            (Done::Ran(reached), conn)
        }
    }
}
