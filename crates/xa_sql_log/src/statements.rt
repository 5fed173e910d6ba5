//! Statements over the tables of a log.
ghost use Rattle.std.specs.Prelude.{◌≡◌, ◌≤◌, pos, Ok, Err, IfOk, IfErr, OnOk, OnErr};
ghost use Rattle.sqlite.specs.declared.error.Error.{Error};
ghost use Rattle.sqlite.specs.State.{HasCleanDisk};
ghost use Rattle.sqlite.specs.Held.{state};
ghost use Rattle.sqlite.specs.Given.{IsPlain};
ghost use Rattle.sqlite.specs.Listing.{understood};
ghost use Rattle.sqlite.specs.Values.{bound};
ghost use Rattle.xa_sql_log.specs.Tables.{log_schema};
ghost use Rattle.xa_log.specs.Contract.{IsStoreFault};
ghost use Rattle.xa_log.specs.Content.{last_number};
ghost use Rattle.xa_sql_log.specs.Faults.{store_fault_of};
ghost use Rattle.xa_sql_log.specs.Sql.{RunsChanging, IsOrderly, OnlyReads, Rests, AnswersQuery, RunsFrom, LeavesBy};

use sqlite::{Alter, Connection, Error, ErrorCode, Row};
use sqlite_value::value::ValueRef;
use xa_log::LogFault;

/// The fault of a store that failed. Its cause is not told, but for a growth that was refused.
pub(crate) fn store_fault(error: Error) -> LogFault
    ensures kind { IsStoreFault result }
    ensures told { result ≡ store_fault_of error }
{
    match error {
        Error::SqliteFailure(ErrorCode::OutOfMemory) => LogFault::Memory,
        _ => LogFault::Store,
    }
}

/// What the store answered, with its failure as a log tells it.
pub(crate) fn of_store<T>(answer: Result<T, Error>) -> Result<T, LogFault>
    ensures ok { IfOk result (λ value. answer ≡ Ok value) }
    ensures err { IfErr result (λ fault.
        IsStoreFault fault × ((error : Error) × (answer ≡ Err error))) }
{
    match answer {
        Ok(value) => Ok(value),
        Err(error) => Err(store_fault(error)),
    }
}

/// A number as a row has it.
pub(crate) fn stored(number: u64) -> i64
    requires { number ≤ last_number }
    ensures { result ≡ pos number }
{
    number as i64
}

/// Asks for all rows of an answer. The statement is prepared first, so that one that would write is never run on a log that is shut.
pub(crate) fn ask<S: Alter>(
    conn: &mut Connection<S>,
    sql: &str,
    params: &[ValueRef<'_>],
) -> Result<Vec<Row>, LogFault>
    requires { IsPlain (understood log_schema sql.now) }
    ensures reads { OnlyReads (state S.Store conn.old) (state S.Store conn.new) }
    ensures shown { IsOrderly (state S.Store conn.old) → HasCleanDisk (state S.Store conn.new)
        → IfOk result (λ rows. AnswersQuery S.Store sql.now (bound params.now) conn.old
        conn.new rows.items) }
    ensures cause { IfErr result IsStoreFault }
{
    let statement = of_store(conn.prepare(sql))?;
    let rows = of_store(statement.query_all(conn, params))?;
    Ok(rows)
}

/// Runs a statement that writes, and answers how many rows it changed.
pub(crate) fn changed<S: Alter>(
    conn: &mut Connection<S>,
    sql: &str,
    params: &[ValueRef<'_>],
) -> Result<usize, LogFault>
    requires { IsPlain (understood log_schema sql.now) }
    ensures honest { HasCleanDisk (state S.Store conn.new) → HasCleanDisk (state S.Store conn.old) }
    ensures ran { IsOrderly (state S.Store conn.old) → HasCleanDisk (state S.Store conn.new)
        → IfOk result (RunsChanging S.Store sql.now (bound params.now) conn.old conn.new) }
    ensures rests { IsOrderly (state S.Store conn.old) → HasCleanDisk (state S.Store conn.new)
        → OnErr result (Rests (state S.Store conn.old) (state S.Store conn.new)) }
    ensures crash { IsOrderly (state S.Store conn.old) → HasCleanDisk (state S.Store conn.new)
        → LeavesBy S.Store sql.now (bound params.now) conn.old conn.new }
    ensures cause { IfErr result IsStoreFault }
{
    let statement = of_store(conn.prepare(sql))?;
    let rows = of_store(statement.execute(conn, params))?;
    Ok(rows)
}

/// Runs a statement that writes.
pub(crate) fn run<S: Alter>(
    conn: &mut Connection<S>,
    sql: &str,
    params: &[ValueRef<'_>],
) -> Result<(), LogFault>
    requires { IsPlain (understood log_schema sql.now) }
    ensures honest { HasCleanDisk (state S.Store conn.new) → HasCleanDisk (state S.Store conn.old) }
    ensures ran { IsOrderly (state S.Store conn.old) → HasCleanDisk (state S.Store conn.new)
        → OnOk result (RunsFrom S.Store sql.now (bound params.now) conn.old conn.new) }
    ensures rests { IsOrderly (state S.Store conn.old) → HasCleanDisk (state S.Store conn.new)
        → OnErr result (Rests (state S.Store conn.old) (state S.Store conn.new)) }
    ensures crash { IsOrderly (state S.Store conn.old) → HasCleanDisk (state S.Store conn.new)
        → LeavesBy S.Store sql.now (bound params.now) conn.old conn.new }
    ensures cause { IfErr result IsStoreFault }
{
    let _rows = changed(conn, sql, params)?;
    Ok(())
}
