//! The label of a log is changed, by the text that makes the table `participant`.

ghost use Rattle.std.specs.Prelude.{◌≡◌, false, Err, IfErr};
ghost use Rattle.xa_log.specs.Contract.{IsStoreFault};
ghost use Rattle.xa_sql_log.specs.Labels.{is_label};

use crate::participants::make_anew;
use sqlite::{Alter, Connection, Error, ErrorCode, FileStore};
use sqlite_disk::Disk;
use std::alloc::{AllocError, Global};
use xa_log::LogFault;
use xa_sql_log::{SqlLog, is_label};

const FIND_TEXT: &str = "SELECT sql FROM sqlite_schema WHERE name = 'participant'";

/// What the store answered, with its failure as a log tells it.
fn of_store<T>(answer: Result<T, Error>) -> Result<T, LogFault>
    ensures { IfErr result IsStoreFault }
{
    match answer {
        Ok(value) => Ok(value),
        Err(Error::SqliteFailure(ErrorCode::OutOfMemory)) => Err(LogFault::Memory),
        Err(_) => Err(LogFault::Store),
    }
}

/// What makes the table in such a text, up to the label; where there is none, up to the end.
fn table_in(sql: &str) -> Option<&str> {
    match sql.split_once(" /* ") {
        Some((table, _label)) => Some(table),
        None => sql.strip_suffix(")"),
    }
}

/// The text that makes this table with this label.
fn labelled_text(alloc: Global, table: &str, label: &str) -> Result<String, AllocError> {
    let mut text = String::from_str(alloc, table)?;
    text.push_str(" /* ")?;
    text.push_str(label)?;
    text.push_str(" */)")?;
    Ok(text)
}

/// The text that made the table of a log.
fn find_text<S: Alter>(conn: &mut Connection<S>) -> Result<String, Error> {
    conn.query_row(FIND_TEXT, &[])?.get(0)
}

/// Makes the table anew by this statement, in one transaction.
fn make_table<S: Alter>(conn: &mut Connection<S>, statement: &str) -> Result<(), LogFault>
    ensures { IfErr result IsStoreFault }
{
    if !conn.is_autocommit() {
        return Err(LogFault::Store);
    }
    let mut tx = conn.transaction();
    of_store(make_anew(&mut tx, statement))?;
    of_store(tx.commit())
}

/// Gives the log in a database another label.
fn write_label<S: Alter>(
    alloc: Global,
    conn: &mut Connection<S>,
    label: &str,
) -> Result<(), LogFault>
    ensures { IfErr result IsStoreFault }
{
    let sql = of_store(find_text(conn))?;
    let Some(table) = table_in(sql.as_str()) else {
        return Err(LogFault::Store);
    };
    let text = labelled_text(alloc, table, label)?;
    make_table(conn, text.as_str())
}

/// Gives a log another label, and its database back. It is one transaction of the database: after a
/// crash, and after a failure, the log has the one label or the other, and all its rows.
///
/// - [`LogFault::Store`]: the text is no label ([`is_label`]), or the store failed.
/// - [`LogFault::Memory`]: a request for memory was refused.
pub fn with_label<S: Alter + Drop>(
    alloc: Global,
    log: SqlLog<S>,
    label: &str,
) -> Result<Connection<S>, LogFault>
    ensures no_label { is_label label.now ≡ false → result ≡ Err LogFault.Store }
    ensures cause { IfErr result IsStoreFault }
{
    if !is_label(label) {
        return Err(LogFault::Store);
    }
    let mut conn = log.into_connection();
    write_label(alloc, &mut conn, label)?;
    Ok(conn)
}

/// The same over files, which are closed into one.
pub fn label_files<D: Disk + Drop>(
    alloc: Global,
    log: SqlLog<FileStore<D>>,
    label: &str,
) -> Result<(), LogFault>
    ensures no_label { is_label label.now ≡ false → result ≡ Err LogFault.Store }
    ensures cause { IfErr result IsStoreFault }
{
    of_store(with_label(alloc, log, label)?.close())
}
