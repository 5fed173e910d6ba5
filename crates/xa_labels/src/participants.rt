//! The rows of the table `participant`, which is made anew.

use sqlite::{Alter, Error, Row, Transaction, params};

const READ: &str = "SELECT inc, seq, thread, rm FROM participant";

const DROP: &str = "DROP TABLE participant";

const INSERT: &str = "INSERT INTO participant (inc, seq, thread, rm) VALUES (?1, ?2, ?3, ?4)";

/// Writes a row again.
fn insert<S: Alter>(tx: &mut Transaction<'_, S>, row: &Row) -> Result<(), Error> {
    let inc: i64 = row.get(0)?;
    let seq: i64 = row.get(1)?;
    let thread: i64 = row.get(2)?;
    let rm: i64 = row.get(3)?;
    tx.execute(INSERT, params![inc, seq, thread, rm])?;
    Ok(())
}

/// Writes these rows again.
fn insert_all<S: Alter>(tx: &mut Transaction<'_, S>, rows: &[Row]) -> Result<(), Error> {
    for row in rows {
        insert(tx, row)?;
    }
    Ok(())
}

/// Makes the table anew by this statement. It has the rows that it had.
pub(crate) fn make_anew<S: Alter>(
    tx: &mut Transaction<'_, S>,
    statement: &str,
) -> Result<(), Error> {
    let rows = tx.query_all(READ, &[])?;
    tx.execute(DROP, &[])?;
    tx.execute(statement, &[])?;
    insert_all(tx, rows.as_slice())
}
