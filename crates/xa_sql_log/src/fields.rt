//! What the rows of an answer say.
ghost use Rattle.std.specs.Prelude.{◌≡◌, ◌<◌, ◌⊎◌, IfErr, IfOk, Some, length, ◌≢◌};
ghost use Rattle.sqlite.specs.Order.{column};
ghost use Rattle.xa_base.specs.Code.{how_of_number};
ghost use Rattle.xa_sql_log.specs.Faults.{cell_fault_of};
ghost use Rattle.xa_sql_log.specs.Rows.{branch_from, gtrid_from, integer_in, participant_from};
ghost use Rattle.xa_log.specs.declared.log_fault.LogFault.{LogFault};

use sqlite::types::FromSql;
use sqlite::{Error, ErrorCode, Row};
use xa_base::{Branch, Gtrid, How};
use xa_log::LogFault;

/// The fault of a cell that wasn't read.
fn cell_fault(error: Error) -> LogFault
    ensures told { result ≡ cell_fault_of error }
    ensures kind { (result ≡ LogFault.Version) ⊎ (result ≡ LogFault.Memory) }
    ensures misfit { result ≡ LogFault.Version → error ≢ Error.SqliteFailure ErrorCode.OutOfMemory }
{
    match error {
        Error::SqliteFailure(ErrorCode::OutOfMemory) => LogFault::Memory,
        _ => LogFault::Version,
    }
}

/// The number in a column.
pub(crate) fn number<T: FromSql>(row: &Row, at: usize) -> Result<T, LogFault>
    ensures ok { IfOk result (T.FromSql.reads_as (column row.now at)) }
    ensures err { IfErr result (λ fault.
        (fault ≡ LogFault.Version) ⊎ (fault ≡ LogFault.Memory)) }
    ensures misfit { IfErr result (λ fault. fault ≡ LogFault.Version → at < length row.now →
        ¬ T.FromSql.is_readable (column row.now at)) }
{
    match row.get(at) {
        Ok(number) => Ok(number),
        Err(error) => Err(cell_fault(error)),
    }
}

/// The transaction in the first two columns.
pub(crate) fn gtrid(row: &Row) -> Result<Gtrid, LogFault>
    ensures ok { IfOk result (λ g. g ≡ gtrid_from row.now) }
    ensures unspent { IfErr result (λ fault. fault ≢ LogFault.Spent) }
{
    Ok(Gtrid {
        incarnation: number(row, 0)?,
        sequence: number(row, 1)?,
    })
}

/// The branch in the first four columns.
pub(crate) fn branch(row: &Row) -> Result<Branch, LogFault>
    ensures ok { IfOk result (λ b. b ≡ branch_from row.now) }
    ensures unspent { IfErr result (λ fault. fault ≢ LogFault.Spent) }
{
    Ok(Branch {
        gtrid: gtrid(row)?,
        thread: number(row, 2)?,
        rm: number(row, 3)?,
    })
}

/// The branch of a known transaction whose thread and resource manager are in the first two columns.
pub(crate) fn participant(g: Gtrid, row: &Row) -> Result<Branch, LogFault>
    ensures ok { IfOk result (λ b. b ≡ participant_from g row.now) }
    ensures unspent { IfErr result (λ fault. fault ≢ LogFault.Spent) }
{
    Ok(Branch {
        gtrid: g,
        thread: number(row, 0)?,
        rm: number(row, 1)?,
    })
}

/// The heuristic end whose number is in a column.
pub(crate) fn how(row: &Row, at: usize) -> Result<How, LogFault>
    ensures ok { IfOk result (λ how. Some how ≡ how_of_number (integer_in (column row.now at))) }
    ensures err { IfErr result (λ fault.
        (fault ≡ LogFault.Version) ⊎ (fault ≡ LogFault.Memory)) }
{
    How::from_number(number(row, at)?).ok_or(LogFault::Version)
}
