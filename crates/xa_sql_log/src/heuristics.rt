//! The rows of branches that a resource manager ended by itself.
ghost use Rattle.std.specs.Prelude.{◌≡◌, IfOk, IsSomeAnd, OnOk, Some, IfErr, ◌≢◌};
ghost use Rattle.std.specs.FinMap.{get};
ghost use Rattle.sqlite.specs.Held.{state};
ghost use Rattle.sqlite.specs.State.{HasCleanDisk};
ghost use Rattle.xa_log.specs.Content.{with_heuristic_record};
ghost use Rattle.xa_log.specs.Contract.{FitsRow, Makes};
ghost use Rattle.xa_sql_log.specs.Sql.{IsOrderly, LacksHeuristic, MayChange, OnlyReads, content_in};
ghost use Rattle.xa_log.specs.declared.log_fault.LogFault.{LogFault};

use crate::fields;
use crate::statements::{ask, run, stored};
use sqlite::{Alter, Connection, params};
use xa_base::{Branch, How};
use xa_log::LogFault;

/// How a branch is recorded as heuristic, or none where it isn't.
pub(crate) fn find_heuristic<S: Alter>(
    conn: &mut Connection<S>,
    b: Branch,
) -> Result<Option<How>, LogFault>
    requires { FitsRow b.gtrid }
    ensures reads { OnlyReads (state S.Store conn.old) (state S.Store conn.new) }
    ensures ok { IsOrderly (state S.Store conn.old) → HasCleanDisk (state S.Store conn.new) →
        IfOk result (λ how. IsSomeAnd (content_in (state S.Store conn.old)) (λ c.
        (content_in (state S.Store conn.new) ≡ Some c) × (how ≡ get c.heuristics b))) }
    ensures unspent { IfErr result (λ fault. fault ≢ LogFault.Spent) }
{
    let rows = ask(
        conn,
        "SELECT how FROM heuristic WHERE inc = ?1 AND seq = ?2 AND thread = ?3 AND rm = ?4",
        params![
            stored(b.gtrid.incarnation),
            stored(b.gtrid.sequence),
            i64::from(b.thread),
            i64::from(b.rm)
        ],
    )?;
    match rows.first() {
        Some(row) => Ok(Some(fields::how(row, 0)?)),
        None => Ok(None),
    }
}

/// The first record of a branch.
fn insert_heuristic<S: Alter>(conn: &mut Connection<S>, b: Branch, how: How) -> Result<(), LogFault>
    requires { FitsRow b.gtrid }
    ensures honest { HasCleanDisk (state S.Store conn.new) → HasCleanDisk (state S.Store conn.old) }
    ensures changes { LacksHeuristic b (state S.Store conn.old) →
        MayChange (with_heuristic_record b how) (state S.Store conn.old) (state S.Store conn.new) }
    ensures ok { LacksHeuristic b (state S.Store conn.old) → IsOrderly (state S.Store conn.old) →
        HasCleanDisk (state S.Store conn.new) → OnOk result (Makes (with_heuristic_record b how)
        (content_in (state S.Store conn.old)) (content_in (state S.Store conn.new))) }
    ensures unspent { IfErr result (λ fault. fault ≢ LogFault.Spent) }
{
    run(
        conn,
        "INSERT INTO heuristic (inc, seq, thread, rm, how) VALUES (?1, ?2, ?3, ?4, ?5)",
        params![
            stored(b.gtrid.incarnation),
            stored(b.gtrid.sequence),
            i64::from(b.thread),
            i64::from(b.rm),
            i64::from(how.number())
        ],
    )
}

/// Records how a resource manager ended a branch by itself. The first record of a branch stays.
pub(crate) fn note_heuristic<S: Alter>(
    conn: &mut Connection<S>,
    b: Branch,
    how: How,
) -> Result<(), LogFault>
    requires { FitsRow b.gtrid }
    ensures changes { MayChange (with_heuristic_record b how) (state S.Store conn.old)
        (state S.Store conn.new) }
    ensures ok { IsOrderly (state S.Store conn.old) → HasCleanDisk (state S.Store conn.new) →
        OnOk result (Makes (with_heuristic_record b how)
        (content_in (state S.Store conn.old)) (content_in (state S.Store conn.new))) }
    ensures unspent { IfErr result (λ fault. fault ≢ LogFault.Spent) }
{
    if find_heuristic(conn, b)?.is_some() {
        return Ok(());
    }
    insert_heuristic(conn, b, how)
}
