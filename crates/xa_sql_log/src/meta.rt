//! How often the manager has started.
ghost use Rattle.std.specs.Prelude.{◌≡◌, ◌≢◌, ◌≤◌, ◌+◌, Err, IfErr, IfOk, IsSomeAnd, OnOk, Some};
ghost use Rattle.sqlite.specs.Held.{state};
ghost use Rattle.sqlite.specs.State.{HasCleanDisk};
ghost use Rattle.xa_log.specs.Content.{with_bump, last_number, with_incarnation};
ghost use Rattle.xa_log.specs.Contract.{Makes};
ghost use Rattle.xa_sql_log.specs.Sql.{IsOrderly, MayChange, OnlyReads, content_in};
ghost use Rattle.xa_log.specs.declared.log_fault.LogFault.{LogFault};

use crate::fields::number;
use crate::statements::{ask, run, stored};
use sqlite::{Alter, Connection, params};
use xa_log::{LAST_NUMBER, LogFault};

pub(crate) fn find_incarnation<S: Alter>(conn: &mut Connection<S>) -> Result<u64, LogFault>
    ensures reads { OnlyReads (state S.Store conn.old) (state S.Store conn.new) }
    ensures ok { IsOrderly (state S.Store conn.old) → HasCleanDisk (state S.Store conn.new) →
        IfOk result (λ n. IsSomeAnd (content_in (state S.Store conn.old)) (λ c.
        (content_in (state S.Store conn.new) ≡ Some c) × (n ≡ c.incarnation))) }
    ensures unspent { IfErr result (λ fault. fault ≢ LogFault.Spent) }
{
    let rows = ask(conn, "SELECT incarnation FROM tm_meta", &[])?;
    match rows.first() {
        Some(row) => number(row, 0),
        None => Err(LogFault::Version),
    }
}

fn set_incarnation<S: Alter>(conn: &mut Connection<S>, incarnation: u64) -> Result<(), LogFault>
    requires { incarnation ≤ last_number }
    ensures changes { MayChange (with_incarnation incarnation)
        (state S.Store conn.old) (state S.Store conn.new) }
    ensures ok { IsOrderly (state S.Store conn.old) → HasCleanDisk (state S.Store conn.new) →
        OnOk result (Makes (with_incarnation incarnation)
        (content_in (state S.Store conn.old)) (content_in (state S.Store conn.new))) }
    ensures unspent { IfErr result (λ fault. fault ≢ LogFault.Spent) }
{
    run(
        conn,
        "UPDATE tm_meta SET incarnation = ?1",
        params![stored(incarnation)],
    )
}

/// Adds one to the incarnation, and answers the new one. At the last one it is [`LogFault::Spent`].
pub(crate) fn bump<S: Alter>(conn: &mut Connection<S>) -> Result<u64, LogFault>
    ensures changes { MayChange with_bump (state S.Store conn.old) (state S.Store conn.new) }
    ensures ok { IsOrderly (state S.Store conn.old) → HasCleanDisk (state S.Store conn.new) →
        OnOk result (Makes with_bump
        (content_in (state S.Store conn.old)) (content_in (state S.Store conn.new))) }
    ensures answer { IsOrderly (state S.Store conn.old) → HasCleanDisk (state S.Store conn.new) →
        IfOk result (λ n. IsSomeAnd (content_in (state S.Store conn.old)) (λ c.
        n ≡ c.incarnation + 1)) }
    ensures most { IfOk result (λ n. n ≤ last_number) }
    ensures spent { IsOrderly (state S.Store conn.old) → HasCleanDisk (state S.Store conn.new) →
        result ≡ Err LogFault.Spent → IsSomeAnd (content_in (state S.Store conn.old)) (λ c.
        (last_number ≤ c.incarnation) × (content_in (state S.Store conn.new) ≡ Some c)) }
{
    let last = find_incarnation(conn)?;
    if last >= LAST_NUMBER {
        return Err(LogFault::Spent);
    }
    let next = last + 1;
    set_incarnation(conn, next)?;
    Ok(next)
}
