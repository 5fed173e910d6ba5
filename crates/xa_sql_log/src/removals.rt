//! The rows of several decisions taken away, in one transaction of the database.
ghost use Rattle.std.specs.Prelude.{◌≡◌, ◌<◌, ◌≢◌, IfErr, IsTrue, OnOk, length};
ghost use Rattle.std.specs.List.{AllByRecursion};
ghost use Rattle.sqlite.specs.Held.{state};
ghost use Rattle.sqlite.specs.State.{HasCleanDisk, KeepsCommit, Survives};
ghost use Rattle.xa_log.specs.Content.{without_decision, without_decisions};
ghost use Rattle.xa_log.specs.Contract.{FitsRow, Makes};
ghost use Rattle.xa_sql_log.specs.Rows.{IsLog};
ghost use Rattle.xa_sql_log.specs.Sql.{HasMade, IsInsideLog, IsOrderly, MayChange, content_in};
ghost use Rattle.xa_log.specs.declared.log_fault.LogFault.{LogFault};

use crate::meta::find_incarnation;
use crate::statements::{of_store, stored};
use sqlite::{Alter, Connection, Transaction, params};
use xa_base::Gtrid;
use xa_log::LogFault;

/// Takes the row of a transaction away, if there is one, and its participants with it.
fn delete_decision<S: Alter>(tx: &mut Transaction<'_, S>, g: Gtrid) -> Result<(), LogFault>
    requires { FitsRow g }
    ensures same_reference { tx.new.conn.ghost_name ≡ tx.old.conn.ghost_name }
    ensures taken { IsLog (state S.Store tx.old.conn.now).now
        → IsTrue (state S.Store tx.old.conn.now).in_transaction
        → HasCleanDisk (state S.Store tx.new.conn.now)
        → OnOk result (HasMade (without_decision g) (state S.Store tx.old.conn.now)
        (state S.Store tx.new.conn.now)) }
    ensures live { HasCleanDisk (state S.Store tx.new.conn.now)
        → OnOk result (IsTrue (state S.Store tx.old.conn.now).is_open) }
    ensures kept { HasCleanDisk (state S.Store tx.new.conn.now)
        → KeepsCommit (state S.Store tx.old.conn.now) (state S.Store tx.new.conn.now) }
    ensures survives { Survives (state S.Store tx.old.conn.now)
        (state S.Store tx.new.conn.now) (λ _. ⊥) }
    ensures unspent { IfErr result (λ fault. fault ≢ LogFault.Spent) }
{
    of_store(tx.execute(
        "DELETE FROM decision WHERE inc = ?1 AND seq = ?2",
        params![stored(g.incarnation), stored(g.sequence)],
    ))?;
    Ok(())
}

/// Takes the rows of these transactions away.
fn delete_each<S: Alter>(tx: &mut Transaction<'_, S>, gtrids: &[Gtrid]) -> Result<(), LogFault>
    requires fits { AllByRecursion FitsRow gtrids.now }
    requires some { 0 < length gtrids.now }
    ensures same_reference { tx.new.conn.ghost_name ≡ tx.old.conn.ghost_name }
    ensures taken { IsInsideLog (state S.Store tx.old.conn.now)
        → HasCleanDisk (state S.Store tx.new.conn.now)
        → OnOk result (HasMade (without_decisions gtrids.now) (state S.Store tx.old.conn.now)
        (state S.Store tx.new.conn.now)) }
    ensures kept { HasCleanDisk (state S.Store tx.new.conn.now)
        → KeepsCommit (state S.Store tx.old.conn.now) (state S.Store tx.new.conn.now) }
    ensures survives { Survives (state S.Store tx.old.conn.now)
        (state S.Store tx.new.conn.now) (λ _. ⊥) }
    ensures unspent { IfErr result (λ fault. fault ≢ LogFault.Spent) }
{
    for g in gtrids {
        delete_decision(tx, *g)?;
    }
    Ok(())
}

/// Takes the rows of these transactions away, or none of them.
fn delete_all<S: Alter>(conn: &mut Connection<S>, gtrids: &[Gtrid]) -> Result<(), LogFault>
    requires fits { AllByRecursion FitsRow gtrids.now }
    requires some { 0 < length gtrids.now }
    ensures changes { MayChange (without_decisions gtrids.now) (state S.Store conn.old)
        (state S.Store conn.new) }
    ensures ok { IsOrderly (state S.Store conn.old) → HasCleanDisk (state S.Store conn.new)
        → OnOk result (Makes (without_decisions gtrids.now)
        (content_in (state S.Store conn.old)) (content_in (state S.Store conn.new))) }
    ensures unspent { IfErr result (λ fault. fault ≢ LogFault.Spent) }
{
    if !conn.is_autocommit() {
        return Err(LogFault::Store);
    }
    let mut tx = conn.transaction();
    delete_each(&mut tx, gtrids)?;
    of_store(tx.commit())?;
    Ok(())
}

/// Takes the decisions of these transactions away with their participants. A transaction without a row may be named.
pub(crate) fn done_all<S: Alter>(conn: &mut Connection<S>, gtrids: &[Gtrid]) -> Result<(), LogFault>
    requires fits { AllByRecursion FitsRow gtrids.now }
    ensures changes { MayChange (without_decisions gtrids.now) (state S.Store conn.old)
        (state S.Store conn.new) }
    ensures ok { IsOrderly (state S.Store conn.old) → HasCleanDisk (state S.Store conn.new)
        → OnOk result (Makes (without_decisions gtrids.now)
        (content_in (state S.Store conn.old)) (content_in (state S.Store conn.new))) }
    ensures unspent { IfErr result (λ fault. fault ≢ LogFault.Spent) }
{
    if gtrids.is_empty() {
        // of a log that is shut this fails too
        find_incarnation(conn)?;
        return Ok(());
    }
    delete_all(conn, gtrids)
}
