//! The rows of decisions, with their participants: how they are written and taken away.
ghost use Rattle.std.specs.Prelude.{◌≡◌, ◌⊎◌, [], ◌∷◌, true, false, if◌then◌else◌, None, Some, IsSomeAnd, IsTrue, IfOk, OnErr, OnOk, IfErr, ◌≢◌};
ghost use Rattle.std.specs.List.{AllByRecursion};
ghost use Rattle.std.specs.FinMap.{contains_key, get};
ghost use Rattle.xa_log.specs.KeySet.{empty, insert, from_list, KeySet};
ghost use Rattle.sqlite.specs.State.{HasCleanDisk, KeepsCommit, Survives};
ghost use Rattle.sqlite.specs.Held.{state};
ghost use Rattle.xa_base.specs.Branch.{branch_cmp};
ghost use Rattle.xa_log.specs.Contract.{Makes, FitsRow};
ghost use Rattle.xa_log.specs.Content.{Content, with_commit, without_decision};
ghost use Rattle.xa_sql_log.specs.Rows.{IsLog, content_of};
ghost use Rattle.xa_sql_log.specs.Sql.{IsOrderly, content_in, OnlyReads, MayChange, HasWritten, MayInsert};
ghost use Rattle.xa_log.specs.declared.log_fault.LogFault.{LogFault};

use crate::statements::{ask, changed, of_store, stored};
use sqlite::{Alter, Connection, Transaction, params};
use xa_base::{Branch, Gtrid};
use xa_log::{LogFault, Logged};

/// Whether a transaction has a decision's row.
pub(crate) fn find_decision<S: Alter>(conn: &mut Connection<S>, g: Gtrid) -> Result<bool, LogFault>
    requires { FitsRow g }
    ensures reads { OnlyReads (state S.Store conn.old) (state S.Store conn.new) }
    ensures ok { IsOrderly (state S.Store conn.old) → HasCleanDisk (state S.Store conn.new)
        → IfOk result (λ found.
        IsSomeAnd (content_in (state S.Store conn.old))
        (λ c. (content_in (state S.Store conn.new) ≡ Some c)
        × (found ≡ contains_key c.decisions g))) }
    ensures unspent { IfErr result (λ fault. fault ≢ LogFault.Spent) }
{
    let rows = ask(
        conn,
        "SELECT 1 FROM decision WHERE inc = ?1 AND seq = ?2",
        params![stored(g.incarnation), stored(g.sequence)],
    )?;
    Ok(!rows.is_empty())
}

/// Writes the first row of a transaction, its decision.
pub(crate) fn insert_decision<S: Alter>(
    tx: &mut Transaction<'_, S>,
    g: Gtrid,
) -> Result<(), LogFault>
    requires { FitsRow g }
    ensures same_reference { tx.new.conn.ghost_name ≡ tx.old.conn.ghost_name }
    ensures written { MayInsert g (state S.Store tx.old.conn.now)
        → HasCleanDisk (state S.Store tx.new.conn.now)
        → OnOk result (HasWritten g empty (content_of (state S.Store tx.old.conn.now).now.trees)
        (state S.Store tx.new.conn.now)) }
    ensures live { HasCleanDisk (state S.Store tx.new.conn.now)
        → OnOk result (IsTrue (state S.Store tx.old.conn.now).is_open) }
    ensures absent { IsLog (state S.Store tx.old.conn.now).now
        → IsTrue (state S.Store tx.old.conn.now).in_transaction
        → HasCleanDisk (state S.Store tx.new.conn.now) → OnOk result
        (get (content_of (state S.Store tx.old.conn.now).now.trees).decisions g ≡ None) }
    ensures kept { HasCleanDisk (state S.Store tx.new.conn.now)
        → KeepsCommit (state S.Store tx.old.conn.now) (state S.Store tx.new.conn.now) }
    ensures survives { Survives (state S.Store tx.old.conn.now)
        (state S.Store tx.new.conn.now) (λ _. ⊥) }
    ensures unspent { IfErr result (λ fault. fault ≢ LogFault.Spent) }
{
    of_store(tx.execute(
        "INSERT INTO decision (inc, seq) VALUES (?1, ?2)",
        params![stored(g.incarnation), stored(g.sequence)],
    ))?;
    Ok(())
}

/// Writes one more row of a transaction, a participant.
fn insert_participant<S: Alter>(tx: &mut Transaction<'_, S>, branch: Branch) -> Result<(), LogFault>
    requires { FitsRow branch.gtrid }
    ensures same_reference { tx.new.conn.ghost_name ≡ tx.old.conn.ghost_name }
    ensures written { HasCleanDisk (state S.Store tx.new.conn.now)
        → (set : KeySet branch_cmp) (before : Content)
        → HasWritten branch.gtrid set before (state S.Store tx.old.conn.now)
        → OnOk result (HasWritten branch.gtrid (insert set branch) before
        (state S.Store tx.new.conn.now)) }
    ensures kept { HasCleanDisk (state S.Store tx.new.conn.now)
        → KeepsCommit (state S.Store tx.old.conn.now) (state S.Store tx.new.conn.now) }
    ensures survives { Survives (state S.Store tx.old.conn.now)
        (state S.Store tx.new.conn.now) (λ _. ⊥) }
    ensures unspent { IfErr result (λ fault. fault ≢ LogFault.Spent) }
{
    of_store(tx.execute(
        "INSERT INTO participant (inc, seq, thread, rm) VALUES (?1, ?2, ?3, ?4)",
        params![
            stored(branch.gtrid.incarnation),
            stored(branch.gtrid.sequence),
            i64::from(branch.thread),
            i64::from(branch.rm)
        ],
    ))?;
    Ok(())
}

/// Writes the rows of two participants, the only ones of a transaction, by one statement.
fn insert_two<S: Alter>(
    tx: &mut Transaction<'_, S>,
    one: Branch,
    other: Branch,
) -> Result<(), LogFault>
    requires fits { FitsRow one.gtrid }
    requires own { other.gtrid ≡ one.gtrid }
    ensures same_reference { tx.new.conn.ghost_name ≡ tx.old.conn.ghost_name }
    ensures written { HasCleanDisk (state S.Store tx.new.conn.now) → (before : Content)
        → HasWritten one.gtrid empty before (state S.Store tx.old.conn.now)
        → OnOk result (HasWritten one.gtrid (from_list (one ∷ other ∷ [])) before
        (state S.Store tx.new.conn.now)) }
    ensures kept { HasCleanDisk (state S.Store tx.new.conn.now)
        → KeepsCommit (state S.Store tx.old.conn.now) (state S.Store tx.new.conn.now) }
    ensures survives { Survives (state S.Store tx.old.conn.now)
        (state S.Store tx.new.conn.now) (λ _. ⊥) }
    ensures unspent { IfErr result (λ fault. fault ≢ LogFault.Spent) }
{
    of_store(tx.execute(
        "INSERT INTO participant (inc, seq, thread, rm) VALUES (?1, ?2, ?3, ?4), (?5, ?6, ?7, ?8)",
        params![
            stored(one.gtrid.incarnation),
            stored(one.gtrid.sequence),
            i64::from(one.thread),
            i64::from(one.rm),
            stored(other.gtrid.incarnation),
            stored(other.gtrid.sequence),
            i64::from(other.thread),
            i64::from(other.rm)
        ],
    ))?;
    Ok(())
}

/// Writes the rows of all participants, one after another.
fn insert_each<S: Alter>(
    tx: &mut Transaction<'_, S>,
    g: Gtrid,
    participants: &[Branch],
) -> Result<(), LogFault>
    requires fits { FitsRow g }
    requires own { AllByRecursion (λ b. b.gtrid ≡ g) participants.now }
    ensures same_reference { tx.new.conn.ghost_name ≡ tx.old.conn.ghost_name }
    ensures written { HasCleanDisk (state S.Store tx.new.conn.now) → (before : Content)
        → HasWritten g empty before (state S.Store tx.old.conn.now)
        → OnOk result (HasWritten g (from_list participants.now) before
        (state S.Store tx.new.conn.now)) }
    ensures kept { HasCleanDisk (state S.Store tx.new.conn.now)
        → KeepsCommit (state S.Store tx.old.conn.now) (state S.Store tx.new.conn.now) }
    ensures survives { Survives (state S.Store tx.old.conn.now)
        (state S.Store tx.new.conn.now) (λ _. ⊥) }
    ensures unspent { IfErr result (λ fault. fault ≢ LogFault.Spent) }
{
    for branch in participants {
        insert_participant(tx, *branch)?;
    }
    Ok(())
}

/// Writes the rows of all participants: of two, as most transactions have, by one statement.
pub(crate) fn insert_participants<S: Alter>(
    tx: &mut Transaction<'_, S>,
    g: Gtrid,
    participants: &[Branch],
) -> Result<(), LogFault>
    requires fits { FitsRow g }
    requires own { AllByRecursion (λ b. b.gtrid ≡ g) participants.now }
    ensures same_reference { tx.new.conn.ghost_name ≡ tx.old.conn.ghost_name }
    ensures written { HasCleanDisk (state S.Store tx.new.conn.now) → (before : Content)
        → HasWritten g empty before (state S.Store tx.old.conn.now)
        → OnOk result (HasWritten g (from_list participants.now) before
        (state S.Store tx.new.conn.now)) }
    ensures kept { HasCleanDisk (state S.Store tx.new.conn.now)
        → KeepsCommit (state S.Store tx.old.conn.now) (state S.Store tx.new.conn.now) }
    ensures survives { Survives (state S.Store tx.old.conn.now)
        (state S.Store tx.new.conn.now) (λ _. ⊥) }
    ensures unspent { IfErr result (λ fault. fault ≢ LogFault.Spent) }
{
    match participants {
        [one, other] => insert_two(tx, *one, *other),
        others => insert_each(tx, g, others),
    }
}

/// Writes all rows of a transaction that has none, or none of them.
fn insert_all<S: Alter>(
    conn: &mut Connection<S>,
    g: Gtrid,
    participants: &[Branch],
) -> Result<(), LogFault>
    requires fits { FitsRow g }
    requires own { AllByRecursion (λ b. b.gtrid ≡ g) participants.now }
    ensures changes { MayChange (with_commit g (from_list participants.now))
        (state S.Store conn.old)
        (state S.Store conn.new) }
    ensures ok { IsOrderly (state S.Store conn.old) → HasCleanDisk (state S.Store conn.new)
        → OnOk result (Makes (with_commit g (from_list participants.now))
        (content_in (state S.Store conn.old)) (content_in (state S.Store conn.new))) }
    ensures absent { IsOrderly (state S.Store conn.old) → HasCleanDisk (state S.Store conn.new)
        → OnOk result (IsSomeAnd (content_in (state S.Store conn.old))
        (λ c. false ≡ contains_key c.decisions g)) }
    ensures kept { IsOrderly (state S.Store conn.old) → HasCleanDisk (state S.Store conn.new)
        → OnErr result ((content_in (state S.Store conn.new) ≡ None)
        ⊎ (content_in (state S.Store conn.new) ≡ content_in (state S.Store conn.old))) }
    ensures unspent { IfErr result (λ fault. fault ≢ LogFault.Spent) }
{
    if !conn.is_autocommit() {
        return Err(LogFault::Store);
    }
    let mut tx = conn.transaction();
    insert_decision(&mut tx, g)?;
    insert_participants(&mut tx, g, participants)?;
    of_store(tx.commit())?;
    Ok(())
}

/// Why a decision was not written: it was there, or else the store failed.
fn find_cause<S: Alter>(conn: &mut Connection<S>, g: Gtrid) -> Result<Logged, LogFault>
    requires { FitsRow g }
    ensures reads { OnlyReads (state S.Store conn.old) (state S.Store conn.new) }
    ensures ok { IsOrderly (state S.Store conn.old) → HasCleanDisk (state S.Store conn.new)
        → IfOk result (λ logged. (logged ≡ Logged.Already)
        × IsSomeAnd (content_in (state S.Store conn.old))
        (λ c. (content_in (state S.Store conn.new) ≡ Some c)
        × (true ≡ contains_key c.decisions g))) }
    ensures unspent { IfErr result (λ fault. fault ≢ LogFault.Spent) }
{
    if find_decision(conn, g)? {
        Ok(Logged::Already)
    } else {
        Err(LogFault::Store)
    }
}

/// Decides that a transaction commits. A row that is there keeps its own participants: it is the key of its table, so
/// that no look comes before the rows are written.
pub(crate) fn commit<S: Alter>(
    conn: &mut Connection<S>,
    g: Gtrid,
    participants: &[Branch],
) -> Result<Logged, LogFault>
    requires fits { FitsRow g }
    requires own { AllByRecursion (λ b. b.gtrid ≡ g) participants.now }
    ensures changes { MayChange (with_commit g (from_list participants.now))
        (state S.Store conn.old)
        (state S.Store conn.new) }
    ensures ok { IsOrderly (state S.Store conn.old) → HasCleanDisk (state S.Store conn.new)
        → OnOk result (Makes (with_commit g (from_list participants.now))
        (content_in (state S.Store conn.old)) (content_in (state S.Store conn.new))) }
    ensures answer { IsOrderly (state S.Store conn.old) → HasCleanDisk (state S.Store conn.new)
        → IfOk result (λ logged.
        IsSomeAnd (content_in (state S.Store conn.old)) (λ c. logged
        ≡ (if contains_key c.decisions g then Logged.Already else Logged.New))) }
    ensures unspent { IfErr result (λ fault. fault ≢ LogFault.Spent) }
{
    match insert_all(conn, g, participants) {
        Ok(()) => Ok(Logged::New),
        Err(LogFault::Store) => find_cause(conn, g),
        Err(fault) => Err(fault),
    }
}

/// Takes a decision away with its participants, and answers whether it was there. No look comes first: the DELETE
/// tells how many rows it took.
pub(crate) fn done<S: Alter>(conn: &mut Connection<S>, g: Gtrid) -> Result<bool, LogFault>
    requires { FitsRow g }
    ensures changes { MayChange (without_decision g) (state S.Store conn.old)
        (state S.Store conn.new) }
    ensures ok { IsOrderly (state S.Store conn.old) → HasCleanDisk (state S.Store conn.new)
        → OnOk result (Makes (without_decision g) (content_in (state S.Store conn.old))
        (content_in (state S.Store conn.new))) }
    ensures answer { IsOrderly (state S.Store conn.old) → HasCleanDisk (state S.Store conn.new)
        → IfOk result (λ found.
        IsSomeAnd (content_in (state S.Store conn.old)) (λ c. found ≡ contains_key c.decisions g)) }
    ensures unspent { IfErr result (λ fault. fault ≢ LogFault.Spent) }
{
    let rows = changed(
        conn,
        "DELETE FROM decision WHERE inc = ?1 AND seq = ?2",
        params![stored(g.incarnation), stored(g.sequence)],
    )?;
    Ok(rows != 0)
}
