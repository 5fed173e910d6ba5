//! The rows of several decisions, in one transaction of the database.
ghost use Rattle.std.specs.Prelude.{◌≡◌, true, length, None, Some, IsSomeAnd, IsTrue, IfOk, OnOk, OnErr, IfErr, ◌≢◌, vec_len, replicate};
ghost use Rattle.std.specs.List.{AllByRecursion, list_any};
ghost use Rattle.std.specs.FinMap.{get};
ghost use Rattle.xa_log.specs.KeySet.{from_list};
ghost use Rattle.sqlite.specs.State.{HasCleanDisk, KeepsCommit, Survives};
ghost use Rattle.sqlite.specs.Held.{state};
ghost use Rattle.xa_base.specs.Branch.{gtrid_eq};
ghost use Rattle.xa_log.specs.Contract.{Makes, FitsRow, IsShutOrSame};
ghost use Rattle.xa_log.specs.Content.{is_new, logged_as, logged_each, with_commits};
ghost use Rattle.xa_sql_log.specs.Rows.{IsLog, content_of};
ghost use Rattle.xa_sql_log.specs.Sql.{AreThereIn, IsOrderly, content_in, MayChange, OnlyReads, HasWritten, HasWrittenAll, MayInsert, MayInsertAll};
ghost use Rattle.xa_log.specs.declared.decision_log.Logged.{Logged};
ghost use Rattle.xa_log.specs.declared.log_fault.LogFault.{LogFault};

use crate::decisions::{find_decision, insert_decision, insert_participants};
use crate::meta::find_incarnation;
use crate::statements::of_store;
use sqlite::{Alter, Connection, Transaction};
use std::alloc::Global;
use xa_base::Gtrid;
use xa_log::{Decision, LogFault, Logged};

/// Whether one of these decisions is of this transaction.
fn is_among(decisions: &[Decision], g: Gtrid) -> bool
    ensures { result ≡ list_any (λ d. gtrid_eq g d.gtrid) decisions.now }
{
    decisions.iter().any(|decision| g == decision.gtrid)
}

/// Whether one of these rows is new.
fn is_any_new(answers: &[Logged]) -> bool
    ensures { result ≡ list_any is_new answers.now }
{
    answers.iter().any(|logged| *logged == Logged::New)
}

/// Whether the row of a transaction is new, where these decisions have theirs.
fn find_after<S: Alter>(
    conn: &mut Connection<S>,
    earlier: &[Decision],
    g: Gtrid,
) -> Result<Logged, LogFault>
    requires { FitsRow g }
    ensures reads { OnlyReads (state S.Store conn.old) (state S.Store conn.new) }
    ensures ok { IsOrderly (state S.Store conn.old) → HasCleanDisk (state S.Store conn.new)
        → IfOk result (λ logged.
        IsSomeAnd (content_in (state S.Store conn.old))
        (λ c. (content_in (state S.Store conn.new) ≡ Some c)
        × (logged ≡ logged_as (with_commits earlier.now c) g))) }
    ensures unspent { IfErr result (λ fault. fault ≢ LogFault.Spent) }
{
    let found = find_decision(conn, g)?;
    if found || is_among(earlier, g) {
        return Ok(Logged::Already);
    }
    Ok(Logged::New)
}

/// Whether the row of each decision is new, at its turn.
fn find_each<S: Alter>(
    conn: &mut Connection<S>,
    alloc: Global,
    decisions: &[Decision],
) -> Result<Vec<Logged>, LogFault>
    requires { AllByRecursion (λ d. FitsRow d.gtrid) decisions.now }
    ensures reads { OnlyReads (state S.Store conn.old) (state S.Store conn.new) }
    ensures ok { IsOrderly (state S.Store conn.old) → HasCleanDisk (state S.Store conn.new)
        → IfOk result (λ list.
        IsSomeAnd (content_in (state S.Store conn.old))
        (λ c. (content_in (state S.Store conn.new) ≡ Some c)
        × (list.items ≡ logged_each decisions.now c))) }
    ensures count { IfOk result (λ list. vec_len list ≡ length decisions.now) }
    ensures unspent { IfErr result (λ fault. fault ≢ LogFault.Spent) }
{
    let mut answers = Vec::with_capacity(alloc, decisions.len())?;
    if decisions.is_empty() {
        // of a log that is shut this fails too
        find_incarnation(conn)?;
        return Ok(answers);
    }
    for (i, decision) in decisions.iter().enumerate() {
        answers.push_reserved(find_after(conn, &decisions[..i], decision.gtrid)?);
    }
    Ok(answers)
}

/// Writes all rows of a transaction that has none.
fn insert_one<S: Alter>(tx: &mut Transaction<'_, S>, decision: &Decision) -> Result<(), LogFault>
    requires fits { FitsRow decision.now.gtrid }
    requires own { AllByRecursion (λ b. b.gtrid ≡ decision.now.gtrid)
        decision.now.participants.items }
    ensures same_reference { tx.new.conn.ghost_name ≡ tx.old.conn.ghost_name }
    ensures written { MayInsert decision.now.gtrid (state S.Store tx.old.conn.now)
        → HasCleanDisk (state S.Store tx.new.conn.now)
        → OnOk result (HasWritten decision.now.gtrid (from_list decision.now.participants.items)
        (content_of (state S.Store tx.old.conn.now).now.trees) (state S.Store tx.new.conn.now)) }
    ensures live { HasCleanDisk (state S.Store tx.new.conn.now)
        → OnOk result (IsTrue (state S.Store tx.old.conn.now).is_open) }
    ensures absent { IsLog (state S.Store tx.old.conn.now).now
        → IsTrue (state S.Store tx.old.conn.now).in_transaction
        → HasCleanDisk (state S.Store tx.new.conn.now) → OnOk result
        (get (content_of (state S.Store tx.old.conn.now).now.trees).decisions
        decision.now.gtrid ≡ None) }
    ensures kept { HasCleanDisk (state S.Store tx.new.conn.now)
        → KeepsCommit (state S.Store tx.old.conn.now) (state S.Store tx.new.conn.now) }
    ensures survives { Survives (state S.Store tx.old.conn.now)
        (state S.Store tx.new.conn.now) (λ _. ⊥) }
    ensures unspent { IfErr result (λ fault. fault ≢ LogFault.Spent) }
{
    insert_decision(tx, decision.gtrid)?;
    insert_participants(tx, decision.gtrid, decision.participants.as_slice())
}

/// Writes all rows of the decisions that are answered as new. One that isn't is refused, by the key of its table.
fn insert_new<S: Alter>(
    tx: &mut Transaction<'_, S>,
    decisions: &[Decision],
    answers: &[Logged],
) -> Result<(), LogFault>
    requires fits { AllByRecursion (λ d. FitsRow d.gtrid) decisions.now }
    requires own { AllByRecursion (λ d.
        AllByRecursion (λ b. b.gtrid ≡ d.gtrid) d.participants.items) decisions.now }
    requires paired { length answers.now ≡ length decisions.now }
    requires some { list_any is_new answers.now ≡ true }
    ensures same_reference { tx.new.conn.ghost_name ≡ tx.old.conn.ghost_name }
    ensures written { HasCleanDisk (state S.Store tx.new.conn.now)
        → MayInsertAll decisions.now answers.now (state S.Store tx.old.conn.now)
        → OnOk result (HasWrittenAll decisions.now answers.now (state S.Store tx.old.conn.now)
        (state S.Store tx.new.conn.now)) }
    ensures kept { HasCleanDisk (state S.Store tx.new.conn.now)
        → KeepsCommit (state S.Store tx.old.conn.now) (state S.Store tx.new.conn.now) }
    ensures survives { Survives (state S.Store tx.old.conn.now)
        (state S.Store tx.new.conn.now) (λ _. ⊥) }
    ensures unspent { IfErr result (λ fault. fault ≢ LogFault.Spent) }
{
    for (i, decision) in decisions.iter().enumerate() {
        if answers[i] == Logged::New {
            insert_one(tx, decision)?;
        }
    }
    Ok(())
}

/// Writes all rows of the decisions that are answered as new, or none of them. If they are written, all were new.
fn write_new<S: Alter>(
    conn: &mut Connection<S>,
    decisions: &[Decision],
    answers: &[Logged],
) -> Result<(), LogFault>
    requires fits { AllByRecursion (λ d. FitsRow d.gtrid) decisions.now }
    requires own { AllByRecursion (λ d.
        AllByRecursion (λ b. b.gtrid ≡ d.gtrid) d.participants.items) decisions.now }
    requires paired { length answers.now ≡ length decisions.now }
    requires some { list_any is_new answers.now ≡ true }
    ensures honest { HasCleanDisk (state S.Store conn.new) → HasCleanDisk (state S.Store conn.old) }
    ensures changes { AreThereIn decisions.now answers.now (state S.Store conn.old)
        → MayChange (with_commits decisions.now) (state S.Store conn.old)
        (state S.Store conn.new) }
    ensures ok { AreThereIn decisions.now answers.now (state S.Store conn.old)
        → IsOrderly (state S.Store conn.old) → HasCleanDisk (state S.Store conn.new)
        → OnOk result (Makes (with_commits decisions.now)
        (content_in (state S.Store conn.old)) (content_in (state S.Store conn.new))) }
    ensures told { AreThereIn decisions.now answers.now (state S.Store conn.old)
        → IsOrderly (state S.Store conn.old) → HasCleanDisk (state S.Store conn.new)
        → OnOk result (IsSomeAnd (content_in (state S.Store conn.old))
        (λ c. answers.now ≡ logged_each decisions.now c)) }
    ensures kept { AreThereIn decisions.now answers.now (state S.Store conn.old)
        → IsOrderly (state S.Store conn.old) → HasCleanDisk (state S.Store conn.new)
        → OnErr result (IsShutOrSame (content_in (state S.Store conn.old))
        (content_in (state S.Store conn.new))) }
    ensures unspent { IfErr result (λ fault. fault ≢ LogFault.Spent) }
{
    if !conn.is_autocommit() {
        return Err(LogFault::Store);
    }
    let mut tx = conn.transaction();
    insert_new(&mut tx, decisions, answers)?;
    of_store(tx.commit())?;
    Ok(())
}

/// Looks for each row, and writes those that are new.
fn write_missing<S: Alter>(
    conn: &mut Connection<S>,
    alloc: Global,
    decisions: &[Decision],
) -> Result<Vec<Logged>, LogFault>
    requires fits { AllByRecursion (λ d. FitsRow d.gtrid) decisions.now }
    requires own { AllByRecursion (λ d.
        AllByRecursion (λ b. b.gtrid ≡ d.gtrid) d.participants.items) decisions.now }
    ensures changes { MayChange (with_commits decisions.now) (state S.Store conn.old)
        (state S.Store conn.new) }
    ensures ok { IsOrderly (state S.Store conn.old) → HasCleanDisk (state S.Store conn.new)
        → OnOk result (Makes (with_commits decisions.now)
        (content_in (state S.Store conn.old)) (content_in (state S.Store conn.new))) }
    ensures answer { IsOrderly (state S.Store conn.old) → HasCleanDisk (state S.Store conn.new)
        → IfOk result (λ list.
        IsSomeAnd (content_in (state S.Store conn.old)) (λ c.
        list.items ≡ logged_each decisions.now c)) }
    ensures unspent { IfErr result (λ fault. fault ≢ LogFault.Spent) }
{
    let answers = find_each(conn, alloc, decisions)?;
    if !is_any_new(answers.as_slice()) {
        return Ok(answers);
    }
    write_new(conn, decisions, answers.as_slice())?;
    Ok(answers)
}

/// So many rows that are new.
fn all_new(alloc: Global, count: usize) -> Result<Vec<Logged>, LogFault>
    ensures ok { IfOk result (λ list. list.items ≡ replicate count Logged.New) }
    ensures unspent { IfErr result (λ fault. fault ≢ LogFault.Spent) }
{
    Ok(vec![in alloc; Logged::New; count]?)
}

/// Decides that these transactions commit. A row that is there keeps its own participants. The rows are written before any
/// look, as if none were there; if they are refused, one may be.
pub(crate) fn commit_all<S: Alter>(
    conn: &mut Connection<S>,
    alloc: Global,
    decisions: &[Decision],
) -> Result<Vec<Logged>, LogFault>
    requires fits { AllByRecursion (λ d. FitsRow d.gtrid) decisions.now }
    requires own { AllByRecursion (λ d.
        AllByRecursion (λ b. b.gtrid ≡ d.gtrid) d.participants.items) decisions.now }
    ensures changes { MayChange (with_commits decisions.now) (state S.Store conn.old)
        (state S.Store conn.new) }
    ensures ok { IsOrderly (state S.Store conn.old) → HasCleanDisk (state S.Store conn.new)
        → OnOk result (Makes (with_commits decisions.now)
        (content_in (state S.Store conn.old)) (content_in (state S.Store conn.new))) }
    ensures answer { IsOrderly (state S.Store conn.old) → HasCleanDisk (state S.Store conn.new)
        → IfOk result (λ list.
        IsSomeAnd (content_in (state S.Store conn.old)) (λ c.
        list.items ≡ logged_each decisions.now c)) }
    ensures unspent { IfErr result (λ fault. fault ≢ LogFault.Spent) }
{
    if decisions.is_empty() {
        return write_missing(conn, alloc, decisions);
    }
    let answers = all_new(alloc, decisions.len())?;
    match write_new(conn, decisions, answers.as_slice()) {
        Ok(()) => Ok(answers),
        Err(LogFault::Store) => write_missing(conn, alloc, decisions),
        Err(fault) => Err(fault),
    }
}
