//! `xa_sql_log` and `xa_system`: a log whose store crashes, and a system that goes on over what
//! that left.

ghost use Rattle.std.specs.Prelude.{◌≡◌, ◌≢◌, ◌≤◌, ◌⊎◌, Bool, Err, None};
ghost use Rattle.std.specs.Prelude.{IfErr, IfOk, IfSome, IsSomeAnd};
ghost use Rattle.sqlite.specs.declared.error.Error.TheVariants as Error;
ghost use Rattle.sqlite.specs.declared.error.ErrorCode.TheVariants as ErrorCode;
ghost use Rattle.sqlite.specs.Held.{state};
ghost use Rattle.sqlite.specs.State.{HasCleanDisk, IsLive, Opens};
ghost use Rattle.sqlite.specs.Steps.{IsFresh};
ghost use Rattle.sqlite_trees.specs.View.{IsClean, doubt};
ghost use Rattle.xa_base.specs.declared.refusal.Refusal.TheVariants as Refusals;
ghost use Rattle.xa_base.specs.declared.reply.Reply.TheVariants as Replies;
ghost use Rattle.xa_log.specs.Contract.{IsStoreFault};
ghost use Rattle.xa_log.specs.declared.log_fault.LogFault.TheVariants as Fault;
ghost use Rattle.xa_model.specs.Facts.{up};
ghost use Rattle.xa_model.specs.Promises.Headline.{Headline};
ghost use Rattle.xa_model.specs.Protocol.{RightOrigin};
ghost use Rattle.xa_system.specs.SystemView.{MayRestartAfterCrash, observes, origin_in, trace_in};
ghost use Rattle.xa_tm.specs.Slots.{log_held, slot_moment};
ghost use Rattle.xa_tm.specs.declared.swap_fault.SwapFault.TheVariants as SwapFault;

use crate::swaps::restart_over;
use sqlite::{Alter, Connection, Error, ErrorCode, MemStore};
use sqlite_trees::store::Reopen;
use std::alloc::Global;
use xa_base::{Reply, Step};
use xa_log::{DecisionLog, LogFault};
use xa_rm::{MemRm, ResourceManager};
use xa_sql_log::{SqlLog, memory_is_honest};
use xa_system::{NewFault, SwapFault, System};

/// The store of a connection after a crash: what it reads is one of what a crash may leave.
fn store_after_crash<S: Alter + Reopen + Drop>(conn: Connection<S>) -> Result<S, (LogFault, S)>
    ensures clean { IfOk result (λ store.
        doubt (S.Store.view conn.store).is_clean ≤ doubt (S.Store.view store).is_clean) }
    ensures fresh { IfOk result (λ store.
        IsClean (S.Store.view store) → IsFresh (S.Store.view store)) }
    ensures found { IfOk result (λ store. IsClean (S.Store.view store) →
        S.Store.recovers conn.store (S.Store.view store).trees) }
    ensures refused { IfErr result (λ e. IsStoreFault e.0) }
{
    let mut store = conn.into_store();
    match store.crash_and_reopen() {
        Ok(()) => Ok(store),
        Err(_) => Err((LogFault::Store, store)),
    }
}

/// Why a store can't be opened as a log: what it holds is no database, or the store failed.
fn open_fault(error: &Error) -> LogFault
    ensures unknown { result ≡ Fault.Version →
        error.now ≡ Error.SqliteFailure ErrorCode.NotADatabase }
    ensures known { (result ≡ Fault.Version) ⊎ (result ≡ Fault.Store) }
{
    match error {
        Error::SqliteFailure(ErrorCode::NotADatabase) => LogFault::Version,
        _ => LogFault::Store,
    }
}

/// A new connection to that store. What a crash may leave of a connection's database is never
/// refused as no database.
fn connection_after_crash<S: Alter + Reopen + Drop>(
    alloc: Global,
    conn: Connection<S>,
) -> Result<Connection<S>, (LogFault, S)>
    ensures honest { IfOk result (λ again.
        HasCleanDisk (state S.Store again) → HasCleanDisk (state S.Store conn)) }
    ensures opens { IfOk result (λ again. HasCleanDisk (state S.Store again) →
        Opens (state S.Store again) × IsLive (state S.Store again)) }
    ensures found { IfOk result (λ again. HasCleanDisk (state S.Store again) →
        (state S.Store conn).may_leave (state S.Store again).now.trees) }
    ensures accepted { IfErr result (λ e. IsClean (S.Store.view e.1) → IsStoreFault e.0) }
{
    let store = match store_after_crash(conn) {
        Ok(store) => store,
        Err(fault) => return Err(fault),
    };
    match Connection::over(alloc, store) {
        Ok(again) => Ok(again),
        Err((error, store)) => Err((open_fault(&error), store)),
    }
}

/// The log that is found after a crash of the store of one in order: it is in order, and holds one
/// of what a crash may leave of that. It is never refused as an unknown one: a fault is that of the
/// store, or comes for want of memory.
pub fn log_after_crash<S: Alter + Reopen + Drop>(
    alloc: Global,
    log: SqlLog<S>,
) -> Result<SqlLog<S>, (LogFault, S)>
    ensures honest { IfOk result
        (λ left. (⟦<SqlLog<S> as DecisionLog>⟧.moment left).is_honest →
        (⟦<SqlLog<S> as DecisionLog>⟧.moment log).is_honest) }
    ensures order { (⟦<SqlLog<S> as DecisionLog>⟧.moment log).is_in_order → IfOk result
        (λ left. (⟦<SqlLog<S> as DecisionLog>⟧.moment left).is_in_order) }
    ensures leaves { (⟦<SqlLog<S> as DecisionLog>⟧.moment log).is_in_order → IfOk result
        (λ left. (⟦<SqlLog<S> as DecisionLog>⟧.moment left).is_honest →
        IsSomeAnd (⟦<SqlLog<S> as DecisionLog>⟧.moment left).content
        (⟦<SqlLog<S> as DecisionLog>⟧.moment log).may_leave) }
    ensures faults { IfOk result
        (λ left. (⟦<SqlLog<S> as DecisionLog>⟧.moment left).fault_count ≡ 0) }
    ensures accepted { (⟦<SqlLog<S> as DecisionLog>⟧.moment log).is_in_order →
        IfErr result (λ e. IsClean (S.Store.view e.1) → IsStoreFault e.0) }
{
    let conn = match connection_after_crash(alloc, log.into_connection()) {
        Ok(conn) => conn,
        Err(fault) => return Err(fault),
    };
    match SqlLog::adopt(conn) {
        Ok(left) => Ok(left),
        Err((fault, conn)) => Err((fault, conn.into_store())),
    }
}

/// Takes the log out of a system whose manager is down, has its store crash, and restarts the
/// manager over what is found. That is refused for want of memory or for a failure of its own, and
/// for nothing else; and if it counts no failure, the restart isn't refused for its sake. It is an
/// error if no log comes out, and then it is `None`, or if what is found can't be opened: for a
/// fault of the store or for want of memory, and the store comes back.
///
/// The premises: the log was in order as it was handed in, a restart may follow over what a crash
/// leaves of it, as it may over that of a new system and after every step, and the store that is
/// found is honest.
pub fn restart_after_crash<R: ResourceManager + Drop, S: Alter + Reopen + Drop>(
    alloc: Global,
    system: &mut System<R, SqlLog<S>>,
) -> Result<Result<Reply, (SwapFault, SqlLog<S>)>, Option<(LogFault, S)>>
    ensures no_log { result ≡ Err None → (up (trace_in R.look system.old) ≡ Bool.true)
        ⊎ (log_held system.old.log ≡ None) }
    ensures accepted { IfErr result (λ no. IfSome no (λ e.
        (⟦<SqlLog<S> as DecisionLog>⟧.moment system.old.handed).is_in_order →
        IsClean (S.Store.view e.1) → IsStoreFault e.0)) }
    ensures given { IfOk result (λ went_on. IfErr went_on
        (λ e. (⟦<SqlLog<S> as DecisionLog>⟧.moment system.old.handed).is_in_order →
        MayRestartAfterCrash (observes R.look ⟦<SqlLog<S> as DecisionLog>⟧.moment) system.old →
        (⟦<SqlLog<S> as DecisionLog>⟧.moment e.1).is_honest →
        (e.0 ≡ SwapFault.Memory) ⊎ (e.0 ≡ SwapFault.Log))) }
    ensures restarted { IfOk result (λ went_on. IfOk went_on
        (λ reply. (⟦<SqlLog<S> as DecisionLog>⟧.moment system.old.handed).is_in_order →
        MayRestartAfterCrash (observes R.look ⟦<SqlLog<S> as DecisionLog>⟧.moment) system.old →
        (slot_moment ⟦<SqlLog<S> as DecisionLog>⟧.moment system.new.log).is_honest →
        (slot_moment ⟦<SqlLog<S> as DecisionLog>⟧.moment system.new.log).fault_count ≡ 0 →
        reply ≢ Replies.Refused Refusals.LogFault)) }
    // What the log rests on was honest if what is found is so in the end.
    ensures back { IfOk result (λ went_on. IfErr went_on (λ e.
        (⟦<SqlLog<S> as DecisionLog>⟧.moment e.1).is_honest →
        (slot_moment ⟦<SqlLog<S> as DecisionLog>⟧.moment system.old.log).is_honest)) }
    ensures honest { IfOk result (λ went_on. IfOk went_on (λ reply.
        (slot_moment ⟦<SqlLog<S> as DecisionLog>⟧.moment system.new.log).is_honest →
        (slot_moment ⟦<SqlLog<S> as DecisionLog>⟧.moment system.old.log).is_honest)) }
    ensures start { origin_in R.look system.new ≡ origin_in R.look system.old }
    ensures headline { RightOrigin (origin_in R.look system.new) →
        Headline (origin_in R.look system.new) system.new.events }
{
    system.agree();
    let Some(log) = system.take_log() else {
        return Err(None);
    };
    match log_after_crash(alloc, log) {
        Ok(left) => Ok(restart_over(system, left)),
        Err(fault) => Err(Some(fault)),
    }
}

/// Starts a system over a log in order and runs steps, of which the last may be one in which the
/// log failed. Then the store of the log crashes, and the system goes on over what is found. No
/// premise is left but that the store is honest; and the headline holds of all events, before and
/// after.
pub fn restart_after_fault<R: ResourceManager + Drop, S: Alter + Reopen + Drop>(
    alloc: Global,
    threads: u32,
    rms: Vec<R>,
    log: SqlLog<S>,
    steps: &[Step],
) -> Result<
    (
        Result<Result<Reply, (SwapFault, SqlLog<S>)>, Option<(LogFault, S)>>,
        System<R, SqlLog<S>>,
    ),
    NewFault,
>
    ensures accepted { (⟦<SqlLog<S> as DecisionLog>⟧.moment log).is_in_order →
        IfOk result (λ it. IfErr it.0 (λ no. IfSome no (λ e.
        IsClean (S.Store.view e.1) → IsStoreFault e.0))) }
    ensures given { (⟦<SqlLog<S> as DecisionLog>⟧.moment log).is_in_order →
        IfOk result (λ it. IfOk it.0 (λ went_on. IfErr went_on (λ e.
        (⟦<SqlLog<S> as DecisionLog>⟧.moment e.1).is_honest →
        (e.0 ≡ SwapFault.Memory) ⊎ (e.0 ≡ SwapFault.Log)))) }
    ensures restarted { (⟦<SqlLog<S> as DecisionLog>⟧.moment log).is_in_order →
        IfOk result (λ it. IfOk it.0 (λ went_on. IfOk went_on (λ reply.
        (slot_moment ⟦<SqlLog<S> as DecisionLog>⟧.moment it.1.log).is_honest →
        (slot_moment ⟦<SqlLog<S> as DecisionLog>⟧.moment it.1.log).fault_count ≡ 0 →
        reply ≢ Replies.Refused Refusals.LogFault))) }
    ensures headline { IfOk result (λ it. Headline (origin_in R.look it.1) it.1.events) }
{
    let mut system = System::new(alloc, threads, rms, log)?;
    let _ran = system.run(steps);
    let went_on = restart_after_crash(alloc, &mut system);
    Ok((went_on, system))
}

/// The same over a new log in memory: no premise is left.
pub fn restart_in_memory(
    alloc: Global,
    steps: &[Step],
) -> anyhow::Result<
    (
        Result<Result<Reply, (SwapFault, SqlLog<MemStore>)>, Option<(LogFault, MemStore)>>,
        System<MemRm, SqlLog<MemStore>>,
    ),
>
    ensures given { IfOk result (λ it. IfOk it.0 (λ went_on. IfErr went_on (λ e.
        (e.0 ≡ SwapFault.Memory) ⊎ (e.0 ≡ SwapFault.Log)))) }
    ensures restarted { IfOk result (λ it. IfOk it.0 (λ went_on. IfOk went_on (λ reply.
        (slot_moment ⟦<SqlLog<MemStore> as DecisionLog>⟧.moment it.1.log).fault_count ≡ 0 →
        reply ≢ Replies.Refused Refusals.LogFault))) }
    ensures headline { IfOk result (λ it. Headline
        (origin_in ⟦<MemRm as ResourceManager>⟧.look it.1) it.1.events) }
{
    let mut rms = Vec::new(alloc);
    rms.push(MemRm::new(alloc))?;
    let log = SqlLog::open_in_memory(alloc)?;
    memory_is_honest();
    Ok(restart_after_fault(alloc, 1, rms, log, steps)?)
}
