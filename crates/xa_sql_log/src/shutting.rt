//! A log that is shut, and opened again: the row of `tm_meta` names a version that no open takes, and all other rows stay.
ghost use Rattle.std.specs.Prelude.{◌≡◌, ◌⊎◌, ℕ, pos, [], ◌∷◌, None, Ok, nat_eq, IfErr, IfOk, IfSome, OnOk};
ghost use Rattle.sqlite.specs.declared.types.Value.TheVariants.{Int};
ghost use Rattle.sqlite.specs.Held.{state};
ghost use Rattle.sqlite.specs.State.{HasCleanDisk};
ghost use Rattle.sqlite.specs.Tree.{Trees};
ghost use Rattle.xa_log.specs.Content.{Content};
ghost use Rattle.xa_log.specs.Contract.{IsStoreFault};
ghost use Rattle.xa_sql_log.specs.OpenedDatabase.{HasMetaRow, HasTables, IsBlank, NamesVersion};
ghost use Rattle.xa_sql_log.specs.Rows.{content_of};
ghost use Rattle.xa_sql_log.specs.ShutLogs.{AreShutTrees, IsShutWith, shut_version};
ghost use Rattle.xa_sql_log.specs.Sql.{IsOrderly, IsReadyWith};

use crate::fields::number;
use crate::label::find_label;
use crate::layout::{has_log, refuse_other};
use crate::statements::{of_store, run};
use crate::tables::SET_VERSION;
use crate::version::{READ_META, check_version};
use sqlite::{Alter, Connection, Row};
use std::alloc::Global;
use xa_log::LogFault;

/// The version of a log that is shut, which was of version 2.
const SHUT_VERSION: u64 = 102;

const SHUT: &str = "UPDATE tm_meta SET version = 102";

/// What a log says of itself, before a look at its rows.
#[derive(Drop)]
pub struct LogHead {
    /// Its label, which is empty where it has none.
    pub label: String,
    /// The incarnation of the manager that has started last over it, and 0 where none has.
    pub incarnation: u64,
    /// Whether it is shut: then no open takes it, until it is opened again by [`SqlLog::reopen`](crate::SqlLog::reopen).
    pub is_shut: bool,
}

/// Shuts a log.
pub(crate) fn shut<S: Alter>(conn: &mut Connection<S>) -> Result<(), LogFault>
    ensures honest { HasCleanDisk (state S.Store conn.new) → HasCleanDisk (state S.Store conn.old) }
    ensures shut { IsOrderly (state S.Store conn.old) → HasCleanDisk (state S.Store conn.new) →
        OnOk result (IsShutWith (content_of (state S.Store conn.old).now.trees)
        (state S.Store conn.new)) }
    ensures crash { IsOrderly (state S.Store conn.old) → HasCleanDisk (state S.Store conn.new) →
        (db : Trees) → (state S.Store conn.new).may_leave db →
        (state S.Store conn.old).may_leave db
        ⊎ AreShutTrees (content_of (state S.Store conn.old).now.trees) db }
    ensures cause { IfErr result IsStoreFault }
{
    run(conn, SHUT, &[])
}

/// Opens a log that is shut again: then it is as it was. Of another one it is [`LogFault::Version`].
pub(crate) fn reopen<S: Alter>(conn: &mut Connection<S>) -> Result<(), LogFault>
    ensures honest { HasCleanDisk (state S.Store conn.new) → HasCleanDisk (state S.Store conn.old) }
    ensures shut { HasTables (state S.Store conn.old) → HasCleanDisk (state S.Store conn.new) →
        OnOk result (NamesVersion shut_version (state S.Store conn.old)) }
    ensures opened { (c : Content) → IsShutWith c (state S.Store conn.old) →
        HasCleanDisk (state S.Store conn.new) →
        OnOk result (IsReadyWith c (state S.Store conn.new)) }
{
    refuse_other(conn)?;
    check_version(conn, SHUT_VERSION)?;
    of_store(conn.execute(SET_VERSION, &[]))?;
    Ok(())
}

/// The version and the incarnation in the row of `tm_meta`.
fn numbers_in(rows: &[Row]) -> Result<(u64, u64), LogFault>
    ensures { (v i : ℕ) → rows.now ≡ (Int (pos v) ∷ Int (pos i) ∷ []) ∷ [] →
        IfOk result (λ it. (it.0 ≡ v) × (it.1 ≡ i)) }
{
    let row = rows.first().ok_or(LogFault::Version)?;
    Ok((number(row, 0)?, number(row, 1)?))
}

/// The version that the tables of a log name, and its incarnation.
fn find_meta<S: Alter>(conn: &mut Connection<S>) -> Result<(u64, u64), LogFault>
    ensures { (v i : ℕ) → HasMetaRow v i (state S.Store conn.old) →
        HasCleanDisk (state S.Store conn.new) → IfOk result (λ it. (it.0 ≡ v) × (it.1 ≡ i)) }
{
    let rows = of_store(conn.query_all(READ_META, &[]))?;
    numbers_in(rows.as_slice())
}

/// What the log in a database says of itself. Where there is no log, it is nothing.
pub(crate) fn find_head<S: Alter>(
    alloc: Global,
    conn: &mut Connection<S>,
) -> Result<Option<LogHead>, LogFault>
    ensures blank { IsBlank (state S.Store conn.old) → result ≡ Ok None }
    ensures told { (v i : ℕ) → HasMetaRow v i (state S.Store conn.old) →
        HasCleanDisk (state S.Store conn.new) → IfOk result (λ found. IfSome found (λ head.
        (head.is_shut ≡ nat_eq v shut_version) × (head.incarnation ≡ i))) }
{
    if !has_log(conn) {
        return Ok(None);
    }
    refuse_other(conn)?;
    let (version, incarnation) = find_meta(conn)?;
    let Some(label) = find_label(alloc, conn)? else {
        return Ok(None);
    };
    Ok(Some(LogHead {
        label,
        incarnation,
        is_shut: version == SHUT_VERSION,
    }))
}
