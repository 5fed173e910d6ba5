//! The tables of a log: made where there is none, and migrated from version 1.
ghost use Rattle.std.specs.Prelude.{◌≡◌, ◌⊎◌, false, IsTrue, Err, IfErr, OnOk};
ghost use Rattle.sqlite.specs.State.{HasCleanDisk, KeepsCommit, Survives};
ghost use Rattle.sqlite.specs.Held.{state};
ghost use Rattle.xa_log.specs.Content.{nothing};
ghost use Rattle.xa_log.specs.Contract.{IsStoreFault};
ghost use Rattle.xa_sql_log.specs.Layouts.{HasOtherTables};
ghost use Rattle.xa_sql_log.specs.Rows.{old_content_of, IsOldLog};
ghost use Rattle.xa_sql_log.specs.Sql.{IsNewLog, AreNewTrees, IsOldReady, Rests};
ghost use Rattle.xa_sql_log.specs.OpenedDatabase.{IsBlank, HasTables, NamesVersion, NamesKnown, RunsInside};
ghost use Rattle.xa_sql_log.specs.Labels.{MakesParticipants};
ghost use Rattle.xa_sql_log.specs.PreparedDatabase.{LeavesSame, MakesLog, Prepares};

use crate::layout::{Layout, layout_of};
use crate::statements::of_store;
use crate::version::check_version;
use sqlite::{Alter, Connection, Transaction};
use xa_log::LogFault;

const CREATE_META: &str = "CREATE TABLE tm_meta (k INTEGER PRIMARY KEY CHECK (k = 1), \
    version INTEGER NOT NULL, incarnation INTEGER NOT NULL)";

const CREATE_DECISION: &str = "CREATE TABLE decision (inc INTEGER NOT NULL, \
    seq INTEGER NOT NULL, PRIMARY KEY (inc, seq))";

const CREATE_HEURISTIC: &str = "CREATE TABLE heuristic (inc INTEGER NOT NULL, \
    seq INTEGER NOT NULL, thread INTEGER NOT NULL, rm INTEGER NOT NULL, how INTEGER NOT NULL, \
    PRIMARY KEY (inc, seq, thread, rm), CHECK (how >= 5 AND how <= 8))";

/// It is made last also in a new log, so that a migrated log has the same schema.
const CREATE_PARTICIPANT: &str = "CREATE TABLE participant (inc INTEGER NOT NULL, \
    seq INTEGER NOT NULL, thread INTEGER NOT NULL, rm INTEGER NOT NULL, \
    PRIMARY KEY (inc, seq, thread, rm), \
    FOREIGN KEY (inc, seq) REFERENCES decision (inc, seq) ON DELETE CASCADE)";

const FIRST_META: &str = "INSERT INTO tm_meta (k, version, incarnation) VALUES (1, 2, 0)";

pub(crate) const SET_VERSION: &str = "UPDATE tm_meta SET version = 2";

/// Runs one statement of a transaction, which has no parameters.
fn execute<S: Alter>(tx: &mut Transaction<'_, S>, sql: &str) -> Result<(), LogFault>
    ensures same_reference { tx.new.conn.ghost_name ≡ tx.old.conn.ghost_name }
    ensures ran { HasCleanDisk (state S.Store tx.new.conn.now) →
        IsTrue (state S.Store tx.old.conn.now).in_transaction →
        OnOk result (RunsInside sql.now
        (state S.Store tx.old.conn.now) (state S.Store tx.new.conn.now)) }
    ensures kept { HasCleanDisk (state S.Store tx.new.conn.now) →
        KeepsCommit (state S.Store tx.old.conn.now) (state S.Store tx.new.conn.now) }
    ensures survives { Survives (state S.Store tx.old.conn.now)
        (state S.Store tx.new.conn.now) (λ _. ⊥) }
    ensures cause { IfErr result IsStoreFault }
{
    of_store(tx.execute(sql, &[]))?;
    Ok(())
}

/// The tables of an empty log, of which this statement makes that of the participants.
fn create_tables<S: Alter>(tx: &mut Transaction<'_, S>, participants: &str) -> Result<(), LogFault>
    ensures same_reference { tx.new.conn.ghost_name ≡ tx.old.conn.ghost_name }
    ensures written { HasCleanDisk (state S.Store tx.new.conn.now) →
        IsTrue (state S.Store tx.old.conn.now).in_transaction →
        IsBlank (state S.Store tx.old.conn.now) → MakesParticipants participants.now →
        OnOk result (IsTrue (state S.Store tx.new.conn.now).in_transaction ×
        IsNewLog nothing (state S.Store tx.new.conn.now).now) }
    ensures kept { HasCleanDisk (state S.Store tx.new.conn.now) →
        KeepsCommit (state S.Store tx.old.conn.now) (state S.Store tx.new.conn.now) }
    ensures survives { Survives (state S.Store tx.old.conn.now)
        (state S.Store tx.new.conn.now) (λ _. ⊥) }
    ensures cause { IfErr result IsStoreFault }
{
    execute(tx, CREATE_META)?;
    execute(tx, CREATE_DECISION)?;
    execute(tx, CREATE_HEURISTIC)?;
    execute(tx, participants)?;
    execute(tx, FIRST_META)?;
    Ok(())
}

/// Makes the tables of an empty log, that of the participants by this statement, in one transaction.
pub(crate) fn make_tables<S: Alter>(
    conn: &mut Connection<S>,
    participants: &str,
) -> Result<(), LogFault>
    requires { conn.old.in_transaction ≡ false }
    ensures honest { HasCleanDisk (state S.Store conn.new) → HasCleanDisk (state S.Store conn.old) }
    ensures makes { HasCleanDisk (state S.Store conn.new) → IsBlank (state S.Store conn.old) →
        MakesParticipants participants.now →
        MakesLog nothing (state S.Store conn.old) (state S.Store conn.new) result }
    ensures crash { IsBlank (state S.Store conn.old) → MakesParticipants participants.now →
        Survives (state S.Store conn.old) (state S.Store conn.new) (AreNewTrees nothing) }
    ensures cause { IfErr result IsStoreFault }
{
    let mut tx = conn.transaction();
    create_tables(&mut tx, participants)?;
    of_store(tx.commit())?;
    Ok(())
}

/// Makes the tables of an empty log without a label, in one transaction.
fn make_plain_tables<S: Alter>(conn: &mut Connection<S>) -> Result<(), LogFault>
    requires { conn.old.in_transaction ≡ false }
    ensures honest { HasCleanDisk (state S.Store conn.new) → HasCleanDisk (state S.Store conn.old) }
    ensures makes { HasCleanDisk (state S.Store conn.new) → IsBlank (state S.Store conn.old) →
        MakesLog nothing (state S.Store conn.old) (state S.Store conn.new) result }
    ensures crash { IsBlank (state S.Store conn.old) →
        Survives (state S.Store conn.old) (state S.Store conn.new) (AreNewTrees nothing) }
{
    make_tables(conn, CREATE_PARTICIPANT)
}

/// The tables and the version of version 2, from those of version 1.
fn make_version_2<S: Alter>(tx: &mut Transaction<'_, S>) -> Result<(), LogFault>
    ensures same_reference { tx.new.conn.ghost_name ≡ tx.old.conn.ghost_name }
    ensures written { HasCleanDisk (state S.Store tx.new.conn.now) →
        IsTrue (state S.Store tx.old.conn.now).in_transaction →
        IsOldLog (state S.Store tx.old.conn.now).now →
        OnOk result (IsTrue (state S.Store tx.new.conn.now).in_transaction ×
        IsNewLog (old_content_of (state S.Store tx.old.conn.now).now.trees)
        (state S.Store tx.new.conn.now).now) }
    ensures kept { HasCleanDisk (state S.Store tx.new.conn.now) →
        KeepsCommit (state S.Store tx.old.conn.now) (state S.Store tx.new.conn.now) }
    ensures survives { Survives (state S.Store tx.old.conn.now)
        (state S.Store tx.new.conn.now) (λ _. ⊥) }
    ensures cause { IfErr result IsStoreFault }
{
    execute(tx, CREATE_PARTICIPANT)?;
    execute(tx, SET_VERSION)?;
    Ok(())
}

/// Makes a log of version 1 one of version 2 with the same rows, in one transaction.
fn migrate<S: Alter>(conn: &mut Connection<S>) -> Result<(), LogFault>
    requires { conn.old.in_transaction ≡ false }
    ensures honest { HasCleanDisk (state S.Store conn.new) → HasCleanDisk (state S.Store conn.old) }
    ensures makes { HasCleanDisk (state S.Store conn.new) → IsOldReady (state S.Store conn.old) →
        MakesLog (old_content_of (state S.Store conn.old).now.trees)
        (state S.Store conn.old) (state S.Store conn.new) result }
    ensures crash { IsOldReady (state S.Store conn.old) →
        Survives (state S.Store conn.old) (state S.Store conn.new)
        (AreNewTrees (old_content_of (state S.Store conn.old).now.trees)) }
    ensures cause { IfErr result IsStoreFault }
{
    let mut tx = conn.transaction();
    make_version_2(&mut tx)?;
    of_store(tx.commit())?;
    Ok(())
}

/// Migrates a log whose tables are those of version 1, if they name that version.
fn upgrade<S: Alter>(conn: &mut Connection<S>) -> Result<(), LogFault>
    requires { conn.old.in_transaction ≡ false }
    ensures honest { HasCleanDisk (state S.Store conn.new) → HasCleanDisk (state S.Store conn.old) }
    ensures makes { HasCleanDisk (state S.Store conn.new) → IsOldReady (state S.Store conn.old) →
        MakesLog (old_content_of (state S.Store conn.old).now.trees)
        (state S.Store conn.old) (state S.Store conn.new) result }
    // Which tables are refused.
    ensures version { HasTables (state S.Store conn.old) → HasCleanDisk (state S.Store conn.new) →
        OnOk result (NamesVersion 1 (state S.Store conn.old)) }
    ensures refused { HasTables (state S.Store conn.old) →
        (result ≡ Err LogFault.Version) ⊎ ¬ NamesKnown (state S.Store conn.old) →
        HasCleanDisk (state S.Store conn.new) →
        Rests (state S.Store conn.old) (state S.Store conn.new) ×
        LeavesSame (state S.Store conn.old) (state S.Store conn.new) }
{
    check_version(conn, 1)?;
    migrate(conn)
}

/// Makes the tables where there is none, migrates those of version 1, and keeps those of version 2. Others that have a log's names are
/// refused, and nothing is read or written then.
pub(crate) fn prepare<S: Alter>(conn: &mut Connection<S>) -> Result<(), LogFault>
    ensures busy { IsTrue conn.old.in_transaction →
        (result ≡ Err LogFault.Store) × (conn.new ≡ conn.old) }
    ensures other { conn.old.in_transaction ≡ false → HasOtherTables (state S.Store conn.old) →
        (result ≡ Err LogFault.Version) × (conn.new ≡ conn.old) }
    ensures prepares { HasCleanDisk (state S.Store conn.new) →
        Prepares (state S.Store conn.old) (state S.Store conn.new) result }
{
    if !conn.is_autocommit() {
        return Err(LogFault::Store);
    }
    match layout_of(conn) {
        Layout::Missing => make_plain_tables(conn),
        Layout::Version1 => upgrade(conn),
        Layout::Version2 => check_version(conn, 2),
        Layout::Other => Err(LogFault::Version),
    }
}
