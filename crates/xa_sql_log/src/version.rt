//! The version that the tables of a log name.
ghost use Rattle.std.specs.Prelude.{◌≡◌, ◌≢◌, ℕ, List, pos, false, [], ◌∷◌, IfOk, IfErr, OnOk, OnErr};
ghost use Rattle.std.specs.List.{Contains};
ghost use Rattle.sqlite.specs.declared.types.Value.{Value};
ghost use Rattle.sqlite.specs.declared.types.Value.TheVariants.{Int};
ghost use Rattle.sqlite.specs.Order.{column};
ghost use Rattle.sqlite.specs.State.{HasCleanDisk, IsUnchanged, Survives};
ghost use Rattle.sqlite.specs.Held.{state};
ghost use Rattle.xa_log.specs.Contract.{IsStoreFault};
ghost use Rattle.xa_sql_log.specs.Sql.{Rests};
ghost use Rattle.xa_sql_log.specs.OpenedDatabase.{HasTables, HasMetaRow, IsNatural, NamesVersion};

use crate::fields::number;
use crate::statements::of_store;
use sqlite::{Alter, Connection, Row};
use xa_log::LogFault;

pub(crate) const READ_META: &str = "SELECT version, incarnation FROM tm_meta";

/// The version in the row of `tm_meta`, both of whose numbers have to fit their types.
fn version_in(rows: &[Row]) -> Result<u64, LogFault>
    ensures ok { IfOk result (λ version. (row : List Value) × Contains rows.now row ×
        (column row 0 ≡ Int (pos version)) × IsNatural (column row 1)) }
    ensures err { (v i : ℕ) → rows.now ≡ (Int (pos v) ∷ Int (pos i) ∷ []) ∷ [] →
        IfErr result (λ fault. fault ≡ LogFault.Memory) }
{
    let row = rows.first().ok_or(LogFault::Version)?;
    let version = number(row, 0)?;
    let _incarnation: u64 = number(row, 1)?;
    Ok(version)
}

/// Refuses a version that is another.
fn match_version(found: u64, version: u64) -> Result<(), LogFault>
    ensures ok { OnOk result (found ≡ version) }
    ensures err { IfErr result (λ fault. (fault ≡ LogFault.Version) × (found ≢ version)) }
{
    if found == version {
        Ok(())
    } else {
        Err(LogFault::Version)
    }
}

/// Whether the tables name this version; [`LogFault::Version`] where they name another or none.
pub(crate) fn check_version<S: Alter>(
    conn: &mut Connection<S>,
    version: u64,
) -> Result<(), LogFault>
    ensures honest { HasCleanDisk (state S.Store conn.new) → HasCleanDisk (state S.Store conn.old) }
    ensures mode { conn.old.in_transaction ≡ false → conn.new.in_transaction ≡ false }
    // Nothing is changed.
    ensures same { HasTables (state S.Store conn.old) → HasCleanDisk (state S.Store conn.new) →
        OnOk result (IsUnchanged (state S.Store conn.old) (state S.Store conn.new)) }
    ensures rests { HasTables (state S.Store conn.old) → HasCleanDisk (state S.Store conn.new) →
        OnErr result (Rests (state S.Store conn.old) (state S.Store conn.new)) }
    ensures survives { HasTables (state S.Store conn.old) →
        Survives (state S.Store conn.old) (state S.Store conn.new) (λ _. ⊥) }
    // Which tables are refused, and as what.
    ensures version { HasTables (state S.Store conn.old) → HasCleanDisk (state S.Store conn.new) →
        OnOk result (NamesVersion version (state S.Store conn.old)) }
    ensures known { (i : ℕ) → HasMetaRow version i (state S.Store conn.old) →
        HasCleanDisk (state S.Store conn.new) → IfErr result IsStoreFault }
{
    let rows = of_store(conn.query_all(READ_META, &[]))?;
    let found = version_in(rows.as_slice())?;
    match_version(found, version)
}
