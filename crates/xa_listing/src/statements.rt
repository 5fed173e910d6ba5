//! The statements by which databases commit a prepared branch.

ghost use Rattle.std.specs.Prelude.{◌≡◌, IfErr, IfOk};
ghost use Rattle.std.specs.String.{string_bytes};
ghost use Rattle.xa_files.specs.declared.fault.RunFault.TheVariants.{Memory};
ghost use Rattle.xa_listing.specs.Statements.{mariadb_commit, named_gtrid, postgresql_commit, xa_commit};

use std::alloc::Global;
use xa_base::Xid;
use xa_files::RunFault;

/// The identifier of the global transaction, as the manager of this name gives it out.
fn named_gtrid(alloc: Global, manager: &[u8], xid: &Xid) -> Result<String, RunFault>
    ensures text { IfOk result (λ text. string_bytes text ≡ named_gtrid manager.now xid.now) }
    ensures fault { IfErr result (λ e. e ≡ Memory) }
{
    let name = hex::encode(alloc, manager)?;
    let gtrid = hex::encode(alloc, xid.gtrid())?;
    Ok(format!(in alloc; "{name}{gtrid}")?)
}

/// The statement of PostgreSQL for a branch, as the manager of this name names it.
pub fn postgresql_commit(alloc: Global, manager: &[u8], xid: &Xid) -> Result<String, RunFault>
    ensures text { IfOk result (λ text.
        string_bytes text ≡ postgresql_commit manager.now xid.now) }
    ensures fault { IfErr result (λ e. e ≡ Memory) }
{
    let format = xid.format();
    let gtrid = named_gtrid(alloc, manager, xid)?;
    let bqual = hex::encode(alloc, xid.bqual())?;
    Ok(format!(in alloc; "COMMIT PREPARED '{format}:{gtrid}:{bqual}';")?)
}

/// The statement by which MariaDB commits what lies under these digits.
fn xa_commit(alloc: Global, gtrid: &str, bqual: &str, format: i32) -> Result<String, RunFault>
    ensures text { IfOk result (λ text.
        string_bytes text ≡ xa_commit gtrid.now bqual.now format) }
    ensures fault { IfErr result (λ e. e ≡ Memory) }
{
    let number = format!(in alloc; "{format}")?;
    let mut text = format!(in alloc; "XA COMMIT X'{gtrid}")?;
    text.push_str("',X'")?;
    text.push_str(bqual)?;
    text.push_str("',")?;
    text.push_str(number.as_str())?;
    text.push_str(";")?;
    Ok(text)
}

/// The statement of MariaDB and MySQL for it.
pub fn mariadb_commit(alloc: Global, manager: &[u8], xid: &Xid) -> Result<String, RunFault>
    ensures text { IfOk result (λ text.
        string_bytes text ≡ mariadb_commit manager.now xid.now) }
    ensures fault { IfErr result (λ e. e ≡ Memory) }
{
    let gtrid = named_gtrid(alloc, manager, xid)?;
    let bqual = hex::encode(alloc, xid.bqual())?;
    xa_commit(alloc, gtrid.as_str(), bqual.as_str(), xid.format())
}
