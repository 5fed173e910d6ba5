//! What is done for a driver that is conducted, over a log in any store, and over one in files.

ghost use Rattle.std.specs.Prelude.{IfOk};
ghost use Rattle.xa_commands.specs.Services.{HasConducted, HasConductedFiles};

use crate::failure::Failure;
use crate::service::{Left, Served, end_in_files};
use sqlite::FileStore;
use sqlite_disk::Disk;
use std::alloc::Global;
use std::io::{BufReader, Read, Write};
use xa_log::DecisionLog;
use xa_names::ManagerName;
use xa_server::Server;
use xa_sql_log::SqlLog;

/// Conducts a driver over a log, as the manager of this name, until the session is over, and gives
/// the log back.
fn conduct_over<L: DecisionLog + Drop, R: Read, W: Write>(
    alloc: Global,
    name: &ManagerName,
    threads: u32,
    rms: u32,
    log: L,
    input: &mut BufReader<R>,
    out: &mut W,
) -> Result<Left<L>, Failure>
    ensures { IfOk result (HasConducted L.DecisionLog name.now threads rms log) }
{
    let server = Server::new(alloc, threads, rms, log)?;
    let conductor = xa_conduct::serve(server, alloc, name, threads, rms, input, out)?;
    if conductor.is_strange() {
        return Ok(Left::Strange(conductor.into_server().into_log()));
    }
    Ok(Left::Whole(conductor.into_server().into_log()))
}

/// The same over files, which are closed then, or shut.
pub(crate) fn conduct_in_files<D: Disk + Drop, R: Read, W: Write>(
    alloc: Global,
    name: &ManagerName,
    threads: u32,
    rms: u32,
    log: SqlLog<FileStore<D>>,
    input: &mut BufReader<R>,
    out: &mut W,
) -> Result<Served, Failure>
    ensures { IfOk result (HasConductedFiles D.Disk ⟦<SqlLog<FileStore<D>> as DecisionLog>⟧
        name.now threads rms log) }
{
    match conduct_over(alloc, name, threads, rms, log, input, out) {
        Ok(left) => Ok(end_in_files(left)),
        Err(failure) => Err(failure),
    }
}
