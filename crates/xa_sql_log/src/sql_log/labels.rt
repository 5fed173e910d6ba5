//! What a log in files says of itself, read without a look at its rows; and the label that it is given when it is made.
ghost use Rattle.std.specs.Prelude.{◌≡◌, false, Err, IsTrue, IfErr, IfOk, IsErrAnd, Ok};
ghost use Rattle.xa_log.specs.Contract.{IsStoreFault};
ghost use Rattle.xa_sql_log.specs.Labels.{is_label};

use super::SqlLog;
use super::files::{connection_to, copies_of, options_of, read_fault};
use super::pages::connect;
use crate::label::{is_label, labelled_text};
use crate::shutting::{LogHead, find_head};
use crate::statements::of_store;
use crate::tables::make_tables;
use sqlite::{Alter, Connection, FileFrom, FileStore, Files, Unknown};
use sqlite_disk::Disk;
use std::alloc::Global;
use std::{fs, io};
use xa_log::LogFault;

/// What the log in a database says of itself. The database is closed.
fn head_over<S: Alter + Drop>(
    alloc: Global,
    mut conn: Connection<S>,
) -> Result<Option<LogHead>, LogFault> {
    find_head(alloc, &mut conn)
}

/// The same in these files.
fn head_in_files<D: Disk + Drop>(
    alloc: Global,
    files: Files<D>,
) -> Result<Option<LogHead>, LogFault>
    requires log { IsTrue (D.Disk.is_usable files.log) }
    requires db { IsTrue (D.Disk.is_usable files.db) }
{
    head_over(alloc, connect(alloc, files, options_of(0))?)
}

/// The database with the tables of an empty log, of which this statement makes that of the participants, where no transaction is
/// open.
fn with_log<S: Alter + Drop>(
    mut conn: Connection<S>,
    participants: &str,
) -> Result<Connection<S>, LogFault>
    ensures cause { IfErr result IsStoreFault }
{
    if !conn.is_autocommit() {
        return Err(LogFault::Store);
    }
    make_tables(&mut conn, participants)?;
    Ok(conn)
}

/// The same over files, which are closed into one.
fn make_in_files<D: Disk + Drop>(
    conn: Connection<FileStore<D>>,
    participants: &str,
) -> Result<(), LogFault>
    ensures cause { IfErr result IsStoreFault }
{
    of_store(with_log(conn, participants)?.close())
}

/// Whether a file is there, by what the system says. Of a path that can't be looked at nobody says that there is no log.
fn is_there(found: io::Result<bool>) -> Result<bool, LogFault>
    ensures found { IfOk found (λ there. result ≡ Ok there) }
    ensures unread { IfErr found (λ _. IsErrAnd result IsStoreFault) }
{
    match found {
        Ok(there) => Ok(there),
        Err(error) => Err(read_fault(error)),
    }
}

impl SqlLog<FileStore<FileFrom<Unknown>>> {
    /// What the log in the file at a path says of itself, and nothing where no log is there. The files are read into memory,
    /// and written neither. [`LogFault::Version`] comes for tables whose version and incarnation are no numbers.
    pub fn head(rt: &HostRuntime, path: &str) -> Result<Option<LogHead>, LogFault> {
        if is_there(fs::exists(rt, path))? {
            head_in_files(rt.alloc(), copies_of(rt, path)?)
        } else {
            Ok(None)
        }
    }

    /// Makes an empty log with this label in the file at a path, and closes it into that file. It is one transaction of the
    /// database: after a crash either no log is there, or one with its label.
    ///
    /// - [`LogFault::Store`]: the text is no label ([`is_label`](crate::is_label)), a table of a log is there, or the store
    ///   failed.
    /// - [`LogFault::Memory`]: a request for memory was refused.
    pub fn make(rt: &HostRuntime, path: &str, label: &str) -> Result<(), LogFault>
        ensures no_label { is_label label.now ≡ false → result ≡ Err LogFault.Store }
        ensures cause { IfErr result IsStoreFault }
    {
        if !is_label(label) {
            return Err(LogFault::Store);
        }
        let participants = labelled_text(rt.alloc(), label)?;
        make_in_files(connection_to(rt, path, Unknown)?, participants.as_str())
    }
}
