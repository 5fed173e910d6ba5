//! Half of a log: a journal whose database file is lost. An open would make a new log over it, and lose what is decided.
ghost use Rattle.std.specs.Prelude.{◌≡◌, ◌≢◌, ◌&&◌, ◌<◌, true, false, nat_le, IfErr, IfOk, Ok};
ghost use Rattle.std.specs.IoError.{error_kind};
ghost use Rattle.xa_log.specs.Contract.{IsStoreFault};
ghost use Rattle.xa_sql_log.specs.Halves.{is_rest};

use super::SqlLog;
use super::files::{bytes_at, bytes_or_none, journal_path, read_fault};
use sqlite::{FileFrom, FileStore, Unknown};
use std::alloc::Global;
use std::fs;
use std::io::{self, ErrorKind};
use xa_log::LogFault;

/// The most bytes of a journal beside a database file that is being made: its header, and a byte behind it that is set last.
const NEW_JOURNAL_LEN: usize = 41;

/// Where the header of a journal has the number of its checkpoints, and the number in one that is being made.
const CHECKPOINTS: usize = 12;

const NO_CHECKPOINTS: [u8; 4] = [0xff; 4];

/// Whether a journal beside a database file that is missing or empty was that of a database: it is longer than one that is
/// being made, or counts its checkpoints. The first byte of one that is being made is set last.
pub(super) fn is_rest(journal: &[u8]) -> bool
    ensures { result ≡ is_rest journal.now }
{
    journal.len() > NEW_JOURNAL_LEN
        || (journal.len() == NEW_JOURNAL_LEN
            && journal[0] != 0
            && &journal[CHECKPOINTS..CHECKPOINTS + 4] != NO_CHECKPOINTS.as_slice())
}

/// Whether a file of this length is lost: it is missing or empty. While a database is made in it, it may have one byte, a zero.
fn is_lost_by(len: io::Result<u64>) -> Result<bool, LogFault>
    ensures found { IfOk len (λ len. result ≡ Ok (nat_le len 1)) }
    ensures missing { IfErr len (λ error. error_kind error ≡ ErrorKind.NotFound →
        result ≡ Ok true) }
    ensures cause { IfErr result IsStoreFault }
{
    match len {
        Ok(len) => Ok(len <= 1),
        Err(error) if error.kind() == ErrorKind::NotFound => Ok(true),
        Err(error) => Err(read_fault(error)),
    }
}

/// Whether a file of this length and a journal that was read so are half of a log: the file is lost, and the journal is what is
/// left of it.
fn half_of(
    alloc: Global,
    len: io::Result<u64>,
    journal: io::Result<Vec<u8>>,
) -> Result<bool, LogFault>
    ensures whole { IfOk len (λ len. 1 < len → result ≡ Ok false) }
    ensures lost { IfOk len (λ len. IfOk journal (λ bytes. IfOk result (λ half.
        half ≡ (nat_le len 1 && is_rest bytes.items)))) }
    ensures missing { IfErr len (λ error. error_kind error ≡ ErrorKind.NotFound →
        IfOk journal (λ bytes. IfOk result (λ half. half ≡ is_rest bytes.items))) }
    ensures found { IfOk journal (λ _. IfErr result (λ _. IfErr len (λ error.
        error_kind error ≢ ErrorKind.NotFound))) }
    ensures unread { IfErr journal (λ error. error_kind error ≢ ErrorKind.NotFound →
        IfOk result (λ half. IfOk len (λ len. 1 < len))) }
    ensures cause { IfErr result IsStoreFault }
{
    if !is_lost_by(len)? {
        return Ok(false);
    }
    Ok(is_rest(bytes_or_none(alloc, journal)?.as_slice()))
}

/// The length of the file at a path.
fn length_at(rt: &HostRuntime, path: &str) -> io::Result<u64> {
    Ok(fs::metadata(rt, path)?.len())
}

/// The path of the journal of the database file at a path. As in SQLite, it lies where a link leads.
fn journal_of(rt: &HostRuntime, path: &str) -> Result<String, LogFault>
    ensures cause { IfErr result IsStoreFault }
{
    match fs::canonicalize(rt, path) {
        Ok(real) => Ok(journal_path(rt.alloc(), real.as_str())?),
        Err(error) if error.kind() == ErrorKind::NotFound => Ok(journal_path(rt.alloc(), path)?),
        Err(error) => Err(read_fault(error)),
    }
}

impl SqlLog<FileStore<FileFrom<Unknown>>> {
    /// Whether what lies at a path is half of a log: the file is missing or empty, and its journal PATH-wal holds what is left.
    /// Then the log's decisions are in the journal, or were in the file, and a log that is made anew there would roll back
    /// what is decided. A kill while a log is made leaves no half: what it leaves is a log that has yet to be made.
    pub fn is_half(rt: &HostRuntime, path: &str) -> Result<bool, LogFault>
        ensures cause { IfErr result IsStoreFault }
    {
        let journal = journal_of(rt, path)?;
        half_of(
            rt.alloc(),
            length_at(rt, path),
            bytes_at(rt, journal.as_str()),
        )
    }

    /// Whether the journal PATH-wal that belongs to a path is that of a database, whatever lies at the path.
    pub fn has_journal(rt: &HostRuntime, path: &str) -> Result<bool, LogFault>
        ensures cause { IfErr result IsStoreFault }
    {
        let journal = journal_of(rt, path)?;
        let bytes = bytes_or_none(rt.alloc(), bytes_at(rt, journal.as_str()))?;
        Ok(is_rest(bytes.as_slice()))
    }
}
