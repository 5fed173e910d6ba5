//! A log that is made from lines.

ghost use Rattle.std.specs.Prelude.{◌≡◌, IfOk, IfSome, length};
ghost use Rattle.std.specs.List.{AllByRecursion};
ghost use Rattle.std.specs.String.{string_bytes};
ghost use Rattle.sqlite.specs.Files.{image_of};
ghost use Rattle.sqlite_wal.specs.Files.{image_at};
ghost use Rattle.sqlite_wal.specs.Reads.{AreClean};
ghost use Rattle.xa_commands.specs.Made.{IsMadeOf, MadeLogsAreHandedOn};
ghost use Rattle.xa_log.specs.Content.{nothing};
ghost use Rattle.xa_log.specs.Contract.{FitsRow};
ghost use Rattle.xa_restore.specs.LogLines.{OwnsBranches};
ghost use Rattle.xa_restore.specs.Restored.{restored};
ghost use Rattle.xa_sql_log.specs.ClosedFiles.{HoldsWhole};
ghost use Rattle.xa_sql_log.specs.HeldContents.{MakesLabelled};

use crate::failure::Failure;
use crate::files::system_failure;
use crate::log_names::{label_of, refuse_half};
use crate::log_reasons::opening_failure_of;
use crate::places::{Absent, name_beside, present};
use crate::stores::restore_in_files;
use sqlite::{FileFrom, Files, Start, Unknown};
use sqlite_disk::Disk;
use std::alloc::Global;
use std::fs::{self, File};
use std::io::{self, ErrorKind, Input, Read};
use std::path::Path;
use xa_log::{DecisionLog, LogFault};
use xa_restore::{LogLines, read_text, restored_logs_hold_what_is_said};
use xa_sql_log::{LockFault, SqlLog, journal_path};

/// Makes the log at a path from the lines on standard input. It is made beside its place, in a file of a name of its own, and comes to
/// its place whole, so that a crash leaves nothing there, or all of it. A path at which there is a file is refused, at the first look
/// and also where one comes to be meanwhile; and so is half of a log.
pub fn make_log(rt: &HostRuntime, path: &str) -> Result<(), Failure> {
    let place = Absent::at(rt, path)?;
    let beside = name_beside(rt, path)?;
    let outcome = make_beside(rt, beside.as_str(), place);
    // Whatever came of it, nothing stays under the other name.
    let removed = remove_log(rt, beside.as_str());
    outcome?;
    removed
}

/// Makes a log beside its place, and moves it there before anybody else may open it.
fn make_beside(rt: &HostRuntime, beside: &str, place: Absent<'_>) -> Result<(), Failure> {
    // The files are locked until they are let go: who opens the log at its new place meanwhile is refused.
    let _locked = make_from(rt, rt.reader(), beside, place.path(), Unknown)?;
    move_log(rt, beside, place)
}

/// Makes a log of all that is read, in files at `beside`, which it gives back locked. A failure
/// tells of `path`, which is to be their place. `start` stands for what the files hold as they are
/// opened; the contract speaks of each such start.
pub fn make_from<S: Start, R: Read + Drop>(
    rt: &HostRuntime,
    input: R,
    beside: &str,
    path: &str,
    start: S,
) -> Result<Files<FileFrom<S>>, Failure>
    ensures made { IfOk result (λ files. IfSome (R.remaining input) (λ text.
        IsMadeOf ⟦<FileFrom<S> as Disk>⟧ (image_at S.Start) text files)) }
{
    restored_logs_hold_what_is_said();
    let alloc = rt.alloc();
    let text = read_all(alloc, input)?;
    let named = match read_text(alloc, text.as_str()) {
        Ok(named) => named,
        Err(fault) => return Err(Failure::from(fault)),
    };
    let label = label_of(alloc, &named.heading.name, &named.heading.rms)?;
    match make_in_files(rt, beside, start, label.as_str(), &named.log) {
        Ok(files) => Ok(files),
        Err(fault) => Err(opening_failure_of(rt, beside, path, fault)),
    }
}

/// All that is read, as text.
fn read_all<R: Read + Drop>(alloc: Global, input: R) -> Result<String, Failure>
    ensures { IfOk result (λ text. IfSome (R.remaining input) (λ bytes.
        string_bytes text ≡ bytes)) }
{
    match io::read_to_string(alloc, input) {
        Ok(text) => Ok(text),
        Err(error) => Err(Failure::Input.caused_by(&error)),
    }
}

/// Makes a log with this label, of what lines say, in the files at a path, which stay locked.
fn make_in_files<S: Start>(
    rt: &HostRuntime,
    path: &str,
    start: S,
    label: &str,
    lines: &LogLines,
) -> Result<Files<FileFrom<S>>, LogFault>
    requires own { AllByRecursion OwnsBranches lines.now.decisions.items }
    requires fits { AllByRecursion (λ d. FitsRow d.gtrid) lines.now.decisions.items }
    ensures made { IfOk result (λ files. length (image_at S.Start).db ≡ 0 →
        MakesLabelled label.now (image_at S.Start) →
        AreClean ⟦<FileFrom<S> as Disk>⟧ files.log files.db →
        HoldsWhole (restored lines.now.incarnation lines.now.decisions.items nothing)
        (image_of ⟦<FileFrom<S> as Disk>⟧ files)) }
{
    let files = match SqlLog::lock(rt, path, start) {
        Ok(files) => files,
        Err(LockFault::InUse) => return Err(LogFault::Store),
        Err(LockFault::Log(fault)) => return Err(fault),
    };
    let log = match SqlLog::open_locked(rt, files, label) {
        Ok(log) => log,
        Err(fault) => return Err(fault),
    };
    match restore_in_files(rt.alloc(), log, lines) {
        Ok(files) => Ok(files),
        Err(fault) => Err(fault),
    }
}

/// Who opens files in which a log was made, with whatever label, is handed a log with the row of
/// each decision of its lines, no other row, no record, and as many starts as they say. This does
/// nothing: its clause is a law.
pub fn made_logs_are_handed_on<L: DecisionLog>()
    ensures { MadeLogsAreHandedOn L.moment }
{}

/// Gives a closed log, which is one file, the name of its place, where there is nothing, and sees that it is there for good.
fn move_log(rt: &HostRuntime, beside: &str, place: Absent<'_>) -> Result<(), Failure> {
    let path = place.path();
    if let Err(error) = fs::hard_link(rt, beside, path) {
        if error.kind() == ErrorKind::AlreadyExists {
            return Err(present(rt, path));
        }
        return Err(system_failure(rt.alloc(), path, &error));
    }
    refuse_rest(rt, path)?;
    // Nobody else opens the journal while the log is locked.
    remove_file(rt, journal_of(rt, path)?.as_str())?;
    remove_log(rt, beside)?;
    match sync_folder(rt, path) {
        Ok(()) => Ok(()),
        Err(error) => Err(system_failure(rt.alloc(), path, &error)),
    }
}

/// Takes a log from its place again, where a journal of another one has come there since the look.
fn refuse_rest(rt: &HostRuntime, path: &str) -> Result<(), Failure> {
    let failure = match SqlLog::has_journal(rt, path) {
        Ok(false) => return Ok(()),
        Ok(true) => present(rt, path),
        Err(fault) => opening_failure_of(rt, path, path, fault),
    };
    remove_file(rt, path)?;
    refuse_half(rt, path)?;
    Err(failure)
}

/// The path of the journal of the log at a path.
fn journal_of(rt: &HostRuntime, path: &str) -> Result<String, Failure> {
    Ok(journal_path(rt.alloc(), path)?)
}

/// Removes the file at a path, and its journal, where they are there.
fn remove_log(rt: &HostRuntime, path: &str) -> Result<(), Failure> {
    remove_file(rt, path)?;
    remove_file(rt, journal_of(rt, path)?.as_str())
}

/// Removes the file at a path, where there is one.
fn remove_file(rt: &HostRuntime, path: &str) -> Result<(), Failure> {
    match fs::remove_file(rt, path) {
        Err(error) if error.kind() != ErrorKind::NotFound => {
            Err(system_failure(rt.alloc(), path, &error))
        }
        _ => Ok(()),
    }
}

/// Syncs the folder of a path.
fn sync_folder(rt: &HostRuntime, path: &str) -> io::Result<()> {
    let folder = match Path::new(path).parent() {
        Some(folder) if !folder.as_str().is_empty() => folder,
        _ => Path::new("."),
    };
    File::open(rt, folder)?.sync_all()
}
