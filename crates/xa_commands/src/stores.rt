//! What is done over any log, over one in any store, and over one in files of any kind. Each step nearer to one kind of file makes
//! a proof several times as long, and that files are a store is proved anew for each call that asks for one. So a function does no
//! more there than to call the one behind it, once.

ghost use Rattle.std.specs.Prelude.{◌≡◌, IfOk, OnOk, Some};
ghost use Rattle.std.specs.List.{AllByRecursion};
ghost use Rattle.sqlite.specs.Files.{image_of};
ghost use Rattle.sqlite_disk.specs.declared.Files.{Files};
ghost use Rattle.sqlite_wal.specs.Reads.{AreClean};
ghost use Rattle.xa_commands.specs.Services.{IsShutInto};
ghost use Rattle.xa_log.specs.Content.{Content};
ghost use Rattle.xa_log.specs.Contract.{FitsRow, Honestly};
ghost use Rattle.xa_restore.specs.LogLines.{OwnsBranches};
ghost use Rattle.xa_restore.specs.Restored.{restored};
ghost use Rattle.xa_sql_log.specs.ClosedFiles.{HoldsWhole};

use sqlite::{Alter, FileStore, Files};
use sqlite_disk::Disk;
use std::alloc::Global;
use std::io::Write;
use std::sync::Wait;
use std::thread::Threads;
use std::time::Clock;
use xa_files::RunFault;
use xa_jobs::run_job_file;
use xa_listing::{explain_log, list_log};
use xa_log::{DecisionLog, LogFault};
use xa_restore::{LogLines, restore_log};
use xa_sql_log::SqlLog;

/// Runs the jobs of a file over a log in a store, and gives the log back.
fn run_jobs_over<S: Alter + Drop, T: Threads + Wait + Clock + Sync, W: Write>(
    threads: &T,
    alloc: Global,
    text: &[u8],
    log: SqlLog<S>,
    out: &mut W,
) -> Result<SqlLog<S>, RunFault> {
    run_job_file(threads, alloc, text, log, out)
}

/// The same over a log in files, which is closed then. Tells why the run ended early, or whether the log could be closed.
pub(crate) fn run_jobs_in_files<D: Disk + Drop, T: Threads + Wait + Clock + Sync, W: Write>(
    threads: &T,
    alloc: Global,
    text: &[u8],
    log: SqlLog<FileStore<D>>,
    out: &mut W,
) -> Result<Result<(), LogFault>, RunFault> {
    match run_jobs_over(threads, alloc, text, log, out) {
        Ok(log) => Ok(close_in_files(log)),
        Err(fault) => Err(fault),
    }
}

/// What is done over a log, whatever it is kept in. As it names no store, it is proved once for all logs.
pub(crate) trait OverLog {
    /// Does it, keeps what that comes to, and gives the log back.
    fn over<L: DecisionLog + Drop>(&mut self, log: L) -> L;
}

/// A list of a log, or what it asks of an operator, where the name of its manager is given.
#[derive(Drop)]
pub(crate) struct Listing<'a> {
    pub explained_for: Option<&'a [u8]>,
    /// What there is to say, as far as that was listed.
    pub text: Vec<u8>,
    pub listed: Result<(), RunFault>,
}

impl OverLog for Listing<'_> {
    ghost use Rattle.xa_listing.specs.Looks.{OnlyLooks};

    fn over<L: DecisionLog + Drop>(&mut self, mut log: L) -> L
        ensures looks { OnlyLooks L.DecisionLog log result self.new.listed }
    {
        self.listed = match self.explained_for {
            Some(manager) => explain_log(&mut log, manager, &mut self.text),
            None => list_log(&mut log, &mut self.text),
        };
        log
    }
}

/// Whether no manager can start over a log, for want of an incarnation.
#[derive(Drop)]
pub(crate) struct Spent(pub bool);

impl OverLog for Spent {
    fn over<L: DecisionLog + Drop>(&mut self, mut log: L) -> L {
        self.0 = matches!(log.bump(), Err(LogFault::Spent));
        log
    }
}

/// Does it over a log in a store, and gives that back.
fn work_over<S: Alter + Drop, W: OverLog>(log: SqlLog<S>, work: &mut W) -> SqlLog<S> {
    work.over(log)
}

/// Does it over a log in files, and closes that.
pub(crate) fn work_in_files<D: Disk + Drop, W: OverLog>(
    log: SqlLog<FileStore<D>>,
    work: &mut W,
) -> Result<(), LogFault> {
    close_in_files(work_over(log, work))
}

/// Copies the journal of a log into its file, and closes both.
pub fn close_in_files<D: Disk + Drop>(log: SqlLog<FileStore<D>>) -> Result<(), LogFault> {
    log.close()
}

/// Shuts a log, and closes its files.
pub(crate) fn shut_in_files<D: Disk + Drop>(log: SqlLog<FileStore<D>>) -> Result<(), LogFault>
    ensures { OnOk result ((files : Files D) × IsShutInto D.Disk
        ⟦<SqlLog<FileStore<D>> as DecisionLog>⟧.moment log files) }
{
    match log.shut() {
        Ok(_files) => Ok(()),
        Err(fault) => Err(fault),
    }
}

/// Writes into a log what lines say.
fn restore_over<S: Alter>(
    alloc: Global,
    log: &mut SqlLog<S>,
    lines: &LogLines,
) -> Result<(), LogFault>
    requires own { AllByRecursion OwnsBranches lines.now.decisions.items }
    requires fits { AllByRecursion (λ d. FitsRow d.gtrid) lines.now.decisions.items }
    ensures made { (c : Content) →
        (⟦<SqlLog<S> as DecisionLog>⟧.moment log.old).content ≡ Some c →
        Honestly (⟦<SqlLog<S> as DecisionLog>⟧.moment log.old)
        (⟦<SqlLog<S> as DecisionLog>⟧.moment log.new)
        (OnOk result ((⟦<SqlLog<S> as DecisionLog>⟧.moment log.new).content
        ≡ Some (restored lines.now.incarnation lines.now.decisions.items c))) }
    ensures order { (⟦<SqlLog<S> as DecisionLog>⟧.moment log.old).is_in_order →
        (⟦<SqlLog<S> as DecisionLog>⟧.moment log.new).is_in_order }
    ensures honest { (⟦<SqlLog<S> as DecisionLog>⟧.moment log.new).is_honest →
        (⟦<SqlLog<S> as DecisionLog>⟧.moment log.old).is_honest }
{
    restore_log(alloc, log, lines)
}

/// Does so over a log in files, and copies its journal: the files, which are still open, hold all that the lines say, and each holds
/// it whole by itself. Where a part of it failed there are no files.
pub(crate) fn restore_in_files<D: Disk + Drop>(
    alloc: Global,
    mut log: SqlLog<FileStore<D>>,
    lines: &LogLines,
) -> Result<Files<D>, LogFault>
    requires own { AllByRecursion OwnsBranches lines.now.decisions.items }
    requires fits { AllByRecursion (λ d. FitsRow d.gtrid) lines.now.decisions.items }
    ensures made { IfOk result (λ files.
        (⟦<SqlLog<FileStore<D>> as DecisionLog>⟧.moment log).is_in_order →
        AreClean D.Disk files.log files.db → (c : Content) →
        (⟦<SqlLog<FileStore<D>> as DecisionLog>⟧.moment log).content ≡ Some c →
        HoldsWhole (restored lines.now.incarnation lines.now.decisions.items c)
        (image_of D.Disk files)) }
    ensures honest { IfOk result (λ files. AreClean D.Disk files.log files.db →
        (⟦<SqlLog<FileStore<D>> as DecisionLog>⟧.moment log).is_honest) }
{
    restore_over(alloc, &mut log, lines)?;
    match log.close_files() {
        Ok(files) => Ok(files),
        Err((fault, _store)) => Err(fault),
    }
}

/// The incarnation of the manager that has started last over a log in a store.
fn incarnation_over<S: Alter>(log: &mut SqlLog<S>) -> Result<u64, LogFault> {
    log.incarnation()
}

/// The same over a log in files.
pub(crate) fn incarnation_in_files<D: Disk + Drop>(
    log: &mut SqlLog<FileStore<D>>,
) -> Result<u64, LogFault> {
    incarnation_over(log)
}
