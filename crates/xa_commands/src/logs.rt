//! The log at a path: how it is opened, and left.

ghost use Rattle.std.specs.Prelude.{◌≡◌, ◌<◌, ◌≤◌, IfErr, IfOk, IfSome, OnOk};
ghost use Rattle.sqlite_wal.specs.Files.{image_at};
ghost use Rattle.xa_commands.specs.Claims.{IsAdmitted};
ghost use Rattle.xa_commands.specs.Services.{OpensAs};

use crate::ages::is_older;
use crate::failure::Failure;
use crate::log_names::{half, refusal, verdict};
use crate::log_reasons::{in_use, opening_failure, place_failure, running_failure};
use crate::stores::close_in_files;
use sqlite::{FileFrom, FileStore, Start, Unknown};
use std::alloc::{AllocError, Global};
use std::fs;
use std::thread::sleep;
use std::time::Duration;
use xa_labels::label_files;
use xa_log::{DecisionLog, LogFault};
use xa_names::NameFault;
use xa_sql_log::{LockFault, LogHead, SqlLog};

/// A log in a file of the host.
pub type HostLog = SqlLog<FileStore<FileFrom<Unknown>>>;

/// How often a start tries to open a log that another process has, and how long it waits then. A look has a log for some
/// milliseconds, and a coordinator that ends has it no longer.
pub(crate) const MOST_TRIES: u32 = 20;

const PAUSE_MILLISECONDS: u64 = 50;

/// A log that was opened for a manager, and the incarnation that it had as it was looked at.
#[derive(Drop)]
pub(crate) struct ClaimedLog<L: Drop> {
    pub log: L,
    pub incarnation: u64,
}

/// Why the log at a path isn't opened for a manager.
#[derive(Drop)]
enum ClaimFault {
    /// Another process has it.
    InUse,
    /// Only a part of it is there.
    Half,
    /// It has this label, and so it is another's.
    Names(String, NameFault),
    /// It is shut.
    Shut,
    /// It has this incarnation, which is lower than was asked for.
    Older(u64),
    /// It keeps fewer names, and is to keep all of these.
    FewerNames,
    /// It can't be opened.
    Log(LogFault),
}

impl From<LogFault> for ClaimFault {
    fn from(fault: LogFault) -> ClaimFault {
        ClaimFault::Log(fault)
    }
}

impl From<AllocError> for ClaimFault {
    fn from(_error: AllocError) -> ClaimFault {
        ClaimFault::Log(LogFault::Memory)
    }
}

/// Waits, while another process has the log.
pub(crate) fn pause(rt: &HostRuntime) {
    // It is tried again in any case.
    let _slept = sleep(rt, Duration::from_millis(PAUSE_MILLISECONDS));
}

/// Refuses a log whose file is gone, of which the journal is still there. The file of a log that is being made is there before its
/// journal: so it is looked for once more when that was found.
fn check_journal(rt: &HostRuntime, path: &str) -> Result<(), ClaimFault> {
    if SqlLog::is_half(rt, path)? && !fs::exists(rt, path).unwrap_or(true) {
        return Err(ClaimFault::Half);
    }
    Ok(())
}

/// Refuses a log that is another's, or of which only a part is there. Its files are locked
/// meanwhile. Gives its incarnation.
fn check_claim(rt: &HostRuntime, path: &str, label: &str, at_least: u64) -> Result<u64, ClaimFault>
    ensures old { IfOk result (λ incarnation. at_least ≤ incarnation) }
{
    if SqlLog::is_half(rt, path)? {
        return Err(ClaimFault::Half);
    }
    admit(rt.alloc(), SqlLog::head(rt, path)?, label, at_least)
}

/// Refuses a log that says this of itself to whoever has another label, or asks for more starts, and
/// one that is shut to all. To whoever has more names it isn't refused for good. Gives its
/// incarnation, which is 0 where there is no log yet.
fn admit(
    alloc: Global,
    head: Option<LogHead>,
    label: &str,
    at_least: u64,
) -> Result<u64, ClaimFault>
    ensures admitted { IfOk result (IsAdmitted head label.now at_least) }
{
    let Some(head) = head else {
        check_age(0, at_least)?;
        return Ok(0);
    };
    if let Err(fault) = verdict(alloc, head.label.as_str(), label)? {
        return Err(ClaimFault::Names(head.label, fault));
    }
    if head.is_shut {
        return Err(ClaimFault::Shut);
    }
    check_age(head.incarnation, at_least)?;
    // The names that both have are the same ones.
    if head.label.len() < label.len() {
        return Err(ClaimFault::FewerNames);
    }
    Ok(head.incarnation)
}

/// Refuses a log of too low an incarnation.
fn check_age(incarnation: u64, at_least: u64) -> Result<(), ClaimFault>
    ensures old { OnOk result (at_least ≤ incarnation) }
    ensures fault { IfErr result (λ fault. (fault ≡ ClaimFault.Older incarnation) ×
        (incarnation < at_least)) }
{
    if is_older(incarnation, at_least) {
        return Err(ClaimFault::Older(incarnation));
    }
    Ok(())
}

/// Refuses a path without a file, if starts are asked for: a lock would make one.
fn check_missing(rt: &HostRuntime, path: &str, at_least: u64) -> Result<(), ClaimFault> {
    if fs::exists(rt, path).unwrap_or(true) {
        return Ok(());
    }
    check_age(0, at_least)
}

/// Opens the log at a path for whoever has this label, or makes it with the label. What the log keeps is looked at under the lock
/// that it then has.
fn claim_log<S: Start>(
    rt: &HostRuntime,
    path: &str,
    start: S,
    label: &str,
    at_least: u64,
) -> Result<ClaimedLog<SqlLog<FileStore<FileFrom<S>>>>, ClaimFault>
    ensures opened { IfOk result (λ claimed. OpensAs
        ⟦<SqlLog<FileStore<FileFrom<S>>> as DecisionLog>⟧.moment (image_at S.Start) label.now
        claimed.log) }
    ensures old { IfOk result (λ claimed. at_least ≤ claimed.incarnation) }
{
    check_journal(rt, path)?;
    check_missing(rt, path, at_least)?;
    let files = match SqlLog::lock(rt, path, start) {
        Ok(files) => files,
        Err(LockFault::InUse) => return Err(ClaimFault::InUse),
        Err(LockFault::Log(fault)) => return Err(ClaimFault::Log(fault)),
    };
    let incarnation = check_claim(rt, path, label, at_least)?;
    match SqlLog::open_locked(rt, files, label) {
        Ok(log) => Ok(ClaimedLog { log, incarnation }),
        Err(fault) => Err(ClaimFault::Log(fault)),
    }
}

/// Lets the log at a path keep a label that has more names than its own, unless another process has
/// it, or it is to be refused.
fn add_names(rt: &HostRuntime, path: &str, label: &str, at_least: u64) -> Result<(), LogFault> {
    let files = match SqlLog::lock(rt, path, Unknown) {
        Ok(files) => files,
        Err(LockFault::InUse) => return Ok(()),
        Err(LockFault::Log(fault)) => return Err(fault),
    };
    match check_claim(rt, path, label, at_least) {
        Err(ClaimFault::FewerNames) => {}
        _ => return Ok(()),
    }
    match SqlLog::open_locked(rt, files, "") {
        Ok(log) => label_files(rt.alloc(), log, label),
        Err(fault) => Err(fault),
    }
}

/// The failure of a log that is shut.
pub(crate) fn shut(alloc: Global, path: &str) -> Failure {
    let told = format!(in alloc;
        "{path}: it is shut: by hand, or since a resource manager listed a branch that no session \
        over it began, which another log knows, or a newer one; once that is settled, \
        `xatm log --open {path}` opens it"
    );
    match told {
        Ok(text) => Failure::Shut(text),
        Err(error) => Failure::from(error),
    }
}

/// The failure of a log that is older than was asked for.
fn older(alloc: Global, path: &str, incarnation: u64, at_least: u64) -> Failure {
    let told = format!(in alloc;
        "{path}: it is older than the log that was in use: its incarnation is {incarnation}, and \
        --at-least asks for {at_least}"
    );
    match told {
        Ok(text) => Failure::Older(text),
        Err(error) => Failure::from(error),
    }
}

/// The failure of a log that isn't opened for whoever has this label. There is none if another
/// process has it, or if it keeps more names from now on: then it is to be tried again.
fn claim_failure(
    rt: &HostRuntime,
    path: &str,
    label: &str,
    at_least: u64,
    fault: ClaimFault,
) -> Result<Option<Failure>, Failure> {
    let alloc = rt.alloc();
    match fault {
        ClaimFault::InUse => Ok(None),
        ClaimFault::FewerNames => match add_names(rt, path, label, at_least) {
            Ok(()) => Ok(None),
            Err(fault) => Ok(Some(opening_failure(rt, path, fault))),
        },
        ClaimFault::Half => Ok(Some(half(alloc, path))),
        ClaimFault::Shut => Ok(Some(shut(alloc, path))),
        ClaimFault::Older(incarnation) => Ok(Some(older(alloc, path, incarnation, at_least))),
        ClaimFault::Names(kept, fault) => Ok(Some(refusal(
            alloc,
            path,
            fault,
            kept.as_str(),
            label,
        )?)),
        ClaimFault::Log(fault) => Ok(Some(opening_failure(rt, path, fault))),
    }
}

/// Opens the log at a path for whoever has this label, or makes it. It is to be tried again if
/// another process has it, or if it keeps more names from now on. One that is another's is refused,
/// and so is half of a log. Of a path at which no log can be, nothing is made there.
pub(crate) fn open_claimed<S: Start>(
    rt: &HostRuntime,
    path: &str,
    start: S,
    label: &str,
    at_least: u64,
) -> Result<Option<ClaimedLog<SqlLog<FileStore<FileFrom<S>>>>>, Failure>
    ensures opened { IfOk result (λ claimed. IfSome claimed (λ c. OpensAs
        ⟦<SqlLog<FileStore<FileFrom<S>>> as DecisionLog>⟧.moment (image_at S.Start) label.now
        c.log)) }
    ensures old { IfOk result (λ claimed. IfSome claimed (λ c. at_least ≤ c.incarnation)) }
{
    if let Some(failure) = place_failure(rt, path)? {
        return Err(failure);
    }
    let fault = match claim_log(rt, path, start, label, at_least) {
        Ok(claimed) => return Ok(Some(claimed)),
        Err(fault) => fault,
    };
    match claim_failure(rt, path, label, at_least, fault)? {
        Some(failure) => Err(failure),
        None => Ok(None),
    }
}

/// Opens the log at a path, or makes it, for a manager without a name. One that keeps a name is refused, and so is half of a log.
/// While another process has it, this waits for a second.
pub fn open_unnamed(rt: &HostRuntime, path: &str) -> Result<HostLog, Failure> {
    for _ in 0..MOST_TRIES {
        if let Some(claimed) = open_claimed(rt, path, Unknown, "", 0)? {
            return Ok(claimed.log);
        }
        pause(rt);
    }
    Err(in_use(rt.alloc(), path))
}

/// What comes of a session that was told of a strange branch, by how its log was shut.
pub(crate) fn leave_shut(rt: &HostRuntime, path: &str, was_shut: Result<(), LogFault>) -> Failure {
    match was_shut {
        Ok(()) => shut(rt.alloc(), path),
        Err(fault) => opening_failure(rt, path, fault),
    }
}

/// What comes of a run that went to its end, by how its log was closed. A log that has failed can't be: it is opened anew for that.
pub fn leave(rt: &HostRuntime, path: &str, closed: Result<(), LogFault>) -> Result<(), Failure> {
    match closed {
        Ok(()) => Ok(()),
        Err(_) => gather(rt, path),
    }
}

/// The failure of a run over the log at a path that was broken off, with its reason where it is one of the log. The log's journal is
/// copied into its file, where it can be. Nobody may hold that log any longer.
pub fn broken_off(rt: &HostRuntime, path: &str, failure: Failure) -> Failure {
    let _gathered = gather(rt, path);
    running_failure(rt, path, failure)
}

/// Copies the journal of the log at a path into its file. Nobody may hold that log any longer.
fn gather(rt: &HostRuntime, path: &str) -> Result<(), Failure> {
    let gathered = match SqlLog::look(rt, path) {
        Ok(log) => close_in_files(log),
        Err(fault) => Err(fault),
    };
    gathered.map_err(|fault| opening_failure(rt, path, fault))
}
