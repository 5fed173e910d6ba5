//! What is done for a driver, over a log in any store, over one in files, and over the log at a path.

ghost use Rattle.std.specs.Prelude.{◌≡◌, ◌≤◌, ℕ, List, false, map, option_map, true, IfErr, IfOk, IfSome, IsOk, OnOk, Ok};
ghost use Rattle.sqlite_disk.specs.declared.Files.{Files};
ghost use Rattle.std.specs.Io.Buffered.{reader_remaining};
ghost use Rattle.sqlite_wal.specs.Files.{image_at};
ghost use Rattle.xa_commands.specs.Failures.{failure_status};
ghost use Rattle.xa_commands.specs.Names.{MayName, label_of, name_given};
ghost use Rattle.xa_commands.specs.Services.{HasConductedFiles, HasConductedFrom, HasEnded, HasEndedByItself, HasEndedFiles, HasEndedNamed, HasFailed, HasFailedNamed, HasServedFrom, IsClosedInto, IsEndedInto, OpensAs};

use crate::conduct::conduct_in_files;
use crate::failure::Failure;
use crate::introduction::introduce;
use crate::log_names::{check_rm_names, label_of, manager_named};
use crate::log_reasons::in_use;
use crate::logs::{ClaimedLog, MOST_TRIES, broken_off, leave, leave_shut, open_claimed, pause};
use crate::stores::shut_in_files;
use sqlite::{FileFrom, FileStore, Start, Unknown};
use sqlite_disk::Disk;
use std::alloc::Global;
use std::io::{self, BufReader, BufWriter, Input, Read, Write};
use xa_files::RunFault;
use xa_log::{DecisionLog, LogFault};
use xa_names::ManagerName;
use xa_server::{ServeFault, Server};
use xa_sql_log::SqlLog;

/// What a service is asked to be: the coordinator of a driver of so many threads and resource managers, over the log at a path; of a
/// name, if one is given, and with the names of its resource managers, if these are.
#[derive(Clone, Copy)]
pub struct Service<'b, 'a> {
    pub name: Option<&'a str>,
    pub rm_names: &'b [&'a str],
    pub log: &'a str,
    /// The log has had so many starts at least, or is refused.
    pub at_least: u64,
    /// The driver says what its transactions do, and is told which calls to make; or else it asks for each step.
    pub by_moves: bool,
    pub threads: u32,
    pub rms: u32,
}

/// What came of a service whose names are names.
#[derive(Drop)]
pub enum Served {
    /// The log isn't open yet: another process has it, or it keeps more names from now on. Nothing
    /// was read or written.
    NotYet,
    /// The session went to its end, and this says whether the log could be closed.
    Closed(Result<(), LogFault>),
    /// The session is over since a branch was strange, and this says whether the log could be shut.
    Shut(Result<(), LogFault>),
    /// The session ended early, for this reason.
    BrokenOff(Failure),
}

/// The log of a session that is over, and why.
#[derive(Drop)]
pub enum Left<L: Drop> {
    /// The session went to its end.
    Whole(L),
    /// A resource manager listed a branch that no session over the log began.
    Strange(L),
}

/// Serves a driver of so many threads and resource managers over a log, as the manager of this name,
/// until it quits, its requests end, or a page was refused that lists a strange branch; and gives
/// the log back.
pub(crate) fn serve_over<L: DecisionLog + Drop, R: Read, W: Write>(
    alloc: Global,
    name: &ManagerName,
    threads: u32,
    rms: u32,
    log: L,
    input: &mut BufReader<R>,
    out: &mut W,
) -> Result<Left<L>, Failure>
    ensures ended { IfOk result (HasEnded L.DecisionLog name.now threads rms log
        (reader_remaining R.remaining input.old) (reader_remaining R.remaining input.new)
        (W.contents out.old) (W.contents out.new)) }
    ensures broken { IfErr result (HasFailed L.DecisionLog name.now threads rms log
        (reader_remaining R.remaining input.old) (W.contents out.old) (W.contents out.new)) }
    ensures status { IfErr result (λ failure. failure_status failure ≡ 2) }
{
    let mut server = Server::new(alloc, threads, rms, log)?;
    match server.serve_under(name, input, out) {
        Ok(()) => Ok(Left::Whole(server.into_log())),
        Err(ServeFault::Strange) => Ok(Left::Strange(server.into_log())),
        Err(fault) => Err(Failure::from(fault)),
    }
}

/// Copies the journal of a log into its file, and closes both.
pub(crate) fn closed_into<D: Disk + Drop>(log: SqlLog<FileStore<D>>) -> Result<(), LogFault>
    ensures { OnOk result ((files : Files D) × IsClosedInto D.Disk
        ⟦<SqlLog<FileStore<D>> as DecisionLog>⟧.moment log files) }
{
    match log.close_files() {
        Ok(_files) => Ok(()),
        Err((fault, _store)) => Err(fault),
    }
}

/// Closes the log of a session that is over, or shuts it if a branch was strange.
pub(crate) fn end_in_files<D: Disk + Drop>(left: Left<SqlLog<FileStore<D>>>) -> Served
    ensures { IsEndedInto D.Disk ⟦<SqlLog<FileStore<D>> as DecisionLog>⟧.moment result left }
{
    match left {
        Left::Whole(log) => Served::Closed(closed_into(log)),
        Left::Strange(log) => Served::Shut(shut_in_files(log)),
    }
}

/// The same over files, which are closed then. Tells why the session ended early, or whether the log
/// could be closed, or shut.
pub fn serve_in_files<D: Disk + Drop, R: Read, W: Write>(
    alloc: Global,
    name: &ManagerName,
    threads: u32,
    rms: u32,
    log: SqlLog<FileStore<D>>,
    input: &mut BufReader<R>,
    out: &mut W,
) -> Result<Served, Failure>
    ensures ended { IfOk result (HasEndedFiles D.Disk ⟦<SqlLog<FileStore<D>> as DecisionLog>⟧
        name.now threads rms log
        (reader_remaining R.remaining input.old) (reader_remaining R.remaining input.new)
        (W.contents out.old) (W.contents out.new)) }
    ensures broken { IfErr result (HasFailed ⟦<SqlLog<FileStore<D>> as DecisionLog>⟧
        name.now threads rms log (reader_remaining R.remaining input.old)
        (W.contents out.old) (W.contents out.new)) }
    ensures status { IfErr result (λ failure. failure_status failure ≡ 2) }
{
    match serve_over(alloc, name, threads, rms, log, input, out) {
        Ok(left) => Ok(end_in_files(left)),
        Err(failure) => Err(failure),
    }
}

/// The same behind the line that has the names, where there are some; and if the driver is one of
/// moves, it is conducted.
fn serve_named<D: Disk + Drop, R: Read, W: Write>(
    alloc: Global,
    name: &ManagerName,
    service: &Service<'_, '_>,
    log: SqlLog<FileStore<D>>,
    input: &mut BufReader<R>,
    out: &mut W,
) -> Result<Served, Failure>
    ensures ended { service.now.by_moves ≡ false →
        IfOk result (HasEndedNamed D.Disk ⟦<SqlLog<FileStore<D>> as DecisionLog>⟧
        name.now service.now.threads service.now.rms log
        (map (λ rm. rm.now) service.now.rm_names.now)
        (reader_remaining R.remaining input.old) (reader_remaining R.remaining input.new)
        (W.contents out.old) (W.contents out.new)) }
    ensures broken { service.now.by_moves ≡ false →
        IfErr result (HasFailedNamed D.Disk ⟦<SqlLog<FileStore<D>> as DecisionLog>⟧
        name.now service.now.threads service.now.rms log
        (map (λ rm. rm.now) service.now.rm_names.now)
        (reader_remaining R.remaining input.old) (W.contents out.old) (W.contents out.new)) }
    ensures moved { service.now.by_moves ≡ true →
        IfOk result (HasConductedFiles D.Disk ⟦<SqlLog<FileStore<D>> as DecisionLog>⟧
        name.now service.now.threads service.now.rms log) }
{
    introduce(alloc, name, service.rm_names, out)?;
    if service.by_moves {
        conduct_in_files(alloc, name, service.threads, service.rms, log, input, out)
    } else {
        serve_in_files(alloc, name, service.threads, service.rms, log, input, out)
    }
}

/// The log of a service as it was opened, and the name of the manager.
#[derive(Drop)]
struct Begun<L: Drop> {
    name: ManagerName,
    claimed: ClaimedLog<L>,
}

/// Opens the log of a service, or makes it. There is none if it is to be tried again.
fn begin<S: Start>(
    rt: &HostRuntime,
    service: &Service<'_, '_>,
    start: S,
) -> Result<Option<Begun<SqlLog<FileStore<FileFrom<S>>>>>, Failure>
    ensures names { IfOk result (λ _. MayName service.now.rms service.now.rm_names.now) }
    ensures given { IfOk result (λ _. (name : List ℕ) ×
        (name_given (option_map (λ name. name.now) service.now.name) ≡ Ok name)) }
    ensures name { IfOk result (λ begun. IfSome begun (λ b.
        name_given (option_map (λ name. name.now) service.now.name) ≡ Ok b.name)) }
    ensures opened { IfOk result (λ begun. IfSome begun (λ b. OpensAs
        ⟦<SqlLog<FileStore<FileFrom<S>>> as DecisionLog>⟧.moment (image_at S.Start)
        (label_of b.name (map (λ rm. rm.now) service.now.rm_names.now)) b.claimed.log)) }
    ensures old { IfOk result (λ begun. IfSome begun (λ b.
        service.now.at_least ≤ b.claimed.incarnation)) }
{
    let alloc = rt.alloc();
    check_rm_names(service.rm_names, service.rms)?;
    let name = manager_named(service.name)?;
    let label = label_of(alloc, &name, service.rm_names)?;
    match open_claimed(rt, service.log, start, label.as_str(), service.at_least) {
        Ok(Some(claimed)) => Ok(Some(Begun { name, claimed })),
        Ok(None) => Ok(None),
        Err(failure) => return Err(failure),
    }
}

/// Opens the log of a service, or makes it, serves the driver behind `input` and `out` over it, and closes it. `start` stands for
/// what the files of the log hold as they are opened; the contract speaks of each such start.
pub fn serve_from<S: Start, R: Read, W: Write>(
    rt: &HostRuntime,
    service: &Service<'_, '_>,
    start: S,
    input: &mut BufReader<R>,
    out: &mut W,
) -> Result<Served, Failure>
    ensures names { IfOk result (λ _. MayName service.now.rms service.now.rm_names.now) }
    ensures served { service.now.by_moves ≡ false → IfOk result (λ served. (name : List ℕ) ×
        (name_given (option_map (λ name. name.now) service.now.name) ≡ Ok name) ×
        HasServedFrom ⟦<FileFrom<S> as Disk>⟧
        ⟦<SqlLog<FileStore<FileFrom<S>>> as DecisionLog>⟧ (image_at S.Start) name
        (map (λ rm. rm.now) service.now.rm_names.now) service.now.threads service.now.rms
        (reader_remaining R.remaining input.old) (reader_remaining R.remaining input.new)
        (W.contents out.old) (W.contents out.new) served) }
    ensures moved { service.now.by_moves ≡ true → IfOk result (λ served. (name : List ℕ) ×
        (name_given (option_map (λ name. name.now) service.now.name) ≡ Ok name) ×
        HasConductedFrom ⟦<FileFrom<S> as Disk>⟧
        ⟦<SqlLog<FileStore<FileFrom<S>>> as DecisionLog>⟧ (image_at S.Start) name
        (map (λ rm. rm.now) service.now.rm_names.now) service.now.threads service.now.rms
        served) }
    ensures waits { result ≡ Ok Served.NotYet →
        (reader_remaining R.remaining input.new ≡ reader_remaining R.remaining input.old)
        × (W.contents out.new ≡ W.contents out.old) }
{
    let Some(begun) = begin(rt, service, start)? else {
        return Ok(Served::NotYet);
    };
    let Begun { name, claimed } = begun;
    match serve_named(rt.alloc(), &name, service, claimed.log, input, out) {
        Ok(served) => Ok(served),
        Err(failure) => Ok(Served::BrokenOff(failure)),
    }
}

/// The same, of files of the host: while another process has the log, this waits for a second.
fn serve_at<R: Read, W: Write>(
    rt: &HostRuntime,
    service: &Service<'_, '_>,
    input: &mut BufReader<R>,
    out: &mut W,
) -> Result<Served, Failure> {
    for _ in 0..MOST_TRIES {
        match serve_from(rt, service, Unknown, input, out)? {
            Served::NotYet => pause(rt),
            served => return Ok(served),
        }
    }
    Err(in_use(rt.alloc(), service.log))
}

/// What comes of a service of which so much came, whose replies were all written, or not.
fn end_of_service(
    rt: &HostRuntime,
    path: &str,
    served: Served,
    flushed: Result<(), io::Error>,
) -> Result<(), Failure>
    ensures ended { OnOk result (HasEndedByItself served) }
    ensures written { OnOk result (IsOk flushed) }
{
    match served {
        Served::NotYet => Err(in_use(rt.alloc(), path)),
        Served::Closed(closed) => {
            let left = leave(rt, path, closed);
            flushed.map_err(|_| Failure::Run(RunFault::Output))?;
            left
        }
        Served::Shut(was_shut) => Err(leave_shut(rt, path, was_shut)),
        Served::BrokenOff(failure) => Err(broken_off(rt, path, failure)),
    }
}

/// Serves the driver behind standard input and output as it is asked to.
pub fn serve(rt: &HostRuntime, service: &Service<'_, '_>) -> Result<(), Failure> {
    let alloc = rt.alloc();
    let mut input = BufReader::new(alloc, rt.reader()).map_err(|error| Failure::Input.caused_by(
        &error,
    ))?;
    let mut out = BufWriter::new(alloc, io::writer(rt)).map_err(|error| Failure::Run(
        RunFault::Output,
    ).caused_by(&error))?;
    let served = serve_at(rt, service, &mut input, &mut out)?;
    let flushed = out.flush();
    end_of_service(rt, service.log, served, flushed)
}
