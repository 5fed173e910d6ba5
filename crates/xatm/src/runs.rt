//! Runs of scenarios, over a log in memory and over the log at a path.

use sqlite::{Alter, FileStore};
use sqlite_disk::Disk;
use std::alloc::Global;
use std::io::Write;
use xa_commands::{Failure, Source, broken_off, close_in_files, leave, open_unnamed, texts_of};
use xa_diagnostics::{FileKind, run_json};
use xa_files::write_text;
use xa_log::{DecisionLog, LogFault, MemLog};
use xa_scenario::{FileFault, read_scenarios, run_scenarios};
use xa_sql_log::SqlLog;

/// Runs scenarios, each as a process, and gives the log back. A fault that is none of a file is given the place behind the
/// last one.
fn run_over<L: DecisionLog + Drop, W: Write>(
    alloc: Global,
    texts: &[Vec<u8>],
    log: L,
    with_trace: bool,
    out: &mut W,
) -> Result<Option<L>, FileFault> {
    let scenarios = read_scenarios(alloc, texts)?;
    match run_scenarios(alloc, &scenarios, log, with_trace, out) {
        Ok(left) => Ok(left),
        Err(fault) => Err(FileFault {
            file: texts.len(),
            fault,
        }),
    }
}

/// The same over a log in a store.
fn run_in_store<S: Alter + Drop, W: Write>(
    alloc: Global,
    texts: &[Vec<u8>],
    log: SqlLog<S>,
    with_trace: bool,
    out: &mut W,
) -> Result<Option<SqlLog<S>>, FileFault> {
    run_over(alloc, texts, log, with_trace, out)
}

/// The same over a log in files, which is closed then. Tells why the run ended early, or whether the log could be closed.
fn run_in_files<D: Disk + Drop, W: Write>(
    alloc: Global,
    texts: &[Vec<u8>],
    log: SqlLog<FileStore<D>>,
    with_trace: bool,
    out: &mut W,
) -> Result<Result<(), LogFault>, FileFault> {
    match run_in_store(alloc, texts, log, with_trace, out) {
        Ok(Some(left)) => Ok(close_in_files(left)),
        Ok(None) => Ok(Ok(())),
        Err(fault) => Err(fault),
    }
}

/// Runs the scenarios in files over the log at a path, or over one in memory. All files are read before the log is
/// opened, and that before their texts are read as scenarios.
pub(crate) fn run<W: Write>(
    rt: &HostRuntime,
    files: &[&str],
    log: Option<&str>,
    with_trace: bool,
    out: &mut W,
) -> Result<(), Failure> {
    let alloc = rt.alloc();
    let texts = texts_of(rt, files)?;
    let Some(path) = log else {
        return match run_over(alloc, &texts, MemLog::new(alloc), with_trace, out) {
            Ok(_left) => Ok(()),
            Err(fault) => Err(failure_of(alloc, files, &texts, fault)),
        };
    };
    let opened = open_unnamed(rt, path)?;
    match run_in_files(alloc, &texts, opened, with_trace, out) {
        Ok(closed) => leave(rt, path, closed),
        Err(fault) => Err(broken_off(rt, path, failure_of(alloc, files, &texts, fault))),
    }
}

/// The failure of a run of files. Where one of them is refused, all that is wrong with it is told.
fn failure_of(alloc: Global, files: &[&str], texts: &[Vec<u8>], fault: FileFault) -> Failure {
    match (files.get(fault.file), texts.get(fault.file)) {
        (Some(path), Some(text)) => {
            let source = Source {
                path,
                text,
                earlier: texts.get(..fault.file).unwrap_or(&[]),
                kind: FileKind::Scenario,
                is_whole: false,
            };
            source.failure(alloc, fault.fault)
        }
        _ => Failure::Run(fault.fault),
    }
}

/// Does so, and prints JSON.
pub(crate) fn run_as_json<W: Write>(
    rt: &HostRuntime,
    files: &[&str],
    log: Option<&str>,
    with_trace: bool,
    out: &mut W,
) -> Result<(), Failure> {
    let alloc = rt.alloc();
    let mut printed = Vec::new(alloc);
    run(rt, files, log, with_trace, &mut printed)?;
    let printed = String::from_utf8_lossy(alloc, printed.as_slice())?;
    let json = run_json(alloc, printed.as_str(), with_trace)?;
    Ok(write_text(json.as_bytes(), out)?)
}
