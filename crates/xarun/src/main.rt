//! What the program `xatm` does of files that it only looks at, over a log in memory: `run`,
//! `check`, `explain` and `chart`. It is small, so that `rt try` is soon done with it: `./xatm` has
//! it run if that program isn't built.
#![tactic(auto)]

use std::alloc::{AllocError, AllocFailed};
use std::process::ExitCode;
use std::{env, fs, io};
use xa_base::Memory;
use xa_diagnostics::{FileKind, check_jobs, kind_of, report, warnings};
use xa_display::{ChartFault, draw_scenario, explain_scenario};
use xa_files::{RunFault, write_text};
use xa_log::MemLog;
use xa_scenario::{check_scenario, read_scenarios, run_scenarios};

/// Why the program ends early.
#[derive(Drop)]
enum Failure {
    /// The command line is none of those that it takes.
    CommandLine,
    /// The file at this path can't be read.
    Unreadable(String),
    /// The work on the file ended early.
    Run(RunFault),
    /// A file is refused for this fault, and this text tells of all its faults.
    Told(RunFault, String),
    /// The run of the file has more events than a picture shows.
    TooLong,
}

impl Failure {
    /// This failure, or want of memory, if that is the cause.
    fn caused_by(self, error: &io::Error) -> Failure {
        match error.kind() {
            io::ErrorKind::OutOfMemory => Failure::Run(RunFault::Memory),
            _ => self,
        }
    }

    /// The status that the program ends with: 1 if the file is refused, 2 if the work on it fails,
    /// 3 if the command line is refused.
    fn status(&self) -> u8 {
        match self {
            Failure::CommandLine => 3,
            Failure::Unreadable(_) => 1,
            Failure::TooLong => 2,
            Failure::Run(fault) | Failure::Told(fault, _) => fault.status(),
        }
    }

    /// Prints the text of the failure.
    fn print(&self, rt: &HostRuntime) -> io::Result<()> {
        match self {
            Failure::CommandLine => eprintln!(rt; "xatm: command line"),
            Failure::Unreadable(path) => eprintln!(rt; "xatm: {path}: it can't be read"),
            Failure::Run(fault) => eprintln!(rt; "{fault}"),
            Failure::Told(_, text) => eprint!(rt; "{text}"),
            Failure::TooLong => eprintln!(rt; "xatm: chart: more than 200 events"),
        }
    }
}

impl From<RunFault> for Failure {
    fn from(fault: RunFault) -> Failure {
        Failure::Run(fault)
    }
}

impl From<Memory> for Failure {
    fn from(_error: Memory) -> Failure {
        Failure::Run(RunFault::Memory)
    }
}

impl From<AllocError> for Failure {
    fn from(_error: AllocError) -> Failure {
        Failure::Run(RunFault::Memory)
    }
}

impl<T: Drop> From<AllocFailed<T>> for Failure {
    fn from(_failed: AllocFailed<T>) -> Failure {
        Failure::Run(RunFault::Memory)
    }
}

fn main(rt: HostRuntime) -> ExitCode {
    match work(&rt) {
        Ok(()) => ExitCode::SUCCESS,
        Err(failure) => {
            // A text that can't be written changes no status.
            let _unwritten = failure.print(&rt);
            ExitCode::from(failure.status())
        }
    }
}

/// Does what the command line asks: `run FILE..`, `run --trace FILE..`, `check FILE..`, `check
/// --explain FILE..`, `explain FILE` or `chart FILE`.
fn work(rt: &HostRuntime) -> Result<(), Failure> {
    let alloc = rt.alloc();
    let words: Vec<String> = env::args(rt)
        .map_err(|error| Failure::CommandLine.caused_by(&error))?
        .collect(alloc)?;
    match words.as_slice() {
        [_, command, trace, files @ ..]
            if command.as_str() == "run" && trace.as_str() == "--trace" => { run(rt, files, true) }
        [_, command, files @ ..] if command.as_str() == "run" => run(rt, files, false),
        [_, command, explain, files @ ..]
            if command.as_str() == "check" && explain.as_str() == "--explain" => {
            check(rt, files, true)
        }
        [_, command, files @ ..] if command.as_str() == "check" => check(rt, files, false),
        [_, command, file] => look(rt, command, file),
        _ => Err(Failure::CommandLine),
    }
}

/// The failure of a file, after earlier ones, that was read for this.
fn failure_of(
    rt: &HostRuntime,
    path: &str,
    text: &[u8],
    earlier: &[Vec<u8>],
    kind: FileKind,
    fault: RunFault,
    is_whole: bool,
) -> Failure {
    if fault.status() != 1 {
        return Failure::Run(fault);
    }
    match report(rt.alloc(), path, text, earlier, kind, fault, is_whole) {
        Ok(told) => Failure::Told(fault, told),
        Err(error) => Failure::from(error),
    }
}

/// Reads files only. The failure is that of the last faulty one.
fn check(rt: &HostRuntime, files: &[String], is_whole: bool) -> Result<(), Failure> {
    let mut checked: Result<(), Failure> = Ok(());
    for path in files {
        if let Err(failure) = check_one(rt, path, files.len() > 1, is_whole) {
            if let Err(earlier) = &checked {
                let _unwritten = earlier.print(rt);
            }
            checked = Err(failure);
        }
    }
    checked
}

/// Reads one file only.
fn check_one(
    rt: &HostRuntime,
    path: &str,
    is_one_of_several: bool,
    is_whole: bool,
) -> Result<(), Failure> {
    let alloc = rt.alloc();
    let text = text_of(rt, path)?;
    let kind = kind_of(alloc, &text)?;
    let mut line = Vec::new(alloc);
    let checked = match kind {
        FileKind::Scenario => check_scenario(alloc, &text, &mut line),
        FileKind::Jobs => check_jobs(alloc, &text, &mut line),
    };
    if let Err(fault) = checked {
        return Err(failure_of(rt, path, &text, &[], kind, fault, is_whole));
    }
    let out = &mut io::writer(rt);
    if is_one_of_several {
        let before = format!(in alloc; "{path}: ")?;
        write_text(before.as_bytes(), out)?;
    }
    write_text(line.as_slice(), out)?;
    let told = warnings(alloc, path, &text)?;
    let _unwritten = eprint!(rt; "{told}");
    Ok(())
}

/// Tells the story of the scenario in a file, or draws it.
fn look(rt: &HostRuntime, command: &str, path: &str) -> Result<(), Failure> {
    let alloc = rt.alloc();
    let out = &mut io::writer(rt);
    let text = text_of(rt, path)?;
    let looked = match command {
        "explain" => explain_scenario(alloc, &text, MemLog::new(alloc), out),
        "chart" => match draw_scenario(alloc, &text, MemLog::new(alloc), out) {
            Ok(()) => Ok(()),
            Err(ChartFault::Run(fault)) => Err(fault),
            Err(ChartFault::TooLong) => return Err(Failure::TooLong),
        },
        _ => return Err(Failure::CommandLine),
    };
    match looked {
        Ok(()) => Ok(()),
        Err(fault) => Err(failure_of(rt, path, &text, &[], FileKind::Scenario, fault, false)),
    }
}

/// Runs the scenarios in files, each as a process.
fn run(rt: &HostRuntime, files: &[String], with_trace: bool) -> Result<(), Failure> {
    let alloc = rt.alloc();
    let mut texts = Vec::new(alloc);
    for file in files {
        texts.push(text_of(rt, file)?)?;
    }
    let scenarios = match read_scenarios(alloc, &texts) {
        Ok(scenarios) => scenarios,
        Err(fault) => {
            let at = fault.file;
            return Err(match (files.get(at), texts.get(at)) {
                (Some(path), Some(text)) => {
                    let earlier = texts.as_slice().get(..at).unwrap_or(&[]);
                    failure_of(
                        rt,
                        path,
                        text,
                        earlier,
                        FileKind::Scenario,
                        fault.fault,
                        false,
                    )
                }
                _ => Failure::Run(fault.fault),
            });
        }
    };
    run_scenarios(
        alloc,
        &scenarios,
        MemLog::new(alloc),
        with_trace,
        &mut io::writer(rt),
    )?;
    Ok(())
}

/// What a file holds.
fn text_of(rt: &HostRuntime, path: &str) -> Result<Vec<u8>, Failure> {
    match fs::read(rt, path) {
        Ok(text) => Ok(text),
        Err(error) => {
            Err(Failure::Unreadable(String::from_str(rt.alloc(), path)?).caused_by(&error))
        }
    }
}
