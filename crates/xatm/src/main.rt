//! Runs and checks scenario files, the calls of threads to the resource managers of distributed transactions; runs jobs
//! files, such transactions on threads; serves drivers of real databases; and lists decision logs.
//!
//! "XA" in these pages is X/Open CAE Specification C193, "Distributed Transaction Processing: The XA Specification"
//! (1991).
#![tactic(auto)]

mod command;
mod runs;
mod stories;

use crate::command::{Command, command_of, parser, service_of};
use crate::runs::{run, run_as_json};
use crate::stories::{check, draw, explain};
use clap::error::ErrorKind;
use std::alloc::Global;
use std::process::ExitCode;
use std::sync::Wait;
use std::thread::Threads;
use std::time::Clock;
use std::{env, io};
use xa_commands::{
    Failure, Source, list, list_as_json, make_log, open_log, output_to, rename_rms, run_threads,
    serve, shut_log, text_of,
};
use xa_diagnostics::FileKind;
use xa_files::RunFault;

fn main(rt: HostRuntime) -> ExitCode {
    match work(&rt, &rt) {
        Ok(()) => ExitCode::SUCCESS,
        Err(failure) => {
            // A text that can't be written changes no status.
            let _unwritten = failure.print(&rt);
            ExitCode::from(failure.status())
        }
    }
}

/// Reads the command line and does what it asks. `threads` is the runtime too, which starts threads and waits for
/// them.
fn work<T: Threads + Wait + Clock + Sync>(rt: &HostRuntime, threads: &T) -> Result<(), Failure> {
    let alloc = rt.alloc();
    let mut words: Vec<String> = env::args(rt)
        .map_err(|error| Failure::Words.caused_by(&error))?
        .collect(alloc)?;
    // Without any word the help is asked for.
    if words.len() < 2 {
        words.push(String::from_str(alloc, "--help")?)?;
    }
    match parser(alloc)?.try_get_matches_from(words.as_slice()) {
        Ok(matches) => perform(rt, threads, command_of(&matches).ok_or(Failure::Words)?),
        // Help that was asked for comes as an error of status 0.
        Err(error) if error.exit_code() == 0 => {
            error.print(rt).map_err(|_| Failure::Run(RunFault::Output))
        }
        Err(error) => Err(refused(alloc, &error)),
    }
}

/// The failure of a command line that the parser refuses.
fn refused(alloc: Global, error: &clap::Error) -> Failure {
    if error.kind() == ErrorKind::OutOfMemory {
        return Failure::Run(RunFault::Memory);
    }
    match format!(in alloc; "{error}") {
        Ok(text) => Failure::CommandLine(text),
        Err(error) => Failure::from(error),
    }
}

/// Does what a command asks.
fn perform<T: Threads + Wait + Clock + Sync>(
    rt: &HostRuntime,
    threads: &T,
    command: Command,
) -> Result<(), Failure> {
    // Nothing is buffered: all that is printed goes out in one text.
    let mut out = io::writer(rt);
    match command {
        Command::Run {
            files,
            log,
            with_trace,
            as_json,
        } => {
            if as_json {
                run_as_json(rt, files, log, with_trace, &mut out)
            } else {
                run(rt, files, log, with_trace, &mut out)
            }
        }
        Command::Check {
            files,
            explains,
            as_json,
        } => check(rt, files, explains, as_json, &mut out),
        Command::Explain { file, output } => {
            let told = explain(rt, file)?;
            output_to(rt, output, told.as_slice(), &mut out)
        }
        Command::Chart { file, output } => {
            let picture = draw(rt, file)?;
            output_to(rt, output, picture.as_slice(), &mut out)
        }
        Command::Threads { file, log } => {
            let text = text_of(rt, file)?;
            let source = Source::of(file, &text, FileKind::Jobs);
            run_threads(rt, threads, source, log, &mut out)
        }
        Command::Serve { service } => {
            serve(rt, &service_of(service, service.rm_names.unwrap_or(&[])))
        }
        Command::Log {
            path,
            explains,
            as_json,
        } => {
            if as_json {
                list_as_json(rt, path, &mut out)
            } else {
                list(rt, path, explains, &mut out)
            }
        }
        Command::MakeLog { path } => make_log(rt, path),
        Command::ShutLog { path } => shut_log(rt, path),
        Command::OpenLog { path } => open_log(rt, path),
        Command::RenameRms { path, change } => rename_rms(rt, path, change),
        Command::RefusedLog => Err(Failure::LogWords),
    }
}
