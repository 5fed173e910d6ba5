//! Jobs on threads.

use crate::failure::Failure;
use crate::files::Source;
use crate::logs::{broken_off, leave, open_unnamed};
use crate::stores::run_jobs_in_files;
use std::io::Write;
use std::sync::Wait;
use std::thread::Threads;
use std::time::Clock;
use xa_jobs::run_job_file;
use xa_log::MemLog;

/// Runs the jobs of a file over the log at a path, or over one in memory, and prints how each ended. The log is opened before the
/// text is read as a jobs file. `threads` starts threads and waits for them.
pub fn run_threads<T: Threads + Wait + Clock + Sync, W: Write>(
    rt: &HostRuntime,
    threads: &T,
    source: Source<'_>,
    log: Option<&str>,
    out: &mut W,
) -> Result<(), Failure> {
    let alloc = rt.alloc();
    let Some(path) = log else {
        return match run_job_file(threads, alloc, source.text, MemLog::new(alloc), out) {
            Ok(_log) => Ok(()),
            Err(fault) => Err(source.failure(alloc, fault)),
        };
    };
    let opened = open_unnamed(rt, path)?;
    match run_jobs_in_files(threads, alloc, source.text, opened, out) {
        Ok(closed) => leave(rt, path, closed),
        Err(fault) => Err(broken_off(rt, path, source.failure(alloc, fault))),
    }
}
